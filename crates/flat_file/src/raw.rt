//! The program at a paragraph, from an address on below which no data stands: a raw image.
ghost use Rattle.std.specs.Prelude.{◌≡◌, ◌-◌, ◌^◌, ◌<◌};
ghost use Rattle.omf_place.specs.Bounded.{IsBounded};
ghost use Rattle.flat_file.specs.Forms.{bin_bytes, raw_fault};
ghost use Rattle.flat_file.specs.Writing.{WritesForm};

use crate::bin::write_bin;
use crate::covered::{MEMORY_LEN, first_covered};
use crate::fault::{FlatFault, FormFault};
use omf_frame::{IoFault, Sink};
use omf_image::Program;
use omf_module::Module;
use omf_place::Layout;
use std::alloc::Allocator;

/// What keeps a program from being a raw image from an address on: data below it.
fn raw_fault<A: Allocator + Copy>(
    modules: &[Module<A>],
    layout: &Layout<A>,
    from: u32,
) -> Option<FormFault>
    requires { IsBounded modules.now layout.now }
    ensures { result ≡ raw_fault from layout.now modules.now }
{
    if first_covered(modules, layout) < from.min(MEMORY_LEN) {
        Some(FormFault::DataBelow)
    } else {
        None
    }
}

/// Writes the raw image of a program of modules at a paragraph, from an address on to the end of its written part. It
/// is refused exactly where data covers an address below that one, which the file would lack, and then the sink isn't
/// called. Else the only fault is `Device`, where the sink failed; it then holds a front of the file. No memory is
/// taken.
pub fn write_raw<A: Allocator + Copy, K: Sink>(
    modules: &[Module<A>],
    layout: &Layout<A>,
    program: &Program<A>,
    paragraph: u16,
    from: u32,
    sink: &mut K,
) -> Result<(), FlatFault>
    requires working { K.failures sink.old < 2 ^ 64 - 1 }
    requires bounded { IsBounded modules.now layout.now }
    ensures { WritesForm K.written K.failures sink.old sink.new (raw_fault from layout.now modules.now)
        (bin_bytes paragraph from program.now) result }
{
    if let Some(fault) = raw_fault(modules, layout, from) {
        return Err(FlatFault::Form(fault));
    }
    match write_bin(program, paragraph, from, sink) {
        Ok(()) => Ok(()),
        Err(IoFault) => Err(FlatFault::Device),
    }
}
