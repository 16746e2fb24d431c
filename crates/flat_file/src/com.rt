//! The file that DOS loads behind a program segment prefix: .COM.
ghost use Rattle.std.specs.Prelude.{◌≡◌, ◌-◌, ◌^◌, ◌<◌, ◌==◌, ◌&&◌};
ghost use Rattle.omf_place.specs.Bounded.{IsBounded};
ghost use Rattle.flat_file.specs.Forms.{com_bytes, com_fault};
ghost use Rattle.flat_file.specs.Writing.{WritesForm};

use crate::bin::write_bin;
use crate::covered::first_covered;
use crate::fault::{FlatFault, FormFault};
use crate::stack::has_stack;
use omf_frame::{IoFault, Sink};
use omf_image::Program;
use omf_module::Module;
use omf_place::Layout;
use std::alloc::Allocator;

/// The offset in its segment at which a .COM file is loaded, behind the program segment prefix.
pub(crate) const COM_START: u16 = 0x100;

/// The most bytes that a segment has.
pub(crate) const SEGMENT_LEN: u32 = 65_536;

/// Whether a program starts at 100H of its first frame.
fn starts_at_100h<A: Allocator + Copy>(program: &Program<A>) -> bool
    ensures { result ≡ (program.now.registers.cs == 0 && program.now.registers.ip == 256) }
{
    let registers = program.registers();
    registers.cs == 0 && registers.ip == COM_START
}

/// What keeps a program from being a .COM file: the first by its number.
fn com_fault<A: Allocator + Copy>(
    modules: &[Module<A>],
    layout: &Layout<A>,
    program: &Program<A>,
) -> Option<FormFault>
    requires { IsBounded modules.now layout.now }
    ensures { result ≡ com_fault layout.now modules.now program.now }
{
    if !program.relocations().is_empty() {
        Some(FormFault::Relocated)
    } else if has_stack(modules, layout) {
        Some(FormFault::StackSegment)
    } else if !starts_at_100h(program) {
        Some(FormFault::OtherStart)
    } else if first_covered(modules, layout) < u32::from(COM_START) {
        Some(FormFault::DataBelow)
    } else if program.size() > SEGMENT_LEN {
        Some(FormFault::TooLong)
    } else {
        None
    }
}

/// Writes the .COM file of a program of modules: its written part from 100H on. It is refused exactly where one of the
/// five faults stands, the first of them by its number, and then the sink isn't called. Else the only fault is
/// `Device`, where the sink failed; it then holds a front of the file. No memory is taken.
pub fn write_com<A: Allocator + Copy, K: Sink>(
    modules: &[Module<A>],
    layout: &Layout<A>,
    program: &Program<A>,
    sink: &mut K,
) -> Result<(), FlatFault>
    requires working { K.failures sink.old < 2 ^ 64 - 1 }
    requires bounded { IsBounded modules.now layout.now }
    ensures { WritesForm K.written K.failures sink.old sink.new (com_fault layout.now modules.now program.now)
        (com_bytes program.now) result }
{
    if let Some(fault) = com_fault(modules, layout, program) {
        return Err(FlatFault::Form(fault));
    }
    match write_bin(program, 0, u32::from(COM_START), sink) {
        Ok(()) => Ok(()),
        Err(IoFault) => Err(FlatFault::Device),
    }
}
