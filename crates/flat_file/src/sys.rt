//! The file of a device driver: .SYS.
ghost use Rattle.std.specs.Prelude.{◌≡◌, ◌-◌, ◌^◌, ◌<◌};
ghost use Rattle.flat_file.specs.Forms.{sys_bytes, sys_fault};
ghost use Rattle.flat_file.specs.Writing.{WritesForm};

use crate::bin::write_bin;
use crate::fault::{FlatFault, FormFault};
use omf_frame::{IoFault, Sink};
use omf_image::Program;
use std::alloc::Allocator;

/// Writes the file of a device driver: the written part of the program. DOS loads it at the first byte of a segment, as
/// it stands, so it is refused exactly where a word is relocated, and then the sink isn't called. Else the only fault is
/// `Device`, where the sink failed; it then holds a front of the file. No memory is taken.
pub fn write_sys<A: Allocator + Copy, K: Sink>(
    program: &Program<A>,
    sink: &mut K,
) -> Result<(), FlatFault>
    requires { K.failures sink.old < 2 ^ 64 - 1 }
    ensures { WritesForm K.written K.failures sink.old sink.new (sys_fault program.now) (sys_bytes program.now) result }
{
    if !program.relocations().is_empty() {
        return Err(FlatFault::Form(FormFault::Relocated));
    }
    match write_bin(program, 0, 0, sink) {
        Ok(()) => Ok(()),
        Err(IoFault) => Err(FlatFault::Device),
    }
}
