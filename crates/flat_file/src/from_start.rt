//! The file that begins where its program starts: at 0, or at 100H as a .COM file.
ghost use Rattle.std.specs.Prelude.{◌≡◌, ◌-◌, ◌^◌, ◌<◌, ◌==◌, ◌&&◌};
ghost use Rattle.omf_place.specs.Bounded.{IsBounded};
ghost use Rattle.flat_file.specs.Forms.{from_start_bytes, from_start_fault, one_segment_fault, starts_at_0, sys_bytes};
ghost use Rattle.flat_file.specs.Writing.{WritesForm};

use crate::com::{SEGMENT_LEN, write_com};
use crate::fault::{FlatFault, FormFault};
use crate::stack::has_stack;
use crate::sys::write_sys;
use omf_frame::Sink;
use omf_image::Program;
use omf_module::Module;
use omf_place::Layout;
use std::alloc::Allocator;

/// Whether a program starts at the first byte of its first frame.
fn starts_at_0<A: Allocator + Copy>(program: &Program<A>) -> bool
    ensures { result ≡ starts_at_0 program.now }
{
    let registers = program.registers();
    registers.cs == 0 && registers.ip == 0
}

/// What keeps a program that starts at 0 from being one segment: the first by its number.
fn one_segment_fault<A: Allocator + Copy>(
    modules: &[Module<A>],
    layout: &Layout<A>,
    program: &Program<A>,
) -> Option<FormFault>
    ensures { result ≡ one_segment_fault layout.now modules.now program.now }
{
    if !program.relocations().is_empty() {
        Some(FormFault::Relocated)
    } else if has_stack(modules, layout) {
        Some(FormFault::StackSegment)
    } else if program.size() > SEGMENT_LEN {
        Some(FormFault::TooLong)
    } else {
        None
    }
}

/// Writes the file of a program that starts at 0: its written part.
fn write_segment<A: Allocator + Copy, K: Sink>(
    modules: &[Module<A>],
    layout: &Layout<A>,
    program: &Program<A>,
    sink: &mut K,
) -> Result<(), FlatFault>
    requires { K.failures sink.old < 2 ^ 64 - 1 }
    ensures { WritesForm K.written K.failures sink.old sink.new (one_segment_fault layout.now modules.now program.now)
        (sys_bytes program.now) result }
{
    match one_segment_fault(modules, layout, program) {
        Some(fault) => Err(FlatFault::Form(fault)),
        None => write_sys(program, sink),
    }
}

/// Writes the file of a program of modules that begins at its start: the written part, from 0 or from 100H on. The
/// program is in one segment. At another start than 0 the file is the .COM file, with its faults. At 0 it is refused
/// exactly where a word is relocated, there is a stack segment, or it has more than 65,536 bytes: by the first of
/// these, and the sink isn't called. Else the only fault is `Device`, where the sink failed; it then holds a front of
/// the file. No memory is taken.
pub fn write_from_start<A: Allocator + Copy, K: Sink>(
    modules: &[Module<A>],
    layout: &Layout<A>,
    program: &Program<A>,
    sink: &mut K,
) -> Result<(), FlatFault>
    requires working { K.failures sink.old < 2 ^ 64 - 1 }
    requires bounded { IsBounded modules.now layout.now }
    ensures { WritesForm K.written K.failures sink.old sink.new
        (from_start_fault layout.now modules.now program.now) (from_start_bytes program.now) result }
{
    if starts_at_0(program) {
        write_segment(modules, layout, program, sink)
    } else {
        write_com(modules, layout, program, sink)
    }
}
