//! The faults of what a command calls, as faults of the command. Each function here is called as the type that it
//! takes; `fault_at` takes what is wrong at a place.
ghost use Rattle.std.specs.Prelude.{◌≡◌};
ghost use Rattle.omf_commands.specs.Faults.{fault_at, module_fault};
ghost use Rattle.omf_commands.specs.inside.Faults.{fix_fault, frame_fault, mz_fault, place_fault, record_fault};

use mz::MzFault;
use omf_faults::{InputFault, LinkFault, ProgramFault};
use omf_frame::FrameFault;
use omf_image::FixFault;
use omf_module::{FaultKind, ModuleFault};
use omf_place::PlaceFault;
use omf_record::{NoRecord, RecordFault};
use std::alloc::Allocator;

/// A fault of reading a record of the only input.
pub(crate) fn frame_fault<A: Allocator + Copy>(fault: FrameFault) -> LinkFault<A>
    ensures { result ≡ frame_fault fault }
{
    match fault {
        FrameFault::Device { place } => LinkFault::Device { input: 0, place },
        FrameFault::Framing { place, fault } => LinkFault::Record {
            input: 0,
            place,
            fault: InputFault::Absent(NoRecord::Framing(fault)),
        },
        FrameFault::Memory | FrameFault::Failed => LinkFault::Memory,
    }
}

/// A fault of the body at this place in the only input.
pub(crate) fn record_fault<A: Allocator + Copy>(place: u64, fault: RecordFault) -> LinkFault<A>
    ensures { result ≡ record_fault place fault }
{
    let absent = match fault {
        RecordFault::Memory => return LinkFault::Memory,
        RecordFault::OtherType => NoRecord::Type,
        RecordFault::Body { at } => NoRecord::Body { at },
    };
    LinkFault::Record {
        input: 0,
        place,
        fault: InputFault::Absent(absent),
    }
}

/// A fault at the place of a record of the input with this index.
fn fault_at<A: Allocator + Copy>(input: usize, place: u64, kind: FaultKind) -> LinkFault<A>
    ensures { result ≡ fault_at input place kind }
{
    let fault = match kind {
        FaultKind::Device => return LinkFault::Device { input, place },
        FaultKind::Absent(why) => InputFault::Absent(why),
        FaultKind::Check(fault) => InputFault::Check(fault),
    };
    LinkFault::Record {
        input,
        place,
        fault,
    }
}

/// A fault of reading the input with this index as a module.
pub fn module_fault<A: Allocator + Copy>(input: usize, fault: ModuleFault) -> LinkFault<A>
    ensures { result ≡ module_fault input fault }
{
    match fault {
        ModuleFault::Memory => LinkFault::Memory,
        ModuleFault::Record { place, kind } => fault_at(input, place, kind),
    }
}

/// A fault of placing the modules.
pub(crate) fn place_fault<A: Allocator + Copy>(fault: PlaceFault<A>) -> LinkFault<A>
    ensures { result ≡ place_fault fault }
{
    let fault = match fault {
        PlaceFault::Memory => return LinkFault::Memory,
        PlaceFault::SegmentTooLong { name } => ProgramFault::SegmentTooLong(name),
        PlaceFault::ProgramTooLarge => ProgramFault::ProgramTooLarge,
        PlaceFault::GroupTooLong { name } => ProgramFault::GroupTooLong(name),
        PlaceFault::DuplicatePublic { name } => ProgramFault::DuplicatePublic(name),
    };
    LinkFault::Program(fault)
}

/// A fault of building the program.
pub(crate) fn fix_fault<A: Allocator + Copy>(fault: FixFault) -> LinkFault<A>
    ensures { result ≡ fix_fault fault }
{
    match fault {
        FixFault::At { kind, input, place } => LinkFault::Record {
            input,
            place,
            fault: InputFault::Fix(kind),
        },
        FixFault::TooManyRelocations => LinkFault::Program(ProgramFault::TooManyRelocations),
        FixFault::Memory => LinkFault::Memory,
    }
}

/// A fault of reading or loading a program's file, which is the only input.
pub(crate) fn mz_fault<A: Allocator + Copy>(fault: MzFault) -> LinkFault<A>
    ensures { result ≡ mz_fault fault }
{
    match fault {
        MzFault::File(fault) => LinkFault::File(fault),
        MzFault::Memory => LinkFault::Memory,
    }
}
