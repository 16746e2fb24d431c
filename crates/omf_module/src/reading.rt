//! Reads the records of a module from a source, up to the first MODEND.
ghost use Rattle.std.specs.Prelude.{◌≡◌, ℕ, ◌+◌, ◌-◌, ◌^◌, ◌<◌, ◌++◌, List, Some};
ghost use Rattle.omf_record.specs.View.{view};
ghost use Rattle.omf_record.specs.Records.{Placed, is_end};
ghost use Rattle.omf_module.specs.declared.fault.FaultKind.{FaultKind};
ghost use Rattle.omf_module.specs.Tables.{module_of};
ghost use Rattle.omf_module.specs.inside.Building.{state};
ghost use Rattle.omf_module.specs.Bytes.{ModuleBytes, ReadingFault};
ghost use Rattle.omf_module.specs.Reading.{failures_in, Reads, IsModule, IsFault};
ghost use Rattle.omf_module.specs.inside.Reading.{TakesRecord};
ghost use Rattle.omf_module.specs.inside.ModuleFaults as module_fault;

use crate::builder::{AddFault, ModuleBuilder};
use crate::fault::{FaultKind, ModuleFault};
use crate::lookups::Module;
use omf_frame::{Frame, FrameBuf, FrameFault, Source};
use omf_record::{NoRecord, Record, RecordFault, parse_record};
use std::alloc::Allocator;

/// Why no frame was read, as a fault of the module.
fn read_fault(fault: FrameFault) -> ModuleFault
    ensures { result ≡ module_fault.read_fault fault }
{
    let (place, kind) = match fault {
        FrameFault::Device { place } => (place, FaultKind::Device),
        FrameFault::Framing { place, fault } => {
            (place, FaultKind::Absent(NoRecord::Framing(fault)))
        }
        FrameFault::Memory | FrameFault::Failed => return ModuleFault::Memory,
    };
    ModuleFault::Record { place, kind }
}

/// Why the frame at this place is no record, as a fault of the module.
fn parse_fault(place: u64, fault: RecordFault) -> ModuleFault
    ensures { result ≡ module_fault.parse_fault place fault }
{
    let absent = match fault {
        RecordFault::Memory => return ModuleFault::Memory,
        RecordFault::OtherType => NoRecord::Type,
        RecordFault::Body { at } => NoRecord::Body { at },
    };
    ModuleFault::Record {
        place,
        kind: FaultKind::Absent(absent),
    }
}

/// Why the record at this place wasn't taken, as a fault of the module.
fn add_fault(place: u64, fault: AddFault) -> ModuleFault
    ensures { result ≡ module_fault.add_fault place fault }
{
    let kind = match fault {
        AddFault::Memory => return ModuleFault::Memory,
        AddFault::Check(check) => FaultKind::Check(check),
    };
    ModuleFault::Record { place, kind }
}

/// Whether a record is MODEND, which ends a module.
#[tactic(auto, unfolding(omf_record::specs::View::view))]
fn is_end<A: Allocator + Copy>(record: &Record<'_, A>) -> bool
    ensures { result ≡ is_end (view «record».now) }
{
    matches!(record, Record::Modend { .. })
}

/// Takes the record of a frame, and says whether it is MODEND.
fn take_record<'a, A: Allocator + Copy + 'a>(
    alloc: A,
    builder: &mut ModuleBuilder<A>,
    frame: &Frame<'a>,
) -> Result<bool, ModuleFault>
    ensures { TakesRecord frame.now.kind frame.now.body.now frame.now.place (state builder.old)
        (state builder.new) result }
{
    let place = frame.place;
    let record = parse_record(alloc, frame).map_err(|fault| parse_fault(place, fault))?;
    builder
        .take(alloc, place, &record)
        .map_err(|fault| add_fault(place, fault))?;
    Ok(is_end(&record))
}

/// The module of the records that the source gives, up to the first MODEND; else the first fault.
fn read_records<A: Allocator + Copy, S: Source>(
    alloc: A,
    source: &mut S,
) -> Result<Module<A>, ModuleFault>
    requires { S.failures source.old < 2 ^ 64 - 1 }
    ensures device { S.failures source.new ≡ S.failures source.old + failures_in result }
    ensures reads { Reads (λ m. m) (S.remaining source.old) (S.remaining source.new) result }
{
    let mut buf = FrameBuf::new(alloc)?;
    let mut builder = ModuleBuilder::new(alloc);
    let mut place = 0u64;
    loop {
        let frame = match buf.next_record(source) {
            Ok(Some(frame)) => frame,
            Ok(None) => {
                return Err(ModuleFault::Record {
                    place,
                    kind: FaultKind::Absent(NoRecord::NoEnd),
                });
            }
            Err(fault) => return Err(read_fault(fault)),
        };
        if take_record(alloc, &mut builder, &frame)? {
            return Ok(builder.into_module());
        }
        place = frame.place + frame.body.len() as u64 + 4;
    }
}

/// The module whose records the source gives, up to the first MODEND, which is the last that is read; else the first
/// fault.
///
/// `Memory` comes only where memory was refused, and `Device` exactly where the source failed.
pub fn read_module<A: Allocator + Copy, S: Source>(
    alloc: A,
    source: &mut S,
) -> Result<Module<A>, ModuleFault>
    requires { S.failures source.old < 2 ^ 64 - 1 }
    // The source failed exactly where the answer is `Device`, and then once.
    ensures device { S.failures source.new ≡ S.failures source.old + failures_in result }
    // What was read, the answer, and where the source stands.
    ensures reads { Reads (λ m. m) (S.remaining source.old) (S.remaining source.new) result }
    // A whole sound module is answered, and no byte behind it read.
    ensures whole { (rs : List Placed) (bytes rest : List ℕ) → ModuleBytes rs bytes
        → S.remaining source.old ≡ Some (bytes ++ rest)
        → IsModule (λ m. m) (module_of rs) rest (S.remaining source.new) result }
    // A reading fault is answered, at its place.
    ensures fault { (bytes : List ℕ) (place : ℕ) (f : FaultKind) → ReadingFault bytes place f
        → S.remaining source.old ≡ Some bytes
        → IsFault place f result }
{
    read_records(alloc, source)
}
