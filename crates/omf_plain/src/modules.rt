//! Modules as they are given, read as what they say.

ghost use Rattle.std.specs.Prelude.{◌≡◌, ◌+◌, ◌≤◌, ◌||◌, ℕ, List, [], length, map, IfOk};
ghost use Rattle.std.specs.List.{AllByRecursion};
ghost use Rattle.omf_alias.specs.Said.{renaming_said};
ghost use Rattle.omf_frame.specs.Lending.{plain_frame};
ghost use Rattle.omf_module.specs.Building.{Holds, IsTakable};
ghost use Rattle.omf_record.specs.Records.{Placed};
ghost use Rattle.omf_record.specs.View.{view};
ghost use Rattle.omf_plain.specs.declared.fault.PlainModuleFault.TheVariants as module_fault;
ghost use Rattle.omf_plain.specs.Given.{given_len};
ghost use Rattle.omf_plain.specs.ModuleAnswer.{ModuleAnswers};
ghost use Rattle.omf_plain.specs.Modules.{GivenRecord, Known, nothing_known};
ghost use Rattle.omf_plain.specs.Plain.{Taking};
ghost use Rattle.omf_plain.specs.View.{given_view};
ghost use Rattle.omf_plain.specs.inside.Walking as walking;
ghost use Rattle.omf_plain.specs.inside.Walking.{AddsAll, FrameAnswers, GivenIn, Has, TakesFrame};

use crate::comdats::comdat_in;
use crate::fault::{GivenFault, PlainFault, PlainModuleFault, RecordObstacle};
use crate::given::Given;
use crate::pass::Pass;
use crate::reading::read_given;
use crate::widths::Widths;
use omf_alias::Renaming;
use omf_comdat::ComdatFate;
use omf_extended::ExtendedFault;
use omf_frame::{Frame, FramingFault};
use omf_library::{FormatFault, LibraryFault, ends_module, record_at};
use omf_module::{AddFault, Module, ModuleBuilder};
use omf_record::{Record, RecordFault};
use omf_wide::WideFault;
use std::alloc::{Allocator, Global};

/// A module as it says what a link takes, and what it has of 32 bits.
#[derive(Drop)]
pub struct PlainModule<A: Allocator + Copy = Global> {
    pub module: Module<A>,
    pub widths: Widths,
}

/// What is read of a module.
#[derive(Drop)]
pub(crate) struct Reading<'a, A: Allocator + Copy> {
    alloc: A,
    pass: Pass<'a, A>,
    builder: ModuleBuilder<A>,
    widths: Widths,
}

/// Why no frame begins there.
fn framing_fault(fault: LibraryFault) -> FramingFault
    ensures { result ≡ walking.framing_fault fault }
{
    match fault {
        LibraryFault::Malformed {
            fault: FormatFault::ZeroLength,
            ..
        } => FramingFault::ZeroLength,
        LibraryFault::Malformed {
            fault: FormatFault::Closing,
            ..
        } => FramingFault::Closing,
        _ => FramingFault::Truncated,
    }
}

/// The place of a record that isn't taken, and why.
fn refused(place: usize, why: RecordObstacle) -> PlainModuleFault
    ensures { result ≡ module_fault.Record place why }
{
    PlainModuleFault::Record {
        place: place as u64,
        why,
    }
}

/// The frame at a place, which is no greater than the length of the bytes.
fn frame_in(bytes: &[u8], place: usize) -> Result<Frame<'_>, PlainModuleFault>
    requires { place ≤ length bytes.now }
    ensures frame { FrameAnswers bytes.now place result }
    ensures place { IfOk result (λ f. f.place ≡ place) }
    ensures within { IfOk result (λ f. place + (length f.body.now + 4) ≤ length bytes.now) }
{
    if place >= 4_294_901_760 {
        return Err(refused(place, RecordObstacle::Framing(FramingFault::InputTooLong)));
    }
    if place == bytes.len() {
        return Err(refused(place, RecordObstacle::NoEnd));
    }
    match record_at(bytes, place) {
        Ok(frame) => Ok(frame),
        Err(fault) => Err(refused(place, RecordObstacle::Framing(framing_fault(fault)))),
    }
}

/// Why the frame at a place holds no record, as a fault of the module.
fn body_fault(place: u64, fault: GivenFault) -> PlainModuleFault
    ensures { result ≡ walking.body_fault place fault }
{
    match fault {
        GivenFault::Narrow(RecordFault::Memory)
        | GivenFault::Wide(WideFault::Memory)
        | GivenFault::Data(WideFault::Memory)
        | GivenFault::Repeated(ExtendedFault::Memory)
        | GivenFault::Later(ExtendedFault::Memory) => PlainModuleFault::Memory,
        other => PlainModuleFault::Record {
            place,
            why: RecordObstacle::Body(other),
        },
    }
}

/// Why its record isn't taken.
fn taking_fault(place: u64, fault: PlainFault) -> PlainModuleFault
    ensures { result ≡ walking.taking_fault place fault }
{
    match fault {
        PlainFault::Memory => PlainModuleFault::Memory,
        PlainFault::Of(obstacle) => PlainModuleFault::Record {
            place,
            why: RecordObstacle::Obstacle(obstacle),
        },
    }
}

/// Why it isn't added to those before it.
fn adding_fault(place: u64, fault: AddFault) -> PlainModuleFault
    ensures { result ≡ walking.adding_fault place fault }
{
    match fault {
        AddFault::Memory => PlainModuleFault::Memory,
        AddFault::Check(check) => PlainModuleFault::Record {
            place,
            why: RecordObstacle::Check(check),
        },
    }
}

/// What the record of a frame says, or why it isn't read, as a fault of the module.
fn given_in<'a, A: Allocator + Copy + 'a>(
    alloc: A,
    frame: &Frame<'a>,
) -> Result<Given<'a, A>, PlainModuleFault>
    ensures given { GivenIn frame.now.kind frame.now.body.now frame.now.place result }
    ensures short { IfOk result (λ g. given_len (given_view g) ≤ 65534) }
{
    match read_given(alloc, frame) {
        Ok(given) => Ok(given),
        Err(fault) => Err(body_fault(frame.place, fault)),
    }
}

/// Adds the records of the fourteen that a frame's record is, at its place.
fn add_all<A: Allocator + Copy>(
    builder: &mut ModuleBuilder<A>,
    alloc: A,
    frame: &Frame<'_>,
    records: &[Record<'_, A>],
) -> Result<(), PlainModuleFault>
    requires { AllByRecursion IsTakable (map view records.now) }
    ensures { (before : List Placed) → Holds before builder.old
        → AddsAll before (plain_frame frame.now) (map view records.now) builder.new result }
{
    for record in records {
        match builder.add(alloc, frame.place, record) {
            Ok(()) => {}
            Err(fault) => return Err(adding_fault(frame.place, fault)),
        }
    }
    Ok(())
}

impl<'a, A: Allocator + Copy + 'a> Reading<'a, A> {
    /// Before the first record.
    fn new(
        alloc: A,
        keep_debug: bool,
        renaming: &Renaming<'a, 'a>,
        comdats: &'a [ComdatFate],
    ) -> Reading<'a, A>
        ensures { Has (record {
          keep_debug = keep_debug;
          renaming = renaming_said renaming.now;
          comdats = comdats.now;
        }) [] nothing_known result }
    {
        Reading {
            alloc,
            pass: Pass::new(alloc, keep_debug, renaming, comdats),
            builder: ModuleBuilder::new(alloc),
            widths: Widths {
                fixups: false,
                start: false,
                segments: false,
            },
        }
    }

    /// Takes what a frame holds, at its place.
    fn take(&mut self, frame: &Frame<'a>) -> Result<(), PlainModuleFault>
        ensures { (t : Taking) (gs : List GivenRecord) (k : Known) → Has t gs k self.old
            → TakesFrame t gs k (plain_frame frame.now) self.new result }
    {
        let place = frame.place;
        let given = given_in(self.alloc, frame)?;
        self.widths = self.widths.or(self.pass.widths_of(&given));
        if let Some((comdat, bytes)) = comdat_in(&given) {
            return match self.pass.take_comdat(&comdat, bytes) {
                Ok(records) => add_all(&mut self.builder, self.alloc, frame, &records),
                Err(fault) => Err(taking_fault(place, fault)),
            };
        }
        match self.pass.take(given) {
            Ok(None) => Ok(()),
            Ok(Some(record)) => match self.builder.add(self.alloc, place, &record) {
                Ok(()) => Ok(()),
                Err(fault) => Err(adding_fault(place, fault)),
            },
            Err(fault) => Err(taking_fault(place, fault)),
        }
    }
}

/// The module that the bytes begin with, its records of any width taken as the fourteen, up to the first MODEND; else
/// the first record that isn't taken, by its place in the bytes, and why. What debuggers read, of the classes DEBSYM,
/// DEBTYP and DWARF, is kept in the program where that is asked for; names mean what the aliases say; and of its COMDAT
/// records becomes what is said of each. `Memory` comes only where memory was refused.
pub fn read_plain<'a, A: Allocator + Copy + 'a>(
    alloc: A,
    bytes: &'a [u8],
    keep_debug: bool,
    renaming: &Renaming<'a, 'a>,
    comdats: &'a [ComdatFate],
) -> Result<PlainModule<A>, PlainModuleFault>
    ensures { ModuleAnswers (record {
      keep_debug = keep_debug;
      renaming = renaming_said renaming.now;
      comdats = comdats.now;
    }) bytes.now result }
{
    let mut reading = Reading::new(alloc, keep_debug, renaming, comdats);
    let mut place = 0;
    loop {
        let frame = frame_in(bytes, place)?;
        reading.take(&frame)?;
        if ends_module(frame.kind) {
            return Ok(PlainModule {
                module: reading.builder.finish(),
                widths: reading.widths,
            });
        }
        place += frame.body.len() + 4;
    }
}
