//! What keeps a record of a given module from being one of the fourteen, told by its place in the user's own file.

use crate::request::GivenModule;
use doslink_telling::{push_fault, push_foreign, push_obstacle};
use omf_extended::ExtendedFault;
use omf_faults::{InputFault, LinkFault};
use omf_plain::{GivenFault, Obstacle, RecordObstacle};
use omf_record::{NoRecord, RecordFault};
use omf_text::Hexadecimal;
use omf_types::record_name;
use omf_wide::WideFault;
use std::alloc::{AllocError, Allocator};

/// The type of a record that defines a segment of 16 bits.
const SEGDEF: u8 = 0x98;

/// How many bytes of a record stand in front of its body: its type and its length word.
const FRONT_OF_RECORD: usize = 3;

/// What is told of a record: a fault as `omf` has it, or what is in the way of it.
enum Told {
    Fault(InputFault),
    Obstacle(Obstacle),
}

/// The fault of a record whose body isn't one of its type: that of `omf`, where it reads records of that type.
fn body_fault(is_of_omf: bool, at: usize) -> Told {
    if is_of_omf {
        Told::Fault(InputFault::Absent(NoRecord::Body { at }))
    } else {
        Told::Obstacle(Obstacle::Body)
    }
}

/// Whether `omf` reads records of this type: one of the fourteen.
fn is_of_omf(kind: u8) -> bool {
    matches!(
        kind,
        0x80 | 0x88
            | 0x8A
            | 0x8C
            | 0x90
            | 0x94
            | 0x96
            | 0x98
            | 0x9A
            | 0x9C
            | 0xA0
            | 0xA2
            | 0xB4
            | 0xB6
    )
}

/// Whether a link takes records of this type beside those that `omf` reads: ones of 32 bits, and ones that came later.
fn is_taken_too(kind: u8) -> bool {
    matches!(
        kind,
        0x82 | 0x8B
            | 0x91
            | 0x95
            | 0x99
            | 0x9D
            | 0xA1
            | 0xA3
            | 0xB0
            | 0xB5
            | 0xB7
            | 0xB8
            | 0xBC
            | 0xC2
            | 0xC3
            | 0xC4
            | 0xC5
            | 0xC6
            | 0xCA
    )
}

/// What is told of a frame of this type that holds no record.
fn told_of_body(kind: u8, fault: GivenFault) -> Told {
    if !is_of_omf(kind) && !is_taken_too(kind) {
        return Told::Fault(InputFault::Absent(NoRecord::Type));
    }
    match fault {
        GivenFault::Narrow(RecordFault::Body { at })
        | GivenFault::Wide(WideFault::Body { at })
        | GivenFault::Data(WideFault::Body { at })
        | GivenFault::Repeated(ExtendedFault::Body { at })
        | GivenFault::Later(ExtendedFault::Body { at }) => body_fault(is_of_omf(kind), at),
        GivenFault::Wide(WideFault::Above16Bits { .. })
        | GivenFault::Data(WideFault::Above16Bits { .. }) => Told::Obstacle(Obstacle::Above16Bits),
        _ => Told::Fault(InputFault::Absent(NoRecord::Type)),
    }
}

/// Where the body of a SEGDEF isn't one whose segment is big (B) and has a length beside: at the first byte of its length
/// word that isn't 0.
fn length_place(body: &[u8]) -> usize {
    // an absolute segment (A = 0) has its frame and an offset in front of the length
    let place = match body.first() {
        Some(attributes) if *attributes < 0x20 => 4,
        _ => 1,
    };
    match body.get(place) {
        Some(0) => place + 1,
        _ => place,
    }
}

/// What is told of a record of this type.
fn told_of(kind: u8, body: &[u8], why: RecordObstacle) -> Told {
    match why {
        RecordObstacle::Framing(fault) => Told::Fault(InputFault::Absent(NoRecord::Framing(fault))),
        RecordObstacle::NoEnd => Told::Fault(InputFault::Absent(NoRecord::NoEnd)),
        RecordObstacle::Body(fault) => told_of_body(kind, fault),
        RecordObstacle::Obstacle(Obstacle::Body) if kind == SEGDEF => {
            let at = length_place(body);
            Told::Fault(InputFault::Absent(NoRecord::Body { at }))
        }
        RecordObstacle::Obstacle(Obstacle::OtherType) => {
            Told::Fault(InputFault::Absent(NoRecord::Type))
        }
        RecordObstacle::Obstacle(obstacle) => Told::Obstacle(obstacle),
        RecordObstacle::Check(fault) => Told::Fault(InputFault::Check(fault)),
    }
}

/// Puts a type into the last line, in parentheses before its end: two hexadecimal digits, and its name where the
/// standard has one.
fn push_type<A: Allocator + Copy>(lines: &mut Vec<u8, A>, kind: u8) -> Result<(), AllocError> {
    lines.pop();
    lines.extend_from_slice(b" (")?;
    lines.extend_from_slice(Hexadecimal::new(u64::from(kind), 2).as_bytes())?;
    if let Some(name) = record_name(kind) {
        lines.push(b' ')?;
        lines.extend_from_slice(name.as_bytes())?;
    }
    lines.extend_from_slice(b")\n")?;
    Ok(())
}

/// Tells a fault of the record at a place of a module; of its first one what the file is.
fn tell_fault<A: Allocator + Copy>(
    alloc: A,
    given: GivenModule<'_, '_>,
    place: u64,
    fault: InputFault,
    lines: &mut Vec<u8, A>,
) -> Result<(), AllocError> {
    let record = LinkFault::Record {
        input: 0,
        place,
        fault,
    };
    push_fault(alloc, lines, &record, given.word)?;
    if let (InputFault::Absent(NoRecord::Type), Some(kind)) = (
        fault,
        given.bytes.get(place as usize),
    ) {
        push_type(lines, *kind)?;
    }
    if place == 0 {
        push_foreign(lines, given.bytes)?;
    }
    Ok(())
}

/// The bytes from a place on; none behind the last.
fn behind(bytes: &[u8], place: usize) -> &[u8] {
    &bytes[place.min(bytes.len())..]
}

/// Tells what keeps the record at a place of a module from being one of the fourteen.
pub(crate) fn tell_record<A: Allocator + Copy>(
    alloc: A,
    given: GivenModule<'_, '_>,
    place: u64,
    why: RecordObstacle,
    lines: &mut Vec<u8, A>,
) -> Result<(), AllocError> {
    let record = behind(given.bytes, place as usize);
    let kind = record.first().copied().unwrap_or(0);
    match told_of(kind, behind(record, FRONT_OF_RECORD), why) {
        Told::Fault(fault) => tell_fault(alloc, given, place, fault, lines),
        Told::Obstacle(obstacle) => push_obstacle(lines, given.word, place, obstacle),
    }
}
