//! The numbers and names of the faults of records.
ghost use Rattle.std.specs.Prelude.{◌≡◌};
ghost use Rattle.doslib_match.specs.Labels as spec;

use omf_extended::ExtendedFault;
use omf_frame::FramingFault;
use omf_plain::{GivenFault, Obstacle, RecordObstacle};
use omf_record::RecordFault;
use omf_wide::WideFault;

/// The type of a record of communal variables that modules share.
const COMDEF: u8 = 0xB0;

/// The number and the name of why no record begins.
fn framing_label(fault: FramingFault) -> (u8, &'static str)
    ensures number { result.0 ≡ (spec.framing_label fault).0 }
    ensures name { result.1.now ≡ (spec.framing_label fault).1 }
{
    match fault {
        FramingFault::ZeroLength => (43, "ZeroLength"),
        FramingFault::Truncated => (44, "Truncated"),
        FramingFault::Closing => (45, "Closing"),
        FramingFault::InputTooLong => (41, "InputTooLong"),
    }
}

/// Those of a body that isn't one of its type, where records of that type say the same with 16 and with 32 bits.
fn wide_label(kind: u8) -> (u8, &'static str)
    ensures number { result.0 ≡ (spec.wide_label kind).0 }
    ensures name { result.1.now ≡ (spec.wide_label kind).1 }
{
    if kind == 0x8A || kind == 0x98 || kind == 0x9C {
        (6, "Body")
    } else {
        (51, "Body")
    }
}

/// Those of a body that isn't one of its type, where the type came after Intel's.
fn later_label(kind: u8) -> (u8, &'static str)
    ensures number { result.0 ≡ (spec.later_label kind).0 }
    ensures name { result.1.now ≡ (spec.later_label kind).1 }
{
    if kind == COMDEF {
        (53, "Body")
    } else if kind == 0xB8 || kind == 0xC6 {
        (51, "Body")
    } else {
        (5, "Type")
    }
}

/// Those of why a frame of this type holds no record.
fn body_label(kind: u8, fault: GivenFault) -> (u8, &'static str)
    ensures number { result.0 ≡ (spec.body_label kind fault).0 }
    ensures name { result.1.now ≡ (spec.body_label kind fault).1 }
{
    match fault {
        GivenFault::Narrow(RecordFault::OtherType)
        | GivenFault::Wide(WideFault::OtherType)
        | GivenFault::Later(ExtendedFault::OtherType) => (5, "Type"),
        GivenFault::Wide(WideFault::Above16Bits { .. })
        | GivenFault::Data(WideFault::Above16Bits { .. }) => (49, "Above16Bits"),
        GivenFault::Narrow(_) => (6, "Body"),
        GivenFault::Wide(_) => wide_label(kind),
        GivenFault::Data(_) | GivenFault::Repeated(_) => (51, "Body"),
        GivenFault::Later(_) => later_label(kind),
    }
}

/// Those of a communal variable that is neither near nor far.
fn data_type_label(kind: u8) -> (u8, &'static str)
    ensures number { result.0 ≡ (spec.data_type_label kind).0 }
    ensures name { result.1.now ≡ (spec.data_type_label kind).1 }
{
    if kind == COMDEF {
        (54, "DataType")
    } else {
        (48, "DataType")
    }
}

/// Those of what of a record of this type has no saying in the fourteen.
fn saying_label(kind: u8, obstacle: Obstacle) -> (u8, &'static str)
    ensures number { result.0 ≡ (spec.saying_label kind obstacle).0 }
    ensures name { result.1.now ≡ (spec.saying_label kind obstacle).1 }
{
    match obstacle {
        Obstacle::OtherType => (5, "Type"),
        Obstacle::DataType => data_type_label(kind),
        Obstacle::Above16Bits => (49, "Above16Bits"),
        Obstacle::OutsideData => (50, "Location"),
        Obstacle::Body => wide_label(kind),
        Obstacle::TooLong => (52, "TooLong"),
        Obstacle::EasyOmf => (63, "EasyOmf"),
        Obstacle::ImportedName => (64, "ImportedName"),
        Obstacle::FlatFrame => (65, "FlatFrame"),
        Obstacle::LateSegment => (80, "LateSegment"),
    }
}

/// Those of why a record of this type isn't taken.
pub(crate) fn obstacle_label(kind: u8, why: RecordObstacle) -> (u8, &'static str)
    ensures number { result.0 ≡ (spec.obstacle_label kind why).0 }
    ensures name { result.1.now ≡ (spec.obstacle_label kind why).1 }
{
    match why {
        RecordObstacle::Framing(fault) => framing_label(fault),
        RecordObstacle::NoEnd => (44, "Truncated"),
        RecordObstacle::Body(fault) => body_label(kind, fault),
        RecordObstacle::Obstacle(obstacle) => saying_label(kind, obstacle),
        RecordObstacle::Check(check) => check.label(),
    }
}
