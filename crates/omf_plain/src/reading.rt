//! Records as they are given, read from their frames.

ghost use Rattle.std.specs.Prelude.{◌≤◌, IfOk};
ghost use Rattle.omf_plain.specs.Given.{given_len};
ghost use Rattle.omf_plain.specs.Reading.{GivenAnswers};
ghost use Rattle.omf_plain.specs.View.{given_view};

use crate::fault::GivenFault;
use crate::given::Given;
use omf_extended::{parse_extended, parse_wide_repeated};
use omf_frame::Frame;
use omf_record::parse_record;
use omf_wide::{parse_wide, parse_wide_data};
use std::alloc::Allocator;

/// What the record of a frame says: one of the fourteen, one of 32 bits or of a type that says the same as another,
/// data of 32 bits, or one that came after Intel's; else why it says nothing, by the family of its type.
#[tactic(auto, using(crate::proofs::Lengths::narrow_len, crate::proofs::Lengths::wide_len, crate::proofs::Lengths::wide_repeated_len))]
pub fn read_given<'a, A: Allocator + Copy + 'a>(
    alloc: A,
    frame: &Frame<'a>,
) -> Result<Given<'a, A>, GivenFault>
    ensures answer { GivenAnswers frame.now.kind frame.now.body.now result }
    ensures short { IfOk result (λ g. given_len (given_view g) ≤ 65534) }
{
    match frame.kind {
        0x80 | 0x88 | 0x8C | 0x90 | 0x94 | 0x96 | 0x9A | 0xA0 | 0xA2 | 0xB4 | 0xB6 => {
            match parse_record(alloc, frame) {
                Ok(record) => Ok(Given::Narrow(record)),
                Err(fault) => Err(GivenFault::Narrow(fault)),
            }
        }
        0x82 | 0x8A | 0x8B | 0x91 | 0x95 | 0x98 | 0x99 | 0x9C | 0x9D | 0xB5 | 0xB7 | 0xBC | 0xCA =>
            match parse_wide(alloc, frame) {
                Ok(said) => Ok(Given::Wide(said)),
                Err(fault) => Err(GivenFault::Wide(fault)),
            },
        0xA1 => match parse_wide_data(alloc, frame.body) {
            Ok(data) => Ok(Given::Data(data)),
            Err(fault) => Err(GivenFault::Data(fault)),
        },
        0xA3 => match parse_wide_repeated(alloc, frame.body) {
            Ok(repeated) => Ok(Given::Repeated(repeated)),
            Err(fault) => Err(GivenFault::Repeated(fault)),
        },
        _ => match parse_extended(alloc, frame) {
            Ok(said) => Ok(Given::Later(said)),
            Err(fault) => Err(GivenFault::Later(fault)),
        },
    }
}
