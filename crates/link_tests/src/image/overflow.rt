//! Offsets and starts that need more than 16 bits.

ghost use Rattle.omf_place.specs.Bounded.{IsBounded};

use omf_image::{first_overflow, start_overflow};
use omf_module::Module;
use omf_place::{Layout, Names, place};
use rows::{read_modules, read_row, same};
use std::alloc::{AllocError, Allocator, Global};
use std::test::*;

/// Appends where something was found.
fn push_found(text: &mut String, found: Option<(usize, u64)>) -> Result<(), AllocError> {
    match found {
        Some((input, place)) => write!(text, "record {place} of input {input}"),
        None => text.push_str("none"),
    }
}

/// The first fix-up whose offset needs more than 16 bits, and the start that does.
fn found<A: Allocator + Copy>(
    words: Global,
    modules: &[Module<A>],
    layout: &Layout<A>,
) -> Result<String, AllocError>
    requires { IsBounded modules.now layout.now }
{
    let mut text = String::new(words);
    push_found(&mut text, first_overflow(modules, layout))?;
    text.push_str("; ")?;
    push_found(&mut text, start_overflow(modules, layout))?;
    Ok(text)
}

fn placed<A: Allocator + Copy>(
    alloc: A,
    words: Global,
    modules: &[Module<A>],
) -> Result<String, AllocError> {
    match place(alloc, modules, Names::Exact) {
        Ok(layout) => found(words, modules, &layout),
        Err(fault) => format!(in words; "{fault}"),
    }
}

fn outcome(alloc: Global, inputs: &[Vec<u8>]) -> Result<String, AllocError> {
    match read_modules(alloc, inputs) {
        Ok(modules) => placed(alloc, alloc, &modules),
        Err(fault) => format!(in alloc; "{fault}"),
    }
}

/// Rows of modules, each with where an offset and a start need more.
const TABLE: &str = "\
# FF00H and FFH, and one more
98 28 04 00 02 01 01
A0 01 00 00 00 FF 00 00
9C D4 00 50 01 FF 00
= none; none

98 28 04 00 02 01 01
A0 01 00 00 00 FF 00 00
9C D4 00 50 01 00 01
= record 37 of input 0; none

# -1 below the start of the frame, and above; and what is 65,536 less
98 28 04 00 02 01 01
A0 01 00 00 FF FF FF FF
9C D4 00 54 01
= record 37 of input 0; none

98 28 04 00 02 01 01
A0 01 00 00 FF FF FF FF
9C D4 00 50 01 01 00
= none; none

98 28 04 00 02 01 01
A0 01 00 00 00 00 FF FF
9C D4 00 50 01 FF FF
= record 37 of input 0; none

# the first of all that do
98 28 04 00 02 01 01
--
98 28 04 00 02 01 01
A0 01 00 00 00 FF 00 00
9C D4 00 50 01 00 00
9C D4 02 50 01 FF FF
A0 01 00 00 FF FF 00 00
9C D4 00 50 01 FF FF
= record 47 of input 1; none

# the lower byte is another fix-up's too, the upper one, or both
98 28 04 00 02 01 01
A0 01 00 00 00 00 00 00
9C D4 01 54 01
9C CC 00 54 01
= record 37 of input 0; none

98 28 04 00 02 01 01
A0 01 00 00 00 00 00 00
9C C0 01 54 01
9C D4 00 54 01
= record 45 of input 0; none

98 28 04 00 02 01 01
A0 01 00 00 00 00 00 00
9C D4 00 54 01 D4 00 54 01
= record 37 of input 0; none

# the bytes before and behind are
98 28 04 00 02 01 01
A0 01 00 00 00 00 00 00
9C C0 00 54 01 D4 01 54 01 C0 03 54 01
= none; none

98 28 06 00 02 01 01
A0 01 00 00 00 00 00 00 00 00
9C 84 00 54 01 D4 02 54 01 C8 04 54 01
= none; none

# another record of data, a word without a copy, one of 16 bits, and a target without a distance
98 28 04 00 02 01 01
A0 01 00 00 00 00
9C D4 00 54 01
A0 01 00 00 00 00
9C D4 00 54 01
= none; none

98 28 02 00 02 01 01
A2 01 00 00 00 00 00 00 02 00 00 02 00 00 00 01 05
9C D4 05 54 01 D4 05 54 01
= none; none

98 28 04 00 02 01 01
A0 01 00 00 FF FF 00 00
9C C4 00 50 01 FF FF C4 00 50 01 FF FF
= none; none

98 28 04 00 02 01 01
98 00 00 B8 00 00 40 01 01 01
A0 01 00 00 FF FF 00 00
9C D4 00 04 02 01 D4 00 04 02 01
= none; none

# a start at FFFFH, and behind it
98 28 01 00 02 01 01
8A C1 50 01 FF FF
= none; none

98 28 01 00 02 01 01
--
98 28 01 00 02 01 01
8A C1 50 01 FF FF
= none; record 26 of input 1

# two starts, and one that is at fault
98 28 01 00 02 01 01
8A C1 50 01 FF FF
--
98 28 01 00 02 01 01
8A C1 50 01 FF FF
= none; none

98 28 01 00 02 01 01
98 00 00 B8 00 00 40 01 01 01
8A C1 00 02 02 FF FF
= none; none";

#[test]
fn overflows(rt: HostRuntime) -> Result<(), Fail> {
    for row in TABLE.split("\n\n") {
        let row = read_row(rt.alloc(), row)?;
        let said = outcome(rt.alloc(), &row.inputs)?;
        same(said.as_str(), row.wanted)?;
    }
    Ok(())
}
