//! Line numbers of a COMDAT: LINSYM.

ghost use Rattle.std.specs.Prelude.{◌≡◌, ◌<◌, ◌↔◌, ℕ, IsTrue};
ghost use Rattle.omf_extended.specs.declared.symbols.SymbolLine.{SymbolLine};
ghost use Rattle.omf_extended.specs.inside.Comdats as comdats;
ghost use Rattle.omf_extended.specs.inside.Lists as lists;

use omf_codec::codec::Made;
use omf_codec::numbers::Number;
use omf_codec::primitives::{Head, Word, ZeroHead};

/// A line number of a source text, and the offset of its first byte of code in the COMDAT.
#[derive(Clone, Copy, Debug, PartialEq, Eq)]
pub struct SymbolLine {
    pub number: u16,
    pub offset: u32,
}

/// Lines by their parts.
pub struct LineParts<const WIDE: bool>;

impl<const WIDE: bool> Made<(Word, Number<WIDE>)> for LineParts<WIDE> {
    type Item = SymbolLine;

    ghost Value = { SymbolLine };

    ghost format = { λ _. lists.line WIDE };

    ghost is_made = { λ _. lists.line_made WIDE };

    fn make(_number: u64, (number, offset): (u16, u32)) -> SymbolLine {
        SymbolLine { number, offset }
    }

    fn parts(item: &SymbolLine) -> (u16, u32) {
        (item.number, item.offset)
    }
}

/// Whether a LINSYM goes on with the lines of the one before it: bit 0 alone.
pub struct Continuation;

impl Head for Continuation {
    ghost Begins = { comdats.IsFlag };

    fn begins(byte: u8) -> bool {
        byte < 2
    }
}

impl ZeroHead for Continuation {
    ghost zero = { comdats.flag_zero };
}
