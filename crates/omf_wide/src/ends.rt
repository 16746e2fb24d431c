//! The end of a module, whose start has a displacement of two bytes or four: MODEND.

ghost use Rattle.std.specs.Prelude.{◌≡◌, Bool, Option};
ghost use Rattle.omf_codec.specs.Language.{width_of};
ghost use Rattle.omf_record.specs.inside.Ends as ends;
ghost use Rattle.omf_wide.specs.Body.{ReferenceAt};
ghost use Rattle.omf_wide.specs.declared.fixups.WideReference.{WideReference};
ghost use Rattle.omf_wide.specs.inside.References.{reference_text};

use crate::fixups::{WideReference, WideReferenceField};
use omf_codec::choice::{Then, When};
use omf_codec::codec::Made;
use omf_codec::primitives::First;
use omf_record::fixups::Attribute;

/// The attribute byte, and a start where that says so.
pub type WideEndParts<const WIDE: bool> = Then<
    First<Attribute>,
    When<64, 2, 1, WideReferenceField<WIDE>>,
>;

/// Whether the module is the main one, and its start.
type End = (bool, Option<WideReference>);

/// Ends of modules by their parts.
pub struct WideEnd<const WIDE: bool>;

impl<const WIDE: bool> Made<WideEndParts<WIDE>> for WideEnd<WIDE> {
    type Item = End;

    ghost Value = { Bool × Option WideReference };

    ghost format = { λ _. ends.module_end (ReferenceAt (width_of WIDE)) (reference_text WIDE) };

    ghost is_made = { λ _. ends.end_made (ReferenceAt (width_of WIDE)) (reference_text WIDE) };

    fn make(_number: u64, parts: (u64, Option<WideReference>)) -> End {
        end_of(parts.0, parts.1)
    }

    fn parts(item: &End) -> (u64, Option<WideReference>) {
        (end_byte(*item), item.1)
    }
}

/// The end of a module that its attribute byte and its start say.
fn end_of(byte: u64, start: Option<WideReference>) -> End
    ensures { result ≡ ends.end_of byte start }
{
    (byte / 128 == 1, start)
}

/// The attribute byte: bit 7 of the main module, bits 6 and 0 where a start stands behind it.
fn end_byte(end: End) -> u64
    ensures { result ≡ ends.end_byte end }
{
    let main = if end.0 { 128 } else { 0 };
    match end.1 {
        Some(_) => main + 65,
        None => main,
    }
}
