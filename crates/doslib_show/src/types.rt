//! How types of records and classes of comments are printed.

ghost use Rattle.std.specs.Prelude.{◌≡◌, ◌++◌, OnOk};
ghost use Rattle.doslib_show.specs.Types as spec;

use omf_text::{Piece, push_pieces};
use omf_types::{CommentClass, RecordType};
use std::alloc::{AllocError, Allocator};

/// The mark of a type of 32 bits: its number is odd.
fn wide_mark(kind: u8) -> &'static str
    ensures { result.now ≡ spec.wide_mark kind }
{
    if kind % 2 == 1 { "32" } else { "" }
}

/// Appends the name of a type, and its number where the standard lists none.
pub(crate) fn push_type<A: Allocator + Copy>(
    lines: &mut Vec<u8, A>,
    kind: u8,
    record_type: Option<RecordType>,
) -> Result<(), AllocError>
    ensures { OnOk result (lines.new.items ≡ lines.old.items ++ spec.type_name kind record_type) }
{
    match record_type {
        Some(known) => {
            let pieces = [Piece::Text(known.name()), Piece::Text(wide_mark(kind))];
            push_pieces(lines, pieces.as_slice())
        }
        None => {
            let pieces = [Piece::Byte(kind), Piece::Text("H")];
            push_pieces(lines, pieces.as_slice())
        }
    }
}

/// Appends what the comments of a class are, where it is known.
pub(crate) fn push_class_title<A: Allocator + Copy>(
    lines: &mut Vec<u8, A>,
    class: Option<CommentClass>,
) -> Result<(), AllocError>
    ensures { OnOk result (lines.new.items ≡ lines.old.items ++ spec.class_title class) }
{
    match class {
        Some(known) => {
            let pieces = [Piece::Text(" "), Piece::Text(known.title())];
            push_pieces(lines, pieces.as_slice())
        }
        None => Ok(()),
    }
}

/// Whether the comments of a class are texts.
pub(crate) fn is_text(class: Option<CommentClass>) -> bool
    ensures { result ≡ spec.is_text class }
{
    match class {
        Some(
            CommentClass::Translator
            | CommentClass::Copyright
            | CommentClass::OldDefaultLibrary
            | CommentClass::MemoryModel
            | CommentClass::DefaultLibrary
            | CommentClass::Libmod
            | CommentClass::Exestr
            | CommentClass::Text
            | CommentClass::Compiler
            | CommentClass::Date
            | CommentClass::User
            | CommentClass::CommandLine,
        ) => true,
        _ => false,
    }
}
