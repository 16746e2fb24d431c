//! The lines of faults at a place, and of faults of names.

ghost use Rattle.std.specs.Prelude.{◌≡◌, [], ◌∷◌, ◌++◌, OnOk, codes, decimal};
ghost use Rattle.std.specs.List.{concat};
ghost use Rattle.omf_search.specs.Results.{bytes_of};
ghost use Rattle.omf_text.specs.Printing.{printed_name};
ghost use Rattle.doslink_telling.specs.Lines as spec;

use omf_text::{Piece, push_pieces};
use std::alloc::{AllocError, Allocator};

/// Appends the line of a fault at a place of what the word stands for. `at` says before the place what is counted up to
/// it.
pub(crate) fn push_located<'p, A: Allocator + Copy>(
    lines: &mut Vec<u8, A>,
    word: &'p [u8],
    label: (u8, &'p str),
    at: &'p str,
    place: u64,
) -> Result<(), AllocError>
    ensures { OnOk result (lines.new.items ≡ lines.old.items
        ++ spec.located word.now (label.entry.0, label.entry.1.now) at.now place) }
{
    let (number, name) = label;
    let pieces = [
        Piece::Text("doslink: "),
        Piece::Bytes(word),
        Piece::Text(": "),
        Piece::Count(usize::from(number)),
        Piece::Text(" "),
        Piece::Text(name),
        Piece::Text(at),
        Piece::Count(place as usize),
        Piece::Text("\n"),
    ];
    push_pieces(lines, pieces.as_slice())
}

/// What stands before the word with this index, where words are listed.
fn word_joint(index: usize) -> &'static str
    ensures { result.now ≡ spec.word_joint index }
{
    if index == 0 { " in " } else { " and " }
}

/// Appends words, each behind what joins it to those before it.
fn push_listed<A: Allocator + Copy>(
    lines: &mut Vec<u8, A>,
    words: &[&[u8]],
) -> Result<(), AllocError>
    ensures { OnOk result (lines.new.items ≡ lines.old.items ++ spec.listed (bytes_of words.now)) }
{
    for (index, word) in words.iter().enumerate() {
        let pieces = [Piece::Text(word_joint(index)), Piece::Bytes(word)];
        push_pieces(lines, pieces.as_slice())?;
    }
    Ok(())
}

/// Appends what the line of a fault of a name begins with, and the name.
fn push_label<'p, A: Allocator + Copy>(
    lines: &mut Vec<u8, A>,
    label: (u8, &'p str),
    name: &'p [u8],
) -> Result<(), AllocError>
    ensures { OnOk result (lines.new.items ≡ lines.old.items
        ++ concat (codes "doslink: link: " ∷ decimal label.entry.0 ∷ codes " " ∷ label.entry.1.now ∷ codes " "
        ∷ printed_name name.now ∷ [])) }
{
    let (number, word) = label;
    let pieces = [
        Piece::Text("doslink: link: "),
        Piece::Count(usize::from(number)),
        Piece::Text(" "),
        Piece::Text(word),
        Piece::Text(" "),
        Piece::Name(name),
    ];
    push_pieces(lines, pieces.as_slice())
}

/// Appends the line of a fault of a name, with the words for the modules that it stands in.
pub(crate) fn push_named<A: Allocator + Copy>(
    lines: &mut Vec<u8, A>,
    label: (u8, &str),
    name: &[u8],
    words: &[&[u8]],
) -> Result<(), AllocError>
    ensures { OnOk result (lines.new.items ≡ lines.old.items
        ++ spec.named (label.entry.0, label.entry.1.now) name.now (bytes_of words.now)) }
{
    push_label(lines, label, name)?;
    push_listed(lines, words)?;
    lines.extend_from_slice(b"\n")
}
