//! The words for modules, and the modules that are linked.
ghost use Rattle.std.specs.Prelude.{◌≡◌, ◌++◌, IfOk, OnOk, Some, map, take};
ghost use Rattle.std.specs.Option.{option_copied};
ghost use Rattle.omf_search.specs.Results.{module_said};
ghost use Rattle.doslink_stock.specs.Files.{needs};
ghost use Rattle.doslink_stock.specs.Seen.{entry_held, handed_held};
ghost use Rattle.doslink_telling.specs.Words as spec;

use doslink_stock::{Entry, Handed};
use omf_search::Said;
use omf_text::{Piece, push_pieces};
use std::alloc::{AllocError, Allocator};

/// The path of the file with this index; empty behind the last.
pub(crate) fn path_of<'p>(paths: &[&'p str], file: usize) -> &'p str
    ensures { result.now ≡ spec.path_of paths.now file }
{
    match paths.get(file) {
        Some(path) => path,
        None => "",
    }
}

/// The word with this index; empty behind the last.
pub fn word_at<A: Allocator + Copy>(words: &[Vec<u8, A>], index: usize) -> &[u8]
    ensures { result.now ≡ spec.word_at words.now index }
{
    match words.get(index) {
        Some(word) => word.as_slice(),
        None => b"",
    }
}

/// How many bytes of a name are told.
const MOST_BYTES: usize = 255;

/// As much of a name as is told.
pub(crate) fn told_part(name: &[u8]) -> &[u8]
    ensures { result.now ≡ take spec.most_bytes name.now }
{
    if name.len() <= MOST_BYTES {
        name
    } else {
        &name[..MOST_BYTES]
    }
}

/// What stands behind a name that is cut.
pub(crate) fn cut_end(name: &[u8]) -> &'static str
    ensures { result.now ≡ spec.cut_end name.now }
{
    if name.len() <= MOST_BYTES { "" } else { ".." }
}

/// Appends a member's name in parentheses.
fn push_member<A: Allocator + Copy>(word: &mut Vec<u8, A>, member: &[u8]) -> Result<(), AllocError>
    ensures { OnOk result (word.new.items ≡ word.old.items ++ spec.member_end (Some member.now)) }
{
    let pieces = [
        Piece::Text("("),
        Piece::PlainName(told_part(member)),
        Piece::Text(cut_end(member)),
        Piece::Text(")"),
    ];
    push_pieces(word, pieces.as_slice())
}

/// The word for a module: its file's path, and behind it the member's name in parentheses.
pub fn module_word<A: Allocator + Copy>(
    alloc: A,
    paths: &[&str],
    entry: &Entry<'_, A>,
) -> Result<Vec<u8, A>, AllocError>
    ensures { IfOk result (λ word. word.items ≡ spec.module_word paths.now (entry_held entry.now)) }
{
    let mut word = Vec::from_slice(alloc, path_of(paths, entry.file).as_bytes())?;
    if let Some(member) = entry.member {
        push_member(&mut word, member)?;
    }
    Ok(word)
}

/// The word for a member with this name of the file with this index.
pub fn member_word<A: Allocator + Copy>(
    alloc: A,
    paths: &[&str],
    file: usize,
    name: &[u8],
) -> Result<Vec<u8, A>, AllocError>
    ensures { IfOk result (λ word. word.items ≡ spec.path_of paths.now file ++ spec.member_end (Some name.now)) }
{
    let mut word = Vec::from_slice(alloc, path_of(paths, file).as_bytes())?;
    push_member(&mut word, name)?;
    Ok(word)
}

/// The words for the modules of a link.
pub fn module_words<A: Allocator + Copy>(
    alloc: A,
    paths: &[&str],
    handed: &[Handed<'_, '_, A>],
) -> Result<Vec<Vec<u8, A>, A>, AllocError>
    ensures { IfOk result (λ words. map (λ w. w.items) words.items
        ≡ map (λ h. spec.module_word paths.now (handed_held h)) handed.now) }
{
    let mut words = Vec::new(alloc);
    for each in handed {
        words.push(module_word(alloc, paths, each.entry)?)?;
    }
    Ok(words)
}

/// What the modules handed on say of names once no more are looked for: those that they need, and that they offer.
pub fn handed_saids<'h, 'a, A: Allocator + Copy>(
    alloc: A,
    handed: &'h [Handed<'_, 'a, A>],
) -> Result<Vec<Said<'h, 'a>, A>, AllocError>
    ensures { IfOk result (λ v. map module_said v.items ≡ map (λ h. needs (handed_held h)) handed.now) }
{
    let mut all = Vec::new(alloc);
    for each in handed {
        let names = &each.entry.says;
        all.push(Said::needs(names))?;
    }
    Ok(all)
}

/// Appends the line of a module that is linked, with the name for which it was taken.
fn push_handed<A: Allocator + Copy>(
    text: &mut Vec<u8, A>,
    word: &[u8],
    wanted: Option<&[u8]>,
) -> Result<(), AllocError>
    ensures { OnOk result (text.new.items ≡ text.old.items
        ++ (word.now ++ spec.taken_end (option_copied wanted.entry))) }
{
    text.extend_from_slice(word)?;
    match wanted {
        None => text.extend_from_slice(b"\n"),
        Some(name) => {
            let pieces = [Piece::Text(" for "), Piece::Name(name), Piece::Text("\n")];
            push_pieces(text, pieces.as_slice())
        }
    }
}

/// Each module in its order, a line for each, with the name for which it was taken where it is a member. The words are
/// those of the modules.
pub fn handed_text<A: Allocator + Copy>(
    alloc: A,
    handed: &[Handed<'_, '_, A>],
    words: &[Vec<u8, A>],
) -> Result<Vec<u8, A>, AllocError>
    ensures { IfOk result (λ text. text.items ≡ spec.handed_text handed.now words.now) }
{
    let mut text = Vec::new(alloc);
    for (index, each) in handed.iter().enumerate() {
        push_handed(&mut text, word_at(words, index), each.wanted)?;
    }
    Ok(text)
}
