//! The lines of names.

ghost use Rattle.std.specs.Prelude.{◌≡◌, ◌++◌, IfOk, OnOk, map};
ghost use Rattle.std.specs.List.{flat_map};
ghost use Rattle.omf_search.specs.Results.{wanted_said};
ghost use Rattle.doslib_names.specs.Lines as spec;
ghost use Rattle.doslib_names.specs.Said.{held_said};
ghost use Rattle.doslib_names.specs.inside.First.{doubled_said};

use crate::doubled::Doubled;
use crate::held::Held;
use doslib_text::shown_name;
use omf_library::{FileKind, module_frames, wanting_places};
use omf_search::Wanted;
use omf_text::{Piece, push_pieces};
use std::alloc::{AllocError, Allocator};

/// Appends a name behind what is said of it.
fn push_name<'p, A: Allocator + Copy>(
    text: &mut Vec<u8, A>,
    word: &'p str,
    name: &'p [u8],
) -> Result<(), AllocError>
    ensures { OnOk result (text.new.items ≡ text.old.items ++ spec.name_text word.now name.now) }
{
    let pieces = [Piece::Text(word), Piece::Name(name), Piece::Text(": ")];
    push_pieces(text, pieces.as_slice())
}

/// Appends how a module is told: the path of its file, and behind it the name of the member in a library or an archive,
/// as `list` prints it.
fn push_module<A: Allocator + Copy>(
    text: &mut Vec<u8, A>,
    held: &Held<'_>,
) -> Result<(), AllocError>
    ensures { OnOk result (text.new.items ≡ text.old.items ++ spec.module_text (held_said held.now)) }
{
    match held.kind {
        FileKind::Object => push_pieces(text, &[Piece::Text(held.path)]),
        FileKind::Library | FileKind::Archive => {
            let pieces = [
                Piece::Text(held.path),
                Piece::Text("("),
                Piece::PlainName(shown_name(&held.member)),
                Piece::Text(")"),
            ];
            push_pieces(text, pieces.as_slice())
        }
    }
}

/// The place in its file of the record of a module that asks for a name first.
fn place_of<'a, A: Allocator + Copy>(
    alloc: A,
    held: &Held<'a>,
    name: &'a [u8],
) -> Result<u64, AllocError>
    ensures { IfOk result (λ place. place ≡ spec.place_of name.entry.now (held_said held.now)) }
{
    let frames = module_frames(alloc, held.member.bytes)?;
    let places = wanting_places(alloc, &frames)?;
    let place = places.get(name).unwrap_or(0);
    Ok((held.member.place as u64).saturating_add(place))
}

/// Appends the line of a name that a module wants and none defines.
fn push_missing_name<'a, A: Allocator + Copy>(
    alloc: A,
    text: &mut Vec<u8, A>,
    name: &'a [u8],
    held: &Held<'a>,
) -> Result<(), AllocError>
    ensures { OnOk result (text.new.items ≡ text.old.items ++ spec.missing_line name.entry.now (held_said held.now)) }
{
    let place = place_of(alloc, held, name)?;
    push_name(text, "missing ", name)?;
    push_module(text, held)?;
    let pieces = [
        Piece::Text(" wants it in the record at "),
        Piece::FilePlace(place),
        Piece::Text("\n"),
    ];
    push_pieces(text, pieces.as_slice())
}

/// Appends the line of a missing name.
fn push_missing_one<'a, A: Allocator + Copy>(
    alloc: A,
    text: &mut Vec<u8, A>,
    modules: &[Held<'a>],
    wanted: Wanted<'a>,
) -> Result<(), AllocError>
    ensures { OnOk result (text.new.items
        ≡ text.old.items ++ spec.missing_text (map held_said modules.now) (wanted_said wanted.entry)) }
{
    match modules.get(wanted.wanted_by) {
        Some(held) => push_missing_name(alloc, text, wanted.name, held),
        None => Ok(()),
    }
}

/// Appends the lines of missing names.
pub(crate) fn push_missing<'a, A: Allocator + Copy>(
    alloc: A,
    text: &mut Vec<u8, A>,
    modules: &[Held<'a>],
    missing: &[Wanted<'a>],
) -> Result<(), AllocError>
    ensures { OnOk result (text.new.items ≡ text.old.items
        ++ flat_map (spec.missing_text (map held_said modules.now)) (map wanted_said missing.now)) }
{
    for wanted in missing {
        push_missing_one(alloc, text, modules, *wanted)?;
    }
    Ok(())
}

/// Appends how the module with this index is told.
fn push_module_at<A: Allocator + Copy>(
    text: &mut Vec<u8, A>,
    modules: &[Held<'_>],
    index: usize,
) -> Result<(), AllocError>
    ensures { OnOk result (text.new.items ≡ text.old.items ++ spec.module_at (map held_said modules.now) index) }
{
    match modules.get(index) {
        Some(held) => push_module(text, held),
        None => Ok(()),
    }
}

/// Appends the line of a name that two modules define.
fn push_doubled_name<'a, A: Allocator + Copy>(
    text: &mut Vec<u8, A>,
    modules: &[Held<'a>],
    doubled: Doubled<'a>,
) -> Result<(), AllocError>
    ensures { OnOk result (text.new.items
        ≡ text.old.items ++ spec.doubled_line (map held_said modules.now) (doubled_said doubled.entry)) }
{
    push_name(text, "defined twice ", doubled.name)?;
    push_module_at(text, modules, doubled.first)?;
    push_pieces(text, &[Piece::Text(" and ")])?;
    push_module_at(text, modules, doubled.second)?;
    push_pieces(text, &[Piece::Text(" define it\n")])
}

/// Appends the lines of names that two modules define.
pub(crate) fn push_doubled<'a, A: Allocator + Copy>(
    text: &mut Vec<u8, A>,
    modules: &[Held<'a>],
    doubled: &[Doubled<'a>],
) -> Result<(), AllocError>
    ensures { OnOk result (text.new.items ≡ text.old.items
        ++ flat_map (spec.doubled_line (map held_said modules.now)) (map doubled_said doubled.now)) }
{
    for name in doubled {
        push_doubled_name(text, modules, *name)?;
    }
    Ok(())
}
