//! What `list` prints of a file.

ghost use Rattle.std.specs.Prelude.{◌≡◌, ◌++◌, OnOk, map};
ghost use Rattle.std.specs.List.{flat_map};
ghost use Rattle.omf_library.specs.Members.{plain_member};
ghost use Rattle.omf_library.specs.Names.{texts};
ghost use Rattle.omf_library.specs.Records.{module_records};
ghost use Rattle.doslib_text.specs.Listing as spec;

use omf_library::{FileKind, Member, module_names, record_at, take_name};
use omf_text::{Piece, push_pieces};
use std::alloc::{AllocError, Allocator};

/// The word for what a file is.
fn kind_word(kind: FileKind) -> &'static str
    ensures { result.now ≡ spec.kind_word kind }
{
    match kind {
        FileKind::Object => "module ",
        FileKind::Library => "library ",
        FileKind::Archive => "archive ",
    }
}

/// Appends the line of a file: what it is, its path, and how many members it has.
pub fn push_title<A: Allocator + Copy>(
    lines: &mut Vec<u8, A>,
    kind: FileKind,
    path: &str,
    count: usize,
) -> Result<(), AllocError>
    ensures { OnOk result (lines.new.items ≡ lines.old.items ++ spec.title kind path.now count) }
{
    let pieces = [
        Piece::Text(kind_word(kind)),
        Piece::Name(path.as_bytes()),
        Piece::Text(" members "),
        Piece::Count(count),
        Piece::Text("\n"),
    ];
    push_pieces(lines, pieces.as_slice())
}

/// The name in the record that heads a module, 80H THEADR or 82H LHEADR. Empty where the bytes begin with none.
#[tactic(auto, unfolding(omf_library::specs::Records::header_name))]
fn header_name(bytes: &[u8]) -> &[u8]
    ensures { result.now ≡ spec.header_of bytes.now }
{
    match record_at(bytes, 0) {
        Ok(frame) if frame.kind == 0x80 || frame.kind == 0x82 => match take_name(frame.body) {
            Some((name, _)) => name,
            None => &[],
        },
        _ => &[],
    }
}

/// The name that a member is printed with: its own, and that of its header record where it has none.
pub fn shown_name<'a>(member: &Member<'a>) -> &'a [u8]
    ensures { result.now ≡ spec.shown_name (plain_member member.now) }
{
    if member.name.is_empty() {
        header_name(member.bytes)
    } else {
        member.name
    }
}

/// Appends the line of a member: its place in the file, how many bytes it has, and its name.
pub fn push_member_line<A: Allocator + Copy>(
    lines: &mut Vec<u8, A>,
    member: &Member<'_>,
) -> Result<(), AllocError>
    ensures { OnOk result (lines.new.items ≡ lines.old.items ++ spec.member_line (plain_member member.now)) }
{
    let pieces = [
        Piece::Text("  "),
        Piece::FilePlace(member.place as u64),
        Piece::Text(" "),
        Piece::Size(member.bytes.len()),
        Piece::Text(" "),
        Piece::Name(shown_name(member)),
        Piece::Text("\n"),
    ];
    push_pieces(lines, pieces.as_slice())
}

/// Appends a line for each name, behind a word.
fn push_names<'p, A: Allocator + Copy>(
    lines: &mut Vec<u8, A>,
    word: &'p str,
    names: &[&'p [u8]],
) -> Result<(), AllocError>
    ensures { OnOk result (lines.new.items ≡ lines.old.items ++ flat_map (spec.name_line word.now) (texts names.now)) }
{
    for name in names {
        let pieces = [
            Piece::Text("    "),
            Piece::Text(word),
            Piece::Text(" "),
            Piece::Name(name),
            Piece::Text("\n"),
        ];
        push_pieces(lines, pieces.as_slice())?;
    }
    Ok(())
}

/// Appends what a module offers and wants.
fn push_module_names<A: Allocator + Copy>(
    alloc: A,
    lines: &mut Vec<u8, A>,
    bytes: &[u8],
) -> Result<(), AllocError>
    ensures { OnOk result (lines.new.items ≡ lines.old.items ++ spec.names_text (module_records bytes.now 0)) }
{
    let said = module_names(alloc, bytes)?;
    push_names(lines, "offers", &said.offered)?;
    push_names(lines, "communal", &said.communals)?;
    push_names(lines, "wants", &said.wanted)?;
    push_names(lines, "library", &said.libraries)
}

/// Appends what is printed of a member.
fn push_member<A: Allocator + Copy>(
    alloc: A,
    lines: &mut Vec<u8, A>,
    member: &Member<'_>,
) -> Result<(), AllocError>
    ensures { OnOk result (lines.new.items ≡ lines.old.items ++ spec.member_text (plain_member member.now)) }
{
    push_member_line(lines, member)?;
    push_module_names(alloc, lines, member.bytes)
}

/// Appends what is printed of members.
fn push_members<A: Allocator + Copy>(
    alloc: A,
    lines: &mut Vec<u8, A>,
    members: &[Member<'_>],
) -> Result<(), AllocError>
    ensures { OnOk result (lines.new.items
        ≡ lines.old.items ++ flat_map spec.member_text (map plain_member members.now)) }
{
    for member in members {
        push_member(alloc, lines, member)?;
    }
    Ok(())
}

/// Appends what `list` prints of a file of this kind at a path, with these members: each with its place, its size, its
/// name, and the names that it offers and wants.
pub fn push_list<A: Allocator + Copy>(
    alloc: A,
    lines: &mut Vec<u8, A>,
    path: &str,
    kind: FileKind,
    members: &[Member<'_>],
) -> Result<(), AllocError>
    ensures { OnOk result (lines.new.items
        ≡ lines.old.items ++ spec.listing kind path.now (map plain_member members.now)) }
{
    push_title(lines, kind, path, members.len())?;
    push_members(alloc, lines, members)
}
