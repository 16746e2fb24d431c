//! The names that no module and no library offers, and their lines.
ghost use Rattle.std.specs.Prelude.{◌≡◌, ◌++◌, ◌∷◌, [], IfOk, OnOk, codes, map, slice_get};
ghost use Rattle.std.specs.List.{concat, flat_map};
ghost use Rattle.std.specs.Option.{option_copied, option_map, option_map_or};
ghost use Rattle.omf_search.specs.Results.{bytes_of, module_said, offered_said, wanted_said};
ghost use Rattle.omf_text.specs.Printing.{printed_name};
ghost use Rattle.doslink_stock.specs.Seen.{entry_held, handed_held};
ghost use Rattle.doslink_telling.specs.Missing as spec;
ghost use Rattle.doslink_telling.specs.Missing.{like_offered, unmet, wants_marks};
ghost use Rattle.doslink_telling.specs.Table.{header_name};
ghost use Rattle.doslink_telling.specs.inside.Wanters.{wanter_held};

use crate::limit::{push_rest, told_count};
use crate::telling::{handed_saids, module_word};
use crate::wanting::{Wanter, wanters_of};
use doslink_stock::{Entry, Handed, Stock, members_of};
use omf_alias::agree;
use omf_place::Names;
use omf_search::{Offered, Said, Wanted, Whose, likes, missing};
use omf_text::{Piece, push_pieces};
use std::alloc::{AllocError, Allocator};

/// Whether a name is one that the order module defines where it is wanted.
fn is_mark(names: Names, name: &[u8]) -> bool
    ensures { result ≡ spec.is_mark names name.now }
{
    agree(names, b"_edata", name)
        || agree(names, b"__edata", name)
        || agree(names, b"_end", name)
        || agree(names, b"__end", name)
}

/// The names that stay missing, and whether marks are wanted.
#[derive(Drop)]
pub struct Unmet<'a, A: Allocator + Copy> {
    /// The names that no module offers, and that are no marks.
    pub missing: Vec<Wanted<'a>, A>,
    /// Whether some of the marks are wanted that no module offers.
    pub marks: bool,
}

/// The names that the modules handed on want and none offers, without those that the order module defines.
pub fn unmet_names<'a, A: Allocator + Copy>(
    alloc: A,
    names: Names,
    says: &[Said<'_, 'a>],
) -> Result<Unmet<'a, A>, AllocError>
    ensures missing { IfOk result (λ u. map wanted_said u.missing.items ≡ unmet names (map module_said says.now)) }
    ensures marks { IfOk result (λ u. u.marks ≡ wants_marks names (map module_said says.now)) }
{
    let wanted = missing(alloc, names, says)?;
    let mut others = Vec::new(alloc);
    let mut marks = false;
    for each in &wanted {
        if is_mark(names, each.name) {
            marks = true;
            continue;
        }
        others.push(*each)?;
    }
    Ok(Unmet {
        missing: others,
        marks,
    })
}

/// The name in the record that heads a module, 80H THEADR or 82H LHEADR, if the bytes begin with one.
pub(crate) fn header_name(bytes: &[u8]) -> Option<&[u8]>
    ensures { option_copied result ≡ header_name bytes.now }
{
    match bytes {
        [0x80 | 0x82, _, _, len, rest @ ..] if usize::from(*len) <= rest.len() => {
            Some(&rest[..usize::from(*len)])
        }
        _ => None,
    }
}

/// The module that offers a name.
fn offering_entry<'m, 'a, A: Allocator + Copy>(
    stock: &'m Stock<'a, A>,
    wanters: &[Wanter<'m, 'a, A>],
    whose: Whose,
) -> Option<&'m Entry<'a, A>>
    ensures { option_map (λ e. entry_held e.now) result
        ≡ spec.whose_module (map wanter_held wanters.now) (map entry_held stock.now.members.items) whose }
{
    match whose {
        Whose::Module(index) => match wanters.get(index) {
            Some(each) => Some(each.entry),
            None => None,
        },
        Whose::Member { member, .. } => stock.members.get(member),
    }
}

/// Appends that a module offers a name.
fn push_offering<A: Allocator + Copy>(
    alloc: A,
    lines: &mut Vec<u8, A>,
    paths: &[&str],
    entry: &Entry<'_, A>,
    name: &[u8],
) -> Result<(), AllocError>
    ensures { OnOk result (lines.new.items ≡ lines.old.items
        ++ spec.offering_text paths.now name.now (entry_held entry.now)) }
{
    let word = module_word(alloc, paths, entry)?;
    let pieces = [Piece::Text("; "), Piece::Name(name), Piece::Text(" is in ")];
    push_pieces(lines, pieces.as_slice())?;
    lines.extend_from_slice(&word)
}

/// Appends where a name that is like a missing one is offered, if one is.
fn push_like<'m, 'a, A: Allocator + Copy>(
    alloc: A,
    lines: &mut Vec<u8, A>,
    paths: &[&str],
    stock: &'m Stock<'a, A>,
    wanters: &[Wanter<'m, 'a, A>],
    like: Option<Offered<'a>>,
) -> Result<(), AllocError>
    ensures { OnOk result (lines.new.items ≡ lines.old.items
        ++ spec.like_text paths.now (map wanter_held wanters.now) (map entry_held stock.now.members.items)
        (option_map offered_said like.entry)) }
{
    let Some(like) = like else {
        return Ok(());
    };
    match offering_entry(stock, wanters, like.whose) {
        Some(entry) => push_offering(alloc, lines, paths, entry, like.name),
        None => Ok(()),
    }
}

/// Appends the record that wants a name first, by its place in its module, as faults have it and as `show` prints it.
fn push_record<A: Allocator + Copy>(
    lines: &mut Vec<u8, A>,
    place: Option<u64>,
) -> Result<(), AllocError>
    ensures { OnOk result (lines.new.items ≡ lines.old.items ++ spec.record_text place) }
{
    match place {
        Some(place) => {
            let pieces = [
                Piece::Text(": record "),
                Piece::Count(place as usize),
                Piece::Text(" ("),
                Piece::FilePlace(place),
                Piece::Text(")"),
            ];
            push_pieces(lines, pieces.as_slice())
        }
        None => Ok(()),
    }
}

/// Appends the name in a module's header, if it has one.
fn push_header<A: Allocator + Copy>(lines: &mut Vec<u8, A>, bytes: &[u8]) -> Result<(), AllocError>
    ensures { OnOk result (lines.new.items ≡ lines.old.items ++ spec.header_text (header_name bytes.now)) }
{
    match header_name(bytes) {
        Some(header) => {
            let pieces = [Piece::Text(", wanted by "), Piece::Name(header)];
            push_pieces(lines, pieces.as_slice())
        }
        None => Ok(()),
    }
}

/// Appends that what the word stands for wants a name that is missing.
fn push_lacking<'p, A: Allocator + Copy>(
    lines: &mut Vec<u8, A>,
    word: &'p [u8],
    name: &'p [u8],
) -> Result<(), AllocError>
    ensures { OnOk result (lines.new.items ≡ lines.old.items
        ++ concat (codes "doslink: " ∷ word.now ∷ codes ": " ∷ printed_name name.now ∷ codes " is missing" ∷ [])) }
{
    let pieces = [
        Piece::Text("doslink: "),
        Piece::Bytes(word),
        Piece::Text(": "),
        Piece::Name(name),
        Piece::Text(" is missing"),
    ];
    push_pieces(lines, pieces.as_slice())
}

/// Appends that a module wants a name that is missing.
fn push_wanting<'a, A: Allocator + Copy>(
    alloc: A,
    lines: &mut Vec<u8, A>,
    paths: &[&str],
    wanter: &Wanter<'_, 'a, A>,
    name: &'a [u8],
) -> Result<(), AllocError>
    ensures { OnOk result (lines.new.items ≡ lines.old.items
        ++ spec.wanting_text paths.now name.now (wanter_held wanter.now)) }
{
    let word = module_word(alloc, paths, wanter.entry)?;
    push_lacking(lines, &word, name)?;
    push_record(lines, wanter.place(name))?;
    push_header(lines, wanter.entry.bytes)
}

/// Appends that the module with this index wants a name that is missing.
fn push_wanted<'a, A: Allocator + Copy>(
    alloc: A,
    lines: &mut Vec<u8, A>,
    paths: &[&str],
    wanters: &[Wanter<'_, 'a, A>],
    wanted: &Wanted<'a>,
) -> Result<(), AllocError>
    ensures { OnOk result (lines.new.items ≡ lines.old.items
        ++ option_map_or (spec.wanting_text paths.now wanted.now.name.now)
        (slice_get (map wanter_held wanters.now) wanted.now.wanted_by) []) }
{
    match wanters.get(wanted.wanted_by) {
        Some(wanter) => push_wanting(alloc, lines, paths, wanter, wanted.name),
        None => Ok(()),
    }
}

/// Appends the line of a missing name, with the first offered name that is like it.
fn push_missing_line<'m, 'a, A: Allocator + Copy>(
    alloc: A,
    lines: &mut Vec<u8, A>,
    paths: &[&str],
    stock: &'m Stock<'a, A>,
    wanters: &[Wanter<'m, 'a, A>],
    wanted: &Wanted<'a>,
    like: Option<Offered<'a>>,
) -> Result<(), AllocError>
    requires { option_map offered_said like ≡ like_offered (map wanter_held wanters.now)
        (map entry_held stock.now.members.items) wanted.now.name.now }
    ensures { OnOk result (lines.new.items ≡ lines.old.items
        ++ spec.missing_line paths.now (map wanter_held wanters.now) (map entry_held stock.now.members.items)
        (wanted_said wanted.now)) }
{
    push_wanted(alloc, lines, paths, wanters, wanted)?;
    push_like(alloc, lines, paths, stock, wanters, like)?;
    lines.extend_from_slice(b"\n")
}

/// The names that are missing.
fn names_of<'a, A: Allocator + Copy>(
    alloc: A,
    missing: &[Wanted<'a>],
) -> Result<Vec<&'a [u8], A>, AllocError>
    ensures { IfOk result (λ v. bytes_of v.items ≡ map (λ w. w.name.now) missing.now) }
{
    let mut names = Vec::new(alloc);
    for each in missing {
        names.push(each.name)?;
    }
    Ok(names)
}

/// For each missing name the first that is offered and like it.
fn likes_of<'a, A: Allocator + Copy>(
    alloc: A,
    stock: &Stock<'a, A>,
    handed: &[Handed<'_, 'a, A>],
    missing: &[Wanted<'a>],
) -> Result<Vec<Option<Offered<'a>>, A>, AllocError>
    ensures { IfOk result (λ v. map (option_map offered_said) v.items
        ≡ map (λ w. like_offered (map handed_held handed.now) (map entry_held stock.now.members.items) w.name.now)
        missing.now) }
{
    let modules = handed_saids(alloc, handed)?;
    let members = members_of(alloc, &stock.members)?;
    let names = names_of(alloc, missing)?;
    likes(alloc, &names, &modules, &members)
}

/// Appends a line for each of some missing names.
fn push_told_lines<'m, 'a, A: Allocator + Copy>(
    alloc: A,
    lines: &mut Vec<u8, A>,
    paths: &[&str],
    stock: &'m Stock<'a, A>,
    handed: &[Handed<'m, 'a, A>],
    missing: &[Wanted<'a>],
) -> Result<(), AllocError>
    ensures { OnOk result (lines.new.items ≡ lines.old.items
        ++ flat_map (spec.missing_line paths.now (map handed_held handed.now) (map entry_held stock.now.members.items))
        (map wanted_said missing.now)) }
{
    let all = wanters_of(alloc, handed)?;
    let wanters = all.as_slice();
    let likes = likes_of(alloc, stock, handed, missing)?;
    for (each, like) in missing.iter().zip(&likes) {
        push_missing_line(alloc, lines, paths, stock, wanters, each, *like)?;
    }
    Ok(())
}

/// Appends a line for each missing name, or for the first 20 and how many more there are: the module that wants it, the
/// first of its records that does, and where a name like it is offered.
pub fn push_missing_lines<'m, 'a, A: Allocator + Copy>(
    alloc: A,
    lines: &mut Vec<u8, A>,
    paths: &[&str],
    stock: &'m Stock<'a, A>,
    handed: &[Handed<'m, 'a, A>],
    missing: &[Wanted<'a>],
    tells_all: bool,
) -> Result<(), AllocError>
    ensures { OnOk result (lines.new.items ≡ lines.old.items
        ++ spec.missing_lines paths.now (map handed_held handed.now) (map entry_held stock.now.members.items)
        (map wanted_said missing.now) tells_all) }
{
    let told = told_count(missing.len(), tells_all);
    push_told_lines(alloc, lines, paths, stock, handed, &missing[..told])?;
    push_rest(lines, missing.len() - told)
}
