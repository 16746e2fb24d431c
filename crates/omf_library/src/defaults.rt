//! Externals with a default resolution, which they mean where nothing defines them: weak ones and lazy ones.

ghost use Rattle.std.specs.Prelude.{◌≡◌, ◌<◌, ◌&&◌, ◌++◌, ℕ, filter, is_some, length, map, not, IfOk, IfSome, List, OnOk};
ghost use Rattle.std.specs.Borrow.{Bor};
ghost use Rattle.std.specs.BTreeSet.{contains};
ghost use Rattle.std.specs.List.{filter_map, list_any};
ghost use Rattle.std.specs.Ordering.{nat_cmp};
ghost use Rattle.omf_frame.specs.Lending.{plain_frame};
ghost use Rattle.omf_library.specs.Entries.{entries};
ghost use Rattle.omf_library.specs.Names.{texts};
ghost use Rattle.omf_library.specs.Records as records;
ghost use Rattle.omf_library.specs.Said.{all_defaulted, bytes_said, externals_said, name_said};
ghost use Rattle.omf_library.specs.Defaults as spec;
ghost use Rattle.omf_library.specs.inside.Others.{bytes_cmp, has_name_at, other_name};
ghost use Rattle.omf_library.specs.inside.Views.{defaulted_found, external_found, external_said, pair_said};

use crate::entries::{Entry, listed_name, take_communal, take_entry};
use crate::fields::take_index;
use crate::names::push_listed;
use crate::records::comment_text;
use omf_frame::Frame;
use std::alloc::{AllocError, Allocator};
use std::collections::BTreeSet;

/// The classes of comments that tell weak externals, and lazy ones.
const WEAK: u8 = 0xA8;

const LAZY: u8 = 0xA9;

/// An external with a default.
#[derive(Clone, Copy, Debug)]
pub struct Defaulted<'a> {
    /// How many bytes of the module stand before the comment that tells it.
    pub place: u64,
    /// Its index.
    pub index: u16,
    /// Its name.
    pub name: &'a [u8],
    /// The index of its default.
    pub default_index: u16,
    /// The name of its default. None where that is local to the module.
    pub default_name: Option<&'a [u8]>,
}

/// Whether the externals of a record of this type are local to its module: LEXTDEF, by either type, and LCOMDEF.
fn is_local(kind: u8) -> bool
    ensures { result ≡ spec.is_local kind }
{
    kind == 0xB4 || kind == 0xB5 || kind == 0xB8
}

/// Whether a record of this type defines externals: EXTDEF, LEXTDEF, COMDEF, LCOMDEF and CEXTDEF.
fn defines_externals(kind: u8) -> bool
    ensures { result ≡ spec.defines_externals kind }
{
    is_local(kind) || kind == 0x8C || kind == 0xB0 || kind == 0xBC
}

/// A name that other modules may define: none of a record of this type whose names are local to its module.
fn shared_name(kind: u8, name: &[u8]) -> Option<&[u8]>
    ensures { bytes_said result ≡ spec.shared_name kind name.now }
{
    if is_local(kind) { None } else { Some(name) }
}

/// The name of an external at the front of a record of this type, which has names and no indexes of them, and the bytes
/// behind the external. None where they end inside it.
fn take_own_name(kind: u8, bytes: &[u8]) -> Option<(&[u8], &[u8])>
    ensures said { name_said result ≡ spec.own_name_front kind bytes.now }
    ensures shorter { IfSome result (λ x. length x.1.now < length bytes.now) }
{
    match kind {
        0xB0 | 0xB8 => take_entry(Entry::Variable, bytes),
        _ => take_entry(Entry::External, bytes),
    }
}

/// The name of an external at the front of a record of this type, by the names listed so far, and the bytes behind it.
/// The name is none where it is local to its module. None where the bytes end inside the external.
fn take_external<'a>(
    listed: &[&'a [u8]],
    kind: u8,
    bytes: &'a [u8],
) -> Option<(Option<&'a [u8]>, &'a [u8])>
    ensures said { external_said result ≡ spec.any_external_front (texts listed.now) kind bytes.now }
    ensures shorter { IfSome result (λ x. length x.1.now < length bytes.now) }
{
    if kind == 0xBC {
        let (index, rest) = take_communal(bytes)?;
        return Some((listed_name(listed, index), rest));
    }
    let (name, rest) = take_own_name(kind, bytes)?;
    Some((shared_name(kind, name), rest))
}

/// Appends the externals of a record.
#[tactic(auto, unfolding(crate::specs::Defaults::record_externals))]
fn push_externals<'a, A: Allocator + Copy>(
    listed: &[&'a [u8]],
    frame: &Frame<'a>,
    externals: &mut Vec<Option<&'a [u8]>, A>,
) -> Result<(), AllocError>
    ensures { OnOk result (externals_said externals.new.items
        ≡ externals_said externals.old.items ++ spec.record_externals (texts listed.now) (plain_frame frame.now)) }
{
    if defines_externals(frame.kind) {
        push_entries(listed, frame.kind, frame.body, externals)
    } else {
        Ok(())
    }
}

/// Appends the externals of a record's body, as far as it holds whole ones.
fn push_entries<'a, A: Allocator + Copy>(
    listed: &[&'a [u8]],
    kind: u8,
    body: &'a [u8],
    externals: &mut Vec<Option<&'a [u8]>, A>,
) -> Result<(), AllocError>
    ensures { OnOk result (externals_said externals.new.items ≡ externals_said externals.old.items
        ++ entries (spec.any_external_front (texts listed.now) kind) body.now) }
{
    let mut rest = body;
    while let Some((name, after)) = take_external(listed, kind, rest) {
        externals.push(name)?;
        rest = after;
    }
    Ok(())
}

/// The externals of a module's records, whose indexes count them from 1 on: the name of each, or None where it is local
/// to the module.
pub fn module_externals<'a, A: Allocator + Copy>(
    alloc: A,
    frames: &[Frame<'a>],
) -> Result<Vec<Option<&'a [u8]>, A>, AllocError>
    ensures { IfOk result (λ v. externals_said v.items ≡ spec.module_externals (map plain_frame frames.now)) }
{
    let mut listed = Vec::new(alloc);
    let mut externals = Vec::new(alloc);
    for frame in frames {
        push_externals(&listed, frame, &mut externals)?;
        push_listed(frame, &mut listed)?;
    }
    Ok(externals)
}

/// The external with this index: its name, or that it is local. None where there is none.
fn external_at<'a>(externals: &[Option<&'a [u8]>], index: u16) -> Option<Option<&'a [u8]>>
    ensures { external_found result ≡ spec.external_at (externals_said externals.now) index }
{
    if index == 0 {
        return None;
    }
    let Some(name) = externals.get(usize::from(index) - 1) else {
        return None;
    };
    Some(*name)
}

/// A pair of indexes at the front of the bytes, and the bytes behind it. None where they end inside it.
fn take_pair(bytes: &[u8]) -> Option<((u16, u16), &[u8])>
    ensures said { pair_said result ≡ spec.pair_front bytes.now }
    ensures shorter { IfSome result (λ x. length x.1.now < length bytes.now) }
{
    let (index, rest) = take_index(bytes)?;
    let (other, rest) = take_index(rest)?;
    Some(((index, other), rest))
}

/// The external of a pair, by the comment's place. None where one of the two isn't there, or where the first is local
/// to the module.
fn defaulted_of<'a>(
    externals: &[Option<&'a [u8]>],
    place: u64,
    pair: (u16, u16),
) -> Option<Defaulted<'a>>
    ensures { defaulted_found result ≡ spec.defaulted_of (externals_said externals.now) place pair }
{
    let name = external_at(externals, pair.0)??;
    let default_name = external_at(externals, pair.1)?;
    Some(Defaulted {
        place,
        index: pair.0,
        name,
        default_index: pair.1,
        default_name,
    })
}

/// Appends the externals of the pairs of a comment's text, as far as it holds whole ones.
fn push_pairs<'a, A: Allocator + Copy>(
    externals: &[Option<&'a [u8]>],
    place: u64,
    text: &[u8],
    told: &mut Vec<Defaulted<'a>, A>,
) -> Result<(), AllocError>
    ensures { OnOk result (all_defaulted told.new.items ≡ all_defaulted told.old.items
        ++ filter_map (spec.defaulted_of (externals_said externals.now) place) (entries spec.pair_front text.now)) }
{
    let mut rest = text;
    while let Some((pair, after)) = take_pair(rest) {
        if let Some(one) = defaulted_of(externals, place, pair) {
            told.push(one)?;
        }
        rest = after;
    }
    Ok(())
}

/// Appends the externals that a record tells, as a comment of this class.
#[tactic(auto, unfolding(crate::specs::Defaults::defaulted_in))]
fn push_told<'a, A: Allocator + Copy>(
    class: u8,
    externals: &[Option<&'a [u8]>],
    frame: &Frame<'a>,
    told: &mut Vec<Defaulted<'a>, A>,
) -> Result<(), AllocError>
    ensures { OnOk result (all_defaulted told.new.items ≡ all_defaulted told.old.items
        ++ spec.defaulted_in class (externals_said externals.now) (plain_frame frame.now)) }
{
    match comment_text(frame, class) {
        Some(text) => push_pairs(externals, frame.place, text, told),
        None => Ok(()),
    }
}

/// Whether a record is a comment of this class.
fn is_comment(class: u8, frame: &Frame<'_>) -> bool
    ensures { result ≡ is_some (records.comment_text class (plain_frame frame.now)) }
{
    comment_text(frame, class).is_some()
}

/// Whether some record is.
fn has_comments(class: u8, frames: &[Frame<'_>]) -> bool
    ensures { result ≡ list_any (λ f. is_some (records.comment_text class (plain_frame f))) frames.now }
{
    for frame in frames {
        if is_comment(class, frame) {
            return true;
        }
    }
    false
}

/// Appends the externals that comments of this class tell, in their order. A pair of which an index is none of an
/// external, or the first one that of an external that is local to the module, and what stands behind the last whole
/// pair, tell none: such an external is like any other.
fn push_defaulted<'a, A: Allocator + Copy>(
    alloc: A,
    class: u8,
    frames: &[Frame<'a>],
    told: &mut Vec<Defaulted<'a>, A>,
) -> Result<(), AllocError>
    ensures { OnOk result (all_defaulted told.new.items
        ≡ all_defaulted told.old.items ++ spec.defaulted class (map plain_frame frames.now)) }
{
    if !has_comments(class, frames) {
        return Ok(());
    }
    let externals = module_externals(alloc, frames)?;
    for frame in frames {
        push_told(class, &externals, frame, told)?;
    }
    Ok(())
}

/// The weak externals of a module's records.
#[tactic(auto, unfolding(crate::specs::Defaults::weak_externals))]
pub(crate) fn weak_externals<'a, A: Allocator + Copy>(
    alloc: A,
    frames: &[Frame<'a>],
) -> Result<Vec<Defaulted<'a>, A>, AllocError>
    ensures { IfOk result (λ v. all_defaulted v.items ≡ spec.weak_externals (map plain_frame frames.now)) }
{
    let mut told = Vec::new(alloc);
    push_defaulted(alloc, WEAK, frames, &mut told)?;
    Ok(told)
}

/// The weak externals of a module's records, and its lazy ones behind them.
#[tactic(auto, unfolding(crate::specs::Defaults::weak_and_lazy))]
pub fn weak_and_lazy<'a, A: Allocator + Copy>(
    alloc: A,
    frames: &[Frame<'a>],
) -> Result<Vec<Defaulted<'a>, A>, AllocError>
    ensures { IfOk result (λ v. all_defaulted v.items ≡ spec.weak_and_lazy (map plain_frame frames.now)) }
{
    let mut told = Vec::new(alloc);
    push_defaulted(alloc, WEAK, frames, &mut told)?;
    push_defaulted(alloc, LAZY, frames, &mut told)?;
    Ok(told)
}

/// The indexes of some externals.
fn indexes_of<A: Allocator + Copy>(
    alloc: A,
    marked: &[Defaulted<'_>],
) -> Result<BTreeSet<usize, A>, AllocError>
    ensures { IfOk result (λ s. (q : ℕ) → contains nat_cmp s q ≡ spec.is_index_of (all_defaulted marked.now) q) }
{
    let mut indexes = BTreeSet::new(alloc);
    for one in marked {
        indexes.insert(usize::from(one.index))?;
    }
    Ok(indexes)
}

/// Their names.
fn names_of<'a, A: Allocator + Copy>(
    alloc: A,
    marked: &[Defaulted<'a>],
) -> Result<BTreeSet<&'a [u8], A>, AllocError>
    ensures { IfOk result (λ s. (q : Bor (List ℕ)) →
        contains bytes_cmp s q ≡ spec.is_name_of (all_defaulted marked.now) q.now) }
{
    let mut names = BTreeSet::new(alloc);
    for one in marked {
        names.insert(one.name)?;
    }
    Ok(names)
}

/// The name of an external with an index that isn't one of those.
fn other_name<'a, A: Allocator + Copy>(
    indexes: &BTreeSet<usize, A>,
    index: usize,
    external: Option<&'a [u8]>,
) -> Option<&'a [u8]>
    ensures { bytes_said result ≡ other_name (contains nat_cmp indexes.now index) (bytes_said external.entry) }
{
    if indexes.contains(&index) {
        None
    } else {
        external
    }
}

/// The names of a module's externals whose indexes aren't those.
fn other_names<'a, A: Allocator + Copy>(
    alloc: A,
    indexes: &BTreeSet<usize, A>,
    externals: &[Option<&'a [u8]>],
) -> Result<BTreeSet<&'a [u8], A>, AllocError>
    ensures { IfOk result (λ s. (q : Bor (List ℕ)) →
        contains bytes_cmp s q ≡ has_name_at (contains nat_cmp indexes.now) q.now 1 (externals_said externals.now)) }
{
    let mut names = BTreeSet::new(alloc);
    for (before, external) in externals.iter().enumerate() {
        if let Some(name) = other_name(indexes, before + 1, *external) {
            names.insert(name)?;
        }
    }
    Ok(names)
}

/// Whether a name is one of theirs, and none of the others'.
fn is_theirs<'a, A: Allocator + Copy>(
    theirs: &BTreeSet<&'a [u8], A>,
    others: &BTreeSet<&'a [u8], A>,
    name: &'a [u8],
) -> bool
    ensures { result ≡ (contains bytes_cmp theirs.now name.entry && not (contains bytes_cmp others.now name.entry)) }
{
    theirs.contains(&name) && !others.contains(&name)
}

/// Those names of a module, in their order, that aren't names of some of its externals alone.
fn names_except<'a, A: Allocator + Copy>(
    alloc: A,
    marked: &[Defaulted<'a>],
    externals: &[Option<&'a [u8]>],
    names: &[&'a [u8]],
) -> Result<Vec<&'a [u8], A>, AllocError>
    ensures { IfOk result (λ v. texts v.items ≡ filter (λ name. not (spec.is_theirs (all_defaulted marked.now)
        (externals_said externals.now) name)) (texts names.now)) }
{
    let theirs = names_of(alloc, marked)?;
    let indexes = indexes_of(alloc, marked)?;
    let others = other_names(alloc, &indexes, externals)?;
    let mut kept = Vec::new(alloc);
    for name in names {
        if is_theirs(&theirs, &others, name) {
            continue;
        }
        kept.push(*name)?;
    }
    Ok(kept)
}

/// Those names of a module, in their order, that aren't names of some of its externals alone.
#[tactic(auto, unfolding(crate::specs::Defaults::is_theirs_alone))]
pub(crate) fn names_but<'a, A: Allocator + Copy>(
    alloc: A,
    marked: &[Defaulted<'a>],
    frames: &[Frame<'a>],
    names: &[&'a [u8]],
) -> Result<Vec<&'a [u8], A>, AllocError>
    ensures { IfOk result (λ v. texts v.items ≡ filter (λ name. not (spec.is_theirs_alone (all_defaulted marked.now)
        (map plain_frame frames.now) name)) (texts names.now)) }
{
    if marked.is_empty() {
        return Vec::from_slice(alloc, names);
    }
    let externals = module_externals(alloc, frames)?;
    names_except(alloc, marked, &externals, names)
}
