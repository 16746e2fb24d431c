//! Which parts the order module has, in what order, and what names it defines.

ghost use Rattle.std.specs.Prelude.{◌≡◌, ◌+◌, ◌==◌, ◌&&◌, ◌<◌, ◌≤◌, [], ◌∷◌, ◌++◌, if◌then◌else◌, IfOk, IfSome, OnOk};
ghost use Rattle.std.specs.Prelude.{codes, filter, insert};
ghost use Rattle.std.specs.Prelude.{length, map, nat_lt, position, slice_index, true};
ghost use Rattle.std.specs.List.{list_any};
ghost use Rattle.omf_order.specs.Keys as keys;
ghost use Rattle.omf_order.specs.Parts as part;
ghost use Rattle.omf_order.specs.Plan as planned;
ghost use Rattle.omf_order.specs.Segments.{grouped, placed};
ghost use Rattle.omf_order.specs.inside.Held as held;
ghost use Rattle.omf_order.specs.inside.Held.{names_view, part_view, parts_view, plan_view, selector_view};

use crate::arranging::arranged;
use crate::firsts::{KeyPlaces, first_places};
use crate::keys::{DOSSEG_KEYS, Selector, dosseg_key, listed_key, selectors_of};
use crate::marks::wanted_names;
use crate::order::{Item, Order};
use crate::parts::{Part, first_parts};
use crate::segments::{grouped_segments, placed_segments};
use omf_module::{Kind, Module};
use omf_place::Names;
use std::alloc::{AllocError, Allocator};

/// Names that stand for the begin of a part, if there is one.
#[derive(Drop)]
pub(crate) struct Mark<'a, A: Allocator + Copy> {
    pub names: Vec<&'a [u8], A>,
    pub part: Option<usize>,
}

/// What the order module has.
#[derive(Drop)]
pub(crate) struct Plan<'a, A: Allocator + Copy> {
    pub parts: Vec<Part<'a>, A>,
    pub data_end: Mark<'a, A>,
    pub bss_end: Mark<'a, A>,
    /// Whether there are null bytes in front of `_TEXT`.
    pub null_bytes: bool,
}

/// A new part in DGROUP.
fn new_part<'a>(name: &'a [u8], class: &'a [u8]) -> Part<'a>
    ensures { part_view result ≡ planned.new_part name.now class.now }
{
    Part {
        name,
        class,
        alignment: 1,
        kind: Kind::Private,
        in_group: true,
        class_in_group: true,
    }
}

/// The first part of a class, in DGROUP if that is asked.
fn find_part(parts: &[Part<'_>], class: &[u8], in_group: bool) -> Option<usize>
    ensures place { result ≡ position (λ p. held.is_found in_group class.now (part_view p)) parts.now }
    ensures within { IfSome result (λ place. place < length parts.now) }
{
    parts
        .iter()
        .position(|part| (part.in_group || !in_group) && part.class == class)
}

/// The place of the first part in DGROUP of a class.
fn place_in_group(parts: &[Part<'_>], class: &[u8]) -> Option<usize>
    ensures { result ≡ position (planned.is_in_group class.now) (parts_view parts.now) }
{
    find_part(parts, class, true)
}

/// The place of the first part of a class.
fn place_of_class(parts: &[Part<'_>], class: &[u8]) -> Option<usize>
    ensures place { result ≡ position (planned.is_of class.now) (parts_view parts.now) }
    ensures within { IfSome result (λ place. place < length parts.now) }
{
    find_part(parts, class, false)
}

/// Whether a part of a class is in DGROUP.
fn has_in_group(parts: &[Part<'_>], class: &[u8]) -> bool
    ensures { result ≡ list_any (planned.is_in_group class.now) (parts_view parts.now) }
{
    place_in_group(parts, class).is_some()
}

/// The parts in the order of DOSSEG.
fn in_dosseg_order<'a, A: Allocator + Copy>(
    alloc: A,
    parts: &[Part<'a>],
    adds_bss: bool,
) -> Result<Vec<Part<'a>, A>, AllocError>
    ensures { IfOk result (λ v. parts_view v.items ≡
        keys.arranged (keys.dosseg_key adds_bss) 6 (parts_view parts.now)) }
{
    let mut keyed = Vec::new(alloc);
    for part in parts {
        keyed.push((dosseg_key(part, adds_bss), *part))?;
    }
    arranged(alloc, &keyed, DOSSEG_KEYS)
}

/// The parts, each behind its key by a list.
fn keyed_parts<'a, A: Allocator + Copy>(
    alloc: A,
    parts: &[Part<'a>],
    selectors: &KeyPlaces<'_, Selector<'a>, A>,
) -> Result<Vec<(usize, Part<'a>), A>, AllocError>
    ensures { IfOk result (λ v. v.items ≡
        map (λ p. (keys.key_by (map selector_view selectors.now) (part_view p), p)) parts.now) }
{
    let mut keyed = Vec::new(alloc);
    for part in parts {
        keyed.push((listed_key(selectors, part), *part))?;
    }
    Ok(keyed)
}

/// The parts in order of the first that selects them, and behind them those that none does.
fn by_selectors<'a, A: Allocator + Copy>(
    alloc: A,
    parts: &[Part<'a>],
    selectors: &[Selector<'a>],
) -> Result<Vec<Part<'a>, A>, AllocError>
    ensures { IfOk result (λ v. parts_view v.items ≡
        keys.arranged (keys.key_by (map selector_view selectors.now)) (length selectors.now + 1) (parts_view parts.now)) }
{
    let places = KeyPlaces::new(alloc, selectors)?;
    let keyed = keyed_parts(alloc, parts, &places)?;
    arranged(alloc, &keyed, selectors.len() + 1)
}

/// The parts in the order of a list.
fn in_listed_order<'a, A: Allocator + Copy>(
    alloc: A,
    parts: &[Part<'a>],
    items: &[Item<'a>],
) -> Result<Vec<Part<'a>, A>, AllocError>
    ensures { IfOk result (λ v. parts_view v.items ≡ keys.in_listed_order items.now (parts_view parts.now)) }
{
    let selectors = selectors_of(alloc, items)?;
    by_selectors(alloc, parts, &selectors)
}

/// The parts in an order.
fn in_order<'a, A: Allocator + Copy>(
    alloc: A,
    order: Order<'a>,
    parts: &[Part<'a>],
    adds_bss: bool,
) -> Result<Vec<Part<'a>, A>, AllocError>
    ensures { IfOk result (λ v. parts_view v.items ≡ keys.in_order order.entry adds_bss (parts_view parts.now)) }
{
    match order {
        Order::Meeting => Vec::from_slice(alloc, parts),
        Order::Dosseg { .. } => in_dosseg_order(alloc, parts, adds_bss),
        Order::Listed(items) => in_listed_order(alloc, parts, items),
    }
}

/// The place behind the first part of class BSS.
fn behind_bss(parts: &[Part<'_>]) -> usize
    ensures place { result ≡ planned.behind_bss (parts_view parts.now) }
    ensures within { result ≤ length parts.now }
{
    match place_of_class(parts, b"BSS") {
        Some(place) => place + 1,
        None => parts.len(),
    }
}

/// Whether there are no names.
fn is_empty(names: &[&[u8]]) -> bool
    ensures { result ≡ planned.is_empty (names_view names.now) }
{
    names.is_empty()
}

/// The class of each part.
fn part_classes<'a, A: Allocator + Copy>(
    alloc: A,
    parts: &[Part<'a>],
) -> Result<Vec<&'a [u8], A>, AllocError>
    ensures { IfOk result (λ v. v.items ≡ map (λ p. p.class) parts.now) }
{
    let mut classes = Vec::new(alloc);
    for part in parts {
        classes.push(part.class)?;
    }
    Ok(classes)
}

/// Whether the part at a place is the first of its class, and stands behind the first of class BSS.
fn is_behind(firsts: &[usize], bss: usize, place: usize) -> bool
    requires { place < length firsts.now }
    ensures { result ≡ (nat_lt bss place && slice_index firsts.now place == place) }
{
    bss < place && firsts[place] == place
}

/// Whether a part is of class STACK and in DGROUP.
fn is_near_stack(part: &Part<'_>) -> bool
    ensures { result ≡ planned.is_in_group (codes "STACK") (part_view part.now) }
{
    part.in_group && part.class == b"STACK".as_slice()
}

/// Whether the class right behind class BSS, whose first part stands at a place, is class STACK, with its first part in
/// DGROUP. For each part these are the places of the first of its class.
fn is_followed(parts: &[Part<'_>], firsts: &[usize], bss: usize) -> bool
    requires firsts { firsts.now ≡ map (λ p. planned.class_place p.class (parts_view parts.now)) (parts_view parts.now) }
    requires bss { bss ≡ planned.class_place (codes "BSS") (parts_view parts.now) }
    ensures { result ≡ planned.stack_follows (parts_view parts.now) }
{
    for (place, part) in parts.iter().enumerate() {
        if is_behind(firsts, bss, place) {
            return is_near_stack(part);
        }
    }
    false
}

/// Whether class STACK stands right behind class BSS, with its first part in DGROUP.
fn stack_follows<A: Allocator + Copy>(alloc: A, parts: &[Part<'_>]) -> Result<bool, AllocError>
    ensures { IfOk result (λ b. b ≡ planned.stack_follows (parts_view parts.now)) }
{
    let classes = part_classes(alloc, parts)?;
    let firsts = first_places(alloc, &classes, &classes)?;
    let bss = place_of_class(parts, b"BSS").unwrap_or(parts.len());
    Ok(is_followed(parts, &firsts, bss))
}

/// Whether a new class stands behind class BSS.
fn adds_end<A: Allocator + Copy>(
    alloc: A,
    ordered: &[Part<'_>],
    bss_end: &[&[u8]],
) -> Result<bool, AllocError>
    ensures { IfOk result (λ b. b ≡ planned.adds_end (parts_view ordered.now) (names_view bss_end.now)) }
{
    if is_empty(bss_end) {
        return Ok(false);
    }
    Ok(!stack_follows(alloc, ordered)?)
}

/// Whether class BSS has a new part.
fn adds_bss(first: &[Part<'_>], data_end: &[&[u8]], bss_end: &[&[u8]]) -> bool
    ensures { result ≡
        planned.adds_bss (parts_view first.now) (names_view data_end.now) (names_view bss_end.now) }
{
    (!is_empty(data_end) || !is_empty(bss_end)) && !has_in_group(first, b"BSS")
}

/// The parts, with the new one of class BSS behind them or not.
fn with_bss<'a, A: Allocator + Copy>(
    mut parts: Vec<Part<'a>, A>,
    adds_bss: bool,
) -> Result<Vec<Part<'a>, A>, AllocError>
    ensures { IfOk result (λ v. parts_view v.items ≡ planned.with_bss (parts_view parts.entry.items) adds_bss) }
{
    if adds_bss {
        parts.push(new_part(b"_BSS", b"BSS"))?;
    }
    Ok(parts)
}

/// Whether a part is of the new class behind class BSS, or isn't.
fn is_by_end(part: &Part<'_>, is_of_it: bool) -> bool
    ensures { result ≡ held.is_by_end is_of_it (part_view part.now) }
{
    if is_of_it {
        part.class == b"_END".as_slice()
    } else {
        part.class != b"_END".as_slice()
    }
}

/// Adds a part, if it passes.
fn push_passed<'a, A: Allocator + Copy>(
    found: &mut Vec<Part<'a>, A>,
    part: Part<'a>,
    passes: bool,
) -> Result<(), AllocError>
    ensures { OnOk result
        (found.new.items ≡ found.old.items ++ (if passes then part.entry ∷ [] else [])) }
{
    if passes {
        found.push(part)?;
    }
    Ok(())
}

/// The parts that are of the new class behind class BSS, or those that aren't.
fn parts_by_end<'a, A: Allocator + Copy>(
    alloc: A,
    parts: &[Part<'a>],
    is_of_it: bool,
) -> Result<Vec<Part<'a>, A>, AllocError>
    ensures { IfOk result (λ v. parts_view v.items ≡ filter (held.is_by_end is_of_it) (parts_view parts.now)) }
{
    let mut found = Vec::new(alloc);
    for part in parts {
        push_passed(&mut found, *part, is_by_end(part, is_of_it))?;
    }
    Ok(found)
}

/// Puts the new class behind class BSS.
fn insert_end<'a, A: Allocator + Copy>(parts: &mut Vec<Part<'a>, A>) -> Result<(), AllocError>
    ensures { OnOk result (parts_view parts.new.items ≡
        insert (parts_view parts.old.items) (planned.behind_bss (parts_view parts.old.items))
        (planned.new_part (codes "_END") (codes "_END"))) }
{
    let behind = behind_bss(parts);
    let part = new_part(b"_END", b"_END");
    parts.insert(behind, part)?;
    Ok(())
}

/// The parts, with the new class behind class BSS, and what is of a class of its name in it.
fn with_new_end<'a, A: Allocator + Copy>(
    alloc: A,
    parts: &[Part<'a>],
) -> Result<Vec<Part<'a>, A>, AllocError>
    ensures { IfOk result (λ v. parts_view v.items ≡ planned.with_end (parts_view parts.now) true) }
{
    let mut all = parts_by_end(alloc, parts, false)?;
    insert_end(&mut all)?;
    let own = parts_by_end(alloc, parts, true)?;
    all.extend_from_slice(&own)?;
    Ok(all)
}

/// The parts, with the new class behind class BSS or not.
fn with_end<'a, A: Allocator + Copy>(
    alloc: A,
    parts: Vec<Part<'a>, A>,
    adds_end: bool,
) -> Result<Vec<Part<'a>, A>, AllocError>
    ensures { IfOk result (λ v. parts_view v.items ≡ planned.with_end (parts_view parts.entry.items) adds_end) }
{
    if adds_end {
        with_new_end(alloc, &parts)
    } else {
        Ok(parts)
    }
}

/// The part of the names of the end of data.
fn data_end_part(data_end: &[&[u8]], parts: &[Part<'_>]) -> Option<usize>
    ensures { result ≡ planned.data_end_part (names_view data_end.now) (parts_view parts.now) }
{
    if is_empty(data_end) {
        None
    } else {
        place_in_group(parts, b"BSS")
    }
}

/// The part of the names of the end of class BSS.
fn bss_end_part(bss_end: &[&[u8]], adds_end: bool, parts: &[Part<'_>]) -> Option<usize>
    ensures { result ≡ planned.bss_end_part (names_view bss_end.now) adds_end (parts_view parts.now) }
{
    if is_empty(bss_end) {
        None
    } else if adds_end {
        place_of_class(parts, b"_END")
    } else {
        place_of_class(parts, b"STACK")
    }
}

/// Whether an order asks for null bytes.
fn asks_null_bytes(order: Order<'_>) -> bool
    ensures { result ≡ planned.asks_null_bytes order.entry }
{
    match order {
        Order::Dosseg { null_bytes } => null_bytes,
        Order::Meeting | Order::Listed(_) => false,
    }
}

/// The plan of parts in order.
fn plan_with<'a, A: Allocator + Copy>(
    alloc: A,
    null_bytes: bool,
    ordered: Vec<Part<'a>, A>,
    data_end: Vec<&'a [u8], A>,
    bss_end: Vec<&'a [u8], A>,
) -> Result<Plan<'a, A>, AllocError>
    ensures { IfOk result (λ p. plan_view p ≡ planned.plan_with null_bytes (parts_view ordered.entry.items)
        (names_view data_end.entry.items) (names_view bss_end.entry.items)) }
{
    let adds_end = adds_end(alloc, &ordered, &bss_end)?;
    let parts = with_end(alloc, ordered, adds_end)?;
    let begin = data_end_part(&data_end, &parts);
    let end = bss_end_part(&bss_end, adds_end, &parts);
    Ok(Plan {
        parts,
        data_end: Mark {
            names: data_end,
            part: begin,
        },
        bss_end: Mark {
            names: bss_end,
            part: end,
        },
        null_bytes,
    })
}

/// The plan, by the parts that the segments open and the names that are wanted.
fn plan_of<'a, A: Allocator + Copy>(
    alloc: A,
    order: Order<'a>,
    first: Vec<Part<'a>, A>,
    data_end: Vec<&'a [u8], A>,
    bss_end: Vec<&'a [u8], A>,
) -> Result<Plan<'a, A>, AllocError>
    ensures { IfOk result (λ p. plan_view p ≡
        planned.plan_of order.entry (parts_view first.entry.items) (names_view data_end.entry.items)
        (names_view bss_end.entry.items)) }
{
    let adds_bss = adds_bss(&first, &data_end, &bss_end);
    let met = with_bss(first, adds_bss)?;
    let ordered = in_order(alloc, order, &met, adds_bss)?;
    plan_with(alloc, asks_null_bytes(order), ordered, data_end, bss_end)
}

/// The parts that the segments of a program open.
fn opened_parts<'a, A: Allocator + Copy>(
    alloc: A,
    modules: &'a [Module<A>],
) -> Result<Vec<Part<'a>, A>, AllocError>
    ensures { IfOk result (λ v. parts_view v.items ≡ part.first_parts (placed modules.now) (grouped modules.now)) }
{
    let placed = placed_segments(alloc, modules)?;
    let grouped = grouped_segments(alloc, modules)?;
    first_parts(alloc, &placed, &grouped)
}

/// The plan of an order module.
pub(crate) fn make_plan<'a, A: Allocator + Copy>(
    alloc: A,
    modules: &'a [Module<A>],
    order: Order<'a>,
    names: Names,
) -> Result<Plan<'a, A>, AllocError>
    ensures { IfOk result (λ p. plan_view p ≡ planned.plan order.entry names modules.now) }
{
    let first = opened_parts(alloc, modules)?;
    let data_end = wanted_names(alloc, modules, names, b"_edata", b"__edata")?;
    let bss_end = wanted_names(alloc, modules, names, b"_end", b"__end")?;
    plan_of(alloc, order, first, data_end, bss_end)
}
