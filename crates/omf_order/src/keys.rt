//! What orders the parts: a part of a smaller key comes first.

ghost use Rattle.std.specs.Prelude.{◌≡◌, ◌++◌, IfOk, OnOk, map};
ghost use Rattle.omf_order.specs.Keys as keys;
ghost use Rattle.omf_order.specs.inside.Held as held;
ghost use Rattle.omf_order.specs.inside.Held.{part_view, selector_view};

use crate::firsts::KeyPlaces;
use crate::order::Item;
use crate::parts::Part;
use std::alloc::{AllocError, Allocator};

/// How many keys the order of DOSSEG has.
pub(crate) const DOSSEG_KEYS: usize = 6;

/// The key of a part in the order of DOSSEG, where class BSS has a new part in DGROUP or not.
pub(crate) fn dosseg_key(part: &Part<'_>, adds_bss: bool) -> usize
    ensures { result ≡ keys.dosseg_key adds_bss (part_view part.now) }
{
    if part.class.ends_with(b"CODE") {
        0
    } else if !part.class_in_group && !(adds_bss && part.class == b"BSS".as_slice()) {
        1
    } else if part.class == b"BEGDATA".as_slice() {
        2
    } else if part.class == b"BSS".as_slice() {
        4
    } else if part.class == b"STACK".as_slice() {
        5
    } else {
        3
    }
}

/// What a list names: in a class the segments of a name, or all of them.
#[derive(Clone, Copy, PartialEq, Eq, Hash)]
pub(crate) struct Selector<'a> {
    pub class: &'a [u8],
    pub segment: Option<&'a [u8]>,
}

/// Appends all of a class, if there is one.
fn push_whole<'a, A: Allocator + Copy>(
    all: &mut Vec<Selector<'a>, A>,
    current: Option<&'a [u8]>,
) -> Result<(), AllocError>
    ensures { OnOk result
        (map selector_view all.new.items ≡ map selector_view all.old.items ++ keys.whole (held.name_view current.entry)) }
{
    if let Some(class) = current {
        all.push(Selector {
            class,
            segment: None,
        })?;
    }
    Ok(())
}

/// Appends the segments of a name in a class, if there is one.
fn push_named<'a, A: Allocator + Copy>(
    all: &mut Vec<Selector<'a>, A>,
    current: Option<&'a [u8]>,
    name: &'a [u8],
) -> Result<(), AllocError>
    ensures { OnOk result (map selector_view all.new.items ≡
        map selector_view all.old.items ++ keys.named (held.name_view current.entry) name.now) }
{
    if let Some(class) = current {
        all.push(Selector {
            class,
            segment: Some(name),
        })?;
    }
    Ok(())
}

/// What a list names, in order: each class behind the segments that are named behind it.
pub(crate) fn selectors_of<'a, A: Allocator + Copy>(
    alloc: A,
    items: &[Item<'a>],
) -> Result<Vec<Selector<'a>, A>, AllocError>
    ensures { IfOk result (λ v. map selector_view v.items ≡ keys.selectors items.now) }
{
    let mut all = Vec::new(alloc);
    let mut current = None;
    for item in items {
        match *item {
            Item::Class(class) => {
                push_whole(&mut all, current)?;
                current = Some(class);
            }
            Item::Segment(name) => push_named(&mut all, current, name)?,
        }
    }
    push_whole(&mut all, current)?;
    Ok(all)
}

/// The key of a part by a list: the place of the first of these that selects it, or their number where none does.
pub(crate) fn listed_key<'a, A: Allocator + Copy>(
    selectors: &KeyPlaces<'_, Selector<'a>, A>,
    part: &Part<'a>,
) -> usize
    ensures { result ≡ keys.key_by (map selector_view selectors.now) (part_view part.now) }
{
    let whole = Selector {
        class: part.class,
        segment: None,
    };
    let named = Selector {
        class: part.class,
        segment: Some(part.name),
    };
    selectors.first(whole).min(selectors.first(named))
}
