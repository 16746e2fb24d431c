//! The publics of a program, listed.
ghost use Rattle.std.specs.Prelude.{◌≡◌, ◌+◌, ◌*◌, ◌<◌, ◌++◌, [], IfOk, OnOk};
ghost use Rattle.std.specs.List.{flat_map};
ghost use Rattle.omf_module.specs.Seen.{public_seen};
ghost use Rattle.link_map.specs.Ordered.{ordered};
ghost use Rattle.link_map.specs.Public.{by_name, by_value};
ghost use Rattle.link_map.specs.Publics as spec;
ghost use Rattle.link_map.specs.inside.Listed.{all_seen, seen};

use crate::public::{
    ListedPublic, PARAGRAPH_LEN, counted_from, listed_frame, sort_by_name, sort_by_value,
};
use omf_module::{Module, PublicSymbol};
use omf_place::{Layout, Position};
use std::alloc::{AllocError, Allocator, Global};

/// The publics of a program in the order of their names, and of where they stand.
#[derive(Drop)]
pub(crate) struct Orders<'a, A: Allocator + Copy = Global> {
    pub(crate) by_name: Vec<ListedPublic<'a>, A>,
    pub(crate) by_value: Vec<ListedPublic<'a>, A>,
}

/// A public of a name, which stands there.
pub(crate) fn listed_at<'a>(name: &'a [u8], place: Position) -> ListedPublic<'a>
    ensures { seen result ≡ spec.listed_at name.now place }
{
    match place {
        Position::Relocatable(address, Some(frame)) => {
            counted_from(name, address, listed_frame(address, frame), false)
        }
        Position::Relocatable(address, None) => {
            counted_from(name, address, address / PARAGRAPH_LEN, false)
        }
        Position::Absolute(address, frame) => {
            counted_from(name, address, listed_frame(address, frame), true)
        }
    }
}

/// Appends a public, where it isn't local.
fn push_public<'a, A: Allocator + Copy, B: Allocator + Copy>(
    listed: &mut Vec<ListedPublic<'a>, A>,
    layout: &Layout<B>,
    symbol: PublicSymbol<'a>,
) -> Result<(), AllocError>
    ensures { OnOk result (all_seen listed.new.items
        ≡ all_seen listed.old.items ++ spec.listed layout.now (public_seen symbol.entry)) }
{
    if symbol.local {
        return Ok(());
    }
    if let Some(place) = layout.public(symbol.name) {
        listed.push(listed_at(symbol.name, place))?;
    }
    Ok(())
}

/// Appends the publics of a module.
fn push_publics<'a, A: Allocator + Copy, B: Allocator + Copy>(
    listed: &mut Vec<ListedPublic<'a>, A>,
    layout: &Layout<B>,
    module: &'a Module<B>,
) -> Result<(), AllocError>
    ensures { OnOk result (all_seen listed.new.items
        ≡ all_seen listed.old.items ++ flat_map (spec.listed layout.now) «module».now.publics) }
{
    for index in 0..module.public_symbol_count() {
        push_public(listed, layout, module.public_symbol(index))?;
    }
    Ok(())
}

/// The publics of modules, in order of inputs and records.
fn program_publics<'a, A: Allocator + Copy, B: Allocator + Copy>(
    alloc: A,
    modules: &'a [Module<B>],
    layout: &Layout<B>,
) -> Result<Vec<ListedPublic<'a>, A>, AllocError>
    ensures { IfOk result (λ listed. all_seen listed.items ≡ spec.publics modules.now layout.now) }
{
    let mut listed = Vec::new(alloc);
    for module in modules {
        push_publics(&mut listed, layout, module)?;
    }
    Ok(listed)
}

/// The publics of modules in both orders.
pub(crate) fn in_orders<'a, A: Allocator + Copy, B: Allocator + Copy>(
    alloc: A,
    modules: &'a [Module<B>],
    layout: &Layout<B>,
) -> Result<Orders<'a, A>, AllocError>
    ensures names { IfOk result (λ orders. all_seen orders.by_name.items
        ≡ ordered by_name (spec.publics modules.now layout.now)) }
    ensures values { IfOk result (λ orders. all_seen orders.by_value.items
        ≡ ordered by_value (spec.publics modules.now layout.now)) }
{
    let mut by_name = program_publics(alloc, modules, layout)?;
    let mut by_value = program_publics(alloc, modules, layout)?;
    sort_by_name(&mut by_name)?;
    sort_by_value(&mut by_value)?;
    Ok(Orders { by_name, by_value })
}

/// A public is listed where it stands: the paragraph of its frame and its offset, which four digits hold, make its
/// address.
pub fn listed_where_it_stands(place: Position)
    ensures address { 16 * (spec.listed_at [] place).frame + (spec.listed_at [] place).offset ≡ spec.address_of place }
    ensures near { (spec.listed_at [] place).offset < 65536 }
{
    listed_at(b"", place);
}
