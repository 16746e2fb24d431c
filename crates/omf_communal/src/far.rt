//! The far communal variables that modules reach by their offsets alone.

ghost use Rattle.std.specs.Prelude.{◌≡◌, ◌++◌, ◌&&◌, ◌-◌, ℕ, List, IfOk, OnOk, false, if◌then◌else◌, map, not};
ghost use Rattle.std.specs.Prelude.{◌∷◌, [], cond, slice_get, true};
ghost use Rattle.std.specs.Borrow.{Bor};
ghost use Rattle.std.specs.List.{filter_map, list_any};
ghost use Rattle.std.specs.Option.{option_map, option_map_or};
ghost use Rattle.indexmap.specs.IndexSet.{contains};
ghost use Rattle.omf_module.specs.Seen.{external_seen, public_seen};
ghost use Rattle.omf_place.specs.Names.{agrees};
ghost use Rattle.omf_communal.specs.Deciding.{variable_said};
ghost use Rattle.omf_communal.specs.Far as reach;
ghost use Rattle.omf_communal.specs.Modules.{bytes_of};
ghost use Rattle.omf_keys.specs.Keys.{key_of, same_key};
ghost use Rattle.omf_communal.specs.inside.Sought as seek;

use crate::declarations::{Extent, Variable};
use crate::modules::{NameSet, insert_offered, is_offered};
use indexmap::IndexSet;
use omf_keys::Key;
use omf_module::{ExternalSymbol, Module, PublicSymbol, ResolvedFixup};
use omf_place::Names;
use omf_record::{FrameMethod, Location, PublicBase, TargetMethod};
use std::alloc::{AllocError, Allocator};

/// A far communal variable that a module reaches by its offset alone.
#[derive(Clone, Copy, Debug)]
pub struct Reached<'m> {
    /// Which module, counted from 0.
    pub module: usize,
    /// The variable's name, as the module spells it.
    pub name: &'m [u8],
}

/// What names are sought.
#[derive(Clone, Copy)]
pub(crate) enum Sought {
    /// Those whose offsets fix-ups put down alone.
    Offset,
    /// Those whose frames they put down.
    Base,
}

/// Whether a location has an offset, or a byte of one, alone.
fn is_offset(location: Location) -> bool
    ensures { result ≡ reach.is_offset location }
{
    match location {
        Location::LowByte | Location::Offset | Location::LoaderOffset => true,
        Location::Base | Location::Pointer => false,
    }
}

/// Whether a location has a frame.
fn is_base(location: Location) -> bool
    ensures { result ≡ reach.is_base location }
{
    matches!(location, Location::Base | Location::Pointer)
}

/// The name of the external that is a target.
fn target_name<'m, A: Allocator + Copy>(
    from: &'m Module<A>,
    target: TargetMethod,
) -> Option<&'m [u8]>
    ensures { option_map (λ n. n.now) result ≡ reach.target_name from.now target }
{
    let TargetMethod::External(index) = target else {
        return None;
    };
    let index = usize::from(index).saturating_sub(1);
    if index < from.external_count() {
        Some(from.external(index).name)
    } else {
        None
    }
}

/// The name of the external whose frame a reference has.
fn frame_name<'m, A: Allocator + Copy>(
    from: &'m Module<A>,
    target: TargetMethod,
    frame: FrameMethod,
) -> Option<&'m [u8]>
    ensures { option_map (λ n. n.now) result ≡ reach.frame_name from.now target frame }
{
    match frame {
        FrameMethod::By(method) => target_name(from, method),
        FrameMethod::Location => None,
        FrameMethod::Target => target_name(from, target),
    }
}

/// The name whose offset a fix-up puts down alone.
fn offset_name<'m, A: Allocator + Copy>(
    from: &'m Module<A>,
    fixup: &ResolvedFixup,
) -> Option<&'m [u8]>
    ensures { option_map (λ n. n.now) result ≡ reach.offset_name from.now fixup.now }
{
    if is_offset(fixup.location) {
        target_name(from, fixup.target)
    } else {
        None
    }
}

/// The name whose frame a fix-up puts down.
fn base_name<'m, A: Allocator + Copy>(
    from: &'m Module<A>,
    fixup: &ResolvedFixup,
) -> Option<&'m [u8]>
    ensures { option_map (λ n. n.now) result ≡ reach.base_name from.now fixup.now }
{
    if is_base(fixup.location) {
        frame_name(from, fixup.target, fixup.frame)
    } else {
        None
    }
}

/// The name that is sought of a fix-up.
fn name_at<'m, A: Allocator + Copy>(
    from: &'m Module<A>,
    sought: Sought,
    fixup: &ResolvedFixup,
) -> Option<&'m [u8]>
    ensures { option_map (λ n. n.now) result ≡ seek.name_at sought from.now fixup.now }
{
    match sought {
        Sought::Offset => offset_name(from, fixup),
        Sought::Base => base_name(from, fixup),
    }
}

/// Appends the names that are sought of some fix-ups of a module.
fn push_names<'m, A: Allocator + Copy>(
    names: &mut Vec<&'m [u8], A>,
    from: &'m Module<A>,
    sought: Sought,
    fixups: &[ResolvedFixup],
) -> Result<(), AllocError>
    ensures { OnOk result (bytes_of names.new.items ≡
        bytes_of names.old.items ++ filter_map (seek.name_at sought from.now) fixups.now) }
{
    for fixup in fixups {
        if let Some(name) = name_at(from, sought, fixup) {
            names.push(name)?;
        }
    }
    Ok(())
}

/// The names that are sought of the fix-ups of a module.
fn names_at<'m, A: Allocator + Copy>(
    alloc: A,
    from: &'m Module<A>,
    sought: Sought,
) -> Result<Vec<&'m [u8], A>, AllocError>
    ensures { IfOk result (λ v. bytes_of v.items ≡ reach.names_at (seek.name_at sought from.now) from.now) }
{
    let mut names = Vec::new(alloc);
    for index in 0..from.data_record_count() {
        let data = from.data_record(index);
        push_names(&mut names, from, sought, data.fixups)?;
    }
    Ok(names)
}

/// Some names, to be asked for.
fn name_set<'a, A: Allocator + Copy>(
    alloc: A,
    names: Names,
    list: &[&'a [u8]],
) -> Result<NameSet<'a, A>, AllocError>
    ensures { IfOk result (λ set. (q : Bor (List ℕ)) →
        contains same_key set (key_of names q) ≡ list_any (agrees names q.now) (bytes_of list.now)) }
{
    let mut set = IndexSet::new(alloc);
    insert_offered(&mut set, names, list)?;
    Ok(set)
}

/// The names of the far ones of some variables.
fn far_names<'a, A: Allocator + Copy>(
    alloc: A,
    variables: &[Variable<'a>],
) -> Result<Vec<&'a [u8], A>, AllocError>
    ensures { IfOk result (λ v. bytes_of v.items ≡ reach.far_names (map variable_said variables.now)) }
{
    let mut names = Vec::new(alloc);
    for variable in variables {
        if let Extent::Far { .. } = variable.extent {
            names.push(variable.name)?;
        }
    }
    Ok(names)
}

/// Whether a segment, counted from 1, is one of far variables.
fn is_far_segment<A: Allocator + Copy>(from: &Module<A>, number: usize) -> bool
    ensures { result ≡ option_map_or reach.is_far_segment (slice_get from.now.segments (number - 1)) false }
{
    let index = number.saturating_sub(1);
    if index < from.segment_count() {
        from.segment(index).class == b"FAR_BSS".as_slice()
    } else {
        false
    }
}

/// Whether a public stands in a segment of far variables, and in no group.
fn is_far_base<A: Allocator + Copy>(from: &Module<A>, base: PublicBase) -> bool
    ensures { result ≡ reach.is_far_base from.now base }
{
    match base {
        PublicBase::InSegment { group, segment } => {
            group == 0 && is_far_segment(from, usize::from(segment))
        }
        PublicBase::AtFrame { .. } => false,
    }
}

/// Whether a public is a far variable that is local to its module.
fn is_far_local<A: Allocator + Copy>(from: &Module<A>, symbol: PublicSymbol<'_>) -> bool
    ensures { result ≡ reach.is_far_local from.now (public_seen symbol.entry) }
{
    symbol.local && is_far_base(from, symbol.base)
}

/// The names of the far variables that are local to a module.
fn local_far_names<'m, A: Allocator + Copy>(
    alloc: A,
    from: &'m Module<A>,
) -> Result<Vec<&'m [u8], A>, AllocError>
    ensures { IfOk result (λ v. bytes_of v.items ≡ reach.local_far_names from.now) }
{
    let mut names = Vec::new(alloc);
    for index in 0..from.public_symbol_count() {
        let symbol = from.public_symbol(index);
        if is_far_local(from, symbol) {
            names.push(symbol.name)?;
        }
    }
    Ok(names)
}

/// The names of far variables, and those whose offsets and whose frames the fix-ups of a module put down.
#[derive(Clone, Copy)]
pub(crate) struct NameSets<'s, 'm, A: Allocator + Copy> {
    far: &'s NameSet<'m, A>,
    local_far: &'s NameSet<'m, A>,
    by_offset: &'s NameSet<'m, A>,
    by_base: &'s NameSet<'m, A>,
}

/// Whether an external is a far variable, one that is local to its module where it is.
fn is_far<'m, A: Allocator + Copy>(
    sets: NameSets<'_, 'm, A>,
    names: Names,
    external: ExternalSymbol<'m>,
) -> bool
    ensures { result ≡ (if external.entry.local
        then contains same_key sets.entry.local_far.now (key_of names external.entry.name)
        else contains same_key sets.entry.far.now (key_of names external.entry.name)) }
{
    if external.local {
        is_offered(sets.local_far, names, external.name)
    } else {
        is_offered(sets.far, names, external.name)
    }
}

/// Whether an external is a far variable that its module reaches by the offset alone.
fn is_reached<'m, A: Allocator + Copy>(
    sets: NameSets<'_, 'm, A>,
    names: Names,
    external: ExternalSymbol<'m>,
) -> bool
    ensures { result ≡ ((if external.entry.local
        then contains same_key sets.entry.local_far.now (key_of names external.entry.name)
        else contains same_key sets.entry.far.now (key_of names external.entry.name))
        && (contains same_key sets.entry.by_offset.now (key_of names external.entry.name)
        && not (contains same_key sets.entry.by_base.now (key_of names external.entry.name)))) }
{
    is_far(sets, names, external)
        && is_offered(sets.by_offset, names, external.name)
        && !is_offered(sets.by_base, names, external.name)
}

/// The names of the far variables that a module reaches by their offsets alone.
fn reached_in<'m, A: Allocator + Copy>(
    alloc: A,
    names: Names,
    from: &'m Module<A>,
    far: &NameSet<'m, A>,
) -> Result<Vec<&'m [u8], A>, AllocError>
    // By whatever names these are.
    ensures { IfOk result (λ v. (list : List (List ℕ)) →
        ((q : Bor (List ℕ)) → contains same_key far.now (key_of names q) ≡ list_any (agrees names q.now) list) →
        bytes_of v.items ≡ reach.reached_names names list from.now) }
{
    let offsets = names_at(alloc, from, Sought::Offset)?;
    let bases = names_at(alloc, from, Sought::Base)?;
    let by_offset = name_set(alloc, names, &offsets)?;
    let by_base = name_set(alloc, names, &bases)?;
    let locals = local_far_names(alloc, from)?;
    let local_far = name_set(alloc, names, &locals)?;
    let sets = NameSets {
        far,
        local_far: &local_far,
        by_offset: &by_offset,
        by_base: &by_base,
    };
    let mut reached = Vec::new(alloc);
    for index in 0..from.external_count() {
        let external = from.external(index);
        if is_reached(sets, names, external) {
            reached.push(external.name)?;
        }
    }
    Ok(reached)
}

/// Appends a name, unless one that agrees with it was met before.
fn push_first<'m, A: Allocator + Copy>(
    met: &mut NameSet<'m, A>,
    firsts: &mut Vec<&'m [u8], A>,
    names: Names,
    name: &'m [u8],
) -> Result<(), AllocError>
    ensures met { OnOk result ((q : Bor (List ℕ)) → contains same_key met.new (key_of names q)
        ≡ cond (same_key (key_of names name.entry) (key_of names q)) true
        (contains same_key met.old (key_of names q))) }
    ensures firsts { OnOk result (firsts.new.items ≡ cond (contains same_key met.old (key_of names name.entry))
        firsts.old.items (firsts.old.items ++ name.entry ∷ [])) }
{
    if !met.insert(Key::new(names, name))? {
        return Ok(());
    }
    firsts.push(name)?;
    Ok(())
}

/// The first of those of some names that agree.
fn firsts<'m, A: Allocator + Copy>(
    alloc: A,
    names: Names,
    list: &[&'m [u8]],
) -> Result<Vec<&'m [u8], A>, AllocError>
    ensures { IfOk result (λ v. bytes_of v.items ≡ reach.firsts names (bytes_of list.now)) }
{
    let mut met = IndexSet::new(alloc);
    let mut firsts = Vec::new(alloc);
    for name in list {
        push_first(&mut met, &mut firsts, names, name)?;
    }
    Ok(firsts)
}

/// Appends such names of the module with this index.
fn push_reached<'m, A: Allocator + Copy>(
    all: &mut Vec<Reached<'m>, A>,
    module: usize,
    names: &[&'m [u8]],
) -> Result<(), AllocError>
    ensures { OnOk result (map reach.reached_said all.new.items ≡
        map reach.reached_said all.old.items ++ map (reach.reached_at «module») (bytes_of names.now)) }
{
    for name in names {
        all.push(Reached { module, name })?;
    }
    Ok(())
}

/// The far ones of a program's variables, and those that are local to a module, that its modules reach by their offsets
/// alone, each once, in order of modules and of their external names. Such a module has a fix-up at an offset of the
/// name, or at a byte of it, and none at a base or a pointer whose frame is that of the name.
pub fn far_by_offset<'m, A: Allocator + Copy>(
    alloc: A,
    names: Names,
    modules: &'m [Module<A>],
    variables: &[Variable<'m>],
) -> Result<Vec<Reached<'m>, A>, AllocError>
    ensures { IfOk result (λ v. map reach.reached_said v.items ≡
        reach.far_by_offset names (map variable_said variables.now) modules.now) }
{
    let far = far_names(alloc, variables)?;
    let far = name_set(alloc, names, &far)?;
    let mut all = Vec::new(alloc);
    for (index, from) in modules.iter().enumerate() {
        let reached = reached_in(alloc, names, from, &far)?;
        let once = firsts(alloc, names, &reached)?;
        push_reached(&mut all, index, &once)?;
    }
    Ok(all)
}
