//! What another module defines behind a module's own.
ghost use Rattle.std.specs.Prelude.{◌≡◌, ◌+◌, ◌≤◌, ◌++◌, nat_lt, length, map, IfOk, OnOk};
ghost use Rattle.std.specs.List.{AllByRecursion};
ghost use Rattle.omf_module.specs.Grouped.{greatest_index};
ghost use Rattle.omf_module.specs.Joined as spec;
ghost use Rattle.omf_module.specs.inside.Room.{HasRoom};

use crate::lookups::Module;
use crate::store::Store;
use omf_record::PublicBase;
use std::alloc::{AllocError, Allocator};

/// The greatest index, 7FFFH (TIS OMF 1.1, "Indexed References").
const GREATEST_INDEX: usize = 32_767;

/// Whether one of so many, and so many more behind them, has no index.
fn pass_indexes(count: usize, more: usize) -> bool
    ensures { result ≡ nat_lt greatest_index (count + more) }
{
    count.saturating_add(more) > GREATEST_INDEX
}

/// So many segments and groups, behind which others are put.
#[derive(Clone, Copy, Debug)]
pub struct Behind {
    segments: u16,
    groups: u16,
}

/// The index of a group behind so many; 0 means none.
fn group_behind(behind: Behind, index: u16) -> u16
    requires { behind.groups + index ≤ 65535 }
    ensures { result ≡ spec.group_behind behind.groups index }
{
    if index == 0 { 0 } else { behind.groups + index }
}

/// What a public counts from.
fn base_behind(behind: Behind, base: PublicBase) -> PublicBase
    requires { HasRoom behind.segments behind.groups base }
    ensures { result ≡ spec.base_behind behind.segments behind.groups base }
{
    match base {
        PublicBase::AtFrame { group, frame } => PublicBase::AtFrame {
            group: group_behind(behind, group),
            frame,
        },
        PublicBase::InSegment { group, segment } => PublicBase::InSegment {
            group: group_behind(behind, group),
            segment: behind.segments + segment,
        },
    }
}

/// Puts the segments of a module behind those of a store.
fn join_segments<A: Allocator + Copy>(
    store: &mut Store<A>,
    more: &Module<A>,
) -> Result<(), AllocError>
    ensures { OnOk result
        (store.new ≡ record store.old { segments = store.old.segments ++ more.now.segments }) }
{
    more.promises();
    for index in 0..more.segment_count() {
        store.push_part(more.segment(index))?;
    }
    Ok(())
}

/// The numbers of members behind so many segments.
fn members_behind<A: Allocator + Copy>(
    alloc: A,
    segments: u16,
    members: &[u16],
) -> Result<Vec<u16, A>, AllocError>
    requires { AllByRecursion (λ member. segments + member ≤ 65535) members.now }
    ensures { IfOk result (λ v. v.items ≡ map (λ member. segments + member) members.now) }
{
    let mut all = Vec::new(alloc);
    for member in members {
        all.push(segments + *member)?;
    }
    Ok(all)
}

/// Puts the parts of groups of a module behind those of a store.
fn join_groups<A: Allocator + Copy>(
    alloc: A,
    store: &mut Store<A>,
    segments: u16,
    more: &Module<A>,
) -> Result<(), AllocError>
    requires { segments + length more.now.segments ≤ 65535 }
    ensures { OnOk result (store.new ≡ record store.old {
      groups = store.old.groups ++ map (spec.part_behind segments) more.now.groups;
    }) }
{
    more.promises();
    for index in 0..more.group_count() {
        let group = more.group(index);
        let members = members_behind(alloc, segments, group.members)?;
        store.push_members(group.name, members)?;
    }
    Ok(())
}

/// Puts the publics of a module behind those of a store.
fn join_publics<A: Allocator + Copy>(
    store: &mut Store<A>,
    behind: Behind,
    more: &Module<A>,
) -> Result<(), AllocError>
    requires segments { behind.segments + length more.now.segments ≤ 65535 }
    requires groups { behind.groups + length more.now.groups ≤ 65535 }
    ensures { OnOk result (store.new ≡ record store.old {
      publics = store.old.publics ++ map (spec.public_behind behind.segments behind.groups) more.now.publics;
    }) }
{
    more.promises();
    for index in 0..more.public_symbol_count() {
        let public = more.public_symbol(index);
        let base = base_behind(behind, public.base);
        store.push_public(public.name, base, public.offset, public.local)?;
    }
    Ok(())
}

/// The module with the segments, groups and publics of another behind its own, whose indexes count on from its own.
/// What else the other has, externals, data and a start, is left out; all of the module's own stays.
///
/// None, where a segment or a group of the other would have an index above 32,767, so that no record could name it.
pub fn with_declarations<A: Allocator + Copy>(
    alloc: A,
    module: Module<A>,
    more: &Module<A>,
) -> Result<Option<Module<A>>, AllocError>
    ensures { IfOk result (λ answer. answer ≡ spec.with_declarations «module» more.now) }
{
    let segments = module.segment_count();
    let groups = module.group_count();
    if pass_indexes(segments, more.segment_count()) || pass_indexes(groups, more.group_count()) {
        return Ok(None);
    }
    let behind = Behind {
        segments: segments as u16,
        groups: groups as u16,
    };
    more.promises();
    let (mut store, start) = module.into_parts();
    join_segments(&mut store, more)?;
    join_groups(alloc, &mut store, behind.segments, more)?;
    join_publics(&mut store, behind, more)?;
    Ok(Some(Module::from_parts(store, start)))
}
