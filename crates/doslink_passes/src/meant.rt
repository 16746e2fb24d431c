//! What the modules mean that are linked: passes over modules that were read.
ghost use Rattle.std.specs.Prelude.{◌≡◌, ◌≤◌, IfOk, length, map, zip};
ghost use Rattle.std.specs.List.{range_with_len};
ghost use Rattle.omf_library.specs.Said.{all_defaulted, defaulted_said};
ghost use Rattle.omf_module.specs.Grouped.{grouped};
ghost use Rattle.omf_search.specs.Results.{module_said};
ghost use Rattle.doslink_link.specs.Linking.{bytes_of};
ghost use Rattle.doslink_passes.specs.Meant as spec;
ghost use Rattle.doslink_passes.specs.Meant.{AreMeant, ArePacked, far_data, far_group};
ghost use Rattle.doslink_passes.specs.Sources.{linked_said, source_bytes};
ghost use Rattle.doslink_passes.specs.inside.Passing.{taking_of, with_meaning};

use crate::linked::source_slices;
use crate::meanings::Meanings;
use crate::origin::{Linked, Source};
use omf_library::{Defaulted, module_frames, weak_and_lazy};
use omf_module::{Module, group_class, redirect_externals};
use omf_place::class_fits;
use std::alloc::{AllocError, Allocator};

/// The greatest index of an external that a record can have.
const GREATEST_INDEX: usize = 32_767;

/// The class of far data, and the name of its group.
const FAR_DATA: &[u8] = b"FAR_DATA";

const FAR_GROUP: &[u8] = b"AUTO";

/// The index of the default that an external means, one of so many, which has this name: nothing defines that, and its
/// default is local to the module.
fn local_default<A: Allocator + Copy>(
    meanings: &Meanings<'_, '_, '_, A>,
    count: usize,
    name: &[u8],
    external: &Defaulted<'_>,
) -> Option<u16>
    ensures { result ≡ spec.local_default meanings.now.names (map module_said meanings.now.says.now) count name.now
        (defaulted_said external.now) }
{
    let index = external.default_index;
    if meanings.is_defined(name) || external.default_name.is_some() {
        None
    } else if 0 < index && usize::from(index) <= count {
        Some(index)
    } else {
        None
    }
}

/// The name of the external of a module with this index, counted from 1; empty where it has none.
fn external_name<A: Allocator + Copy>(from: &Module<A>, index: u16) -> &[u8]
    ensures { result.now ≡ spec.external_name from.now.externals index }
{
    let index = usize::from(index);
    if 0 < index && index <= from.external_count() {
        from.external(index - 1).name
    } else {
        b""
    }
}

/// Writes what an external of a module means at its index, counted from 1.
fn set_meaning<A: Allocator + Copy>(
    meanings: &Meanings<'_, '_, '_, A>,
    from: &Module<A>,
    external: &Defaulted<'_>,
    indexes: &mut [u16],
)
    ensures { indexes.new ≡ with_meaning meanings.now.names (map module_said meanings.now.says.now)
        from.now.externals (defaulted_said external.now) indexes.old }
{
    let count = indexes.len();
    let index = usize::from(external.index);
    if 0 < index && index <= count {
        let name = external_name(from, external.index);
        let meaning = local_default(meanings, count, name, external);
        indexes[index - 1] = meaning.unwrap_or(external.index);
    }
}

/// The indexes of so many externals, counted from 1.
fn own_indexes<A: Allocator + Copy>(alloc: A, count: usize) -> Result<Vec<u16, A>, AllocError>
    requires { count ≤ 32767 }
    ensures { IfOk result (λ v. v.items ≡ range_with_len 1 count) }
{
    let mut indexes = Vec::new(alloc);
    for index in 0..count {
        indexes.push(index as u16 + 1)?;
    }
    Ok(indexes)
}

/// The index of the external that each of so many of a module means, by these defaults of theirs.
fn meanings_of<A: Allocator + Copy>(
    alloc: A,
    meanings: &Meanings<'_, '_, '_, A>,
    from: &Module<A>,
    defaults: &[Defaulted<'_>],
    count: usize,
) -> Result<Vec<u16, A>, AllocError>
    requires { count ≤ 32767 }
    ensures { IfOk result (λ v. v.items ≡ spec.meanings_of meanings.now.names (map module_said meanings.now.says.now)
        from.now.externals (all_defaulted defaults.now) count) }
{
    let mut indexes = own_indexes(alloc, count)?;
    let mut left = defaults.len();
    // the first default that is told of an external counts, so it is written last
    while left > 0 {
        left -= 1;
        set_meaning(meanings, from, &defaults[left], &mut indexes);
    }
    Ok(indexes)
}

/// What a module means by its externals, whose defaults these bytes tell.
fn with_defaults<'a, A: Allocator + Copy>(
    alloc: A,
    meanings: &Meanings<'_, '_, 'a, A>,
    bytes: &[u8],
    module: Module<A>,
) -> Result<Module<A>, AllocError>
    ensures { IfOk result (λ m. m ≡ spec.with_defaults meanings.now.names (map module_said meanings.now.says.now)
        (bytes.now, «module»)) }
{
    let frames = module_frames(alloc, bytes)?;
    let defaults = weak_and_lazy(alloc, &frames)?;
    let count = module.external_count().min(GREATEST_INDEX);
    let indexes = meanings_of(alloc, meanings, &module, &defaults, count)?;
    Ok(redirect_externals(module, &indexes))
}

/// What modules mean by their externals, whose defaults bytes of these tell.
fn all_with_defaults<A: Allocator + Copy>(
    alloc: A,
    meanings: &Meanings<'_, '_, '_, A>,
    inputs: &[&[u8]],
    modules: Vec<Module<A>, A>,
) -> Result<Vec<Module<A>, A>, AllocError>
    requires { length modules.items ≡ length inputs.now }
    ensures { IfOk result (λ v. v.items ≡ map
        (spec.with_defaults meanings.now.names (map module_said meanings.now.says.now))
        (zip (bytes_of inputs.now) modules.items)) }
{
    let mut all = Vec::new(alloc);
    for one in modules {
        let bytes = inputs[all.len()];
        all.push(with_defaults(alloc, meanings, bytes, one)?)?;
    }
    Ok(all)
}

/// Modules with their far data in one group.
fn all_grouped<A: Allocator + Copy>(
    alloc: A,
    modules: Vec<Module<A>, A>,
) -> Result<Vec<Module<A>, A>, AllocError>
    ensures { IfOk result (λ v. v.items ≡ map (grouped far_data far_group) modules.items) }
{
    let mut all = Vec::new(alloc);
    for one in modules {
        all.push(group_class(alloc, one, FAR_DATA, FAR_GROUP)?)?;
    }
    Ok(all)
}

/// Modules with their far data in one group, where the job packs it and it stands in one frame.
pub fn packed<A: Allocator + Copy>(
    alloc: A,
    packs: bool,
    modules: Vec<Module<A>, A>,
) -> Result<Vec<Module<A>, A>, AllocError>
    ensures { IfOk result (λ v. ArePacked packs modules.items v.items) }
{
    if packs && class_fits(alloc, &modules, FAR_DATA)? {
        all_grouped(alloc, modules)
    } else {
        Ok(modules)
    }
}

/// What modules mean that come from these, where the job packs far data or doesn't.
fn modules_meant<A: Allocator + Copy>(
    alloc: A,
    packs: bool,
    meanings: &Meanings<'_, '_, '_, A>,
    sources: &[Source<'_, A>],
    modules: Vec<Module<A>, A>,
) -> Result<Vec<Module<A>, A>, AllocError>
    requires { length sources.now ≡ length modules.items }
    ensures { IfOk result (λ v. AreMeant (taking_of packs meanings.now)
        (record { sources = map source_bytes sources.now; modules = modules.items }) v.items) }
{
    let slices = source_slices(alloc, sources)?;
    let modules = all_with_defaults(alloc, meanings, &slices, modules)?;
    packed(alloc, packs, modules)
}

/// What all that is linked means, where the job packs far data or doesn't.
pub(crate) fn linked_meant<'a, A: Allocator + Copy>(
    alloc: A,
    packs: bool,
    meanings: &Meanings<'_, '_, '_, A>,
    linked: Linked<'a, A>,
) -> Result<Linked<'a, A>, AllocError>
    ensures sources { IfOk result (λ l. l.sources ≡ linked.entry.sources) }
    ensures meant { IfOk result
        (λ l. AreMeant (taking_of packs meanings.now) (linked_said linked.entry) l.modules.items) }
{
    let Linked { sources, modules } = linked;
    let modules = modules_meant(alloc, packs, meanings, &sources, modules)?;
    Ok(Linked { sources, modules })
}
