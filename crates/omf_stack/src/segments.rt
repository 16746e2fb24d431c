//! The segments of a program, and which of them are parts of a stack.

ghost use Rattle.std.specs.Prelude.{◌≡◌, ◌++◌, IfOk, OnOk, map, not};
ghost use Rattle.omf_module.specs.declared.Kind.TheVariants.{Stack};
ghost use Rattle.omf_module.specs.Faults.{is_absolute};
ghost use Rattle.omf_module.specs.Seen.{segment_seen};
ghost use Rattle.omf_place.specs.Parts.{is_kind};
ghost use Rattle.omf_stack.specs.Stack as stack;

use omf_module::{Kind, Module, Segment, Standing};
use std::alloc::{AllocError, Allocator};

/// Whether what stands so is a part of kind stack.
pub(crate) fn is_stack_part(standing: Standing) -> bool
    ensures { result ≡ is_kind Stack standing }
{
    match standing {
        Standing::Absolute { .. } => false,
        Standing::Relocatable { kind, .. } => matches!(kind, Kind::Stack),
    }
}

/// Whether a segment is a part of kind stack.
pub(crate) fn is_stack(segment: &Segment<'_>) -> bool
    ensures { result ≡ stack.is_stack (segment_seen segment.now) }
{
    is_stack_part(segment.standing)
}

/// Whether what stands so is placed: it isn't absolute.
fn is_relocatable(standing: Standing) -> bool
    ensures { result ≡ not (is_absolute standing) }
{
    matches!(standing, Standing::Relocatable { .. })
}

/// Whether a segment is placed.
pub(crate) fn is_placed(segment: &Segment<'_>) -> bool
    ensures { result ≡ not (is_absolute (segment_seen segment.now).standing) }
{
    is_relocatable(segment.standing)
}

/// Whether a segment is a part of the stack with this first part.
pub(crate) fn is_of(first: &Segment<'_>, segment: &Segment<'_>) -> bool
    ensures { result ≡ stack.is_of (segment_seen first.now) (segment_seen segment.now) }
{
    is_stack_part(segment.standing) && first.name == segment.name && first.class == segment.class
}

/// Adds the segments of a module.
fn push_segments<'a, A: Allocator + Copy>(
    all: &mut Vec<Segment<'a>, A>,
    from: &'a Module<A>,
) -> Result<(), AllocError>
    ensures { OnOk result
        (map segment_seen all.new.items ≡ map segment_seen all.old.items ++ from.now.segments) }
{
    for index in 0..from.segment_count() {
        let segment = from.segment(index);
        all.push(segment)?;
    }
    Ok(())
}

/// The segments of a program, in order of modules and of definition.
pub(crate) fn all_segments<'a, A: Allocator + Copy>(
    alloc: A,
    modules: &'a [Module<A>],
) -> Result<Vec<Segment<'a>, A>, AllocError>
    ensures { IfOk result (λ v. map segment_seen v.items ≡ stack.segments modules.now) }
{
    let mut all = Vec::new(alloc);
    for each in modules {
        push_segments(&mut all, each)?;
    }
    Ok(all)
}
