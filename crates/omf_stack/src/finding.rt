//! The first part of the stack of a program.

ghost use Rattle.std.specs.Prelude.{◌≡◌, ◌&&◌, ℕ, Bool, List, IfOk, find, map, not};
ghost use Rattle.std.specs.Borrow.{Bor};
ghost use Rattle.std.specs.List.{list_any};
ghost use Rattle.std.specs.Option.{option_map};
ghost use Rattle.std.specs.Str.{bytes_eq};
ghost use Rattle.indexmap.specs.IndexSet.{contains};
ghost use Rattle.omf_module.specs.Faults.{is_absolute};
ghost use Rattle.omf_module.specs.Module as says;
ghost use Rattle.omf_module.specs.Seen.{segment_seen};
ghost use Rattle.omf_stack.specs.Stack as stack;
ghost use Rattle.omf_stack.specs.inside.Classes.{same_name};

use crate::segments::{is_placed, is_stack, is_stack_part};
use indexmap::IndexSet;
use omf_module::Segment;
use std::alloc::{AllocError, Allocator};
use std::hash::{BuildHasherDefault, FoldHasher};

/// Names of classes. The hash has a fixed seed.
type Classes<'a, A> = IndexSet<&'a [u8], BuildHasherDefault<FoldHasher>, A>;

/// The classes that have a part of kind stack.
fn stack_classes<'a, A: Allocator + Copy>(
    alloc: A,
    segments: &[Segment<'a>],
) -> Result<Classes<'a, A>, AllocError>
    ensures { IfOk result (λ classes. (q : Bor (List ℕ)) →
        contains same_name classes q ≡
        list_any (λ t. stack.is_stack t && bytes_eq q.now t.class) (map segment_seen segments.now)) }
{
    let mut classes = IndexSet::new(alloc);
    for segment in segments {
        if is_stack(segment) {
            classes.insert(segment.class)?;
        }
    }
    Ok(classes)
}

/// The first segment that is placed in one of these classes.
fn opening<'a, A: Allocator + Copy>(
    classes: &Classes<'a, A>,
    segments: &[Segment<'a>],
) -> Option<Segment<'a>>
    // By whatever says of each class whether it is one of them.
    ensures { (has : List ℕ → Bool) →
        ((q : Bor (List ℕ)) → contains same_name classes.now q ≡ has q.now) →
        option_map segment_seen result ≡
        find (λ (s : says.Segment). not (is_absolute s.standing) && has s.class) (map segment_seen segments.now) }
{
    for segment in segments {
        if is_placed(segment) && classes.contains(&segment.class) {
            return Some(*segment);
        }
    }
    None
}

/// The first part of kind stack in the class of a segment.
fn first_of_class<'a>(opening: &Segment<'a>, segments: &[Segment<'a>]) -> Option<Segment<'a>>
    ensures { option_map segment_seen result ≡
        find (λ t. stack.is_stack t && stack.same_class (segment_seen opening.now) t)
        (map segment_seen segments.now) }
{
    for segment in segments {
        if is_stack_part(segment.standing) && opening.class == segment.class {
            return Some(*segment);
        }
    }
    None
}

/// The first part of the stack of these segments, if there is one.
pub(crate) fn stack_part<'a, A: Allocator + Copy>(
    alloc: A,
    segments: &[Segment<'a>],
) -> Result<Option<Segment<'a>>, AllocError>
    ensures { IfOk result (λ o. option_map segment_seen o ≡ stack.stack_part (map segment_seen segments.now)) }
{
    let classes = stack_classes(alloc, segments)?;
    let Some(opening) = opening(&classes, segments) else {
        return Ok(None);
    };
    Ok(first_of_class(&opening, segments))
}
