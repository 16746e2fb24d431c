//! Where classes and combined segments are first met.

ghost use Rattle.std.specs.Prelude.{◌≡◌, IfOk, map};
ghost use Rattle.std.specs.List.{position_or_len};
ghost use Rattle.omf_order.specs.Segments as segments;
ghost use Rattle.omf_order.specs.Segments.{same_class};
ghost use Rattle.omf_order.specs.inside.Held as held;

use crate::firsts::first_places;
use omf_module::{Kind, Segment, Standing};
use std::alloc::{AllocError, Allocator};

/// How segments combine, as something that is compared.
#[derive(Clone, Copy, PartialEq, Eq, Hash)]
pub(crate) enum Joining {
    Private,
    Public,
    Stack,
    Common,
}

/// What segments combine by: those that aren't private and agree in all of it.
#[derive(Clone, Copy, PartialEq, Eq, Hash)]
pub(crate) struct Combining<'a> {
    pub kind: Joining,
    pub name: &'a [u8],
    pub class: &'a [u8],
}

/// How a kind combines.
pub(crate) fn joining_of(kind: Kind) -> Joining
    ensures { result ≡ held.joining kind }
{
    match kind {
        Kind::Private => Joining::Private,
        Kind::Public => Joining::Public,
        Kind::Stack => Joining::Stack,
        Kind::Common => Joining::Common,
    }
}

/// The kind of a segment: an absolute one combines with none, as a private one does.
pub(crate) fn kind_of(segment: &Segment<'_>) -> Kind
    ensures { result ≡ segments.kind_of segment.now.standing }
{
    match segment.standing {
        Standing::Absolute { .. } => Kind::Private,
        Standing::Relocatable { kind, .. } => kind,
    }
}

/// What a segment combines by.
pub(crate) fn combining_of<'a>(segment: &Segment<'a>) -> Combining<'a>
    ensures { result ≡ held.combining segment.now }
{
    Combining {
        kind: joining_of(kind_of(segment)),
        name: segment.name,
        class: segment.class,
    }
}

/// The class of each segment.
fn class_keys<'a, A: Allocator + Copy>(
    alloc: A,
    segments: &[Segment<'a>],
) -> Result<Vec<&'a [u8], A>, AllocError>
    ensures { IfOk result (λ v. v.items ≡ map (λ s. s.class) segments.now) }
{
    let mut keys = Vec::new(alloc);
    for segment in segments {
        keys.push(segment.class)?;
    }
    Ok(keys)
}

/// What each segment combines by.
fn combined_keys<'a, A: Allocator + Copy>(
    alloc: A,
    segments: &[Segment<'a>],
) -> Result<Vec<Combining<'a>, A>, AllocError>
    ensures { IfOk result (λ v. v.items ≡ map held.combining segments.now) }
{
    let mut keys = Vec::new(alloc);
    for segment in segments {
        keys.push(combining_of(segment))?;
    }
    Ok(keys)
}

/// For each segment, the place of the first of the others that is of its class, or their number.
fn class_places<'a, A: Allocator + Copy>(
    alloc: A,
    asked: &[Segment<'a>],
    segments: &[Segment<'a>],
) -> Result<Vec<usize, A>, AllocError>
    ensures { IfOk result (λ v. v.items ≡
        map (λ s. position_or_len (same_class s) (held.segments_view segments.now)) (held.segments_view asked.now)) }
{
    let asked_keys = class_keys(alloc, asked)?;
    let keys = class_keys(alloc, segments)?;
    first_places(alloc, &asked_keys, &keys)
}

/// For each segment, the place of the first of the others of its kind, name and class, or their number.
fn combined_places<'a, A: Allocator + Copy>(
    alloc: A,
    asked: &[Segment<'a>],
    segments: &[Segment<'a>],
) -> Result<Vec<usize, A>, AllocError>
    ensures { IfOk result (λ v. v.items ≡
        map (λ s. position_or_len (held.same_key s) (held.segments_view segments.now)) (held.segments_view asked.now)) }
{
    let asked_keys = combined_keys(alloc, asked)?;
    let keys = combined_keys(alloc, segments)?;
    first_places(alloc, &asked_keys, &keys)
}

/// Where the classes and the combined segments of some segments are first met among others.
#[derive(Drop)]
pub(crate) struct Met<A: Allocator + Copy> {
    /// For each segment, the place of the first of its class, or the number of the others.
    pub classes: Vec<usize, A>,
    /// For each segment, the place of the first of its kind, name and class, or the number of the others.
    pub combined: Vec<usize, A>,
}

/// Where the classes and the combined segments of some segments are first met among others.
pub(crate) fn first_met<'a, A: Allocator + Copy>(
    alloc: A,
    asked: &[Segment<'a>],
    segments: &[Segment<'a>],
) -> Result<Met<A>, AllocError>
    ensures { IfOk result (λ m. held.AreMet asked.now segments.now m.classes.items m.combined.items) }
{
    let classes = class_places(alloc, asked, segments)?;
    let combined = combined_places(alloc, asked, segments)?;
    Ok(Met { classes, combined })
}
