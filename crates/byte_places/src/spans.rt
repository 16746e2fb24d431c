//! The bytes of an image that no span has.
ghost use Rattle.std.specs.Prelude.{◌≡◌, ◌<◌, ◌≤◌, ◌||◌, ◌&&◌, ◌++◌, ℕ, IfOk, OnOk, false, length, map, nat_lt};
ghost use Rattle.std.specs.Prelude.{slice_index_or};
ghost use Rattle.byte_places.specs.Gaps as spec;
ghost use Rattle.byte_places.specs.inside.Found.{found_at};

use std::alloc::{AllocError, Allocator};

/// Bytes of an image, from the place of the first one to the place behind the last one.
#[derive(Clone, Copy, Debug, PartialEq, Eq)]
pub struct Span {
    pub start: usize,
    pub end: usize,
}

/// Flags the bytes of a span, those behind the image left out.
fn flag(flags: &mut [bool], span: Span)
    ensures { (k : ℕ) → slice_index_or flags.new k false
        ≡ (slice_index_or flags.old k false || (nat_lt k (length flags.old) && spec.is_in k span)) }
{
    let end = span.end.min(flags.len());
    for place in span.start.min(end)..end {
        flags[place] = true;
    }
}

/// Flags the bytes of an image of a length that spans have.
fn flags_of<A: Allocator + Copy>(
    alloc: A,
    spans: &[Span],
    len: usize,
) -> Result<Vec<bool, A>, AllocError>
    ensures { IfOk result (λ flags. flags.items ≡ spec.flags spans.now len) }
{
    let mut flags = vec![in alloc; false; len]?;
    for span in spans {
        flag(&mut flags, *span);
    }
    Ok(flags)
}

/// Whether a gap begins at a place: its byte isn't flagged, and the one before it is, where there is one.
fn begins_gap(flags: &[bool], place: usize) -> bool
    requires { place < length flags.now }
    ensures { result ≡ spec.begins_gap flags.now place }
{
    !flags[place] && (place == 0 || flags[place - 1])
}

/// Where a gap ends that begins at a place: at the next flagged byte, or at the end of the image.
fn gap_end(flags: &[bool], start: usize) -> usize
    requires { start ≤ length flags.now }
    ensures { result ≡ spec.gap_end flags.now start }
{
    let mut end = start;
    while end < flags.len() && !flags[end] {
        end += 1;
    }
    end
}

/// Appends the gap that begins at a place, where one does.
fn push_gap<A: Allocator + Copy>(
    found: &mut Vec<Span, A>,
    flags: &[bool],
    start: usize,
) -> Result<(), AllocError>
    requires { start < length flags.now }
    ensures { OnOk result (found.new.items
        ≡ found.old.items ++ map (spec.gap_at flags.now) (found_at (spec.begins_gap flags.now) start)) }
{
    if begins_gap(flags, start) {
        let end = gap_end(flags, start);
        found.push(Span { start, end })?;
    }
    Ok(())
}

/// The longest spans of an image of a length that share no byte with these spans, in rising order.
///
/// # Errors
/// There was no memory.
pub fn gaps<A: Allocator + Copy>(
    alloc: A,
    spans: &[Span],
    len: usize,
) -> Result<Vec<Span, A>, AllocError>
    ensures { IfOk result (λ found. found.items ≡ spec.gaps spans.now len) }
{
    let flags = flags_of(alloc, spans, len)?;
    let mut found = Vec::new(alloc);
    for start in 0..flags.len() {
        push_gap(&mut found, &flags, start)?;
    }
    Ok(found)
}
