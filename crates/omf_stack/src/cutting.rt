//! Modules in which a stack is cut.

ghost use Rattle.std.specs.Prelude.{◌≡◌, ◌-◌, ◌≤◌, ◌&&◌, IfOk, OnOk, MatchResult, Some, None, Ok};
ghost use Rattle.std.specs.Prelude.{length, nat_lt, if◌then◌else◌};
ghost use Rattle.std.specs.Option.{option_map};
ghost use Rattle.omf_module.specs.Lengths.{with_lengths as lengths_told};
ghost use Rattle.omf_module.specs.Seen.{segment_seen};
ghost use Rattle.omf_stack.specs.Cut as cut;
ghost use Rattle.omf_stack.specs.CutModules.{IsCutFault, cut_program, in_module};
ghost use Rattle.omf_stack.specs.Stack.{stack_length};
ghost use Rattle.omf_stack.specs.inside.Cutting as told;
ghost use Rattle.omf_stack.specs.inside.Cutting.{lists};

use crate::fault::CutFault;
use crate::finding::stack_part;
use crate::segments::{all_segments, is_of};
use omf_module::{Module, Segment, with_lengths};
use std::alloc::{AllocError, Allocator};

/// The lengths that the segments of one module get, where they get some.
type Lengths<A> = Vec<Option<u16>, A>;

/// The length that a segment of this length gets where so many bytes are left for those of a stack, of which it is one
/// or not. None where it is as before.
fn cut_length(is_part: bool, left: u32, length: u32) -> Option<u16>
    requires { length ≤ 65536 }
    ensures { result ≡ (if is_part && nat_lt left length then Some left else None) }
{
    if is_part && left < length {
        Some(left as u16)
    } else {
        None
    }
}

/// How many bytes are left behind it.
fn left_behind(is_part: bool, left: u32, length: u32) -> u32
    ensures { result ≡ left - (if is_part then length else 0) }
{
    if is_part {
        left.saturating_sub(length)
    } else {
        left
    }
}

/// The lengths that the segments of a module get where so many bytes are left for those of a stack, and how many are
/// left behind them.
fn cut_lengths<A: Allocator + Copy>(
    alloc: A,
    stack: &Segment<'_>,
    left: &mut u32,
    from: &Module<A>,
) -> Result<Vec<Option<u16>, A>, AllocError>
    ensures lengths { IfOk result (λ v. v.items ≡ cut.cut_lengths (segment_seen stack.now) left.old from.now.segments) }
    ensures left { OnOk result (left.new ≡ left.old - stack_length (segment_seen stack.now) from.now.segments) }
{
    from.promises();
    let mut lengths = Vec::new(alloc);
    for index in 0..from.segment_count() {
        let segment = from.segment(index);
        let is_part = is_of(stack, &segment);
        lengths.push(cut_length(is_part, *left, segment.length))?;
        *left = left_behind(is_part, *left, segment.length);
    }
    Ok(lengths)
}

/// The lengths that the segments of modules get where so many bytes are left for those of a stack.
fn lengths_of<A: Allocator + Copy>(
    alloc: A,
    stack: &Segment<'_>,
    modules: &[Module<A>],
    asked: u32,
) -> Result<Vec<Lengths<A>, A>, AllocError>
    ensures { IfOk result (λ v. lists v.items ≡ told.lengths_of (segment_seen stack.now) asked modules.now) }
{
    let mut left = asked;
    let mut all = Vec::new(alloc);
    for from in modules {
        let lengths = cut_lengths(alloc, stack, &mut left, from)?;
        all.push(lengths)?;
    }
    Ok(all)
}

/// Those that the segments of a program's modules get where its stack is cut to so many bytes. None where it has none.
fn lengths_in<A: Allocator + Copy>(
    alloc: A,
    modules: &[Module<A>],
    bytes: u32,
) -> Result<Option<Vec<Lengths<A>, A>>, AllocError>
    ensures { IfOk result (λ o. option_map (λ v. lists v.items) o ≡ told.lengths_in modules.now bytes) }
{
    let segments = all_segments(alloc, modules)?;
    match stack_part(alloc, &segments)? {
        Some(stack) => {
            let lengths = lengths_of(alloc, &stack, modules, bytes.min(65_536))?;
            Ok(Some(lengths))
        }
        None => Ok(None),
    }
}

/// The module with this index, with these lengths of its segments.
fn lengthened<A: Allocator + Copy>(
    index: usize,
    lengths: &[Option<u16>],
    from: Module<A>,
) -> Result<Module<A>, CutFault>
    ensures { result ≡ in_module index (lengths_told lengths.now from) }
{
    match with_lengths(from, lengths) {
        Ok(cut) => Ok(cut),
        Err(place) => Err(CutFault::Outside {
            module: index,
            place,
        }),
    }
}

/// Modules with these lengths of their segments.
fn all_lengthened<A: Allocator + Copy>(
    alloc: A,
    lengths: &[Lengths<A>],
    modules: Vec<Module<A>, A>,
) -> Result<Vec<Module<A>, A>, CutFault>
    requires { length modules.items ≡ length lengths.now }
    ensures { MatchResult result
        (λ v. told.lengthened 0 (lists lengths.now) modules.items ≡ Ok v.items)
        (λ e. IsCutFault e (told.lengthened 0 (lists lengths.now) modules.items)) }
{
    let mut all = Vec::new(alloc);
    for one in modules {
        let index = all.len();
        let cut = lengthened(index, &lengths[index], one)?;
        all.push(cut)?;
    }
    Ok(all)
}

/// The modules of a program whose stack is cut to so many bytes, more than 65,536 counting as these: the parts of the
/// stack, in order, keep what is left of the bytes. Without a stack they are the same. Else the first module that has
/// data where its part then ends.
pub fn cut_stack_of<A: Allocator + Copy>(
    alloc: A,
    modules: Vec<Module<A>, A>,
    bytes: u32,
) -> Result<Vec<Module<A>, A>, CutFault>
    ensures { MatchResult result
        (λ v. cut_program modules.items bytes ≡ Ok v.items)
        (λ e. IsCutFault e (cut_program modules.items bytes)) }
{
    match lengths_in(alloc, &modules, bytes)? {
        Some(lengths) => all_lengthened(alloc, &lengths, modules),
        None => Ok(modules),
    }
}
