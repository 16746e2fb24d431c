//! The module that a program's stack wants.

ghost use Rattle.std.specs.Prelude.{◌≡◌, ◌-◌, ◌≤◌, nat_lt, if◌then◌else◌, IfOk, IfSome, None, Some, length, map};
ghost use Rattle.std.specs.List.{list_any};
ghost use Rattle.omf_module.specs.Seen.{group_seen, segment_seen};
ghost use Rattle.omf_stack.specs.Answer as answered;
ghost use Rattle.omf_stack.specs.Answer.{answer_said};
ghost use Rattle.omf_stack.specs.Stack.{stack_length};
ghost use Rattle.omf_stack.specs.inside.Wanted.{wanted_left};

use crate::finding::stack_part;
use crate::records::{put_new, put_part};
use crate::segments::{all_segments, is_of};
use crate::stack::Stack;
use omf_module::{Group, Module, Segment, all_promise};
use std::alloc::{AllocError, Allocator};

/// How many bytes are left of a length behind the parts of a stack. None where they have more.
fn bytes_left(stack: &Segment<'_>, segments: &[Segment<'_>], asked: u32) -> Option<u32>
    ensures { result ≡
        (if nat_lt asked (stack_length (segment_seen stack.now) (map segment_seen segments.now)) then None
        else Some (asked - stack_length (segment_seen stack.now) (map segment_seen segments.now))) }
{
    let mut left = asked;
    for segment in segments {
        if is_of(stack, segment) {
            left = left.checked_sub(segment.length)?;
        }
    }
    Some(left)
}

/// Whether a group is DGROUP.
fn is_dgroup(group: Group<'_>) -> bool
    ensures { result ≡ answered.is_dgroup (group_seen group.entry) }
{
    group.name == b"DGROUP".as_slice()
}

/// Whether a module has that group.
fn has_group<A: Allocator + Copy>(from: &Module<A>) -> bool
    ensures { result ≡ list_any answered.is_dgroup from.now.groups }
{
    for index in 0..from.group_count() {
        let group = from.group(index);
        if is_dgroup(group) {
            return true;
        }
    }
    false
}

/// Whether some module has it.
fn has_dgroup<A: Allocator + Copy>(modules: &[Module<A>]) -> bool
    ensures { result ≡ answered.has_dgroup modules.now }
{
    for each in modules {
        if has_group(each) {
            return true;
        }
    }
    false
}

/// What a stack wants to have a length, with so many bytes left of it.
fn wanted_by<A: Allocator + Copy>(
    alloc: A,
    stack: &Segment<'_>,
    left: Option<u32>,
) -> Result<Stack<A>, AllocError>
    requires name { length stack.now.name.now ≤ 255 }
    requires class { length stack.now.class.now ≤ 255 }
    requires left { IfSome left (λ n. n ≤ 65536) }
    ensures { IfOk result (λ s. answer_said s ≡ wanted_left (segment_seen stack.now) left) }
{
    match left {
        None => Ok(Stack::TooLong),
        Some(0) => Ok(Stack::Enough),
        Some(length) => {
            let mut bytes = Vec::new(alloc);
            put_part(alloc, stack, length, &mut bytes)?;
            Ok(Stack::Added(bytes))
        }
    }
}

/// What the stack of a program wants to have so many bytes; more than 65,536 count as these. The stack is the segment
/// of kind stack that SS:SP names. Where no segment is of that kind, it wants a module with a segment STACK of class
/// STACK, in the group DGROUP where some module has that.
pub fn stack_module<A: Allocator + Copy>(
    alloc: A,
    modules: &[Module<A>],
    bytes: u32,
) -> Result<Stack<A>, AllocError>
    ensures { IfOk result (λ s. answer_said s ≡ answered.answer modules.now bytes) }
{
    let asked = bytes.min(65_536);
    all_promise(modules);
    let segments = all_segments(alloc, modules)?;
    match stack_part(alloc, &segments)? {
        Some(stack) => wanted_by(alloc, &stack, bytes_left(&stack, &segments, asked)),
        None => {
            let mut module = Vec::new(alloc);
            put_new(alloc, has_dgroup(modules), asked, &mut module)?;
            Ok(Stack::Added(module))
        }
    }
}
