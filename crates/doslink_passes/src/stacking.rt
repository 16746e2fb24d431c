//! The stack of a link, with the length that its job asks for.
ghost use Rattle.std.specs.Prelude.{◌≡◌, ◌++◌, Bool, IsErr, MatchResult, OnOk, Some};
ghost use Rattle.doslink_passes.specs.Linked as spec;
ghost use Rattle.doslink_passes.specs.Linked.{Linked as Says};
ghost use Rattle.doslink_passes.specs.Orders.{HaveNoOrder, IsOrdered, asking_of};
ghost use Rattle.doslink_passes.specs.Request.{held_of};
ghost use Rattle.doslink_passes.specs.Sources.{linked_said};
ghost use Rattle.doslink_passes.specs.Stacks.{IsCut, NotStackedInOrder, StackedInOrder};
ghost use Rattle.doslink_passes.specs.Stops.{OnInput};
ghost use Rattle.doslink_passes.specs.inside.CutStacks.{AreCutTold, cut_warning};
ghost use Rattle.omf_stack.specs.Answer.{answer};
ghost use Rattle.omf_stack.specs.CutModules.{cut_program};

use crate::linked::{MadeModule, behind_first, source_words, with_behind, word_at};
use crate::ordering::{Ordered, with_order};
use crate::origin::Linked;
use crate::request::LinkRequest;
use crate::stop::{Stop, stop_after};
use doslink_telling::{push_cut_stack, push_fault, push_long_stack};
use doslink_words::Stack;
use omf_faults::{InputFault, LinkFault};
use omf_module::CheckFault;
use omf_stack::{CutFault, Stack as Answer, cut_stack_of, stack_module};
use std::alloc::Allocator;

/// The word for the module that has what the stack lacks.
const STACK_MODULE: &[u8] = b"stack";

/// What is linked behind its order module.
fn behind_order<'a, A: Allocator + Copy>(all: Ordered<'a, A>) -> Linked<'a, A>
    ensures { linked_said result ≡ spec.behind all.entry.has_order (linked_said all.entry.linked) }
{
    if all.has_order {
        behind_first(all.linked)
    } else {
        all.linked
    }
}

/// Tells that data lies outside of a stack that is cut, and stops.
fn stop_at_cut<A: Allocator + Copy>(
    alloc: A,
    word: &[u8],
    place: u64,
    lines: &mut Vec<u8, A>,
) -> Stop {
    let fault = LinkFault::Record {
        input: 0,
        place,
        fault: InputFault::Check(CheckFault::DataOutside),
    };
    stop_after(push_fault(alloc, lines, &fault, word))
}

/// What is linked, with its stack cut to a length. Data that lies outside of it then is told.
fn cut<'a, A: Allocator + Copy>(
    alloc: A,
    linked: Linked<'a, A>,
    bytes: u32,
    words: &[Vec<u8, A>],
    lines: &mut Vec<u8, A>,
) -> Result<Linked<'a, A>, Stop>
    ensures cut { MatchResult result (λ all. IsCut (linked_said linked.entry) bytes (linked_said all))
        (λ stop. OnInput stop (IsErr (cut_program linked.entry.modules.items bytes))) }
    ensures kept { OnOk result (lines.new.items ≡ lines.old.items) }
{
    let Linked { sources, modules } = linked;
    match cut_stack_of(alloc, modules, bytes) {
        Ok(modules) => Ok(Linked { sources, modules }),
        Err(CutFault::Memory) => Err(Stop::Memory),
        Err(CutFault::Outside { module, place }) => {
            let words = source_words(alloc, &sources, words)?;
            let word = word_at(&words, module);
            Err(stop_at_cut(alloc, word, place, lines))
        }
    }
}

/// What is linked, with its order module in front of it.
fn reordered<'a, A: Allocator + Copy>(
    alloc: A,
    request: &LinkRequest<'_, '_, '_, 'a, A>,
    linked: Linked<'a, A>,
    lines: &mut Vec<u8, A>,
) -> Result<Linked<'a, A>, Stop>
    ensures ordered { MatchResult result
        (λ all. (has_order : Bool) × IsOrdered
        (asking_of request.now.job.now request.now.marks (held_of request.now)) (linked_said linked.entry) has_order
        (linked_said all))
        (λ stop. OnInput stop (HaveNoOrder (asking_of request.now.job.now request.now.marks (held_of request.now))
        linked.entry.modules.items)) }
    ensures kept { OnOk result (lines.new.items ≡ lines.old.items) }
{
    let all = with_order(alloc, request, linked, lines)?;
    Ok(all.linked)
}

/// What is linked behind its order module, with a stack as long as is asked for: the order module says which segments
/// its parts are. That the modules ask for more is told: with a warning where the stack is cut. None where it is the
/// same.
fn stacked<'a, A: Allocator + Copy>(
    alloc: A,
    request: &LinkRequest<'_, '_, '_, 'a, A>,
    stack: Stack,
    all: Ordered<'a, A>,
    lines: &mut Vec<u8, A>,
) -> Result<Linked<'a, A>, Stop>
    ensures stacked { (l : Says) → IsOrdered (asking_of request.now.job.now request.now.marks (held_of request.now)) l
        all.entry.has_order (linked_said all.entry.linked) → MatchResult result
        (λ linked. StackedInOrder (asking_of request.now.job.now request.now.marks (held_of request.now)) (Some stack) l
        (linked_said linked))
        (λ stop. OnInput stop
        (NotStackedInOrder (asking_of request.now.job.now request.now.marks (held_of request.now)) (Some stack) l)) }
    ensures told { OnOk result (lines.new.items ≡ lines.old.items
        ++ cut_warning stack (answer all.entry.linked.modules.items stack.bytes)) }
{
    match stack_module(alloc, &all.linked.modules, stack.bytes)? {
        Answer::Enough => Ok(all.linked),
        Answer::Added(bytes) => {
            let made = MadeModule {
                word: STACK_MODULE,
                bytes,
            };
            let linked = with_behind(alloc, behind_order(all), made, lines)?;
            reordered(alloc, request, linked, lines)
        }
        Answer::TooLong if stack.cuts => {
            push_cut_stack(lines, stack.bytes)?;
            let Ordered { linked, has_order } = all;
            let linked = cut(alloc, linked, stack.bytes, request.words, lines)?;
            let linked = behind_order(Ordered { linked, has_order });
            reordered(alloc, request, linked, lines)
        }
        Answer::TooLong => {
            push_long_stack(lines, stack.bytes)?;
            Err(Stop::Input)
        }
    }
}

/// What is linked, with a stack as long as the job asks for, and the order module in front of it.
pub(crate) fn with_stack<'a, A: Allocator + Copy>(
    alloc: A,
    request: &LinkRequest<'_, '_, '_, 'a, A>,
    linked: Linked<'a, A>,
    lines: &mut Vec<u8, A>,
) -> Result<Linked<'a, A>, Stop>
    ensures stacked { MatchResult result
        (λ all. StackedInOrder (asking_of request.now.job.now request.now.marks (held_of request.now))
        request.now.job.now.stack (linked_said linked.entry) (linked_said all))
        (λ stop. OnInput stop
        (NotStackedInOrder (asking_of request.now.job.now request.now.marks (held_of request.now))
        request.now.job.now.stack (linked_said linked.entry))) }
    ensures told { OnOk result (AreCutTold (asking_of request.now.job.now request.now.marks (held_of request.now))
        request.now.job.now.stack (linked_said linked.entry) lines.old.items lines.new.items) }
{
    let all = with_order(alloc, request, linked, lines)?;
    match request.job.stack {
        Some(stack) => stacked(alloc, request, stack, all, lines),
        None => Ok(all.linked),
    }
}
