//! Fix-ups of 32 bits that became ones of 16, and a start that did: their sums have no more than 16 bits.
ghost use Rattle.std.specs.Prelude.{◌≡◌, ◌≢◌, cond, MatchResult, None};
ghost use Rattle.std.specs.List.{list_any};
ghost use Rattle.std.specs.Option.{option_or};
ghost use Rattle.omf_image.specs.Overflow as image;
ghost use Rattle.omf_place.specs.Bounded.{IsBounded};
ghost use Rattle.doslink_passes.specs.Request.{names_of};
ghost use Rattle.doslink_passes.specs.Stops.{OnInput};
ghost use Rattle.doslink_passes.specs.Sums.{AllFit, SomeOverflows, narrow_fixups, narrow_start};
ghost use Rattle.doslink_passes.specs.inside.Narrowed.{TellsSums};

use crate::linked::{source_words, word_at};
use crate::origin::Linked;
use crate::request::LinkRequest;
use crate::stop::{Stop, stop_after};
use doslink_telling::push_overflow;
use omf_image::{first_overflow, start_overflow};
use omf_module::Module;
use omf_place::{Layout, Names, PlaceFault, place};
use omf_plain::Widths;
use std::alloc::{AllocError, Allocator};

/// What of the modules of a link was of 32 bits.
#[derive(Clone, Copy)]
struct Narrowed {
    /// Whether a fix-up was.
    fixups: bool,
    /// Whether a start was.
    start: bool,
}

/// Whether a fix-up of a module was.
fn has_fixup(one: &Widths) -> bool
    ensures { result ≡ one.now.fixups }
{
    one.fixups
}

/// Whether a start of a module was.
fn has_start(one: &Widths) -> bool
    ensures { result ≡ one.now.start }
{
    one.start
}

/// Whether a fix-up of some module was.
fn have_fixup(widths: &[Widths]) -> bool
    ensures { result ≡ narrow_fixups widths.now }
{
    widths.iter().any(|one| has_fixup(one))
}

/// Whether the start of some module was.
fn have_start(widths: &[Widths]) -> bool
    ensures { result ≡ narrow_start widths.now }
{
    widths.iter().any(|one| has_start(one))
}

/// What of modules was of 32 bits.
fn find_narrowed(widths: &[Widths]) -> Narrowed
    ensures fixups { result.fixups ≡ narrow_fixups widths.now }
    ensures start { result.start ≡ narrow_start widths.now }
{
    Narrowed {
        fixups: have_fixup(widths),
        start: have_start(widths),
    }
}

/// The first fix-up whose sum has more than 16 bits, else the start if it was of 32 bits and its sum has more: the
/// module and the place of its record there.
fn first_above<A: Allocator + Copy>(
    narrowed: Narrowed,
    modules: &[Module<A>],
    layout: &Layout<A>,
) -> Option<(usize, u64)>
    requires { IsBounded modules.now layout.now }
    ensures { result ≡ option_or (image.first_overflow layout.now modules.now)
        (cond narrowed.start (image.start_overflow layout.now modules.now) None) }
{
    if let Some(at) = first_overflow(modules, layout) {
        return Some(at);
    }
    if narrowed.start {
        return start_overflow(modules, layout);
    }
    None
}

/// Tells that the sum at a fix-up or start of a module has more than 16 bits, by the place of its record there.
fn tell_sum<A: Allocator + Copy>(
    alloc: A,
    request: &LinkRequest<'_, '_, '_, '_, A>,
    linked: &Linked<'_, A>,
    at: (usize, u64),
    lines: &mut Vec<u8, A>,
) -> Result<(), AllocError> {
    let (module, place) = at;
    let words = source_words(alloc, &linked.sources, request.words)?;
    let word = word_at(&words, module);
    push_overflow(lines, word, place)
}

/// No sum is looked at where modules have no layout, since they are at fault, which the link tells.
fn unplaced<A: Allocator + Copy>(fault: PlaceFault<A>) -> Result<Option<(usize, u64)>, Stop>
    ensures { MatchResult result (λ at. (at ≡ None) × (fault ≢ PlaceFault.Memory)) (λ stop. OnInput stop ⊥) }
{
    match fault {
        PlaceFault::Memory => Err(Stop::Memory),
        _ => Ok(None),
    }
}

/// The sum of modules that has more than 16 bits, if there is one: the module and the place of its record there.
fn sum_above<A: Allocator + Copy>(
    alloc: A,
    names: Names,
    narrowed: Narrowed,
    modules: &[Module<A>],
) -> Result<Option<(usize, u64)>, Stop>
    ensures { MatchResult result (TellsSums narrowed names modules.now) (λ stop. OnInput stop ⊥) }
{
    match place(alloc, modules, names) {
        Ok(layout) => Ok(first_above(narrowed, modules, &layout)),
        Err(fault) => unplaced(fault),
    }
}

/// Stops where fix-ups or the start were of 32 bits, and the sum at one of them has more than 16, and tells that one.
pub(crate) fn check_sums<A: Allocator + Copy>(
    alloc: A,
    request: &LinkRequest<'_, '_, '_, '_, A>,
    widths: &[Widths],
    linked: &Linked<'_, A>,
    lines: &mut Vec<u8, A>,
) -> Result<(), Stop>
    ensures { MatchResult result
        (λ done. AllFit widths.now (names_of request.now.job.now.ignore_case) linked.now.modules.items)
        (λ stop. OnInput stop
        (SomeOverflows widths.now (names_of request.now.job.now.ignore_case) linked.now.modules.items)) }
{
    let narrowed = find_narrowed(widths);
    if !narrowed.fixups && !narrowed.start {
        return Ok(());
    }
    match sum_above(alloc, request.names(), narrowed, &linked.modules)? {
        Some(at) => Err(stop_after(tell_sum(alloc, request, linked, at, lines))),
        None => Ok(()),
    }
}
