//! The modules that are linked for those that a link takes, pass by pass.
ghost use Rattle.std.specs.Prelude.{◌≡◌, IfOk, List, map, MatchResult};
ghost use Rattle.omf_communal.specs.Deciding.{variable_said};
ghost use Rattle.omf_plain.specs.declared.widths.Widths.{Widths};
ghost use Rattle.doslink_passes.specs.Chain.{AreChained, AreModulesOf, HaveNoModules};
ghost use Rattle.doslink_passes.specs.Joined.{AreJoined, AreNotJoined};
ghost use Rattle.doslink_passes.specs.Meanings.{AreMeaningsFor};
ghost use Rattle.doslink_passes.specs.Orders.{asking_of};
ghost use Rattle.doslink_passes.specs.Request.{given_of, held_of, says_of};
ghost use Rattle.doslink_passes.specs.Sources.{linked_said, source_bytes};
ghost use Rattle.doslink_passes.specs.Stops.{OnInput};

use crate::aliases::meanings_of;
use crate::communals::with_communal;
use crate::filled::check_filled;
use crate::locals::with_locals;
use crate::meanings::Meanings;
use crate::meant::linked_meant;
use crate::origin::{Linked, Source};
use crate::plain::{TakenModules, take_modules};
use crate::request::LinkRequest;
use crate::stacking::with_stack;
use crate::stop::Stop;
use crate::sums::check_sums;
use crate::widths::warn_of_wide_segments;
use omf_communal::Variable;
use omf_plain::Widths;
use std::alloc::{AllocError, Allocator};

/// What is linked, and what of each module that was given was of 32 bits.
#[derive(Drop)]
struct Chained<'a, A: Allocator + Copy> {
    linked: Linked<'a, A>,
    widths: Vec<Widths, A>,
}

/// Where the modules that a link takes come from.
fn given_sources<'a, A: Allocator + Copy>(
    alloc: A,
    request: &LinkRequest<'_, '_, '_, 'a, A>,
) -> Result<Vec<Source<'a, A>, A>, AllocError>
    ensures { IfOk result (λ v. map source_bytes v.items ≡ given_of request.now) }
{
    let mut sources = Vec::new(alloc);
    for each in request.handed {
        sources.push(Source::Given(each.entry.bytes))?;
    }
    Ok(sources)
}

/// Modules with the module of their communal variables and what the stack lacks behind them, and the order module in
/// front of all.
fn joined<'a, A: Allocator + Copy>(
    alloc: A,
    request: &LinkRequest<'_, '_, '_, 'a, A>,
    linked: Linked<'a, A>,
    variables: &[Variable<'a>],
    lines: &mut Vec<u8, A>,
) -> Result<Linked<'a, A>, Stop>
    ensures { MatchResult result
        (λ all. AreJoined (asking_of request.now.job.now request.now.marks (held_of request.now))
        request.now.job.now.stack (linked_said linked.entry) (map variable_said variables.now) (linked_said all))
        (λ stop. OnInput stop (AreNotJoined
        (asking_of request.now.job.now request.now.marks (held_of request.now)) request.now.job.now.stack
        (linked_said linked.entry) (map variable_said variables.now))) }
{
    let all = with_communal(alloc, linked, variables, request.words, lines)?;
    check_filled(&all.modules, lines)?;
    with_stack(alloc, request, all, lines)
}

/// The modules that a link takes, with what names mean in them, each with the variables that are local to it, and what
/// is joined to them.
fn chain_modules<'a, A: Allocator + Copy>(
    alloc: A,
    request: &LinkRequest<'_, '_, '_, 'a, A>,
    meanings: &Meanings<'_, '_, 'a, A>,
    variables: &[Variable<'a>],
    lines: &mut Vec<u8, A>,
) -> Result<Chained<'a, A>, Stop>
    requires { AreMeaningsFor request.now.job.now (says_of request.now) (given_of request.now) meanings.now }
    ensures { MatchResult result
        (λ c. AreChained request.now.job.now (says_of request.now) request.now.marks
        (held_of request.now) (map variable_said variables.now) c.widths.items (linked_said c.linked))
        (λ stop. OnInput stop (HaveNoModules request.now.job.now (says_of request.now)
        request.now.marks (held_of request.now) (map variable_said variables.now))) }
{
    let TakenModules { modules, widths } = take_modules(alloc, request, meanings, lines)?;
    let modules = with_locals(alloc, request, modules, lines)?;
    let sources = given_sources(alloc, request)?;
    let linked = Linked { sources, modules };
    let linked = joined(alloc, request, linked, variables, lines)?;
    Ok(Chained { linked, widths })
}

/// What these mean. Segments of 32 bits are warned of, and a fix-up or start of 32 bits whose sum has more than 16 is
/// told.
fn modules_by<'a, A: Allocator + Copy>(
    alloc: A,
    request: &LinkRequest<'_, '_, '_, 'a, A>,
    meanings: &Meanings<'_, '_, 'a, A>,
    variables: &[Variable<'a>],
    lines: &mut Vec<u8, A>,
) -> Result<Linked<'a, A>, Stop>
    requires { AreMeaningsFor request.now.job.now (says_of request.now) (given_of request.now) meanings.now }
    ensures { MatchResult result
        (λ l. (widths : List Widths) × AreModulesOf request.now.job.now (says_of request.now)
        request.now.marks (held_of request.now) (map variable_said variables.now) widths
        (map source_bytes l.sources.items) l.modules.items)
        (λ stop. OnInput stop (HaveNoModules request.now.job.now (says_of request.now)
        request.now.marks (held_of request.now) (map variable_said variables.now))) }
{
    let Chained { linked, widths } = chain_modules(alloc, request, meanings, variables, lines)?;
    warn_of_wide_segments(alloc, request, &widths, lines)?;
    let linked = linked_meant(alloc, request.job.packs_far_data, meanings, linked)?;
    check_sums(alloc, request, &widths, &linked, lines)?;
    Ok(linked)
}

/// The modules that are linked for those that a link takes, with these communal variables, where its modules say so of
/// names: each as the fourteen types of records say it, with the variables that are local to it; behind them the module
/// of the communal variables, and what the stack lacks; in front of all the order module; and what all these mean.
///
/// # Errors
/// `Input`: what keeps them from being linked, which is told in the lines. `Memory`.
pub fn modules_of<'a, A: Allocator + Copy>(
    alloc: A,
    request: &LinkRequest<'_, '_, '_, 'a, A>,
    variables: &[Variable<'a>],
    lines: &mut Vec<u8, A>,
) -> Result<Linked<'a, A>, Stop>
    ensures { MatchResult result
        (λ l. (widths : List Widths) × AreModulesOf request.now.job.now (says_of request.now) request.now.marks
        (held_of request.now) (map variable_said variables.now) widths (linked_said l).sources
        (linked_said l).modules)
        (λ stop. OnInput stop (HaveNoModules request.now.job.now (says_of request.now) request.now.marks
        (held_of request.now) (map variable_said variables.now))) }
{
    let meanings = meanings_of(alloc, request)?;
    modules_by(alloc, request, &meanings, variables, lines)
}
