//! The module of variables that are local to a module, as bytes: it is to stand behind what that declares itself.

ghost use Rattle.std.specs.Prelude.{◌≡◌, Ok, map, MatchResult};
ghost use Rattle.std.specs.Option.{option_map};
ghost use Rattle.omf_communal.specs.Answers as answered;
ghost use Rattle.omf_communal.specs.Answers.{IsPlanFault};
ghost use Rattle.omf_communal.specs.Deciding.{variable_said};
ghost use Rattle.omf_communal.specs.Plan as planned;
ghost use Rattle.omf_communal.specs.inside.Planned.{HasPlan};

use crate::declarations::Variable;
use crate::fault::PlanFault;
use crate::making::variable_module;
use crate::places::Before;
use crate::planning::{make_plan, room_behind};
use crate::records::Form;
use std::alloc::Allocator;

/// Finds the first fault of variables behind so many segments.
fn check_room<A: Allocator + Copy>(
    alloc: A,
    segments: u64,
    variables: &[Variable<'_>],
) -> Result<(), PlanFault>
    ensures { MatchResult result
        (λ _. HasPlan (planned.plan (planned.segments_before segments) (map variable_said variables.now)))
        (λ e. IsPlanFault e
        (planned.plan (planned.segments_before segments) (map variable_said variables.now))) }
{
    let before = Before {
        names: 0,
        segments,
        groups: 0,
    };
    let Some(room) = room_behind(before) else {
        return Err(PlanFault::TooManySegments { variable: 0 });
    };
    make_plan(alloc, room, variables)?;
    Ok(())
}

/// A module that has these variables as local publics; none where there are none; else the first fault, as of a
/// program's. They are local to a module of so many segments, and theirs are to stand behind these: with them no index
/// is above 32,767. A fault's variable counts from 0.
///
/// Their segments and their group are those that `communal_module` makes.
pub fn local_module_bytes<A: Allocator + Copy>(
    alloc: A,
    segments: u64,
    variables: &[Variable<'_>],
    in_bss: bool,
) -> Result<Option<Vec<u8, A>>, PlanFault>
    ensures { MatchResult result
        (λ o. answered.local_module_bytes in_bss segments (map variable_said variables.now)
        ≡ Ok (option_map (λ v. v.items) o))
        (λ e. IsPlanFault e (answered.local_module_bytes in_bss segments (map variable_said variables.now))) }
{
    if variables.is_empty() {
        return Ok(None);
    }
    check_room(alloc, segments, variables)?;
    let form = Form {
        local: true,
        in_bss,
    };
    variable_module(alloc, variables, form)
}
