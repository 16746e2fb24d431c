//! The module of a program's communal variables, as bytes, and any that has nothing but variables.

ghost use Rattle.std.specs.Prelude.{◌≡◌, Ok, map, MatchResult};
ghost use Rattle.std.specs.Option.{option_map};
ghost use Rattle.omf_communal.specs.Answers as answered;
ghost use Rattle.omf_communal.specs.Answers.{IsPlanFault};
ghost use Rattle.omf_communal.specs.Deciding.{variable_said};

use crate::declarations::Variable;
use crate::fault::PlanFault;
use crate::planning::{make_plan, whole_room};
use crate::records::{Form, put_module};
use std::alloc::Allocator;

/// The module that has these variables in a form; none where there are none; else the first fault.
pub(crate) fn variable_module<A: Allocator + Copy>(
    alloc: A,
    variables: &[Variable<'_>],
    form: Form,
) -> Result<Option<Vec<u8, A>>, PlanFault>
    ensures { MatchResult result
        (λ o. answered.variable_module form.local form.in_bss (map variable_said variables.now)
        ≡ Ok (option_map (λ v. v.items) o))
        (λ e. IsPlanFault e
        (answered.variable_module form.local form.in_bss (map variable_said variables.now))) }
{
    if variables.is_empty() {
        return Ok(None);
    }
    let plan = make_plan(alloc, whole_room(), variables)?;
    let mut bytes = Vec::new(alloc);
    put_module(alloc, form, &plan, &mut bytes)?;
    Ok(Some(bytes))
}

/// The module that has these variables; none where there are none; else the first fault: of near variables, in their
/// order, and behind them of far ones. A fault's variable counts from 0.
///
/// Near ones stand behind each other in a public segment of class BSS in the group DGROUP: `_BSS`, or `c_common` where
/// no module has that in DGROUP. A far one has private segments of class FAR_BSS: full ones, and one with the rest.
pub fn communal_module<A: Allocator + Copy>(
    alloc: A,
    variables: &[Variable<'_>],
    in_bss: bool,
) -> Result<Option<Vec<u8, A>>, PlanFault>
    ensures { MatchResult result
        (λ o. answered.communal_module in_bss (map variable_said variables.now) ≡ Ok (option_map (λ v. v.items) o))
        (λ e. IsPlanFault e (answered.communal_module in_bss (map variable_said variables.now))) }
{
    let form = Form {
        local: false,
        in_bss,
    };
    variable_module(alloc, variables, form)
}
