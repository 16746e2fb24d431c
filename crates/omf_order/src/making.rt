//! The order module as bytes.

ghost use Rattle.std.specs.Prelude.{◌≡◌, ◌≤◌, IfOk, MatchResult, None, length};
ghost use Rattle.omf_order.specs.Answer.{Answers};
ghost use Rattle.omf_order.specs.Cleared as cleared;
ghost use Rattle.omf_order.specs.Plan as planned;
ghost use Rattle.omf_order.specs.Records.{module_bytes};
ghost use Rattle.omf_order.specs.inside.Fits.{Fits};
ghost use Rattle.omf_order.specs.inside.Held.{plan_view};
ghost use Rattle.omf_order.specs.inside.Refusals.{IsLost, IsPlanned, IsRefusal};

use crate::cleared::{Lost, data_in_bss};
use crate::fault::OrderFault;
use crate::order::Order;
use crate::planning::{Plan, make_plan};
use crate::records::put_module;
use omf_module::{Module, all_promise};
use omf_place::Names;
use std::alloc::{AllocError, Allocator};

/// How many segments the order module has at most.
const PART_LIMIT: usize = 16_383;

/// Whether there is nothing to order and no name to define.
fn is_needless<A: Allocator + Copy>(plan: &Plan<'_, A>, order: Order<'_>) -> bool
    ensures { result ≡ planned.is_needless order.entry (plan_view plan.now) }
{
    let marks = !plan.data_end.names.is_empty() || !plan.bss_end.names.is_empty();
    plan.parts.is_empty() || (matches!(order, Order::Meeting) && !marks)
}

/// Refuses data that start-up code would clear, where modules stand as planned.
fn check_data<'a, A: Allocator + Copy>(
    alloc: A,
    modules: &'a [Module<A>],
    plan: &Plan<'a, A>,
) -> Result<(), OrderFault<'a>>
    ensures { MatchResult result (λ done. cleared.data_in_bss modules.now (plan_view plan.now) ≡ None)
        (IsLost (cleared.data_in_bss modules.now (plan_view plan.now))) }
{
    match data_in_bss(alloc, modules, plan)? {
        None => Ok(()),
        Some(Lost { module, segment }) => Err(OrderFault::DataInBss { module, segment }),
    }
}

/// The bytes of the module of a plan.
fn planned_bytes<A: Allocator + Copy>(
    alloc: A,
    plan: &Plan<'_, A>,
) -> Result<Vec<u8, A>, AllocError>
    requires { Fits (plan_view plan.now) }
    ensures { IfOk result (λ bytes. bytes.items ≡ module_bytes (plan_view plan.now)) }
{
    let mut bytes = Vec::new(alloc);
    put_module(alloc, plan, &mut bytes)?;
    Ok(bytes)
}

/// The bytes of the module of a plan, unless it has too many parts, or data would be cleared.
fn checked_bytes<'a, A: Allocator + Copy>(
    alloc: A,
    modules: &'a [Module<A>],
    plan: &Plan<'a, A>,
) -> Result<Vec<u8, A>, OrderFault<'a>>
    requires { length (plan_view plan.now).parts ≤ 16383 → Fits (plan_view plan.now) }
    ensures { MatchResult result
        (λ bytes. IsPlanned (plan_view plan.now) (cleared.data_in_bss modules.now (plan_view plan.now)) bytes.items)
        (IsRefusal (plan_view plan.now) (cleared.data_in_bss modules.now (plan_view plan.now))) }
{
    if PART_LIMIT < plan.parts.len() {
        return Err(OrderFault::TooManySegments);
    }
    check_data(alloc, modules, plan)?;
    Ok(planned_bytes(alloc, plan)?)
}

/// The module that fixes this order of classes where it stands first, and that defines those of the names `_edata`,
/// `__edata`, `_end` and `__end` that some module wants and none defines. None where it would change nothing. Data with
/// values between the marks is refused.
pub fn order_module<'a, A: Allocator + Copy>(
    alloc: A,
    modules: &'a [Module<A>],
    order: Order<'a>,
    names: Names,
) -> Result<Option<Vec<u8, A>>, OrderFault<'a>>
    ensures { Answers order.entry (planned.plan order.entry names modules.now)
        (cleared.data_in_bss modules.now (planned.plan order.entry names modules.now)) result }
{
    let plan = make_plan(alloc, modules, order, names)?;
    if is_needless(&plan, order) {
        return Ok(None);
    }
    all_promise(modules);
    let bytes = checked_bytes(alloc, modules, &plan)?;
    Ok(Some(bytes))
}
