//! The order module, where one is asked for.
ghost use Rattle.std.specs.Prelude.{◌≡◌, ◌≢◌, IfOk, map, MatchResult, OnOk};
ghost use Rattle.std.specs.List.{list_any};
ghost use Rattle.std.specs.Option.{option_map};
ghost use Rattle.doslink_words.specs.Said as said;
ghost use Rattle.doslink_words.specs.Said.{order_of};
ghost use Rattle.doslink_passes.specs.Orders as spec;
ghost use Rattle.doslink_passes.specs.Orders.{HasNoPlan, HaveNoOrder, IsAsked, IsOrderFor, IsOrderModule, IsOrdered};
ghost use Rattle.doslink_passes.specs.Orders.{asking_of};
ghost use Rattle.doslink_passes.specs.Request.{held_of};
ghost use Rattle.doslink_passes.specs.Sources.{linked_said};
ghost use Rattle.doslink_passes.specs.Stops.{OnInput};
ghost use Rattle.doslink_passes.specs.inside.Listed.{asking_said, listed};
ghost use Rattle.doslink_stock.specs.Seen.{handed_held};

use crate::linked::{MadeModule, source_words, with_front, word_at};
use crate::origin::Linked;
use crate::request::LinkRequest;
use crate::stop::{Stop, stop_after};
use doslink_stock::Handed;
use doslink_telling::{push_data_in_bss, push_order_line};
use doslink_words::{Order, OrderItem};
use omf_module::Module;
use omf_order::{Item, OrderFault, order_module};
use omf_place::Names;
use std::alloc::{AllocError, Allocator};

/// The word for the order module in a fault's line and in a map.
const ORDER_MODULE: &[u8] = b"order";

/// The item of an order.
fn item_of<'a>(item: &OrderItem<'a>) -> Item<'a>
    ensures { spec.item_said result ≡ said.item_of item.now }
{
    match item {
        OrderItem::Class(name) => Item::Class(name.as_bytes()),
        OrderItem::Segment(name) => Item::Segment(name.as_bytes()),
    }
}

/// The items of a list.
fn items_of<'a, A: Allocator + Copy>(
    alloc: A,
    list: &[OrderItem<'a>],
) -> Result<Vec<Item<'a>, A>, AllocError>
    ensures { IfOk result (λ items. map spec.item_said items.items ≡ said.items_of list.now) }
{
    let mut items = Vec::new(alloc);
    for each in list {
        let item = item_of(each);
        items.push(item)?;
    }
    Ok(items)
}

/// The items of an order that is a list; of another one none.
fn listed_items<'a, A: Allocator + Copy>(
    alloc: A,
    order: &Order<'a>,
) -> Result<Vec<Item<'a>, A>, AllocError>
    ensures { IfOk result (λ items. map spec.item_said items.items ≡ listed (order_of order.now)) }
{
    match order {
        Order::Listed(list) => items_of(alloc, list),
        Order::Meeting | Order::Dosseg => Ok(Vec::new(alloc)),
    }
}

/// What asks for an order module: the job, comments of modules, or marks that are wanted.
#[derive(Clone, Copy)]
struct Asked<'o, 'a> {
    /// The order of the job.
    pub order: &'o Order<'a>,
    /// Whether the DOSSEG order has null bytes in front of `_TEXT`.
    pub null_bytes: bool,
    /// Whether a module asks for the DOSSEG order.
    pub dosseg: bool,
    /// Whether marks are wanted that no module defines.
    pub marks: bool,
    /// Which names agree.
    pub names: Names,
}

/// The order that is asked for, whose list these items are. A module that asks for DOSSEG is heard where the job asks
/// for none.
fn order_asked<'i>(asked: &Asked<'_, '_>, items: &'i [Item<'i>]) -> omf_order::Order<'i>
    requires { map spec.item_said items.now ≡ listed (order_of asked.now.order.now) }
    ensures { IsAsked (asking_said asked.now) result }
{
    let null_bytes = asked.null_bytes;
    match asked.order {
        Order::Listed(_) => omf_order::Order::Listed(items),
        Order::Dosseg => omf_order::Order::Dosseg { null_bytes },
        Order::Meeting if asked.dosseg => omf_order::Order::Dosseg { null_bytes },
        Order::Meeting => omf_order::Order::Meeting,
    }
}

/// Whether neither an order is asked for nor a mark wanted.
fn is_unasked(asked: &Asked<'_, '_>) -> bool
    ensures { result ≡ spec.is_unasked asked.now.marks asked.now.dosseg (order_of asked.now.order.now) }
{
    match asked.order {
        Order::Meeting => !asked.dosseg && !asked.marks,
        Order::Dosseg | Order::Listed(_) => false,
    }
}

/// Tells why there is no order module, and stops. The words are those of the modules.
fn stop_at_order<A: Allocator + Copy>(
    fault: OrderFault<'_>,
    words: &[&[u8]],
    lines: &mut Vec<u8, A>,
) -> Stop
    ensures { OnInput result (fault.entry ≢ OrderFault.Memory) }
{
    match fault {
        OrderFault::Memory => Stop::Memory,
        OrderFault::TooManySegments => stop_after(push_order_line(lines)),
        OrderFault::DataInBss { module, segment } => {
            let word = word_at(words, module);
            stop_after(push_data_in_bss(lines, segment, word))
        }
    }
}

/// The bytes of the order module for modules, in the order that is asked for. None where it would change nothing. That
/// it would have too many segments is told, and that data with values would be cleared, with the words of the modules.
fn order_bytes<A: Allocator + Copy>(
    alloc: A,
    modules: &[Module<A>],
    asked: &Asked<'_, '_>,
    words: &[&[u8]],
    lines: &mut Vec<u8, A>,
) -> Result<Option<Vec<u8, A>>, Stop>
    ensures order { MatchResult result
        (λ o. IsOrderFor (asking_said asked.now) modules.now (option_map (λ v. v.items) o))
        (λ stop. OnInput stop (HasNoPlan (asking_said asked.now) modules.now)) }
    ensures kept { OnOk result (lines.new.items ≡ lines.old.items) }
{
    let items = listed_items(alloc, asked.order)?;
    let order = order_asked(asked, &items);
    match order_module(alloc, modules, order, asked.names) {
        Ok(made) => Ok(made),
        Err(fault) => Err(stop_at_order(fault, words, lines)),
    }
}

/// Whether a module asks for the DOSSEG order.
fn asks_dosseg<A: Allocator + Copy>(handed: &[Handed<'_, '_, A>]) -> bool
    ensures { result ≡ list_any (λ h. (handed_held h).dosseg) handed.now }
{
    handed.iter().any(|each| each.entry.says.dosseg)
}

/// What asks for the order of the modules of a link.
fn asked_by<'t, 'j, A: Allocator + Copy>(request: &LinkRequest<'t, 'j, '_, '_, A>) -> Asked<'t, 'j>
    ensures { asking_said result
        ≡ asking_of request.now.job.now request.now.marks (held_of request.now) }
{
    Asked {
        order: &request.job.order,
        null_bytes: request.job.null_bytes,
        dosseg: asks_dosseg(request.handed),
        marks: request.marks,
        names: request.names(),
    }
}

/// The bytes of the order module of what is linked, where one is needed.
fn bytes_of_order<A: Allocator + Copy>(
    alloc: A,
    request: &LinkRequest<'_, '_, '_, '_, A>,
    linked: &Linked<'_, A>,
    lines: &mut Vec<u8, A>,
) -> Result<Option<Vec<u8, A>>, Stop>
    ensures order { MatchResult result
        (λ o. IsOrderModule (asking_of request.now.job.now request.now.marks (held_of request.now))
        linked.now.modules.items (option_map (λ v. v.items) o))
        (λ stop. OnInput stop (HasNoPlan (asking_of request.now.job.now request.now.marks (held_of request.now))
        linked.now.modules.items)) }
    ensures kept { OnOk result (lines.new.items ≡ lines.old.items) }
{
    let asked = asked_by(request);
    if is_unasked(&asked) {
        return Ok(None);
    }
    let words = source_words(alloc, &linked.sources, request.words)?;
    order_bytes(alloc, &linked.modules, &asked, &words, lines)
}

/// What is linked, with its order module in front of it, where it has one.
#[derive(Drop)]
pub(crate) struct Ordered<'a, A: Allocator + Copy> {
    pub linked: Linked<'a, A>,
    /// Whether it has one.
    pub has_order: bool,
}

/// What is linked, with its order module in front of it, where one is needed. Why there is none is told.
pub(crate) fn with_order<'a, A: Allocator + Copy>(
    alloc: A,
    request: &LinkRequest<'_, '_, '_, 'a, A>,
    linked: Linked<'a, A>,
    lines: &mut Vec<u8, A>,
) -> Result<Ordered<'a, A>, Stop>
    ensures ordered { MatchResult result
        (λ all. IsOrdered (asking_of request.now.job.now request.now.marks (held_of request.now))
        (linked_said linked.entry) all.has_order (linked_said all.linked))
        (λ stop. OnInput stop (HaveNoOrder (asking_of request.now.job.now request.now.marks (held_of request.now))
        linked.entry.modules.items)) }
    ensures kept { OnOk result (lines.new.items ≡ lines.old.items) }
{
    match bytes_of_order(alloc, request, &linked, lines)? {
        Some(bytes) => {
            let made = MadeModule {
                word: ORDER_MODULE,
                bytes,
            };
            let linked = with_front(alloc, linked, made, lines)?;
            Ok(Ordered {
                linked,
                has_order: true,
            })
        }
        None => Ok(Ordered {
            linked,
            has_order: false,
        }),
    }
}
