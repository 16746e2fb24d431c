//! What follows a directive.
ghost use Rattle.std.specs.Prelude.{◌≡◌, ◌+◌, ◌≤◌, drop, length};
ghost use Rattle.std.specs.List.{position_or_len};
ghost use Rattle.doslink_words.specs.Directives as spec;
ghost use Rattle.doslink_words.specs.Tokens.{texts};
ghost use Rattle.doslink_words.specs.inside.Tokens.{all_placed, placed_of};
ghost use Rattle.doslink_words.specs.Said.{item_of, items_of};
ghost use Rattle.doslink_words.specs.inside.Follows.{Follows, Gives};
ghost use Rattle.doslink_words.specs.inside.Parts.{listed, named};

use crate::faults::{DirectiveFaultKind, LineFault, WrongWord, own, wrong};
use crate::job::OrderItem;
use crate::tokens::Placed;

/// The name that is the only operand.
pub(crate) fn one_name<'a>(operands: &[Placed<'a>]) -> Result<&'a str, WrongWord<'a>>
    ensures { Gives (λ name. name.now) result (spec.one_name (all_placed operands.now)) }
{
    match operands {
        [] => Err(own(DirectiveFaultKind::WrongOperands)),
        [operand] => operand.name(),
        [_, other, ..] => Err(wrong(*other)),
    }
}

/// Where the part ends that begins at an operand: at the next comma, or behind the last operand.
pub(crate) fn part_end(operands: &[Placed], start: usize) -> usize
    requires { start ≤ length operands.now }
    ensures end { result ≡ start + position_or_len spec.is_comma_at (drop start (all_placed operands.now)) }
    ensures start { start ≤ result }
    ensures within { result ≤ length operands.now }
{
    let mut end = start;
    'commas: while end < operands.len() {
        if operands[end].token.is_comma() {
            return end;
        }
        end += 1;
    }
    end
}

// Appends the name that is the only operand.
fn put_name<'a>(names: &mut Vec<&'a str>, operands: &[Placed<'a>]) -> Result<(), LineFault<'a>>
    ensures { Follows result (named (texts names.old.items) (all_placed operands.now)) (texts names.new.items) }
{
    let name = one_name(operands)?;
    names.push(name)?;
    Ok(())
}

// Appends the names of operands `A[,B..]`.
fn put_names<'a>(names: &mut Vec<&'a str>, operands: &[Placed<'a>]) -> Result<(), LineFault<'a>>
    ensures { Follows result (spec.with_names (texts names.old.items) (spec.parts (all_placed operands.now)))
        (texts names.new.items) }
{
    let mut start = 0;
    'parts: loop {
        let end = part_end(operands, start);
        put_name(names, &operands[start..end])?;
        let last = operands.len();
        if end == last {
            return Ok(());
        }
        start = end + 1;
    }
}

// Appends the name that a token between braces is, where it is no comma.
fn put_between<'a>(names: &mut Vec<&'a str>, token: Placed<'a>) -> Result<(), LineFault<'a>>
    ensures { Follows result (spec.with_between (texts names.old.items) (placed_of token.entry))
        (texts names.new.items) }
{
    if !token.token.is_comma() {
        let name = token.name()?;
        names.push(name)?;
    }
    Ok(())
}

// Appends the names of `A B ..}`.
fn put_braced<'a>(names: &mut Vec<&'a str>, operands: &[Placed<'a>]) -> Result<(), LineFault<'a>>
    ensures { Follows result (spec.with_braced (texts names.old.items) (all_placed operands.now))
        (texts names.new.items) }
{
    let mut rest = operands;
    'tokens: while let [first, more @ ..] = rest {
        if first.token.is_close() {
            return match more {
                [] => Ok(()),
                [other, ..] => Err(LineFault::Wrong(wrong(*other))),
            };
        }
        put_between(names, *first)?;
        rest = more;
    }
    Err(LineFault::Wrong(own(DirectiveFaultKind::WrongOperands)))
}

/// Appends the names of a list, `A[,B..]` or `{A B ..}`.
pub(crate) fn put_list<'a>(
    names: &mut Vec<&'a str>,
    operands: &[Placed<'a>],
) -> Result<(), LineFault<'a>>
    ensures { Follows result (spec.with_list (texts names.old.items) (all_placed operands.now))
        (texts names.new.items) }
{
    match operands {
        [first, more @ ..] if first.token.is_open() => put_braced(names, more),
        _ => put_names(names, operands),
    }
}

// The item of an order that a keyword and a name are.
fn order_item<'a>(keyword: Placed<'a>, name: Placed<'a>) -> Result<OrderItem<'a>, WrongWord<'a>>
    ensures { Gives item_of result (spec.order_item (placed_of keyword.entry) (placed_of name.entry)) }
{
    let name = name.name()?;
    if keyword.token.is_word("clname") {
        Ok(OrderItem::Class(name))
    } else if keyword.token.is_word("segment") {
        Ok(OrderItem::Segment(name))
    } else {
        Err(wrong(keyword))
    }
}

// Appends the item of an order that a keyword and a name are.
fn put_item<'a>(
    items: &mut Vec<OrderItem<'a>>,
    keyword: Placed<'a>,
    name: Placed<'a>,
) -> Result<(), LineFault<'a>>
    ensures { Follows result (listed (items_of items.old.items) (placed_of keyword.entry) (placed_of name.entry))
        (items_of items.new.items) }
{
    let item = order_item(keyword, name)?;
    items.push(item)?;
    Ok(())
}

/// Appends the items of an order, `clname CLASS` or `segment SEGMENT` each.
pub(crate) fn put_items<'a>(
    items: &mut Vec<OrderItem<'a>>,
    operands: &[Placed<'a>],
) -> Result<(), LineFault<'a>>
    ensures { Follows result (spec.with_items (items_of items.old.items) (all_placed operands.now))
        (items_of items.new.items) }
{
    let mut tokens = operands.iter();
    while let Some(keyword) = tokens.next() {
        let Some(name) = tokens.next() else {
            return Err(LineFault::Wrong(wrong(*keyword)));
        };
        put_item(items, *keyword, *name)?;
    }
    Ok(())
}
