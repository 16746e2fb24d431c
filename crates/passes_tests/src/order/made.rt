//! What an order module says, as text.

use omf_frame::MemSource;
use omf_module::{Module, read_module};
use omf_order::{Order, OrderFault, order_module};
use omf_place::{Layout, Names, Position, place};
use rows::{push_bytes, push_module, push_text, read_modules, read_row, same};
use std::alloc::Global;
use std::test::*;

/// Appends the data records of the module that bytes are.
fn push_data(alloc: Global, text: &mut String, bytes: &[u8]) -> Result<(), Fail> {
    let mut source = MemSource::over(bytes, usize::MAX, None);
    if let Ok(module) = read_module(alloc, &mut source) {
        for index in 0..module.data_record_count() {
            let stored = module.data_record(index);
            let (segment, offset) = (stored.segment, stored.offset);
            write!(text, " data {segment}:{offset}")?;
            push_bytes(text, stored.bytes)?;
            text.push(';')?;
        }
    }
    Ok(())
}

/// What the order module of some modules says.
fn answer(
    alloc: Global,
    modules: &[Module],
    order: Order<'_>,
    names: Names,
) -> Result<String, Fail> {
    let mut text = String::new(alloc);
    match order_module(alloc, modules, order, names) {
        Ok(None) => text.push_str("none")?,
        Ok(Some(bytes)) => {
            push_module(alloc, &mut text, &bytes)?;
            push_data(alloc, &mut text, &bytes)?;
        }
        Err(OrderFault::Memory) => text.push_str("memory")?,
        Err(OrderFault::TooManySegments) => text.push_str("too many")?,
        Err(OrderFault::DataInBss { module, segment }) => {
            write!(text, "data in {module} ")?;
            push_text(&mut text, segment)?;
        }
    }
    Ok(text)
}

/// The addresses of the public names of a module.
fn push_addresses(text: &mut String, from: &Module, layout: &Layout) -> Result<(), Fail> {
    for index in 0..from.public_symbol_count() {
        let public = from.public_symbol(index);
        push_text(text, public.name)?;
        match layout.public(public.name) {
            Some(Position::Relocatable(address, _)) => write!(text, " {address}; ")?,
            _ => text.push_str(" nowhere; ")?,
        }
    }
    Ok(())
}

/// The addresses of the public names of modules.
fn addresses(alloc: Global, modules: &[Module], names: Names) -> Result<String, Fail> {
    let mut text = String::new(alloc);
    match place(alloc, modules, names) {
        Ok(layout) => {
            for from in modules {
                push_addresses(&mut text, from, &layout)?;
            }
        }
        Err(_) => text.push_str("no layout")?,
    }
    Ok(text)
}

/// The addresses of the public names of modules that stand behind their order module.
fn placed(
    alloc: Global,
    mut inputs: Vec<Vec<u8>>,
    modules: &[Module],
    order: Order<'_>,
    names: Names,
) -> Result<String, Fail> {
    if let Ok(Some(bytes)) = order_module(alloc, modules, order, names) {
        inputs.push(bytes)?;
        inputs.rotate_right(1);
    }
    match read_modules(alloc, &inputs) {
        Ok(modules) => addresses(alloc, &modules, names),
        Err(_) => Ok(String::from_str(alloc, "no module")?),
    }
}

fn run_row(alloc: Global, order: Order<'_>, names: Names, row: &str) -> Result<(), Fail> {
    let row = read_row(alloc, row)?;
    match read_modules(alloc, &row.inputs) {
        Ok(modules) => same(
            answer(alloc, &modules, order, names)?.trim_ascii(),
            row.wanted,
        ),
        Err(_) => same("no module", row.wanted),
    }
}

fn place_row(alloc: Global, order: Order<'_>, row: &str) -> Result<(), Fail> {
    let row = read_row(alloc, row)?;
    match read_modules(alloc, &row.inputs) {
        Ok(modules) => {
            let found = placed(alloc, row.inputs, &modules, order, Names::Exact)?;
            same(found.trim_ascii(), row.wanted)
        }
        Err(_) => same("no module", row.wanted),
    }
}

/// Places what each row of a table has behind its order module.
pub fn place_all(alloc: Global, order: Order<'_>, table: &str) -> Result<(), Fail> {
    for row in table.split("\n\n") {
        place_row(alloc, order, row)?;
    }
    Ok(())
}

/// Tries each row of a table.
pub fn run(alloc: Global, order: Order<'_>, names: Names, table: &str) -> Result<(), Fail> {
    for row in table.split("\n\n") {
        run_row(alloc, order, names, row)?;
    }
    Ok(())
}
