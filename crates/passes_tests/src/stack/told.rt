//! What is told of stacks, as text.

use omf_module::{Kind, Module, Standing};
use omf_place::{Names, place};
use omf_stack::{CutFault, Stack, cut_stack_of, stack_module};
use rows::{push_module, push_read, read_modules, read_row, same};
use std::alloc::Global;
use std::test::*;

/// What is told of the modules of a row.
#[derive(Clone, Copy, PartialEq, Eq)]
pub enum Asked {
    /// What their stack wants to have so many bytes.
    Wanted(u32),
    /// How many bytes it has once it got that.
    Length(u32),
    /// The modules with a stack cut to so many bytes.
    Cut(u32),
}

/// What the stack of modules wants.
fn push_wanted(
    alloc: Global,
    text: &mut String,
    modules: &[Module],
    bytes: u32,
) -> Result<(), Fail> {
    match stack_module(alloc, modules, bytes)? {
        Stack::Enough => text.push_str("enough")?,
        Stack::TooLong => text.push_str("too long")?,
        Stack::Added(module) => push_module(alloc, text, &module)?,
    }
    Ok(())
}

/// Whether a segment is of kind stack.
fn is_stack(standing: Standing) -> bool {
    matches!(
        standing,
        Standing::Relocatable {
            kind: Kind::Stack,
            ..
        }
    )
}

/// How many bytes the first combined segment of kind stack has, in the order of placement.
fn push_length(alloc: Global, text: &mut String, modules: &[Module]) -> Result<(), Fail> {
    let Ok(layout) = place(alloc, modules, Names::Exact) else {
        text.push_str("no layout")?;
        return Ok(());
    };
    for index in 0..layout.combined_len() {
        let combined = layout.combined(index);
        let Some(module) = modules.get(combined.input) else {
            continue;
        };
        if combined.segment < module.segment_count()
            && is_stack(module.segment(combined.segment).standing)
        {
            let length = combined.end.saturating_sub(combined.start);
            write!(text, "{length}")?;
            return Ok(());
        }
    }
    text.push_str("no stack")?;
    Ok(())
}

/// How many bytes the stack of inputs has behind what it wants.
fn push_reached(
    alloc: Global,
    text: &mut String,
    mut inputs: Vec<Vec<u8>>,
    modules: &[Module],
    bytes: u32,
) -> Result<(), Fail> {
    if let Stack::Added(module) = stack_module(alloc, modules, bytes)? {
        inputs.push(module)?;
    }
    match read_modules(alloc, &inputs) {
        Ok(all) => push_length(alloc, text, &all),
        Err(fault) => Ok(write!(text, "{fault}")?),
    }
}

/// The modules with a stack that is cut, and how long it is then.
fn push_cut(
    alloc: Global,
    text: &mut String,
    modules: Vec<Module>,
    bytes: u32,
) -> Result<(), Fail> {
    match cut_stack_of(alloc, modules, bytes) {
        Ok(all) => {
            for module in &all {
                text.push_str("| ")?;
                push_read(text, module)?;
            }
            push_length(alloc, text, &all)
        }
        Err(CutFault::Outside { module, place }) => Ok(write!(
            text,
            "module {module}, place {place}"
        )?),
        Err(CutFault::Memory) => Ok(text.push_str("no memory")?),
    }
}

fn run_row(alloc: Global, asked: Asked, row: &str) -> Result<(), Fail> {
    let row = read_row(alloc, row)?;
    let (inputs, wanted) = (row.inputs, row.wanted);
    let mut text = String::new(alloc);
    match read_modules(alloc, &inputs) {
        Ok(modules) => match asked {
            Asked::Wanted(bytes) => push_wanted(alloc, &mut text, &modules, bytes)?,
            Asked::Length(bytes) => push_reached(alloc, &mut text, inputs, &modules, bytes)?,
            Asked::Cut(bytes) => push_cut(alloc, &mut text, modules, bytes)?,
        },
        Err(fault) => write!(text, "{fault}")?,
    }
    same(text.trim_ascii(), wanted)
}

/// Tries each row of a table.
pub fn run(alloc: Global, asked: Asked, table: &str) -> Result<(), Fail> {
    for row in table.split("\n\n") {
        run_row(alloc, asked, row)?;
    }
    Ok(())
}
