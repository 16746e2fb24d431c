//! What is told of communal variables, as text.

use omf_communal::{
    ClashFault, Communal, CommunalFault, Declaring, Extent, PlanFault, Scope, Variable,
    communal_module, communals, far_by_offset, has_bss, local_module_bytes, local_names_of,
    variables,
};
use omf_library::{ModuleNames, module_names};
use omf_module::{Module, with_declarations};
use omf_place::Names;
use rows::{push_module, push_read, push_text, read_modules, read_row, same};
use std::alloc::{AllocError, Allocator, Global};
use std::test::*;

/// What is told of the modules of a row.
#[derive(Clone, Copy, PartialEq, Eq)]
pub enum Asked {
    /// What each declares.
    Communals,
    /// The variables that they have together.
    Variables(Names),
    /// The module that has these.
    Module { in_bss: bool },
    /// The second with the variables that the first declares as local to it.
    Joined { in_bss: bool },
    /// Whether one of them has `_BSS` in DGROUP.
    Bss,
    /// Which of them reach far variables of the first by their offsets alone.
    Far(Names),
}

/// What a module declares and offers.
#[derive(Drop)]
struct Read<'a, A: Allocator + Copy> {
    communals: Vec<Communal<'a>, A>,
    names: ModuleNames<'a, A>,
}

/// Appends a variable, as text.
fn push_extent(text: &mut String, name: &[u8], extent: Extent) -> Result<(), AllocError> {
    push_text(text, name)?;
    match extent {
        Extent::Near { length } => write!(text, " near {length}; "),
        Extent::Far { count, size } => write!(text, " far {count} of {size}; "),
    }
}

/// What a module declares, with the place of its record.
fn told_communals<A: Allocator + Copy>(
    alloc: A,
    text: &mut String,
    bytes: &[u8],
) -> Result<(), AllocError> {
    match communals(alloc, bytes, Scope::Program) {
        Ok(told) => {
            for each in &told {
                let place = each.place;
                write!(text, "{place} ")?;
                push_extent(text, each.name, each.extent)?;
            }
            Ok(())
        }
        Err(fault) => write!(text, "{fault}"),
    }
}

/// What modules declare and offer.
fn read_all<'a, A: Allocator + Copy>(
    alloc: A,
    inputs: &'a [Vec<u8>],
) -> Result<Vec<Read<'a, A>, A>, CommunalFault> {
    let mut all = Vec::new(alloc);
    for bytes in inputs {
        let communals = communals(alloc, bytes, Scope::Program)?;
        let names = module_names(alloc, bytes)?;
        all.push(Read { communals, names })?;
    }
    Ok(all)
}

/// The variables of modules.
fn decided<'a, A: Allocator + Copy>(
    alloc: A,
    names: Names,
    all: &[Read<'a, A>],
) -> Result<Vec<Variable<'a>, A>, ClashFault> {
    let mut declaring = Vec::new(alloc);
    for each in all {
        declaring.push(Declaring {
            communals: each.communals.as_slice(),
            offered: each.names.offered.as_slice(),
        })?;
    }
    variables(alloc, names, &declaring)
}

/// The variables of modules, or the clash.
fn told_variables<A: Allocator + Copy>(
    alloc: A,
    text: &mut String,
    names: Names,
    all: &[Read<'_, A>],
) -> Result<(), AllocError> {
    match decided(alloc, names, all) {
        Ok(told) => {
            for each in &told {
                push_extent(text, each.name, each.extent)?;
            }
            Ok(())
        }
        Err(ClashFault::NearAndFar { first, other })
        | Err(ClashFault::ElementSizes { first, other }) => {
            let (one, two) = (first.module, other.module);
            let (three, four) = (first.communal, other.communal);
            write!(text, "{one}.{three} {two}.{four}")
        }
        Err(fault) => write!(text, "{fault}"),
    }
}

/// Why variables have no place.
fn push_plan_fault(text: &mut String, fault: PlanFault) -> Result<(), AllocError> {
    match fault {
        PlanFault::NearTooLong { variable } => write!(text, "57 {variable}"),
        PlanFault::CutElement { variable } => write!(text, "58 {variable}"),
        PlanFault::TooManySegments { variable } => write!(text, "59 {variable}"),
        PlanFault::Memory => text.push_str("no memory"),
    }
}

/// The module that has the variables of modules.
fn told_module<A: Allocator + Copy>(
    alloc: A,
    words: Global,
    text: &mut String,
    in_bss: bool,
    all: &[Read<'_, A>],
) -> Result<(), AllocError> {
    let variables = match decided(alloc, Names::Exact, all) {
        Ok(variables) => variables,
        Err(fault) => return write!(text, "{fault}"),
    };
    match communal_module(alloc, &variables, in_bss) {
        Ok(None) => text.push_str("none"),
        Ok(Some(bytes)) => push_module(words, text, &bytes),
        Err(fault) => push_plan_fault(text, fault),
    }
}

/// What a module declares as local to it, and the local publics of another one.
#[derive(Drop)]
struct Local<'a, A: Allocator + Copy> {
    communals: Vec<Communal<'a>, A>,
    offered: Vec<&'a [u8], A>,
}

/// The variables of that.
fn local_variables<'a, A: Allocator + Copy>(
    alloc: A,
    local: &Local<'a, A>,
) -> Result<Vec<Variable<'a>, A>, ClashFault> {
    let mut declaring = Vec::new(alloc);
    declaring.push(Declaring {
        communals: local.communals.as_slice(),
        offered: local.offered.as_slice(),
    })?;
    variables(alloc, Names::Exact, &declaring)
}

/// The variables that a module declares as local to it, by these local publics.
fn locals<'a, A: Allocator + Copy>(
    alloc: A,
    own: &'a [u8],
    offered: Vec<&'a [u8], A>,
) -> Result<Vec<Variable<'a>, A>, ClashFault> {
    let communals = match communals(alloc, own, Scope::Module) {
        Ok(communals) => communals,
        Err(_) => return Err(ClashFault::Memory),
    };
    local_variables(alloc, &Local { communals, offered })
}

/// The module of these variables, which are local to one with so many segments; else none, and why.
fn bytes_behind(
    alloc: Global,
    text: &mut String,
    in_bss: bool,
    segments: u64,
    variables: &[Variable<'_>],
) -> Result<Option<Vec<u8>>, AllocError> {
    match local_module_bytes(alloc, segments, variables, in_bss) {
        Ok(None) => text.push_str("same")?,
        Ok(Some(bytes)) => return Ok(Some(bytes)),
        Err(fault) => push_plan_fault(text, fault)?,
    }
    Ok(None)
}

/// What a module with so many segments gets that declares these variables as local to it.
pub fn told_behind(alloc: Global, segments: u64, own: &[u8]) -> Result<String, AllocError> {
    let mut text = String::new(alloc);
    match locals(alloc, own, Vec::new(alloc)) {
        Ok(variables) => {
            if let Some(bytes) = bytes_behind(alloc, &mut text, true, segments, &variables)? {
                push_module(alloc, &mut text, &bytes)?;
            }
        }
        Err(fault) => write!(text, "{fault}")?,
    }
    Ok(text)
}

/// The module of the variables that one declares as local to another; else none, and why.
fn local_bytes(
    alloc: Global,
    text: &mut String,
    in_bss: bool,
    own: &[u8],
    module: &Module,
) -> Result<Option<Vec<u8>>, AllocError> {
    match locals(alloc, own, local_names_of(alloc, module)?) {
        Ok(variables) => {
            let segments = module.segment_count() as u64;
            bytes_behind(alloc, text, in_bss, segments, &variables)
        }
        Err(fault) => {
            write!(text, "{fault}")?;
            Ok(None)
        }
    }
}

/// A module with the variables that another declares as local to it, behind what it declares itself.
fn told_joined(
    alloc: Global,
    text: &mut String,
    in_bss: bool,
    own: &[u8],
    module: Module,
) -> Result<(), AllocError> {
    let Some(bytes) = local_bytes(alloc, text, in_bss, own, &module)? else {
        return Ok(());
    };
    let mut more = Vec::new(alloc);
    more.push(bytes)?;
    match read_modules(alloc, &more) {
        Ok(modules) => match modules.as_slice() {
            [more, ..] => match with_declarations(alloc, module, more)? {
                Some(all) => push_read(text, &all),
                None => text.push_str("too many"),
            },
            [] => text.push_str("no module"),
        },
        Err(fault) => write!(text, "{fault}"),
    }
}

/// The same of a row.
fn told_joined_row(
    alloc: Global,
    text: &mut String,
    in_bss: bool,
    inputs: &[Vec<u8>],
) -> Result<(), AllocError> {
    let [own, others @ ..] = inputs else {
        return text.push_str("no module");
    };
    match read_modules(alloc, others) {
        Ok(mut modules) => match modules.pop() {
            Some(module) => told_joined(alloc, text, in_bss, own, module),
            None => text.push_str("one module"),
        },
        Err(fault) => write!(text, "{fault}"),
    }
}

/// Whether a module has the segment `_BSS` in DGROUP.
fn told_bss(alloc: Global, text: &mut String, inputs: &[Vec<u8>]) -> Result<(), AllocError> {
    match read_modules(alloc, inputs) {
        Ok(modules) => {
            let has = modules.iter().any(|module| has_bss(module));
            write!(text, "{has}")
        }
        Err(_) => text.push_str("no module"),
    }
}

/// The far variables that the first declares and the others reach by their offsets alone.
fn told_far(
    alloc: Global,
    text: &mut String,
    names: Names,
    inputs: &[Vec<u8>],
) -> Result<(), AllocError> {
    let [first, others @ ..] = inputs else {
        return text.push_str("no module");
    };
    let mut declaring = Vec::new(alloc);
    declaring.push(Vec::from_slice(alloc, first)?)?;
    let all = match read_all(alloc, &declaring) {
        Ok(all) => all,
        Err(fault) => return write!(text, "{fault}"),
    };
    let variables = match decided(alloc, names, &all) {
        Ok(variables) => variables,
        Err(fault) => return write!(text, "{fault}"),
    };
    match read_modules(alloc, others) {
        Ok(modules) => {
            for reached in &far_by_offset(alloc, names, &modules, &variables)? {
                let module = reached.module;
                write!(text, "{module} ")?;
                push_text(text, reached.name)?;
                text.push_str("; ")?;
            }
            Ok(())
        }
        Err(fault) => write!(text, "{fault}"),
    }
}

/// What is told of modules.
pub fn told<A: Allocator + Copy>(
    alloc: A,
    words: Global,
    asked: Asked,
    inputs: &[Vec<u8>],
) -> Result<String, AllocError> {
    let mut text = String::new(words);
    match asked {
        Asked::Bss => told_bss(words, &mut text, inputs)?,
        Asked::Far(names) => told_far(words, &mut text, names, inputs)?,
        Asked::Joined { in_bss } => told_joined_row(words, &mut text, in_bss, inputs)?,
        Asked::Communals => {
            for bytes in inputs {
                told_communals(alloc, &mut text, bytes)?;
            }
        }
        Asked::Variables(names) => match read_all(alloc, inputs) {
            Ok(all) => told_variables(alloc, &mut text, names, &all)?,
            Err(fault) => write!(text, "{fault}")?,
        },
        Asked::Module { in_bss } => match read_all(alloc, inputs) {
            Ok(all) => told_module(alloc, words, &mut text, in_bss, &all)?,
            Err(fault) => write!(text, "{fault}")?,
        },
    }
    if text.is_empty() {
        text.push_str("nothing")?;
    }
    Ok(text)
}

/// Tries each row of a table.
pub fn run(alloc: Global, asked: Asked, table: &str) -> Result<(), Fail> {
    for row in table.split("\n\n") {
        let row = read_row(alloc, row)?;
        let text = told(alloc, alloc, asked, &row.inputs)?;
        same(text.trim_ascii(), row.wanted)?;
    }
    Ok(())
}
