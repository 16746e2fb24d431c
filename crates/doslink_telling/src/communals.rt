//! The lines of faults of communal variables.

ghost use Rattle.std.specs.Prelude.{◌≡◌, ◌++◌, OnOk};
ghost use Rattle.doslink_telling.specs.Lines as spec;
ghost use Rattle.doslink_telling.specs.Lines.{IsTold};

use crate::lines::{push_located, push_named};
use crate::telling::word_at;
use omf_communal::{ClashFault, Declaring, EntryFault, PlanFault, Variable, Whose};
use std::alloc::{AllocError, Allocator};

/// The number and the name of what is wrong with a record that declares communal variables.
fn entry_label(fault: EntryFault) -> (u8, &'static str)
    ensures number { result.0 ≡ (spec.entry_label fault).0 }
    ensures name { result.1.now ≡ (spec.entry_label fault).1 }
{
    match fault {
        EntryFault::Body => (53, "Body"),
        EntryFault::DataType => (54, "DataType"),
    }
}

/// Appends the line of a record that declares communal variables and is at fault, by its place in the module for which
/// this is the word.
pub fn push_entry_fault<A: Allocator + Copy>(
    lines: &mut Vec<u8, A>,
    word: &[u8],
    place: u64,
    fault: EntryFault,
) -> Result<(), AllocError>
    ensures { OnOk result (lines.new.items ≡ lines.old.items ++ spec.entry_line word.now place fault) }
{
    push_located(lines, word, entry_label(fault), " at record ", place)
}

/// The name of a variable that a module declares.
fn name_at<'a>(modules: &[Declaring<'_, 'a>], whose: Whose) -> &'a [u8]
    ensures { result.now ≡ spec.name_at modules.now whose }
{
    if modules.len() <= whose.module {
        return b"";
    }
    match modules[whose.module].communals.get(whose.communal) {
        Some(communal) => communal.name,
        None => b"",
    }
}

/// Appends the line of a name that two modules declare.
fn push_clashing<A: Allocator + Copy>(
    lines: &mut Vec<u8, A>,
    label: (u8, &str),
    first: Whose,
    other: Whose,
    modules: &[Declaring<'_, '_>],
    words: &[Vec<u8, A>],
) -> Result<(), AllocError>
    ensures { OnOk result (lines.new.items ≡ lines.old.items
        ++ spec.clashing (label.entry.0, label.entry.1.now) first other modules.now words.now) }
{
    let both = [word_at(words, first.module), word_at(words, other.module)];
    push_named(lines, label, name_at(modules, first), both.as_slice())
}

/// Appends the line of a name whose declarations clash, with the modules that declare it. The words are those of the
/// modules.
///
/// # Errors
/// Want of memory, also where that is the fault.
pub fn push_clash<A: Allocator + Copy>(
    lines: &mut Vec<u8, A>,
    fault: ClashFault,
    modules: &[Declaring<'_, '_>],
    words: &[Vec<u8, A>],
) -> Result<(), AllocError>
    ensures { OnOk result (IsTold (spec.clash_line fault modules.now words.now) lines.old.items lines.new.items) }
{
    match fault {
        ClashFault::NearAndFar { first, other } => {
            let label = (55, "NearAndFar");
            push_clashing(lines, label, first, other, modules, words)
        }
        ClashFault::ElementSizes { first, other } => {
            let label = (56, "ElementSizes");
            push_clashing(lines, label, first, other, modules, words)
        }
        ClashFault::Memory => Err(AllocError),
    }
}

/// Appends the line of a variable, by its index, with the first module that declares it. Nothing behind the last.
fn push_declared<A: Allocator + Copy>(
    lines: &mut Vec<u8, A>,
    label: (u8, &str),
    index: usize,
    variables: &[Variable<'_>],
    words: &[Vec<u8, A>],
) -> Result<(), AllocError>
    ensures { OnOk result (lines.new.items ≡ lines.old.items
        ++ spec.declared (label.entry.0, label.entry.1.now) index variables.now words.now) }
{
    match variables.get(index) {
        Some(variable) => {
            let word = [word_at(words, variable.first.module)];
            push_named(lines, label, variable.name, word.as_slice())
        }
        None => Ok(()),
    }
}

/// Appends the line of a variable that has no place, with the first module that declares it. The words are those of the
/// modules.
///
/// # Errors
/// Want of memory, also where that is the fault.
pub fn push_unplaced<A: Allocator + Copy>(
    lines: &mut Vec<u8, A>,
    fault: PlanFault,
    variables: &[Variable<'_>],
    words: &[Vec<u8, A>],
) -> Result<(), AllocError>
    ensures { OnOk result (IsTold (spec.unplaced_line fault variables.now words.now) lines.old.items lines.new.items) }
{
    match fault {
        PlanFault::NearTooLong { variable } => {
            push_declared(lines, (57, "NearTooLong"), variable, variables, words)
        }
        PlanFault::CutElement { variable } => {
            push_declared(lines, (58, "CutElement"), variable, variables, words)
        }
        PlanFault::TooManySegments { variable } => {
            push_declared(lines, (59, "TooManySegments"), variable, variables, words)
        }
        PlanFault::Memory => Err(AllocError),
    }
}
