//! Warnings of a program that was linked, and can't be run as it is meant.
ghost use Rattle.std.specs.Prelude.{◌≡◌, ◌&&◌, ◌++◌, [], OnOk, map, nat_lt, slice_get};
ghost use Rattle.std.specs.List.{flat_map, list_any};
ghost use Rattle.omf_communal.specs.Deciding.{variable_said};
ghost use Rattle.omf_communal.specs.Far.{reached_said};
ghost use Rattle.omf_place.specs.Parts.{is_kind};
ghost use Rattle.doslink_link.specs.Linking.{bytes_of};
ghost use Rattle.doslink_jobs.specs.inside.Warnings as spec;

use doslink_passes::{names_of, word_at};
use doslink_telling::{
    push_no_code, push_no_stack, push_no_start, push_reached, push_rest, told_count,
};
use doslink_words::{Job, has_header};
use omf_communal::{Reached, Variable, far_by_offset};
use omf_module::{Kind, Module, Standing};
use std::alloc::{AllocError, Allocator};

/// Whether what stands so is a part of the stack.
fn is_stack(standing: Standing) -> bool
    ensures { result ≡ is_kind Kind.Stack standing }
{
    match standing {
        Standing::Relocatable {
            kind: Kind::Stack,
            ..
        } => true,
        _ => false,
    }
}

/// Whether a segment that stands so, and has so many bytes, is a part of the stack with a byte.
fn holds_stack(standing: Standing, length: u32) -> bool
    ensures { result ≡ (is_kind Kind.Stack standing && nat_lt 0 length) }
{
    is_stack(standing) && length > 0
}

/// Whether a module has a byte of the stack.
fn has_stack<A: Allocator + Copy>(one: &Module<A>) -> bool
    ensures { result ≡ spec.has_stack one.now }
{
    for index in 0..one.segment_count() {
        let part = one.segment(index);
        if holds_stack(part.standing, part.length) {
            return true;
        }
    }
    false
}

/// Whether a module has a byte of code or data.
fn has_data<A: Allocator + Copy>(one: &Module<A>) -> bool
    ensures { result ≡ spec.has_data one.now }
{
    for index in 0..one.data_record_count() {
        if !one.data_record(index).bytes.is_empty() {
            return true;
        }
    }
    false
}

/// Whether some module has a start.
fn have_start<A: Allocator + Copy>(modules: &[Module<A>]) -> bool
    ensures { result ≡ list_any spec.has_start modules.now }
{
    for one in modules {
        if one.start().is_some() {
            return true;
        }
    }
    false
}

/// Whether some module has a byte of the stack.
fn have_stack<A: Allocator + Copy>(modules: &[Module<A>]) -> bool
    ensures { result ≡ list_any spec.has_stack modules.now }
{
    for one in modules {
        if has_stack(one) {
            return true;
        }
    }
    false
}

/// Whether some module has a byte of code or data.
fn have_data<A: Allocator + Copy>(modules: &[Module<A>]) -> bool
    ensures { result ≡ list_any spec.has_data modules.now }
{
    for one in modules {
        if has_data(one) {
            return true;
        }
    }
    false
}

/// Warns where no module has a start.
fn warn_of_start<A: Allocator + Copy>(
    modules: &[Module<A>],
    lines: &mut Vec<u8, A>,
) -> Result<(), AllocError>
    ensures { OnOk result (lines.new.items ≡ lines.old.items ++ spec.start_warning modules.now) }
{
    if have_start(modules) {
        return Ok(());
    }
    push_no_start(lines)
}

/// Warns where no module has a stack.
fn warn_of_stack<A: Allocator + Copy>(
    modules: &[Module<A>],
    lines: &mut Vec<u8, A>,
) -> Result<(), AllocError>
    ensures { OnOk result (lines.new.items ≡ lines.old.items ++ spec.stack_warning modules.now) }
{
    if have_stack(modules) {
        return Ok(());
    }
    push_no_stack(lines)
}

/// Warns where no module has a byte of code or data.
fn warn_of_code<A: Allocator + Copy>(
    modules: &[Module<A>],
    lines: &mut Vec<u8, A>,
) -> Result<(), AllocError>
    ensures { OnOk result (lines.new.items ≡ lines.old.items ++ spec.code_warning modules.now) }
{
    if have_data(modules) {
        return Ok(());
    }
    push_no_code(lines)
}

/// Warns where no module has a start or a stack, of which a file with a header tells.
fn warn_of_header<A: Allocator + Copy>(
    job: &Job<'_>,
    modules: &[Module<A>],
    lines: &mut Vec<u8, A>,
) -> Result<(), AllocError>
    ensures { OnOk result (lines.new.items ≡ lines.old.items ++ spec.header_warnings job.now.form modules.now) }
{
    if !has_header(job.form) {
        return Ok(());
    }
    warn_of_start(modules, lines)?;
    warn_of_stack(modules, lines)
}

/// Warns where no module has a start or a stack, of which a file with a header tells, or a byte of code.
fn warn_of_what_lacks<A: Allocator + Copy>(
    job: &Job<'_>,
    modules: &[Module<A>],
    lines: &mut Vec<u8, A>,
) -> Result<(), AllocError>
    ensures { OnOk result (lines.new.items ≡ lines.old.items ++ spec.lacking_warnings job.now.form modules.now) }
{
    warn_of_header(job, modules, lines)?;
    warn_of_code(modules, lines)
}

/// Warns of a far communal variable. The words are those of the modules.
fn push_one<A: Allocator + Copy>(
    one: &Reached<'_>,
    words: &[&[u8]],
    lines: &mut Vec<u8, A>,
) -> Result<(), AllocError>
    ensures { OnOk result (lines.new.items ≡ lines.old.items
        ++ spec.reached_warning (bytes_of words.now) (reached_said one.now)) }
{
    push_reached(lines, one.name, word_at(words, one.module))
}

/// Warns of each of these far communal variables. The words are those of the modules.
fn push_told<A: Allocator + Copy>(
    told: &[Reached<'_>],
    words: &[&[u8]],
    lines: &mut Vec<u8, A>,
) -> Result<(), AllocError>
    ensures { OnOk result (lines.new.items ≡ lines.old.items
        ++ flat_map (λ r. spec.reached_warning (bytes_of words.now) (reached_said r)) told.now) }
{
    for each in told {
        push_one(each, words, lines)?;
    }
    Ok(())
}

/// Warns of each far communal variable that is reached by its offset alone. The words are those of the modules.
fn warn_of_reached<A: Allocator + Copy>(
    alloc: A,
    job: &Job<'_>,
    modules: &[Module<A>],
    variables: &[Variable<'_>],
    words: &[&[u8]],
    lines: &mut Vec<u8, A>,
) -> Result<(), AllocError>
    ensures { OnOk result (lines.new.items ≡ lines.old.items ++ spec.reached_warnings job.now modules.now
        (map variable_said variables.now) (bytes_of words.now)) }
{
    let reached = far_by_offset(alloc, names_of(job), modules, variables)?;
    let reached = reached.as_slice();
    let told = told_count(reached.len(), job.verbose);
    push_told(&reached[..told], words, lines)?;
    push_rest(lines, reached.len() - told)
}

/// Warns of what of a program that was linked can't be run as it is meant. The words are those of its modules.
pub(crate) fn warn_of_program<A: Allocator + Copy>(
    alloc: A,
    job: &Job<'_>,
    modules: &[Module<A>],
    variables: &[Variable<'_>],
    words: &[&[u8]],
    lines: &mut Vec<u8, A>,
) -> Result<(), AllocError>
    ensures { OnOk result (lines.new.items ≡ lines.old.items ++ spec.program_warnings job.now modules.now
        (map variable_said variables.now) (bytes_of words.now)) }
{
    warn_of_what_lacks(job, modules, lines)?;
    warn_of_reached(alloc, job, modules, variables, words, lines)
}
