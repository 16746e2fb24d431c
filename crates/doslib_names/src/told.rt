//! What is told of the names of modules.

ghost use Rattle.std.specs.Prelude.{◌≡◌, ◌==◌, IfOk, false, length, map, not, true};
ghost use Rattle.doslib_names.specs.Lines as spec;
ghost use Rattle.doslib_names.specs.Said.{held_said};

use crate::doubled::{all_doubled, all_offers};
use crate::held::{Held, all_names, all_said};
use crate::lines::{push_doubled, push_missing};
use omf_place::Names;
use omf_search::missing;
use std::alloc::{AllocError, Allocator};

/// What is said where there is nothing to tell.
const ALL_WELL: &[u8] = b"each name that is wanted is defined once\n";

/// What is told of names.
#[derive(Drop)]
pub struct Told<A: Allocator> {
    /// What is printed.
    pub text: Vec<u8, A>,
    /// Whether a name is missing, or is defined twice.
    pub is_amiss: bool,
}

/// A line for each name that a module wants and none defines, and one for each name that two define.
fn amiss<A: Allocator + Copy>(
    alloc: A,
    names: Names,
    modules: &[Held<'_>],
) -> Result<Vec<u8, A>, AllocError>
    ensures { IfOk result (λ v. v.items ≡ spec.amiss names (map held_said modules.now)) }
{
    let said = all_names(alloc, modules)?;
    let wanting = missing(alloc, names, &all_said(alloc, &said)?)?;
    let offers = all_offers(alloc, &said)?;
    let doubled = all_doubled(alloc, names, &offers)?;
    let mut text = Vec::new(alloc);
    push_missing(alloc, &mut text, modules, &wanting)?;
    push_doubled(&mut text, modules, &doubled)?;
    Ok(text)
}

/// What is told of the names of modules, of which those agree that are one by a choice: a line for each name that a
/// module wants and none defines, by its first record that asks for it; and a line for each that two define, or one
/// twice. Where there is none, that each name that is wanted is defined once.
pub fn names_told<A: Allocator + Copy>(
    alloc: A,
    names: Names,
    modules: &[Held<'_>],
) -> Result<Told<A>, AllocError>
    ensures text { IfOk result (λ t. t.text.items ≡ spec.names_text names (map held_said modules.now)) }
    ensures amiss { IfOk result (λ t. t.is_amiss ≡ spec.is_amiss names (map held_said modules.now)) }
{
    let mut text = amiss(alloc, names, modules)?;
    if text.is_empty() {
        text.extend_from_slice(ALL_WELL)?;
        return Ok(Told {
            text,
            is_amiss: false,
        });
    }
    Ok(Told {
        text,
        is_amiss: true,
    })
}
