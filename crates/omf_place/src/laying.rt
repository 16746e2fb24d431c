//! The tables of a layout.

ghost use Rattle.std.specs.Prelude.{◌≡◌, ◌≤◌, None, Some, IfErr, IfOk, IfSome, OnOk, length, map};
ghost use Rattle.omf_place.specs.Faults.{duplicate_in, group_fault};
ghost use Rattle.omf_place.specs.inside.Steps.{later_fault};
ghost use Rattle.omf_place.specs.Layout.{layout_at};
ghost use Rattle.omf_place.specs.Parts.{sites};
ghost use Rattle.omf_place.specs.Said.{said};
ghost use Rattle.omf_place.specs.Tables.{combined_segment, leaders, placed_publics};
ghost use Rattle.omf_place.specs.inside.HeldNames.{scopes_of};
ghost use Rattle.omf_place.specs.inside.OfProgram.{IsPlacedProgram, of_program};

use crate::faults::{PlaceFault, group_too_long};
use crate::groups::{Groups, placed_groups};
use crate::inputs::PlacedProgram;
use crate::layout::{Combined, Position};
use crate::lookups::Layout;
use crate::names::Names;
use crate::publics::collect_publics;
use crate::rows::module_rows;
use crate::scopes::{Scopes, index_publics};
use std::alloc::Allocator;

/// Refuses a group that is too long.
fn check_groups<A: Allocator + Copy>(alloc: A, groups: &Groups<'_, A>) -> Result<(), PlaceFault<A>>
    ensures ok { OnOk result (of_program group_fault groups.now.program.now ≡ None) }
    ensures fault { IfErr result (λ e. IfSome (said e) (λ f. of_program group_fault groups.now.program.now ≡ Some f)) }
{
    match groups.first_long() {
        None => Ok(()),
        Some(g) => Err(group_too_long(alloc, g.name)),
    }
}

/// The publics of a program by name, or the first that has the name of an earlier one.
fn public_table<A: Allocator + Copy>(
    alloc: A,
    names: Names,
    groups: &Groups<'_, A>,
) -> Result<Scopes<Position, A>, PlaceFault<A>>
    requires { IsPlacedProgram groups.now.program.now }
    ensures made { IfOk result
        (λ s. s ≡ of_program
        (λ ms addresses. scopes_of names (length ms) (placed_publics ms addresses)) groups.now.program.now) }
    ensures apart { OnOk result (duplicate_in names (of_program placed_publics groups.now.program.now) ≡ None) }
    ensures fault { IfErr result
        (λ e. IfSome (said e) (λ f. duplicate_in names (of_program placed_publics groups.now.program.now) ≡ Some f)) }
{
    let entries = collect_publics(alloc, groups)?;
    index_publics(alloc, names, groups.program.modules.len(), &entries)
}

/// The layout of a program none of whose groups is too long.
fn lay_tables<A: Allocator + Copy>(
    alloc: A,
    names: Names,
    groups: &Groups<'_, A>,
    size: u32,
    combined: Vec<Combined, A>,
) -> Result<Layout<A>, PlaceFault<A>>
    requires placed { IsPlacedProgram groups.now.program.now }
    requires combined { combined.items ≡
        of_program (λ ms addresses. map (combined_segment (sites ms) addresses) (leaders (sites ms)))
        groups.now.program.now }
    requires size { size ≤ 1048560 }
    ensures apart { OnOk result (duplicate_in names (of_program placed_publics groups.now.program.now) ≡ None) }
    ensures layout { IfOk result (λ l. l ≡ of_program (layout_at names) groups.now.program.now size) }
    ensures fault { IfErr result
        (λ e. IfSome (said e) (λ f. duplicate_in names (of_program placed_publics groups.now.program.now) ≡ Some f)) }
{
    let publics = public_table(alloc, names, groups)?;
    let modules = module_rows(alloc, groups)?;
    let places = placed_groups(alloc, groups)?;
    Ok(Layout {
        size,
        modules,
        combined,
        groups: places,
        publics,
    })
}

/// The layout of a program whose segments stand.
pub(crate) fn lay_out<A: Allocator + Copy>(
    alloc: A,
    names: Names,
    program: &PlacedProgram<'_, A>,
    size: u32,
    combined: Vec<Combined, A>,
) -> Result<Layout<A>, PlaceFault<A>>
    requires placed { IsPlacedProgram program.now }
    requires combined { combined.items ≡
        of_program (λ ms addresses. map (combined_segment (sites ms) addresses) (leaders (sites ms))) program.now }
    requires size { size ≤ 1048560 }
    ensures apart { OnOk result (of_program (later_fault names) program.now ≡ None) }
    ensures layout { IfOk result (λ l. l ≡ of_program (layout_at names) program.now size) }
    ensures fault { IfErr result (λ e. IfSome (said e) (λ f. of_program (later_fault names) program.now ≡ Some f)) }
{
    let groups = Groups::collect(alloc, program)?;
    check_groups(alloc, &groups)?;
    lay_tables(alloc, names, &groups, size, combined)
}
