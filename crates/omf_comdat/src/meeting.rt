//! The first COMDAT of each name, and what becomes of others of its name.

ghost use Rattle.std.specs.Prelude.{◌≡◌, ◌++◌, [], ◌∷◌, None, Ok, MatchResult};
ghost use Rattle.indexmap.specs.IndexMap.{get};
ghost use Rattle.omf_keys.specs.Keys.{key_of, same_key};
ghost use Rattle.omf_comdat.specs.Fates as spec;
ghost use Rattle.omf_comdat.specs.Told.{IsClash};
ghost use Rattle.omf_comdat.specs.declared.fault.ComdatFault.TheVariants.{Memory};
ghost use Rattle.omf_comdat.specs.inside.Held.{AreKeyed, firsts_said, shared_said};

use crate::fault::{ComdatClash, ComdatDifference, ComdatFault};
use crate::records::ComdatRecord;
use crate::wholes::same_data;
use indexmap::IndexMap;
use omf_extended::ComdatSelection;
use omf_keys::Key;
use omf_place::Names;
use std::alloc::Allocator;
use std::hash::{BuildHasherDefault, FoldHasher};

/// A COMDAT that isn't local: the name and the selection of its opening record, its length, and its records.
#[derive(Clone, Copy)]
pub(crate) struct Shared<'m, 'a> {
    pub name: &'a [u8],
    pub selection: ComdatSelection,
    pub size: u64,
    pub records: &'m [ComdatRecord<'a>],
    /// The index of its module.
    pub module: usize,
}

/// The first COMDAT of each name. The hash has a fixed seed.
pub(crate) type Firsts<'m, 'a, A> = IndexMap<
    Key<'a>,
    Shared<'m, 'a>,
    BuildHasherDefault<FoldHasher>,
    A,
>;

/// Whether there may be one of the name alone.
fn stands_alone(selection: ComdatSelection) -> bool
    ensures { result ≡ spec.stands_alone selection }
{
    matches!(selection, ComdatSelection::NoMatch)
}

/// Whether others of the name have to be as long.
fn wants_size(selection: ComdatSelection) -> bool
    ensures { result ≡ spec.wants_size selection }
{
    matches!(
        selection,
        ComdatSelection::SameSize | ComdatSelection::ExactMatch
    )
}

/// Whether others of the name have to have the same data.
fn wants_data(selection: ComdatSelection) -> bool
    ensures { result ≡ spec.wants_data selection }
{
    matches!(selection, ComdatSelection::ExactMatch)
}

/// Whether another one is taken too, beside the first of its name; else how the two differ that have to be the same.
fn verdict(first: &Shared<'_, '_>, other: &Shared<'_, '_>) -> Result<bool, ComdatDifference>
    ensures { result ≡ spec.verdict (shared_said first.now) (shared_said other.now) }
{
    if stands_alone(first.selection) || stands_alone(other.selection) {
        return Ok(true);
    }
    let wants = wants_size(first.selection) || wants_size(other.selection);
    if wants && first.size != other.size {
        return Err(ComdatDifference::Size);
    }
    let wants = wants_data(first.selection) || wants_data(other.selection);
    if wants && !same_data(first.records, other.records) {
        return Err(ComdatDifference::Data);
    }
    Ok(false)
}

/// The first of a name.
fn first_of<'m, 'a, A: Allocator + Copy>(
    firsts: &Firsts<'m, 'a, A>,
    names: Names,
    name: &'a [u8],
) -> Option<Shared<'m, 'a>>
    ensures { result ≡ get same_key firsts.now (key_of names name.entry) }
{
    firsts.get(&Key::new(names, name)).copied()
}

/// Adds the first of a name.
fn add<'m, 'a, A: Allocator + Copy>(
    firsts: &mut Firsts<'m, 'a, A>,
    names: Names,
    other: Shared<'m, 'a>,
) -> Result<(), ComdatFault<'a>>
    requires are_keyed { AreKeyed names firsts.old.entries }
    requires is_new { get same_key firsts.old (key_of names other.name) ≡ None }
    ensures kept { MatchResult result (λ _. AreKeyed names firsts.new.entries) (λ _. Unit {0}) }
    ensures added { MatchResult result
        (λ _. firsts_said firsts.new.entries ≡ firsts_said firsts.old.entries ++ shared_said other.entry ∷ [])
        (λ e. e ≡ Memory) }
{
    firsts.insert(Key::new(names, other.name), other)?;
    Ok(())
}

/// Whether one is taken, behind the first of each name so far.
pub(crate) fn meet<'m, 'a, A: Allocator + Copy>(
    firsts: &mut Firsts<'m, 'a, A>,
    names: Names,
    other: Shared<'m, 'a>,
) -> Result<bool, ComdatFault<'a>>
    requires { AreKeyed names firsts.old.entries }
    ensures kept { MatchResult result (λ _. AreKeyed names firsts.new.entries) (λ _. Unit {0}) }
    ensures met { MatchResult result
        (λ taken. spec.meet names (firsts_said firsts.old.entries) (shared_said other.entry)
        ≡ Ok (record { firsts = firsts_said firsts.new.entries; taken = taken }))
        (λ e. IsClash e (spec.meet names (firsts_said firsts.old.entries) (shared_said other.entry))) }
{
    match first_of(firsts, names, other.name) {
        Some(first) => match verdict(&first, &other) {
            Ok(taken) => Ok(taken),
            Err(differ) => Err(ComdatFault::Clash(ComdatClash {
                name: other.name,
                first: first.module,
                other: other.module,
                differ,
            })),
        },
        None => {
            add(firsts, names, other)?;
            Ok(true)
        }
    }
}
