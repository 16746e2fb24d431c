//! The one variable that the declarations of a name ask for.

ghost use Rattle.std.specs.Prelude.{◌≡◌, ◌++◌, [], ◌∷◌, None, Ok, MatchResult, map};
ghost use Rattle.indexmap.specs.IndexMap.{get};
ghost use Rattle.omf_communal.specs.Modules.{module_said};
ghost use Rattle.omf_communal.specs.Deciding as decided;
ghost use Rattle.omf_communal.specs.Deciding.{variable_said, AreVariables, IsClash};
ghost use Rattle.omf_communal.specs.declared.fault.ClashFault.TheVariants.{Memory};
ghost use Rattle.omf_keys.specs.Keys.{key_of, same_key};
ghost use Rattle.omf_communal.specs.inside.Met as held;
ghost use Rattle.omf_communal.specs.inside.Met.{declared_said, IsMet};

use crate::declarations::{Declared, Declaring, Extent, Variable, Whose};
use crate::fault::ClashFault;
use crate::modules::wanted;
use indexmap::IndexMap;
use omf_keys::Key;
use omf_place::Names;
use std::alloc::Allocator;
use std::hash::{BuildHasherDefault, FoldHasher};

/// The variables so far, and for each name the place of its own. The hash has a fixed seed.
#[derive(Drop)]
pub(crate) struct Met<'a, A: Allocator + Copy> {
    places: IndexMap<Key<'a>, usize, BuildHasherDefault<FoldHasher>, A>,
    variables: Vec<Variable<'a>, A>,
}

/// The greater of two extents, each with where it is asked for.
fn greater(first: Whose, one: Extent, other: Whose, two: Extent) -> Result<Extent, ClashFault>
    ensures { result ≡ decided.greater first one other two }
{
    match (one, two) {
        (Extent::Near { length: one }, Extent::Near { length: two }) => Ok(Extent::Near {
            length: one.max(two),
        }),
        (
            Extent::Far { count: one, size },
            Extent::Far {
                count: two,
                size: other_size,
            },
        ) => {
            if size == other_size {
                Ok(Extent::Far {
                    count: one.max(two),
                    size,
                })
            } else {
                Err(ClashFault::ElementSizes { first, other })
            }
        }
        _ => Err(ClashFault::NearAndFar { first, other }),
    }
}

/// Gives the variable of a name what one declaration more of it asks for.
fn widen(variable: &mut Variable<'_>, declared: &Declared<'_>) -> Result<(), ClashFault>
    ensures { MatchResult result
        (λ _. decided.widened (variable_said variable.old) (declared_said declared.now)
        ≡ Ok (variable_said variable.new))
        (λ e. IsClash e (decided.widened (variable_said variable.old) (declared_said declared.now))) }
{
    variable.extent = greater(
        variable.first,
        variable.extent,
        declared.whose,
        declared.extent,
    )?;
    Ok(())
}

/// The place of the variable of a name.
fn place_of<'a, A: Allocator + Copy>(
    met: &Met<'a, A>,
    names: Names,
    name: &'a [u8],
) -> Option<usize>
    ensures { result ≡ get same_key met.now.places (key_of names name.entry) }
{
    met.places.get(&Key::new(names, name)).copied()
}

/// Adds the variable of a name that none has.
fn add<'a, A: Allocator + Copy>(
    met: &mut Met<'a, A>,
    names: Names,
    declared: &Declared<'a>,
) -> Result<(), ClashFault>
    requires is_met { IsMet names met.old }
    requires is_new { held.place_of names declared.now.name.now (map variable_said met.old.variables.items) ≡ None }
    ensures kept { MatchResult result (λ _. IsMet names met.new) (λ _. Unit {0}) }
    ensures added { MatchResult result
        (λ _. map variable_said met.new.variables.items ≡
        map variable_said met.old.variables.items ++ decided.fresh (declared_said declared.now) ∷ [])
        (λ e. e ≡ Memory) }
{
    let place = met.variables.len();
    met.places.insert(Key::new(names, declared.name), place)?;
    met.variables.push(Variable {
        name: declared.name,
        extent: declared.extent,
        first: declared.whose,
    })?;
    Ok(())
}

/// Adds a declaration to those that the variables so far stand for.
fn meet<'a, A: Allocator + Copy>(
    met: &mut Met<'a, A>,
    names: Names,
    declared: &Declared<'a>,
) -> Result<(), ClashFault>
    requires { IsMet names met.old }
    ensures kept { MatchResult result (λ _. IsMet names met.new) (λ _. Unit {0}) }
    ensures met { MatchResult result
        (λ _. decided.meet names (declared_said declared.now) (map variable_said met.old.variables.items)
        ≡ Ok (map variable_said met.new.variables.items))
        (λ e. IsClash e (decided.meet names (declared_said declared.now) (map variable_said met.old.variables.items))) }
{
    match place_of(met, names, declared.name) {
        Some(place) => widen(&mut met.variables[place], declared),
        None => add(met, names, declared),
    }
}

/// The communal variables of a program, in order of first meeting: those whose name no module offers, each with the
/// greatest length that a module asks for; else the first clash of declarations, with both.
pub fn variables<'a, A: Allocator + Copy>(
    alloc: A,
    names: Names,
    modules: &[Declaring<'_, 'a>],
) -> Result<Vec<Variable<'a>, A>, ClashFault>
    ensures { MatchResult result
        (λ v. AreVariables v.items (decided.variables names (map module_said modules.now)))
        (λ e. IsClash e (decided.variables names (map module_said modules.now))) }
{
    let wanted = wanted(alloc, names, modules)?;
    let mut met = Met {
        places: IndexMap::new(alloc),
        variables: Vec::new(alloc),
    };
    for declared in &wanted {
        meet(&mut met, names, declared)?;
    }
    Ok(met.variables)
}
