//! The names that stay missing.

ghost use Rattle.std.specs.Prelude.{◌≡◌, ◌++◌, [], ◌∷◌, List, IfOk, OnOk, cond, map, true};
ghost use Rattle.std.specs.BTreeSet.{contains};
ghost use Rattle.omf_search.specs.inside.Met.{same_wanted, wanted_order};
ghost use Rattle.omf_search.specs.Taken.{IsTaken};
ghost use Rattle.omf_search.specs.Missing.{missing_names};
ghost use Rattle.omf_search.specs.Results.{module_said, wanted_said};
ghost use Rattle.omf_search.specs.Said.{Module};

use crate::said::{Said, Wanted};
use crate::taken::Taken;
use omf_keys::Key;
use omf_place::Names;
use std::alloc::{AllocError, Allocator};
use std::collections::BTreeSet;

/// A name that a module wants, as a key.
#[derive(Clone, Copy, PartialEq, Eq, PartialOrd, Ord)]
struct WantedKey<'a> {
    wanted_by: usize,
    key: Key<'a>,
}

/// Wanted names as keys.
type WantedSet<'a, A> = BTreeSet<WantedKey<'a>, A>;

/// Appends a name, unless its key was met before.
fn push_new<'a, A: Allocator + Copy>(
    met: &mut WantedSet<'a, A>,
    missing: &mut Vec<Wanted<'a>, A>,
    key: WantedKey<'a>,
    wanted: Wanted<'a>,
) -> Result<(), AllocError>
    ensures met { OnOk result ((k : WantedKey) → contains wanted_order met.new k
        ≡ cond (same_wanted key.entry k) true (contains wanted_order met.old k)) }
    ensures missing { OnOk result (missing.new.items ≡ cond (contains wanted_order met.old key.entry)
        missing.old.items (missing.old.items ++ wanted.entry ∷ [])) }
{
    if !met.insert(key)? {
        return Ok(());
    }
    missing.push(wanted)?;
    Ok(())
}

/// Those of the wanted names that no module defines, in order, each once for each module that wants it.
fn missing_of<'a, A: Allocator + Copy>(
    alloc: A,
    names: Names,
    taken: &Taken<'a, A>,
) -> Result<Vec<Wanted<'a>, A>, AllocError>
    ensures { IfOk result (λ v. (ms : List Module) → IsTaken names ms taken.now →
        map wanted_said v.items ≡ missing_names names ms) }
{
    let mut met = BTreeSet::new(alloc);
    let mut missing = Vec::new(alloc);
    for wanted in &taken.meeting.wanted {
        if taken.defines(names, wanted.name) {
            continue;
        }
        let key = WantedKey {
            wanted_by: wanted.wanted_by,
            key: Key::new(names, wanted.name),
        };
        push_new(&mut met, &mut missing, key, *wanted)?;
    }
    Ok(missing)
}

/// The names that modules want and none defines, in order of meeting, each once for each module that wants it.
pub fn missing<'a, A: Allocator + Copy>(
    alloc: A,
    names: Names,
    modules: &[Said<'_, 'a>],
) -> Result<Vec<Wanted<'a>, A>, AllocError>
    ensures { IfOk result (λ v. map wanted_said v.items ≡ missing_names names (map module_said modules.now)) }
{
    let taken = Taken::collect(alloc, names, modules)?;
    missing_of(alloc, names, &taken)
}
