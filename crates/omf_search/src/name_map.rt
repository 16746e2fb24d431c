//! Values by names.

ghost use Rattle.std.specs.Prelude.{◌≡◌, ◌+◌, ℕ, List, Some, None, IfOk, OnOk, cond, false, is_some, not};
ghost use Rattle.std.specs.Borrow.{Bor};
ghost use Rattle.std.specs.Option.{option_or};
ghost use Rattle.omf_place.specs.Names.{agrees};
ghost use Rattle.omf_search.specs.Keys.{size, value_of};

use omf_keys::Key;
use omf_place::Names;
use std::alloc::{AllocError, Allocator};
use std::collections::BTreeMap;

/// Values by names: a name has that of the only entry whose name agrees with it. All names of a map are added and
/// looked up by one choice of which agree.
#[derive(Drop)]
pub(crate) struct NameMap<'a, V: Copy, A: Allocator + Copy> {
    entries: BTreeMap<Key<'a>, V, A>,
}

impl<'a, V: Copy, A: Allocator + Copy> NameMap<'a, V, A> {
    /// No names.
    #[tactic(auto, unfolding(crate::specs::Keys::value_of, crate::specs::Keys::size))]
    pub(crate) fn new(alloc: A) -> Self
        ensures none { (names : Names) (q : Bor (List ℕ)) → value_of names result q ≡ None }
        ensures size { size result ≡ 0 }
    {
        NameMap {
            entries: BTreeMap::new(alloc),
        }
    }

    /// How many names there are.
    #[tactic(auto, unfolding(crate::specs::Keys::size))]
    pub(crate) fn len(&self) -> usize
        ensures { result ≡ size self.now }
    {
        self.entries.len()
    }

    /// The value of a name. It takes no memory.
    #[tactic(auto, unfolding(crate::specs::Keys::value_of))]
    pub(crate) fn get(&self, names: Names, name: &'a [u8]) -> Option<V>
        ensures { result ≡ value_of names self.now name.entry }
    {
        self.entries.get(&Key::new(names, name)).copied()
    }

    /// Whether a name has a value. It takes no memory.
    pub(crate) fn contains(&self, names: Names, name: &'a [u8]) -> bool
        ensures { result ≡ is_some (value_of names self.now name.entry) }
    {
        self.get(names, name).is_some()
    }

    /// Gives a name a value, unless it has one. Hands out whether it had none.
    #[tactic(auto, unfolding(crate::specs::Keys::value_of, crate::specs::Keys::size))]
    pub(crate) fn add(&mut self, names: Names, name: &'a [u8], value: V) -> Result<bool, AllocError>
        ensures fresh { IfOk result (λ fresh. fresh ≡ not (is_some (value_of names self.old name.entry))) }
        ensures kept { IfOk result (λ fresh. fresh ≡ false → self.new ≡ self.old) }
        ensures values { OnOk result ((q : Bor (List ℕ)) → value_of names self.new q ≡
            option_or (value_of names self.old q) (cond (agrees names q.now name.entry.now) (Some value) None)) }
        ensures size { IfOk result (λ fresh. size self.new ≡ cond fresh (size self.old + 1) (size self.old)) }
    {
        if self.contains(names, name) {
            return Ok(false);
        }
        self.entries.insert(Key::new(names, name), value)?;
        Ok(true)
    }
}
