//! What is kept while data records are laid over an image.

ghost use Rattle.std.specs.Prelude.{◌≡◌, ◌<◌, ◌≤◌, ◌+◌, ◌/◌, ◌++◌, ◌∷◌, [], ℕ, List, map, true, false, length};
ghost use Rattle.std.specs.Prelude.{slice_index, slice_index_or, OnOk};
ghost use Rattle.omf_record.specs.Numbers.{location_width};
ghost use Rattle.omf_image.specs.declared.patch.Patch.{Patch as PlainPatch};
ghost use Rattle.omf_image.specs.Patch.{patched};
ghost use Rattle.omf_image.specs.inside.Patches.{all_clear, patch_start, patch_end, relocated_places};
ghost use Rattle.omf_image.specs.Records.{patches_on};
ghost use Rattle.omf_image.specs.inside.Marks.{IsMarked};
ghost use Rattle.omf_image.specs.inside.Lookups.{listed, EndsBy};
ghost use Rattle.omf_image.specs.inside.States.{State, state, at_start, begun, IsRoom, Holds};

use crate::marks::{is_clear, mark_patch};
use crate::pages::Pages;
use crate::patch::Patch;
use crate::reference::Resolved;
use omf_record::Location;
use std::alloc::{AllocError, Allocator};

/// An image, with a flag for each address at which a relocated word begins, and with marks on the bytes of the data
/// record that is being laid: those that fix-ups touched, and those that lie in relocated words.
#[derive(Drop)]
pub struct Work<A: Allocator + Copy> {
    pub pages: Pages<A>,
    pub words: Vec<bool, A>,
    pub touched: Vec<bool, A>,
    pub relocated: Vec<bool, A>,
}

/// Adds a patch of data that stands at `start`.
fn patch_image<A: Allocator + Copy>(pages: &mut Pages<A>, start: u32, patch: Patch)
    requires inside { start + patch_end patch ≤ length pages.old.bytes }
    requires made { (a : ℕ) → start + patch_start patch ≤ a → a < start + patch_end patch
        → slice_index_or pages.old.made (a / 4096) false ≡ true }
    ensures bytes { pages.new.bytes ≡ patched (at_start start patch) pages.old.bytes }
    ensures made { (k : ℕ) → slice_index_or pages.new.made k false ≡ slice_index_or pages.old.made k false }
{
    // its contract says that an image has at most 1,048,560 bytes
    let _size = pages.size();
    match patch {
        Patch::Byte(at, value) => pages.add_byte(start as usize + at, value),
        Patch::Word(at, value) => pages.add_word(start as usize + at, value),
        Patch::Relocated(at, value) => pages.add_word(start as usize + at, value),
    }
}

/// Flags the address at which a patch has a relocated word.
fn begin_word(words: &mut [bool], start: u32, patch: Patch)
    requires { start + patch_end patch ≤ length words.old }
    ensures { words.new ≡ begun (map (λ i. start + i) (relocated_places (patch ∷ []))) words.old }
{
    if let Patch::Relocated(at, _) = patch {
        words[start as usize + at] = true;
    }
}

impl<A: Allocator + Copy> Work<A> {
    /// Lays data at an address, with no mark on it.
    pub fn lay(&mut self, start: u32, bytes: &[u8]) -> Result<(), AllocError>
        requires inside { start + length bytes.now ≤ length self.old.pages.bytes }
        requires words { length self.old.words.items ≡ length self.old.pages.bytes }
        ensures room { OnOk result (IsRoom start (state self.new)) }
        ensures sized { OnOk result (length self.new.touched.items ≡ length bytes.now) }
        ensures holds { OnOk result (Holds start bytes.now (state self.old) (state self.new) []) }
    {
        // its contract says that an image has at most 1,048,560 bytes
        let _size = self.pages.size();
        self.touched.clear();
        self.touched.resize(bytes.len(), false)?;
        self.relocated.clear();
        self.relocated.resize(bytes.len(), false)?;
        self.pages.lay(start as usize, bytes)?;
        Ok(())
    }

    /// Adds a patch of data that stands at `start`.
    fn add_patch(&mut self, start: u32, patch: Patch)
        requires room { IsRoom start (state self.old) }
        requires inside { patch_end patch ≤ length self.old.touched.items }
        ensures room { IsRoom start (state self.new) }
        ensures same { length self.new.touched.items ≡ length self.old.touched.items }
        ensures holds { (bytes : List ℕ) → (base : State) → (ps : List PlainPatch)
            → Holds start bytes base (state self.old) ps → Holds start bytes base (state self.new) (ps ++ patch ∷ []) }
    {
        patch_image(&mut self.pages, start, patch);
        begin_word(&mut self.words, start, patch);
        mark_patch(&mut self.touched, &mut self.relocated, patch);
    }

    /// Adds a patch and perhaps a second one.
    fn add_patches(&mut self, start: u32, first: Patch, second: Option<Patch>)
        requires room { IsRoom start (state self.old) }
        requires first { patch_end first ≤ length self.old.touched.items }
        requires second { EndsBy (length self.old.touched.items) second }
        ensures room { IsRoom start (state self.new) }
        ensures same { length self.new.touched.items ≡ length self.old.touched.items }
        ensures holds { (bytes : List ℕ) → (base : State) → (ps : List PlainPatch)
            → Holds start bytes base (state self.old) ps
            → Holds start bytes base (state self.new) (ps ++ listed first second) }
    {
        self.add_patch(start, first);
        if let Some(second) = second {
            self.add_patch(start, second);
        }
    }

    /// Whether what a fix-up adds at each hit is clear of what earlier fix-ups touch.
    pub fn are_clear(
        &self,
        resolved: &Resolved,
        self_relative: bool,
        location: Location,
        start: u32,
        hits: &[u32],
    ) -> bool
        requires room { IsRoom start (state self.now) }
        requires hits { (k : ℕ) → k < length hits.now
            → slice_index hits.now k + location_width location ≤ length self.now.touched.items }
        ensures { (earlier : List PlainPatch) → IsMarked self.now.touched.items self.now.relocated.items earlier
            → result ≡ all_clear earlier (patches_on 0 resolved.now self_relative location start hits.now) }
    {
        for at in hits {
            let (first, second) = resolved.patches(
                self_relative,
                location,
                *at as usize,
                start as u64 + *at as u64,
            );
            if !self.is_pair_clear(first, second) {
                return false;
            }
        }
        true
    }

    /// Whether a patch and perhaps a second one are clear of what earlier fix-ups touch.
    fn is_pair_clear(&self, first: Patch, second: Option<Patch>) -> bool
        requires same { length self.now.relocated.items ≡ length self.now.touched.items }
        requires first { patch_end first ≤ length self.now.touched.items }
        requires second { EndsBy (length self.now.touched.items) second }
        ensures { (earlier : List PlainPatch) → IsMarked self.now.touched.items self.now.relocated.items earlier
            → result ≡ all_clear earlier (listed first second) }
    {
        let clear = is_clear(&self.touched, &self.relocated, first);
        match second {
            Some(second) => clear & is_clear(&self.touched, &self.relocated, second),
            None => clear,
        }
    }

    /// Adds what a fix-up adds, at each hit.
    pub fn add_hits(
        &mut self,
        resolved: &Resolved,
        self_relative: bool,
        location: Location,
        start: u32,
        hits: &[u32],
    )
        requires room { IsRoom start (state self.old) }
        requires hits { (k : ℕ) → k < length hits.now
            → slice_index hits.now k + location_width location ≤ length self.old.touched.items }
        ensures room { IsRoom start (state self.new) }
        ensures same { length self.new.touched.items ≡ length self.old.touched.items }
        ensures holds { (bytes : List ℕ) → (base : State) → (ps : List PlainPatch)
            → Holds start bytes base (state self.old) ps
            → Holds start bytes base (state self.new)
            (ps ++ patches_on 0 resolved.now self_relative location start hits.now) }
    {
        for at in hits {
            let (first, second) = resolved.patches(
                self_relative,
                location,
                *at as usize,
                start as u64 + *at as u64,
            );
            self.add_patches(start, first, second);
        }
    }
}
