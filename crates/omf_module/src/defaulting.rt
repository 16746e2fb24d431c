//! Externals that mean others of their module.
ghost use Rattle.std.specs.Prelude.{◌≡◌, ◌↔◌, ℕ, List, map, All, IsTrue};
ghost use Rattle.std.specs.List.{AllByRecursion};
ghost use Rattle.omf_module.specs.Defaulted as spec;
ghost use Rattle.omf_module.specs.Defaulted.{defaulted};
ghost use Rattle.omf_module.specs.Sound.{IsIndexOf};
ghost use Rattle.omf_module.specs.inside.Store as stored;

use crate::checks::entry;
use crate::entries::DataEntry;
use crate::lookups::Module;
use crate::{ResolvedFixup, Start};
use omf_record::{FrameMethod, TargetMethod};
use std::alloc::Allocator;

/// The index of the external that one means: its own, where none is told for it.
fn meaning(meanings: &[u16], index: u16) -> u16
    ensures { result ≡ spec.meaning meanings.now index }
{
    entry(meanings, index).copied().unwrap_or(index)
}

/// What a target means, or what a frame is found by.
fn target_in(meanings: &[u16], target: TargetMethod) -> TargetMethod
    ensures { result ≡ spec.target_in meanings.now target }
{
    match target {
        TargetMethod::External(index) => TargetMethod::External(meaning(meanings, index)),
        TargetMethod::Segment(_) | TargetMethod::Group(_) => target,
    }
}

/// What a frame means.
fn frame_in(meanings: &[u16], frame: FrameMethod) -> FrameMethod
    ensures { result ≡ spec.frame_in meanings.now frame }
{
    match frame {
        FrameMethod::By(method) => FrameMethod::By(target_in(meanings, method)),
        FrameMethod::Location | FrameMethod::Target => frame,
    }
}

/// What a fix-up means.
fn fixup_in(meanings: &[u16], fixup: ResolvedFixup) -> ResolvedFixup
    ensures { result ≡ spec.fixup_in meanings.now fixup }
{
    ResolvedFixup {
        frame: frame_in(meanings, fixup.frame),
        target: target_in(meanings, fixup.target),
        ..fixup
    }
}

/// Makes fix-ups those that they mean.
fn redirect_fixups(fixups: &mut [ResolvedFixup], meanings: &[u16])
    ensures { fixups.new ≡ map (spec.fixup_in meanings.now) fixups.old }
{
    for index in 0..fixups.len() {
        fixups[index] = fixup_in(meanings, fixups[index]);
    }
}

/// Makes the fix-ups of data records those that they mean.
pub fn redirect_data<A: Allocator + Copy>(data_records: &mut [DataEntry<A>], meanings: &[u16])
    ensures says { (bytes places : List ℕ) → map (stored.data_record bytes places) data_records.new
        ≡ map (spec.data_in meanings.now) (map (stored.data_record bytes places) data_records.old) }
    ensures inside { (bytes places : List ℕ) → AllByRecursion (stored.DataIsIn bytes places) data_records.old
        → AllByRecursion (stored.DataIsIn bytes places) data_records.new }
{
    for index in 0..data_records.len() {
        let data = &mut data_records[index];
        redirect_fixups(&mut data.fixups, meanings);
    }
}

/// What a start means.
fn start_in(meanings: &[u16], start: Start) -> Start
    ensures { result ≡ spec.start_in meanings.now start }
{
    Start {
        frame: frame_in(meanings, start.frame),
        target: target_in(meanings, start.target),
        ..start
    }
}

/// Whether each of these is an index of an external of the module, counted from 1.
pub fn are_externals<A: Allocator + Copy>(module: &Module<A>, indexes: &[u16]) -> bool
    ensures { IsTrue result ↔ All (IsIndexOf «module».now.externals) indexes.now }
{
    let count = module.external_count();
    indexes
        .iter()
        .all(|index| *index > 0 && usize::from(*index) <= count)
}

/// The module with each reference to an external as one to that which it means: targets and frames of fix-ups and of
/// the start, by T2 and F2. So a weak or lazy external that nothing defines means its default (TIS OMF 1.1, the comment
/// classes WKEXT and LZEXT), also where that is local to the module, so that its name means nothing outside.
///
/// The external with index 1 means the one with the first of these indexes, and so on; one behind the last means
/// itself. What that one means isn't looked up again: where it means yet another, both have the index of that.
pub fn redirect_externals<A: Allocator + Copy>(module: Module<A>, meanings: &[u16]) -> Module<A>
    requires { All (IsIndexOf «module».externals) meanings.now }
    ensures { result ≡ defaulted meanings.now «module» }
{
    let (mut store, start) = module.into_parts();
    store.redirect_externals(meanings);
    let start = start.map(|start| start_in(meanings, start));
    Module::from_parts(store, start)
}
