//! What is linked: its sources, and modules that are made put behind it or in front of it.
ghost use Rattle.std.specs.Prelude.{◌≡◌, [], drop, IfOk, map, MatchResult, OnOk, slice_get, unwrap_or};
ghost use Rattle.doslink_link.specs.Linking.{bytes_of};
ghost use Rattle.doslink_link.specs.Reading.{IsNoModule, IsRead};
ghost use Rattle.doslink_passes.specs.Linked.{HasBehind, HasFront, behind_first};
ghost use Rattle.doslink_passes.specs.Sources.{linked_said, source_bytes};
ghost use Rattle.doslink_passes.specs.Stops.{OnInput};
ghost use Rattle.doslink_passes.specs.inside.Faulty.{IsOfBytes};

use crate::origin::{Linked, Source};
use crate::stop::{Stop, stop_after};
use doslink_link::read_one;
use doslink_telling::push_fault;
use omf_faults::{InputFault, LinkFault};
use omf_module::{FaultKind, Module, ModuleFault};
use std::alloc::{AllocError, Allocator};

impl<A: Allocator + Copy> Source<'_, A> {
    /// The bytes.
    fn bytes(&self) -> &[u8]
        ensures { result.now ≡ source_bytes self.now }
    {
        match self {
            Source::Given(bytes) => bytes,
            Source::Made { bytes, .. } => bytes.as_slice(),
        }
    }
}

/// The bytes of sources.
pub fn source_slices<'s, A: Allocator + Copy>(
    alloc: A,
    sources: &'s [Source<'_, A>],
) -> Result<Vec<&'s [u8], A>, AllocError>
    ensures { IfOk result (λ v. bytes_of v.items ≡ map source_bytes sources.now) }
{
    let mut slices = Vec::new(alloc);
    for one in sources {
        slices.push(one.bytes())?;
    }
    Ok(slices)
}

/// The words for sources, those for the modules that were given being given in their order.
pub fn source_words<'w, A: Allocator + Copy>(
    alloc: A,
    sources: &[Source<'_, A>],
    words: &'w [Vec<u8, A>],
) -> Result<Vec<&'w [u8], A>, AllocError> {
    let mut all: Vec<&'w [u8], A> = Vec::new(alloc);
    let mut given = words.iter();
    for one in sources {
        match one {
            Source::Given(_) => match given.next() {
                Some(word) => all.push(word.as_slice())?,
                None => all.push(b"")?,
            },
            Source::Made { word, .. } => all.push(word)?,
        }
    }
    Ok(all)
}

/// The word with this index; empty behind the last.
pub fn word_at<'w>(words: &[&'w [u8]], index: usize) -> &'w [u8]
    ensures { result.now ≡ unwrap_or (slice_get (bytes_of words.now) index) [] }
{
    match words.get(index) {
        Some(word) => word,
        None => b"",
    }
}

/// A module that is made, before it is read.
#[derive(Drop)]
pub(crate) struct MadeModule<A: Allocator + Copy> {
    /// The word for it in a fault's line and in a map.
    pub word: &'static [u8],
    pub bytes: Vec<u8, A>,
}

/// Tells that bytes that were made begin with no module, and stops.
fn stop_at_made<A: Allocator + Copy>(
    alloc: A,
    word: &[u8],
    fault: ModuleFault,
    lines: &mut Vec<u8, A>,
) -> Stop
    ensures { OnInput result (IsOfBytes fault) }
{
    let ModuleFault::Record { place, kind } = fault else {
        return Stop::Memory;
    };
    let fault = match kind {
        FaultKind::Device => return Stop::Device,
        FaultKind::Absent(fault) => InputFault::Absent(fault),
        FaultKind::Check(fault) => InputFault::Check(fault),
    };
    let record = LinkFault::Record {
        input: 0,
        place,
        fault,
    };
    stop_after(push_fault(alloc, lines, &record, word))
}

/// The module that bytes begin with that were made.
pub(crate) fn read_made<A: Allocator + Copy>(
    alloc: A,
    made: &MadeModule<A>,
    lines: &mut Vec<u8, A>,
) -> Result<Module<A>, Stop>
    ensures read { MatchResult result (IsRead made.now.bytes.items)
        (λ stop. OnInput stop (IsNoModule made.now.bytes.items)) }
    ensures told { OnOk result (lines.new.items ≡ lines.old.items) }
{
    match read_one(alloc, &made.bytes) {
        Ok(one) => Ok(one),
        Err(fault) => Err(stop_at_made(alloc, made.word, fault, lines)),
    }
}

/// What is linked, and behind it a module that is made.
pub(crate) fn with_behind<'a, A: Allocator + Copy>(
    alloc: A,
    linked: Linked<'a, A>,
    made: MadeModule<A>,
    lines: &mut Vec<u8, A>,
) -> Result<Linked<'a, A>, Stop>
    ensures behind { MatchResult result (λ all. HasBehind (linked_said linked.entry) made.bytes.items (linked_said all))
        (λ stop. OnInput stop (IsNoModule made.bytes.items)) }
    ensures told { OnOk result (lines.new.items ≡ lines.old.items) }
{
    let one = read_made(alloc, &made, lines)?;
    let Linked {
        mut sources,
        mut modules,
    } = linked;
    let MadeModule { word, bytes } = made;
    sources.push(Source::Made { word, bytes })?;
    modules.push(one)?;
    Ok(Linked { sources, modules })
}

/// What is linked, and in front of it a module that is made.
pub(crate) fn with_front<'a, A: Allocator + Copy>(
    alloc: A,
    linked: Linked<'a, A>,
    made: MadeModule<A>,
    lines: &mut Vec<u8, A>,
) -> Result<Linked<'a, A>, Stop>
    ensures front { MatchResult result (λ all. HasFront (linked_said linked.entry) made.bytes.items (linked_said all))
        (λ stop. OnInput stop (IsNoModule made.bytes.items)) }
    ensures told { OnOk result (lines.new.items ≡ lines.old.items) }
{
    let one = read_made(alloc, &made, lines)?;
    let Linked {
        mut sources,
        mut modules,
    } = linked;
    let MadeModule { word, bytes } = made;
    sources.insert(0, Source::Made { word, bytes })?;
    modules.insert(0, one)?;
    Ok(Linked { sources, modules })
}

/// What stands behind the first of some.
fn without_first<T: Drop, A: Allocator + Copy>(items: Vec<T, A>) -> Vec<T, A>
    ensures { result.items ≡ drop 1 items.items }
{
    let mut items = items;
    if !items.is_empty() {
        items.remove(0);
    }
    items
}

/// What is linked behind the first module.
pub(crate) fn behind_first<'a, A: Allocator + Copy>(linked: Linked<'a, A>) -> Linked<'a, A>
    ensures { linked_said result ≡ behind_first (linked_said linked.entry) }
{
    let Linked { sources, modules } = linked;
    let sources = without_first(sources);
    let modules = without_first(modules);
    Linked { sources, modules }
}
