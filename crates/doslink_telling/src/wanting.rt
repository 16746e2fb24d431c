//! The modules of a link, with the places of the records that ask for names first.
ghost use Rattle.std.specs.Prelude.{◌≡◌, IfOk, map};
ghost use Rattle.omf_library.specs.Records.{module_records};
ghost use Rattle.omf_library.specs.Wanting.{HasWanting, wanting_place};
ghost use Rattle.doslink_stock.specs.Seen.{entry_held, handed_held};

use doslink_stock::{Entry, Handed};
use omf_library::{WantingPlaces, module_frames, wanting_places};
use std::alloc::{AllocError, Allocator};

/// A module that is linked, and for each name that it asks for the place of the first of its records that does.
#[derive(Drop)]
pub(crate) struct Wanter<'m, 'a, A: Allocator + Copy> {
    pub entry: &'m Entry<'a, A>,
    places: WantingPlaces<'a, A>,
    ghost first: { HasWanting (module_records entry.now.bytes.now 0) places },
}

impl<'m, 'a, A: Allocator + Copy> Wanter<'m, 'a, A> {
    /// That of a module.
    fn new(alloc: A, entry: &'m Entry<'a, A>) -> Result<Self, AllocError>
        ensures { IfOk result (λ w. w.entry.now ≡ entry.now) }
    {
        let frames = module_frames(alloc, entry.bytes)?;
        let places = wanting_places(alloc, &frames)?;
        Ok(Wanter { entry, places })
    }

    /// The place of its first record that asks for a name, if one does.
    pub(crate) fn place(&self, name: &'a [u8]) -> Option<u64>
        ensures { result ≡ wanting_place name.now (module_records self.now.entry.now.bytes.now 0) }
    {
        self.places.get(name)
    }
}

/// Those of the modules that are linked, in their order.
pub(crate) fn wanters_of<'m, 'a, A: Allocator + Copy>(
    alloc: A,
    handed: &[Handed<'m, 'a, A>],
) -> Result<Vec<Wanter<'m, 'a, A>, A>, AllocError>
    ensures { IfOk result (λ v. map (λ w. entry_held w.entry.now) v.items ≡ map handed_held handed.now) }
{
    let mut wanters = Vec::new(alloc);
    for each in handed {
        let wanter = Wanter::new(alloc, each.entry)?;
        wanters.push(wanter)?;
    }
    Ok(wanters)
}
