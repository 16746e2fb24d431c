//! The names that a module lists.

ghost use Rattle.std.specs.Prelude.{◌≡◌, ◌++◌, ◌∷◌, [], codes, if◌then◌else◌, is_none, ◌&&◌, OnOk, None, Some};
ghost use Rattle.std.specs.List.{position_from};
ghost use Rattle.std.specs.Option.{option_or};
ghost use Rattle.std.specs.Str.{bytes_eq};
ghost use Rattle.omf_library.specs.Names.{texts};

use std::alloc::{AllocError, Allocator};

/// The names of LNAMES and LLNAMES, and where the classes of COMDATs stand that are put anywhere.
#[derive(Drop)]
pub(crate) struct Listed<'a, A: Allocator + Copy> {
    pub(crate) listed: Vec<&'a [u8], A>,
    /// The index of the first name CODE.
    pub(crate) code: Option<usize>,
    /// That of the first name FAR_DATA.
    pub(crate) far_data: Option<usize>,
    pub(crate) ghost code_is: { code ≡ position_from (λ name. bytes_eq name (codes "CODE")) 1 (texts listed.items) },
    pub(crate) ghost far_data_is: { far_data
        ≡ position_from (λ name. bytes_eq name (codes "FAR_DATA")) 1 (texts listed.items) },
}

/// Where a text stands first, by where it does before a name with this index.
fn first_of(found: Option<usize>, is_it: bool, index: usize) -> Option<usize>
    ensures { result ≡ option_or found (if is_it then Some index else None) }
{
    match found {
        Some(first) => Some(first),
        None => is_it.then_some(index),
    }
}

impl<'a, A: Allocator + Copy> Listed<'a, A> {
    /// None.
    pub(crate) fn new(alloc: A) -> Listed<'a, A>
        ensures { result.listed.items ≡ [] }
    {
        Listed {
            listed: Vec::new(alloc),
            code: None,
            far_data: None,
        }
    }

    /// Lists one name more.
    pub(crate) fn push(&mut self, name: &'a [u8]) -> Result<(), AllocError>
        ensures { OnOk result (texts self.new.listed.items ≡ texts self.old.listed.items ++ name.now ∷ []) }
    {
        let index = self.listed.len() + 1;
        self.listed.push(name)?;
        self.code = first_of(self.code, name == b"CODE".as_slice(), index);
        self.far_data = first_of(self.far_data, name == b"FAR_DATA".as_slice(), index);
        Ok(())
    }
}
