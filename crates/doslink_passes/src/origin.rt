//! Modules that are linked, and where each comes from.
ghost use Rattle.std.specs.Prelude.{◌≡◌, length};

use omf_module::Module;
use std::alloc::Allocator;

/// Where a module comes from.
#[derive(Drop)]
pub enum Source<'a, A: Allocator + Copy> {
    /// It was given, as these bytes.
    Given(&'a [u8]),
    /// It was made of these bytes. The word is that for it in a fault's line and in a map.
    Made {
        word: &'static [u8],
        bytes: Vec<u8, A>,
    },
}

/// What is linked.
#[derive(Drop)]
pub struct Linked<'a, A: Allocator + Copy> {
    /// Where each module comes from.
    pub sources: Vec<Source<'a, A>, A>,
    /// The modules, in their order.
    pub modules: Vec<Module<A>, A>,
    ghost even: { length sources.items ≡ length modules.items },
}
