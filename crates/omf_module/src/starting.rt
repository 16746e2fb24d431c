//! A module without its start.
ghost use Rattle.std.specs.Prelude.{◌≡◌, None};

use crate::lookups::Module;
use std::alloc::Allocator;

/// The module with no start, where it has one: all else stays.
pub fn without_start<A: Allocator + Copy>(module: Module<A>) -> Module<A>
    ensures { result ≡ record «module» { start = None } }
{
    let (store, _) = module.into_parts();
    Module::from_parts(store, None)
}
