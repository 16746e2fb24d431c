//! The names that a module makes local publics.

ghost use Rattle.std.specs.Prelude.{◌≡◌, IfOk};
ghost use Rattle.omf_communal.specs.Locals as local;
ghost use Rattle.omf_communal.specs.Modules.{bytes_of};

use omf_module::Module;
use std::alloc::{AllocError, Allocator};

/// The names that a module makes local publics, in their order.
pub fn local_names_of<'m, A: Allocator + Copy, B: Allocator + Copy>(
    alloc: A,
    from: &'m Module<B>,
) -> Result<Vec<&'m [u8], A>, AllocError>
    ensures { IfOk result (λ v. bytes_of v.items ≡ local.local_names_of from.now) }
{
    let mut names = Vec::new(alloc);
    for index in 0..from.public_symbol_count() {
        let symbol = from.public_symbol(index);
        if symbol.local {
            names.push(symbol.name)?;
        }
    }
    Ok(names)
}
