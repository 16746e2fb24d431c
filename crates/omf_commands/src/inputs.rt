//! The inputs of a link.
ghost use Rattle.std.specs.Prelude.{All, ◌-◌, ◌^◌, ◌<◌};
ghost use Rattle.omf_commands.specs.inside.Inputs.{ReadsInputs};

use crate::faults::module_fault;
use omf_faults::LinkFault;
use omf_frame::Source;
use omf_module::{Module, read_module};
use std::alloc::{AllocError, Allocator};

/// The modules of all inputs, in order, or the first fault of reading. Each input is finished once its module is
/// read. Inputs behind the one whose reading stopped aren't touched.
pub(crate) fn read_inputs<S: Source, A: Allocator + Copy>(
    alloc: A,
    sources: &mut [S],
) -> Result<Vec<Module<A>, A>, LinkFault<A>>
    requires { All (λ s. S.failures s < 2 ^ 64 - 1) sources.old }
    ensures { ReadsInputs S.remaining S.failures (λ ms. ms.items) sources.old sources.new result }
{
    let mut modules = Vec::new(alloc);
    for input in 0..sources.len() {
        let source = &mut sources[input];
        let module = match read_module(alloc, source) {
            Ok(module) => module,
            Err(fault) => return Err(module_fault(input, fault)),
        };
        source.finish();
        modules.push(module).map_err(AllocError::from)?;
    }
    Ok(modules)
}
