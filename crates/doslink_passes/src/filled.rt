//! Whether what is linked has a byte.
ghost use Rattle.std.specs.Prelude.{◌≡◌, true, false, nat_lt, MatchResult};
ghost use Rattle.std.specs.List.{list_any};
ghost use Rattle.doslink_passes.specs.Joined as spec;
ghost use Rattle.doslink_passes.specs.Stops.{OnInput};

use crate::stop::Stop;
use doslink_telling::push_no_program;
use omf_module::Module;
use std::alloc::Allocator;

/// Whether a segment of a module has a byte.
fn has_bytes<A: Allocator + Copy>(one: &Module<A>) -> bool
    ensures { result ≡ list_any (λ s. nat_lt 0 s.length) one.now.segments }
{
    for index in 0..one.segment_count() {
        if 0 < one.segment(index).length {
            return true;
        }
    }
    false
}

/// Whether a segment of some module has a byte.
fn have_bytes<A: Allocator + Copy>(modules: &[Module<A>]) -> bool
    ensures { result ≡ spec.have_bytes modules.now }
{
    for one in modules {
        if has_bytes(one) {
            return true;
        }
    }
    false
}

/// Stops where no segment of the modules has a byte.
pub(crate) fn check_filled<A: Allocator + Copy>(
    modules: &[Module<A>],
    lines: &mut Vec<u8, A>,
) -> Result<(), Stop>
    ensures { MatchResult result (λ done. spec.have_bytes modules.now ≡ true)
        (λ stop. OnInput stop (spec.have_bytes modules.now ≡ false)) }
{
    if have_bytes(modules) {
        return Ok(());
    }
    push_no_program(lines)?;
    Err(Stop::Input)
}
