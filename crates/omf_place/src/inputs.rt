//! The modules of a program, each with its segments and where they stand.

ghost use Rattle.std.specs.Prelude.{◌≡◌, ◌+◌, ◌≤◌, IfOk, drop, length, map, take};
ghost use Rattle.std.specs.List.{AllByRecursion};
ghost use Rattle.omf_place.specs.Parts.{inputs};
ghost use Rattle.omf_place.specs.inside.Program.{addresses_of, AreStands, HasStands, IsSoundInput, input_view};
ghost use Rattle.omf_place.specs.Parts.{sites as sites_of};
ghost use Rattle.omf_place.specs.inside.Sites.{sites_view};

use crate::sites::Site;
use crate::stands::Stand;
use omf_module::Module;
use std::alloc::{AllocError, Allocator};

/// A module with its segments.
#[derive(Clone, Copy)]
pub(crate) struct Input<'a, A: Allocator + Copy> {
    /// Its index among the inputs.
    pub input: usize,
    pub says: &'a Module<A>,
    pub sites: &'a [Site<'a>],
    pub stands: &'a [Stand],
}

/// A program whose segments stand.
#[derive(Drop)]
pub(crate) struct PlacedProgram<'a, A: Allocator + Copy> {
    pub modules: &'a [Module<A>],
    /// By position.
    pub stands: &'a [Stand],
    pub inputs: Vec<Input<'a, A>, A>,
}

/// The modules in order.
pub(crate) fn collect_inputs<'a, A: Allocator + Copy>(
    alloc: A,
    modules: &'a [Module<A>],
    sites: &'a [Site<'a>],
    stands: &'a [Stand],
) -> Result<Vec<Input<'a, A>, A>, AllocError>
    requires sites { sites_view sites.now ≡ sites_of modules.now }
    requires stands { AreStands (sites_view sites.now) stands.now }
    ensures made { IfOk result (λ v. map input_view v.items ≡ inputs modules.now) }
    ensures stands { IfOk result
        (λ v. AllByRecursion (HasStands (sites_view sites.now) (addresses_of stands.now)) v.items) }
    ensures sound { IfOk result (λ v. AllByRecursion IsSoundInput v.items) }
{
    let mut all = Vec::new(alloc);
    let mut start = 0;
    for (input, says) in modules.iter().enumerate() {
        says.promises();
        let count = says.segment_count();
        all.push(Input {
            input,
            says,
            sites: row(sites, start, count),
            stands: row(stands, start, count),
        })?;
        start += count;
    }
    Ok(all)
}

/// Some elements one after the other.
fn row<T>(all: &[T], start: usize, count: usize) -> &[T]
    requires { start + count ≤ length all.now }
    ensures { result.now ≡ take count (drop start all.now) }
{
    let (_, rest) = all.split_at(start);
    let (row, _) = rest.split_at(count);
    row
}
