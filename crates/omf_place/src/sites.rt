//! The segments of a program, in order of inputs and of definition.

ghost use Rattle.std.specs.Prelude.{◌≡◌, ◌++◌, IfOk, OnOk, length};
ghost use Rattle.std.specs.List.{AllByRecursion};
ghost use Rattle.omf_module.specs.Sound.{SegmentFits};
ghost use Rattle.omf_place.specs.inside.Numbered.{IsNumberedFrom};
ghost use Rattle.omf_place.specs.Parts.{sites, module_sites, is_part};
ghost use Rattle.omf_place.specs.Placed.{alignment_of};
ghost use Rattle.omf_place.specs.inside.Sites.{site, sites_view};

use omf_module::{Module, Segment, Standing};
use std::alloc::{AllocError, Allocator};

/// A segment of the program.
#[derive(Clone, Copy)]
pub(crate) struct Site<'a> {
    /// Its place among all segments.
    pub position: usize,
    /// The index of its module among the inputs.
    pub input: usize,
    /// Its index in its module.
    pub number: usize,
    pub segment: Segment<'a>,
}

impl Site<'_> {
    /// Whether it is a part of the program: it isn't absolute.
    pub(crate) fn is_part(&self) -> bool
        ensures { result ≡ is_part (site self.now) }
    {
        matches!(self.segment.standing, Standing::Relocatable { .. })
    }

    /// Its alignment: 1 where it is absolute.
    pub(crate) fn alignment(&self) -> u16
        ensures { result ≡ alignment_of self.now.segment.standing }
    {
        match self.segment.standing {
            Standing::Absolute { .. } => 1,
            Standing::Relocatable { alignment, .. } => alignment,
        }
    }
}

/// Adds the segments of a module.
fn push_sites<'a, A: Allocator + Copy>(
    sites: &mut Vec<Site<'a>, A>,
    input: usize,
    from: &'a Module<A>,
) -> Result<(), AllocError>
    requires sound { AllByRecursion (λ a. SegmentFits a.segment) (sites_view sites.old.items) }
    ensures made { OnOk result
        (sites_view sites.new.items ≡
        sites_view sites.old.items ++ module_sites (length sites.old.items) input 0 from.now.segments) }
    ensures sound { OnOk result (AllByRecursion (λ a. SegmentFits a.segment) (sites_view sites.new.items)) }
{
    from.promises();
    for number in 0..from.segment_count() {
        let position = sites.len();
        sites.push(Site {
            position,
            input,
            number,
            segment: from.segment(number),
        })?;
    }
    Ok(())
}

/// The segments of all modules, in order.
pub(crate) fn collect_sites<'a, A: Allocator + Copy + 'a>(
    alloc: A,
    modules: &'a [Module<A>],
) -> Result<Vec<Site<'a>, A>, AllocError>
    ensures made { IfOk result (λ v. sites_view v.items ≡ sites modules.now) }
    ensures numbered { IfOk result (λ v. IsNumberedFrom 0 (sites_view v.items)) }
    ensures sound { IfOk result (λ v. AllByRecursion (λ a. SegmentFits a.segment) (sites_view v.items)) }
{
    let mut sites = Vec::new(alloc);
    for (input, module) in modules.iter().enumerate() {
        push_sites(&mut sites, input, module)?;
    }
    Ok(sites)
}
