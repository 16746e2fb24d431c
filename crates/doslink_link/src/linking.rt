//! Modules in memory, linked by `omf`'s link.
ghost use Rattle.std.specs.Prelude.{IfOk};
ghost use Rattle.omf_place.specs.Bounded.{IsBounded};
ghost use Rattle.doslink_link.specs.Linking.{LinksTo};

use crate::page::Page;
use omf_commands::{Options, Report, link_modules};
use omf_faults::LinkFault;
use omf_module::Module;
use std::alloc::Allocator;

/// A program that was linked.
#[derive(Drop)]
pub struct Linked<A: Allocator + Copy> {
    /// The modules, where they stand, and the program.
    pub report: Report<A>,
    /// The bytes of the program's file.
    pub file: Vec<u8, A>,
}

/// Links modules, in their order, and makes the file of their program in memory.
///
/// # Errors
/// The first fault of placement, else of data and fix-ups, of the start, and of too many relocated words; want of
/// memory.
pub fn link_in_memory<A: Allocator + Copy>(
    alloc: A,
    modules: Vec<Module<A>, A>,
    options: &Options,
) -> Result<Linked<A>, LinkFault<A>>
    // The program of these modules, which its file holds at each paragraph, exactly where no fault stands in them.
    ensures links { LinksTo options.now.names modules.items result }
    // No number of the layout is out of range.
    ensures bounded { IfOk result (λ linked. IsBounded linked.report.modules.items linked.report.layout) }
{
    let mut page = Page::new(alloc);
    match link_modules(alloc, modules, &mut page, options) {
        Ok(report) => Ok(Linked {
            report,
            file: page.bytes,
        }),
        // a page fails where it can't grow
        Err(LinkFault::Output) => Err(LinkFault::Memory),
        Err(fault) => Err(fault),
    }
}
