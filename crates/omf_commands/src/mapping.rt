//! The map of what was linked.
ghost use Rattle.std.specs.Prelude.{IsOkUnless, ◌-◌, ◌^◌, ◌<◌};
ghost use Rattle.omf_frame.specs.Device.{Writes};
ghost use Rattle.omf_commands.specs.Mapping.{report_map};

use crate::linking::Report;
use omf_faults::LinkFault;
use omf_frame::{IoFault, Sink};
use omf_map::put_map;
use std::alloc::Allocator;

/// Writes the map of what was linked: its segments, groups and publics, its registers, its size in bytes, and how many
/// words are relocated. Takes no memory.
///
/// # Errors
/// The sink failed.
pub fn write_map<K: Sink, A: Allocator + Copy>(
    report: &Report<A>,
    sink: &mut K,
) -> Result<(), LinkFault<A>>
    requires { K.failures sink.old < 2 ^ 64 - 1 }
    // The map was appended, or a front of it where the sink failed.
    ensures writes { Writes K.written K.failures sink.old sink.new (report_map report.now) result }
    // There is no other fault.
    ensures output { IsOkUnless result LinkFault.Output }
{
    match put_map(sink, &report.modules, &report.layout, &report.program) {
        Ok(()) => Ok(()),
        Err(IoFault) => Err(LinkFault::Output),
    }
}
