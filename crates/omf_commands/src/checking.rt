//! Whether an input is a whole sound module.
ghost use Rattle.std.specs.Prelude.{◌≡◌, ℕ, ◌+◌, ◌-◌, ◌^◌, ◌<◌, ◌++◌, List, Some};
ghost use Rattle.omf_record.specs.Records.{Placed};
ghost use Rattle.omf_module.specs.Bytes.{ModuleBytes};
ghost use Rattle.omf_commands.specs.Checking.{Checks, ChecksWhole};
ghost use Rattle.omf_commands.specs.Reading.{sink_failures, source_failures};

use crate::faults::module_fault;
use omf_faults::LinkFault;
use omf_frame::{IoFault, Sink, Source, put_all};
use omf_module::read_module;
use std::alloc::Allocator;

/// Writes `ok` and a line end where the input is a whole sound module, up to its MODEND.
pub fn check<S: Source, K: Sink, A: Allocator + Copy>(
    alloc: A,
    source: &mut S,
    sink: &mut K,
) -> Result<(), LinkFault<A>>
    requires source { S.failures source.old < 2 ^ 64 - 1 }
    requires sink { K.failures sink.old < 2 ^ 64 - 1 }
    // Each device failed exactly where the answer says so, and then once.
    ensures source { S.failures source.new ≡ S.failures source.old + source_failures result }
    ensures sink { K.failures sink.new ≡ K.failures sink.old + sink_failures result }
    // What was read and written, and the fault of reading where one stands.
    ensures checks { Checks (S.remaining source.old) (S.remaining source.new) (K.written sink.old)
        (K.written sink.new) result }
    // A whole sound module is no fault, and no byte more is read.
    ensures whole { (rs : List Placed) (bytes rest : List ℕ) → ModuleBytes rs bytes
        → S.remaining source.old ≡ Some (bytes ++ rest)
        → ChecksWhole rest (S.remaining source.new) (K.written sink.old) (K.written sink.new) result }
{
    match read_module(alloc, source) {
        Ok(_) => match put_all(sink, b"ok\n") {
            Ok(()) => Ok(()),
            Err(IoFault) => Err(LinkFault::Output),
        },
        Err(fault) => Err(module_fault(0, fault)),
    }
}
