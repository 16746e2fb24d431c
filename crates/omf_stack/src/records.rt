//! The modules that add to a stack, or make one, as bytes.

ghost use Rattle.std.specs.Prelude.{◌≡◌, ◌++◌, ◌≤◌, OnOk, length};
ghost use Rattle.omf_module.specs.Seen.{segment_seen};
ghost use Rattle.omf_record.specs.Record.{Segdef};
ghost use Rattle.omf_record.specs.View.{view};
ghost use Rattle.omf_write.specs.Records.{record_bytes, records_bytes};
ghost use Rattle.omf_stack.specs.Records as records;

use omf_module::Segment;
use omf_record::{Alignment, Combination, Record};
use omf_write::{put_end, put_header, put_names, put_record, segment_of_length};
use std::alloc::{AllocError, Allocator};

/// Appends the SEGDEF of a part of a stack.
#[tactic(auto, unfolding(omf_record::specs::View::view))]
fn put_part_segment<A: Allocator + Copy>(
    alloc: A,
    bytes: u32,
    out: &mut Vec<u8, A>,
) -> Result<(), AllocError>
    requires { bytes ≤ 65536 }
    ensures { OnOk result (out.new.items ≡ out.old.items ++ record_bytes (Segdef (records.part_definition bytes))) }
{
    let segment = segment_of_length(Alignment::Byte, Combination::Stack, bytes, 1, 2);
    put_record(alloc, 0x98, &Record::Segdef { segment }, out)
}

/// Appends the SEGDEF of a stack of its own.
#[tactic(auto, unfolding(omf_record::specs::View::view))]
fn put_new_segment<A: Allocator + Copy>(
    alloc: A,
    bytes: u32,
    out: &mut Vec<u8, A>,
) -> Result<(), AllocError>
    requires { bytes ≤ 65536 }
    ensures { OnOk result (out.new.items ≡ out.old.items ++ record_bytes (Segdef (records.new_definition bytes))) }
{
    let segment = segment_of_length(Alignment::Paragraph, Combination::Stack, bytes, 2, 2);
    put_record(alloc, 0x98, &Record::Segdef { segment }, out)
}

/// Appends the GRPDEF of DGROUP with the first segment, where it is in DGROUP.
#[tactic(auto, unfolding(omf_record::specs::View::view))]
fn put_group<A: Allocator + Copy>(
    alloc: A,
    in_group: bool,
    out: &mut Vec<u8, A>,
) -> Result<(), AllocError>
    ensures { OnOk result (out.new.items ≡ out.old.items ++ records_bytes (records.group_records in_group)) }
{
    if !in_group {
        return Ok(());
    }
    let mut segments = Vec::new(alloc);
    segments.push(1)?;
    put_record(alloc, 0x9A, &Record::Grpdef { name: 1, segments }, out)
}

/// Appends the module that adds so many bytes to the stack with this first part.
pub(crate) fn put_part<A: Allocator + Copy>(
    alloc: A,
    stack: &Segment<'_>,
    bytes: u32,
    out: &mut Vec<u8, A>,
) -> Result<(), AllocError>
    requires bytes { bytes ≤ 65536 }
    requires name { length stack.now.name.now ≤ 255 }
    requires class { length stack.now.class.now ≤ 255 }
    ensures { OnOk result (out.new.items ≡ out.old.items ++ records.part_bytes (segment_seen stack.now) bytes) }
{
    put_header(alloc, b"stack", out)?;
    put_names(alloc, stack.name, stack.class, out)?;
    put_part_segment(alloc, bytes, out)?;
    put_end(alloc, out)
}

/// Appends the module that makes a stack of so many bytes.
pub(crate) fn put_new<A: Allocator + Copy>(
    alloc: A,
    in_group: bool,
    bytes: u32,
    out: &mut Vec<u8, A>,
) -> Result<(), AllocError>
    requires { bytes ≤ 65536 }
    ensures { OnOk result (out.new.items ≡ out.old.items ++ records.new_bytes in_group bytes) }
{
    put_header(alloc, b"stack", out)?;
    put_names(alloc, b"DGROUP", b"STACK", out)?;
    put_new_segment(alloc, bytes, out)?;
    put_group(alloc, in_group, out)?;
    put_end(alloc, out)
}
