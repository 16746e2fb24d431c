//! The first address of a program that data covers.
ghost use Rattle.std.specs.Prelude.{◌≡◌, ◌+◌, ◌<◌, ◌≤◌, All, fold, length, map, min};
ghost use Rattle.omf_place.specs.Bounded.{IsBounded};
ghost use Rattle.omf_place.specs.Layout.{places_of, segment_position};
ghost use Rattle.omf_image.specs.Records.{entries};
ghost use Rattle.omf_image.specs.Value.{real_address};
ghost use Rattle.omf_image.specs.inside.Entries.{module_entries};
ghost use Rattle.omf_image.specs.inside.Ready.{IsEntryReady};
ghost use Rattle.flat_file.specs.Covered.{entry_first, first_covered};

use omf_module::{Module, all_promise};
use omf_place::{Layout, Position};
use std::alloc::Allocator;

/// The memory that a real-mode address reaches.
pub(crate) const MEMORY_LEN: u32 = 1_048_576;

/// The address of a data record's first byte.
fn data_address<A: Allocator + Copy>(
    layout: &Layout<A>,
    input: usize,
    segment: u16,
    offset: u16,
) -> u32
    requires input { input < length layout.now.modules }
    requires segment { segment < length (places_of layout.now input).segments }
    requires small { layout.now.size ≤ 1048560 }
    requires inside { real_address 0 (segment_position layout.now input segment) + offset ≤ layout.now.size }
    ensures { result ≡ real_address 0 (segment_position layout.now input segment) + offset }
{
    let start = match layout.segment_position(input, usize::from(segment)) {
        Position::Relocatable(address, _) => address,
        Position::Absolute(address, _) => address,
    };
    start + u32::from(offset)
}

/// The lesser of an address and the first that a module's data covers.
fn first_with<A: Allocator + Copy>(
    least: u32,
    layout: &Layout<A>,
    input: usize,
    module: &Module<A>,
) -> u32
    requires small { layout.now.size ≤ 1048560 }
    requires ready { All (IsEntryReady layout.now) (module_entries input «module».now) }
    requires below { least ≤ 1048576 }
    ensures { result ≡ fold min least (map (entry_first layout.now) (module_entries input «module».now)) }
{
    let mut first = least;
    for index in 0..module.data_record_count() {
        let data_record = module.data_record(index);
        if !data_record.bytes.is_empty() {
            let start = data_address(layout, input, data_record.segment, data_record.offset);
            first = first.min(start);
        }
    }
    first
}

/// The first address that the data of modules covers.
fn first_among<A: Allocator + Copy>(modules: &[Module<A>], layout: &Layout<A>) -> u32
    requires small { layout.now.size ≤ 1048560 }
    requires ready { All (IsEntryReady layout.now) (entries modules.now) }
    ensures { result ≡ first_covered layout.now modules.now }
{
    let mut first = MEMORY_LEN;
    for (input, module) in modules.iter().enumerate() {
        first = first_with(first, layout, input, module);
    }
    first
}

/// The first address of the program of modules that data covers, counted from the program's first byte. It is
/// 1,048,576, behind every program, where data covers none. Bytes 00 of data are data.
pub fn first_covered<A: Allocator + Copy>(modules: &[Module<A>], layout: &Layout<A>) -> u32
    requires { IsBounded modules.now layout.now }
    ensures { result ≡ first_covered layout.now modules.now }
{
    all_promise(modules);
    first_among(modules, layout)
}
