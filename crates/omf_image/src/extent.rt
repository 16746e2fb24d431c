//! How far the data of a program reaches.

ghost use Rattle.std.specs.Prelude.{◌≡◌, ◌≤◌, All, fold, map, max};
ghost use Rattle.omf_image.specs.Records.{entries, entry_end, written};
ghost use Rattle.omf_image.specs.inside.Entries.{module_entries};
ghost use Rattle.omf_image.specs.inside.Ready.{IsEntryReady};

use crate::adding::data_address;
use omf_module::Module;
use omf_place::Layout;
use std::alloc::Allocator;

/// The greater of an end and one more than the greatest address that a module's data covers.
fn end_with<A: Allocator + Copy>(
    end: u32,
    layout: &Layout<A>,
    input: usize,
    module: &Module<A>,
) -> u32
    requires small { layout.now.size ≤ 1048560 }
    requires ready { All (IsEntryReady layout.now) (module_entries input «module».now) }
    ensures { result ≡ fold max end (map (entry_end layout.now) (module_entries input «module».now)) }
{
    let mut end = end;
    for index in 0..module.data_record_count() {
        let data_record = module.data_record(index);
        if !data_record.bytes.is_empty() {
            let start = data_address(layout, input, data_record.segment, data_record.offset);
            end = end.max(start + data_record.bytes.len() as u32);
        }
    }
    end
}

/// One more than the greatest address that a data record covers, or 0.
pub fn written<A: Allocator + Copy>(layout: &Layout<A>, modules: &[Module<A>]) -> u32
    requires small { layout.now.size ≤ 1048560 }
    requires ready { All (IsEntryReady layout.now) (entries modules.now) }
    ensures { result ≡ written layout.now modules.now }
{
    let mut end = 0;
    for (input, module) in modules.iter().enumerate() {
        end = end_with(end, layout, input, module);
    }
    end
}
