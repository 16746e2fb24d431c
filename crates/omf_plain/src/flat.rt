//! What counts from the group FLAT.

ghost use Rattle.std.specs.Prelude.{◌≡◌};
ghost use Rattle.omf_library.specs.Names.{texts};
ghost use Rattle.omf_plain.specs.Flat as flat;
ghost use Rattle.omf_plain.specs.Seen as seen;

use omf_library::listed_name;
use omf_record::{Datum, FrameMethod, PublicBase, TargetMethod};
use omf_wide::WideReference;

/// Whether a group is FLAT, whose name has this index among the names before it.
pub(crate) fn is_flat_group(names: &[&[u8]], name: u16) -> bool
    ensures { result ≡ flat.is_flat_group (texts names.now) name }
{
    match listed_name(names, name) {
        Some(name) => name == b"FLAT".as_slice(),
        None => false,
    }
}

/// What a list says of the item with this index, from 1 on; of none, that it isn't so.
pub(crate) fn flag_at(flags: &[bool], index: u16) -> bool
    ensures flat { result ≡ flat.is_flat flags.now index }
    ensures out { result ≡ seen.is_out flags.now index }
{
    if index == 0 {
        return false;
    }
    flags.get(usize::from(index) - 1).copied().unwrap_or(false)
}

/// Whether a target counts from FLAT.
pub(crate) fn target_is_flat(groups: &[bool], target: TargetMethod) -> bool
    ensures { result ≡ flat.target_is_flat groups.now target }
{
    match target {
        TargetMethod::Group(index) => flag_at(groups, index),
        TargetMethod::Segment(_) | TargetMethod::External(_) => false,
    }
}

/// Whether a frame does.
pub(crate) fn frame_is_flat(groups: &[bool], frame: FrameMethod) -> bool
    ensures { result ≡ flat.frame_is_flat groups.now frame }
{
    match frame {
        FrameMethod::By(method) => target_is_flat(groups, method),
        FrameMethod::Location | FrameMethod::Target => false,
    }
}

/// Whether what a fix-up or a start refers to does, by its frame or its target.
pub(crate) fn reference_is_flat(groups: &[bool], reference: WideReference) -> bool
    ensures { result ≡ flat.reference_is_flat groups.now reference }
{
    let by_frame = match reference.frame {
        Datum::By(method) => frame_is_flat(groups, method),
        Datum::Thread(_) => false,
    };
    let by_target = match reference.target {
        Datum::By(method) => target_is_flat(groups, method),
        Datum::Thread(_) => false,
    };
    by_frame || by_target
}

/// Whether public names do.
pub(crate) fn base_is_flat(groups: &[bool], base: PublicBase) -> bool
    ensures { result ≡ flat.base_is_flat groups.now base }
{
    match base {
        PublicBase::AtFrame { group, frame: _ } | PublicBase::InSegment { group, segment: _ } => {
            flag_at(groups, group)
        }
    }
}
