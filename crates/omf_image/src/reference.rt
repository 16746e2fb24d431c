//! What the frame and the target of a reference stand for.

ghost use Rattle.std.specs.Prelude.{◌≡◌, ◌<◌, length, Ok};
ghost use Rattle.std.specs.Option.{ok_or};
ghost use Rattle.omf_image.specs.declared.faults.FixKind.TheVariants.{Unresolved};
ghost use Rattle.omf_module.specs.Seen.{external_seen};
ghost use Rattle.omf_image.specs.Reference.{resolved, meant, target_of, frame_by, own_frame};
ghost use Rattle.omf_image.specs.inside.Lookups.{found};
ghost use Rattle.omf_image.specs.inside.Ready.{IsTargetThere, IsFrameThere};

use omf_module::{ExternalSymbol, Module};
use omf_place::{Layout, Position};
use omf_record::{FrameMethod, TargetMethod};
use std::alloc::Allocator;

/// A frame in paragraphs, which moves with the program or not.
#[derive(Clone, Copy)]
pub enum Base {
    /// Counted from the start of the program.
    Relocatable(u16),
    Absolute(u16),
}

/// What a look-up lacks: the public that an external means, or members of a group.
#[derive(Clone, Copy)]
pub enum Missing {
    Public,
    Members,
}

/// What the target and the frame of a reference stand for, and its displacement.
#[derive(Clone, Copy)]
pub struct Resolved {
    pub target: Position,
    pub named_frame: Base,
    pub displacement: u16,
}

/// Where the public stands that an external of an input's module means: a local one is found in that module alone.
fn external_position<A: Allocator + Copy>(
    layout: &Layout<A>,
    input: usize,
    external: ExternalSymbol<'_>,
) -> Result<Position, Missing>
    ensures { found result ≡ ok_or (meant layout.now input (external_seen external.entry)) Unresolved }
{
    let meant = if external.local {
        layout.local_public(input, external.name)
    } else {
        layout.public(external.name)
    };
    match meant {
        Some(position) => Ok(position),
        None => Err(Missing::Public),
    }
}

/// The frame of what stands somewhere.
fn own_frame(position: Position) -> Result<Base, Missing>
    ensures { found result ≡ own_frame (Ok position) }
{
    match position {
        Position::Relocatable(_, Some(frame)) => Ok(Base::Relocatable(frame)),
        Position::Relocatable(_, None) => Err(Missing::Members),
        Position::Absolute(_, frame) => Ok(Base::Absolute(frame)),
    }
}

/// Where a target stands, in the module of an input. The index of its method counts from 1.
fn target<A: Allocator + Copy>(
    layout: &Layout<A>,
    input: usize,
    module: &Module<A>,
    target: TargetMethod,
) -> Result<Position, Missing>
    requires input { input < length layout.now.modules }
    requires there { IsTargetThere layout.now input «module».now target }
    ensures { found result ≡ target_of layout.now input «module».now target }
{
    match target {
        TargetMethod::Segment(index) => {
            Ok(layout.segment_position(input, usize::from(index) - 1))
        }
        TargetMethod::Group(index) => match layout.group_frame(input, usize::from(index) - 1) {
            Some(frame) => Ok(Position::Relocatable(16 * u32::from(frame), Some(frame))),
            None => Err(Missing::Members),
        },
        TargetMethod::External(index) => external_position(
            layout,
            input,
            module.external(usize::from(index) - 1),
        ),
    }
}

/// The frame that a method names; `here` is the segment of the data record.
fn frame<A: Allocator + Copy>(
    layout: &Layout<A>,
    input: usize,
    module: &Module<A>,
    here: u16,
    of: TargetMethod,
    method: FrameMethod,
) -> Result<Base, Missing>
    requires input { input < length layout.now.modules }
    requires target { IsTargetThere layout.now input «module».now of }
    requires frame { IsFrameThere layout.now input «module».now here method }
    ensures { found result ≡ frame_by layout.now input «module».now here of method }
{
    match method {
        FrameMethod::By(method) => own_frame(target(layout, input, module, method)?),
        FrameMethod::Location => own_frame(layout.segment_position(input, usize::from(here))),
        FrameMethod::Target => own_frame(target(layout, input, module, of)?),
    }
}

/// What a reference stands for. An external that means no public is named before a group without members.
pub fn resolve<A: Allocator + Copy>(
    layout: &Layout<A>,
    input: usize,
    module: &Module<A>,
    here: u16,
    method: FrameMethod,
    of: TargetMethod,
    displacement: u16,
) -> Result<Resolved, Missing>
    requires input { input < length layout.now.modules }
    requires target { IsTargetThere layout.now input «module».now of }
    requires frame { IsFrameThere layout.now input «module».now here method }
    ensures { found result ≡ resolved layout.now input «module».now here method of displacement }
{
    let target = target(layout, input, module, of);
    let frame = frame(layout, input, module, here, of, method);
    match (target, frame) {
        (Ok(target), Ok(named_frame)) => Ok(Resolved {
            target,
            named_frame,
            displacement,
        }),
        (Err(Missing::Public), _) => Err(Missing::Public),
        (_, Err(Missing::Public)) => Err(Missing::Public),
        (_, _) => Err(Missing::Members),
    }
}
