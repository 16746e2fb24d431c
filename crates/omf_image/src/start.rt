//! The registers at the start.

ghost use Rattle.std.specs.Prelude.{◌≡◌, ◌<◌, ◌≤◌, All, Some, None, false, length, slice_get};
ghost use Rattle.std.specs.Option.{option_map_or};
ghost use Rattle.omf_image.specs.inside.Ready.{IsStartReady};
ghost use Rattle.omf_image.specs.Registers.{starts, start_meaning, starts_fault, entry_point};
ghost use Rattle.omf_image.specs.inside.Starts.{entry_of, is_stack};
ghost use Rattle.omf_image.specs.Registers.{stack, stack_of, registers};
ghost use Rattle.omf_image.specs.inside.Starts.{is_stack_segment};
ghost use Rattle.omf_image.specs.Building.{Answers};
ghost use Rattle.omf_image.specs.inside.Starts.{GivesEntry, FindsStart};

use crate::faults::{FixFault, FixKind};
use crate::reference::resolve;
use omf_module::{Kind, Module, Standing, Start};
use omf_place::{Combined, Layout};
use omf_record::Location;
use std::alloc::Allocator;

/// The registers at the start of a program: of a `Program` those at load paragraph 0, of a loaded file those at the
/// paragraph at which it was loaded. The two differ by the paragraph, which is added to both frames, modulo 65,536.
#[derive(Clone, Copy, Debug, PartialEq, Eq)]
pub struct Registers {
    /// The code segment's frame.
    pub cs: u16,
    /// The offset of the start in the code segment.
    pub ip: u16,
    /// The stack segment's frame.
    pub ss: u16,
    /// The offset of the stack's end in the stack segment.
    pub sp: u16,
}

/// CS and IP at a start.
fn entry_of<A: Allocator + Copy>(
    layout: &Layout<A>,
    input: usize,
    module: &Module<A>,
    start: Start,
) -> Result<(u16, u16), FixKind>
    requires { IsStartReady layout.now (record { input = input; module' = «module».now; item = start }) }
    ensures { GivesEntry
        (start_meaning layout.now (record { input = input; module' = «module».now; item = start })) result }
{
    let resolved = resolve(
        layout,
        input,
        module,
        0,
        start.frame,
        start.target,
        start.displacement,
    )?;
    if resolved.is_mixed(true, Location::Offset) {
        return Err(FixKind::Mixed);
    }
    if !resolved.is_framed() {
        return Err(FixKind::OutOfFrame);
    }
    Ok((resolved.base(), resolved.from_frame()))
}

/// Whether a segment is a stack.
fn is_stack(standing: Standing) -> bool
    ensures { result ≡ is_stack standing }
{
    matches!(
        standing,
        Standing::Relocatable {
            alignment: _,
            kind: Kind::Stack
        }
    )
}

/// Whether a segment of a module is there and is a stack.
fn is_stack_of<A: Allocator + Copy>(module: &Module<A>, segment: usize) -> bool
    ensures { result ≡ option_map_or (λ s. is_stack s.standing) (slice_get «module».now.segments segment) false }
{
    segment < module.segment_count() && is_stack(module.segment(segment).standing)
}

/// Whether a combined segment is a stack.
fn is_stack_segment<A: Allocator + Copy>(modules: &[Module<A>], combined: Combined) -> bool
    ensures { result ≡ is_stack_segment modules.now combined }
{
    match modules.get(combined.input) {
        Some(module) => is_stack_of(module, combined.segment),
        None => false,
    }
}

/// SS and SP: the frame of the first stack segment and its end counted from there.
fn stack<A: Allocator + Copy>(layout: &Layout<A>, modules: &[Module<A>]) -> (u16, u16)
    ensures { result ≡ stack_of 0 (stack layout.now modules.now) }
{
    for index in 0..layout.combined_len() {
        let combined = layout.combined(index);
        if is_stack_segment(modules, combined) {
            let frame = combined.start / 16;
            let length = combined.end.saturating_sub(16 * frame);
            return ((frame % 65536) as u16, (length % 65536) as u16);
        }
    }
    (0, 0)
}

/// The first start of the modules from an input on, with its input.
pub(crate) fn next_start<A: Allocator + Copy>(
    modules: &[Module<A>],
    from: usize,
) -> Option<(usize, Start)>
    requires { from ≤ length modules.now }
    ensures { FindsStart modules.now from result }
{
    for input in from..modules.len() {
        let module = &modules[input];
        if let Some(start) = module.start() {
            return Some((input, start));
        }
    }
    None
}

/// CS and IP: those of the only start, and 0 without one.
fn entry<A: Allocator + Copy>(
    layout: &Layout<A>,
    modules: &[Module<A>],
) -> Result<(u16, u16), FixFault>
    requires { All (IsStartReady layout.now) (starts modules.now) }
    ensures { Answers result (starts_fault layout.now (starts modules.now))
        (λ entry. (starts_fault layout.now (starts modules.now) ≡ None)
        × (entry ≡ entry_point 0 layout.now (starts modules.now))) }
{
    let Some((input, start)) = next_start(modules, 0) else {
        return Ok((0, 0));
    };
    if let Some((second, other)) = next_start(modules, input + 1) {
        return Err(FixFault::At {
            kind: FixKind::TwoStarts,
            input: second,
            place: other.place,
        });
    }
    let module = &modules[input];
    match entry_of(layout, input, module, start) {
        Ok(entry) => Ok(entry),
        Err(kind) => Err(FixFault::At {
            kind,
            input,
            place: start.place,
        }),
    }
}

/// The registers at the start, at load paragraph 0.
#[tactic(auto, unfolding(crate::specs::Registers::registers))]
pub fn start_registers<A: Allocator + Copy>(
    layout: &Layout<A>,
    modules: &[Module<A>],
) -> Result<Registers, FixFault>
    requires { All (IsStartReady layout.now) (starts modules.now) }
    ensures { Answers result (starts_fault layout.now (starts modules.now))
        (λ made. (starts_fault layout.now (starts modules.now) ≡ None) × (made ≡ registers 0 layout.now modules.now)) }
{
    let (cs, ip) = entry(layout, modules)?;
    let (ss, sp) = stack(layout, modules);
    Ok(Registers { cs, ip, ss, sp })
}
