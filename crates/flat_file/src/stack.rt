//! Whether a program has a stack segment.
ghost use Rattle.std.specs.Prelude.{◌≡◌, false, is_some, slice_get};
ghost use Rattle.std.specs.Option.{option_map_or};
ghost use Rattle.omf_image.specs.Registers.{stack};
ghost use Rattle.omf_image.specs.inside.Starts.{is_stack, is_stack_segment};

use omf_module::{Kind, Module, Standing};
use omf_place::{Combined, Layout};
use std::alloc::Allocator;

/// Whether a segment is a stack.
fn is_stack(standing: Standing) -> bool
    ensures { result ≡ is_stack standing }
{
    matches!(
        standing,
        Standing::Relocatable {
            alignment: _,
            kind: Kind::Stack
        }
    )
}

/// Whether a segment of a module is there and is a stack.
fn is_stack_of<A: Allocator + Copy>(module: &Module<A>, segment: usize) -> bool
    ensures { result ≡ option_map_or (λ s. is_stack s.standing) (slice_get «module».now.segments segment) false }
{
    segment < module.segment_count() && is_stack(module.segment(segment).standing)
}

/// Whether a combined segment is a stack: its first part says so.
fn is_stack_segment<A: Allocator + Copy>(modules: &[Module<A>], combined: Combined) -> bool
    ensures { result ≡ is_stack_segment modules.now combined }
{
    match modules.get(combined.input) {
        Some(module) => is_stack_of(module, combined.segment),
        None => false,
    }
}

/// Whether the program of modules has a stack segment, also one without a byte.
pub(crate) fn has_stack<A: Allocator + Copy>(modules: &[Module<A>], layout: &Layout<A>) -> bool
    ensures { result ≡ is_some (stack layout.now modules.now) }
{
    for index in 0..layout.combined_len() {
        if is_stack_segment(modules, layout.combined(index)) {
            return true;
        }
    }
    false
}
