//! A layout, and what it hands out.

ghost use Rattle.std.specs.Prelude.{◌≡◌, ◌<◌, ◌≤◌, Some, length, slice_get};
ghost use Rattle.omf_place.specs.Layout.{group_frame, local_public, places_of, public, segment_position};

use crate::layout::{Combined, GroupPlace, Position};
use crate::rows::ModuleRow;
use crate::scopes::Scopes;
use std::alloc::{Allocator, Global};
use std::marker::Model;

/// Where the parts, groups and publics of a program stand.
#[derive(Drop)]
pub struct Layout<A: Allocator + Copy = Global> {
    pub(crate) size: u32,
    pub(crate) modules: Vec<ModuleRow<A>, A>,
    pub(crate) combined: Vec<Combined, A>,
    pub(crate) groups: Vec<GroupPlace, A>,
    pub(crate) publics: Scopes<Position, A>,
}

impl<A: Allocator + Copy> Model for Layout<A> {
    ghost use Rattle.std.specs.Prelude.{◌≤◌, map};
    ghost use Rattle.omf_place.specs.Layout as value;
    ghost use Rattle.omf_place.specs.Rows.{row_view};

    ghost Value = { value.Layout };

    ghost view = { λ l. record {
      size = l.size;
      modules = map row_view l.modules.items;
      combined = l.combined.items;
      groups = l.groups.items;
      publics = l.publics.shared;
      locals = l.publics.locals;
    } };

    ghost invariant = { λ l. l.size ≤ 1048560 };
}

impl<A: Allocator + Copy> Layout<A> {
    /// The size of the program in bytes.
    pub fn size(&self) -> u32
        ensures size { result ≡ self.now.size }
        ensures small { result ≤ 1048560 }
    {
        self.size
    }

    /// Where a segment stands, by the index of its module among the inputs and its own in the module: its address, with
    /// the frame of its combined segment or, where it is absolute, its own.
    pub fn segment_position(&self, input: usize, segment: usize) -> Position
        requires input { input < length self.now.modules }
        requires segment { segment < length (places_of self.now input).segments }
        ensures { result ≡ segment_position self.now input segment }
    {
        self.modules[input].segments[segment]
    }

    /// The frame of a GRPDEF's group, which a group without members hasn't.
    pub fn group_frame(&self, input: usize, group: usize) -> Option<u16>
        requires input { input < length self.now.modules }
        requires group { group < length (places_of self.now input).groups }
        ensures { result ≡ group_frame self.now input group }
    {
        self.modules[input].group_frames[group]
    }

    /// What a name means to all modules: None where no public has it. It takes no memory.
    pub fn public(&self, name: &[u8]) -> Option<Position>
        ensures { result ≡ public self.now name.now }
    {
        self.publics.shared(name)
    }

    /// What a name means in a module alone, by its index among the inputs: None where no local public of it has the
    /// name.
    /// It takes no memory.
    pub fn local_public(&self, input: usize, name: &[u8]) -> Option<Position>
        ensures { result ≡ local_public self.now input name.now }
    {
        self.publics.local(input, name)
    }

    /// How many combined segments there are.
    pub fn combined_len(&self) -> usize
        ensures { result ≡ length self.now.combined }
    {
        self.combined.len()
    }

    /// A combined segment, in the order of placement.
    pub fn combined(&self, index: usize) -> Combined
        requires { index < length self.now.combined }
        ensures { slice_get self.now.combined index ≡ Some result }
    {
        self.combined[index]
    }

    /// How many groups there are.
    pub fn group_len(&self) -> usize
        ensures { result ≡ length self.now.groups }
    {
        self.groups.len()
    }

    /// A group, in order of first meeting.
    pub fn group(&self, index: usize) -> GroupPlace
        requires { index < length self.now.groups }
        ensures { slice_get self.now.groups index ≡ Some result }
    {
        self.groups[index]
    }
}
