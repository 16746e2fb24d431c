//! What a fix-up whose frame and target are known adds to its data.

ghost use Rattle.std.specs.Prelude.{◌≡◌, ◌+◌, ◌<◌, ◌≤◌, ◌^◌};
ghost use Rattle.omf_image.specs.Reference.{frame'};
ghost use Rattle.omf_image.specs.Value.{modulo, real_address, real_frame, base_patch};
ghost use Rattle.omf_image.specs.Value.{patches_at};
ghost use Rattle.omf_image.specs.Faults.{is_mixed, in_frame, target_in_frame};
ghost use Rattle.omf_image.specs.Overflow.{is_above, is_measured};
ghost use Rattle.omf_record.specs.Numbers.{location_width};
ghost use Rattle.omf_image.specs.inside.Patches.{patch_end};
ghost use Rattle.omf_image.specs.inside.Lookups.{listed, EndsBy};
ghost use Rattle.omf_image.specs.inside.Distances.{from_frame, from_address, fits_short};

use crate::patch::Patch;
use crate::reference::{Base, Resolved};
use omf_place::Position;
use omf_record::Location;

impl Resolved {
    /// The target's address at paragraph 0.
    fn address(&self) -> u32
        ensures { result ≡ real_address 0 self.now.target }
    {
        match self.target {
            Position::Relocatable(address, _) => address,
            Position::Absolute(address, _) => address,
        }
    }

    /// The frame that is used.
    pub fn frame(&self) -> Base
        ensures { result ≡ frame' self.now }
    {
        match (self.target, self.named_frame) {
            (Position::Absolute(_, own), Base::Relocatable(_)) => Base::Absolute(own),
            (_, named) => named,
        }
    }

    /// Its number at paragraph 0.
    pub fn base(&self) -> u16
        ensures { result ≡ real_frame 0 (frame' self.now) }
    {
        match self.frame() {
            Base::Relocatable(number) => number,
            Base::Absolute(number) => number,
        }
    }

    /// The target's distance from its frame, modulo 65,536.
    pub fn from_frame(&self) -> u16
        ensures { result ≡ modulo 65536 (from_frame 0 self.now) }
    {
        ((u64::from(self.address()) + u64::from(self.displacement) + 0x100_0000
            - 16 * u64::from(self.base()))
            % 65536) as u16
    }

    /// The target's distance from an address, modulo 65,536.
    fn from_address(&self, address: u64) -> u16
        requires { address < 2 ^ 40 }
        ensures { result ≡ modulo 65536 (from_address 0 self.now address) }
    {
        ((u64::from(self.address()) + u64::from(self.displacement) + 0x100_0000_0000 - address)
            % 65536) as u16
    }

    /// Whether a distance would depend on the load paragraph.
    pub fn is_mixed(&self, self_relative: bool, location: Location) -> bool
        ensures { result ≡ is_mixed self_relative location self.now }
    {
        let target = matches!(&self.target, Position::Relocatable(_, _));
        let frame = matches!(&self.frame(), Base::Relocatable(_));
        match (self_relative, location) {
            (true, _) => !(target && frame),
            (false, Location::Base) => false,
            (false, _) => target && !frame,
        }
    }

    /// Whether an address lies in the frame.
    pub fn in_frame(&self, address: u64) -> bool
        ensures { result ≡ in_frame self.now address }
    {
        let base = 16 * u64::from(self.base());
        base <= address && address < base + 65536
    }

    /// Whether the target lies in the frame.
    pub fn is_framed(&self) -> bool
        ensures { result ≡ target_in_frame self.now }
    {
        self.in_frame(u64::from(self.address()))
    }

    /// Whether the target has a distance from its frame.
    pub fn is_measured(&self) -> bool
        ensures { result ≡ is_measured self.now }
    {
        !self.is_mixed(false, Location::LoaderOffset) && self.is_framed()
    }

    /// Whether the sum of a number of 32 bits and the target's distance from its frame is 65,536 or more, modulo 2 to
    /// the 32nd.
    pub fn is_above(&self, number: u32) -> bool
        ensures { result ≡ is_above self.now number }
    {
        let to = u64::from(self.address()) + u64::from(self.displacement) + u64::from(number);
        65536 <= (to + 0x1_0000_0000 - 16 * u64::from(self.base())) % 0x1_0000_0000
    }

    /// Whether the distance from the end of a byte fits a signed byte.
    pub fn fits_short(&self, address: u64) -> bool
        requires { address < 2 ^ 40 }
        ensures { result ≡ fits_short self.now address }
    {
        let signed = if self.displacement < 0x8000 {
            u64::from(self.displacement) + 65536
        } else {
            u64::from(self.displacement)
        };
        let to = u64::from(self.address()) + 128 + signed;
        let from = address + 1 + 65536;
        from <= to && to <= from + 255
    }

    /// The frame to be added at place `at`, a relocated word where it is relocatable.
    fn base_patch(&self, at: usize) -> Patch
        ensures { result ≡ base_patch 0 at (frame' self.now) }
    {
        match self.frame() {
            Base::Relocatable(number) => Patch::Relocated(at, number),
            Base::Absolute(number) => Patch::Word(at, number),
        }
    }

    /// What is added where the location begins at place `at` of the data, at an address of the program.
    #[inline(always)]
    pub fn patches(
        &self,
        self_relative: bool,
        location: Location,
        at: usize,
        address: u64,
    ) -> (Patch, Option<Patch>)
        requires address { address < 2 ^ 39 }
        requires at { at < 2 ^ 32 }
        ensures patches { listed result.0 result.1 ≡ patches_at 0 self.now self_relative location at address }
        ensures first { patch_end result.0 ≤ at + location_width location }
        ensures second { EndsBy (at + location_width location) result.1 }
    {
        match (self_relative, location) {
            (false, Location::LowByte) => (Patch::Byte(at, (self.from_frame() % 256) as u8), None),
            (false, Location::Base) => (self.base_patch(at), None),
            (false, Location::Pointer) => (
                Patch::Word(at, self.from_frame()),
                Some(self.base_patch(at + 2)),
            ),
            (false, _) => (Patch::Word(at, self.from_frame()), None),
            (true, Location::LowByte) => (
                Patch::Byte(at, (self.from_address(address + 1) % 256) as u8),
                None,
            ),
            (true, _) => (Patch::Word(at, self.from_address(address + 2)), None),
        }
    }
}
