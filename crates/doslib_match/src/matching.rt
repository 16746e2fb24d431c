//! What is told of a file: of each of its members where its segments stand, or its first fault.
ghost use Rattle.std.specs.Prelude.{◌≡◌, ◌++◌, ◌∷◌, [], ℕ, List, IfOk, OnOk, map};
ghost use Rattle.omf_library.specs.Members.{plain_member};
ghost use Rattle.doslib_match.specs.Matching as spec;
ghost use Rattle.doslib_match.specs.inside.Reads.{Reads};
ghost use Rattle.doslib_match.specs.inside.Telling.{AddsMember, AddsMembers};

use crate::label::obstacle_label;
use byte_places::{Index, Span};
use doslib_text::{Whole, push_faults, push_located, shown_name};
use omf_alias::Renaming;
use omf_library::Member;
use omf_match::{push_byte, push_module, push_titled};
use omf_module::Module;
use omf_place::Names;
use omf_plain::{PlainModuleFault, RecordObstacle, read_plain};
use std::alloc::{AllocError, Allocator};

/// Which segments of modules are told of, of those that stand in a program.
#[derive(Clone, Copy, Debug, PartialEq, Eq)]
pub enum Wanted {
    /// All, with their fix-ups.
    All,
    /// Those that have the byte at this address of the image, with its offset in them.
    Byte(usize),
}

/// A program's image, and which of the segments that stand in it are told of.
#[derive(Drop)]
pub struct Sought<'i, 'b, A: Allocator + Copy> {
    pub image: &'i Index<'b, A>,
    pub wanted: Wanted,
}

/// What is told of files.
#[derive(Drop)]
pub struct Told<A: Allocator> {
    /// What is printed of them.
    pub text: Vec<u8, A>,
    /// The bytes of the program's image that their segments have.
    pub spans: Vec<Span, A>,
    /// A line for each fault.
    pub faults: Vec<u8, A>,
}

/// The module that bytes begin with, its records of any width taken as the fourteen, without what debuggers read and
/// without COMDATs.
fn read_module<A: Allocator + Copy>(alloc: A, bytes: &[u8]) -> Result<Module<A>, PlainModuleFault>
    ensures { Reads bytes.now result }
{
    let read = read_plain(alloc, bytes, false, &Renaming::none(Names::Exact), &[])?;
    Ok(read.module)
}

impl<A: Allocator + Copy> Told<A> {
    /// Nothing is told.
    fn new(alloc: A) -> Told<A>
        ensures text { result.text.items ≡ [] }
        ensures spans { result.spans.items ≡ [] }
        ensures faults { result.faults.items ≡ [] }
    {
        Told {
            text: Vec::new(alloc),
            spans: Vec::new(alloc),
            faults: Vec::new(alloc),
        }
    }

    /// Appends where the segments of a module stand, as is wanted, and adds their bytes.
    fn push_wanted<B: Allocator + Copy>(
        &mut self,
        lines: &mut Vec<u8, A>,
        from: &Module<A>,
        sought: &Sought<'_, '_, B>,
    ) -> Result<(), AllocError>
        ensures lines { OnOk result (lines.new.items
            ≡ lines.old.items ++ spec.wanted_lines sought.now.wanted sought.now.image.now from.now) }
        ensures spans { OnOk result (self.new.spans.items
            ≡ self.old.spans.items ++ spec.wanted_spans sought.now.wanted sought.now.image.now from.now) }
        ensures text { OnOk result (self.new.text ≡ self.old.text) }
        ensures faults { OnOk result (self.new.faults ≡ self.old.faults) }
    {
        let alloc = *self.text.allocator();
        match sought.wanted {
            Wanted::All => push_module(alloc, lines, &mut self.spans, sought.image, from),
            Wanted::Byte(address) => push_byte(alloc, lines, sought.image, from, address),
        }
    }

    /// Adds where the segments of a member of a file at a path stand, read as this module.
    fn add_module<B: Allocator + Copy>(
        &mut self,
        path: &str,
        name: &[u8],
        from: &Module<A>,
        sought: &Sought<'_, '_, B>,
    ) -> Result<(), AllocError>
        ensures text { OnOk result (self.new.text.items ≡ self.old.text.items
            ++ spec.module_text sought.now.wanted sought.now.image.now path.now name.now from.now) }
        ensures spans { OnOk result (self.new.spans.items
            ≡ self.old.spans.items ++ spec.wanted_spans sought.now.wanted sought.now.image.now from.now) }
        ensures faults { OnOk result (self.new.faults ≡ self.old.faults) }
    {
        let mut lines = Vec::new(*self.text.allocator());
        self.push_wanted(&mut lines, from, sought)?;
        push_titled(&mut self.text, path, name, &lines)
    }

    /// Adds that the record at a place of a member of a file at a path isn't taken.
    fn add_fault(
        &mut self,
        path: &str,
        member: &Member<'_>,
        place: u64,
        why: RecordObstacle,
    ) -> Result<(), AllocError>
        ensures text { OnOk result (self.new.text ≡ self.old.text) }
        ensures spans { OnOk result (self.new.spans ≡ self.old.spans) }
        ensures faults { OnOk result (self.new.faults.items
            ≡ self.old.faults.items ++ spec.fault_line path.now (plain_member member.now) place why) }
    {
        let kind = member.bytes.get(place as usize).copied().unwrap_or(0);
        let place = member.place.saturating_add(place as usize);
        push_located(&mut self.faults, path, obstacle_label(kind, why), place)
    }

    /// Adds what is told of a member of a file at a path.
    fn add_member<B: Allocator + Copy>(
        &mut self,
        path: &str,
        member: &Member<'_>,
        sought: &Sought<'_, '_, B>,
    ) -> Result<(), AllocError>
        ensures { OnOk result (AddsMember sought.now.wanted sought.now.image.now path.now (plain_member member.now) self.old self.new) }
    {
        let alloc = *self.text.allocator();
        match read_module(alloc, member.bytes) {
            Ok(module) => self.add_module(path, shown_name(member), &module, sought),
            Err(PlainModuleFault::Record { place, why }) => {
                self.add_fault(path, member, place, why)
            }
            Err(PlainModuleFault::Memory) => Err(AllocError),
        }
    }

    /// Adds what is told of members of a file at a path.
    fn add_members<B: Allocator + Copy>(
        &mut self,
        path: &str,
        members: &[Member<'_>],
        sought: &Sought<'_, '_, B>,
    ) -> Result<(), AllocError>
        ensures { OnOk result (AddsMembers sought.now.wanted sought.now.image.now path.now
            (map plain_member members.now) self.old self.new) }
    {
        for member in members {
            self.add_member(path, member, sought)?;
        }
        Ok(())
    }
}

/// What is told of the file with these bytes at a path: of each of its members that is whole where its segments stand
/// in an image, as far as that is wanted, or its first fault; and the file's own fault.
///
/// # Errors
/// There was no memory.
pub fn match_file<A: Allocator + Copy, B: Allocator + Copy>(
    alloc: A,
    path: &str,
    bytes: Vec<u8, A>,
    sought: &Sought<'_, '_, B>,
) -> Result<Told<A>, AllocError>
    ensures { IfOk result (λ t. spec.IsMatch sought.now.wanted sought.now.image.now path.now bytes.items t.text.items
        t.spans.items t.faults.items) }
{
    let whole = Whole::of(alloc, bytes)?;
    let members = whole.members(alloc)?;
    let mut told = Told::new(alloc);
    told.add_members(path, &members, sought)?;
    push_faults(&mut told.faults, path, &[], whole.fault)?;
    Ok(told)
}
