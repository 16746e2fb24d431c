//! Why a command stopped, and the exit status that says so.
ghost use Rattle.std.specs.Prelude.{◌≡◌};
ghost use Rattle.omf_faults.specs.declared.fault.LinkFault.TheVariants.{Memory};
ghost use Rattle.omf_faults.specs.FaultLines as spec;
ghost use Rattle.omf_faults.specs.FaultLines.{text_of};

use mz::FileFault;
use omf_image::FixKind;
use omf_module::CheckFault;
use omf_record::NoRecord;
use std::alloc::{AllocError, Allocator, Global};
use thiserror::Error;

/// What is wrong with a record of an object module.
#[derive(Clone, Copy, Debug, PartialEq, Eq, Error)]
pub enum InputFault {
    /// 2 to 6, 8 and 41: no record begins.
    #[error("{0}")]
    Absent(NoRecord),
    /// 7 and 10 to 21: a check refuses the record.
    #[error("{0}")]
    Check(CheckFault),
    /// 26 to 33: its data, one of its fix-ups or its start is at fault.
    #[error("{0}")]
    Fix(FixKind),
}

/// What is wrong with modules together.
#[derive(Drop, Error)]
#[derive_where(Debug, PartialEq, Eq)]
pub enum ProgramFault<A: Allocator + Copy = Global> {
    /// 22: a combined segment, by its name, ends more than 65,536 bytes above the start of its frame.
    #[error("a segment is too long")]
    SegmentTooLong(Vec<u8, A>),
    /// 23: the program has more than 1,048,560 bytes.
    #[error("the program is too large")]
    ProgramTooLarge,
    /// 24: a member of a group, by the group's name, ends more than 65,536 bytes above the start of the group's frame.
    #[error("a group is too long")]
    GroupTooLong(Vec<u8, A>),
    /// 25: two publics have this name.
    #[error("two publics have one name")]
    DuplicatePublic(Vec<u8, A>),
    /// 34: there are more than 65,535 relocated words.
    #[error("too many relocated words")]
    TooManyRelocations,
}

/// Why a command stopped.
#[derive(Drop, Error)]
#[derive_where(Debug, PartialEq, Eq)]
pub enum LinkFault<A: Allocator + Copy = Global> {
    /// There was no memory.
    #[error("out of memory")]
    Memory,
    /// 40: a sink failed.
    #[error("the output failed")]
    Output,
    /// 1: the source of the input with this index failed, while the record behind so many of its bytes was read.
    #[error("input {input} failed at record {place}")]
    Device {
        input: usize,
        place: u64,
    },
    /// The record behind so many bytes of the input with this index is at fault.
    #[error("record {place} of input {input}: {fault}")]
    Record {
        input: usize,
        place: u64,
        fault: InputFault,
    },
    /// The modules are at fault together.
    #[error("{0}")]
    Program(ProgramFault<A>),
    /// The program's file is at fault, which is the only input.
    #[error("the program's file: {0}")]
    File(FileFault),
}

impl<A: Allocator + Copy> From<AllocError> for LinkFault<A> {
    ghost from_gives = { λ _ e. e ≡ Memory };

    fn from(_error: AllocError) -> LinkFault<A> {
        LinkFault::Memory
    }
}

impl InputFault {
    /// The number and the name that the fault is printed with.
    pub fn label(self) -> (u8, &'static str)
        ensures number { result.0 ≡ (spec.label self).0 }
        ensures name { result.1.now ≡ (spec.label self).1 }
    {
        match self {
            InputFault::Absent(fault) => fault.label(),
            InputFault::Check(fault) => fault.label(),
            InputFault::Fix(kind) => kind.label(),
        }
    }

    /// The place in the body, where the body is at fault.
    pub fn place_in_body(self) -> Option<usize>
        ensures { result ≡ spec.place_in_body self }
    {
        match self {
            InputFault::Absent(NoRecord::Body { at }) => Some(at),
            _ => None,
        }
    }
}

impl<A: Allocator + Copy> ProgramFault<A> {
    /// The number and the name that the fault is printed with.
    pub fn label(&self) -> (u8, &'static str)
        ensures number { result.0 ≡ (spec.program_label self.now).0 }
        ensures name { result.1.now ≡ (spec.program_label self.now).1 }
    {
        match self {
            ProgramFault::SegmentTooLong(_) => (22, "SegmentTooLong"),
            ProgramFault::ProgramTooLarge => (23, "ProgramTooLarge"),
            ProgramFault::GroupTooLong(_) => (24, "GroupTooLong"),
            ProgramFault::DuplicatePublic(_) => (25, "DuplicatePublic"),
            ProgramFault::TooManyRelocations => (34, "TooManyRelocations"),
        }
    }

    /// The name of the segment, group or public at fault, where one is.
    pub fn name_at_fault(&self) -> Option<&[u8]>
        ensures { text_of result ≡ spec.name_at_fault self.now }
    {
        match self {
            ProgramFault::SegmentTooLong(name) => Some(name),
            ProgramFault::GroupTooLong(name) => Some(name),
            ProgramFault::DuplicatePublic(name) => Some(name),
            ProgramFault::ProgramTooLarge | ProgramFault::TooManyRelocations => None,
        }
    }
}

impl<A: Allocator + Copy> LinkFault<A> {
    /// The fault's number; want of memory has none.
    pub fn number(&self) -> Option<u8>
        ensures { result ≡ spec.number self.now }
    {
        match self {
            LinkFault::Memory => None,
            LinkFault::Output => Some(40),
            LinkFault::Device { .. } => Some(1),
            LinkFault::Record { fault, .. } => Some(fault.label().0),
            LinkFault::Program(fault) => Some(fault.label().0),
            LinkFault::File(fault) => Some(fault.label().0),
        }
    }

    /// The name that the fault is printed with, behind its number where it has one.
    pub fn name(&self) -> &'static str
        ensures { result.now ≡ spec.name self.now }
    {
        match self {
            LinkFault::Memory => "memory",
            LinkFault::Output | LinkFault::Device { .. } => "Device",
            LinkFault::Record { fault, .. } => fault.label().1,
            LinkFault::Program(fault) => fault.label().1,
            LinkFault::File(fault) => fault.label().1,
        }
    }

    /// The index of the input at fault.
    pub fn input(&self) -> Option<usize>
        ensures { result ≡ spec.input self.now }
    {
        match self {
            LinkFault::Device { input, .. } | LinkFault::Record { input, .. } => Some(*input),
            LinkFault::File(_) => Some(0),
            LinkFault::Memory | LinkFault::Output | LinkFault::Program(_) => None,
        }
    }
}

/// The exit status of a command that stopped: 3 where a device or memory failed, else 1.
pub fn status<A: Allocator + Copy>(fault: &LinkFault<A>) -> u8
    ensures { result ≡ spec.status fault.now }
{
    match fault.number() {
        None | Some(1 | 40) => 3,
        Some(_) => 1,
    }
}
