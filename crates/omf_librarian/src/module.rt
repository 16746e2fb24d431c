//! An object module that becomes a member of a library, and the names by which a dictionary has it.

ghost use Rattle.std.specs.Prelude.{◌≡◌, ◌<◌, ◌≤◌, ◌++◌, length, false, IfOk, MatchResult, Ok, Err, map, slice_index};
ghost use Rattle.std.specs.List.{list_any};
ghost use Rattle.omf_library.specs.Names.{texts};
ghost use Rattle.omf_frame.specs.Lending.{plain_frame};
ghost use Rattle.omf_library.specs.Records as records;
ghost use Rattle.omf_library.specs.Said.{bytes_said};
ghost use Rattle.omf_librarian.specs.Modules.{is_headed, is_long, names_of, without_extension, without_folder};
ghost use Rattle.omf_librarian.specs.Modules as spec;
ghost use Rattle.omf_librarian.specs.Answers.{Answers};
ghost use Rattle.omf_librarian.specs.inside.Answers.{own_names, part_said};

use crate::fault::LibrarianFault;
use omf_frame::Frame;
use omf_library::{LibraryFault, ModuleNames, ends_module, module_names, record_at, take_name};
use std::alloc::{AllocError, Allocator};

/// What stands behind the name of a module in a dictionary.
const MARK: u8 = b'!';

/// How many bytes a name in a dictionary has at most.
const LONGEST: usize = 255;

/// Where the module ends whose records begin the bytes; else the first of its records that is at fault.
fn module_end(bytes: &[u8]) -> Result<usize, LibraryFault>
    ensures said { result ≡ records.module_end bytes.now 0 }
    ensures within { IfOk result (λ end. end ≤ length bytes.now) }
{
    let mut end = 0;
    loop {
        let frame = record_at(bytes, end)?;
        end += frame.body.len() + 4;
        if ends_module(frame.kind) {
            return Ok(end);
        }
    }
}

/// Whether the first record of bytes is one that heads a module: THEADR, or LHEADR.
fn is_headed(bytes: &[u8]) -> bool
    ensures { result ≡ is_headed bytes.now }
{
    matches!(bytes, [0x80 | 0x82, ..])
}

/// The module at the front of the bytes of a member, up to the record that ends it.
#[tactic(auto, unfolding(crate::specs::Modules::module_of))]
fn module_of(member: usize, bytes: &[u8]) -> Result<&[u8], LibrarianFault>
    ensures { part_said result ≡ spec.module_of member bytes.now }
{
    if !is_headed(bytes) {
        return Err(LibrarianFault::Header { member });
    }
    match module_end(bytes) {
        Ok(end) => Ok(&bytes[..end]),
        Err(LibraryFault::Malformed { place, fault }) => Err(LibrarianFault::Malformed {
            member,
            place,
            fault,
        }),
        Err(LibraryFault::Memory) => Err(LibrarianFault::Memory),
    }
}

/// Whether a folder or a drive ends with the byte.
fn ends_folder(byte: u8) -> bool
    ensures { result ≡ spec.ends_folder byte }
{
    matches!(byte, b'\\' | b'/' | b':')
}

/// A name of a file without its folders.
fn without_folder(name: &[u8]) -> &[u8]
    ensures { result.now ≡ without_folder name.now }
{
    let mut start = name.len();
    while start > 0 {
        if ends_folder(name[start - 1]) {
            return &name[start..];
        }
        start -= 1;
    }
    name
}

/// A name of a file without its extension.
fn without_extension(name: &[u8]) -> &[u8]
    ensures { result.now ≡ without_extension name.now }
{
    let mut end = name.len();
    while end > 0 {
        end -= 1;
        if name[end] == b'.' {
            return &name[..end];
        }
    }
    name
}

/// The name in a record that heads a module. None where the record is another.
#[tactic(auto, unfolding(omf_library::specs::Records::header_name))]
fn header_name<'a>(frame: &Frame<'a>) -> Option<&'a [u8]>
    ensures { bytes_said result ≡ records.header_name (plain_frame frame.now) }
{
    if frame.kind != 0x80 && frame.kind != 0x82 {
        return None;
    }
    let (name, _) = take_name(frame.body)?;
    Some(name)
}

/// The name of a module: that of its first record.
fn header_of(module: &[u8]) -> &[u8]
    ensures { result.now ≡ spec.header_of module.now }
{
    let Ok(frame) = record_at(module, 0) else {
        return &[];
    };
    match header_name(&frame) {
        Some(name) => name,
        None => &[],
    }
}

/// The name of the module whose records begin the bytes, without folder and extension; empty where it has none.
#[tactic(auto, unfolding(crate::specs::Modules::module_name))]
pub fn module_name(module: &[u8]) -> &[u8]
    ensures { result.now ≡ spec.module_name module.now }
{
    without_extension(without_folder(header_of(module)))
}

/// The name by which a dictionary has a module itself; empty where it has none.
fn own_name<A: Allocator + Copy>(alloc: A, module: &[u8]) -> Result<Vec<u8, A>, AllocError>
    ensures { IfOk result (λ v. own_names v.items ≡ spec.marked (spec.module_name module.now)) }
{
    let stem = module_name(module);
    let mut name = Vec::from_slice(alloc, stem)?;
    if !stem.is_empty() {
        name.push(MARK)?;
    }
    Ok(name)
}

/// Whether one of the names is longer than a dictionary has room for.
fn has_long(names: &[&[u8]]) -> bool
    ensures { result ≡ list_any is_long (texts names.now) }
{
    for name in names {
        if name.len() > LONGEST {
            return true;
        }
    }
    false
}

/// The same of a name that may be empty, and others.
fn has_long_name(own: &[u8], offered: &[&[u8]]) -> bool
    ensures { result ≡ list_any is_long (own_names own.now ++ texts offered.now) }
{
    own.len() > LONGEST || has_long(offered)
}

/// A module that can be a member of a library.
#[derive(Drop)]
pub(crate) struct Module<'a, A: Allocator + Copy> {
    /// Its bytes, up to the record that ends it.
    pub bytes: &'a [u8],
    /// The name by which a dictionary has it; empty where it has none.
    pub own: Vec<u8, A>,
    /// What it says of names.
    pub says: ModuleNames<'a, A>,
    ghost named: { own_names own.items ++ texts says.offered.items ≡ names_of bytes.now },
    ghost short: { list_any is_long (names_of bytes.now) ≡ false },
}

impl<'a, A: Allocator + Copy> Module<'a, A> {
    /// The module at the front of the bytes of a member.
    pub(crate) fn new(
        alloc: A,
        member: usize,
        bytes: &'a [u8],
    ) -> Result<Module<'a, A>, LibrarianFault>
        ensures { Answers (λ m. m.bytes.now) result
            (records.result_and_then (spec.checked member) (spec.module_of member bytes.now)) }
    {
        let bytes = module_of(member, bytes)?;
        let own = own_name(alloc, bytes)?;
        let says = module_names(alloc, bytes)?;
        if has_long_name(&own, &says.offered) {
            return Err(LibrarianFault::LongName { member });
        }
        Ok(Module { bytes, own, says })
    }
}
