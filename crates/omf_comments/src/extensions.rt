//! Comments of class A0H: extensions of the format.

ghost use Rattle.std.specs.Prelude.{◌≡◌, ◌<◌, ◌≤◌, ◌⊎◌, ◌∷◌, ℕ, List, IfOk};
ghost use Rattle.omf_comments.specs.inside.Comments.{FindsExtension};

use crate::finding::{find_text, split};
use omf_codec::primitives::{Byte, Name, Rest, Word};
use std::alloc::{AllocError, Allocator};

/// By what a module that is loaded with the program is asked for an entry.
#[derive(Clone, Copy, Debug)]
pub enum ImportEntry<'a> {
    /// A name; where it is empty, that within this module.
    Name(&'a [u8]),
    Ordinal(u16),
}

/// An extension of the format.
#[derive(Clone, Copy, Debug)]
pub enum Extension<'a> {
    /// 01 IMPDEF, a name whose meaning another module has, which is loaded with the program.
    Import {
        internal: &'a [u8],
        module: &'a [u8],
        entry: ImportEntry<'a>,
    },
    /// 02 EXPDEF, a name that is offered to others. An empty internal name is the exported one.
    Export {
        exported: &'a [u8],
        internal: &'a [u8],
        ordinal: Option<u16>,
        resident: bool,
        no_data: bool,
        /// How many words its parameters have, at most 31.
        parameters: u8,
    },
    /// 03 INCDEF, what a compiler of changed parts adds to the indexes of externals and to line numbers, as 16 bits
    /// with a sign, and padding.
    Increment {
        externals: u16,
        lines: u16,
        padding: &'a [u8],
    },
    /// 04, the library is one for protected memory.
    ProtectedLibrary,
    /// 05 LNKDIR, what the linker is to do: bit 0 a new form of the program's file, bit 1 no public names in the debug
    /// information, bit 2 a run of the utility for p-code; and versions.
    Directive {
        flags: u8,
        pseudo_code: u8,
        debug: u8,
    },
    /// 06, the module's numbers have the high byte first.
    BigEndian,
    /// 07, the types of the module are precompiled.
    Precompiled,
}

/// What an extension's bytes say.
type Found<'a> = Result<Option<Extension<'a>>, AllocError>;

/// An import by the name of an entry, behind the flag 0.
#[tactic(auto, using(crate::proofs::Told::none_by_name))]
fn import_by_name<'a, A: Allocator + Copy>(alloc: A, bytes: &'a [u8]) -> Found<'a>
    ensures { IfOk result (FindsExtension 1 (0 ∷ bytes.now)) }
{
    match find_text::<A, (Name<'a>, (Name<'a>, Name<'a>))>(alloc, bytes)? {
        Some((internal, (module, name))) => Ok(Some(Extension::Import {
            internal,
            module,
            entry: ImportEntry::Name(name),
        })),
        None => Ok(None),
    }
}

/// An import by the ordinal of an entry, behind the flag 1.
#[tactic(auto, using(crate::proofs::Told::none_by_ordinal))]
fn import_by_ordinal<'a, A: Allocator + Copy>(alloc: A, bytes: &'a [u8]) -> Found<'a>
    ensures { IfOk result (FindsExtension 1 (1 ∷ bytes.now)) }
{
    match find_text::<A, (Name<'a>, (Name<'a>, Word))>(alloc, bytes)? {
        Some((internal, (module, ordinal))) => Ok(Some(Extension::Import {
            internal,
            module,
            entry: ImportEntry::Ordinal(ordinal),
        })),
        None => Ok(None),
    }
}

/// A name whose meaning another module has, behind the flag that says whether its entry is an ordinal.
#[tactic(auto, using(crate::proofs::Told::no_flag))]
fn import<'a, A: Allocator + Copy>(alloc: A, flag: u8, bytes: &'a [u8]) -> Found<'a>
    ensures { IfOk result (FindsExtension 1 (flag ∷ bytes.now)) }
{
    match flag {
        0 => import_by_name(alloc, bytes),
        1 => import_by_ordinal(alloc, bytes),
        _ => Ok(None),
    }
}

/// An export with an ordinal, behind its flags, of which bit 7 is set.
#[tactic(auto, using(crate::proofs::Told::export_by_ordinal, crate::proofs::Told::none_exported_by_ordinal))]
fn export_by_ordinal<'a, A: Allocator + Copy>(alloc: A, flags: u8, bytes: &'a [u8]) -> Found<'a>
    requires { 128 ≤ flags }
    ensures { IfOk result (FindsExtension 2 (flags ∷ bytes.now)) }
{
    match find_text::<A, (Name<'a>, (Name<'a>, Word))>(alloc, bytes)? {
        Some((exported, (internal, ordinal))) => Ok(Some(Extension::Export {
            exported,
            internal,
            ordinal: Some(ordinal),
            resident: flags / 64 % 2 == 1,
            no_data: flags / 32 % 2 == 1,
            parameters: flags % 32,
        })),
        None => Ok(None),
    }
}

/// An export without an ordinal, behind its flags, of which bit 7 is clear.
#[tactic(auto, using(crate::proofs::Told::export_by_name, crate::proofs::Told::none_exported_by_name))]
fn export_by_name<'a, A: Allocator + Copy>(alloc: A, flags: u8, bytes: &'a [u8]) -> Found<'a>
    requires { flags < 128 }
    ensures { IfOk result (FindsExtension 2 (flags ∷ bytes.now)) }
{
    match find_text::<A, (Name<'a>, Name<'a>)>(alloc, bytes)? {
        Some((exported, internal)) => Ok(Some(Extension::Export {
            exported,
            internal,
            ordinal: None,
            resident: flags / 64 % 2 == 1,
            no_data: flags / 32 % 2 == 1,
            parameters: flags % 32,
        })),
        None => Ok(None),
    }
}

/// A name that is offered to others, behind its flags.
fn export<'a, A: Allocator + Copy>(alloc: A, flags: u8, bytes: &'a [u8]) -> Found<'a>
    ensures { IfOk result (FindsExtension 2 (flags ∷ bytes.now)) }
{
    if flags < 128 {
        export_by_name(alloc, flags, bytes)
    } else {
        export_by_ordinal(alloc, flags, bytes)
    }
}

/// A name that another module has, or one that is offered.
#[tactic(auto, using(crate::proofs::Told::none_empty, crate::proofs::Told::none_empty_2))]
fn offered<'a, A: Allocator + Copy>(alloc: A, number: u8, bytes: &'a [u8]) -> Found<'a>
    requires { (number ≡ 1) ⊎ (number ≡ 2) }
    ensures { IfOk result (FindsExtension number bytes.now) }
{
    match split(bytes) {
        Some((flags, rest)) if number == 1 => import(alloc, flags, rest),
        Some((flags, rest)) => export(alloc, flags, rest),
        None => Ok(None),
    }
}

/// What a compiler of changed parts adds.
#[tactic(auto, using(crate::proofs::Told::none_increment))]
fn increment<'a, A: Allocator + Copy>(alloc: A, bytes: &'a [u8]) -> Found<'a>
    ensures { IfOk result (FindsExtension 3 bytes.now) }
{
    match find_text::<A, (Word, (Word, Rest<'a>))>(alloc, bytes)? {
        Some((externals, (lines, padding))) => Ok(Some(Extension::Increment {
            externals,
            lines,
            padding,
        })),
        None => Ok(None),
    }
}

/// What the linker is to do.
#[tactic(auto, using(crate::proofs::Told::none_directive))]
fn directive<'a, A: Allocator + Copy>(alloc: A, bytes: &'a [u8]) -> Found<'a>
    ensures { IfOk result (FindsExtension 5 bytes.now) }
{
    match find_text::<A, (Byte, (Byte, Byte))>(alloc, bytes)? {
        Some((flags, (pseudo_code, debug))) => Ok(Some(Extension::Directive {
            flags,
            pseudo_code,
            debug,
        })),
        None => Ok(None),
    }
}

/// An extension that says all by its number.
fn bare(number: u8, bytes: &[u8]) -> Option<Extension<'_>>
    requires { (number ≡ 4) ⊎ ((number ≡ 6) ⊎ (number ≡ 7)) }
    ensures { FindsExtension number bytes.now result }
{
    match (number, bytes) {
        (4, []) => Some(Extension::ProtectedLibrary),
        (6, []) => Some(Extension::BigEndian),
        (7, []) => Some(Extension::Precompiled),
        _ => None,
    }
}

/// The extension of this number that has these bytes.
pub(crate) fn extension_of<'a, A: Allocator + Copy>(
    alloc: A,
    number: u8,
    bytes: &'a [u8],
) -> Found<'a>
    ensures { IfOk result (FindsExtension number bytes.now) }
{
    match number {
        1 | 2 => offered(alloc, number, bytes),
        3 => increment(alloc, bytes),
        4 | 6 | 7 => Ok(bare(number, bytes)),
        5 => directive(alloc, bytes),
        _ => Ok(None),
    }
}
