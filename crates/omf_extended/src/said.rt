//! What a record says. Names and data are slices of the record's body.

use crate::aliases::Alias;
use crate::comdats::Comdat;
use crate::patches::{Patch, PatchLocation};
use crate::symbols::SymbolLine;
use omf_wide::Communal;
use std::alloc::{Allocator, Global};

/// What a record says, free of how its body spells it. One that is wide has numbers of four bytes where others have
/// two.
#[derive(Drop)]
#[derive_where(Debug)]
pub enum Extended<'a, A: Allocator + Copy = Global> {
    /// B0H, communal variables; B8H, those that are local to the module. Behind one of another data type than 61H and
    /// 62H it isn't known what stands: all bytes to the end. There are none, where the last has one of these.
    Comdef {
        local: bool,
        communals: Vec<Communal<'a>, A>,
        unknown: &'a [u8],
    },
    /// C6H, names that stand for others.
    Alias {
        aliases: Vec<Alias<'a>, A>,
    },
    /// C3H, and C2H where it isn't wide: data of which there may be some of one name. They are blocks as those of
    /// LIDATA where it is iterated.
    Comdat {
        wide: bool,
        comdat: Comdat,
        bytes: &'a [u8],
    },
    /// C5H, and C4H where it isn't wide: the line numbers of a COMDAT, by the index of its name.
    Linsym {
        wide: bool,
        continuation: bool,
        name: u16,
        lines: Vec<SymbolLine, A>,
    },
    /// B3H, and B2H where it isn't wide: what is added to places of a segment.
    Bakpat {
        wide: bool,
        segment: u16,
        location: PatchLocation,
        patches: Vec<Patch, A>,
    },
    /// C9H, and C8H where it isn't wide: what is added to places of a COMDAT, by the index of its name.
    Nbkpat {
        wide: bool,
        location: PatchLocation,
        name: u16,
        patches: Vec<Patch, A>,
    },
    /// A3H, repeated data of a segment from an offset on: whole blocks, whose repeat counts have four bytes.
    Lidata {
        segment: u16,
        offset: u32,
        content: &'a [u8],
    },
    /// CCH, the version of the format that the module follows, as a text.
    Vernum {
        text: &'a [u8],
    },
    /// CEH, what a vendor's translator says in a way of its own, behind the vendor's number.
    Vendext {
        vendor: u16,
        bytes: &'a [u8],
    },
}
