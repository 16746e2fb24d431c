//! The entries of which records with names are lists.

ghost use Rattle.std.specs.Prelude.{◌≡◌, ◌<◌, ◌≤◌, ◌++◌, length, IfSome, OnOk};
ghost use Rattle.std.specs.List.{filter_map};
ghost use Rattle.omf_library.specs.Entries.{entries, communal_front, behind_base, listed_name};
ghost use Rattle.omf_library.specs.Entries.{behind_allocation, behind_bytes, behind_length, behind_lengths};
ghost use Rattle.omf_library.specs.Entries.{behind_lengths_of, comdat_index, comdat_name, data_type_front};
ghost use Rattle.omf_library.specs.Names.{texts};
ghost use Rattle.omf_library.specs.Said.{bytes_said, name_said, number_said};
ghost use Rattle.omf_library.specs.inside.Views.{entry_front};

use crate::fields::{take_bytes, take_index, take_name};
use std::alloc::{AllocError, Allocator};

/// An entry with a name, and which name of it is meant.
#[derive(Clone, Copy)]
pub(crate) enum Entry {
    /// Of LNAMES and LLNAMES: a name.
    Listed,
    /// Of EXTDEF: a name and a type index.
    External,
    /// Of COMDEF: a name, a type index, and a data type with its lengths.
    Variable,
    /// Of PUBDEF: a name, an offset of so many bytes, and a type index.
    Public { offset: usize },
    /// Of ALIAS: a name, and the name that it stands for. The first is meant.
    Alias,
}

/// The bytes behind so many. None where there are fewer.
fn behind_bytes(count: usize, bytes: &[u8]) -> Option<&[u8]>
    ensures said { bytes_said result ≡ behind_bytes count bytes.now }
    ensures no_longer { IfSome result (λ rest. length rest.now ≤ length bytes.now) }
{
    let (_, rest) = take_bytes(bytes, count)?;
    Some(rest)
}

/// The bytes behind the length of a communal variable. None where none is at the front.
#[tactic(auto, unfolding(crate::specs::Entries::behind_length))]
pub fn behind_length(bytes: &[u8]) -> Option<&[u8]>
    ensures said { bytes_said result ≡ behind_length bytes.now }
    ensures no_longer { IfSome result (λ rest. length rest.now ≤ length bytes.now) }
{
    let [first, rest @ ..] = bytes else {
        return None;
    };
    match *first {
        0..=0x80 => Some(rest),
        0x81 => behind_bytes(2, rest),
        0x84 => behind_bytes(3, rest),
        0x88 => behind_bytes(4, rest),
        _ => None,
    }
}

/// The bytes behind two lengths. None where there aren't two.
pub fn behind_lengths(bytes: &[u8]) -> Option<&[u8]>
    ensures said { bytes_said result ≡ behind_lengths bytes.now }
    ensures no_longer { IfSome result (λ rest. length rest.now ≤ length bytes.now) }
{
    behind_length(behind_length(bytes)?)
}

/// The bytes behind the lengths of a data type, which is near (62H) or far (61H). None where it is another one.
fn behind_lengths_of(data_type: u8, bytes: &[u8]) -> Option<&[u8]>
    ensures said { bytes_said result ≡ behind_lengths_of data_type bytes.now }
    ensures no_longer { IfSome result (λ rest. length rest.now ≤ length bytes.now) }
{
    match data_type {
        0x62 => behind_length(bytes),
        0x61 => behind_lengths(bytes),
        _ => None,
    }
}

/// A data type, behind which its lengths stand, and the bytes behind these. None where it is neither near nor far.
#[tactic(auto, unfolding(crate::specs::Entries::data_type_front))]
fn take_data_type(bytes: &[u8]) -> Option<(u8, &[u8])>
    ensures said { number_said result ≡ data_type_front bytes.now }
    ensures shorter { IfSome result (λ x. length x.1.now < length bytes.now) }
{
    let [data_type, rest @ ..] = bytes else {
        return None;
    };
    let after = behind_lengths_of(*data_type, rest)?;
    Some((*data_type, after))
}

/// The name of the entry at the front of the bytes, and the bytes behind it. None where the bytes end inside it.
pub(crate) fn take_entry<'a>(entry: Entry, bytes: &'a [u8]) -> Option<(&'a [u8], &'a [u8])>
    ensures said { name_said result ≡ entry_front entry bytes.now }
    ensures shorter { IfSome result (λ x. length x.1.now < length bytes.now) }
{
    let (name, rest) = take_name(bytes)?;
    match entry {
        Entry::Listed => Some((name, rest)),
        Entry::External => {
            let (_, rest) = take_index(rest)?;
            Some((name, rest))
        }
        Entry::Variable => {
            let (_, rest) = take_index(rest)?;
            let (_, rest) = take_data_type(rest)?;
            Some((name, rest))
        }
        Entry::Public { offset } => {
            let (_, rest) = take_bytes(rest, offset)?;
            let (_, rest) = take_index(rest)?;
            Some((name, rest))
        }
        Entry::Alias => {
            let (_, rest) = take_name(rest)?;
            Some((name, rest))
        }
    }
}

/// Appends the names of the entries at the front of the bytes, as far as they hold whole ones.
pub(crate) fn push_names<'a, A: Allocator + Copy>(
    entry: Entry,
    bytes: &'a [u8],
    names: &mut Vec<&'a [u8], A>,
) -> Result<(), AllocError>
    ensures { OnOk result (texts names.new.items ≡ texts names.old.items ++ entries (entry_front entry) bytes.now) }
{
    let mut rest = bytes;
    while let Some((name, after)) = take_entry(entry, rest) {
        names.push(name)?;
        rest = after;
    }
    Ok(())
}

/// The name with this index in a list of names, whose first has index 1. None where there is none.
pub fn listed_name<'a>(listed: &[&'a [u8]], index: u16) -> Option<&'a [u8]>
    ensures { bytes_said result ≡ listed_name (texts listed.now) index }
{
    if index == 0 {
        return None;
    }
    listed.get(usize::from(index) - 1).copied()
}

/// Appends the names of CEXTDEF's entries, each the index of a name in the list and a type index, as far as the bytes
/// hold whole ones.
pub(crate) fn push_communal<'a, A: Allocator + Copy>(
    listed: &[&'a [u8]],
    bytes: &[u8],
    names: &mut Vec<&'a [u8], A>,
) -> Result<(), AllocError>
    ensures { OnOk result (texts names.new.items
        ≡ texts names.old.items ++ filter_map (listed_name (texts listed.now)) (entries communal_front bytes.now)) }
{
    let mut rest = bytes;
    while let Some((index, after)) = take_communal(rest) {
        if let Some(name) = listed_name(listed, index) {
            names.push(name)?;
        }
        rest = after;
    }
    Ok(())
}

/// The index of a name, behind which a type index stands, and the bytes behind both.
pub(crate) fn take_communal(bytes: &[u8]) -> Option<(u16, &[u8])>
    ensures said { number_said result ≡ communal_front bytes.now }
    ensures shorter { IfSome result (λ x. length x.1.now < length bytes.now) }
{
    let (index, rest) = take_index(bytes)?;
    let (_, rest) = take_index(rest)?;
    Some((index, rest))
}

/// The bytes behind the base of public names: a group index, a segment index, and a frame word where that is 0.
#[tactic(auto, unfolding(crate::specs::Entries::behind_base))]
pub(crate) fn behind_base(bytes: &[u8]) -> Option<&[u8]>
    ensures { bytes_said result ≡ behind_base bytes.now }
{
    let (_, rest) = take_index(bytes)?;
    let (segment, rest) = take_index(rest)?;
    if segment == 0 {
        let (_, rest) = take_bytes(rest, 2)?;
        Some(rest)
    } else {
        Some(rest)
    }
}

/// The index of a COMDAT's name, whose offset has so many bytes. None where it is local, or cut off.
#[tactic(auto, unfolding(crate::specs::Entries::comdat_name))]
pub(crate) fn comdat_name(offset: usize, body: &[u8]) -> Option<u16>
    ensures { result ≡ comdat_name offset body.now }
{
    let [flags, attributes, _, rest @ ..] = body else {
        return None;
    };
    if flags & 0x04 != 0 {
        return None;
    }
    comdat_index(offset, *attributes, rest)
}

/// The index of a COMDAT's name, behind its flags, attributes and alignment.
fn comdat_index(offset: usize, attributes: u8, bytes: &[u8]) -> Option<u16>
    ensures { result ≡ comdat_index offset attributes bytes.now }
{
    let (_, rest) = take_bytes(bytes, offset)?;
    let (_, rest) = take_index(rest)?;
    let rest = behind_allocation(attributes, rest)?;
    let (name, _) = take_index(rest)?;
    Some(name)
}

/// The bytes behind the base of a COMDAT, which has one where its attributes say that its allocation is explicit.
fn behind_allocation(attributes: u8, bytes: &[u8]) -> Option<&[u8]>
    ensures { bytes_said result ≡ behind_allocation attributes bytes.now }
{
    if attributes & 0x0F == 0 {
        behind_base(bytes)
    } else {
        Some(bytes)
    }
}
