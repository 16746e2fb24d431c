//! The COMDAT records of a module, by its records' frames.

ghost use Rattle.std.specs.Prelude.{◌≡◌, [], map, IfOk, OnOk};
ghost use Rattle.std.specs.Option.{option_map};
ghost use Rattle.omf_frame.specs.Lending.{plain_frame};
ghost use Rattle.omf_extended.specs.View.{extended_view};
ghost use Rattle.omf_library.specs.Names.{texts};
ghost use Rattle.omf_comdat.specs.inside.Found as spec;
ghost use Rattle.omf_comdat.specs.Comdats.{AreComdats, IsIn, record_said, records_said};

use omf_extended::{Comdat, Extended, ExtendedFault, parse_extended};
use omf_frame::Frame;
use omf_library::{listed_name, push_listed};
use std::alloc::{AllocError, Allocator};

/// A COMDAT record (TIS OMF 1.1, "Initialized Communal Data Record").
#[derive(Clone, Copy, Debug)]
pub struct ComdatRecord<'a> {
    /// The name of its COMDAT, which its name index says.
    pub name: &'a [u8],
    /// What it says before its data.
    pub says: Comdat,
    /// Its data; where they are iterated, the blocks of these.
    pub bytes: &'a [u8],
}

/// The COMDAT record that says this, by the names listed so far. None where its name isn't listed.
fn named<'a>(listed: &[&'a [u8]], says: Comdat, bytes: &'a [u8]) -> Option<ComdatRecord<'a>>
    ensures { option_map record_said result ≡ spec.named (texts listed.now) says bytes.now }
{
    let name = listed_name(listed, says.name)?;
    Some(ComdatRecord { name, says, bytes })
}

/// The COMDAT record that a body says, by the names listed so far. None where it says another record, or where the name
/// isn't listed.
#[tactic(auto, unfolding(omf_extended::specs::View::extended_view))]
fn found<'a, A: Allocator + Copy>(
    listed: &[&'a [u8]],
    said: &Extended<'a, A>,
) -> Option<ComdatRecord<'a>>
    ensures { option_map record_said result ≡ spec.found (texts listed.now) (extended_view said.now) }
{
    match said {
        Extended::Comdat { comdat, bytes, .. } => named(listed, *comdat, bytes),
        _ => None,
    }
}

/// The COMDAT record that a frame is, by the names listed so far. None where it is another one, where its body isn't
/// one, or where its name isn't listed.
fn comdat_in<'a, A: Allocator + Copy + 'a>(
    alloc: A,
    frame: &Frame<'a>,
    listed: &[&'a [u8]],
) -> Result<Option<ComdatRecord<'a>>, AllocError>
    ensures { IfOk result (λ here. IsIn (texts listed.now) (plain_frame frame.now) (option_map record_said here)) }
{
    if frame.kind != 0xC2 && frame.kind != 0xC3 {
        return Ok(None);
    }
    match parse_extended(alloc, frame) {
        Ok(said) => Ok(found(listed, &said)),
        Err(ExtendedFault::Memory) => Err(AllocError),
        Err(_) => Ok(None),
    }
}

/// Appends the COMDAT record that a frame is.
fn push_comdat<'a, A: Allocator + Copy + 'a>(
    alloc: A,
    frame: &Frame<'a>,
    listed: &[&'a [u8]],
    records: &mut Vec<ComdatRecord<'a>, A>,
) -> Result<(), AllocError>
    ensures { OnOk result (spec.IsPushed (texts listed.now) (plain_frame frame.now) (records_said records.old.items)
        (records_said records.new.items)) }
{
    if let Some(found) = comdat_in(alloc, frame, listed)? {
        records.push(found)?;
    }
    Ok(())
}

/// The COMDAT records of the module that these frames are, in their order, each with the name that the LNAMES and
/// LLNAMES before it list at its name index. A frame whose body isn't a COMDAT's is none, and so is one whose name isn't
/// listed. An error says that there was no memory (TIS OMF 1.1, "Initialized Communal Data Record").
pub fn comdat_records<'a, A: Allocator + Copy + 'a>(
    alloc: A,
    frames: &[Frame<'a>],
) -> Result<Vec<ComdatRecord<'a>, A>, AllocError>
    ensures { IfOk result (λ v. AreComdats [] (map plain_frame frames.now) (records_said v.items)) }
{
    let mut listed = Vec::new(alloc);
    let mut records = Vec::new(alloc);
    for frame in frames {
        push_comdat(alloc, frame, &listed, &mut records)?;
        push_listed(frame, &mut listed)?;
    }
    Ok(records)
}
