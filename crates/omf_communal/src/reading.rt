//! The communal variables that a module declares, by its records' frames alone.

ghost use Rattle.std.specs.Prelude.{◌≡◌, Ok, map, MatchResult};
ghost use Rattle.omf_frame.specs.Lending.{plain_frame};
ghost use Rattle.omf_library.specs.Members.{joined};
ghost use Rattle.omf_library.specs.Records.{module_records};
ghost use Rattle.omf_communal.specs.Reading as reading;
ghost use Rattle.omf_communal.specs.Reading.{plain_communal, entries_at, communals_in, communals_of, AreTold, IsFault};

use crate::declarations::{Communal, Scope};
use crate::entries::take_entry;
use crate::fault::CommunalFault;
use omf_frame::Frame;
use omf_library::module_frames;
use std::alloc::Allocator;

/// The type of the records that declare communal variables of a scope.
fn record_type(scope: Scope) -> u8
    ensures { result ≡ reading.record_type scope }
{
    match scope {
        Scope::Program => 0xB0,
        Scope::Module => 0xB8,
    }
}

/// Appends the variables that a record with this body, which begins at the place, declares.
fn push_entries<'a, A: Allocator + Copy>(
    place: u64,
    body: &'a [u8],
    told: &mut Vec<Communal<'a>, A>,
) -> Result<(), CommunalFault>
    ensures { MatchResult result
        (λ _. joined (map plain_communal told.old.items) (entries_at place body.now)
        ≡ Ok (map plain_communal told.new.items))
        (λ e. IsFault e (entries_at place body.now)) }
{
    let mut rest = body;
    while !rest.is_empty() {
        let entry = match take_entry(rest) {
            Ok(entry) => entry,
            Err(fault) => return Err(CommunalFault::Malformed { place, fault }),
        };
        told.push(Communal {
            place,
            name: entry.name,
            extent: entry.extent,
        })?;
        rest = entry.rest;
    }
    Ok(())
}

/// Appends the variables of a scope that a record declares.
fn push_communals<'a, A: Allocator + Copy>(
    scope: Scope,
    frame: &Frame<'a>,
    told: &mut Vec<Communal<'a>, A>,
) -> Result<(), CommunalFault>
    ensures { MatchResult result
        (λ _. joined (map plain_communal told.old.items) (communals_in scope (plain_frame frame.now))
        ≡ Ok (map plain_communal told.new.items))
        (λ e. IsFault e (communals_in scope (plain_frame frame.now))) }
{
    if frame.kind == record_type(scope) {
        push_entries(frame.place, frame.body, told)
    } else {
        Ok(())
    }
}

/// The communal variables of a scope that the module declares whose records begin the bytes, in their order, up to the
/// first record that ends a module or before the first that is no record; else the first fault.
pub fn communals<'a, A: Allocator + Copy>(
    alloc: A,
    bytes: &'a [u8],
    scope: Scope,
) -> Result<Vec<Communal<'a>, A>, CommunalFault>
    ensures { MatchResult result (λ v. AreTold v.items (communals_of scope (module_records bytes.now 0)))
        (λ e. IsFault e (communals_of scope (module_records bytes.now 0))) }
{
    let frames = module_frames(alloc, bytes)?;
    let mut told = Vec::new(alloc);
    for frame in &frames {
        push_communals(scope, frame, &mut told)?;
    }
    Ok(told)
}
