//! The fates of the COMDAT records of modules.

ghost use Rattle.std.specs.Prelude.{◌≡◌, Ok, IfOk, MatchResult};
ghost use Rattle.omf_comdat.specs.Comdats.{record_said, records_said};
ghost use Rattle.omf_comdat.specs.Fates as spec;
ghost use Rattle.omf_comdat.specs.Told.{AreFates, IsClash, modules_said};
ghost use Rattle.omf_comdat.specs.inside.Held.{AreKeyed, fate_said, firsts_said, going_said, standing_said};

use crate::fate::ComdatFate;
use crate::fault::ComdatFault;
use crate::meeting::{Firsts, Shared, meet};
use crate::records::ComdatRecord;
use crate::wholes::{size, whole};
use indexmap::IndexMap;
use omf_place::Names;
use std::alloc::Allocator;

/// The COMDAT that records may go on with: its name, and whether it is taken.
#[derive(Clone, Copy)]
struct Going<'a> {
    name: &'a [u8],
    taken: bool,
}

/// What stands behind some records: the first COMDAT of each name, and what the records that follow may go on with.
#[derive(Drop)]
struct Standing<'m, 'a, A: Allocator + Copy> {
    firsts: Firsts<'m, 'a, A>,
    going: Option<Going<'a>>,
}

/// A fate, and what the records behind may go on with.
type Fated<'a> = (ComdatFate, Option<Going<'a>>);

/// The fate of a record that says that it goes on.
fn continued<'a>(going: Option<Going<'a>>, name: &'a [u8]) -> Fated<'a>
    ensures { fate_said result ≡ spec.continued (going_said going.entry) name.now }
{
    match going {
        Some(with) if with.name == name => {
            let fate = if with.taken {
                ComdatFate::Continues
            } else {
                ComdatFate::LeftOut
            };
            (fate, going)
        }
        _ => (ComdatFate::Stray, None),
    }
}

/// The fate of a record that opens a COMDAT of this length.
fn opened<'a>(name: &'a [u8], length: u64, taken: bool) -> Fated<'a>
    ensures { fate_said result ≡ spec.opened name.now length taken }
{
    let fate = if taken {
        ComdatFate::Opens { length }
    } else {
        ComdatFate::LeftOut
    };
    (fate, Some(Going { name, taken }))
}

/// Whether the COMDAT is taken that a record of the module with this index opens, and its length. The record is the
/// first of these.
fn met<'m, 'a, A: Allocator + Copy>(
    firsts: &mut Firsts<'m, 'a, A>,
    names: Names,
    index: usize,
    head: &ComdatRecord<'a>,
    from: &'m [ComdatRecord<'a>],
) -> Result<(bool, u64), ComdatFault<'a>>
    requires { AreKeyed names firsts.old.entries }
    ensures kept { MatchResult result (λ _. AreKeyed names firsts.new.entries) (λ _. Unit {0}) }
    ensures length { IfOk result (λ p. p.1 ≡ spec.size (spec.whole (records_said from.now))) }
    ensures met { MatchResult result
        (λ p. spec.met names index (firsts_said firsts.old.entries) (record_said head.now) (records_said from.now)
        ≡ Ok (record { firsts = firsts_said firsts.new.entries; taken = p.0 }))
        (λ e. IsClash e (spec.met names index (firsts_said firsts.old.entries) (record_said head.now)
        (records_said from.now))) }
{
    let records = whole(from);
    let size = size(records);
    if head.says.local {
        return Ok((true, size));
    }
    let shared = Shared {
        name: head.name,
        selection: head.says.selection,
        size,
        records,
        module: index,
    };
    let taken = meet(firsts, names, shared)?;
    Ok((taken, size))
}

/// The fate of a record of the module with this index, which is the first of these.
fn turn<'m, 'a, A: Allocator + Copy>(
    standing: &mut Standing<'m, 'a, A>,
    names: Names,
    index: usize,
    head: &ComdatRecord<'a>,
    from: &'m [ComdatRecord<'a>],
) -> Result<ComdatFate, ComdatFault<'a>>
    requires { AreKeyed names standing.old.firsts.entries }
    ensures kept { MatchResult result (λ _. AreKeyed names standing.new.firsts.entries) (λ _. Unit {0}) }
    ensures turned { MatchResult result
        (λ fate. spec.turn names index (standing_said standing.old) (record_said head.now) (records_said from.now)
        ≡ Ok (record { fate = fate; standing = standing_said standing.new }))
        (λ e. IsClash e (spec.turn names index (standing_said standing.old) (record_said head.now)
        (records_said from.now))) }
{
    if head.says.continuation {
        let (fate, going) = continued(standing.going, head.name);
        standing.going = going;
        return Ok(fate);
    }
    let (taken, length) = met(&mut standing.firsts, names, index, head, from)?;
    let (fate, going) = opened(head.name, length, taken);
    standing.going = going;
    Ok(fate)
}

/// The fates of the records of the module with this index.
fn module_fates<'m, 'a, A: Allocator + Copy>(
    alloc: A,
    standing: &mut Standing<'m, 'a, A>,
    names: Names,
    index: usize,
    records: &'m [ComdatRecord<'a>],
) -> Result<Vec<ComdatFate, A>, ComdatFault<'a>>
    requires { AreKeyed names standing.old.firsts.entries }
    ensures kept { MatchResult result (λ _. AreKeyed names standing.new.firsts.entries) (λ _. Unit {0}) }
    ensures fates { MatchResult result
        (λ v. spec.module_fates names index (firsts_said standing.old.firsts.entries) (records_said records.now)
        ≡ Ok (v.items, firsts_said standing.new.firsts.entries))
        (λ e. IsClash e (spec.module_fates names index (firsts_said standing.old.firsts.entries)
        (records_said records.now))) }
{
    let mut fates = Vec::new(alloc);
    standing.going = None;
    let mut from = records;
    while let [record, behind @ ..] = from {
        let fate = turn(standing, names, index, record, from)?;
        fates.push(fate)?;
        from = behind;
    }
    Ok(fates)
}

/// What becomes of the COMDAT records of modules: the fates of each one's, in their order. A COMDAT that isn't local is
/// taken if it is the first of its name in the order of modules and records; each later one of the name is held against
/// that one, by what both say of which is taken. `Clash` is the first of two that differ and have to be the same, and
/// `Memory` says that there was no memory (TIS OMF 1.1, "Initialized Communal Data Record").
pub fn comdat_fates<'a, A: Allocator + Copy>(
    alloc: A,
    names: Names,
    modules: &[Vec<ComdatRecord<'a>, A>],
) -> Result<Vec<Vec<ComdatFate, A>, A>, ComdatFault<'a>>
    ensures { MatchResult result (λ v. AreFates v.items (spec.fates names (modules_said modules.now)))
        (λ e. IsClash e (spec.fates names (modules_said modules.now))) }
{
    let mut standing = Standing {
        firsts: IndexMap::new(alloc),
        going: None,
    };
    let mut told = Vec::new(alloc);
    for records in modules {
        let fates = module_fates(alloc, &mut standing, names, told.len(), records)?;
        told.push(fates)?;
    }
    Ok(told)
}
