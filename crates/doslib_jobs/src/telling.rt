//! What is told of files, one after the other.

ghost use Rattle.std.specs.Prelude.{◌≡◌, IfOk, OnOk};
ghost use Rattle.omf_files.specs.Files.{sink_bytes, sink_failures};
ghost use Rattle.doslib_jobs.specs.Jobs.{Lists, Ran, Shows};
ghost use Rattle.doslib_jobs.specs.inside.Running.{Adds, outcome_said, tells_of};
ghost use Rattle.doslib_words.specs.Words.{texts};

use crate::fault::Stopped;
use crate::outcome::Outcome;
use doslib_show::show;
use doslib_text::{Whole, push_faults, push_list};
use doslink_files::{ReadFault, read_file};
use omf_files::{BufferedSink, World};
use omf_frame::put_all;
use std::alloc::{AllocError, Allocator};
use std::io::Write;

/// What is told of each file. Each word has its case in `tell_bytes`.
#[derive(Clone, Copy)]
pub(crate) enum Telling {
    /// Its members, with their names: `list`.
    Members,
    /// Its members, with their records: `show`.
    Records,
}

/// What is told of a file.
#[derive(Drop)]
struct Told<A: Allocator> {
    /// What is printed of it.
    text: Vec<u8, A>,
    /// A line for each of its faults.
    faults: Vec<u8, A>,
}

/// What `list` tells of the file with these bytes at a path.
fn tell_members<A: Allocator + Copy>(
    alloc: A,
    path: &str,
    bytes: Vec<u8, A>,
) -> Result<Told<A>, AllocError>
    ensures { IfOk result (λ t. Lists path.now bytes.items t.text.items t.faults.items) }
{
    let whole = Whole::of(alloc, bytes)?;
    let members = whole.members(alloc)?;
    let mut text = Vec::new(alloc);
    let mut faults = Vec::new(alloc);
    push_list(alloc, &mut text, path, whole.kind, &members)?;
    push_faults(&mut faults, path, &members, whole.fault)?;
    Ok(Told { text, faults })
}

/// What `show` tells of the file with these bytes at a path.
fn tell_records<A: Allocator + Copy>(
    alloc: A,
    path: &str,
    bytes: Vec<u8, A>,
) -> Result<Told<A>, AllocError>
    ensures { IfOk result (λ t. Shows path.now bytes.items t.text.items t.faults.items) }
{
    let whole = Whole::of(alloc, bytes)?;
    let members = whole.members(alloc)?;
    let shown = show(alloc, path, whole.kind, &members)?;
    let mut faults = shown.faults;
    push_faults(&mut faults, path, &members, whole.fault)?;
    Ok(Told {
        text: shown.text,
        faults,
    })
}

/// What is told of the file with these bytes at a path.
fn tell_bytes<A: Allocator + Copy>(
    alloc: A,
    telling: Telling,
    path: &str,
    bytes: Vec<u8, A>,
) -> Result<Told<A>, AllocError>
    ensures { IfOk result (λ t. tells_of telling path.now bytes.items t.text.items t.faults.items) }
{
    match telling {
        Telling::Members => tell_members(alloc, path, bytes),
        Telling::Records => tell_records(alloc, path, bytes),
    }
}

/// Writes what is told of the file at a path to standard output. A file that can't be read is a fault.
fn tell_file<W: World + Copy, O: Write + Drop, A: Allocator + Copy>(
    world: W,
    telling: Telling,
    path: &str,
    output: &mut BufferedSink<O, A>,
    outcome: &mut Outcome<A>,
) -> Result<(), Stopped>
    requires { sink_failures output.old ≡ 0 }
    ensures working { OnOk result (sink_failures output.new ≡ 0) }
    ensures adds { OnOk result (Adds (tells_of telling) (W.bytes world) path.now (sink_bytes O.contents output.old)
        (sink_bytes O.contents output.new) outcome.old outcome.new) }
{
    let alloc = *outcome.lines.allocator();
    match read_file(alloc, &world, path) {
        Ok(file) => {
            let told = tell_bytes(alloc, telling, path, file.bytes)?;
            put_all(output, &told.text)?;
            Ok(outcome.add_faults(&told.faults)?)
        }
        Err(ReadFault::Memory) => Err(Stopped::Memory),
        Err(fault) => Ok(outcome.add_unread(path, fault)?),
    }
}

/// Writes what is told of files to standard output, in their order.
pub(crate) fn tell_files<W: World + Copy, O: Write + Drop, A: Allocator + Copy>(
    alloc: A,
    world: W,
    telling: Telling,
    files: &[&str],
    output: &mut BufferedSink<O, A>,
) -> Result<Outcome<A>, Stopped>
    requires { sink_failures output.old ≡ 0 }
    ensures { IfOk (outcome_said result) (λ o. Ran (tells_of telling) (W.bytes world) (texts files.now)
        (sink_bytes O.contents output.old) (sink_bytes O.contents output.new) o.0 o.1) }
{
    let mut outcome = Outcome::new(alloc);
    for path in files {
        tell_file(world, telling, path, output, &mut outcome)?;
    }
    output.flush()?;
    Ok(outcome)
}
