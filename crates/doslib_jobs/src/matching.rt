//! What `match` does: it tells which modules of files stand in a program, where, and what is left over.

ghost use Rattle.std.specs.Prelude.{◌≡◌, IfOk, OnOk};
ghost use Rattle.omf_files.specs.Files.{sink_bytes, sink_failures};
ghost use Rattle.doslib_jobs.specs.Matching as spec;
ghost use Rattle.doslib_jobs.specs.inside.Matching.{Added, AddsSearched, PrintsLeft};
ghost use Rattle.doslib_jobs.specs.inside.Running.{outcome_said, said};
ghost use Rattle.doslib_words.specs.Words.{texts};

use crate::fault::Stopped;
use crate::outcome::Outcome;
use crate::program::{Held, program_at};
use byte_places::{Index, Span};
use doslib_match::{Sought, Wanted, match_file};
use doslink_files::{ReadFault, read_file};
use omf_files::{BufferedSink, World};
use omf_frame::put_all;
use omf_match::push_left;
use std::alloc::Allocator;
use std::io::Write;

/// What `match` is asked for.
#[derive(Clone, Copy)]
pub(crate) struct Search<'a> {
    /// The path of the program.
    pub program: &'a str,
    /// The paths of the files whose modules are looked for.
    pub files: &'a [&'a str],
}

/// What files came to so far, and the bytes of the program's image that their modules have.
#[derive(Drop)]
pub(crate) struct Matched<A: Allocator> {
    pub outcome: Outcome<A>,
    pub spans: Vec<Span, A>,
}

/// Writes what is told of the file at a path to standard output. A file that can't be read is a fault.
fn search_file<W: World + Copy, O: Write + Drop, A: Allocator + Copy>(
    world: W,
    path: &str,
    sought: &Sought<'_, '_, A>,
    output: &mut BufferedSink<O, A>,
    matched: &mut Matched<A>,
) -> Result<(), Stopped>
    requires { sink_failures output.old ≡ 0 }
    ensures working { OnOk result (sink_failures output.new ≡ 0) }
    ensures adds { OnOk result (AddsSearched sought.now.wanted (W.bytes world) sought.now.image.now path.now
        (sink_bytes O.contents output.old) (sink_bytes O.contents output.new) matched.old matched.new) }
{
    let alloc = *matched.spans.allocator();
    match read_file(alloc, &world, path) {
        Ok(file) => {
            let told = match_file(alloc, path, file.bytes, sought)?;
            put_all(output, &told.text)?;
            matched.spans.extend_from_slice(&told.spans)?;
            Ok(matched.outcome.add_faults(&told.faults)?)
        }
        Err(ReadFault::Memory) => Err(Stopped::Memory),
        Err(fault) => Ok(matched.outcome.add_unread(path, fault)?),
    }
}

/// Writes the bytes of an image of this length that no span has to standard output.
fn print_left<O: Write + Drop, A: Allocator + Copy>(
    alloc: A,
    spans: &[Span],
    len: usize,
    output: &mut BufferedSink<O, A>,
) -> Result<(), Stopped>
    requires { sink_failures output.old ≡ 0 }
    ensures { OnOk result (PrintsLeft spans.now len (sink_bytes O.contents output.old)
        (sink_bytes O.contents output.new)) }
{
    let mut lines = Vec::new(alloc);
    push_left(alloc, &mut lines, spans, len)?;
    put_all(output, &lines)?;
    Ok(output.flush()?)
}

/// Writes what is told of the files at paths to standard output.
pub(crate) fn search_all<W: World + Copy, O: Write + Drop, A: Allocator + Copy>(
    alloc: A,
    world: W,
    files: &[&str],
    sought: &Sought<'_, '_, A>,
    output: &mut BufferedSink<O, A>,
) -> Result<Matched<A>, Stopped>
    requires { sink_failures output.old ≡ 0 }
    ensures working { IfOk result (λ m. sink_failures output.new ≡ 0) }
    ensures added { IfOk result (λ m. Added sought.now.wanted (W.bytes world) sought.now.image.now (texts files.now)
        (sink_bytes O.contents output.old) (sink_bytes O.contents output.new) m) }
{
    let mut matched = Matched {
        outcome: Outcome::new(alloc),
        spans: Vec::new(alloc),
    };
    for path in files {
        search_file(world, path, sought, output, &mut matched)?;
    }
    Ok(matched)
}

/// Tells which modules of files stand in an image, and what of it is left over.
fn search_files<W: World + Copy, O: Write + Drop, A: Allocator + Copy>(
    alloc: A,
    world: W,
    image: &[u8],
    files: &[&str],
    output: &mut BufferedSink<O, A>,
) -> Result<Outcome<A>, Stopped>
    requires { sink_failures output.old ≡ 0 }
    ensures { IfOk result (λ o. spec.Searches (W.bytes world) image.now (texts files.now)
        (sink_bytes O.contents output.old) (sink_bytes O.contents output.new) (said o)) }
{
    let index = Index::of(alloc, image)?;
    let sought = Sought {
        image: &index,
        wanted: Wanted::All,
    };
    let matched = search_all(alloc, world, files, &sought, output)?;
    print_left(alloc, &matched.spans, image.len(), output)?;
    let Matched { outcome, spans: _ } = matched;
    Ok(outcome)
}

/// Tells which modules of files stand in the program at a path.
pub(crate) fn tell_matches<W: World + Copy, O: Write + Drop, A: Allocator + Copy>(
    alloc: A,
    world: W,
    search: Search<'_>,
    output: &mut BufferedSink<O, A>,
) -> Result<Outcome<A>, Stopped>
    requires { sink_failures output.old ≡ 0 }
    ensures { IfOk (outcome_said result) (spec.Matches (W.bytes world) search.entry.program.now
        (texts search.entry.files.now) (sink_bytes O.contents output.old) (sink_bytes O.contents output.new)) }
{
    match program_at(alloc, &world, search.program)? {
        Held::Program(program) => {
            search_files(alloc, world, program.image(), search.files, output)
        }
        Held::Ends(outcome) => Ok(outcome),
    }
}
