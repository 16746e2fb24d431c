//! What `compare` does: it tells the first byte at which two programs differ, and which modules of files have it.

ghost use Rattle.std.specs.Prelude.{◌≡◌, ◌++◌, IfOk, OnOk};
ghost use Rattle.omf_files.specs.Files.{sink_bytes, sink_failures};
ghost use Rattle.doslib_jobs.specs.Comparing as spec;
ghost use Rattle.doslib_jobs.specs.inside.Comparing.{PrintsDifference, TellsDifference};
ghost use Rattle.doslib_jobs.specs.inside.Running.{outcome_said, said};
ghost use Rattle.doslib_words.specs.Words.{texts};

use crate::fault::Stopped;
use crate::matching::{Matched, search_all};
use crate::outcome::{AT_FAULT, Outcome};
use crate::program::{Held, program_at};
use byte_places::{Index, first_difference};
use doslib_match::{Sought, Wanted};
use omf_files::{BufferedSink, World};
use omf_frame::put_all;
use omf_text::{Piece, push_pieces};
use std::alloc::{AllocError, Allocator};
use std::io::Write;

/// What `compare` is asked for.
#[derive(Clone, Copy)]
pub(crate) struct Pair<'a> {
    /// The path of the program.
    pub program: &'a str,
    /// The path of the program that it is held against.
    pub other: &'a str,
    /// The paths of the files whose modules are looked for.
    pub files: &'a [&'a str],
}

/// The images of two programs, and the files whose modules are looked for in the first.
#[derive(Clone, Copy)]
struct Compared<'a> {
    first: &'a [u8],
    second: &'a [u8],
    files: &'a [&'a str],
}

/// Appends the byte at a place of an image, or two dashes behind its end.
fn push_byte_at<A: Allocator + Copy>(
    line: &mut Vec<u8, A>,
    image: &[u8],
    place: usize,
) -> Result<(), AllocError>
    ensures { OnOk result (line.new.items ≡ line.old.items ++ spec.byte_text image.now place) }
{
    match image.get(place) {
        Some(byte) => push_pieces(line, [Piece::Text(" "), Piece::Byte(*byte)].as_slice()),
        None => push_pieces(line, [Piece::Text(" --")].as_slice()),
    }
}

/// Appends the line that says where two images differ.
fn push_difference<A: Allocator + Copy>(
    line: &mut Vec<u8, A>,
    first: &[u8],
    second: &[u8],
    place: usize,
) -> Result<(), AllocError>
    ensures { OnOk result (line.new.items ≡ line.old.items ++ spec.difference_line first.now second.now place) }
{
    let pieces = [Piece::Text("differ "), Piece::FilePlace(place as u64)];
    push_pieces(line, pieces.as_slice())?;
    push_byte_at(line, first, place)?;
    push_byte_at(line, second, place)?;
    push_pieces(line, [Piece::Text("\n")].as_slice())
}

/// Writes that line to standard output.
fn print_difference<O: Write + Drop, A: Allocator + Copy>(
    alloc: A,
    first: &[u8],
    second: &[u8],
    place: usize,
    output: &mut BufferedSink<O, A>,
) -> Result<(), Stopped>
    requires { sink_failures output.old ≡ 0 }
    ensures working { OnOk result (sink_failures output.new ≡ 0) }
    ensures line { OnOk result (PrintsDifference first.now second.now place (sink_bytes O.contents output.old)
        (sink_bytes O.contents output.new)) }
{
    let mut line = Vec::new(alloc);
    push_difference(&mut line, first, second, place)?;
    Ok(put_all(output, &line)?)
}

/// Tells that two images differ at a place, and which modules of files have the byte there in the first.
fn tell_difference<W: World + Copy, O: Write + Drop, A: Allocator + Copy>(
    alloc: A,
    world: W,
    compared: Compared<'_>,
    place: usize,
    output: &mut BufferedSink<O, A>,
) -> Result<Outcome<A>, Stopped>
    requires { sink_failures output.old ≡ 0 }
    ensures { IfOk result (λ o. TellsDifference (W.bytes world) compared.entry place
        (sink_bytes O.contents output.old) (sink_bytes O.contents output.new) o) }
{
    print_difference(alloc, compared.first, compared.second, place, output)?;
    let index = Index::of(alloc, compared.first)?;
    let sought = Sought {
        image: &index,
        wanted: Wanted::Byte(place),
    };
    let Matched { outcome, spans: _ } = search_all(alloc, world, compared.files, &sought, output)?;
    let mut outcome = outcome;
    outcome.raise(AT_FAULT);
    output.flush()?;
    Ok(outcome)
}

/// Tells that two images are the same.
fn tell_same<O: Write + Drop, A: Allocator + Copy>(
    alloc: A,
    output: &mut BufferedSink<O, A>,
) -> Result<Outcome<A>, Stopped>
    requires { sink_failures output.old ≡ 0 }
    ensures { IfOk result (λ o. spec.TellsSame (sink_bytes O.contents output.old) (sink_bytes O.contents output.new)
        (said o)) }
{
    put_all(output, b"no difference\n")?;
    output.flush()?;
    Ok(Outcome::new(alloc))
}

/// Tells the first byte at which two images differ, if they do.
fn compare_images<W: World + Copy, O: Write + Drop, A: Allocator + Copy>(
    alloc: A,
    world: W,
    compared: Compared<'_>,
    output: &mut BufferedSink<O, A>,
) -> Result<Outcome<A>, Stopped>
    requires { sink_failures output.old ≡ 0 }
    ensures { IfOk result (λ o. spec.Differs (W.bytes world) compared.entry.first.now compared.entry.second.now
        (texts compared.entry.files.now) (sink_bytes O.contents output.old) (sink_bytes O.contents output.new)
        (said o)) }
{
    match first_difference(compared.first, compared.second) {
        Some(place) => tell_difference(alloc, world, compared, place, output),
        None => tell_same(alloc, output),
    }
}

/// Tells the first byte at which the images of two programs differ, if they do.
pub(crate) fn tell_compared<W: World + Copy, O: Write + Drop, A: Allocator + Copy>(
    alloc: A,
    world: W,
    pair: Pair<'_>,
    output: &mut BufferedSink<O, A>,
) -> Result<Outcome<A>, Stopped>
    requires { sink_failures output.old ≡ 0 }
    ensures { IfOk (outcome_said result) (spec.Compares (W.bytes world) pair.entry.program.now pair.entry.other.now
        (texts pair.entry.files.now) (sink_bytes O.contents output.old) (sink_bytes O.contents output.new)) }
{
    let first = match program_at(alloc, &world, pair.program)? {
        Held::Program(program) => program,
        Held::Ends(outcome) => return Ok(outcome),
    };
    let second = match program_at(alloc, &world, pair.other)? {
        Held::Program(program) => program,
        Held::Ends(outcome) => return Ok(outcome),
    };
    let compared = Compared {
        first: first.image(),
        second: second.image(),
        files: pair.files,
    };
    compare_images(alloc, world, compared, output)
}
