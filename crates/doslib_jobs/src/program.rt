//! What `program` does: it tells what a program's file says, and writes its image.

ghost use Rattle.std.specs.Prelude.{◌≡◌, ◌++◌, IfOk, OnOk};
ghost use Rattle.omf_files.specs.Files.{sink_bytes, sink_failures};
ghost use Rattle.mz.specs.Loading.{loading};
ghost use Rattle.mz.specs.Reading.{reading};
ghost use Rattle.doslink_files.specs.Written.{StandsAt};
ghost use Rattle.doslib_jobs.specs.Program as spec;
ghost use Rattle.doslib_jobs.specs.Reading.{unread_line, unwritten_line};
ghost use Rattle.doslib_jobs.specs.inside.Program.{Finds, Holds, HoldsIn};
ghost use Rattle.doslib_jobs.specs.inside.Running.{outcome_said, said};

use crate::bytes::Bytes;
use crate::fault::Stopped;
use crate::outcome::{AT_FAULT, FAILED, Outcome, WRONG_WORDS};
use crate::reading::push_unwritten;
use doslib_words::Image;
use doslink_files::{ReadFault, is_one_place, put_file, read_file};
use mz::{FileFault, MzFault, MzFile, load, read_mz};
use mz_text::push_program;
use omf_files::{BufferedSink, World};
use omf_frame::put_all;
use omf_text::{Piece, push_pieces};
use std::alloc::{AllocError, Allocator};
use std::io::Write;

/// What `program` is asked for.
#[derive(Clone, Copy)]
pub(crate) struct Asked<'a> {
    /// The path of the program.
    pub path: &'a str,
    /// The image that is written, where one is asked for.
    pub image: Option<Image<'a>>,
}

/// A program that was found in a file, and how many bytes stand behind it there.
#[derive(Drop)]
struct Found<A: Allocator + Copy> {
    program: MzFile<A>,
    behind: usize,
}

/// The program in a file with these bytes.
fn find_program<A: Allocator + Copy>(alloc: A, bytes: &[u8]) -> Result<Found<A>, MzFault>
    ensures { Finds bytes.now result (reading bytes.now) }
{
    let mut source = Bytes { rest: bytes };
    let program = read_mz(alloc, &mut source)?;
    let behind = source.rest.len();
    Ok(Found { program, behind })
}

/// Appends the line of a fault of the program's file at a path.
fn push_fault<A: Allocator + Copy>(
    lines: &mut Vec<u8, A>,
    path: &str,
    fault: FileFault,
) -> Result<(), AllocError>
    ensures { OnOk result (lines.new.items ≡ lines.old.items ++ spec.fault_line path.now fault) }
{
    let (number, name) = fault.label();
    let pieces = [
        Piece::Text("doslib: "),
        Piece::Text(path),
        Piece::Text(": "),
        Piece::Count(usize::from(number)),
        Piece::Text(" "),
        Piece::Text(name),
        Piece::Text("\n"),
    ];
    push_pieces(lines, pieces.as_slice())
}

/// What a job comes to of a program's file at a path that is at fault.
fn at_fault<A: Allocator + Copy>(
    alloc: A,
    path: &str,
    fault: FileFault,
) -> Result<Outcome<A>, AllocError>
    ensures { IfOk result (λ o. spec.IsAtFault path.now fault (said o)) }
{
    let mut outcome = Outcome::new(alloc);
    push_fault(&mut outcome.lines, path, fault)?;
    outcome.raise(AT_FAULT);
    Ok(outcome)
}

/// What it comes to where a file can't be written at a path.
fn unwritten<A: Allocator + Copy>(alloc: A, path: &str) -> Result<Outcome<A>, AllocError>
    ensures lines { IfOk result (λ o. o.lines.items ≡ unwritten_line path.now) }
    ensures status { IfOk result (λ o. o.status ≡ 3) }
{
    let mut outcome = Outcome::new(alloc);
    push_unwritten(&mut outcome.lines, path)?;
    outcome.raise(FAILED);
    Ok(outcome)
}

/// What it comes to where a file can't be read at a path.
fn unread<A: Allocator + Copy>(
    alloc: A,
    path: &str,
    fault: ReadFault,
) -> Result<Outcome<A>, AllocError>
    ensures lines { IfOk result (λ o. o.lines.items ≡ unread_line path.now fault) }
    ensures status { IfOk result (λ o. o.status ≡ 3) }
{
    let mut outcome = Outcome::new(alloc);
    outcome.add_unread(path, fault)?;
    Ok(outcome)
}

/// The program in a file, or what a job comes to that has none there.
#[derive(Drop)]
pub(crate) enum Held<A: Allocator + Copy> {
    Program(MzFile<A>),
    Ends(Outcome<A>),
}

/// The program in a file at a path with these bytes.
fn held_in<A: Allocator + Copy>(alloc: A, path: &str, bytes: &[u8]) -> Result<Held<A>, AllocError>
    ensures { IfOk result (HoldsIn path.now (reading bytes.now)) }
{
    match find_program(alloc, bytes) {
        Ok(found) => Ok(Held::Program(found.program)),
        Err(MzFault::File(fault)) => Ok(Held::Ends(at_fault(alloc, path, fault)?)),
        Err(MzFault::Memory) => Err(AllocError),
    }
}

/// The program in the file at a path.
pub(crate) fn program_at<W: World, A: Allocator + Copy>(
    alloc: A,
    world: &W,
    path: &str,
) -> Result<Held<A>, Stopped>
    ensures { IfOk result (Holds (W.bytes world.now) path.now) }
{
    match read_file(alloc, world, path) {
        Ok(file) => Ok(held_in(alloc, path, &file.bytes)?),
        Err(ReadFault::Memory) => Err(Stopped::Memory),
        Err(fault) => Ok(Held::Ends(unread(alloc, path, fault)?)),
    }
}

/// Writes these bytes of an image to a file.
fn write_bytes<W: World, A: Allocator + Copy>(
    alloc: A,
    world: &W,
    out: &str,
    bytes: &[u8],
) -> Result<Outcome<A>, AllocError>
    ensures { IfOk result (λ o.
        spec.IsWritten (StandsAt (W.blank world.now) (W.Puts world.now)) out.now bytes.now (said o)) }
{
    match put_file(world, out, bytes) {
        Ok(()) => Ok(Outcome::new(alloc)),
        Err(_) => unwritten(alloc, out),
    }
}

/// Writes the image of the program in the file at a path, as it is loaded at a paragraph.
fn write_image<W: World, A: Allocator + Copy>(
    alloc: A,
    world: &W,
    path: &str,
    image: Image<'_>,
    program: &MzFile<A>,
) -> Result<Outcome<A>, AllocError>
    ensures { IfOk result (λ o. spec.WritesImage (StandsAt (W.blank world.now) (W.Puts world.now)) path.now
        image.entry.out.now (loading image.entry.paragraph program.now) (said o)) }
{
    match load(alloc, program, image.paragraph) {
        Ok(loaded) => write_bytes(alloc, world, image.out, loaded.bytes()),
        Err(MzFault::File(fault)) => at_fault(alloc, path, fault),
        Err(MzFault::Memory) => Err(AllocError),
    }
}

/// Writes the image of a program where that is asked for.
fn write_asked<W: World, A: Allocator + Copy>(
    alloc: A,
    world: &W,
    asked: Asked<'_>,
    program: &MzFile<A>,
) -> Result<Outcome<A>, AllocError>
    ensures { IfOk result (λ o. spec.WritesAsked (StandsAt (W.blank world.now) (W.Puts world.now)) asked.entry.path.now
        asked.entry.image program.now (said o)) }
{
    match asked.image {
        None => Ok(Outcome::new(alloc)),
        Some(image) => write_image(alloc, world, asked.path, image, program),
    }
}

/// Writes what is told of a program to standard output.
fn print_program<O: Write + Drop, A: Allocator + Copy>(
    alloc: A,
    path: &str,
    found: &Found<A>,
    output: &mut BufferedSink<O, A>,
) -> Result<(), Stopped>
    requires { sink_failures output.old ≡ 0 }
    ensures { OnOk result (spec.Prints path.now found.now.program found.now.behind (sink_bytes O.contents output.old)
        (sink_bytes O.contents output.new)) }
{
    let mut text = Vec::new(alloc);
    push_program(&mut text, path, &found.program, found.behind)?;
    put_all(output, &text)?;
    Ok(output.flush()?)
}

/// Tells of the program in a file with these bytes, and writes its image where that is asked for.
fn tell_bytes<W: World + Copy, O: Write + Drop, A: Allocator + Copy>(
    alloc: A,
    world: W,
    asked: Asked<'_>,
    bytes: &[u8],
    output: &mut BufferedSink<O, A>,
) -> Result<Outcome<A>, Stopped>
    requires { sink_failures output.old ≡ 0 }
    ensures { IfOk result (λ o. spec.TellsFile (StandsAt (W.blank world) (W.Puts world)) asked.entry.path.now
        asked.entry.image bytes.now (reading bytes.now) (sink_bytes O.contents output.old)
        (sink_bytes O.contents output.new) (said o)) }
{
    match find_program(alloc, bytes) {
        Ok(found) => {
            print_program(alloc, asked.path, &found, output)?;
            Ok(write_asked(alloc, &world, asked, &found.program)?)
        }
        Err(MzFault::File(fault)) => Ok(at_fault(alloc, asked.path, fault)?),
        Err(MzFault::Memory) => Err(Stopped::Memory),
    }
}

/// Tells of the program in the file at a path, and writes its image where that is asked for: first what is told.
fn tell_path<W: World + Copy, O: Write + Drop, A: Allocator + Copy>(
    alloc: A,
    world: W,
    asked: Asked<'_>,
    output: &mut BufferedSink<O, A>,
) -> Result<Outcome<A>, Stopped>
    requires { sink_failures output.old ≡ 0 }
    ensures { IfOk (outcome_said result) (spec.TellsPath (W.bytes world) (StandsAt (W.blank world) (W.Puts world))
        asked.entry.path.now asked.entry.image (sink_bytes O.contents output.old) (sink_bytes O.contents output.new)) }
{
    match read_file(alloc, &world, asked.path) {
        Ok(file) => tell_bytes(alloc, world, asked, &file.bytes, output),
        Err(ReadFault::Memory) => Err(Stopped::Memory),
        Err(fault) => Ok(unread(alloc, asked.path, fault)?),
    }
}

/// What it comes to where an image would be written over the file that is read.
fn over<A: Allocator + Copy>(alloc: A, out: &str) -> Result<Outcome<A>, AllocError>
    ensures lines { IfOk result (λ o. o.lines.items ≡ spec.over_line out.now) }
    ensures status { IfOk result (λ o. o.status ≡ 2) }
{
    let mut outcome = Outcome::new(alloc);
    let pieces = [
        Piece::Text("doslib: "),
        Piece::Text(out),
        Piece::Text(": it is read and would be written\n"),
    ];
    push_pieces(&mut outcome.lines, pieces.as_slice())?;
    outcome.raise(WRONG_WORDS);
    Ok(outcome)
}

/// Tells of the program at a path, and writes its image where that is asked for. Where the image would be written over
/// the file itself, that is told, and nothing else is done.
pub(crate) fn tell_program<W: World + Copy, O: Write + Drop, A: Allocator + Copy>(
    alloc: A,
    world: W,
    asked: Asked<'_>,
    output: &mut BufferedSink<O, A>,
) -> Result<Outcome<A>, Stopped>
    requires { sink_failures output.old ≡ 0 }
    ensures { IfOk (outcome_said result) (spec.TellsProgram (W.bytes world) (W.looks world)
        (StandsAt (W.blank world) (W.Puts world)) asked.entry.path.now asked.entry.image
        (sink_bytes O.contents output.old) (sink_bytes O.contents output.new)) }
{
    let Some(image) = asked.image else {
        return tell_path(alloc, world, asked, output);
    };
    if is_one_place(&world, asked.path, image.out) {
        return Ok(over(alloc, image.out)?);
    }
    tell_path(alloc, world, asked, output)
}
