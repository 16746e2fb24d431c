//! What a command answers, over inputs and a sink in memory.
ghost use Rattle.std.specs.Prelude.{All, IfOk, ◌-◌, ◌^◌, ◌<◌};

use omf_commands::{Options, Report, check, link, load_file, rewrite, show, write_map};
use omf_faults::{LinkFault, fault_line, status};
use omf_frame::{MemSink, MemSource};
use refusing::Refusing;
use std::alloc::{Allocator, Global};
use std::test::*;

/// The most bytes that are written where little is.
const ROOM: usize = 4_096;

/// The most bytes that are written.
pub const LARGE_ROOM: usize = 400_000;

/// The names of the inputs.
const NAMES: [&str; 3] = ["A.OBJ", "B.OBJ", "C.OBJ"];

/// What is done with inputs.
#[derive(Clone, Copy)]
pub enum Command {
    Show,
    Rewrite,
    Check,
    /// A file is loaded at this paragraph.
    Load(u16),
    Link(Options),
    /// The map of a link is written.
    Map(Options),
    /// The file of a link is loaded at this paragraph.
    LinkAndLoad(u16),
}

/// What a command runs over.
#[derive(Clone, Copy)]
pub struct Devices {
    /// The most bytes that a call reads or writes.
    pub piece: usize,
    /// The input that fails, and its call that does; no call has the number 0.
    pub failing: (usize, u64),
    /// How many bytes the sink takes.
    pub room: usize,
    /// The growth that is refused; none has the number 0.
    pub refused: u64,
}

impl Devices {
    /// Nothing fails.
    pub fn sound(piece: usize) -> Devices {
        Devices {
            piece,
            failing: (0, 0),
            room: ROOM,
            refused: 0,
        }
    }
}

/// What was written, and why the command stopped.
#[derive(Drop)]
pub struct Answer {
    pub output: Vec<u8>,
    /// The exit status and the line of the fault, if there is one.
    pub fault: String,
    /// How often each input was called.
    pub calls: Vec<u64>,
    /// Whether the growth was refused.
    pub is_refused: bool,
}

fn sources_of<'a>(
    alloc: Global,
    inputs: &'a [Vec<u8>],
    devices: Devices,
) -> Result<Vec<MemSource<'a>>, Fail>
    ensures { IfOk result (λ sources. All (λ s. s.failures < 2 ^ 64 - 1) sources.items) }
{
    let mut sources = Vec::new(alloc);
    for bytes in inputs {
        let is_failing = sources.len() == devices.failing.0;
        let failing_call = is_failing.then_some(devices.failing.1);
        sources.push(MemSource::over(bytes, devices.piece.max(1), failing_call))?;
    }
    Ok(sources)
}

fn calls_of(alloc: Global, sources: &[MemSource<'_>]) -> Result<Vec<u64>, Fail> {
    let mut calls = Vec::new(alloc);
    for source in sources {
        calls.push(source.calls())?;
    }
    Ok(calls)
}

/// What is linked. No more is asked of it here.
fn linked<A: Allocator + Copy>(
    alloc: A,
    options: &Options,
    sources: &mut [MemSource<'_>],
    sink: &mut MemSink<'_>,
) -> Result<Report<A>, LinkFault<A>>
    requires sources { All (λ s. s.failures < 2 ^ 64 - 1) sources.old }
    requires sink { sink.old.failures < 2 ^ 64 - 1 }
{
    link(alloc, sources, sink, options)
}

/// Links into memory, and writes the map.
fn map<A: Allocator + Copy>(
    alloc: A,
    options: &Options,
    sources: &mut [MemSource<'_>],
    sink: &mut MemSink<'_>,
) -> Result<(), LinkFault<A>>
    requires sources { All (λ s. s.failures < 2 ^ 64 - 1) sources.old }
    requires sink { sink.old.failures < 2 ^ 64 - 1 }
{
    let mut room = vec![in alloc; 0u8; ROOM]?;
    let mut file = MemSink::over(&mut room, ROOM);
    let report = linked(alloc, options, sources, &mut file)?;
    write_map(&report, sink)
}

/// Runs a command over one input.
fn run_over_one<A: Allocator + Copy>(
    alloc: A,
    command: Command,
    source: &mut MemSource<'_>,
    sink: &mut MemSink<'_>,
) -> Result<(), LinkFault<A>>
    requires source { source.old.failures < 2 ^ 64 - 1 }
    requires sink { sink.old.failures < 2 ^ 64 - 1 }
{
    match command {
        Command::Show => show(alloc, source, sink),
        Command::Rewrite => rewrite(alloc, source, sink),
        Command::Load(paragraph) => load_file(alloc, source, paragraph, sink),
        _ => check(alloc, source, sink),
    }
}

fn run<A: Allocator + Copy>(
    alloc: A,
    command: Command,
    sources: &mut [MemSource<'_>],
    sink: &mut MemSink<'_>,
) -> Result<(), LinkFault<A>>
    requires sources { All (λ s. s.failures < 2 ^ 64 - 1) sources.old }
    requires sink { sink.old.failures < 2 ^ 64 - 1 }
{
    match command {
        Command::Link(options) => {
            linked(alloc, &options, sources, sink)?;
            Ok(())
        }
        Command::Map(options) => map(alloc, &options, sources, sink),
        _ => match sources {
            [source] => run_over_one(alloc, command, source, sink),
            _ => Ok(()),
        },
    }
}

/// The exit status and the line of a fault.
fn fault_text<A: Allocator + Copy>(alloc: Global, fault: &LinkFault<A>) -> Result<String, Fail> {
    let name = match fault.input() {
        Some(input) => NAMES[input.min(2)],
        None => "OUT",
    };
    let mut room = [0u8; 80];
    let mut sink = MemSink::over(&mut room, 80);
    fault_line("omf", fault, name, &mut sink)?;
    let line = str::from_utf8(sink.written())?;
    Ok(format!(in alloc; "{} {line}", status(fault))?)
}

/// The text of the fault of a run, if there is one.
fn run_fault(
    alloc: Global,
    memory: &Refusing<Global>,
    command: Command,
    sources: &mut [MemSource<'_>],
    sink: &mut MemSink<'_>,
) -> Result<String, Fail>
    requires sources { All (λ s. s.failures < 2 ^ 64 - 1) sources.old }
    requires sink { sink.old.failures < 2 ^ 64 - 1 }
{
    match run(memory, command, sources, sink) {
        Ok(()) => Ok(String::new(alloc)),
        Err(fault) => fault_text(alloc, &fault),
    }
}

/// What one command answers.
fn run_answer(
    alloc: Global,
    command: Command,
    inputs: &[Vec<u8>],
    devices: Devices,
) -> Result<Answer, Fail> {
    let mut sources = sources_of(alloc, inputs, devices)?;
    let mut room = vec![in alloc; 0u8; devices.room]?;
    let mut sink = MemSink::over(&mut room, devices.piece.max(1));
    let memory = Refusing::nth(alloc, devices.refused);
    let fault = run_fault(alloc, &memory, command, &mut sources, &mut sink)?;
    Ok(Answer {
        output: Vec::from_slice(alloc, sink.written())?,
        fault,
        calls: calls_of(alloc, &sources)?,
        is_refused: memory.has_refused(),
    })
}

/// What a command answers over inputs.
pub fn answer_of(
    alloc: Global,
    command: Command,
    inputs: &[Vec<u8>],
    devices: Devices,
) -> Result<Answer, Fail> {
    let Command::LinkAndLoad(paragraph) = command else {
        return run_answer(alloc, command, inputs, devices);
    };
    let linked = run_answer(alloc, Command::Link(Options::new()), inputs, devices)?;
    if !linked.fault.is_empty() {
        return Ok(linked);
    }
    run_answer(alloc, Command::Load(paragraph), &[linked.output], devices)
}
