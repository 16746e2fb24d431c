//! The words of the command line, as a job that is done.
ghost use Rattle.std.specs.Prelude.{◌≡◌, ◌-◌, ◌^◌, ◌<◌, codes};
ghost use Rattle.omf_files.specs.Files.{sink_failures};
ghost use Rattle.doslink_asked.specs.Asked.{Ask};
ghost use Rattle.doslink_asked.specs.Fronts.{IsFront};
ghost use Rattle.doslink_words.specs.Tokens.{texts};
ghost use Rattle.doslink_files.specs.Written.{StandsAt};
ghost use Rattle.doslink_jobs.specs.Jobs.{EndsWith, Tells};
ghost use Rattle.doslink_jobs.specs.Runs.{EndsBy};
ghost use Rattle.doslink_jobs.specs.inside.Stops.{OnHalt};

use crate::running::{finish, run_lines};
use crate::stop::Halt;
use bumpalo::Bump;
use doslink_asked::{Asked, AskingFault, Request, Sources, asked_by};
use doslink_passes::Stop;
use omf_files::{BufferedSink, FileId, World};
use omf_frame::{Sink, put_all};
use std::alloc::Global;
use std::io::Write;

/// What a run is given beside its job.
#[derive(Clone, Copy)]
pub struct Besides<'b> {
    /// The folders of the environment's LIB, in which default libraries are looked up last.
    pub folders: &'b [&'b str],
    /// The files that its words or directives were read of.
    pub read: &'b [FileId],
}

/// The exit status of wrong words.
const WRONG_WORDS: u8 = 2;

/// Writes a text to standard output, and hands out the exit status.
fn print_text<O: Write + Drop, E: Sink>(
    text: &str,
    output: &mut BufferedSink<O>,
    errors: &mut E,
) -> u8
    requires output { sink_failures output.old ≡ 0 }
    requires errors { E.failures errors.old < 2 ^ 64 - 1 }
    ensures { EndsWith (Unit {0}) ⊥ ⊥ (Tells E.written E.failures errors.old errors.new) result }
{
    let printed = match put_all(output, text.as_bytes()) {
        Ok(()) => output.flush(),
        Err(fault) => Err(fault),
    };
    match printed {
        Ok(()) => 0,
        Err(_) => finish(
            Err(Halt::Stop(Stop::Device)),
            b"doslink: output: 40 Device\n",
            errors,
        ),
    }
}

/// Why a run stops where words ask for nothing that can be done.
fn halt_of(fault: AskingFault) -> Halt
    ensures { OnHalt result ⊥ (Unit {0}) }
{
    match fault {
        AskingFault::Words => Halt::Words,
        AskingFault::Device => Halt::Stop(Stop::Device),
        AskingFault::Memory => Halt::Stop(Stop::Memory),
    }
}

/// Does what the words behind the program's name ask for, and hands out the exit status: 0 where the program is written
/// or help is, 1 where an input is at fault, 2 where the words are wrong, 3 where a file, a device or memory failed.
pub fn run_words<W: World + Copy, O: Write + Drop, E: Sink>(
    alloc: Global,
    world: W,
    request: &Request<'_>,
    output: &mut BufferedSink<O>,
    errors: &mut E,
) -> u8
    requires output { sink_failures output.old ≡ 0 }
    requires errors { E.failures errors.old < 2 ^ 64 - 1 }
    ensures { EndsBy Global (W.bytes world) (StandsAt (W.blank world) (W.Puts world)) (texts request.now.folders.now)
        (Ask (W.bytes world) (IsFront (W.bytes world) (W.looks world) request.now.link.now) request.now.language
        (texts request.now.words.now))
        (Tells E.written E.failures errors.old errors.new) result }
{
    let arena = Bump::new(alloc);
    let mut sources = Sources::new(alloc);
    match asked_by(&world, &arena, request, &mut sources) {
        Ok(Asked::Job(job)) => {
            let Sources { files, lines, .. } = sources;
            let besides = Besides {
                folders: request.folders,
                read: &files,
            };
            run_lines(alloc, world, &job, &besides, lines, output, errors)
        }
        Ok(Asked::Text(text)) => print_text(text, output, errors),
        Err(fault) => finish(Err(halt_of(fault)), &sources.lines, errors),
    }
}

/// Says that there was no memory, and hands out the exit status.
pub fn out_of_memory<E: Sink>(errors: &mut E) -> u8
    requires { E.failures errors.old < 2 ^ 64 - 1 }
    ensures line { Tells E.written E.failures errors.old errors.new (codes "doslink: memory\n") }
    ensures status { result ≡ 3 }
{
    finish(Err(Halt::Stop(Stop::Memory)), b"", errors)
}

/// Says why the words are refused, and hands out the exit status.
pub fn wrong_words<E: Sink>(text: &str, errors: &mut E) -> u8
    requires { E.failures errors.old < 2 ^ 64 - 1 }
    ensures text { Tells E.written E.failures errors.old errors.new text.now }
    ensures status { result ≡ 2 }
{
    // where standard error fails, the status alone tells it
    let _ = put_all(errors, text.as_bytes());
    WRONG_WORDS
}
