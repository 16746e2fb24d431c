//! What each subcommand does with files and the two streams, and the status that it ends with.
ghost use Rattle.std.specs.Prelude.{◌≡◌, ◌-◌, ◌^◌, ◌<◌};
ghost use Rattle.omf_files.specs.Files.{sink_bytes, sink_failures};
ghost use Rattle.doslink_files.specs.Written.{StandsAt};
ghost use Rattle.doslib_jobs.specs.Jobs.{Answers, Ends, EndsRefused, Prints, Runs, Tells, exit_status};
ghost use Rattle.doslib_jobs.specs.Jobs.{stopped_line, told_lines};
ghost use Rattle.doslib_jobs.specs.declared.fault.Stopped.TheVariants as stopped;
ghost use Rattle.doslib_jobs.specs.inside.Running.{outcome_said};
ghost use Rattle.doslib_words.specs.Words.{texts};

use crate::changing::Change;
use crate::comparing::{Pair, tell_compared};
use crate::extracting::extract;
use crate::fault::Stopped;
use crate::making::{change_library, make_library};
use crate::matching::{Search, tell_matches};
use crate::naming::tell_names;
use crate::outcome::{FAILED, Outcome, WRONG_WORDS};
use crate::program::{Asked, tell_program};
use crate::telling::{Telling, tell_files};
use command_line::WordsFault;
use doslib_words::{Job, parse_words};
use omf_files::{BufferedSink, World};
use omf_frame::{Sink, put_all};
use std::alloc::{Allocator, Global};
use std::io::Write;

/// Does what the words after the program's name ask for, and hands out the exit status.
pub fn run_words<W: World + Copy, O: Write + Drop, E: Sink>(
    alloc: Global,
    world: W,
    words: &[&str],
    output: &mut BufferedSink<O>,
    errors: &mut E,
) -> u8
    requires output { sink_failures output.old ≡ 0 }
    requires errors { E.failures errors.old < 2 ^ 64 - 1 }
    ensures { Runs (W.bytes world) (W.looks world) (StandsAt (W.blank world) (W.Puts world)) (texts words.now)
        (sink_bytes O.contents output.old) (sink_bytes O.contents output.new)
        (Tells E.written E.failures errors.old errors.new) result }
{
    match parse_words(alloc, words) {
        Ok(job) => run_job(alloc, world, &job, output, errors),
        Err(fault) => answer_words(alloc, &fault, output, errors),
    }
}

/// Says why the words are no job, and hands out the exit status.
fn answer_words<O: Write + Drop, E: Sink>(
    alloc: Global,
    fault: &WordsFault,
    output: &mut BufferedSink<O>,
    errors: &mut E,
) -> u8
    requires output { sink_failures output.old ≡ 0 }
    requires errors { E.failures errors.old < 2 ^ 64 - 1 }
    ensures { EndsRefused fault.now (sink_bytes O.contents output.old) (sink_bytes O.contents output.new)
        (Tells E.written E.failures errors.old errors.new) result }
{
    match fault {
        WordsFault::Help(text) => {
            let answer = print_text(alloc, text.as_str(), output);
            finish(&answer, errors)
        }
        WordsFault::Wrong(text) => wrong_words(text.as_str(), errors),
        WordsFault::Memory => out_of_memory(errors),
    }
}

/// Does a job, with the memory of this allocator, and hands out the exit status.
pub fn run_job<W: World + Copy, O: Write + Drop, E: Sink, A: Allocator + Copy>(
    alloc: A,
    world: W,
    job: &Job<'_>,
    output: &mut BufferedSink<O, A>,
    errors: &mut E,
) -> u8
    requires output { sink_failures output.old ≡ 0 }
    requires errors { E.failures errors.old < 2 ^ 64 - 1 }
    ensures { Ends (Answers (W.bytes world) (W.looks world) (StandsAt (W.blank world) (W.Puts world)) job.now
        (sink_bytes O.contents output.old) (sink_bytes O.contents output.new))
        (Tells E.written E.failures errors.old errors.new) result }
{
    let answer = answer_job(alloc, world, job, output);
    finish(&answer, errors)
}

/// Does a job. Each word of `Job` has its case here.
fn answer_job<W: World + Copy, O: Write + Drop, A: Allocator + Copy>(
    alloc: A,
    world: W,
    job: &Job<'_>,
    output: &mut BufferedSink<O, A>,
) -> Result<Outcome<A>, Stopped>
    requires { sink_failures output.old ≡ 0 }
    ensures { Answers (W.bytes world) (W.looks world) (StandsAt (W.blank world) (W.Puts world)) job.now
        (sink_bytes O.contents output.old) (sink_bytes O.contents output.new) (outcome_said result) }
{
    match job {
        Job::List { files } => tell_files(alloc, world, Telling::Members, files, output),
        Job::Show { files } => tell_files(alloc, world, Telling::Records, files, output),
        Job::Program { file, image } => {
            let asked = Asked {
                path: file,
                image: *image,
            };
            tell_program(alloc, world, asked, output)
        }
        Job::Match { program, files } => {
            let search = Search { program, files };
            tell_matches(alloc, world, search, output)
        }
        Job::Compare {
            program,
            other,
            files,
        } => {
            let pair = Pair {
                program,
                other,
                files,
            };
            tell_compared(alloc, world, pair, output)
        }
        Job::Names { ignore_case, files } => {
            tell_names(alloc, world, *ignore_case, files, output)
        }
        Job::Make { library, files } => make_library(alloc, world, library, files),
        Job::Add { library, files } => {
            change_library(alloc, world, Change::Added, library, files)
        }
        Job::Delete { library, members } => {
            change_library(alloc, world, Change::Deleted(members), library, &[])
        }
        Job::Replace { library, files } => {
            change_library(alloc, world, Change::Replaced, library, files)
        }
        Job::Extract { library, members } => extract(alloc, world, library, members),
    }
}

/// Writes a text to standard output.
fn print_text<O: Write + Drop>(
    alloc: Global,
    text: &str,
    output: &mut BufferedSink<O>,
) -> Result<Outcome<Global>, Stopped>
    requires { sink_failures output.old ≡ 0 }
    ensures { Prints text.now (sink_bytes O.contents output.old) (sink_bytes O.contents output.new)
        (outcome_said result) }
{
    put_all(output, text.as_bytes())?;
    output.flush()?;
    Ok(Outcome::new(alloc))
}

/// Says that there was no memory, and hands out the exit status.
pub fn out_of_memory<E: Sink>(errors: &mut E) -> u8
    requires { E.failures errors.old < 2 ^ 64 - 1 }
    ensures line { Tells E.written E.failures errors.old errors.new (stopped_line stopped.Memory) }
    ensures status { result ≡ 3 }
{
    // where standard error fails, the status alone tells it
    let _ = put_all(errors, Stopped::Memory.line().as_bytes());
    FAILED
}

/// Says why the words are refused, and hands out the exit status.
pub fn wrong_words<E: Sink>(text: &str, errors: &mut E) -> u8
    requires { E.failures errors.old < 2 ^ 64 - 1 }
    ensures text { Tells E.written E.failures errors.old errors.new text.now }
    ensures status { result ≡ 2 }
{
    // where standard error fails, the status alone tells it
    let _ = put_all(errors, text.as_bytes());
    WRONG_WORDS
}

/// Writes the lines of faults to standard error, or why the run stopped, and hands out the exit status.
fn finish<E: Sink, A: Allocator + Copy>(answer: &Result<Outcome<A>, Stopped>, errors: &mut E) -> u8
    requires { E.failures errors.old < 2 ^ 64 - 1 }
    ensures line { Tells E.written E.failures errors.old errors.new (told_lines (outcome_said answer.now)) }
    ensures status { result ≡ exit_status (outcome_said answer.now) }
{
    match answer {
        Ok(outcome) => {
            // where standard error fails, the status alone tells it
            let _ = put_all(errors, &outcome.lines);
            outcome.status
        }
        Err(why) => {
            let _ = put_all(errors, why.line().as_bytes());
            FAILED
        }
    }
}
