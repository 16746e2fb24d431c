//! What each subcommand does with files and the two streams, and the status that it ends with.
ghost use Rattle.std.specs.Prelude.{All, ◌≡◌, ◌⊎◌, ◌<◌, ◌^◌, ◌-◌, ℕ, List, [], Ok, Err, OnOk, if◌then◌else◌};
ghost use Rattle.std.specs.Prelude.{codes, string_bytes};
ghost use Rattle.std.specs.declared.option.Option.{Option};
ghost use Rattle.std.specs.Io.KnownBytes.{Keeps};
ghost use Rattle.omf_text.specs.Details.{listing};
ghost use Rattle.omf_commands.specs.Checking.{Checks};
ghost use Rattle.omf_commands.specs.Loading.{LoadsFile};
ghost use Rattle.omf_commands.specs.Outcome.{AreTold, Outcome};
ghost use Rattle.omf_commands.specs.Reading.{GoesThrough};
ghost use Rattle.omf_files.specs.Files.{held_back, sink_bytes, sink_failures};
ghost use Rattle.omf_words.specs.Words.{texts};
ghost use Rattle.omf_jobs.specs.Jobs.{Answers, Ends, EndsRefused, Prints, Runs, Settled, Tells, canonical_record};
ghost use Rattle.omf_jobs.specs.Jobs.{exit_status, names_of, told_line};

use command_line::WordsFault;
use omf_commands::{Options, Report, check, link, load_file, rewrite, show, write_map};
use omf_faults::{LinkFault, fault_line, status};
use omf_files::{BufferedSink, CreatedFile, Keep, World, open_source, open_sources};
use omf_frame::{IoFault, Sink, Source, put_all};
use omf_words::{Job, parse_words};
use std::alloc::{Allocator, Global};
use std::io::Write;

/// The exit status of wrong words.
const WRONG_WORDS: u8 = 2;

/// The word for standard output in a fault's line.
const STANDARD_OUTPUT: &str = "output";

/// Does what the words after the program's name ask for, and hands out the exit status.
pub fn run_words<W: World + Copy, O: Write + Drop, E: Sink>(
    alloc: Global,
    world: W,
    words: &[&str],
    output: &mut BufferedSink<O>,
    errors: &mut E,
) -> u8
    requires output { sink_failures output.old ≡ 0 }
    requires errors { E.failures errors.old < 2 ^ 64 - 1 }
    ensures { Runs Global (W.bytes world) (texts words.now) (sink_bytes O.contents output.old)
        (sink_bytes O.contents output.new) (Tells E.written E.failures errors.old errors.new) result }
{
    match parse_words(alloc, words) {
        Ok(job) => run_job(alloc, world, &job, output, errors),
        Err(fault) => answer_words(&fault, output, errors),
    }
}

// Says why the words are no job, and hands out the exit status.
fn answer_words<O: Write + Drop, E: Sink>(
    fault: &WordsFault,
    output: &mut BufferedSink<O>,
    errors: &mut E,
) -> u8
    requires output { sink_failures output.old ≡ 0 }
    requires errors { E.failures errors.old < 2 ^ 64 - 1 }
    ensures { EndsRefused Global fault.now (sink_bytes O.contents output.old) (sink_bytes O.contents output.new)
        (Tells E.written E.failures errors.old errors.new) result }
{
    match fault {
        WordsFault::Help(text) => {
            let answer = print_text(text.as_str(), output);
            finish(&answer, STANDARD_OUTPUT, errors)
        }
        WordsFault::Wrong(text) => wrong_words(text.as_str(), errors),
        WordsFault::Memory => out_of_memory(errors),
    }
}

/// Does a job, with the memory of this allocator, and hands out the exit status.
pub fn run_job<W: World + Copy, O: Write + Drop, E: Sink, A: Allocator + Copy>(
    alloc: A,
    world: W,
    job: &Job<'_>,
    output: &mut BufferedSink<O, A>,
    errors: &mut E,
) -> u8
    requires output { sink_failures output.old ≡ 0 }
    requires errors { E.failures errors.old < 2 ^ 64 - 1 }
    // The status and the line are those of what the command answered.
    ensures { Ends A (Answers (W.bytes world) job.now (sink_bytes O.contents output.old)
        (sink_bytes O.contents output.new)) (Tells E.written E.failures errors.old errors.new) result }
{
    let (answer, file) = answer_job(alloc, world, job, output);
    finish(&answer, file, errors)
}

// Does a job. Beside the answer of its command stands the word for the file at fault, where one is.
fn answer_job<'a, W: World + Copy, O: Write + Drop, A: Allocator + Copy>(
    alloc: A,
    world: W,
    job: &Job<'a>,
    output: &mut BufferedSink<O, A>,
) -> (Result<(), LinkFault<A>>, &'a str)
    requires { sink_failures output.old ≡ 0 }
    ensures { Answers (W.bytes world) job.now (sink_bytes O.contents output.old) (sink_bytes O.contents output.new)
        result.0 }
{
    match job {
        Job::Show { file } => {
            let answer = show_file(alloc, world, file, output);
            with_word(answer, file, STANDARD_OUTPUT)
        }
        Job::Check { file } => {
            let answer = check_file(alloc, world, file, output);
            with_word(answer, file, STANDARD_OUTPUT)
        }
        Job::Rewrite { from, to } => {
            let answer = rewrite_file(alloc, world, from, to);
            with_word(answer, from, to)
        }
        Job::Link {
            out,
            map,
            ignore_case,
            files,
        } => {
            let options = options_of(*ignore_case);
            let paths = LinkPaths { out, map: *map };
            let (answer, written) = link_and_map(alloc, world, &options, paths, files);
            let input = input_at_fault(&answer, files);
            with_word(answer, input, written)
        }
        Job::Load {
            file,
            paragraph,
            ..
        } => {
            let answer = load_path(alloc, world, file, *paragraph, output);
            with_word(answer, file, STANDARD_OUTPUT)
        }
    }
}

// An answer beside the word for the file at fault: that of the input where one is at fault, and else that of what is
// written.
fn with_word<'a, A: Allocator + Copy>(
    answer: Result<(), LinkFault<A>>,
    input: &'a str,
    written: &'a str,
) -> (Result<(), LinkFault<A>>, &'a str)
    ensures { result.0 ≡ answer }
{
    let is_of_input = match &answer {
        Ok(()) => false,
        Err(fault) => fault.input().is_some(),
    };
    (answer, if is_of_input { input } else { written })
}

// Writes the listing of a file to standard output.
#[tactic(auto, using(crate::proofs::Failures::at_most_one))]
fn show_file<W: World + Copy, O: Write + Drop, A: Allocator + Copy>(
    alloc: A,
    world: W,
    file: &str,
    output: &mut BufferedSink<O, A>,
) -> Result<(), LinkFault<A>>
    requires { sink_failures output.old ≡ 0 }
    ensures { Settled (λ a. (rest mid : Option (List ℕ))
        × GoesThrough listing (W.bytes world file.now) rest (sink_bytes O.contents output.old) mid a
        × Keeps mid (sink_bytes O.contents output.new)) result }
{
    let mut source = open_source(alloc, world, file);
    let result = show(alloc, &mut source, output);
    flushed(output, by_memory(source.lacks_memory(), result))
}

// Writes to standard output whether a file is a sound module.
#[tactic(auto, using(crate::proofs::Failures::at_most_one))]
fn check_file<W: World + Copy, O: Write + Drop, A: Allocator + Copy>(
    alloc: A,
    world: W,
    file: &str,
    output: &mut BufferedSink<O, A>,
) -> Result<(), LinkFault<A>>
    requires { sink_failures output.old ≡ 0 }
    ensures { Settled (λ a. (rest mid : Option (List ℕ))
        × Checks (W.bytes world file.now) rest (sink_bytes O.contents output.old) mid a
        × Keeps mid (sink_bytes O.contents output.new)) result }
{
    let mut source = open_source(alloc, world, file);
    let result = check(alloc, &mut source, output);
    flushed(output, by_memory(source.lacks_memory(), result))
}

// Writes the records of a file to another one, in their canonical form. Where the file is at fault, those before the
// fault take the other's place.
#[tactic(auto, using(crate::proofs::Failures::at_most_one))]
fn rewrite_file<W: World + Copy, A: Allocator + Copy>(
    alloc: A,
    world: W,
    from: &str,
    to: &str,
) -> Result<(), LinkFault<A>>
    ensures { Settled (λ a. (rest before after : Option (List ℕ))
        × GoesThrough canonical_record (W.bytes world from.now) rest before after a) result }
{
    let mut source = open_source(alloc, world, from);
    let mut sink = BufferedSink::new(alloc, CreatedFile::new(world, to))?;
    let result = rewrite(alloc, &mut source, &mut sink);
    let answer = flushed(&mut sink, by_memory(source.lacks_memory(), result));
    kept(sink, answer)
}

// How a link takes names.
fn options_of(ignore_case: bool) -> Options
    ensures { result.names ≡ names_of ignore_case }
{
    if ignore_case {
        Options::ignoring_case()
    } else {
        Options::new()
    }
}

// The paths of the files that a link writes.
#[derive(Clone, Copy)]
struct LinkPaths<'a> {
    // That of the program.
    out: &'a str,
    // That of the map that is written after it, where one is asked for.
    map: Option<&'a str>,
}

// Links the files into the program, and then writes the map where one is asked for. Beside the answer
// stands the path of the file that was written last, which a failure of writing is one of.
#[tactic(auto, using(crate::proofs::Failures::at_most_one))]
fn link_and_map<'a, W: World + Copy, A: Allocator + Copy>(
    alloc: A,
    world: W,
    options: &Options,
    paths: LinkPaths<'a>,
    files: &[&str],
) -> (Result<(), LinkFault<A>>, &'a str)
    ensures { Settled (λ a. (inputs : List (List ℕ)) → AreTold (λ file. W.bytes world file.now) files.now inputs
        → Outcome options.now.names inputs a) result.0 }
{
    let Ok(mut sources) = open_sources(alloc, world, files) else {
        return (Err(LinkFault::Memory), paths.out);
    };
    let program = CreatedFile::new(world, paths.out);
    let map_file = match paths.map {
        Some(path) => Some(CreatedFile::new(world, path)),
        None => None,
    };
    let (answer, is_of_map) = link_files(alloc, options, &mut sources, program, map_file);
    let written = match paths.map {
        Some(path) if is_of_map => path,
        _ => paths.out,
    };
    let lacks_memory = sources.iter().any(|source| source.lacks_memory());
    (by_memory(lacks_memory, answer), written)
}

// Links the inputs into the program, and then writes the map where one is asked for. Beside the answer stands whether
// it comes of the map.
fn link_files<S: Source, W: Keep, A: Allocator + Copy>(
    alloc: A,
    options: &Options,
    sources: &mut [S],
    out: W,
    map: Option<W>,
) -> (Result<(), LinkFault<A>>, bool)
    requires { All (λ s. S.failures s < 2 ^ 64 - 1) sources.old }
    ensures { Settled (λ a. (inputs : List (List ℕ)) → AreTold S.remaining sources.old inputs
        → Outcome options.now.names inputs a) result.0 }
{
    match link_to(alloc, options, sources, out) {
        Ok(report) => match map {
            Some(map) => (map_to(alloc, &report, map), true),
            None => (Ok(()), false),
        },
        Err(fault) => (Err(fault), false),
    }
}

// Links the inputs into the program, which takes its place when all of it is written.
#[tactic(auto, using(crate::proofs::Failures::at_most_one))]
fn link_to<S: Source, W: Keep, A: Allocator + Copy>(
    alloc: A,
    options: &Options,
    sources: &mut [S],
    out: W,
) -> Result<Report<A>, LinkFault<A>>
    requires { All (λ s. S.failures s < 2 ^ 64 - 1) sources.old }
    ensures { Settled (λ a. (inputs : List (List ℕ)) → AreTold S.remaining sources.old inputs
        → Outcome options.now.names inputs a) result }
{
    let mut sink = BufferedSink::new(alloc, out)?;
    let result = link(alloc, sources, &mut sink, options);
    let answer = flushed(&mut sink, result);
    kept(sink, answer)
}

// Writes the map of what was linked, which takes its place when all of it is written.
#[tactic(auto, using(crate::proofs::Failures::at_most_one))]
fn map_to<W: Keep, A: Allocator + Copy>(
    alloc: A,
    report: &Report<A>,
    out: W,
) -> Result<(), LinkFault<A>>
    ensures { Settled (λ a. a ≡ Ok tt) result }
{
    let mut sink = BufferedSink::new(alloc, out)?;
    let result = write_map(report, &mut sink);
    let answer = flushed(&mut sink, result);
    kept(sink, answer)
}

// The path of the input at fault, where one is.
fn input_at_fault<'a, A: Allocator + Copy>(
    answer: &Result<(), LinkFault<A>>,
    files: &[&'a str],
) -> &'a str {
    let input = match answer {
        Ok(()) => None,
        Err(fault) => fault.input(),
    };
    match input {
        Some(input) if input < files.len() => files[input],
        _ => "",
    }
}

// Writes the listing of a loaded program to standard output.
#[tactic(auto, using(crate::proofs::Failures::at_most_one))]
fn load_path<W: World + Copy, O: Write + Drop, A: Allocator + Copy>(
    alloc: A,
    world: W,
    file: &str,
    paragraph: u16,
    output: &mut BufferedSink<O, A>,
) -> Result<(), LinkFault<A>>
    requires { sink_failures output.old ≡ 0 }
    ensures { Settled (λ a. (rest mid : Option (List ℕ))
        × LoadsFile paragraph (W.bytes world file.now) rest (sink_bytes O.contents output.old) mid a
        × Keeps mid (sink_bytes O.contents output.new)) result }
{
    let mut source = open_source(alloc, world, file);
    let result = load_file(alloc, &mut source, paragraph, output);
    flushed(output, by_memory(source.lacks_memory(), result))
}

// The answer of a command: want of memory where an input failed for that.
fn by_memory<T: Drop, A: Allocator + Copy>(
    lacks_memory: bool,
    answer: Result<T, LinkFault<A>>,
) -> Result<T, LinkFault<A>>
    ensures { result ≡ (if lacks_memory then Err LinkFault.Memory else answer) }
{
    if lacks_memory {
        Err(LinkFault::Memory)
    } else {
        answer
    }
}

// The answer of a command once what its sink holds back is written. A failure there comes first, as it
// would have if nothing were held back.
fn flushed<W: Write + Drop, T: Drop, A: Allocator + Copy>(
    sink: &mut BufferedSink<W, A>,
    answer: Result<T, LinkFault<A>>,
) -> Result<T, LinkFault<A>>
    requires { sink_failures sink.old < 2 ^ 64 - 1 }
    ensures done { OnOk result (held_back sink.new ≡ []) }
    ensures same { Keeps (sink_bytes W.contents sink.old) (sink_bytes W.contents sink.new) }
    ensures kept { sink_failures sink.new ≡ sink_failures sink.old → result ≡ answer }
    ensures failed { (sink_failures sink.new ≡ sink_failures sink.old → ⊥) → result ≡ Err LinkFault.Output }
{
    match sink.flush() {
        Ok(()) => answer,
        Err(_) => Err(LinkFault::Output),
    }
}

// The answer of a command once what it wrote, all of which was handed on, is put in its place: all that it writes, or
// what it wrote before an input was at fault.
fn kept<W: Keep, T: Drop, A: Allocator + Copy>(
    sink: BufferedSink<W, A>,
    answer: Result<T, LinkFault<A>>,
) -> Result<T, LinkFault<A>>
    ensures { (result ≡ answer) ⊎ (result ≡ Err LinkFault.Output) }
{
    if matches!(&answer, Err(LinkFault::Memory | LinkFault::Output)) {
        return answer;
    }
    match sink.keep() {
        Ok(()) => answer,
        Err(_) => Err(LinkFault::Output),
    }
}

// Writes a text to standard output.
fn print_text<O: Write + Drop>(text: &str, output: &mut BufferedSink<O>) -> Result<(), LinkFault>
    requires { sink_failures output.old ≡ 0 }
    ensures { Prints text.now (sink_bytes O.contents output.old) (sink_bytes O.contents output.new) result }
{
    match put_all(output, text.as_bytes()) {
        Ok(()) => flushed(output, Ok(())),
        Err(_) => Err(LinkFault::Output),
    }
}

/// Says that there was no memory, and hands out the exit status.
pub fn out_of_memory<E: Sink>(errors: &mut E) -> u8
    requires { E.failures errors.old < 2 ^ 64 - 1 }
    ensures line { Tells E.written E.failures errors.old errors.new (codes "omf: memory\n") }
    ensures status { result ≡ 3 }
{
    let answer: Result<(), LinkFault> = Err(LinkFault::Memory);
    finish(&answer, "", errors)
}

/// Says why the words are refused, and hands out the exit status.
pub fn wrong_words<E: Sink>(text: &str, errors: &mut E) -> u8
    requires { E.failures errors.old < 2 ^ 64 - 1 }
    ensures text { Tells E.written E.failures errors.old errors.new text.now }
    ensures status { result ≡ 2 }
{
    // where standard error fails, the status alone tells it
    let _ = put_all(errors, text.as_bytes());
    WRONG_WORDS
}

// Writes the line of a fault to standard error, and hands out the exit status. `file` is the word before the fault's
// number.
fn finish<E: Sink, A: Allocator + Copy>(
    answer: &Result<(), LinkFault<A>>,
    file: &str,
    errors: &mut E,
) -> u8
    requires { E.failures errors.old < 2 ^ 64 - 1 }
    ensures line { Tells E.written E.failures errors.old errors.new (told_line answer.now file.now) }
    ensures status { result ≡ exit_status answer.now }
{
    let Err(fault) = answer else {
        return 0;
    };
    // where standard error fails, the status alone tells it
    let _ = fault_line("omf", fault, file, errors);
    status(fault)
}
