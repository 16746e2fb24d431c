//! The program `doslink`: its words, its streams and its exit status.
#![tactic(auto)]

ghost use Rattle.std.specs.Prelude.{◌≡◌, ◌-◌, ◌^◌, ◌<◌};
ghost use Rattle.omf_files.specs.Files.{sink_failures};

use dos_names::{Names, Seen};
use doslink_asked::{Language, Request, language_asked, language_of, library_folders};
use doslink_jobs::{out_of_memory, run_words, wrong_words};
use omf_files::BufferedSink;
use omf_frame::{Sink, WriteSink};
use std::env::{self, VarError};
use std::io::{ErrorKind, Write};
use std::process::ExitCode;

fn main(rt: HostRuntime) -> ExitCode {
    ExitCode::from(run(&rt))
}

// Does what the words after the program's name ask for, and hands out the exit status.
fn run(rt: &HostRuntime) -> u8 {
    let mut errors = WriteSink::new(rt.stderr());
    let Ok(mut output) = BufferedSink::new(rt.alloc(), rt.stdout()) else {
        return out_of_memory(&mut errors);
    };
    let arguments = match env::args(rt) {
        Ok(arguments) => arguments,
        Err(error) if error.kind() == ErrorKind::OutOfMemory => return out_of_memory(&mut errors),
        // a word is no text
        Err(_) => return wrong_words("doslink: wrong words\n", &mut errors),
    };
    let Ok(arguments) = arguments.collect::<Vec<String>>(rt.alloc()) else {
        return out_of_memory(&mut errors);
    };
    let words = arguments.iter().map(|word| word.as_str());
    match words.collect::<Vec<&str>>(rt.alloc()) {
        Ok(words) => run_arguments(rt, &words, &mut output, &mut errors),
        Err(_) => out_of_memory(&mut errors),
    }
}

// The files of the machine, by paths of DOS where a line of LINK or TLINK names them, or directives do.
fn files_of<'a>(rt: &'a HostRuntime, seen: &'a Seen, language: Language) -> Names<'a> {
    match language {
        Language::Link | Language::Tlink | Language::Directives => Names::of_dos(rt, seen),
        Language::Words => Names::of_machine(rt, seen),
    }
}

// The text of the environment's LINK, where a line of LINK is read and it is there; else none.
fn link_text(rt: &HostRuntime, language: Language) -> Result<String, VarError> {
    if language != Language::Link {
        return Ok(String::new(rt.alloc()));
    }
    match env::var(rt, "LINK") {
        Err(VarError::NotPresent) => Ok(String::new(rt.alloc())),
        told => told,
    }
}

// The text of the environment's LIB, which TLINK doesn't read: none where it is missing or no text.
fn library_list(rt: &HostRuntime, language: Language) -> Result<String, VarError> {
    if language == Language::Tlink {
        return Ok(String::new(rt.alloc()));
    }
    match env::var(rt, "LIB") {
        Err(VarError::OutOfMemory) => Err(VarError::OutOfMemory),
        told => Ok(told.unwrap_or(String::new(rt.alloc()))),
    }
}

// Does what the program's name and the words after it ask for, and hands out the exit status.
fn run_arguments<O: Write + Drop, E: Sink>(
    rt: &HostRuntime,
    arguments: &[&str],
    output: &mut BufferedSink<O>,
    errors: &mut E,
) -> u8
    requires output { sink_failures output.old ≡ 0 }
    requires errors { E.failures errors.old < 2 ^ 64 - 1 }
{
    let (language, words) = match arguments {
        [program, words @ ..] => (language_of(program), words),
        [] => (Language::Words, arguments),
    };
    let asked = language_asked(language, words);
    let link = match link_text(rt, asked) {
        Ok(text) => text,
        Err(VarError::OutOfMemory) => return out_of_memory(errors),
        Err(_) => return wrong_words("doslink: LINK: it is no UTF-8 text\n", errors),
    };
    let list = match library_list(rt, asked) {
        Ok(list) => list,
        Err(_) => return out_of_memory(errors),
    };
    let Ok(folders) = library_folders(rt.alloc(), list.as_str()) else {
        return out_of_memory(errors);
    };
    let request = Request {
        language,
        words,
        link: link.as_str(),
        folders: &folders,
    };
    let seen = Seen::nothing();
    let world = files_of(rt, &seen, asked);
    run_words(rt.alloc(), world, &request, output, errors)
}
