//! The program `doslib`: its words, its streams and its exit status.
#![tactic(auto)]

use doslib_jobs::{out_of_memory, run_words, wrong_words};
use omf_files::BufferedSink;
use omf_frame::WriteSink;
use std::env;
use std::io::ErrorKind;
use std::process::ExitCode;

fn main(rt: HostRuntime) -> ExitCode {
    ExitCode::from(run(&rt))
}

// Does what the words after the program's name ask for, and hands out the exit status.
fn run(rt: &HostRuntime) -> u8 {
    let mut errors = WriteSink::new(rt.stderr());
    let Ok(mut output) = BufferedSink::new(rt.alloc(), rt.stdout()) else {
        return out_of_memory(&mut errors);
    };
    let arguments = match env::args(rt) {
        Ok(arguments) => arguments,
        Err(error) if error.kind() == ErrorKind::OutOfMemory => return out_of_memory(&mut errors),
        // a word is no text
        Err(_) => return wrong_words("doslib: wrong words\n", &mut errors),
    };
    let Ok(arguments) = arguments.collect::<Vec<String>>(rt.alloc()) else {
        return out_of_memory(&mut errors);
    };
    let words = arguments.iter().skip(1).map(|word| word.as_str());
    match words.collect::<Vec<&str>>(rt.alloc()) {
        Ok(words) => run_words(rt.alloc(), rt, words.as_slice(), &mut output, &mut errors),
        Err(_) => out_of_memory(&mut errors),
    }
}
