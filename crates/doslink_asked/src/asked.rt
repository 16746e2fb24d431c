//! What words ask for: a job, or a text.
ghost use Rattle.std.specs.Prelude.{◌≡◌, IfOk};
ghost use Rattle.std.specs.Option.{option_map};
ghost use Rattle.doslink_words.specs.Tokens.{texts};
ghost use Rattle.doslink_asked.specs.Asked as spec;
ghost use Rattle.doslink_asked.specs.Asked.{job_of};
ghost use Rattle.doslink_asked.specs.Fronts.{IsFront};

use crate::directives::asked_by_directives;
use crate::fault::AskingFault;
use crate::languages::{Language, as_asked, language_named};
use crate::lines::asked_by_line;
use crate::reading::{Sources, response_path, response_text};
use bumpalo::Bump;
use command_line::WordsFault;
use doslink_words::{Job, SplitFault, parse_words, split_words};
use makefile_words::Language as Linker;
use omf_files::World;
use std::alloc::{AllocError, Global};

/// What words ask for.
#[derive(Drop)]
pub enum Asked<'t> {
    /// That a job is done.
    Job(Job<'t>),
    /// That a text is printed: help, or the version.
    Text(&'t str),
}

/// Words that ask for something, and what they take of the environment.
#[derive(Clone, Copy)]
pub struct Request<'r> {
    /// How they are read, unless `--as link`, `--as tlink` or `--as wlink` stands in front of them.
    pub language: Language,
    /// The words behind the program's name.
    pub words: &'r [&'r str],
    /// The text of the environment's LINK, which is read in front of the words of a line of LINK: empty where there is
    /// none.
    pub link: &'r str,
    /// The folders of the environment's LIB, in which default libraries are looked up last.
    pub folders: &'r [&'r str],
}

/// Words that are held as long as what they ask for.
fn held_words<'t>(
    arena: &'t Bump<Global>,
    words: &[&str],
    sources: &Sources,
) -> Result<Vec<&'t str>, AllocError>
    ensures { IfOk result (λ held. texts held.items ≡ texts words.now) }
{
    let mut held = Vec::new(sources.alloc);
    for word in words {
        held.push(arena.try_alloc_str(word)?)?;
    }
    Ok(held)
}

/// What words ask for that are options and files.
fn asked_by_options<'t>(
    arena: &'t Bump<Global>,
    words: &'t [&'t str],
    sources: &mut Sources,
) -> Result<Asked<'t>, AskingFault>
    ensures { IfOk result (λ asked. spec.OptionsAsk (texts words.now) (job_of asked)) }
{
    match parse_words(sources.alloc, words) {
        Ok(job) => Ok(Asked::Job(job)),
        Err(WordsFault::Help(text)) => {
            let text: &'t String = arena.try_alloc(text)?;
            Ok(Asked::Text(text.as_str()))
        }
        Err(WordsFault::Wrong(text)) => Err(sources.wrong(text.as_str())),
        Err(WordsFault::Memory) => Err(AskingFault::Memory),
    }
}

/// What the words of a text ask for.
fn asked_by_text<'t>(
    arena: &'t Bump<Global>,
    text: &'t str,
    sources: &mut Sources,
) -> Result<Asked<'t>, AskingFault>
    ensures { IfOk result (λ asked. spec.TextAsks text.now (job_of asked)) }
{
    match split_words(sources.alloc, text) {
        Ok(words) => {
            let words: &'t Vec<&'t str> = arena.try_alloc(words)?;
            asked_by_options(arena, words, sources)
        }
        Err(SplitFault::Memory) => Err(AskingFault::Memory),
        Err(SplitFault::UnclosedQuote) => Err(sources.wrong("doslink: a quote isn't closed\n")),
    }
}

/// What the words of a response file ask for.
fn asked_by_file<'t, W: World>(
    world: &W,
    arena: &'t Bump<Global>,
    path: &str,
    sources: &mut Sources,
) -> Result<Asked<'t>, AskingFault>
    ensures { IfOk result (λ asked. spec.FileAsks (W.bytes world.now) path.now (job_of asked)) }
{
    let text = response_text(world, path, sources)?;
    let text: &'t String = arena.try_alloc(text)?;
    asked_by_text(arena, text.as_str(), sources)
}

/// The path of a response file that is the only word.
fn only_response<'a>(words: &[&'a str]) -> Option<&'a str>
    ensures { option_map (λ path. path.now) result ≡ spec.only_response (texts words.now) }
{
    match words {
        [word] => response_path(word),
        _ => None,
    }
}

/// What words ask for that are options and files, or one response file of these.
fn asked_by_command<'t, W: World>(
    world: &W,
    arena: &'t Bump<Global>,
    words: &[&str],
    sources: &mut Sources,
) -> Result<Asked<'t>, AskingFault>
    ensures { IfOk result (λ asked. spec.CommandAsks (W.bytes world.now) (texts words.now) (job_of asked)) }
{
    match only_response(words) {
        Some(path) => asked_by_file(world, arena, path, sources),
        None => {
            let words = held_words(arena, words, sources)?;
            let words: &'t Vec<&'t str> = arena.try_alloc(words)?;
            asked_by_options(arena, words, sources)
        }
    }
}

/// What words ask for, which are read so.
fn asked_in<'t, W: World>(
    world: &W,
    arena: &'t Bump<Global>,
    request: &Request<'_>,
    sources: &mut Sources,
) -> Result<Asked<'t>, AskingFault>
    ensures { IfOk result (λ asked. spec.AskIn (W.bytes world.now)
        (IsFront (W.bytes world.now) (W.looks world.now) request.now.link.now) request.now.language
        (texts request.now.words.now) (job_of asked)) }
{
    match request.language {
        Language::Words => asked_by_command(world, arena, request.words, sources),
        Language::Directives => asked_by_directives(world, arena, request.words, sources),
        Language::Link => asked_by_line(world, arena, Linker::Link, request, sources),
        Language::Tlink => asked_by_line(world, arena, Linker::Tlink, request, sources),
    }
}

/// What the words behind the program's name ask for. They are read as the request says, unless `--as link`, `--as
/// tlink` or `--as wlink` stands in front. Files that they name are read: which these are is kept, and so are the lines
/// of warnings, and of what is wrong.
///
/// # Errors
///
/// The words are wrong, or what a file says that they name; such a file can't be read; there is no memory.
pub fn asked_by<'t, W: World>(
    world: &W,
    arena: &'t Bump<Global>,
    request: &Request<'_>,
    sources: &mut Sources,
) -> Result<Asked<'t>, AskingFault>
    ensures { IfOk result (λ asked. spec.Ask (W.bytes world.now)
        (IsFront (W.bytes world.now) (W.looks world.now) request.now.link.now) request.now.language
        (texts request.now.words.now) (job_of asked)) }
{
    let Some((name, words)) = as_asked(request.words) else {
        return asked_in(world, arena, request, sources);
    };
    match language_named(name.as_bytes()) {
        Some(language) => {
            let named = Request {
                language,
                words,
                ..*request
            };
            asked_in(world, arena, &named, sources)
        }
        None => Err(sources.wrong("doslink: behind --as stands link, tlink or wlink\n")),
    }
}
