//! The job that a line of LINK or TLINK asks for.
ghost use Rattle.std.specs.Prelude.{◌≡◌, ℕ, IfOk, is_some, not};
ghost use Rattle.doslink_words.specs.Responses as responses;
ghost use Rattle.doslink_words.specs.Tokens.{texts};
ghost use Rattle.doslink_asked.specs.Asked as spec;
ghost use Rattle.doslink_asked.specs.Asked.{job_of};
ghost use Rattle.doslink_asked.specs.Fronts.{IsFront};
ghost use Rattle.doslink_asked.specs.Lines as lines;
ghost use Rattle.doslink_asked.specs.inside.FormNames as forms;
ghost use Rattle.doslink_asked.specs.inside.FormNames.{said_words};

use crate::asked::{Asked, Request};
use crate::definitions::read_definitions;
use crate::fault::AskingFault;
use crate::form_names::{FormWords, LINK_WORDS, TLINK_WORDS, push_form_warning};
use crate::fronts::parts_of;
use crate::line_names::{Names, names_of, with_names};
use crate::line_text::line_of;
use crate::reading::Sources;
use bumpalo::Bump;
use doslink_telling::Limit;
use doslink_words::{Input, Job, text_asked};
use makefile_words::{
    FaultKind, Idle, IdleAt, Language, LineFault, MakefileJob, Settings, is_short, parse_line,
};
use omf_files::World;
use std::alloc::{AllocError, Global};

/// The parts of a line.
#[derive(Clone, Copy)]
pub(crate) struct LineParts<'t> {
    /// The linker whose line it is.
    pub linker: Language,
    /// What stands in front: the environment's LINK, or what TLINK.CFG says.
    pub front: &'t str,
    /// What stands behind that.
    pub text: &'t str,
}

/// What stands behind the name of a library.
const LIBRARY_EXTENSION: &[u8] = b".LIB";

/// The help of a program that takes a line.
const LINES_HELP: &str = "\
Links what compilers for DOS write, with libraries, into an MS-DOS program

Usage: link OBJECTS[,PROGRAM[,MAP[,LIBRARIES[,DEFINITIONS]]]][;]
       tlink OBJECTS[,PROGRAM[,MAP[,LIBRARIES[,DEFINITIONS]]]][;]

Blanks or + stand between the names of a field, and ; behind the last field that is
given. .OBJ, .EXE (.COM), .MAP and .LIB are put behind a name that has no extension.
NUL is no map and CON one on standard output; a library's name that ends in \\, / or :
is a folder of libraries.
@FILE stands for what FILE says. A name with blanks stands in \". Options stand anywhere,
and in the environment's LINK or in TLINK.CFG, which are sources in front of the line:
  link   /NOI case counts, /M a map with publics, /LI one with line numbers too, /ST:N the
         stack's bytes, /DO the order DOSSEG, /NOD[:LIB] no default libraries, or not that
         one, /T a .COM file
  tlink  /c case counts, /x no map, /m a map with publics, /l one with line numbers too,
         /n no default libraries, /t a .COM file, /L FOLDERS of libraries, /j FOLDERS of
         objects
docs/DOSLINK.md has them all. `doslink --help` tells of the words of doslink.
";

// Whether a word asks for help as an option of LINK does: `/?`, or `/HELP`, which may be shortened.
fn asks_line_help(word: &str) -> bool
    ensures { result ≡ spec.asks_line_help word.now }
{
    let word = word.as_bytes();
    word == b"/?".as_slice() || is_short(word, b"/HELP", 3)
}

// `--help` for such a word alone.
fn line_asked<'a>(words: &'a [&'a str]) -> &'a [&'a str]
    ensures { texts result.now ≡ spec.line_asked (texts words.now) }
{
    match words {
        [word] if asks_line_help(word) => &["--help"],
        _ => words,
    }
}

// Whether a word asks for help.
fn asks_help(word: &str) -> bool
    ensures { result ≡ responses.asks_help word.now }
{
    let word = word.as_bytes();
    word == b"--help".as_slice() || word == b"-h".as_slice() || word == b"-?".as_slice()
}

// The text that words ask for, where they are no line: help, or the version.
fn line_text_asked(words: &[&str]) -> Option<&'static str>
    ensures { is_some result ≡ responses.asks_text (texts words.now) }
{
    match words {
        [word] if asks_help(word) => Some(LINES_HELP),
        _ => text_asked(words),
    }
}

// Why options can't be followed, where they can't.
fn unfollowed(settings: &Settings) -> Option<&'static str>
    ensures { lines.are_followed settings.now ≡ not (is_some result) }
{
    if settings.writes_all {
        Some("doslink: /i isn't followed: segments without data take no bytes of the file\n")
    } else {
        None
    }
}

/// The line of a text in which a place stands, and by how many bytes it does so behind that line's begin, both counted
/// from 1.
pub(crate) fn place_in(text: &str, place: usize) -> (usize, usize) {
    let front = text.as_bytes().get(..place).unwrap_or(text.as_bytes());
    let lines = front.iter().filter(|byte| **byte == b'\n').count();
    let behind = front.iter().rposition(|byte| *byte == b'\n');
    let start = match behind {
        Some(at) => at.saturating_add(1),
        None => 0,
    };
    let column = front.len().saturating_sub(start);
    (lines.saturating_add(1), column.saturating_add(1))
}

// What the front of a line is called where a place in it is told.
fn front_name(linker: Language) -> &'static str {
    match linker {
        Language::Link => "LINK: ",
        Language::Tlink => "TLINK.CFG: ",
    }
}

// What is told of a place of a line: what its front is called, where it is in that, the line and the column.
fn place_text(alloc: Global, parts: &LineParts<'_>, place: usize) -> Result<String, AllocError> {
    let behind = place.checked_sub(parts.front.len());
    let (name, (line, column)) = match behind {
        Some(place) => ("", place_in(parts.text, place)),
        None => (front_name(parts.linker), place_in(parts.front, place)),
    };
    format!(in alloc; "{name}line {line}, column {column}")
}

/// What is told of an option that has no effect, and of a definition.
pub(crate) fn idle_text(idle: Idle) -> &'static str {
    match idle {
        Idle::Debug => "no data for debuggers is written",
        Idle::Packing => "the program isn't packed: it runs the same",
        Idle::Nothing => "the option has no effect",
        Idle::Definition => "nothing of it is used",
    }
}

// Appends the line of a warning.
fn push_warning(
    alloc: Global,
    parts: &LineParts<'_>,
    warning: &IdleAt,
    lines: &mut Vec<u8>,
) -> Result<(), AllocError> {
    let place = place_text(alloc, parts, warning.place)?;
    let what = idle_text(warning.idle);
    let told = format!(in alloc; "doslink: warning: {place}: {what}\n")?;
    lines.extend_from_slice(told.as_bytes())?;
    Ok(())
}

// Whether a name is that of a library, by its extension.
fn is_library_name(name: &str) -> bool {
    let name = name.as_bytes();
    match name.len().checked_sub(LIBRARY_EXTENSION.len()) {
        Some(at) => name[at..].eq_ignore_ascii_case(LIBRARY_EXTENSION),
        None => false,
    }
}

// Appends a line for each of the first libraries among the objects, of which LINK links all members, and how many more
// there are.
fn push_searched_warnings(
    alloc: Global,
    job: &Job<'_>,
    lines: &mut Vec<u8>,
) -> Result<(), AllocError> {
    let mut warnings = Limit::new(alloc, job.verbose);
    for input in &job.inputs {
        let Input::File(name) = input else {
            continue;
        };
        if !is_library_name(name) {
            continue;
        }
        if let Some(lines) = warnings.next() {
            let told = format!(in alloc;
                "doslink: warning: {name}: it is searched, and not linked whole\n"
            )?;
            lines.extend_from_slice(told.as_bytes())?;
        }
    }
    warnings.append_to(lines)
}

// What makes files of other forms.
fn form_words(linker: Language) -> FormWords
    ensures { said_words result ≡ forms.linker_words linker }
{
    match linker {
        Language::Link => LINK_WORDS,
        Language::Tlink => TLINK_WORDS,
    }
}

// Appends a line for each of the first warnings, and how many more there are; those of libraries that aren't linked
// whole; and one of a name that is of another form.
fn push_warnings(
    alloc: Global,
    made: &MakefileJob<'_>,
    parts: &LineParts<'_>,
    lines: &mut Vec<u8>,
) -> Result<(), AllocError> {
    let mut warnings = Limit::new(alloc, made.job.verbose);
    for warning in &made.warnings {
        if let Some(lines) = warnings.next() {
            push_warning(alloc, parts, warning, lines)?;
        }
    }
    warnings.append_to(lines)?;
    if parts.linker == Language::Link {
        push_searched_warnings(alloc, &made.job, lines)?;
    }
    push_form_warning(&made.job, form_words(parts.linker), lines)
}

// The line of a word that is at fault: its place, and what is wrong with it.
fn fault_line(
    alloc: Global,
    parts: &LineParts<'_>,
    place: usize,
    word: &str,
    kind: FaultKind,
) -> Result<String, AllocError> {
    let place = place_text(alloc, parts, place)?;
    match kind {
        FaultKind::NoObject => format!(in alloc; "doslink: {kind}\n"),
        FaultKind::Response => {
            format!(in alloc;
                "doslink: {word:?}: response files name one another more than 8 deep\n"
            )
        }
        _ => format!(in alloc; "doslink: {place}: {word:?}: {kind}\n"),
    }
}

// Says why a line is no job.
fn refuse(parts: &LineParts<'_>, fault: &LineFault<'_>, sources: &mut Sources) -> AskingFault {
    let LineFault::Word { place, word, kind } = *fault else {
        return AskingFault::Memory;
    };
    match fault_line(sources.alloc, parts, place, word, kind) {
        Ok(line) => sources.wrong(line.as_str()),
        Err(AllocError) => AskingFault::Memory,
    }
}

// A job with the names of its program and its map whole.
fn whole_job<'t>(
    arena: &'t Bump<Global>,
    job: Job<'t>,
    sources: &Sources,
) -> Result<Job<'t>, AskingFault>
    ensures { IfOk result (lines.IsWhole job.entry) }
{
    let names = names_of(sources.alloc, &job)?;
    let names: &'t Names = arena.try_alloc(names)?;
    Ok(with_names(job, names))
}

// The job that is made of a line: warns of what is left out of it, and of its definitions, which are read.
fn made_job<'t, W: World>(
    world: &W,
    arena: &'t Bump<Global>,
    made: MakefileJob<'t>,
    parts: &LineParts<'_>,
    sources: &mut Sources,
) -> Result<Job<'t>, AskingFault>
    ensures { IfOk result (spec.IsMade (W.bytes world.now) made.entry) }
{
    if let Some(why) = unfollowed(&made.settings) {
        return Err(sources.wrong(why));
    }
    push_warnings(sources.alloc, &made, parts, &mut sources.lines)?;
    read_definitions(world, &made, sources)?;
    whole_job(arena, made.job, sources)
}

// The job that a line asks for, whose response files are read.
fn lined_job<'t, W: World>(
    world: &W,
    arena: &'t Bump<Global>,
    parts: &LineParts<'t>,
    sources: &mut Sources,
) -> Result<Job<'t>, AskingFault>
    ensures { IfOk result
        (spec.IsLined (W.bytes world.now) parts.now.linker parts.now.front.now parts.now.text.now) }
{
    match parse_line(sources.alloc, parts.linker, parts.front, parts.text) {
        Ok(made) => made_job(world, arena, made, parts, sources),
        Err(fault) => Err(refuse(parts, &fault, sources)),
    }
}

// The parts of a line as it is typed, with what its response files say.
fn typed_parts<'t, W: World>(
    world: &W,
    arena: &'t Bump<Global>,
    linker: Language,
    typed: &Request<'_>,
    sources: &mut Sources,
) -> Result<LineParts<'t>, AskingFault>
    ensures { IfOk result (λ parts. (parts.linker ≡ linker)
        × IsFront (W.bytes world.now) (W.looks world.now) typed.now.link.now linker parts.front.now
        × ((rounds : ℕ) × lines.IsSpoken (W.bytes world.now) linker rounds
        (lines.line_of (texts typed.now.words.now)) parts.text.now)) }
{
    let line = line_of(sources.alloc, typed.words)?;
    let (front, text) = parts_of(world, linker, typed.link, line.as_str(), sources)?;
    let front: &'t String = arena.try_alloc(front)?;
    let text: &'t String = arena.try_alloc(text)?;
    Ok(LineParts {
        linker,
        front: front.as_str(),
        text: text.as_str(),
    })
}

// The job that the words of a line ask for.
fn typed_job<'t, W: World>(
    world: &W,
    arena: &'t Bump<Global>,
    linker: Language,
    typed: &Request<'_>,
    sources: &mut Sources,
) -> Result<Job<'t>, AskingFault>
    ensures { IfOk result (spec.IsTyped (W.bytes world.now)
        (IsFront (W.bytes world.now) (W.looks world.now) typed.now.link.now) linker
        (lines.line_of (texts typed.now.words.now))) }
{
    if typed.words.is_empty() {
        return Err(sources.wrong(LINES_HELP));
    }
    let parts = typed_parts(world, arena, linker, typed, sources)?;
    lined_job(world, arena, &parts, sources)
}

/// What words ask for that are a line of LINK or TLINK, or ask for help or the version.
pub(crate) fn asked_by_line<'t, W: World>(
    world: &W,
    arena: &'t Bump<Global>,
    linker: Language,
    typed: &Request<'_>,
    sources: &mut Sources,
) -> Result<Asked<'t>, AskingFault>
    ensures { IfOk result (λ asked. spec.LineAsks (W.bytes world.now)
        (IsFront (W.bytes world.now) (W.looks world.now) typed.now.link.now) linker (texts typed.now.words.now)
        (job_of asked)) }
{
    match line_text_asked(line_asked(typed.words)) {
        Some(text) => Ok(Asked::Text(text)),
        None => Ok(Asked::Job(typed_job(world, arena, linker, typed, sources)?)),
    }
}
