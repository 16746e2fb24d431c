//! The job that directives ask for.
ghost use Rattle.std.specs.Prelude.{◌≡◌, ◌++◌, IfOk, OnOk, Ok};
ghost use Rattle.std.specs.List.{flat_map};
ghost use Rattle.std.specs.Option.{option_map};
ghost use Rattle.doslink_words.specs.Directives.{Means, meaning};
ghost use Rattle.doslink_words.specs.Responses.{response_words};
ghost use Rattle.doslink_words.specs.Tokens.{texts};
ghost use Rattle.doslink_words.specs.declared.job.Directives.{Directives as Said};
ghost use Rattle.doslink_asked.specs.Asked as spec;
ghost use Rattle.doslink_asked.specs.Asked.{job_of};
ghost use Rattle.doslink_asked.specs.Named.{IsNamed};
ghost use Rattle.doslink_asked.specs.inside.FormNames as forms;
ghost use Rattle.doslink_asked.specs.inside.Idle as idle;
ghost use Rattle.doslink_asked.specs.inside.Spoken.{said_lines};

use crate::asked::Asked;
use crate::directive_names::{name_of, with_name};
use crate::fault::AskingFault;
use crate::form_names::{DIRECTIVE_WORDS, push_form_warning};
use crate::reading::Sources;
use crate::spoken::{Spoken, directives_of};
use bumpalo::Bump;
use doslink_telling::{push_rest, told_count};
use doslink_words::{
    DirectiveFault, Directives, Job, Warning, WarningKind, parse_directives, response_word,
    text_asked,
};
use itoa::Buffer;
use omf_files::World;
use std::alloc::{AllocError, Global};

/// The line of a directive that is wrong: its file, and the line's number there.
fn directive_line(
    alloc: Global,
    fault: &DirectiveFault<'_>,
    spoken: &Spoken<'_>,
) -> Result<String, AllocError> {
    let DirectiveFault::Line { line, text, kind } = *fault else {
        return String::from_str(alloc, "doslink: memory\n");
    };
    let (path, line) = spoken.place_of(line);
    let own = DirectiveFault::Line { line, text, kind };
    match path {
        Some(path) => format!(in alloc; "doslink: {path}: {own}\n"),
        None => format!(in alloc; "doslink: {own}\n"),
    }
}

/// What a warning says.
fn warning_text(kind: WarningKind) -> &'static str
    ensures { result.now ≡ idle.idle_text kind }
{
    match kind {
        WarningKind::Option => "the option has no effect",
        WarningKind::Symbols => "no file of symbols is written",
        WarningKind::Sort => "the map is not sorted",
        WarningKind::Disable => "no message is left out",
    }
}

/// Appends a response file, where a line is in one, and the line's number there.
fn push_place(lines: &mut Vec<u8>, path: Option<&str>, line: usize) -> Result<(), AllocError>
    ensures { OnOk result (lines.new.items
        ≡ lines.old.items ++ idle.place_text (option_map (λ path. path.now) path.entry, line)) }
{
    if let Some(path) = path {
        lines.extend_from_slice(path.as_bytes())?;
        lines.extend_from_slice(b": ")?;
    }
    lines.extend_from_slice(b"line ")?;
    lines.extend_from_slice(Buffer::new().format(line).as_bytes())
}

/// Appends the line of a warning: the file of its directive, and the line's number there.
fn push_warning(
    warning: &Warning,
    spoken: &Spoken<'_>,
    lines: &mut Vec<u8>,
) -> Result<(), AllocError>
    ensures { OnOk result (lines.new.items ≡ lines.old.items
        ++ idle.idle_line (said_lines spoken.now.lines.items) warning.now) }
{
    let (path, line) = spoken.place_of(warning.line);
    lines.extend_from_slice(b"doslink: warning: ")?;
    push_place(lines, path, line)?;
    lines.extend_from_slice(b": ")?;
    lines.extend_from_slice(warning_text(warning.kind).as_bytes())?;
    lines.extend_from_slice(b"\n")
}

/// Appends the line of each of these warnings.
fn push_told(told: &[Warning], spoken: &Spoken<'_>, lines: &mut Vec<u8>) -> Result<(), AllocError>
    ensures { OnOk result (lines.new.items ≡ lines.old.items
        ++ flat_map (idle.idle_line (said_lines spoken.now.lines.items)) told.now) }
{
    for warning in told {
        push_warning(warning, spoken, lines)?;
    }
    Ok(())
}

/// Warns of each directive that has no effect, unless the job is to be quiet: appends a line for each of the first
/// warnings, and how many more there are.
fn push_warnings(
    directives: &Directives<'_>,
    spoken: &Spoken<'_>,
    lines: &mut Vec<u8>,
) -> Result<(), AllocError>
    ensures { OnOk result (lines.new.items ≡ lines.old.items ++ idle.idle_warnings directives.now.job
        (said_lines spoken.now.lines.items) directives.now.warnings.items) }
{
    if directives.job.quiet {
        return Ok(());
    }
    let warnings = directives.warnings.as_slice();
    let told = told_count(warnings.len(), directives.job.verbose);
    push_told(&warnings[..told], spoken, lines)?;
    push_rest(lines, warnings.len() - told)
}

/// Warns of an EXE file with the name of one of another form, where no form is said.
fn push_unsaid_form(job: &Job<'_>, lines: &mut Vec<u8>) -> Result<(), AllocError>
    ensures { OnOk result (lines.new.items ≡ lines.old.items ++ forms.unsaid_warning job.now) }
{
    match job.form {
        Some(_) => Ok(()),
        None => push_form_warning(job, DIRECTIVE_WORDS, lines),
    }
}

/// Warns of directives that have no effect, unless the job is to be quiet, and of an EXE file with the name of one of
/// another form.
fn push_all_warnings(
    directives: &Directives<'_>,
    spoken: &Spoken<'_>,
    lines: &mut Vec<u8>,
) -> Result<(), AllocError>
    ensures { OnOk result (lines.new.items ≡ lines.old.items ++ (idle.idle_warnings directives.now.job
        (said_lines spoken.now.lines.items) directives.now.warnings.items
        ++ forms.unsaid_warning directives.now.job)) }
{
    push_warnings(directives, spoken, lines)?;
    push_unsaid_form(&directives.job, lines)
}

/// Says why directives are wrong.
fn refuse(fault: &DirectiveFault<'_>, spoken: &Spoken<'_>, sources: &mut Sources) -> AskingFault {
    if matches!(fault, DirectiveFault::Memory) {
        return AskingFault::Memory;
    }
    match directive_line(sources.alloc, fault, spoken) {
        Ok(line) => sources.wrong(line.as_str()),
        Err(AllocError) => AskingFault::Memory,
    }
}

/// A job with the name of its program whole.
fn named_job<'t>(
    arena: &'t Bump<Global>,
    job: Job<'t>,
    sources: &Sources,
) -> Result<Job<'t>, AskingFault>
    ensures { IfOk result (IsNamed job.entry) }
{
    let name = name_of(sources.alloc, &job)?;
    let name: &'t Option<String> = arena.try_alloc(name)?;
    Ok(with_name(job, name))
}

/// The job that the text of directives asks for.
fn text_job<'t>(
    arena: &'t Bump<Global>,
    spoken: &Spoken<'t>,
    sources: &mut Sources,
) -> Result<Job<'t>, AskingFault>
    ensures { IfOk result (λ job. (directives : Said) × Means (Ok directives) (meaning spoken.now.text.now)
        × IsNamed directives.job job) }
{
    match parse_directives(sources.alloc, spoken.text) {
        Ok(directives) => {
            push_all_warnings(&directives, spoken, &mut sources.lines)?;
            named_job(arena, directives.job, sources)
        }
        Err(fault) => Err(refuse(&fault, spoken, sources)),
    }
}

/// The job that the directives ask for that these words give.
fn given_job<'t, W: World>(
    world: &W,
    arena: &'t Bump<Global>,
    words: &[&str],
    sources: &mut Sources,
) -> Result<Job<'t>, AskingFault>
    ensures { IfOk result (spec.AreDirected (W.bytes world.now) (texts words.now)) }
{
    let spoken = directives_of(world, arena, words, sources)?;
    text_job(arena, &spoken, sources)
}

/// The same, where words may be a path in quotes that was cut at its blanks.
fn joined_job<'t, W: World>(
    world: &W,
    arena: &'t Bump<Global>,
    words: &[&str],
    sources: &mut Sources,
) -> Result<Job<'t>, AskingFault>
    ensures { IfOk result (spec.AreDirected (W.bytes world.now) (response_words (texts words.now))) }
{
    match response_word(sources.alloc, words)? {
        Some(word) => {
            let only = [word.as_str()];
            given_job(world, arena, only.as_slice(), sources)
        }
        None => given_job(world, arena, words, sources),
    }
}

/// What words ask for that are directives, or ask for help or the version.
pub(crate) fn asked_by_directives<'t, W: World>(
    world: &W,
    arena: &'t Bump<Global>,
    words: &[&str],
    sources: &mut Sources,
) -> Result<Asked<'t>, AskingFault>
    ensures { IfOk result (λ asked. spec.DirectivesAsk (W.bytes world.now) (texts words.now) (job_of asked)) }
{
    match text_asked(words) {
        Some(text) => Ok(Asked::Text(text)),
        None => Ok(Asked::Job(joined_job(world, arena, words, sources)?)),
    }
}
