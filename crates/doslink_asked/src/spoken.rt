//! The lines of directives, with what files say in the places of the lines that name them.
ghost use Rattle.std.specs.Prelude.{◌≡◌, ◌++◌, ℕ, List, IfOk, None, OnOk, string_bytes};
ghost use Rattle.std.specs.Option.{option_map};
ghost use Rattle.std.specs.Str.Lines.{lines as lines_in_text};
ghost use Rattle.doslink_words.specs.Tokens.{texts as said_texts};
ghost use Rattle.doslink_asked.specs.Spoken as spec;
ghost use Rattle.doslink_asked.specs.inside.Spoken.{place_in, said_line, said_lines};

use crate::fault::AskingFault;
use crate::reading::{MOST_DEEP, Sources, directives_path, response_path, response_text};
use bumpalo::Bump;
use omf_files::World;
use std::alloc::{AllocError, Global};

/// A line of directives, and where it stands.
#[derive(Clone, Copy)]
pub(crate) struct SourceLine<'t> {
    /// The file that it is a line of, as it is named; none where it is one of a word.
    pub path: Option<&'t str>,
    /// Its number there, counted from 1.
    pub number: usize,
    /// Its text.
    pub text: &'t str,
}

/// The directives of some words.
#[derive(Drop)]
pub(crate) struct Spoken<'t> {
    /// Their lines.
    pub lines: Vec<SourceLine<'t>>,
    /// The text of these, each with a line end behind it.
    pub text: &'t str,
}

/// The path of the file that a line names alone: what stands behind `@`, without the white space around both.
fn line_response(text: &str) -> Option<&str>
    ensures { spec.IsNamedBy text.now (option_map (λ path. path.now) result) }
{
    response_path(text.trim_ascii())
}

/// The lines of a text.
fn lines_of<'t>(alloc: Global, text: &'t str) -> Result<Vec<&'t str>, AllocError>
    ensures { IfOk result (λ list. said_texts list.items ≡ lines_in_text text.now) }
{
    text.lines().collect(alloc)
}

/// Appends lines with their numbers from 1 on, of the file at a path or of a word.
fn push_numbered<'t>(
    path: Option<&'t str>,
    texts: &[&'t str],
    lines: &mut Vec<SourceLine<'t>>,
) -> Result<(), AllocError>
    ensures { OnOk result (said_lines lines.new.items
        ≡ said_lines lines.old.items ++ spec.numbered (option_map (λ p. p.now) path.entry) 1 (said_texts texts.now)) }
{
    for (index, text) in texts.iter().enumerate() {
        let number = index + 1;
        lines.push(SourceLine { path, number, text })?;
    }
    Ok(())
}

/// Appends the lines of a text, of the file at a path or of a word.
fn push_lines<'t>(
    alloc: Global,
    path: Option<&'t str>,
    text: &'t str,
    lines: &mut Vec<SourceLine<'t>>,
) -> Result<(), AllocError>
    ensures { OnOk result (said_lines lines.new.items
        ≡ said_lines lines.old.items ++ spec.lines_in (option_map (λ p. p.now) path.entry) text.now) }
{
    let all = lines_of(alloc, text)?;
    push_numbered(path, &all, lines)
}

/// Appends the lines of a file of directives.
fn push_file<'t, W: World>(
    world: &W,
    arena: &'t Bump<Global>,
    path: &'t str,
    lines: &mut Vec<SourceLine<'t>>,
    sources: &mut Sources,
) -> Result<(), AskingFault>
    ensures { IfOk result
        (λ done. (part : List spec.SourceLine) × spec.AreLinesOf (W.bytes world.now) path.now part
        × (said_lines lines.new.items ≡ said_lines lines.old.items ++ part)) }
{
    sources.count_file(path)?;
    let found = directives_path(sources.alloc, world, path)?;
    let text = response_text(world, found.as_str(), sources)?;
    let text: &'t String = arena.try_alloc(text)?;
    push_lines(sources.alloc, Some(path), text.as_str(), lines)?;
    Ok(())
}

/// Appends what stands for a line, and hands out whether that is what a file says.
fn push_line<'t, W: World>(
    world: &W,
    arena: &'t Bump<Global>,
    line: SourceLine<'t>,
    lines: &mut Vec<SourceLine<'t>>,
    sources: &mut Sources,
) -> Result<bool, AskingFault>
    ensures { IfOk result
        (λ more. (part : List spec.SourceLine) × spec.StandsFor (W.bytes world.now) (said_line line.entry) part
        × (said_lines lines.new.items ≡ said_lines lines.old.items ++ part)) }
{
    match line_response(line.text) {
        Some(path) => {
            push_file(world, arena, path, lines, sources)?;
            Ok(true)
        }
        None => {
            lines.push(line)?;
            Ok(false)
        }
    }
}

/// What stands for lines, and whether a file is among that.
fn next_lines<'t, W: World>(
    world: &W,
    arena: &'t Bump<Global>,
    lines: &[SourceLine<'t>],
    sources: &mut Sources,
) -> Result<(Vec<SourceLine<'t>>, bool), AskingFault>
    ensures { IfOk result
        (λ r. spec.StandForAll (W.bytes world.now) (said_lines lines.now) (said_lines r.0.items)) }
{
    let mut next = Vec::new(sources.alloc);
    let mut more = false;
    for line in lines {
        let is_file = push_line(world, arena, *line, &mut next, sources)?;
        more = more || is_file;
    }
    Ok((next, more))
}

/// Appends the lines of a word, which is held with the texts of files.
fn push_word<'t>(
    alloc: Global,
    arena: &'t Bump<Global>,
    word: &str,
    lines: &mut Vec<SourceLine<'t>>,
) -> Result<(), AllocError>
    ensures { OnOk result (said_lines lines.new.items ≡ said_lines lines.old.items ++ spec.lines_in None word.now) }
{
    let text = String::from_str(alloc, word)?;
    let text: &'t String = arena.try_alloc(text)?;
    push_lines(alloc, None, text.as_str(), lines)
}

/// The lines of words.
fn word_lines<'t>(
    alloc: Global,
    arena: &'t Bump<Global>,
    words: &[&str],
) -> Result<Vec<SourceLine<'t>>, AllocError>
    ensures { IfOk result (λ lines. said_lines lines.items ≡ spec.word_lines (said_texts words.now)) }
{
    let mut lines = Vec::new(alloc);
    for word in words {
        push_word(alloc, arena, word, &mut lines)?;
    }
    Ok(lines)
}

/// Stops where a line still names a file.
fn check_depth(lines: &[SourceLine<'_>], sources: &mut Sources) -> Result<(), AskingFault>
    ensures { IfOk result (λ done. spec.NameNone (said_lines lines.now)) }
{
    for line in lines {
        if let Some(path) = line_response(line.text) {
            return Err(sources.wrong_file(
                path,
                "response files name one another more than 8 deep",
            ));
        }
    }
    Ok(())
}

/// The lines of words with what files say in the places of those that name them, down to a depth.
fn lines_in_rounds<'t, W: World>(
    world: &W,
    arena: &'t Bump<Global>,
    words: &[&str],
    sources: &mut Sources,
) -> Result<Vec<SourceLine<'t>>, AskingFault>
    ensures { IfOk result
        (λ lines. (rounds : ℕ) × spec.AreSpoken (W.bytes world.now) rounds (spec.word_lines (said_texts words.now))
        (said_lines lines.items)) }
{
    let mut lines = word_lines(sources.alloc, arena, words)?;
    'rounds: for _ in 0..MOST_DEEP {
        let (next, more) = next_lines(world, arena, &lines, sources)?;
        lines = next;
        if !more {
            return Ok(lines);
        }
    }
    Ok(lines)
}

/// The lines of words with those of all files that are named, where these name one another no deeper than that.
fn all_lines<'t, W: World>(
    world: &W,
    arena: &'t Bump<Global>,
    words: &[&str],
    sources: &mut Sources,
) -> Result<Vec<SourceLine<'t>>, AskingFault>
    ensures { IfOk result
        (λ lines. spec.AreAll (W.bytes world.now) (said_texts words.now) (said_lines lines.items)) }
{
    let lines = lines_in_rounds(world, arena, words, sources)?;
    check_depth(&lines, sources)?;
    Ok(lines)
}

/// The text of lines, each with a line end behind it.
fn text_of(alloc: Global, lines: &[SourceLine<'_>]) -> Result<String, AllocError>
    ensures { IfOk result (λ text. string_bytes text ≡ spec.text_of (said_lines lines.now)) }
{
    let mut text = String::new(alloc);
    for line in lines {
        text.push_str(line.text)?;
        text.push_str("\n")?;
    }
    Ok(text)
}

/// The directives that words give: each is a line of its own, and one that begins with `@` stands for the lines of the
/// file that it names, as each line of such a file does.
pub(crate) fn directives_of<'t, W: World>(
    world: &W,
    arena: &'t Bump<Global>,
    words: &[&str],
    sources: &mut Sources,
) -> Result<Spoken<'t>, AskingFault>
    ensures { IfOk result (λ spoken. spec.IsTextOf (W.bytes world.now) (said_texts words.now)
        (said_lines spoken.lines.items) spoken.text.now) }
{
    let lines = all_lines(world, arena, words, sources)?;
    let text = text_of(sources.alloc, &lines)?;
    let text: &'t String = arena.try_alloc(text)?;
    Ok(Spoken {
        lines,
        text: text.as_str(),
    })
}

impl<'t> Spoken<'t> {
    /// The file in which a line of the text stands, if it is in one, and the line's number there.
    pub(crate) fn place_of(&self, line: usize) -> (Option<&'t str>, usize)
        ensures { (option_map (λ path. path.now) result.0, result.1) ≡ place_in (said_lines self.now.lines.items) line }
    {
        match self.lines.get(line.saturating_sub(1)) {
            Some(found) => (found.path, found.number),
            None => (None, line),
        }
    }
}
