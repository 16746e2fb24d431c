//! The lines of LINK and TLINK.
ghost use Rattle.std.specs.Prelude.{◌≡◌, ◌≤◌, length};
ghost use Rattle.makefile_words.specs.Jobs as jobs;
ghost use Rattle.makefile_words.specs.Lines as spec;
ghost use Rattle.makefile_words.specs.Tokens as marks;
ghost use Rattle.makefile_words.specs.inside.Follows.{Follows};
ghost use Rattle.makefile_words.specs.inside.Lines.{IsFaultAt, Says, line_of};
ghost use Rattle.makefile_words.specs.inside.Tokens.{piece_of, pieces, placed_of};

use crate::cut::cut_word;
use crate::faults::{FaultKind, LineFault, WordFault};
use crate::job::{MakefileJob, job_of};
use crate::line::{Field, Line, Part};
use crate::names::{put_field, put_name};
use crate::options::follow_text;
use crate::tokens::{Language, Placed, Token, tokens_ending, tokens_of};
use doslink_words::Input;
use std::alloc::Global;

// Follows a word: its name, and then its options.
fn follow_word<'a>(
    line: &mut Line<'a>,
    alloc: Global,
    place: usize,
    language: Language,
    word: &'a str,
) -> Result<(), WordFault>
    ensures { Follows result (spec.word_meaning place language word.now (line_of line.old)) (line_of line.new) }
{
    let parts = cut_word(alloc, language, word)?;
    put_name(line, parts.name)?;
    follow_text(line, alloc, place, language, parts.options)
}

// Follows a comma.
fn follow_comma(line: &mut Line) -> Result<(), WordFault>
    ensures { Follows result (spec.comma_meaning (line_of line.old)) (line_of line.new) }
{
    if line.field.is_last() {
        return Err(WordFault::Wrong(FaultKind::TooManyFields));
    }
    line.field = line.field.later();
    line.continued = true;
    line.settings.makes_map = line.settings.makes_map || line.field.is_map();
    Ok(())
}

// Whether no object stands before.
fn is_before_objects(line: &Line) -> bool
    ensures { result ≡ spec.is_before_objects (line_of line.now) }
{
    line.field.is_objects() && line.inputs.is_empty()
}

// Follows a line's end.
fn follow_line_end(line: &mut Line)
    ensures { line_of line.new ≡ spec.line_end_meaning (line_of line.old) }
{
    if line.continued {
        line.continued = false;
    } else if !is_before_objects(line) {
        line.field = line.field.later();
    }
}

// Follows a token before `;`.
fn follow_open<'a>(
    line: &mut Line<'a>,
    alloc: Global,
    language: Language,
    placed: Placed<'a>,
) -> Result<(), WordFault>
    ensures { Follows result (spec.open_meaning placed.entry.place language (piece_of placed.entry.token)
        (line_of line.old)) (line_of line.new) }
{
    match placed.token {
        Token::Word(word) => follow_word(line, alloc, placed.place, language, word)?,
        Token::Quoted(name) => put_field(line, name)?,
        Token::Unclosed => return Err(WordFault::Wrong(FaultKind::UnclosedQuote)),
        Token::Blank => {}
        Token::Plus => line.continued = true,
        Token::Comma => follow_comma(line)?,
        Token::Semicolon => line.field = Field::Ended,
        Token::LineEnd => follow_line_end(line),
    }
    Ok(())
}

// Whether a token may stand behind `;`.
fn says_nothing(token: Token) -> bool
    ensures { result ≡ spec.says_nothing (piece_of token.entry) }
{
    match token {
        Token::Blank | Token::Plus | Token::Semicolon | Token::LineEnd => true,
        _ => false,
    }
}

// Follows a token.
#[tactic(auto, unfolding(crate::specs::Lines::token_meaning))]
fn follow_token<'a>(
    line: &mut Line<'a>,
    alloc: Global,
    language: Language,
    placed: Placed<'a>,
) -> Result<(), WordFault>
    ensures { Follows result (spec.token_meaning language (placed_of placed.entry) (line_of line.old))
        (line_of line.new) }
{
    if !line.field.is_ended() {
        return follow_open(line, alloc, language, placed);
    }
    if says_nothing(placed.token) {
        Ok(())
    } else {
        Err(WordFault::Wrong(FaultKind::BehindEnd))
    }
}

// The fault of a token.
fn fault_at<'a>(placed: Placed<'a>, fault: WordFault) -> LineFault<'a>
    ensures { IsFaultAt (placed_of placed.entry) fault result }
{
    match fault {
        WordFault::Memory => LineFault::Memory,
        WordFault::Wrong(kind) => LineFault::Word {
            place: placed.place,
            word: placed.token.text(),
            kind,
        },
    }
}

// Follows a word of TLINK.CFG.
fn follow_options_alone<'a>(
    line: &mut Line<'a>,
    alloc: Global,
    place: usize,
    language: Language,
    word: &'a str,
) -> Result<(), WordFault>
    ensures { Follows result (spec.configured_meaning place language (marks.Word word.now) (line_of line.old))
        (line_of line.new) }
{
    let parts = cut_word(alloc, language, word)?;
    if parts.name.is_some() {
        return Err(WordFault::Wrong(FaultKind::NoOption));
    }
    follow_text(line, alloc, place, language, parts.options)
}

// Follows a token of TLINK.CFG.
fn follow_configured<'a>(
    line: &mut Line<'a>,
    alloc: Global,
    language: Language,
    placed: Placed<'a>,
) -> Result<(), WordFault>
    ensures { Follows result (spec.configured_meaning placed.entry.place language (piece_of placed.entry.token)
        (line_of line.old)) (line_of line.new) }
{
    match placed.token {
        Token::Word(word) => follow_options_alone(line, alloc, placed.place, language, word),
        Token::Quoted(_) | Token::Unclosed | Token::Plus | Token::Comma => {
            Err(WordFault::Wrong(FaultKind::NoOption))
        }
        Token::Blank | Token::Semicolon | Token::LineEnd => Ok(()),
    }
}

// Follows a token of a part of a line.
fn follow_placed<'a>(
    line: &mut Line<'a>,
    alloc: Global,
    part: Part,
    language: Language,
    placed: Placed<'a>,
) -> Result<(), WordFault>
    ensures { Follows result (spec.part_meaning part language (placed_of placed.entry) (line_of line.old))
        (line_of line.new) }
{
    match (part, language) {
        (Part::Front, Language::Tlink) => follow_configured(line, alloc, language, placed),
        _ => follow_token(line, alloc, language, placed),
    }
}

// What the tokens of a part say behind what is said.
fn follow_tokens<'a>(
    alloc: Global,
    part: Part,
    language: Language,
    tokens: &[Placed<'a>],
    said: Line<'a>,
) -> Result<Line<'a>, LineFault<'a>>
    ensures { Says result (spec.tokens_meaning part language (pieces tokens.now) (line_of said.entry)) }
{
    let mut line = said;
    'tokens: for placed in tokens {
        match follow_placed(&mut line, alloc, part, language, *placed) {
            Ok(()) => {}
            Err(fault) => return Err(fault_at(*placed, fault)),
        }
    }
    Ok(line)
}

// Whether an object is named.
fn has_object(line: &Line) -> bool
    ensures { result ≡ spec.has_object (line_of line.now).inputs }
{
    match line.inputs.as_slice() {
        [Input::File(_), ..] => true,
        _ => false,
    }
}

// What the front of a line says.
#[tactic(auto, unfolding(crate::specs::Lines::front_meaning))]
fn read_front<'a>(
    alloc: Global,
    language: Language,
    front: &'a str,
) -> Result<Line<'a>, LineFault<'a>>
    ensures { Says result (spec.front_meaning language front.now) }
{
    let tokens = tokens_of(alloc, language, front)?;
    let nothing = Line::new(alloc, language);
    follow_tokens(alloc, Part::Front, language, tokens.as_slice(), nothing)
}

// What the rest of a line of so many bytes says, behind what is said.
#[tactic(auto, unfolding(crate::specs::Lines::rest_meaning))]
fn read_rest<'a>(
    alloc: Global,
    language: Language,
    total: usize,
    text: &'a str,
    said: Line<'a>,
) -> Result<Line<'a>, LineFault<'a>>
    requires { length text.now ≤ total }
    ensures { Says result (spec.rest_meaning language total text.now (line_of said.entry)) }
{
    let tokens = tokens_ending(alloc, language, total, text)?;
    let line = follow_tokens(alloc, Part::Behind, language, tokens.as_slice(), said)?;
    if has_object(&line) {
        return Ok(line);
    }
    Err(LineFault::Word {
        place: total,
        word: "",
        kind: FaultKind::NoObject,
    })
}

// What a line says.
fn read_line<'a>(
    alloc: Global,
    language: Language,
    front: &'a str,
    text: &'a str,
) -> Result<Line<'a>, LineFault<'a>>
    ensures { Says result (spec.meaning language front.now text.now) }
{
    let line = read_front(alloc, language, front)?;
    // texts that have no common length fit in no memory
    let Some(total) = front.len().checked_add(text.len()) else {
        return Err(LineFault::Memory);
    };
    read_rest(alloc, language, total, text, line)
}

/// The job that a line of TLINK or LINK asks for, with what its response files say in the places of their words. The
/// fields are objects, program, map, libraries and definitions, parted by commas and by the ends of lines; blanks and
/// `+` part the names in a field, and `;` ends the line. A word with blanks stands in double quotes. Options stand
/// anywhere. Names are as they are written, without the extensions `.OBJ`, `.EXE`, `.MAP` and `.LIB` that they take.
/// The front is read before the text: under LINK, whose environment has it, as the text is; under TLINK it is what
/// TLINK.CFG says, which is options alone. The first word at fault is told with its place.
pub fn parse_line<'a>(
    alloc: Global,
    language: Language,
    front: &'a str,
    text: &'a str,
) -> Result<MakefileJob<'a>, LineFault<'a>>
    ensures { jobs.Means language result (spec.meaning language front.now text.now) }
{
    Ok(job_of(alloc, language, read_line(alloc, language, front, text)?))
}
