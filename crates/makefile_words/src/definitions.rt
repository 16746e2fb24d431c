//! The statements of a file of definitions.
ghost use Rattle.std.specs.Prelude.{◌≡◌, ◌<◌, ◌≤◌, length};
ghost use Rattle.clap.specs.Lexer.{strip_byte};
ghost use Rattle.std.specs.List.{after_first, before_first};
ghost use Rattle.std.specs.Option.{option_map};
ghost use Rattle.std.specs.Str.{IsUtf8};
ghost use Rattle.doslink_words.specs.Tokens.{after_space};
ghost use Rattle.makefile_words.specs.Definitions as spec;
ghost use Rattle.makefile_words.specs.inside.Definitions.{Tells};

use crate::faults::{FaultKind, LineFault};
use crate::line::IdleAt;
use crate::link::number;
use crate::names::is;
use crate::settings::Idle;
use std::alloc::Global;

// A text without the white space at its start.
fn after_space(text: &str) -> &str
    ensures value { result.now ≡ after_space text.now }
    ensures within { length result.now ≤ length text.now }
    ensures utf8 { IsUtf8 result.now }
{
    text.trim_ascii_start()
}

// Whether a text says nothing: it is empty, or a comment.
fn is_comment(text: &str) -> bool
    ensures { result ≡ spec.is_comment text.now }
{
    match text.as_bytes() {
        [] | [b';', ..] => true,
        _ => false,
    }
}

// Whether nothing stands in a text but white space and a comment.
fn says_nothing(text: &str) -> bool
    ensures { result ≡ spec.says_nothing text.now }
{
    is_comment(after_space(text))
}

// Whether a byte stands behind a word, and not in it.
fn ends_word(byte: u8) -> bool
    ensures { result ≡ spec.ends_word byte }
{
    byte.is_ascii_whitespace() || byte == b';' || byte == b'"' || byte == b'\''
}

// How many bytes the word has that a text begins with.
fn word_len(text: &[u8]) -> usize
    requires { 0 < length text.now }
    ensures len { result ≡ spec.word_len text.now }
    ensures within { result ≤ length text.now }
{
    let inside = &text[1..];
    let end = inside.iter().position(|byte| ends_word(*byte));
    1 + end.unwrap_or(inside.len())
}

// The word that a text begins with, and what stands behind it.
fn first_word(text: &str) -> (&str, &str)
    requires { 0 < length text.now }
    ensures { (result.0.now, result.1.now) ≡ spec.first_word text.now }
{
    let end = word_len(text.as_bytes());
    (&text[..end], &text[end..])
}

// Whether a quote ends a text that stands behind one, with nothing behind that.
fn is_closed(quote: char, text: &str) -> bool
    requires { quote < 128 }
    ensures { result ≡ spec.is_closed quote text.now }
{
    match text.split_once(quote) {
        Some((_, behind)) => says_nothing(behind),
        None => false,
    }
}

// What stands behind a quote at the start.
fn after_quote(quote: char, text: &str) -> Option<&str>
    requires { quote < 128 }
    ensures { option_map (λ rest. rest.now) result ≡ strip_byte quote text.now }
{
    text.strip_prefix(quote)
}

// Whether this is a text between two such quotes.
fn is_between(quote: char, text: &str) -> bool
    requires { quote < 128 }
    ensures { result ≡ spec.is_between quote text.now }
{
    match after_quote(quote, text) {
        Some(inside) => is_closed(quote, inside),
        None => false,
    }
}

// Whether this is a text between two quotes.
fn is_quotation(text: &str) -> bool
    ensures { result ≡ spec.is_quotation text.now }
{
    is_between('"', text) || is_between('\'', text)
}

// Whether this is a number.
fn is_number(text: &str) -> bool
    ensures { result ≡ spec.is_number text.now }
{
    if text.is_empty() {
        return false;
    }
    let (word, behind) = first_word(text);
    number(word.as_bytes()).is_some() && says_nothing(behind)
}

// What is wrong with a statement, by its first word and what stands behind that.
fn statement_fault(word: &str, operands: &str) -> Option<FaultKind>
    ensures { result ≡ spec.statement_fault word.now operands.now }
{
    let operands = after_space(operands);
    if is(word, "name") {
        None
    } else if is(word, "description") {
        if is_quotation(operands) {
            None
        } else {
            Some(FaultKind::NoDescription)
        }
    } else if is(word, "stacksize") {
        if is_number(operands) {
            None
        } else {
            Some(FaultKind::NoStackSize)
        }
    } else {
        Some(FaultKind::Definitions)
    }
}

// Follows a line that begins at a place, without the white space at its start.
fn follow_line<'a>(
    warnings: &mut Vec<IdleAt>,
    place: usize,
    line: &'a str,
) -> Result<(), LineFault<'a>>
    ensures { Tells result (spec.line_meaning place line.now warnings.old.items) warnings.new.items }
{
    if is_comment(line) {
        return Ok(());
    }
    let (word, operands) = first_word(line);
    if let Some(kind) = statement_fault(word, operands) {
        return Err(LineFault::Word { place, word, kind });
    }
    warnings.push(IdleAt {
        place,
        idle: Idle::Definition,
    })?;
    Ok(())
}

// The first line of a text, and what stands behind its end.
fn first_line(text: &str) -> (&str, &str)
    requires { 0 < length text.now }
    ensures line { result.0.now ≡ before_first spec.is_line_end text.now }
    ensures behind { result.1.now ≡ after_first spec.is_line_end text.now }
    ensures shorter { length result.1.now < length text.now }
    ensures utf8 { IsUtf8 result.1.now }
{
    text.split_once('\n').unwrap_or((text, ""))
}

/// The statements of a file of definitions, none of which has an effect, in their order. Each stands in a line of its
/// own, whose first word says which one it is, without regard to case: `NAME`, behind which anything may stand;
/// `DESCRIPTION` with a text between `'` or `"`; and `STACKSIZE` with a number, decimal, or octal behind `0`, or
/// hexadecimal behind `0x`. A `;` begins a comment up to the line's end. The first other word at the begin of a line is
/// told with its place, and so is the first statement whose text or number isn't there.
pub fn parse_definitions<'a>(alloc: Global, text: &'a str) -> Result<Vec<IdleAt>, LineFault<'a>>
    ensures { spec.Means result (spec.meaning text.now) }
{
    let mut warnings = Vec::new(alloc);
    let mut rest = text;
    loop {
        let front = after_space(rest);
        if front.is_empty() {
            return Ok(warnings);
        }
        let place = text.len() - front.len();
        let (line, behind) = first_line(front);
        follow_line(&mut warnings, place, line)?;
        rest = behind;
    }
}
