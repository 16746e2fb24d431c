//! The text of a line, with what response files say in the places of their words.
ghost use Rattle.std.specs.Prelude.{◌≡◌, ◌++◌, ◌∷◌, [], ℕ, IfOk, List, OnOk, string_bytes};
ghost use Rattle.std.specs.Option.{option_map};
ghost use Rattle.std.specs.Char.{is_ascii_whitespace};
ghost use Rattle.std.specs.List.{list_any};
ghost use Rattle.doslink_words.specs.Tokens.{texts};
ghost use Rattle.makefile_words.specs.Tokens as split;
ghost use Rattle.makefile_words.specs.Tokens.{piece_of, pieces};
ghost use Rattle.doslink_asked.specs.Lines as spec;

use crate::fault::AskingFault;
use crate::reading::{MOST_DEEP, Sources, response_path, response_text};
use makefile_words::{Language, Placed, Token, tokens_of};
use omf_files::World;
use std::alloc::{AllocError, Global};

// Whether some byte is white space.
fn has_blank(word: &[u8]) -> bool
    ensures { result ≡ list_any is_ascii_whitespace word.now }
{
    word.iter().any(|byte| byte.is_ascii_whitespace())
}

// Whether a byte is a quote, or a mark of a line.
fn is_mark(byte: u8) -> bool
    ensures { result ≡ spec.is_mark byte }
{
    byte == b'"' || byte == b'+' || byte == b',' || byte == b';'
}

// Whether some byte is a quote, or a mark of a line.
fn has_mark(word: &[u8]) -> bool
    ensures { result ≡ list_any spec.is_mark word.now }
{
    word.iter().any(|byte| is_mark(*byte))
}

// Appends a text in quotes.
fn push_quoted(text: &mut String, quoted: &str) -> Result<(), AllocError>
    ensures { OnOk result (string_bytes text.new ≡ string_bytes text.old ++ (34 ∷ (quoted.now ++ 34 ∷ []))) }
{
    text.push_str("\"")?;
    text.push_str(quoted)?;
    text.push_str("\"")
}

// Appends a word, in quotes again where these are gone.
fn push_word(text: &mut String, word: &str) -> Result<(), AllocError>
    ensures { OnOk result (string_bytes text.new ≡ string_bytes text.old ++ spec.line_word word.now) }
{
    if has_blank(word.as_bytes()) && !has_mark(word.as_bytes()) {
        push_quoted(text, word)
    } else {
        text.push_str(word)
    }
}

/// The line of words: a blank stands behind each.
pub(crate) fn line_of(alloc: Global, words: &[&str]) -> Result<String, AllocError>
    ensures { IfOk result (λ text. string_bytes text ≡ spec.line_of (texts words.now)) }
{
    let mut text = String::new(alloc);
    for word in words {
        push_word(&mut text, word)?;
        text.push_str(" ")?;
    }
    Ok(text)
}

// The path of the response file that a token stands for.
fn response_of<'a>(token: Token<'a>) -> Option<&'a str>
    ensures { option_map (λ path. path.now) result ≡ spec.response_of (piece_of token.entry) }
{
    match token {
        Token::Word(word) => response_path(word),
        _ => None,
    }
}

// Appends a token as it is written.
fn push_spelled(text: &mut String, token: Token<'_>) -> Result<(), AllocError>
    ensures { OnOk result (string_bytes text.new ≡ string_bytes text.old ++ spec.spelled (piece_of token.entry)) }
{
    match token {
        Token::Quoted(quoted) => push_quoted(text, quoted),
        _ => text.push_str(token.text()),
    }
}

// A text without the line feed at its end.
fn without_line_end(text: &str) -> &str
    ensures { spec.IsWithoutLineEnd text.now result.now }
{
    match text.strip_suffix('\n') {
        Some(front) => front,
        None => text,
    }
}

// Appends what a response file says.
fn push_file<W: World>(
    world: &W,
    path: &str,
    text: &mut String,
    sources: &mut Sources,
) -> Result<(), AskingFault>
    ensures { IfOk result (λ done. (part : List ℕ) × spec.IsSaidIn (W.bytes world.now path.now) part
        × (string_bytes text.new ≡ string_bytes text.old ++ part)) }
{
    sources.count_file(path)?;
    let file = response_text(world, path, sources)?;
    text.push_str(without_line_end(file.as_str()))?;
    Ok(())
}

// Appends what stands for a token, and hands out whether that is what a response file says.
fn push_token<W: World>(
    world: &W,
    token: Token<'_>,
    text: &mut String,
    sources: &mut Sources,
) -> Result<bool, AskingFault>
    ensures { IfOk result
        (λ more. (part : List ℕ) × spec.StandsFor (W.bytes world.now) (piece_of token.entry) part
        × (string_bytes text.new ≡ string_bytes text.old ++ part)) }
{
    match response_of(token) {
        Some(path) => {
            push_file(world, path, text, sources)?;
            Ok(true)
        }
        None => {
            push_spelled(text, token)?;
            Ok(false)
        }
    }
}

// What stands for some tokens, and whether a response file is among them.
fn replaced<W: World>(
    world: &W,
    tokens: &[Placed<'_>],
    sources: &mut Sources,
) -> Result<(String, bool), AskingFault>
    ensures { IfOk result
        (λ r. spec.StandsForAll (W.bytes world.now) (pieces tokens.now) (string_bytes r.0)) }
{
    let mut text = String::new(sources.alloc);
    let mut more = false;
    for placed in tokens {
        let is_file = push_token(world, placed.token, &mut text, sources)?;
        more = more || is_file;
    }
    Ok((text, more))
}

// A line with its response files put in the places of their words, and whether it had any.
fn next_line<W: World>(
    world: &W,
    language: Language,
    line: &str,
    sources: &mut Sources,
) -> Result<(String, bool), AskingFault>
    ensures { IfOk result
        (λ r. spec.StandsForAll (W.bytes world.now) (split.tokens language line.now) (string_bytes r.0)) }
{
    let tokens = tokens_of(sources.alloc, language, line)?;
    replaced(world, &tokens, sources)
}

/// A line with its response files put in the places of their words, and the files that they name in turn, up to a
/// depth:
/// a word that would be one behind that is left.
pub(crate) fn with_files<W: World>(
    world: &W,
    language: Language,
    text: &str,
    sources: &mut Sources,
) -> Result<String, AskingFault>
    ensures { IfOk result
        (λ line. (rounds : ℕ) × spec.IsSpoken (W.bytes world.now) language rounds text.now (string_bytes line)) }
{
    let mut line = String::from_str(sources.alloc, text)?;
    'rounds: for _ in 0..MOST_DEEP {
        let (next, more) = next_line(world, language, line.as_str(), sources)?;
        line = next;
        if !more {
            return Ok(line);
        }
    }
    Ok(line)
}
