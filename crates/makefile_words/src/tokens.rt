//! The tokens of a line.
ghost use Rattle.std.specs.Prelude.{◌≡◌, ◌+◌, ◌<◌, ◌≤◌, IfOk, IfSome, drop, length, slice_index};
ghost use Rattle.std.specs.List.{position_or_len};
ghost use Rattle.std.specs.Str.{IsUtf8};
ghost use Rattle.makefile_words.specs.Tokens as spec;
ghost use Rattle.makefile_words.specs.Tokens.{piece_of, pieces};
ghost use Rattle.makefile_words.specs.inside.Tokens.{said, said_mark};

use crate::cut::has_folders;
use std::alloc::{AllocError, Global};

/// The linker whose line is read.
#[derive(Clone, Copy, Debug, PartialEq, Eq)]
pub enum Language {
    /// TLINK of Borland, 2.0 to 7.1.
    Tlink,
    /// LINK of Microsoft, 3.6 to 5.6.
    Link,
}

/// A token of a line.
#[derive(Clone, Copy)]
pub enum Token<'a> {
    /// What stands without quotes, but for those of folders.
    Word(&'a str),
    /// What stands between two quotes.
    Quoted(&'a str),
    /// A quote that isn't closed.
    Unclosed,
    /// White space within a line.
    Blank,
    /// `+`
    Plus,
    /// `,`
    Comma,
    /// `;`
    Semicolon,
    /// The end of a line.
    LineEnd,
}

/// A token and its place.
#[derive(Clone, Copy)]
pub struct Placed<'a> {
    /// How many bytes of the line stand before it.
    pub place: usize,
    /// The token.
    pub token: Token<'a>,
}

impl<'a> Token<'a> {
    /// The text of the token: a quote alone where it isn't closed, and a blank for any white space within a line.
    pub fn text(self) -> &'a str
        ensures { result.now ≡ spec.text_of (piece_of self.entry) }
    {
        match self {
            Token::Word(text) | Token::Quoted(text) => text,
            Token::Unclosed => "\"",
            Token::Blank => " ",
            Token::Plus => "+",
            Token::Comma => ",",
            Token::Semicolon => ";",
            Token::LineEnd => "\n",
        }
    }
}

// Whether a byte stands behind a word, and not in it. A quote does, unless a folder begins with it.
fn ends_word(folders: bool, byte: u8) -> bool
    ensures { result ≡ spec.ends_word folders byte }
{
    byte.is_ascii_whitespace()
        || byte == b'"'
        || byte == b'+'
        || byte == b','
        || (byte == b';' && !folders)
}

/// Whether a byte is a quote.
pub(crate) fn is_quote(byte: u8) -> bool
    ensures { result ≡ spec.is_quote byte }
{
    byte == b'"'
}

// The mark that a byte is.
fn mark_of<'a>(byte: u8) -> Option<Token<'a>>
    ensures { said_mark result ≡ spec.mark_of byte }
{
    if byte == b'\n' {
        Some(Token::LineEnd)
    } else if byte.is_ascii_whitespace() {
        Some(Token::Blank)
    } else if byte == b'+' {
        Some(Token::Plus)
    } else if byte == b',' {
        Some(Token::Comma)
    } else if byte == b';' {
        Some(Token::Semicolon)
    } else {
        None
    }
}

// What stands up to a quote, and what follows that.
fn quoted_token<'a>(text: &'a str) -> (Token<'a>, &'a str)
    ensures token { said result ≡ spec.quoted text.now }
    ensures shorter { length result.1.now ≤ length text.now }
    ensures utf8 { IsUtf8 result.1.now }
{
    match text.split_once('"') {
        Some((quoted, rest)) => (Token::Quoted(quoted), rest),
        None => (Token::Unclosed, ""),
    }
}

// The place of the first byte from here on that stands behind a word, or the end.
fn end_from(folders: bool, text: &[u8], start: usize) -> usize
    requires { start ≤ length text.now }
    ensures end { result ≡ spec.end_from folders text.now start }
    ensures within { start ≤ result × result ≤ length text.now }
{
    let rest = &text[start..];
    let end = rest.iter().position(|byte| ends_word(folders, *byte));
    start + end.unwrap_or(rest.len())
}

// Whether a folder begins behind this part of a word: behind `;`, or behind the letter of an option.
fn opens_folder(part: &[u8]) -> bool
    ensures { result ≡ spec.opens_folder part.now }
{
    match part {
        [.., b';'] | [.., b'/', b'L' | b'j'] | [b'-', b'L' | b'j'] => true,
        _ => false,
    }
}

// How many bytes stand before the first quote, or in all where there is none.
fn quote_at(text: &[u8]) -> usize
    ensures place { result ≡ position_or_len spec.is_quote text.now }
    ensures within { result ≤ length text.now }
{
    let place = text.iter().position(|byte| is_quote(*byte));
    place.unwrap_or(text.len())
}

// How many bytes two quotes have with what stands between them, where a text begins with such.
fn quotation_len(text: &[u8]) -> Option<usize>
    ensures len { result ≡ spec.quotation_len text.now }
    ensures within { IfSome result (λ len. 2 ≤ len × len ≤ length text.now) }
{
    match text {
        [first, inside @ ..] if is_quote(*first) => {
            let len = quote_at(inside);
            if len < inside.len() {
                Some(len + 2)
            } else {
                None
            }
        }
        _ => None,
    }
}

// How many bytes a folder has with its two quotes that begins here.
fn quoted_at(text: &[u8], place: usize) -> Option<usize>
    requires { place ≤ length text.now }
    ensures len { result ≡ spec.quoted_at text.now place }
    ensures within { IfSome result (λ len. 2 ≤ len × place + len ≤ length text.now) }
{
    if opens_folder(&text[..place]) {
        quotation_len(&text[place..])
    } else {
        None
    }
}

// Where a word ends that has folders, of which this front is known.
fn folders_end(text: &[u8], front: usize) -> usize
    requires { front ≤ length text.now }
    ensures end { result ≡ spec.folders_end text.now front }
    ensures further { front ≤ result }
{
    let mut end = end_from(true, text, front);
    'quoted: while let Some(len) = quoted_at(text, end) {
        end = end_from(true, text, end + len);
    }
    end
}

// How many bytes the word has that a text begins with.
#[tactic(auto, unfolding(crate::specs::Tokens::word_len))]
fn word_len(alloc: Global, language: Language, text: &str) -> Result<usize, AllocError>
    requires { 0 < length text.now }
    ensures len { IfOk result (λ end. end ≡ spec.word_len language text.now) }
    ensures some { IfOk result (λ end. 0 < end) }
{
    let front = end_from(false, text.as_bytes(), 1);
    if has_folders(alloc, language, &text[..front])? {
        Ok(folders_end(text.as_bytes(), front))
    } else {
        Ok(front)
    }
}

// The word that a text begins with, and what follows it.
fn word_token<'a>(
    alloc: Global,
    language: Language,
    text: &'a str,
) -> Result<(Token<'a>, &'a str), AllocError>
    requires { 0 < length text.now }
    ensures token { IfOk result (λ p. said p ≡ spec.word language text.now) }
    ensures shorter { IfOk result (λ p. length p.1.now < length text.now) }
    ensures utf8 { IfOk result (λ p. IsUtf8 p.1.now) }
{
    let end = word_len(alloc, language, text)?;
    Ok((Token::Word(&text[..end]), &text[end..]))
}

// The token that a text begins with, and what follows it.
fn next_token<'a>(
    alloc: Global,
    language: Language,
    text: &'a str,
) -> Result<(Token<'a>, &'a str), AllocError>
    requires { 0 < length text.now }
    ensures token { IfOk result (λ p. said p ≡ spec.token language (slice_index text.now 0) (drop 1 text.now)) }
    ensures shorter { IfOk result (λ p. length p.1.now < length text.now) }
    ensures utf8 { IfOk result (λ p. IsUtf8 p.1.now) }
{
    let first = text.as_bytes()[0];
    if is_quote(first) {
        return Ok(quoted_token(&text[1..]));
    }
    match mark_of(first) {
        Some(mark) => Ok((mark, &text[1..])),
        None => word_token(alloc, language, text),
    }
}

/// The tokens of a text that ends a line of so many bytes.
pub(crate) fn tokens_ending<'a>(
    alloc: Global,
    language: Language,
    total: usize,
    text: &'a str,
) -> Result<Vec<Placed<'a>>, AllocError>
    requires { length text.now ≤ total }
    ensures { IfOk result (λ tokens. pieces tokens.items ≡ spec.tokens_ending language total text.now) }
{
    let mut tokens = Vec::new(alloc);
    let mut rest = text;
    while !rest.is_empty() {
        let place = total - rest.len();
        let next = next_token(alloc, language, rest)?;
        tokens.push(Placed {
            place,
            token: next.0,
        })?;
        rest = next.1;
    }
    Ok(tokens)
}

/// The tokens of a line, which together hold each byte of it once.
pub fn tokens_of<'a>(
    alloc: Global,
    language: Language,
    text: &'a str,
) -> Result<Vec<Placed<'a>>, AllocError>
    ensures { IfOk result (λ tokens. pieces tokens.items ≡ spec.tokens language text.now) }
{
    tokens_ending(alloc, language, text.len(), text)
}
