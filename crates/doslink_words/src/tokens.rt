//! The tokens of a text.
ghost use Rattle.std.specs.Prelude.{◌≡◌, ◌⊎◌, ◌<◌, ◌≤◌, IfErr, IfOk, IfSome, None, Some, length, map};
ghost use Rattle.std.specs.Str.{IsUtf8};
ghost use Rattle.doslink_words.specs.Tokens as spec;
ghost use Rattle.doslink_words.specs.Directives as directives;
ghost use Rattle.doslink_words.specs.Operands as operands;
ghost use Rattle.doslink_words.specs.Places as places;
ghost use Rattle.doslink_words.specs.inside.Follows.{Follows, Gives};
ghost use Rattle.doslink_words.specs.inside.Parts.{line_tokens};
ghost use Rattle.doslink_words.specs.Tokens.{after_space, texts};
ghost use Rattle.doslink_words.specs.inside.Tokens.{all_placed, piece_of, pieces, placed_of, said, said_mark};
ghost use Rattle.doslink_words.specs.declared.faults.SplitFault.TheVariants.{Memory, UnclosedQuote};

use crate::faults::{DirectiveFaultKind, LineFault, SplitFault, WrongWord, own, wrong};
use crate::keywords::is;
use std::alloc::{AllocError, Global};

/// What splits a text.
#[derive(Clone, Copy)]
pub(crate) enum Syntax {
    /// Words stand between white space.
    Words,
    /// Words stand between white space, commas, equals signs and braces.
    Directives,
}

/// A token of a text.
#[derive(Clone, Copy)]
pub(crate) enum Token<'a> {
    /// What stands without quotes.
    Word(&'a str),
    /// What stands between two quotes.
    Quoted(&'a str),
    /// `,`
    Comma,
    /// `=`
    Equals,
    /// `{`
    Open,
    /// `}`
    Close,
}

/// A token of directives, with its place.
#[derive(Clone, Copy)]
pub(crate) struct Placed<'a> {
    /// The token.
    pub token: Token<'a>,
    /// The number of its line, counted from 1.
    pub line: usize,
}

impl<'a> Placed<'a> {
    // The name that it is.
    pub(crate) fn name(self) -> Result<&'a str, WrongWord<'a>>
        ensures { Gives (λ name. name.now) result (directives.name_of (placed_of self.entry)) }
    {
        match self.token {
            Token::Word(text) | Token::Quoted(text) => Ok(text),
            _ => Err(wrong(self)),
        }
    }

    // The word without quotes that it is.
    pub(crate) fn word(self) -> Result<&'a str, WrongWord<'a>>
        ensures { Gives (λ name. name.now) result (directives.word_of (placed_of self.entry)) }
    {
        match self.token {
            Token::Word(text) => Ok(text),
            _ => Err(wrong(self)),
        }
    }
}

impl<'a> Token<'a> {
    // The text of the token.
    pub(crate) fn text(self) -> &'a str
        ensures { result.now ≡ spec.text_of (piece_of self.entry) }
    {
        match self {
            Token::Word(text) | Token::Quoted(text) => text,
            Token::Comma => ",",
            Token::Equals => "=",
            Token::Open => "{",
            Token::Close => "}",
        }
    }

    // Whether it is this keyword.
    pub(crate) fn is_word(self, keyword: &str) -> bool
        ensures { result ≡ directives.is_word (piece_of self.entry) keyword.now }
    {
        match self {
            Token::Word(text) => is(text, keyword),
            _ => false,
        }
    }

    // Whether it is a comma.
    pub(crate) fn is_comma(self) -> bool
        ensures { result ≡ directives.is_comma (piece_of self.entry) }
    {
        match self {
            Token::Comma => true,
            _ => false,
        }
    }

    // Whether it is a brace that begins a list.
    pub(crate) fn is_open(self) -> bool
        ensures { result ≡ operands.is_open (piece_of self.entry) }
    {
        match self {
            Token::Open => true,
            _ => false,
        }
    }

    // Whether it is a brace that ends a list.
    pub(crate) fn is_close(self) -> bool
        ensures { result ≡ operands.is_close (piece_of self.entry) }
    {
        match self {
            Token::Close => true,
            _ => false,
        }
    }

    // Whether it is an equals sign.
    pub(crate) fn is_equals(self) -> bool
        ensures { result ≡ directives.is_equals (piece_of self.entry) }
    {
        match self {
            Token::Equals => true,
            _ => false,
        }
    }
}

// Whether a byte is a mark of directives.
fn is_mark(byte: u8) -> bool
    ensures { result ≡ spec.is_mark byte }
{
    byte == b',' || byte == b'=' || byte == b'{' || byte == b'}'
}

// Whether a byte stands behind a word, and not in it.
fn ends_word(syntax: Syntax, byte: u8) -> bool
    ensures { result ≡ spec.ends_word syntax byte }
{
    match syntax {
        Syntax::Words => byte.is_ascii_whitespace(),
        Syntax::Directives => byte.is_ascii_whitespace() || is_mark(byte),
    }
}

// Whether a byte begins what is quoted.
fn is_quote(syntax: Syntax, byte: u8) -> bool
    ensures { result ≡ spec.is_quote syntax byte }
{
    match syntax {
        Syntax::Words => byte == b'"',
        Syntax::Directives => byte == b'"' || byte == b'\'',
    }
}

// The mark that a byte is.
fn mark_of<'a>(syntax: Syntax, byte: u8) -> Option<Token<'a>>
    ensures { said_mark result ≡ spec.mark_of syntax byte }
{
    match syntax {
        Syntax::Directives if byte == b',' => Some(Token::Comma),
        Syntax::Directives if byte == b'=' => Some(Token::Equals),
        Syntax::Directives if byte == b'{' => Some(Token::Open),
        Syntax::Directives if byte == b'}' => Some(Token::Close),
        _ => None,
    }
}

// The text without the white space at its start.
pub(crate) fn after_space(text: &str) -> &str
    ensures { result.now ≡ after_space text.now }
{
    text.trim_ascii_start()
}

// What stands up to a quote, and what follows that.
pub(crate) fn quoted_token<'a>(quote: u8, text: &'a str) -> Option<(Token<'a>, &'a str)>
    requires { quote < 128 }
    ensures token { said result ≡ spec.quoted quote text.now }
    ensures shorter { IfSome result (λ p. length p.1.now ≤ length text.now) }
    ensures utf8 { IfSome result (λ p. IsUtf8 p.1.now) }
{
    let (quoted, rest) = text.split_once(char::from(quote))?;
    Some((Token::Quoted(quoted), rest))
}

// How many bytes the word has that a text begins with.
fn word_len(syntax: Syntax, text: &str) -> usize
    requires { 0 < length text.now }
    ensures { result ≡ spec.word_len syntax text.now }
{
    let inside = &text.as_bytes()[1..];
    let end = inside.iter().position(|byte| ends_word(syntax, *byte));
    end.unwrap_or(inside.len()) + 1
}

// The word that a text begins with, and what follows it.
fn word_token<'a>(syntax: Syntax, text: &'a str) -> (Token<'a>, &'a str)
    requires { 0 < length text.now }
    ensures token { (piece_of result.0, result.1.now) ≡ spec.word syntax text.now }
    ensures shorter { length result.1.now < length text.now }
    ensures utf8 { IsUtf8 result.1.now }
{
    let end = word_len(syntax, text);
    (Token::Word(&text[..end]), &text[end..])
}

// The token that a text begins with, and what follows it, or none where a quote isn't closed.
fn next_token<'a>(syntax: Syntax, text: &'a str) -> Option<(Token<'a>, &'a str)>
    requires { 0 < length text.now }
    ensures token { said result ≡ spec.token syntax text.now }
    ensures shorter { IfSome result (λ p. length p.1.now < length text.now) }
    ensures utf8 { IfSome result (λ p. IsUtf8 p.1.now) }
{
    let first = text.as_bytes()[0];
    if is_quote(syntax, first) {
        return quoted_token(first, &text[1..]);
    }
    match mark_of(syntax, first) {
        Some(mark) => Some((mark, &text[1..])),
        None => Some(word_token(syntax, text)),
    }
}

// The tokens of a text.
pub(crate) fn tokens<'a>(
    alloc: Global,
    syntax: Syntax,
    text: &'a str,
) -> Result<Vec<Token<'a>>, SplitFault>
    ensures ok { IfOk result (λ tokens. spec.tokens syntax text.now ≡ Some (pieces tokens.items)) }
    ensures err { IfErr result (λ fault. (fault ≡ Memory)
        ⊎ ((fault ≡ UnclosedQuote) × (spec.tokens syntax text.now ≡ None))) }
{
    let mut tokens = Vec::new(alloc);
    let mut rest = text;
    loop {
        let front = after_space(rest);
        if front.is_empty() {
            return Ok(tokens);
        }
        let Some((token, after)) = next_token(syntax, front) else {
            return Err(SplitFault::UnclosedQuote);
        };
        tokens.push(token)?;
        rest = after;
    }
}

// Whether what is left of a line of directives says nothing: it is empty, or a comment.
fn says_nothing(front: &str) -> bool
    ensures { result ≡ places.says_nothing front.now }
{
    front.is_empty() || front.as_bytes()[0] == b'#'
}

/// Appends the tokens of a line of directives. A `#` where a token would begin ends the line.
pub(crate) fn put_tokens<'a>(
    tokens: &mut Vec<Placed<'a>>,
    line: usize,
    text: &'a str,
) -> Result<(), LineFault<'a>>
    ensures { Follows result (line_tokens (all_placed tokens.old.items) line text.now)
        (all_placed tokens.new.items) }
{
    let mut rest = text;
    loop {
        let front = after_space(rest);
        if says_nothing(front) {
            return Ok(());
        }
        let Some((token, after)) = next_token(Syntax::Directives, front) else {
            return Err(LineFault::Wrong(own(DirectiveFaultKind::UnclosedQuote)));
        };
        tokens.push(Placed { token, line })?;
        rest = after;
    }
}

// The texts of tokens.
fn texts_of<'a>(alloc: Global, tokens: &[Token<'a>]) -> Result<Vec<&'a str>, AllocError>
    ensures { IfOk result (λ words. texts words.items ≡ map spec.text_of (pieces tokens.now)) }
{
    let mut words = Vec::new(alloc);
    'tokens: for token in tokens {
        words.push(token.text())?;
    }
    Ok(words)
}

/// The words of a text: what stands between white space (blank, tab, form feed and the ends of lines). A word that
/// begins with `"` goes on to the next `"`, without the two, and the next word begins behind it. A text whose last
/// quote isn't closed is no list of words.
pub fn split_words<'a>(alloc: Global, text: &'a str) -> Result<Vec<&'a str>, SplitFault>
    ensures ok { IfOk result (λ words. spec.words text.now ≡ Some (texts words.items)) }
    ensures err { IfErr result (λ fault. (fault ≡ Memory) ⊎ ((fault ≡ UnclosedQuote) × (spec.words text.now ≡ None))) }
{
    let tokens = tokens(alloc, Syntax::Words, text)?;
    Ok(texts_of(alloc, tokens.as_slice())?)
}
