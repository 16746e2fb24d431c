//! Which of the tokens behind a directive's word are its operands.
ghost use Rattle.std.specs.Prelude.{◌≡◌, ◌≤◌, length};
ghost use Rattle.std.specs.List.{position_or_len};
ghost use Rattle.doslink_words.specs.Operands as spec;
ghost use Rattle.doslink_words.specs.inside.Tokens.{operands, piece_of};

use crate::keywords::{Directive, is, is_debug_word, is_sort_word};
use crate::tokens::{Placed, Token};

// How many tokens stand before a brace that ends a list.
fn close_at(tokens: &[Placed]) -> usize
    ensures close { result ≡ position_or_len spec.is_close (operands tokens.now) }
    ensures within { result ≤ length tokens.now }
{
    let mut count = 0;
    let mut rest = tokens;
    'tokens: while let [first, more @ ..] = rest {
        if first.token.is_close() {
            return count;
        }
        count += 1;
        rest = more;
    }
    count
}

// How many tokens a list begins with: one, or all between braces with these.
fn list_count(tokens: &[Placed]) -> usize
    ensures { result ≡ spec.list_count (operands tokens.now) }
{
    match tokens {
        [] => 0,
        [first, more @ ..] if first.token.is_open() => close_at(more) + 2,
        _ => 1,
    }
}

// How many tokens the operands of a directive begin with, as far as there are so many.
fn first_count(directive: Directive, tokens: &[Placed]) -> usize
    ensures { result ≡ spec.first_count directive (operands tokens.now) }
{
    match directive {
        Directive::File | Directive::Library | Directive::Folder | Directive::Reference => {
            list_count(tokens)
        }
        Directive::Order | Directive::Debug | Directive::Sort => 0,
        _ => 1,
    }
}

// A number for a word that holds, and none else.
fn for_word(holds: bool, count: usize) -> Option<usize>
    ensures { result ≡ spec.for_word holds count }
{
    if holds { Some(count) } else { None }
}

// How many operands stand behind a word that goes on with the operands of a directive.
fn own_word(directive: Directive, word: &str) -> Option<usize>
    ensures { result ≡ spec.own_word directive word.now }
{
    match directive {
        Directive::Format | Directive::System => for_word(is(word, "exe") || is(word, "com"), 0),
        Directive::Output => for_word(is(word, "offset"), 0),
        Directive::Order => for_word(is(word, "clname") || is(word, "segment"), 1),
        Directive::Debug => for_word(is_debug_word(word), 0),
        Directive::Sort => for_word(is_sort_word(word), 0),
        _ => None,
    }
}

// How many operands stand behind a token that goes on with them: one behind a comma and behind an equals sign.
fn goes_on(directive: Directive, token: Token) -> Option<usize>
    ensures { result ≡ spec.goes_on directive (piece_of token.entry) }
{
    match token {
        Token::Word(word) => own_word(directive, word),
        Token::Comma | Token::Equals => Some(1),
        _ => None,
    }
}

// How many operands are sure behind a token where so many were sure from it on; none where it is no operand.
fn sure_behind(directive: Directive, sure: usize, token: Token) -> Option<usize>
    ensures { result ≡ spec.sure_behind directive sure (piece_of token.entry) }
{
    if sure == 0 {
        goes_on(directive, token)
    } else {
        Some(sure - 1)
    }
}

/// How many of the tokens behind a directive's word are its operands.
pub(crate) fn operand_count(directive: Directive, tokens: &[Placed]) -> usize
    ensures count { result ≡ spec.operand_count directive (operands tokens.now) }
    ensures within { result ≤ length tokens.now }
{
    let mut sure = first_count(directive, tokens);
    let mut count = 0;
    let mut rest = tokens;
    'tokens: while let [first, more @ ..] = rest {
        let Some(behind) = sure_behind(directive, sure, first.token) else {
            return count;
        };
        sure = behind;
        count += 1;
        rest = more;
    }
    count
}
