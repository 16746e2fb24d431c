//! What a mark parts of a text, but where it stands between two quotes.
ghost use Rattle.std.specs.Prelude.{◌≡◌, ◌<◌, ◌≤◌, IfOk, IfSome, false, length};
ghost use Rattle.std.specs.Str.{IsUtf8};
ghost use Rattle.doslink_words.specs.Tokens.{texts};
ghost use Rattle.makefile_words.specs.Parts as spec;
ghost use Rattle.makefile_words.specs.inside.Parts.{split_of};

use crate::tokens::is_quote;
use std::alloc::{AllocError, Global};

// How many bytes stand before the first mark that is between no quotes.
fn part_len(mark: u8, text: &[u8]) -> usize
    ensures len { result ≡ spec.part_len mark false text.now }
    ensures within { result ≤ length text.now }
{
    let mut quoted = false;
    let mut len = 0;
    let mut rest = text;
    'bytes: while let [byte, more @ ..] = rest {
        if *byte == mark && !quoted {
            return len;
        }
        quoted = quoted != is_quote(*byte);
        len += 1;
        rest = more;
    }
    len
}

// What stands before the first mark that is between no quotes, and what stands behind it.
fn first_split(mark: u8, text: &str) -> Option<(&str, &str)>
    requires { mark < 128 }
    ensures parts { split_of result ≡ spec.first_split mark text.now }
    ensures shorter { IfSome result (λ p. length p.1.now < length text.now) }
    ensures utf8 { IfSome result (λ p. IsUtf8 p.1.now) }
{
    let len = part_len(mark, text.as_bytes());
    if len < text.len() {
        Some((&text[..len], &text[len + 1..]))
    } else {
        None
    }
}

/// What a mark parts of a text, but where it stands between two quotes.
pub(crate) fn parts_of<'a>(
    alloc: Global,
    mark: u8,
    text: &'a str,
) -> Result<Vec<&'a str>, AllocError>
    requires { mark < 128 }
    ensures { IfOk result (λ parts. texts parts.items ≡ spec.parts mark text.now) }
{
    let mut parts = Vec::new(alloc);
    let mut rest = text;
    'parts: while let Some((part, more)) = first_split(mark, rest) {
        parts.push(part)?;
        rest = more;
    }
    parts.push(rest)?;
    Ok(parts)
}
