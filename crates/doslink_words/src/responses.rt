//! The words of a program that takes directives.
ghost use Rattle.std.specs.Prelude.{◌≡◌, ◌++◌, ◌∷◌, [], IfOk, OnOk, is_some, string_bytes};
ghost use Rattle.std.specs.Option.{option_and_then, option_map};
ghost use Rattle.clap.specs.Lexer.{strip_byte};
ghost use Rattle.doslink_words.specs.Responses as spec;
ghost use Rattle.doslink_words.specs.Tokens.{quoted, texts};

use crate::tokens::{after_space, quoted_token};
use std::alloc::{AllocError, Global};

/// The help of a program that takes directives.
const DIRECTIVES_HELP: &str = "\
Links what compilers for DOS write, with libraries, into an MS-DOS program

Usage: wlink @FILE
       wlink DIRECTIVE..

Directives stand in FILE and in words, one behind the other:
  file A[,B..]           modules and libraries to link, in their order (f)
  library A[,B..]        libraries to search (l)
  libpath A[,B..]        folders to look for libraries in (libp)
  path A[;B..]           folders to look for modules in that aren't at their names (p)
  name FILE              the program to write (n)
  format dos [exe|com]   the form of the program's file; format dos says none
  system dos|com         the same (sys)
  output raw [offset=N]  a raw image, which begins at address N (out)
  order clname CLASS [segment SEGMENT..] ..
                         the classes that stand first, and segments first in them
  reference A[,B..]      names that are wanted, as an external of a module is (ref)
  alias A=B[,C=D..]      the name A means B, and C means D (a)
  option X[=N][,..]      (op) quiet, map[=FILE], stack=N, start=NAME, dosseg,
                         caseexact, ignorecase, nodefaultlibs
  debug ..               nothing

A list may be {A B ..} too, and # begins a comment up to the line's end.
Names with blanks stand in ' or \". `doslink --help` tells of the words of doslink.
";

/// The name and the version of a program that takes directives.
const VERSION_LINE: &str = "doslink 1.0\n";

// Whether a word asks for help.
fn asks_help(word: &str) -> bool
    ensures { result ≡ spec.asks_help word.now }
{
    let word = word.as_bytes();
    word == b"--help".as_slice() || word == b"-h".as_slice() || word == b"-?".as_slice()
}

// Whether a word asks for the version.
fn asks_version(word: &str) -> bool
    ensures { result ≡ spec.asks_version word.now }
{
    let word = word.as_bytes();
    word == b"--version".as_slice() || word == b"-V".as_slice()
}

/// The text that the words of a program that takes directives ask for, where they are no directives: help for `--help`,
/// `-h` or `-?` alone, the version for `--version` or `-V` alone.
pub fn text_asked(words: &[&str]) -> Option<&'static str>
    ensures { is_some result ≡ spec.asks_text (texts words.now) }
{
    match words {
        [word] if asks_help(word) => Some(DIRECTIVES_HELP),
        [word] if asks_version(word) => Some(VERSION_LINE),
        _ => None,
    }
}

// The words with a blank in front of each.
fn spaced(alloc: Global, words: &[&str]) -> Result<String, AllocError>
    ensures { IfOk result (λ text. string_bytes text ≡ spec.spaced (texts words.now)) }
{
    let mut text = String::new(alloc);
    'words: for word in words {
        text.push_str(" ")?;
        text.push_str(word)?;
    }
    Ok(text)
}

// What follows a first `@`.
fn after_at(text: &str) -> Option<&str>
    ensures { option_map (λ rest. rest.now) result ≡ strip_byte 64 text.now }
{
    text.strip_prefix('@')
}

// What follows a first `"`.
fn after_quote(text: &str) -> Option<&str>
    ensures { option_map (λ rest. rest.now) result ≡ strip_byte 34 text.now }
{
    text.strip_prefix('"')
}

// What is quoted, where nothing follows the quote behind it.
fn only_quoted(text: &str) -> Option<&str>
    ensures { option_map (λ path. path.now) result ≡ option_and_then spec.only_quoted (quoted 34 text.now) }
{
    let (token, rest) = quoted_token(b'"', text)?;
    if rest.is_empty() {
        Some(token.text())
    } else {
        None
    }
}

// PATH of a text `@"PATH"`, which has no other quote.
fn quoted_path(text: &str) -> Option<&str>
    ensures { option_map (λ path. path.now) result ≡ spec.quoted_path text.now }
{
    only_quoted(after_quote(after_at(text)?)?)
}

// The word `@PATH`.
fn at_path(alloc: Global, path: &str) -> Result<String, AllocError>
    ensures { IfOk result (λ word. string_bytes word ≡ 64 ∷ path.now) }
{
    let mut word = String::new(alloc);
    word.push_str("@")?;
    word.push_str(path)?;
    Ok(word)
}

/// The word `@PATH` that stands for all words of a program that takes directives, where these are `@"PATH"`, cut at its
/// blanks: some compilers call their linker so. Words with another quote are no such path.
pub fn response_word(alloc: Global, words: &[&str]) -> Result<Option<String>, AllocError>
    ensures { IfOk result (λ word. option_map string_bytes word ≡ spec.response_word (texts words.now)) }
{
    let text = spaced(alloc, words)?;
    match quoted_path(after_space(text.as_str())) {
        Some(path) => Ok(Some(at_path(alloc, path)?)),
        None => Ok(None),
    }
}
