//! What stands in front of the words of a line: the environment's LINK, or what TLINK.CFG says.
ghost use Rattle.std.specs.Prelude.{◌≡◌, ℕ, IfOk, string_bytes, true};
ghost use Rattle.std.specs.List.{list_any};
ghost use Rattle.makefile_words.specs.Tokens.{piece_of};
ghost use Rattle.doslink_asked.specs.Fronts as spec;
ghost use Rattle.doslink_asked.specs.Lines.{IsSpoken};

use crate::fault::AskingFault;
use crate::languages::is_called;
use crate::line_text::with_files;
use crate::reading::{Sources, response_text};
use doslink_files::last_part;
use makefile_words::{Language, Placed, tokens_of};
use omf_files::World;
use std::alloc::{AllocError, Global};
use std::io::ErrorKind;

/// The name of the file of TLINK's options.
const CONFIGURATION: &str = "TLINK.CFG";

// Whether a token is of a call of a linker.
fn is_of_call(placed: &Placed<'_>) -> bool
    ensures { result ≡ spec.is_of_call (piece_of placed.now.token) }
{
    let word = placed.token.text().as_bytes();
    word == b"--as".as_slice() || is_called(last_part(word), b"link", b"link.exe")
}

// Whether one of some tokens is.
fn has_call(tokens: &[Placed<'_>]) -> bool
    ensures { result ≡ list_any (λ placed. spec.is_of_call (piece_of placed.token)) tokens.now }
{
    tokens.iter().any(|placed| is_of_call(placed))
}

// Whether a text is a call of a linker.
fn calls_linker(alloc: Global, text: &str) -> Result<bool, AllocError>
    ensures { IfOk result (λ calls. calls ≡ spec.calls_linker text.now) }
{
    let tokens = tokens_of(alloc, Language::Link, text)?;
    Ok(has_call(tokens.as_slice()))
}

// What the environment's LINK says: nothing where it is a call of a linker.
fn link_text(alloc: Global, text: &str) -> Result<&str, AllocError>
    ensures { IfOk result (λ said. said.now ≡ spec.link_text text.now) }
{
    if calls_linker(alloc, text)? {
        Ok("")
    } else {
        Ok(text)
    }
}

// Whether nothing stands at a path. What can't be looked at is there.
fn is_nothing_at<W: World>(world: &W, path: &str) -> bool
    ensures { result ≡ true → spec.IsNothingAt (W.looks world.now) path.now }
{
    match world.look(path) {
        Ok(_) => false,
        Err(error) => error.kind() == ErrorKind::NotFound,
    }
}

// What TLINK.CFG says, and nothing where it isn't there.
fn configuration<W: World>(world: &W, sources: &mut Sources) -> Result<String, AskingFault>
    ensures { IfOk result
        (λ said. spec.IsConfigured (W.bytes world.now) (W.looks world.now) (string_bytes said)) }
{
    if is_nothing_at(world, CONFIGURATION) {
        return Ok(String::new(sources.alloc));
    }
    response_text(world, CONFIGURATION, sources)
}

// What stands in front of a line, where this is the environment's LINK.
fn front_of<W: World>(
    world: &W,
    linker: Language,
    link: &str,
    sources: &mut Sources,
) -> Result<String, AskingFault>
    ensures { IfOk result
        (λ front. spec.IsFront (W.bytes world.now) (W.looks world.now) link.now linker (string_bytes front)) }
{
    match linker {
        Language::Link => {
            let text = link_text(sources.alloc, link)?;
            with_files(world, linker, text, sources)
        }
        Language::Tlink => configuration(world, sources),
    }
}

/// What stands in front of a line, where this is the environment's LINK, and the line with its response files put in
/// the places of their words.
pub(crate) fn parts_of<W: World>(
    world: &W,
    linker: Language,
    link: &str,
    line: &str,
    sources: &mut Sources,
) -> Result<(String, String), AskingFault>
    ensures { IfOk result
        (λ t. spec.IsFront (W.bytes world.now) (W.looks world.now) link.now linker (string_bytes t.0)
        × ((rounds : ℕ) × IsSpoken (W.bytes world.now) linker rounds line.now (string_bytes t.1))) }
{
    let front = front_of(world, linker, link, sources)?;
    let text = with_files(world, linker, line, sources)?;
    Ok((front, text))
}
