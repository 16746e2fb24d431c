//! What the words name to be linked, in their order.
ghost use Rattle.std.specs.Prelude.{◌≡◌, ◌++◌, ◌∷◌, [], IfOk, List, OnOk, map};
ghost use Rattle.std.specs.Option.{option_map};
ghost use Rattle.clap.specs.Lexer.{strip_byte};
ghost use Rattle.doslink_words.specs.Named as spec;
ghost use Rattle.doslink_words.specs.Said.{File, Library, inputs_of};
ghost use Rattle.doslink_words.specs.Tokens.{texts};
ghost use Rattle.doslink_words.specs.declared.named.Expected.TheVariants.{Any};
ghost use Rattle.doslink_words.specs.declared.named.Kind.{Kind};
ghost use Rattle.doslink_words.specs.inside.Ordered.{ordered};

use crate::job::Input;
use std::alloc::{AllocError, AllocFailed, Global};

/// What an input is named as.
#[derive(Clone, Copy)]
pub(crate) enum Kind {
    /// A file.
    File,
    /// A library that is looked up.
    Library,
}

/// What a word may be.
#[derive(Clone, Copy)]
pub(crate) enum Expected {
    /// An option or a file.
    Any,
    /// The value of the option before it.
    Value,
    /// A file, since `--` stands before it.
    File,
}

/// What a word comes to.
#[derive(Clone, Copy)]
pub(crate) struct Met {
    /// What it names to be linked.
    pub named: Option<Kind>,
    /// What the next word may be.
    pub next: Expected,
}

// Whether the option of a letter takes a value.
fn takes_value(letter: u8) -> bool
    ensures { result ≡ spec.takes_value letter }
{
    letter == b'o' || letter == b'm' || letter == b'L' || letter == b'l'
}

// What the option of a letter names, which takes a value.
fn kind_named(letter: u8) -> Option<Kind>
    ensures { result ≡ spec.kind_named letter }
{
    if letter == b'l' {
        Some(Kind::Library)
    } else {
        None
    }
}

// What the next word is behind an option in whose word this follows.
fn behind(rest: &[u8]) -> Expected
    ensures { result ≡ spec.behind rest.now }
{
    match rest {
        [] => Expected::Value,
        _ => Expected::Any,
    }
}

// What the letters behind a `-` come to.
fn letters_met(letters: &[u8]) -> Met
    ensures { result ≡ spec.letters_met letters.now }
{
    let mut rest = letters;
    'letters: while let [letter, more @ ..] = rest {
        if takes_value(*letter) {
            return Met {
                named: kind_named(*letter),
                next: behind(more),
            };
        }
        rest = more;
    }
    Met {
        named: None,
        next: Expected::Any,
    }
}

// A word that is a file.
fn a_file() -> Met
    ensures { result ≡ spec.a_file }
{
    Met {
        named: Some(Kind::File),
        next: Expected::Any,
    }
}

// Whether the option of a long name takes a value.
fn long_takes_value(name: &[u8]) -> bool
    ensures { result ≡ spec.long_takes_value name.now }
{
    name == b"order".as_slice()
        || name == b"stack".as_slice()
        || name == b"form".as_slice()
        || name == b"at".as_slice()
        || name == b"map-form".as_slice()
}

// What a word comes to whose name stands behind `--`.
fn long_met(name: &str) -> Met
    ensures { result ≡ spec.long_met name.now }
{
    let next = match name.as_bytes() {
        [] => Expected::File,
        name if long_takes_value(name) => Expected::Value,
        _ => Expected::Any,
    };
    Met { named: None, next }
}

// What stands behind a `-`.
fn after_dash(word: &str) -> Option<&str>
    ensures { option_map (λ rest. rest.now) result ≡ strip_byte 45 word.now }
{
    word.strip_prefix('-')
}

// What a word comes to that begins with `-`, behind which this stands.
fn option_met(rest: &str) -> Met
    ensures { result ≡ spec.option_met rest.now }
{
    match after_dash(rest) {
        Some(name) => long_met(name),
        None if rest.is_empty() => a_file(),
        None => letters_met(rest.as_bytes()),
    }
}

// What a word comes to where no value is awaited.
fn option_or_file(word: &str) -> Met
    ensures { result ≡ spec.option_or_file word.now }
{
    match after_dash(word) {
        Some(rest) => option_met(rest),
        None => a_file(),
    }
}

// What a word comes to.
fn word_met(expected: Expected, word: &str) -> Met
    ensures { result ≡ spec.word_met expected word.now }
{
    match expected {
        Expected::Any => option_or_file(word),
        Expected::Value => Met {
            named: None,
            next: Expected::Any,
        },
        Expected::File => Met {
            named: Some(Kind::File),
            next: Expected::File,
        },
    }
}

// Appends what a word names, where it names something.
fn put_kind(kinds: &mut Vec<Kind>, named: Option<Kind>) -> Result<(), AllocFailed<Kind>>
    ensures { OnOk result (kinds.new.items ≡ kinds.old.items ++ spec.with_kind named []) }
{
    match named {
        Some(kind) => kinds.push(kind),
        None => Ok(()),
    }
}

/// What words name to be linked, a file or a library each, in their order.
pub(crate) fn kinds_named(alloc: Global, words: &[&str]) -> Result<Vec<Kind>, AllocError>
    ensures { IfOk result (λ kinds. kinds.items ≡ spec.kinds_named Any (texts words.now)) }
{
    let mut kinds = Vec::new(alloc);
    let mut expected = Expected::Any;
    'words: for word in words {
        let met = word_met(expected, word);
        put_kind(&mut kinds, met.named)?;
        expected = met.next;
    }
    Ok(kinds)
}

/// Files and libraries that don't stand among what is linked yet.
#[derive(Drop)]
pub(crate) struct Left<'l, 'a> {
    /// The files.
    pub files: &'l [&'a str],
    /// The libraries.
    pub libraries: &'l [&'a str],
}

// Appends the first file or library that is left, as its kind says.
fn put_next<'a>(
    inputs: &mut Vec<Input<'a>>,
    kind: Kind,
    left: &mut Left<'_, 'a>,
) -> Result<(), AllocFailed<Input<'a>>>
    ensures { OnOk result ((kinds : List Kind) → inputs_of inputs.old.items ++ ordered (kind ∷ kinds) left.old
        ≡ inputs_of inputs.new.items ++ ordered kinds left.new) }
{
    match kind {
        Kind::File => {
            if let [file, more @ ..] = left.files {
                inputs.push(Input::File(file))?;
                left.files = more;
            }
        }
        Kind::Library => {
            if let [library, more @ ..] = left.libraries {
                inputs.push(Input::Library(library))?;
                left.libraries = more;
            }
        }
    }
    Ok(())
}

/// Files and libraries in the order of their kinds.
pub(crate) fn in_order<'a>(
    alloc: Global,
    kinds: &[Kind],
    files: &[&'a str],
    libraries: &[&'a str],
) -> Result<Vec<Input<'a>>, AllocError>
    ensures { IfOk result (λ inputs. inputs_of inputs.items
        ≡ spec.in_order kinds.now (texts files.now) (texts libraries.now)) }
{
    let mut inputs = Vec::new(alloc);
    let mut left = Left { files, libraries };
    'kinds: for kind in kinds {
        put_next(&mut inputs, *kind, &mut left)?;
    }
    put_files(&mut inputs, left.files)?;
    put_libraries(&mut inputs, left.libraries)?;
    Ok(inputs)
}

/// Appends files.
pub(crate) fn put_files<'a>(
    inputs: &mut Vec<Input<'a>>,
    files: &[&'a str],
) -> Result<(), AllocFailed<Input<'a>>>
    ensures { OnOk result (inputs_of inputs.new.items ≡ inputs_of inputs.old.items ++ map File (texts files.now)) }
{
    'files: for file in files {
        inputs.push(Input::File(file))?;
    }
    Ok(())
}

/// Appends libraries.
pub(crate) fn put_libraries<'a>(
    inputs: &mut Vec<Input<'a>>,
    libraries: &[&'a str],
) -> Result<(), AllocFailed<Input<'a>>>
    ensures { OnOk result (inputs_of inputs.new.items ≡ inputs_of inputs.old.items ++ map Library (texts libraries.now)) }
{
    'libraries: for library in libraries {
        inputs.push(Input::Library(library))?;
    }
    Ok(())
}
