//! How words are read: by the name of the program, or by `--as` in front of them.
ghost use Rattle.std.specs.Prelude.{◌≡◌};
ghost use Rattle.std.specs.Option.{option_map};
ghost use Rattle.doslink_words.specs.Keywords.{is_keyword};
ghost use Rattle.doslink_words.specs.Tokens.{texts};
ghost use Rattle.doslink_asked.specs.Languages as spec;

use doslink_files::last_part;

/// How a program's words are read.
#[derive(Clone, Copy, Debug, PartialEq, Eq)]
pub enum Language {
    /// As options and files, or as one response file of these.
    Words,
    /// As directives, and as response files of these.
    Directives,
    /// As a line of LINK.
    Link,
    /// As a line of TLINK.
    Tlink,
}

/// Whether a name is this one, where small and capital letters are the same.
pub fn is_named(name: &[u8], other: &[u8]) -> bool
    ensures { result ≡ is_keyword name.now other.now }
{
    name.eq_ignore_ascii_case(other)
}

/// Whether a name is that of a program, with `.exe` or without.
pub(crate) fn is_called(name: &[u8], program: &[u8], with_exe: &[u8]) -> bool
    ensures { result ≡ spec.is_called name.now program.now with_exe.now }
{
    is_named(name, program) || is_named(name, with_exe)
}

/// How the words of another linker of this name are read.
pub(crate) fn language_named(name: &[u8]) -> Option<Language>
    ensures { result ≡ spec.language_named name.now }
{
    if is_called(name, b"wlink", b"wlink.exe") || is_called(name, b"jwlink", b"jwlink.exe") {
        Some(Language::Directives)
    } else if is_called(name, b"link", b"link.exe") {
        Some(Language::Link)
    } else if is_called(name, b"tlink", b"tlink.exe") {
        Some(Language::Tlink)
    } else {
        None
    }
}

/// How the words of a program of this name are read: as those of `wlink`, `link` or `tlink` where its last part is
/// that, with `.exe` or without, and else as those of `doslink`. `jwlink` is `wlink` by another name.
pub fn language_of(program: &str) -> Language
    ensures { result ≡ spec.language_of program.now }
{
    language_named(last_part(program.as_bytes())).unwrap_or(Language::Words)
}

/// The name behind `--as` at the front of words, and the words behind it.
pub(crate) fn as_asked<'w, 'a>(words: &'w [&'a str]) -> Option<(&'a str, &'w [&'a str])>
    ensures { option_map (λ asked. (asked.0.now, texts asked.1.now)) result ≡ spec.as_asked (texts words.now) }
{
    match words {
        [option, name, rest @ ..] if option.as_bytes() == b"--as".as_slice() => Some((name, rest)),
        _ => None,
    }
}

/// How words are read: as the language says, unless `--as link`, `--as tlink` or `--as wlink` stands in front.
pub fn language_asked(language: Language, words: &[&str]) -> Language
    ensures { result ≡ (spec.spoken language (texts words.now)).0 }
{
    match as_asked(words) {
        Some((name, _)) => language_named(name.as_bytes()).unwrap_or(language),
        None => language,
    }
}
