//! The names and the options of a word.
ghost use Rattle.std.specs.Prelude.{◌≡◌, ◌==◌, ◌<◌, ◌≤◌, IfOk, IfSome, length, slice_index};
ghost use Rattle.std.specs.Str.{IsUtf8};
ghost use Rattle.std.specs.Option.{option_map};
ghost use Rattle.clap.specs.Lexer.{strip_byte};
ghost use Rattle.makefile_words.specs.Cut as spec;
ghost use Rattle.makefile_words.specs.Parts.{parts};
ghost use Rattle.makefile_words.specs.inside.Follows.{Gives, HasBehind, cut_of};
ghost use Rattle.doslink_words.specs.Tokens.{texts};

use crate::faults::{FaultKind, WordFault};
use crate::link::{link_fault, link_option};
use crate::parts::parts_of;
use crate::settings::Setting;
use crate::tlink::{closed_option, tlink_fault, tlink_option};
use crate::tokens::Language;
use std::alloc::{AllocError, Global};

/// What a word is: a name, options, or a name with options behind it.
#[derive(Clone, Copy)]
pub(crate) struct Cut<'a> {
    /// The name.
    pub name: Option<&'a str>,
    /// The options, with `/` between them.
    pub options: Option<&'a str>,
}

/// What an option asks for, none where there is no such option.
pub(crate) fn option_named(language: Language, option: &str) -> Option<Setting>
    ensures { result ≡ spec.option_named language option.now }
{
    match language {
        Language::Tlink => tlink_option(option.as_bytes()),
        Language::Link => link_option(option),
    }
}

/// What is wrong with a text that is no option.
pub(crate) fn option_fault(language: Language, option: &str) -> FaultKind
    ensures { result ≡ spec.option_fault language option.now }
{
    match language {
        Language::Tlink => tlink_fault(option.as_bytes()),
        Language::Link => link_fault(option),
    }
}

// Whether there is such an option.
fn is_option(language: Language, option: &str) -> bool
    ensures { result ≡ spec.is_option language option.now }
{
    option_named(language, option).is_some()
}

// Whether an option may stand behind a name in one word.
fn may_touch(language: Language, option: &str) -> bool
    ensures { result ≡ spec.may_touch language option.now }
{
    match language {
        Language::Tlink => closed_option(option.as_bytes()).is_some(),
        Language::Link => is_option(language, option),
    }
}

// What `/` parts, but between the quotes of a folder.
fn pieces_of<'a>(alloc: Global, text: &'a str) -> Result<Vec<&'a str>, AllocError>
    ensures { IfOk result (λ pieces. texts pieces.items ≡ parts 47 text.now) }
{
    parts_of(alloc, b'/', text)
}

// Whether an option takes folders, which `;` parts.
fn takes_folders(language: Language, option: &[u8]) -> bool
    ensures { result ≡ spec.takes_folders language option.now }
{
    match (language, option) {
        (Language::Tlink, [b'L' | b'j', ..]) => true,
        _ => false,
    }
}

// Whether one of these options takes folders, behind whole options alone.
fn lead_to_folders(language: Language, options: &[&str]) -> bool
    ensures { result ≡ spec.lead_to_folders language (texts options.now) }
{
    let mut rest = options;
    'options: while let [option, more @ ..] = rest {
        if takes_folders(language, option.as_bytes()) {
            return true;
        }
        if !is_option(language, option) {
            return false;
        }
        rest = more;
    }
    false
}

/// Whether a word begins as options, of which one takes folders.
pub(crate) fn has_folders(alloc: Global, language: Language, word: &str) -> Result<bool, AllocError>
    ensures { IfOk result (λ folders. folders ≡ spec.has_folders language word.now) }
{
    match after_slash(word).or(after_dash(word)) {
        Some(options) => {
            let pieces = pieces_of(alloc, options)?;
            Ok(lead_to_folders(language, pieces.as_slice()))
        }
        None => Ok(false),
    }
}

/// The options between which `/` stands; one with folders as a whole where these aren't all options.
pub(crate) fn options_in<'a>(
    alloc: Global,
    language: Language,
    options: &'a str,
) -> Result<Vec<&'a str>, AllocError>
    ensures { IfOk result (λ list. texts list.items ≡ spec.options_in language options.now) }
{
    let pieces = pieces_of(alloc, options)?;
    if takes_folders(language, options.as_bytes()) && !are_options(language, pieces.as_slice()) {
        return Vec::from_slice(alloc, &[options]);
    }
    Ok(pieces)
}

// Whether these all are options.
fn are_options(language: Language, options: &[&str]) -> bool
    ensures { result ≡ spec.are_options language (texts options.now) }
{
    let mut rest = options;
    'options: while let [option, more @ ..] = rest {
        if !is_option(language, option) {
            return false;
        }
        rest = more;
    }
    true
}

// Whether a text is options, with `/` between them.
fn is_all_options(alloc: Global, language: Language, text: &str) -> Result<bool, AllocError>
    ensures { IfOk result (λ all. all ≡ spec.is_all_options language text.now) }
{
    let options = options_in(alloc, language, text)?;
    Ok(are_options(language, options.as_slice()))
}

// What stands before a word's last `/`, where a whole option follows that.
fn front<'a>(language: Language, word: &'a str) -> Option<&'a str>
    ensures front { option_map (λ text. text.now) result ≡ spec.front language word.now }
    ensures whole { IfSome result (λ text. HasBehind text.now word.now) }
    ensures utf8 { IfSome result (λ text. IsUtf8 text.now) }
{
    match word.rsplit_once('/') {
        Some((front, last)) => {
            if may_touch(language, last) {
                Some(front)
            } else {
                None
            }
        }
        None => None,
    }
}

// What stands in front of the whole options at the end of a word.
fn head<'a>(language: Language, word: &'a str) -> &'a str
    ensures head { result.now ≡ spec.head language word.now }
    ensures within { length result.now ≤ length word.now }
    ensures slash { length result.now < length word.now → slice_index word.now (length result.now) ≡ 47 }
{
    let mut head = word;
    'pieces: while let Some(shorter) = front(language, head) {
        head = shorter;
    }
    head
}

// Whether a word is the path of a file in a folder that is named by dots.
fn is_dotted(word: &str) -> bool
    ensures { result ≡ spec.is_dotted word.now }
{
    match word.as_bytes() {
        [b'.', b'/', ..] | [b'.', b'.', b'/', ..] => true,
        _ => false,
    }
}

// What stands behind a `-` at the start.
fn after_dash(word: &str) -> Option<&str>
    ensures { option_map (λ rest. rest.now) result ≡ strip_byte 45 word.now }
{
    word.strip_prefix('-')
}

// What stands behind a `/` at the start.
fn after_slash(word: &str) -> Option<&str>
    ensures { option_map (λ rest. rest.now) result ≡ strip_byte 47 word.now }
{
    word.strip_prefix('/')
}

// Whether a text has a `/`.
fn has_slash(text: &str) -> bool
    ensures { result ≡ spec.has_slash text.now }
{
    match text.split_once('/') {
        Some(_) => true,
        None => false,
    }
}

// Whether a text has `\`.
fn has_backslash(text: &str) -> bool
    ensures { result ≡ spec.has 92 text.now }
{
    match text.split_once('\\') {
        Some(_) => true,
        None => false,
    }
}

// Whether a text has `:`.
fn has_colon(text: &str) -> bool
    ensures { result ≡ spec.has 58 text.now }
{
    match text.split_once(':') {
        Some(_) => true,
        None => false,
    }
}

// Whether a text has `\` or `:`, as a path of DOS.
fn is_of_dos(text: &str) -> bool
    ensures { result ≡ spec.is_of_dos text.now }
{
    has_backslash(text) || has_colon(text)
}

// Whether a text is an option with folders of Unix, and options with `/` between them as well.
fn is_both(alloc: Global, language: Language, text: &str) -> Result<bool, AllocError>
    ensures { IfOk result (λ both. both ≡ spec.is_both language text.now) }
{
    if !takes_folders(language, text.as_bytes()) || is_of_dos(text) {
        return Ok(false);
    }
    let pieces = pieces_of(alloc, text)?;
    Ok(pieces.len() > 1 && are_options(language, pieces.as_slice()))
}

// What a word is that begins as an option, behind whose first byte this stands.
fn begun<'a>(
    alloc: Global,
    language: Language,
    word: &'a str,
    options: &'a str,
    is_path: bool,
) -> Result<Cut<'a>, WordFault>
    ensures { Gives cut_of result (spec.begun language word.now options.now is_path) }
{
    if is_both(alloc, language, options)? {
        return Err(WordFault::Wrong(FaultKind::TwoWays));
    }
    if is_all_options(alloc, language, options)? {
        return Ok(Cut {
            name: None,
            options: Some(options),
        });
    }
    if is_path {
        return Ok(Cut {
            name: Some(word),
            options: None,
        });
    }
    Err(WordFault::Wrong(option_fault(language, options)))
}

// What a word is that begins as a name.
fn named<'a>(language: Language, word: &'a str) -> Cut<'a>
    ensures { cut_of result ≡ spec.named language word.now }
{
    let head = head(language, word);
    let options = if head.len() < word.len() {
        Some(&word[head.len() + 1..])
    } else {
        None
    };
    Cut {
        name: Some(head),
        options,
    }
}

/// What a word is. One that begins with `./` or `../` is a name. One that begins with `-` is options, and so is one that
/// begins with `/`, if it is wholly; else such a word with a second `/` is a path. Of another word the longest tail of
/// whole options is options.
#[tactic(auto, unfolding(crate::specs::Cut::cut))]
pub(crate) fn cut_word<'a>(
    alloc: Global,
    language: Language,
    word: &'a str,
) -> Result<Cut<'a>, WordFault>
    ensures { Gives cut_of result (spec.cut language word.now) }
{
    if is_dotted(word) {
        return Ok(Cut {
            name: Some(word),
            options: None,
        });
    }
    if let Some(options) = after_dash(word) {
        return begun(alloc, language, word, options, false);
    }
    if let Some(options) = after_slash(word) {
        return begun(alloc, language, word, options, has_slash(options));
    }
    Ok(named(language, word))
}
