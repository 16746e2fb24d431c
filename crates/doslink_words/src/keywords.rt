//! The words of directives, which are read without regard to case, and of which many may be shortened.
ghost use Rattle.std.specs.Prelude.{◌≡◌};
ghost use Rattle.doslink_words.specs.Keywords as spec;

use crate::job::WarningKind;

/// What a directive is about.
#[derive(Clone, Copy)]
pub(crate) enum Directive {
    /// `file`: object modules.
    File,
    /// `library`: libraries.
    Library,
    /// `libpath`: folders of libraries.
    Folder,
    /// `path`: folders of modules.
    Path,
    /// `name`: the program.
    Name,
    /// `format`: the form of the program's file.
    Format,
    /// `system`: the same.
    System,
    /// `output`: a raw image.
    Output,
    /// `option`: options.
    Option,
    /// `order`: the order of classes and segments.
    Order,
    /// `debug`: what debuggers want, of which nothing is written.
    Debug,
    /// `sort`: the order of the map.
    Sort,
    /// `disable`: messages that are left out.
    Disable,
    /// `reference`: names that are wanted.
    Reference,
    /// `alias`: names that mean others.
    Alias,
}

/// What an option is about.
#[derive(Clone, Copy)]
pub(crate) enum Switch {
    /// `map`: a map is written.
    Map,
    /// `stack`: the length of the stack.
    Stack,
    /// `start`: where the program starts.
    Start,
    /// An option that takes no value.
    Plain(Plain),
    /// An option that has no effect, and what is told of it. `symfile`: a file of symbols; and what changes nothing of
    /// a DOS program: `verbose`, `statics`, `artificial`, `showdead`, `cache`, `nocache`, `farcalls`, `nofarcalls`,
    /// `maxerrors`, `mangled`.
    Idle(WarningKind),
}

/// What an option that takes no value is about.
#[derive(Clone, Copy)]
pub(crate) enum Plain {
    /// `quiet`: nothing is told but faults.
    Quiet,
    /// `dosseg`: the order DOSSEG.
    Dosseg,
    /// `caseexact`, `nocaseignore`, `noignorecase`: names agree with regard to case.
    Exact,
    /// `nocaseexact`, `caseignore`, `ignorecase`: names agree without regard to case.
    Ignoring,
    /// `nodefaultlibs`: the libraries that modules name are not searched.
    NoDefaultLibraries,
}

/// Whether a word is this keyword.
pub(crate) fn is(word: &str, keyword: &str) -> bool
    ensures { result ≡ spec.is_keyword word.now keyword.now }
{
    word.eq_ignore_ascii_case(keyword)
}

// Whether bytes are this keyword.
fn is_bytes(word: &[u8], keyword: &[u8]) -> bool
    ensures { result ≡ spec.is_keyword word.now keyword.now }
{
    word.eq_ignore_ascii_case(keyword)
}

/// Whether a word is a keyword, or the front of one that has this many letters at least.
#[tactic(auto, unfolding(crate::specs::Keywords::is_short))]
pub(crate) fn is_short(word: &str, keyword: &str, least: usize) -> bool
    ensures { result ≡ spec.is_short word.now keyword.now least }
{
    let (word, keyword) = (word.as_bytes(), keyword.as_bytes());
    let size = word.len();
    least <= size && size <= keyword.len() && is_bytes(word, &keyword[..size])
}

/// The directive of this name.
pub(crate) fn directive_named(word: &str) -> Option<Directive>
    ensures { result ≡ spec.directive_named word.now }
{
    if is_short(word, "file", 1) {
        Some(Directive::File)
    } else if is_short(word, "library", 1) {
        Some(Directive::Library)
    } else if is_short(word, "libpath", 4) {
        Some(Directive::Folder)
    } else if is_short(word, "name", 1) {
        Some(Directive::Name)
    } else if is_short(word, "format", 4) {
        Some(Directive::Format)
    } else if is_short(word, "option", 2) {
        Some(Directive::Option)
    } else if is_short(word, "order", 3) {
        Some(Directive::Order)
    } else if is_short(word, "debug", 1) {
        Some(Directive::Debug)
    } else if is_short(word, "sort", 3) {
        Some(Directive::Sort)
    } else if is_short(word, "disable", 4) {
        Some(Directive::Disable)
    } else if is_short(word, "system", 3) {
        Some(Directive::System)
    } else if is_short(word, "output", 3) {
        Some(Directive::Output)
    } else if is_short(word, "reference", 3) {
        Some(Directive::Reference)
    } else if is_short(word, "alias", 1) {
        Some(Directive::Alias)
    } else if is_short(word, "path", 1) {
        Some(Directive::Path)
    } else {
        None
    }
}

/// Whether a word goes on with `debug`.
pub(crate) fn is_debug_word(word: &str) -> bool
    ensures { result ≡ spec.is_debug_word word.now }
{
    is_short(word, "dwarf", 2)
        || is_short(word, "watcom", 1)
        || is_short(word, "codeview", 1)
        || is_short(word, "novell", 2)
        || is_short(word, "all", 2)
        || is_short(word, "lines", 2)
        || is_short(word, "types", 2)
        || is_short(word, "locals", 2)
        || is_short(word, "onlyexports", 4)
}

/// Whether a word goes on with `sort`.
pub(crate) fn is_sort_word(word: &str) -> bool
    ensures { result ≡ spec.is_sort_word word.now }
{
    is_short(word, "global", 2) || is_short(word, "alphabetical", 3)
}

// Whether an option of this name changes nothing of a DOS program.
fn is_harmless(word: &str) -> bool
    ensures { result ≡ spec.is_harmless word.now }
{
    is_short(word, "verbose", 1)
        || is_short(word, "statics", 4)
        || is_short(word, "artificial", 3)
        || is_short(word, "showdead", 3)
        || is_short(word, "cache", 3)
        || is_short(word, "nocache", 5)
        || is_short(word, "farcalls", 2)
        || is_short(word, "nofarcalls", 3)
        || is_short(word, "maxerrors", 4)
        || is_short(word, "mangled", 3)
}

// Whether an option of this name asks that names agree with regard to case.
fn is_exact(word: &str) -> bool
    ensures { result ≡ spec.is_exact word.now }
{
    is_short(word, "caseexact", 1)
        || is_short(word, "nocaseignore", 7)
        || is_short(word, "noignorecase", 3)
}

// Whether an option of this name asks that names agree without regard to case.
fn is_ignoring(word: &str) -> bool
    ensures { result ≡ spec.is_ignoring word.now }
{
    is_short(word, "nocaseexact", 5)
        || is_short(word, "caseignore", 5)
        || is_short(word, "ignorecase", 2)
}

// The option of this name that takes a value.
fn valued_named(word: &str) -> Option<Switch>
    ensures { result ≡ spec.valued_named word.now }
{
    if is_short(word, "map", 1) {
        Some(Switch::Map)
    } else if is_short(word, "stack", 2) {
        Some(Switch::Stack)
    } else if is_short(word, "start", 4) {
        Some(Switch::Start)
    } else {
        None
    }
}

// The option of this name that takes none, or has no effect.
fn plain_named(word: &str) -> Option<Switch>
    ensures { result ≡ spec.plain_named word.now }
{
    if is_short(word, "quiet", 1) {
        Some(Switch::Plain(Plain::Quiet))
    } else if is_short(word, "dosseg", 3) {
        Some(Switch::Plain(Plain::Dosseg))
    } else if is_exact(word) {
        Some(Switch::Plain(Plain::Exact))
    } else if is_ignoring(word) {
        Some(Switch::Plain(Plain::Ignoring))
    } else if is_short(word, "nodefaultlibs", 3) {
        Some(Switch::Plain(Plain::NoDefaultLibraries))
    } else if is_short(word, "symfile", 4) {
        Some(Switch::Idle(WarningKind::Symbols))
    } else if is_harmless(word) {
        Some(Switch::Idle(WarningKind::Option))
    } else {
        None
    }
}

/// The option of this name.
pub(crate) fn switch_named(word: &str) -> Option<Switch>
    ensures { result ≡ spec.switch_named word.now }
{
    match valued_named(word) {
        Some(switch) => Some(switch),
        None => plain_named(word),
    }
}
