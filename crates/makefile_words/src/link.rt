//! The options of LINK.
ghost use Rattle.std.specs.Prelude.{◌≡◌, ◌≤◌, IfSome};
ghost use Rattle.doslink_words.specs.Keywords.{is_keyword};
ghost use Rattle.doslink_words.specs.Sizes as sizes;
ghost use Rattle.makefile_words.specs.Link as spec;

use crate::faults::FaultKind;
use crate::settings::{Idle, Ordering, Setting};
use doslink_words::Form;

/// The greatest number: the end of the memory that a real-mode address reaches.
const GREATEST: u32 = 1_048_576;

/// The longest stack, in bytes: a segment's most bytes.
const LONGEST: u32 = 65_536;

/// What is expected of a stack's bytes.
const STACK_EXPECTED: FaultKind = FaultKind::WrongValue {
    least: 1,
    most: LONGEST,
};

/// What is expected of extra paragraphs.
const EXTRA_EXPECTED: FaultKind = FaultKind::WrongValue {
    least: 0,
    most: 65_535,
};

/// What is expected of a number that says nothing here.
const NUMBER_EXPECTED: FaultKind = FaultKind::WrongValue {
    least: 0,
    most: GREATEST,
};

/// What the value of an option says.
#[derive(Clone, Copy)]
pub(crate) enum Valued {
    /// The stack's bytes.
    Stack,
    /// The greatest number of extra paragraphs.
    MostExtra,
    /// A number that says nothing here.
    Number,
    /// What stands in the map.
    Map,
    /// A library that is left out.
    Library,
    /// What is done where there is a fault.
    OnError,
    /// Nothing, of which a warning is told.
    Idle,
}

// The number that a numeral writes, none where a byte is no digit of the radix, or it is above the greatest.
fn numeral(radix: u32, digits: &[u8]) -> Option<u32>
    requires least { 2 ≤ radix }
    requires most { radix ≤ 36 }
    ensures number { result ≡ sizes.numeral radix digits.now }
    ensures small { IfSome result (λ n. n ≤ 1_048_576) }
{
    if digits.is_empty() {
        return None;
    }
    let mut value = 0;
    'digits: for byte in digits {
        let digit = char::from(*byte).to_digit(radix)?;
        value = value * radix + digit;
        if value > GREATEST {
            return None;
        }
    }
    Some(value)
}

/// The number of an option: hexadecimal behind `0x`, octal behind `0`, else decimal.
pub(crate) fn number(text: &[u8]) -> Option<u32>
    ensures number { result ≡ spec.number text.now }
    ensures small { IfSome result (λ n. n ≤ 1_048_576) }
{
    match text {
        [b'0', b'x' | b'X', digits @ ..] => numeral(16, digits),
        [b'0', ..] => numeral(8, text),
        _ => numeral(10, text),
    }
}

/// Whether a word is a name, or the front of one that has this many letters at least.
#[tactic(auto, unfolding(crate::specs::Link::is_short))]
pub fn is_short(word: &[u8], name: &[u8], least: usize) -> bool
    ensures { result ≡ spec.is_short word.now name.now least }
{
    let size = word.len();
    least <= size && size <= name.len() && is_bytes(word, &name[..size])
}

/// Whether bytes are these, where small and capital letters are the same.
pub(crate) fn is_bytes(word: &[u8], keyword: &[u8]) -> bool
    ensures { result ≡ is_keyword word.now keyword.now }
{
    word.eq_ignore_ascii_case(keyword)
}

// What an option of LINK without a value asks for.
fn first_named(word: &[u8]) -> Option<Setting>
    ensures { result ≡ spec.short_named word.now spec.first_named }
{
    if is_short(word, b"BATCH", 1) {
        Some(Setting::Silent)
    } else if is_short(word, b"CODEVIEW", 2) {
        Some(Setting::Warned(Idle::Debug))
    } else if is_short(word, b"DOSSEG", 2) {
        Some(Setting::Order(Ordering::Dosseg))
    } else if is_short(word, b"EXEPACK", 1) {
        Some(Setting::Warned(Idle::Packing))
    } else if is_short(word, b"FARCALLTRANSLATION", 1) {
        Some(Setting::Warned(Idle::Packing))
    } else if is_short(word, b"INFORMATION", 3) {
        Some(Setting::Verbose)
    } else if is_short(word, b"LINENUMBERS", 1) {
        Some(Setting::LineNumbers(true))
    } else if is_short(word, b"MAP", 1) {
        Some(Setting::Publics(true))
    } else if is_short(word, b"NODEFAULTLIBRARYSEARCH", 3) {
        Some(Setting::NoDefaults(true))
    } else {
        None
    }
}

// What an option of LINK without a value asks for.
fn next_named(word: &[u8]) -> Option<Setting>
    ensures { result ≡ spec.short_named word.now spec.next_named }
{
    if is_short(word, b"NOEXTDICTIONARY", 3) {
        Some(Setting::Silent)
    } else if is_short(word, b"NOFARCALLTRANSLATION", 3) {
        Some(Setting::Silent)
    } else if is_short(word, b"NOIGNORECASE", 3) {
        Some(Setting::Case(true))
    } else if is_short(word, b"NOLOGO", 3) {
        Some(Setting::Silent)
    } else if is_short(word, b"NONULLSDOSSEG", 3) {
        Some(Setting::Order(Ordering::WithoutNulls))
    } else if is_short(word, b"NOPACKCODE", 3) {
        Some(Setting::Silent)
    } else if is_short(word, b"PAUSE", 3) {
        Some(Setting::Silent)
    } else if is_short(word, b"PACKCODE", 5) {
        Some(Setting::Warned(Idle::Packing))
    } else if is_short(word, b"PACKDATA", 5) {
        Some(Setting::Warned(Idle::Packing))
    } else {
        None
    }
}

// What an option of LINK without a value asks for.
fn last_named(word: &[u8]) -> Option<Setting>
    ensures { result ≡ spec.short_named word.now spec.last_named }
{
    if is_short(word, b"TINY", 1) {
        Some(Setting::Form(Form::Com))
    } else if is_short(word, b"WARNFIXUP", 1) {
        Some(Setting::Warned(Idle::Nothing))
    } else if is_short(word, b"INCREMENTAL", 3) {
        Some(Setting::Warned(Idle::Nothing))
    } else if is_short(word, b"DSALLOCATE", 2) {
        Some(Setting::Refused(FaultKind::Refused))
    } else if is_short(word, b"HIGH", 2) {
        Some(Setting::Refused(FaultKind::Refused))
    } else if is_short(word, b"NOGROUPASSOCIATION", 3) {
        Some(Setting::Refused(FaultKind::Refused))
    } else if is_short(word, b"DYNAMIC", 2) {
        Some(Setting::Refused(FaultKind::Overlays))
    } else if is_short(word, b"OLDOVERLAY", 2) {
        Some(Setting::Refused(FaultKind::Overlays))
    } else if is_short(word, b"QUICKLIBRARY", 1) {
        Some(Setting::Refused(FaultKind::Refused))
    } else {
        None
    }
}

// What an option of LINK asks for that says nothing here, with a value or without.
fn idle_named(word: &[u8]) -> Option<Setting>
    ensures { result ≡ spec.short_named word.now spec.idle_named }
{
    if is_short(word, b"ALIGNMENT", 1) {
        Some(Setting::Warned(Idle::Nothing))
    } else if is_short(word, b"PADCODE", 4) {
        Some(Setting::Warned(Idle::Nothing))
    } else if is_short(word, b"PADDATA", 4) {
        Some(Setting::Warned(Idle::Nothing))
    } else if is_short(word, b"PMTYPE", 2) {
        Some(Setting::Warned(Idle::Nothing))
    } else {
        None
    }
}

// What an option of functions and of p-code asks for.
fn function_named(word: &[u8]) -> Option<Setting>
    ensures { result ≡ spec.short_named word.now spec.function_named }
{
    if is_short(word, b"PACKFUNCTIONS", 5) {
        Some(Setting::Warned(Idle::Nothing))
    } else if is_short(word, b"NOPACKFUNCTIONS", 7) {
        Some(Setting::Silent)
    } else if is_short(word, b"PCODE", 2) {
        Some(Setting::Refused(FaultKind::PCode))
    } else {
        None
    }
}

// What the stack's option asks for.
fn stack_asked(value: &[u8]) -> Setting
    ensures { result ≡ spec.stack_asked (spec.number value.now) }
{
    match number(value) {
        Some(bytes) if 1 <= bytes && bytes <= LONGEST => Setting::Stack(bytes),
        _ => Setting::Refused(STACK_EXPECTED),
    }
}

// What the option of extra paragraphs asks for.
fn extra_asked(value: &[u8]) -> Setting
    ensures { result ≡ spec.extra_asked (spec.number value.now) }
{
    match number(value) {
        Some(paragraphs) => match u16::try_from(paragraphs) {
            Ok(paragraphs) => Setting::MostExtra(paragraphs),
            Err(_) => Setting::Refused(EXTRA_EXPECTED),
        },
        None => Setting::Refused(EXTRA_EXPECTED),
    }
}

// What an option asks for whose number says nothing here.
fn number_asked(value: &[u8], asked: Setting) -> Setting
    ensures { result ≡ spec.number_asked asked (spec.number value.now) }
{
    match number(value) {
        Some(_) => asked,
        None => Setting::Refused(NUMBER_EXPECTED),
    }
}

// What the option of the map asks for.
fn map_asked(value: &[u8]) -> Setting
    ensures { result ≡ spec.map_asked value.now }
{
    if is_short(value, b"FULL", 1) || is_short(value, b"ADDRESS", 1) {
        Setting::Warned(Idle::Nothing)
    } else {
        number_asked(value, Setting::Publics(true))
    }
}

// What the option of faults asks for: no program where there is one, which is so.
fn on_error_asked(value: &[u8]) -> Setting
    ensures { result ≡ spec.on_error_asked value.now }
{
    if is_short(value, b"NOEXE", 5) {
        Setting::Silent
    } else {
        Setting::Refused(FaultKind::NoNoExe)
    }
}

// Whether an option has a value that says nothing here.
fn is_idle(name: &[u8]) -> bool
    ensures { result ≡ spec.is_idle name.now }
{
    is_short(name, b"OVERLAYINTERRUPT", 1)
        || is_short(name, b"ALIGNMENT", 1)
        || is_short(name, b"PADCODE", 4)
        || is_short(name, b"PADDATA", 4)
        || is_short(name, b"PACKCODE", 5)
        || is_short(name, b"PACKDATA", 5)
        || is_short(name, b"PMTYPE", 2)
}

// What the value of an option says.
fn valued_named(name: &[u8]) -> Option<Valued>
    ensures { result ≡ spec.valued_named name.now }
{
    if is_short(name, b"STACK", 2) {
        Some(Valued::Stack)
    } else if is_short(name, b"CPARMAXALLOC", 2) {
        Some(Valued::MostExtra)
    } else if is_short(name, b"SEGMENTS", 2) {
        Some(Valued::Number)
    } else if is_short(name, b"MAP", 1) {
        Some(Valued::Map)
    } else if is_short(name, b"NODEFAULTLIBRARYSEARCH", 3) {
        Some(Valued::Library)
    } else if is_short(name, b"ONERROR", 2) {
        Some(Valued::OnError)
    } else if is_idle(name) {
        Some(Valued::Idle)
    } else {
        None
    }
}

// What a value asks for.
fn value_asked(valued: Valued, value: &[u8]) -> Setting
    ensures { result ≡ spec.value_asked valued value.now }
{
    match valued {
        Valued::Stack => stack_asked(value),
        Valued::MostExtra => extra_asked(value),
        Valued::Number => number_asked(value, Setting::Silent),
        Valued::Map => map_asked(value),
        Valued::Library => Setting::LeavesOut,
        Valued::OnError => on_error_asked(value),
        Valued::Idle => Setting::Warned(Idle::Nothing),
    }
}

// What an option asks for that has a value.
fn valued_option(name: &[u8], value: &[u8]) -> Option<Setting>
    ensures { result ≡ spec.valued_option name.now value.now }
{
    match valued_named(name) {
        Some(valued) => Some(value_asked(valued, value)),
        None => None,
    }
}

// What an option without a value asks for.
fn plain_named(word: &[u8]) -> Option<Setting>
    ensures { result ≡ spec.plain_named word.now }
{
    first_named(word)
        .or(next_named(word))
        .or(last_named(word))
        .or(idle_named(word))
        .or(function_named(word))
}

/// What an option of LINK asks for, none where there is no such option.
#[tactic(auto, unfolding(crate::specs::Link::link_option))]
pub(crate) fn link_option(option: &str) -> Option<Setting>
    ensures { result ≡ spec.link_option option.now }
{
    match option.split_once(':') {
        Some((name, value)) => valued_option(name.as_bytes(), value.as_bytes()),
        None => plain_named(option.as_bytes()),
    }
}

// What is expected behind a name that takes a value.
fn value_expected(name: &[u8]) -> Option<FaultKind>
    ensures { result ≡ spec.short_named name.now spec.value_expected }
{
    if is_short(name, b"STACK", 2) {
        Some(STACK_EXPECTED)
    } else if is_short(name, b"CPARMAXALLOC", 2) {
        Some(EXTRA_EXPECTED)
    } else if is_short(name, b"SEGMENTS", 2) {
        Some(NUMBER_EXPECTED)
    } else if is_short(name, b"ONERROR", 2) {
        Some(FaultKind::NoNoExe)
    } else {
        None
    }
}

// Whether a text is a front of several names, up to those that begin with I.
fn is_early_front(text: &[u8]) -> bool
    ensures { result ≡ spec.is_early_front text.now }
{
    is_short(text, b"CODEVIEW", 1)
        || is_short(text, b"DOSSEG", 1)
        || is_short(text, b"HIGH", 1)
        || is_short(text, b"INFORMATION", 1)
}

// The same of those behind.
fn is_late_front(text: &[u8]) -> bool
    ensures { result ≡ spec.is_late_front text.now }
{
    is_short(text, b"NODEFAULTLIBRARYSEARCH", 1)
        || is_short(text, b"OVERLAYINTERRUPT", 1)
        || is_short(text, b"PACKCODE", 1)
        || is_short(text, b"PADCODE", 1)
        || is_short(text, b"SEGMENTS", 1)
}

// Whether a text is a front of several names, and none that is taken.
fn is_front_of_several(text: &[u8]) -> bool
    ensures { result ≡ spec.is_front_of_several text.now }
{
    is_early_front(text) || is_late_front(text)
}

// What is wrong with the name of what is no option.
fn name_fault(name: &[u8]) -> FaultKind
    ensures { result ≡ spec.name_fault name.now }
{
    if plain_named(name).is_some() {
        return FaultKind::NoValue;
    }
    match value_expected(name) {
        Some(fault) => fault,
        None if is_front_of_several(name) => FaultKind::ShortForSeveral,
        None => FaultKind::UnknownOption,
    }
}

/// What is wrong with a text that is no option of LINK.
#[tactic(auto, unfolding(crate::specs::Link::link_fault))]
pub(crate) fn link_fault(option: &str) -> FaultKind
    ensures { result ≡ spec.link_fault option.now }
{
    match option.split_once(':') {
        Some((name, _)) => name_fault(name.as_bytes()),
        None => name_fault(option.as_bytes()),
    }
}
