//! The options of TLINK.
ghost use Rattle.std.specs.Prelude.{◌≡◌};
ghost use Rattle.makefile_words.specs.Tlink as spec;

use crate::faults::FaultKind;
use crate::settings::{Idle, Setting};
use doslink_words::Form;

// What an option of TLINK asks for that is switched on or off.
fn flag_named(name: &[u8], on: bool) -> Option<Setting>
    ensures { result ≡ spec.named name.now (spec.flags on) }
{
    match name {
        b"c" => Some(Setting::Case(on)),
        b"i" => Some(Setting::WritesAll(on)),
        b"l" => Some(Setting::LineNumbers(on)),
        b"m" => Some(Setting::Publics(on)),
        b"n" => Some(Setting::NoDefaults(on)),
        b"s" => Some(Setting::Detailed(on)),
        b"x" => Some(Setting::NoMap(on)),
        b"e" | b"3" | b"C" | b"E" | b"k" | b"j" | b"P" => Some(Setting::Silent),
        _ => None,
    }
}

// What an option asks for that isn't switched on or off alike.
fn word_named(word: &[u8]) -> Option<Setting>
    ensures { result ≡ spec.named word.now spec.words }
{
    match word {
        b"t" | b"Tdc" => Some(Setting::Form(Form::Com)),
        b"Td" | b"t-" | b"Tde" => Some(Setting::Form(Form::Exe)),
        b"v" => Some(Setting::Warned(Idle::Debug)),
        b"d" | b"M" => Some(Setting::Warned(Idle::Nothing)),
        b"f" => Some(Setting::Warned(Idle::Packing)),
        b"o" => Some(Setting::Refused(FaultKind::Overlays)),
        b"v-" | b"d-" | b"M-" | b"f-" | b"o-" | b"yc" | b"ye" => Some(Setting::Silent),
        _ => None,
    }
}

// What an option with a number asks for.
fn numbered(option: &[u8]) -> Option<Setting>
    ensures { result ≡ spec.numbered option.now }
{
    match option {
        [b'A' | b'P', b'=', ..] => Some(Setting::Silent),
        _ => None,
    }
}

// What an option asks for behind whose letter any text may stand.
fn begun(option: &[u8]) -> Option<Setting>
    ensures { result ≡ spec.begun option.now }
{
    match option {
        [b'L', _, ..] => Some(Setting::Folders),
        [b'j', _, ..] => Some(Setting::ObjectFolders),
        [b'O', ..] => Some(Setting::Warned(Idle::Packing)),
        [b'y', ..] => Some(Setting::Warned(Idle::Nothing)),
        [b'T', ..] => Some(Setting::Refused(FaultKind::NotDos)),
        [b'R', ..] => Some(Setting::Refused(FaultKind::Refused)),
        _ => None,
    }
}

// What an option asks for that is switched off.
fn switched_off(option: &[u8]) -> Option<Setting>
    ensures { result ≡ spec.switched_off option.now }
{
    match option {
        [name @ .., b'-'] => flag_named(name, false),
        _ => None,
    }
}

/// What an option asks for behind whose name no text may stand but a number, none where there is no such option.
#[tactic(auto, unfolding(crate::specs::Tlink::closed_option))]
pub(crate) fn closed_option(option: &[u8]) -> Option<Setting>
    ensures { result ≡ spec.closed_option option.now }
{
    flag_named(option, true)
        .or(switched_off(option))
        .or(word_named(option))
        .or(numbered(option))
}

/// What an option of TLINK asks for, none where there is no such option.
#[tactic(auto, unfolding(crate::specs::Tlink::tlink_option))]
pub(crate) fn tlink_option(option: &[u8]) -> Option<Setting>
    ensures { result ≡ spec.tlink_option option.now }
{
    closed_option(option).or(begun(option))
}

/// What is wrong with a text that is no option of TLINK.
pub(crate) fn tlink_fault(option: &[u8]) -> FaultKind
    ensures { result ≡ spec.tlink_fault option.now }
{
    match option {
        b"L" => FaultKind::NoFolders,
        _ => FaultKind::UnknownOption,
    }
}
