//! What the names of a line say in their fields.
ghost use Rattle.std.specs.Prelude.{◌≡◌, ◌<◌};
ghost use Rattle.std.specs.Option.{option_map};
ghost use Rattle.std.specs.List.{before_first};
ghost use Rattle.doslink_words.specs.Keywords.{is_keyword};
ghost use Rattle.makefile_words.specs.Lines as spec;
ghost use Rattle.makefile_words.specs.inside.Follows.{Follows};
ghost use Rattle.makefile_words.specs.inside.Lines.{line_of};

use crate::faults::{FaultKind, WordFault};
use crate::line::{Field, Line};
use crate::link::is_bytes;
use doslink_words::Input;

// Whether a word is this keyword, where small and capital letters are the same.
pub(crate) fn is(word: &str, keyword: &str) -> bool
    ensures { result ≡ is_keyword word.now keyword.now }
{
    word.eq_ignore_ascii_case(keyword)
}

// A name without its extension.
fn stem(name: &str) -> &str
    ensures { result.now ≡ before_first spec.is_dot name.now }
{
    match name.split_once('.') {
        Some((stem, _)) => stem,
        None => name,
    }
}

// What stands behind the last of an ASCII character in a name; the name where it has none.
fn behind_last(name: &str, parting: char) -> &str
    requires { parting < 128 }
    ensures { result.now ≡ spec.behind_last parting name.now }
{
    match name.rsplit_once(parting) {
        Some((_, behind)) => behind,
        None => name,
    }
}

// A name without the colon at its end.
fn without_colon(name: &str) -> &str
    ensures { result.now ≡ spec.without_colon name.now }
{
    match name.as_bytes() {
        [front @ .., b':'] => &name[..front.len()],
        _ => name,
    }
}

// What of a name may be that of a device: without folders and a drive, without an extension, and without a colon behind
// it.
fn device_part(name: &str) -> &str
    ensures { result.now ≡ spec.device_part name.now }
{
    let name = without_colon(name);
    stem(behind_last(behind_last(behind_last(name, '/'), '\\'), ':'))
}

/// Whether a name is `NUL`, in any folder, with any extension or a colon.
pub(crate) fn is_null(name: &str) -> bool
    ensures { result ≡ spec.is_null name.now }
{
    is(device_part(name), "nul")
}

// Whether a name is `LPT` or `COM` with a digit behind it, 1 to 9.
fn is_port(name: &str) -> bool
    ensures { result ≡ spec.is_port name.now }
{
    match name.as_bytes() {
        [port @ .., digit] => {
            b'1' <= *digit && *digit <= b'9' && (is_bytes(port, b"lpt") || is_bytes(port, b"com"))
        }
        _ => false,
    }
}

/// Whether a name is `CON`, in any folder, with any extension or a colon.
pub(crate) fn is_console(name: &str) -> bool
    ensures { result ≡ spec.is_console name.now }
{
    is(device_part(name), "con")
}

// Whether a name is another device that is no file to write.
fn is_refused(name: &str) -> bool
    ensures { result ≡ spec.is_refused name.now }
{
    let name = device_part(name);
    is(name, "prn") || is(name, "aux") || is_port(name)
}

// Whether a name is a folder of libraries.
fn is_folder(name: &str) -> bool
    ensures { result ≡ spec.is_folder name.now }
{
    match name.as_bytes() {
        [.., b'\\' | b'/' | b':'] => true,
        _ => false,
    }
}

// Whether a name begins with this byte.
fn begins_with(byte: u8, name: &str) -> bool
    ensures { result ≡ spec.begins_with byte name.now }
{
    match name.as_bytes() {
        [first, ..] => *first == byte,
        _ => false,
    }
}

// Puts an object.
fn put_object<'a>(line: &mut Line<'a>, name: &'a str) -> Result<(), WordFault>
    ensures { Follows result (spec.object_meaning name.now (line_of line.old)) (line_of line.new) }
{
    if begins_with(b'(', name) {
        return Err(WordFault::Wrong(FaultKind::Overlays));
    }
    line.inputs.push(Input::File(name))?;
    Ok(())
}

// Puts the program.
fn put_program<'a>(line: &mut Line<'a>, name: &'a str) -> Result<(), WordFault>
    ensures { Follows result (spec.program_meaning name.now (line_of line.old)) (line_of line.new) }
{
    if line.out.is_some() {
        return Err(WordFault::Wrong(FaultKind::SecondName));
    }
    if is_null(name) || is_console(name) || is_refused(name) {
        return Err(WordFault::Wrong(FaultKind::Device));
    }
    line.out = Some(name);
    Ok(())
}

// Puts the map.
fn put_map<'a>(line: &mut Line<'a>, name: &'a str) -> Result<(), WordFault>
    ensures { Follows result (spec.map_meaning name.now (line_of line.old)) (line_of line.new) }
{
    if line.map.is_some() {
        return Err(WordFault::Wrong(FaultKind::SecondName));
    }
    if is_refused(name) {
        return Err(WordFault::Wrong(FaultKind::Device));
    }
    line.map = Some(name);
    Ok(())
}

// Puts the file of definitions.
fn put_definitions<'a>(line: &mut Line<'a>, name: &'a str) -> Result<(), WordFault>
    ensures { Follows result (spec.definitions_meaning name.now (line_of line.old)) (line_of line.new) }
{
    if line.definitions.is_some() {
        return Err(WordFault::Wrong(FaultKind::SecondName));
    }
    if is_console(name) || is_refused(name) {
        return Err(WordFault::Wrong(FaultKind::Device));
    }
    line.definitions = Some(name);
    Ok(())
}

// Puts a library, or a folder of libraries.
fn put_library<'a>(line: &mut Line<'a>, name: &'a str) -> Result<(), WordFault>
    ensures { Follows result (spec.library_meaning name.now (line_of line.old)) (line_of line.new) }
{
    if is_null(name) {
        return Ok(());
    }
    if is_folder(name) {
        line.folders.push(name)?;
    } else {
        line.inputs.push(Input::Library(name))?;
    }
    Ok(())
}

/// Puts a name into the field that comes next.
pub(crate) fn put_field<'a>(line: &mut Line<'a>, name: &'a str) -> Result<(), WordFault>
    ensures { Follows result (spec.put_meaning name.now (line_of line.old)) (line_of line.new) }
{
    line.continued = false;
    match line.field {
        Field::Objects => put_object(line, name),
        Field::Program => put_program(line, name),
        Field::MapFile => put_map(line, name),
        Field::Libraries => put_library(line, name),
        Field::Definitions => put_definitions(line, name),
        Field::Ended => Err(WordFault::Wrong(FaultKind::BehindEnd)),
    }
}

/// Puts the name of a word without quotes, where it has one.
pub(crate) fn put_name<'a>(line: &mut Line<'a>, name: Option<&'a str>) -> Result<(), WordFault>
    ensures { Follows result (spec.named_meaning (option_map (λ s. s.now) name.entry) (line_of line.old))
        (line_of line.new) }
{
    match name {
        Some(name) if begins_with(b'@', name) => Err(WordFault::Wrong(FaultKind::Response)),
        Some(name) => put_field(line, name),
        None => Ok(()),
    }
}
