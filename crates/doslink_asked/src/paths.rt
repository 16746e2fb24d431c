//! Paths of what is written, made of others.
ghost use Rattle.std.specs.Prelude.{◌≡◌, ◌<◌, IfOk, is_some, string_bytes};
ghost use Rattle.std.specs.Option.{option_map};
ghost use Rattle.doslink_asked.specs.Lines as lines;
ghost use Rattle.doslink_asked.specs.Paths as spec;

use crate::languages::is_named;
use doslink_files::has_extension;
use doslink_words::{Form, Input};
use std::alloc::{AllocError, Allocator};

/// The path without the last dot in its last part, and what stands behind that.
fn without_extension(path: &str) -> &str
    ensures { result.now ≡ spec.without_extension path.now }
{
    if !has_extension(path.as_bytes()) {
        return path;
    }
    match path.rsplit_once('.') {
        Some((front, _)) => front,
        None => path,
    }
}

/// What stands behind the last dot in the last part of a path; nothing where it has none.
pub fn extension_of(path: &str) -> &str
    ensures { result.now ≡ spec.extension_of path.now }
{
    if !has_extension(path.as_bytes()) {
        return "";
    }
    match path.rsplit_once('.') {
        Some((_, extension)) => extension,
        None => "",
    }
}

/// What stands behind the last of an ASCII character in a path; the path where it has none.
pub(crate) fn behind_last(path: &str, parting: char) -> &str
    requires { parting < 128 }
    ensures { result.now ≡ lines.behind_last parting path.now }
{
    match path.rsplit_once(parting) {
        Some((_, name)) => name,
        None => path,
    }
}

/// The path with this extension in place of its own, if it has one.
pub fn with_extension<A: Allocator + Copy>(
    alloc: A,
    path: &str,
    extension: &str,
) -> Result<String<A>, AllocError>
    ensures { IfOk result (λ s. string_bytes s ≡ spec.with_extension path.now extension.now) }
{
    let mut made = String::from_str(alloc, without_extension(path))?;
    made.push_str(extension)?;
    Ok(made)
}

/// The path of the first file.
pub fn first_file<'a>(inputs: &[Input<'a>]) -> Option<&'a str>
    ensures { option_map (λ path. path.now) result ≡ spec.first_file inputs.now }
{
    match inputs {
        [] => None,
        [Input::File(path), ..] => Some(path),
        [Input::Library(_), rest @ ..] => first_file(rest),
    }
}

/// The path of a program that is called after this file or library.
pub fn path_after<A: Allocator + Copy>(
    alloc: A,
    name: Option<&str>,
    extension: &str,
) -> Result<String<A>, AllocError>
    ensures { IfOk result (λ path. string_bytes path
        ≡ spec.path_after (option_map (λ n. n.now) name.entry) extension.now) }
{
    match name {
        Some(name) if name != "-" => with_extension(alloc, name, extension),
        _ => with_extension(alloc, "OUT", extension),
    }
}

/// The extension of a file of a form.
pub fn extension_for(form: Option<Form>) -> &'static str
    ensures { result.now ≡ spec.extension_for form }
{
    match form {
        None | Some(Form::Exe | Form::LimitedExe { .. }) => ".EXE",
        Some(Form::Com | Form::FromStart) => ".COM",
        Some(Form::Raw { .. }) => ".BIN",
        Some(Form::Driver) => ".SYS",
    }
}

/// Whether a path is no file, but standard output.
pub fn is_output(path: &str) -> bool
    ensures { result ≡ spec.is_output path.now }
{
    path == "-"
}

/// What is told of a program whose name has this extension, where no form is said; none where it isn't that of another
/// form than .EXE.
pub fn other_form(extension: &[u8]) -> Option<&'static str>
    ensures { is_some result ≡ spec.is_other_form extension.now }
{
    if is_named(extension, b"com") {
        Some("without a form an EXE file is written: say --form com, or --form exe")
    } else if is_named(extension, b"sys") {
        Some("without a form an EXE file is written: say --form sys, or --form exe")
    } else if is_named(extension, b"bin") || is_named(extension, b"img") {
        Some("without a form an EXE file is written: say --form bin, or --form exe")
    } else {
        None
    }
}

/// Whether an EXE file of this name would be taken for one of another form.
pub fn is_of_other_form(out: &str) -> bool
    ensures { result ≡ spec.is_other_form (spec.extension_of out.now) }
{
    other_form(extension_of(out).as_bytes()).is_some()
}
