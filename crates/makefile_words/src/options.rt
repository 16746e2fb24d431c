//! What the options of a word say.
ghost use Rattle.std.specs.Prelude.{◌≡◌};
ghost use Rattle.std.specs.Option.{option_map};
ghost use Rattle.clap.specs.Lexer.{strip_byte};
ghost use Rattle.doslink_words.specs.Tokens.{texts};
ghost use Rattle.makefile_words.specs.Lines as spec;
ghost use Rattle.makefile_words.specs.inside.Follows.{Follows};
ghost use Rattle.makefile_words.specs.inside.Lines.{line_of};

use crate::cut::{option_fault, option_named, options_in};
use crate::faults::{FaultKind, WordFault};
use crate::line::{IdleAt, Line};
use crate::parts::parts_of;
use crate::settings::Setting;
use crate::tokens::Language;
use std::alloc::Global;

// What follows a first `L`.
fn after_libraries(option: &str) -> Option<&str>
    ensures { option_map (λ rest. rest.now) result ≡ strip_byte 76 option.now }
{
    option.strip_prefix('L')
}

// What follows a first `j`.
fn after_objects(option: &str) -> Option<&str>
    ensures { option_map (λ rest. rest.now) result ≡ strip_byte 106 option.now }
{
    option.strip_prefix('j')
}

// The value of `LFOLDERS`, and of `jFOLDERS`.
fn folders_text(option: &str) -> &str
    ensures { result.now ≡ spec.folders_text option.now }
{
    match after_libraries(option).or(after_objects(option)) {
        Some(folders) => folders,
        None => option,
    }
}

// The value of `NODEFAULTLIBRARYSEARCH:LIB`.
fn library_text(option: &str) -> &str
    ensures { result.now ≡ spec.library_text option.now }
{
    match option.split_once(':') {
        Some((_, library)) => library,
        None => option,
    }
}

// The name of a folder, which stands between two quotes or has none.
fn folder_name(folder: &str) -> Option<&str>
    ensures { option_map (λ name. name.now) result ≡ spec.folder_name folder.now }
{
    match folder.split_once('"') {
        None => Some(folder),
        Some((front, quoted)) => match quoted.split_once('"') {
            Some((name, behind)) if front.is_empty() && behind.is_empty() => Some(name),
            _ => None,
        },
    }
}

// Appends the names of folders.
fn put_folders<'a>(list: &mut Vec<&'a str>, folders: &[&'a str]) -> Result<(), WordFault>
    ensures { Follows result (spec.with_folders (texts list.old.items) (texts folders.now)) (texts list.new.items) }
{
    'folders: for folder in folders {
        match folder_name(folder) {
            Some(name) => list.push(name)?,
            None => return Err(WordFault::Wrong(FaultKind::PartlyQuoted)),
        }
    }
    Ok(())
}

// Follows an option that asks for this.
fn follow_setting<'a>(
    line: &mut Line<'a>,
    alloc: Global,
    place: usize,
    setting: Setting,
    option: &'a str,
) -> Result<(), WordFault>
    ensures { Follows result (spec.setting_meaning place setting option.now (line_of line.old)) (line_of line.new) }
{
    match setting {
        Setting::Folders => {
            let folders = parts_of(alloc, b';', folders_text(option))?;
            put_folders(&mut line.folders, &folders)?;
        }
        Setting::ObjectFolders => {
            let folders = parts_of(alloc, b';', folders_text(option))?;
            put_folders(&mut line.object_folders, &folders)?;
        }
        Setting::LeavesOut => line.left_out.push(library_text(option))?,
        Setting::Warned(idle) => line.warnings.push(IdleAt { place, idle })?,
        Setting::Refused(kind) => return Err(WordFault::Wrong(kind)),
        _ => setting.put(&mut line.settings),
    }
    Ok(())
}

// Follows an option.
fn follow_option<'a>(
    line: &mut Line<'a>,
    alloc: Global,
    place: usize,
    language: Language,
    option: &'a str,
) -> Result<(), WordFault>
    ensures { Follows result (spec.option_meaning place language option.now (line_of line.old)) (line_of line.new) }
{
    match option_named(language, option) {
        Some(setting) => follow_setting(line, alloc, place, setting, option),
        None => Err(WordFault::Wrong(option_fault(language, option))),
    }
}

/// Follows options, one behind the other.
fn follow_options<'a>(
    line: &mut Line<'a>,
    alloc: Global,
    place: usize,
    language: Language,
    options: &[&'a str],
) -> Result<(), WordFault>
    ensures { Follows result (spec.with_options place language (texts options.now) (line_of line.old))
        (line_of line.new) }
{
    'options: for option in options {
        follow_option(line, alloc, place, language, option)?;
    }
    Ok(())
}

/// Follows the options of a word, where it has some.
pub(crate) fn follow_text<'a>(
    line: &mut Line<'a>,
    alloc: Global,
    place: usize,
    language: Language,
    text: Option<&'a str>,
) -> Result<(), WordFault>
    ensures { Follows result (spec.options_meaning place language (option_map (λ s. s.now) text.entry)
        (line_of line.old)) (line_of line.new) }
{
    let Some(text) = text else {
        return Ok(());
    };
    let options = options_in(alloc, language, text)?;
    follow_options(line, alloc, place, language, &options)
}
