//! The job that a line asks for.
ghost use Rattle.std.specs.Prelude.{◌≡◌};
ghost use Rattle.std.specs.List.{list_any};
ghost use Rattle.std.specs.Option.{option_map};
ghost use Rattle.doslink_words.specs.Said.{map_of, order_of};
ghost use Rattle.makefile_words.specs.Jobs as spec;
ghost use Rattle.makefile_words.specs.inside.Lines.{line_of};

use crate::line::{IdleAt, Line};
use crate::names::{is, is_console, is_null};
use crate::settings::{Ordering, Settings};
use crate::tokens::Language;
use doslink_words::{Form, Job, MapFile, MapForm, Order, Stack};
use std::alloc::Global;

/// The job of a line, and what a job of `doslink` has no word for.
#[derive(Debug, Drop)]
pub struct MakefileJob<'a> {
    /// What is linked, and how.
    pub job: Job<'a>,
    /// The name of a file of definitions, as it is written, where one is named.
    pub definitions: Option<&'a str>,
    /// What the options say: among it what the map tells.
    pub settings: Settings,
    /// The options that have no effect, or not all that they would have, in their order.
    pub warnings: Vec<IdleAt>,
}

// The map, where one is made.
fn map_asked<'a>(settings: Settings, name: Option<&'a str>) -> Option<MapFile<'a>>
    ensures { option_map map_of result ≡ spec.map_asked settings (option_map (λ s. s.now) name.entry) }
{
    if settings.no_map {
        return None;
    }
    match name {
        Some(name) if is_null(name) => None,
        Some(name) if is_console(name) => Some(MapFile::At("-")),
        Some(name) => Some(MapFile::At(name)),
        None if settings.makes_map || settings.publics || settings.line_numbers => {
            Some(MapFile::Beside)
        }
        None => None,
    }
}

// The file of definitions, where one is named.
fn definitions_asked(name: Option<&str>) -> Option<&str>
    ensures { option_map (λ s. s.now) result ≡ spec.definitions_asked (option_map (λ s. s.now) name.entry) }
{
    match name {
        Some(name) if is_null(name) => None,
        _ => name,
    }
}

// The order of segments.
fn order_asked<'a>(ordering: Ordering) -> Order<'a>
    ensures { order_of result ≡ spec.order_asked ordering }
{
    match ordering {
        Ordering::Meeting => Order::Meeting,
        Ordering::Dosseg | Ordering::WithoutNulls => Order::Dosseg,
    }
}

// The form of the map, with line numbers or without; that of TLINK may have the detailed map of segments.
fn map_form_of(language: Language, settings: Settings) -> MapForm
    ensures { result ≡ spec.map_form_of language settings }
{
    let line_numbers = settings.line_numbers;
    match language {
        Language::Tlink => MapForm::Tlink {
            line_numbers,
            details: settings.detailed,
        },
        Language::Link => MapForm::Link { line_numbers },
    }
}

// Whether the order DOSSEG has null bytes.
fn nulls_asked(language: Language, form: Form, ordering: Ordering) -> bool
    ensures { result ≡ spec.nulls_asked language form ordering }
{
    match (language, form, ordering) {
        (Language::Tlink, _, _) | (_, Form::Com, _) | (_, _, Ordering::WithoutNulls) => false,
        _ => true,
    }
}

// Whether a byte stands behind a folder or a drive.
fn ends_folder(byte: u8) -> bool
    ensures { result ≡ spec.ends_folder byte }
{
    byte == b'\\' || byte == b'/' || byte == b':'
}

// Whether a folder or a drive stands in a text.
fn has_folder(text: &str) -> bool
    ensures { result ≡ list_any spec.ends_folder text.now }
{
    text.as_bytes().iter().any(|byte| ends_folder(*byte))
}

// The extension of a name: what stands behind its last dot, where no folder or drive does.
fn name_extension(name: &str) -> Option<&str>
    ensures { option_map (λ s. s.now) result ≡ spec.name_extension name.now }
{
    match name.rsplit_once('.') {
        Some((_, rest)) if !has_folder(rest) => Some(rest),
        _ => None,
    }
}

// Whether a name has an extension, and another one than .COM.
fn has_other_extension(name: &str) -> bool
    ensures { result ≡ spec.has_other_extension name.now }
{
    match name_extension(name) {
        Some(extension) => !is(extension, "com"),
        None => false,
    }
}

// Whether a file that is asked for as a .COM file begins at the program's start, which may be at 0 too.
fn is_from_start(language: Language, out: Option<&str>) -> bool
    ensures { result ≡ spec.is_from_start language (option_map (λ s. s.now) out.entry) }
{
    match (language, out) {
        (Language::Tlink, Some(name)) => has_other_extension(name),
        _ => false,
    }
}

// The form of the program's file: an EXE file may have a limit of the memory behind its image.
fn form_asked(language: Language, settings: Settings, out: Option<&str>) -> Form
    ensures { result ≡ spec.form_asked language settings.form settings.most_extra
        (option_map (λ s. s.now) out.entry) }
{
    match (settings.form, settings.most_extra) {
        (Form::Exe, Some(paragraphs)) => Form::LimitedExe { paragraphs },
        (Form::Com, _) if is_from_start(language, out) => Form::FromStart,
        (form, _) => form,
    }
}

// The stack, which a longer one is cut to.
fn stack_asked(bytes: Option<u32>) -> Option<Stack>
    ensures { result ≡ spec.stack_asked bytes }
{
    Some(Stack {
        bytes: bytes?,
        cuts: true,
    })
}

/// The job of what is said.
pub(crate) fn job_of<'a>(alloc: Global, language: Language, line: Line<'a>) -> MakefileJob<'a>
    ensures { spec.IsJobOf language (line_of line.entry) result }
{
    let settings = line.settings;
    let job = Job {
        inputs: line.inputs,
        out: line.out,
        map: map_asked(settings, line.map),
        map_form: map_form_of(language, settings),
        folders: line.folders,
        object_folders: line.object_folders,
        ignore_case: !settings.case_counts,
        order: order_asked(settings.order),
        null_bytes: nulls_asked(language, settings.form, settings.order),
        stack: stack_asked(settings.stack),
        form: Some(form_asked(language, settings, line.out)),
        default_libraries: !settings.no_defaults,
        left_out: line.left_out,
        keep_debug: false,
        packs_far_data: false,
        verbose: settings.verbose,
        quiet: false,
        start: None,
        references: Vec::new(alloc),
        aliases: Vec::new(alloc),
    };
    MakefileJob {
        job,
        definitions: definitions_asked(line.definitions),
        settings,
        warnings: line.warnings,
    }
}
