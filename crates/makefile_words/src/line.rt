//! What is said of a line.
ghost use Rattle.std.specs.Prelude.{◌≡◌};
ghost use Rattle.makefile_words.specs.Lines as spec;
ghost use Rattle.makefile_words.specs.inside.Lines.{line_of};

use crate::settings::{Idle, Ordering, Setting, Settings};
use crate::tokens::Language;
use doslink_words::{Form, Input};
use std::alloc::Global;

/// A field of a line.
#[derive(Clone, Copy)]
pub(crate) enum Field {
    /// What is linked.
    Objects,
    /// The program.
    Program,
    /// The map.
    MapFile,
    /// Libraries, and folders of them.
    Libraries,
    /// The file of definitions.
    Definitions,
    /// None: `;` stood before.
    Ended,
}

/// A part of a line.
#[derive(Clone, Copy)]
pub(crate) enum Part {
    /// What stands in front: the environment's LINK, or TLINK.CFG.
    Front,
    /// What stands behind that.
    Behind,
}

/// An option that has no effect, or not all that it would have; or a definition.
#[derive(Clone, Copy, Debug, PartialEq, Eq)]
pub struct IdleAt {
    /// How many bytes stand before its word: of the front of a line and of the text behind it, or of a file of
    /// definitions.
    pub place: usize,
    /// What it is.
    pub idle: Idle,
}

/// What is said so far.
#[derive(Drop)]
pub(crate) struct Line<'a> {
    /// What is linked.
    pub inputs: Vec<Input<'a>>,
    /// The program's name.
    pub out: Option<&'a str>,
    /// The map's name.
    pub map: Option<&'a str>,
    /// The name of the file of definitions.
    pub definitions: Option<&'a str>,
    /// The folders in which libraries are looked up.
    pub folders: Vec<&'a str>,
    /// The folders in which objects are looked up that aren't where their names say.
    pub object_folders: Vec<&'a str>,
    /// The libraries that are left out where a module names them.
    pub left_out: Vec<&'a str>,
    /// What has no effect.
    pub warnings: Vec<IdleAt>,
    /// The options.
    pub settings: Settings,
    /// The field of the next name.
    pub field: Field,
    /// Whether `+` or a comma stood last.
    pub continued: bool,
}

// Whether a map is made without a word of it.
fn makes_map(language: Language) -> bool
    ensures { result ≡ spec.makes_map language }
{
    match language {
        Language::Tlink => true,
        Language::Link => false,
    }
}

impl Field {
    // The field behind this one; none stands behind the definitions.
    pub(crate) fn later(self) -> Field
        ensures { result ≡ spec.later self }
    {
        match self {
            Field::Objects => Field::Program,
            Field::Program => Field::MapFile,
            Field::MapFile => Field::Libraries,
            Field::Libraries | Field::Definitions => Field::Definitions,
            Field::Ended => Field::Ended,
        }
    }

    // Whether it is the first.
    pub(crate) fn is_objects(self) -> bool
        ensures { result ≡ spec.is_objects self }
    {
        match self {
            Field::Objects => true,
            _ => false,
        }
    }

    // Whether it is the map's.
    pub(crate) fn is_map(self) -> bool
        ensures { result ≡ spec.is_map self }
    {
        match self {
            Field::MapFile => true,
            _ => false,
        }
    }

    // Whether it is the last.
    pub(crate) fn is_last(self) -> bool
        ensures { result ≡ spec.is_last self }
    {
        match self {
            Field::Definitions => true,
            _ => false,
        }
    }

    // Whether the line is ended.
    pub(crate) fn is_ended(self) -> bool
        ensures { result ≡ spec.is_ended self }
    {
        match self {
            Field::Ended => true,
            _ => false,
        }
    }
}

impl<'a> Line<'a> {
    // What no word says.
    pub(crate) fn new(alloc: Global, language: Language) -> Line<'a>
        ensures { line_of result ≡ spec.nothing_said language }
    {
        let settings = Settings {
            case_counts: false,
            no_defaults: false,
            no_map: false,
            makes_map: makes_map(language),
            publics: false,
            line_numbers: false,
            detailed: false,
            writes_all: false,
            verbose: false,
            form: Form::Exe,
            order: Ordering::Meeting,
            stack: None,
            most_extra: None,
        };
        Line {
            inputs: Vec::new(alloc),
            out: None,
            map: None,
            definitions: None,
            folders: Vec::new(alloc),
            object_folders: Vec::new(alloc),
            left_out: Vec::new(alloc),
            warnings: Vec::new(alloc),
            settings,
            field: Field::Objects,
            continued: false,
        }
    }
}

// The order behind an option that says one: /NONULLSDOSSEG holds, whatever stands behind it.
fn later_order(had: Ordering, said: Ordering) -> Ordering
    ensures { result ≡ spec.later_order had said }
{
    match had {
        Ordering::WithoutNulls => Ordering::WithoutNulls,
        Ordering::Meeting | Ordering::Dosseg => said,
    }
}

impl Setting {
    // Puts what an option says of one of the settings.
    pub(crate) fn put(self, settings: &mut Settings)
        ensures { settings.new ≡ spec.changed self settings.old }
    {
        match self {
            Setting::Case(on) => settings.case_counts = on,
            Setting::NoDefaults(on) => settings.no_defaults = on,
            Setting::NoMap(on) => settings.no_map = on,
            Setting::Publics(on) => settings.publics = on,
            Setting::LineNumbers(on) => settings.line_numbers = on,
            Setting::Detailed(on) => settings.detailed = on,
            Setting::WritesAll(on) => settings.writes_all = on,
            Setting::Verbose => settings.verbose = true,
            Setting::Form(form) => settings.form = form,
            Setting::Order(order) => settings.order = later_order(settings.order, order),
            Setting::Stack(bytes) => settings.stack = Some(bytes),
            Setting::MostExtra(paragraphs) => settings.most_extra = Some(paragraphs),
            _ => {}
        }
    }
}
