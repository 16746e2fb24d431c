//! The job of `doslink`.
ghost use Rattle.std.specs.Prelude.{◌≡◌};
ghost use Rattle.doslink_words.specs.Said as said;
ghost use Rattle.doslink_words.specs.Said.{nothing, said_of};

use std::alloc::Global;

/// What is linked, and how. Each text is a slice of the words or of the response file that ask for it.
#[derive(Debug, Drop)]
pub struct Job<'a> {
    /// What is linked, in the order in which it was named: modules, and libraries where they are searched.
    pub inputs: Vec<Input<'a>>,
    /// The path of the program that is written, where one is given.
    pub out: Option<&'a str>,
    /// The map that is written, where one is asked for.
    pub map: Option<MapFile<'a>>,
    /// The form of the map.
    pub map_form: MapForm,
    /// The folders in which libraries are looked up, in their order.
    pub folders: Vec<&'a str>,
    /// The folders in which files that are named by a path are looked up where nothing can be opened at that path, in
    /// their order.
    pub object_folders: Vec<&'a str>,
    /// Whether names of publics and externals agree without regard to case.
    pub ignore_case: bool,
    /// The order of segments.
    pub order: Order<'a>,
    /// Whether the order DOSSEG, asked for by the job or by a module, has 16 null bytes in front of `_TEXT`.
    pub null_bytes: bool,
    /// How long the stack is to be, where that is asked for.
    pub stack: Option<Stack>,
    /// The form of the program's file, where one is said; else it is an EXE file.
    pub form: Option<Form>,
    /// Whether the libraries that modules name are searched too.
    pub default_libraries: bool,
    /// Libraries that aren't searched where only a module names them.
    pub left_out: Vec<&'a str>,
    /// Whether segments of debugging stay in the program.
    pub keep_debug: bool,
    /// Whether segments of class FAR_DATA share a frame where they fit in one, as under WLINK.
    pub packs_far_data: bool,
    /// Whether what is done is told.
    pub verbose: bool,
    /// Whether nothing is told but faults.
    pub quiet: bool,
    /// The public at which the program starts, whatever modules say of that, where one is said.
    pub start: Option<&'a str>,
    /// Names that are wanted beside those of modules, as externals are.
    pub references: Vec<&'a str>,
    /// Names that mean others, behind the aliases of modules.
    pub aliases: Vec<Alias<'a>>,
}

/// Something that is linked.
#[derive(Clone, Copy, Debug, PartialEq, Eq)]
pub enum Input<'a> {
    /// The path of a file: a module, or a library, as its bytes say.
    File(&'a str),
    /// The name of a library that is looked up in folders.
    Library(&'a str),
}

/// A name that means another one in each module that is linked.
#[derive(Clone, Copy, Debug, PartialEq, Eq)]
pub struct Alias<'a> {
    /// The name.
    pub name: &'a str,
    /// What it means.
    pub means: &'a str,
}

/// The length of a stack.
#[derive(Clone, Copy, Debug, PartialEq, Eq)]
pub struct Stack {
    /// How many bytes it has, 1 to 65,536.
    pub bytes: u32,
    /// Whether a longer one, made by the modules, is cut to it; else that is a fault.
    pub cuts: bool,
}

/// The form of a program's file.
#[derive(Clone, Copy, Debug, PartialEq, Eq)]
pub enum Form {
    /// An EXE file, which DOS loads at any paragraph, and to which it gives all memory behind.
    Exe,
    /// An EXE file to which DOS gives so many paragraphs behind its image at most, and at least those that it needs.
    LimitedExe { paragraphs: u16 },
    /// A .COM file: the program from 100H on, which DOS loads behind a program segment prefix.
    Com,
    /// The bytes of the program as it is located at a paragraph, from an address of it on.
    Raw { paragraph: u16, from: u32 },
    /// The file of a device driver, .SYS: the bytes of a program without relocated words.
    Driver,
    /// The bytes of a program in one segment from its start on, which is at 0, or at 100H as that of a .COM file.
    FromStart,
}

/// Whether a program's file of this form has a header, which says where the program starts and where its stack is. One
/// without starts at its first byte.
pub fn has_header(form: Option<Form>) -> bool
    ensures { result ≡ said.has_header form }
{
    matches!(form, None | Some(Form::Exe | Form::LimitedExe { .. }))
}

/// Where a map is written.
#[derive(Clone, Copy, Debug, PartialEq, Eq)]
pub enum MapFile<'a> {
    /// Beside the program, under its name with `.MAP` at its end.
    Beside,
    /// At this path.
    At(&'a str),
}

/// The form of a map.
#[derive(Clone, Copy, Debug, PartialEq, Eq)]
pub enum MapForm {
    /// That of `omf`.
    Omf,
    /// That of Microsoft's LINK: start, stop, length, name and class of segments, and publics twice.
    Link {
        /// Whether it has the line numbers of the modules.
        line_numbers: bool,
    },
    /// That of Borland's TLINK.
    Tlink {
        /// Whether it has the line numbers of the modules.
        line_numbers: bool,
        /// Whether it has the detailed map of segments: each module's part of each.
        details: bool,
    },
}

/// The order in which segments stand.
#[derive(Debug, Drop)]
pub enum Order<'a> {
    /// As classes and segments are met.
    Meeting,
    /// DOSSEG: the classes that end in CODE, what is in no group DGROUP, and in DGROUP the class BEGDATA, others, BSS
    /// and STACK.
    Dosseg,
    /// These classes and segments, and the others behind them.
    Listed(Vec<OrderItem<'a>>),
}

/// A class or a segment in a list of an order.
#[derive(Clone, Copy, Debug, PartialEq, Eq)]
pub enum OrderItem<'a> {
    /// The class of this name.
    Class(&'a str),
    /// The segment of this name, of the last class before it.
    Segment(&'a str),
}

/// What the directives of a text ask for.
#[derive(Debug, Drop)]
pub struct Directives<'a> {
    /// What is linked, and how.
    pub job: Job<'a>,
    /// What has no effect, in the order in which it was asked for.
    pub warnings: Vec<Warning>,
}

/// Something that has no effect.
#[derive(Clone, Copy, Debug, PartialEq, Eq)]
pub struct Warning {
    /// The line in which its directive begins, counted from 1.
    pub line: usize,
    /// What it is.
    pub kind: WarningKind,
}

/// What has no effect, and what comes of that.
#[derive(Clone, Copy, Debug, PartialEq, Eq)]
pub enum WarningKind {
    /// An option that changes nothing of what a DOS program does: nothing is lost.
    Option,
    /// `option symfile`: no file of symbols is written.
    Symbols,
    /// `sort`: the map is not sorted.
    Sort,
    /// `disable`: no message is left out.
    Disable,
}

impl<'a> Directives<'a> {
    // What no directive asks for.
    pub(crate) fn new(alloc: Global) -> Directives<'a>
        ensures { said_of result ≡ nothing }
    {
        let job = Job {
            inputs: Vec::new(alloc),
            out: None,
            map: None,
            map_form: MapForm::Omf,
            folders: Vec::new(alloc),
            object_folders: Vec::new(alloc),
            ignore_case: false,
            order: Order::Meeting,
            null_bytes: false,
            stack: None,
            form: None,
            default_libraries: true,
            left_out: Vec::new(alloc),
            keep_debug: false,
            packs_far_data: true,
            verbose: false,
            quiet: false,
            start: None,
            references: Vec::new(alloc),
            aliases: Vec::new(alloc),
        };
        Directives {
            job,
            warnings: Vec::new(alloc),
        }
    }
}
