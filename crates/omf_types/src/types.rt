//! The types of records and the classes of comments, by their numbers.

ghost use Rattle.std.specs.Prelude.{◌≡◌, ◌≤◌, ℕ};
ghost use Rattle.omf_types.specs.Types.{type_row, class_row, IsTypeOf, IsNameOf, IsClassOf};

/// A type of records that TIS OMF 1.1 lists, by its name there. Those before `Theadr`, and `Pedata`, `Pidata`,
/// `Typdef`, `Locsym`, `Libhed`, `Libnam`, `Libloc` and `Libdic` are obsolete.
#[derive(Clone, Copy, Debug, PartialEq, Eq)]
pub enum RecordType {
    Rheadr,
    Regint,
    Redata,
    Ridata,
    Ovldef,
    Endrec,
    Blkdef,
    Blkend,
    Debsym,
    Theadr,
    Lheadr,
    Pedata,
    Pidata,
    Coment,
    Modend,
    Extdef,
    Typdef,
    Pubdef,
    Locsym,
    Linnum,
    Lnames,
    Segdef,
    Grpdef,
    Fixupp,
    Ledata,
    Lidata,
    Libhed,
    Libnam,
    Libloc,
    Libdic,
    Comdef,
    Bakpat,
    Lextdef,
    Lpubdef,
    Lcomdef,
    Cextdef,
    Comdat,
    Linsym,
    Alias,
    Nbkpat,
    Llnames,
    Vernum,
    Vendext,
}

/// The type of records whose type byte is this, of 16 bits or of 32; none where the standard lists none.
pub fn record_type(kind: u8) -> Option<RecordType>
    ensures { IsTypeOf kind result }
{
    match kind {
        0x6E => Some(RecordType::Rheadr),
        0x70 => Some(RecordType::Regint),
        0x72 => Some(RecordType::Redata),
        0x74 => Some(RecordType::Ridata),
        0x76 => Some(RecordType::Ovldef),
        0x78 => Some(RecordType::Endrec),
        0x7A => Some(RecordType::Blkdef),
        0x7C => Some(RecordType::Blkend),
        0x7E => Some(RecordType::Debsym),
        0x80 => Some(RecordType::Theadr),
        0x82 => Some(RecordType::Lheadr),
        0x84 => Some(RecordType::Pedata),
        0x86 => Some(RecordType::Pidata),
        0x88 => Some(RecordType::Coment),
        0x8A | 0x8B => Some(RecordType::Modend),
        0x8C => Some(RecordType::Extdef),
        0x8E => Some(RecordType::Typdef),
        0x90 | 0x91 => Some(RecordType::Pubdef),
        0x92 => Some(RecordType::Locsym),
        0x94 | 0x95 => Some(RecordType::Linnum),
        0x96 => Some(RecordType::Lnames),
        0x98 | 0x99 => Some(RecordType::Segdef),
        0x9A => Some(RecordType::Grpdef),
        0x9C | 0x9D => Some(RecordType::Fixupp),
        0xA0 | 0xA1 => Some(RecordType::Ledata),
        0xA2 | 0xA3 => Some(RecordType::Lidata),
        0xA4 => Some(RecordType::Libhed),
        0xA6 => Some(RecordType::Libnam),
        0xA8 => Some(RecordType::Libloc),
        0xAA => Some(RecordType::Libdic),
        0xB0 => Some(RecordType::Comdef),
        0xB2 | 0xB3 => Some(RecordType::Bakpat),
        0xB4 | 0xB5 => Some(RecordType::Lextdef),
        0xB6 | 0xB7 => Some(RecordType::Lpubdef),
        0xB8 => Some(RecordType::Lcomdef),
        0xBC => Some(RecordType::Cextdef),
        0xC2 | 0xC3 => Some(RecordType::Comdat),
        0xC4 | 0xC5 => Some(RecordType::Linsym),
        0xC6 => Some(RecordType::Alias),
        0xC8 | 0xC9 => Some(RecordType::Nbkpat),
        0xCA => Some(RecordType::Llnames),
        0xCC => Some(RecordType::Vernum),
        0xCE => Some(RecordType::Vendext),
        _ => None,
    }
}

impl RecordType {
    /// The name by which the standard calls it, in capitals.
    pub fn name(self) -> &'static str
        ensures { result.now ≡ (type_row self).name }
    {
        match self {
            RecordType::Rheadr => "RHEADR",
            RecordType::Regint => "REGINT",
            RecordType::Redata => "REDATA",
            RecordType::Ridata => "RIDATA",
            RecordType::Ovldef => "OVLDEF",
            RecordType::Endrec => "ENDREC",
            RecordType::Blkdef => "BLKDEF",
            RecordType::Blkend => "BLKEND",
            RecordType::Debsym => "DEBSYM",
            RecordType::Theadr => "THEADR",
            RecordType::Lheadr => "LHEADR",
            RecordType::Pedata => "PEDATA",
            RecordType::Pidata => "PIDATA",
            RecordType::Coment => "COMENT",
            RecordType::Modend => "MODEND",
            RecordType::Extdef => "EXTDEF",
            RecordType::Typdef => "TYPDEF",
            RecordType::Pubdef => "PUBDEF",
            RecordType::Locsym => "LOCSYM",
            RecordType::Linnum => "LINNUM",
            RecordType::Lnames => "LNAMES",
            RecordType::Segdef => "SEGDEF",
            RecordType::Grpdef => "GRPDEF",
            RecordType::Fixupp => "FIXUPP",
            RecordType::Ledata => "LEDATA",
            RecordType::Lidata => "LIDATA",
            RecordType::Libhed => "LIBHED",
            RecordType::Libnam => "LIBNAM",
            RecordType::Libloc => "LIBLOC",
            RecordType::Libdic => "LIBDIC",
            RecordType::Comdef => "COMDEF",
            RecordType::Bakpat => "BAKPAT",
            RecordType::Lextdef => "LEXTDEF",
            RecordType::Lpubdef => "LPUBDEF",
            RecordType::Lcomdef => "LCOMDEF",
            RecordType::Cextdef => "CEXTDEF",
            RecordType::Comdat => "COMDAT",
            RecordType::Linsym => "LINSYM",
            RecordType::Alias => "ALIAS",
            RecordType::Nbkpat => "NBKPAT",
            RecordType::Llnames => "LLNAMES",
            RecordType::Vernum => "VERNUM",
            RecordType::Vendext => "VENDEXT",
        }
    }

    /// The title of its section in the standard.
    pub fn title(self) -> &'static str
        ensures { result.now ≡ (type_row self).title }
    {
        match self {
            RecordType::Rheadr => "R-Module Header Record",
            RecordType::Regint => "Register Initialization Record",
            RecordType::Redata => "Relocatable Enumerated Data Record",
            RecordType::Ridata => "Relocatable Iterated Data Record",
            RecordType::Ovldef => "Overlay Definition Record",
            RecordType::Endrec => "End Record",
            RecordType::Blkdef => "Block Definition Record",
            RecordType::Blkend => "Block End Record",
            RecordType::Debsym => "Debug Symbols Record",
            RecordType::Theadr => "Translator Header Record",
            RecordType::Lheadr => "Library Module Header Record",
            RecordType::Pedata => "Physical Enumerated Data Record",
            RecordType::Pidata => "Physical Iterated Data Record",
            RecordType::Coment => "Comment Record",
            RecordType::Modend => "Module End Record",
            RecordType::Extdef => "External Names Definition Record",
            RecordType::Typdef => "Type Definition Record",
            RecordType::Pubdef => "Public Names Definition Record",
            RecordType::Locsym => "Local Symbols Record",
            RecordType::Linnum => "Line Numbers Record",
            RecordType::Lnames => "List of Names Record",
            RecordType::Segdef => "Segment Definition Record",
            RecordType::Grpdef => "Group Definition Record",
            RecordType::Fixupp => "Fixup Record",
            RecordType::Ledata => "Logical Enumerated Data Record",
            RecordType::Lidata => "Logical Iterated Data Record",
            RecordType::Libhed => "Library Header Record",
            RecordType::Libnam => "Library Module Names Record",
            RecordType::Libloc => "Library Module Locations Record",
            RecordType::Libdic => "Library Dictionary Record",
            RecordType::Comdef => "Communal Names Definition Record",
            RecordType::Bakpat => "Backpatch Record",
            RecordType::Lextdef => "Local External Names Definition Record",
            RecordType::Lpubdef => "Local Public Names Definition Record",
            RecordType::Lcomdef => "Local Communal Names Definition Record",
            RecordType::Cextdef => "COMDAT External Names Definition Record",
            RecordType::Comdat => "Initialized Communal Data Record",
            RecordType::Linsym => "Symbol Line Numbers Record",
            RecordType::Alias => "Alias Definition Record",
            RecordType::Nbkpat => "Named Backpatch Record",
            RecordType::Llnames => "Local Logical Names Definition Record",
            RecordType::Vernum => "OMF Version Number Record",
            RecordType::Vendext => "Vendor-specific OMF Extension Record",
        }
    }
}

/// The name of the type of records whose type byte is this.
pub fn record_name(kind: u8) -> Option<&'static str>
    ensures { IsNameOf kind result }
{
    match record_type(kind) {
        Some(record_type) => Some(record_type.name()),
        None => None,
    }
}

/// A class of comments.
#[derive(Clone, Copy, Debug, PartialEq, Eq)]
pub enum CommentClass {
    /// 00H.
    Translator,
    /// 01H.
    Copyright,
    /// 81H.
    OldDefaultLibrary,
    /// 9CH.
    DosVersion,
    /// 9DH.
    MemoryModel,
    /// 9EH.
    Dosseg,
    /// 9FH.
    DefaultLibrary,
    /// A0H.
    Extension,
    /// A1H.
    DebugStyle,
    /// A2H.
    PassSeparator,
    /// A3H.
    Libmod,
    /// A4H.
    Exestr,
    /// A6H.
    Incerr,
    /// A7H.
    Nopad,
    /// A8H.
    Wkext,
    /// A9H.
    Lzext,
    /// DAH.
    Text,
    /// DBH.
    Compiler,
    /// DCH.
    Date,
    /// DDH.
    Timestamp,
    /// DFH.
    User,
    /// E9H.
    Dependency,
    /// FFH.
    CommandLine,
}

/// The class of this number; none where it isn't known.
pub fn comment_class(number: u8) -> Option<CommentClass>
    ensures { IsClassOf number result }
{
    match number {
        0x00 => Some(CommentClass::Translator),
        0x01 => Some(CommentClass::Copyright),
        0x81 => Some(CommentClass::OldDefaultLibrary),
        0x9C => Some(CommentClass::DosVersion),
        0x9D => Some(CommentClass::MemoryModel),
        0x9E => Some(CommentClass::Dosseg),
        0x9F => Some(CommentClass::DefaultLibrary),
        0xA0 => Some(CommentClass::Extension),
        0xA1 => Some(CommentClass::DebugStyle),
        0xA2 => Some(CommentClass::PassSeparator),
        0xA3 => Some(CommentClass::Libmod),
        0xA4 => Some(CommentClass::Exestr),
        0xA6 => Some(CommentClass::Incerr),
        0xA7 => Some(CommentClass::Nopad),
        0xA8 => Some(CommentClass::Wkext),
        0xA9 => Some(CommentClass::Lzext),
        0xDA => Some(CommentClass::Text),
        0xDB => Some(CommentClass::Compiler),
        0xDC => Some(CommentClass::Date),
        0xDD => Some(CommentClass::Timestamp),
        0xDF => Some(CommentClass::User),
        0xE9 => Some(CommentClass::Dependency),
        0xFF => Some(CommentClass::CommandLine),
        _ => None,
    }
}

impl CommentClass {
    /// What its comments are, in words.
    pub fn title(self) -> &'static str
        ensures { result.now ≡ (class_row self).title }
    {
        match self {
            CommentClass::Translator => "translator",
            CommentClass::Copyright => "copyright",
            CommentClass::OldDefaultLibrary => "default library, as it was said first",
            CommentClass::DosVersion => "version of DOS",
            CommentClass::MemoryModel => "memory model",
            CommentClass::Dosseg => "DOSSEG",
            CommentClass::DefaultLibrary => "default library",
            CommentClass::Extension => "OMF extension",
            CommentClass::DebugStyle => "style of debug information",
            CommentClass::PassSeparator => "separator of the linker's passes",
            CommentClass::Libmod => "LIBMOD",
            CommentClass::Exestr => "EXESTR",
            CommentClass::Incerr => "INCERR",
            CommentClass::Nopad => "NOPAD",
            CommentClass::Wkext => "WKEXT",
            CommentClass::Lzext => "LZEXT",
            CommentClass::Text => "comment",
            CommentClass::Compiler => "compiler",
            CommentClass::Date => "date",
            CommentClass::Timestamp => "time stamp",
            CommentClass::User => "user",
            CommentClass::Dependency => "dependency file",
            CommentClass::CommandLine => "command line",
        }
    }
}
