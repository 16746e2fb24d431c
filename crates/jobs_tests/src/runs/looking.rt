//! Modules that are looked up in folders, and what runs of them tell.
use super::modules::OFFERS;

/// A module that stands in two folders, where one of them is none; and files without an extension, which are no modules,
/// beside modules with one.
pub(crate) const LOOKED_FILES: [(&str, &[u8]); 9] = [
    ("OBJ/DUE.OBJ", &OFFERS),
    ("OLD/DUE.OBJ", b"no module"),
    ("OLD/F.OBJ", b"no module"),
    ("OLD/TRE.OBJ", &OFFERS),
    ("NATIVE", b"\x7FELF"),
    ("NATIVE.OBJ", &OFFERS),
    ("ALONE", b"\x7FELF"),
    ("BARE", &OFFERS),
    ("BARE.OBJ", b"\x7FELF"),
];

/// Runs of directives and of lines, in the form of the other tables.
pub(crate) const LOOKING_RUNS: &str = "\
wlink f DUE|3||doslink: DUE: 1 Device at record 0: no such file~
wlink path OBJ f DUE|0||
wlink f DUE.OBJ p 'OBJ'|0||
wlink f DUE,TRE.OBJ,A path OBJ;OLD|1||\
doslink: link: 25 DuplicatePublic \"f\" in OBJ/DUE.OBJ and OLD/TRE.OBJ~
wlink path OBJ path OLD f DUE|0||
wlink path OLD path OBJ f DUE|1||\
doslink: OLD/DUE.OBJ: 3 Truncated at record 0: this is a text; assemble or compile it first~
wlink path OLD f F.OBJ|0||
wlink path OBJ;OLD f NO.OBJ,F.OBJ,NEITHER|3||\
doslink: NO.OBJ: 1 Device at record 0: no such file~doslink: NEITHER: 1 Device at record 0: no such file~
wlink path OBJ f F.OBJ l DUE.OBJ|3||doslink: DUE.OBJ: 1 Device at record 0: no such file~
wlink libpath OBJ f DUE|3||doslink: DUE: 1 Device at record 0: no such file~
wlink path OBJ name OBJ/DUE.OBJ f DUE|2||doslink: OBJ/DUE.OBJ: it is read and would be written~
wlink path f F.OBJ|2||doslink: line 1: \"F.OBJ\": unknown directive~
tlink /x DUE|3||doslink: DUE: 1 Device at record 0: no such file~
tlink /x /jOBJ DUE|0||
tlink /x DUE.OBJ -jOBJ/|0||
tlink /x /jOBJ;OLD DUE|0||
tlink /x F /jOLD|0||
tlink /x /jOLD A,,,OBJ/DUE.OBJ|0||
tlink /x /jOBJ A,,,DUE.OBJ|3||doslink: DUE.OBJ: 1 Device at record 0: no such file~
tlink /x /LOBJ DUE|3||doslink: DUE: 1 Device at record 0: no such file~
link /jOBJ DUE;|2||doslink: line 1, column 1: \"/jOBJ\": unknown option~
doslink NATIVE|0||
wlink f NATIVE|0||
tlink /x NATIVE|0||
doslink ALONE|1||doslink: ALONE: 3 Truncated at record 0: this is an ELF file; nasm wants -f obj~
doslink BARE|0||
doslink BARE.OBJ|1||doslink: BARE.OBJ: 3 Truncated at record 0: this is an ELF file; nasm wants -f obj~
link A+RUN.LIB;|0||doslink: warning: RUN.LIB: it is searched, and not linked whole~
link A,,,RUN.LIB;|0||
tlink /x A RUN.LIB|0||
";

/// Runs of them, the path at which each writes, and the end of what it writes there.
pub(crate) const LOOKED: [(&str, &str, &[u8]); 2] = [
    ("tlink /x /jOBJ DUE", "DUE.EXE", &[0x00, 0x90]),
    ("wlink path OBJ name P.EXE f DUE", "P.EXE", &[0x00, 0x90]),
];
