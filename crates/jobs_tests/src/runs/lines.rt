//! Lines of LINK and TLINK, and what runs of them tell and write.
use super::forms::EXE_OF_F;
use super::modules::OFFERS;

/// Response files, and a module in a folder.
pub(crate) const LINE_FILES: [(&str, &[u8]); 17] = [
    ("OBJ/UNO.OBJ", &OFFERS),
    ("NUMBERED.OBJ", &NUMBERED),
    ("LINK.RSP", b"A+\r\nF /NOI\r\nP.EXE\r\n"),
    // the end of a line that ends with a comma is none
    ("COMMAS", b"F,\r\nP.EXE,\r\nNUL,\r\n;\r\n"),
    ("OPTIONS", b"F, /NOI\r\nP.EXE\r\n"),
    ("OBJS", b"A +F\n"),
    ("LIBRARIES", b"RUN\n"),
    // nothing behind a Ctrl-Z counts
    ("ENDED", b"F,P.EXE\r\n\x1A,nothing of this\xFF"),
    ("OWN", b"-o P.EXE F.OBJ\x1A\xFF\""),
    ("SPOKEN", b"file F.OBJ name P.EXE\x1A\xFF'"),
    ("DEEP", b"F @DEEP"),
    ("DEEPER", b"@OBJS,P.EXE"),
    ("LINES2", b"F\nP.EXE\n/z\n"),
    ("IDLE", b"sort global\n"),
    (
        "DEFINED.DEF",
        b" NAME A ; a program\r\n\r\nstacksize 0x800\r\n\x1Ax",
    ),
    ("AMISS.DEF", b"name A\nEXPORTS _f\n"),
    ("TWICE", b"@MANY @MANY @MANY @MANY @MANY @MANY @MANY @MANY"),
];

/// Runs of lines, in the form of the other tables.
pub(crate) const LINE_RUNS: &str = "\
tlink /x F|0||
TLINK.EXE /x F|0||
link f;|3||doslink: f: 1 Device at record 0: no such file~
C:\\BIN\\LINK.EXE F;|0||
doslink --as tlink /x A+F|0||
doslink --as LINK A F;|0||
doslink --as link.exe F;|0||
doslink --as wlink @LINES|0||doslink: warning: LINES: line 3: the map is not sorted~
doslink --as ld F|2||doslink: behind --as stands link, tlink or wlink~
tlink A|1||doslink: A.OBJ: \"f\" is missing: record 28 (0000001C), wanted by \"a.c\"~
tlink /x A,,,RUN|0||
link A,,NUL,RUN;|0||
link A,,NUL,ENV;|0||
link F CAPITAL;|1||doslink: link: 25 DuplicatePublic \"F\" in F.OBJ and CAPITAL.OBJ~
link F CAPITAL /NOI;|0||
tlink /x F CAPITAL|1||doslink: link: 25 DuplicatePublic \"F\" in F.OBJ and CAPITAL.OBJ~
tlink /x /c F CAPITAL|0||
tlink /x /c- F CAPITAL|1||doslink: link: 25 DuplicatePublic \"F\" in F.OBJ and CAPITAL.OBJ~
link @LINK.RSP|0||
tlink /x @OBJS,P.EXE,,@LIBRARIES|0||
tlink /x @DEEPER|0||
link @ENDED|0||
link @DEEP|2||doslink: \"@DEEP\": response files name one another more than 8 deep~
link @NOFILE|3||doslink: NOFILE: 1 Device at record 0: no such file~
link @BINARY|2||doslink: BINARY: it is no UTF-8 text~
link F /ON:NOEXE /NOPACKF;|0||
link F /PACKF;|0||doslink: warning: line 1, column 3: the option has no effect~
link F /PCODE;|2||doslink: line 1, column 3: \"/PCODE\": p-code isn't linked~
tlink /x /Td /d F|0||doslink: warning: line 1, column 8: the option has no effect~
link F /ST;|2||doslink: line 1, column 3: \"/ST\": a number from 1 to 65536 is expected behind `:`~
link F /NO;|2||doslink: line 1, column 3: \"/NO\": more of the option's name is expected: it is short for several~
link F /NOI:1;|2||doslink: line 1, column 3: \"/NOI:1\": no value is expected behind the option~
tlink F /L|2||doslink: line 1, column 3: \"/L\": folders are expected right behind the letter~
link F /z;|2||doslink: line 1, column 3: \"/z\": unknown option~
link @LINES2|2||doslink: line 3, column 1: \"/z\": unknown option~
link F;G|2||doslink: line 1, column 3: \"G\": nothing is expected behind `;`~
link ,P;|2||doslink: an object is expected~
link /CP:1 F;|0||
link /CP:0xFFFF F;|0||
tlink /i F|2||doslink: /i isn't followed: segments without data take no bytes of the file~
link /CO F /E;|0||doslink: warning: line 1, column 1: no data for debuggers is written~doslink: warning: line 1, column 7: the program isn't packed: it runs the same~
tlink F /l|0||
tlink F /s|0||
tlink /x F /l /s|0||
link F,P.COM;|0||doslink: warning: P.COM: an EXE file is written: /T makes a .COM file~
link F,p.sys /CP:1;|0||doslink: warning: p.sys: an EXE file is written: doslink --form sys makes a device driver~
tlink /x F,p.com|0||doslink: warning: p.com: an EXE file is written: /t makes a .COM file~
tlink /x F,P.BIN|0||doslink: warning: P.BIN: an EXE file is written: doslink --form bin makes a raw image~
tlink /x F,P.IMG|0||doslink: warning: P.IMG: an EXE file is written: doslink --form bin makes a raw image~
tlink /x/t F,P.COM|1||doslink: link: 70 OtherStart~
link F,COM;|0||
tlink /t RELOC|1||doslink: link: 68 Relocated~
link RELOC /T;|1||doslink: link: 68 Relocated~
link F,P,CON;|0||
link F,P,con /INF;|2||doslink: -: it would be the map and the list of what is linked~
link F,con;|2||doslink: line 1, column 3: \"con\": a file is expected, and no device~
link F,NUL:;|2||doslink: line 1, column 3: \"NUL:\": a file is expected, and no device~
tlink F,P,prn:|2||doslink: line 1, column 5: \"prn:\": a file is expected, and no device~
link F,F.OBJ;|2||doslink: F.OBJ: it is read and would be written~
link F,P,NUL,,DEFINED;|0||\
doslink: warning: DEFINED.DEF: line 1, column 2: nothing of it is used~\
doslink: warning: DEFINED.DEF: line 3, column 1: nothing of it is used~
link F,P,NUL,,AMISS.DEF;|2||doslink: AMISS.DEF: line 2, column 1: \"EXPORTS\": \
NAME, DESCRIPTION or STACKSIZE is expected: no other definition is followed~
link F,P,NUL,,ABSENT /CO;|3||doslink: warning: line 1, column 17: no data for debuggers is written~\
doslink: ABSENT.DEF: 1 Device at record 0: no such file~
link F,DEFINED.DEF,NUL,,DEFINED;|2||\
doslink: warning: DEFINED.DEF: line 1, column 2: nothing of it is used~\
doslink: warning: DEFINED.DEF: line 3, column 1: nothing of it is used~\
doslink: DEFINED.DEF: it is read and would be written~
link F,P,NUL,,NUL;|0||
";

/// Runs of lines, the path at which each writes, and all that it writes there.
pub(crate) const LINED: [(&str, &str, &[u8]); 25] = [
    ("link F;", "F.EXE", &EXE_OF_F),
    ("link OBJ/UNO;", "UNO.EXE", &EXE_OF_F),
    ("link OBJ/UNO,OBJ/DUO;", "OBJ/DUO.EXE", &EXE_OF_F),
    ("link F,P.X;", "P.X", &EXE_OF_F),
    // a folder alone has the program of the first object's name
    ("link OBJ/UNO,DIR/;", "DIR/UNO.EXE", &EXE_OF_F),
    ("tlink /x F,DIR\\", "DIR\\F.EXE", &EXE_OF_F),
    ("link F,\"\";", "F.EXE", &EXE_OF_F),
    ("link F.OBJ+,P;", "P.EXE", &EXE_OF_F),
    ("tlink /x OBJ/UNO", "UNO.EXE", &EXE_OF_F),
    ("tlink /x F,P", "P.EXE", &EXE_OF_F),
    ("link @ENDED", "P.EXE", &EXE_OF_F),
    ("link @COMMAS", "P.EXE", &EXE_OF_F),
    ("link @OPTIONS", "P.EXE", &EXE_OF_F),
    ("doslink @OWN", "P.EXE", &EXE_OF_F),
    ("wlink @SPOKEN", "P.EXE", &EXE_OF_F),
    ("tlink /x /Tde F,P.COM", "P.COM", &EXE_OF_F),
    (
        "link COMED,,,RUN /T;",
        "COMED.COM",
        &[0xE8, 0x00, 0x00, 0x90, 0x90],
    ),
    (
        "tlink /x/t COMED,P,,RUN",
        "P.COM",
        &[0xE8, 0x00, 0x00, 0x90, 0x90],
    ),
    // no null bytes in a .COM file
    ("link NULLS /T;", "NULLS.COM", &[0xC3]),
    // wrong words leave the older file
    ("link F,P /z;", "P.EXE", b"old"),
    ("tlink F,P /i", "P.EXE", b"old"),
    // as many paragraphs behind the image as are asked for, and never fewer than the program needs
    ("link F,P /CP:0;", "P.EXE", &EXE_OF_F_WITH_1),
    ("link F,P /CP:1;", "P.EXE", &EXE_OF_F_WITH_1),
    ("link F,P /CP:0x102;", "P.EXE", &EXE_OF_F_WITH_258),
    (
        "link COMED,,,RUN /T /CP:1;",
        "COMED.COM",
        &[0xE8, 0x00, 0x00, 0x90, 0x90],
    ),
];

/// Runs of lines that write the program at `P.EXE`, and the map of each at `P.MAP`: with line numbers, whose offsets have
/// 32 bits in the module, where the line asks for them.
pub(crate) const LINE_MAPS: [(&str, &str); 3] = [
    (
        "link NUMBERED,P /LI;",
        "
 Start  Stop   Length Name                   Class
 00000H 00001H 00002H _TEXT                  _TEXT

 Origin   Group

  Address         Publics by Name


  Address         Publics by Value


Line numbers for NUMBERED.OBJ(n.c) segment _TEXT

    12 0000:0000    13 0000:0001

Program entry point at 0000:0000
",
    ),
    (
        "tlink NUMBERED,P /l",
        "
 Start  Stop   Length Name               Class

 00000H 00001H 00002H _TEXT              _TEXT

  Address         Publics by Name


  Address         Publics by Value


Line numbers for NUMBERED.OBJ(n.c) segment _TEXT

    12 0000:0000    13 0000:0001

Program entry point at 0000:0000
",
    ),
    (
        "tlink NUMBERED,P",
        "
 Start  Stop   Length Name               Class

 00000H 00001H 00002H _TEXT              _TEXT

  Address         Publics by Name


  Address         Publics by Value


Program entry point at 0000:0000
",
    ),
];

/// A module of two bytes of code with a line number each, in a record of 32 bits.
const NUMBERED: [u8; 61] = [
    0x80, 0x05, 0x00, 0x03, 0x6E, 0x2E, 0x63, 0x00, //
    0x96, 0x08, 0x00, 0x00, 0x05, 0x5F, 0x54, 0x45, 0x58, 0x54, 0x00, //
    0x98, 0x07, 0x00, 0x28, 0x02, 0x00, 0x02, 0x02, 0x01, 0x00, //
    0xA0, 0x06, 0x00, 0x01, 0x00, 0x00, 0x90, 0x90, 0x00, //
    0x95, 0x0F, 0x00, 0x00, 0x01, 0x0C, 0x00, 0x00, 0x00, 0x00, 0x00, 0x0D, 0x00, 0x01, 0x00, 0x00,
    0x00, 0x00, //
    0x8A, 0x02, 0x00, 0x00, 0x00, //
];

/// The program of `F`, which needs a paragraph behind its image, and asks for no more.
const EXE_OF_F_WITH_1: [u8; 33] = [
    0x4D, 0x5A, 0x21, 0x00, 0x01, 0x00, 0x00, 0x00, 0x02, 0x00, 0x01, 0x00, 0x01, 0x00, 0x00, 0x00,
    0x00, 0x00, 0x00, 0x00, 0x00, 0x00, 0x00, 0x00, 0x1C, 0x00, 0x00, 0x00, 0x00, 0x00, 0x00, 0x00,
    0x90,
];

/// The same, which asks for 258 at most.
const EXE_OF_F_WITH_258: [u8; 33] = [
    0x4D, 0x5A, 0x21, 0x00, 0x01, 0x00, 0x00, 0x00, 0x02, 0x00, 0x01, 0x00, 0x02, 0x01, 0x00, 0x00,
    0x00, 0x00, 0x00, 0x00, 0x00, 0x00, 0x00, 0x00, 0x1C, 0x00, 0x00, 0x00, 0x00, 0x00, 0x00, 0x00,
    0x90,
];

/// Runs of lines, the path of the program of each, and whether it writes a map at `P.MAP`.
pub(crate) const MAPPED: [(&str, &str, bool); 13] = [
    // a folder alone has the map of the program's name, and no name at all is one in this folder
    ("link F,P,DIR/;", "P.EXE", false),
    ("link F,DIR/P,\"\";", "DIR/P.EXE", true),
    ("tlink F,P", "P.EXE", true),
    ("tlink /x F,P", "P.EXE", false),
    ("tlink F,P,nul", "P.EXE", false),
    ("tlink F,Q,P", "Q.EXE", true),
    ("link F,P;", "P.EXE", false),
    ("link F,P,;", "P.EXE", true),
    ("link F,P,,;", "P.EXE", true),
    ("link F,Q,P;", "Q.EXE", true),
    ("link F,P,NUL;", "P.EXE", false),
    ("link F,P,NUL:;", "P.EXE", false),
    ("link F,P /M;", "P.EXE", true),
];
