//! Runs whose directives say something of names.

/// What they tell, in the form of the other tables.
pub(crate) const NAMING_RUNS: &str = "\
wlink f A.OBJ,F.OBJ op start=f|0||
wlink f A.OBJ,F.OBJ op star='f'|0||
wlink f A.OBJ,F.OBJ op start=x,start=f|0||
wlink f A.OBJ,F.OBJ op start=_g|1||doslink: directives: \"_g\" is missing: record 15 (0000000F), wanted by \"directives\"~
wlink f A.OBJ,F.OBJ op start=F|1||\
doslink: directives: \"F\" is missing: record 15 (0000000F), wanted by \"directives\"; \"f\" is in F.OBJ~
wlink f A.OBJ,F.OBJ op ignorecase,start=F|0||
wlink f F.OBJ op start=g l RUN|0||
wlink f STARTED.OBJ,STARTED.OBJ,F.OBJ|1||doslink: STARTED.OBJ: 33 TwoStarts at record 52~
wlink f STARTED.OBJ,STARTED.OBJ,F.OBJ op start=f|0||
wlink f LSTART.OBJ,F.OBJ|1||doslink: LSTART.OBJ: 27 Unresolved at record 24~
wlink f LSTART.OBJ,F.OBJ op start=f|0||
wlink f F.OBJ,START.OBJ|1||doslink: START.OBJ: 61 SumAbove16Bits at record 39~
wlink f F.OBJ,START.OBJ op start=f|0||
wlink op start|2||doslink: line 1: \"start\": wrong operands~
wlink f F.OBJ ref f|0||
wlink f D.OBJ ref f,_f l RUN|0||
wlink f D.OBJ ref {f f2}|1||\
doslink: directives: \"f\" is missing: record 15 (0000000F), wanted by \"directives\"; \"_f\" is in D.OBJ~
wlink f F.OBJ op start=h ref x,f,y|1||\
doslink: directives: \"h\" is missing: record 15 (0000000F), wanted by \"directives\"~\
doslink: directives: \"x\" is missing: record 22 (00000016), wanted by \"directives\"~\
doslink: directives: \"y\" is missing: record 36 (00000024), wanted by \"directives\"~
wlink f A.OBJ ref f|1||\
doslink: A.OBJ: \"f\" is missing: record 28 (0000001C), wanted by \"a.c\"~\
doslink: directives: \"f\" is missing: record 15 (0000000F), wanted by \"directives\"~
wlink ref f|2||doslink: no file is named to be linked~
wlink f A.OBJ,CALLS.OBJ,D.OBJ a f=_f|0||
wlink f A.OBJ,CALLS.OBJ,F.OBJ a g=h,x=y|0||
wlink f CALLS.OBJ,F.OBJ a f=h,h=f|1||doslink: directives: 60 EndlessAlias \"f\" at record 15~
wlink f CALLS.OBJ,F.OBJ a f=f|1||doslink: directives: 60 EndlessAlias \"f\" at record 15~
wlink f CALLS.OBJ a f=q|1||doslink: directives: \"q\" is missing: record 15 (0000000F), wanted by \"directives\"~
wlink f CALLS.OBJ,ALIAS.OBJ a f=q l RUN|0||
wlink f CALLS.OBJ,F.OBJ a F=q|0||
wlink f CALLS.OBJ,F.OBJ op ignorecase a F=q|1||\
doslink: directives: \"q\" is missing: record 15 (0000000F), wanted by \"directives\"~
wlink f CALLS.OBJ,F.OBJ a x=f ref x|0||
wlink f CALLS.OBJ,F.OBJ a x=f op start=x|0||
";

/// Files of directives: one that ends at a Ctrl-Z, ones with an extension, one that has it and another that hasn't, and
/// such as name others.
pub(crate) const DIRECTIVE_FILES: [(&str, &[u8]); 21] = [
    ("STOPPED", b"file F.OBJ\nname A.EXE\n\x1Afill 'x\n"),
    ("LONGER.lnk", b"file F.OBJ\r\nname A.EXE\r\n\x1A"),
    ("EITHER", b"fill F.OBJ"),
    ("EITHER.lnk", b"file F.OBJ"),
    ("OBJ.lnk", b"file F.OBJ"),
    ("BADLY.lnk", b"file F.OBJ\nfill x"),
    ("OUTER", b"# of these\r\n  @INNER\t\r\nname A.EXE\r\n"),
    ("INNER.lnk", b"file F.OBJ\nsort global\n"),
    ("AMISS", b"file F.OBJ\n\n@BADLY\n"),
    ("LACKS", b"@NOWHERE"),
    ("LOOP", b"file F.OBJ\n@LOOP\n"),
    ("WITHIN", b"file F.OBJ name '@OUTER'"),
    ("DEEP0", b"@DEEP1"),
    ("DEEP1", b"@DEEP2"),
    ("DEEP2", b"@DEEP3"),
    ("DEEP3", b"@DEEP4"),
    ("DEEP4", b"@DEEP5"),
    ("DEEP5", b"@DEEP6"),
    ("DEEP6", b"@DEEP7"),
    ("DEEP7", b"@DEEP8"),
    ("DEEP8", b"file F.OBJ"),
];

/// Runs of them.
pub(crate) const DIRECTIVE_RUNS: &str = "\
wlink @STOPPED|0||
wlink @STOPPED sort|0||doslink: warning: line 1: the map is not sorted~
wlink @STOPPED @WRONG|2||doslink: WRONG: line 2: \"fill\": unknown directive~
wlink @LONGER|0||
wlink @LONGER.lnk|0||
wlink @LONGER @STOPPED|1||doslink: link: 25 DuplicatePublic \"f\" in F.OBJ and F.OBJ~
wlink @EITHER|2||doslink: EITHER: line 1: \"fill\": unknown directive~
wlink @EITHER.lnk|0||
wlink @OBJ|0||
wlink @BADLY|2||doslink: BADLY: line 2: \"fill\": unknown directive~
wlink @LONGER.x|3||doslink: LONGER.x: 1 Device at record 0: no such file~
wlink @NEITHER|3||doslink: NEITHER: 1 Device at record 0: no such file~
wlink @LONGER n LONGER.lnk|2||doslink: LONGER.lnk: it is read and would be written~
wlink @OUTER|0||doslink: warning: INNER: line 2: the map is not sorted~
wlink @OUTER n INNER.lnk|2||doslink: warning: INNER: line 2: the map is not sorted~\
doslink: INNER.lnk: it is read and would be written~
wlink @AMISS|2||doslink: BADLY: line 2: \"fill\": unknown directive~
wlink f F.OBJ @LACKS|3||doslink: NOWHERE: 1 Device at record 0: no such file~
wlink @LOOP|2||doslink: LOOP: response files name one another more than 8 deep~
wlink @WITHIN|0||
wlink @DEEP1|0||
wlink @DEEP0|2||doslink: DEEP8: response files name one another more than 8 deep~
";

/// Runs, and the end of the file that each writes.
pub(crate) const NAMED_PROGRAMS: [(&str, &[u8]); 5] = [
    // a library's member that is wanted
    ("wlink f F.OBJ", &[0x00, 0x90]),
    ("wlink f F.OBJ ref g l RUN", &[0x00, 0x90, 0x90]),
    // a call of `f`, and one that means `g`
    (
        "wlink f CALLS.OBJ,F.OBJ ref g l RUN",
        &[0x00, 0xE8, 0x00, 0x00, 0x90, 0x90],
    ),
    (
        "wlink f CALLS.OBJ,F.OBJ a f=g l RUN",
        &[0x00, 0xE8, 0x01, 0x00, 0x90, 0x90],
    ),
    // the same in two modules
    (
        "wlink f CALLS.OBJ,CALLS.OBJ,F.OBJ a f=g l RUN",
        &[0x00, 0xE8, 0x04, 0x00, 0xE8, 0x01, 0x00, 0x90, 0x90],
    ),
];

/// Runs whose directives name the program, the path at which each writes it, and its end.
pub(crate) const WHOLE_NAMES: [(&str, &str, &[u8]); 9] = [
    ("wlink n P f F.OBJ", "P.exe", &[0x00, 0x90]),
    (
        "wlink f F.OBJ form dos n sub.dir/P",
        "sub.dir/P.exe",
        &[0x00, 0x90],
    ),
    ("wlink n P form dos exe f F.OBJ", "P.exe", &[0x00, 0x90]),
    ("wlink n P sys com f NULLS.OBJ", "P.com", &[0xC3]),
    ("wlink form dos com f NULLS.OBJ n ../P", "../P.com", &[0xC3]),
    ("wlink n P f F.OBJ out raw", "P.bin", &[0x90]),
    ("wlink n P. f F.OBJ", "P.", &[0x00, 0x90]),
    ("wlink n P.COM f F.OBJ form dos exe", "P.COM", &[0x00, 0x90]),
    ("wlink f F.OBJ", "F.EXE", &[0x00, 0x90]),
];

/// A program that starts at its second byte.
const STARTS: [u8; 34] = [
    0x4D, 0x5A, 0x22, 0x00, 0x01, 0x00, 0x00, 0x00, 0x02, 0x00, 0x01, 0x00, 0xFF, 0xFF, 0x00, 0x00,
    0x00, 0x00, 0x00, 0x00, 0x01, 0x00, 0x00, 0x00, 0x1C, 0x00, 0x00, 0x00, 0x00, 0x00, 0x00, 0x00,
    0x90, 0x90,
];

/// Its map.
const STARTS_MAP: &str = "\
segments
000000 000002 public   \"CODE\" \"\"
groups
publics
000001 R \"f\"
entry 0000:0001
stack 0000:0000
size 000002
relocations 0
modules
\"a.c\" A.OBJ
 000000 R 000001 \"CODE\" \"\"
\"f.c\" F.OBJ
 000001 R 000001 \"CODE\" \"\"
\"directives\" directives
";

/// One whose first module starts at its first byte.
const STARTS_OTHERWISE: [u8; 34] = [
    0x4D, 0x5A, 0x22, 0x00, 0x01, 0x00, 0x00, 0x00, 0x02, 0x00, 0x02, 0x00, 0xFF, 0xFF, 0x01, 0x00,
    0x10, 0x00, 0x00, 0x00, 0x01, 0x00, 0x00, 0x00, 0x1C, 0x00, 0x00, 0x00, 0x00, 0x00, 0x00, 0x00,
    0x90, 0x90,
];

/// Its map.
const STARTS_OTHERWISE_MAP: &str = "\
segments
000000 000002 public   \"CODE\" \"\"
000010 000010 stack    \"STACK\" \"STACK\"
groups
publics
000001 R \"f\"
entry 0000:0001
stack 0001:0010
size 000020
relocations 0
modules
\"s.c\" STARTED.OBJ
 000000 R 000001 \"CODE\" \"\"
 000010 R 000010 \"STACK\" \"STACK\"
\"f.c\" F.OBJ
 000001 R 000001 \"CODE\" \"\"
\"directives\" directives
";

/// Runs, and what each writes: the path of its program, the program, and its map at P.MAP.
pub(crate) const NAMED_FILES: [(&str, &str, &[u8], &str); 2] = [
    (
        "wlink f A.OBJ,F.OBJ n P.EXE op map=P.MAP,start=f",
        "P.EXE",
        &STARTS,
        STARTS_MAP,
    ),
    // over a module's own start
    (
        "wlink f STARTED.OBJ,F.OBJ n P.EXE op start=f,map=P.MAP",
        "P.EXE",
        &STARTS_OTHERWISE,
        STARTS_OTHERWISE_MAP,
    ),
];
