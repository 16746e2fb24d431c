//! Whole lines of LINK, of the kinds that manuals, compilers and makefiles of Microsoft's tools have.
use super::tlink::hold_in;
use makefile_words::Language;

#[test]
fn reads_lines(rt: HostRuntime) {
    let table = r#"main.obj+
util.obj,
prog.exe,
prog.map,
slibce.lib,
nul.def;
=>
inputs: [File("main.obj"), File("util.obj"), Library("slibce.lib")], out: Some("prog.exe"), map: Some(At("prog.map"))
---
/NON/DO/L main;
=>
ignore_case: true, order: Dosseg, null_bytes: false
---
/CODEVIEW STATS,,;
=>
inputs: [File("STATS")], out: None, map: Some(Beside)
---
/CO/LI main+sub,,main,graphics;
=>
inputs: [File("main"), File("sub"), Library("graphics")], out: None, map: Some(At("main")), map_form: Link { line_numbers: true }
---
hello.obj /NOI/T,hello.com,nul;
=>
inputs: [File("hello.obj")], out: Some("hello.com"), map: None, map_form: Link { line_numbers: false }, folders: [], object_folders: [], ignore_case: false, order: Meeting, null_bytes: false, stack: None, form: Some(Com)
---
/TINY /NOLOGO show.obj show2.obj, show.com, , , NUL.DEF;
=>
inputs: [File("show.obj"), File("show2.obj")], out: Some("show.com"), map: Some(Beside), map_form: Link { line_numbers: false }, folders: [], object_folders: [], ignore_case: true, order: Meeting, null_bytes: false, stack: None, form: Some(Com)
---
FUN+TEXT+TABLE+CARE/PAUSE/MAP,,FUNLIST,XLIB.LIB;
=>
inputs: [File("FUN"), File("TEXT"), File("TABLE"), File("CARE"), Library("XLIB.LIB")], out: None, map: Some(At("FUNLIST")), map_form: Link { line_numbers: false }
---
FUN TEXT TABLE CARE
/PAUSE /MAP
FUNLIST
GRAF.LIB
=>
inputs: [File("FUN"), File("TEXT"), File("TABLE"), File("CARE"), Library("GRAF.LIB")], out: None, map: Some(At("FUNLIST")), map_form: Link { line_numbers: false }
---
/SE:0x80 /CP:0xFFFF PROG1+PROG2+PROG3,B:PROG,,C:\LIB\ MATH
=>
inputs: [File("PROG1"), File("PROG2"), File("PROG3"), Library("MATH")], out: Some("B:PROG"), map: Some(Beside), map_form: Link { line_numbers: false }, folders: ["C:\\LIB\\"], object_folders: [], ignore_case: true, order: Meeting, null_bytes: true, stack: None, form: Some(LimitedExe { paragraphs: 65535 })
---
\src\moda+\src\modb /noe,..\bin\abc.exe,nul.map,\lib\xlib \lib\;
=>
inputs: [File("\\src\\moda"), File("\\src\\modb"), Library("\\lib\\xlib")], out: Some("..\\bin\\abc.exe"), map: None, map_form: Link { line_numbers: false }, folders: ["\\lib\\"]
---
/noi /nod:slibce main.obj util.obj, main.exe, main.map, slibcr+graphics /m;
=>
inputs: [File("main.obj"), File("util.obj"), Library("slibcr"), Library("graphics")], out: Some("main.exe"), map: Some(At("main.map")), map_form: Link { line_numbers: false }, folders: [], object_folders: [], ignore_case: false, order: Meeting, null_bytes: true, stack: None, form: Some(Exe), default_libraries: true, left_out: ["slibce"]
---
/NOD /NOE crt0 a b , prog, nul, llibcr llibh em;
=>
inputs: [File("crt0"), File("a"), File("b"), Library("llibcr"), Library("llibh"), Library("em")], out: Some("prog"), map: None, map_form: Link { line_numbers: false }, folders: [], object_folders: [], ignore_case: true, order: Meeting, null_bytes: true, stack: None, form: Some(Exe), default_libraries: false
---
/CO /NOI /ST:8192 main+getopt+"..\common files\err",main,NUL,;
=>
inputs: [File("main"), File("getopt"), File("..\\common files\\err")], out: Some("main"), map: None, map_form: Link { line_numbers: false }, folders: [], object_folders: [], ignore_case: false, order: Meeting, null_bytes: true, stack: Some(Stack { bytes: 8192, cuts: true })
---
main+
screen+
keyb /ST:4096/NOI
main.exe
main.map
slibce;
=>
inputs: [File("main"), File("screen"), File("keyb"), Library("slibce")], out: Some("main.exe"), map: Some(At("main.map")), map_form: Link { line_numbers: false }, folders: [], object_folders: [], ignore_case: false, order: Meeting, null_bytes: true, stack: Some(Stack { bytes: 4096, cuts: true })
---
/CP:0xfff /NOI /SE:0x80 /ST:0x1fa0 /CO one.obj +
two.obj
one.EXE

;
=>
inputs: [File("one.obj"), File("two.obj")], out: Some("one.EXE"), map: None, map_form: Link { line_numbers: false }, folders: [], object_folders: [], ignore_case: false, order: Meeting, null_bytes: true, stack: Some(Stack { bytes: 8096, cuts: true }), form: Some(LimitedExe { paragraphs: 4095 })
---
util.obj +
main.obj
main.exe
NUL
 +
slibce +
graphics
 /NOI /BATCH /CO /FAR /PACKC;
=>
inputs: [File("util.obj"), File("main.obj"), Library("slibce"), Library("graphics")], out: Some("main.exe"), map: None, map_form: Link { line_numbers: false }, folders: [], object_folders: [], ignore_case: false
---
/NOLOGO /NOI /STACK:5120 /CO HELLO.OBJ +

HELLO.EXE
nul
d:\msvc\lib\+
d:\msvc\mfc\lib\+
oldnames slibce
;
=>
inputs: [File("HELLO.OBJ"), Library("oldnames"), Library("slibce")], out: Some("HELLO.EXE"), map: None, map_form: Link { line_numbers: false }, folders: ["d:\\msvc\\lib\\", "d:\\msvc\\mfc\\lib\\"], object_folders: [], ignore_case: false, order: Meeting, null_bytes: true, stack: Some(Stack { bytes: 5120, cuts: true })
---
/farcall hello.obj
"hello.exe" /noi
NUL

;
=>
inputs: [File("hello.obj")], out: Some("hello.exe"), map: None, map_form: Link { line_numbers: false }, folders: [], object_folders: [], ignore_case: false
---
hello.obj/t
"hello.com"
NUL

;
=>
inputs: [File("hello.obj")], out: Some("hello.com"), map: None, map_form: Link { line_numbers: false }, folders: [], object_folders: [], ignore_case: true, order: Meeting, null_bytes: false, stack: None, form: Some(Com)
---
/EX /NOE /NOD:BRUN45.LIB PROG.OBJ+NOCOM.OBJ,PROG.EXE,NUL,BCOM45.LIB;
=>
inputs: [File("PROG.OBJ"), File("NOCOM.OBJ"), Library("BCOM45.LIB")], out: Some("PROG.EXE"), map: None, map_form: Link { line_numbers: false }, folders: [], object_folders: [], ignore_case: true, order: Meeting, null_bytes: true, stack: None, form: Some(Exe), default_libraries: true, left_out: ["BRUN45.LIB"]
---
/CO /NOE MAIN+NOEM+NOCOM+SMALLERR,,NUL,BCL71ENR.LIB;
=>
inputs: [File("MAIN"), File("NOEM"), File("NOCOM"), File("SMALLERR"), Library("BCL71ENR.LIB")], out: None, map: None
---
/E PROG+NOLPT,PROG,,BRUN45+C:\QB45\MYLIB;
=>
inputs: [File("PROG"), File("NOLPT"), Library("BRUN45"), Library("C:\\QB45\\MYLIB")], out: Some("PROG"), map: Some(Beside)
---
/NOD /NOE DEMO+MOUSE, DEMO.EXE, DEMO/MAP/LI, LLIBFER GRAPHICS;
=>
inputs: [File("DEMO"), File("MOUSE"), Library("LLIBFER"), Library("GRAPHICS")], out: Some("DEMO.EXE"), map: Some(At("DEMO")), map_form: Link { line_numbers: true }, folders: [], object_folders: [], ignore_case: true, order: Meeting, null_bytes: true, stack: None, form: Some(Exe), default_libraries: false
---
/nod driver, driver.sys, driver, ;
=>
inputs: [File("driver")], out: Some("driver.sys"), map: Some(At("driver")), map_form: Link { line_numbers: false }, folders: [], object_folders: [], ignore_case: true, order: Meeting, null_bytes: true, stack: None, form: Some(Exe), default_libraries: false
---
/INF/MAP:512 /DO/ST:0x1000 start main,prog , prog.map , ;
=>
inputs: [File("start"), File("main")], out: Some("prog"), map: Some(At("prog.map")), map_form: Link { line_numbers: false }, folders: [], object_folders: [], ignore_case: true, order: Dosseg, null_bytes: true, stack: Some(Stack { bytes: 4096, cuts: true }), form: Some(Exe), default_libraries: true, left_out: [], keep_debug: false, packs_far_data: false, verbose: true
---
/NONULLSDOSSEG /NOI crt0dat.obj+main.obj,prog;
=>
inputs: [File("crt0dat.obj"), File("main.obj")], out: Some("prog"), map: None, map_form: Link { line_numbers: false }, folders: [], object_folders: [], ignore_case: false, order: Dosseg, null_bytes: false
---
/NOI /SE:400
:
main+sub,prog,nul,mlibce/ST:4096;
=>
inputs: [File("main"), File("sub"), Library("mlibce")], out: Some("prog"), map: None, map_form: Link { line_numbers: false }, folders: [], object_folders: [], ignore_case: false, order: Meeting, null_bytes: true, stack: Some(Stack { bytes: 4096, cuts: true })
---
/PADCODE:20 /PADDATA:10 /INC main.obj,main.exe,NUL,mlibce;
=>
writes_all: false, verbose: false, form: Exe, order: Meeting, stack: None, most_extra: None }, warnings: [IdleAt { place: 0, idle: Nothing }, IdleAt { place: 12, idle: Nothing }, IdleAt { place: 24, idle: Nothing }] })
---
-nologo -batch -noi -far -packc -st:4096 main.obj io.obj,main.exe,main.map,mlibce.lib oldnames.lib/nod;
=>
inputs: [File("main.obj"), File("io.obj"), Library("mlibce.lib"), Library("oldnames.lib")], out: Some("main.exe"), map: Some(At("main.map")), map_form: Link { line_numbers: false }, folders: [], object_folders: [], ignore_case: false, order: Meeting, null_bytes: true, stack: Some(Stack { bytes: 4096, cuts: true }), form: Some(Exe), default_libraries: false
---
/M:FULL /CPARM:1 main , tsr ;
=>
inputs: [File("main")], out: Some("tsr"), map: None, map_form: Link { line_numbers: false }, folders: [], object_folders: [], ignore_case: true, order: Meeting, null_bytes: true, stack: None, form: Some(LimitedExe { paragraphs: 1 })
---
/e/noi/nod ..\lib\crt0_s + main + sub, .\main, ..\maps\main.map, ..\lib\ slibcr ;
=>
inputs: [File("..\\lib\\crt0_s"), File("main"), File("sub"), Library("slibcr")], out: Some(".\\main"), map: Some(At("..\\maps\\main.map")), map_form: Link { line_numbers: false }, folders: ["..\\lib\\"], object_folders: [], ignore_case: false, order: Meeting, null_bytes: true, stack: None, form: Some(Exe), default_libraries: false
---
main/NOI,prog/CO,list/LI,cs/NOD;
=>
inputs: [File("main"), Library("cs")], out: Some("prog"), map: Some(At("list")), map_form: Link { line_numbers: true }, folders: [], object_folders: [], ignore_case: false, order: Meeting, null_bytes: true, stack: None, form: Some(Exe), default_libraries: false"#;
    hold_in(&rt, rt.alloc(), Language::Link, table);
}

#[test]
fn refuses_lines(rt: HostRuntime) {
    let table = r#"/QU PROG.OBJ,QB.QLB,NUL,BQLB45.LIB;
=>
Err(Word { place: 0, word: "/QU", kind: Refused })
---
/NOD /CO generic+about,generic.exe,,slibw libw,prn.def
=>
Err(Word { place: 47, word: "prn.def", kind: Device })
---
resid /DSALLOC/HIGH,resid;
=>
Err(Word { place: 6, word: "/DSALLOC/HIGH", kind: Refused })
---
/NOI main+(edit+print)+util,prog,,slibce;
=>
Err(Word { place: 10, word: "(edit", kind: Overlays })
---
/M /STACK=4096 main,prog;
=>
Err(Word { place: 3, word: "/STACK=4096", kind: UnknownOption })
---
/STACK 4096 main,prog;
=>
Err(Word { place: 0, word: "/STACK", kind: WrongValue { least: 1, most: 65536 } })
---
/NOI main,prog,list two,slibce;
=>
Err(Word { place: 20, word: "two", kind: SecondName })
---
/CP:70000 main,prog;
=>
Err(Word { place: 0, word: "/CP:70000", kind: WrongValue { least: 0, most: 65535 } })
---
/CO main,prog,nul,slibce,,;
=>
Err(Word { place: 25, word: ",", kind: TooManyFields })
---
/NOI main,prog,lpt1;
=>
Err(Word { place: 15, word: "lpt1", kind: Device })
---
/SUBSYSTEM:CONSOLE /OUT:prog.exe main.obj
=>
Err(Word { place: 0, word: "/SUBSYSTEM:CONSOLE", kind: UnknownOption })
---
/NOI main,prog;nul,slibce
=>
Err(Word { place: 15, word: "nul", kind: BehindEnd })
---
/NOI /CO main+"util,prog,nul;
=>
Err(Word { place: 14, word: "\"", kind: UnclosedQuote })"#;
    hold_in(&rt, rt.alloc(), Language::Link, table);
}
