//! Lines of TLINK as makefiles and compilers have them.
use makefile_words::{Language, parse_line};
use std::alloc::{AllocError, Global};
use std::process::Abort;

/// The answer to a line, printed. What stands in front of it stands above a line of `:`.
fn answer(alloc: Global, language: Language, line: &str) -> Result<String, AllocError> {
    let (front, text) = line.split_once("\n:\n").unwrap_or(("", line));
    format!(in alloc; "{:?}", parse_line(alloc, language, front, text))
}

/// The answer to each row of a table has the part that stands below its line.
pub(crate) fn hold_in<R: Abort>(rt: &R, alloc: Global, language: Language, table: &str) {
    for row in table.split("\n---\n") {
        let (line, part) = row.split_once("\n=>\n").unwrap_or((row, "no part"));
        let printed = answer(alloc, language, line).expect(rt, "text");
        assert!(rt; printed.as_str().contains(part), "{row}: {printed}");
    }
}

#[test]
fn reads_fields(rt: HostRuntime) {
    let table = r#"main
=>
Ok(MakefileJob { job: Job { inputs: [File("main")], out: None, map: Some(Beside), map_form: Tlink { line_numbers: false, details: false }, folders: [], object_folders: [], ignore_case: true, order: Meeting, null_bytes: false, stack: None, form: Some(Exe), default_libraries: true, left_out: [], keep_debug: false, packs_far_data: false, verbose: false, quiet: false, start: None, references: [], aliases: [] }, definitions: None, settings: Settings { case_counts: false, no_defaults: false, no_map: false, makes_map: true, publics: false, line_numbers: false, detailed: false, writes_all: false, verbose: false, form: Exe, order: Meeting, stack: None, most_extra: None }, warnings: [] })
---
/c /x c0s main util, prog.exe, prog.map, emu maths cs
=>
inputs: [File("c0s"), File("main"), File("util"), Library("emu"), Library("maths"), Library("cs")], out: Some("prog.exe"), map: None, map_form: Tlink { line_numbers: false, details: false }, folders: [], object_folders: [], ignore_case: false,
---
c0s+main+util,prog,prog,cs
=>
inputs: [File("c0s"), File("main"), File("util"), Library("cs")], out: Some("prog"), map: Some(At("prog")),
---
c0l main,,,cl;
=>
inputs: [File("c0l"), File("main"), Library("cl")], out: None, map: Some(Beside)
---
main;
=>
inputs: [File("main")], out: None, map: Some(Beside)
---
main,prog;
=>
inputs: [File("main")], out: Some("prog"), map: Some(Beside)
---
main,prog,list;
=>
out: Some("prog"), map: Some(At("list"))
---
main,prog,nul;
=>
out: Some("prog"), map: None
---
main,,NUL.MAP,cs;
=>
inputs: [File("main"), Library("cs")], out: None, map: None
---
main,prog,list,cs,;
=>
inputs: [File("main"), Library("cs")], out: Some("prog"), map: Some(At("list"))
---
main,prog,list,cs,nul.def
=>
inputs: [File("main"), Library("cs")], out: Some("prog"), map: Some(At("list"))
---
main , prog , list , cs mathl
=>
inputs: [File("main"), Library("cs"), Library("mathl")], out: Some("prog"), map: Some(At("list"))
---
"my main.obj" util,"my prog.exe",,"my lib.lib"
=>
inputs: [File("my main.obj"), File("util"), Library("my lib.lib")], out: Some("my prog.exe"), map: Some(Beside)
---
..\lib\c0s main,prog,,c:\tc\lib\ cs
=>
inputs: [File("..\\lib\\c0s"), File("main"), Library("cs")], out: Some("prog"), map: Some(Beside), map_form: Tlink { line_numbers: false, details: false }, folders: ["c:\\tc\\lib\\"]
---
main,,,libs/ d: cs
=>
inputs: [File("main"), Library("cs")], out: None, map: Some(Beside), map_form: Tlink { line_numbers: false, details: false }, folders: ["libs/", "d:"]
---
my-prog a-b,x-y
=>
inputs: [File("my-prog"), File("a-b")], out: Some("x-y")
---
/home/x/a.obj ./m ../x build/main.obj,out/prog
=>
inputs: [File("/home/x/a.obj"), File("./m"), File("../x"), File("build/main.obj")], out: Some("out/prog")
---
main,,,nul
=>
inputs: [File("main")], out: None, map: Some(Beside)
---
main,com0,lpt10
=>
out: Some("com0"), map: Some(At("lpt10"))
---
main,prog,OUT/con
=>
out: Some("prog"), map: Some(At("-"))
---
main,prog,C:\X\Nul.map,lib\nul a:nul: cs
=>
inputs: [File("main"), Library("cs")], out: Some("prog"), map: None, map_form: Tlink { line_numbers: false, details: false }, folders: []
---
main,nul\prog,prn/list,con\
=>
inputs: [File("main")], out: Some("nul\\prog"), map: Some(At("prn/list")), map_form: Tlink { line_numbers: false, details: false }, folders: ["con\\"]"#;
    hold_in(&rt, rt.alloc(), Language::Tlink, table);
}

#[test]
fn reads_options(rt: HostRuntime) {
    let table = r#"main/x
=>
inputs: [File("main")], out: None, map: None
---
main/x/c,prog
=>
inputs: [File("main")], out: Some("prog"), map: None, map_form: Tlink { line_numbers: false, details: false }, folders: [], object_folders: [], ignore_case: false
---
-x -c main
=>
inputs: [File("main")], out: None, map: None, map_form: Tlink { line_numbers: false, details: false }, folders: [], object_folders: [], ignore_case: false
---
/x/c/n main
=>
default_libraries: false
---
src/main/m
=>
inputs: [File("src/main")]
---
/m /l /s /i main
=>
publics: true, line_numbers: true, detailed: true, writes_all: true
---
/l main
=>
map: Some(Beside), map_form: Tlink { line_numbers: true, details: false }, folders: []
---
/l /l- main
=>
map: Some(Beside), map_form: Tlink { line_numbers: false, details: false }, folders: []
---
/m- /c- /x- main
=>
map: Some(Beside), map_form: Tlink { line_numbers: false, details: false }, folders: [], object_folders: [], ignore_case: true
---
/c /c- /c main
=>
ignore_case: false
---
main,prog/x,list,cs/n
=>
inputs: [File("main"), Library("cs")], out: Some("prog"), map: None, map_form: Tlink { line_numbers: false, details: false }, folders: [], object_folders: [], ignore_case: true, order: Meeting, null_bytes: false, stack: None, form: Some(Exe), default_libraries: false
---
/t main,prog.com
=>
form: Some(Com), default_libraries: true
---
/Tdc main
=>
form: Some(Com), default_libraries: true
---
/t main,driver.sys
=>
out: Some("driver.sys"), map: Some(Beside), map_form: Tlink { line_numbers: false, details: false }, folders: [], object_folders: [], ignore_case: true, order: Meeting, null_bytes: false, stack: None, form: Some(FromStart), default_libraries: true
---
/Tdc main,..\bin.dir\BOOT.BIN
=>
form: Some(FromStart), default_libraries: true
---
/t main,c:prog.com.sys
=>
form: Some(FromStart), default_libraries: true
---
/t main,prog.
=>
out: Some("prog."), map: Some(Beside), map_form: Tlink { line_numbers: false, details: false }, folders: [], object_folders: [], ignore_case: true, order: Meeting, null_bytes: false, stack: None, form: Some(FromStart), default_libraries: true
---
/t main,PROG.SYS.Com
=>
form: Some(Com), default_libraries: true
---
/t main,..\bin.dir\prog
=>
form: Some(Com), default_libraries: true
---
/t main,out.dir/prog
=>
out: Some("out.dir/prog"), map: Some(Beside), map_form: Tlink { line_numbers: false, details: false }, folders: [], object_folders: [], ignore_case: true, order: Meeting, null_bytes: false, stack: None, form: Some(Com), default_libraries: true
---
/t main,out.dir\
=>
form: Some(Com), default_libraries: true
---
/t main.sys,,main.lst
=>
form: Some(Com), default_libraries: true
---
/t/t- main,driver.sys
=>
form: Some(Exe), default_libraries: true
---
/t /Tde main
=>
form: Some(Exe), default_libraries: true
---
/t /Td main
=>
form: Some(Exe), default_libraries: true
---
/t/t- main
=>
form: Some(Exe), default_libraries: true
---
/L..\lib;c:\tc\lib main
=>
inputs: [File("main")], out: None, map: Some(Beside), map_form: Tlink { line_numbers: false, details: false }, folders: ["..\\lib", "c:\\tc\\lib"]
---
-L/usr/tc/lib main,,,more/
=>
folders: ["/usr/tc/lib", "more/"]
---
-La/usr/c main
=>
folders: ["a/usr/c"], object_folders: [], ignore_case: true
---
/Lc:\tc\lib/c main
=>
folders: ["c:\\tc\\lib"], object_folders: [], ignore_case: false
---
-L..\lib;b/c/x main
=>
inputs: [File("main")], out: None, map: None, map_form: Tlink { line_numbers: false, details: false }, folders: ["..\\lib", "b"], object_folders: [], ignore_case: false
---
obj/job.obj lib/LIBC.LIB src/yacc.obj,,,lib/TC.LIB
=>
inputs: [File("obj/job.obj"), File("lib/LIBC.LIB"), File("src/yacc.obj"), Library("lib/TC.LIB")]
---
src/Readme/Tdc/P=1/c
=>
inputs: [File("src/Readme")], out: None, map: Some(Beside), map_form: Tlink { line_numbers: false, details: false }, folders: [], object_folders: [], ignore_case: false
---
main/La/c
=>
inputs: [File("main/La")], out: None, map: Some(Beside), map_form: Tlink { line_numbers: false, details: false }, folders: [], object_folders: [], ignore_case: false
---
/c/La;b main
=>
inputs: [File("main")], out: None, map: Some(Beside), map_form: Tlink { line_numbers: false, details: false }, folders: ["a", "b"], object_folders: [], ignore_case: false
---
/v /3 main
=>
warnings: [IdleAt { place: 0, idle: Debug }]
---
/e /C /E /k /P /P=4096 /A=16 /yc /ye /v- /d- /M- main
=>
warnings: []
---
/d main /M
=>
warnings: [IdleAt { place: 0, idle: Nothing }, IdleAt { place: 8, idle: Nothing }]
---
/f main /Ol /yx
=>
warnings: [IdleAt { place: 0, idle: Packing }, IdleAt { place: 8, idle: Packing }, IdleAt { place: 12, idle: Nothing }]
---
/jobjs main
=>
folders: [], object_folders: ["objs"], ignore_case: true
---
/Llib;x -j..\obj;c:\old main,,,more/ /j/usr/obj /j
=>
folders: ["lib", "x", "more/"], object_folders: ["..\\obj", "c:\\old", "/usr/obj"], ignore_case: true
---
/jL;jx main
=>
folders: [], object_folders: ["L", "jx"], ignore_case: true
---
/jc:\obj/c main
=>
folders: [], object_folders: ["c:\\obj"], ignore_case: false
---
/L"C:\my libs" main
=>
inputs: [File("main")], out: None, map: Some(Beside), map_form: Tlink { line_numbers: false, details: false }, folders: ["C:\\my libs"]
---
/c/L"a b";c;"d, e+f;g" main -j"C:/o b";\o/x
=>
inputs: [File("main")], out: None, map: None, map_form: Tlink { line_numbers: false, details: false }, folders: ["a b", "c", "d, e+f;g"], object_folders: ["C:/o b", "\\o"], ignore_case: false
---
/L"a/c" main
=>
folders: ["a/c"], object_folders: [], ignore_case: true
---
/c/m/s main,prog,,cs /x
=>
map: None"#;
    hold_in(&rt, rt.alloc(), Language::Tlink, table);
}

#[test]
fn reads_response_files(rt: HostRuntime) {
    let table = r#"c0s main+
util
prog
prog.map
emu maths cs
=>
inputs: [File("c0s"), File("main"), File("util"), Library("emu"), Library("maths"), Library("cs")], out: Some("prog"), map: Some(At("prog.map"))
---
/c /x

c0s+
main +
util
prog
=>
inputs: [File("c0s"), File("main"), File("util")], out: Some("prog"), map: None, map_form: Tlink { line_numbers: false, details: false }, folders: [], object_folders: [], ignore_case: false
---
main

list
cs;
=>
inputs: [File("main"), Library("cs")], out: None, map: Some(At("list"))
---
main,prog
list
cs
=>
inputs: [File("main"), Library("cs")], out: Some("prog"), map: Some(At("list"))
---
main
prog


=>
inputs: [File("main")], out: Some("prog"), map: Some(Beside)
---
main;

=>
inputs: [File("main")], out: None"#;
    hold_in(&rt, rt.alloc(), Language::Tlink, table);
}

#[test]
fn refuses_words(rt: HostRuntime) {
    let table = r#"
=>
Err(Word { place: 0, word: "", kind: NoObject })
---
/c /x
=>
Err(Word { place: 5, word: "", kind: NoObject })
---
,prog
=>
kind: NoObject
---
main,prog other
=>
Err(Word { place: 10, word: "other", kind: SecondName })
---
main,,list other
=>
Err(Word { place: 11, word: "other", kind: SecondName })
---
main,,,,nul,more
=>
Err(Word { place: 11, word: ",", kind: TooManyFields })
---
main;util
=>
Err(Word { place: 5, word: "util", kind: BehindEnd })
---
main;,prog
=>
Err(Word { place: 5, word: ",", kind: BehindEnd })
---
/q main
=>
Err(Word { place: 0, word: "/q", kind: UnknownOption })
---
main -q
=>
Err(Word { place: 5, word: "-q", kind: UnknownOption })
---
/L"a b"c main
=>
Err(Word { place: 0, word: "/L\"a b\"c", kind: PartlyQuoted })
---
/L"a b"/c main
=>
Err(Word { place: 0, word: "/L\"a b\"/c", kind: TwoWays })
---
/L"a b main
=>
Err(Word { place: 0, word: "/L", kind: NoFolders })
---
/Lx;"a b main
=>
Err(Word { place: 4, word: "\"", kind: UnclosedQuote })
---
main "util
=>
Err(Word { place: 5, word: "\"", kind: UnclosedQuote })
---
main @more
=>
Err(Word { place: 5, word: "@more", kind: Response })
---
main,nul
=>
Err(Word { place: 5, word: "nul", kind: Device })
---
main,,prn
=>
kind: Device
---
main,NUL:
=>
Err(Word { place: 5, word: "NUL:", kind: Device })
---
main,,Lpt1:
=>
kind: Device
---
main,sub\nul
=>
Err(Word { place: 5, word: "sub\\nul", kind: Device })
---
main,,C:\X\PRN.map
=>
Err(Word { place: 6, word: "C:\\X\\PRN.map", kind: Device })
---
main,,,,sub\con.def
=>
Err(Word { place: 8, word: "sub\\con.def", kind: Device })
---
main,,,,nul nul
=>
Err(Word { place: 12, word: "nul", kind: SecondName })
---
main (a+b)
=>
Err(Word { place: 5, word: "(a", kind: Overlays })
---
/o main
=>
kind: Overlays
---
/Twe main
=>
kind: NotDos
---
main /Rk
=>
Err(Word { place: 5, word: "/Rk", kind: Refused })
---
/L main
=>
kind: NoFolders
---
/La/c main
=>
Err(Word { place: 0, word: "/La/c", kind: TwoWays })
---
main -ja/Tdc
=>
Err(Word { place: 5, word: "-ja/Tdc", kind: TwoWays })
---
main,com3
=>
kind: Device
---
main,,lpt4.map
=>
kind: Device
---
main,,Lpt9
=>
Err(Word { place: 6, word: "Lpt9", kind: Device })
---
/home/Lib/x.obj;b
=>
Err(Word { place: 16, word: "b", kind: BehindEnd })"#;
    hold_in(&rt, rt.alloc(), Language::Tlink, table);
}

#[test]
fn reads_tlink_cfg(rt: HostRuntime) {
    let table = r#"/c
/x
/Lc:\tc\lib;d:\lib
:
c0s main,prog
=>
inputs: [File("c0s"), File("main")], out: Some("prog"), map: None, map_form: Tlink { line_numbers: false, details: false }, folders: ["c:\\tc\\lib", "d:\\lib"], object_folders: [], ignore_case: false
---
/c /x -n

  /Tdc/m
:
main
=>
publics: true, line_numbers: false, detailed: false, writes_all: false, verbose: false, form: Com
---
/c /x /t
:
/c- main /x- /Tde
=>
inputs: [File("main")], out: None, map: Some(Beside), map_form: Tlink { line_numbers: false, details: false }, folders: [], object_folders: [], ignore_case: true, order: Meeting, null_bytes: false, stack: None, form: Some(Exe)
---
/x- /c-
:
main /x/c
=>
map: None, map_form: Tlink { line_numbers: false, details: false }, folders: [], object_folders: [], ignore_case: false
---
/La /Lb
:
/Lc main,,,d/ cs
=>
folders: ["a", "b", "c", "d/"]
---
; /x ;
/c;
:
main
=>
inputs: [File("main")], out: None, map: None, map_form: Tlink { line_numbers: false, details: false }, folders: [], object_folders: [], ignore_case: false
---

:
main
=>
inputs: [File("main")], out: None, map: Some(Beside)
---
/v

/f
:
main /v
=>
warnings: [IdleAt { place: 0, idle: Debug }, IdleAt { place: 4, idle: Packing }, IdleAt { place: 11, idle: Debug }]
---
/x
/q
:
main
=>
Err(Word { place: 3, word: "/q", kind: UnknownOption })
---
/x
:
main /q
=>
Err(Word { place: 7, word: "/q", kind: UnknownOption })
---
/x
:
main "util
=>
Err(Word { place: 7, word: "\"", kind: UnclosedQuote })
---
/x c0s
:
main
=>
Err(Word { place: 3, word: "c0s", kind: NoOption })
---
c0s/x
:
main
=>
Err(Word { place: 0, word: "c0s/x", kind: NoOption })
---
@more
:
main
=>
Err(Word { place: 0, word: "@more", kind: NoOption })
---
/x /home/tc/lib
:
main
=>
Err(Word { place: 3, word: "/home/tc/lib", kind: NoOption })
---
/x,
:
main
=>
Err(Word { place: 2, word: ",", kind: NoOption })
---
/x +
:
main
=>
Err(Word { place: 3, word: "+", kind: NoOption })
---
"c0s"
:
main
=>
Err(Word { place: 0, word: "c0s", kind: NoOption })
---
/x "
:
main
=>
Err(Word { place: 3, word: "\"", kind: NoOption })
---
/o
:
main
=>
Err(Word { place: 0, word: "/o", kind: Overlays })
---
/La/c
:
main
=>
Err(Word { place: 0, word: "/La/c", kind: TwoWays })
---
/x
:
/c
=>
Err(Word { place: 4, word: "", kind: NoObject })"#;
    hold_in(&rt, rt.alloc(), Language::Tlink, table);
}
