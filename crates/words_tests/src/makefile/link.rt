//! Lines of LINK as makefiles and compilers have them.
use super::tlink::hold_in;
use makefile_words::Language;

#[test]
fn reads_fields(rt: HostRuntime) {
    let table = r#"/NOI /STACK:4096 main+util,prog,prog,slibce;
=>
Ok(MakefileJob { job: Job { inputs: [File("main"), File("util"), Library("slibce")], out: Some("prog"), map: Some(At("prog")), map_form: Link { line_numbers: false }, folders: [], object_folders: [], ignore_case: false, order: Meeting, null_bytes: true, stack: Some(Stack { bytes: 4096, cuts: true }), form: Some(Exe), default_libraries: true, left_out: [], keep_debug: false, packs_far_data: false, verbose: false, quiet: false, start: None, references: [], aliases: [] }, definitions: None, settings: Settings { case_counts: true, no_defaults: false, no_map: false, makes_map: true, publics: false, line_numbers: false, detailed: false, writes_all: false, verbose: false, form: Exe, order: Meeting, stack: Some(4096), most_extra: None }, warnings: [] })
---
main;
=>
inputs: [File("main")], out: None, map: None
---
main,;
=>
map: None
---
main,,;
=>
map: Some(Beside)
---
main,,,slibce;
=>
inputs: [File("main"), Library("slibce")], out: None, map: Some(Beside)
---
main,prog,nul,slibce;
=>
out: Some("prog"), map: None
---
main,prog,con;
=>
out: Some("prog"), map: Some(At("-"))
---
main,,Con.map;
=>
out: None, map: Some(At("-"))
---
main,,console;
=>
map: Some(At("console"))
---
main,,con /M /LI;
=>
map: Some(At("-")), map_form: Link { line_numbers: true }
---
main,prog
=>
inputs: [File("main")], out: Some("prog"), map: None
---
main util+last , prog.exe , prog.map , c:\lib\ em+slibce ;
=>
inputs: [File("main"), File("util"), File("last"), Library("em"), Library("slibce")], out: Some("prog.exe"), map: Some(At("prog.map")), map_form: Link { line_numbers: false }, folders: ["c:\\lib\\"]
---
main,,,,nul
=>
aliases: [] }, definitions: None, settings
---
main,,,,prog.def;
=>
aliases: [] }, definitions: Some("prog.def"), settings
---
/home/x/main.obj ../util/a.obj,out/prog/NOI;
=>
inputs: [File("/home/x/main.obj"), File("../util/a.obj")], out: Some("out/prog"), map: None, map_form: Link { line_numbers: false }, folders: [], object_folders: [], ignore_case: false
---
"my main.obj","my prog.exe";
=>
inputs: [File("my main.obj")], out: Some("my prog.exe")
---
main+
util
prog

slibce
=>
inputs: [File("main"), File("util"), Library("slibce")], out: Some("prog"), map: None
---
main
prog
list
slibce;
=>
inputs: [File("main"), Library("slibce")], out: Some("prog"), map: Some(At("list"))"#;
    hold_in(&rt, rt.alloc(), Language::Link, table);
}

#[test]
fn reads_options(rt: HostRuntime) {
    let table = r#"main/noi;
=>
ignore_case: false
---
main /NOIGNORECASE;
=>
ignore_case: false
---
/nod main;
=>
default_libraries: false
---
/NOD:llibce main;
=>
default_libraries: true, left_out: ["llibce"], keep_debug: false
---
/st:010 main;
=>
stack: Some(Stack { bytes: 8, cuts: true })
---
/stack:0x800 main;
=>
stack: Some(Stack { bytes: 2048, cuts: true })
---
/ST:65536 main;
=>
stack: Some(Stack { bytes: 65536, cuts: true })
---
/CP:1 main;
=>
form: Some(LimitedExe { paragraphs: 1 }), default_libraries: true
---
/cpa:0 main;
=>
form: Some(LimitedExe { paragraphs: 0 }), default_libraries: true
---
/T /CP:1 main;
=>
form: Some(Com), default_libraries: true
---
/CPARM:020 main;
=>
order: Meeting, stack: None, most_extra: Some(16)
---
/CPARMAXALLOC:0xFFFF main;
=>
most_extra: Some(65535)
---
/DO main;
=>
order: Dosseg, null_bytes: true
---
/DOSSEG main;
=>
order: Dosseg, null_bytes: true
---
/NONULLS main;
=>
order: Dosseg, null_bytes: false
---
/M main;
=>
map: Some(Beside), map_form: Link { line_numbers: false }, folders: [], object_folders: [], ignore_case: true, order: Meeting, null_bytes: true, stack: None, form: Some(Exe), default_libraries: true, left_out: [], keep_debug: false, packs_far_data: false, verbose: false, quiet: false, start: None, references: [], aliases: [] }, definitions: None, settings: Settings { case_counts: false, no_defaults: false, no_map: false, makes_map: false, publics: true
---
/MAP:200 main;
=>
publics: true
---
/LI main;
=>
map: Some(Beside), map_form: Link { line_numbers: true }, folders: []
---
/T main,prog.com;
=>
form: Some(Com), default_libraries: true
---
/T main,driver.sys;
=>
out: Some("driver.sys"), map: None, map_form: Link { line_numbers: false }, folders: [], object_folders: [], ignore_case: true, order: Meeting, null_bytes: false, stack: None, form: Some(Com), default_libraries: true
---
/DO /T main;
=>
order: Dosseg, null_bytes: false, stack: None, form: Some(Com)
---
/TINY main;
=>
form: Some(Com), default_libraries: true
---
/AL /PADC main /PM;
=>
warnings: [IdleAt { place: 0, idle: Nothing }, IdleAt { place: 4, idle: Nothing }, IdleAt { place: 15, idle: Nothing }]
---
/INF main;
=>
verbose: true
---
/CO /E /F /PACKC main;
=>
warnings: [IdleAt { place: 0, idle: Debug }, IdleAt { place: 4, idle: Packing }, IdleAt { place: 7, idle: Packing }, IdleAt { place: 10, idle: Packing }]
---
/B /NOL /PAU /NOE /NOF /NOP /SE:256 main;
=>
warnings: []
---
/ON:NOEXE /onerror:noexe /NOPACKF /NOPACKFUNCTIONS main;
=>
warnings: []
---
/PACKF main /packfunctions;
=>
warnings: [IdleAt { place: 0, idle: Nothing }, IdleAt { place: 12, idle: Nothing }]
---
/O:63 /AL:16 /PADC:2 /PM:VIO /W /M:FULL main;
=>
warnings: [IdleAt { place: 0, idle: Nothing }, IdleAt { place: 6, idle: Nothing }, IdleAt { place: 13, idle: Nothing }, IdleAt { place: 21, idle: Nothing }, IdleAt { place: 29, idle: Nothing }, IdleAt { place: 32, idle: Nothing }]
---
-noi -st:512 main/m,prog;
=>
map: Some(Beside), map_form: Link { line_numbers: false }, folders: [], object_folders: [], ignore_case: false, order: Meeting, null_bytes: true, stack: Some(Stack { bytes: 512, cuts: true })"#;
    hold_in(&rt, rt.alloc(), Language::Link, table);
}

#[test]
fn refuses_words(rt: HostRuntime) {
    let table = r#";
=>
Err(Word { place: 1, word: "", kind: NoObject })
---
main/STACKS;
=>
inputs: [File("main/STACKS")]
---
main /STACKS;
=>
Err(Word { place: 5, word: "/STACKS", kind: UnknownOption })
---
main /NO;
=>
kind: ShortForSeveral
---
main /S:4;
=>
kind: ShortForSeveral
---
/H main;
=>
kind: ShortForSeveral
---
/O main;
=>
kind: ShortForSeveral
---
/PACK main;
=>
kind: ShortForSeveral
---
/PAD main;
=>
kind: ShortForSeveral
---
/ main;
=>
kind: UnknownOption
---
/NOI:1 main;
=>
kind: NoValue
---
/HE main;
=>
kind: UnknownOption
---
main /ST:0;
=>
Err(Word { place: 5, word: "/ST:0", kind: WrongValue { least: 1, most: 65536 } })
---
main /ST:65537;
=>
kind: WrongValue { least: 1, most: 65536 }
---
main /ST:089;
=>
kind: WrongValue { least: 1, most: 65536 }
---
main /ST:;
=>
kind: WrongValue { least: 1, most: 65536 }
---
main /ST;
=>
kind: WrongValue { least: 1, most: 65536 }
---
/CP:65536 main;
=>
kind: WrongValue { least: 0, most: 65535 }
---
-cparm main;
=>
kind: WrongValue { least: 0, most: 65535 }
---
/SE main;
=>
kind: WrongValue { least: 0, most: 1048576 }
---
/SE:1048577 main;
=>
kind: WrongValue { least: 0, most: 1048576 }
---
/M:x main;
=>
kind: WrongValue { least: 0, most: 1048576 }
---
/ON main;
=>
kind: NoNoExe
---
src/st;
=>
inputs: [File("src/st")]
---
/DS main;
=>
Err(Word { place: 0, word: "/DS", kind: Refused })
---
/HIGH main;
=>
kind: Refused
---
/PC main;
=>
Err(Word { place: 0, word: "/PC", kind: PCode })
---
main /PCODE;
=>
kind: PCode
---
/ON:ERROR main;
=>
kind: NoNoExe
---
/ON:NOEX main;
=>
kind: NoNoExe
---
/OLD main;
=>
kind: Overlays
---
main (a+b);
=>
kind: Overlays
---
main,con;
=>
kind: Device
---
main,,,,prog.def more;
=>
Err(Word { place: 17, word: "more", kind: SecondName })
---
main; util
=>
Err(Word { place: 6, word: "util", kind: BehindEnd })"#;
    hold_in(&rt, rt.alloc(), Language::Link, table);
}

#[test]
fn reads_the_environment(rt: HostRuntime) {
    let table = r#"/NOI /NOLOGO /CO
:
main;
=>
inputs: [File("main")], out: None, map: None, map_form: Link { line_numbers: false }, folders: [], object_folders: [], ignore_case: false
---
/CO
:
main /E;
=>
warnings: [IdleAt { place: 0, idle: Debug }, IdleAt { place: 8, idle: Packing }]
---
/NOI /ST:4096 /T
:
main /ST:0x800;
=>
ignore_case: false, order: Meeting, null_bytes: false, stack: Some(Stack { bytes: 2048, cuts: true }), form: Some(Com)
---
/ST:2048
:
/ST:4096 main;
=>
stack: Some(Stack { bytes: 4096, cuts: true })
---
/DO
:
main /NON;
=>
order: Dosseg, null_bytes: false
---
crt0 /NOD
:
main,prog;
=>
inputs: [File("crt0"), File("main")], out: Some("prog"), map: None, map_form: Link { line_numbers: false }, folders: [], object_folders: [], ignore_case: true, order: Meeting, null_bytes: true, stack: None, form: Some(Exe), default_libraries: false
---
crt0
:
,prog;
=>
inputs: [File("crt0")], out: Some("prog")
---
crt0+
:
main,prog;
=>
inputs: [File("crt0"), File("main")], out: Some("prog")
---
crt0,prog
:
,list,cs;
=>
inputs: [File("crt0"), Library("cs")], out: Some("prog"), map: Some(At("list"))
---
"my crt0"
:
"my main";
=>
inputs: [File("my crt0"), File("my main")]
---
crt0
:
prog
=>
inputs: [File("crt0"), File("prog")], out: None
---

:
main;
=>
inputs: [File("main")], out: None, map: None
---
main;
:
util
=>
Err(Word { place: 5, word: "util", kind: BehindEnd })
---
/NOI /z
:
main;
=>
Err(Word { place: 5, word: "/z", kind: UnknownOption })
---
/NOI
:
main /z;
=>
Err(Word { place: 9, word: "/z", kind: UnknownOption })
---
/NOI "
:
main";
=>
Err(Word { place: 5, word: "\"", kind: UnclosedQuote })
---
@more
:
main;
=>
Err(Word { place: 0, word: "@more", kind: Response })
---
/HI
:
main;
=>
Err(Word { place: 0, word: "/HI", kind: Refused })
---
/NOI
:
/M
=>
Err(Word { place: 6, word: "", kind: NoObject })"#;
    hold_in(&rt, rt.alloc(), Language::Link, table);
}
