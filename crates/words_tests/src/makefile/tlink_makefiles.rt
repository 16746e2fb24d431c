//! Whole lines of TLINK, of the kinds that manuals and makefiles of Borland's tools have.
use super::tlink::hold_in;
use makefile_words::Language;

#[test]
fn reads_lines(rt: HostRuntime) {
    let table = r#"/m mainline wd ln tx,fin,mfin,lib\comm lib\support
=>
inputs: [File("mainline"), File("wd"), File("ln"), File("tx"), Library("lib\\comm"), Library("lib\\support")], out: Some("fin"), map: Some(At("mfin"))
---
/c \turboc\lib\c0s myprog, myexe, mymap, \turboc\lib\cs
=>
inputs: [File("\\turboc\\lib\\c0s"), File("myprog"), Library("\\turboc\\lib\\cs")], out: Some("myexe"), map: Some(At("mymap")), map_form: Tlink { line_numbers: false, details: false }, folders: [], object_folders: [], ignore_case: false
---
\tc\lib\c0l main /c /v, main, , \tc\lib\emu \tc\lib\mathl \tc\lib\cl
=>
inputs: [File("\\tc\\lib\\c0l"), File("main"), Library("\\tc\\lib\\emu"), Library("\\tc\\lib\\mathl"), Library("\\tc\\lib\\cl")], out: Some("main"), map: Some(Beside), map_form: Tlink { line_numbers: false, details: false }, folders: [], object_folders: [], ignore_case: false
---
/x c0s bgidemo,bgidemo,,graphics emu maths cs
=>
inputs: [File("c0s"), File("bgidemo"), Library("graphics"), Library("emu"), Library("maths"), Library("cs")], out: Some("bgidemo"), map: None
---
/Lc:\bc\lib /c/v/x c0l main,main,,emu mathl cl graphics
=>
inputs: [File("c0l"), File("main"), Library("emu"), Library("mathl"), Library("cl"), Library("graphics")], out: Some("main"), map: None, map_form: Tlink { line_numbers: false, details: false }, folders: ["c:\\bc\\lib"], object_folders: [], ignore_case: false
---
/v/x/c/P-/LC:\BORLANDC\LIB c0s.obj+
myprog.obj+
util.obj
myprog

graphics.lib+
emu.lib+
maths.lib+
cs.lib
=>
inputs: [File("c0s.obj"), File("myprog.obj"), File("util.obj"), Library("graphics.lib"), Library("emu.lib"), Library("maths.lib"), Library("cs.lib")], out: Some("myprog"), map: None, map_form: Tlink { line_numbers: false, details: false }, folders: ["C:\\BORLANDC\\LIB"], object_folders: [], ignore_case: false
---
/LC:\BC4\LIB -Tde -c -C -d C:\BC4\LIB\c0l.obj+
.\main.obj
main.exe,main
C:\BC4\LIB\bidsl.lib+
C:\BC4\LIB\emu.lib+
C:\BC4\LIB\mathl.lib+
C:\BC4\LIB\cl.lib

=>
inputs: [File("C:\\BC4\\LIB\\c0l.obj"), File(".\\main.obj"), Library("C:\\BC4\\LIB\\bidsl.lib"), Library("C:\\BC4\\LIB\\emu.lib"), Library("C:\\BC4\\LIB\\mathl.lib"), Library("C:\\BC4\\LIB\\cl.lib")], out: Some("main.exe"), map: Some(At("main")), map_form: Tlink { line_numbers: false, details: false }, folders: ["C:\\BC4\\LIB"], object_folders: [], ignore_case: false, order: Meeting, null_bytes: false, stack: None, form: Some(Exe)
---
/t /x hello, hello.com
=>
inputs: [File("hello")], out: Some("hello.com"), map: None, map_form: Tlink { line_numbers: false, details: false }, folders: [], object_folders: [], ignore_case: true, order: Meeting, null_bytes: false, stack: None, form: Some(Com)
---
/x /t driver.obj, driver.sys;
=>
inputs: [File("driver.obj")], out: Some("driver.sys"), map: None, map_form: Tlink { line_numbers: false, details: false }, folders: [], object_folders: [], ignore_case: true, order: Meeting, null_bytes: false, stack: None, form: Some(FromStart)
---
/v/m/s hello+show,,,mylib
=>
inputs: [File("hello"), File("show"), Library("mylib")], out: None, map: Some(Beside), map_form: Tlink { line_numbers: false, details: true }
---
/m /l /s /v main.obj, main.exe, main.map, ;
=>
inputs: [File("main.obj")], out: Some("main.exe"), map: Some(At("main.map")), map_form: Tlink { line_numbers: true, details: true }
---
/t /c c0t tinyprog,tinyprog.com,,emu maths cs
=>
inputs: [File("c0t"), File("tinyprog"), Library("emu"), Library("maths"), Library("cs")], out: Some("tinyprog.com"), map: Some(Beside), map_form: Tlink { line_numbers: false, details: false }, folders: [], object_folders: [], ignore_case: false, order: Meeting, null_bytes: false, stack: None, form: Some(Com)
---
/n /d /c c0m.obj a.obj b.obj,app.exe,nul,mine.lib cm.lib
=>
inputs: [File("c0m.obj"), File("a.obj"), File("b.obj"), Library("mine.lib"), Library("cm.lib")], out: Some("app.exe"), map: None, map_form: Tlink { line_numbers: false, details: false }, folders: [], object_folders: [], ignore_case: false, order: Meeting, null_bytes: false, stack: None, form: Some(Exe), default_libraries: false
---
/3/m/x pmode.obj+vga.obj,pmode
=>
inputs: [File("pmode.obj"), File("vga.obj")], out: Some("pmode"), map: None
---
/c/x c0l a+
b c,prog,,emu+
mathl cl
=>
inputs: [File("c0l"), File("a"), File("b"), File("c"), Library("emu"), Library("mathl"), Library("cl")], out: Some("prog"), map: None, map_form: Tlink { line_numbers: false, details: false }, folders: [], object_folders: [], ignore_case: false
---
-c -x -v -Lc:\tc\lib;c:\tc\user c0h "my file" , big , , overlay.lib emu mathh ch
=>
inputs: [File("c0h"), File("my file"), Library("overlay.lib"), Library("emu"), Library("mathh"), Library("ch")], out: Some("big"), map: None, map_form: Tlink { line_numbers: false, details: false }, folders: ["c:\\tc\\lib", "c:\\tc\\user"], object_folders: [], ignore_case: false
---
c0s main/c/x,main.exe,,cs;
=>
inputs: [File("c0s"), File("main"), Library("cs")], out: Some("main.exe"), map: None, map_form: Tlink { line_numbers: false, details: false }, folders: [], object_folders: [], ignore_case: false
---
c0s main,main/x/m,,cs/c;
=>
inputs: [File("c0s"), File("main"), Library("cs")], out: Some("main"), map: None, map_form: Tlink { line_numbers: false, details: false }, folders: [], object_folders: [], ignore_case: false
---
/Tdc/x/c c0t+prog,prog.com;
=>
inputs: [File("c0t"), File("prog")], out: Some("prog.com"), map: None, map_form: Tlink { line_numbers: false, details: false }, folders: [], object_folders: [], ignore_case: false, order: Meeting, null_bytes: false, stack: None, form: Some(Com)
---
/P=16384 /A=16 /ye /c c0l main,prog,prog,cl
=>
inputs: [File("c0l"), File("main"), Library("cl")], out: Some("prog"), map: Some(At("prog")), map_form: Tlink { line_numbers: false, details: false }, folders: [], object_folders: [], ignore_case: false
---
/c/x
/LC:\BC\LIB
:
c0s main util,prog,,emu maths cs
=>
inputs: [File("c0s"), File("main"), File("util"), Library("emu"), Library("maths"), Library("cs")], out: Some("prog"), map: None, map_form: Tlink { line_numbers: false, details: false }, folders: ["C:\\BC\\LIB"], object_folders: [], ignore_case: false
---
/e/d/c ..\lib\c0c ..\obj\main ..\obj\sub,..\bin\prog.exe,..\map\prog.map,..\lib\ cc
=>
inputs: [File("..\\lib\\c0c"), File("..\\obj\\main"), File("..\\obj\\sub"), Library("cc")], out: Some("..\\bin\\prog.exe"), map: Some(At("..\\map\\prog.map")), map_form: Tlink { line_numbers: false, details: false }, folders: ["..\\lib\\"], object_folders: [], ignore_case: false
---
/v- /x- /l c0s.obj first.obj second.obj,first,first.map,cs.lib
=>
inputs: [File("c0s.obj"), File("first.obj"), File("second.obj"), Library("cs.lib")], out: Some("first"), map: Some(At("first.map")), map_form: Tlink { line_numbers: true, details: false }
---
-jOBJ -LLIB -c c0s main util,prog,nul,cs
=>
inputs: [File("c0s"), File("main"), File("util"), Library("cs")], out: Some("prog"), map: None, map_form: Tlink { line_numbers: false, details: false }, folders: ["LIB"], object_folders: ["OBJ"], ignore_case: false
---
/c /x /v c0s.obj main.obj, main.exe,, emu.lib maths.lib cs.lib graphics.lib
=>
inputs: [File("c0s.obj"), File("main.obj"), Library("emu.lib"), Library("maths.lib"), Library("cs.lib"), Library("graphics.lib")], out: Some("main.exe"), map: None
---
c0s.obj+
main.obj+
util.obj,
main.exe,
main.map,
emu.lib+
maths.lib+
cs.lib
=>
inputs: [File("c0s.obj"), File("main.obj"), File("util.obj"), Library("emu.lib"), Library("maths.lib"), Library("cs.lib")], out: Some("main.exe"), map: Some(At("main.map"))
---
/x /n /t start.obj, start.com
=>
inputs: [File("start.obj")], out: Some("start.com"), map: None, map_form: Tlink { line_numbers: false, details: false }, folders: [], object_folders: [], ignore_case: true, order: Meeting, null_bytes: false, stack: None, form: Some(Com), default_libraries: false
---
/m/s/l c0c prog, , , ..\lib\mine emu mathc cc
=>
inputs: [File("c0c"), File("prog"), Library("..\\lib\\mine"), Library("emu"), Library("mathc"), Library("cc")], out: None, map: Some(Beside), map_form: Tlink { line_numbers: true, details: true }
---
/Tde /c /x /3 c0l.obj dpmi.obj, demo.exe, , cl.lib
=>
inputs: [File("c0l.obj"), File("dpmi.obj"), Library("cl.lib")], out: Some("demo.exe"), map: None, map_form: Tlink { line_numbers: false, details: false }, folders: [], object_folders: [], ignore_case: false, order: Meeting, null_bytes: false, stack: None, form: Some(Exe)
---
/v /c /m /Lc:\tp\lib;c:\bc\lib c0l.obj a.obj b.obj, game
=>
inputs: [File("c0l.obj"), File("a.obj"), File("b.obj")], out: Some("game"), map: Some(Beside), map_form: Tlink { line_numbers: false, details: false }, folders: ["c:\\tp\\lib", "c:\\bc\\lib"]
---
c0s a b c,abc/x
=>
inputs: [File("c0s"), File("a"), File("b"), File("c")], out: Some("abc"), map: None"#;
    hold_in(&rt, rt.alloc(), Language::Tlink, table);
}

#[test]
fn refuses_lines(rt: HostRuntime) {
    let table = r#"/Twe /Lc:\bc\lib c0ws main, main,, mathws cws import, main.def
=>
Err(Word { place: 0, word: "/Twe", kind: NotDos })
---
/c /o c0l main ovr1,prog,,overlay cl
=>
Err(Word { place: 3, word: "/o", kind: Overlays })
---
/t /c c0t prog, prog.com,, cs, prog.def prog
=>
Err(Word { place: 40, word: "prog", kind: SecondName })
---
/MAP c0s main,prog,,cs
=>
Err(Word { place: 0, word: "/MAP", kind: UnknownOption })
---
/c /X c0s main,prog
=>
Err(Word { place: 3, word: "/X", kind: UnknownOption })
---
/NOI c0s main,prog,,cs
=>
Err(Word { place: 0, word: "/NOI", kind: UnknownOption })
---
/c/x c0s main,prog.exe prog.map,cs
=>
Err(Word { place: 23, word: "prog.map", kind: SecondName })
---
/c c0s main,prog,prog,emu maths cs,,
=>
Err(Word { place: 35, word: ",", kind: TooManyFields })
---
/x c0s main,prog;nul,cs
=>
Err(Word { place: 17, word: "nul", kind: BehindEnd })
---
/x /c c0s "my prog,prog,,cs
=>
Err(Word { place: 10, word: "\"", kind: UnclosedQuote })
---
/c c0s main,prog,prn,cs
=>
Err(Word { place: 17, word: "prn", kind: Device })
---
/c c0s main,prog,,cs /Rv
=>
Err(Word { place: 21, word: "/Rv", kind: Refused })
---
/c c0s main (ovr1 ovr2),prog,,cs
=>
Err(Word { place: 12, word: "(ovr1", kind: Overlays })"#;
    hold_in(&rt, rt.alloc(), Language::Tlink, table);
}
