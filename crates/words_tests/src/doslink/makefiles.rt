//! Whole commands and files of wlink, of the kinds that manuals, makefiles and compilers have.
use super::directives::hold;

#[test]
fn reads_commands(rt: HostRuntime) {
    let table = r##"system dos file {a b} library clibs option map,stack=4k name x
=>
inputs: [File("a"), File("b"), Library("clibs")], out: Some("x"), map: Some(Beside), map_form: Omf, folders: [], object_folders: [], ignore_case: false, order: Meeting, null_bytes: false, stack: Some(Stack { bytes: 4096, cuts: true }), form: None, default_libraries: true, left_out: [], keep_debug: false, packs_far_data: true, verbose: false, quiet: false


system dos name hello file hello option quiet
=>
inputs: [File("hello")], out: Some("hello"), map: None, map_form: Omf, folders: [], object_folders: [], ignore_case: false, order: Meeting, null_bytes: false, stack: None, form: None, default_libraries: true, left_out: [], keep_debug: false, packs_far_data: true, verbose: false, quiet: true


name prog SYS dos op m op maxe=25 op q op symf
FIL main.obj,util.obj
=>
quiet: true, start: None, references: [], aliases: [] }, warnings: [Warning { line: 1, kind: Option }, Warning { line: 1, kind: Symbols }] })


NAME demo SYS dos op m=demo.map op st=8192 op q op symf=demo.sym d all
FIL demo.obj,screen.obj,keys.obj
LIBR mylib.lib,graph.lib
=>
inputs: [File("demo.obj"), File("screen.obj"), File("keys.obj"), Library("mylib.lib"), Library("graph.lib")], out: Some("demo"), map: Some(At("demo.map")), map_form: Omf, folders: [], object_folders: [], ignore_case: false, order: Meeting, null_bytes: false, stack: Some(Stack { bytes: 8192, cuts: true })


debug all sys dos op st=16k,m=prog.map,q n prog.exe f main.obj,..\common\err.obj lib ..\lib\util.lib,math87l.lib
=>
inputs: [File("main.obj"), File("..\\common\\err.obj"), Library("..\\lib\\util.lib"), Library("math87l.lib")], out: Some("prog.exe"), map: Some(At("prog.map")), map_form: Omf, folders: [], object_folders: [], ignore_case: false, order: Meeting, null_bytes: false, stack: Some(Stack { bytes: 16384, cuts: true })


sys com op q,m n tsr.com f tsr.obj,parse.obj
=>
inputs: [File("tsr.obj"), File("parse.obj")], out: Some("tsr.com"), map: Some(Beside), map_form: Omf, folders: [], object_folders: [], ignore_case: false, order: Meeting, null_bytes: false, stack: None, form: Some(Com), default_libraries: true, left_out: [], keep_debug: false, packs_far_data: true, verbose: false, quiet: true


format dos com name boot.com file boot.obj option quiet, map=boot.map
=>
inputs: [File("boot.obj")], out: Some("boot.com"), map: Some(At("boot.map")), map_form: Omf, folders: [], object_folders: [], ignore_case: false, order: Meeting, null_bytes: false, stack: None, form: Some(Com)


output raw offset=0x7c00 name boot.bin file boot.obj option quiet
=>
inputs: [File("boot.obj")], out: Some("boot.bin"), map: None, map_form: Omf, folders: [], object_folders: [], ignore_case: false, order: Meeting, null_bytes: false, stack: None, form: Some(Raw { paragraph: 0, from: 31744 })


name 'hello.exe'
option quiet
option map
option stack=0x2000
system dos
file 'hello.obj'
file 'util.obj'
library 'graph.lib'
=>
inputs: [File("hello.obj"), File("util.obj"), Library("graph.lib")], out: Some("hello.exe"), map: Some(Beside), map_form: Omf, folders: [], object_folders: [], ignore_case: false, order: Meeting, null_bytes: false, stack: Some(Stack { bytes: 8192, cuts: true }), form: None, default_libraries: true, left_out: [], keep_debug: false, packs_far_data: true, verbose: false, quiet: true


debug all
system dos
name app
file main, sub1,
     sub2
library graph
option map, verbose, symfile
=>
quiet: false, start: None, references: [], aliases: [] }, warnings: [Warning { line: 7, kind: Option }, Warning { line: 7, kind: Symbols }] })


# the editor's link
system dos # real mode
file edit
file buffer  # its text

option stack=20000
name ed
=>
inputs: [File("edit"), File("buffer")], out: Some("ed"), map: None, map_form: Omf, folders: [], object_folders: [], ignore_case: false, order: Meeting, null_bytes: false, stack: Some(Stack { bytes: 20000, cuts: true })


path \objs;\lib\objs file main,print libpath c:\watcom\lib286\dos,c:\watcom\lib286 library clibm,math87m name main.exe option caseexact, q
=>
inputs: [File("main"), File("print"), Library("clibm"), Library("math87m")], out: Some("main.exe"), map: None, map_form: Omf, folders: ["c:\\watcom\\lib286\\dos", "c:\\watcom\\lib286"], object_folders: ["\\objs", "\\lib\\objs"], ignore_case: false, order: Meeting, null_bytes: false, stack: None, form: None, default_libraries: true, left_out: [], keep_debug: false, packs_far_data: true, verbose: false, quiet: true


order clname FAR_CODE clname CODE segment BEGTEXT segment _TEXT clname DATA clname BSS clname STACK
option quiet, nodefaultlibs
name rom.exe
file start, rom
=>
inputs: [File("start"), File("rom")], out: Some("rom.exe"), map: None, map_form: Omf, folders: [], object_folders: [], ignore_case: false, order: Listed([Class("FAR_CODE"), Class("CODE"), Segment("BEGTEXT"), Segment("_TEXT"), Class("DATA"), Class("BSS"), Class("STACK")]), null_bytes: false, stack: None, form: None, default_libraries: false, left_out: [], keep_debug: false, packs_far_data: true, verbose: false, quiet: true


file 'C:\My Files\main.obj', "C:\My Files\io.obj" name 'C:\My Files\main.exe' op q
=>
inputs: [File("C:\\My Files\\main.obj"), File("C:\\My Files\\io.obj")], out: Some("C:\\My Files\\main.exe"), map: None, map_form: Omf, folders: [], object_folders: [], ignore_case: false, order: Meeting, null_bytes: false, stack: None, form: None, default_libraries: true, left_out: [], keep_debug: false, packs_far_data: true, verbose: false, quiet: true


op ignorecase op dos lib clibl f a,b n ab
=>
inputs: [Library("clibl"), File("a"), File("b")], out: Some("ab"), map: None, map_form: Omf, folders: [], object_folders: [], ignore_case: true, order: Dosseg


ref _big_code_, _cstart_ alias _main=main_ file crt0,main op start=_cstart_ n rom.exe form dos
=>
inputs: [File("crt0"), File("main")], out: Some("rom.exe"), map: None, map_form: Omf, folders: [], object_folders: [], ignore_case: false, order: Meeting, null_bytes: false, stack: None, form: None, default_libraries: true, left_out: [], keep_debug: false, packs_far_data: true, verbose: false, quiet: false, start: Some("_cstart_"), references: ["_big_code_", "_cstart_"], aliases: [Alias { name: "_main", means: "main_" }]


disable 1014 sort global d watcom lines f main,sub op c,symf n main.exe
=>
quiet: false, start: None, references: [], aliases: [] }, warnings: [Warning { line: 1, kind: Disable }, Warning { line: 1, kind: Sort }, Warning { line: 1, kind: Symbols }] })


debug dwarf file a debug watcom all file b name x option q
=>
inputs: [File("a"), File("b")], out: Some("x"), map: None, map_form: Omf, folders: [], object_folders: [], ignore_case: false, order: Meeting, null_bytes: false, stack: None, form: None, default_libraries: true, left_out: [], keep_debug: false, packs_far_data: true, verbose: false, quiet: true


format dos file hello.obj, put.obj name hello.exe op q, m
=>
inputs: [File("hello.obj"), File("put.obj")], out: Some("hello.exe"), map: Some(Beside), map_form: Omf, folders: [], object_folders: [], ignore_case: false, order: Meeting, null_bytes: false, stack: None, form: None, default_libraries: true, left_out: [], keep_debug: false, packs_far_data: true, verbose: false, quiet: true


file main,
     screen,
     keys
library {
  graph.lib
  clibc.lib
}
option
  quiet,
  stack = 2k,
  map = out\main.map
name out\main.exe
system dos
=>
inputs: [File("main"), File("screen"), File("keys"), Library("graph.lib"), Library("clibc.lib")], out: Some("out\\main.exe"), map: Some(At("out\\main.map")), map_form: Omf, folders: [], object_folders: [], ignore_case: false, order: Meeting, null_bytes: false, stack: Some(Stack { bytes: 2048, cuts: true }), form: None, default_libraries: true, left_out: [], keep_debug: false, packs_far_data: true, verbose: false, quiet: true


SYSTEM DOS OPTION QUIET,NODEFAULTLIBS,CASEEXACT LIBPATH \WATCOM\LIB286 LIBRARY NOEMU87,CLIBS FILE A.OBJ NAME A
=>
inputs: [Library("NOEMU87"), Library("CLIBS"), File("A.OBJ")], out: Some("A"), map: None, map_form: Omf, folders: ["\\WATCOM\\LIB286"], object_folders: [], ignore_case: false, order: Meeting, null_bytes: false, stack: None, form: None, default_libraries: false, left_out: [], keep_debug: false, packs_far_data: true, verbose: false, quiet: true


n prog f {main.obj util.obj keys.obj} l {clibs.lib math87s.lib} op m,st=0x1000,q sys dos
=>
inputs: [File("main.obj"), File("util.obj"), File("keys.obj"), Library("clibs.lib"), Library("math87s.lib")], out: Some("prog"), map: Some(Beside), map_form: Omf, folders: [], object_folders: [], ignore_case: false, order: Meeting, null_bytes: false, stack: Some(Stack { bytes: 4096, cuts: true }), form: None, default_libraries: true, left_out: [], keep_debug: false, packs_far_data: true, verbose: false, quiet: true


option quiet
debug dwarf
file units/prt0t.o
library arith.a
library units/system.a
format dos com
order clname CODE clname DATA clname BSS
name arith.com
=>
inputs: [File("units/prt0t.o"), Library("arith.a"), Library("units/system.a")], out: Some("arith.com"), map: None, map_form: Omf, folders: [], object_folders: [], ignore_case: false, order: Listed([Class("CODE"), Class("DATA"), Class("BSS")]), null_bytes: false, stack: None, form: Some(Com), default_libraries: true, left_out: [], keep_debug: false, packs_far_data: true, verbose: false, quiet: true


format dos exe option nocaseexact, farcalls, statics, stack=0x800 file {main.o io.o} name main
=>
inputs: [File("main.o"), File("io.o")], out: Some("main"), map: None, map_form: Omf, folders: [], object_folders: [], ignore_case: true, order: Meeting, null_bytes: false, stack: Some(Stack { bytes: 2048, cuts: true }), form: Some(Exe)


system dos file hello.obj option map, stack=4096 library c:\watcom\lib286\dos\clibs.lib name hello.exe
=>
inputs: [File("hello.obj"), Library("c:\\watcom\\lib286\\dos\\clibs.lib")], out: Some("hello.exe"), map: Some(Beside)


sys dos libpath \watcom\lib286;\watcom\lib286\dos f main lib clibs n main
=>
inputs: [File("main"), Library("clibs")], out: Some("main"), map: None, map_form: Omf, folders: ["\\watcom\\lib286", "\\watcom\\lib286\\dos"]


name tsr format dos com option start=begin file tsr.obj
=>
inputs: [File("tsr.obj")], out: Some("tsr"), map: None


debug watcom all option quiet, mangled name test.exe file {a.obj b.obj c.obj} library {graph.lib clibl.lib}
=>
warnings: [Warning { line: 1, kind: Option }] })


f obj\main,obj\util p ..\shared\obj libp ..\lib l util op nod,cache n bin\main.exe
=>
inputs: [File("obj\\main"), File("obj\\util"), Library("util")], out: Some("bin\\main.exe"), map: None, map_form: Omf, folders: ["..\\lib"], object_folders: ["..\\shared\\obj"], ignore_case: false, order: Meeting, null_bytes: false, stack: None, form: None, default_libraries: false


debug watcom all
name game
libpath ..\lib
library sound, video
file {
  game.obj
  sprite.obj  # drawn
  joy.obj
}
system dos
option map=game.map
option stack=6k
option caseignore
=>
inputs: [Library("sound"), Library("video"), File("game.obj"), File("sprite.obj"), File("joy.obj")], out: Some("game"), map: Some(At("game.map")), map_form: Omf, folders: ["..\\lib"], object_folders: [], ignore_case: true, order: Meeting, null_bytes: false, stack: Some(Stack { bytes: 6144, cuts: true })


n b:\test f a:test.obj op q,m=b:\test.map sys dos
=>
inputs: [File("a:test.obj")], out: Some("b:\\test"), map: Some(At("b:\\test.map")), map_form: Omf, folders: [], object_folders: [], ignore_case: false, order: Meeting, null_bytes: false, stack: None, form: None, default_libraries: true, left_out: [], keep_debug: false, packs_far_data: true, verbose: false, quiet: true"##;
    hold(&rt, rt.alloc(), table);
}

#[test]
fn refuses_commands(rt: HostRuntime) {
    let table = r##"system dos4g name main file main,util option stack=64k
=>
Err(Line { line: 1, text: "dos4g", kind: NotDos })


name main format os2 le file main option stack=8k
=>
Err(Line { line: 1, text: "os2", kind: NotDos })


name app system windows file app library windows,clibs option stack=16k
=>
Err(Line { line: 1, text: "windows", kind: NotDos })


system dos name x option q, heapsize=4k file x
=>
Err(Line { line: 1, text: "heapsize", kind: UnknownOption })


system dos name x file main import _GetVersion kernel.1
=>
Err(Line { line: 1, text: "import", kind: UnknownDirective })


system dos file main util name x
=>
Err(Line { line: 1, text: "util", kind: UnknownDirective })


sys dos op st=128k n x f main
=>
Err(Line { line: 1, text: "st", kind: WrongOperands })


sys dos f main, n x
=>
Err(Line { line: 1, text: "x", kind: UnknownDirective })


sys dos f {main util n x op q
=>
Err(Line { line: 1, text: "f", kind: WrongOperands })


system dos file root begin section file a section file b end name x
=>
Err(Line { line: 1, text: "begin", kind: UnknownDirective })


output hex name rom.hex file rom
=>
Err(Line { line: 1, text: "hex", kind: WrongOperands })


file main.obj
option quiet
name 'main.exe
=>
Err(Line { line: 3, text: "name 'main.exe", kind: UnclosedQuote })


system dos name x file main option map game.map
=>
Err(Line { line: 1, text: "game.map", kind: UnknownDirective })"##;
    hold(&rt, rt.alloc(), table);
}
