//! The directives of a response file, and the words of one.
use doslink_words::{parse_directives, split_words};
use std::alloc::{AllocError, Global};
use std::process::Abort;

/// The answer to the text of a row, printed: to words where it begins with a blank, and else to directives.
fn answer(alloc: Global, text: &str) -> Result<String, AllocError> {
    if text.starts_with(' ') {
        return format!(in alloc; "{:?}", split_words(alloc, text));
    }
    format!(in alloc; "{:?}", parse_directives(alloc, text))
}

/// The answer to each row of a table has the part that stands below its text.
pub(crate) fn hold<R: Abort>(rt: &R, alloc: Global, table: &str) {
    for row in table.split("\n\n\n") {
        let (text, part) = row.split_once("\n=>\n").unwrap_or((row, "no part"));
        let printed = answer(alloc, text).expect(rt, "text");
        assert!(rt; printed.as_str().contains(part), "{row}: {printed}");
    }
}

#[test]
fn reads_what_compilers_write(rt: HostRuntime) {
    let table = r##"option quiet
debug dwarf
file rtl/large/prt0l.o
library hello.a
library rtl/large/system.a
format dos
order clname CODE clname FAR_DATA clname BEGDATA segment _NULL segment _AFTERNULL clname DATA clname BSS clname STACK clname HEAP
name hello.exe
=>
Ok(Directives { job: Job { inputs: [File("rtl/large/prt0l.o"), Library("hello.a"), Library("rtl/large/system.a")], out: Some("hello.exe"), map: None, map_form: Omf, folders: [], object_folders: [], ignore_case: false, order: Listed([Class("CODE"), Class("FAR_DATA"), Class("BEGDATA"), Segment("_NULL"), Segment("_AFTERNULL"), Class("DATA"), Class("BSS"), Class("STACK"), Class("HEAP")]), null_bytes: false, stack: None, form: None, default_libraries: true, left_out: [], keep_debug: false, packs_far_data: true, verbose: false, quiet: true, start: None, references: [], aliases: [] }, warnings: [] })


# a comment with "a quote

  # another
 FILE 'a b.obj' , "it's.obj",c.obj
=>
inputs: [File("a b.obj"), File("it's.obj"), File("c.obj")]


libpath a,b
Lib c,d
file e
libpath e
library f
=>
inputs: [Library("c"), Library("d"), File("e"), Library("f")], out: None, map: None, map_form: Omf, folders: ["a", "b", "e"], object_folders: [], ignore_case: false,


path obj
=>
folders: [], object_folders: ["obj"], ignore_case: false


PATH \obj;c:\old;..
file a p 'my obj;x' pa "y;" libpath z
=>
inputs: [File("a")], out: None, map: None, map_form: Omf, folders: ["z"], object_folders: ["\\obj", "c:\\old", "..", "my obj", "x", "y", ""], ignore_case: false


option map
=>
map: Some(Beside)


op quiet, map = "a b.map", dosseg, NODEFAULTLIBS
=>
map: Some(At("a b.map")), map_form: Omf, folders: [], object_folders: [], ignore_case: false, order: Dosseg, null_bytes: false, stack: None, form: None, default_libraries: false, left_out: [], keep_debug: false, packs_far_data: true, verbose: false, quiet: true


option ignorecase
=>
ignore_case: true


option nocaseexact, caseexact
=>
ignore_case: false


name a.exe
name b.exe
option dosseg
order clname A
=>
out: Some("b.exe"), map: None, map_form: Omf, folders: [], object_folders: [], ignore_case: false, order: Listed([Class("A")])


option stack=4096
=>
stack: Some(Stack { bytes: 4096, cuts: true })


op st=1, stack=0x2000, STACK=0X1f
=>
stack: Some(Stack { bytes: 31, cuts: true })


option stack=4k,stack=64K
=>
stack: Some(Stack { bytes: 65536, cuts: true })


option stack=0x10k
=>
stack: Some(Stack { bytes: 16384, cuts: true })


option start=_main
=>
quiet: false, start: Some("_main"), references: [], aliases: [] }, warnings: []


op star = 'a b', STARt="_Go#"
=>
stack: None, form: None, default_libraries: true, left_out: [], keep_debug: false, packs_far_data: true, verbose: false, quiet: false, start: Some("_Go#")


op st=5, stac=6, sta=7, start=8
=>
stack: Some(Stack { bytes: 7, cuts: true }), form: None, default_libraries: true, left_out: [], keep_debug: false, packs_far_data: true, verbose: false, quiet: false, start: Some("8")


reference _a
Ref b , "c d", '='
REFERENCE {e
f, alias} reference ''
=>
start: None, references: ["_a", "b", "c d", "=", "e", "f", "alias", ""], aliases: []


alias a=B
A 'c=d' = "e", alias = a
=>
references: [], aliases: [Alias { name: "a", means: "B" }, Alias { name: "c=d", means: "e" }, Alias { name: "alias", means: "a" }]


alias x=y, y=x file z
=>
inputs: [File("z")]


option symfile,verbose
sort global
disable 1023
format DOS exe
=>
warnings: [Warning { line: 1, kind: Symbols }, Warning { line: 1, kind: Option }, Warning { line: 2, kind: Sort }, Warning { line: 3, kind: Disable }]


 a "b c" d'e "f"g,h=i
=>
Ok(["a", "b c", "d'e", "f", "g,h=i"])


 
=>
Ok([])


 a "b
=>
Err(UnclosedQuote)"##;
    hold(&rt, rt.alloc(), table);
}

#[test]
fn refuses_by_line(rt: HostRuntime) {
    let table = r##"file a.obj

modtrace b
=>
Err(Line { line: 3, text: "modtrace", kind: UnknownDirective })


'file' a.obj
=>
kind: UnknownDirective


, a
=>
kind: UnknownDirective


option quiet
  file 'a.obj
=>
Err(Line { line: 2, text: "  file 'a.obj", kind: UnclosedQuote })


file
=>
text: "file", kind: WrongOperands


file a b
=>
text: "b", kind: UnknownDirective


file a,
=>
text: "file", kind: WrongOperands


file a,,b
=>
text: "file", kind: WrongOperands


name a,b
=>
text: ",", kind: WrongOperands


path
=>
text: "path", kind: WrongOperands


path a,b
=>
text: ",", kind: WrongOperands


path {a b}
=>
text: "{", kind: WrongOperands


path a; b
=>
text: "b", kind: UnknownDirective


option
=>
text: "option", kind: WrongOperands


option quiet=1
=>
text: "quiet", kind: WrongOperands


option map=
=>
text: "map", kind: WrongOperands


option stack
=>
text: "stack", kind: WrongOperands


option stack=0
=>
text: "stack", kind: WrongOperands


option stack=65537
=>
kind: WrongOperands


option stack=65k
=>
kind: WrongOperands


option stack=1m
=>
kind: WrongOperands


option stack=+5
=>
kind: WrongOperands


option stack=k
=>
kind: WrongOperands


option stack=0x
=>
kind: WrongOperands


option stack=18446744073709551617
=>
kind: WrongOperands


option 'quiet'
=>
text: "quiet", kind: WrongOperands


option start
=>
Err(Line { line: 1, text: "start", kind: WrongOperands })


option start=a=b
=>
text: "start", kind: WrongOperands


reference
=>
text: "reference", kind: WrongOperands


reference a,
=>
text: "reference", kind: WrongOperands


reference {a
=>
text: "reference", kind: WrongOperands


reference a=b
=>
text: "=", kind: WrongOperands


re a
=>
text: "re", kind: UnknownDirective


alias
=>
text: "alias", kind: WrongOperands


alias a
=>
text: "alias", kind: WrongOperands


alias a=
=>
text: "alias", kind: WrongOperands


alias =a
=>
text: "alias", kind: WrongOperands


alias a=b=c
=>
text: "alias", kind: WrongOperands


alias a=b,
=>
text: "alias", kind: WrongOperands


alias {a=b}
=>
text: "alias", kind: WrongOperands


alias a=b c=d
=>
Err(Line { line: 1, text: "c", kind: UnknownDirective })


alias a,b
=>
text: "alias", kind: WrongOperands


option undefsok
=>
text: "undefsok", kind: UnknownOption


format dos com
=>
form: Some(Com), default_libraries: true


format dos exe
=>
form: Some(Exe), default_libraries: true


Format DOS
system Com
=>
form: Some(Com), default_libraries: true


format dos com
format dos
=>
form: None, default_libraries: true


system com
system dos
=>
form: None, default_libraries: true


output raw
=>
form: Some(Raw { paragraph: 0, from: 0 })


OUTPUT Raw offset=0x7C00
=>
form: Some(Raw { paragraph: 0, from: 31744 })


output raw Offset = '31k'
=>
form: Some(Raw { paragraph: 0, from: 31744 })


output raw offset=1048576
=>
form: Some(Raw { paragraph: 0, from: 1048576 })


output raw
format dos com
=>
form: Some(Com), default_libraries: true


output raw offset=1048577
=>
text: "1048577", kind: WrongOperands


output
=>
text: "output", kind: WrongOperands


output hex
=>
text: "hex", kind: WrongOperands


output raw offset
=>
text: "output", kind: WrongOperands


output raw, offset=1
=>
text: "output", kind: WrongOperands


output raw offset=1 startrec
=>
text: "startrec", kind: UnknownDirective


output raw offset 1 2
=>
text: "output", kind: WrongOperands


output raw start=1
=>
text: "start", kind: UnknownDirective


output raw offset=x
=>
text: "x", kind: WrongOperands


system
=>
text: "system", kind: NotDos


system os2
=>
text: "os2", kind: NotDos


system dos com
=>
text: "com", kind: WrongOperands


system os2 com
=>
text: "os2", kind: NotDos


format dos exe com
=>
text: "com", kind: WrongOperands


format dos sys
=>
text: "sys", kind: NotDos


format com
=>
text: "com", kind: NotDos


format os2
=>
text: "os2", kind: NotDos


format
=>
text: "format", kind: NotDos


order
=>
text: "order", kind: WrongOperands


order segment A
=>
text: "segment", kind: WrongOperands


order clname
=>
text: "clname", kind: WrongOperands


order clname A B
=>
text: "B", kind: UnknownDirective


order clname A type B
=>
text: "type", kind: UnknownDirective"##;
    hold(&rt, rt.alloc(), table);
}

/// The answer to a directive behind whose word a name of so many bytes stands, printed.
fn named(alloc: Global, front: &str, size: usize) -> Result<String, AllocError> {
    let mut text = String::from_str(alloc, front)?;
    for _ in 0..size {
        text.push('n')?;
    }
    answer(alloc, &text)
}

#[test]
fn takes_names_that_a_module_can_have(rt: HostRuntime) {
    for front in [
        "option start=",
        "reference ",
        "reference x,",
        "alias a=",
        "alias a=b, ",
    ] {
        let taken = named(rt.alloc(), front, 255).expect(&rt, "text");
        let is_name = !front.ends_with(", ");
        assert!(&rt;
            taken.as_str().starts_with("Ok") == is_name,
            "{front}: {taken}"
        );
        let refused = named(rt.alloc(), front, 256).expect(&rt, "text");
        assert!(&rt;
            refused.as_str().ends_with("kind: WrongOperands })"),
            "{front}: {refused}"
        );
    }
}
