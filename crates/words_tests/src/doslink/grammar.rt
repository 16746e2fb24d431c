//! Directives that stand one behind the other, lists in braces, and words that are shortened.
use doslink_words::parse_directives;
use std::alloc::{AllocError, Global};

/// The answer to directives, printed.
fn answer(alloc: Global, text: &str) -> Result<String, AllocError> {
    format!(in alloc; "{:?}", parse_directives(alloc, text))
}

#[test]
fn reads_one_behind_the_other(rt: HostRuntime) {
    let table = r##"system dos name x file main,util option quiet
=>
inputs: [File("main"), File("util")], out: Some("x"), map: None


sys com n x f a l b libp c op q, m=x.map, st=2k, dos form dos exe out raw
=>
inputs: [File("a"), Library("b")], out: Some("x"), map: Some(At("x.map")), map_form: Omf, folders: ["c"], object_folders: [], ignore_case: false, order: Dosseg, null_bytes: false, stack: Some(Stack { bytes: 2048, cuts: true }), form: Some(Raw { paragraph: 0, from: 0 })


name
x.exe
file a ,
  b # and
, c#d
lib e
=>
inputs: [File("a"), File("b"), File("c#d"), Library("e")], out: Some("x.exe")


file {a
b,'c d' # e
} lib { } libpath {f g}
=>
inputs: [File("a"), File("b"), File("c d")], out: None, map: None, map_form: Omf, folders: ["f", "g"]


file file name option lib lib
=>
inputs: [File("file"), Library("lib")], out: Some("option")


ord clname A segment B segment C file clname
=>
order: Listed([Class("A"), Segment("B"), Segment("C")])


d watcom lines, ty debug all sort glob alpha disable 1, 2 n x
=>
warnings: [Warning { line: 1, kind: Sort }, Warning { line: 1, kind: Disable }]


option quiet,
 map
, symfile sort
=>
warnings: [Warning { line: 1, kind: Symbols }, Warning { line: 3, kind: Sort }]


op c, nod, symf, v, art, stat, sho, maxe=5
=>
default_libraries: false


op c, ig, cac, nocac, fa, nof
=>
ignore_case: true


op casei, nocasei
=>
ignore_case: false


op casei, noi
=>
ignore_case: false


op ca, nocas
=>
ignore_case: true


op noca
=>
Err(Line { line: 1, text: "noca", kind: UnknownOption })


output raw offset=31k format dos name y
=>
out: Some("y")


name x libfile here
=>
Err(Line { line: 1, text: "libfile", kind: UnknownDirective })


file a
 b c
=>
Err(Line { line: 2, text: "b", kind: UnknownDirective })


name x file {a b
=>
Err(Line { line: 1, text: "file", kind: WrongOperands })


file {a}, b
=>
text: ",", kind: WrongOperands


file {{a}}
=>
text: "{", kind: WrongOperands


op q, undefsok, m
=>
Err(Line { line: 1, text: "undefsok", kind: UnknownOption })


option quiet,
 map=a
,stack=
 65537, symf
=>
Err(Line { line: 3, text: "stack", kind: WrongOperands })


foo
 'a
=>
Err(Line { line: 2, text: " 'a", kind: UnclosedQuote })


op no
=>
text: "no", kind: UnknownOption


libf a
=>
kind: UnknownDirective


outp raw startrec
=>
Err(Line { line: 1, text: "startrec", kind: UnknownDirective })


} a
=>
kind: UnknownDirective"##;
    for row in table.split("\n\n\n") {
        let (text, part) = row.split_once("\n=>\n").unwrap_or((row, "no part"));
        let printed = answer(rt.alloc(), text).expect(&rt, "text");
        assert!(&rt; printed.as_str().contains(part), "{row}: {printed}");
    }
}
