//! The words of the command line.
use doslink_words::parse_words;
use std::alloc::{AllocError, Global};
use std::process::Abort;

/// The answer to a line of words, printed. The first word is the program's.
fn answer(alloc: Global, line: &str) -> Result<String, AllocError> {
    let words: Vec<&str> = line.split(' ').skip(1).collect(alloc)?;
    format!(in alloc; "{:?}", parse_words(alloc, &words))
}

/// The answer to each line of a table has the part that stands below it.
fn hold<R: Abort>(rt: &R, alloc: Global, table: &str) {
    for row in table.split("\n\n") {
        let (line, part) = row.split_once(" =>\n").unwrap_or((row, "no part"));
        let printed = answer(alloc, line).expect(rt, "text");
        assert!(rt; printed.as_str().contains(part), "{row}: {printed}");
    }
}

#[test]
fn reads_words(rt: HostRuntime) {
    let table = r#"doslink A.OBJ =>
Ok(Job { inputs: [File("A.OBJ")], out: None, map: None, map_form: Omf, folders: [], object_folders: [], ignore_case: false, order: Meeting, null_bytes: true, stack: None, form: None, default_libraries: true, left_out: [], keep_debug: false, packs_far_data: false, verbose: false, quiet: false, start: None, references: [], aliases: [] })

doslink -o P -m M A B =>
inputs: [File("A"), File("B")], out: Some("P"), map: Some(At("M")), map_form: Omf, folders: []

doslink -L X A -L Y -lC -l D.LIB B =>
inputs: [File("A"), Library("C"), Library("D.LIB"), File("B")], out: None, map: None, map_form: Omf, folders: ["X", "Y"],

doslink --ignore-case -v A --no-default-libs =>
ignore_case: true, order: Meeting, null_bytes: true, stack: None, form: None, default_libraries: false, left_out: [], keep_debug: false, packs_far_data: false, verbose: true, quiet: false

doslink --keep-debug A =>
keep_debug: true, packs_far_data: false

doslink -l L1.LIB A.OBJ L0.LIB =>
inputs: [Library("L1.LIB"), File("A.OBJ"), File("L0.LIB")]

doslink A -vl=B -o-lC -vlD =>
error: the argument '-v' cannot be used multiple times

doslink A -vl=B -o C - -lD -m E -L F G =>
inputs: [File("A"), Library("B"), File("-"), Library("D"), File("G")], out: Some("C"), map: Some(At("E")), map_form: Omf, folders: ["F"]

doslink --order X --stack 2 A --keep-debug -l B -- -l -o --stack B =>
inputs: [File("A"), Library("B"), File("-l"), File("-o"), File("--stack"), File("B")]

doslink -lA A -l A A -L A -l A =>
inputs: [Library("A"), File("A"), Library("A"), File("A"), Library("A")]

doslink --order DosSeg A =>
order: Dosseg, null_bytes: true

doslink --order dosseg-NONULLS A =>
order: Dosseg, null_bytes: false

doslink --stack 1 A =>
stack: Some(Stack { bytes: 1, cuts: false })

doslink --stack=0x800 A =>
stack: Some(Stack { bytes: 2048, cuts: false })

doslink --stack 0 A =>
Err(Wrong("error: invalid value '0' for '--stack <N>': a stack has 1 to 65,536 bytes\n\nFor more information, try '--help'.\n"))

doslink --stack 65537 A =>
invalid value '65537'

doslink --stack=-1 A =>
invalid value '-1'

doslink --form com A =>
order: Meeting, null_bytes: false, stack: None, form: Some(Com)

doslink A --form=EXE =>
null_bytes: true, stack: None, form: Some(Exe)

doslink --form Sys --order dosseg A =>
order: Dosseg, null_bytes: false, stack: None, form: Some(Driver)

doslink --form bin --order dosseg A =>
order: Dosseg, null_bytes: false, stack: None, form: Some(Raw { paragraph: 0, from: 0 })

doslink --order dosseg --form com A =>
order: Dosseg, null_bytes: false, stack: None, form: Some(Com)

doslink --form bin A =>
form: Some(Raw { paragraph: 0, from: 0 })

doslink --at 07C0 --form bin A =>
form: Some(Raw { paragraph: 1984, from: 0 })

doslink --form bin --at 0xffFF A =>
form: Some(Raw { paragraph: 65535, from: 0 })

doslink --form bin --at 00000001 A =>
form: Some(Raw { paragraph: 1, from: 0 })

doslink --form bin --at 10000 A =>
Err(Wrong("error: invalid value '10000' for '--at <PARAGRAPH>': with '--form bin' a hexadecimal number from 0 to FFFF\n\nFor more information, try '--help'.\n"))

doslink --form bin --at 7C0H A =>
invalid value '7C0H' for '--at <PARAGRAPH>'

doslink --form bin --at 0x A =>
invalid value '0x' for '--at <PARAGRAPH>'

doslink --at 0 A =>
invalid value '0' for '--at <PARAGRAPH>'

doslink --form com --at 0 A =>
invalid value '0' for '--at <PARAGRAPH>'

doslink --form hex A =>
Err(Wrong("error: invalid value 'hex' for '--form <FORM>': a form is exe, com, bin or sys\n\nFor more information, try '--help'.\n"))

doslink --form hex --at x A =>
invalid value 'hex' for '--form <FORM>'

doslink --form hex --stack 0 A =>
invalid value '0' for '--stack <N>'

doslink --form com -l B A --map-form tlink -l C D --form bin -l E F --at 1 -l G H =>
error: the argument '--form <FORM>' cannot be used multiple times

doslink --form bin -l B A --map-form tlink -l C D --at 1 -l E F =>
inputs: [Library("B"), File("A"), Library("C"), File("D"), Library("E"), File("F")]

doslink --map-form omf A =>
map: None, map_form: Omf

doslink --map-form LINK -m M A =>
map: Some(At("M")), map_form: Link { line_numbers: false }

doslink A --map-form=TLink =>
map: None, map_form: Tlink { line_numbers: false, details: false }

doslink --map-form wlink A =>
Err(Wrong("error: invalid value 'wlink' for '--map-form <NAME>': a map's form is omf, link or tlink\n\nFor more information, try '--help'.\n"))

doslink --map-form x --form hex A =>
invalid value 'hex' for '--form <FORM>'

doslink --version =>
Err(Help("doslink 1.0\n"))

doslink -V =>
Err(Help("doslink 1.0\n"))

doslink help =>
Err(Help("Links what compilers for DOS write, with libraries, into an MS-DOS program\n

doslink help A =>
inputs: [File("help"), File("A")]

doslink --order CODE,DATA,,BSS A =>
order: Listed([Class("CODE"), Class("DATA"), Class(""), Class("BSS")])

doslink -o P =>
Err(Wrong("error: the following required arguments were not provided:\n  <FILES>...\n

doslink --order =>
Err(Wrong("error: a value is required for '--order <ORDER>' but none was supplied\n

doslink -o P -o Q A =>
Err(Wrong("error: the argument '-o <OUT>' cannot be used multiple times\n

doslink -x A =>
Err(Wrong("error: unexpected argument '-x' found\n

doslink --help =>
Err(Help("Links what compilers for DOS write, with libraries, into an MS-DOS program\n\nUsage: doslink [OPTIONS] <FILES>...\n"#;
    hold(&rt, rt.alloc(), table);
}

#[test]
fn shows_help(rt: HostRuntime) {
    let words = ["--help"];
    let printed = match parse_words(rt.alloc(), &words) {
        Err(fault) => format!(in rt.alloc(); "{fault}"),
        Ok(_) => format!(in rt.alloc(); "job"),
    };
    println!(rt; "{}", printed.expect(&rt, "text")).unwrap_or(());
}
