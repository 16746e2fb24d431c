use omf_words::parse_words;
use std::alloc::{AllocError, Global};
use std::process::Abort;

/// The answer to a line of words, printed. The first word is the program's, and a space more an empty one.
fn answer(alloc: Global, line: &str) -> Result<String, AllocError> {
    let words: Vec<&str> = line.split(' ').skip(1).collect(alloc)?;
    format!(in alloc; "{:?}", parse_words(alloc, &words))
}

/// The answers to the lines of a table are of this kind, and each has the part that stands below its line.
fn hold<R: Abort>(rt: &R, alloc: Global, kind: &str, table: &str) {
    for row in table.split("\n\n") {
        let (line, part) = row.split_once(" =>\n").unwrap_or((row, row));
        let printed = answer(alloc, line).expect(rt, "text");
        assert!(rt;
            printed.as_str().starts_with(kind) && printed.as_str().contains(part),
            "{row}: {printed}"
        );
    }
}

#[test]
fn reads_each_subcommand(rt: HostRuntime) {
    let taken = r#"omf show A.OBJ =>
Ok(Show { file: "A.OBJ" })

omf check A.OBJ =>
Ok(Check { file: "A.OBJ" })

omf rewrite A.OBJ B.OBJ =>
Ok(Rewrite { from: "A.OBJ", to: "B.OBJ" })

omf link A -o P B =>
Ok(Link { out: "P", map: None, ignore_case: false, files: ["A", "B"] })

omf link -oP A =>
Ok(Link { out: "P", map: None, ignore_case: false, files: ["A"] })

omf load P 1234 =>
Ok(Load { file: "P", digits: "1234", paragraph: 4660 })

omf load P aBcD =>
Ok(Load { file: "P", digits: "aBcD", paragraph: 43981 })

omf rewrite -- -a B =>
Ok(Rewrite { from: "-a", to: "B" })

omf rewrite A  =>
Ok(Rewrite { from: "A", to: "" })"#;
    hold(&rt, rt.alloc(), "Ok(", taken);
}

#[test]
fn reads_the_path_of_a_map(rt: HostRuntime) {
    let taken = r#"omf link -m M -o P A B =>
Ok(Link { out: "P", map: Some("M"), ignore_case: false, files: ["A", "B"] })

omf link -o P -m M A B =>
Ok(Link { out: "P", map: Some("M"), ignore_case: false, files: ["A", "B"] })

omf link -o P A -m M B =>
Ok(Link { out: "P", map: Some("M"), ignore_case: false, files: ["A", "B"] })

omf link A B -m M -o P =>
Ok(Link { out: "P", map: Some("M"), ignore_case: false, files: ["A", "B"] })

omf link A B -oP -mM =>
Ok(Link { out: "P", map: Some("M"), ignore_case: false, files: ["A", "B"] })

omf link -m=M -o=P A B =>
Ok(Link { out: "P", map: Some("M"), ignore_case: false, files: ["A", "B"] })

omf link -o P -m  A =>
Ok(Link { out: "P", map: Some(""), ignore_case: false, files: ["A"] })

omf link -o P -- A -m =>
Ok(Link { out: "P", map: None, ignore_case: false, files: ["A", "-m"] })"#;
    hold(&rt, rt.alloc(), "Ok(", taken);
}

#[test]
fn reads_whether_case_counts(rt: HostRuntime) {
    let taken = r#"omf link --ignore-case -o P A B =>
Ok(Link { out: "P", map: None, ignore_case: true, files: ["A", "B"] })

omf link -o P --ignore-case A B =>
Ok(Link { out: "P", map: None, ignore_case: true, files: ["A", "B"] })

omf link A --ignore-case B -o P =>
Ok(Link { out: "P", map: None, ignore_case: true, files: ["A", "B"] })

omf link -o P A B --ignore-case =>
Ok(Link { out: "P", map: None, ignore_case: true, files: ["A", "B"] })

omf link -o P -- A --ignore-case =>
Ok(Link { out: "P", map: None, ignore_case: false, files: ["A", "--ignore-case"] })"#;
    hold(&rt, rt.alloc(), "Ok(", taken);
}

#[test]
fn refuses_with_the_texts_of_the_parser(rt: HostRuntime) {
    let refused = r"omf show A B =>
error: unexpected argument 'B' found

omf show =>
Usage: omf show <FILE>\n

omf check =>
Usage: omf check <FILE>\n

omf rewrite A =>
Usage: omf rewrite <IN> <OUT>\n

omf link -o P.EXE =>
not provided:\n  <FILES>...\n\nUsage: omf link -o <OUT> <FILES>...\n

omf link A.OBJ =>
not provided:\n  -o <OUT>\n

omf link -m M A.OBJ =>
not provided:\n  -o <OUT>\n

omf link -o P -m M =>
not provided:\n  <FILES>...\n

omf link -o P -m M -m N A =>
the argument '-m <MAP>' cannot be used multiple times

omf link -o P A -m =>
a value is required for '-m <MAP>' but none was supplied

omf link -m -o P A =>
a value is required for '-m <MAP>' but none was supplied

omf link --ignore-case -o P A --ignore-case =>
the argument '--ignore-case' cannot be used multiple times

omf link --ignore-case=yes -o P A =>
unexpected value 'yes' for '--ignore-case' found

omf load P.EXE =>
Usage: omf load <FILE> <PARAGRAPH>\n

omf load P.EXE 12345 =>
omf: wrong words\n

omf load P.EXE 123G =>
omf: wrong words\n

omf what =>
error: unrecognized subcommand 'what'

omf =>
Usage: omf <COMMAND>\n";
    hold(&rt, rt.alloc(), "Err(Wrong(", refused);
}

#[test]
fn helps_with_the_texts_of_the_parser(rt: HostRuntime) {
    let told = "omf --version =>\nomf 1.0\\n\n\nomf -V =>\nomf 1.0\\n";
    hold(&rt, rt.alloc(), "Err(Help(", told);
    let helped = r"omf -h =>
Usage: omf <COMMAND>\n

omf --help =>
Usage: omf <COMMAND>\n

omf help =>
Usage: omf <COMMAND>\n

omf help rewrite =>
Usage: omf rewrite <IN> <OUT>\n

omf help link =>
Usage: omf link [OPTIONS] -o <OUT> <FILES>...\n

omf link -h =>
  -m <MAP>           The map to write after it, another file than OUT\n

omf help link =>
\n\nExit status: 0 all is done, 1 an input is at fault,

omf help =>
docs/FAULTS.md\nand the man page say

omf link -h =>
--ignore-case  Names agree without regard to case: for Pascal, and assemblers that write capitals\n

omf rewrite --help =>
Usage: omf rewrite <IN> <OUT>\n";
    hold(&rt, rt.alloc(), "Err(Help(", helped);
}

/// The link of so many files, and the row that it is.
fn link_of(alloc: Global, count: usize, part: &str) -> Result<String, AllocError> {
    let files = " A.OBJ".repeat(alloc, count)?;
    format!(in alloc; "omf link -o P.EXE{files} =>\n{part}")
}

#[test]
fn refuses_too_many_files(rt: HostRuntime) {
    let files = r#", "A.OBJ""#
        .repeat(rt.alloc(), 65_534)
        .expect(&rt, "text");
    hold(
        &rt,
        rt.alloc(),
        "Ok(Link {",
        &link_of(rt.alloc(), 65_535, &files).expect(&rt, "text"),
    );
    let refused = link_of(rt.alloc(), 65_536, r"omf: wrong words\n").expect(&rt, "text");
    hold(&rt, rt.alloc(), "Err(Wrong(", &refused);
}
