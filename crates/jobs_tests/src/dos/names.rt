//! Paths with `\`, and the names of folders that are meant.

use dos_names::{choice_of, with_slashes};
use std::alloc::{AllocError, Global};
use std::test::*;

/// Names that are wanted, each with those of a folder behind `:`, and which of them are the same.
const CHOICES: &str = r#"MAIN.OBJ:main.obj util.obj
One("main.obj")

main.obj:util.obj MAIN.OBJ
One("MAIN.OBJ")

main.obj:
Nothing

main.obj:main main.ob xmain.obj main.objx main obj main_obj
Nothing

cs.lib:CS.LIB cl.lib Cs.Lib cs.LIB
Two("CS.LIB", "Cs.Lib")

größe:GRößE GRÖSSE
One("GRößE")

größe:GRÖßE
Nothing

[@`{:{@`[ [@`{
One("[@`{")"#;

/// The answer to the names of a row, printed.
fn answer(alloc: Global, row: &str) -> Result<String, AllocError> {
    let (wanted, names) = row.split_once(':').unwrap_or((row, ""));
    let names: Vec<&str> = names.split(' ').collect(alloc)?;
    format!(in alloc; "{:?}", choice_of(wanted, &names))
}

#[test]
fn chooses_a_name(rt: HostRuntime) {
    for row in CHOICES.split("\n\n") {
        let (names, wanted) = row.split_once('\n').unwrap_or((row, row));
        assert_eq!(rt;
            answer(rt.alloc(), names).expect(&rt, "text").as_str(),
            wanted
        );
    }
}

#[test]
fn parts_folders(rt: HostRuntime) {
    for (path, wanted) in [
        (r"..\LIB\cs.lib", "../LIB/cs.lib"),
        (r"\A/B\", "/A/B/"),
        (r"C:größe\\x", "C:größe//x"),
        ("", ""),
    ] {
        let made = with_slashes(rt.alloc(), path).expect(&rt, "text");
        assert_eq!(rt; made.as_str(), wanted);
    }
}
