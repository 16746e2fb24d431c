//! Each growth refused in turn.

use super::files::{What, file_of, told};
use refusing::refuse_each;
use rows::same;
use std::alloc::Global;
use std::test::*;

/// What is told of a file where a growth is refused is want of memory, and where none is, what is wanted.
fn refused(alloc: Global, what: What, lines: &str, wanted: &str) -> Result<(), Fail> {
    let file = file_of(alloc, lines)?;
    let (_, made_do) = refuse_each(alloc, wanted, |heap| {
        Ok(told(heap, alloc, what, &file, wanted)?)
    })?;
    same(&format!(in alloc; "{made_do} made do")?, "0 made do")
}

#[test]
fn refused_growths(rt: HostRuntime) -> Result<(), Fail> {
    let library = "lib 16\n80 01 41\n8A 00\npad 16\nraw F1";
    refused(rt.alloc(), What::Members, library, "[16 11 A]")?;
    let archive = "text !<arch>\nar a.o/ 1\nraw 41";
    refused(rt.alloc(), What::Members, archive, "[68 1 a.o]")?;
    refused(rt.alloc(), What::Members, "raw 41", "[0 1 ]")?;
    let module =
        "96 01 61\n8C 01 62 00\n90 00 01 01 63 00 00 00\nBC 01 00\n88 00 9F 6C\nC6 01 64 01 65\nB0 01 66 00 62 01";
    let names = "wants b a, offers c d, communal f, d for e at 37, libraries l";
    refused(rt.alloc(), What::Names, module, names)?;
    refused(rt.alloc(), What::Places, module, "a 24, b 6, c -")?;
    let weak = "8C 01 66 00 01 67 00\n88 00 A8 01 02";
    refused(
        rt.alloc(),
        What::Names,
        weak,
        "wants g, externals f g, offers, libraries",
    )
}
