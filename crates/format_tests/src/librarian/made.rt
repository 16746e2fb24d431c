//! Libraries that are made of modules.
//!
//! A row of the table is modules and behind `= ` the library of them with pages of 16 bytes, or the fault. Each name
//! that members have again stands behind it, with the indexes of both.

use omf_librarian::{LibrarianFault, Library, library_bytes};
use refusing::refuse_each;
use rows::{Row, push_bytes, push_text, read_row, same};
use std::alloc::{AllocError, Allocator, Global};
use std::test::*;

/// What is told of a library.
fn told_library<A: Allocator + Copy>(
    words: Global,
    library: Result<Library<A>, LibrarianFault>,
) -> Result<String, AllocError> {
    let mut text = format!(in words; "")?;
    match library {
        Ok(library) => {
            push_bytes(&mut text, &library.bytes)?;
            for doubled in &library.doubled {
                text.push_str(", ")?;
                push_text(&mut text, &doubled.name)?;
                write!(text, " {} {}", doubled.first, doubled.second)?;
            }
        }
        Err(fault) => write!(text, "{fault}")?,
    }
    Ok(text)
}

/// What is told of the library of a row's modules.
fn told<A: Allocator + Copy>(alloc: A, words: Global, row: &Row<'_>) -> Result<String, AllocError> {
    let mut members: Vec<&[u8]> = Vec::new(words);
    for input in &row.inputs {
        members.push(input)?;
    }
    told_library(words, library_bytes(alloc, &members, None))
}

/// Goes over a table.
fn run(alloc: Global, table: &str) -> Result<(), Fail> {
    for text in table.split("\n\n") {
        let row = read_row(alloc, text)?;
        same(&told(alloc, alloc, &row)?, row.wanted)?;
    }
    Ok(())
}

/// Three members, worked by hand. In a dictionary of two blocks `A!` and `start` have the first bucket 24 and 33, and
/// `_main`, which two of them have, is at page 1.
const THREE: &str = "\
80 05 41 2E 41 53 4D
90 00 01 05 5F 6D 61 69 6E 00 00 00
90 00 01 05 73 74 61 72 74 00 00 00
8A 00
--
80 0A 43 3A 5C 53 52 43 5C 42 2E 43
90 00 01 02 5F 62 00 00 00
8A 00
--
80 00
90 00 01 05 5F 6D 61 69 6E 00 00 00
90 00 01 02 5F 63 00 00 00
8A 00
=  F0 0D 00*2 02 00*2 02 00 01 00*6 80 07 00 05 41 2E 41 53 4D 24 90 0C 00*2 01 05 5F 6D 61 69 6E 00*3 \
5A 90 0C 00*2 01 05 73 74 61 72 74 00*3 30 8A 02 00*2 74 00*3 80 0C 00 0A 43 3A 5C 53 52 43 5C 42 \
2E 43 9A 90 09 00*2 01 02 5F 62 00*3 A3 8A 02 00*2 74 80 02 00*2 7E 90 0C 00*2 01 05 5F 6D 61 69 6E \
00*3 5A 90 09 00*2 01 02 5F 63 00*3 A2 8A 02 00*2 74 00*11 F1 6D 01 00*390 17 00*7 13 00*3 1A 05 73 \
74 61 72 74 01 00 02 42 21 04 00*469 16 1D 00*6 1A 00*8 13 00*12 20 02 41 21 01 00*2 05 5F 6D 61 69 \
6E 01 00 02 5F 62 04 00*2 02 5F 63 06 00*450, _main 0 2";

#[test]
fn three_members(rt: HostRuntime) -> Result<(), Fail> {
    run(rt.alloc(), THREE)
}

#[test]
fn faults_of_members(rt: HostRuntime) -> Result<(), Fail> {
    run(
        rt.alloc(),
        "\
8A 00
--
raw 88 02 00 00 76
= member 1: it begins with no record that heads a module

raw 80 02 00 00 7E
= member 0, place 5: the library ends inside it or before it

raw 80 02 00 00 7E 8A 02 00 00 75
= member 0, place 5: its closing byte is wrong",
    )
}

#[test]
fn refused_growths(rt: HostRuntime) -> Result<(), Fail> {
    let row = read_row(rt.alloc(), THREE)?;
    let words = rt.alloc();
    let (wants, _) = refuse_each(rt.alloc(), row.wanted, |heap| Ok(told(heap, words, &row)?))?;
    same(if 10 < wants { "many" } else { "few" }, "many")
}
