//! Names of publics, under each choice of which agree.

ghost use Rattle.omf_place.specs.Bounded.{IsBounded};

use super::laid::{describe_fault, push_place};
use omf_module::Module;
use omf_place::{Layout, Names, place};
use rows::{Row, read_modules, read_row, same};
use std::alloc::{AllocError, Allocator, Global};
use std::test::*;

/// A name that is asked for: of all modules, or of one.
type Asked<'a> = (Option<usize>, &'a [u8]);

/// What names mean, each its address and frame.
fn meanings<A: Allocator + Copy>(
    words: Global,
    modules: &[Module<A>],
    layout: &Layout<A>,
    asked: &[Asked<'_>],
) -> Result<String, AllocError>
    requires { IsBounded modules.now layout.now }
{
    let mut text = format!(in words; "means")?;
    for (input, name) in asked {
        let means = match input {
            None => layout.public(name),
            Some(input) if *input < modules.len() => layout.local_public(*input, name),
            Some(_) => None,
        };
        match means {
            Some(position) => push_place(&mut text, position)?,
            None => text.push_str(" none")?,
        }
    }
    Ok(text)
}

/// What names mean in modules under a choice of which agree, or the fault.
fn placed<A: Allocator + Copy>(
    alloc: A,
    words: Global,
    names: Names,
    modules: &[Module<A>],
    asked: &[Asked<'_>],
) -> Result<String, AllocError> {
    match place(alloc, modules, names) {
        Ok(layout) => meanings(words, modules, &layout, asked),
        Err(fault) => describe_fault(words, fault),
    }
}

/// That of inputs.
fn answers<A: Allocator + Copy>(
    alloc: A,
    words: Global,
    names: Names,
    inputs: &[Vec<u8>],
    asked: &[Asked<'_>],
) -> Result<String, AllocError> {
    match read_modules(alloc, inputs) {
        Ok(modules) => placed(alloc, words, names, &modules, asked),
        Err(fault) => format!(in words; "{fault}"),
    }
}

/// The answers for inputs are these: where names agree exactly, and in the line behind, where case doesn't count.
fn expect(alloc: Global, row: &Row<'_>, asked: &[Asked<'_>]) -> Result<(), Fail> {
    let exact = answers(alloc, alloc, Names::Exact, &row.inputs, asked)?;
    let folded = answers(alloc, alloc, Names::AsciiFolded, &row.inputs, asked)?;
    let (wanted, wanted_folded) = row.wanted.split_once("\n= ").unwrap_or((row.wanted, ""));
    same(exact.as_str(), wanted)?;
    same(folded.as_str(), wanted_folded)
}

/// The answers of each row of a table are those that are wanted.
fn run(alloc: Global, asked: &[Asked<'_>], table: &str) -> Result<(), Fail> {
    for row in table.split("\n\n") {
        expect(alloc, &read_row(alloc, row)?, asked)?;
    }
    Ok(())
}

/// `x` and `X`, of all modules, of the first and of the second. The publics are `x` at 1, `X` at 2 and `y` at 5, the
/// local ones `x` at 3 and `X` at 4.
#[test]
fn names(rt: HostRuntime) -> Result<(), Fail> {
    run(
        rt.alloc(),
        &[
            (None, b"x"),
            (None, b"X"),
            (Some(0), b"x"),
            (Some(0), b"X"),
            (Some(1), b"x"),
            (Some(1), b"X"),
        ],
        "\
80 01 41
90 00 00 00 00 01 58 02 00 00
= means none =2/=0 none none none none
= means =2/=0 =2/=0 none none none none

80 01 41
90 00 00 00 00 01 78 01 00 00
--
80 01 41
90 00 00 00 00 01 58 02 00 00
= means =1/=0 =2/=0 none none none none
= 25 DuplicatePublic X

# a public, and local ones of two modules, are three
80 01 41
B6 00 00 00 00 01 78 03 00 00
90 00 00 00 00 01 78 01 00 00
--
80 01 41
B6 00 00 00 00 01 58 04 00 00
= means =1/=0 none =3/=0 none none =4/=0
= means =1/=0 =1/=0 =3/=0 =3/=0 =4/=0 =4/=0

# no other module has them
80 01 41
--
80 01 41
B6 00 00 00 00 01 78 03 00 00
= means none none none none =3/=0 none
= means none none none none =3/=0 =3/=0

80 01 41
B6 00 00 00 00 01 78 03 00 00
B6 00 00 00 00 01 58 04 00 00
= means none none =3/=0 =4/=0 none none
= 25 DuplicatePublic X

# the first in the order of records, local or not
80 01 41
B6 00 00 00 00 01 78 03 00 00
90 00 00 00 00 01 79 05 00 00
B6 00 00 00 00 01 78 03 00 00
90 00 00 00 00 01 79 05 00 00
= 25 DuplicatePublic x
= 25 DuplicatePublic x

80 01 41
B6 00 00 00 00 01 78 03 00 00
90 00 00 00 00 01 79 05 00 00
--
80 01 41
90 00 00 00 00 01 79 05 00 00
B6 00 00 00 00 01 78 03 00 00
B6 00 00 00 00 01 78 03 00 00
= 25 DuplicatePublic y
= 25 DuplicatePublic y",
    )
}

/// The bytes beside the letters, and letters above 7FH.
#[test]
fn names_without_case(rt: HostRuntime) -> Result<(), Fail> {
    run(
        rt.alloc(),
        &[
            (None, &[0x40]),
            (None, &[0x60]),
            (None, &[0x5B]),
            (None, &[0x7B]),
            (None, &[0xC9]),
            (None, &[0xE9]),
        ],
        "\
80 01 41
90 00 00 00 00 01 40 00 00 00 01 60 01 00 00 01 5B 02 00 00 01 7B 03 00 00 01 C9 04 00 00 01 E9 05 00 00
= means =0/=0 =1/=0 =2/=0 =3/=0 =4/=0 =5/=0
= means =0/=0 =1/=0 =2/=0 =3/=0 =4/=0 =5/=0",
    )
}

#[test]
fn long_names_that_differ_in_case(rt: HostRuntime) -> Result<(), Fail> {
    run(
        rt.alloc(),
        &[(None, &[b'a'; 255]), (None, &[b'A'; 255])],
        "\
80 01 41
90 00 00 00 00 FF 61*255 06 00 00 FF 41*255 07 00 00
= means =6/=0 =7/=0
= 25 DuplicatePublic AAAAAAAAAAAAAAAAAAAAAAAAAAAAAAAAAAAAAAAAAAAAAAAAAAAAAAAAAAAAAAAAAAAAAAAAAAAAAAAAAAAAAAAAAA\
AAAAAAAAAAAAAAAAAAAAAAAAAAAAAAAAAAAAAAAAAAAAAAAAAAAAAAAAAAAAAAAAAAAAAAAAAAAAAAAAAAAAAAAAAAAAAAAAAAAA\
AAAAAAAAAAAAAAAAAAAAAAAAAAAAAAAAAAAAAAAAAAAAAAAAAAAAAAAAAAAAAAAAA",
    )
}
