//! What comments say, by the hexadecimal digits of their class and the bytes behind it.

use hex::FromHexError;
use omf_comments::{Comment, parse_comment};
use refusing::Refusing;
use std::alloc::{AllocError, Allocator, Global};
use std::process::Abort;

/// What a comment says.
fn read<'a, A: Allocator + Copy + 'a>(
    alloc: A,
    class: u8,
    bytes: &'a [u8],
) -> Result<Option<Comment<'a, A>>, AllocError> {
    parse_comment(alloc, class, bytes)
}

/// The answer for a comment.
fn answer(alloc: Global, comment: &str) -> Result<String, FromHexError> {
    let bytes = hex::decode(alloc, comment)?;
    let (class, text) = bytes
        .split_first()
        .ok_or(FromHexError::InvalidStringLength)?;
    match read(alloc, *class, text)? {
        Some(comment) => Ok(format!(in alloc; "{comment:?}")?),
        None => Ok(format!(in alloc; "none")?),
    }
}

/// What is told is what is wanted.
fn is_told<R: Abort>(rt: &R, told: &str, wanted: &str) {
    assert_eq!(rt; told, wanted);
}

/// Each line of a table is a comment and the answer for it.
fn hold<R: Abort>(rt: &R, alloc: Global, table: &str) {
    for row in table.split('\n') {
        let (comment, wanted) = row.split_once(" => ").unwrap_or((row, "no answer"));
        let told = answer(alloc, comment).expect(rt, "an answer");
        is_told(rt, &told, wanted);
    }
}

/// Texts, classes alone, and what else a class says.
#[test]
fn classes(rt: HostRuntime) {
    let rows = "\
004D53 => Text { class: 0, text: [77, 83] }
9F534C494243 => Text { class: 159, text: [83, 76, 73, 66, 67] }
9D => Text { class: 157, text: [] }
FF2F63 => Text { class: 255, text: [47, 99] }
9E => Bare { class: 158 }
9E00 => none
A6 => Bare { class: 166 }
A1014356 => DebugStyle { version: 1, style: [67, 86] }
A1 => none
A201 => PassSeparator
A202 => none
A20101 => none
A3026162 => Libmod { name: [97, 98] }
A30261 => none
A7018102 => Nopad { segments: [1, 258] }
A781 => none
A801028103048105 => none
A80102810304 => Wkext { externals: [WeakExternal { external: 1, default: 2 }, WeakExternal { external: 259, \
default: 4 }] }
A90102 => Lzext { externals: [WeakExternal { external: 1, default: 2 }] }
A9 => Lzext { externals: [] }
E9421A8D2605612E6173 => none
E9421A8D2605612E61736D => Dependency { time: 6722, date: 9869, name: [97, 46, 97, 115, 109] }
E9 => DependencyEnd
E9421A => none
0200 => none
A500 => none";
    hold(&rt, rt.alloc(), rows);
}

/// Extensions of the format.
#[test]
fn extensions(rt: HostRuntime) {
    let rows = "\
A001000341424303582E590342434400 => none
A001000341424303582E5903424344 => Extension { extension: Import { internal: [65, 66, 67], module: [88, 46, 89], \
entry: Name([66, 67, 68]) } }
A00101034142430158C800 => Extension { extension: Import { internal: [65, 66, 67], module: [88], entry: Ordinal(200) } }
A00102034142430158C800 => none
A001 => none
A002E3014101420700 => Extension { extension: Export { exported: [65], internal: [66], ordinal: Some(7), \
resident: true, no_data: true, parameters: 3 } }
A0021F014100 => Extension { extension: Export { exported: [65], internal: [], ordinal: None, resident: false, \
no_data: false, parameters: 31 } }
A002800141014200 => none
A003FEFF010000 => Extension { extension: Increment { externals: 65534, lines: 1, padding: [0] } }
A004 => Extension { extension: ProtectedLibrary }
A00400 => none
A005010203 => Extension { extension: Directive { flags: 1, pseudo_code: 2, debug: 3 } }
A0050102 => none
A006 => Extension { extension: BigEndian }
A007 => Extension { extension: Precompiled }
A008 => none
A0 => none";
    hold(&rt, rt.alloc(), rows);
}

/// Lists find no memory.
#[test]
fn growths_are_refused(rt: HostRuntime) {
    for class in [0xA7, 0xA8, 0xA9] {
        let heap = Refusing::nth(rt.alloc(), 1);
        assert!(&rt; read(&heap, class, &[1, 2]).is_err());
    }
}
