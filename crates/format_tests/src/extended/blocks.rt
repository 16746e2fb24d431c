//! The blocks of repeated data of 32 bits, as values.

use omf_extended::parse_wide_repeated;
use std::test::*;

/// A body's hexadecimal digits, and what it says: a content, blocks in a block, none, and where a body is wrong.
#[test]
fn blocks(rt: HostRuntime) -> Result<(), Fail> {
    let rows = "\
0140000000030000000000024041 => WideRepeated { segment: 1, offset: 64, blocks: [\
Content { repeat: 3, bytes: [64, 65] }] }
0100000100020001000200030000000000024041020000000000025051 => WideRepeated { segment: 1, offset: 65536, blocks: [\
Nested { repeat: 65538, blocks: [Content { repeat: 3, bytes: [64, 65] }, Content { repeat: 2, bytes: [80, 81] }] }] }
0100000000 => WideRepeated { segment: 1, offset: 0, blocks: [] }
01000000000300000000000240 => Body { at: 13 }
010000000002000000020003000000000002404102 => Body { at: 21 }
01000000 => Body { at: 4 }";
    for row in rows.split('\n') {
        let (digits, wanted) = row.split_once(" => ").unwrap_or((row, "no answer"));
        let body = hex::decode(rt.alloc(), digits)?;
        let told = match parse_wide_repeated(rt.alloc(), &body) {
            Ok(said) => format!(in rt.alloc(); "{said:?}")?,
            Err(fault) => format!(in rt.alloc(); "{fault:?}")?,
        };
        assert_eq!(rt; told.as_str(), wanted);
    }
    Ok(())
}
