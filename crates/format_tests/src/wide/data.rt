//! Data of 32 bits, whatever its offset.

use omf_wide::parse_wide_data;
use std::test::*;

/// A body's hexadecimal digits, and what it says, or where it is wrong.
#[test]
fn data(rt: HostRuntime) -> Result<(), Fail> {
    let rows = "\
0134120000AABB => WideData { segment: 1, offset: 4660, bytes: [170, 187] }
81FF00000100 => WideData { segment: 511, offset: 65536, bytes: [] }
01FFFFFFFFAA => WideData { segment: 1, offset: 4294967295, bytes: [170] }
01000000 => Body { at: 4 }
81 => Body { at: 1 }";
    for row in rows.split('\n') {
        let (digits, wanted) = row.split_once(" => ").unwrap_or((row, "no answer"));
        let body = hex::decode(rt.alloc(), digits)?;
        let told = match parse_wide_data(rt.alloc(), &body) {
            Ok(said) => format!(in rt.alloc(); "{said:?}")?,
            Err(fault) => format!(in rt.alloc(); "{fault:?}")?,
        };
        assert_eq!(rt; told.as_str(), wanted);
    }
    Ok(())
}
