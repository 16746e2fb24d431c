use super::answers::{Ask, encode_if_fits, hold, read};
use omf_record::{Record, RecordFault};
use refusing::Refusing;
use std::alloc::{AllocError, Allocator, Global};

/// Appends the record's body, and tells whether that was done.
fn append<A: Allocator + Copy>(record: &Record<'_, A>, out: &mut Vec<u8, A>) -> &'static str {
    if encode_if_fits(record, out) {
        "done"
    } else {
        "writing"
    }
}

/// Reads the record, appends its canonical body, and tells how far that came.
fn rewrite<A: Allocator + Copy>(
    alloc: A,
    kind: u8,
    body: &[u8],
    out: &mut Vec<u8, A>,
) -> &'static str {
    match read(alloc, kind, body) {
        Ok(record) => append(&record, out),
        Err(RecordFault::Memory) => "reading",
        Err(_) => "another fault",
    }
}

/// How far the record comes on this heap, and what then stands in the vector that it is written to
/// behind three bytes.
fn reached<A: Allocator + Copy>(
    alloc: Global,
    heap: A,
    kind: u8,
    body: &[u8],
) -> Result<String, AllocError> {
    let mut out = Vec::new(heap);
    let word = if out.extend_from_slice(&[7, 8, 9]).is_ok() {
        rewrite(heap, kind, body, &mut out)
    } else {
        "beginning"
    };
    format!(in alloc; "{word} {out:?}")
}

/// How far the record comes as each growth in turn is refused, and at last none is.
pub fn growths(alloc: Global, kind: u8, body: &[u8]) -> Result<String, AllocError> {
    let mut told = String::new(alloc);
    for number in 1..100 {
        let heap = Refusing::nth(alloc, number);
        told.push_str(&reached(alloc, &heap, kind, body)?)?;
        if !heap.has_refused() {
            break;
        }
        told.push_str(", ")?;
    }
    Ok(told)
}

/// Twice five blocks, one of which holds a block, and two names. After a refusal the vector is as it was, whatever was
/// written before.
#[test]
fn each_growth_is_refused(rt: HostRuntime) {
    let rows = "\
A2010000020005000100000001410100000001420300010001000000024344010000000145010000000146 => \
beginning [], reading [7, 8, 9], reading [7, 8, 9], reading [7, 8, 9], reading [7, 8, 9], \
writing [7, 8, 9], writing [7, 8, 9], writing [7, 8, 9], \
done [7, 8, 9, 1, 0, 0, 2, 0, 5, 0, 1, 0, 0, 0, 1, 65, 1, 0, 0, 0, 1, 66, \
3, 0, 1, 0, 1, 0, 0, 0, 2, 67, 68, 1, 0, 0, 0, 1, 69, 1, 0, 0, 0, 1, 70]
90000101410000000142050000 => \
beginning [], reading [7, 8, 9], writing [7, 8, 9], \
done [7, 8, 9, 0, 1, 1, 65, 0, 0, 0, 1, 66, 5, 0, 0]";
    hold(&rt, rt.alloc(), Ask::Growths, rows);
}
