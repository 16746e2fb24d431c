//! What is answered for a record, as text.

use hex::FromHexError;
use omf_extended::{Extended, ExtendedFault, parse_extended};
use omf_frame::Frame;
use std::alloc::{AllocError, Allocator, Global};
use std::process::Abort;

/// What the record with this type and body says.
pub fn read<'a, A: Allocator + Copy + 'a>(
    alloc: A,
    kind: u8,
    body: &'a [u8],
) -> Result<Extended<'a, A>, ExtendedFault> {
    parse_extended(alloc, &Frame::new(0, kind, &body[..body.len().min(65_534)]))
}

/// What the record says, or its fault.
fn said(alloc: Global, kind: u8, body: &[u8]) -> Result<String, AllocError> {
    match read(alloc, kind, body) {
        Ok(said) => format!(in alloc; "{said:?}"),
        Err(fault) => format!(in alloc; "{fault:?}"),
    }
}

/// The answer for a record, which is the hexadecimal digits of its type and its body.
fn answer(alloc: Global, record: &str) -> Result<String, FromHexError> {
    let bytes = hex::decode(alloc, record)?;
    let (kind, body) = bytes
        .split_first()
        .ok_or(FromHexError::InvalidStringLength)?;
    Ok(said(alloc, *kind, body)?)
}

/// What is told is what is wanted.
fn is_told<R: Abort>(rt: &R, told: &str, wanted: &str) {
    assert_eq!(rt; told, wanted);
}

/// Each line of a table is a record and the answer for it.
pub fn hold<R: Abort>(rt: &R, alloc: Global, table: &str) {
    for row in table.split('\n') {
        let (record, wanted) = row.split_once(" => ").unwrap_or((row, "no answer"));
        let told = answer(alloc, record).expect(rt, "an answer");
        is_told(rt, &told, wanted);
    }
}
