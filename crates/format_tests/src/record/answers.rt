//! What is answered for a record, as text.

use super::growths::growths;
use super::repeated::{expansion, length};
use hex::FromHexError;
use omf_frame::Frame;
use omf_record::{Record, RecordFault, encode_record, fits_frame, parse_record};
use std::alloc::{AllocError, Allocator, Global};
use std::process::Abort;

/// What is asked of a record.
#[derive(Clone, Copy)]
pub enum Ask {
    /// Its canonical body.
    Body,
    /// What it says.
    Content,
    /// How many bytes its repeated data expands to.
    Length,
    /// The bytes that its repeated data expands to, and the places that they are stored at.
    Expansion,
    /// How far it is read and written as each growth is refused.
    Growths,
}

/// The record with this type and body.
pub fn read<'a, A: Allocator + Copy + 'a>(
    alloc: A,
    kind: u8,
    body: &'a [u8],
) -> Result<Record<'a, A>, RecordFault> {
    parse_record(alloc, &Frame::new(0, kind, &body[..body.len().min(65_534)]))
}

/// Appends the body of a record that fits a frame, and tells whether it did.
pub fn encode_if_fits<A: Allocator + Copy>(record: &Record<'_, A>, out: &mut Vec<u8, A>) -> bool {
    fits_frame(record) && encode_record(record, out).is_ok()
}

/// The canonical body of a record.
fn body_of(alloc: Global, record: &Record<'_>) -> Result<String, AllocError> {
    let mut out = Vec::new(alloc);
    if !encode_if_fits(record, &mut out) {
        return Err(AllocError);
    }
    hex::encode_upper(alloc, &out)
}

fn canonical(alloc: Global, kind: u8, body: &[u8]) -> Result<String, AllocError> {
    match read(alloc, kind, body) {
        Ok(record) => body_of(alloc, &record),
        Err(fault) => format!(in alloc; "{fault:?}"),
    }
}

fn content(alloc: Global, kind: u8, body: &[u8]) -> Result<String, AllocError> {
    match read(alloc, kind, body) {
        Ok(record) => format!(in alloc; "{record:?}"),
        Err(fault) => format!(in alloc; "{fault:?}"),
    }
}

/// The answer for a record, which is the hexadecimal digits of its type and its body.
pub fn answer(alloc: Global, ask: Ask, record: &str) -> Result<String, FromHexError> {
    let bytes = hex::decode(alloc, record)?;
    let (kind, body) = bytes
        .split_first()
        .ok_or(FromHexError::InvalidStringLength)?;
    Ok(match ask {
        Ask::Body => canonical(alloc, *kind, body),
        Ask::Content => content(alloc, *kind, body),
        Ask::Length => length(alloc, body),
        Ask::Expansion => expansion(alloc, body),
        Ask::Growths => growths(alloc, *kind, body),
    }?)
}

/// What is told is what is wanted.
fn is_told<R: Abort>(rt: &R, told: &str, wanted: &str) {
    assert_eq!(rt; told, wanted);
}

/// Each line of a table is a record and the answer to what is asked of it.
pub fn hold<R: Abort>(rt: &R, alloc: Global, ask: Ask, table: &str) {
    for row in table.split('\n') {
        let (record, wanted) = row.split_once(" => ").unwrap_or((row, "no answer"));
        let told = answer(alloc, ask, record).expect(rt, "an answer");
        is_told(rt, &told, wanted);
    }
}
