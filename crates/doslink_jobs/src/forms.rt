//! Forms of a file that a program can't have.

use flat_file::FormFault;
use std::alloc::{AllocError, Allocator};

/// Tells what keeps the program from being a file of the form that is asked for.
pub(crate) fn push_form_fault<A: Allocator + Copy>(
    lines: &mut Vec<u8, A>,
    fault: FormFault,
) -> Result<(), AllocError> {
    let (number, name) = fault.label();
    lines.extend_from_slice(b"doslink: link: ")?;
    // the numbers are 68 to 72
    lines.extend_from_slice(&[b'0' + number / 10 % 10, b'0' + number % 10, b' '])?;
    lines.extend_from_slice(name.as_bytes())?;
    lines.extend_from_slice(b"\n")
}
