//! References as they are told in rows.

use omf_record::{FrameMethod, TargetMethod};
use std::alloc::AllocError;

/// Appends a method by its number and its index.
fn push_method(told: &mut String, letter: char, method: TargetMethod) -> Result<(), AllocError> {
    let (number, index) = match method {
        TargetMethod::Segment(index) => (0, index),
        TargetMethod::Group(index) => (1, index),
        TargetMethod::External(index) => (2, index),
    };
    write!(told, " {letter}{number} {index}")
}

/// Appends a frame and a target by the numbers of their methods.
pub fn push_reference(
    told: &mut String,
    frame: FrameMethod,
    target: TargetMethod,
) -> Result<(), AllocError> {
    match frame {
        FrameMethod::By(method) => push_method(told, 'F', method)?,
        FrameMethod::Location => told.push_str(" F4")?,
        FrameMethod::Target => told.push_str(" F5")?,
    }
    push_method(told, 'T', target)?;
    told.push(';')
}
