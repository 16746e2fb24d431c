//! Tables of answers, as text.

use super::answer::{Answer, Command, Devices, LARGE_ROOM, answer_of};
use rows::{push_bytes, read_row};
use std::alloc::Global;
use std::process::Abort;
use std::test::*;

/// How what was written is told.
#[derive(Clone, Copy)]
pub enum Telling {
    /// It is text.
    Text,
    /// Its bytes, as an input has them.
    Bytes,
    /// The image and the relocations of a program's file.
    Image,
    /// The size of a program's file, and its first twelve bytes.
    Head,
}

/// The texts are the same.
pub fn is<R: Abort>(rt: &R, text: &str, wanted: &str) {
    assert_eq!(rt; text, wanted);
}

/// The bytes are the same.
pub fn are<R: Abort>(rt: &R, bytes: &[u8], wanted: &[u8]) {
    assert_eq!(rt; bytes, wanted);
}

/// Appends the image and the relocations of a program's file.
fn push_image(text: &mut String, file: &[u8]) -> Result<(), Fail> {
    let count = match file {
        [_, _, _, _, _, _, low, high, ..] => u16::from_le_bytes([*low, *high]),
        _ => 0,
    };
    let end = 28 + 4 * usize::from(count);
    text.push_str("image")?;
    push_bytes(text, file.get(end.div_ceil(16) * 16..).unwrap_or(&[]))?;
    text.push_str(" relocations")?;
    push_bytes(text, file.get(28..end).unwrap_or(&[]))?;
    Ok(())
}

/// Appends what was written, and a line end.
fn push_output(text: &mut String, telling: Telling, output: &[u8]) -> Result<(), Fail> {
    match telling {
        Telling::Text => return Ok(text.push_str(str::from_utf8(output)?)?),
        Telling::Bytes => {
            text.push_str("raw")?;
            push_bytes(text, output)?;
        }
        Telling::Image => push_image(text, output)?,
        Telling::Head => {
            write!(text, "{} bytes", output.len())?;
            push_bytes(text, output.get(..12).unwrap_or(&[]))?;
        }
    }
    text.push_str("\n")?;
    Ok(())
}

/// What was written, and the line of the fault.
pub fn text_of(alloc: Global, telling: Telling, answer: &Answer) -> Result<String, Fail> {
    let mut text = String::new(alloc);
    if !answer.output.is_empty() {
        push_output(&mut text, telling, &answer.output)?;
    }
    text.push_str(&answer.fault)?;
    Ok(text)
}

/// The text is this and a line end; `..` stands for what is in front.
fn says<R: Abort>(rt: &R, text: &str, wanted: &str) {
    let text = text.strip_suffix("\n").unwrap_or("no line end");
    match wanted.strip_prefix("..") {
        Some(end) => {
            let start = text.len().saturating_sub(end.len());
            is(rt, text.get(start..).unwrap_or(text), end);
        }
        None => is(rt, text, wanted),
    }
}

/// The answer over inputs is told so, whatever the pieces are in which they are read and it is written.
pub fn is_answer<R: Abort>(
    rt: &R,
    alloc: Global,
    command: Command,
    telling: Telling,
    inputs: &str,
    wanted: &str,
) -> Result<(), Fail> {
    let row = read_row(alloc, inputs)?;
    for piece in [1usize, 2, 3, 60] {
        let devices = Devices {
            room: LARGE_ROOM,
            ..Devices::sound(piece)
        };
        let answer = answer_of(alloc, command, &row.inputs, devices)?;
        says(rt, &text_of(alloc, telling, &answer)?, wanted);
    }
    Ok(())
}

/// The answers are told as in a table.
pub fn answers<R: Abort>(
    rt: &R,
    alloc: Global,
    command: Command,
    telling: Telling,
    table: &str,
) -> Result<(), Fail> {
    for row in table.split("\n\n") {
        let (inputs, wanted) = row.split_once("\n= ").unwrap_or((row, ""));
        is_answer(rt, alloc, command, telling, inputs, wanted)?;
    }
    Ok(())
}
