//! The lines of refusals and warnings of a whole program, and how many of a kind are told.
ghost use Rattle.std.specs.Prelude.{◌≡◌, ◌++◌, ◌∷◌, [], OnOk, codes, decimal};
ghost use Rattle.std.specs.List.{concat};
ghost use Rattle.omf_faults.specs.FaultLines.{program_label, text_of};
ghost use Rattle.doslink_telling.specs.Warnings as spec;

use itoa::Buffer;
use omf_faults::ProgramFault;
use omf_text::{Piece, push_pieces};
use std::alloc::{AllocError, Allocator};

/// Appends a number with commas between its groups of three digits.
fn push_grouped<A: Allocator + Copy>(lines: &mut Vec<u8, A>, count: u64) -> Result<(), AllocError>
    ensures { OnOk result (lines.new.items ≡ lines.old.items ++ spec.grouped count) }
{
    let mut buffer = Buffer::new();
    let digits = buffer.format(count).as_bytes();
    for (index, digit) in digits.iter().enumerate() {
        if index > 0 && (digits.len() - index) % 3 == 0 {
            lines.push(b',')?;
        }
        lines.push(*digit)?;
    }
    Ok(())
}

/// Appends a number with commas between two texts.
pub(crate) fn push_counted<'p, A: Allocator + Copy>(
    lines: &mut Vec<u8, A>,
    front: &'p str,
    count: u64,
    end: &'p str,
) -> Result<(), AllocError>
    ensures { OnOk result (lines.new.items ≡ lines.old.items
        ++ concat (front.now ∷ spec.grouped count ∷ end.now ∷ [])) }
{
    lines.extend_from_slice(front.as_bytes())?;
    push_grouped(lines, count)?;
    lines.extend_from_slice(end.as_bytes())
}

/// Appends that there are so many more of what was told.
pub fn push_more_line<A: Allocator + Copy>(
    lines: &mut Vec<u8, A>,
    count: usize,
) -> Result<(), AllocError>
    ensures { OnOk result (lines.new.items ≡ lines.old.items ++ spec.more_line count) }
{
    push_counted(lines, "doslink: and ", count as u64, " more\n")
}

/// Appends that the program would have no byte.
pub fn push_no_program<A: Allocator + Copy>(lines: &mut Vec<u8, A>) -> Result<(), AllocError>
    ensures { OnOk result (lines.new.items ≡ lines.old.items ++ spec.no_program_line) }
{
    lines.extend_from_slice(b"doslink: link: 67 NoProgram\n")
}

/// Appends that data with values stands in a segment that start-up code clears, of the module for which this is the
/// word.
pub fn push_data_in_bss<'p, A: Allocator + Copy>(
    lines: &mut Vec<u8, A>,
    segment: &'p [u8],
    word: &'p [u8],
) -> Result<(), AllocError>
    ensures { OnOk result (lines.new.items ≡ lines.old.items ++ spec.data_in_bss_line segment.now word.now) }
{
    let pieces = [
        Piece::Text("doslink: "),
        Piece::Bytes(word),
        Piece::Text(": 62 DataInBss "),
        Piece::Name(segment),
        Piece::Text("\n"),
    ];
    push_pieces(lines, pieces.as_slice())
}

/// Appends the number and the name of a fault of modules together.
fn push_program_label<A: Allocator + Copy>(
    lines: &mut Vec<u8, A>,
    fault: &ProgramFault<A>,
) -> Result<(), AllocError>
    ensures { OnOk result (lines.new.items ≡ lines.old.items ++ concat (codes "doslink: link: "
        ∷ decimal (program_label fault.now).0 ∷ codes " " ∷ (program_label fault.now).1 ∷ [])) }
{
    let (number, name) = fault.label();
    let pieces = [
        Piece::Text("doslink: link: "),
        Piece::Count(usize::from(number)),
        Piece::Text(" "),
        Piece::Text(name),
    ];
    push_pieces(lines, pieces.as_slice())
}

/// Appends the name of what is at fault, where it has one.
fn push_name_at_fault<A: Allocator + Copy>(
    lines: &mut Vec<u8, A>,
    name: Option<&[u8]>,
) -> Result<(), AllocError>
    ensures { OnOk result (lines.new.items ≡ lines.old.items ++ spec.name_text (text_of name.entry)) }
{
    match name {
        None => Ok(()),
        Some(name) => {
            let pieces = [Piece::Text(" "), Piece::Name(name)];
            push_pieces(lines, pieces.as_slice())
        }
    }
}

/// What stands behind a number of bytes that are too many.
fn over_end(bytes: u64) -> &'static str
    ensures { result.now ≡ spec.over_end bytes }
{
    if bytes == 1 {
        " byte over\n"
    } else {
        " bytes over\n"
    }
}

/// Appends the line of a segment, a program or a group that is too long, which is this fault, and by how many bytes.
pub fn push_excess<A: Allocator + Copy>(
    lines: &mut Vec<u8, A>,
    fault: &ProgramFault<A>,
    bytes: u64,
) -> Result<(), AllocError>
    ensures { OnOk result (lines.new.items ≡ lines.old.items ++ spec.excess_line fault.now bytes) }
{
    push_program_label(lines, fault)?;
    push_name_at_fault(lines, fault.name_at_fault())?;
    push_counted(lines, ": ", bytes, over_end(bytes))
}

/// Appends that the modules ask for a longer stack than one of so many bytes.
pub fn push_long_stack<A: Allocator + Copy>(
    lines: &mut Vec<u8, A>,
    bytes: u32,
) -> Result<(), AllocError>
    ensures { OnOk result (lines.new.items ≡ lines.old.items ++ spec.long_stack_line bytes) }
{
    let front = "doslink: link: 66 StackTooLong: more than ";
    push_counted(lines, front, u64::from(bytes), " bytes\n")
}

/// Appends the warning that the stack is cut to so many bytes.
pub fn push_cut_stack<A: Allocator + Copy>(
    lines: &mut Vec<u8, A>,
    bytes: u32,
) -> Result<(), AllocError>
    ensures { OnOk result (lines.new.items ≡ lines.old.items ++ spec.cut_stack_line bytes) }
{
    let front = "doslink: warning: the stack is cut to ";
    push_counted(lines, front, u64::from(bytes), " bytes\n")
}

/// Appends the warning that no module has a start.
pub fn push_no_start<A: Allocator + Copy>(lines: &mut Vec<u8, A>) -> Result<(), AllocError>
    ensures { OnOk result (lines.new.items ≡ lines.old.items ++ spec.no_start_line) }
{
    lines.extend_from_slice(b"doslink: warning: no module has a start\n")
}

/// Appends the warning that no module has a stack.
pub fn push_no_stack<A: Allocator + Copy>(lines: &mut Vec<u8, A>) -> Result<(), AllocError>
    ensures { OnOk result (lines.new.items ≡ lines.old.items ++ spec.no_stack_line) }
{
    lines.extend_from_slice(b"doslink: warning: no module has a stack\n")
}

/// Appends the warning that no module has a byte of code.
pub fn push_no_code<A: Allocator + Copy>(lines: &mut Vec<u8, A>) -> Result<(), AllocError>
    ensures { OnOk result (lines.new.items ≡ lines.old.items ++ spec.no_code_line) }
{
    lines.extend_from_slice(b"doslink: warning: no module has a byte of code\n")
}

/// Appends the warning that the module for which this is the word reaches a far communal variable by its offset alone.
pub fn push_reached<'p, A: Allocator + Copy>(
    lines: &mut Vec<u8, A>,
    name: &'p [u8],
    word: &'p [u8],
) -> Result<(), AllocError>
    ensures { OnOk result (lines.new.items ≡ lines.old.items ++ spec.reached_line name.now word.now) }
{
    let pieces = [
        Piece::Text("doslink: warning: "),
        Piece::Name(name),
        Piece::Text(" of "),
        Piece::Bytes(word),
        Piece::Text(
            " is far and reached by its offset alone: declare it near (NASM: common NAME:near SIZE)\n",
        ),
    ];
    push_pieces(lines, pieces.as_slice())
}
