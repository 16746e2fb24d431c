//! The line that tells a fault. Nothing here takes memory.
ghost use Rattle.std.specs.Prelude.{◌-◌, ◌^◌, ◌<◌};
ghost use Rattle.omf_frame.specs.Device.{Writes};
ghost use Rattle.omf_faults.specs.FaultLines as spec;
ghost use Rattle.omf_faults.specs.FaultLines.{file_text, line_end, line_front, line_start, name_end, program_text};
ghost use Rattle.omf_faults.specs.FaultLines.{output_text, record_text, text_of, told_by};

use crate::fault::LinkFault;
use itoa::Buffer;
use omf_frame::{IoFault, Sink, put_all};
use omf_text::{put_name, put_pieces};
use std::alloc::Allocator;

// Writes the place in the body, where the body is at fault, and the line end.
fn put_line_end<K: Sink>(sink: &mut K, place_in_body: Option<usize>) -> Result<(), IoFault>
    requires { K.failures sink.old < 2 ^ 64 - 1 }
    ensures { Writes K.written K.failures sink.old sink.new (line_end place_in_body) result }
{
    let Some(at) = place_in_body else {
        return put_all(sink, b"\n");
    };
    let mut digits = Buffer::new();
    let pieces = [
        b" byte ".as_slice(),
        digits.format(at).as_bytes(),
        b"\n".as_slice(),
    ];
    put_pieces(sink, pieces.as_slice())
}

// Writes the front of a record's line, up to its place. `program` is the name of the program that tells it.
fn put_line_front<'p, K: Sink>(
    sink: &mut K,
    program: &'p str,
    file: &'p str,
    number: u8,
    name: &'p str,
    place: u64,
) -> Result<(), IoFault>
    requires { K.failures sink.old < 2 ^ 64 - 1 }
    ensures { Writes K.written K.failures sink.old sink.new
        (told_by program.now (line_front file.now number name.now place)) result }
{
    let mut number_digits = Buffer::new();
    let mut place_digits = Buffer::new();
    let number = number_digits.format(number);
    let place = place_digits.format(place);
    let pieces = [
        program.as_bytes(),
        b": ".as_slice(),
        file.as_bytes(),
        b": ".as_slice(),
        number.as_bytes(),
        b" ".as_slice(),
        name.as_bytes(),
        b" at record ".as_slice(),
        place.as_bytes(),
    ];
    put_pieces(sink, pieces.as_slice())
}

// Writes the line of a fault of a record.
fn put_record_line<K: Sink>(
    sink: &mut K,
    program: &str,
    file: &str,
    number: u8,
    name: &str,
    place: u64,
    place_in_body: Option<usize>,
) -> Result<(), IoFault>
    requires { K.failures sink.old < 2 ^ 64 - 1 }
    ensures { Writes K.written K.failures sink.old sink.new
        (told_by program.now (record_text file.now (number, name.now) place place_in_body)) result }
{
    put_line_front(sink, program, file, number, name, place)?;
    put_line_end(sink, place_in_body)
}

// Writes the front of a line, up to the fault's name. `word` stands before the number.
fn put_line_start<'p, K: Sink>(
    sink: &mut K,
    program: &'p str,
    word: &'p str,
    number: u8,
    name: &'p str,
) -> Result<(), IoFault>
    requires { K.failures sink.old < 2 ^ 64 - 1 }
    ensures { Writes K.written K.failures sink.old sink.new
        (told_by program.now (line_start word.now (number, name.now))) result }
{
    let mut digits = Buffer::new();
    let number = digits.format(number);
    let pieces = [
        program.as_bytes(),
        b": ".as_slice(),
        word.as_bytes(),
        b": ".as_slice(),
        number.as_bytes(),
        b" ".as_slice(),
        name.as_bytes(),
    ];
    put_pieces(sink, pieces.as_slice())
}

// Writes the printed name at fault, where there is one, and the line end.
fn put_name_end<K: Sink>(sink: &mut K, name: Option<&[u8]>) -> Result<(), IoFault>
    requires { K.failures sink.old < 2 ^ 64 - 1 }
    ensures { Writes K.written K.failures sink.old sink.new (name_end (text_of name.entry)) result }
{
    let Some(name) = name else {
        return put_all(sink, "\n".as_bytes());
    };
    put_all(sink, b" ")?;
    put_name(sink, name)?;
    put_all(sink, b"\n")
}

// Writes the line of a fault of the modules together.
fn put_program_line<K: Sink>(
    sink: &mut K,
    program: &str,
    number: u8,
    name: &str,
    at_fault: Option<&[u8]>,
) -> Result<(), IoFault>
    requires { K.failures sink.old < 2 ^ 64 - 1 }
    ensures { Writes K.written K.failures sink.old sink.new
        (told_by program.now (program_text (number, name.now) (text_of at_fault.entry))) result }
{
    put_line_start(sink, program, "link", number, name)?;
    put_name_end(sink, at_fault)
}

// Writes the line of a fault of a program's file.
fn put_file_line<K: Sink>(
    sink: &mut K,
    program: &str,
    file: &str,
    number: u8,
    name: &str,
) -> Result<(), IoFault>
    requires { K.failures sink.old < 2 ^ 64 - 1 }
    ensures { Writes K.written K.failures sink.old sink.new
        (told_by program.now (file_text file.now (number, name.now))) result }
{
    put_line_start(sink, program, file, number, name)?;
    put_all(sink, b"\n")
}

// Writes the line of an output that failed.
fn put_output_line<K: Sink>(sink: &mut K, program: &str, file: &str) -> Result<(), IoFault>
    requires { K.failures sink.old < 2 ^ 64 - 1 }
    ensures { Writes K.written K.failures sink.old sink.new (told_by program.now (output_text file.now)) result }
{
    let pieces = [
        program.as_bytes(),
        b": ".as_slice(),
        file.as_bytes(),
        b": 40 Device\n".as_slice(),
    ];
    put_pieces(sink, pieces.as_slice())
}

/// Writes the line of a fault, behind the name of the program that tells it. `file` is the word before the number,
/// where the line has one: the path of the input at fault, or of the output that failed, and `output` for standard
/// output.
pub fn fault_line<K: Sink, A: Allocator + Copy>(
    program: &str,
    fault: &LinkFault<A>,
    file: &str,
    sink: &mut K,
) -> Result<(), IoFault>
    requires { K.failures sink.old < 2 ^ 64 - 1 }
    ensures { Writes K.written K.failures sink.old sink.new (spec.fault_line program.now fault.now file.now) result }
{
    match fault {
        LinkFault::Memory => {
            let pieces = [program.as_bytes(), b": memory\n".as_slice()];
            put_pieces(sink, pieces.as_slice())
        }
        LinkFault::Output => put_output_line(sink, program, file),
        LinkFault::Device { place, .. } => {
            put_record_line(sink, program, file, 1, "Device", *place, None)
        }
        LinkFault::Record { place, fault, .. } => {
            let (number, name) = fault.label();
            put_record_line(
                sink,
                program,
                file,
                number,
                name,
                *place,
                fault.place_in_body(),
            )
        }
        LinkFault::Program(fault) => {
            let (number, name) = fault.label();
            put_program_line(sink, program, number, name, fault.name_at_fault())
        }
        LinkFault::File(fault) => {
            let (number, name) = fault.label();
            put_file_line(sink, program, file, number, name)
        }
    }
}
