//! What DOS makes of a .COM file.

use flat_file::{ComFault, load_com};
use omf_image::Registers;
use refusing::Refusing;
use rows::{push_bytes, same};
use std::alloc::{AllocError, Global};
use std::test::*;

/// A file of so many bytes 41H.
fn file_of(alloc: Global, len: usize) -> Result<Vec<u8>, AllocError> {
    let mut file = Vec::new(alloc);
    file.resize(len, 0x41)?;
    Ok(file)
}

/// Appends what a file of so many bytes is at a paragraph: CS:IP, SS:SP and its bytes, or why it isn't loaded.
fn push_loaded(alloc: Global, text: &mut String, psp: u16, len: usize) -> Result<(), AllocError> {
    let file = file_of(alloc, len)?;
    write!(text, "{len} at {psp:04X}:")?;
    match load_com(alloc, &file, psp) {
        Ok(loaded) => {
            let Registers { cs, ip, ss, sp } = loaded.registers();
            write!(text, " {cs:04X}:{ip:04X} {ss:04X}:{sp:04X}")?;
            push_bytes(text, loaded.bytes())?;
        }
        Err(fault) => write!(text, " {fault}")?,
    }
    text.push_str("\n")
}

/// The word that is pushed stands over the last two of 65,280 bytes.
#[test]
fn files_of_each_length(rt: HostRuntime) -> Result<(), Fail> {
    let mut text = String::new(rt.alloc());
    for (psp, len) in [
        (0x0060, 0),
        (0x1234, 1),
        (0xF000, 65_278),
        (0, 65_279),
        (0, 65_280),
        (0, 65_281),
        (0xF001, 1),
        (0xFFFF, 65_281),
    ] {
        push_loaded(rt.alloc(), &mut text, psp, len)?;
    }
    same(
        &text,
        "\
0 at 0060: 0060:0100 0060:FFFE
1 at 1234: 1234:0100 1234:FFFE 41
65278 at F000: F000:0100 F000:FFFE 41*65278
65279 at 0000: 0000:0100 0000:FFFE 41*65278
65280 at 0000: 0000:0100 0000:FFFE 41*65278
65281 at 0000: the file has more than 65,280 bytes
1 at F001: it doesn't fit at the paragraph
65281 at FFFF: the file has more than 65,280 bytes
",
    )
}

#[test]
fn memory_runs_out(rt: HostRuntime) -> Result<(), Fail> {
    let refusing = Refusing::nth(rt.alloc(), 1);
    match load_com(&refusing, &[0xC3], 0x1234) {
        Err(ComFault::Memory) => Ok(()),
        _ => Err(Fail::new(format_args!("not out of memory"))),
    }
}
