//! Tables of tests as text, so that nothing of a row has to be proved.
//!
//! Blank lines separate the rows of a table. A row is its inputs and behind `= ` what is wanted of them; lines `--`
//! separate the inputs. An input is a module, each line a record: the bytes of its type and its body in hexadecimal
//! digits. `41*3` stands for `41 41 41`, and `x3` behind a record for three of it. A line that begins with `#` is a
//! comment. An input that is no module, or is cut off, is its bytes as they stand behind `raw`.
#![tactic(auto)]

use omf_frame::{MemSource, closing};
use omf_module::{Module, ModuleFault, Standing, read_module};
use omf_record::PublicBase;
use std::alloc::{AllocError, Allocator, Global};
use std::test::Fail;

/// The header "A" and the names "" and "CODE".
const FRONT: &str = "80 01 41\n96 00 04 43 4F 44 45";

/// The end of a module without a start.
const END: &str = "8A 00";

/// A row of a table.
#[derive(Drop)]
pub struct Row<'a> {
    pub inputs: Vec<Vec<u8>>,
    pub wanted: &'a str,
}

/// What stands in front of a mark, and the number behind it, which is 1 where there is no mark.
fn counted<'a>(text: &'a str, mark: &str) -> Result<(&'a str, usize), Fail> {
    match text.split_once(mark) {
        Some((front, number)) => Ok((front, number.parse()?)),
        None => Ok((text, 1)),
    }
}

/// The bytes of hexadecimal digits.
pub fn bytes_of(alloc: Global, text: &str) -> Result<Vec<u8>, Fail> {
    let mut bytes = Vec::new(alloc);
    for word in text.split_ascii_whitespace() {
        let (digits, count) = counted(word, "*")?;
        let byte = u8::from_str_radix(digits, 16)?;
        bytes.resize(bytes.len().saturating_add(count), byte)?;
    }
    Ok(bytes)
}

/// Appends a record to a module.
pub fn put_record(module: &mut Vec<u8>, kind: u8, body: &[u8]) -> Result<(), AllocError> {
    if body.len() <= 65_534 {
        let [low, high] = (body.len() as u16 + 1).to_le_bytes();
        module.extend_from_slice(&[kind, low, high])?;
        module.extend_from_slice(body)?;
        module.push(closing(kind, body))?;
    }
    Ok(())
}

/// Appends the records of a line, or its raw bytes.
fn put_line(alloc: Global, module: &mut Vec<u8>, line: &str) -> Result<(), Fail> {
    if let Some(digits) = line.strip_prefix("raw") {
        return Ok(module.extend_from_slice(&bytes_of(alloc, digits)?)?);
    }
    let (record, count) = counted(line, " x")?;
    let bytes = bytes_of(alloc, record)?;
    if let [kind, body @ ..] = bytes.as_slice() {
        for _ in 0..count {
            put_record(module, *kind, body)?;
        }
    }
    Ok(())
}

/// Appends the records of lines that are no comments.
fn put_lines(alloc: Global, module: &mut Vec<u8>, lines: &str) -> Result<(), Fail> {
    for line in lines.lines() {
        if !line.starts_with("#") {
            put_line(alloc, module, line)?;
        }
    }
    Ok(())
}

/// Whether one of these lines begins so.
fn has_line(lines: &str, front: &str) -> bool {
    for line in lines.lines() {
        if line.starts_with(front) {
            return true;
        }
    }
    false
}

/// The bytes of a module, or those of an input that is raw. Where no header stands in a module, it begins with that of
/// "A" and the names "" and "CODE"; where no end does, it ends with one.
pub fn module_of(alloc: Global, lines: &str) -> Result<Vec<u8>, Fail> {
    let mut module = Vec::new(alloc);
    let is_raw = has_line(lines, "raw");
    if !is_raw && !has_line(lines, "80") {
        put_lines(alloc, &mut module, FRONT)?;
    }
    put_lines(alloc, &mut module, lines)?;
    if !is_raw && !has_line(lines, "8A") {
        put_lines(alloc, &mut module, END)?;
    }
    Ok(module)
}

/// A row of a table.
pub fn read_row<'a>(alloc: Global, row: &'a str) -> Result<Row<'a>, Fail> {
    let (records, wanted) = row.split_once("\n= ").unwrap_or((row, ""));
    let mut inputs = Vec::new(alloc);
    for lines in records.split("\n--\n") {
        inputs.push(module_of(alloc, lines)?)?;
    }
    Ok(Row { inputs, wanted })
}

/// A failure, where what is told isn't what is wanted.
pub fn same(told: &str, wanted: &str) -> Result<(), Fail> {
    if told == wanted {
        return Ok(());
    }
    Err(Fail::new(format_args!("{told}, not {wanted}")))
}

fn read_input<A: Allocator + Copy>(alloc: A, bytes: &[u8]) -> Result<Module<A>, ModuleFault> {
    let mut source = MemSource::over(bytes, 65_536, None);
    read_module(alloc, &mut source)
}

/// The modules that inputs are.
pub fn read_modules<A: Allocator + Copy>(
    alloc: A,
    inputs: &[Vec<u8>],
) -> Result<Vec<Module<A>, A>, ModuleFault> {
    let mut modules = Vec::new(alloc);
    for bytes in inputs {
        let module = read_input(alloc, bytes)?;
        if modules.push(module).is_err() {
            return Err(ModuleFault::Memory);
        }
    }
    Ok(modules)
}

/// Appends the segments of a module: name, class, alignment, kind and length.
fn push_segments(text: &mut String, module: &Module) -> Result<(), AllocError> {
    for index in 0..module.segment_count() {
        let segment = module.segment(index);
        push_text(text, segment.name)?;
        text.push('.')?;
        push_text(text, segment.class)?;
        match segment.standing {
            Standing::Absolute { .. } => text.push_str(" absolute")?,
            Standing::Relocatable { alignment, kind } => write!(text, " {alignment} {kind:?}")?,
        }
        let length = segment.length;
        write!(text, " {length}; ")?;
    }
    Ok(())
}

/// Appends the groups of a module: name and members.
fn push_groups(text: &mut String, module: &Module) -> Result<(), AllocError> {
    for index in 0..module.group_count() {
        let group = module.group(index);
        push_text(text, group.name)?;
        for member in group.members {
            write!(text, " {member}")?;
        }
        text.push_str("; ")?;
    }
    Ok(())
}

/// Appends the base of a public and its offset: segment and group count from 0, as in the other lists.
fn push_base(text: &mut String, base: PublicBase, offset: u16) -> Result<(), AllocError> {
    match base {
        PublicBase::InSegment { group, segment } => {
            let segment = segment.saturating_sub(1);
            match group.checked_sub(1) {
                Some(group) => write!(text, " {segment}:{offset} of {group}"),
                None => write!(text, " {segment}:{offset}"),
            }
        }
        PublicBase::AtFrame { frame, .. } => write!(text, " at {frame}:{offset}"),
    }
}

/// Appends the publics of a module: name, base and offset.
fn push_publics(text: &mut String, module: &Module) -> Result<(), AllocError> {
    for index in 0..module.public_symbol_count() {
        let public = module.public_symbol(index);
        push_text(text, public.name)?;
        push_base(text, public.base, public.offset)?;
        text.push_str(if public.local { " local; " } else { "; " })?;
    }
    Ok(())
}

/// Appends the segments, groups and publics of a module, and whether there is more.
pub fn push_read(text: &mut String, module: &Module) -> Result<(), AllocError> {
    push_segments(text, module)?;
    push_groups(text, module)?;
    push_publics(text, module)?;
    if module.external_count() != 0 || module.data_record_count() != 0 || module.start().is_some() {
        text.push_str("and more")?;
    }
    Ok(())
}

/// Appends the same of the module that bytes are, or why they are none.
pub fn push_module(alloc: Global, text: &mut String, bytes: &[u8]) -> Result<(), AllocError> {
    match read_input(alloc, bytes) {
        Ok(module) => push_read(text, &module),
        Err(fault) => write!(text, "{fault}"),
    }
}

/// How many bytes at the front are this one.
fn run_of(bytes: &[u8], byte: u8) -> usize {
    let mut count = 0usize;
    for other in bytes {
        if *other != byte {
            break;
        }
        count = count.saturating_add(1);
    }
    count
}

/// Appends bytes in hexadecimal digits: ` 41*3` where one stands three times.
pub fn push_bytes(text: &mut String, bytes: &[u8]) -> Result<(), AllocError> {
    let mut rest = bytes;
    for _ in bytes {
        if let Some(byte) = rest.first() {
            let count = run_of(rest, *byte);
            match count {
                1 => write!(text, " {byte:02X}")?,
                _ => write!(text, " {byte:02X}*{count}")?,
            }
            rest = rest.get(count..).unwrap_or(&[]);
        }
    }
    Ok(())
}

/// Appends a name's bytes as text.
pub fn push_text(text: &mut String, name: &[u8]) -> Result<(), AllocError> {
    for byte in name {
        text.push(char::from(*byte))?;
    }
    Ok(())
}

/// Appends a name in hexadecimal digits: its length and its bytes.
pub fn push_name(text: &mut String, name: &str) -> Result<(), AllocError> {
    let length = name.len();
    write!(text, " {length:02X}")?;
    push_bytes(text, name.as_bytes())
}

/// The records of the publics "a0", "a1" and so on, each at its number in the first segment, 5,000 a record.
pub fn publics(alloc: Global, count: u16) -> Result<String, AllocError> {
    let mut lines = String::new(alloc);
    for number in 0..count {
        if number % 5_000 == 0 {
            lines.push_str("\n90 00 01")?;
        }
        push_name(&mut lines, &format!(in alloc; "a{number}")?)?;
        let [low, high] = number.to_le_bytes();
        write!(lines, " {low:02X} {high:02X} 00")?;
    }
    Ok(lines)
}
