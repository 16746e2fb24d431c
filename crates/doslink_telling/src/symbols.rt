//! The names in the symbol table of an archive.
ghost use Rattle.std.specs.Prelude.{◌≡◌, ◌≤◌, ◌*◌, ◌+◌, IfOk, drop, length, map, take};
ghost use Rattle.std.specs.List.{before_first, position_or_len};
ghost use Rattle.std.specs.Option.{option_map};
ghost use Rattle.doslink_telling.specs.Symbols as spec;
ghost use Rattle.doslink_telling.specs.inside.Tables.{number_said, symbol_said};

use std::alloc::{AllocError, Allocator};

/// A name, and the place in the archive of the header of the member that defines it.
#[derive(Clone, Copy)]
pub(crate) struct Symbol<'a> {
    pub name: &'a [u8],
    pub place: usize,
}

/// A number, and what stands behind it.
type Number<'a> = (usize, &'a [u8]);

/// The number of 32 bits that begins some bytes, the highest byte first.
fn short_number(bytes: &[u8]) -> Option<Number<'_>>
    ensures { option_map number_said result ≡ spec.short_number bytes.now }
{
    match bytes {
        [a, b, c, d, rest @ ..] => Some((u32::from_be_bytes([*a, *b, *c, *d]) as usize, rest)),
        _ => None,
    }
}

/// The number of 64 bits that begins some bytes, the highest byte first.
fn long_number(bytes: &[u8]) -> Option<Number<'_>>
    ensures { option_map number_said result ≡ spec.long_number bytes.now }
{
    match bytes {
        [a, b, c, d, e, f, g, h, rest @ ..] => {
            let number = u64::from_be_bytes([*a, *b, *c, *d, *e, *f, *g, *h]);
            Some((number as usize, rest))
        }
        _ => None,
    }
}

/// The number that begins some bytes, of 64 bits where it is wide, else of 32.
fn number(wide: bool, bytes: &[u8]) -> Option<Number<'_>>
    ensures { option_map number_said result ≡ spec.number wide bytes.now }
{
    if wide {
        long_number(bytes)
    } else {
        short_number(bytes)
    }
}

/// What stands behind so many numbers.
fn behind_numbers(wide: bool, count: usize, bytes: &[u8]) -> &[u8]
    ensures { result.now ≡ drop (spec.width wide * count) bytes.now }
{
    let width: usize = if wide { 8 } else { 4 };
    match width.checked_mul(count) {
        Some(len) if len <= bytes.len() => &bytes[len..],
        _ => &[],
    }
}

/// How many bytes stand before the first byte 0, or all where none is.
fn name_len(bytes: &[u8]) -> usize
    ensures len { result ≡ position_or_len spec.ends_name bytes.now }
    ensures within { result ≤ length bytes.now }
{
    let mut len = 0;
    while len < bytes.len() && bytes[len] != 0 {
        len += 1;
    }
    len
}

/// The name that begins some bytes, up to a byte 0.
fn front_name(bytes: &[u8]) -> &[u8]
    ensures { result.now ≡ before_first spec.ends_name bytes.now }
{
    &bytes[..name_len(bytes)]
}

/// What stands behind a name of this length and the byte 0 that ends it.
fn behind_name(bytes: &[u8], len: usize) -> &[u8]
    ensures { result.now ≡ drop (len + 1) bytes.now }
{
    if len < bytes.len() {
        &bytes[len + 1..]
    } else {
        &[]
    }
}

/// So many names at most, with the places for them.
fn numbered<'a, A: Allocator + Copy>(
    alloc: A,
    count: usize,
    wide: bool,
    mut places: &'a [u8],
    mut names: &'a [u8],
) -> Result<Vec<Symbol<'a>, A>, AllocError>
    ensures { IfOk result (λ v. map symbol_said v.items ≡ spec.numbered count wide places.entry.now names.entry.now) }
{
    let mut symbols = Vec::new(alloc);
    let mut left = count;
    while left > 0 && !names.is_empty() {
        let Some((place, behind)) = number(wide, places) else {
            return Ok(symbols);
        };
        let len = name_len(names);
        let name = &names[..len];
        symbols.push(Symbol { name, place })?;
        names = behind_name(names, len);
        places = behind;
        left -= 1;
    }
    Ok(symbols)
}

/// The names of a table `/`, or `/SYM64/` where it is wide.
fn numbered_table<'a, A: Allocator + Copy>(
    alloc: A,
    wide: bool,
    table: &'a [u8],
) -> Result<Vec<Symbol<'a>, A>, AllocError>
    ensures { IfOk result (λ v. map symbol_said v.items ≡ spec.numbered_table wide table.now) }
{
    match number(wide, table) {
        Some((count, places)) => {
            let names = behind_numbers(wide, count, places);
            numbered(alloc, count, wide, places, names)
        }
        None => Ok(Vec::new(alloc)),
    }
}

/// The number of 32 bits that begins some bytes, the lowest byte first.
fn low_number(bytes: &[u8]) -> Option<Number<'_>>
    ensures { option_map number_said result ≡ spec.low_number bytes.now }
{
    match bytes {
        [a, b, c, d, rest @ ..] => Some((u32::from_le_bytes([*a, *b, *c, *d]) as usize, rest)),
        _ => None,
    }
}

/// How many bytes of a name count: no name of a module is longer than 255.
const MOST_OF_NAME: usize = 256;

/// The bytes behind so many.
fn behind(bytes: &[u8], count: usize) -> &[u8]
    ensures { result.now ≡ drop count bytes.now }
{
    if count <= bytes.len() {
        &bytes[count..]
    } else {
        &[]
    }
}

/// So many bytes at most.
fn front(bytes: &[u8], count: usize) -> &[u8]
    ensures { result.now ≡ take count bytes.now }
{
    if count <= bytes.len() {
        &bytes[..count]
    } else {
        bytes
    }
}

/// The name at a place among names, up to a byte 0.
fn name_at(names: &[u8], place: usize) -> &[u8]
    ensures { result.now ≡ spec.name_at names.now place }
{
    front_name(front(behind(names, place), MOST_OF_NAME))
}

/// The names of so many pairs at most, each with the place of its member.
fn paired<'a, A: Allocator + Copy>(
    alloc: A,
    count: usize,
    names: &'a [u8],
    mut pairs: &'a [u8],
) -> Result<Vec<Symbol<'a>, A>, AllocError>
    ensures { IfOk result (λ v. map symbol_said v.items ≡ spec.paired count names.now pairs.entry.now) }
{
    let mut symbols = Vec::new(alloc);
    let mut left = count;
    while left > 0 {
        let Some((at, middle)) = low_number(pairs) else {
            return Ok(symbols);
        };
        let Some((place, behind)) = low_number(middle) else {
            return Ok(symbols);
        };
        let name = name_at(names, at);
        symbols.push(Symbol { name, place })?;
        pairs = behind;
        left -= 1;
    }
    Ok(symbols)
}

/// The names of a table `__.SYMDEF`.
fn paired_table<'a, A: Allocator + Copy>(
    alloc: A,
    table: &'a [u8],
) -> Result<Vec<Symbol<'a>, A>, AllocError>
    ensures { IfOk result (λ v. map symbol_said v.items ≡ spec.paired_table table.now) }
{
    let Some((size, pairs)) = low_number(table) else {
        return Ok(Vec::new(alloc));
    };
    match low_number(behind(pairs, size)) {
        Some((_, names)) => paired(alloc, size / 8, names, pairs),
        None => Ok(Vec::new(alloc)),
    }
}

/// How many bytes stand before the content of an archive's first member.
const FIRST: usize = 68;

/// The names of an archive's symbol table; none of another file.
pub(crate) fn symbols<'a, A: Allocator + Copy>(
    alloc: A,
    file: &'a [u8],
) -> Result<Vec<Symbol<'a>, A>, AllocError>
    ensures { IfOk result (λ v. map symbol_said v.items ≡ spec.symbols file.now) }
{
    let table = behind(file, FIRST);
    if file.starts_with(b"!<arch>\n/               ") {
        numbered_table(alloc, false, table)
    } else if file.starts_with(b"!<arch>\n/SYM64/         ") {
        numbered_table(alloc, true, table)
    } else if file.starts_with(b"!<arch>\n__.SYMDEF       ")
        || file.starts_with(b"!<arch>\n__.SYMDEF SORTED")
    {
        paired_table(alloc, table)
    } else {
        Ok(Vec::new(alloc))
    }
}
