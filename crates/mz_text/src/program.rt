//! The lines of a program's file.
ghost use Rattle.std.specs.Prelude.{◌≡◌, ◌+◌, ◌≤◌, ◌++◌, OnOk, IsTrue, length, map};
ghost use Rattle.std.specs.List.{flat_map, list_all};
ghost use Rattle.mz.specs.Header.{header_len, is_inside};
ghost use Rattle.mz.specs.Loading.{needed_len};
ghost use Rattle.omf_image.specs.Words.{word_at};
ghost use Rattle.mz_text.specs.Program as spec;
ghost use Rattle.mz_text.specs.inside.Words.{word_said};

use mz::{Entry, Header, MzFile};
use omf_text::{Piece, push_pieces};
use std::alloc::{AllocError, Allocator};

/// How many bytes a paragraph has.
const PARAGRAPH_LEN: usize = 16;

/// A word of the header: its place in the file, its value, and what it is called.
#[derive(Clone, Copy)]
struct HeaderWord {
    place: u8,
    value: u16,
    name: &'static str,
}

/// A word of the header.
fn named(place: u8, value: u16, name: &'static str) -> HeaderWord
    ensures { word_said result ≡ spec.named place value name.now }
{
    HeaderWord { place, value, name }
}

/// The words of the header, in the order of the file.
fn header_words(header: &Header) -> [HeaderWord; 14]
    ensures { map word_said result ≡ spec.header_words header.now }
{
    [
        named(0x00, 0x5A4D, "signature"),
        named(0x02, header.last_page_bytes, "bytes in last page"),
        named(0x04, header.pages, "pages"),
        named(0x06, header.relocation_count, "relocations"),
        named(0x08, header.header_paragraphs, "header paragraphs"),
        named(0x0A, header.least_extra_paragraphs, "minimum allocation"),
        named(0x0C, header.greatest_extra_paragraphs, "maximum allocation"),
        named(0x0E, header.registers.ss, "initial SS"),
        named(0x10, header.registers.sp, "initial SP"),
        named(0x12, header.checksum, "checksum"),
        named(0x14, header.registers.ip, "initial IP"),
        named(0x16, header.registers.cs, "initial CS"),
        named(0x18, header.relocation_table, "relocation table offset"),
        named(0x1A, header.overlay, "overlay"),
    ]
}

/// Appends the line of a file: its path.
fn push_title<A: Allocator + Copy>(lines: &mut Vec<u8, A>, path: &str) -> Result<(), AllocError>
    ensures { OnOk result (lines.new.items ≡ lines.old.items ++ spec.title path.now) }
{
    let pieces = [
        Piece::Text("program "),
        Piece::Name(path.as_bytes()),
        Piece::Text("\n"),
    ];
    push_pieces(lines, pieces.as_slice())
}

/// Appends the line of a word of the header.
fn push_word<A: Allocator + Copy>(
    lines: &mut Vec<u8, A>,
    word: &HeaderWord,
) -> Result<(), AllocError>
    ensures { OnOk result (lines.new.items ≡ lines.old.items ++ spec.word_line (word_said word.now)) }
{
    let pieces = [
        Piece::Text("  "),
        Piece::Byte(word.place),
        Piece::Text(" "),
        Piece::Word(word.value),
        Piece::Text(" "),
        Piece::Text(word.name),
        Piece::Text("\n"),
    ];
    push_pieces(lines, pieces.as_slice())
}

/// Appends the lines of words of the header.
fn push_words<A: Allocator + Copy>(
    lines: &mut Vec<u8, A>,
    words: &[HeaderWord],
) -> Result<(), AllocError>
    ensures { OnOk result (lines.new.items
        ≡ lines.old.items ++ flat_map spec.word_line (map word_said words.now)) }
{
    for word in words {
        push_word(lines, word)?;
    }
    Ok(())
}

/// Appends the lines of the header.
fn push_header<A: Allocator + Copy>(
    lines: &mut Vec<u8, A>,
    header: &Header,
) -> Result<(), AllocError>
    ensures { OnOk result (lines.new.items ≡ lines.old.items ++ spec.header_lines header.now) }
{
    let words = header_words(header);
    push_words(lines, words.as_slice())
}

/// Appends the line of a number of bytes.
fn push_size<A: Allocator + Copy>(
    lines: &mut Vec<u8, A>,
    count: usize,
    what: &str,
) -> Result<(), AllocError>
    ensures { OnOk result (lines.new.items ≡ lines.old.items ++ spec.size_line count what.now) }
{
    let pieces = [
        Piece::Text("  "),
        Piece::Size(count),
        Piece::Text(" bytes "),
        Piece::Text(what),
        Piece::Text("\n"),
    ];
    push_pieces(lines, pieces.as_slice())
}

/// How many bytes of memory the program needs from the first of its image on.
fn needed_len<A: Allocator + Copy>(file: &MzFile<A>) -> usize
    ensures { result ≡ needed_len file.now }
{
    let len = file.image().len();
    let extra = usize::from(file.header().least_extra_paragraphs);
    len.max(PARAGRAPH_LEN * (len / PARAGRAPH_LEN + extra))
}

/// How many bytes the header has.
fn header_len<A: Allocator + Copy>(file: &MzFile<A>) -> usize
    ensures { result ≡ header_len file.now.header }
{
    PARAGRAPH_LEN * usize::from(file.header().header_paragraphs)
}

/// What the words of a header mean in bytes.
#[derive(Clone, Copy)]
struct Sizes {
    header: usize,
    image: usize,
    behind: usize,
    memory: usize,
}

/// Those of a file with so many bytes behind the image.
fn sizes_of<A: Allocator + Copy>(file: &MzFile<A>, behind: usize) -> Sizes
    ensures header { result.header ≡ header_len file.now.header }
    ensures image { result.image ≡ length file.now.image }
    ensures behind { result.behind ≡ behind }
    ensures memory { result.memory ≡ needed_len file.now }
{
    Sizes {
        header: header_len(file),
        image: file.image().len(),
        behind,
        memory: needed_len(file),
    }
}

/// Appends the lines of what the words of a header mean in bytes.
fn push_sizes<A: Allocator + Copy>(lines: &mut Vec<u8, A>, sizes: Sizes) -> Result<(), AllocError>
    ensures { OnOk result (lines.new.items ≡ lines.old.items
        ++ spec.size_lines sizes.header sizes.image sizes.behind sizes.memory) }
{
    push_size(lines, sizes.header, "of the header")?;
    push_size(lines, sizes.image, "of the image")?;
    push_size(lines, sizes.behind, "behind the image")?;
    push_size(lines, sizes.memory, "of memory at least")
}

/// The word at a place, low byte first.
fn word_at(bytes: &[u8], place: usize) -> u16
    requires { place + 2 ≤ length bytes.now }
    ensures { result ≡ word_at bytes.now place }
{
    u16::from_le_bytes([bytes[place], bytes[place + 1]])
}

/// Appends the line of a relocated word.
fn push_relocation<A: Allocator + Copy>(
    lines: &mut Vec<u8, A>,
    image: &[u8],
    entry: Entry,
) -> Result<(), AllocError>
    requires { IsTrue (is_inside (length image.now) entry) }
    ensures { OnOk result (lines.new.items ≡ lines.old.items ++ spec.relocation_line image.now entry) }
{
    let address = entry.address();
    let pieces = [
        Piece::Text("  "),
        Piece::Word(entry.segment),
        Piece::Text(":"),
        Piece::Word(entry.offset),
        Piece::Text(" -> "),
        Piece::FilePlace(address as u64),
        Piece::Text(" "),
        Piece::Word(word_at(image, address)),
        Piece::Text("\n"),
    ];
    push_pieces(lines, pieces.as_slice())
}

/// Appends the lines of relocated words.
fn push_relocations<A: Allocator + Copy>(
    lines: &mut Vec<u8, A>,
    image: &[u8],
    entries: &[Entry],
) -> Result<(), AllocError>
    requires { IsTrue (list_all (is_inside (length image.now)) entries.now) }
    ensures { OnOk result (lines.new.items
        ≡ lines.old.items ++ flat_map (spec.relocation_line image.now) entries.now) }
{
    for entry in entries {
        push_relocation(lines, image, *entry)?;
    }
    Ok(())
}

/// Appends what is printed of a program's file at a path, behind whose image stand so many bytes more: the words of its
/// header, what they mean in bytes, and its relocated words in the order of their table, each with its address in the
/// image and the word that stands there.
///
/// # Errors
/// There was no memory. What was appended before stays.
pub fn push_program<A: Allocator + Copy, B: Allocator + Copy>(
    lines: &mut Vec<u8, A>,
    path: &str,
    file: &MzFile<B>,
    behind: usize,
) -> Result<(), AllocError>
    ensures { OnOk result (lines.new.items ≡ lines.old.items ++ spec.program_lines path.now file.now behind) }
{
    push_title(lines, path)?;
    push_header(lines, &file.header())?;
    push_sizes(lines, sizes_of(file, behind))?;
    push_relocations(lines, file.image(), file.entries())
}
