//! Files as bytes: what is read of them and what is loaded.
use mz::{FileFault, Loaded, MzFault, MzFile, load, read_mz};
use omf_frame::{MemSource, Source};
use std::alloc::{AllocError, Global};
use std::process::Abort;
use std::test::*;

/// A file of 37 bytes: one relocated word at address 1 of an image of 5 bytes.
const SMALL: [u8; 37] = [
    0x4D, 0x5A, 0x25, 0x00, 0x01, 0x00, 0x01, 0x00, 0x02, 0x00, 0x00, 0x00, 0xFF, 0xFF, 0x00, 0x00,
    0x00, 0x00, 0x00, 0x00, 0x00, 0x00, 0x00, 0x00, 0x1C, 0x00, 0x00, 0x00, 0x01, 0x00, 0x00, 0x00,
    0xB8, 0x00, 0x00, 0x8E, 0xD8,
];

/// The fault of a file, if any, and how many bytes are left of it.
type Answer = (Option<MzFault>, usize);

/// A file has this answer in pieces of so many bytes, with a failing call, if any.
fn has_answer<R: Abort>(
    rt: &R,
    alloc: Global,
    bytes: &[u8],
    piece: usize,
    fail_at: Option<u64>,
    wanted: Answer,
) {
    let mut source = MemSource::over(bytes, piece.max(1), fail_at);
    let fault = read_mz(alloc, &mut source).err();
    assert_eq!(rt;
        (fault, source.rest().len()),
        wanted,
        "{piece} {fail_at:?} {bytes:?}"
    );
}

/// The small file with some of its bytes replaced, from a place on.
fn changed(at: usize, bytes: &[u8]) -> [u8; 37] {
    let mut file = SMALL;
    for (index, byte) in bytes.iter().enumerate() {
        if let Some(place) = file.get_mut(at.saturating_add(index)) {
            *place = *byte;
        }
    }
    file
}

/// The file has this fault, in pieces of 1, 2 and 3 bytes, and so many bytes are left.
fn has_fault<R: Abort>(rt: &R, alloc: Global, file: &[u8], fault: FileFault, left: usize) {
    for piece in 1..4 {
        has_answer(
            rt,
            alloc,
            file,
            piece,
            None,
            (Some(MzFault::File(fault)), left),
        );
    }
}

/// The small file, with the bytes of each row from its place on, has this fault, and so many bytes are left.
fn have_faults<R: Abort>(rt: &R, alloc: Global, rows: &[(usize, [u8; 4], FileFault, usize)]) {
    for (at, bytes, fault, left) in rows {
        has_fault(rt, alloc, &changed(*at, bytes), *fault, *left);
    }
}

fn is_told<R: Abort>(rt: &R, told: &str, wanted: &str) {
    assert_eq!(rt; told, wanted);
}

/// What a file says, and how many calls of its source have failed.
fn described(alloc: Global, file: &MzFile, failures: u64) -> Result<String, AllocError> {
    let header = file.header();
    format!(in alloc;
        "table at {}, overlay {}, {failures} failures\n{:?}\n{:?}",
        header.relocation_table,
        header.overlay,
        file.entries(),
        file.image()
    )
}

/// What is read of a file.
fn read(alloc: Global, bytes: &[u8]) -> Result<String, Fail> {
    let mut source = MemSource::over(bytes, 7, None);
    let file = read_mz(alloc, &mut source)?;
    Ok(described(alloc, &file, source.failures())?)
}

/// The length of what is loaded, its first bytes, its last bytes and the registers.
fn described_load(alloc: Global, loaded: &Loaded) -> Result<String, AllocError> {
    let bytes = loaded.bytes();
    let (first, last) = (bytes.get(..4), bytes.get(bytes.len().saturating_sub(3)..));
    format!(in alloc;
        "{}: {first:?} {last:?}\n{:?}",
        bytes.len(),
        loaded.registers()
    )
}

/// What a file is as it is loaded at a paragraph.
fn loaded(alloc: Global, bytes: &[u8], paragraph: u16) -> Result<String, Fail> {
    let file = read_mz(alloc, &mut MemSource::over(bytes, 4096, None))?;
    let loaded = load(alloc, &file, paragraph)?;
    Ok(described_load(alloc, &loaded)?)
}

#[test]
fn a_file_is_read_and_loaded(rt: HostRuntime) -> Result<(), Fail> {
    is_told(
        &rt,
        &read(rt.alloc(), &SMALL)?,
        "\
table at 28, overlay 0, 0 failures
[Entry { offset: 1, segment: 0 }]
[184, 0, 0, 142, 216]",
    );
    is_told(
        &rt,
        &loaded(rt.alloc(), &SMALL, 0x1234)?,
        "\
5: Some([184, 52, 18, 142]) Some([18, 142, 216])
Registers { cs: 4660, ip: 0, ss: 4660, sp: 0 }",
    );
    Ok(())
}

#[test]
fn the_first_fault_is_named(rt: HostRuntime) {
    have_faults(
        &rt,
        rt.alloc(),
        &[
            (0, [0x5A, 0x4D, 0x25, 0x00], FileFault::Magic, 9),
            (0, [0x5A, 0x5A, 0x00, 0x02], FileFault::Magic, 9),
            (0, [0x4D, 0x00, 0x25, 0x00], FileFault::Magic, 9),
            // 512 bytes on the last page, no page, more pages than there are bytes
            (2, [0x00, 0x02, 0x01, 0x00], FileFault::Header, 9),
            (2, [0x25, 0x00, 0x00, 0x00], FileFault::Header, 9),
            (2, [0x25, 0x00, 0x02, 0x00], FileFault::Truncated, 0),
            (2, [0x00, 0x00, 0xFF, 0xFF], FileFault::Truncated, 0),
            // a table of two entries or of 65,535, a header of 16 bytes, one of 48
            (6, [0x02, 0x00, 0x02, 0x00], FileFault::Header, 9),
            (6, [0xFF, 0xFF, 0x02, 0x00], FileFault::Header, 9),
            (6, [0x00, 0x00, 0x01, 0x00], FileFault::Header, 9),
            (6, [0x01, 0x00, 0x03, 0x00], FileFault::Header, 9),
            // a table among the words of the header, and one behind the header
            (24, [0x1B, 0x00, 0x00, 0x00], FileFault::Header, 9),
            (24, [0x1D, 0x00, 0x00, 0x00], FileFault::Header, 9),
            // the last byte of a word lies outside, or the segment does
            (
                28,
                [0x04, 0x00, 0x00, 0x00],
                FileFault::RelocationOutside,
                0,
            ),
            (
                28,
                [0x00, 0x00, 0x01, 0x00],
                FileFault::RelocationOutside,
                0,
            ),
            (
                28,
                [0xFF, 0xFF, 0xFF, 0xFF],
                FileFault::RelocationOutside,
                0,
            ),
        ],
    );
}

/// Each other value of the byte at a place is refused.
fn is_needed<R: Abort>(rt: &R, alloc: Global, at: usize, own: u8) {
    for value in 0..=255u8 {
        if value != own {
            has_fault(rt, alloc, &changed(at, &[value]), FileFault::Magic, 9);
        }
    }
}

#[test]
fn each_other_first_byte_is_refused(rt: HostRuntime) {
    is_needed(&rt, rt.alloc(), 0, 0x4D);
    is_needed(&rt, rt.alloc(), 1, 0x5A);
}

/// Without relocations nothing looks at the table's place, nor at the words that are kept.
#[test]
fn a_header_without_relocations(rt: HostRuntime) -> Result<(), Fail> {
    let bytes = [
        0x4D, 0x5A, 0x25, 0x00, 0x01, 0x00, 0x00, 0x00, 0x02, 0x00, 0x00, 0x00, 0xFF, 0xFF, 0x00,
        0x00, 0x00, 0x00, 0x00, 0x00, 0x00, 0x00, 0x00, 0x00, 0xFF, 0xFF, 0x07, 0x00, 0x01, 0x02,
        0x03, 0x04, 0x05, 0x06, 0x07, 0x08, 0x09,
    ];
    is_told(
        &rt,
        &read(rt.alloc(), &bytes)?,
        "\
table at 65535, overlay 7, 0 failures
[]
[5, 6, 7, 8, 9]",
    );
    Ok(())
}

/// A file with a table of three entries at 30 in a header of 48 bytes, and an image of 24 bytes that begins with a
/// word.
const TWICE: [u8; 72] = [
    0x4D, 0x5A, 0x48, 0x00, 0x01, 0x00, 0x03, 0x00, 0x03, 0x00, 0x00, 0x00, 0xFF, 0xFF, 0x01, 0x00,
    0x10, 0x00, 0x00, 0x00, 0x02, 0x00, 0xFE, 0xFF, 0x1E, 0x00, 0x00, 0x00, 0x00, 0x00, 0x00, 0x00,
    0x00, 0x00, 0x01, 0x00, 0x00, 0x00, 0x00, 0x00, 0x00, 0x00, 0x00, 0x00, 0x00, 0x00, 0x00, 0x00,
    0xFF, 0xFF, 0x00, 0x00, 0x00, 0x00, 0x00, 0x00, 0x00, 0x00, 0x00, 0x00, 0x00, 0x00, 0x00, 0x00,
    0x00, 0x00, 0x00, 0x00, 0x00, 0x00, 0x00, 0x00,
];

/// Whether the file can't be loaded at a paragraph.
fn load_fault(alloc: Global, bytes: &[u8], paragraph: u16) -> Result<Option<MzFault>, MzFault> {
    let file = read_mz(alloc, &mut MemSource::over(bytes, 512, None))?;
    Ok(load(alloc, &file, paragraph).err())
}

/// The file fits at the paragraph, and not at the next.
fn fits_until<R: Abort>(rt: &R, alloc: Global, bytes: &[u8], paragraph: u16) {
    let here = load_fault(alloc, bytes, paragraph);
    let next = load_fault(alloc, bytes, paragraph.saturating_add(1));
    assert_eq!(rt;
        (here, next),
        (Ok(None), Ok(Some(MzFault::File(FileFault::DoesNotFit)))),
        "{paragraph}"
    );
}

/// The paragraph is added at 0, then at 1, and at 0 again. The image of 24 bytes ends with the memory at FFFEH, and
/// above it at FFFFH.
#[test]
fn entries_that_overlap_and_repeat(rt: HostRuntime) -> Result<(), Fail> {
    is_told(
        &rt,
        &read(rt.alloc(), &TWICE)?,
        "\
table at 30, overlay 0, 0 failures
[Entry { offset: 0, segment: 0 }, Entry { offset: 1, segment: 0 }, Entry { offset: 0, segment: 0 }]
[255, 255, 0, 0, 0, 0, 0, 0, 0, 0, 0, 0, 0, 0, 0, 0, 0, 0, 0, 0, 0, 0, 0, 0]",
    );
    is_told(
        &rt,
        &loaded(rt.alloc(), &TWICE, 0x0102)?,
        "\
24: Some([3, 4, 1, 0]) Some([0, 0, 0])
Registers { cs: 256, ip: 2, ss: 259, sp: 16 }",
    );
    fits_until(&rt, rt.alloc(), &TWICE, 0xFFFE);
    Ok(())
}

/// With this many least and greatest extra paragraphs the image of 5 bytes fits at a paragraph, and not at the next.
#[test]
fn extra_paragraphs(rt: HostRuntime) {
    fits_until(&rt, rt.alloc(), &changed(10, &[2, 0, 0xFF, 0xFF]), 0xFFFE);
    fits_until(&rt, rt.alloc(), &changed(10, &[2, 0, 0, 0]), 0xFFFE);
    fits_until(&rt, rt.alloc(), &changed(10, &[0, 0x10, 0, 0]), 0xF000);
    fits_until(&rt, rt.alloc(), &changed(10, &[0xFF, 0xFF, 0, 0]), 1);
}

/// A file of 65,570 bytes with one entry, whose image is zeros but for the word at 65,535.
fn large(alloc: Global, entry: [u8; 4]) -> Result<Vec<u8>, AllocError> {
    let [first, second, third, fourth] = entry;
    let head = [
        0x4D, 0x5A, 0x22, 0x00, 0x81, 0x00, 0x01, 0x00, 0x02, 0x00, 0x00, 0x00, 0xFF, 0xFF, 0x00,
        0x00, 0x00, 0x00, 0x00, 0x00, 0x00, 0x00, 0x00, 0x00, 0x1C, 0x00, 0x00, 0x00, first,
        second, third, fourth,
    ];
    let mut file = Vec::from_slice(alloc, &head)?;
    file.resize(32 + 65_535, 0)?;
    file.extend_from_slice(&[0xFF, 0x0F, 0x00])?;
    Ok(file)
}

#[test]
fn a_word_over_the_end_of_a_segment(rt: HostRuntime) -> Result<(), Fail> {
    let bytes = large(rt.alloc(), [0x0F, 0x00, 0xFF, 0x0F])?;
    is_told(
        &rt,
        &loaded(rt.alloc(), &bytes, 1)?,
        "\
65538: Some([0, 0, 0, 0]) Some([0, 16, 0])
Registers { cs: 1, ip: 0, ss: 1, sp: 0 }",
    );
    let wrapping = large(rt.alloc(), [0xFF, 0xFF, 0x00, 0x00])?;
    has_fault(&rt, rt.alloc(), &wrapping, FileFault::RelocationOutside, 0);
    Ok(())
}

#[test]
fn cut_off_and_longer_files(rt: HostRuntime) {
    for len in 0..37 {
        has_fault(&rt, rt.alloc(), &SMALL[..len], FileFault::Truncated, 0);
    }
    let mut longer = [5; 42];
    longer[..37].copy_from_slice(&SMALL);
    has_answer(&rt, rt.alloc(), &longer, 512, None, (None, 5));
}

#[test]
fn a_failing_read(rt: HostRuntime) {
    for call in 1..38usize {
        has_answer(
            &rt,
            rt.alloc(),
            &SMALL,
            1,
            Some(call as u64),
            (Some(MzFault::File(FileFault::Device)), 38 - call),
        );
    }
    has_answer(&rt, rt.alloc(), &SMALL, 1, Some(38), (None, 0));
}
