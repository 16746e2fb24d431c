//! Files over a world in memory.

use desk::{Count, Desk, Page};
use omf_files::{BufferedSink, CreatedFile, open_source};
use omf_frame::{Sink, Source, put_all};
use rows::same;
use std::alloc::{AllocError, Global};
use std::fs;
use std::io::{self, ErrorKind, Write};
use std::test::*;

/// A writer that takes so many bytes, in pieces of at most 1,000, and then fails.
#[derive(Drop)]
struct Room {
    left: usize,
}

impl Write for Room {
    fn write(&mut self, buf: &[u8]) -> io::Result<usize> {
        let n = buf.len().min(1000).min(self.left);
        if n == 0 {
            return Err(io::Error::from(ErrorKind::StorageFull));
        }
        self.left -= n;
        Ok(n)
    }

    fn flush(&mut self) -> io::Result<()> {
        Ok(())
    }
}

/// Bytes and a flush, over a writer with so much room: whether the sink took all, whether that went well with the flush,
/// and whether no call failed.
fn written(alloc: Global, room: usize, bytes: &[u8]) -> Result<(bool, bool, bool), AllocError> {
    let mut sink = BufferedSink::new(alloc, Room { left: room })?;
    let taken = put_all(&mut sink, bytes).is_ok();
    let whole = taken && sink.flush().is_ok();
    Ok((taken, whole, sink.failures() == 0))
}

/// Bytes go to a writer with so much room as they should: whole, or with a failure, which comes at the flush or, where
/// there are more than are held back, before it.
fn ends(alloc: Global, room: usize, bytes: &[u8], is_whole: bool) -> Result<(), Fail> {
    let (taken, whole, is_sound) = written(alloc, room, bytes)?;
    if (taken || bytes.len() > 8_192) && whole == is_whole && is_sound == is_whole {
        return Ok(());
    }
    let count = bytes.len();
    Err(Fail::new(format_args!("{count} bytes in a room of {room}: {taken}, {whole}, {is_sound}")))
}

/// They do, so many of these bytes at a time.
fn all_end(alloc: Global, bytes: &[u8]) -> Result<(), Fail> {
    for (room, count, is_whole) in [
        (6usize, 6usize, true),
        (5, 6, false),
        (0, 1, false),
        (20_000, 20_000, true),
        (19_999, 20_000, false),
        (100, 20_000, false),
    ] {
        ends(alloc, room, bytes.get(..count).unwrap_or(&[]), is_whole)?;
    }
    Ok(())
}

#[test]
fn a_late_failure_comes_at_the_flush(rt: HostRuntime) -> Result<(), Fail> {
    all_end(rt.alloc(), &[1u8; 20_000])
}

/// The file at a path has this text.
fn has_text(rt: &HostRuntime, path: &str, text: &str) -> Result<(), Fail> {
    same(&fs::read_to_string(rt, path)?, text)
}

/// A folder for the files of a test.
const FOLDER: &str = "omf-files.tmp";

/// A path in it.
const FILE: &str = "omf-files.tmp/file";

/// Beside the file nothing else is left in its folder.
fn stands_alone(rt: &HostRuntime) -> Result<(), Fail> {
    for entry in fs::read_dir(rt, FOLDER)? {
        same(entry?.file_name(), "file")?;
    }
    Ok(())
}

/// A file that was `old` stays so at a flush before the first byte, and at one behind two. It is `ab` when it is kept.
fn is_replaced(rt: &HostRuntime) -> Result<(), Fail> {
    let mut sink = BufferedSink::new(rt.alloc(), CreatedFile::new(rt, FILE))?;
    let is_flushed = sink.flush().is_ok();
    has_text(rt, FILE, "old")?;
    let is_put = put_all(&mut sink, b"ab").is_ok();
    let is_written = sink.flush().is_ok();
    has_text(rt, FILE, "old")?;
    let is_kept = sink.keep().is_ok();
    has_text(rt, FILE, "ab")?;
    stands_alone(rt)?;
    if is_flushed && is_put && is_written && is_kept {
        return Ok(());
    }
    Err(Fail::from("a call failed"))
}

/// It stays so where nothing is written, and what was written isn't kept.
fn is_left(rt: &HostRuntime) -> Result<(), Fail> {
    let untouched = BufferedSink::new(rt.alloc(), CreatedFile::new(rt, FILE))?;
    let is_kept = untouched.keep().is_ok();
    has_text(rt, FILE, "old")?;
    let mut sink = BufferedSink::new(rt.alloc(), CreatedFile::new(rt, FILE))?;
    let is_put = put_all(&mut sink, b"ab").is_ok() && sink.flush().is_ok();
    drop(sink);
    has_text(rt, FILE, "old")?;
    stands_alone(rt)?;
    if is_kept && is_put {
        return Ok(());
    }
    Err(Fail::from("a call failed"))
}

#[test]
fn a_file_takes_its_place_when_it_is_kept(rt: HostRuntime) -> Result<(), Fail> {
    fs::create_dir(&rt, FOLDER)?;
    fs::write(&rt, FILE, "old")?;
    is_left(&rt)?;
    is_replaced(&rt)?;
    fs::remove_dir_all(&rt, FOLDER)?;
    Ok(())
}

/// Whether two bytes for a file are taken, and whether a flush behind them goes well.
fn taken_and_flushed(rt: &HostRuntime, path: &str) -> Result<(bool, bool), AllocError> {
    let mut sink = BufferedSink::new(rt.alloc(), CreatedFile::new(rt, path))?;
    let taken = put_all(&mut sink, b"ab").is_ok();
    Ok((taken, sink.flush().is_ok()))
}

#[test]
fn a_file_without_a_folder_fails_at_the_flush(rt: HostRuntime) -> Result<(), Fail> {
    match taken_and_flushed(&rt, "no-folder/x")? {
        (true, false) => Ok(()),
        _ => Err(Fail::from("it fails before the flush, or not at all")),
    }
}

/// How many bytes a page has.
fn length_of(alloc: Global, page: &Page<'_>) -> Result<usize, AllocError> {
    Ok(page.bytes(alloc)?.len())
}

/// How much was opened before the first of two reads of a file that is missing, what they say, how often they failed,
/// and whether for want of memory.
fn missing(alloc: Global, desk: Desk<'_, '_>) -> Result<String, AllocError> {
    let mut source = open_source(alloc, desk, "NO");
    let unread = length_of(alloc, desk.opened)?;
    let mut buf = [0u8; 2];
    let first = source.read_some(&mut buf);
    let second = source.read_some(&mut buf);
    let (failures, lacks) = (source.failures(), source.lacks_memory());
    format!(in alloc; "{unread} {first:?} {second:?} {failures} {lacks}")
}

const MISSING: &str = "0 Err(IoFault) Err(IoFault) 2 false";

/// How much was opened before the first read of a file, what that says, how many files are open, how many after its
/// end, how often it failed, what a read behind the end says, and how often it failed then.
fn finished(alloc: Global, desk: Desk<'_, '_>) -> Result<String, AllocError> {
    let mut source = open_source(alloc, desk, "A");
    let unread = length_of(alloc, desk.opened)?;
    let mut buf = [0u8; 2];
    let first = source.read_some(&mut buf);
    let open = desk.count.open();
    source.finish();
    let (left, before) = (desk.count.open(), source.failures());
    let second = source.read_some(&mut buf);
    let after = source.failures();
    format!(in alloc; "{unread} {first:?} {open} {left} {before} {second:?} {after}")
}

const FINISHED: &str = "3 Ok(2) 1 0 0 Err(IoFault) 1";

/// Of two sources over a desk with one file each opens its path at its first read, and not again.
fn reads_once<'a>(alloc: Global, opened: &'a Page<'a>, count: &'a Count) -> Result<(), Fail> {
    let desk = Desk {
        files: &[("A", b"abc")],
        folders: &[],
        devices: &[],
        locked: &[],
        links: &[],
        out: opened,
        map: opened,
        opened,
        count,
    };
    same(&missing(alloc, desk)?, MISSING)?;
    same(&finished(alloc, desk)?, FINISHED)?;
    same(str::from_utf8(&opened.bytes(alloc)?)?, "NO A ")
}

#[test]
fn a_file_is_opened_at_its_first_read_and_once(rt: HostRuntime) -> Result<(), Fail> {
    let opened = Page::blank(rt.alloc(), "", 100);
    let count = Count::new();
    reads_once(rt.alloc(), &opened, &count)
}
