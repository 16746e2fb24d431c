use omf_frame::{IoFault, ReadSource, Sink, Source, WriteSink, put_all};
use std::cell::Cell;
use std::io::{self, ErrorKind, Read, Write};
use std::process::Abort;

// A reader that gives at most two bytes a call, fails at its second call and then goes on, and counts its calls.
#[derive(Drop)]
struct Reader<'a> {
    rest: &'a [u8],
    calls: &'a Cell<u32>,
}

impl Read for Reader<'_> {
    fn read(&mut self, buf: &mut [u8]) -> io::Result<usize> {
        self.calls.set(self.calls.get().wrapping_add(1));
        if self.calls.get() == 2 {
            return Err(io::Error::from(ErrorKind::Interrupted));
        }
        let n = buf.len().min(2).min(self.rest.len());
        let (front, rest) = self.rest.split_at(n);
        buf[..n].copy_from_slice(front);
        self.rest = rest;
        Ok(n)
    }
}

/// What a read answers and gives, how many have failed then, and how many calls the reader has had.
type Reading<'a> = (Result<usize, IoFault>, &'a [u8], u64, u32);

fn reads<R: Abort, S: Source>(rt: &R, source: &mut S, calls: &Cell<u32>, wanted: Reading<'_>) {
    assert!(rt; source.failures() < 9);
    let mut buf = *b"---";
    let answer = source.read_some(&mut buf);
    let told = (answer, buf.as_slice(), source.failures(), calls.get());
    assert_eq!(rt; told, wanted);
}

#[test]
fn a_read_is_one_call_of_the_reader(rt: HostRuntime) {
    let calls = Cell::new(0);
    let mut source = ReadSource::new(Reader {
        rest: b"abcde",
        calls: &calls,
    });
    reads(&rt, &mut source, &calls, (Ok(2), b"ab-", 0, 1));
    reads(&rt, &mut source, &calls, (Err(IoFault), b"---", 1, 2));
    reads(&rt, &mut source, &calls, (Ok(2), b"cd-", 1, 3));
    reads(&rt, &mut source, &calls, (Ok(1), b"e--", 1, 4));
    reads(&rt, &mut source, &calls, (Ok(0), b"---", 1, 5));
    reads(&rt, &mut source, &calls, (Ok(0), b"---", 1, 6));
    source.finish();
    assert_eq!(rt; calls.get(), 6);
}

/// The bytes that a writer took, and the calls that it had.
#[derive(Drop)]
struct Counts {
    taken: Cell<usize>,
    calls: Cell<u32>,
}

// A writer that takes at most two bytes a call, fails at its second call, takes none at its third and then goes on, and
// counts its calls and the bytes that it took.
#[derive(Drop)]
struct Writer<'a> {
    counts: &'a Counts,
}

impl Write for Writer<'_> {
    fn write(&mut self, buf: &[u8]) -> io::Result<usize> {
        self.counts
            .calls
            .set(self.counts.calls.get().wrapping_add(1));
        if self.counts.calls.get() == 2 {
            return Err(io::Error::from(ErrorKind::Interrupted));
        }
        if self.counts.calls.get() == 3 {
            return Ok(0);
        }
        let n = buf.len().min(2);
        self.counts
            .taken
            .set(self.counts.taken.get().wrapping_add(n));
        Ok(n)
    }

    fn flush(&mut self) -> io::Result<()> {
        Ok(())
    }
}

/// How many bytes the writer has taken, in how many calls, and how many have failed.
type Taken = (usize, u32, u64);

/// A write answers this and leaves this taken.
fn writes<R: Abort, K: Sink>(
    rt: &R,
    sink: &mut K,
    counts: &Counts,
    bytes: &[u8],
    wanted: (Result<usize, IoFault>, Taken),
) {
    assert!(rt; sink.failures() < 9);
    let answer = sink.write_some(bytes);
    let taken = (counts.taken.get(), counts.calls.get(), sink.failures());
    assert_eq!(rt; (answer, taken), wanted);
}

#[test]
fn a_write_is_one_call_of_the_writer(rt: HostRuntime) {
    let counts = Counts {
        taken: Cell::new(0),
        calls: Cell::new(0),
    };
    let mut sink = WriteSink::new(Writer { counts: &counts });
    writes(&rt, &mut sink, &counts, b"abcde", (Ok(2), (2, 1, 0)));
    writes(&rt, &mut sink, &counts, b"cde", (Err(IoFault), (2, 2, 1)));
    writes(&rt, &mut sink, &counts, b"cde", (Err(IoFault), (2, 3, 2)));
    writes(&rt, &mut sink, &counts, b"cde", (Ok(2), (4, 4, 2)));
    writes(&rt, &mut sink, &counts, b"", (Ok(0), (4, 5, 2)));
    writes(&rt, &mut sink, &counts, b"e", (Ok(1), (5, 6, 2)));
}

/// Writing all of the bytes answers this and leaves this taken.
fn writes_all<R: Abort, K: Sink>(
    rt: &R,
    sink: &mut K,
    counts: &Counts,
    bytes: &[u8],
    wanted: (Result<(), IoFault>, Taken),
) {
    assert!(rt; sink.failures() < 9);
    let answer = put_all(sink, bytes);
    let taken = (counts.taken.get(), counts.calls.get(), sink.failures());
    assert_eq!(rt; (answer, taken), wanted);
}

#[test]
fn writing_all_ends_at_the_first_failure(rt: HostRuntime) {
    let counts = Counts {
        taken: Cell::new(0),
        calls: Cell::new(0),
    };
    let mut sink = WriteSink::new(Writer { counts: &counts });
    writes_all(&rt, &mut sink, &counts, b"abcde", (Err(IoFault), (2, 2, 1)));
    writes_all(&rt, &mut sink, &counts, b"cde", (Err(IoFault), (2, 3, 2)));
    writes_all(&rt, &mut sink, &counts, b"cde", (Ok(()), (5, 5, 2)));
}
