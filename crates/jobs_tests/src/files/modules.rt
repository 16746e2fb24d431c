//! Files that go on behind their modules.

use desk::Pen;
use doslink_files::{FilesFault, Folders, Sought, read_sought};
use omf_files::{Looked, World};
use rows::{bytes_of, put_record, same};
use std::alloc::{AllocError, Global};
use std::io::{self, ErrorKind, Read};
use std::test::*;

/// How many zeros stand behind a file's own bytes.
const ZEROS: usize = 1_000_000;

/// What comes behind the zeros.
#[derive(Clone, Copy, Debug, PartialEq, Eq)]
enum Behind {
    /// The file's end.
    End,
    /// A read that fails.
    Failure,
}

/// What is left of a file.
#[derive(Drop)]
struct Tape<'a> {
    rest: &'a [u8],
    zeros: usize,
    behind: Behind,
}

impl Read for Tape<'_> {
    fn read(&mut self, buf: &mut [u8]) -> io::Result<usize> {
        if !self.rest.is_empty() {
            let n = buf.len().min(self.rest.len());
            let (front, rest) = self.rest.split_at(n);
            buf[..n].copy_from_slice(front);
            self.rest = rest;
            return Ok(n);
        }
        let n = buf.len().min(self.zeros);
        if n == 0 && self.behind == Behind::Failure {
            return Err(io::Error::from(ErrorKind::TimedOut));
        }
        buf[..n].fill(0);
        self.zeros = self.zeros.saturating_sub(n);
        Ok(n)
    }
}

/// A world in which each file has these bytes, and zeros behind them.
#[derive(Clone, Copy)]
struct Shelf<'a> {
    bytes: &'a [u8],
    behind: Behind,
}

impl<'a> World for Shelf<'a> {
    type Input = Tape<'a>;

    type Created = Pen<'a>;

    fn open(&self, _path: &str) -> io::Result<Tape<'a>> {
        Ok(Tape {
            rest: self.bytes,
            zeros: ZEROS,
            behind: self.behind,
        })
    }

    fn look(&self, _path: &str) -> io::Result<Looked> {
        Err(io::Error::from(ErrorKind::NotFound))
    }

    fn create(&self, _path: &str) -> io::Result<Pen<'a>> {
        Err(io::Error::from(ErrorKind::NotFound))
    }

    fn keep(&self, _file: Pen<'a>, _path: &str) -> io::Result<()> {
        Err(io::Error::from(ErrorKind::NotFound))
    }
}

/// No folders beside this one.
const NO_FOLDERS: Folders<'static> = Folders {
    objects: &[],
    libraries: &[],
};

/// What is read of a file: how many of its own bytes and of the zeros behind them, or why it isn't read.
fn told(alloc: Global, bytes: &[u8], behind: Behind) -> Result<String, Fail> {
    let shelf = Shelf { bytes, behind };
    match read_sought(alloc, &shelf, NO_FOLDERS, &[Sought::File("A.OBJ")]) {
        Ok(files) => {
            let Some(file) = files.first() else {
                return Ok(String::from_str(alloc, "no file")?);
            };
            let own = file.bytes.len().min(bytes.len());
            if file.bytes[..own] != bytes[..own] {
                return Ok(String::from_str(alloc, "other bytes")?);
            }
            Ok(format!(in alloc; "{own} + {}", file.bytes.len().saturating_sub(own))?)
        }
        Err(FilesFault::Memory) => Ok(String::from_str(alloc, "memory")?),
        Err(FilesFault::Unread(unread)) => match unread.first() {
            Some(one) => Ok(one.fault.to_string(alloc)?),
            None => Ok(String::from_str(alloc, "no reason")?),
        },
    }
}

/// The bytes of files, how many of these and of the zeros behind them are read, and what is told where a read behind
/// the zeros fails.
const FILES: [(&str, &str, &str); 7] = [
    // a module, and something else behind it
    ("80 03 00 01 41 3B 8A 02 00 00 74", "11 + 0", "11 + 0"),
    ("80 03 00 01 41 3B 8A 02 00 00 74 41 42", "11 + 0", "11 + 0"),
    // a library with a member and one without any: up to the type of the record at its end
    (
        "F0 0D 00 00*13 80 03 00 01 41 3B 8A 02 00 00 74 00*5 F1 0D 00 41",
        "33 + 0",
        "33 + 0",
    ),
    ("F0 0D 00 00*13 F1 0D 00", "17 + 0", "17 + 0"),
    // no end is found: a module without its last record, one with a fault, and an archive
    ("80 03 00 01 41 3B", "6 + 1000000", "timed out"),
    (
        "80 03 00 01 41 3C 8A 02 00 00 74",
        "11 + 1000000",
        "timed out",
    ),
    ("21 3C 61 72 63 68 3E 0A", "8 + 1000000", "timed out"),
];

#[test]
fn files_are_read_up_to_the_end_of_their_modules(rt: HostRuntime) -> Result<(), Fail> {
    for (digits, whole, failing) in FILES {
        let bytes = bytes_of(rt.alloc(), digits)?;
        same(&told(rt.alloc(), &bytes, Behind::End)?, whole)?;
        same(&told(rt.alloc(), &bytes, Behind::Failure)?, failing)?;
    }
    Ok(())
}

/// A module with this many comments of 1,000 bytes.
fn long_module(alloc: Global, comments: usize) -> Result<Vec<u8>, AllocError> {
    let mut module = Vec::new(alloc);
    put_record(&mut module, 0x80, &[1, 0x41])?;
    for _ in 0..comments {
        put_record(&mut module, 0x88, &[0; 996])?;
    }
    put_record(&mut module, 0x8A, &[0])?;
    Ok(module)
}

#[test]
fn long_modules_are_read_up_to_their_end(rt: HostRuntime) -> Result<(), Fail> {
    // around the first and the second length of the front in which the end is looked for
    for comments in [64, 65, 66, 130, 132] {
        let module = long_module(rt.alloc(), comments)?;
        let all = format!(in rt.alloc(); "{} + 0", module.len())?;
        same(&told(rt.alloc(), &module, Behind::Failure)?, &all)?;
        same(&told(rt.alloc(), &module, Behind::End)?, &all)?;
    }
    Ok(())
}
