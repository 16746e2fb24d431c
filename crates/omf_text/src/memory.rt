//! Lines in memory.
ghost use Rattle.std.specs.Prelude.{◌≡◌, ◌++◌, OnOk};
ghost use Rattle.std.specs.List.{flat_map};
ghost use Rattle.omf_text.specs.Pieces.{printed};

use crate::pieces::{Piece, put_each};
use omf_frame::{IoFault, Sink};
use std::alloc::{AllocError, Allocator, Global};
use std::mem;

/// A sink in memory, which takes what there is room for.
#[derive(Drop)]
pub struct Lines<A: Allocator = Global> {
    /// What was written.
    pub bytes: Vec<u8, A>,
    failures: u64,
}

impl<A: Allocator> Lines<A> {
    /// These bytes were written.
    pub fn of(bytes: Vec<u8, A>) -> Lines<A>
        ensures bytes { result.bytes ≡ bytes }
        ensures working { result.failures ≡ 0 }
    {
        Lines { bytes, failures: 0 }
    }
}

impl<A: Allocator> Sink for Lines<A> {
    ghost use Rattle.std.specs.Prelude.{Some};

    ghost written = { λ s. Some s.bytes.items };

    ghost failures = { λ s. s.failures };

    fn write_some(&mut self, bytes: &[u8]) -> Result<usize, IoFault> {
        match self.bytes.extend_from_slice(bytes) {
            Ok(()) => Ok(bytes.len()),
            Err(AllocError) => {
                self.failures += 1;
                Err(IoFault)
            }
        }
    }

    fn failures(&self) -> u64 {
        self.failures
    }
}

/// Appends the pieces of a line, one behind the other.
///
/// # Errors
/// There was no memory. What was appended before stays.
pub fn push_pieces<A: Allocator + Copy>(
    lines: &mut Vec<u8, A>,
    pieces: &[Piece<'_>],
) -> Result<(), AllocError>
    ensures { OnOk result (lines.new.items ≡ lines.old.items ++ flat_map printed pieces.now) }
{
    let alloc = *lines.allocator();
    let mut sink = Lines::of(mem::replace(lines, Vec::new(alloc)));
    let answer = put_each(&mut sink, pieces);
    *lines = sink.bytes;
    match answer {
        Ok(()) => Ok(()),
        Err(IoFault) => Err(AllocError),
    }
}
