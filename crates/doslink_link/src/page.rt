//! Bytes that are written in memory.
ghost use Rattle.std.specs.Prelude.{◌≡◌, []};

use omf_frame::{IoFault, Sink};
use std::alloc::{AllocError, Allocator};

/// A sink in memory, which fails where it can't grow.
#[derive(Drop)]
pub struct Page<A: Allocator> {
    /// What was written.
    pub bytes: Vec<u8, A>,
    failures: u64,
}

impl<A: Allocator> Page<A> {
    /// Nothing was written.
    pub fn new(alloc: A) -> Page<A>
        ensures empty { result.bytes.items ≡ [] }
        ensures working { result.failures ≡ 0 }
    {
        Page {
            bytes: Vec::new(alloc),
            failures: 0,
        }
    }
}

impl<A: Allocator> Sink for Page<A> {
    ghost use Rattle.std.specs.Prelude.{Some};

    ghost written = { λ s. Some s.bytes.items };

    ghost failures = { λ s. s.failures };

    fn write_some(&mut self, bytes: &[u8]) -> Result<usize, IoFault> {
        match self.bytes.extend_from_slice(bytes) {
            Ok(()) => Ok(bytes.len()),
            Err(AllocError) => {
                self.failures += 1;
                Err(IoFault)
            }
        }
    }

    fn failures(&self) -> u64 {
        self.failures
    }
}
