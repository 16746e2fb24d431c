//! Bytes in memory, as a source.
ghost use Rattle.std.specs.Prelude.{Some};

use omf_frame::{IoFault, Source};

/// Bytes to come, which a source gives that never fails.
#[derive(Drop)]
pub(crate) struct Bytes<'a> {
    pub rest: &'a [u8],
}

impl Source for Bytes<'_> {
    ghost remaining = { λ s. Some s.rest.now };

    ghost failures = { λ s. 0 };

    fn read_some(&mut self, buf: &mut [u8]) -> Result<usize, IoFault> {
        let n = buf.len().min(self.rest.len());
        let (front, rest) = self.rest.split_at(n);
        buf[..n].copy_from_slice(front);
        self.rest = rest;
        Ok(n)
    }

    fn failures(&self) -> u64 {
        0
    }
}
