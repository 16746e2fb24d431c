//! What DOS makes of a .COM file.
ghost use Rattle.std.specs.Prelude.{◌≡◌};
ghost use Rattle.flat_file.specs.Com.{Loads, loading};
ghost use Rattle.flat_file.specs.declared.loading.ComFault.TheVariants.{Memory};

use crate::com::{COM_START, SEGMENT_LEN};
use crate::covered::MEMORY_LEN;
use omf_image::Registers;
use std::alloc::{AllocError, Allocator, Global};
use std::marker::Model;
use thiserror::Error;

/// The most bytes of a file behind the program segment prefix.
const MOST: usize = 65_280;

/// The offset in the segment of the word that is pushed, and what SP is.
const PUSHED: u16 = 0xFFFE;

/// Why a .COM file isn't loaded.
#[derive(Clone, Copy, Debug, PartialEq, Eq, Error)]
pub enum ComFault {
    /// The file has more than 65,280 bytes.
    #[error("the file has more than 65,280 bytes")]
    TooLong,
    /// The program's segment would end above the memory of 1,048,576 bytes.
    #[error("it doesn't fit at the paragraph")]
    DoesNotFit,
    /// There was no memory.
    #[error("out of memory")]
    Memory,
}

impl From<AllocError> for ComFault {
    ghost from_gives = { λ _ e. e ≡ Memory };

    // Only memory runs out so.
    fn from(_error: AllocError) -> ComFault {
        ComFault::Memory
    }
}

/// A loaded program: the bytes of its file from offset 100H of its segment on, below the word that is pushed, and its
/// registers at the start. DS and ES are CS.
#[derive(Drop)]
pub struct LoadedCom<A: Allocator + Copy = Global> {
    bytes: Vec<u8, A>,
    registers: Registers,
}

impl<A: Allocator + Copy> Model for LoadedCom<A> {
    ghost use Rattle.flat_file.specs.Com.{LoadedCom};

    ghost Value = { LoadedCom };

    ghost view = { λ l. record { bytes = l.bytes.items; registers = l.registers } };
}

impl<A: Allocator + Copy> LoadedCom<A> {
    /// The bytes from offset 100H of the program's segment on that are the file's.
    pub fn bytes(&self) -> &[u8]
        ensures { result.now ≡ self.now.bytes }
    {
        &self.bytes
    }

    /// The registers at the start: CS and SS are the paragraph of the program segment prefix, and so are DS and ES.
    pub fn registers(&self) -> Registers
        ensures { result ≡ self.now.registers }
    {
        self.registers
    }
}

/// Loads a .COM file, whose bytes these are, behind the program segment prefix at a paragraph, as DOS does where a
/// segment's 65,536 bytes are free. It is refused exactly where it has more than 65,280 bytes, else where the segment
/// would end above 1,048,576 bytes.
pub fn load_com<A: Allocator + Copy>(
    alloc: A,
    file: &[u8],
    psp: u16,
) -> Result<LoadedCom<A>, ComFault>
    ensures { Loads result (loading psp file.now) }
{
    if file.len() > MOST {
        return Err(ComFault::TooLong);
    }
    if 16 * u32::from(psp) + SEGMENT_LEN > MEMORY_LEN {
        return Err(ComFault::DoesNotFit);
    }
    let kept = file.len().min(usize::from(PUSHED - COM_START));
    let bytes = Vec::from_slice(alloc, &file[..kept])?;
    Ok(LoadedCom {
        bytes,
        registers: Registers {
            cs: psp,
            ip: COM_START,
            ss: psp,
            sp: PUSHED,
        },
    })
}
