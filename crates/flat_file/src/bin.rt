//! The program at a paragraph, and nothing else: a .BIN file.
ghost use Rattle.std.specs.Prelude.{◌≡◌, ◌+◌, ◌-◌, ◌%◌, ◌/◌, ◌^◌, ◌<◌, ◌≤◌, [], ◌∷◌, length, slice_range};
ghost use Rattle.omf_frame.specs.Device.{Writes};
ghost use Rattle.omf_image.specs.Words.{word_at};
ghost use Rattle.flat_file.specs.Forms.{bin_bytes};

use omf_frame::{IoFault, Sink, put_all};
use omf_image::Program;
use std::alloc::Allocator;

/// Writes the bytes of the image from an address to an end, as they stand at paragraph 0; none where the end comes
/// first.
fn put_image<A: Allocator + Copy, K: Sink>(
    program: &Program<A>,
    from: u32,
    end: u32,
    sink: &mut K,
) -> Result<(), IoFault>
    requires working { K.failures sink.old < 2 ^ 64 - 1 }
    requires inside { end ≤ length program.now.image }
    ensures { Writes K.written K.failures sink.old sink.new (slice_range program.now.image from end) result }
{
    let mut at = from;
    while at < end {
        let piece = program.piece(at);
        let len = piece.len().min((end - at) as usize);
        put_all(sink, &piece[..len])?;
        at += len as u32;
    }
    Ok(())
}

/// The two bytes of the word at an address with the paragraph added to it, modulo 65,536.
fn moved_word<A: Allocator + Copy>(program: &Program<A>, address: u32, paragraph: u16) -> [u8; 2]
    requires { address + 2 ≤ length program.now.image }
    ensures { let word = (word_at program.now.image address + paragraph) % 65536
        in result ≡ word % 256 ∷ word / 256 ∷ [] }
{
    // its contract says that an image has at most 1,048,560 bytes
    let _size = program.size();
    let word = u16::from_le_bytes([program.byte(address), program.byte(address + 1)]);
    word.wrapping_add(paragraph).to_le_bytes()
}

/// Writes the file of a program at a paragraph, from an address on to the end of its written part: each relocated word
/// has the paragraph added, modulo 65,536. Nothing is written where the address isn't below that end. It is for memory
/// that begins at 16 times the paragraph plus the address. No memory is taken.
pub fn write_bin<A: Allocator + Copy, K: Sink>(
    program: &Program<A>,
    paragraph: u16,
    from: u32,
    sink: &mut K,
) -> Result<(), IoFault>
    requires { K.failures sink.old < 2 ^ 64 - 1 }
    // All of the file was written and the sink never failed; or a front of it was, and the sink failed once.
    ensures { Writes K.written K.failures sink.old sink.new (bin_bytes paragraph from program.now) result }
{
    // its contract says that relocated words share no byte and lie in the written part
    let _size = program.size();
    let mut at = from;
    for word in program.relocations() {
        put_image(program, at, *word, sink)?;
        let skipped = at.saturating_sub(*word).min(2) as usize;
        put_all(sink, &moved_word(program, *word, paragraph)[skipped..])?;
        at = at.max(*word + 2);
    }
    put_image(program, at, program.written(), sink)
}
