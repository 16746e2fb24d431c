//! Where bytes are written: a vector, or a room that only counts them.

ghost use Rattle.std.specs.Prelude.{◌≡◌, ◌≤◌, ◌<◌, ◌+◌, ◌++◌, ℕ, List, length, take, OnOk, OnErr};
ghost use Rattle.omf_codec.specs.inside.Format.{IsOutput};
ghost use Rattle.omf_codec.specs.inside.OutputLaws.{vec_output, room_output};

use std::alloc::Allocator;

/// Bytes that could not be written: there is no place for them, or what they were to say has no text.
#[derive(Clone, Copy, Debug)]
pub struct Unwritten;

/// Whether bytes were written.
pub type Written = Result<(), Unwritten>;

/// Takes bytes, or only counts them.
pub trait Output {
    ghost Takes: { Self → List ℕ → Self → Type 0 };

    ghost Refuses: { Self → ℕ → Self → Type 0 };

    fn write(&mut self, bytes: &[u8]) -> Written
        ensures ok { OnOk result (Takes self.old bytes.now self.new) }
        ensures err { OnErr result (Refuses self.old (length bytes.now) self.new) };

    ghost is_output: { IsOutput Takes Refuses };
}

impl<A: Allocator + Copy> Output for Vec<u8, A> {
    ghost Takes = { λ old text new. new.items ≡ old.items ++ text };

    // What stood there still stands in front.
    ghost Refuses = { λ old len new. take (length old.items) new.items ≡ old.items };

    ghost is_output = { vec_output (λ v. v.items) };

    // Most fields are one byte or two, which a push each takes faster than a copy.
    #[inline(always)]
    fn write(&mut self, bytes: &[u8]) -> Written {
        let is_written = match bytes {
            [byte] => self.push(*byte).is_ok(),
            [first, second] => self.push(*first).is_ok() && self.push(*second).is_ok(),
            _ => self.extend_from_slice(bytes).is_ok(),
        };
        if is_written { Ok(()) } else { Err(Unwritten) }
    }
}

/// So many bytes that may still be written.
#[derive(Clone, Copy, Debug)]
pub struct Room {
    pub left: usize,
}

impl Output for Room {
    ghost Takes = { λ old text new. length text + new.left ≡ old.left };

    ghost Refuses = { λ old len new. old.left < len };

    ghost is_output = { room_output (λ r. r.left) };

    fn write(&mut self, bytes: &[u8]) -> Written {
        if bytes.len() > self.left {
            return Err(Unwritten);
        }
        self.left -= bytes.len();
        Ok(())
    }
}
