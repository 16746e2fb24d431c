//! Why the words of a command line are no job.
ghost use Rattle.std.specs.Prelude.{◌≡◌};
ghost use Rattle.clap.specs.Words.{kind_of};
ghost use Rattle.clap.specs.declared.error.ErrorKind.TheVariants.{OutOfMemory};
ghost use Rattle.command_line.specs.Refusals.{IsRefusalOfKind};
ghost use Rattle.command_line.specs.declared.words_fault.WordsFault.TheVariants.{Memory};

use clap::error::ErrorKind;
use std::alloc::{AllocError, Global};
use thiserror::Error;

/// Why the words are no job.
#[derive(Debug, Drop, Error)]
pub enum WordsFault {
    /// They ask for help or for the version, which is this text.
    #[error("{0}")]
    Help(String),
    /// They are wrong, and this text says why.
    #[error("{0}")]
    Wrong(String),
    /// There was no memory.
    #[error("out of memory")]
    Memory,
}

impl From<AllocError> for WordsFault {
    ghost from_gives = { λ _ e. e ≡ Memory };

    fn from(_error: AllocError) -> WordsFault {
        WordsFault::Memory
    }
}

/// What the parser says of the words: help or the version where they ask for it, and else why they are wrong. It is
/// want of memory where that stopped the parser, or where none is left for the text.
pub fn refusal(alloc: Global, error: &clap::Error) -> WordsFault
    ensures memory { kind_of error.now ≡ OutOfMemory → result ≡ WordsFault.Memory }
    ensures kind { IsRefusalOfKind (kind_of error.now) result }
{
    if error.kind() == ErrorKind::OutOfMemory {
        return WordsFault::Memory;
    }
    match error.to_string(alloc) {
        Err(_) => WordsFault::Memory,
        Ok(text) if error.use_stderr() => WordsFault::Wrong(text),
        Ok(text) => WordsFault::Help(text),
    }
}
