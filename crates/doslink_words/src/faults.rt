//! What a text can be at fault with.
ghost use Rattle.std.specs.Prelude.{◌≡◌};
ghost use Rattle.doslink_words.specs.Directives as spec;
ghost use Rattle.doslink_words.specs.declared.faults.LineFault.TheVariants as line_fault;
ghost use Rattle.doslink_words.specs.declared.faults.SplitFault.TheVariants as split_fault;
ghost use Rattle.doslink_words.specs.inside.Follows.{mistake_of};
ghost use Rattle.doslink_words.specs.inside.Tokens.{placed_of};

use crate::tokens::Placed;
use std::alloc::{AllocError, AllocFailed};
use thiserror::Error;

/// Why a text is no list of words.
#[derive(Clone, Copy, Debug, PartialEq, Eq, Error)]
pub enum SplitFault {
    /// There was no memory.
    #[error("out of memory")]
    Memory,
    /// A quote isn't closed.
    #[error("a quote isn't closed")]
    UnclosedQuote,
}

impl From<AllocError> for SplitFault {
    ghost from_gives = { λ _ e. e ≡ split_fault.Memory };

    fn from(_error: AllocError) -> SplitFault {
        SplitFault::Memory
    }
}

impl<T: Drop> From<AllocFailed<T>> for SplitFault {
    ghost from_gives = { λ _ e. e ≡ split_fault.Memory };

    fn from(_error: AllocFailed<T>) -> SplitFault {
        SplitFault::Memory
    }
}

/// Why the directives of a response file are no job.
#[derive(Clone, Copy, Debug, PartialEq, Eq, Error)]
pub enum DirectiveFault<'a> {
    /// There was no memory.
    #[error("out of memory")]
    Memory,
    /// A word is at fault, or a line.
    #[error("line {line}: {text:?}: {kind}")]
    Line {
        /// The number of its line, counted from 1.
        line: usize,
        /// The word, or the line whose quote isn't closed.
        text: &'a str,
        /// What is wrong with it.
        kind: DirectiveFaultKind,
    },
}

/// What is wrong with a directive.
#[derive(Clone, Copy, Debug, PartialEq, Eq, Error)]
pub enum DirectiveFaultKind {
    /// A quote isn't closed.
    #[error("a quote isn't closed")]
    UnclosedQuote,
    /// No known directive stands where one begins.
    #[error("unknown directive")]
    UnknownDirective,
    /// An option that isn't known, or that would change what the program does.
    #[error("unknown option")]
    UnknownOption,
    /// What follows a directive or an option isn't what it takes.
    #[error("wrong operands")]
    WrongOperands,
    /// A program that isn't for DOS is asked for.
    #[error("no other program is written than one for DOS")]
    NotDos,
}

// What is wrong with a directive.
#[derive(Clone, Copy)]
pub(crate) struct WrongWord<'a> {
    // What it is.
    pub kind: DirectiveFaultKind,
    // The first of its operands that is wrong, none where that is its own word or where one lacks.
    pub word: Option<Placed<'a>>,
}

// No operand is wrong, but this is.
pub(crate) fn own<'a>(kind: DirectiveFaultKind) -> WrongWord<'a>
    ensures { mistake_of result ≡ spec.own kind }
{
    WrongWord { kind, word: None }
}

// An operand is wrong.
pub(crate) fn wrong<'a>(token: Placed<'a>) -> WrongWord<'a>
    ensures { mistake_of result ≡ spec.wrong (placed_of token.entry) }
{
    WrongWord {
        kind: DirectiveFaultKind::WrongOperands,
        word: Some(token),
    }
}

// An operand asks for another system.
pub(crate) fn not_dos<'a>(token: Placed<'a>) -> WrongWord<'a>
    ensures { mistake_of result ≡ spec.not_dos (placed_of token.entry) }
{
    WrongWord {
        kind: DirectiveFaultKind::NotDos,
        word: Some(token),
    }
}

// Why a directive or a line can't be followed.
#[derive(Clone, Copy)]
pub(crate) enum LineFault<'a> {
    // There was no memory.
    Memory,
    // This is wrong with it.
    Wrong(WrongWord<'a>),
}

impl<'a> From<AllocError> for LineFault<'a> {
    ghost from_gives = { λ _ e. e ≡ line_fault.Memory };

    fn from(_error: AllocError) -> LineFault<'a> {
        LineFault::Memory
    }
}

impl<'a, T: Drop> From<AllocFailed<T>> for LineFault<'a> {
    ghost from_gives = { λ _ e. e ≡ line_fault.Memory };

    fn from(_error: AllocFailed<T>) -> LineFault<'a> {
        LineFault::Memory
    }
}

impl<'a> From<WrongWord<'a>> for LineFault<'a> {
    ghost from_gives = { λ w e. e ≡ line_fault.Wrong w };

    fn from(what: WrongWord<'a>) -> LineFault<'a> {
        LineFault::Wrong(what)
    }
}
