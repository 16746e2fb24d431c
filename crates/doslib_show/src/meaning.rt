//! What a record says, by its type and its body.

ghost use Rattle.std.specs.Prelude.{IfOk};
ghost use Rattle.doslib_show.specs.Meaning.{Means};
ghost use Rattle.doslib_show.specs.inside.Meaning.{IsMore, IsPlain, meaning_view};

use omf_extended::{Extended, ExtendedFault, parse_extended};
use omf_frame::Frame;
use omf_record::{Record, RecordFault, parse_record};
use omf_types::{CommentClass, comment_class};
use omf_wide::{Said, WideFault, parse_wide};
use std::alloc::{AllocError, Allocator};

/// What a record says.
#[derive(Drop)]
pub(crate) enum Meaning<'a, A: Allocator + Copy> {
    /// This.
    Says(Said<'a, A>),
    /// A comment, with its type byte and its class.
    Comments {
        kind: u8,
        class: u8,
        known: Option<CommentClass>,
        bytes: &'a [u8],
    },
    /// This, of a type that came after Intel's.
    SaysMore(Extended<'a, A>),
    /// Nothing that is known: its type has no bodies, or a number in it has more than 16 bits.
    Unknown,
    /// Nothing: its body is none of its type, from this byte on.
    Wrong {
        at: usize,
    },
}

/// What a record of a type that came after Intel's says.
fn more_meaning<'a, A: Allocator + Copy + 'a>(
    alloc: A,
    frame: &Frame<'a>,
) -> Result<Meaning<'a, A>, AllocError>
    ensures { IfOk result (λ m. IsMore frame.now.kind frame.now.body.now (meaning_view m)) }
{
    match parse_extended(alloc, frame) {
        Ok(more) => Ok(Meaning::SaysMore(more)),
        Err(ExtendedFault::Memory) => Err(AllocError),
        Err(ExtendedFault::OtherType) => Ok(Meaning::Unknown),
        Err(ExtendedFault::Body { at }) => Ok(Meaning::Wrong { at }),
    }
}

/// What one of the fourteen says, or one of these.
#[tactic(auto, unfolding(omf_wide::specs::View::said_view, omf_record::specs::View::view))]
fn plain_meaning<'a, A: Allocator + Copy + 'a>(
    alloc: A,
    frame: &Frame<'a>,
) -> Result<Meaning<'a, A>, AllocError>
    ensures { IfOk result (λ m. IsPlain frame.now.kind frame.now.body.now (meaning_view m)) }
{
    match parse_record(alloc, frame) {
        Ok(Record::Coment { kind, class, bytes }) => Ok(Meaning::Comments {
            kind,
            class,
            known: comment_class(class),
            bytes,
        }),
        Ok(record) => Ok(Meaning::Says(Said::Plain(record))),
        Err(RecordFault::Memory) => Err(AllocError),
        Err(RecordFault::OtherType) => more_meaning(alloc, frame),
        Err(RecordFault::Body { at }) => Ok(Meaning::Wrong { at }),
    }
}

/// What a record says.
pub(crate) fn meaning_of<'a, A: Allocator + Copy + 'a>(
    alloc: A,
    frame: &Frame<'a>,
) -> Result<Meaning<'a, A>, AllocError>
    ensures { IfOk result (λ m. Means frame.now.kind frame.now.body.now (meaning_view m)) }
{
    match parse_wide(alloc, frame) {
        Ok(said) => Ok(Meaning::Says(said)),
        Err(WideFault::Memory) => Err(AllocError),
        Err(WideFault::OtherType) => plain_meaning(alloc, frame),
        Err(WideFault::Above16Bits { .. }) => Ok(Meaning::Unknown),
        Err(WideFault::Body { at }) => Ok(Meaning::Wrong { at }),
    }
}
