//! The body of each type, by its fields (TIS OMF 1.1, the section of each record). `N` is the field of a number.

use crate::ends::{WideEnd, WideEndParts};
use crate::externals::{ListedExternal, LongLine, LongPublicField};
use crate::fixups::{WideSubrecord, WideSubrecordParts};
use crate::segments::{WideSegment, WideSegmentParts};
use omf_codec::codec::Of;
use omf_codec::numbers::{DoubleWord, LongWord};
use omf_codec::primitives::{Index, Name, Rest, Word};
use omf_codec::whole::ToEnd;
use omf_record::PublicBase;
use omf_record::externals::{BaseParts, ExternalField};

/// 82H LHEADR, Library Module Header Record: a name.
pub type Lheadr<'a> = Name<'a>;

/// CAH LLNAMES, Local Logical Names Definition Record: the names.
pub type Llnames<'a, A> = ToEnd<A, Name<'a>>;

/// B5H LEXTDEF, Local External Names Definition Record: the names.
pub type Lextdef<'a, A> = ToEnd<A, ExternalField<'a>>;

/// A1H LEDATA, Logical Enumerated Data Record: a segment, an offset, and the data.
pub type Ledata<'a, N> = (Index, (N, Rest<'a>));

/// 91H PUBDEF, Public Names Definition Record, and B7H LPUBDEF, of names that are local: where they lie, and the names.
pub type Pubdef<P> = (Of<BaseParts, PublicBase>, P);

/// The names of a PUBDEF, whose offsets have 16 bits.
pub type Publics<'a, A> = ToEnd<A, LongPublicField<'a>>;

/// The same with any offsets.
pub type WidePublics<'a, A> = ToEnd<A, (Name<'a>, (DoubleWord, Index))>;

/// 95H LINNUM, Line Numbers Record: a group, a segment, and lines.
pub type Linnum<L> = (Index, (Index, L));

/// The lines of a LINNUM, whose offsets have 16 bits.
pub type Lines<A> = ToEnd<A, Of<(Word, LongWord), LongLine>>;

/// The same with any offsets.
pub type WideLines<A> = ToEnd<A, (Word, DoubleWord)>;

/// 9CH and 9DH FIXUPP, Fixup Record: threads and fix-ups.
pub type Fixupp<A, const WIDE: bool> = ToEnd<A, Of<WideSubrecordParts<WIDE>, WideSubrecord>>;

/// 8AH and 8BH MODEND, Module End Record: whether the module is the main one, and its start.
pub type Modend<const WIDE: bool> = Of<WideEndParts<WIDE>, WideEnd<WIDE>>;

/// 98H and 99H SEGDEF, Segment Definition Record: a segment.
pub type Segdef<const WIDE: bool> = Of<WideSegmentParts<WIDE>, WideSegment>;

/// BCH CEXTDEF, COMDAT External Names Definition Record: the indexes of the names, each with its type index.
pub type Cextdef<A> = ToEnd<A, Of<(Index, Index), ListedExternal>>;
