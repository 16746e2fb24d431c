//! The body of each type, by its fields (TIS OMF 1.1, the section of each record).

use crate::blocks::BlockField;
use crate::externals::{BaseParts, ExternalField, Line, PublicBase, PublicField};
use crate::fixups::{Attribute, EndParts, Subrecord, SubrecordParts};
use crate::segments::{Component, Mark, SegmentDefinition, SegmentParts};
use omf_codec::codec::Of;
use omf_codec::primitives::{Byte, First, Index, Name, Rest, Word};
use omf_codec::whole::ToEnd;

/// 80H THEADR, Translator Header Record: a name.
pub type Theadr<'a> = Name<'a>;

/// 88H COMENT, Comment Record: its type, its class, and the bytes of the comment.
pub type Coment<'a> = (Byte, (Byte, Rest<'a>));

/// 8AH MODEND, Module End Record: whether the module is the main one, and its start.
pub type Modend = Of<EndParts, Attribute>;

/// 8CH EXTDEF, External Names Definition Record, and B4H LEXTDEF, of names that are local: the names.
pub type Extdef<'a, A> = ToEnd<A, ExternalField<'a>>;

/// 90H PUBDEF, Public Names Definition Record, and B6H LPUBDEF, of names that are local: where they lie, and the names.
pub type Pubdef<'a, A> = (Base, Publics<'a, A>);

/// The group and the segment of publics, or their frame.
pub type Base = Of<BaseParts, PublicBase>;

/// The names of a PUBDEF.
pub type Publics<'a, A> = ToEnd<A, PublicField<'a>>;

/// 94H LINNUM, Line Numbers Record: a group, a segment, and lines.
pub type Linnum<A> = (Index, (Index, Lines<A>));

/// The lines of a LINNUM.
pub type Lines<A> = ToEnd<A, Of<(Word, Word), Line>>;

/// 96H LNAMES, List of Names Record: the names.
pub type Lnames<'a, A> = ToEnd<A, Name<'a>>;

/// 98H SEGDEF, Segment Definition Record: a segment.
pub type Segdef = Of<SegmentParts, SegmentDefinition>;

/// 9AH GRPDEF, Group Definition Record: the index of its name, and its components.
pub type Grpdef<A> = (Index, Components<A>);

/// The components of a GRPDEF.
pub type Components<A> = ToEnd<A, Of<(First<Mark>, Index), Component>>;

/// 9CH FIXUPP, Fixup Record: threads and fix-ups.
pub type Fixupp<A> = ToEnd<A, Of<SubrecordParts, Subrecord>>;

/// A0H LEDATA, Logical Enumerated Data Record: a segment, an offset, and the data.
pub type Ledata<'a> = (Index, (Word, Rest<'a>));

/// A2H LIDATA, Logical Iterated Data Record: a segment, an offset, and blocks of data.
pub type Lidata<'a, A> = (Index, (Word, Blocks<'a, A>));

/// The blocks of a LIDATA.
pub type Blocks<'a, A> = ToEnd<A, BlockField<'a, A>>;
