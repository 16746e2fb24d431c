//! The body of each type, by its fields (TIS OMF 1.1, the section of each record).

use crate::aliases::AliasField;
use crate::comdats::{Comdat, ComdatParts};
use crate::communals::ChainField;
use crate::patches::{PatchLocation, PatchParts};
use crate::symbols::{Continuation, LineParts};
use omf_codec::codec::Of;
use omf_codec::numbers::Number;
use omf_codec::primitives::{First, Index, Rest, Word};
use omf_codec::whole::ToEnd;

/// B0H COMDEF, Communal Names Definition Record, and B8H LCOMDEF, of names that are local: the entries, and the bytes
/// behind them.
pub type Comdef<'a, A> = ChainField<'a, A>;

/// C6H ALIAS, Alias Definition Record: each name with the one that it stands for.
pub type Aliases<'a, A> = ToEnd<A, AliasField<'a>>;

/// C2H and C3H COMDAT, Initialized Communal Data Record: what it says of its data, and those.
pub type Comdats<'a, const WIDE: bool> = (Of<ComdatParts<WIDE>, Comdat>, Rest<'a>);

/// C4H and C5H LINSYM, Symbol Line Numbers Record: a flag, the index of a name, and lines.
pub type Linsym<A, const WIDE: bool> = (First<Continuation>, (Index, Lines<A, WIDE>));

/// The lines of a LINSYM.
pub type Lines<A, const WIDE: bool> = ToEnd<A, Of<(Word, Number<WIDE>), LineParts<WIDE>>>;

/// B2H and B3H BAKPAT, Backpatch Record: a segment, a location, and patches.
pub type Bakpat<A, const WIDE: bool> = (Index, (First<PatchLocation>, Patches<A, WIDE>));

/// C8H and C9H NBKPAT, Named Backpatch Record: a location, the index of a name, and patches.
pub type Nbkpat<A, const WIDE: bool> = (First<PatchLocation>, (Index, Patches<A, WIDE>));

/// The patches of a BAKPAT or an NBKPAT.
pub type Patches<A, const WIDE: bool> = ToEnd<
    A,
    Of<(Number<WIDE>, Number<WIDE>), PatchParts<WIDE>>,
>;

/// CCH VERNUM, OMF Version Number Record: a text.
pub type Vernum<'a> = Rest<'a>;

/// CEH VENDEXT, Vendor-specific OMF Extension Record: the number of a vendor, and bytes.
pub type Vendext<'a> = (Word, Rest<'a>);
