//! The files of the world that runs find.
use super::aliasing::{
    ALIAS, BACK, BEHIND, CALLS, CASE, ITSELF, LAZILY, NOWHERE, OTHERWISE, ROUND, WEAKLY,
};
use super::declaring::{
    BODY, CUT_ELEMENT, END, FAR, LOCAL, LOCAL_CLASH, LOCAL_CLASH_OUTSIDE, LOCAL_FAULTY, LOCAL_LONG,
    LOCAL_START, LOCAL_TABLE, LONG, MANY, NEAR, OTHER_SIZE, TABLE,
};
use super::doubled::{CAPITAL, MANY_NAMES, SWAPPED, TWICE, TWO};
use super::lengths::{HUGE, OVER_999, OVER_1000, OVER_999999, OVER_1000000, OVER_1000000000};
use super::modules::{
    AMISS, ELSEWHERE, HEADLESS, KEEPS, LIBRARY, LIKE, MARKS, NAMELESS, NAMES, OFFERS, WANTS, WIDE,
};
use super::packed::{FAR_GROUPED, FAR_ONE, FAR_TWO};
use super::records::{
    BEHIND_LOWERED, BESIDE_LCOMDEF, CHOSEN, COMDAT, COMDATS, LINSYM, LOCAL_FAR, OTHER_TYPE,
    PATCHED, PATCHED_BY_NAME, REPEATS, UNLISTED, WIDELY,
};
use super::searching::{
    BOTH, CLEARED, DEVICE, ELF, HAS, LOADS, NAMER, NOTHING, ONLY, OUTSIDE, SPACE, STACKED, STARTED,
    TEXT, UNUSED,
};
use super::sums::{
    EXTERNAL_FITS, EXTERNAL_SUM, FAR_POINTER, GROUP_FITS, GROUP_SUM, LOADER, LOCAL_WIDE_START,
    REPEATED_FITS, REPEATED_SUM, SEGMENT_FITS, SEGMENT_SUM, SHARED_BYTE, SHARED_WORD, SHORT_START,
    WIDE_END, WIDE_START, WIDELY_REPEATED,
};

/// The words of a response file.
pub(crate) const RESPONSE: &str = "-v A.OBJ\n RUN.LIB";

/// Directives that ask for the same.
pub(crate) const DIRECTIVES: &str = "file A.OBJ\nlibrary RUN\nsort global\nname A.EXE\n";

/// Directives of which the second is wrong.
pub(crate) const WRONG: &str = "file A.OBJ\nfill F.OBJ\n";

/// Directives that cut a stack of 256 bytes to 16.
pub(crate) const CUT_TO_16: &str = "file STACKED.OBJ\nname P.EXE\noption map=P.MAP,stack=16\n";

/// Those that cut one of 16 and 256 bytes to 32, and place it in front of the code.
pub(crate) const CUT_TO_32: &str = "\
file STARTED.OBJ,STACKED.OBJ
name P.EXE
option map=P.MAP,stack=32
order clname STACK clname CODE
";

/// Those that link modules with far data.
pub(crate) const FAR_DATA: &str = "file FAR1.OBJ,FAR2.OBJ\nname P.EXE\noption map=P.MAP\n";

/// Those that link far data with a group that is too long then.
pub(crate) const FAR_TOO_LONG: &str = "file FARGROUP.OBJ\nname P.EXE\n";

/// Those that ask for as many bytes as it has.
pub(crate) const AS_MANY: &str = "file STARTED.OBJ,STACKED.OBJ\nname P.EXE\noption stack=272\n";

/// Those that want the map sorted, 22 times.
pub(crate) const SORTS: &str = "\
file F.OBJ
name A.EXE
sort global\nsort global\nsort global\nsort global\nsort global\nsort global\nsort global
sort global\nsort global\nsort global\nsort global\nsort global\nsort global\nsort global
sort global\nsort global\nsort global\nsort global\nsort global\nsort global\nsort global
sort global
";

/// Bytes that are no text.
pub(crate) const BINARY: [u8; 4] = [0x41, 0xFF, 0xFE, 0x0A];

/// How much of the library is left where it is cut off, inside the last record of its first member.
pub(crate) const CUT: usize = 64;

/// Files of the world that are modules or libraries, with two that only begin so.
pub(crate) const MODULES: [(&str, &[u8]); 58] = [
    ("A.OBJ", &WANTS),
    ("F.OBJ", &OFFERS),
    ("D.OBJ", &LIKE),
    ("E.OBJ", &NAMES),
    ("M.OBJ", &MARKS),
    ("H.OBJ", &NAMELESS),
    ("K.OBJ", &KEEPS),
    ("N.OBJ", &HEADLESS),
    ("RUN.LIB", &LIBRARY),
    ("LIBS/OTHER.lib", &LIBRARY),
    ("G.OBJ", &ELSEWHERE),
    ("ENV/ENV.LIB", &LIBRARY),
    ("BINARY", &BINARY),
    ("WIDE.OBJ", &WIDE),
    ("AMISS.OBJ", &AMISS),
    ("NEAR.OBJ", &NEAR),
    ("FAR.OBJ", &FAR),
    ("SIZE.OBJ", &OTHER_SIZE),
    ("BODY.OBJ", &BODY),
    ("TABLE.OBJ", &TABLE),
    ("LONG.OBJ", &LONG),
    ("CUT.OBJ", &CUT_ELEMENT),
    ("MANY.OBJ", &MANY),
    ("END.OBJ", &END),
    ("CALLS.OBJ", &CALLS),
    ("ALIAS.OBJ", &ALIAS),
    ("ROUND.OBJ", &ROUND),
    ("CASE.OBJ", &CASE),
    ("LOCAL.OBJ", &LOCAL),
    ("LSTART.OBJ", &LOCAL_START),
    ("LFAULTY.OBJ", &LOCAL_FAULTY),
    ("LCLASH.OBJ", &LOCAL_CLASH),
    ("LOUTSIDE.OBJ", &LOCAL_CLASH_OUTSIDE),
    ("LLONG.OBJ", &LOCAL_LONG),
    ("LTABLE.OBJ", &LOCAL_TABLE),
    ("BACK.OBJ", &BACK),
    ("BEHIND.OBJ", &BEHIND),
    ("WEAKLY.OBJ", &WEAKLY),
    ("LAZILY.OBJ", &LAZILY),
    ("OTHERWISE.OBJ", &OTHERWISE),
    ("NOWHERE.OBJ", &NOWHERE),
    ("ITSELF.OBJ", &ITSELF),
    ("WLOCAL.OBJ", &super::defaulting::WEAKLY_LOCAL),
    ("LLOCAL.OBJ", &super::defaulting::LAZILY_LOCAL),
    ("WCOMM.OBJ", &super::defaulting::WEAKLY_COMMUNAL),
    ("FIRST.OBJ", &super::defaulting::FIRST_OF_TWO),
    ("WFIRST.OBJ", &super::defaulting::WEAK_FIRST),
    ("SFIRST.OBJ", &super::defaulting::SHARED_FIRST),
    ("LFIRST.OBJ", &super::defaulting::LOCAL_FIRST),
    ("CHAINED.OBJ", &super::defaulting::BEHIND_WEAK),
    ("LNOWHERE.OBJ", &super::defaulting::LOCAL_NOWHERE),
    ("LFRAME.OBJ", &super::defaulting::LOCAL_FRAME),
    ("LTHREADS.OBJ", &super::defaulting::LOCAL_THREADS),
    ("WSTART.OBJ", &super::defaulting::STARTS_WEAKLY),
    ("LSUM.OBJ", &super::defaulting::LOCAL_SUM),
    ("COMDAT.OBJ", &COMDAT),
    ("COMDATS.LIB", &COMDATS),
    ("PATCHED.OBJ", &PATCHED),
];

/// Archives with tables of symbols.
pub(crate) const ARCHIVES: [(&str, &[u8]); 7] = [
    ("SYSV.A", &super::symbols::SYSV),
    ("SYM64.A", &super::symbols::SYM64),
    ("RANLIB.A", &super::symbols::RANLIB),
    ("SORTED.A", &super::symbols::SORTED),
    ("OTHER.A", &super::symbols::OTHER),
    ("UPPER.A", &super::symbols::UPPER),
    ("ASTRAY.A", &super::symbols::ASTRAY),
];

/// Further ones.
pub(crate) const FURTHER_MODULES: [(&str, &[u8]); 66] = [
    ("PATCHED2.OBJ", &PATCHED_BY_NAME),
    ("LINSYM.OBJ", &LINSYM),
    ("B9.OBJ", &BESIDE_LCOMDEF),
    ("BE.OBJ", &OTHER_TYPE),
    ("REPEATS.OBJ", &REPEATS),
    ("WIDELY.OBJ", &WIDELY),
    ("LFAR.OBJ", &LOCAL_FAR),
    ("CHOSEN.OBJ", &CHOSEN),
    ("UNLISTED.OBJ", &UNLISTED),
    ("LOWERED.OBJ", &BEHIND_LOWERED),
    ("EFITS.OBJ", &EXTERNAL_FITS),
    ("ESUM.OBJ", &EXTERNAL_SUM),
    ("SFITS.OBJ", &SEGMENT_FITS),
    ("SSUM.OBJ", &SEGMENT_SUM),
    ("GFITS.OBJ", &GROUP_FITS),
    ("GSUM.OBJ", &GROUP_SUM),
    ("RFITS.OBJ", &REPEATED_FITS),
    ("RSUM.OBJ", &REPEATED_SUM),
    ("WSUM.OBJ", &WIDELY_REPEATED),
    ("LOADER.OBJ", &LOADER),
    ("BYTE.OBJ", &SHARED_BYTE),
    ("WORD.OBJ", &SHARED_WORD),
    ("POINTER.OBJ", &FAR_POINTER),
    ("START.OBJ", &WIDE_START),
    ("START16.OBJ", &SHORT_START),
    ("LWIDE.OBJ", &LOCAL_WIDE_START),
    ("END32.OBJ", &WIDE_END),
    ("BOTH.OBJ", &BOTH),
    ("ONLY.LIB", &ONLY),
    ("NAMER.LIB", &NAMER),
    ("HAS.LIB", &HAS),
    ("UNUSED.LIB", &UNUSED),
    ("ELF.OBJ", &ELF),
    ("TEXT.OBJ", &TEXT),
    ("STARTED.OBJ", &STARTED),
    ("STACKED.OBJ", &STACKED),
    ("SPACE.OBJ", &SPACE),
    ("NOTHING.OBJ", &NOTHING),
    ("DEVICE.OBJ", &DEVICE),
    ("LOADS.OBJ", &LOADS),
    ("OUTSIDE.OBJ", &OUTSIDE),
    ("CLEARED.OBJ", &CLEARED),
    ("TWO.OBJ", &TWO),
    ("SWAPPED.OBJ", &SWAPPED),
    ("CAPITAL.OBJ", &CAPITAL),
    ("TWICE.OBJ", &TWICE),
    ("MANY_NAMES.OBJ", &MANY_NAMES),
    ("FAR1.OBJ", &FAR_ONE),
    ("FAR2.OBJ", &FAR_TWO),
    ("FARGROUP.OBJ", &FAR_GROUPED),
    ("OVER999.OBJ", &OVER_999),
    ("OVER1000.OBJ", &OVER_1000),
    ("OVER999999.OBJ", &OVER_999999),
    ("OVER1000000.OBJ", &OVER_1000000),
    ("OVER1000000000.OBJ", &OVER_1000000000),
    ("HUGE.OBJ", &HUGE),
    ("ALFAR.OBJ", &super::declaring::FAR_BY_ALIAS),
    ("WEAKFAR.OBJ", &super::declaring::FAR_BY_WEAK),
    ("OWNFAR.OBJ", &super::declaring::LOCAL_FAR_OFFSET),
    ("PICKED.OBJ", &super::comdats::PICKED),
    ("LONGER.OBJ", &super::comdats::PICKED_LONGER),
    ("SIZED.OBJ", &super::comdats::SIZED),
    ("MATCHED.OBJ", &super::comdats::MATCHED),
    ("OTHER.OBJ", &super::comdats::MATCHED_OTHERWISE),
    ("STRAY.OBJ", &super::comdats::STRAY),
    ("LATE.OBJ", &super::comdats::LATE_SEGMENT),
];
