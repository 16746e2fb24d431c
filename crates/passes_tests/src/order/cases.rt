//! Worked order modules.

use super::made::{place_all, run};
use omf_order::{Item, Order};
use omf_place::Names;
use std::alloc::Global;
use std::test::*;

/// With no order asked there is a module only where a name is wanted.
#[test]
fn meeting(rt: HostRuntime) -> Result<(), Fail> {
    run(
        rt.alloc(),
        Order::Meeting,
        Names::Exact,
        "\
# nothing is wanted
98 28 01 00 02 02 01
= none

# A BSS, G DGROUP, S STACK: all in DGROUP; both names are wanted
80 01 41
96 00 01 41 03 42 53 53 06 44 47 52 4F 55 50 01 53 05 53 54 41 43 4B
98 48 02 00 02 03 01
98 74 10 00 05 06 01
9A 04 FF 01 FF 02
8C 06 5F 65 64 61 74 61 00 04 5F 65 6E 64 00
= A.BSS 2 Public 0; S.STACK 16 Stack 0; DGROUP 0 1; _edata 0:0 of 0; _end 1:0 of 0;

# the same, but a module defines _end
80 01 41
96 00 01 41 03 42 53 53 06 44 47 52 4F 55 50 01 53 05 53 54 41 43 4B
98 48 02 00 02 03 01
98 74 10 00 05 06 01
9A 04 FF 01 FF 02
8C 06 5F 65 64 61 74 61 00 04 5F 65 6E 64 00
--
90 00 00 01 00 04 5F 65 6E 64 00 00 00
= A.BSS 2 Public 0; S.STACK 16 Stack 0; DGROUP 0; _edata 0:0 of 0;

# a local name is neither wanted nor defined
80 01 41
96 00 01 41 03 42 53 53
98 48 02 00 02 03 01
B4 06 5F 65 64 61 74 61 00
= none

# no segment in DGROUP: new ones
80 01 41
96 00 01 41 03 42 53 53 04 43 4F 44 45
98 48 02 00 02 03 01
98 48 02 00 04 04 01
8C 05 5F 5F 65 6E 64 00
= A.BSS 2 Public 0; _END._END 1 Private 0; CODE.CODE 2 Public 0; _BSS.BSS 1 Private 0; DGROUP 1; __end 1:0 of 0;

# another case of letters is another name
80 01 41
96 00 01 41 03 42 53 53
98 48 02 00 02 03 01
8C 04 5F 45 4E 44 00
= none",
    )
}

/// Names that agree without regard to case.
#[test]
fn folded(rt: HostRuntime) -> Result<(), Fail> {
    run(
        rt.alloc(),
        Order::Meeting,
        Names::AsciiFolded,
        "\
80 01 41
96 00 01 41 03 42 53 53
98 48 02 00 02 03 01
8C 04 5F 45 4E 44 00
= A.BSS 2 Public 0; _END._END 1 Private 0; _BSS.BSS 1 Private 0; DGROUP 1; _end 1:0 of 0;",
    )
}

/// The order of DOSSEG.
#[test]
fn dosseg(rt: HostRuntime) -> Result<(), Fail> {
    run(
        rt.alloc(),
        Order::Dosseg { null_bytes: false },
        Names::Exact,
        "\
80 01 41
= none

# S STACK, B BSS, D DATA, N BEGDATA in DGROUP; F FAR_DATA; T MYCODE; a private C CODE
80 01 41
96 00 06 44 47 52 4F 55 50 01 53 05 53 54 41 43 4B 01 42 03 42 53 53 01 44 04 44 41 54 41
96 01 4E 07 42 45 47 44 41 54 41 01 46 08 46 41 52 5F 44 41 54 41 01 54 06 4D 59 43 4F 44 45 01 43 04 43 4F 44 45
98 74 10 00 03 04 01
98 48 02 00 05 06 01
98 A8 02 00 07 08 01
98 68 02 00 09 0A 01
98 60 02 00 0B 0C 01
98 28 02 00 0D 0E 01
98 40 02 00 0F 10 01
9A 02 FF 01 FF 02 FF 03 FF 04
= T.MYCODE 1 Public 0; C.CODE 1 Private 0; F.FAR_DATA 1 Private 0; \
N.BEGDATA 16 Public 0; D.DATA 4 Public 0; B.BSS 2 Public 0; S.STACK 16 Stack 0;",
    )
}

/// A list of classes.
#[test]
fn listed(rt: HostRuntime) -> Result<(), Fail> {
    let items = [
        Item::Segment(b"S"),
        Item::Class(b"BSS"),
        Item::Class(b"DATA"),
        Item::Segment(b"Y"),
        Item::Segment(b"X"),
        Item::Class(b"STACK"),
    ];
    run(
        rt.alloc(),
        Order::Listed(&items),
        Names::Exact,
        "\
# S STACK, X DATA, Y DATA, Z DATA, Q OTHER, B BSS
80 01 41
96 01 53 05 53 54 41 43 4B 01 58 04 44 41 54 41 01 59 01 5A 01 51 05 4F 54 48 45 52 01 42 03 42 53 53
98 74 10 00 01 02 01
98 48 02 00 06 04 01
98 48 02 00 03 04 01
98 48 02 00 05 04 01
98 48 02 00 07 08 01
98 48 02 00 09 0A 01
= B.BSS 2 Public 0; Y.DATA 2 Public 0; X.DATA 2 Public 0; Z.DATA 2 Public 0; S.STACK 16 Stack 0; Q.OTHER 2 Public 0;",
    )
}

/// Three segments C, B and D of the classes CODE, BSS and DATA, of 3, 5 and 1 bytes, B at an even place; B and D are in
/// DGROUP, and the names b and d stand for them. The name _edata is wanted.
const THREE: &str = "\
80 01 41
96 01 43 04 43 4F 44 45 01 42 03 42 53 53 01 44 04 44 41 54 41 06 44 47 52 4F 55 50
98 28 03 00 01 02 01
98 48 05 00 03 04 01
98 28 01 00 05 06 01
9A 07 FF 02 FF 03
8C 06 5F 65 64 61 74 61 00
90 01 02 01 62 00 00 00
90 01 03 01 64 00 00 00
";

/// With no order asked nothing moves.
#[test]
fn placed_as_met(rt: HostRuntime) -> Result<(), Fail> {
    let row = format!(in rt.alloc(); "{THREE}= _edata 4; b 4; d 9;")?;
    place_all(rt.alloc(), Order::Meeting, &row)
}

/// Class BSS stands behind class DATA.
#[test]
fn placed_as_dosseg(rt: HostRuntime) -> Result<(), Fail> {
    let row = format!(in rt.alloc(); "{THREE}= _edata 4; b 4; d 3;")?;
    place_all(rt.alloc(), Order::Dosseg { null_bytes: false }, &row)
}

/// The names of four segments of one letter and their classes, of which three are in DGROUP, and both marks wanted: B
/// BSS of 6 bytes at an even place, D DATA of 3 bytes, S STACK of 16 bytes at a paragraph, H HEAP of 4 bytes.
const MARKED: &str = "\
80 01 41
96 01 42 03 42 53 53 01 44 04 44 41 54 41 01 53 05 53 54 41 43 4B 06 44 47 52 4F 55 50 01 48 04 48 45 41 50
8C 06 5F 65 64 61 74 61 00 04 5F 65 6E 64 00
";

/// A segment of each.
const B: &str = "98 48 06 00 01 02 01\n";

const D: &str = "98 28 03 00 03 04 01\n";

const S: &str = "98 74 10 00 05 06 01\n";

const H: &str = "98 28 04 00 08 09 01\n";

/// The first three are in DGROUP.
const GROUP: &str = "9A 07 FF 01 FF 02 FF 03\n";

/// Where class STACK doesn't follow class BSS at once, the end is that of class BSS.
#[test]
fn ends_of_bss(rt: HostRuntime) -> Result<(), Fail> {
    let alloc = rt.alloc();
    let parted = format!(in alloc; "{MARKED}{B}{D}{S}{GROUP}= _edata 0; _end 6;")?;
    place_all(alloc, Order::Meeting, &parted)?;
    let before = format!(in alloc; "{MARKED}{S}{B}{D}{GROUP}= _edata 16; _end 22;")?;
    place_all(alloc, Order::Meeting, &before)?;
    let heap = format!(in alloc; "{MARKED}{B}{H}{S}{GROUP}= _edata 0; _end 6;")?;
    place_all(alloc, Order::Meeting, &heap)?;
    let far = format!(in alloc; "{MARKED}{D}{B}{S}9A 07 FF 01 FF 02\n= _edata 4; _end 10;")?;
    place_all(alloc, Order::Meeting, &far)
}

/// Where class STACK follows class BSS at once, the end is where it begins.
#[test]
fn stack_behind_bss(rt: HostRuntime) -> Result<(), Fail> {
    let alloc = rt.alloc();
    let met = format!(in alloc; "{MARKED}{D}{B}{S}{GROUP}= _edata 4; _end 16;")?;
    place_all(alloc, Order::Meeting, &met)?;
    let turned = format!(in alloc; "{MARKED}{S}{H}{B}{D}9A 07 FF 01 FF 03 FF 04\n")?;
    let dosseg = format!(in alloc; "{turned}= _edata 8; _end 16;")?;
    place_all(alloc, Order::Dosseg { null_bytes: false }, &dosseg)?;
    let items = [
        Item::Class(b"CODE"),
        Item::Class(b"FAR_DATA"),
        Item::Class(b"BEGDATA"),
        Item::Segment(b"_NULL"),
        Item::Segment(b"_AFTERNULL"),
        Item::Class(b"DATA"),
        Item::Class(b"BSS"),
        Item::Class(b"STACK"),
        Item::Class(b"HEAP"),
    ];
    let listed = format!(in alloc; "{turned}= _edata 4; _end 16;")?;
    place_all(alloc, Order::Listed(&items), &listed)
}

/// Where DGROUP has no class BSS, a new one is the last, and the end behind it.
#[test]
fn marks_without_bss(rt: HostRuntime) -> Result<(), Fail> {
    let alloc = rt.alloc();
    let row = format!(in alloc; "{MARKED}{D}{S}9A 07 FF 01 FF 02\n= _edata 32; _end 32;")?;
    place_all(alloc, Order::Meeting, &row)
}

/// A class of the name of the new one, met before class BSS, stands behind it.
#[test]
fn class_of_that_name(rt: HostRuntime) -> Result<(), Fail> {
    let alloc = rt.alloc();
    let own = "96 04 5F 45 4E 44\n98 28 05 00 0A 0A 01\n";
    let row = format!(in alloc; "{MARKED}{own}{B}{D}9A 07 FF 02 FF 03\n= _edata 0; _end 6;")?;
    place_all(alloc, Order::Meeting, &row)
}

/// The order module of B, D and S in order of meeting.
const MADE: &str =
    "B.BSS 2 Public 0; _END._END 1 Private 0; D.DATA 1 Public 0; S.STACK 16 Stack 0; \
DGROUP 0 1; _edata 0:0 of 0; _end 1:0 of 0;";

/// A segment of the name H in class BSS.
const ALONE: &str = "98 20 02 00 08 02 01\n";

const OTHER: &str = "98 28 02 00 08 02 01\n";

/// Runs a row with the order of meeting.
fn met(alloc: Global, row: &str) -> Result<(), Fail> {
    run(alloc, Order::Meeting, Names::Exact, row)
}

/// Data between the marks is refused: LEDATA, LIDATA, in a private segment, outside of DGROUP, in the second module.
#[test]
fn data_between_the_marks(rt: HostRuntime) -> Result<(), Fail> {
    let alloc = rt.alloc();
    let all = format!(in alloc; "{MARKED}{B}{D}{S}{GROUP}")?;
    met(
        alloc,
        &format!(in alloc; "{all}A0 01 00 00 07\n= data in 0 B")?,
    )?;
    met(
        alloc,
        &format!(in alloc; "{all}A2 01 00 00 02 00 00 00 01 07\n= data in 0 B")?,
    )?;
    let alone = format!(in alloc; "{MARKED}{D}{B}{ALONE}9A 07 FF 01 FF 02\n")?;
    met(
        alloc,
        &format!(in alloc; "{alone}A0 03 00 00 07\n= data in 0 H")?,
    )?;
    let outside = format!(in alloc; "{MARKED}{D}{B}{OTHER}9A 07 FF 01 FF 02\n")?;
    met(
        alloc,
        &format!(in alloc; "{outside}A0 03 00 00 07\n= data in 0 H")?,
    )?;
    let names = "96 01 42 03 42 53 53\n98 48 01 00 03 04 01\n";
    met(
        alloc,
        &format!(in alloc; "{all}--\n{names}A0 01 00 00 07\n= data in 1 B")?,
    )
}

/// Other data isn't: of class DATA, without a byte, of class BSS before its first part in DGROUP.
#[test]
fn data_elsewhere(rt: HostRuntime) -> Result<(), Fail> {
    let alloc = rt.alloc();
    let all = format!(in alloc; "{MARKED}{B}{D}{S}{GROUP}")?;
    met(
        alloc,
        &format!(in alloc; "{all}A0 02 00 00 07\nA0 01 00 00\n= {MADE}")?,
    )?;
    let before = format!(in alloc; "{MARKED}{OTHER}{B}9A 07 FF 02\nA0 01 00 00 07\n")?;
    met(
        alloc,
        &format!(in alloc;
            "{before}= H.BSS 1 Public 0; _END._END 1 Private 0; B.BSS 2 Public 0; \
DGROUP 2 1; _edata 2:0 of 0; _end 1:0 of 0;"
        )?,
    )
}

/// Nor is data in class BSS where only one of the marks is wanted of others.
#[test]
fn one_mark(rt: HostRuntime) -> Result<(), Fail> {
    let alloc = rt.alloc();
    let all = format!(in alloc; "{MARKED}{B}{D}{S}{GROUP}A0 01 00 00 07\n")?;
    met(
        alloc,
        &format!(in alloc;
            "{all}90 00 01 06 5F 65 64 61 74 61 00 00 00\n\
= B.BSS 2 Public 0; _END._END 1 Private 0; D.DATA 1 Public 0; S.STACK 16 Stack 0; DGROUP 1; _end 1:0 of 0;"
        )?,
    )?;
    met(
        alloc,
        &format!(in alloc;
            "{all}90 00 01 04 5F 65 6E 64 00 00 00\n\
= B.BSS 2 Public 0; D.DATA 1 Public 0; S.STACK 16 Stack 0; DGROUP 0; _edata 0:0 of 0;"
        )?,
    )
}

/// The names _TEXT, CODE, D and DATA.
const TEXT: &str = "80 01 41\n96 05 5F 54 45 58 54 04 43 4F 44 45 01 44 04 44 41 54 41\n";

/// A segment D of class DATA, and the names f of the first segment and d of this one.
const REST: &str = "98 28 01 00 03 04 01\n90 00 01 01 66 00 00 00\n90 00 02 01 64 00 00 00\n";

/// Null bytes in front of _TEXT: none without asking, of a private or common segment, of one of another name.
#[test]
fn null_bytes(rt: HostRuntime) -> Result<(), Fail> {
    let alloc = rt.alloc();
    let order = Order::Dosseg { null_bytes: true };
    let public = format!(in alloc; "{TEXT}98 28 03 00 01 02 01\n{REST}")?;
    place_all(alloc, order, &format!(in alloc; "{public}= f 16; d 19;")?)?;
    let without = Order::Dosseg { null_bytes: false };
    place_all(alloc, without, &format!(in alloc; "{public}= f 0; d 3;")?)?;
    let page = format!(in alloc; "{TEXT}98 88 03 00 01 02 01\n{REST}= f 256; d 259;")?;
    place_all(alloc, order, &page)?;
    let private = format!(in alloc; "{TEXT}98 20 03 00 01 02 01\n{REST}= f 0; d 3;")?;
    place_all(alloc, order, &private)?;
    let common = format!(in alloc; "{TEXT}98 38 03 00 01 02 01\n{REST}= f 0; d 3;")?;
    place_all(alloc, order, &common)?;
    let named = format!(in alloc; "{TEXT}98 28 03 00 03 02 01\n{REST}= f 0; d 3;")?;
    place_all(alloc, order, &named)?;
    run(
        alloc,
        order,
        Names::Exact,
        &format!(in alloc;
            "{public}= _TEXT.CODE 1 Public 16; D.DATA 1 Public 0; and more data 0:0 00*16;"
        )?,
    )
}
