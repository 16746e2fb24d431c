//! Modules with communal variables.

use super::told::{Asked, run};
use omf_place::Names;
use std::test::*;

/// What a module declares.
#[test]
fn declared(rt: HostRuntime) -> Result<(), Fail> {
    run(
        rt.alloc(),
        Asked::Communals,
        "\
80 01 41
B0 01 61 00 62 02 01 62 00 61 03 04
8C 01 63 00
B0 02 63 64 81 23 62 00
= 6 a near 2; 6 b far 3 of 4; 28 cd near 0;

# the forms of a number
80 01 41
B0 01 61 00 62 80
B0 01 61 00 62 81 80 00
B0 01 61 00 62 81 34 12
B0 01 61 00 62 84 56 34 12
B0 01 61 00 61 88 78 56 34 12 81 FF FF
= 6 a near 128; 15 a near 128; 26 a near 4660; 37 a near 1193046; 49 a far 305419896 of 65535;

# a number begins with another byte
80 01 41
B0 01 61 00 62 82 00 00
= place 6: its body isn't one of COMDEF

# cut off
80 01 41
B0 01 61 00 62
= place 6: its body isn't one of COMDEF

80 01 41
B0 01 61 00 61 04
= place 6: its body isn't one of COMDEF

80 01 41
B0 01 61 00 62 84 01 02
= place 6: its body isn't one of COMDEF

80 01 41
B0 05 61
= place 6: its body isn't one of COMDEF

# Borland's VIRDEF
80 01 41
B0 01 62 00 62 01
B0 01 61 00 01 01
= place 15: a data type is neither far (61H) nor near (62H)

# neither local ones nor what stands behind the module's end
80 01 41
B0
B8 01 62 00 62 01
8A 00
B0 01 61 00 62 02
= nothing",
    )
}

/// The variables of a program.
#[test]
fn decided(rt: HostRuntime) -> Result<(), Fail> {
    run(
        rt.alloc(),
        Asked::Variables(Names::Exact),
        "\
# the greatest length, in order of first meeting
B0 01 61 00 62 02 01 62 00 61 03 04
--
B0 01 63 00 62 05 01 62 00 61 02 04 01 61 00 62 03
--
B0 01 61 00 62 01 01 41 00 62 07
= a near 3; b far 3 of 4; c near 5; A near 7;

# a public wins, also one of the module itself; a local one doesn't
B0 01 61 00 62 02 01 62 00 62 02 01 63 00 62 02
90 00 01 01 62 00 00 00
--
90 00 01 01 61 00 00 00
B6 00 01 01 63 00 00 00
= c near 2;

# near and far
B0 01 61 00 62 02
--
B0 01 62 00 62 02 01 61 00 61 01 02
= 0.0 1.1

# elements of other sizes
B0 01 61 00 61 02 01
--
B0 01 62 00 62 02
--
B0 01 61 00 61 02 01 01 61 00 61 01 02
= 0.0 2.1

# no clash of a name that a module offers
B0 01 61 00 62 02
--
B0 01 61 00 61 01 02
90 00 01 01 61 00 00 00
= nothing

80 01 41
= nothing",
    )
}

/// Names that agree without regard to case.
#[test]
fn folded(rt: HostRuntime) -> Result<(), Fail> {
    run(
        rt.alloc(),
        Asked::Variables(Names::AsciiFolded),
        "\
B0 01 61 00 62 02 01 42 00 62 02
--
B0 01 41 00 62 03
90 00 01 01 62 00 00 00
= a near 3;",
    )
}

/// The module that has the variables.
#[test]
fn made(rt: HostRuntime) -> Result<(), Fail> {
    run(
        rt.alloc(),
        Asked::Module { in_bss: false },
        "\
80 01 41
= none

# even places above one byte
B0 01 61 00 62 01 01 62 00 62 01 01 63 00 62 03 01 64 00 62 02 01 65 00 62 00
= c_common.BSS 2 Public 8; DGROUP 0; a 0:0 of 0; b 0:1 of 0; c 0:2 of 0; d 0:6 of 0; e 0:8 of 0;

# far ones alone: no group
B0 01 61 00 61 03 02 01 62 00 61 00 04
= FAR_BSS.FAR_BSS 16 Private 6; FAR_BSS.FAR_BSS 16 Private 0; a 0:0; b 1:0;

# 65,536 bytes near; 65,536, 65,537 and 240,000 bytes far
B0 01 66 00 61 81 00 80 02
B0 01 61 00 62 84 00 00 01
B0 01 67 00 61 84 01 00 01 01
B0 01 68 00 61 84 80 A9 03 01
B0 01 69 00 61 00 00
= c_common.BSS 2 Public 65536; FAR_BSS.FAR_BSS 16 Private 65536; FAR_BSS.FAR_BSS 16 Private 65536; FAR_BSS.FAR_BSS 16 Private 1; FAR_BSS.FAR_BSS 16 Private 65536; FAR_BSS.FAR_BSS 16 Private 65536; FAR_BSS.FAR_BSS 16 Private 65536; FAR_BSS.FAR_BSS 16 Private 43392; FAR_BSS.FAR_BSS 16 Private 0; DGROUP 0; a 0:0 of 0; f 1:0; g 2:0; h 4:0; i 8:0;

# near ones pass 65,536 bytes
B0 01 61 00 62 81 FF FF 01 62 00 61 01 01 01 63 00 62 01 01 64 00 62 01
= 57 3

B0 01 61 00 62 84 00 00 01 01 62 00 62 00
= 57 1

B0 01 61 00 62 88 FF FF FF FF
= 57 0

# an element over the edge
B0 01 61 00 61 81 00 80 03
= 58 0

B0 01 61 00 61 81 55 55 03
= FAR_BSS.FAR_BSS 16 Private 65535; a 0:0;

# too many segments
B0 01 61 00 61 88 FF FF FF FF 88 00 00 01 00
= 59 0",
    )
}

/// The near segment is that of a module.
#[test]
fn made_in_bss(rt: HostRuntime) -> Result<(), Fail> {
    run(
        rt.alloc(),
        Asked::Module { in_bss: true },
        "\
B0 01 61 00 62 02 01 62 00 61 01 01
= _BSS.BSS 2 Public 2; FAR_BSS.FAR_BSS 16 Private 1; DGROUP 0; a 0:0 of 0; b 1:0;",
    )
}

/// Whether a module has `_BSS` in DGROUP.
#[test]
fn in_bss(rt: HostRuntime) -> Result<(), Fail> {
    run(
        rt.alloc(),
        Asked::Bss,
        "\
96 04 5F 42 53 53 03 42 53 53 06 44 47 52 4F 55 50
98 48 02 00 03 04 01
= false

96 04 5F 42 53 53 03 42 53 53 06 44 47 52 4F 55 50
98 48 02 00 03 04 01
--
96 04 5F 42 53 53 03 42 53 53 06 44 47 52 4F 55 50
98 28 02 00 01 02 01
98 48 02 00 03 04 01
9A 05 FF 01 FF 02
= true

# private
96 04 5F 42 53 53 03 42 53 53 06 44 47 52 4F 55 50
98 40 02 00 03 04 01
9A 05 FF 01
= false

# of another class, in another group
96 04 5F 42 53 53 03 42 53 53 06 44 47 52 4F 55 50
98 48 02 00 03 03 01
9A 05 FF 01
= false

96 04 5F 42 53 53 03 42 53 53 06 44 47 52 4F 55 50
98 48 02 00 03 04 01
9A 03 FF 01
= false",
    )
}

/// Far variables that modules reach by their offsets alone.
#[test]
fn reached_by_offset(rt: HostRuntime) -> Result<(), Fail> {
    run(
        rt.alloc(),
        Asked::Far(Names::Exact),
        "\
# at an offset, of the loader too, and nowhere at a base
B0 01 61 00 61 01 02 01 62 00 61 01 02
--
98 28 04 00 02 02 01
8C 01 61 00 01 62 00
A0 01 00 00 00 00 00 00
9C C4 00 56 01 D4 02 56 02
= 0 a; 0 b;

# a base or a pointer elsewhere in the module, and not in another one
B0 01 61 00 61 01 02 01 62 00 61 01 02
--
98 28 08 00 02 02 01
8C 01 61 00 01 62 00
A0 01 00 00 00 00 00 00 00 00 00 00
9C C4 00 56 01 C8 02 56 01 CC 04 56 02
--
98 28 02 00 02 02 01
8C 01 61 00
A0 01 00 00 00 00
9C C4 00 56 01
= 1 a;

# near ones, one that isn't reached, another target, and a local external
B0 01 61 00 62 02 01 62 00 61 01 02 01 63 00 61 01 02
--
98 28 06 00 02 02 01
8C 01 61 00 01 62 00
B4 01 63 00
A0 01 00 00 00 00 00 00 00 00
9C C4 00 56 01 C4 02 54 01 C4 04 56 03
= nothing

# at a low byte, where a base or a pointer has the variable's frame and where none has
B0 01 61 00 61 01 02 01 62 00 61 01 02 01 63 00 61 01 02
--
98 28 0A 00 02 02 01
8C 01 61 00 01 62 00 01 63 00
A0 01 00 00 00 00 00 00 00 00 00 00 00 00
9C C0 00 56 01 C0 01 56 02 C8 02 56 02 C0 04 56 03 CC 06 56 03
= 0 a;

# a base that has a segment's frame, a group's, the location's or that of another external, and then a pointer
B0 01 61 00 61 01 02
--
98 28 06 00 02 02 01
8C 01 61 00 01 62 00
A0 01 00 00 00 00 00 00 00 00
9C C4 00 56 01 C8 02 06 01 01
--
96 06 44 47 52 4F 55 50
98 28 06 00 02 02 01
9A 03 FF 01
8C 01 61 00 01 62 00
A0 01 00 00 00 00 00 00 00 00
9C C4 00 56 01 C8 02 16 01 01
--
98 28 06 00 02 02 01
8C 01 61 00 01 62 00
A0 01 00 00 00 00 00 00 00 00
9C C4 00 56 01 C8 02 46 01
--
98 28 06 00 02 02 01
8C 01 61 00 01 62 00
A0 01 00 00 00 00 00 00 00 00
9C C4 00 56 01 C8 02 26 02 01
--
96 06 44 47 52 4F 55 50
98 28 06 00 02 02 01
9A 03 FF 01
8C 01 61 00 01 62 00
A0 01 00 00 00 00 00 00 00 00
9C C4 00 56 01 CC 02 16 01 01
= 0 a; 1 a; 2 a; 3 a; 4 a;

# one that has the frame of the variable, which is the target or not, and offsets in the frame of a group
B0 01 61 00 61 01 02
--
98 28 06 00 02 02 01
8C 01 61 00 01 62 00
A0 01 00 00 00 00 00 00 00 00
9C C4 00 56 01 C8 02 56 01
--
98 28 06 00 02 02 01
8C 01 61 00 01 62 00
A0 01 00 00 00 00 00 00 00 00
9C C4 00 56 01 C8 02 26 01 01
--
98 28 06 00 02 02 01
8C 01 61 00 01 62 00
A0 01 00 00 00 00 00 00 00 00
9C C4 00 56 01 CC 02 26 01 02
--
98 28 06 00 02 02 01
8C 01 61 00 01 62 00
A0 01 00 00 00 00 00 00 00 00
9C C4 00 56 01 C8 02 24 01 01
--
96 06 44 47 52 4F 55 50
98 28 06 00 02 02 01
9A 03 FF 01
8C 01 61 00 01 62 00
A0 01 00 00 00 00 00 00 00 00
9C C4 00 16 01 01
= 4 a;

# once, by two externals
B0 01 61 00 61 01 02
--
98 28 04 00 02 02 01
8C 01 61 00 01 61 00
A0 01 00 00 00 00 00 00
9C C4 00 56 01 C4 02 56 02
= 0 a;

# one that is local to its module, also where the program has none of its name
B0 01 62 00 62 02
--
96 07 46 41 52 5F 42 53 53
98 28 02 00 02 02 01
98 60 10 00 03 03 01
B6 00 02 01 61 00 00 00
B4 01 61 00
A0 01 00 00 00 00
9C C4 00 56 01
= 0 a;

# a local public in a group, and one in a segment of another class
B0 01 62 00 62 02
--
96 07 46 41 52 5F 42 53 53
98 28 02 00 02 02 01
98 60 10 00 03 03 01
9A 03 FF 02
B6 01 02 01 61 00 00 00
B4 01 61 00
A0 01 00 00 00 00
9C C4 00 56 01
--
96 07 46 41 52 5F 42 53 53
98 28 02 00 02 02 01
98 60 10 00 03 02 01
B6 00 02 01 61 00 00 00
B4 01 61 00
A0 01 00 00 00 00
9C C4 00 56 01
= nothing

# names are case by case
B0 01 61 00 61 01 02
--
98 28 02 00 02 02 01
8C 01 41 00
A0 01 00 00 00 00
9C C4 00 56 01
= nothing",
    )
}

/// The same where names agree without regard to case.
#[test]
fn reached_by_offset_folded(rt: HostRuntime) -> Result<(), Fail> {
    run(
        rt.alloc(),
        Asked::Far(Names::AsciiFolded),
        "\
B0 01 61 00 61 01 02
--
98 28 04 00 02 02 01
8C 01 41 00
A0 01 00 00 00 00 00 00
9C C4 00 56 01
= 0 A;

B0 01 61 00 61 01 02
--
98 28 04 00 02 02 01
8C 01 41 00 01 61 00
A0 01 00 00 00 00 00 00
9C C4 00 56 01 C8 02 56 02
= nothing",
    )
}

/// What a module declares as local to it, behind what it has.
#[test]
fn joined_locally(rt: HostRuntime) -> Result<(), Fail> {
    run(
        rt.alloc(),
        Asked::Joined { in_bss: false },
        "\
# near and far, behind nothing
B8 01 61 00 62 02 01 62 00 61 03 04
--
B4 01 61 00 01 62 00
= c_common.BSS 2 Public 2; FAR_BSS.FAR_BSS 16 Private 12; DGROUP 0; a 0:0 of 0 local; b 1:0 local; and more

# the greatest length of two, far ones alone
B8 01 62 00 61 01 04 01 62 00 61 03 04
--
8A 00
= FAR_BSS.FAR_BSS 16 Private 12; b 0:0 local;

# a local public wins, and another doesn't; so no variable is left, or one
B8 01 61 00 62 02
--
98 28 02 00 02 02 01
B6 00 01 01 61 00 00 00
= same

B8 01 61 00 62 02
--
98 28 02 00 02 02 01
90 00 01 01 61 00 00 00
= CODE.CODE 1 Public 2; c_common.BSS 2 Public 2; DGROUP 1; a 0:0; a 1:0 of 0 local;

# of two, that which is local wins
B8 01 61 00 62 02 01 62 00 62 02
--
98 28 02 00 02 02 01
B6 00 01 01 62 01 00 00 01 63 00 00 00
90 00 01 01 61 00 00 00
= CODE.CODE 1 Public 2; c_common.BSS 2 Public 2; DGROUP 1; b 0:1 local; c 0:0 local; a 0:0; a 1:0 of 0 local;

# near and far
B8 01 61 00 62 02 01 61 00 61 01 02
--
B4 01 61 00 01 61 00
= near in one module and far in another

# near ones pass 65,536 bytes
B8 01 61 00 62 84 00 00 01 01 62 00 62 00
--
B4 01 61 00 01 62 00
= 57 1

# an element over the edge
B8 01 61 00 61 81 00 80 03
--
B4 01 61 00
= 58 0

# the names of a module don't count
B8 01 61 00 61 01 01
--
96 00*32762
= FAR_BSS.FAR_BSS 16 Private 1; a 0:0 local;

# behind a group, and one of the same name
B8 01 61 00 62 03
--
96 04 5F 42 53 53 03 42 53 53 06 44 47 52 4F 55 50
98 48 02 00 03 04 01
9A 05 FF 01
B4 01 61 00
= _BSS.BSS 2 Public 2; c_common.BSS 2 Public 3; DGROUP 0; DGROUP 1; a 1:0 of 1 local; and more",
    )
}

/// The near segment is that of a module, which is this one.
#[test]
fn joined_locally_in_bss(rt: HostRuntime) -> Result<(), Fail> {
    run(
        rt.alloc(),
        Asked::Joined { in_bss: true },
        "\
B8 01 61 00 62 03
--
96 04 5F 42 53 53 03 42 53 53 06 44 47 52 4F 55 50
98 48 02 00 03 04 01
9A 05 FF 01
B4 01 61 00
= _BSS.BSS 2 Public 2; _BSS.BSS 2 Public 3; DGROUP 0; DGROUP 1; a 1:0 of 1 local; and more",
    )
}
