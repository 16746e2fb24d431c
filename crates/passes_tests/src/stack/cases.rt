//! Stacks with lengths that are asked for.

use super::told::{Asked, run};
use std::test::*;

/// What a stack wants.
#[test]
fn wanted(rt: HostRuntime) -> Result<(), Fail> {
    run(
        rt.alloc(),
        Asked::Wanted(4096),
        "\
# no stack: one of its own, in DGROUP where some module has that
98 28 02 00 02 02 01
= STACK.STACK 16 Stack 4096;

96 06 44 47 52 4F 55 50
98 28 02 00 02 02 01
9A 03 FF 01
= STACK.STACK 16 Stack 4096; DGROUP 0;

98 28 02 00 02 02 01
--
96 06 44 47 52 4F 55 50
9A 03
= STACK.STACK 16 Stack 4096; DGROUP 0;

# segments of class STACK that are of another kind are none
96 05 53 54 41 43 4B
98 28 00 04 03 03 01
= STACK.STACK 16 Stack 4096;

# what is missing, and none, and less
96 05 73 74 61 63 6B 05 53 54 41 43 4B
98 74 00 04 03 04 01
= stack.STACK 1 Stack 3072;

96 05 73 74 61 63 6B 05 53 54 41 43 4B
98 74 00 08 03 04 01
--
96 05 73 74 61 63 6B 05 53 54 41 43 4B
98 34 00 08 03 04 01
= enough

96 05 73 74 61 63 6B 05 53 54 41 43 4B
98 74 00 08 03 04 01
--
96 05 73 74 61 63 6B 05 53 54 41 43 4B
98 34 01 08 03 04 01
= too long

98 76 00 00 02 02 01
= too long

# the first of two stacks: that whose class comes first
96 05 73 74 61 63 6B 05 53 54 41 43 4B 05 4F 54 48 45 52
98 28 01 00 01 05 01
98 74 00 04 03 04 01
98 74 00 01 03 05 01
= stack.OTHER 1 Stack 3840;

# and in one class the first
96 05 73 74 61 63 6B 05 53 54 41 43 4B 05 4F 54 48 45 52
98 74 00 04 05 04 01
98 74 00 01 03 04 01
= OTHER.STACK 1 Stack 3072;

# an absolute segment opens no class
96 05 73 74 61 63 6B 05 53 54 41 43 4B 05 4F 54 48 45 52
98 00 00 01 00 01 00 01 05 01
98 74 00 04 03 04 01
98 74 00 01 03 05 01
= stack.STACK 1 Stack 3072;",
    )
}

/// A whole segment.
#[test]
fn wanted_whole(rt: HostRuntime) -> Result<(), Fail> {
    run(
        rt.alloc(),
        Asked::Wanted(65_536),
        "\
98 28 02 00 02 02 01
= STACK.STACK 16 Stack 65536;

98 74 00 00 02 02 01
= CODE.CODE 1 Stack 65536;

98 76 00 00 02 02 01
= enough",
    )
}

/// How long the stack is then, by its layout.
#[test]
fn reached(rt: HostRuntime) -> Result<(), Fail> {
    run(
        rt.alloc(),
        Asked::Length(1000),
        "\
98 28 03 00 02 02 01
= 1000

98 28 03 00 02 02 01
98 54 03 00 01 02 01
--
98 74 07 00 01 02 01
= 1000

98 74 E8 03 01 02 01
= 1000

96 05 73 74 61 63 6B 05 53 54 41 43 4B 05 4F 54 48 45 52
98 28 01 00 01 05 01
98 74 00 04 03 04 01
98 74 00 01 03 05 01
= 1000",
    )
}

/// Modules with a stack that is cut.
#[test]
fn cut(rt: HostRuntime) -> Result<(), Fail> {
    run(
        rt.alloc(),
        Asked::Cut(1000),
        "\
# parts keep what is left, in order
98 28 07 00 02 02 01
98 54 E0 03 01 02 01
--
98 74 20 00 01 02 01
98 74 09 00 02 02 01
--
98 74 07 00 01 02 01
= | CODE.CODE 1 Public 7; .CODE 2 Stack 992; | .CODE 16 Stack 8; CODE.CODE 16 Stack 9; | .CODE 16 Stack 0; 1000

# 65,536 bytes
98 76 00 00 02 02 01
= | CODE.CODE 16 Stack 1000; 1000

# indexes of two bytes
98 54 FF FF 80 01 80 02 80 01
= | .CODE 2 Stack 1000; 1000

# none is cut
98 54 E8 03 01 02 01
= | .CODE 2 Stack 1000; 1000

98 28 E8 07 01 02 01
= | .CODE 1 Public 2024; no stack

# what lies outside
98 54 E9 03 01 02 01
90 00 01 01 61 E8 03 00
A0 01 E8 03 41
= module 0, place 37

# in the second module, behind data that lies in its part
98 54 E0 03 01 02 01
--
98 74 10 00 01 02 01
98 74 10 00 01 02 01
A0 01 07 00 41
A0 02 00 00 42
= module 1, place 44",
    )
}
