//! The members of archives.

use super::files::{What, run};
use std::test::*;

#[test]
fn members_of_archives(rt: HostRuntime) -> Result<(), Fail> {
    run(
        rt.alloc(),
        What::Members,
        "\
text !<arch>
ar / 5
raw 00 00 00 00 00 0A
ar a.o/ 3
raw 41 42 43 0A
ar b.o/ 2
raw 44 45
= [134 3 a.o][198 2 b.o]

text !<arch>
ar // 25
text a_long_member_name.o/
text b/
raw 0A
ar /0 2
raw 41 42
ar /22 1
raw 43 0A
ar /25 1
raw 43 0A
= [154 2 a_long_member_name.o][216 1 b][278 1 /25]

# the names of BSD, and an end without its padding
text !<arch>
ar __.SYMDEF 2
raw 00 00
ar __.SYMDEF SORTED 2
raw 00 00
ar /SYM64/ 0
ar x y.o 1
raw 41 0A
ar plain 1
raw 42
= [252 1 x y.o][314 1 plain]

text !<arch>
= 

text object
= [0 7 ]

raw 21 3C 61 72 63 68 3E 0D
= [0 8 ]",
    )
}

#[test]
fn faults_of_archives(rt: HostRuntime) -> Result<(), Fail> {
    run(
        rt.alloc(),
        What::Members,
        "\
text !<arch>
ar a.o/ 3
raw 41 42
= place 8: the member is longer than the archive

text !<arch>
raw 41*59
= place 8: no header of a member begins there

text !<arch>
ar a.o/ 1
raw 41 0A
ar a.o/ -1
= place 70: no header of a member begins there

text !<arch>
ar a.o/ 1x
raw 41
= place 8: no header of a member begins there

text !<arch>
ar a.o/ 
raw 41
= place 8: no header of a member begins there

text !<arch>
ar a.o/ 9999999999
raw 41
= place 8: the member is longer than the archive

text !<arch>
raw 20*58 60 0D
= place 8: no header of a member begins there",
    )
}
