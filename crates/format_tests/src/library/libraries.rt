//! The members of libraries of DOS.

use super::files::{What, run};
use std::test::*;

#[test]
fn members_of_libraries(rt: HostRuntime) -> Result<(), Fail> {
    run(
        rt.alloc(),
        What::Members,
        "\
lib 16
80 01 41
8A 00
pad 16
80 01 42
96 01 78*20
8B 00
pad 16
raw F1 01 00 00 FF FF
= [16 11 A][32 36 B]

lib 512
80 01 41
8A 00
pad 512
82 03 62 2E 63
88 00 A3 01 42
8A 00
pad 512
raw F1
= [512 11 A][1024 21 B]

# a name without its length, two comments, none
lib 16
80 01 41
88 00 A3 42 43 44
88 00 A3 45
8A 00
pad 16
8A 00
pad 16
raw F1
= [16 27 BCD][48 5 ]

# a member that ends with its page
lib 16
80 06 61 62 63 64 65 66
8A 00
raw F1
= [16 16 abcdef]

lib 16
raw F1
= 

# what stands behind isn't read
lib 16
80 01 41
8A 00
pad 16
raw F1 00 00 FF*600
80 01 42
8A 00
= [16 11 A]

# nor what pads a member
lib 32
80 01 41
8A 00
raw FF*15
pad 32
raw F1
= [32 11 A]",
    )
}

#[test]
fn faults_of_libraries(rt: HostRuntime) -> Result<(), Fail> {
    run(
        rt.alloc(),
        What::Members,
        "\
raw F0
= place 0: the library ends inside it or before it

raw F0 0D
= place 0: the library ends inside it or before it

raw F0 0C 00
= place 0: its page size is no power of two from 16 to 32768

raw F0 05 00
= place 0: its page size is no power of two from 16 to 32768

raw F0 2D 00
= place 0: its page size is no power of two from 16 to 32768

raw F0 FD FF
= place 0: its page size is no power of two from 16 to 32768

raw F0 FD 7F
= place 32768: the library ends inside it or before it

lib 16
= place 16: the library ends inside it or before it

lib 16
80 01 41
8A 00
= place 32: the library ends inside it or before it

lib 16
80 01 41
8A 00
pad 16
raw 00 00 00 F1
= place 32: its length word is 0

lib 16
80 01 41
raw 8A 02 00 00 75
= place 22: its closing byte is wrong

lib 16
80 01 41
raw 8A 02 00 00 74
pad 16
raw F1
= [16 11 A]

lib 16
80 01 41
raw 96 03 00 00
= place 22: the library ends inside it or before it

lib 16
80 01 41
raw 96 03
= place 22: the library ends inside it or before it

# a closing byte of 0 is taken
lib 16
raw 80 03 00 01 41 00
raw 8A 02 00 00 00
pad 16
raw F1
= [16 11 A]

# the first fault in order of places
lib 16
80 01 41
raw 96 00 00
8A 00
pad 16
raw 80 02 00 00 01
= place 22: its length word is 0",
    )
}

#[test]
fn ends_of_modules(rt: HostRuntime) -> Result<(), Fail> {
    run(
        rt.alloc(),
        What::End,
        "\
80 01 4D
8A 00
raw 41 42
= 11

# cut off, at fault, and empty
80 01 4D
= none

raw 96 00 00
8A 00
= none

# a library: up to the type of the record behind its last member
lib 16
80 01 41
8A 00
pad 16
80 01 42
8B 00
pad 16
raw F1 0D 00 41 42 43
= 49

lib 16
raw F1
= 17

lib 16
80 01 41
8A 00
pad 16
= none

raw F0 0E 00 00
= none

# an archive ends where its file does
text !<arch>
ar a.o/ 1
raw 41
= none",
    )
}
