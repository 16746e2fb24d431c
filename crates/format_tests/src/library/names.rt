//! The names of modules.

use super::files::{What, run};
use std::test::*;

#[test]
fn names_of_modules(rt: HostRuntime) -> Result<(), Fail> {
    run(
        rt.alloc(),
        What::Names,
        "\
80 01 4D
8C 01 61 00 02 62 63 81 00
90 00 01 01 64 00 00 00 01 65 00 00 00
91 00 00 34 12 01 66 00 00 00 00 00
8A 00
8C 01 7A 00
= wants a bc, offers d e f, libraries

# the two names of an alias, of which neither is wanted
C6 01 61 01 62 02 63 63 02 64 64
= wants, offers a cc, a for b at 0, cc for dd at 0, libraries

# aliases of two records, one without a name, and one that is cut off
8C 01 62 00
C6 01 61 01 62 00 01 63
C6 01 64 00 01 65 02 66
= wants b, offers a  d, a for b at 7,  for c at 7, d for  at 18, libraries

# by the names listed so far
BC 01 00
96 01 61 01 62
CA 01 63
BC 01 00 03 00 00 00 04 00 80 02 00
= wants a c b, offers, libraries

# a COMDAT with a base in a segment, one with a frame, one with none
96 01 61 01 62 01 63
C2 00 00 00 00 00 00 01 01 01 FF FF
C2 00 01 00 00 00 00 02 FF
C3 01 00 00 00 00 00 00 00 00 00 00 00 03
= wants, offers a b c, libraries

# local, without a name, cut off
96 01 61
C2 04 00 00 00 00 00 00 01 01
C2 00 01 00 00 00 00 02
C2 00 01 00 00 00 00
C2 00 01
= wants, offers, libraries

# local and communal names
B0 01 61 00 62 01
B4 01 61 00
B5 01 61 00
B6 00 01 01 61 00 00 00
B7 00 01 01 61 00 00 00 00 00
B8 01 61 00 62 01
B2 01 61 00
BE 01 61
= wants, offers, communal a, libraries

# near and far communal variables, of lengths in all forms, and one of another data type
B0 01 61 00 62 80 01 62 00 61 81 00 01 84 00 00 01
B0 01 63 80 01 62 88 00 00 01 00 00 00
B0 01 64 00 62 01 01 65 00 5F 01
= wants, offers, communal a b c d, libraries

88 00 9F 6C 69 62
88 00 81 6F 6C 64
88 80 9E
88 00 9F
88 00 A3 01 61
= wants, offers, libraries lib old , dosseg

# bodies that end inside an entry
8C 01 61 00 02 62
8C 01 63 00 01 64
90 00 01 01 65 00 00 00 01 66 00 00
90 00
96 01 67 05 68
BC 01 00 01
C6 01 69 01 6A 01 6B
B0 01 6C 00 62 01 01 6D 00 61 01
= wants a c g, offers e i, communal l, i for j at 53, libraries

# to the first fault
8C 01 61 00
raw 96 00 00
8C 01 62 00
= wants a, offers, libraries

8C 01 61 00
8B 00
8C 01 62 00
= wants a, offers, libraries

raw 41 42
= wants, offers, libraries",
    )
}

#[test]
fn weak_externals_are_not_wanted(rt: HostRuntime) -> Result<(), Fail> {
    run(
        rt.alloc(),
        What::Names,
        "\
8C 01 66 00 01 67 00
88 00 A8 01 02
= wants g, externals f g, offers, libraries

# indexes count the externals of all records, and have one byte or two
96 01 61
B0 01 63 00 62 81 00 10
B4 01 6C 00
B8 01 6D 00 61 02 84 00 00 01
BC 01 00
8C 01 62 00
88 40 A8 04 80 05
= wants b, externals a b, offers, communal c, libraries

# pairs of two externals, and of one that is its own default
8C 01 61 00 01 62 00 01 63 00
88 00 A8 01 02 03 03
= wants b, externals a b c, offers, libraries

# a default that is weak too, by a later comment
8C 01 61 00 01 62 00 01 63 00
88 00 A8 01 02
88 00 A8 02 03
= wants c, externals a b c, offers, libraries

# before the externals, and what an alias stands for
88 00 A8 02 01
8C 01 66 00 01 67 00
C6 01 61 01 67
= wants f, externals f g, offers a, a for g at 18, libraries

# another external of the name
8C 01 66 00 01 66 00 01 67 00
88 00 A8 01 03
= wants f f g, offers, libraries

# and both of them
8C 01 66 00 01 66 00 01 67 00
88 00 A8 01 03 02 03
= wants g, externals f f g, offers, libraries

# behind local names, by either type of record
B5 01 6C 00
B4 01 6D 00
8C 01 66 00 01 67 00
88 00 A8 03 04
= wants g, externals f g, offers, libraries

# a default that is local to the module, by each type of record
8C 01 66 00
B4 01 67 00
88 00 A8 01 02
= wants, externals f, offers, libraries

B5 01 67 00
8C 01 66 00
88 00 A8 02 01
= wants, externals f, offers, libraries

8C 01 66 00 01 68 00
B8 01 67 00 62 02
88 00 A8 01 03
= wants h, externals f h, offers, libraries

# no pairs: an index behind the last, none, a local name before its default, and a comment that is cut off
8C 01 66 00 01 67 00
B4 01 6C 00
88 00 A8 01 04 00 02 02 00 03 01 01
88 00 A8 01 80
88 00 A8
= wants f g, offers, libraries

# behind an external that is cut off, indexes count on from the last whole one
8C 01 61 00 01 62
8C 01 66 00 01 67 00
88 00 A8 02 03
= wants a g, externals a f g, offers, libraries

# a comment of that text in another class
8C 01 66 00 01 67 00
88 00 A7 01 02
88 00 AA 01 02
= wants f g, offers, libraries",
    )
}

#[test]
fn lazy_externals_are_wanted_and_not_needed(rt: HostRuntime) -> Result<(), Fail> {
    run(
        rt.alloc(),
        What::Names,
        "\
8C 01 66 00 01 67 00
88 00 A9 01 02
= wants f g, needs g, offers, libraries

# a default that is local to the module
8C 01 66 00
B4 01 67 00
88 00 A9 01 02
= wants f, needs, offers, libraries

# weak ones are neither
8C 01 61 00 01 62 00 01 63 00
88 00 A9 01 03
88 00 A8 02 03
= wants a c, needs c, externals a b c, offers, libraries

# one that is both is weak
8C 01 61 00 01 62 00 01 63 00
88 00 A9 01 03
88 00 A8 01 02
= wants b c, externals a b c, offers, libraries

# one of them lazy, and another one weak, of a name
8C 01 61 00 01 61 00 01 63 00
88 00 A9 01 03
88 00 A8 02 03
= wants a a c, needs c, offers, libraries

# another external of the name
8C 01 66 00 01 66 00 01 67 00
88 00 A9 02 03
= wants f f g, offers, libraries",
    )
}

#[test]
fn first_records_that_want_names(rt: HostRuntime) -> Result<(), Fail> {
    run(
        rt.alloc(),
        What::Places,
        "\
80 01 4D
8C 01 61 00 02 62 63 81 00
8C 01 61 00 01 64 00
90 00 01 01 65 00 00 00
8A 00
= a 6, bc 6, d 18, e -, b -

C6 01 61 01 62
8C 01 63 00 01 61 00 01 62 00
= a 8, b 0, c 8

# by the names listed before
BC 01 00
96 01 61 01 62
CA 01 63
BC 01 00 03 00
8C 01 61 00
= a 20, b -, c 20

# local and communal names
B0 01 61 00 62 01
B4 01 61 00
BC 01 00
8C 01 62 00
= a -, b 22

# the name of a weak external
8C 01 66 00
8C 01 67 00
88 00 A8 01 02
= f 0, g 7

# behind the end
8C 01 61 00
8A 00
8C 01 62 00
= a 0, b -

# behind a fault
8C 01 61 00
raw 96 00 00
8C 01 62 00
= a 0, b -",
    )
}
