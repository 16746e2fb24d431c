//! Names that are local to their module, and each choice of which names agree.

use super::answer::Command;
use super::tables::{Telling, answers};
use omf_commands::Options;
use std::test::*;

/// Calls of names in one module and in two.
const CALLS: &str = "\
# a call of a local name at the segment's end
98 28 11 00 02 01 01
B4 01 78 00
B6 00 01 01 78 10 00 00
A0 01 00 00 E8 00 00
9C 84 01 56 01
= image E8 0D 00 relocations

98 28 11 00 02 01 01
B4 01 78 00
B6 00 01 01 78 10 00 00
A0 01 00 00 E8 00 00
9C 84 01 56 01
--
98 28 11 00 02 01 01
B4 01 78 00
B6 00 01 01 78 10 00 00
A0 01 00 00 E8 00 00
9C 84 01 56 01
= image E8 0D 00*15 E8 0D 00 relocations

# the other calls a public of the name
98 28 11 00 02 01 01
B4 01 78 00
B6 00 01 01 78 10 00 00
A0 01 00 00 E8 00 00
9C 84 01 56 01
--
98 28 11 00 02 01 01
8C 01 78 00
90 00 01 01 78 10 00 00
A0 01 00 00 E8 00 00
9C 84 01 56 01
= image E8 0D 00*15 E8 0D 00 relocations

# public x at 10, and in each of two modules a local x: the words take the local one and the public
98 28 08 00 02 01 01
B4 01 78 00
8C 01 78 00
B6 00 01 01 78 04 00 00
A0 01 00 00 00 00 00 00
9C C4 00 56 01 C4 02 56 02
--
98 28 08 00 02 01 01
B4 01 78 00
8C 01 78 00
90 00 01 01 78 02 00 00
B6 00 01 01 78 06 00 00
A0 01 00 00 00 00 00 00
9C C4 00 56 01 C4 02 56 02
= image 04 00 0A 00*5 0E 00 0A 00 relocations

# the name is local, and other modules have to define the one that is called
98 28 11 00 02 01 01
8C 01 78 00
B6 00 01 01 78 10 00 00
A0 01 00 00 E8 00 00
9C 84 01 56 01
= 1 omf: A.OBJ: 27 Unresolved at record 54

# the name is public, and the one that is called is local
98 28 11 00 02 01 01
B4 01 78 00
90 00 01 01 78 10 00 00
A0 01 00 00 E8 00 00
9C 84 01 56 01
= 1 omf: A.OBJ: 27 Unresolved at record 54

98 28 11 00 02 01 01
B4 01 78 00
B6 00 01 01 78 10 00 00
A0 01 00 00 E8 00 00
9C 84 01 56 01
--
98 28 11 00 02 01 01
8C 01 78 00
B6 00 01 01 78 10 00 00
A0 01 00 00 E8 00 00
9C 84 01 56 01
= 1 omf: B.OBJ: 27 Unresolved at record 54

# the module doesn't define the local name
98 28 11 00 02 01 01
B4 01 78 00
B6 00 01 01 78 10 00 00
A0 01 00 00 E8 00 00
9C 84 01 56 01
--
98 28 11 00 02 01 01
B4 01 78 00
A0 01 00 00 E8 00 00
9C 84 01 56 01
= 1 omf: B.OBJ: 27 Unresolved at record 43

98 28 11 00 02 01 01
B4 01 78 00
A0 01 00 00 E8 00 00
9C 84 01 56 01
--
98 28 11 00 02 01 01
B4 01 78 00
B6 00 01 01 78 10 00 00
A0 01 00 00 E8 00 00
9C 84 01 56 01
= 1 omf: A.OBJ: 27 Unresolved at record 43

98 28 11 00 02 01 01
8C 01 78 00
90 00 01 01 78 10 00 00
A0 01 00 00 E8 00 00
9C 84 01 56 01
--
98 28 11 00 02 01 01
B4 01 78 00
A0 01 00 00 E8 00 00
9C 84 01 56 01
= 1 omf: B.OBJ: 27 Unresolved at record 43";

#[test]
fn local_names_are_those_of_their_module(rt: HostRuntime) -> Result<(), Fail> {
    let command = Command::Link(Options::new());
    answers(&rt, rt.alloc(), command, Telling::Image, CALLS)
}

/// A local public stands where a public stands.
const BASES: &str = "\
# in an absolute segment
98 28 04 00 02 01 01
98 00 00 B8 00 00 40 01 01 01
B4 01 78 00
B6 00 02 01 78 10 00 00
A0 01 00 00 00 00 00 00
9C C4 00 56 01 C8 02 56 01
= image 10 00*2 B8 relocations

# in a group over both segments
98 28 10 00 02 01 01
98 68 04 00 01 01 01
9A 02 FF 01 FF 02
B4 01 78 00
B6 01 02 01 78 03 00 00
A0 01 00 00 00 00 00 00
9C C4 00 56 01 C8 02 56 01
= image 13 00*3 relocations 02 00*3

# in a frame
98 28 04 00 02 01 01
B4 01 78 00
B6 00 00 40 00 01 78 05 00 00
A0 01 00 00 00 00 00 00
9C C4 00 56 01 C8 02 56 01
= image 05 00 40 00 relocations

# a public of the name has a frame, and the local one's group has no members
98 28 02 00 02 01 01
9A 02
B4 01 78 00
B6 01 01 01 78 00 00 00
A0 01 00 00 00 00
9C C4 00 56 01
90 00 01 01 78 00 00 00
= 1 omf: A.OBJ: 28 EmptyGroup at record 58";

#[test]
fn local_names_have_bases(rt: HostRuntime) -> Result<(), Fail> {
    let command = Command::Link(Options::new());
    answers(&rt, rt.alloc(), command, Telling::Image, BASES)
}

/// A local name agrees with no public, and with no local name of another module.
const CLASHES: &str = "\
98 28 05 00 02 01 01
B6 00 01 01 78 01 00 00
90 00 01 01 78 02 00 00
= image relocations

98 28 02 00 02 01 01
90 00 01 01 78 02 00 00
B6 00 01 01 78 01 00 00
--
98 28 03 00 02 01 01
B6 00 01 01 78 01 00 00
90 00 01 01 79 03 00 00
= image relocations

98 28 03 00 02 01 01
B6 00 01 01 78 01 00 00
--
98 28 02 00 02 01 01
B6 00 01 01 78 01 00 00
= image relocations

98 28 05 00 02 01 01
B6 00 01 01 78 00 00 00 01 78 01 00 00
= 1 omf: link: 25 DuplicatePublic \"x\"

98 28 05 00 02 01 01
B6 00 01 01 78 01 00 00
B6 00 01 01 78 01 00 00
= 1 omf: link: 25 DuplicatePublic \"x\"

98 28 05 00 02 01 01
--
98 28 05 00 02 01 01
B6 00 01 01 78 01 00 00
90 00 01 01 78 02 00 00
B6 00 01 01 78 01 00 00
= 1 omf: link: 25 DuplicatePublic \"x\"

98 28 05 00 02 01 01
B6 00 01 01 78 01 00 00
90 00 01 01 79 03 00 00
90 00 01 01 79 03 00 00
B6 00 01 01 78 01 00 00
= 1 omf: link: 25 DuplicatePublic \"y\"

98 28 05 00 02 01 01
B6 00 01 01 78 01 00 00
90 00 01 01 79 03 00 00
B6 00 01 01 78 01 00 00
90 00 01 01 79 03 00 00
= 1 omf: link: 25 DuplicatePublic \"x\"";

#[test]
fn local_names_clash_in_their_module(rt: HostRuntime) -> Result<(), Fail> {
    let command = Command::Link(Options::new());
    answers(&rt, rt.alloc(), command, Telling::Image, CLASHES)
}

/// Starts that are local names, of modules behind one that has a public and a local name so.
const STARTS: &str = "\
98 28 01 00 02 01 01
90 00 01 01 78 00 00 00
B6 00 01 01 78 00 00 00
--
98 28 11 00 02 01 01
B4 01 78 00
B6 00 01 01 78 10 00 00
8A C1 52 01 00 00
= raw 4D 5A 20 00 01 00*3 02 00 02 00 FF*2 00*6 11 00*3 1C 00*7

98 28 01 00 02 01 01
90 00 01 01 78 00 00 00
B6 00 01 01 78 00 00 00
--
98 28 11 00 02 01 01
B4 01 78 00
B6 00 01 01 78 10 00 00
8A C1 22 01 01 02 00
= raw 4D 5A 20 00 01 00*3 02 00 02 00 FF*2 00*6 13 00*3 1C 00*7

98 28 01 00 02 01 01
90 00 01 01 78 00 00 00
B6 00 01 01 78 00 00 00
--
98 28 11 00 02 01 01
B4 01 78 00
8A C1 52 01 00 00
= 1 omf: B.OBJ: 27 Unresolved at record 33

98 28 01 00 02 01 01
90 00 01 01 78 00 00 00
B6 00 01 01 78 00 00 00
--
98 28 11 00 02 01 01
B4 01 78 00
8A C1 22 01 01 02 00
= 1 omf: B.OBJ: 27 Unresolved at record 33";

/// Threads that are local names, behind a public of the name.
const THREADS: &str = "\
98 28 01 00 02 01 01
90 00 01 01 78 00 00 00
--
98 28 04 00 02 01 01
B4 01 78 00
B6 00 01 01 78 02 00 00
9C 48 01 08 01
A0 01 00 00 00 00 00 00
9C C4 00 8C C8 02 8C
= image 00 03 00*3 relocations 03 00*3

98 28 01 00 02 01 01
90 00 01 01 78 00 00 00
--
98 28 04 00 02 01 01
B4 01 78 00
9C 48 01 08 01
A0 01 00 00 00 00 00 00
9C C4 00 8C
= 1 omf: B.OBJ: 27 Unresolved at record 52";

#[test]
fn starts_and_threads_mean_local_names(rt: HostRuntime) -> Result<(), Fail> {
    let command = Command::Link(Options::new());
    answers(&rt, rt.alloc(), command, Telling::Bytes, STARTS)?;
    answers(&rt, rt.alloc(), command, Telling::Image, THREADS)
}

/// Maps where names agree that have the same bytes.
const EXACT: &str = "\
# calls the public X at 10H by the name x
98 28 11 00 02 01 01
8C 01 78 00
90 00 01 01 58 10 00 00
A0 01 00 00 E8 00 00
9C 84 01 56 01
= 1 omf: A.OBJ: 27 Unresolved at record 54

# the publics x and X
98 28 05 00 02 01 01
90 00 01 01 78 00 00 00 01 58 01 00 00
= ..publics
000000 R \"x\"
000001 R \"X\"
entry 0000:0000
stack 0000:0000
size 000005
relocations 0";

/// Maps where names agree without regard to case.
const FOLDED: &str = "\
# calls the public X at 10H by the name x
98 28 11 00 02 01 01
8C 01 78 00
90 00 01 01 58 10 00 00
A0 01 00 00 E8 00 00
9C 84 01 56 01
= ..publics
000010 R \"X\"
entry 0000:0000
stack 0000:0000
size 000011
relocations 0

# the publics x and X
98 28 05 00 02 01 01
90 00 01 01 78 00 00 00 01 58 01 00 00
= 1 omf: link: 25 DuplicatePublic \"X\"";

#[test]
fn names_agree_as_chosen(rt: HostRuntime) -> Result<(), Fail> {
    let (exact, folded) = (
        Command::Map(Options::new()),
        Command::Map(Options::ignoring_case()),
    );
    answers(&rt, rt.alloc(), exact, Telling::Text, EXACT)?;
    answers(&rt, rt.alloc(), folded, Telling::Text, FOLDED)
}

/// The call, and its file.
const CALL: &str = "\
98 28 11 00 02 01 01
8C 01 78 00
90 00 01 01 58 10 00 00
A0 01 00 00 E8 00 00
9C 84 01 56 01
= raw 4D 5A 23 00 01 00*3 02 00 02 00 FF*2 00*10 1C 00*7 E8 0D 00";

#[test]
fn a_call_that_ignores_case(rt: HostRuntime) -> Result<(), Fail> {
    let command = Command::Link(Options::ignoring_case());
    answers(&rt, rt.alloc(), command, Telling::Bytes, CALL)
}
