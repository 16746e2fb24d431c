//! Searches, each with what is answered.

use super::links::outcome;
use rows::same;
use std::alloc::Global;
use std::test::*;

/// Links, each with the members that are taken and the names that stay missing.
const SEARCHES: &str = "\
+main
=

+main -f
library
+f
=
0.0 f 0

+main -f
library
+g
+f -g -h
+h
=
0.1 f 0
0.0 g 1
0.2 h 1

+main -f
library
+f -g
library
+g -h -f
library
+h
=
0.0 f 0
1.0 g 1
2.0 h 2

+main -f -g
library
+f -g
library
+g -f
=
0.0 f 0
1.0 g 0

+main -f -g
library
+g
+f
library
+g
+f
=
0.1 f 0
0.0 g 0

+main -f
library
+x
library
+f
+f
library
+f
=
1.0 f 0

+main -f
+other -f -f
library
+f
=
0.0 f 0

+main -f -g
library
+f +g
=
0.0 f 0

+main -f -g -g
+f -g
=
missing g 0
missing g 1

folded
+main -F -G -g
library
+f
=
0.0 F 0
missing G 0

+main -F
library
+f
=
missing F 0 like f 0.0

+_f -f -f__ -__f -_g -_h
library
+G
+f_
+f__
=
0.2 f__ 0
missing f 0 like _f 0
missing __f 0 like _f 0
missing _g 0 like G 0.0
missing _h 0

folded
+main -_Alpha -BETA -gamma
library
+alpha
+__Beta
+_beta
+_GAMMA +Gamma
=
0.3 gamma 0
missing _Alpha 0 like alpha 0.0
missing BETA 0 like _beta 0.2";

/// Links with communal variables: one of a module that is linked is defined, and no member is taken for its own.
const COMMUNALS: &str = "\
+main -f *buf
+other -buf
library
+buf
+f
=
0.1 f 0

+main *buf -x
library
+buf
*x
=
missing x 0

+main -f
library
+f -buf
+g *buf
+buf
=
0.0 f 0
0.2 buf 1

+main -f -buf
library
+f *buf
+buf
=
0.0 f 0

folded
+main -f *BUF
+other -buf
library
+buf
+f
=
0.1 f 0";

#[test]
fn communal_variables(rt: HostRuntime) -> Result<(), Fail> {
    answers(rt.alloc(), COMMUNALS, &[99])
}

/// Links with aliases, of which an unused one wants nothing.
const ALIASES: &str = "\
+main a=b
library
+b
=

+main -a
library
a=b
+b
=
0.0 a 0
0.1 b 1

+main -a a=b
+other b=c -x
library
+c
+x
=
0.1 x 1
0.0 c 1

+main -a a=b
+other a=c
library
+c
+b
=
0.1 b 0

+main ~a
+other a=b
library
+b
=
0.0 b 1

+main *a a=b
library
+b
=
0.0 b 0

+main a=b -f
library
+f -a
+b
=
0.0 f 0
0.1 b 0

+main -a +a
+other a=b
=
missing b 1

+main -a a=b b=a
=

+main -a a=b
+other -b
=
missing b 0
missing b 1

folded
+main -A a=B
library
+b
=
0.0 B 0

+main -f
library
+f *a a=b
+b
=
0.0 f 0
0.1 b 1";

#[test]
fn aliases(rt: HostRuntime) -> Result<(), Fail> {
    answers(rt.alloc(), ALIASES, &[99])
}

/// Each link of a table is answered as its row says.
fn answers(alloc: Global, table: &str, rounds: &[usize]) -> Result<(), Fail> {
    for row in table.split("\n\n") {
        if let Some((link, wanted)) = row.split_once("\n=") {
            let answered = outcome(alloc, alloc, link, rounds)?;
            same(answered.as_str().trim(), wanted.trim())?;
        }
    }
    Ok(())
}

#[test]
fn searches(rt: HostRuntime) -> Result<(), Fail> {
    answers(rt.alloc(), SEARCHES, &[99])
}

/// A link whose later libraries are searched afterwards: so many members each time.
const ROUNDS: &str = "\
+main -f
library
+f -g -h
+h
library
+g -k
+f
+k
library
+k
=
0.0 f 0
0.1 h 1
1.0 g 1
1.2 k 3";

#[test]
fn rounds(rt: HostRuntime) -> Result<(), Fail> {
    answers(rt.alloc(), ROUNDS, &[2, 5, 6])
}

/// Links whose later libraries offer what was wanted before, and what is defined by then.
const GOING_BACK: &str = "\
+main -a -b -c -d
library
+d
library
+b -e
+d +c
library
+a
+e
=
0.0 d 0
1.0 b 0
1.1 c 0
2.0 a 0
2.1 e 2

folded
+main -A -b -C
library
+c
library
+B -a -d
+x
library
+D
+a
=
0.0 C 0
1.0 b 0
2.1 A 0
2.0 d 2";

#[test]
fn going_back(rt: HostRuntime) -> Result<(), Fail> {
    answers(rt.alloc(), GOING_BACK, &[1, 3, 5])
}
