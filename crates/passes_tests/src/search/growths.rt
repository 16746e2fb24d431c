//! Each growth refused in turn.

use super::links::outcome;
use refusing::refuse_each;
use std::test::*;

const LINK: &str = "\
folded
+main -f -missing
library
+g
+F -g -Main";

const WANTED: &str = "\
0.1 f 0
0.0 g 1
missing missing 0
";

#[test]
fn refused_growths(rt: HostRuntime) -> Result<(), Fail> {
    let alloc = rt.alloc();
    let (wants, made_do) = refuse_each(alloc, WANTED, |heap| {
        Ok(outcome(heap, alloc, LINK, &[9])?)
    })?;
    assert!(rt; 10 < wants && wants < 250, "{wants}");
    assert_eq!(rt; made_do, 0u32);
    Ok(())
}
