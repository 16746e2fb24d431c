//! Each growth refused in turn.

use super::cases::{AT_FAULT, TWO};
use super::laid::outcome;
use omf_place::Names;
use refusing::refuse_each;
use rows::{read_row, same};
use std::alloc::Global;
use std::process::Abort;
use std::test::*;

/// For each row of a table, how many growths can be refused.
fn made_do<R: Abort>(rt: &R, alloc: Global, table: &str) -> Result<String, Fail> {
    let mut counts = String::new(alloc);
    for row in table.split("\n\n") {
        let row = read_row(alloc, row)?;
        let (wants, made_do) = refuse_each(alloc, row.wanted, |heap| {
            Ok(outcome(heap, alloc, Names::Exact, &row.inputs)?)
        })?;
        assert!(rt; 10 < wants && wants < 250, "{wants}");
        write!(counts, " {made_do}")?;
    }
    Ok(counts)
}

#[test]
fn refused_growths(rt: HostRuntime) -> Result<(), Fail> {
    same(made_do(&rt, rt.alloc(), TWO)?.as_str(), " 2")?;
    same(made_do(&rt, rt.alloc(), AT_FAULT)?.as_str(), " 0 1 0 1 0")
}
