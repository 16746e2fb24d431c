//! Tables of modules, and of what they say in records of the fourteen.
//!
//! A row of a table has two modules: one, and one of the fourteen that says the same. Of a row with one module, that one
//! is it; and where a row says what is in the way of its module, there is none.

use super::modules::compare_modules;
use super::records::compare_records;
use omf_alias::Renaming;
use omf_place::Names;
use rows::read_row;
use std::alloc::Global;
use std::process::Abort;
use std::test::*;

/// Whether each module of a table is taken as its row says, without what debuggers read.
pub fn run<R: Abort>(rt: &R, alloc: Global, table: &str) -> Result<(), Fail> {
    run_as(rt, alloc, false, &Renaming::none(Names::Exact), table)
}

/// The same, where what debuggers read may stay, and names mean others.
pub fn run_as<R: Abort>(
    rt: &R,
    alloc: Global,
    keep_debug: bool,
    renaming: &Renaming<'_, '_>,
    table: &str,
) -> Result<(), Fail> {
    for text in table.split("\n\n") {
        let row = read_row(alloc, text)?;
        let by_records = compare_records(rt, alloc, keep_debug, renaming, &row)?;
        let by_module = compare_modules(rt, alloc, keep_debug, renaming, &row)?;
        assert!(rt; by_records || by_module, "{text}");
    }
    Ok(())
}
