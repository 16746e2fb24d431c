//! What becomes of the COMDATs of modules.

use omf_comdat::{ComdatFate, ComdatFault, comdat_fates, comdat_records};
use omf_library::module_frames;
use omf_place::Names;
use rows::{Row, read_row};
use std::alloc::Global;
use std::process::Abort;
use std::test::*;

/// Appends a fate.
fn push_fate(text: &mut String, fate: ComdatFate) -> Result<(), Fail> {
    match fate {
        ComdatFate::Opens { length } => write!(text, "opens {length}; ")?,
        ComdatFate::Continues => text.push_str("continues; ")?,
        ComdatFate::LeftOut => text.push_str("out; ")?,
        ComdatFate::Stray => text.push_str("stray; ")?,
    }
    Ok(())
}

/// The fates of the COMDATs of a row's modules, or in what two of them differ.
fn fates(alloc: Global, names: Names, row: &Row<'_>) -> Result<String, Fail> {
    let mut modules = Vec::new(alloc);
    for module in &row.inputs {
        modules.push(comdat_records(alloc, &module_frames(alloc, module)?)?)?;
    }
    let mut text = String::new(alloc);
    match comdat_fates(alloc, names, &modules) {
        Ok(all) => {
            for fates in &all {
                for fate in fates {
                    push_fate(&mut text, *fate)?;
                }
                text.push_str("| ")?;
            }
        }
        Err(ComdatFault::Clash(clash)) => {
            let (first, other) = (clash.first, clash.other);
            write!(text, "{:?} {:?} {first} {other}", clash.differ, clash.name)?;
        }
        Err(ComdatFault::Memory) => text.push_str("memory")?,
    }
    Ok(text)
}

/// Whether the modules of each row have its fates.
fn run<R: Abort>(rt: &R, alloc: Global, names: Names, table: &str) -> Result<(), Fail> {
    for text in table.split("\n\n") {
        let row = read_row(alloc, text)?;
        let told = fates(alloc, names, &row)?;
        assert_eq!(rt; told.trim_ascii_end(), row.wanted, "{text}");
    }
    Ok(())
}

/// Which of some of one name is taken.
#[test]
fn taken(rt: HostRuntime) -> Result<(), Fail> {
    run(
        &rt,
        rt.alloc(),
        Names::Exact,
        "\
# pick any: the first
80 01 41
96 01 66 01 46
C2 00 10 01 00 00 00 00 01 01 AA BB
C2 00 10 01 00 00 00 00 01 02 CC
--
80 01 41
96 01 66
C2 00 10 01 00 00 00 00 01 01 DD
= opens 2; opens 1; | out; |

# with those that go on, behind a gap, and of 32 bits
80 01 41
96 01 66
C2 00 10 01 00 00 00 00 01 01 AA
A0 01 00 00 11
C2 01 10 01 05 00 00 00 01 01 BB CC
C3 01 10 01 02 00 00 00 00 00 01 01 DD
--
80 01 41
CA 01 66
C2 00 10 01 00 00 00 00 01 01 AA
C2 01 10 01 01 00 00 00 01 01 BB
= opens 7; continues; continues; | out; out; |

# no match: each
80 01 41
96 01 66
C2 00 00 01 00 00 00 00 01 01 AA
--
80 01 41
96 01 66
C2 00 10 01 00 00 00 00 01 01 AA
--
80 01 41
96 01 66
C2 00 00 01 00 00 00 00 01 01 BB
= opens 1; | opens 1; | opens 1; |

# local ones: each, beside one that isn't
80 01 41
96 01 66
C2 04 10 01 00 00 00 00 01 01 AA
C2 04 00 01 00 00 00 00 01 01 AA BB
--
80 01 41
96 01 66
C2 00 30 01 00 00 00 00 01 01 CC
= opens 1; opens 2; | opens 1; |

# what goes on with none, or with another name
80 01 41
96 01 66 01 67
C2 01 10 01 00 00 00 00 01 01 AA
C2 00 10 01 00 00 00 00 01 01 AA
C2 01 10 01 01 00 00 00 01 02 AA
C2 01 10 01 01 00 00 00 01 01 AA
= stray; opens 1; stray; stray; |

# a name that isn't listed, a body that is none, and what stands behind the end
80 01 41
96 01 66
C2 00 10 01 00 00 00 00 01 02 AA
C2 00 50 01 00 00 00 00 01 01 AA
C2 00 10 01 00 00 00 00 01 01 AA BB CC
8A 00
C2 00 10 01 00 00 00 00 01 01 AA
= opens 3; |

# no records
80 01 41
= |",
    )
}

/// Those that have to be the same, and aren't.
#[test]
fn differing(rt: HostRuntime) -> Result<(), Fail> {
    run(
        &rt,
        rt.alloc(),
        Names::AsciiFolded,
        "\
# one size
80 01 41
96 01 66
C2 00 20 01 00 00 00 00 01 01 AA
--
80 01 41
96 01 46
C2 00 20 01 00 00 00 00 01 01 BB
--
80 01 41
96 01 46
C2 00 10 01 00 00 00 00 01 01 AA BB
= Size [70] 0 2

# the second says so
80 01 41
96 01 66
C2 00 10 01 00 00 00 00 01 01 AA
--
80 01 41
96 01 66
C2 00 20 01 00 00 00 00 01 01 BB
= opens 1; | out; |

# the same data
80 01 41
96 01 66
C2 00 30 01 00 00 00 00 01 01 AA BB
--
80 01 41
96 01 66
C3 00 30 01 00 00 00 00 00 00 01 01 AA BB
--
80 01 41
96 01 66
C2 00 10 01 00 00 00 00 01 01 AA CC
= Data [102] 0 2

# in other records
80 01 41
96 01 66
C2 00 30 01 00 00 00 00 01 01 AA BB
--
80 01 41
96 01 66
C2 00 30 01 00 00 00 00 01 01 AA
C2 01 30 01 01 00 00 00 01 01 BB
= Data [102] 0 1

# the size comes first
80 01 41
96 01 66
C2 00 30 01 00 00 00 00 01 01 AA
--
80 01 41
96 01 66
C2 00 30 01 00 00 00 00 01 01 AB AC
= Size [102] 0 1",
    )
}
