//! Inputs that fail, sinks that are full, and growths that are refused.

use super::answer::{Answer, Command, Devices, answer_of};
use super::objects::{BOTH, FIRST, SMALL, SMALL_FILE};
use super::tables::{are, is};
use omf_commands::Options;
use rows::read_row;
use std::alloc::Global;
use std::process::Abort;
use std::test::*;

/// The command writes this and stops for this fault, if there is one.
pub fn gives<R: Abort>(
    rt: &R,
    alloc: Global,
    command: Command,
    inputs: &[Vec<u8>],
    devices: Devices,
    output: &[u8],
    fault: &str,
) -> Result<(), Fail> {
    let answer = answer_of(alloc, command, inputs, devices)?;
    is(rt, &answer.fault, fault);
    are(rt, &answer.output, output);
    Ok(())
}

/// Calls of an input up to this one, how much was written when one of them fails, and the place of the record.
type Calls = (u64, usize, u64);

/// The line of a call that fails.
fn call_fault(alloc: Global, command: Command, place: u64) -> Result<String, Fail> {
    Ok(match command {
        Command::Load(_) => format!(in alloc; "3 omf: A.OBJ: 40 Device\n")?,
        _ => format!(in alloc; "3 omf: A.OBJ: 1 Device at record {place}\n")?,
    })
}

/// The call of the first input with this number fails, if it is made.
fn failing_call(call: u64) -> Devices {
    Devices {
        failing: (0, call),
        ..Devices::sound(1)
    }
}

/// Each of these calls of an input fails, and no other is made.
fn calls_fail<R: Abort>(
    rt: &R,
    alloc: Global,
    command: Command,
    input: &str,
    rows: &[Calls],
) -> Result<(), Fail> {
    let inputs = read_row(alloc, input)?.inputs;
    let whole = answer_of(alloc, command, &inputs, Devices::sound(1))?.output;
    let mut next = 1u64;
    for (last, written, place) in rows {
        let front = whole.get(..*written).unwrap_or(&[]);
        let fault = call_fault(alloc, command, *place)?;
        for call in next..=*last {
            gives(
                rt,
                alloc,
                command,
                &inputs,
                failing_call(call),
                front,
                &fault,
            )?;
        }
        next = last.saturating_add(1);
    }
    gives(rt, alloc, command, &inputs, failing_call(next), &whole, "")
}

/// The calls of the small module before which nothing is written.
const READ_WHOLE: [Calls; 6] = [
    (6, 0, 0),
    (16, 0, 6),
    (26, 0, 16),
    (38, 0, 26),
    (47, 0, 38),
    (57, 0, 47),
];

/// The same, where each record is rewritten as it was read.
const REWRITTEN: [Calls; 6] = [
    (6, 0, 0),
    (16, 6, 6),
    (26, 16, 16),
    (38, 26, 26),
    (47, 38, 38),
    (57, 47, 47),
];

/// The same, where its lines are written.
const SHOWN: [Calls; 6] = [
    (6, 0, 0),
    (16, 37, 6),
    (26, 87, 16),
    (38, 167, 26),
    (47, 230, 38),
    (57, 337, 47),
];

#[test]
fn each_failing_call_is_told(rt: HostRuntime) -> Result<(), Fail> {
    let link = Command::Link(Options::new());
    calls_fail(&rt, rt.alloc(), Command::Check, SMALL, &READ_WHOLE)?;
    calls_fail(&rt, rt.alloc(), link, SMALL, &READ_WHOLE)?;
    calls_fail(&rt, rt.alloc(), Command::Rewrite, SMALL, &REWRITTEN)?;
    calls_fail(&rt, rt.alloc(), Command::Show, SMALL, &SHOWN)?;
    calls_fail(
        &rt,
        rt.alloc(),
        Command::Load(0x1234),
        SMALL_FILE,
        &[(37, 0, 0)],
    )
}

/// The small module, and two others without a start.
const THREE: &str = "\
raw 80 03 00 01 41 3B 96 07 00*2 04 43 4F 44 45 44 98 07 00 28 05 00 02 01*2 30 A0 09 00 01 00*2 B8 00*2 8E D8 \
38 9C 06 00 C8 01 04 01*2 8F 8A 07 00 C1 00 01*2 00*2 AC
--
raw 80 03 00 01 41 3B 96 07 00*2 04 43 4F 44 45 44 98 07 00 28 05 00 02 01*2 30 A0 09 00 01 00*2 B8 00*2 8E D8 \
38 9C 06 00 C8 01 04 01*2 8F 8A 02 00*2 74
--
raw 80 03 00 01 41 3B 96 07 00*2 04 43 4F 44 45 44 98 07 00 28 05 00 02 01*2 30 A0 09 00 01 00*2 B8 00*2 8E D8 \
38 9C 06 00 C8 01 04 01*2 8F 8A 02 00*2 74";

/// The first input is read to its end, and the third isn't called.
#[test]
fn no_input_is_read_behind_one_that_fails(rt: HostRuntime) -> Result<(), Fail> {
    let inputs = read_row(rt.alloc(), THREE)?.inputs;
    let devices = Devices {
        failing: (1, 7),
        ..Devices::sound(1)
    };
    let answer = answer_of(rt.alloc(), Command::Link(Options::new()), &inputs, devices)?;
    is(&rt, &answer.fault, "3 omf: B.OBJ: 1 Device at record 6\n");
    are(&rt, &answer.output, b"");
    assert_eq!(rt; answer.calls.as_slice(), [57u64, 7, 0].as_slice());
    Ok(())
}

/// Each front of the output is all that a sink takes that has no more room.
fn sinks_fill<R: Abort>(
    rt: &R,
    alloc: Global,
    command: Command,
    inputs: &[Vec<u8>],
    whole: &[u8],
    piece: usize,
) -> Result<(), Fail> {
    for room in 0..=whole.len() {
        let devices = Devices {
            room,
            ..Devices::sound(piece)
        };
        let fault = if room < whole.len() {
            "3 omf: OUT: 40 Device\n"
        } else {
            ""
        };
        gives(rt, alloc, command, inputs, devices, &whole[..room], fault)?;
    }
    Ok(())
}

/// Sinks that take pieces of 1, 7 and 10 bytes fill.
fn all_sinks_fill<R: Abort>(
    rt: &R,
    alloc: Global,
    command: Command,
    inputs: &str,
) -> Result<(), Fail> {
    let inputs = read_row(alloc, inputs)?.inputs;
    let whole = answer_of(alloc, command, &inputs, Devices::sound(60))?.output;
    sinks_fill(rt, alloc, command, &inputs, &whole, 1)?;
    sinks_fill(rt, alloc, command, &inputs, &whole, 7)?;
    sinks_fill(rt, alloc, command, &inputs, &whole, 10)
}

#[test]
fn each_full_sink_is_told(rt: HostRuntime) -> Result<(), Fail> {
    let (link, map) = (Command::Link(Options::new()), Command::Map(Options::new()));
    all_sinks_fill(&rt, rt.alloc(), Command::Show, SMALL)?;
    all_sinks_fill(&rt, rt.alloc(), Command::Rewrite, SMALL)?;
    all_sinks_fill(&rt, rt.alloc(), Command::Check, SMALL)?;
    all_sinks_fill(&rt, rt.alloc(), Command::Load(0x1234), SMALL_FILE)?;
    all_sinks_fill(&rt, rt.alloc(), link, SMALL)?;
    all_sinks_fill(&rt, rt.alloc(), map, BOTH)
}

/// What a refused growth does: `u` where the last input isn't called, `c` where it is, and `m` where an index map makes
/// do with a smaller growth.
fn mark_of<R: Abort>(rt: &R, answer: &Answer, whole: &[u8], fronts: &[usize]) -> u8 {
    if answer.fault.is_empty() {
        are(rt, &answer.output, whole);
        return b'm';
    }
    is(rt, &answer.fault, "3 omf: memory\n");
    let is_front = whole.starts_with(&answer.output) && fronts.contains(&answer.output.len());
    assert!(rt; answer.is_refused && is_front);
    match answer.calls.last() {
        Some(0) => b'u',
        _ => b'c',
    }
}

/// What each growth does that is refused. There are fewer than 500, and what is written is one of the fronts.
fn refusals<R: Abort>(
    rt: &R,
    alloc: Global,
    command: Command,
    inputs: &str,
    fronts: &[usize],
) -> Result<Vec<u8>, Fail> {
    let inputs = read_row(alloc, inputs)?.inputs;
    let whole = answer_of(alloc, command, &inputs, Devices::sound(60))?.output;
    let mut marks = Vec::new(alloc);
    for refused in 1..500u64 {
        let devices = Devices {
            refused,
            ..Devices::sound(60)
        };
        let answer = answer_of(alloc, command, &inputs, devices)?;
        let mark = mark_of(rt, &answer, &whole, fronts);
        if !answer.is_refused {
            return Ok(marks);
        }
        marks.push(mark)?;
    }
    Err(Fail::from("too many growths"))
}

/// How often a mark stands among others.
fn count_of(marks: &[u8], mark: u8) -> usize {
    let mut count = 0usize;
    for other in marks {
        if *other == mark {
            count = count.saturating_add(1);
        }
    }
    count
}

/// Each refused growth of a command over one input is want of memory.
fn all_want<R: Abort>(
    rt: &R,
    alloc: Global,
    command: Command,
    input: &str,
    fronts: &[usize],
) -> Result<(), Fail> {
    let marks = refusals(rt, alloc, command, input, fronts)?;
    assert!(rt; !marks.is_empty() && count_of(&marks, b'm') == 0);
    Ok(())
}

/// A module with data that is repeated.
const REPEATED: &str = "\
98 28 0C 00 02 01 01
A2 01 00 00 02 00 01 00 03 00 00 00 02 41 42";

/// The places of the first module's records.
const PLACES: [usize; 10] = [0, 6, 29, 39, 49, 56, 63, 76, 84, 94];

/// Where the lines of its records begin.
const LINES: [usize; 10] = [0, 37, 118, 199, 279, 327, 375, 438, 533, 689];

#[test]
fn each_refused_growth_is_want_of_memory(rt: HostRuntime) -> Result<(), Fail> {
    all_want(&rt, rt.alloc(), Command::Show, FIRST, &LINES)?;
    all_want(&rt, rt.alloc(), Command::Rewrite, FIRST, &PLACES)?;
    all_want(&rt, rt.alloc(), Command::Check, REPEATED, &[0])?;
    all_want(&rt, rt.alloc(), Command::Load(0x1234), SMALL_FILE, &[0])
}

/// The second of two modules isn't called before the first is read, the list of modules grows, and so does the buffer
/// of the second. Two growths of index maps are made do without.
#[test]
fn each_refused_growth_of_a_link_is_told(rt: HostRuntime) -> Result<(), Fail> {
    let first = refusals(&rt, rt.alloc(), Command::Check, FIRST, &[0])?;
    let both = refusals(&rt, rt.alloc(), Command::Link(Options::new()), BOTH, &[0])?;
    let before = first.len().saturating_add(2);
    let (front, rest) = both.split_at(before.min(both.len()));
    let counts = [
        count_of(front, b'c'),
        count_of(rest, b'u'),
        count_of(&both, b'm'),
    ];
    assert_eq!(rt; counts, [0usize, 0, 2]);
    Ok(())
}
