use mz::FileFault;
use omf_faults::{InputFault, LinkFault, ProgramFault, fault_line, status};
use omf_frame::{FramingFault, MemSink};
use omf_image::FixKind;
use omf_module::CheckFault;
use omf_record::NoRecord;
use std::process::Abort;

/// The fault of a file is told by this line, of which there is as much as there is room for, and by this status and
/// input.
fn is_told<R: Abort>(
    rt: &R,
    fault: LinkFault,
    file: &str,
    line: &str,
    numbers: (u8, Option<usize>),
) {
    for len in 0..line.len() + 1 {
        let mut room = [0u8; 80];
        let mut sink = MemSink::over(&mut room[..len.min(80)], 3);
        let whole = fault_line("omf", &fault, file, &mut sink).is_ok();
        let told = (whole, sink.written(), (status(&fault), fault.input()));
        let front = &line.as_bytes()[..len];
        assert_eq!(rt; told, (len == line.len(), front, numbers));
    }
}

/// Each fault of a record, at the last place of a long input, is told by its line and its status.
fn are_told<R: Abort>(rt: &R, rows: &[(InputFault, &str, u8)]) {
    for (fault, line, exit) in rows {
        let fault = LinkFault::Record {
            input: 2,
            place: 4_294_901_759,
            fault: *fault,
        };
        is_told(rt, fault, "A.OBJ", line, (*exit, Some(2)));
    }
}

#[test]
fn each_fault_has_its_line_and_status(rt: HostRuntime) {
    are_told(
        &rt,
        &[
            (
                InputFault::Absent(NoRecord::Framing(FramingFault::ZeroLength)),
                "omf: A.OBJ: 2 ZeroLength at record 4294901759\n",
                1,
            ),
            (
                InputFault::Absent(NoRecord::Framing(FramingFault::Truncated)),
                "omf: A.OBJ: 3 Truncated at record 4294901759\n",
                1,
            ),
            (
                InputFault::Absent(NoRecord::Framing(FramingFault::Closing)),
                "omf: A.OBJ: 4 Closing at record 4294901759\n",
                1,
            ),
            (
                InputFault::Absent(NoRecord::Type),
                "omf: A.OBJ: 5 Type at record 4294901759\n",
                1,
            ),
            (
                InputFault::Absent(NoRecord::Body { at: 65_533 }),
                "omf: A.OBJ: 6 Body at record 4294901759 byte 65533\n",
                1,
            ),
            (
                InputFault::Check(CheckFault::NotHeader),
                "omf: A.OBJ: 7 NotHeader at record 4294901759\n",
                1,
            ),
            (
                InputFault::Absent(NoRecord::NoEnd),
                "omf: A.OBJ: 8 NoEnd at record 4294901759\n",
                1,
            ),
            (
                InputFault::Check(CheckFault::NameIndex),
                "omf: A.OBJ: 10 NameIndex at record 4294901759\n",
                1,
            ),
            (
                InputFault::Check(CheckFault::SegmentIndex),
                "omf: A.OBJ: 11 SegmentIndex at record 4294901759\n",
                1,
            ),
            (
                InputFault::Check(CheckFault::GroupIndex),
                "omf: A.OBJ: 12 GroupIndex at record 4294901759\n",
                1,
            ),
            (
                InputFault::Check(CheckFault::ExternalIndex),
                "omf: A.OBJ: 13 ExternalIndex at record 4294901759\n",
                1,
            ),
            (
                InputFault::Check(CheckFault::ThreadNotSet),
                "omf: A.OBJ: 14 ThreadNotSet at record 4294901759\n",
                1,
            ),
            (
                InputFault::Check(CheckFault::FixupBeforeData),
                "omf: A.OBJ: 15 FixupBeforeData at record 4294901759\n",
                1,
            ),
            (
                InputFault::Check(CheckFault::FixupPlace),
                "omf: A.OBJ: 16 FixupPlace at record 4294901759\n",
                1,
            ),
            (
                InputFault::Check(CheckFault::DataOutside),
                "omf: A.OBJ: 17 DataOutside at record 4294901759\n",
                1,
            ),
            (
                InputFault::Check(CheckFault::DataInAbsolute),
                "omf: A.OBJ: 18 DataInAbsolute at record 4294901759\n",
                1,
            ),
            (
                InputFault::Check(CheckFault::SelfRelativeBase),
                "omf: A.OBJ: 19 SelfRelativeBase at record 4294901759\n",
                1,
            ),
            (
                InputFault::Check(CheckFault::FrameOfLocation),
                "omf: A.OBJ: 20 FrameOfLocation at record 4294901759\n",
                1,
            ),
            (
                InputFault::Check(CheckFault::GroupOfAbsolute),
                "omf: A.OBJ: 21 GroupOfAbsolute at record 4294901759\n",
                1,
            ),
            (
                InputFault::Fix(FixKind::CoversRelocated),
                "omf: A.OBJ: 26 CoversRelocated at record 4294901759\n",
                1,
            ),
            (
                InputFault::Fix(FixKind::Unresolved),
                "omf: A.OBJ: 27 Unresolved at record 4294901759\n",
                1,
            ),
            (
                InputFault::Fix(FixKind::EmptyGroup),
                "omf: A.OBJ: 28 EmptyGroup at record 4294901759\n",
                1,
            ),
            (
                InputFault::Fix(FixKind::Mixed),
                "omf: A.OBJ: 29 Mixed at record 4294901759\n",
                1,
            ),
            (
                InputFault::Fix(FixKind::OutOfFrame),
                "omf: A.OBJ: 30 OutOfFrame at record 4294901759\n",
                1,
            ),
            (
                InputFault::Fix(FixKind::ShortTooFar),
                "omf: A.OBJ: 31 ShortTooFar at record 4294901759\n",
                1,
            ),
            (
                InputFault::Fix(FixKind::OverlapRelocated),
                "omf: A.OBJ: 32 OverlapRelocated at record 4294901759\n",
                1,
            ),
            (
                InputFault::Fix(FixKind::TwoStarts),
                "omf: A.OBJ: 33 TwoStarts at record 4294901759\n",
                1,
            ),
            (
                InputFault::Absent(NoRecord::Framing(FramingFault::InputTooLong)),
                "omf: A.OBJ: 41 InputTooLong at record 4294901759\n",
                1,
            ),
        ],
    );
}

#[test]
fn memory_and_outputs_have_lines(rt: HostRuntime) {
    let output = "omf: output: 40 Device\n";
    let device = LinkFault::Device {
        input: 1,
        place: 26,
    };
    let body = LinkFault::Record {
        input: 0,
        place: 16,
        fault: InputFault::Absent(NoRecord::Body { at: 6 }),
    };
    let many = LinkFault::Program(ProgramFault::TooManyRelocations);
    let many_line = "omf: link: 34 TooManyRelocations\n";
    let file = LinkFault::File(FileFault::Device);
    is_told(&rt, LinkFault::Memory, "", "omf: memory\n", (3, None));
    is_told(&rt, LinkFault::Output, "output", output, (3, None));
    is_told(
        &rt,
        LinkFault::Output,
        "P.EXE",
        "omf: P.EXE: 40 Device\n",
        (3, None),
    );
    is_told(
        &rt,
        device,
        "B.OBJ",
        "omf: B.OBJ: 1 Device at record 26\n",
        (3, Some(1)),
    );
    is_told(
        &rt,
        body,
        "A.OBJ",
        "omf: A.OBJ: 6 Body at record 16 byte 6\n",
        (1, Some(0)),
    );
    is_told(&rt, many, "", many_line, (1, None));
    is_told(&rt, file, "P.EXE", "omf: P.EXE: 40 Device\n", (3, Some(0)));
}

fn has_number<R: Abort>(rt: &R, fault: LinkFault, number: Option<u8>) {
    assert_eq!(rt; fault.number(), number);
}

#[test]
fn memory_has_no_number(rt: HostRuntime) {
    has_number(&rt, LinkFault::Memory, None);
    has_number(&rt, LinkFault::Output, Some(40));
}
