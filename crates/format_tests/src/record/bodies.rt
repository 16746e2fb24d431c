use super::answers::{Ask, encode_if_fits, hold, read};
use omf_record::{
    Block, External, Location, PublicBase, Record, RecordFault, SegmentLength, fits_frame,
};
use std::alloc::{AllocError, Global};
use std::process::Abort;

/// The types of the fourteen records.
const KINDS: [u8; 14] = [
    0x80, 0x88, 0x8A, 0x8C, 0x90, 0x94, 0x96, 0x98, 0x9A, 0x9C, 0xA0, 0xA2, 0xB4, 0xB6,
];

#[test]
fn bodies_that_are_accepted(rt: HostRuntime) {
    let accepted = "\
8A3E => 00
982A0000020101 => 2A0000020101
9828050080020101 => 280500020101
980000B8000040010101 => 0000B8000040010101
96 => \n\
960004434F4445 => 0004434F4445
9C1001 => 0001
9C6401 => 4401
9CC404CC => C4048C
90000000B8017810008007 => 000000B80178100007
8AFF448100 => C1448100
88010203 => 010203
B4017880070000 => 0178070000
B60080010178100000 => 00010178100000";
    hold(&rt, rt.alloc(), Ask::Body, accepted);
}

#[test]
fn bodies_at_fault(rt: HostRuntime) {
    let faults = "\
8AC00001010000 => Body { at: 0 }
982A0500020101 => Body { at: 1 }
9828050002010100 => Body { at: 6 }
900001017810 => Body { at: 5 }
90 => Body { at: 0 }
800541 => Body { at: 2 }
9A02FE01 => Body { at: 1 }
9CC404 => Body { at: 2 }
9C4C01 => Body { at: 0 }
A20100000100FFFF => Body { at: 7 }
B40178 => Body { at: 2 }
B60001017810 => Body { at: 5 }
7000 => OtherType
B500 => OtherType
B7000100 => OtherType";
    hold(&rt, rt.alloc(), Ask::Body, faults);
}

/// The row of a block with a content, below so many levels, and its fault.
fn nested(alloc: Global, above: usize, fault: Option<&str>) -> Result<String, AllocError> {
    let levels = "01000100".repeat(alloc, above)?;
    let body = format!(in alloc; "010000{levels}010000000141")?;
    format!(in alloc; "A2{body} => {}", fault.unwrap_or(&body))
}

#[test]
fn levels(rt: HostRuntime) {
    for (above, fault) in [(62, None), (63, None), (64, Some("Body { at: 257 }"))] {
        let row = nested(rt.alloc(), above, fault).expect(&rt, "text");
        hold(&rt, rt.alloc(), Ask::Body, &row);
    }
}

/// The bodies of at most three bytes, by number.
fn small_body(number: usize) -> ([u8; 3], usize) {
    let bytes = [0x00, 0x01, 0x80, 0xC4, 0xFF];
    let first = bytes[number % 5];
    let third = if first == 0x01 { 0x05 } else { 0x80 };
    ([first, bytes[number / 5 % 5], third], number / 25)
}

/// Whether zeros complete the bytes, so many of them.
fn zeros_complete(alloc: Global, kind: u8, front: &[u8]) -> Result<bool, AllocError> {
    let mut text = Vec::from_slice(alloc, front)?;
    for _ in 0..=256 {
        if read(alloc, kind, &text).is_ok() {
            return Ok(true);
        }
        text.push(0)?;
    }
    Ok(false)
}

/// Whether the fault of a body, if it has one, stands behind the greatest number of bytes that zeros complete.
fn stands_where_zeros_end(alloc: Global, kind: u8, body: &[u8]) -> Result<bool, AllocError> {
    let Err(RecordFault::Body { at }) = read(alloc, kind, body) else {
        return Ok(true);
    };
    let mut longest = 0;
    for len in 0..=body.len() {
        if zeros_complete(alloc, kind, &body[..len])? {
            longest = len;
        }
    }
    Ok(at == longest)
}

#[test]
fn faults_stand_where_zeros_end_to_help(rt: HostRuntime) {
    for kind in KINDS {
        for number in 0..100 {
            let (bytes, len) = small_body(number);
            let stands = stands_where_zeros_end(rt.alloc(), kind, &bytes[..len.min(3)]);
            assert!(rt; stands == Ok(true), "{kind} {number}");
        }
    }
}

#[test]
fn what_is_read(rt: HostRuntime) {
    let read = "\
982A0000020101 => Segdef { segment: SegmentDefinition { alignment: Byte, combination: Public2, \
length: Whole, name: 2, class: 1, overlay: 1 } }
9C100167018805260134 => Fixupp { subrecords: [SetTarget(Zero, Segment(1)), SetFrame(Three, By(Group(1))), \
Fixup(Fixup { self_relative: true, location: Base, offset: 5, reference: Reference { \
frame: By(By(External(1))), target: By(External(52)), displacement: None } })] }";
    hold(&rt, rt.alloc(), Ask::Content, read);
    assert_eq!(rt;
        (SegmentLength::Whole.bytes(), Location::Pointer.width()),
        (65536, 4)
    );
}

/// Local names are told from others by the type alone.
#[test]
fn local_names_are_read(rt: HostRuntime) {
    let read = "\
8C017807 => Extdef { local: false, names: [External { name: [120], type_index: 7 }] }
B4017807 => Extdef { local: true, names: [External { name: [120], type_index: 7 }] }
9000010178100000 => Pubdef { local: false, base: InSegment { group: 0, segment: 1 }, publics: \
[Public { name: [120], offset: 16, type_index: 0 }] }
B600010178100000 => Pubdef { local: true, base: InSegment { group: 0, segment: 1 }, publics: \
[Public { name: [120], offset: 16, type_index: 0 }] }";
    hold(&rt, rt.alloc(), Ask::Content, read);
}

fn has_no_body<R: Abort>(rt: &R, record: Record<'_>) {
    assert!(rt; !fits_frame(&record), "{record:?}");
}

/// A long name, a great index, no address, and a block without blocks.
#[test]
fn values_without_a_body(rt: HostRuntime) {
    let alloc = rt.alloc();
    has_no_body(&rt, Record::Theadr { name: &[0; 256] });
    let segments = Vec::new(alloc);
    has_no_body(
        &rt,
        Record::Grpdef {
            name: 32768,
            segments,
        },
    );
    let external = External {
        name: b"x",
        type_index: 32768,
    };
    let names = vec![in alloc; external].expect(&rt, "memory");
    has_no_body(&rt, Record::Extdef { local: true, names });
    let publics = Record::Pubdef {
        local: false,
        base: PublicBase::InSegment {
            group: 0,
            segment: 0,
        },
        publics: Vec::new(alloc),
    };
    has_no_body(&rt, publics);
    let nothing = Block::Nested {
        repeat: 1,
        blocks: Vec::new(alloc),
    };
    let repeated = Record::Lidata {
        segment: 1,
        offset: 0,
        blocks: vec![in alloc; nothing].expect(&rt, "memory"),
    };
    has_no_body(&rt, repeated);
}

/// A body is written behind what stands in the vector.
#[test]
fn bodies_are_appended(rt: HostRuntime) {
    let mut out = vec![in rt.alloc(); 9].expect(&rt, "memory");
    encode_if_fits(&Record::Theadr { name: &[0, 0] }, &mut out);
    assert_eq!(rt; out.as_slice(), [9, 2, 0, 0].as_slice());
}
