use super::answers::hold;
use omf_wide::WideLocation;

/// Names, lines and data with offsets of four bytes.
#[test]
fn numbers_of_16_bits(rt: HostRuntime) {
    let rows = "\
A10134120000AABB => Plain(Ledata { segment: 1, offset: 4660, bytes: [170, 187] })
A10100000000 => Plain(Ledata { segment: 1, offset: 0, bytes: [] })
A181FFFFFF0000 => Plain(Ledata { segment: 511, offset: 65535, bytes: [] })
91000101780010000007 => Plain(Pubdef { local: false, base: InSegment { group: 0, segment: 1 }, publics: \
[Public { name: [120], offset: 4096, type_index: 7 }] })
B70200345601790000000000 => Plain(Pubdef { local: true, base: AtFrame { group: 2, frame: 22068 }, publics: \
[Public { name: [121], offset: 0, type_index: 0 }] })
910001 => Plain(Pubdef { local: false, base: InSegment { group: 0, segment: 1 }, publics: [] })
95000107003412000008000000FFFF => Above16Bits { at: 12 }
950001070034120000 => Plain(Linnum { group: 0, segment: 1, lines: [Line { number: 7, offset: 4660 }] })
950001 => Plain(Linnum { group: 0, segment: 1, lines: [] })";
    hold(&rt, rt.alloc(), rows);
}

/// What is told stands first: a number above 16 bits, or a wrong byte.
#[test]
fn numbers_above_16_bits(rt: HostRuntime) {
    let rows = "\
A10100000100AA => Above16Bits { at: 3 }
A10100000001AA => Above16Bits { at: 4 }
A101000000 => Body { at: 4 }
A101000001 => Above16Bits { at: 3 }
A1 => Body { at: 0 }
A181 => Body { at: 1 }
91000101780010010007 => Above16Bits { at: 6 }
9100010178001001000701 => Above16Bits { at: 6 }
91000101780010000007017800 => Body { at: 12 }
9100010178001000000701780000FF0001 => Above16Bits { at: 13 }
91000101780010 => Body { at: 6 }
B7 => Body { at: 0 }
9500010700341200FF08 => Above16Bits { at: 7 }
9500010700341200 => Body { at: 7 }";
    hold(&rt, rt.alloc(), rows);
}

/// Types that say what others do.
#[test]
fn other_types(rt: HostRuntime) {
    let rows = "\
82026162 => Plain(Theadr { name: [97, 98] })
820261 => Body { at: 2 }
8201616200 => Body { at: 2 }
CA00016102626300 => Plain(Lnames { names: [[], [97], [98, 99], []] })
CA => Plain(Lnames { names: [] })
CA026162FF => Body { at: 4 }
B5017807 => Plain(Extdef { local: true, names: [External { name: [120], type_index: 7 }] })
B50178 => Body { at: 2 }
A00100AA => OtherType
8000 => OtherType
BC0107817F02 => Cextdef { names: [ListedExternal { name: 1, type_index: 7 }, ListedExternal { name: 383, type_index: 2 }] }
BC0107 => Cextdef { names: [ListedExternal { name: 1, type_index: 7 }] }
BC => Cextdef { names: [] }
BC010702 => Body { at: 3 }
8C017800 => OtherType
0000 => OtherType";
    hold(&rt, rt.alloc(), rows);
}

/// Threads are as in a FIXUPP of 16 bits, and displacements have four bytes in 9DH and two in 9CH.
#[test]
fn fixups(rt: HostRuntime) {
    let rows = "\
9D100167018805260134 => Fixupp { wide: true, subrecords: [SetTarget(Zero, Segment(1)), SetFrame(Three, By(Group(1))), \
Fixup(WideFixup { self_relative: true, location: Of16Bits(Base), offset: 5, reference: WideReference { \
frame: By(By(External(1))), target: By(External(52)), displacement: None } })] }
9DE404500156341200 => Fixupp { wide: true, subrecords: [Fixup(WideFixup { self_relative: false, \
location: Offset32, offset: 4, reference: WideReference { frame: By(Target), target: By(Segment(1)), \
displacement: Some(1193046) } })] }
9CE4045001785680 => Body { at: 7 }
9CE4045001FEFF => Fixupp { wide: false, subrecords: [Fixup(WideFixup { self_relative: false, \
location: Offset32, offset: 4, reference: WideReference { frame: By(Target), target: By(Segment(1)), \
displacement: Some(65534) } })] }
9DF7FF8EFCFFFFFF => Body { at: 3 }
9DF7FF8AFCFFFFFF => Fixupp { wide: true, subrecords: [Fixup(WideFixup { self_relative: false, \
location: LoaderOffset32, offset: 1023, reference: WideReference { frame: Thread(Zero), target: Thread(Two), \
displacement: Some(4294967292) } })] }
9D => Fixupp { wide: true, subrecords: [] }
9DD40051 => Body { at: 3 }
9DD00051 => Body { at: 0 }
9DAC00510101000000 => Body { at: 0 }
9DD4005001000000 => Body { at: 7 }
9D0C01 => Body { at: 0 }
9D4C01 => Body { at: 0 }
9DD40030 => Body { at: 2 }
9DD40053 => Body { at: 2 }";
    hold(&rt, rt.alloc(), rows);
    assert_eq!(rt; WideLocation::Offset32.width(), 4);
}

/// A start has a displacement of four bytes in 8BH and of two in 8AH.
#[test]
fn ends(rt: HostRuntime) {
    let rows = "\
8BC1500134120100 => Modend { wide: true, main: true, start: Some(WideReference { frame: By(Target), \
target: By(Segment(1)), displacement: Some(70196) }) }
8AC150013412 => Modend { wide: false, main: true, start: Some(WideReference { frame: By(Target), \
target: By(Segment(1)), displacement: Some(4660) }) }
8B415401 => Modend { wide: true, main: false, start: Some(WideReference { frame: By(Target), \
target: By(Segment(1)), displacement: None }) }
8B00 => Modend { wide: true, main: false, start: None }
8A80 => Modend { wide: false, main: true, start: None }
8BC150013412 => Body { at: 5 }
8AC1500134120100 => Body { at: 5 }
8BC0500134120100 => Body { at: 0 }
8B0000 => Body { at: 1 }
8B => Body { at: 0 }";
    hold(&rt, rt.alloc(), rows);
}

/// A length has four bytes in 99H and two in 98H, and the bit P is a saying.
#[test]
fn segments(rt: HostRuntime) {
    let rows = "\
99A90000010002017F => Segdef { wide: true, segment: WideSegment { alignment: DoubleWord, combination: Public2, \
big: false, use32: true, length: 65536, name: 2, class: 1, overlay: 127 } }
992A00000000020100 => Segdef { wide: true, segment: WideSegment { alignment: Byte, combination: Public2, \
big: true, use32: false, length: 0, name: 2, class: 1, overlay: 0 } }
98A90100020100 => Segdef { wide: false, segment: WideSegment { alignment: DoubleWord, combination: Public2, \
big: false, use32: true, length: 1, name: 2, class: 1, overlay: 0 } }
990000B80400000000010101 => Segdef { wide: true, segment: WideSegment { alignment: Absolute { frame: 47104, offset: 4 }, \
combination: Private, big: false, use32: false, length: 0, name: 1, class: 1, overlay: 1 } }
99A900000100 => Body { at: 5 }
99A90000010002017F00 => Body { at: 8 }
99C9 => Body { at: 0 }
99A50000010002017F => Body { at: 0 }
99 => Body { at: 0 }";
    hold(&rt, rt.alloc(), rows);
}

/// The first entry of COMDEF: numbers of one byte up to 80H, and of two, three or four behind 81H, 84H and 88H.
#[test]
fn communals(rt: HostRuntime) {
    let rows = "\
B00141006280FF => Some((Communal { name: [65], type_index: 0, extent: Near { length: 128 } }, [255]))
B002414281806281FFFF => Some((Communal { name: [65, 66], type_index: 384, extent: Near { length: 65535 } }, []))
B000076103840000010161 => Some((Communal { name: [], type_index: 7, extent: Far { elements: 3, size: 65536 } }, [1, 97]))
B801410061880000000100 => Some((Communal { name: [65], type_index: 0, extent: Far { elements: 16777216, size: 0 } }, []))
B00141005F0102 => Some((Communal { name: [65], type_index: 0, extent: Other { data_type: 95 } }, [1, 2]))
B00141006282 => None
B00141006281FF => None
B00141006105 => None
B0014100 => None
B00241 => None
B0 => None";
    hold(&rt, rt.alloc(), rows);
}
