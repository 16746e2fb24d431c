use super::answers::hold;

/// Communal variables: the standard's example of `_foo2`, of two bytes, and of the far array `_foo3`, of 32,768
/// elements of one byte, with those of others. Behind one of another data type no byte is known.
#[test]
fn communals(rt: HostRuntime) {
    let rows = "\
B0055F666F6F32006202055F666F6F33006181008001 => Comdef { local: false, communals: [Communal { name: \
[95, 102, 111, 111, 50], type_index: 0, extent: Near { length: 2 } }, Communal { name: [95, 102, 111, 111, 51], \
type_index: 0, extent: Far { elements: 32768, size: 1 } }], unknown: [] }
B801410062840000010142006102880000000100 => Body { at: 19 }
B8014100628400000101420061028800000001 => Comdef { local: true, communals: [Communal { name: [65], type_index: 0, \
extent: Near { length: 65536 } }, Communal { name: [66], type_index: 0, \
extent: Far { elements: 2, size: 16777216 } }], unknown: [] }
B00141006204014200050102030142006204 => Comdef { local: false, communals: [Communal { name: [65], type_index: 0, \
extent: Near { length: 4 } }, Communal { name: [66], type_index: 0, extent: Other { data_type: 5 } }], \
unknown: [1, 2, 3, 1, 66, 0, 98, 4] }
B001410005 => Comdef { local: false, communals: [Communal { name: [65], type_index: 0, \
extent: Other { data_type: 5 } }], unknown: [] }
B0 => Comdef { local: false, communals: [], unknown: [] }
B0014100620401420062 => Body { at: 9 }
B001410062040142006282 => Body { at: 9 }
B001410062040242 => Body { at: 7 }";
    hold(&rt, rt.alloc(), rows);
}

/// Names, each with the one that it stands for.
#[test]
fn aliases(rt: HostRuntime) {
    let rows = "\
C6036162630378797A0001 => Body { at: 10 }
C6036162630378797A000131 => Alias { aliases: [Alias { name: [97, 98, 99], substitute: [120, 121, 122] }, \
Alias { name: [], substitute: [49] }] }
C6 => Alias { aliases: [] }
C60161 => Body { at: 2 }";
    hold(&rt, rt.alloc(), rows);
}

/// What a COMDAT says, and its data. Its place stands there only where it is put there, and its frame only behind the
/// segment 0.
#[test]
fn comdats(rt: HostRuntime) {
    let rows = "\
C20010013412000005 => Body { at: 8 }
C20010013412000001055566 => Comdat { wide: false, comdat: Comdat { continuation: false, iterated: false, local: false, \
in_code: false, selection: PickAny, allocation: Explicit { base: InSegment { group: 0, segment: 1 } }, \
alignment: Byte, offset: 4660, type_index: 0, name: 5 }, bytes: [85, 102] }
C2000000000000000000B807 => Comdat { wide: false, comdat: Comdat { continuation: false, iterated: false, local: false, \
in_code: false, selection: NoMatch, allocation: Explicit { base: AtFrame { group: 0, frame: 47104 } }, \
alignment: OfSegment, offset: 0, type_index: 0, name: 7 }, bytes: [] }
C30D3105785634127F8123 => Comdat { wide: true, comdat: Comdat { continuation: true, iterated: false, local: true, \
in_code: true, selection: ExactMatch, allocation: FarCode, alignment: DoubleWord, offset: 305419896, type_index: 127, \
name: 291 }, bytes: [] }
C302220200000000000301 => Comdat { wide: true, comdat: Comdat { continuation: false, iterated: true, local: false, \
in_code: false, selection: SameSize, allocation: FarData, alignment: Word, offset: 0, type_index: 0, \
name: 3 }, bytes: [1] }
C2040303000000030A => Comdat { wide: false, comdat: Comdat { continuation: false, iterated: false, local: true, \
in_code: false, selection: NoMatch, allocation: Code32, alignment: Paragraph, offset: 0, type_index: 0, \
name: 3 }, bytes: [10] }
C208140400000003 => Comdat { wide: false, comdat: Comdat { continuation: false, iterated: false, local: false, \
in_code: true, selection: PickAny, allocation: Data32, alignment: Page, offset: 0, type_index: 0, name: 3 }, bytes: [] }
C210140400000003 => Body { at: 0 }
C208440400000003 => Body { at: 1 }
C208150400000003 => Body { at: 1 }
C208140600000003 => Body { at: 2 }
C308140500000003 => Body { at: 7 }
C2 => Body { at: 0 }";
    hold(&rt, rt.alloc(), rows);
}

/// Lines of a COMDAT have offsets of two bytes in C4H and of four in C5H.
#[test]
fn lines(rt: HostRuntime) {
    let rows = "\
C4000501000000020005 => Body { at: 9 }
C4000501000000020005000A => Body { at: 11 }
C40005010000000200050A0B0C => Body { at: 12 }
C400050100000002000A05 => Linsym { wide: false, continuation: false, name: 5, lines: [\
SymbolLine { number: 1, offset: 0 }, SymbolLine { number: 2, offset: 1290 }] }
C5018105070078563412 => Linsym { wide: true, continuation: true, name: 261, lines: [\
SymbolLine { number: 7, offset: 305419896 }] }
C40105 => Linsym { wide: false, continuation: true, name: 5, lines: [] }
C40205 => Body { at: 0 }
C501810507007856 => Body { at: 7 }";
    hold(&rt, rt.alloc(), rows);
}

/// What is added to places: of a segment, or of a COMDAT.
#[test]
fn patches(rt: HostRuntime) {
    let rows = "\
B2010134120200 => Bakpat { wide: false, segment: 1, location: Word, patches: [Patch { offset: 4660, value: 2 }] }
B301023412000078563412 => Bakpat { wide: true, segment: 1, location: DoubleWord, patches: [\
Patch { offset: 4660, value: 305419896 }] }
B20100 => Bakpat { wide: false, segment: 1, location: Byte, patches: [] }
B2010334120200 => Body { at: 1 }
B3010134120200 => Body { at: 6 }
C800053412FFFF => Nbkpat { wide: false, location: Byte, name: 5, patches: [Patch { offset: 4660, value: 65535 }] }
C9010581230000000400 => Body { at: 9 }
C90105812300000004000000 => Body { at: 11 }
C9010581230000010000000000000002000000 => Nbkpat { wide: true, location: Word, name: 5, patches: [\
Patch { offset: 9089, value: 1 }, Patch { offset: 0, value: 2 }] }
C8050105 => Body { at: 0 }";
    hold(&rt, rt.alloc(), rows);
}

/// The content of a LIDATA of 32 bits is whole blocks, whose repeat counts have four bytes.
#[test]
fn repeated(rt: HostRuntime) {
    let rows = "\
A30140000000030000000000024041 => Lidata { segment: 1, offset: 64, content: [3, 0, 0, 0, 0, 0, 2, 64, 65] }
A30100000000020000000200030000000000024041020000000000025051 => Lidata { segment: 1, offset: 0, \
content: [2, 0, 0, 0, 2, 0, 3, 0, 0, 0, 0, 0, 2, 64, 65, 2, 0, 0, 0, 0, 0, 2, 80, 81] }
A30100000000 => Lidata { segment: 1, offset: 0, content: [] }
A301000000000300000000000240 => Body { at: 13 }
A3010000000002000000020003000000000002404102 => Body { at: 21 }
A30100000000030000000000024041000000 => Body { at: 17 }
A301000000 => Body { at: 4 }";
    hold(&rt, rt.alloc(), rows);
}

/// A version, and what a vendor says.
#[test]
fn versions(rt: HostRuntime) {
    let rows = "\
CC312E312E30 => Vernum { text: [49, 46, 49, 46, 48] }
CC => Vernum { text: [] }
CE3412AABB => Vendext { vendor: 4660, bytes: [170, 187] }
CE34 => Body { at: 1 }
8000 => OtherType
9000 => OtherType
BC0107 => OtherType
B10141 => OtherType";
    hold(&rt, rt.alloc(), rows);
}
