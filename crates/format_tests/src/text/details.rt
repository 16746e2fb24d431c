use omf_frame::{Frame, MemSink};
use omf_record::{Record, parse_record};
use omf_text::put_details;
use std::alloc::Global;
use std::process::Abort;

/// The record is written in these lines.
fn has_lines<R: Abort>(rt: &R, record: &Record<'_>, lines: &str) {
    let mut room = [0u8; 400];
    let mut sink = MemSink::over(&mut room, 7);
    put_details(&mut sink, record).expect(rt, "room");
    assert_eq!(rt; sink.written(), lines.as_bytes());
}

/// The record of these hexadecimal digits, its type and its body, is written in these lines.
fn is_listed<R: Abort>(rt: &R, alloc: Global, digits: &str, lines: &str) {
    let bytes = hex::decode(alloc, digits).expect(rt, "digits");
    let (kind, body) = bytes.split_first().expect(rt, "a type");
    let frame = Frame::new(0, *kind, &body[..body.len().min(60)]);
    has_lines(
        rt,
        &parse_record(alloc, &frame).expect(rt, "a record"),
        lines,
    );
}

/// Each record of a table is written in the lines below it.
fn are_listed<R: Abort>(rt: &R, alloc: Global, table: &str) {
    for row in table.split("record ").skip(1) {
        let (digits, lines) = row.split_once('\n').unwrap_or((row, "no line"));
        is_listed(rt, alloc, digits, lines);
    }
}

#[test]
fn lines_of_names_and_comments(rt: HostRuntime) {
    let rows = r#"record 8000
  name ""
record 800961225C207E001F7FE9
  name "a\x22\x5C ~\x00\x1F\x7F\xE9"
record 8880A1
  comment 80 A1 -
record 88009E000FFF22
  comment 00 9E 000FFF22
record 96
record 9600025C5C0180
  name ""
  name "\x5C\x5C"
  name "\x80"
"#;
    are_listed(&rt, rt.alloc(), rows);
}

#[test]
fn lines_of_definitions(rt: HostRuntime) {
    let rows = r#"record 982A0000020101
  align 1 combine 2 length 65536 name 2 class 1 overlay 1
record 9848050081000203
  align 2 combine 2 length 5 name 256 class 2 overlay 3
record 980000B80F0040010203
  align 0 combine 0 length 16384 name 1 class 2 overlay 3 frame B800 offset 0F
record 98BCFFFF010100
  align 5 combine 7 length 65535 name 1 class 1 overlay 0
record 9A02
  group 2
record 9A83E8FF01FF8080
  group 1000
  segment 1
  segment 128
record 8C
record 8C01780002227983E8
  external "x" type 0
  external "\x22y" type 1000
record 900000400001786C040000FFFFFFFF
  base group 0 segment 0 frame 0040
  public "x" offset 046C type 0
  public "" offset FFFF type 32767
record 90020301780AB001
  base group 2 segment 3
  public "x" offset B00A type 1
record B40178000007
  local external "x" type 0
  local external "" type 7
record B6020301780AB001
  base group 2 segment 3
  local public "x" offset B00A type 1
record 9400010A000000FFFFEFBE
  base group 0 segment 1
  line 10 offset 0000
  line 65535 offset BEEF
record 940102
  base group 1 segment 2
"#;
    are_listed(&rt, rt.alloc(), rows);
}

#[test]
fn lines_of_data(rt: HostRuntime) {
    let rows = r#"record A0010201
  data segment 1 offset 0102 bytes 0
record A08100FFFFAABBCC
  data segment 256 offset FFFF bytes 3
record A20100000200010003000000024142
  data segment 1 offset 0000 blocks 1 expanded 12
record A2010000FFFF0100FFFF0100FFFF00000141
  data segment 1 offset 0000 blocks 1 expanded >65536
record A202341200800000024142
  data segment 2 offset 1234 blocks 1 expanded 65536
record A202341200800000024142010000000143
  data segment 2 offset 1234 blocks 2 expanded >65536
record A2010000
  data segment 1 offset 0000 blocks 0 expanded 0
"#;
    are_listed(&rt, rt.alloc(), rows);
}

#[test]
fn lines_of_references(rt: HostRuntime) {
    let rows = r#"record 9CC4005601C4015602
  fixup at 000 segment location 1 frame method 5 target method 2 index 1
  fixup at 001 segment location 1 frame method 5 target method 2 index 2
record 9C400145024A035357000405050A06
  thread frame 0 method 0 index 1
  thread frame 1 method 1 index 2
  thread frame 2 method 2 index 3
  thread frame 3 method 4
  thread frame 3 method 5
  thread target 0 method 0 index 4
  thread target 1 method 1 index 5
  thread target 2 method 2 index 6
record 9C83FF9D8800260708CF108A341294014081000100
  fixup at 3FF self location 0 frame thread 1 target thread 1
  fixup at 000 self location 2 frame method 2 index 7 target method 2 index 8
  fixup at 310 segment location 3 frame thread 0 target thread 2 displacement 1234
  fixup at 001 self location 5 frame method 4 target method 0 index 256 displacement 0001
record 8A00
  main 0 start 0
record 8A80
  main 1 start 0
record 8A410001013412
  main 0 start 1 frame method 0 index 1 target method 0 index 1 displacement 1234
record 8AC19D
  main 1 start 1 frame thread 1 target thread 1
record 8AC15607
  main 1 start 1 frame method 5 target method 2 index 7
"#;
    are_listed(&rt, rt.alloc(), rows);
}
