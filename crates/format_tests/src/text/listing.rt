use omf_frame::MemSink;
use omf_text::put_head_line;
use std::process::Abort;

/// The head line of a record of this type, with so many bytes at this place.
fn has_head_line<R: Abort>(rt: &R, place: u64, kind: u8, length: usize, line: &str) {
    let mut room = [0u8; 40];
    let mut sink = MemSink::over(&mut room, 40);
    put_head_line(&mut sink, place, kind, length).expect(rt, "room");
    assert_eq!(rt; sink.written(), line.as_bytes());
}

#[test]
fn head_lines_have_columns(rt: HostRuntime) {
    has_head_line(&rt, 0, 0x80, 2, "00000000 80 THEADR      2\n");
    has_head_line(&rt, 6, 0x96, 6, "00000006 96 LNAMES      6\n");
    has_head_line(&rt, 0x1A, 0xA2, 17, "0000001A A2 LIDATA     17\n");
    has_head_line(&rt, 0x2F, 0x8A, 6, "0000002F 8A MODEND      6\n");
    has_head_line(&rt, 0x1A, 0xB4, 3, "0000001A B4 LEXTDEF     3\n");
    has_head_line(&rt, 0x21, 0xB6, 7, "00000021 B6 LPUBDEF     7\n");
    has_head_line(
        &rt,
        4_294_901_759,
        0x88,
        65_534,
        "FFFEFFFF 88 COMENT  65534\n",
    );
}
