ghost use Rattle.std.specs.Prelude.{◌≤◌};

use omf_frame::MemSink;
use omf_text::{Hexadecimal, put_name};
use std::process::Abort;

fn is_printed<R: Abort>(rt: &R, name: &[u8], printed: &str) {
    let mut room = [0u8; 40];
    let mut sink = MemSink::over(&mut room, 3);
    put_name(&mut sink, name).expect(rt, "room");
    assert_eq!(rt; sink.written(), printed.as_bytes());
}

#[test]
fn names_stand_between_quotes(rt: HostRuntime) {
    is_printed(&rt, b"", "\"\"");
    is_printed(&rt, b"_DATA", "\"_DATA\"");
    is_printed(&rt, b" ~\x1F\x7F", "\" ~\\x1F\\x7F\"");
    is_printed(&rt, b"a\"b\\", "\"a\\x22b\\x5C\"");
    is_printed(&rt, b"\x00\xFF\xA9", "\"\\x00\\xFF\\xA9\"");
}

fn has_digits<R: Abort>(rt: &R, number: u64, width: usize, digits: &str)
    requires { width ≤ 16 }
{
    assert_eq!(rt;
        Hexadecimal::new(number, width).as_bytes(),
        digits.as_bytes()
    );
}

#[test]
fn numbers_have_at_least_so_many_digits(rt: HostRuntime) {
    has_digits(&rt, 0, 2, "00");
    has_digits(&rt, 0x8A, 2, "8A");
    has_digits(&rt, 0x1FF, 2, "1FF");
    has_digits(&rt, 0x1A, 8, "0000001A");
    has_digits(&rt, u64::MAX, 4, "FFFFFFFFFFFFFFFF");
    has_digits(&rt, 0xABC, 16, "0000000000000ABC");
}
