//! Numbers: how long a stack is asked to be, a paragraph, and an address.
ghost use Rattle.std.specs.Prelude.{◌≡◌, ◌≤◌, IfSome};
ghost use Rattle.doslink_words.specs.Sizes as spec;

/// The longest stack, in bytes: a segment's most bytes.
const LONGEST: u32 = 65_536;

/// The greatest number: the end of the memory that a real-mode address reaches.
const GREATEST: u32 = 1_048_576;

// The number that a numeral writes, none where a byte is no digit of the radix, or it is above the greatest.
fn numeral(radix: u32, digits: &[u8]) -> Option<u32>
    requires least { 2 ≤ radix }
    requires most { radix ≤ 36 }
    ensures number { result ≡ spec.numeral radix digits.now }
    ensures small { IfSome result (λ n. n ≤ 1_048_576) }
{
    if digits.is_empty() {
        return None;
    }
    let mut value = 0;
    'digits: for byte in digits {
        let digit = char::from(*byte).to_digit(radix)?;
        value = value * radix + digit;
        if value > GREATEST {
            return None;
        }
    }
    Some(value)
}

// The number that a text writes: hexadecimal behind `0x`, else decimal.
fn number(text: &[u8]) -> Option<u32>
    ensures number { result ≡ spec.number text.now }
    ensures small { IfSome result (λ n. n ≤ 1_048_576) }
{
    match text {
        [b'0', b'x' | b'X', digits @ ..] => numeral(16, digits),
        _ => numeral(10, text),
    }
}

/// The size that a text writes: a number of bytes, or of 1,024 bytes each where `k` stands behind it.
pub(crate) fn size(text: &[u8]) -> Option<u32>
    ensures { result ≡ spec.size text.now }
{
    match text {
        [kilobytes @ .., b'k' | b'K'] => Some(number(kilobytes)? * 1024),
        _ => number(text),
    }
}

/// How many bytes a text asks for: a decimal number, or a hexadecimal one behind `0x`, with `k` behind it 1,024 times
/// as many. None where it is no such number from 1 to 65,536.
pub(crate) fn stack_bytes(text: &str) -> Option<u32>
    ensures { result ≡ spec.stack_bytes text.now }
{
    let bytes = size(text.as_bytes())?;
    if 1 <= bytes && bytes <= LONGEST {
        Some(bytes)
    } else {
        None
    }
}

// The digits of a hexadecimal number, without `0x` in front.
fn hexadecimals(text: &[u8]) -> &[u8]
    ensures { result.now ≡ spec.hexadecimals text.now }
{
    match text {
        [b'0', b'x' | b'X', digits @ ..] => digits,
        _ => text,
    }
}

/// The paragraph that a text names: a hexadecimal number, also behind `0x`. None where it is no such number below
/// 65,536.
pub(crate) fn paragraph(text: &str) -> Option<u16>
    ensures { result ≡ spec.paragraph text.now }
{
    let value = numeral(16, hexadecimals(text.as_bytes()))?;
    if value < 65_536 {
        Some(value as u16)
    } else {
        None
    }
}
