//! Numbers and texts in the fields of an archive's header.

ghost use Rattle.std.specs.Prelude.{◌≡◌, ◌≤◌, length};
ghost use Rattle.omf_library.specs.Archive.{decimal, without_spaces};

/// The number that decimal digits spell, at most 16 of them. None where there is no digit, or another byte.
pub(crate) fn decimal(digits: &[u8]) -> Option<usize>
    requires { length digits.now ≤ 16 }
    ensures { result ≡ decimal digits.now }
{
    if digits.is_empty() {
        return None;
    }
    let mut number = 0;
    for digit in digits {
        if !digit.is_ascii_digit() {
            return None;
        }
        number = 10 * number + usize::from(*digit - b'0');
    }
    Some(number)
}

/// The bytes without the spaces at their end.
pub(crate) fn without_spaces(bytes: &[u8]) -> &[u8]
    ensures value { result.now ≡ without_spaces bytes.now }
    ensures shorter { length result.now ≤ length bytes.now }
{
    let mut len = bytes.len();
    while len > 0 {
        if bytes[len - 1] != b' ' {
            return &bytes[..len];
        }
        len -= 1;
    }
    &bytes[..len]
}
