//! Fields at the front of an entry of COMDEF (TIS OMF 1.1, "Frequent Object Record Subfields" and "COMDEF").

ghost use Rattle.std.specs.Prelude.{◌≡◌, ◌<◌, ◌≤◌, length, IfSome};
ghost use Rattle.omf_library.specs.Fields.{name_front};
ghost use Rattle.omf_library.specs.Said.{name_said, number_said};
ghost use Rattle.omf_communal.specs.Fields.{number_front, two_front, three_front, four_front};

use omf_frame::read_name;

/// The name at the front of the bytes. None where the bytes end inside it.
pub(crate) fn take_name(bytes: &[u8]) -> Option<(&[u8], &[u8])>
    ensures name { name_said result ≡ name_front bytes.now }
    ensures short { IfSome result (λ x. length x.0.now ≤ 255) }
    ensures shorter { IfSome result (λ x. length x.1.now < length bytes.now) }
{
    let (name, len) = read_name(bytes)?;
    Some((name, &bytes[len..]))
}

/// The number of two bytes, the low one first.
fn take_two(bytes: &[u8]) -> Option<(u32, &[u8])>
    ensures number { number_said result ≡ two_front bytes.now }
    ensures small { IfSome result (λ x. x.0 ≤ 65535) }
    ensures no_longer { IfSome result (λ x. length x.1.now ≤ length bytes.now) }
{
    let [first, second, rest @ ..] = bytes else {
        return None;
    };
    Some((u32::from(*first) + 256 * u32::from(*second), rest))
}

/// The number of three bytes, the low one first.
fn take_three(bytes: &[u8]) -> Option<(u32, &[u8])>
    ensures number { number_said result ≡ three_front bytes.now }
    ensures no_longer { IfSome result (λ x. length x.1.now ≤ length bytes.now) }
{
    let [first, rest @ ..] = bytes else {
        return None;
    };
    let (high, rest) = take_two(rest)?;
    Some((u32::from(*first) + 256 * high, rest))
}

/// The number of four bytes, the low one first.
fn take_four(bytes: &[u8]) -> Option<(u32, &[u8])>
    ensures number { number_said result ≡ four_front bytes.now }
    ensures no_longer { IfSome result (λ x. length x.1.now ≤ length bytes.now) }
{
    let (low, rest) = take_two(bytes)?;
    let (high, rest) = take_two(rest)?;
    Some((low + 65536 * high, rest))
}

/// The number at the front of the bytes: its first byte up to 80H, or behind 81H two bytes, behind 84H three, behind
/// 88H four. None where the bytes end inside it, or begin with another byte.
#[tactic(auto, unfolding(crate::specs::Fields::number_front))]
pub(crate) fn take_number(bytes: &[u8]) -> Option<(u32, &[u8])>
    ensures number { number_said result ≡ number_front bytes.now }
    ensures no_longer { IfSome result (λ x. length x.1.now ≤ length bytes.now) }
{
    let [first, rest @ ..] = bytes else {
        return None;
    };
    if *first <= 0x80 {
        Some((u32::from(*first), rest))
    } else if *first == 0x81 {
        take_two(rest)
    } else if *first == 0x84 {
        take_three(rest)
    } else if *first == 0x88 {
        take_four(rest)
    } else {
        None
    }
}
