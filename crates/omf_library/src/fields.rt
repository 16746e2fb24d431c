//! Fields at the front of a record's body (TIS OMF 1.1, "Frequent Object Record Subfields").

ghost use Rattle.std.specs.Prelude.{◌≡◌, ◌<◌, ◌≤◌, length, IfSome};
ghost use Rattle.omf_library.specs.Fields.{bytes_front, name_front, index_front};
ghost use Rattle.omf_library.specs.Said.{name_said, number_said};

use omf_frame::{read_index, read_name};

/// So many bytes at the front of the bytes. None where there are fewer.
pub fn take_bytes(bytes: &[u8], count: usize) -> Option<(&[u8], &[u8])>
    ensures said { name_said result ≡ bytes_front count bytes.now }
    ensures no_longer { IfSome result (λ x. length x.1.now ≤ length bytes.now) }
{
    if bytes.len() < count {
        return None;
    }
    Some((&bytes[..count], &bytes[count..]))
}

/// The name at the front of the bytes. None where the bytes end inside it.
pub fn take_name(bytes: &[u8]) -> Option<(&[u8], &[u8])>
    ensures name { name_said result ≡ name_front bytes.now }
    ensures shorter { IfSome result (λ x. length x.1.now < length bytes.now) }
{
    let (name, len) = read_name(bytes)?;
    Some((name, &bytes[len..]))
}

/// The index at the front of the bytes. None where the bytes end inside it.
pub fn take_index(bytes: &[u8]) -> Option<(u16, &[u8])>
    ensures index { number_said result ≡ index_front bytes.now }
    ensures shorter { IfSome result (λ x. length x.1.now < length bytes.now) }
{
    let (index, len) = read_index(bytes)?;
    Some((index, &bytes[len..]))
}
