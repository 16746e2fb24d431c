//! Where repeated data of 32 bits stands.

ghost use Rattle.std.specs.Prelude.{◌≡◌, ◌+◌, ◌<◌, ◌≤◌, ◌^◌};

/// Where repeated data of 32 bits stands: as it is given, and in the LIDATA of 16 bits that says the same, where it has
/// fewer bytes before it.
#[derive(Clone, Copy, Debug)]
pub(crate) struct Places {
    pub(crate) given: usize,
    pub(crate) said: usize,
    pub(crate) ghost ordered: { said ≤ given },
}

/// The places behind so many bytes that are given, and so many that are said.
pub(crate) fn behind(places: Places, given: usize, said: usize) -> Places
    requires fewer { said ≤ given }
    requires short { places.given + given < 2 ^ 64 }
    ensures given { result.given ≡ places.given + given }
    ensures said { result.said ≡ places.said + said }
{
    Places {
        given: places.given + given,
        said: places.said + said,
    }
}
