//! Data of 32 bits: LEDATA.

/// What a LEDATA of 32 bits says: data of a segment from an offset on, which may have more than 16 bits.
#[derive(Clone, Copy, Debug, PartialEq, Eq)]
pub struct WideData<'a> {
    pub segment: u16,
    pub offset: u32,
    pub bytes: &'a [u8],
}
