//! What a fix-up adds to its data.

/// A byte or a word that is added at a place of the data. A relocated word is a relocatable frame.
#[derive(Clone, Copy)]
pub enum Patch {
    Byte(usize, u8),
    Word(usize, u16),
    Relocated(usize, u16),
}
