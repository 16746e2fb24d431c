//! Values by names.

/// A name with its value.
#[derive(Clone, Copy, Debug)]
pub struct NamedValue<'a, V> {
    /// The name.
    pub name: &'a [u8],
    /// Its value.
    pub value: V,
}
