//! A record that is lent.

/// A record, lent where it lies.
#[derive_where(Clone, Copy; H)]
pub enum LentRecord<'a, H, W> {
    /// A head and bytes.
    Short(H, &'a [u8]),
    /// A value.
    Whole(&'a W),
}
