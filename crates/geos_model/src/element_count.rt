//! Numbers of elements of a large array.

/// How many elements of a large array: those that a command is for, or those that stand before the one that it begins
/// with.
#[derive(Clone, Copy, Debug, PartialEq, Eq)]
pub struct ElementCount(pub u32);
