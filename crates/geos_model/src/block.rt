//! What a block has beside its body.

/// What a block has beside its body.
#[derive(Clone, Copy, Debug, PartialEq, Eq)]
pub struct Attributes {
    /// The number that its user gave it.
    pub user_id: u16,
    /// The kind of heap that its user says it is; 0 for a raw block.
    pub heap_type: u16,
}
