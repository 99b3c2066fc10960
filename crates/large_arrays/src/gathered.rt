//! What an edit takes from the branches that it looks at.
use crate::handles::OldBranch;
use large_bodies::Pieces;

/// Branches in the place of which others come.
#[derive(Drop)]
pub(crate) struct Gathered {
    /// The first of them.
    pub(crate) first: usize,
    /// Their blocks, with what stays in each.
    pub(crate) olds: Vec<OldBranch>,
    /// The bodies of these.
    pub(crate) bodies: Vec<Vec<u8>>,
    /// What comes in their place.
    pub(crate) pieces: Pieces,
    /// Whether the block of a single one has the first of several pieces rather than the last one.
    pub(crate) head: bool,
}
