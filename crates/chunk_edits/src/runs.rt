//! Which bytes of its chunk an edit of an array changes.
use crate::Patch;

/// The runs of bytes of its chunk that an edit of an array changes.
#[derive(Clone, Copy)]
pub struct ArrayRuns {
    /// How many bytes lay before the elements, and how many lie there now; None where these stay as they are.
    pub head: Option<(u32, u32)>,
    /// Where the elements that change begin now, how many bytes they had, and how many they have.
    pub at: u32,
    pub before: u32,
    pub after: u32,
}

/// What an edit of an array makes of its chunk, and where.
#[derive(Drop)]
pub struct ArrayPatch {
    pub patch: Patch,
    pub runs: ArrayRuns,
}
