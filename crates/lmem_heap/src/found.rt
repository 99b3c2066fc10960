//! A chunk that was found, so that it is read and changed with no further look-up.

use crate::space::Run;

/// A chunk that `Heap::find_chunk` found, and where its bytes lie. It serves until the heap changes.
#[derive(Clone, Copy, Debug)]
pub struct FoundChunk {
    pub(crate) slot: usize,
    pub(crate) run: Run,
}
