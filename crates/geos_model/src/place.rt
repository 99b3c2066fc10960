//! Where a step changes a document.
use crate::{ChunkHandle, VmHandle};

/// A place of a document. Those of a step are told one after another: a later one is in the coordinates after the
/// earlier ones, and a run of what is to be looked at as a whole already says nothing more.
#[derive(Clone, Copy, Debug, PartialEq, Eq)]
pub enum Place {
    /// The whole document.
    All,
    /// Which block is the map block.
    MapBlock,
    /// The user ID or the type of a block.
    Attributes(VmHandle),
    /// A block that came or went, or that is another one now.
    Block(VmHandle),
    /// A chunk that came or went, or that is another one now.
    Chunk(VmHandle, ChunkHandle),
    /// A run of the bytes of a chunk or, where the chunk is 0, of a raw block: where it begins, how many bytes were
    /// there, and how many are there now.
    Run {
        block: VmHandle,
        chunk: ChunkHandle,
        at: u32,
        before: u32,
        after: u32,
    },
}
