//! What can differ between two documents.
use geos_model::{ChunkHandle, VmHandle};

/// The kind of a block, and how much it has.
#[derive(Clone, Copy)]
pub enum BodySize {
    /// So many bytes.
    Raw(usize),
    /// So many chunks.
    Heap(usize),
}

/// Bytes that changed.
#[derive(Clone, Copy)]
pub struct BytesChange {
    /// How many there were.
    pub old: usize,
    /// How many there are.
    pub new: usize,
    /// The first that differs; where one is the front of the other, how many that has.
    pub at: usize,
}

/// What differs. Where there are two of a kind, the old one is the first.
#[derive(Clone, Copy)]
pub enum Difference {
    /// The map block, 0 for none.
    MapBlock(VmHandle, VmHandle),
    BlockWent(VmHandle, BodySize),
    BlockCame(VmHandle, BodySize),
    UserId(VmHandle, u16, u16),
    HeapType(VmHandle, u16, u16),
    RawChanged(VmHandle, BytesChange),
    /// With its size, as the next one.
    ChunkWent(VmHandle, ChunkHandle, usize),
    ChunkCame(VmHandle, ChunkHandle, usize),
    ChunkChanged(VmHandle, ChunkHandle, BytesChange),
}
