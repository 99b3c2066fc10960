//! The names of blocks, chunks and elements.

/// The name of a block, 1 to 8,192; 0 names none.
#[derive(Clone, Copy, Debug, PartialEq, Eq)]
pub struct VmHandle(pub u16);

/// The name of a chunk in its heap: 16 for the first, then every second number up to 0xFFEE.
#[derive(Clone, Copy, Debug, PartialEq, Eq)]
pub struct ChunkHandle(pub u16);

/// The name of an element in its element or name array.
#[derive(Clone, Copy, Debug, PartialEq, Eq)]
pub struct Token(pub u16);
