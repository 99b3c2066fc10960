//! The limits: how many blocks, bytes and pages there can be.

/// How many blocks a document can have: their handles are 1 to this number.
pub const MOST_BLOCKS: u16 = 8_192;

/// So in a directory of version 1.
pub const MOST_BLOCKS_OF_VERSION_1: u16 = 2_048;

/// How many bytes a heap needs at most, and a raw body has.
pub const CAPACITY: usize = 65_520;

/// How many bytes the longest chunk has, alone in its heap.
pub const LONGEST_CHUNK: usize = 65_498;

/// How many bytes a name of a step has at most.
pub const LONGEST_NAME: usize = 64;

/// The first page of a file that can't be used, in pages of 512 bytes.
pub const PAGE_LIMIT: u32 = 33_554_432;

/// So in a file of version 1.
pub const PAGE_LIMIT_OF_VERSION_1: u32 = 4_194_304;
