//! The records of a file: extents, entries of a directory, and slots.
use geos_model::{Attributes, VmHandle};

/// How many bytes of a file make a page.
pub const PAGE: u32 = 512;

/// The version of the format in which files are written. Those of version 1 are read.
pub const VERSION: u8 = 2;

/// Bytes of a file: all of its pages but for the end of the last, which may lie past the file's end.
#[derive(Clone, Copy, Debug, PartialEq, Eq)]
pub struct Extent {
    /// The first page, in pages of 512 bytes from the file's start. Pages 0 and 1 are the slots'.
    pub page: u32,
    /// In bytes.
    pub length: u32,
}

/// What a directory says of one block.
#[derive(Clone, Copy, Debug, PartialEq, Eq)]
pub struct Entry {
    pub handle: VmHandle,
    pub attributes: Attributes,
    /// Where the image of its body lies.
    pub extent: Extent,
    /// The CRC-32C of the image, which directories of version 3 have.
    pub sum: Option<u32>,
}

/// CRC-32C sums, which slots of version 3 have behind their extents.
#[derive(Clone, Copy, Debug, PartialEq, Eq)]
pub struct SlotSums {
    /// That of the directory of the updated document.
    pub working: u32,
    /// That of the directory of the saved document.
    pub saved: u32,
    /// That of the slot's own bytes from the version on, up to this sum.
    pub own: u32,
}

/// One of the two records at a file's start, of which one counts. A slot's text has 32 bytes, and 44 in version 3.
#[derive(Clone, Copy, Debug, PartialEq, Eq)]
pub struct Slot {
    /// 1 is open; any other value is closed.
    pub gate: u8,
    /// That of the file's format: 1, 2 or 3.
    pub version: u8,
    /// Zero.
    pub reserved: u16,
    /// From 1 on, one more with each commit.
    pub sequence: u64,
    /// The directory of the updated document.
    pub working: Extent,
    /// The directory of the saved document.
    pub saved: Extent,
    /// None but in version 3.
    pub sums: Option<SlotSums>,
}
