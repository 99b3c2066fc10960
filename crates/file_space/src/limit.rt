//! How many extents may be taken, and how long.
use geos_model::MOST_BLOCKS;

/// How many pages an extent takes at most: as many as the longest directory.
pub const MOST_PAGES: u32 = 321;

/// How many of the extents that are taken may be long, of more than 128 pages: four directories, and one that is to be
/// written beside another. The image of a block takes no more.
pub const MOST_LONG: usize = 5;

/// How many extents may be taken: those of the blocks of seven documents, and four directories. Whichever they are, the
/// first fit lies below `PAGE_LIMIT` where no more than `MOST_LONG` of them are long.
pub const MOST_EXTENTS: usize = 7 * MOST_BLOCKS as usize + 4;
