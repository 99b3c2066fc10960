//! Space in a document file: which pages are free, and which free extent bytes get.
#![tactic(auto)]

mod free_space;
mod full_stretch;
mod limit;

pub use free_space::FreeSpace;
pub use limit::{MOST_EXTENTS, MOST_LONG};
