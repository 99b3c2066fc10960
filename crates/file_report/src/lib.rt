//! What a document file holds: whether it opens and what is wrong with it where it doesn't.
#![tactic(auto)]

mod checking;
mod directory;
mod document;
mod entry;
mod finding;
mod free;
mod heaps;
mod pages;

pub use checking::{Report, SlotReport, SlotState, check};
pub use directory::{directory_extent, directory_sum};
pub use document::read_image;
pub use entry::{directory_version, entry_text_at, has_entry_zeros, map_block_of};
pub use finding::{EntryFault, Finding, HeaderFault, Named};
pub use free::{FreePages, free_pages};
pub use heaps::read_heap;
pub use pages::{Content, Usage, overlaps, slot_usages, usages};
