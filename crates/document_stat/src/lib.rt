//! What a document file has, counted: its pages, and the blocks, chunks and arrays of its documents.
#![tactic(auto)]

mod arrays;
mod blocks;
mod chunks;
mod counting;
mod documents;
mod file_stat;
mod pages;
mod tally;

pub use arrays::read_array;
pub use blocks::BlockStat;
pub use chunks::{ArrayStat, ChunkStat};
pub use counting::{CountingSlot, read_counting_slot};
pub use documents::count_blocks;
pub use file_stat::{DocumentStat, FileStat, stat};
pub use pages::count_pages;
pub use tally::{Item, Subject, Tally};
