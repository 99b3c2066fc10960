//! A heap of chunks in 65,520 bytes, seen as finite maps from chunk handles to bytes and to where they lie.
#![tactic(auto)]

mod compaction;
mod entries;
mod found;
mod heap;
mod image;
mod known;
mod marks;
mod merging;
mod pieces;
mod resizing;
mod sizes;
mod space;
mod table;
mod windows;
mod words;

pub use found::FoundChunk;
pub use heap::Heap;
pub use known::{ArrayKind, KnownBytes};
