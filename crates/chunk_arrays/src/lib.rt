//! Chunk arrays: a row of elements of one size, or of any, in a chunk's bytes; an edit of one is built as a patch.
#![tactic(auto)]

mod difference;
mod draft;
mod edits;
mod empty;
mod even;
mod rewriting;
mod runs;
mod view;

pub use edits::{GREATEST_SIZE, create_bytes, delete, insert, is_missized, resize, set, zero};
pub use empty::empty_bytes;
pub use rewriting::{NewElement, rewrite};
pub use view::{View, check, has_one_size, is_array};
