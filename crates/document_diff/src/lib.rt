//! What differs between the documents of two files, as lines of text.
#![tactic(auto)]

mod block;
mod bytes;
mod comparing;
mod difference;
mod diffing;
mod fault;
mod heaps;
mod lines;
mod reading;
mod version;

pub use diffing::diff;
pub use fault::{DiffFault, Side};
pub use version::Version;
