//! A document file as a script of commands that makes the same documents again.
#![tactic(auto)]

mod arrays;
mod bodies;
mod changes;
mod dumping;
mod entries;
mod fault;
mod lines;
mod rows;
mod versions;

pub use dumping::{Which, dump, send};
pub use entries::dump_entries;
pub use fault::DumpFault;
