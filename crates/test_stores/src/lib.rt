//! Stores for tests: one in memory, of which what a crash leaves can be made, and others that fail, are interrupted or
//! move few bytes a call.
#![tactic(auto)]

mod fuse;
mod law;
mod memory;
mod pieces;

pub use fuse::FuseStore;
pub use law::crash_law;
pub use memory::MemStore;
pub use pieces::{Pace, PiecewiseFile, PiecewiseHandle, PiecewiseSystem};
