//! 65,520 bytes of raw memory, seen as a list of bytes. All pointers of the project are in the module `raw`.
#![tactic(auto)]

mod body;
mod moving;
mod raw;
mod region;

pub use body::RawBody;
use geos_model::CAPACITY;
pub use region::Region;

/// How many bytes a region has.
pub const SIZE: usize = CAPACITY;
