//! Chains and trees of raw blocks: walked, measured and compared, and planned to be copied or freed.
// A call may bring blocks into memory, and changes nothing else. What follows a chain may need any frame, so that not
// each may have a locked block; the roots can be tested before that.
#![tactic(auto)]

mod comparing;
mod links;
mod measuring;
mod met;
mod pending;
mod planning;
mod reading;
mod renaming;
mod stepping;
mod walking;

pub use comparing::{equal, test_roots};
pub use measuring::size;
pub use planning::{copy_plan, free_handles, free_plan};
pub use walking::{test_root, walk};
