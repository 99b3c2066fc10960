//! Values in fixed slots, and the order of their use: none is reached by a hash.
#![tactic(auto)]

mod iter;
mod order;
mod places;
mod pool;
mod seated;

pub use iter::Iter;
pub use pool::BufferPool;
