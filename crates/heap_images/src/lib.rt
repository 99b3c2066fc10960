//! Which bytes are the image of a heap that fits, and what stands where in one.
#![tactic(auto)]

mod reading;
mod sizes;

pub use reading::{HEAP_KIND, NO_SIZE, PREFIX, heap_slots, is_image, slot_size};
pub use sizes::{need_of, space_of};
