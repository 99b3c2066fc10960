//! Element arrays: elements under tokens, each with a count of references; the slots that they lie in serve names too.
#![tactic(auto)]

mod edits;
mod look_ups;
mod reading;
mod slot_edits;
mod slot_view;

pub use edits::{GREATEST_COUNT, add, add_ref, change, create_bytes, delete, remove_ref};
pub use look_ups::{count_of, data_of, token_of_used, used_count, used_of_token};
pub use reading::is_element_array;
pub use slot_view::{SlotView, Used, known_slots, slots_in, slots_within};
