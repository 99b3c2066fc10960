//! Name arrays: names under tokens, each with a count of references and a part of one size, in a chunk array.
#![tactic(auto)]

mod edits;
mod look_ups;
mod names;

pub use edits::{add, change_name, create_bytes, remove_ref, set_part};
pub use look_ups::{count_of, data_of, find, name_of};
pub use names::is_name_array;
