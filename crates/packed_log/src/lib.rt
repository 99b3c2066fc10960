//! Records in a row with a cursor, as what can be undone and what can be redone: short ones take their bytes alone.
#![tactic(auto)]

mod growing;
mod log;
mod mark;
mod record;
mod row;

pub use log::PackedLog;
pub use record::LentRecord;
