//! Sessions on files that a program in C gave numbers: begun, moved and closed by calls of the program's files alone.
#![tactic(auto)]

mod codes;
mod files;
mod kept;

pub use codes::{
    BAD_ARGUMENT, CUT_OFF, NOT_OPEN, OPEN_ALREADY, UNTOLD, code_of, fault_name, hand_out,
};
pub use files::{FileNumber, ProgramFiles};
pub use kept::{Kept, close, create, open, save_as};
