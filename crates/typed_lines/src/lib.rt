//! Lines that are typed at a prompt: which of them go to the machine, and what is told of the others.
#![tactic(auto)]

mod operand;
mod reason;
mod texts;
mod topics;
mod typed;
mod words;

pub use typed::{Typed, read_typed};
