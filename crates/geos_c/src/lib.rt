//! Sessions that a C program opens, edits through and closes, many of them at a time.
#![tactic(auto)]

mod calls;
mod channel;
mod copying;
mod exports;
mod handle;
mod lending;
mod line;
mod look_ups;
mod loose;
mod message;
mod places;
mod telling;
