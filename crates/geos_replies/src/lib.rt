//! Lines that are carried out by a session, with their replies.
#![tactic(auto)]

mod replies;

pub use replies::answer_line;
