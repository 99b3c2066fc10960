//! A session: a document of a file that is edited, and exact undo.
#![tactic(auto)]

mod entry;
mod growing;
mod head;
mod joining;
mod kept_steps;
mod log;
mod making;
mod marks;
mod session;
mod step;
mod touched;
mod turning;
mod weighing;

pub use session::Session;
