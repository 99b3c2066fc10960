//! Files of cases, read: each is steps, of which most are lines of a script with the replies that they must get.
#![tactic(auto)]

mod case_file;
mod numbers;
mod said;
mod shorthand;
mod step;
mod streaming;

pub use case_file::{Case, CaseFault, read_cases};
pub use said::Said;
pub use step::{Action, Failing, Look, Side, Step};
pub use streaming::{Beginning, Stop, Streaming};
