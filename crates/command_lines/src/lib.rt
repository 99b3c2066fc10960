//! What the words of a command line ask for.
#![tactic(auto)]

mod asked;
mod geosvm;

pub use asked::{NoOptions, Options};
pub use geosvm::options;
