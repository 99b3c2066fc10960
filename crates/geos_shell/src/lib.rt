//! Script bytes in, reply bytes out; and the program that a command line asks for.
#![tactic(auto)]

mod answering;
mod outcome;
mod program;
mod runner;
mod streams;

pub use outcome::Outcome;
pub use program::{run_program, serve};
pub use runner::{Ended, RunFault, ScriptOptions, run, run_in, run_in_manner};
pub use streams::{ReadFault, Sink, Source, WriteFault};
