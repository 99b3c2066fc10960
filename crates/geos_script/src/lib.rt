//! The language of scripts: lines as commands, and commands and replies as text.
#![tactic(auto)]

mod commands;
mod hex_digits;
mod line;
mod name;
mod operands;
mod parser;
mod replies;
mod shapes;
mod spare;
mod text;
mod word;

pub use commands::{command_list, push_command, push_edit};
pub use parser::{parse, read_command};
pub use replies::push_reply;
pub use spare::Spare;
pub use word::{Word, push_words};
