//! Plays cases on sessions of any kind, and tells the first line that differs.
#![tactic(auto)]

mod anywhere;
mod bench;
mod files;
mod mismatch;
mod playing;
mod streams;
mod subject;

pub use files::ProgramFiles;
pub use mismatch::Mismatch;
pub use playing::play_case;
pub use streams::{Feeding, Taking};
pub use subject::{File, RunOptions, Sides, Subject};
