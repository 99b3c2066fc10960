//! What can be read of a document file that doesn't open, as a script of commands.
#![tactic(auto)]

mod entries;
mod flaw;
mod law;
mod place;
mod places;
mod rows;
mod salvaging;

pub use law::salvage_law;
pub use rows::longest_row;
pub use salvaging::salvage;
