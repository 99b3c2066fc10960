//! The bodies of a large array's blocks as bytes alone: roots and branches read, pieces put together, and what differs
//! between two bodies.
#![tactic(auto)]

mod branch;
mod counts;
mod cut_body;
mod differences;
mod neighbours;
mod new_elements;
mod packing;
mod patches;
mod piece;
mod root;

pub use branch::read_branch;
pub use counts::{Counts, counts_patch};
pub use cut_body::CutBody;
pub use neighbours::{MiddleEnds, Sides, joined_sides, looked_at_sides};
pub use new_elements::NewElements;
pub use packing::Pieces;
pub use patches::body_patch;
pub use piece::{BRANCH_ROOM, JOIN_ROOM, Piece};
pub use root::{MARK, RootView, TREE_MARK, known_root, read_root};
