//! The blocks of a document file: looked up, and changed in either direction, with so many of them in memory.
#![tactic(auto)]

mod body;
mod bringing_in;
mod byte_change;
mod change;
mod file_blocks;
mod frame;
mod in_memory;
mod law;
mod member;
mod part;
mod places;
mod recorder;
mod run;
mod saved;
mod transfers;

pub use body::BlockBody;
pub use byte_change::ByteChange;
pub use change::{Change, Content, PartChange};
pub use chunk_edits::Direction;
pub use document_file::{BlockImage, Member};
pub use file_blocks::FileBlocks;
pub use law::{by_handle_law, change_law};
pub use member::{MOST_BLOCKS, Members};
pub use recorder::Recorder;
pub use run::Run;
pub use saved::imaged_block;
