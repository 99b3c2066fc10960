//! What a document is and what its commands mean: the types and definitions that every other crate speaks of.
#![tactic(auto)]

mod block;
mod bytes;
mod command;
mod element_count;
mod fault;
mod handle;
mod law;
mod limit;
mod look_up;
mod place;
mod reply;
mod target;

pub use block::Attributes;
pub use bytes::{Bytes, Chunks};
pub use command::{Body, Command, Done, Edit, Info, Kind};
pub use element_count::ElementCount;
pub use fault::Fault;
pub use handle::{ChunkHandle, Token, VmHandle};
pub use law::{
    array_edits_law, array_law, chain_edits_law, chain_law, chunk_edits_law, chunk_law, depth_law,
    element_array_law, element_edits_law, failing_law, image_law, name_array_law, name_edits_law,
    names_law, number_law, redo_law, save_law, standing_law, steps_law, touched_law, undo_law,
    validity_law, word_law,
};
pub use limit::{
    CAPACITY, LONGEST_CHUNK, LONGEST_NAME, MOST_BLOCKS, MOST_BLOCKS_OF_VERSION_1, PAGE_LIMIT,
    PAGE_LIMIT_OF_VERSION_1,
};
pub use look_up::{
    ArrayLookUp, BlockLookUp, ChainLookUp, ChunkArrayLookUp, ChunkLookUp, ElementArrayLookUp,
    LookUp, NameArrayLookUp, PlacesLookUp, PlainLookUp, StepNameLookUp,
};
pub use place::Place;
pub use reply::Reply;
pub use target::{
    ArrayEdit, BlockEdit, ByteEdit, ChainEdit, ChunkArrayEdit, ChunkEdit, EditTarget,
    ElementArrayEdit, LargeEdit, NameArrayEdit, NewBlock, NewChunk, RawEdit, Setting, Target,
};
