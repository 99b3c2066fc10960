//! A change of a document, with all that carrying it out takes in either direction.
ghost use Rattle.std.specs.Prelude.{◌≡◌};
ghost use Rattle.vm_blocks.specs.Changes.{weight, part_weight, content_weight};

use crate::Members;
use chunk_edits::{ArrayRuns, Patch, RawPatch, Splice};
use geos_model::{Attributes, Bytes, ChunkHandle, VmHandle};

/// One edit of a document, with all that carrying it out takes in either direction.
#[derive(Drop)]
pub enum Change {
    /// Blocks come in under handles that are free.
    BlocksIn(Members),
    /// Blocks go, none of them the map block.
    BlocksOut(Members),
    /// The body of a block changes.
    Part(VmHandle, PartChange),
    /// A block gets other attributes.
    Attributes {
        handle: VmHandle,
        old: Attributes,
        new: Attributes,
    },
    /// Another block becomes the map block; 0 stands for none.
    Map {
        old: VmHandle,
        new: VmHandle,
    },
}

/// A change of a part of a block's body.
#[derive(Drop)]
pub enum PartChange {
    /// A part of a raw body is replaced.
    Raw(Splice),
    /// Pieces of a raw body change, and the others stay.
    RawPatch(RawPatch),
    /// A part of a chunk is replaced.
    Chunk(ChunkHandle, Splice),
    /// Pieces of a chunk change, and the others stay; and where the edit that made them changed the chunk.
    Patch(ChunkHandle, Patch, ArrayRuns),
    /// A chunk comes in under a free handle.
    ChunkIn(ChunkHandle, Content),
    /// A chunk goes.
    ChunkOut(ChunkHandle, Content),
}

/// What is in a chunk that comes in or goes.
#[derive(Drop)]
pub enum Content {
    /// These bytes.
    Bytes(Bytes),
    /// So many zeros.
    Zeros(u32),
}

impl Change {
    /// How many content bytes it holds.
    pub fn weight(&self) -> u64
        ensures { result ≡ weight self.now }
    {
        match self {
            Change::BlocksIn(members) | Change::BlocksOut(members) => members.weight(),
            Change::Part(_, part) => part.weight(),
            Change::Attributes { .. } | Change::Map { .. } => 0,
        }
    }
}

impl PartChange {
    /// How many content bytes it holds.
    fn weight(&self) -> u64
        ensures { result ≡ part_weight self.now }
    {
        match self {
            PartChange::Raw(splice) | PartChange::Chunk(_, splice) => splice.byte_count() as u64,
            PartChange::RawPatch(patch) => patch.as_patch().byte_count(),
            PartChange::Patch(_, patch, _) => patch.byte_count(),
            PartChange::ChunkIn(_, content) | PartChange::ChunkOut(_, content) => content.weight(),
        }
    }
}

impl Content {
    /// How many bytes it holds; zeros are only counted, not held.
    fn weight(&self) -> u64
        ensures { result ≡ content_weight self.now }
    {
        match self {
            Content::Bytes(bytes) => bytes.as_slice().len() as u64,
            Content::Zeros(_) => 0,
        }
    }
}
