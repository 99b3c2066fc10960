//! A change of a run of bytes that lie with the caller.
ghost use Rattle.std.specs.Prelude.{◌≡◌, ◌≢◌, ◌<◌, ◌^◌, ◌++◌, [], ◌∷◌, is_some, length, IfErr, IfOk, IfSome, OnOk};
ghost use Rattle.vm_blocks.specs.ByteChanges.{byte_change, is_byte_change, part_in, replaces_bytes};
ghost use Rattle.vm_blocks.specs.ChangePlaces.{change_places, directed_places};
ghost use Rattle.vm_blocks.specs.Changes.{directed};
ghost use Rattle.vm_blocks.specs.declared.change.Change.TheVariants as changes;

use crate::{Change, Direction, PartChange};
use chunk_edits::Splice;
use geos_model::{ChunkHandle, Place, VmHandle};
use std::alloc::{AllocError, Global};

/// A change of a run of the bytes of a raw block or of a chunk: those that go, and those that come in their place, are
/// lent.
#[derive(Clone, Copy)]
pub struct ByteChange<'a> {
    pub block: VmHandle,
    /// None in a raw block.
    pub chunk: Option<ChunkHandle>,
    /// Where the bytes that go begin.
    pub at: u32,
    pub old: &'a [u8],
    pub new: &'a [u8],
}

impl Change {
    /// It as a change of a run of bytes, lent from it; None where it is no such change.
    pub fn as_bytes(&self) -> Option<ByteChange<'_>>
        ensures some { is_some result ≡ is_byte_change self.now }
        ensures value { IfSome result (λ c. byte_change c ≡ self.now) }
    {
        match self {
            Change::Part(block, part) => part.as_bytes(*block),
            Change::BlocksIn(_)
            | Change::BlocksOut(_)
            | Change::Attributes { .. }
            | Change::Map { .. } => None,
        }
    }
}

impl PartChange {
    /// So of a part of the body of a block.
    fn as_bytes(&self, block: VmHandle) -> Option<ByteChange<'_>>
        ensures some { is_some result ≡ replaces_bytes self.now }
        ensures value { IfSome result (λ c. byte_change c ≡ changes.Part block self.now) }
    {
        match self {
            PartChange::Raw(splice) => Some(of_splice(block, None, splice)),
            PartChange::Chunk(chunk, splice) => Some(of_splice(block, Some(*chunk), splice)),
            PartChange::RawPatch(_)
            | PartChange::Patch(_, _, _)
            | PartChange::ChunkIn(_, _)
            | PartChange::ChunkOut(_, _) => None,
        }
    }
}

/// The change that a splice makes in a raw block or a chunk.
fn of_splice(block: VmHandle, chunk: Option<ChunkHandle>, splice: &Splice) -> ByteChange<'_>
    ensures { byte_change result ≡ changes.Part block (part_in chunk splice.now) }
{
    ByteChange {
        block,
        chunk,
        at: splice.at(),
        old: splice.old(),
        new: splice.new(),
    }
}

impl<'a> ByteChange<'a> {
    /// The same change with bytes of its own. Memory: where these are more than a few.
    pub fn to_change(self, alloc: Global) -> Result<Change, AllocError>
        requires old { length self.old.now < 2 ^ 16 }
        requires new { length self.new.now < 2 ^ 32 }
        ensures { IfOk result (λ c. c ≡ byte_change self.entry) }
    {
        let splice = Splice::of(alloc, self.at, self.old, self.new)?;
        let part = match self.chunk {
            None => PartChange::Raw(splice),
            Some(chunk) => PartChange::Chunk(chunk, splice),
        };
        Ok(Change::Part(self.block, part))
    }

    /// The change that is made where it is carried out in a direction.
    pub(crate) fn towards(self, direction: Direction) -> ByteChange<'a>
        ensures { byte_change result ≡ directed direction (byte_change self.entry) }
    {
        match direction {
            Direction::Forwards => self,
            Direction::Backwards => ByteChange {
                old: self.new,
                new: self.old,
                ..self
            },
        }
    }

    /// The run that it changes, as it was made.
    pub fn place(self) -> Place
        requires old { length self.old.now < 2 ^ 32 }
        requires new { length self.new.now < 2 ^ 32 }
        ensures { change_places (byte_change self.entry) ≡ result ∷ [] }
    {
        Place::Run {
            block: self.block,
            chunk: self.chunk.unwrap_or(ChunkHandle(0)),
            at: self.at,
            before: self.old.len() as u32,
            after: self.new.len() as u32,
        }
    }

    /// Puts behind others the place that it changes where it is carried out in a direction. Nothing is known of them
    /// where there is no memory for it.
    pub fn append_places(
        self,
        direction: Direction,
        places: &mut Vec<Place>,
    ) -> Result<(), AllocError>
        requires old { length self.old.now < 2 ^ 32 }
        requires new { length self.new.now < 2 ^ 32 }
        ensures ok { OnOk result
            (places.new.items ≡ places.old.items ++ directed_places direction (byte_change self.entry)) }
        ensures err { IfErr result (λ _. directed_places direction (byte_change self.entry) ≢ []) }
    {
        Ok(places.push(self.towards(direction).place())?)
    }
}
