//! Where a change changes a document.
ghost use Rattle.std.specs.Prelude.{◌≡◌, ◌≢◌, ◌++◌, [], OnOk, IfErr, map};
ghost use Rattle.geos_model.specs.Places.{inverse, taken_back};
ghost use Rattle.chunk_edits.specs.Runs.{runs_places};
ghost use Rattle.vm_blocks.specs.ChangePlaces.{change_places, directed_places, member_places, part_places, run_of};

use crate::{Change, Direction, Members, PartChange};
use chunk_edits::{ArrayRuns, Splice};
use geos_model::{ChunkHandle, Place, VmHandle};
use std::alloc::AllocError;

impl Change {
    /// Puts behind others the places that it changes where it is carried out in a direction, in order. Nothing is known
    /// of them where there is no memory for all.
    pub fn append_places(
        &self,
        direction: Direction,
        places: &mut Vec<Place>,
    ) -> Result<(), AllocError>
        ensures ok { OnOk result (places.new.items ≡ places.old.items ++ directed_places direction self.now) }
        ensures err { IfErr result (λ _. directed_places direction self.now ≢ []) }
    {
        let start = places.len();
        self.append_own(places)?;
        match direction {
            Direction::Forwards => {}
            Direction::Backwards => take_back(&mut places.as_mut_slice()[start..]),
        }
        Ok(())
    }

    /// So of the change as it was made.
    fn append_own(&self, places: &mut Vec<Place>) -> Result<(), AllocError>
        ensures ok { OnOk result (places.new.items ≡ places.old.items ++ change_places self.now) }
        ensures err { IfErr result (λ _. change_places self.now ≢ []) }
    {
        match self {
            Change::BlocksIn(members) | Change::BlocksOut(members) => members.append_places(places),
            Change::Part(block, part) => part.append_places(*block, places),
            Change::Attributes { handle, .. } => Ok(places.push(Place::Attributes(*handle))?),
            Change::Map { .. } => Ok(places.push(Place::MapBlock)?),
        }
    }
}

impl Members {
    /// So of the blocks.
    fn append_places(&self, places: &mut Vec<Place>) -> Result<(), AllocError>
        ensures ok { OnOk result (places.new.items ≡ places.old.items ++ member_places self.now.list.items) }
        ensures err { IfErr result (λ _. member_places self.now.list.items ≢ []) }
    {
        for member in &self.list {
            places.push(Place::Block(member.handle))?;
        }
        Ok(())
    }
}

impl PartChange {
    /// So of a part of the body of a block.
    fn append_places(&self, block: VmHandle, places: &mut Vec<Place>) -> Result<(), AllocError>
        ensures ok { OnOk result (places.new.items ≡ places.old.items ++ part_places block self.now) }
        ensures err { IfErr result (λ _. part_places block self.now ≢ []) }
    {
        match self {
            PartChange::Raw(splice) => Ok(places.push(splice_run(block, ChunkHandle(0), splice))?),
            PartChange::RawPatch(_) => Ok(places.push(Place::Block(block))?),
            PartChange::Chunk(chunk, splice) => Ok(places.push(splice_run(block, *chunk, splice))?),
            PartChange::Patch(chunk, _, runs) => append_runs(block, *chunk, *runs, places),
            PartChange::ChunkIn(chunk, _) | PartChange::ChunkOut(chunk, _) => {
                Ok(places.push(Place::Chunk(block, *chunk))?)
            }
        }
    }
}

/// The run of bytes that a splice changes.
fn splice_run(block: VmHandle, chunk: ChunkHandle, splice: &Splice) -> Place
    ensures { result ≡ run_of block chunk splice.now }
{
    Place::Run {
        block,
        chunk,
        at: splice.at(),
        before: splice.old_len(),
        after: splice.new_len(),
    }
}

/// So of the runs of an edit of an array.
fn append_runs(
    block: VmHandle,
    chunk: ChunkHandle,
    runs: ArrayRuns,
    places: &mut Vec<Place>,
) -> Result<(), AllocError>
    ensures ok { OnOk result (places.new.items ≡ places.old.items ++ runs_places block chunk runs) }
    ensures err { IfErr result (λ _. runs_places block chunk runs ≢ []) }
{
    if let Some((before, after)) = runs.head {
        places.push(Place::Run {
            block,
            chunk,
            at: 0,
            before,
            after,
        })?;
    }
    places.push(Place::Run {
        block,
        chunk,
        at: runs.at,
        before: runs.before,
        after: runs.after,
    })?;
    Ok(())
}

/// Makes of the places that a change changes those that it changes where it is taken back.
fn take_back(places: &mut [Place])
    ensures { places.new ≡ taken_back places.old }
{
    exchange_lengths(places);
    places.reverse();
}

/// Makes of each place the one that it is where the change is taken back.
fn exchange_lengths(places: &mut [Place])
    ensures { places.new ≡ map inverse places.old }
{
    for place in places.iter_mut() {
        *place = exchanged(*place);
    }
}

/// A run where as many bytes come as went there, and as many go as came. Any other place stays.
fn exchanged(place: Place) -> Place
    ensures { result ≡ inverse place }
{
    match place {
        Place::Run {
            block,
            chunk,
            at,
            before,
            after,
        } => Place::Run {
            block,
            chunk,
            at,
            before: after,
            after: before,
        },
        Place::All
        | Place::MapBlock
        | Place::Attributes(_)
        | Place::Block(_)
        | Place::Chunk(_, _) => place,
    }
}
