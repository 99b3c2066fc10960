//! Where images and directories come to lie: apart from all that lies in the file and stays.
ghost use Rattle.std.specs.Prelude.{◌≡◌, ◌↔◌, ◌++◌, ◌∷◌, [], ◌+◌, ◌<◌, ◌≤◌, List, All, IfOk, OnOk, IsTrue, length};
ghost use Rattle.file_format.specs.declared.file.Extent.{Extent};
ghost use Rattle.file_space.specs.Placing.{AreFewLong};
ghost use Rattle.file_space.specs.Space.{AreTaken, IsTaken};
ghost use Rattle.document_file.specs.Ranges.{IsPlaced};
ghost use Rattle.document_file.specs.Slots.{block_extents, stored_extents, pair_extents, prepared_extents, marked_extents, referenced_extents};
ghost use Rattle.document_file.specs.FreeSpace.{IsSpaceOf, MarksTaken, TakesPlaceOf, AreAmongTaken, next_saved, next_extents};
ghost use Rattle.document_file.specs.Sound.{IsFormed};
ghost use Rattle.document_file.specs.Writing.{AreFor};

use crate::member::Member;
use crate::slot::{Slots, SpareSlot};
use crate::table::{BlockTable, DocumentRef, Pair, Place, place_at, release_place};
use file_format::Extent;
use file_space::{FreeSpace, MOST_EXTENTS};
use std::alloc::{AllocError, Global};

fn hold_blocks(space: &mut FreeSpace, places: &[Option<Place>]) -> Result<(), AllocError>
    requires few { space.old.count + length (block_extents places.now) ≤ MOST_EXTENTS }
    requires placed { All IsPlaced (block_extents places.now) }
    ensures { OnOk result (MarksTaken (block_extents places.now) space.old space.new) }
{
    for place in places {
        if let Some(place) = place {
            space.hold(place.extent)?;
        }
    }
    Ok(())
}

fn hold_document(space: &mut FreeSpace, stored: &DocumentRef) -> Result<(), AllocError>
    requires few { space.old.count + length (stored_extents stored.now) ≤ MOST_EXTENTS }
    requires placed { All IsPlaced (stored_extents stored.now) }
    ensures { OnOk result (MarksTaken (stored_extents stored.now) space.old space.new) }
{
    hold_blocks(space, &stored.table.places)?;
    space.hold(stored.directory)
}

fn hold_pair(space: &mut FreeSpace, pair: &Pair) -> Result<(), AllocError>
    requires few { space.old.count + length (pair_extents pair.now) ≤ MOST_EXTENTS }
    requires placed { All IsPlaced (pair_extents pair.now) }
    ensures { OnOk result (MarksTaken (pair_extents pair.now) space.old space.new) }
{
    hold_document(space, &pair.saved)?;
    hold_document(space, &pair.updated)
}

fn hold_spare(space: &mut FreeSpace, spare: &SpareSlot) -> Result<(), AllocError>
    requires few { space.old.count + length (prepared_extents spare.now) ≤ MOST_EXTENTS }
    requires placed { All IsPlaced (prepared_extents spare.now) }
    ensures { OnOk result (MarksTaken (prepared_extents spare.now) space.old space.new) }
{
    match spare {
        SpareSlot::Prepared(pair) => hold_pair(space, pair),
        SpareSlot::Shut | SpareSlot::Stale => Ok(()),
    }
}

fn hold_marked(space: &mut FreeSpace, marked: &Option<BlockTable>) -> Result<(), AllocError>
    requires few { space.old.count + length (marked_extents marked.now) ≤ MOST_EXTENTS }
    requires placed { All IsPlaced (marked_extents marked.now) }
    ensures { OnOk result (MarksTaken (marked_extents marked.now) space.old space.new) }
{
    match marked {
        Some(table) => hold_blocks(space, &table.places),
        None => Ok(()),
    }
}

fn hold_kept(space: &mut FreeSpace, slots: &Slots) -> Result<(), AllocError>
    requires few { space.old.count + length (referenced_extents slots.now) ≤ MOST_EXTENTS }
    requires placed { All IsPlaced (referenced_extents slots.now) }
    ensures { OnOk result (MarksTaken (referenced_extents slots.now) space.old space.new) }
{
    hold_marked(space, &slots.marked)?;
    hold_spare(space, &slots.spare)?;
    hold_pair(space, &slots.committed)
}

// Taken is what must not be written over: the blocks of the live table, and all that the slots stand on.
fn space_around(
    alloc: Global,
    live: &[Option<Place>],
    slots: &Slots,
) -> Result<FreeSpace, AllocError>
    requires few { length (block_extents live.now ++ referenced_extents slots.now) ≤ MOST_EXTENTS }
    requires live { All IsPlaced (block_extents live.now) }
    requires kept { All IsPlaced (referenced_extents slots.now) }
    ensures { IfOk result (AreTaken (block_extents live.now ++ referenced_extents slots.now)) }
{
    let mut space = FreeSpace::new(alloc)?;
    hold_kept(&mut space, slots)?;
    hold_blocks(&mut space, live)?;
    Ok(space)
}

/// The free space of a file, which is found out where it isn't known.
pub fn known_space(
    alloc: Global,
    live: &[Option<Place>],
    slots: &Slots,
    space: Option<FreeSpace>,
) -> Result<FreeSpace, AllocError>
    requires few { length (block_extents live.now ++ referenced_extents slots.now) ≤ MOST_EXTENTS }
    requires live { All IsPlaced (block_extents live.now) }
    requires kept { All IsPlaced (referenced_extents slots.now) }
    requires known { IsSpaceOf (block_extents live.now ++ referenced_extents slots.now) space }
    ensures { IfOk result (AreTaken (block_extents live.now ++ referenced_extents slots.now)) }
{
    match space {
        Some(space) => Ok(space),
        None => space_around(alloc, live, slots),
    }
}

/// Takes free extents for the images of blocks. After a refusal some may be taken.
pub fn place_images(
    alloc: Global,
    space: &mut FreeSpace,
    puts: &[Member],
) -> Result<Vec<Extent>, AllocError>
    requires few { space.old.count + length puts.now ≤ MOST_EXTENTS }
    ensures found { IfOk result (λ extents. (taken : List Extent) → AreTaken taken space.old → AreFewLong taken
        → AreFor taken puts.now (length puts.now) extents.items) }
    ensures taken { IfOk result (λ extents. (taken : List Extent) → AreTaken taken space.old
        → AreTaken (extents.items ++ taken) space.new) }
{
    let mut extents = Vec::with_capacity(alloc, puts.len())?;
    for put in puts {
        let extent = space.take(put.block.image.as_slice().len() as u32)?;
        extents.push(extent)?;
    }
    Ok(extents)
}

// Whether two blocks lie in the same extent, or neither is one.
fn lie_alike(old: Option<Place>, new: Option<Place>) -> bool
    ensures { IsTrue result ↔ (block_extents (old ∷ []) ≡ block_extents (new ∷ [])) }
{
    match (old, new) {
        (Some(old), Some(new)) => old.extent == new.extent,
        (None, None) => true,
        _ => false,
    }
}

// One extent more is taken, of those that are taken already: so it needs no memory.
fn hold_again(space: &mut FreeSpace, extent: Extent)
    requires few { space.old.count < MOST_EXTENTS }
    requires taken { IsTaken extent space.old }
    ensures { TakesPlaceOf [] (extent ∷ []) space.old space.new }
{
    if space.hold(extent).is_err() {
        unreachable!();
    }
}

// Where one block lies is taken in place of where another did, and is taken already. Where both lie alike nothing is
// done.
fn follow_place(space: &mut FreeSpace, old: Option<Place>, new: Option<Place>)
    requires few { space.old.count < MOST_EXTENTS }
    requires taken { AreAmongTaken (block_extents (old ∷ []) ++ block_extents (new ∷ [])) space.old }
    ensures followed { TakesPlaceOf (block_extents (old ∷ [])) (block_extents (new ∷ [])) space.old space.new }
    ensures alike { block_extents (old ∷ []) ≡ block_extents (new ∷ []) → space.new ≡ space.old }
{
    if lie_alike(old, new) {
        return;
    }
    release_place(space, old);
    if let Some(place) = new {
        hold_again(space, place.extent);
    }
}

// Where the blocks of one table lie is taken in place of where those of another did, and is taken already. Only where
// the two differ is the space touched.
fn follow_blocks(space: &mut FreeSpace, old: &[Option<Place>], new: &[Option<Place>])
    requires few { space.old.count + length (block_extents new.now) < MOST_EXTENTS }
    requires taken { AreAmongTaken (block_extents old.now ++ block_extents new.now) space.old }
    ensures { TakesPlaceOf (block_extents old.now) (block_extents new.now) space.old space.new }
{
    let end = old.len().max(new.len());
    for at in 0..end {
        follow_place(space, place_at(old, at), place_at(new, at));
    }
}

// The live document with this directory is taken in place of another, and is taken already.
fn follow_document(space: &mut FreeSpace, old: &DocumentRef, directory: Extent, live: &BlockTable)
    requires few { space.old.count + length (block_extents live.now.places.items) < MOST_EXTENTS }
    requires taken { AreAmongTaken (stored_extents old.now ++ (directory ∷ block_extents live.now.places.items))
        space.old }
    ensures { TakesPlaceOf (stored_extents old.now) (directory ∷ block_extents live.now.places.items)
        space.old space.new }
{
    space.release(old.directory);
    follow_blocks(space, &old.table.places, &live.places);
    hold_again(space, directory);
}

// What the saved document lies on after a commit is taken in place of what it lay on before: where the commit `saves`,
// that is the live document with this directory, else it stays.
fn follow_saved(
    space: &mut FreeSpace,
    directory: Extent,
    live: &BlockTable,
    slots: &Slots,
    saves: bool,
)
    requires few { space.old.count + length (block_extents live.now.places.items) < MOST_EXTENTS }
    requires taken { AreAmongTaken
        (stored_extents slots.now.committed.saved ++ (directory ∷ block_extents live.now.places.items)) space.old }
    ensures { TakesPlaceOf (stored_extents slots.now.committed.saved)
        (next_saved directory live.now slots.now saves) space.old space.new }
{
    if saves {
        follow_document(space, &slots.committed.saved, directory, live);
    }
}

// What stays once the live document is committed with this directory is taken in place of what did before. The new
// documents take their place while the blocks of the live table and the directory are taken too.
fn follow_documents(
    space: &mut FreeSpace,
    directory: Extent,
    live: &BlockTable,
    slots: &Slots,
    saves: bool,
)
    requires formed { IsFormed live.now slots.now }
    requires settled { prepared_extents slots.now.spare ≡ [] }
    requires taken { AreTaken (directory ∷ (block_extents live.now.places.items ++ referenced_extents slots.now))
        space.old }
    ensures { AreTaken (block_extents live.now.places.items ++ next_extents directory live.now slots.now saves)
        space.new }
{
    follow_document(space, &slots.committed.updated, directory, live);
    follow_saved(space, directory, live, slots, saves);
    space.release(directory);
}

/// Makes the free space what it is once the live document is committed with this directory, which is taken. It answers
/// whether it is known then: it is, unless an earlier commit is in doubt.
pub fn follow_commit(
    space: &mut FreeSpace,
    directory: Extent,
    live: &BlockTable,
    slots: &Slots,
    saves: bool,
) -> bool
    requires formed { IsFormed live.now slots.now }
    requires taken { AreTaken (directory ∷ (block_extents live.now.places.items ++ referenced_extents slots.now))
        space.old }
    ensures followed { IsTrue result
        → AreTaken (block_extents live.now.places.items ++ next_extents directory live.now slots.now saves) space.new }
    ensures known { prepared_extents slots.now.spare ≡ [] → IsTrue result }
{
    if let SpareSlot::Prepared(_) = &slots.spare {
        return false;
    }
    follow_documents(space, directory, live, slots, saves);
    true
}
