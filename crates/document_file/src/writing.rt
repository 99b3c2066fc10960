//! Images that come into the file.
ghost use Rattle.std.specs.Prelude.{◌≡◌, ◌≢◌, ◌++◌, ◌∷◌, ◌+◌, ◌<◌, ◌≤◌, [], All, IsTrue, IsOk, IfOk, IfErr, IsErrOf, OnOk, OnErr, length};
ghost use Rattle.vm_store.specs.Facts.{FailedSince, Holds};
ghost use Rattle.file_space.specs.Placing.{AreFewLong};
ghost use Rattle.file_space.specs.Space.{AreTaken};
ghost use Rattle.document_file.specs.Calls.{IsImageLength};
ghost use Rattle.document_file.specs.Ranges.{IsPlaced, start_of};
ghost use Rattle.document_file.specs.Slots.{block_extents, referenced_extents, marked_extents, AreExtentsPlaced};
ghost use Rattle.file_format.specs.Reading.{IsResourceFault};
ghost use Rattle.document_file.specs.FreeSpace.{IsSpaceOf};
ghost use Rattle.document_file.specs.Writing.{AreFor, Fills, IsFor, AreWritten, SparesExtents};

use crate::extent::write_extent;
use crate::member::Member;
use crate::placing::{known_space, place_images};
use crate::slot::Slots;
use crate::table::Place;
use file_format::Extent;
use file_space::{FreeSpace, MOST_EXTENTS};
use geos_model::Fault;
use std::alloc::Global;
use vm_store::{Store, StoreFault};

/// Writes the images of blocks into extents on which nothing stands. Doesn't sync.
pub fn write_images<S: Store>(
    store: &mut S,
    slots: &Slots,
    extents: &[Extent],
    puts: &[Member],
) -> Result<(), StoreFault>
    // Asked of the caller.
    requires kept { AreExtentsPlaced slots.now }
    requires extents { AreFor (referenced_extents slots.now) puts.now (length puts.now) extents.now }
    // The store.
    ensures honest { (S.facts store.new).honest ≡ (S.facts store.old).honest }
    ensures failures { (S.facts store.old).failures ≤ (S.facts store.new).failures }
    ensures fills { IsTrue (S.facts store.old).honest
        → Fills slots.now extents.now (S.facts store.old) (S.facts store.new) }
    // The images.
    ensures written { OnOk result (IsTrue (S.facts store.old).honest
        → AreWritten (length puts.now) puts.now extents.now (S.facts store.new).content) }
    // Refusals.
    ensures file { OnErr result (FailedSince (S.facts store.old) (S.facts store.new)) }
{
    for (i, put) in puts.iter().enumerate() {
        write_extent(store, slots, extents[i], put.block.image.as_slice())?;
    }
    Ok(())
}

/// Images that are written.
#[derive(Drop)]
pub struct Written {
    pub extents: Vec<Extent>,
    /// The free space without these extents, where it is known.
    pub space: Option<FreeSpace>,
}

/// Takes free extents for the images of blocks, and writes them there; none where there is nothing to write. Memory,
/// before anything is written; File.
pub fn write_puts<S: Store>(
    alloc: Global,
    store: &mut S,
    live: &[Option<Place>],
    slots: &Slots,
    space: Option<FreeSpace>,
    puts: &[Member],
) -> Result<Written, Fault>
    // Asked of the caller.
    requires live { All IsPlaced (block_extents live.now) }
    requires kept { AreExtentsPlaced slots.now }
    requires few { length (block_extents live.now ++ referenced_extents slots.now) + length puts.now ≤ MOST_EXTENTS }
    requires few_long { AreFewLong (block_extents live.now ++ referenced_extents slots.now) }
    requires known { IsSpaceOf (block_extents live.now ++ referenced_extents slots.now) space }
    // The store.
    ensures honest { (S.facts store.new).honest ≡ (S.facts store.old).honest }
    ensures failures { (S.facts store.old).failures ≤ (S.facts store.new).failures }
    ensures spared { IsTrue (S.facts store.old).honest
        → SparesExtents (block_extents live.now ++ marked_extents slots.now.marked) slots.now (S.facts store.old)
        (S.facts store.new) }
    // The images.
    ensures found { IfOk result
        (λ written. AreFor (block_extents live.now ++ referenced_extents slots.now) puts.now (length puts.now)
        written.extents.items) }
    ensures written { IfOk result (λ written. IsTrue (S.facts store.old).honest
        → AreWritten (length puts.now) puts.now written.extents.items (S.facts store.new).content) }
    ensures known { IfOk result
        (λ written. IsSpaceOf (written.extents.items ++ (block_extents live.now ++ referenced_extents slots.now))
        written.space) }
    // Refusals.
    ensures early { IfErr result (λ fault. fault ≢ Fault.File → store.new ≡ store.old) }
    ensures nothing { puts.now ≡ [] → IsOk result × (store.new ≡ store.old) }
    ensures file { IsErrOf result Fault.File → FailedSince (S.facts store.old) (S.facts store.new) }
    ensures refusals { IfErr result IsResourceFault }
{
    if puts.is_empty() {
        let extents = Vec::new(alloc);
        return Ok(Written { extents, space });
    }
    let mut space = known_space(alloc, live, slots, space)?;
    let extents = place_images(alloc, &mut space, puts)?;
    write_images(store, slots, &extents, puts)?;
    Ok(Written {
        extents,
        space: Some(space),
    })
}

/// An image that is written.
#[derive(Drop)]
pub struct WrittenImage {
    pub extent: Extent,
    /// The free space without this extent.
    pub space: FreeSpace,
}

/// Takes a free extent for one image, and writes it there from where it lies. Memory, before anything is written; File.
pub fn write_image<S: Store>(
    alloc: Global,
    store: &mut S,
    live: &[Option<Place>],
    slots: &Slots,
    space: Option<FreeSpace>,
    image: &[u8],
) -> Result<WrittenImage, Fault>
    // Asked of the caller.
    requires live { All IsPlaced (block_extents live.now) }
    requires kept { AreExtentsPlaced slots.now }
    requires few { length (block_extents live.now ++ referenced_extents slots.now) < MOST_EXTENTS }
    requires few_long { AreFewLong (block_extents live.now ++ referenced_extents slots.now) }
    requires known { IsSpaceOf (block_extents live.now ++ referenced_extents slots.now) space }
    requires size { IsImageLength (length image.now) }
    // The store.
    ensures honest { (S.facts store.new).honest ≡ (S.facts store.old).honest }
    ensures failures { (S.facts store.old).failures ≤ (S.facts store.new).failures }
    ensures spared { IsTrue (S.facts store.old).honest
        → SparesExtents (block_extents live.now ++ marked_extents slots.now.marked) slots.now (S.facts store.old)
        (S.facts store.new) }
    // The image.
    ensures found { IfOk result
        (λ written. IsFor (block_extents live.now ++ referenced_extents slots.now) image.now written.extent) }
    ensures written { IfOk result (λ written. IsTrue (S.facts store.old).honest
        → Holds (S.facts store.new).content (start_of written.extent) image.now) }
    ensures known { IfOk result
        (λ written. AreTaken (written.extent ∷ (block_extents live.now ++ referenced_extents slots.now))
        written.space) }
    // Refusals.
    ensures early { IfErr result (λ fault. fault ≢ Fault.File → store.new ≡ store.old) }
    ensures file { IsErrOf result Fault.File → FailedSince (S.facts store.old) (S.facts store.new) }
    ensures refusals { IfErr result IsResourceFault }
{
    let mut space = known_space(alloc, live, slots, space)?;
    let extent = space.take(image.len() as u32)?;
    write_extent(store, slots, extent, image)?;
    Ok(WrittenImage { extent, space })
}
