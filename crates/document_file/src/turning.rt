//! The opening of a file that is to get sums: where it has none, each image is read for its sum.
ghost use Rattle.std.specs.Prelude.{◌≡◌, ◌⊎◌, ◌||◌, ℕ, List, map, true, IsTrue, IfOk, IfErr, IfSome, IsErrOf, None, Some, Ok, Err};
ghost use Rattle.vm_store.specs.Facts.{FailedSince};
ghost use Rattle.checksum.specs.Crc32c.{crc32c};
ghost use Rattle.file_format.specs.File.{bytes_in, stands};
ghost use Rattle.file_format.specs.Reading.{IsOpenRefusal, IsResourceFault, OnlyReadsStore};
ghost use Rattle.document_file.specs.Documents.{documents_in, has_checksums, sequence_in};
ghost use Rattle.document_file.specs.Sound.{IsSound};
ghost use Rattle.document_file.specs.Sums.{has_sums, unsummed, IsSummed, AreSummed, IsResummed};

use crate::opening::open_slots;
use crate::slot::{Slots, SpareSlot};
use crate::sums::{has_sums, version_for};
use crate::table::{BlockTable, Place, place_at};
use checksum::crc32c;
use file_format::{Extent, read_extent};
use geos_model::Fault;
use std::alloc::Global;
use vm_store::Store;

/// The sum of a known place, if it lies in this extent.
fn known_sum(known: Option<Place>, extent: Extent) -> Option<u32>
    ensures { IfSome result (λ sum. (file : List ℕ) → IfSome known (IsSummed true file)
        → sum ≡ crc32c (bytes_in file extent)) }
{
    match known {
        Some(place) => {
            if place.extent == extent {
                place.sum
            } else {
                None
            }
        }
        None => None,
    }
}

/// The sum of the image in an extent. Memory, File.
fn image_sum<S: Store>(alloc: Global, store: &mut S, extent: Extent) -> Result<u32, Fault>
    ensures looks { OnlyReadsStore (S.facts store.old) (S.facts store.new) }
    ensures sum { IfOk result (λ sum. IsTrue (S.facts store.old).honest
        → sum ≡ crc32c (bytes_in (S.facts store.old).content extent)) }
    ensures file { IsErrOf result Fault.File → FailedSince (S.facts store.old) (S.facts store.new) }
    ensures refusals { IfErr result IsResourceFault }
{
    let image = read_extent(alloc, store, extent)?;
    Ok(crc32c(&image))
}

/// A place with the sum of its image. One that lies where a known place does isn't read. Memory, File.
fn summed_place<S: Store>(
    alloc: Global,
    store: &mut S,
    place: Place,
    known: Option<Place>,
) -> Result<Place, Fault>
    // Asked of the caller.
    requires known { IsTrue (S.facts store.old).honest → IfSome known (IsSummed true (S.facts store.old).content) }
    // The store.
    ensures looks { OnlyReadsStore (S.facts store.old) (S.facts store.new) }
    // The place.
    ensures alike { IfOk result (λ summed. record summed { sum = None } ≡ record place { sum = None }) }
    ensures summed { IfOk result (λ summed. IsTrue (S.facts store.old).honest
        → IsSummed true (S.facts store.old).content summed) }
    // Refusals.
    ensures file { IsErrOf result Fault.File → FailedSince (S.facts store.old) (S.facts store.new) }
    ensures refusals { IfErr result IsResourceFault }
{
    let sum = match known_sum(known, place.extent) {
        Some(sum) => sum,
        None => image_sum(alloc, store, place.extent)?,
    };
    Ok(Place {
        sum: Some(sum),
        ..place
    })
}

/// So for a handle, which may have no place.
fn summed_member<S: Store>(
    alloc: Global,
    store: &mut S,
    place: Option<Place>,
    known: Option<Place>,
) -> Result<Option<Place>, Fault>
    // Asked of the caller.
    requires known { IsTrue (S.facts store.old).honest → IfSome known (IsSummed true (S.facts store.old).content) }
    // The store.
    ensures looks { OnlyReadsStore (S.facts store.old) (S.facts store.new) }
    // The place.
    ensures alike { IfOk result (λ summed. unsummed summed ≡ unsummed place) }
    ensures summed { IfOk result (λ summed. IsTrue (S.facts store.old).honest
        → IfSome summed (IsSummed true (S.facts store.old).content)) }
    // Refusals.
    ensures file { IsErrOf result Fault.File → FailedSince (S.facts store.old) (S.facts store.new) }
    ensures refusals { IfErr result IsResourceFault }
{
    let Some(place) = place else {
        return Ok(None);
    };
    let summed = summed_place(alloc, store, place, known)?;
    Ok(Some(summed))
}

/// The same places with the sums of their images, of which one at a time is in memory. Those that lie where the known
/// place of the same handle does aren't read. Memory, File.
fn summed_places<S: Store>(
    alloc: Global,
    store: &mut S,
    places: &[Option<Place>],
    known: &[Option<Place>],
) -> Result<Vec<Option<Place>>, Fault>
    // Asked of the caller.
    requires known { IsTrue (S.facts store.old).honest → AreSummed true (S.facts store.old).content known.now }
    // The store.
    ensures looks { OnlyReadsStore (S.facts store.old) (S.facts store.new) }
    // The places.
    ensures alike { IfOk result (λ summed. map unsummed summed.items ≡ map unsummed places.now) }
    ensures summed { IfOk result (λ summed. IsTrue (S.facts store.old).honest
        → AreSummed true (S.facts store.old).content summed.items) }
    // Refusals.
    ensures file { IsErrOf result Fault.File → FailedSince (S.facts store.old) (S.facts store.new) }
    ensures refusals { IfErr result IsResourceFault }
{
    let mut summed = Vec::with_capacity(alloc, places.len())?;
    for place in places {
        let at_handle = place_at(known, summed.len());
        let member = summed_member(alloc, store, *place, at_handle)?;
        summed.push(member)?;
    }
    Ok(summed)
}

/// The same table with the sums of its images. Memory, File.
fn summed_table<S: Store>(
    alloc: Global,
    store: &mut S,
    table: &BlockTable,
    known: &[Option<Place>],
) -> Result<BlockTable, Fault>
    // Asked of the caller.
    requires known { IsTrue (S.facts store.old).honest → AreSummed true (S.facts store.old).content known.now }
    // The store.
    ensures looks { OnlyReadsStore (S.facts store.old) (S.facts store.new) }
    // The table.
    ensures alike { IfOk result (λ summed. IsResummed summed table.now) }
    ensures summed { IfOk result (λ summed. IsTrue (S.facts store.old).honest
        → AreSummed true (S.facts store.old).content summed.places.items) }
    // Refusals.
    ensures file { IsErrOf result Fault.File → FailedSince (S.facts store.old) (S.facts store.new) }
    ensures refusals { IfErr result IsResourceFault }
{
    let places = summed_places(alloc, store, &table.places, known)?;
    Ok(BlockTable {
        map_block: table.map_block,
        places,
    })
}

/// Makes the next commit one of version 3: the live table and that of the saved document get their sums. Memory, File.
fn give_sums<S: Store>(
    alloc: Global,
    store: &mut S,
    slots: Slots,
    live: BlockTable,
) -> Result<(Slots, BlockTable), Fault>
    // Asked of the caller.
    requires sound { IsSound (S.facts store.old) live slots }
    requires alone { (slots.spare ≡ SpareSlot.Shut) ⊎ (slots.spare ≡ SpareSlot.Stale) }
    requires unmarked { slots.marked ≡ None }
    // The store.
    ensures looks { OnlyReadsStore (S.facts store.old) (S.facts store.new) }
    // What the file gets.
    ensures sound { IfOk result (λ p. IsSound (S.facts store.new) p.1 p.0) }
    ensures slots { IfOk result (λ p. p.0 ≡ record slots { next_version = 3; saved_sums = p.0.saved_sums }) }
    ensures live { IfOk result (λ p. IsResummed p.1 live) }
    // Refusals.
    ensures file { IsErrOf result Fault.File → FailedSince (S.facts store.old) (S.facts store.new) }
    ensures refusals { IfErr result IsResourceFault }
{
    let summed = summed_table(alloc, store, &live, &[])?;
    let saved = summed_table(alloc, store, &slots.committed.saved.table, &summed.places)?;
    let mut slots = slots;
    slots.next_version = version_for(true);
    slots.saved_sums = Some(saved);
    Ok((slots, summed))
}

/// Reads what the store has, and syncs it, as `open_slots` does; where sums are asked for and the file has none, the
/// next commit gives it sums. NotDocument, Damaged, Memory, File.
pub fn opened_slots<S: Store>(
    alloc: Global,
    store: &mut S,
    checksums: bool,
) -> Result<(Slots, BlockTable), Fault>
    // The store.
    ensures looks { OnlyReadsStore (S.facts store.old) (S.facts store.new) }
    // What is read.
    ensures sound { IfOk result (λ p. IsSound (S.facts store.new) p.1 p.0) }
    ensures live { IfOk result (λ p. IsResummed p.1 p.0.committed.updated.table.value) }
    ensures alone { IfOk result (λ p. (p.0.spare ≡ SpareSlot.Shut) ⊎ (p.0.spare ≡ SpareSlot.Stale)) }
    ensures unmarked { IfOk result (λ p. p.0.marked ≡ None) }
    ensures checksums { IfOk result (λ p. IsTrue (S.facts store.old).honest
        → has_sums p.0.next_version ≡ (checksums || has_checksums (S.facts store.old).content)) }
    ensures stands { IfOk result (λ p. IsTrue (S.facts store.old).honest
        → stands (S.facts store.old).content ≡ Ok (documents_in (S.facts store.old).content p.0.committed)) }
    ensures numbered { IfOk result (λ p. IsTrue (S.facts store.old).honest
        → sequence_in (S.facts store.old).content ≡ Some p.0.sequence) }
    // Refusals.
    ensures refused { IfErr result (λ fault. IsTrue (S.facts store.old).honest
        → IsResourceFault fault ⊎ (stands (S.facts store.old).content ≡ Err fault)) }
    ensures file { IsErrOf result Fault.File → FailedSince (S.facts store.old) (S.facts store.new) }
    ensures refusals { IfErr result IsOpenRefusal }
{
    let (slots, live) = open_slots(alloc, store)?;
    let summed = has_sums(slots.version);
    if checksums && !summed {
        return give_sums(alloc, store, slots, live);
    }
    Ok((slots, live))
}
