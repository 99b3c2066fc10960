//! The opening of a file that a crash may have left. Nothing is written.
ghost use Rattle.std.specs.Prelude.{◌≡◌, ◌⊎◌, ◌<◌, ◌≤◌, ◌==◌, ℕ, All, IsTrue, OnOk, IfOk, IfErr, IsErrOf, Some, None, Ok, Err, is_some, length, get_or, true};
ghost use Rattle.vm_store.specs.Facts.{IsDurable, FailedSince};
ghost use Rattle.geos_model.specs.Document.{IsTyped};
ghost use Rattle.file_format.specs.File.{is_rising, block_of, blocks_of_entries, both, longest_image, saved_sum, stands, summed_document, working_sum};
ghost use Rattle.document_file.specs.Sound.{ArePlaces, IsSound};
ghost use Rattle.file_format.specs.Reading.{IsOpenRefusal, IsReadRefusal, IsResourceFault, OnlyReadsStore};
ghost use Rattle.document_file.specs.Documents.{documents_in, has_checksums, sequence_in, entries_of, IsImaged, AreImaged, IsStored, AreStored};
ghost use Rattle.document_file.specs.Sums.{HasSum, HaveSums, has_sums, version_for};
ghost use Rattle.document_file.specs.Opened.{IsReadDocument, AreReadDocuments, IsReadSlots, IsReadWhole};

use crate::kind::{known_kind, read_kind};
use crate::slot::{Slots, SpareSlot, find_active};
use crate::sums::{has_sums, version_for};
use crate::table::{BlockTable, DocumentRef, Pair, Place, copy_table, share};
use file_format::{Entry, Extent, MOST_ENTRIES, Slot, check_slot, read_directory, read_length};
use geos_model::Fault;
use std::alloc::{AllocError, Global};
use std::rc::Rc;
use vm_store::Store;

/// The place of an entry: only a heap has a type. An image that lies where a known one of the same handle does isn't
/// read again.
fn read_place<S: Store>(
    alloc: Global,
    store: &mut S,
    entry: Entry,
    known: &[Option<Place>],
) -> Result<Place, Fault>
    // Asked of the caller.
    requires known { IsTrue (S.facts store.old).honest → AreImaged (S.facts store.old).content known.now }
    requires sums { IsTrue (S.facts store.old).honest → HaveSums (S.facts store.old).content known.now }
    // The store.
    ensures looks { OnlyReadsStore (S.facts store.old) (S.facts store.new) }
    // The place.
    ensures place { IfOk result (λ place. (place.attributes ≡ entry.attributes) × (place.extent ≡ entry.extent)
        × (place.sum ≡ entry.sum)) }
    ensures typed { IfOk result (λ place. IsTyped place.is_heap place.attributes) }
    ensures imaged { IfOk result (λ place. IsTrue (S.facts store.old).honest
        → IsImaged (S.facts store.old).content place) }
    ensures summed { IfOk result (λ place. IsTrue (S.facts store.old).honest
        → HasSum (S.facts store.old).content place) }
    // Refusals.
    ensures damaged { IsErrOf result Fault.Damaged → IsTrue (S.facts store.old).honest
        → block_of (S.facts store.old).content entry ≡ None }
    ensures file { IsErrOf result Fault.File → FailedSince (S.facts store.old) (S.facts store.new) }
    ensures refusals { IfErr result IsReadRefusal }
{
    let index = usize::from(entry.handle.0).saturating_sub(1);
    let is_heap = match known_kind(known, index, entry.extent, entry.sum) {
        Some(is_heap) => is_heap,
        None => read_kind(alloc, store, entry.extent, entry.sum)?,
    };
    if !is_heap && entry.attributes.heap_type != 0 {
        return Err(Fault::Damaged);
    }
    Ok(Place {
        attributes: entry.attributes,
        is_heap,
        extent: entry.extent,
        sum: entry.sum,
    })
}

/// A table in which no handle has a place.
fn no_places(alloc: Global, count: usize) -> Result<Vec<Option<Place>>, AllocError>
    ensures size { IfOk result (λ places. length places.items ≡ count) }
    ensures none { IfOk result (λ places. (j : ℕ) → get_or places.items j None ≡ None) }
{
    vec![in alloc; None; count]
}

/// How many places a table of these entries needs: up to the last handle.
fn places_needed(entries: &[Entry]) -> usize
    requires rising { is_rising 0 entries.now ≡ true }
    requires handles { All (λ e. e.handle.0 ≤ MOST_ENTRIES) entries.now }
    ensures enough { All (λ e. e.handle.0 ≤ result) entries.now }
    ensures few { result ≤ MOST_ENTRIES }
{
    match entries.last() {
        Some(entry) => usize::from(entry.handle.0),
        None => 0,
    }
}

/// The places of entries, each under its handle. Damaged, Memory, File.
fn read_places<S: Store>(
    alloc: Global,
    store: &mut S,
    entries: &[Entry],
    known: &[Option<Place>],
) -> Result<Vec<Option<Place>>, Fault>
    // Asked of the caller.
    requires rising { is_rising 0 entries.now ≡ true }
    requires handles { All (λ e. e.handle.0 ≤ MOST_ENTRIES) entries.now }
    requires short { All (λ e. e.extent.length ≤ longest_image) entries.now }
    requires known { IsTrue (S.facts store.old).honest → AreImaged (S.facts store.old).content known.now }
    requires sums { IsTrue (S.facts store.old).honest → HaveSums (S.facts store.old).content known.now }
    // The store.
    ensures looks { OnlyReadsStore (S.facts store.old) (S.facts store.new) }
    // The places.
    ensures size { IfOk result (λ places. length places.items ≤ MOST_ENTRIES) }
    ensures entries { IfOk result (λ places. entries_of 1 places.items ≡ entries.now) }
    ensures places { IfOk result (λ places. ArePlaces places.items) }
    ensures imaged { IfOk result (λ places. IsTrue (S.facts store.old).honest
        → AreImaged (S.facts store.old).content places.items) }
    ensures summed { IfOk result (λ places. IsTrue (S.facts store.old).honest
        → HaveSums (S.facts store.old).content places.items) }
    // Refusals.
    ensures damaged { IsErrOf result Fault.Damaged → IsTrue (S.facts store.old).honest
        → blocks_of_entries (S.facts store.old).content entries.now ≡ None }
    ensures file { IsErrOf result Fault.File → FailedSince (S.facts store.old) (S.facts store.new) }
    ensures refusals { IfErr result IsReadRefusal }
{
    let mut places = no_places(alloc, places_needed(entries))?;
    for entry in entries.iter() {
        let place = read_place(alloc, store, *entry, known)?;
        places[usize::from(entry.handle.0) - 1] = Some(place);
    }
    Ok(places)
}

/// Reads a document: its directory, and each image that isn't known. Damaged, Memory, File.
fn read_document<S: Store>(
    alloc: Global,
    store: &mut S,
    version: u8,
    file_length: u64,
    extent: Extent,
    sum: Option<u32>,
    known: &[Option<Place>],
) -> Result<DocumentRef, Fault>
    // Asked of the caller.
    requires length { IsTrue (S.facts store.old).honest → file_length ≡ length (S.facts store.old).content }
    requires known { IsTrue (S.facts store.old).honest → AreImaged (S.facts store.old).content known.now }
    requires sums { IsTrue (S.facts store.old).honest → HaveSums (S.facts store.old).content known.now }
    requires summed { IsTrue (S.facts store.old).honest → is_some sum ≡ has_sums version }
    // The store.
    ensures looks { OnlyReadsStore (S.facts store.old) (S.facts store.new) }
    // The document.
    ensures directory { IfOk result (λ stored. (stored.directory ≡ extent) × (stored.sum ≡ sum)) }
    ensures formed { IfOk result (λ stored. IsReadDocument file_length stored) }
    ensures stored { IfOk result (λ stored. IsTrue (S.facts store.old).honest
        → IsStored version (S.facts store.old).content stored) }
    // Refusals.
    ensures damaged { IsErrOf result Fault.Damaged → IsTrue (S.facts store.old).honest
        → summed_document version (S.facts store.old).content sum extent ≡ None }
    ensures file { IsErrOf result Fault.File → FailedSince (S.facts store.old) (S.facts store.new) }
    ensures refusals { IfErr result IsReadRefusal }
{
    let directory = read_directory(alloc, store, version, file_length, extent, sum)?;
    let places = read_places(alloc, store, &directory.entries, known)?;
    let table = BlockTable {
        map_block: directory.map_block.0,
        places,
    };
    let table = Rc::new(alloc, table)?;
    Ok(DocumentRef {
        directory: extent,
        sum,
        table,
    })
}

/// Reads the saved document beside the updated one: what both have is read once, and one table serves both where they
/// are the same.
fn read_saved<S: Store>(
    alloc: Global,
    store: &mut S,
    version: u8,
    file_length: u64,
    extent: Extent,
    sum: Option<u32>,
    updated: &DocumentRef,
) -> Result<DocumentRef, Fault>
    // Asked of the caller.
    requires length { IsTrue (S.facts store.old).honest → file_length ≡ length (S.facts store.old).content }
    requires formed { IsReadDocument file_length updated.now }
    requires stored { IsTrue (S.facts store.old).honest → IsStored version (S.facts store.old).content updated.now }
    requires summed { IsTrue (S.facts store.old).honest → is_some sum ≡ has_sums version }
    // The store.
    ensures looks { OnlyReadsStore (S.facts store.old) (S.facts store.new) }
    // The document.
    ensures directory { IfOk result (λ stored. (stored.directory ≡ extent) × (stored.sum ≡ sum)) }
    ensures formed { IfOk result (λ stored. IsReadDocument file_length stored) }
    ensures stored { IfOk result (λ stored. IsTrue (S.facts store.old).honest
        → IsStored version (S.facts store.old).content stored) }
    // Refusals.
    ensures damaged { IsErrOf result Fault.Damaged → IsTrue (S.facts store.old).honest
        → summed_document version (S.facts store.old).content sum extent ≡ None }
    ensures file { IsErrOf result Fault.File → FailedSince (S.facts store.old) (S.facts store.new) }
    ensures refusals { IfErr result IsReadRefusal }
{
    if updated.directory == extent && updated.sum == sum {
        let shared = share(updated)?;
        return Ok(shared);
    }
    read_document(
        alloc,
        store,
        version,
        file_length,
        extent,
        sum,
        &updated.table.places,
    )
}

// The sums of a slot's directories, if it has any.
fn directory_sums(slot: &Slot) -> (Option<u32>, Option<u32>)
    ensures working { result.0 ≡ working_sum slot.now }
    ensures saved { result.1 ≡ saved_sum slot.now }
{
    match &slot.sums {
        Some(sums) => (Some(sums.working), Some(sums.saved)),
        None => (None, None),
    }
}

/// Reads the two documents of a slot. Damaged, Memory, File.
pub fn read_pair<S: Store>(
    alloc: Global,
    store: &mut S,
    file_length: u64,
    slot: Slot,
) -> Result<Pair, Fault>
    // Asked of the caller.
    requires length { IsTrue (S.facts store.old).honest → file_length ≡ length (S.facts store.old).content }
    requires summed { IsTrue (S.facts store.old).honest → is_some slot.sums ≡ has_sums slot.version }
    // The store.
    ensures looks { OnlyReadsStore (S.facts store.old) (S.facts store.new) }
    // The documents.
    ensures directories { IfOk result (λ pair. (pair.updated.directory ≡ slot.working)
        × (pair.saved.directory ≡ slot.saved)) }
    ensures sums { IfOk result (λ pair. (pair.updated.sum ≡ working_sum slot) × (pair.saved.sum ≡ saved_sum slot)) }
    ensures formed { IfOk result (λ pair. AreReadDocuments file_length pair) }
    ensures stored { IfOk result (λ pair. IsTrue (S.facts store.old).honest
        → AreStored slot.version (S.facts store.old).content pair) }
    // Refusals.
    ensures damaged { IsErrOf result Fault.Damaged → IsTrue (S.facts store.old).honest
        → both (summed_document slot.version (S.facts store.old).content (working_sum slot) slot.working)
        (summed_document slot.version (S.facts store.old).content (saved_sum slot) slot.saved)
        ≡ Err Fault.Damaged }
    ensures file { IsErrOf result Fault.File → FailedSince (S.facts store.old) (S.facts store.new) }
    ensures refusals { IfErr result IsReadRefusal }
{
    let version = slot.version;
    let (working_sum, saved_sum) = directory_sums(&slot);
    let updated = read_document(
        alloc,
        store,
        version,
        file_length,
        slot.working,
        working_sum,
        &[],
    )?;
    let saved = read_saved(
        alloc,
        store,
        version,
        file_length,
        slot.saved,
        saved_sum,
        &updated,
    )?;
    Ok(Pair { updated, saved })
}

/// Reads what the store has. NotDocument, Damaged, Memory, File.
fn read_slots<S: Store>(alloc: Global, store: &mut S) -> Result<Slots, Fault>
    ensures looks { OnlyReadsStore (S.facts store.old) (S.facts store.new) }
    ensures formed { IfOk result (λ slots. IsReadSlots slots) }
    ensures whole { IfOk result (λ slots. IsTrue (S.facts store.old).honest
        → IsReadWhole (S.facts store.old).content slots) }
    ensures refused { IfErr result (λ fault. IsTrue (S.facts store.old).honest
        → IsResourceFault fault ⊎ (stands (S.facts store.old).content ≡ Err fault)) }
    ensures file { IsErrOf result Fault.File → FailedSince (S.facts store.old) (S.facts store.new) }
    ensures refusals { IfErr result IsOpenRefusal }
{
    let file_length = read_length(store)?;
    let active = find_active(store, file_length)?;
    let slot = active.slot;
    check_slot(&slot)?;
    let committed = read_pair(alloc, store, file_length, slot)?;
    Ok(Slots {
        second: active.second,
        version: slot.version,
        next_version: version_for(has_sums(slot.version)),
        sequence: slot.sequence,
        committed,
        spare: active.spare,
        marked: None,
        saved_sums: None,
    })
}

/// Syncs the store. File.
fn sync<S: Store>(store: &mut S) -> Result<(), Fault>
    ensures looks { OnlyReadsStore (S.facts store.old) (S.facts store.new) }
    ensures durable { OnOk result (IsTrue (S.facts store.new).honest → IsDurable (S.facts store.new)) }
    ensures file { IsErrOf result Fault.File → FailedSince (S.facts store.old) (S.facts store.new) }
    ensures refusals { IfErr result (λ fault. fault ≡ Fault.File) }
{
    store.sync()?;
    Ok(())
}

/// Reads what the store has, and syncs it: what was read is on the disk from then on. NotDocument, Damaged, Memory,
/// File.
pub fn open_slots<S: Store>(alloc: Global, store: &mut S) -> Result<(Slots, BlockTable), Fault>
    // The store.
    ensures looks { OnlyReadsStore (S.facts store.old) (S.facts store.new) }
    // What is read.
    ensures sound { IfOk result (λ p. IsSound (S.facts store.new) p.1 p.0) }
    ensures live { IfOk result (λ p. (p.1.map_block ≡ p.0.committed.updated.table.value.map_block)
        × (p.1.places.items ≡ p.0.committed.updated.table.value.places.items)) }
    ensures alone { IfOk result (λ p. (p.0.spare ≡ SpareSlot.Shut) ⊎ (p.0.spare ≡ SpareSlot.Stale)) }
    ensures unmarked { IfOk result (λ p. p.0.marked ≡ None) }
    ensures unturned { IfOk result (λ p. p.0.saved_sums ≡ None) }
    ensures next_version { IfOk result (λ p. p.0.next_version ≡ version_for (has_sums p.0.version)) }
    ensures versioned { IfOk result (λ p. IsTrue (S.facts store.old).honest
        → has_checksums (S.facts store.old).content ≡ has_sums p.0.version) }
    ensures stands { IfOk result (λ p. IsTrue (S.facts store.old).honest
        → stands (S.facts store.old).content ≡ Ok (documents_in (S.facts store.old).content p.0.committed)) }
    ensures numbered { IfOk result (λ p. IsTrue (S.facts store.old).honest
        → sequence_in (S.facts store.old).content ≡ Some p.0.sequence) }
    // Refusals.
    ensures refused { IfErr result (λ fault. IsTrue (S.facts store.old).honest
        → IsResourceFault fault ⊎ (stands (S.facts store.old).content ≡ Err fault)) }
    ensures file { IsErrOf result Fault.File → FailedSince (S.facts store.old) (S.facts store.new) }
    ensures refusals { IfErr result IsOpenRefusal }
{
    let slots = read_slots(alloc, store)?;
    let live = copy_table(alloc, &slots.committed.updated.table)?;
    sync(store)?;
    Ok((slots, live))
}
