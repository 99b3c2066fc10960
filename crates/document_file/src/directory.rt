//! Directories: made of the live table, and written where nothing lies that stays.
ghost use Rattle.std.specs.Prelude.{◌≡◌, ◌⊎◌, ◌<◌, ◌≤◌, List, None, true, false, All, IsTrue, IfSome, OnOk, IfOk, IfErr, IsErrOf, is_some, length, ◌++◌, ◌∷◌};
ghost use Rattle.std.specs.List.{count_by};
ghost use Rattle.vm_store.specs.Facts.{FailedSince, Torn};
ghost use Rattle.geos_model.specs.Document.{FitAttributes, most_blocks};
ghost use Rattle.file_format.specs.File.{directory_text};
ghost use Rattle.file_format.specs.declared.file.Extent.{Extent};
ghost use Rattle.file_space.specs.Placing.{IsFirstFit};
ghost use Rattle.file_space.specs.Space.{AreTaken};
ghost use Rattle.document_file.specs.Ranges.{start_of};
ghost use Rattle.document_file.specs.Sums.{has_sums};
ghost use Rattle.document_file.specs.Sound.{IsBlockTable, IsSound, IsFormed, IsTurning, disk_of};
ghost use Rattle.document_file.specs.Documents.{entries_of, directory_of_table, IsStored, document_in};
ghost use Rattle.document_file.specs.Slots.{block_extents, referenced_extents};
ghost use Rattle.document_file.specs.Disk.{KeepsCommitted};
ghost use Rattle.document_file.specs.PendingDirectories.{IsMadeDirectory, IsPendingDirectory, IsSavedAnew, IsSpared};

use crate::extent::write_extent;
use crate::slot::Slots;
use crate::sums::{has_sums, sum_for};
use crate::table::{BlockTable, DocumentRef, Place, shared_copy};
use file_format::{Entry, Extent, begin_directory, push_entry};
use file_space::{FreeSpace, MOST_EXTENTS};
use geos_model::{Fault, VmHandle};
use std::alloc::{AllocError, Global};
use vm_store::Store;

fn entry_of(handle: u16, place: Place) -> Entry
    ensures entry { result ≡ record {
      handle = record { 0 = handle };
      attributes = place.attributes;
      extent = place.extent;
      sum = place.sum;
    } }
    ensures attributes { FitAttributes result.attributes }
{
    Entry {
        handle: VmHandle(handle),
        attributes: place.attributes,
        extent: place.extent,
        sum: place.sum,
    }
}

// How many blocks a table has.
fn block_count(places: &[Option<Place>]) -> usize
    ensures { result ≡ count_by is_some places.now }
{
    places.iter().filter(|place| place.is_some()).count()
}

/// The text of a table's directory, in a version. It takes no more memory than the text needs.
pub fn directory_text_of(
    alloc: Global,
    version: u8,
    table: &BlockTable,
) -> Result<Vec<u8>, AllocError>
    requires { length table.now.places.items ≤ most_blocks }
    ensures text { IfOk result (λ text. text.items ≡ directory_text (directory_of_table version table.now)) }
    ensures attributes { OnOk result (All (λ e. FitAttributes e.attributes) (entries_of 1 table.now.places.items)) }
{
    let places = &table.places;
    let mut text = begin_directory(
        alloc,
        version,
        VmHandle(table.map_block),
        block_count(places),
    )?;
    for (i, place) in places.iter().enumerate() {
        if let Some(place) = place {
            push_entry(&mut text, version, &entry_of(i as u16 + 1, *place))?;
        }
    }
    Ok(text)
}

/// A directory that is to be written.
#[derive(Drop)]
pub struct PendingDirectory {
    pub document: DocumentRef,
    pub text: Vec<u8>,
}

/// The directory of a table in the version that commits write, in the first extent that is free, which is taken then.
/// It takes all the memory that writing it needs.
fn place_directory(
    alloc: Global,
    table: &BlockTable,
    slots: &Slots,
    space: &mut FreeSpace,
) -> Result<PendingDirectory, AllocError>
    requires size { length table.now.places.items ≤ most_blocks }
    requires few { space.old.count < MOST_EXTENTS }
    ensures made { IfOk result (λ pending. IsMadeDirectory table.now slots.now pending) }
    ensures placed { IfOk result (λ pending. (taken : List Extent) → AreTaken taken space.old
        → IsFirstFit taken (length pending.text.items) pending.document.directory
        × AreTaken (pending.document.directory ∷ taken) space.new) }
{
    let version = slots.next_version;
    let text = directory_text_of(alloc, version, table)?;
    let sum = sum_for(has_sums(version), &text);
    let directory = space.take(text.len() as u32)?;
    let table = shared_copy(alloc, table)?;
    Ok(PendingDirectory {
        document: DocumentRef {
            directory,
            sum,
            table,
        },
        text,
    })
}

/// The directory of the live table, whose place is taken then. It takes all the memory that writing it needs.
pub fn pending_directory_of(
    alloc: Global,
    live: &BlockTable,
    slots: &Slots,
    space: &mut FreeSpace,
) -> Result<PendingDirectory, AllocError>
    requires formed { IsFormed live.now slots.now }
    requires known { AreTaken (block_extents live.now.places.items ++ referenced_extents slots.now) space.old }
    ensures pending { IfOk result (λ pending. IsPendingDirectory live.now slots.now pending) }
    ensures taken { IfOk result (λ pending. AreTaken (pending.document.directory
        ∷ (block_extents live.now.places.items ++ referenced_extents slots.now)) space.new) }
{
    let pending = place_directory(alloc, live, slots, space)?;
    Ok(pending)
}

/// The directory of the saved document with the sums that the file gets by a commit that keeps that document. None
/// where it gets none, or where the commit `saves`.
pub fn saved_anew(
    alloc: Global,
    slots: &Slots,
    saves: bool,
    space: &mut FreeSpace,
) -> Result<Option<PendingDirectory>, AllocError>
    // Asked of the caller.
    requires table { IsBlockTable slots.now.committed.saved.table.value }
    requires turning { IsTurning slots.now slots.now.saved_sums }
    requires few { space.old.count < MOST_EXTENTS }
    // The directory.
    ensures none { IfOk result (λ o. o ≡ None
        → (saves ≡ true) ⊎ (has_sums slots.now.next_version ≡ has_sums slots.now.version)) }
    ensures untouched { IfOk result (λ o. o ≡ None → space.new ≡ space.old) }
    ensures made { IfOk result (λ o. IfSome o (IsSavedAnew slots.now)) }
    ensures keeps { IfOk result (λ o. IfSome o (λ _. saves ≡ false)) }
    ensures placed { IfOk result (λ o. IfSome o (λ pending. (taken : List Extent) → AreTaken taken space.old
        → IsFirstFit taken (length pending.text.items) pending.document.directory)) }
{
    if saves {
        return Ok(None);
    }
    match &slots.saved_sums {
        Some(table) => {
            let saved = place_directory(alloc, table, slots, space)?;
            Ok(Some(saved))
        }
        None => Ok(None),
    }
}

/// Writes the directory. Nothing else changes. File.
pub fn write_pending<S: Store>(
    store: &mut S,
    slots: &Slots,
    live: &BlockTable,
    pending: &PendingDirectory,
) -> Result<(), Fault>
    // Asked of the caller.
    requires sound { IsSound (S.facts store.old) live.now slots.now }
    requires pending { IsPendingDirectory live.now slots.now pending.now }
    // The file.
    ensures passes { KeepsCommitted S.facts (disk_of S.facts store.old slots.now)
        (disk_of S.facts store.new slots.now) }
    ensures sound { IsSound (S.facts store.new) live.now slots.now }
    ensures same { IsTrue (S.facts store.old).honest
        → document_in (S.facts store.new).content live.now ≡ document_in (S.facts store.old).content live.now }
    // The directory.
    ensures written { OnOk result (IsTrue (S.facts store.old).honest
        → IsStored slots.now.next_version (S.facts store.new).content pending.now.document) }
    ensures elsewhere { IsTrue (S.facts store.old).honest
        → Torn (start_of pending.now.document.directory) pending.now.document.directory.length
        (S.facts store.old).content (S.facts store.new).content }
    // Refusals.
    ensures file { IsErrOf result Fault.File → FailedSince (S.facts store.old) (S.facts store.new) }
    ensures refusals { IfErr result (λ fault. fault ≡ Fault.File) }
{
    let _ = live;
    write_extent(store, slots, pending.document.directory, &pending.text)?;
    Ok(())
}

/// Writes the directory of the saved document with its sums. Nothing else changes. File.
pub fn write_saved<S: Store>(
    store: &mut S,
    slots: &Slots,
    live: &BlockTable,
    saved: &PendingDirectory,
) -> Result<(), Fault>
    // Asked of the caller.
    requires sound { IsSound (S.facts store.old) live.now slots.now }
    requires made { IsSavedAnew slots.now saved.now }
    requires spared { IsSpared live.now slots.now saved.now }
    // The file.
    ensures passes { KeepsCommitted S.facts (disk_of S.facts store.old slots.now)
        (disk_of S.facts store.new slots.now) }
    ensures sound { IsSound (S.facts store.new) live.now slots.now }
    ensures same { IsTrue (S.facts store.old).honest
        → document_in (S.facts store.new).content live.now ≡ document_in (S.facts store.old).content live.now }
    // The directory.
    ensures written { OnOk result (IsTrue (S.facts store.old).honest
        → IsStored slots.now.next_version (S.facts store.new).content saved.now.document) }
    // Refusals.
    ensures file { IsErrOf result Fault.File → FailedSince (S.facts store.old) (S.facts store.new) }
    ensures refusals { IfErr result (λ fault. fault ≡ Fault.File) }
{
    let _ = live;
    write_extent(store, slots, saved.document.directory, &saved.text)?;
    Ok(())
}
