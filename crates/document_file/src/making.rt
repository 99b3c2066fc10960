//! The making of a file.
ghost use Rattle.std.specs.Prelude.{◌≡◌, ◌≢◌, ◌≤◌, ℕ, List, [], ◌∷◌, IsTrue, OnOk, IfOk, IfErr, IsErrOf, length};
ghost use Rattle.file_format.specs.File.{directory_text, slot_mark};
ghost use Rattle.vm_store.specs.Facts.{IsDurable, WritesBytes, Counts, FailedSince};
ghost use Rattle.file_format.specs.Reading.{IsResourceFault};
ghost use Rattle.document_file.specs.Making.{first_directory, first_slot, first_file, no_blocks, IsLaid, IsNewSlots};
ghost use Rattle.document_file.specs.Sound.{IsSound};

use crate::slot::{Slots, SpareSlot, first_slot_bytes};
use crate::sums::{sum_for, version_for};
use crate::table::{BlockTable, DocumentRef, both_of, shared_copy};
use file_format::{Extent, PAGE, SLOT_MARK, start_of, write_dir};
use geos_model::{Fault, VmHandle};
use std::alloc::{AllocError, Global};
use vm_store::{Store, StoreFault};

/// What is known in memory of a file that was made.
#[derive(Drop)]
pub struct NewFile {
    pub live: BlockTable,
    pub slots: Slots,
}

/// A table of no block. It takes no memory.
fn empty_table(alloc: Global) -> BlockTable
    ensures map_block { result.map_block ≡ 0 }
    ensures places { result.places.items ≡ [] }
{
    BlockTable {
        map_block: 0,
        places: Vec::new(alloc),
    }
}

/// The slots of a file whose document is updated and saved, under the number 1, with a directory of this text.
pub fn first_slots(
    alloc: Global,
    checksums: bool,
    live: BlockTable,
    directory: Extent,
    text: &[u8],
) -> Result<NewFile, AllocError>
    ensures live { IfOk result (λ made. made.live ≡ live) }
    ensures first { IfOk result (λ made. IsNewSlots checksums directory text.now live made.slots) }
{
    let table = shared_copy(alloc, &live)?;
    let stored = DocumentRef {
        directory,
        sum: sum_for(checksums, text),
        table,
    };
    let committed = both_of(&stored)?;
    let version = version_for(checksums);
    let slots = Slots {
        second: false,
        version,
        next_version: version,
        sequence: 1,
        committed,
        spare: SpareSlot::Shut,
        marked: None,
        saved_sums: None,
    };
    Ok(NewFile { live, slots })
}

// Writes the slots, with their gates shut, into a file that has room for both.
fn write_slots<S: Store>(store: &mut S, slots: &Slots) -> Result<(), StoreFault>
    ensures honest { (S.facts store.new).honest ≡ (S.facts store.old).honest }
    ensures failures { Counts result (S.facts store.old) (S.facts store.new) }
    ensures first { OnOk result (IsTrue (S.facts store.old).honest
        → (c : List ℕ) × WritesBytes 0 (first_slot slots.now.version slots.now.committed) (S.facts store.old).content c
        × WritesBytes 512 slot_mark c (S.facts store.new).content) }
    ensures durable { OnOk result (IsTrue (S.facts store.old).honest → IsDurable (S.facts store.new)) }
{
    store.write_at(0, &first_slot_bytes(slots.version, &slots.committed))?;
    store.write_at(u64::from(PAGE), &SLOT_MARK)?;
    store.sync()
}

// Writes all of a first file but its images and its gate, and syncs.
fn write_with_gate_shut<S: Store>(
    store: &mut S,
    slots: &Slots,
    text: &[u8],
) -> Result<(), StoreFault>
    requires behind { 2 ≤ slots.now.committed.updated.directory.page }
    ensures honest { (S.facts store.new).honest ≡ (S.facts store.old).honest }
    ensures failures { Counts result (S.facts store.old) (S.facts store.new) }
    ensures laid { OnOk result (IsTrue (S.facts store.old).honest
        → IsLaid 0 slots.now.version slots.now.committed text.now (S.facts store.old).content
        (S.facts store.new).content) }
    ensures durable { OnOk result (IsTrue (S.facts store.old).honest → IsDurable (S.facts store.new)) }
{
    store.write_at(start_of(slots.committed.updated.directory), text)?;
    write_slots(store, slots)
}

// Opens the gate of slot 0, with which the file is a document.
fn open_first<S: Store>(store: &mut S) -> Result<(), StoreFault>
    ensures honest { (S.facts store.new).honest ≡ (S.facts store.old).honest }
    ensures failures { Counts result (S.facts store.old) (S.facts store.new) }
    ensures opened { OnOk result (IsTrue (S.facts store.old).honest
        → WritesBytes 4 (1 ∷ []) (S.facts store.old).content (S.facts store.new).content) }
    ensures durable { OnOk result (IsTrue (S.facts store.old).honest → IsDurable (S.facts store.new)) }
{
    store.write_at(4, &[1])?;
    store.settle()
}

/// Writes the directory and the slots of a first file, whose images lie there: both gates are shut until all of it is
/// on the disk, and then that of slot 0 is opened.
pub fn initialize<S: Store>(store: &mut S, slots: &Slots, text: &[u8]) -> Result<(), StoreFault>
    requires behind { 2 ≤ slots.now.committed.updated.directory.page }
    ensures honest { (S.facts store.new).honest ≡ (S.facts store.old).honest }
    ensures failures { Counts result (S.facts store.old) (S.facts store.new) }
    ensures laid { OnOk result (IsTrue (S.facts store.old).honest
        → IsLaid 1 slots.now.version slots.now.committed text.now (S.facts store.old).content
        (S.facts store.new).content) }
    ensures durable { OnOk result (IsTrue (S.facts store.old).honest → IsDurable (S.facts store.new)) }
{
    write_with_gate_shut(store, slots, text)?;
    open_first(store)
}

/// Takes all bytes away. File.
pub fn empty<S: Store>(store: &mut S) -> Result<(), Fault>
    ensures honest { (S.facts store.new).honest ≡ (S.facts store.old).honest }
    ensures failures { (S.facts store.old).failures ≤ (S.facts store.new).failures }
    ensures empty { OnOk result (IsTrue (S.facts store.old).honest → (S.facts store.new).content ≡ []) }
    ensures file { IsErrOf result Fault.File → FailedSince (S.facts store.old) (S.facts store.new) }
    ensures refusals { IfErr result (λ fault. fault ≡ Fault.File) }
{
    store.set_len(0)?;
    Ok(())
}

/// Makes the store a file of no block, of 1,040 bytes, with sums or without. All memory is taken before the store is
/// called.
pub fn make_empty<S: Store>(alloc: Global, store: &mut S, checksums: bool) -> Result<NewFile, Fault>
    // The store.
    ensures honest { (S.facts store.new).honest ≡ (S.facts store.old).honest }
    ensures failures { (S.facts store.old).failures ≤ (S.facts store.new).failures }
    // The file.
    ensures sound { IfOk result (λ made. IsSound (S.facts store.new) made.live made.slots) }
    ensures map_block { IfOk result (λ made. made.live.map_block ≡ 0) }
    ensures places { IfOk result (λ made. made.live.places.items ≡ []) }
    ensures first { IfOk result (λ made. IsNewSlots checksums first_directory (directory_text (no_blocks checksums))
        made.live made.slots) }
    ensures bytes { IfOk result (λ made. IsTrue (S.facts store.old).honest
        → (S.facts store.new).content ≡ first_file checksums) }
    ensures size { IfOk result (λ made. IsTrue (S.facts store.old).honest → length (S.facts store.new).content ≡ 1040) }
    // Refusals.
    ensures early { IfErr result (λ fault. fault ≢ Fault.File → store.new ≡ store.old) }
    ensures file { IsErrOf result Fault.File → FailedSince (S.facts store.old) (S.facts store.new) }
    ensures refusals { IfErr result IsResourceFault }
{
    let directory = Extent {
        page: 2,
        length: 16,
    };
    let live = empty_table(alloc);
    let text = write_dir(alloc, version_for(checksums), VmHandle(0), &[])?;
    let made = first_slots(alloc, checksums, live, directory, &text)?;
    empty(store)?;
    initialize(store, &made.slots, &text)?;
    Ok(made)
}
