//! Commits: the steps through the slots, and what they make of the documents.
ghost use Rattle.std.specs.Prelude.{if◌then◌else◌, IfOk, ◌≡◌, ◌≤◌, ◌↔◌, ◌⊎◌, ◌+◌, ◌∷◌, [], ◌*◌, ◌<◌, ℕ, List, All, IsTrue, OnOk, OnErr, MatchResult, length, IfErr, IsErrOf};
ghost use Rattle.vm_store.specs.Facts.{raised, IsDurable, Torn, Holds, Counts, FailedSince};
ghost use Rattle.file_format.specs.File.{slot_mark};
ghost use Rattle.document_file.specs.Ranges.{start_of, IsClear, IsPlaced, KeepsAll};
ghost use Rattle.document_file.specs.Calls.{last_sequence};
ghost use Rattle.document_file.specs.Sound.{AreTables, IsBlockTable, IsFormed, IsWhole, IsSound, disk_of};
ghost use Rattle.document_file.specs.Documents.{document_in, documents_in, AreStored, IsStored};
ghost use Rattle.vm_store.specs.Laws.{Tears};
ghost use Rattle.document_file.specs.Slots.{behind_gate, pair_extents, stored_extents, spare_of, switched, AreExtentsPlaced, CrashLeavesSlots, Outlives, FailedEarly, Failed, LeftBy, GivesSums, CrashLeavesShut, IsKeptBehind, IsShutBehind};
ghost use Rattle.document_file.specs.Disk.{MayCommit};
ghost use Rattle.document_file.specs.PendingDirectories.{IsPendingDirectory, IsSavedAnew, IsSpared};
ghost use Rattle.document_file.specs.Copies.{IsSameStored};
ghost use Rattle.document_file.specs.Sums.{has_sums};

use crate::directory::{PendingDirectory, write_pending, write_saved};
use crate::slot::{Slots, SpareSlot, behind_gate, is_shut, slot_bytes, spare_gate, spare_slot};
use crate::sums::has_sums;
use crate::table::{BlockTable, DocumentRef, Pair, share};
use file_format::SLOT_MARK;
use geos_model::Fault;
use std::alloc::AllocError;
use vm_store::{Store, StoreFault};

// Writes these bytes, and syncs.
fn write_through<S: Store>(store: &mut S, at: u64, bytes: &[u8]) -> Result<(), StoreFault>
    ensures honest { (S.facts store.new).honest ≡ (S.facts store.old).honest }
    ensures failures { Counts result (S.facts store.old) (S.facts store.new) }
    ensures tears { IsTrue (S.facts store.old).honest
        → Tears at (length bytes.now) (S.facts store.old) (S.facts store.new) }
    ensures written { OnOk result (IsTrue (S.facts store.old).honest → Holds (S.facts store.new).content at bytes.now) }
    ensures durable { OnOk result (IsTrue (S.facts store.old).honest → IsDurable (S.facts store.new)) }
{
    store.write_at(at, bytes)?;
    store.sync()
}

// Shuts the gate of the other slot. Until that is on the disk, what is known of the slot stays. A gate that is shut
// isn't written, since it could be torn open.
fn shut_gate<S: Store>(store: &mut S, slots: &mut Slots) -> Result<(), StoreFault>
    // Asked of the caller.
    requires kept { AreExtentsPlaced slots.old }
    // The store.
    ensures honest { (S.facts store.new).honest ≡ (S.facts store.old).honest }
    ensures failures { MatchResult result (λ _. (S.facts store.new).failures ≡ (S.facts store.old).failures)
        (λ _. (S.facts store.new).failures ≡ raised (S.facts store.old).failures) }
    // What is known of the slots.
    ensures ok { OnOk result (slots.new ≡ record slots.old { spare = SpareSlot.Shut }) }
    ensures err { OnErr result (slots.new ≡ slots.old) }
    // Crashes.
    ensures elsewhere { IsTrue (S.facts store.old).honest
        → Torn 0 1024 (S.facts store.old).content (S.facts store.new).content }
    ensures crash { (file : List ℕ) → IsTrue (S.facts store.old).honest
        → CrashLeavesSlots (S.facts store.old) slots.old file
        → Outlives (S.facts store.old) (S.facts store.new) file (λ s. s ≡ slots.old) }
    ensures leaves { (file : List ℕ) → IsTrue (S.facts store.old).honest
        → CrashLeavesSlots (S.facts store.old) slots.old file
        → CrashLeavesSlots (S.facts store.new) slots.new file }
{
    if is_shut(&slots.spare) {
        return Ok(());
    }
    write_through(store, spare_gate(slots), &[0])?;
    slots.spare = SpareSlot::Shut;
    Ok(())
}

// Writes the other slot but for its gate, which is shut and stays so.
fn fill_slot<S: Store>(store: &mut S, slots: &Slots, pair: &Pair) -> Result<(), StoreFault>
    // Asked of the caller.
    requires shut { slots.now.spare ≡ SpareSlot.Shut }
    requires sequence { slots.now.sequence < last_sequence }
    requires kept { AreExtentsPlaced slots.now }
    // The store.
    ensures honest { (S.facts store.new).honest ≡ (S.facts store.old).honest }
    ensures failures { Counts result (S.facts store.old) (S.facts store.new) }
    // Crashes.
    ensures elsewhere { IsTrue (S.facts store.old).honest
        → Torn 0 1024 (S.facts store.old).content (S.facts store.new).content }
    ensures crash { (file : List ℕ) → IsTrue (S.facts store.old).honest
        → CrashLeavesSlots (S.facts store.old) slots.now file
        → Outlives (S.facts store.old) (S.facts store.new) file (λ s. s ≡ slots.now) }
    ensures leaves { (file : List ℕ) → IsTrue (S.facts store.old).honest
        → CrashLeavesSlots (S.facts store.old) slots.now file
        → CrashLeavesSlots (S.facts store.new) slots.now file }
    // What stands in the slot.
    ensures marked { OnOk result (IsTrue (S.facts store.old).honest
        → Holds (S.facts store.new).content (512 * spare_of slots.now) slot_mark) }
    ensures rest { OnOk result (IsTrue (S.facts store.old).honest
        → Holds (S.facts store.new).content (512 * spare_of slots.now + 5)
        (behind_gate slots.now.next_version (slots.now.sequence + 1) pair.now)) }
    ensures durable { OnOk result (IsTrue (S.facts store.old).honest → IsDurable (S.facts store.new)) }
{
    let text = slot_bytes(slots.next_version, slots.sequence + 1, pair);
    store.write_at(spare_slot(slots), &SLOT_MARK)?;
    write_through(store, spare_gate(slots) + 1, behind_gate(&text))
}

// Opens the gate of the other slot, which is whole but for that. From here on what it leads to may be read.
fn open_gate<S: Store>(store: &mut S, slots: &mut Slots, pair: Pair) -> Result<(), StoreFault>
    // Asked of the caller.
    requires sequence { slots.old.sequence < last_sequence }
    requires kept { AreExtentsPlaced slots.old }
    requires placed { All IsPlaced (pair_extents pair) }
    // The store.
    ensures honest { (S.facts store.new).honest ≡ (S.facts store.old).honest }
    ensures failures { Counts result (S.facts store.old) (S.facts store.new) }
    // What is known of the slots.
    ensures ok { OnOk result (slots.new ≡ switched slots.old pair) }
    ensures err { OnErr result (slots.new ≡ record slots.old { spare = SpareSlot.Prepared pair }) }
    // Crashes.
    ensures elsewhere { IsTrue (S.facts store.old).honest
        → Torn 0 1024 (S.facts store.old).content (S.facts store.new).content }
    ensures crash { (file : List ℕ) → IsTrue (S.facts store.old).honest
        → CrashLeavesSlots (S.facts store.old) (record slots.old { spare = SpareSlot.Prepared pair }) file
        → Outlives (S.facts store.old) (S.facts store.new) file
        (λ s. s ≡ record slots.old { spare = SpareSlot.Prepared pair }) }
    ensures leaves { (file : List ℕ) → IsTrue (S.facts store.old).honest
        → CrashLeavesSlots (S.facts store.old) (record slots.old { spare = SpareSlot.Prepared pair }) file
        → CrashLeavesSlots (S.facts store.new) slots.new file }
    // the slot that counted is as it was
    ensures still { (file : List ℕ) → IsTrue (S.facts store.old).honest
        → CrashLeavesSlots (S.facts store.old) (record slots.old { spare = SpareSlot.Prepared pair }) file
        → CrashLeavesSlots (S.facts store.new) (record slots.old { spare = SpareSlot.Prepared pair }) file }
{
    match write_through(store, spare_gate(slots), &[1]) {
        Ok(()) => {
            slots.second = !slots.second;
            slots.version = slots.next_version;
            slots.sequence += 1;
            slots.committed = pair;
            slots.spare = SpareSlot::Stale;
            slots.saved_sums = None;
            Ok(())
        }
        Err(fault) => {
            slots.spare = SpareSlot::Prepared(pair);
            Err(fault)
        }
    }
}

// Whether commits write sums and the slot that counts has none.
fn gives_sums(slots: &Slots) -> bool
    ensures { IsTrue result ↔ GivesSums slots.now }
{
    has_sums(slots.next_version) && !has_sums(slots.version)
}

// Shuts the gate of the slot that counted before. What it leads to has no sums, and once its pages are written over
// nothing else would tell. The commit is acknowledged: where the store fails here nothing is refused, and the next
// commit shuts that gate.
fn shut_stale<S: Store>(store: &mut S, slots: &Slots)
    // Asked of the caller.
    requires stale { slots.now.spare ≡ SpareSlot.Stale }
    requires kept { AreExtentsPlaced slots.now }
    // The store.
    ensures honest { (S.facts store.new).honest ≡ (S.facts store.old).honest }
    ensures failures { (S.facts store.old).failures ≤ (S.facts store.new).failures }
    // The gate.
    ensures shut { IsTrue (S.facts store.old).honest → FailedSince (S.facts store.old) (S.facts store.new)
        ⊎ CrashLeavesShut (S.facts store.new) (spare_of slots.now) }
    // Crashes.
    ensures elsewhere { IsTrue (S.facts store.old).honest
        → Torn 0 1024 (S.facts store.old).content (S.facts store.new).content }
    ensures crash { (file : List ℕ) → IsTrue (S.facts store.old).honest
        → CrashLeavesSlots (S.facts store.old) slots.now file
        → Outlives (S.facts store.old) (S.facts store.new) file (λ s. s ≡ slots.now) }
    ensures leaves { (file : List ℕ) → IsTrue (S.facts store.old).honest
        → CrashLeavesSlots (S.facts store.old) slots.now file
        → CrashLeavesSlots (S.facts store.new) slots.now file }
{
    let _ = write_through(store, spare_gate(slots), &[0]);
}

// Makes the slots lead to a pair whose directories and images lie in the file: the other slot is shut where it may be
// open, filled, and opened, each with a sync; where this gives the file sums, the slot that counted before is shut. On
// an error the slot that counts is the same, and so is what it leads to. Where only the last step failed, the pair may
// be found after a crash, and `slots` holds it.
fn commit_slots<S: Store>(store: &mut S, slots: &mut Slots, pair: Pair) -> Result<(), StoreFault>
    // Asked of the caller.
    requires sequence { slots.old.sequence < last_sequence }
    requires kept { AreExtentsPlaced slots.old }
    requires placed { All IsPlaced (pair_extents pair) }
    // The store.
    ensures honest { (S.facts store.new).honest ≡ (S.facts store.old).honest }
    ensures failures { MatchResult result (λ _. (S.facts store.old).failures ≤ (S.facts store.new).failures)
        (λ _. (S.facts store.new).failures ≡ raised (S.facts store.old).failures) }
    // What is known of the slots.
    ensures ok { OnOk result (slots.new ≡ switched slots.old pair) }
    ensures err { OnErr result (Failed slots.old pair slots.new) }
    // where `slots` doesn't hold the pair, a crash found nothing of it
    ensures early { OnErr result ((slots.new ≡ record slots.old { spare = SpareSlot.Prepared pair })
        ⊎ ((file : List ℕ) → IsTrue (S.facts store.old).honest → CrashLeavesSlots (S.facts store.old) slots.old file
        → Outlives (S.facts store.old) (S.facts store.new) file (λ s. FailedEarly slots.old s))) }
    // The slot that counted before.
    ensures shut { OnOk result (IsShutBehind (S.facts store.old) (S.facts store.new) slots.old) }
    ensures still { OnOk result ((file : List ℕ) → IsTrue (S.facts store.old).honest
        → has_sums slots.old.next_version ≡ has_sums slots.old.version
        → CrashLeavesSlots (S.facts store.old) slots.old file
        → KeepsAll (pair_extents pair) file (S.facts store.old).content
        → CrashLeavesSlots (S.facts store.new) (record slots.old { spare = SpareSlot.Prepared pair }) file) }
    // Crashes.
    ensures elsewhere { IsTrue (S.facts store.old).honest
        → Torn 0 1024 (S.facts store.old).content (S.facts store.new).content }
    // `file` is a content that has the bytes of all extents: that at the call, or an earlier one
    ensures crash { (file : List ℕ) → IsTrue (S.facts store.old).honest
        → CrashLeavesSlots (S.facts store.old) slots.old file
        → KeepsAll (pair_extents pair) file (S.facts store.old).content
        → Outlives (S.facts store.old) (S.facts store.new) file (λ s. LeftBy slots.old pair s) }
    ensures leaves { (file : List ℕ) → IsTrue (S.facts store.old).honest
        → CrashLeavesSlots (S.facts store.old) slots.old file
        → KeepsAll (pair_extents pair) file (S.facts store.old).content
        → CrashLeavesSlots (S.facts store.new) slots.new file }
{
    let gives_sums = gives_sums(slots);
    shut_gate(store, slots)?;
    fill_slot(store, slots, &pair)?;
    open_gate(store, slots, pair)?;
    if gives_sums {
        shut_stale(store, slots);
    }
    Ok(())
}

/// Commits a pair of documents that lie in the file. The live document stays. File.
pub fn commit_pair<S: Store>(
    store: &mut S,
    slots: &mut Slots,
    pair: Pair,
    live: &BlockTable,
) -> Result<(), Fault>
    // Asked of the caller.
    requires formed { IsFormed live.now slots.old }
    requires sequence { slots.old.sequence < last_sequence }
    requires tables { AreTables pair }
    requires placed { All IsPlaced (pair_extents pair) }
    requires whole { IsTrue (S.facts store.old).honest → IsWhole (S.facts store.old) live.now slots.old }
    requires stored { IsTrue (S.facts store.old).honest
        → AreStored slots.old.next_version (S.facts store.old).content pair }
    // The commit.
    ensures commits { MayCommit S.facts (documents_in (S.facts store.old).content pair)
        (disk_of S.facts store.old slots.old) (disk_of S.facts store.new slots.new) result }
    ensures sound { IsSound (S.facts store.new) live.now slots.new }
    ensures live { IsTrue (S.facts store.old).honest
        → document_in (S.facts store.new).content live.now ≡ document_in (S.facts store.old).content live.now }
    // Where it is acknowledged.
    ensures switched { OnOk result (slots.new ≡ switched slots.old pair) }
    ensures shut { OnOk result (IsShutBehind (S.facts store.old) (S.facts store.new) slots.old) }
    ensures kept { OnOk result (IsKeptBehind (S.facts store.old) (S.facts store.new) slots.old) }
    // Refusals.
    ensures file { IsErrOf result Fault.File → FailedSince (S.facts store.old) (S.facts store.new) }
    ensures refusals { IfErr result (λ fault. fault ≡ Fault.File) }
{
    let _ = live;
    commit_slots(store, slots, pair)?;
    Ok(())
}

/// The saved document beside a pending one: the pending one where the commit `saves`, else the one that was saved.
pub fn saved_beside(
    pending: &PendingDirectory,
    slots: &Slots,
    saves: bool,
) -> Result<DocumentRef, AllocError>
    ensures { IfOk result
        (λ saved. IsSameStored saved (if saves then pending.now.document else slots.now.committed.saved)) }
{
    if saves {
        share(&pending.document)
    } else {
        share(&slots.committed.saved)
    }
}

/// Writes the directory and commits its document as the updated one, with a saved one. The live document stays. File.
pub fn commit_pending<S: Store>(
    store: &mut S,
    slots: &mut Slots,
    live: &BlockTable,
    pending: PendingDirectory,
    saved: DocumentRef,
) -> Result<(), Fault>
    // Asked of the caller.
    requires sound { IsSound (S.facts store.old) live.now slots.old }
    requires sequence { slots.old.sequence < last_sequence }
    requires pending { IsPendingDirectory live.now slots.old pending }
    requires saved { ((has_sums slots.old.next_version ≡ has_sums slots.old.version)
        × IsSameStored saved slots.old.committed.saved) ⊎ IsSameStored saved pending.document }
    // The commit.
    ensures commits { MayCommit S.facts
        (document_in (S.facts store.old).content live.now, document_in (S.facts store.old).content saved.table.value)
        (disk_of S.facts store.old slots.old) (disk_of S.facts store.new slots.new) result }
    ensures sound { IsSound (S.facts store.new) live.now slots.new }
    ensures same { IsTrue (S.facts store.old).honest
        → document_in (S.facts store.new).content live.now ≡ document_in (S.facts store.old).content live.now }
    // Where it is acknowledged.
    ensures switched { OnOk result
        (slots.new ≡ switched slots.old (record { updated = pending.document; saved = saved })) }
    ensures shut { OnOk result (IsShutBehind (S.facts store.old) (S.facts store.new) slots.old) }
    ensures kept { OnOk result (IsKeptBehind (S.facts store.old) (S.facts store.new) slots.old) }
    // Refusals.
    ensures file { IsErrOf result Fault.File → FailedSince (S.facts store.old) (S.facts store.new) }
    ensures refusals { IfErr result (λ fault. fault ≡ Fault.File) }
{
    write_pending(store, slots, live, &pending)?;
    let pair = Pair {
        updated: pending.document,
        saved,
    };
    commit_pair(store, slots, pair, live)
}

/// Writes the directory and commits its document as the updated one, with a saved one that lies in the file. The live
/// document stays. File.
fn commit_beside<S: Store>(
    store: &mut S,
    slots: &mut Slots,
    live: &BlockTable,
    pending: PendingDirectory,
    saved: DocumentRef,
) -> Result<(), Fault>
    // Asked of the caller.
    requires sound { IsSound (S.facts store.old) live.now slots.old }
    requires sequence { slots.old.sequence < last_sequence }
    requires pending { IsPendingDirectory live.now slots.old pending }
    requires table { IsBlockTable saved.table.value }
    requires placed { All IsPlaced (stored_extents saved) }
    requires stored { IsTrue (S.facts store.old).honest
        → IsStored slots.old.next_version (S.facts store.old).content saved }
    requires apart { IsClear (start_of pending.document.directory) pending.document.directory.length
        (stored_extents saved) }
    // The commit.
    ensures commits { MayCommit S.facts
        (document_in (S.facts store.old).content live.now, document_in (S.facts store.old).content saved.table.value)
        (disk_of S.facts store.old slots.old) (disk_of S.facts store.new slots.new) result }
    ensures sound { IsSound (S.facts store.new) live.now slots.new }
    ensures same { IsTrue (S.facts store.old).honest
        → document_in (S.facts store.new).content live.now ≡ document_in (S.facts store.old).content live.now }
    // Where it is acknowledged.
    ensures switched { OnOk result
        (slots.new ≡ switched slots.old (record { updated = pending.document; saved = saved })) }
    ensures shut { OnOk result (IsShutBehind (S.facts store.old) (S.facts store.new) slots.old) }
    ensures kept { OnOk result (IsKeptBehind (S.facts store.old) (S.facts store.new) slots.old) }
    // Refusals.
    ensures file { IsErrOf result Fault.File → FailedSince (S.facts store.old) (S.facts store.new) }
    ensures refusals { IfErr result (λ fault. fault ≡ Fault.File) }
{
    write_pending(store, slots, live, &pending)?;
    let pair = Pair {
        updated: pending.document,
        saved,
    };
    commit_pair(store, slots, pair, live)
}

/// Writes both directories in a version with sums and commits their documents, the live one as the updated one. File.
pub fn commit_summed<S: Store>(
    store: &mut S,
    slots: &mut Slots,
    live: &BlockTable,
    pending: PendingDirectory,
    saved: PendingDirectory,
) -> Result<(), Fault>
    // Asked of the caller.
    requires sound { IsSound (S.facts store.old) live.now slots.old }
    requires sequence { slots.old.sequence < last_sequence }
    requires pending { IsPendingDirectory live.now slots.old pending }
    requires made { IsSavedAnew slots.old saved }
    requires spared { IsSpared live.now slots.old saved }
    requires apart { IsClear (start_of saved.document.directory) saved.document.directory.length
        (pending.document.directory ∷ []) }
    // The commit.
    ensures commits { MayCommit S.facts (
      document_in (S.facts store.old).content live.now,
      document_in (S.facts store.old).content slots.old.committed.saved.table.value,
    )
        (disk_of S.facts store.old slots.old) (disk_of S.facts store.new slots.new) result }
    ensures sound { IsSound (S.facts store.new) live.now slots.new }
    ensures same { IsTrue (S.facts store.old).honest
        → document_in (S.facts store.new).content live.now ≡ document_in (S.facts store.old).content live.now }
    // Where it is acknowledged.
    ensures switched { OnOk result
        (slots.new ≡ switched slots.old (record { updated = pending.document; saved = saved.document })) }
    ensures shut { OnOk result (IsShutBehind (S.facts store.old) (S.facts store.new) slots.old) }
    ensures kept { OnOk result (IsKeptBehind (S.facts store.old) (S.facts store.new) slots.old) }
    // Refusals.
    ensures file { IsErrOf result Fault.File → FailedSince (S.facts store.old) (S.facts store.new) }
    ensures refusals { IfErr result (λ fault. fault ≡ Fault.File) }
{
    write_saved(store, slots, live, &saved)?;
    commit_beside(store, slots, live, pending, saved.document)
}
