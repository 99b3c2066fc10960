//! Commits of the saved document, by which a file may get sums.
ghost use Rattle.std.specs.Prelude.{◌≡◌, ◌⊎◌, ◌++◌, ◌<◌, All, IsTrue, IfSome, IfOk, IfErr, IsErrOf, OnOk, None, length};
ghost use Rattle.vm_store.specs.Facts.{FailedSince};
ghost use Rattle.document_file.specs.Calls.{last_sequence};
ghost use Rattle.document_file.specs.Copies.{IsSameStored};
ghost use Rattle.document_file.specs.Disk.{KeepsCommitted, MayCommit};
ghost use Rattle.document_file.specs.Documents.{document_in, IsStored};
ghost use Rattle.document_file.specs.FreeSpace.{IsSpaceOf};
ghost use Rattle.document_file.specs.PendingDirectories.{IsSavedAnew, IsSpared, reverted};
ghost use Rattle.document_file.specs.Slots.{block_extents, referenced_extents, switched, IsKeptBehind, IsShutBehind};
ghost use Rattle.document_file.specs.Sound.{IsFormed, IsSound, disk_of};
ghost use Rattle.document_file.specs.Sums.{has_sums};

use crate::commit::commit_pair;
use crate::directory::{PendingDirectory, saved_anew, write_saved};
use crate::placing::known_space;
use crate::slot::Slots;
use crate::table::{BlockTable, Pair, both_of};
use file_space::FreeSpace;
use geos_model::Fault;
use std::alloc::{AllocError, Global};
use vm_store::Store;

/// The directory of the saved document with the sums that the file gets, and None where it gets none. Only where it
/// does the free space is looked at.
pub fn reverted_anew(
    alloc: Global,
    live: &BlockTable,
    slots: &Slots,
    space: Option<FreeSpace>,
) -> Result<Option<PendingDirectory>, AllocError>
    // Asked of the caller.
    requires formed { IsFormed live.now slots.now }
    requires known { IsSpaceOf (block_extents live.now.places.items ++ referenced_extents slots.now) space }
    // The directory.
    ensures none { IfOk result (λ o. o ≡ None → has_sums slots.now.next_version ≡ has_sums slots.now.version) }
    ensures made { IfOk result (λ o. IfSome o (IsSavedAnew slots.now)) }
    ensures spared { IfOk result (λ o. IfSome o (IsSpared live.now slots.now)) }
{
    if slots.saved_sums.is_none() {
        return Ok(None);
    }
    let mut space = known_space(alloc, &live.places, slots, space)?;
    let saved = saved_anew(alloc, slots, false, &mut space)?;
    Ok(saved)
}

/// The saved document twice, with the directory that it gets, if it gets one.
pub fn reverted_pair(slots: &Slots, anew: &Option<PendingDirectory>) -> Result<Pair, AllocError>
    ensures updated { IfOk result (λ pair. IsSameStored pair.updated (reverted slots.now anew.now)) }
    ensures saved { IfOk result (λ pair. IsSameStored pair.saved (reverted slots.now anew.now)) }
{
    match anew {
        Some(saved) => both_of(&saved.document),
        None => both_of(&slots.committed.saved),
    }
}

// Writes the directory that the saved document gets, if it gets one. Nothing else changes. File.
fn write_anew<S: Store>(
    store: &mut S,
    slots: &Slots,
    live: &BlockTable,
    anew: &Option<PendingDirectory>,
) -> Result<(), Fault>
    // Asked of the caller.
    requires sound { IsSound (S.facts store.old) live.now slots.now }
    requires none { anew.now ≡ None → has_sums slots.now.next_version ≡ has_sums slots.now.version }
    requires made { IfSome anew.now (IsSavedAnew slots.now) }
    requires spared { IfSome anew.now (IsSpared live.now slots.now) }
    // The file.
    ensures passes { KeepsCommitted S.facts (disk_of S.facts store.old slots.now)
        (disk_of S.facts store.new slots.now) }
    ensures sound { IsSound (S.facts store.new) live.now slots.now }
    ensures same { IsTrue (S.facts store.old).honest
        → document_in (S.facts store.new).content live.now ≡ document_in (S.facts store.old).content live.now }
    // The saved document.
    ensures stored { OnOk result (IsTrue (S.facts store.new).honest
        → IsStored slots.now.next_version (S.facts store.new).content (reverted slots.now anew.now)) }
    // Refusals.
    ensures file { IsErrOf result Fault.File → FailedSince (S.facts store.old) (S.facts store.new) }
    ensures refusals { IfErr result (λ fault. fault ≡ Fault.File) }
{
    match anew {
        Some(saved) => write_saved(store, slots, live, saved),
        None => Ok(()),
    }
}

/// Commits the saved document as the updated one too, once the directory is written that it gets, if it gets one. The
/// live document stays. File.
pub fn commit_reverted<S: Store>(
    store: &mut S,
    slots: &mut Slots,
    live: &BlockTable,
    pair: Pair,
    anew: Option<PendingDirectory>,
) -> Result<(), Fault>
    // Asked of the caller.
    requires sound { IsSound (S.facts store.old) live.now slots.old }
    requires sequence { slots.old.sequence < last_sequence }
    requires none { anew ≡ None → has_sums slots.old.next_version ≡ has_sums slots.old.version }
    requires made { IfSome anew (IsSavedAnew slots.old) }
    requires spared { IfSome anew (IsSpared live.now slots.old) }
    requires updated { IsSameStored pair.updated (reverted slots.old anew) }
    requires saved { IsSameStored pair.saved (reverted slots.old anew) }
    // The commit.
    ensures commits { MayCommit S.facts (
      document_in (S.facts store.old).content slots.old.committed.saved.table.value,
      document_in (S.facts store.old).content slots.old.committed.saved.table.value,
    )
        (disk_of S.facts store.old slots.old) (disk_of S.facts store.new slots.new) result }
    ensures sound { IsSound (S.facts store.new) live.now slots.new }
    ensures same { IsTrue (S.facts store.old).honest
        → document_in (S.facts store.new).content live.now ≡ document_in (S.facts store.old).content live.now }
    // Where it is acknowledged.
    ensures switched { OnOk result (slots.new ≡ switched slots.old pair) }
    ensures shut { OnOk result (IsShutBehind (S.facts store.old) (S.facts store.new) slots.old) }
    ensures kept { OnOk result (IsKeptBehind (S.facts store.old) (S.facts store.new) slots.old) }
    // Refusals.
    ensures file { IsErrOf result Fault.File → FailedSince (S.facts store.old) (S.facts store.new) }
    ensures refusals { IfErr result (λ fault. fault ≡ Fault.File) }
{
    write_anew(store, slots, live, &anew)?;
    commit_pair(store, slots, pair, live)
}
