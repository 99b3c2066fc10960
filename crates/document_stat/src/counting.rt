//! The slot that counts, and its directories.
ghost use Rattle.std.specs.Prelude.{◌≡◌, IsTrue, IfOk, IfErr, IsErrOf, length};
ghost use Rattle.vm_store.specs.Facts.{FailedSince};
ghost use Rattle.file_format.specs.File.{saved_sum, working_sum};
ghost use Rattle.file_format.specs.Reading.{OnlyReadsStore};
ghost use Rattle.document_stat.specs.Files.{IsChosen, IsCountingSlot, IsRefusal};

use file_format::{Directory, Slot, check_slot, find_slot, read_directory};
use geos_model::Fault;
use std::alloc::Global;
use vm_store::Store;

/// The slot that counts, with the directories of the two documents that it names.
#[derive(Drop)]
pub struct CountingSlot {
    pub slot: Slot,
    pub updated: Directory,
    pub saved: Directory,
}

// The slot that counts. NotDocument, Damaged, File.
fn choose_slot<S: Store>(store: &mut S, file_length: u64) -> Result<Slot, Fault>
    requires { IsTrue (S.facts store.old).honest → file_length ≡ length (S.facts store.old).content }
    ensures looks { OnlyReadsStore (S.facts store.old) (S.facts store.new) }
    ensures ok { IfOk result (λ slot. IsTrue (S.facts store.old).honest
        → IsChosen (S.facts store.old).content slot) }
    ensures file { IsErrOf result Fault.File → FailedSince (S.facts store.old) (S.facts store.new) }
    ensures err { IfErr result (IsRefusal (S.facts store.old)) }
{
    let found = find_slot(store, file_length)?;
    check_slot(&found.slot)?;
    Ok(found.slot)
}

// The sum of the updated document's directory, where the slot has sums.
fn working_sum(slot: &Slot) -> Option<u32>
    ensures { result ≡ working_sum slot.now }
{
    let sums = slot.sums?;
    Some(sums.working)
}

// And of the saved one's.
fn saved_sum(slot: &Slot) -> Option<u32>
    ensures { result ≡ saved_sum slot.now }
{
    let sums = slot.sums?;
    Some(sums.saved)
}

/// Reads the slot that counts and its two directories, and no image, of a file of so many bytes. NotDocument and
/// Damaged where an opening answers so and that is seen without the images; Memory, File.
pub fn read_counting_slot<S: Store>(
    alloc: Global,
    store: &mut S,
    file_length: u64,
) -> Result<CountingSlot, Fault>
    requires { IsTrue (S.facts store.old).honest → file_length ≡ length (S.facts store.old).content }
    ensures looks { OnlyReadsStore (S.facts store.old) (S.facts store.new) }
    ensures ok { IfOk result (λ c. IsTrue (S.facts store.old).honest
        → IsCountingSlot (S.facts store.old).content c) }
    ensures file { IsErrOf result Fault.File → FailedSince (S.facts store.old) (S.facts store.new) }
    ensures err { IfErr result (IsRefusal (S.facts store.old)) }
{
    let slot = choose_slot(store, file_length)?;
    let updated = read_directory(
        alloc,
        store,
        slot.version,
        file_length,
        slot.working,
        working_sum(&slot),
    )?;
    let saved = read_directory(
        alloc,
        store,
        slot.version,
        file_length,
        slot.saved,
        saved_sum(&slot),
    )?;
    Ok(CountingSlot {
        slot,
        updated,
        saved,
    })
}
