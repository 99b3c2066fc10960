//! The two slots: what is known of them in memory, the bytes of one, and the one of a file that counts.
ghost use Rattle.std.specs.Prelude.{◌≡◌, ◌⊎◌, ◌++◌, ◌+◌, ◌*◌, ◌≤◌, ◌↔◌, ◌∷◌, ◌==◌, IsTrue, IfOk, IfErr, IsErrOf, Err, drop, length, if◌then◌else◌};
ghost use Rattle.vm_store.specs.Facts.{FailedSince};
ghost use Rattle.file_format.specs.File.{slot_text, stands};
ghost use Rattle.file_format.specs.Reading.{IsResourceFault, IsOpenRefusal, OnlyReadsStore};
ghost use Rattle.document_file.specs.Opened.{IsActiveSlot};
ghost use Rattle.document_file.specs.Making.{first_slot};
ghost use Rattle.document_file.specs.Slots.{slot_value, spare_of, sums_of};

use crate::table::{BlockTable, Pair};
use file_format::{PAGE, Slot, SlotSums, SlotText, find_slot, own_sum, write_slot};
use geos_model::Fault;
use vm_store::Store;

/// What is known of the slot that doesn't count.
#[derive(Drop)]
pub enum SpareSlot {
    /// Its gate is shut, whatever a crash leaves.
    Shut,
    /// Its mark is wrong or its number is below that of the slot that counts, whatever its gate.
    Stale,
    /// It has the next number and is whole but for its gate: a commit failed in its last step.
    Prepared(Pair),
}

/// The slot that counts, the other one, and a document that is marked.
#[derive(Drop)]
pub struct Slots {
    /// Whether slot 1 counts.
    pub second: bool,
    /// That of the format of the slot that counts: 1 only where it was read so.
    pub version: u8,
    /// That which commits write: 2, or 3 with sums.
    pub next_version: u8,
    /// From 1 on.
    pub sequence: u64,
    pub committed: Pair,
    pub spare: SpareSlot,
    /// A document whose images stay in the file beside what the slots lead to, so that it can be brought back.
    pub marked: Option<BlockTable>,
    /// Where the next commit gives the file sums: the table of the saved document, with the sum of each image.
    pub saved_sums: Option<BlockTable>,
}

/// Where the other slot lies.
pub fn spare_slot(slots: &Slots) -> u64
    ensures { result ≡ 512 * spare_of slots.now }
{
    if slots.second { 0 } else { u64::from(PAGE) }
}

/// Where its gate lies.
pub fn spare_gate(slots: &Slots) -> u64
    ensures { result ≡ 512 * spare_of slots.now + 4 }
{
    spare_slot(slots) + 4
}

pub fn is_shut(spare: &SpareSlot) -> bool
    ensures { IsTrue result ↔ (spare.now ≡ SpareSlot.Shut) }
{
    matches!(spare, SpareSlot::Shut)
}

// A slot of a pair, open.
fn slot_value(version: u8, sequence: u64, pair: &Pair) -> Slot
    ensures { result ≡ slot_value version sequence pair.now }
{
    let slot = Slot {
        gate: 1,
        version,
        reserved: 0,
        sequence,
        working: pair.updated.directory,
        saved: pair.saved.directory,
        sums: None,
    };
    Slot {
        sums: sums_of(&slot, pair.updated.sum, pair.saved.sum),
        ..slot
    }
}

// A slot's sums, where both of its directories have one.
fn sums_of(slot: &Slot, working: Option<u32>, saved: Option<u32>) -> Option<SlotSums>
    ensures { result ≡ sums_of slot.now working saved }
{
    let sums = SlotSums {
        working: working?,
        saved: saved?,
        own: 0,
    };
    Some(SlotSums {
        own: own_sum(slot, &sums),
        ..sums
    })
}

/// The text of a slot of a pair, whose gate is open.
pub fn slot_bytes(version: u8, sequence: u64, pair: &Pair) -> SlotText
    ensures { result.items ≡ slot_text (slot_value version sequence pair.now) }
{
    write_slot(&slot_value(version, sequence, pair))
}

/// The text of the first slot of a pair, whose gate is shut.
#[tactic(auto, unfolding(crate::specs::Slots::gate_text))]
pub fn first_slot_bytes(version: u8, pair: &Pair) -> SlotText
    ensures { result.items ≡ first_slot version pair.now }
{
    write_slot(&Slot {
        gate: 0,
        ..slot_value(version, 1, pair)
    })
}

/// What stands behind the gate of a slot's text.
pub fn behind_gate(text: &[u8]) -> &[u8]
    requires { 5 ≤ length text.now }
    ensures { result.now ≡ drop 5 text.now }
{
    &text[5..]
}

/// What is known of the slot that doesn't count, by its gate.
fn spare_of(gate: u8) -> SpareSlot
    ensures { result ≡ (if gate == 1 then SpareSlot.Stale else SpareSlot.Shut) }
{
    if gate == 1 {
        SpareSlot::Stale
    } else {
        SpareSlot::Shut
    }
}

/// The slot that counts, and what is known of the other one.
#[derive(Drop)]
pub struct ActiveSlot {
    pub second: bool,
    pub slot: Slot,
    pub spare: SpareSlot,
}

/// Finds the slot that counts in a file of so many bytes. NotDocument, Damaged, File.
pub fn find_active<S: Store>(store: &mut S, file_length: u64) -> Result<ActiveSlot, Fault>
    // Asked of the caller.
    requires { IsTrue (S.facts store.old).honest → file_length ≡ length (S.facts store.old).content }
    // The store.
    ensures looks { OnlyReadsStore (S.facts store.old) (S.facts store.new) }
    // The slot.
    ensures active { IfOk result (λ active. IsTrue (S.facts store.old).honest
        → IsActiveSlot (S.facts store.old).content active) }
    ensures alone { IfOk result (λ active. (active.spare ≡ SpareSlot.Shut) ⊎ (active.spare ≡ SpareSlot.Stale)) }
    // Refusals.
    ensures refused { IfErr result (λ fault. IsTrue (S.facts store.old).honest
        → IsResourceFault fault ⊎ (stands (S.facts store.old).content ≡ Err fault)) }
    ensures file { IsErrOf result Fault.File → FailedSince (S.facts store.old) (S.facts store.new) }
    ensures refusals { IfErr result IsOpenRefusal }
{
    let found = find_slot(store, file_length)?;
    Ok(ActiveSlot {
        second: found.second,
        slot: found.slot,
        spare: spare_of(found.other.gate),
    })
}
