//! Writing the bytes of an extent.
ghost use Rattle.std.specs.Prelude.{◌≡◌, ◌≤◌, ℕ, List, IsTrue, OnOk, length};
ghost use Rattle.vm_store.specs.Facts.{Holds, Torn, Counts};
ghost use Rattle.document_file.specs.Ranges.{start_of, IsClear};
ghost use Rattle.document_file.specs.Slots.{referenced_extents, AreExtentsPlaced, CrashLeavesSlots, Outlives};

use crate::slot::Slots;
use file_format::{Extent, start_of};
use vm_store::{Store, StoreFault};

/// Writes an image or a directory where nothing lies that the slots stand on. Doesn't sync: until something does, a
/// crash may leave any bytes there.
pub fn write_extent<S: Store>(
    store: &mut S,
    slots: &Slots,
    extent: Extent,
    bytes: &[u8],
) -> Result<(), StoreFault>
    // Asked of the caller.
    requires size { length bytes.now ≡ extent.length }
    requires some { 1 ≤ extent.length }
    requires behind { 2 ≤ extent.page }
    requires clear { IsClear (start_of extent) extent.length (referenced_extents slots.now) }
    requires kept { AreExtentsPlaced slots.now }
    // The store.
    ensures honest { (S.facts store.new).honest ≡ (S.facts store.old).honest }
    ensures failures { Counts result (S.facts store.old) (S.facts store.new) }
    // Crashes.
    ensures elsewhere { IsTrue (S.facts store.old).honest
        → Torn (start_of extent) extent.length (S.facts store.old).content (S.facts store.new).content }
    ensures crash { (file : List ℕ) → IsTrue (S.facts store.old).honest
        → CrashLeavesSlots (S.facts store.old) slots.now file
        → Outlives (S.facts store.old) (S.facts store.new) file (λ s. s ≡ slots.now) }
    ensures leaves { (file : List ℕ) → IsTrue (S.facts store.old).honest
        → CrashLeavesSlots (S.facts store.old) slots.now file
        → CrashLeavesSlots (S.facts store.new) slots.now file }
    // The bytes.
    ensures written { OnOk result (IsTrue (S.facts store.old).honest
        → Holds (S.facts store.new).content (start_of extent) bytes.now) }
{
    store.write_at(start_of(extent), bytes)
}
