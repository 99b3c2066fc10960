//! Changes of a document, from the bytes that its blocks have and get. A list of them stands in the order in which they
//! are carried out.
ghost use Rattle.std.specs.Prelude.{◌≡◌, ◌≤◌, ◌+◌, ◌++◌, ◌∷◌, ℕ, List, [], true, IfOk, OnOk, length};
ghost use Rattle.geos_model.specs.Document.{Document, handles_of, is_live, is_raw, raw_bytes_of};
ghost use Rattle.geos_model.specs.Heap.{capacity};
ghost use Rattle.chunk_edits.specs.Patching.{ArePiecesOf, patched, peak, total_held};
ghost use Rattle.document_file.specs.Members.{imaged_blocks};
ghost use Rattle.vm_blocks.specs.Changes.{CanRemoveAll, IsFreeHandle, directed_all};
ghost use Rattle.vm_blocks.specs.Preparing.{CanRemoveByHandle};
ghost use Rattle.large_arrays.specs.ChangePlans.{ArePlanned, ArePlannedByHandle, IsUntouched, AddsHeld, AddsLeast};

use chunk_edits::RawPatch;
use geos_model::{Attributes, VmHandle};
use large_bodies::{CutBody, body_patch};
use std::alloc::{AllocError, Global};
use vm_blocks::{BlockImage, Change, Direction, Members, PartChange};

/// The change by which blocks go, if there are any, to begin with.
pub fn plan_freeing(alloc: Global, freed: Members) -> Result<Vec<Change>, AllocError>
    ensures planned { IfOk result (λ changes. (d : Document) → CanRemoveAll d (imaged_blocks freed.list.items)
        → ArePlanned changes.items d (handles_of (imaged_blocks freed.list.items)) []) }
    ensures listed { IfOk result (λ changes. (d : Document)
        → CanRemoveByHandle d (handles_of (imaged_blocks freed.list.items))
        → ArePlannedByHandle changes.items d (handles_of (imaged_blocks freed.list.items)) []) }
{
    let mut changes = Vec::new(alloc);
    if freed.list.is_empty() {
        return Ok(changes);
    }
    changes.push(Change::BlocksOut(freed))?;
    Ok(changes)
}

/// Behind the others the change by which a raw body becomes another: it holds what differs.
pub fn plan_body(
    alloc: Global,
    changes: &mut Vec<Change>,
    handle: VmHandle,
    old: &CutBody<'_>,
    new: &CutBody<'_>,
) -> Result<(), AllocError>
    ensures planned { OnOk result ((d : Document) (freed : List ℕ) (bodies : List (ℕ × List ℕ))
        → ArePlanned changes.old.items d freed bodies → IsUntouched freed bodies handle.0
        → is_raw d handle.0 ≡ true → raw_bytes_of d handle.0 ≡ old.now.bytes.now
        → ArePlanned changes.new.items d freed (bodies ++ (handle.0, new.now.bytes.now) ∷ [])) }
    ensures listed { OnOk result ((d : Document) (freed : List ℕ) (bodies : List (ℕ × List ℕ))
        → ArePlannedByHandle changes.old.items d freed bodies → IsUntouched freed bodies handle.0
        → is_live d handle.0 ≡ true
        → ArePlannedByHandle changes.new.items d freed (bodies ++ (handle.0, new.now.bytes.now) ∷ [])) }
    ensures least { OnOk result (AddsLeast changes.old.items changes.new.items old.now new.now) }
    ensures more { OnOk result (length changes.new.items ≡ length changes.old.items + 1) }
{
    let patch = body_patch(alloc, old, new)?;
    plan_patch(changes, handle, RawPatch::new(patch))
}

/// Behind the others the change that a patch makes of a raw body.
pub(crate) fn plan_patch(
    changes: &mut Vec<Change>,
    handle: VmHandle,
    patch: RawPatch,
) -> Result<(), AllocError>
    ensures planned { OnOk result ((d : Document) (freed : List ℕ) (bodies : List (ℕ × List ℕ))
        → ArePlanned changes.old.items d freed bodies → IsUntouched freed bodies handle.0
        → is_raw d handle.0 ≡ true → ArePiecesOf patch (raw_bytes_of d handle.0) → peak patch ≤ capacity
        → ArePlanned changes.new.items d freed
        (bodies ++ (handle.0, patched patch (raw_bytes_of d handle.0)) ∷ [])) }
    ensures listed { OnOk result ((d : Document) (freed : List ℕ) (bodies : List (ℕ × List ℕ)) (body : List ℕ)
        → ArePlannedByHandle changes.old.items d freed bodies → IsUntouched freed bodies handle.0
        → is_live d handle.0 ≡ true → ArePlannedByHandle changes.new.items d freed (bodies ++ (handle.0, body) ∷ [])) }
    ensures holds { OnOk result (AddsHeld changes.old.items changes.new.items (total_held patch)) }
    ensures more { OnOk result (length changes.new.items ≡ length changes.old.items + 1) }
{
    changes.push(Change::Part(handle, PartChange::RawPatch(patch)))?;
    Ok(())
}

/// Behind the others the change by which a raw block comes in. It has the attributes of none.
pub fn plan_block(
    alloc: Global,
    changes: &mut Vec<Change>,
    handle: VmHandle,
    bytes: Vec<u8>,
) -> Result<(), AllocError>
    requires { length bytes.items ≤ capacity }
    ensures planned { OnOk result ((d : Document) (freed : List ℕ) (bodies : List (ℕ × List ℕ))
        → ArePlanned changes.old.items d freed bodies → IsUntouched freed bodies handle.0 → IsFreeHandle d handle.0
        → ArePlanned changes.new.items d freed (bodies ++ (handle.0, bytes.items) ∷ [])) }
    ensures listed { OnOk result ((d : Document) (freed : List ℕ) (bodies : List (ℕ × List ℕ))
        → ArePlannedByHandle changes.old.items d freed bodies → IsUntouched freed bodies handle.0
        → IsFreeHandle d handle.0
        → ArePlannedByHandle changes.new.items d freed (bodies ++ (handle.0, bytes.items) ∷ [])) }
    ensures more { OnOk result (length changes.new.items ≡ length changes.old.items + 1) }
{
    let none = Attributes {
        user_id: 0,
        heap_type: 0,
    };
    let block = BlockImage::raw(none, bytes)?;
    changes.push(Change::BlocksIn(Members::one(alloc, handle, block)?))?;
    Ok(())
}

/// The same changes as a stack, on which the one that is carried out first lies uppermost, as `change_all` takes them.
pub fn stacked(changes: Vec<Change>) -> Vec<Change>
    ensures { directed_all Direction.Forwards result.items ≡ changes.items }
{
    let mut stack = changes;
    stack.reverse();
    stack
}
