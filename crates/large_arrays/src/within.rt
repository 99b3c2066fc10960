//! Edits of elements of one size that stay within one branch. The root tells which they are, so that no other branch is
//! looked at; and what such an edit changes is known where it stands, so that nothing is copied to be compared.
ghost use Rattle.std.specs.Prelude.{◌≡◌, ◌⊎◌, ◌<◌, ◌≤◌, ◌+◌, ◌-◌, ◌++◌, ◌∷◌, ℕ, [], None, true, false, IfOk, IfErr, IfSome, MatchResult, length};
ghost use Rattle.std.specs.List.{splice};
ghost use Rattle.geos_model.specs.Array.{array_bytes};
ghost use Rattle.geos_model.specs.Heap.{capacity};
ghost use Rattle.geos_model.specs.Words.{word};
ghost use Rattle.geos_model.specs.declared.fault.Fault.TheVariants.{BadChain};
ghost use Rattle.chunk_edits.specs.Patching.{PatchLeads, peak};
ghost use Rattle.vm_blocks.specs.Keeping.{KeepsBlocks, IsHonest, IsEnvironmentFault, is_full};
ghost use Rattle.vm_blocks.specs.Preparing.{CanApplyAllByHandle};
ghost use Rattle.vm_chains.specs.Walking.{Stops};
ghost use Rattle.geos_model.specs.LargeBlocks.{root_at};
ghost use Rattle.geos_model.specs.LargeLayout.{Root, branch_bytes, most_branches, root_bytes};
ghost use Rattle.geos_model.specs.LargeWindow.{are_branches};
ghost use Rattle.geos_model.specs.Pieces.{branch_room};
ghost use Rattle.large_bodies.specs.BranchReading.{IsPlain};
ghost use Rattle.large_arrays.specs.Loading.{IsRootLoaded, branch_under};
ghost use Rattle.large_arrays.specs.Middle.{IsRunSpot};
ghost use Rattle.large_bodies.specs.SizedElements.{have_size};
ghost use Rattle.large_arrays.specs.Spots.{IsSpot};
ghost use Rattle.large_arrays.specs.Within.{place_within, root_within};
ghost use Rattle.large_arrays.specs.WithinPlans.{FitsEdit, IsBranchEdit, IsEditAt, IsLeftApart, IsPlannedWithin, IsRightApart, PatchesBranch, StandsAlone};

use crate::changes::plan_patch;
use crate::loading::{load_branch, loaded_branch};
use crate::spot::{BranchLink, Spot};
use crate::window_plan::MOST_BRANCHES;
use chunk_arrays::View;
use chunk_edits::{Patch, RawPatch};
use geos_model::{Fault, VmHandle};
use large_bodies::{BRANCH_ROOM, Counts, JOIN_ROOM, NewElements, counts_patch};
use std::alloc::{AllocError, Global};
use vm_blocks::{Change, FileBlocks};
use vm_store::Store;

/// An edit of elements of one size that stays within one branch.
#[derive(Clone, Copy)]
pub(crate) struct BranchEdit {
    /// The branch.
    link: BranchLink,
    /// How many of its elements stay before those that go.
    from: usize,
    /// How many there are up to the last one that goes.
    to: usize,
    /// How many it has then.
    count: u16,
    /// How many the root has then.
    total: u32,
}

/// The edit that puts new elements in the place of those that a spot is of, if it is such a one.
pub(crate) fn branch_edit(spot: &Spot, new: &NewElements<'_>) -> Option<BranchEdit>
    requires { IsRunSpot spot.now }
    ensures edit { IfSome result (IsEditAt spot.now (length new.now.elements)) }
    ensures sized { IfSome result (λ _. have_size new.now.size new.now.elements ≡ true) }
{
    if spot.size == 0 || spot.start.0 != spot.end.0 {
        return None;
    }
    if spot.branches > MOST_BRANCHES || new.count() > BRANCH_ROOM {
        return None;
    }
    let at = spot.start.0 - spot.first;
    let link = spot.links[at];
    let count = count_after(spot, link.count, new.count());
    if !stands_alone(spot, at, count) {
        return None;
    }
    // No root of so many branches has elements enough for that, but a spot doesn't tell.
    let others = spot.total - u32::from(link.count);
    if others > u32::MAX - count as u32 {
        return None;
    }
    Some(BranchEdit {
        link,
        from: spot.start.1 as usize,
        to: spot.end.1 as usize,
        count: count as u16,
        total: others + count as u32,
    })
}

/// How many elements a branch of so many has, once so many come in the place of those that a spot is of.
fn count_after(spot: &Spot, count: u16, new: usize) -> usize
    requires order { spot.now.start.1 ≤ spot.now.end.1 }
    requires within { spot.now.end.1 ≤ count }
    requires few { new ≤ branch_room }
    ensures value { result ≡ spot.now.start.1 + new + (count - spot.now.end.1) }
    ensures few { result < 262144 }
{
    spot.start.1 as usize + new + (usize::from(count) - spot.end.1 as usize)
}

/// Whether a branch of so many elements, at a place among a spot's links, is neither empty nor too large, nor joined to
/// a neighbour.
fn stands_alone(spot: &Spot, at: usize, count: usize) -> bool
    requires place { at < length spot.now.links.items }
    requires small { spot.now.size < 65536 }
    requires few { count < 262144 }
    ensures { result ≡ true → StandsAlone spot.now at count }
{
    if count == 0 || count * spot.size > BRANCH_ROOM {
        return false;
    }
    is_left_apart(spot, at, count) && is_right_apart(spot, at, count)
}

/// Whether it isn't joined to the branch before it.
fn is_left_apart(spot: &Spot, at: usize, count: usize) -> bool
    requires place { at < length spot.now.links.items }
    requires small { spot.now.size < 65536 }
    requires few { count < 262144 }
    ensures { result ≡ true → IsLeftApart spot.now at count }
{
    if at == 0 {
        return true;
    }
    let before = spot.links[at - 1].count;
    (usize::from(before) + count) * spot.size > JOIN_ROOM
}

/// Whether it isn't joined to the branch behind it.
fn is_right_apart(spot: &Spot, at: usize, count: usize) -> bool
    requires place { at < length spot.now.links.items }
    requires small { spot.now.size < 65536 }
    requires few { count < 262144 }
    ensures { result ≡ true → IsRightApart spot.now at count }
{
    if spot.links.len() <= at + 1 {
        return true;
    }
    let behind = spot.links[at + 1].count;
    (count + usize::from(behind)) * spot.size > JOIN_ROOM
}

/// The changes of such an edit of a root, which is in memory. BadChain where the branch isn't what the root says, or is
/// the root; Memory, File, Damaged.
pub(crate) fn plan_within<S: Store>(
    alloc: Global,
    blocks: &mut FileBlocks<S>,
    root: VmHandle,
    spot: &Spot,
    edit: &BranchEdit,
    new: &NewElements<'_>,
) -> Result<Vec<Change>, Fault>
    // Asked of the caller.
    requires room { is_full blocks.old ≡ false }
    requires loaded { IsRootLoaded blocks.old root.0 }
    requires run { IsRunSpot spot.now }
    requires size { new.now.size ≡ spot.now.size }
    requires edit { IsEditAt spot.now (length new.now.elements) edit.now }
    // What stays.
    ensures keeps { KeepsBlocks S.facts blocks.old blocks.new }
    // What is answered.
    ensures value { IsHonest S.facts blocks.old.disk.store → (i j : ℕ)
        → IsSpot (root_at blocks.new.document root.0) i j spot.now → MatchResult result
        (λ changes. IsPlannedWithin blocks.new.document root.0 i j new.now.elements changes.items)
        (Stops (IsEnvironmentFault S.facts blocks.old.disk.store blocks.new.disk.store)
        (are_branches blocks.new.document root.0 (root_at blocks.new.document root.0)
        (place_within (root_at blocks.new.document root.0) i j ∷ []) ≡ false)) }
    // Over any store.
    ensures listed { IfOk result (λ changes. CanApplyAllByHandle changes.items blocks.new.document) }
    ensures some { IfOk result (λ changes. 0 < length changes.items) }
    ensures refusals { IfErr result (λ fault.
        IsEnvironmentFault S.facts blocks.old.disk.store blocks.new.disk.store fault ⊎ (fault ≡ BadChain)) }
{
    if edit.link.handle == root {
        return Err(Fault::BadChain);
    }
    let branch = branch_patch(alloc, blocks, edit, new)?;
    let patch = root_patch(alloc, spot, edit)?;
    let mut changes = Vec::with_capacity(alloc, 2)?;
    plan_patch(&mut changes, root, patch)?;
    plan_patch(&mut changes, edit.link.handle, RawPatch::new(branch))?;
    Ok(changes)
}

/// The patch of the branch. BadChain where it isn't what its link says. The patch holds what is needed of it, so that
/// it may leave memory.
fn branch_patch<S: Store>(
    alloc: Global,
    blocks: &mut FileBlocks<S>,
    edit: &BranchEdit,
    new: &NewElements<'_>,
) -> Result<Patch, Fault>
    // Asked of the caller.
    requires room { is_full blocks.old ≡ false }
    requires fits { FitsEdit edit.now (length new.now.elements) new.now.size }
    // What stays.
    ensures keeps { KeepsBlocks S.facts blocks.old blocks.new }
    // What is answered.
    ensures value { MatchResult result
        (λ patch. PatchesBranch blocks.new.document edit.now new.now patch)
        (Stops (IsEnvironmentFault S.facts blocks.old.disk.store blocks.new.disk.store)
        (branch_under blocks.new.document edit.now.link.handle.0 new.now.size edit.now.link.count ≡ None)) }
{
    load_branch(blocks, edit.link.handle)?;
    let size = new.element_size();
    let count = usize::from(edit.link.count);
    let view = loaded_branch(blocks, edit.link.handle, size, count)?;
    Ok(replaced_patch(alloc, &view, edit, new)?)
}

/// The patch of a branch's bytes that puts new elements in the place of others. It holds these and those, and how many
/// the branch has and had.
fn replaced_patch(
    alloc: Global,
    view: &View<'_>,
    edit: &BranchEdit,
    new: &NewElements<'_>,
) -> Result<Patch, AllocError>
    requires fits { FitsEdit edit.now (length new.now.elements) new.now.size }
    requires plain { IsPlain view.now.array new.now.size edit.now.link.count }
    requires short { 2 + length (array_bytes view.now.array) ≤ capacity }
    ensures leads { IfOk result (λ patch. PatchLeads patch
        (branch_bytes new.now.size view.now.array.elements)
        (branch_bytes new.now.size
        (splice view.now.array.elements edit.now.from edit.now.to new.now.elements))) }
    ensures short { IfOk result (λ patch. peak patch ≤ capacity) }
{
    // The array begins with its count, behind a zero word.
    let start = view.place(edit.from) - 2;
    let behind = view.bytes().len() - view.place(edit.to);
    let mut patch = Patch::new(alloc)?;
    let old = count_bytes(edit.link.count);
    patch.put(old.as_slice(), count_bytes(edit.count).as_slice())?;
    patch.keep(start as u32)?;
    patch.put(view.run(edit.from, edit.to), new.bytes())?;
    patch.keep(behind as u32)?;
    Ok(patch)
}

/// What a branch of so many elements begins with.
fn count_bytes(count: u16) -> [u8; 4]
    ensures { result ≡ word 0 ++ word count }
{
    let [low, high] = count.to_le_bytes();
    [0, 0, low, high]
}

/// The patch of a root's bytes: how many elements it has, and how many the branch has.
fn root_patch(alloc: Global, spot: &Spot, edit: &BranchEdit) -> Result<RawPatch, AllocError>
    requires place { spot.now.start.0 < spot.now.branches }
    requires few { spot.now.branches ≤ most_branches }
    ensures leads { IfOk result (λ patch. (r : Root) (i j new : ℕ) → IsSpot r i j spot.now
        → length r.counts ≡ length r.branches → IsBranchEdit r i j new edit.now
        → PatchLeads patch (root_bytes r) (root_bytes (root_within r i j new))) }
    ensures short { IfOk result (λ patch. peak patch ≤ capacity) }
{
    let old = Counts {
        total: spot.total,
        count: edit.link.count,
    };
    let new = Counts {
        total: edit.total,
        count: edit.count,
    };
    counts_patch(alloc, spot.branches, spot.start.0, old, new)
}
