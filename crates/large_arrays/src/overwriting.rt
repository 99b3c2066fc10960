//! The changes by which elements of one size are written over where they are.
ghost use Rattle.std.specs.Prelude.{◌≡◌, ◌⊎◌, ◌≢◌, ◌<◌, ◌≤◌, ◌+◌, ◌^◌, ℕ, None, true, false, IfOk, IfErr, MatchResult, OnOk, length, take, drop, get_or, sum_by};
ghost use Rattle.std.specs.List.{splice};
ghost use Rattle.geos_model.specs.Array.{array_bytes};
ghost use Rattle.geos_model.specs.ElementArray.{all_distinct};
ghost use Rattle.geos_model.specs.Heap.{capacity};
ghost use Rattle.geos_model.specs.declared.fault.Fault.TheVariants.{BadChain};
ghost use Rattle.chunk_edits.specs.Patching.{PatchLeads, peak};
ghost use Rattle.vm_blocks.specs.Keeping.{KeepsBlocks, IsHonest, IsEnvironmentFault, is_full};
ghost use Rattle.vm_blocks.specs.Preparing.{CanApplyAllByHandle};
ghost use Rattle.vm_chains.specs.Walking.{Stops};
ghost use Rattle.geos_model.specs.LargeBlocks.{root_at};
ghost use Rattle.large_bodies.specs.BranchReading.{IsPlain};
ghost use Rattle.geos_model.specs.LargeEdits.{run_places};
ghost use Rattle.large_arrays.specs.EditPlans.{IsOverwritingPlanned};
ghost use Rattle.large_arrays.specs.LargeRuns.{are_branches_under};
ghost use Rattle.geos_model.specs.LargeLayout.{branch_bytes};
ghost use Rattle.large_arrays.specs.Loading.{branch_under};
ghost use Rattle.large_arrays.specs.Middle.{IsRunSpot};
ghost use Rattle.large_arrays.specs.OverwritingPlans.{AreBranchesWritten, WritesBranch};
ghost use Rattle.large_arrays.specs.Spots.{IsSpot, counts_of, link_handles};
ghost use Rattle.geos_model.specs.LargeWindow.{are_branches};

use crate::changes::plan_patch;
use crate::distinct::are_distinct;
use crate::joining::links_between;
use crate::loading::{load_branch, loaded_branch};
use crate::spot::{BranchLink, Spot};
use chunk_arrays::View;
use chunk_edits::{Patch, RawPatch};
use geos_model::{Fault, VmHandle};
use large_bodies::NewElements;
use std::alloc::{AllocError, Global};
use vm_blocks::{Change, FileBlocks};
use vm_store::Store;

/// The changes that write new elements, of which there are some, over as many that a spot is of. BadChain where a
/// branch that has some of these isn't what the root says, is there twice, or is the root; Memory, File, Damaged.
pub(crate) fn plan_overwriting<S: Store>(
    alloc: Global,
    blocks: &mut FileBlocks<S>,
    root: VmHandle,
    spot: &Spot,
    new: &NewElements<'_>,
) -> Result<Vec<Change>, Fault>
    // Asked of the caller.
    requires room { is_full blocks.old ≡ false }
    requires run { IsRunSpot spot.now }
    requires size { new.now.size ≡ spot.now.size }
    requires sized { spot.now.size ≢ 0 }
    requires some { 0 < length new.now.elements }
    // What stays.
    ensures keeps { KeepsBlocks S.facts blocks.old blocks.new }
    // What is answered.
    ensures value { IsHonest S.facts blocks.old.disk.store → (i : ℕ)
        → IsSpot (root_at blocks.new.document root.0) i (i + length new.now.elements) spot.now → MatchResult result
        (λ changes. IsOverwritingPlanned blocks.new.document root.0 i new.now.elements changes.items)
        (Stops (IsEnvironmentFault S.facts blocks.old.disk.store blocks.new.disk.store)
        (are_branches blocks.new.document root.0 (root_at blocks.new.document root.0)
        (run_places (root_at blocks.new.document root.0) i (length new.now.elements)) ≡ false)) }
    // Over any store.
    ensures listed { IfOk result (λ changes. CanApplyAllByHandle changes.items blocks.new.document) }
    ensures some { IfOk result (λ changes. 0 < length changes.items) }
    ensures refusals { IfErr result (λ fault.
        IsEnvironmentFault S.facts blocks.old.disk.store blocks.new.disk.store fault ⊎ (fault ≡ BadChain)) }
{
    let links = links_between(spot, spot.start.0, spot.end.0 + 1);
    if !are_distinct(alloc, root, links)? {
        return Err(Fault::BadChain);
    }
    plan_branches(alloc, blocks, links, spot.start.1 as usize, new)
}

/// The changes that write new elements over as many of these branches, one after another, from one of the first branch
/// on. BadChain where one isn't what its link says.
fn plan_branches<S: Store>(
    alloc: Global,
    blocks: &mut FileBlocks<S>,
    links: &[BranchLink],
    start: usize,
    new: &NewElements<'_>,
) -> Result<Vec<Change>, Fault>
    // Asked of the caller.
    requires room { is_full blocks.old ≡ false }
    requires once { all_distinct (link_handles links.now) ≡ true }
    requires first { 0 < length links.now → start ≤ get_or (counts_of links.now) 0 0 }
    requires sized { new.now.size ≢ 0 }
    requires small { new.now.size < 2 ^ 16 }
    // What stays.
    ensures keeps { KeepsBlocks S.facts blocks.old blocks.new }
    // What is answered.
    ensures value { IsHonest S.facts blocks.old.disk.store
        → start + length new.now.elements ≤ sum_by (λ c. c) (counts_of links.now) → MatchResult result
        (λ changes. AreBranchesWritten blocks.new.document links.now start new.now changes.items)
        (Stops (IsEnvironmentFault S.facts blocks.old.disk.store blocks.new.disk.store)
        (are_branches_under blocks.new.document new.now.size links.now ≡ false)) }
    // Over any store.
    ensures listed { IfOk result (λ changes. CanApplyAllByHandle changes.items blocks.new.document) }
    ensures many { IfOk result (λ changes. length changes.items ≡ length links.now) }
    ensures refusals { IfErr result (λ fault.
        IsEnvironmentFault S.facts blocks.old.disk.store blocks.new.disk.store fault ⊎ (fault ≡ BadChain)) }
{
    let mut changes = Vec::new(alloc);
    let count = new.count();
    let mut from = start;
    let mut left = count;
    for link in links {
        let part = part_of(new, count - left, usize::from(link.count) - from);
        plan_branch(alloc, blocks, &mut changes, *link, from, &part)?;
        left -= part.count();
        from = 0;
    }
    Ok(changes)
}

/// The elements from one on, as many as there is room for.
fn part_of<'a>(new: &NewElements<'a>, done: usize, room: usize) -> NewElements<'a>
    requires { done ≤ length new.now.elements }
    ensures { result ≡ record { size = new.now.size; elements = take room (drop done new.now.elements) } }
{
    let (_, rest) = new.split_at(done);
    let (part, _) = rest.split_at(rest.count().min(room));
    part
}

/// Behind the others the change that writes new elements over as many of a branch, from one on. BadChain where it isn't
/// what its link says. What is needed of it is in the change, so that it may leave memory.
fn plan_branch<S: Store>(
    alloc: Global,
    blocks: &mut FileBlocks<S>,
    changes: &mut Vec<Change>,
    link: BranchLink,
    from: usize,
    new: &NewElements<'_>,
) -> Result<(), Fault>
    // Asked of the caller.
    requires room { is_full blocks.old ≡ false }
    requires sized { new.now.size ≢ 0 }
    requires small { new.now.size < 2 ^ 16 }
    requires within { from + length new.now.elements ≤ link.count }
    // What stays.
    ensures keeps { KeepsBlocks S.facts blocks.old blocks.new }
    // What is done.
    ensures value { MatchResult result
        (λ _. WritesBranch blocks.new.document link from new.now changes.old.items changes.new.items)
        (Stops (IsEnvironmentFault S.facts blocks.old.disk.store blocks.new.disk.store)
        (branch_under blocks.new.document link.handle.0 new.now.size link.count ≡ None)) }
    ensures more { OnOk result (length changes.new.items ≡ length changes.old.items + 1) }
{
    load_branch(blocks, link.handle)?;
    let size = new.element_size();
    let view = loaded_branch(blocks, link.handle, size, usize::from(link.count))?;
    let patch = run_patch(alloc, &view, from, new)?;
    plan_patch(changes, link.handle, RawPatch::new(patch))?;
    Ok(())
}

/// The patch of a branch's bytes that writes new elements over as many from one on. It holds these and the old ones.
fn run_patch(
    alloc: Global,
    view: &View<'_>,
    from: usize,
    new: &NewElements<'_>,
) -> Result<Patch, AllocError>
    requires plain { IsPlain view.now.array new.now.size (length view.now.array.elements) }
    requires sized { new.now.size ≢ 0 }
    requires short { 2 + length (array_bytes view.now.array) ≤ capacity }
    requires within { from + length new.now.elements ≤ length view.now.array.elements }
    ensures leads { IfOk result (λ patch. PatchLeads patch
        (branch_bytes new.now.size view.now.array.elements)
        (branch_bytes new.now.size
        (splice view.now.array.elements from (from + length new.now.elements) new.now.elements))) }
    ensures short { IfOk result (λ patch. peak patch ≤ capacity) }
{
    let to = from + new.count();
    // A zero word stands before the array.
    let start = 2 + view.place(from);
    let behind = view.bytes().len() - view.place(to);
    let mut patch = Patch::new(alloc)?;
    patch.keep(start as u32)?;
    patch.put(view.run(from, to), new.bytes())?;
    patch.keep(behind as u32)?;
    Ok(patch)
}
