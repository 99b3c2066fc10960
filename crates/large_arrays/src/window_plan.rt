//! The changes by which pieces come in the place of branches: blocks that go, the root, and the blocks of the pieces.
ghost use Rattle.std.specs.Prelude.{◌≡◌, ◌⊎◌, ◌<◌, ◌≤◌, ◌==◌, [], ℕ, true, false, IfOk, IfErr, MatchResult, length};
ghost use Rattle.std.specs.List.{All, AllZip, Contains, list_any};
ghost use Rattle.std.specs.FinMap.{get};
ghost use Rattle.geos_model.specs.Document.{Document, is_live};
ghost use Rattle.geos_model.specs.Heap.{capacity};
ghost use Rattle.geos_model.specs.declared.fault.Fault.TheVariants.{IsMap, Memory, NoHandles};
ghost use Rattle.document_file.specs.Members.{imaged_block};
ghost use Rattle.vm_blocks.specs.Keeping.{KeepsBlocks, IsHonest, IsEnvironmentFault, is_full};
ghost use Rattle.vm_blocks.specs.Preparing.{CanApplyAllByHandle, CanRemoveByHandle};
ghost use Rattle.vm_chains.specs.Numbers.{numbers};
ghost use Rattle.geos_model.specs.Pieces.{BranchPiece};
ghost use Rattle.geos_model.specs.LargeWindow.{window};
ghost use Rattle.large_arrays.specs.ChangePlans.{ArePlanned, ArePlannedByHandle};
ghost use Rattle.large_arrays.specs.Gathering.{HasOldBody, IsGatheredWindow, AreGathered};
ghost use Rattle.large_arrays.specs.HandleLists.{old_handles};
ghost use Rattle.large_arrays.specs.WindowPlans.{AreGone, ArePieceHandles, HasGatheredRoot, IsWindowPlanned, RefusesWindow, lacks_places};

use crate::changes::plan_freeing;
use crate::gathered::Gathered;
use crate::handles::{blocks_needed, freed_handles, window_handles};
use crate::piece_plans::{place_of, plan_pieces};
use crate::root_plan::plan_root;
use geos_model::{Attributes, Fault, VmHandle};
use std::alloc::{AllocError, Global};
use vm_blocks::{BlockImage, Change, FileBlocks, Member, Members};
use vm_chains::free_handles;
use vm_store::Store;

/// How many branches a root has at most: all blocks of a document but the root itself.
pub(crate) const MOST_BRANCHES: usize = 8_191;

/// The changes that put what was gathered in the place of branches of a root that has so many. IsMap where the map
/// block would go; NoHandles where too few are free, or the root would have too many branches; Memory, File, Damaged.
pub(crate) fn plan_window<S: Store>(
    alloc: Global,
    blocks: &mut FileBlocks<S>,
    root: VmHandle,
    branches: usize,
    gathered: &Gathered,
) -> Result<Vec<Change>, Fault>
    // Asked of the caller.
    requires room { is_full blocks.old ≡ false }
    requires gathered { AreGathered blocks.old.document root.0 gathered.now }
    requires root { IsHonest S.facts blocks.old.disk.store
        → HasGatheredRoot blocks.old.document root.0 branches gathered.now }
    // What stays.
    ensures keeps { KeepsBlocks S.facts blocks.old blocks.new }
    // What is answered.
    ensures value { IsHonest S.facts blocks.old.disk.store → (i j : ℕ) (new : BranchPiece) → i ≤ j
        → IsGatheredWindow blocks.new.document root.0 i j new gathered.now → MatchResult result
        (λ changes. IsWindowPlanned blocks.new.document root.0 (window blocks.new.document root.0 i j new) changes.items)
        (λ fault. IsEnvironmentFault S.facts blocks.old.disk.store blocks.new.disk.store fault
        ⊎ RefusesWindow blocks.new.document root.0 (window blocks.new.document root.0 i j new) fault) }
    // Over any store.
    ensures listed { IfOk result (λ changes. CanApplyAllByHandle changes.items blocks.new.document) }
    ensures some { IfOk result (λ changes. 0 < length changes.items) }
    ensures refusals { IfErr result (λ fault.
        IsEnvironmentFault S.facts blocks.old.disk.store blocks.new.disk.store fault
        ⊎ ((fault ≡ IsMap) ⊎ (fault ≡ NoHandles))) }
{
    let freed = freed_handles(alloc, gathered.olds.as_slice(), gathered.pieces.len())?;
    if is_among(&freed, blocks.map_block()) {
        return Err(Fault::IsMap);
    }
    let handles = piece_handles(alloc, blocks, branches, gathered)?;
    let mut changes = plan_gone(alloc, blocks, gathered, &freed)?;
    plan_root(
        alloc,
        blocks,
        root,
        branches,
        gathered,
        &handles,
        &mut changes,
    )?;
    plan_pieces(alloc, gathered, &handles, &mut changes)?;
    Ok(changes)
}

/// Whether a handle is one of these.
fn is_among(handles: &[VmHandle], wanted: VmHandle) -> bool
    ensures { result ≡ list_any (λ h. h.0 == wanted.0) handles.now }
{
    handles.iter().any(|handle| handle.0 == wanted.0)
}

/// The blocks that the pieces have, old ones and new ones. NoHandles where too few are free, or the root, which has so
/// many branches, would have too many; Memory.
fn piece_handles<S: Store>(
    alloc: Global,
    blocks: &FileBlocks<S>,
    branches: usize,
    gathered: &Gathered,
) -> Result<Vec<VmHandle>, Fault>
    ensures { MatchResult result
        (λ handles. ArePieceHandles blocks.now.document branches gathered.now (numbers handles.items))
        (λ fault. (fault ≡ Memory)
        ⊎ ((fault ≡ NoHandles) × (lacks_places blocks.now.document branches gathered.now ≡ true))) }
{
    let olds = gathered.olds.as_slice();
    let pieces = gathered.pieces.len();
    let needed = blocks_needed(olds.len(), pieces);
    let new = free_handles(alloc, blocks, needed)?;
    let after = branches.saturating_sub(olds.len()).saturating_add(pieces);
    if new.len() < needed || MOST_BRANCHES < after {
        return Err(Fault::NoHandles);
    }
    Ok(window_handles(alloc, olds, gathered.head, pieces, &new)?)
}

/// The change by which blocks go that were gathered, if there are any, to begin with.
fn plan_gone<S: Store>(
    alloc: Global,
    blocks: &FileBlocks<S>,
    gathered: &Gathered,
    freed: &[VmHandle],
) -> Result<Vec<Change>, AllocError>
    requires gone { AreGone blocks.now.document gathered.now (numbers freed.now) }
    requires bodies { length gathered.now.bodies.items ≡ length gathered.now.olds.items }
    requires short { All (λ body. length body.items ≤ capacity) gathered.now.bodies.items }
    ensures planned { IfOk result (λ changes.
        AllZip (λ old body. HasOldBody blocks.now.document old.handle.0 body.items)
        gathered.now.olds.items gathered.now.bodies.items
        → ArePlanned changes.items blocks.now.document (numbers freed.now) []) }
    ensures listed { IfOk result (λ changes. (d : Document) → CanRemoveByHandle d (numbers freed.now)
        → ArePlannedByHandle changes.items d (numbers freed.now) []) }
{
    blocks.reveal_invariant();
    let mut gone = Vec::with_capacity(alloc, freed.len())?;
    for handle in freed {
        gone.push(gone_block(alloc, blocks, gathered, *handle)?)?;
    }
    plan_freeing(alloc, Members::new(gone))
}

/// A block that was gathered, as it is.
fn gone_block<S: Store>(
    alloc: Global,
    blocks: &FileBlocks<S>,
    gathered: &Gathered,
    handle: VmHandle,
) -> Result<Member, AllocError>
    requires live { is_live blocks.now.document handle.0 ≡ true }
    requires old { Contains (old_handles gathered.now.olds.items) handle.0 }
    requires bodies { length gathered.now.bodies.items ≡ length gathered.now.olds.items }
    requires short { All (λ body. length body.items ≤ capacity) gathered.now.bodies.items }
    ensures handle { IfOk result (λ member. member.handle ≡ handle) }
    ensures stands { IfOk result (λ member.
        AllZip (λ old body. HasOldBody blocks.now.document old.handle.0 body.items)
        gathered.now.olds.items gathered.now.bodies.items
        → get blocks.now.document.blocks handle.0 ≡ Some (imaged_block member.block)) }
{
    let Some(i) = place_of(gathered, handle) else {
        unreachable!()
    };
    // A raw block has no type.
    let attributes = Attributes {
        user_id: blocks.attributes(handle).user_id,
        heap_type: 0,
    };
    let block = BlockImage::raw(attributes, gathered.bodies[i].clone()?)?;
    Ok(Member { handle, block })
}
