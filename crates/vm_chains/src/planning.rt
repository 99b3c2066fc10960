//! The blocks of a copy of a chain, and the blocks that the freeing of one takes.
ghost use Rattle.std.specs.Prelude.{◌≡◌, ◌⊎◌, ◌==◌, ◌<◌, None, false, IfOk, IfErr, MatchResult, length};
ghost use Rattle.std.specs.List.{list_any};
ghost use Rattle.geos_model.specs.Chain.{chain, chain_blocks_of, chain_blocks, copies_of, copy_conditions, free_conditions, new_handles, renamed_blocks};
ghost use Rattle.geos_model.specs.Document.{handles_of, is_raw};
ghost use Rattle.geos_model.specs.declared.fault.Fault.TheVariants.{BadChain, NoHandles, IsMap};
ghost use Rattle.vm_blocks.specs.Changes.{CanApply};
ghost use Rattle.vm_blocks.specs.Keeping.{KeepsBlocks, IsHonest, IsEnvironmentFault, is_full};
ghost use Rattle.vm_blocks.specs.Kinds.{IsWrongBlock};
ghost use Rattle.document_file.specs.Members.{imaged_blocks};
ghost use Rattle.vm_blocks.specs.Preparing.{CanRemoveByHandle};
ghost use Rattle.vm_blocks.specs.declared.change.Change.TheVariants as changes;
ghost use Rattle.vm_chains.specs.Answers.{AnswersChain, IsChainFault};
ghost use Rattle.vm_chains.specs.Numbers.{numbers};
ghost use Rattle.vm_chains.specs.Planning.{AreChainBlocks};
ghost use Rattle.vm_chains.specs.Stepping.{AreMet};
ghost use Rattle.vm_chains.specs.Walking.{AreBlocks, CanBeMembers, Stops};

use crate::reading::relinked_at;
use crate::renaming::Renaming;
use crate::stepping::Walk;
use crate::walking::{test_root, walk};
use geos_model::{Fault, VmHandle};
use std::alloc::{AllocError, Global};
use vm_blocks::{BlockImage, FileBlocks, MOST_BLOCKS, Member, Members, imaged_block};
use vm_store::Store;

/// The blocks of a copy of a chain, under handles that are free. They link to one another as those of the chain do.
pub fn copy_plan<S: Store>(
    alloc: Global,
    blocks: &mut FileBlocks<S>,
    root: VmHandle,
) -> Result<Members, Fault>
    requires room { is_full blocks.old ≡ false }
    ensures keeps { KeepsBlocks S.facts blocks.old blocks.new }
    ensures value { IsHonest S.facts blocks.old.disk.store
        → AnswersChain (IsEnvironmentFault S.facts blocks.old.disk.store blocks.new.disk.store)
        (copy_conditions blocks.new.document root.0)
        (λ plan. imaged_blocks plan.list.items
        ≡ copies_of blocks.new.document (chain_blocks blocks.new.document root.0)) result }
    ensures applies { IfOk result (λ plan. CanApply (changes.BlocksIn plan) blocks.new.document) }
    ensures some { IfOk result (λ plan. 0 < length plan.list.items) }
    ensures refusals { IfErr result
        (λ fault. IsEnvironmentFault S.facts blocks.old.disk.store blocks.new.disk.store fault
        ⊎ IsChainFault (IsWrongBlock is_raw blocks.old.document root.0) fault ⊎ (fault ≡ NoHandles)) }
{
    let handles = walk(alloc, blocks, root)?;
    let new = free_handles(alloc, blocks, handles.len())?;
    if new.len() < handles.len() {
        return Err(Fault::NoHandles);
    }
    copies(alloc, blocks, &handles, &new)
}

/// The blocks of a chain as they are, none of them the map block.
pub fn free_plan<S: Store>(
    alloc: Global,
    blocks: &mut FileBlocks<S>,
    root: VmHandle,
) -> Result<Members, Fault>
    requires room { is_full blocks.old ≡ false }
    ensures keeps { KeepsBlocks S.facts blocks.old blocks.new }
    ensures value { IsHonest S.facts blocks.old.disk.store
        → AnswersChain (IsEnvironmentFault S.facts blocks.old.disk.store blocks.new.disk.store)
        (free_conditions blocks.new.document root.0)
        (λ plan. imaged_blocks plan.list.items
        ≡ chain_blocks_of blocks.new.document (chain_blocks blocks.new.document root.0)) result }
    ensures applies { IsHonest S.facts blocks.old.disk.store
        → IfOk result (λ plan. CanApply (changes.BlocksOut plan) blocks.new.document) }
    ensures handles { IfOk result
        (λ plan. CanRemoveByHandle blocks.new.document (handles_of (imaged_blocks plan.list.items))) }
    ensures refusals { IfErr result
        (λ fault. IsEnvironmentFault S.facts blocks.old.disk.store blocks.new.disk.store fault
        ⊎ IsChainFault (IsWrongBlock is_raw blocks.old.document root.0) fault ⊎ (fault ≡ IsMap)) }
{
    test_root(blocks, root)?;
    let plan = images(alloc, blocks, root)?;
    if contains(&plan.list, blocks.map_block()) {
        return Err(Fault::IsMap);
    }
    Ok(plan)
}

/// Whether a block with this handle is one of these.
fn contains(members: &[Member], wanted: VmHandle) -> bool
    ensures { result ≡ list_any (λ m. m.handle.0 == wanted.0) members.now }
{
    members.iter().any(|member| member.handle.0 == wanted.0)
}

/// The blocks of the chain of a raw block, as they are. The image of each is made as the walk meets it, while it is in
/// memory.
fn images<S: Store>(
    alloc: Global,
    blocks: &mut FileBlocks<S>,
    root: VmHandle,
) -> Result<Members, Fault>
    // Asked of the caller.
    requires room { is_full blocks.old ≡ false }
    // What stays.
    ensures keeps { KeepsBlocks S.facts blocks.old blocks.new }
    // What is answered.
    ensures value { IsHonest S.facts blocks.old.disk.store → MatchResult result
        (λ plan. AreChainBlocks blocks.new.document root.0 (imaged_blocks plan.list.items))
        (Stops (IsEnvironmentFault S.facts blocks.old.disk.store blocks.new.disk.store)
        (chain blocks.new.document root.0 ≡ None)) }
    ensures met { IfOk result
        (λ plan. AreMet blocks.new.document 0 (handles_of (imaged_blocks plan.list.items))) }
    // Refusals.
    ensures refusals { IfErr result
        (λ fault. IsEnvironmentFault S.facts blocks.old.disk.store blocks.new.disk.store fault ⊎ (fault ≡ BadChain)) }
{
    let mut walk = Walk::new(alloc, root)?;
    let mut plan = Vec::new(alloc);
    while let Some(handle) = walk.step(blocks)? {
        let attributes = blocks.attributes(handle);
        let block = imaged_block(alloc, attributes, blocks.body(handle))?;
        plan.push(Member { handle, block })?;
    }
    Ok(Members::new(plan))
}

/// The least free handles, rising, as many as these if there are so many.
pub fn free_handles<S: Store>(
    alloc: Global,
    blocks: &FileBlocks<S>,
    wanted: usize,
) -> Result<Vec<VmHandle>, AllocError>
    ensures { IfOk result (λ handles. numbers handles.items ≡ new_handles blocks.now.document wanted) }
{
    let mut handles = Vec::new(alloc);
    // Below the least free handle all are live.
    let Some(first) = blocks.next_handle() else {
        return Ok(handles);
    };
    for i in usize::from(first.0) - 1..MOST_BLOCKS {
        if handles.len() == wanted {
            return Ok(handles);
        }
        let handle = VmHandle(i as u16 + 1);
        if !blocks.is_live(handle) {
            handles.push(handle)?;
        }
    }
    Ok(handles)
}

/// Each block under the handle at its place, with the handles for links that stand at the places of theirs.
fn copies<S: Store>(
    alloc: Global,
    blocks: &mut FileBlocks<S>,
    handles: &[VmHandle],
    new: &[VmHandle],
) -> Result<Members, Fault>
    // Asked of the caller.
    requires live { AreBlocks blocks.old.document handles.now }
    requires members { IsHonest S.facts blocks.old.disk.store → CanBeMembers blocks.old.document handles.now }
    requires new { length handles.now ≡ length new.now }
    // What stays.
    ensures keeps { KeepsBlocks S.facts blocks.old blocks.new }
    // What is answered.
    ensures value { IsHonest S.facts blocks.old.disk.store → IfOk result (λ plan. imaged_blocks plan.list.items
        ≡ renamed_blocks blocks.new.document (numbers handles.now) (numbers new.now)) }
    ensures handles { IfOk result (λ plan. handles_of (imaged_blocks plan.list.items) ≡ numbers new.now) }
    // Refusals.
    ensures refusals { IfErr result (IsEnvironmentFault S.facts blocks.old.disk.store blocks.new.disk.store) }
{
    let names = Renaming::new(alloc, handles, new)?;
    let mut spare = None;
    let mut plan = Vec::new(alloc);
    for i in 0..handles.len() {
        let bytes = relinked_at(alloc, blocks, handles[i], &names, &mut spare)?;
        let block = BlockImage::raw(blocks.attributes(handles[i]), bytes)?;
        plan.push(Member {
            handle: new[i],
            block,
        })?;
    }
    Ok(Members::new(plan))
}
