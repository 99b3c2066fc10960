//! Walks along chains: their blocks, each before those that it links to.
ghost use Rattle.std.specs.Prelude.{◌≡◌, ◌⊎◌, None, Some, true, false, IfOk, IfErr, MatchResult};
ghost use Rattle.geos_model.specs.Chain.{chain, on_chain};
ghost use Rattle.geos_model.specs.Document.{is_raw};
ghost use Rattle.geos_model.specs.declared.fault.Fault.TheVariants.{BadChain};
ghost use Rattle.vm_blocks.specs.Keeping.{KeepsBlocks, IsHonest, IsEnvironmentFault, is_full};
ghost use Rattle.vm_blocks.specs.Kinds.{IsWrongBlock};
ghost use Rattle.vm_chains.specs.Answers.{AnswersChain, IsWalkRefusal};
ghost use Rattle.vm_chains.specs.Numbers.{numbers};
ghost use Rattle.vm_chains.specs.Walking.{AreBlocks, CanBeMembers, BeginsWith, Stops};

use crate::stepping::Walk;
use geos_model::{Fault, VmHandle};
use std::alloc::Global;
use vm_blocks::FileBlocks;
use vm_store::Store;

/// The blocks of a chain: each before those that it links to, branches in order.
pub fn walk<S: Store>(
    alloc: Global,
    blocks: &mut FileBlocks<S>,
    root: VmHandle,
) -> Result<Vec<VmHandle>, Fault>
    // Asked of the caller.
    requires room { is_full blocks.old ≡ false }
    // What stays.
    ensures keeps { KeepsBlocks S.facts blocks.old blocks.new }
    // What is answered.
    ensures value { IsHonest S.facts blocks.old.disk.store
        → AnswersChain (IsEnvironmentFault S.facts blocks.old.disk.store blocks.new.disk.store)
        (on_chain blocks.new.document root.0)
        (λ handles. chain blocks.new.document root.0 ≡ Some (numbers handles.items)) result }
    ensures root { IfOk result (λ handles. BeginsWith root.0 (numbers handles.items)) }
    ensures live { IfOk result (λ handles. AreBlocks blocks.new.document handles.items) }
    ensures members { IsHonest S.facts blocks.old.disk.store
        → IfOk result (λ handles. CanBeMembers blocks.new.document handles.items) }
    // Refusals.
    ensures refusals { IfErr result
        (IsWalkRefusal (IsEnvironmentFault S.facts blocks.old.disk.store blocks.new.disk.store)
        (IsWrongBlock is_raw blocks.old.document root.0)) }
{
    test_root(blocks, root)?;
    walk_from(alloc, blocks, root)
}

/// Tests the root of a chain: NoBlock where no block is there, WrongKind where a heap is. No block is looked into.
pub fn test_root<S: Store>(blocks: &FileBlocks<S>, root: VmHandle) -> Result<(), Fault>
    ensures { MatchResult result
        (λ _. is_raw blocks.now.document root.0 ≡ true)
        (IsWrongBlock is_raw blocks.now.document root.0) }
{
    if !blocks.is_live(root) {
        return Err(Fault::NoBlock);
    }
    if blocks.is_heap(root) {
        return Err(Fault::WrongKind);
    }
    Ok(())
}

/// The blocks of the chain of a raw block.
pub(crate) fn walk_from<S: Store>(
    alloc: Global,
    blocks: &mut FileBlocks<S>,
    root: VmHandle,
) -> Result<Vec<VmHandle>, Fault>
    // Asked of the caller.
    requires room { is_full blocks.old ≡ false }
    // What stays.
    ensures keeps { KeepsBlocks S.facts blocks.old blocks.new }
    // What is answered.
    ensures value { IsHonest S.facts blocks.old.disk.store → MatchResult result
        (λ handles. chain blocks.new.document root.0 ≡ Some (numbers handles.items))
        (Stops (IsEnvironmentFault S.facts blocks.old.disk.store blocks.new.disk.store)
        (chain blocks.new.document root.0 ≡ None)) }
    ensures root { IfOk result (λ handles. BeginsWith root.0 (numbers handles.items)) }
    ensures live { IfOk result (λ handles. AreBlocks blocks.new.document handles.items) }
    ensures members { IsHonest S.facts blocks.old.disk.store
        → IfOk result (λ handles. CanBeMembers blocks.new.document handles.items) }
    // Refusals.
    ensures refusals { IfErr result
        (λ fault. IsEnvironmentFault S.facts blocks.old.disk.store blocks.new.disk.store fault ⊎ (fault ≡ BadChain)) }
{
    Walk::new(alloc, root)?.finish(blocks)
}
