//! Plans of edits of chains: copied and freed whole.
ghost use Rattle.geos_model.specs.Targets.{chain_edit};
ghost use Rattle.geos_model.specs.declared.command.Edit.TheVariants as edits;
ghost use Rattle.doc_edits.specs.Planning.{PlansAlongChain};

use crate::room::test_chain;
use geos_model::{ChainEdit, Done, Fault, VmHandle};
use std::alloc::Global;
use vm_blocks::{Change, FileBlocks};
use vm_chains::{copy_plan, free_plan};
use vm_store::Store;

/// Of an edit of a chain. Where its root is refused, for NoBlock or WrongKind, nothing changes.
pub fn plan_chain<S: Store>(
    alloc: Global,
    blocks: &mut FileBlocks<S>,
    root: VmHandle,
    edit: ChainEdit,
) -> Result<(Change, Done), Fault>
    ensures { PlansAlongChain S.facts blocks.old blocks.new (chain_edit root edit) result }
{
    match edit {
        ChainEdit::Copy => plan_copy_chain(alloc, blocks, root),
        ChainEdit::Free => plan_free_chain(alloc, blocks, root),
    }
}

/// Of the edit that copies a chain. CacheFull, after a refusal of the root, where each frame has a locked block.
fn plan_copy_chain<S: Store>(
    alloc: Global,
    blocks: &mut FileBlocks<S>,
    root: VmHandle,
) -> Result<(Change, Done), Fault>
    ensures { PlansAlongChain S.facts blocks.old blocks.new (edits.CopyChain root) result }
{
    test_chain(blocks, root)?;
    let copies = copy_plan(alloc, blocks, root)?;
    // The first is the root's.
    let copy = copies.list[0].handle;
    Ok((Change::BlocksIn(copies), Done::Block(copy)))
}

/// Of the edit that frees a chain. CacheFull as there.
fn plan_free_chain<S: Store>(
    alloc: Global,
    blocks: &mut FileBlocks<S>,
    root: VmHandle,
) -> Result<(Change, Done), Fault>
    ensures { PlansAlongChain S.facts blocks.old blocks.new (edits.FreeChain root) result }
{
    test_chain(blocks, root)?;
    let chain = free_plan(alloc, blocks, root)?;
    Ok((Change::BlocksOut(chain), Done::Nothing))
}
