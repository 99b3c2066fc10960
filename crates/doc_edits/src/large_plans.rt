//! Plans of edits of large arrays: one change makes an array, and several changes edit it.
ghost use Rattle.std.specs.Prelude.{MatchResult};
ghost use Rattle.geos_model.specs.Targets.{large_edit};
ghost use Rattle.geos_model.specs.declared.command.Edit.TheVariants as edits;
ghost use Rattle.doc_edits.specs.Planning.{Plans, PlansLarge, RefusesInMemory};

use crate::room::test_chain;
use geos_model::{Done, Fault, LargeEdit, VmHandle};
use large_arrays::{plan_create, plan_deletion, plan_insertion, plan_setting};
use std::alloc::Global;
use vm_blocks::{Change, FileBlocks};
use vm_store::Store;

/// Of the edit that makes a large array.
pub fn plan_new_large<S: Store>(
    alloc: Global,
    blocks: &FileBlocks<S>,
    user_id: u16,
    size: u32,
) -> Result<(Change, Done), Fault>
    ensures { MatchResult result (λ p. Plans (edits.CreateLarge user_id size) blocks.now.document p.0 p.1)
        (RefusesInMemory (edits.CreateLarge user_id size) blocks.now.document) }
{
    let (change, root) = plan_create(alloc, blocks, user_id, size)?;
    Ok((change, Done::Block(root)))
}

/// The changes that an edit of a large array means in the document as it is after the call, one at least, each made
/// after the one before it; or its first refusal there, or what the call lacked. Blocks may be brought into memory, and
/// nothing else changes. NoBlock and WrongKind come first; then CacheFull where each frame has a locked block: with
/// these three nothing changes at all; then NotArray, NoElement, BadChain, IsMap, Range, TooBig, NoHandles. Memory,
/// File or Damaged may come in place of what follows CacheFull.
pub fn plan_large<S: Store>(
    alloc: Global,
    blocks: &mut FileBlocks<S>,
    root: VmHandle,
    edit: LargeEdit<'_>,
) -> Result<Vec<Change>, Fault>
    ensures { PlansLarge S.facts blocks.old blocks.new (large_edit root edit.entry) result }
{
    test_chain(blocks, root)?;
    match edit {
        LargeEdit::Insert(i, bytes) => plan_insertion(alloc, blocks, root, i.0, bytes),
        LargeEdit::Set(i, bytes) => plan_setting(alloc, blocks, root, i.0, bytes),
        LargeEdit::Delete(i, n) => plan_deletion(alloc, blocks, root, i.0, n.0),
    }
}
