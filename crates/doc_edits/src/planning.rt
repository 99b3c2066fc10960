//! The plan of an edit: its block is brought into memory, and then it is refused or is one change.
ghost use Rattle.geos_model.specs.Targets.{block_edit, chunk_edit, edit_of, new_chunk, raw_edit};
ghost use Rattle.doc_edits.specs.Planning.{PlansEdit};

use crate::block_plans::{plan_block, plan_new_block, plan_setting};
use crate::chain_plans::plan_chain;
use crate::chunk_plans::{plan_array, plan_bytes, plan_free_chunk, plan_new_chunk};
use crate::large_plans::plan_new_large;
use crate::marking::test_edited;
use crate::raw_plans::plan_raw;
use geos_model::{
    BlockEdit, ChunkEdit, ChunkHandle, Done, Fault, NewChunk, RawEdit, Target, VmHandle,
};
use std::alloc::Global;
use vm_blocks::{Change, FileBlocks};
use vm_store::Store;

/// The change that an edit of a target means in the document as it is after the call, and what it answers; or its first
/// refusal there, or what the call lacked. Blocks may be brought into memory, and nothing else changes. NoBlock and
/// WrongKind come first; then CacheFull, where there is no frame for the block into whose body the edit looks, or some
/// frame has to be free of locks for a chain and none is: then nothing changes at all. No store is called, and none
/// lacked, where no body has to be read: it is in memory, or the edit is refused for its block.
pub fn plan<S: Store>(
    alloc: Global,
    blocks: &mut FileBlocks<S>,
    target: Target<'_>,
) -> Result<(Change, Done), Fault>
    ensures { PlansEdit S.facts blocks.old blocks.new (edit_of target.entry) result }
{
    match target {
        Target::Setting(set) => plan_setting(blocks, set),
        Target::NewBlock(new) => plan_new_block(alloc, blocks, new),
        Target::Block(handle, edit) => plan_of_block(alloc, blocks, handle, edit),
        Target::Raw(handle, edit) => plan_in_raw(alloc, blocks, handle, edit),
        Target::NewChunk(handle, new) => plan_in_heap(alloc, blocks, handle, new),
        Target::Chunk(handle, chunk, edit) => plan_in_chunk(alloc, blocks, handle, chunk, edit),
        Target::Chain(root, edit) => plan_chain(alloc, blocks, root, edit),
        Target::NewLarge(user_id, size) => plan_new_large(alloc, blocks, user_id, size),
    }
}

/// Of an edit of a block as a whole, which is brought into memory.
fn plan_of_block<S: Store>(
    alloc: Global,
    blocks: &mut FileBlocks<S>,
    handle: VmHandle,
    edit: BlockEdit,
) -> Result<(Change, Done), Fault>
    ensures { PlansEdit S.facts blocks.old blocks.new (block_edit handle edit) result }
{
    blocks.load(handle)?;
    plan_block(alloc, blocks, handle, edit)
}

/// Of an edit of the bytes of a raw block, which is brought into memory.
fn plan_in_raw<S: Store>(
    alloc: Global,
    blocks: &mut FileBlocks<S>,
    handle: VmHandle,
    edit: RawEdit<'_>,
) -> Result<(Change, Done), Fault>
    ensures { PlansEdit S.facts blocks.old blocks.new (raw_edit handle edit.entry) result }
{
    blocks.load_raw(handle)?;
    plan_raw(alloc, blocks, handle, edit)
}

/// Of an edit that makes a chunk in a heap, which is brought into memory.
fn plan_in_heap<S: Store>(
    alloc: Global,
    blocks: &mut FileBlocks<S>,
    handle: VmHandle,
    new: NewChunk,
) -> Result<(Change, Done), Fault>
    ensures { PlansEdit S.facts blocks.old blocks.new (new_chunk handle new) result }
{
    blocks.load_heap(handle)?;
    plan_new_chunk(alloc, blocks, handle, new)
}

/// Of an edit of a chunk of a heap, which is brought into memory. Where it is of an array, the chunk is tested first.
fn plan_in_chunk<S: Store>(
    alloc: Global,
    blocks: &mut FileBlocks<S>,
    handle: VmHandle,
    chunk: ChunkHandle,
    edit: ChunkEdit<'_>,
) -> Result<(Change, Done), Fault>
    ensures { PlansEdit S.facts blocks.old blocks.new (chunk_edit handle chunk edit.entry) result }
{
    blocks.load_heap(handle)?;
    match edit {
        ChunkEdit::Free => plan_free_chunk(alloc, blocks, handle, chunk),
        ChunkEdit::Bytes(edit) => plan_bytes(alloc, blocks, handle, chunk, edit),
        ChunkEdit::Array(edit) => {
            test_edited(blocks, handle, chunk, edit);
            plan_array(alloc, blocks, handle, chunk, edit)
        }
    }
}
