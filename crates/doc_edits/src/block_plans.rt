//! Plans of edits of whole blocks: made, copied and freed, and their attributes.
ghost use Rattle.std.specs.Prelude.{◌≡◌, [], ◌∷◌, true, IfOk, MatchResult};
ghost use Rattle.geos_model.specs.Targets.{block_edit, new_block, setting};
ghost use Rattle.geos_model.specs.declared.command.Edit.TheVariants as edits;
ghost use Rattle.geos_model.specs.declared.handle.VmHandle.{VmHandle};
ghost use Rattle.vm_blocks.specs.Keeping.{is_loaded};
ghost use Rattle.doc_edits.specs.Planning.{freed_by, Plans, RefusesInMemory};

use geos_model::{Attributes, BlockEdit, Done, Fault, NewBlock, Setting, VmHandle};
use raw_region::SIZE;
use std::alloc::Global;
use vm_blocks::{BlockImage, Change, FileBlocks, Members, imaged_block};
use vm_store::Store;

/// Of an edit that sets what needs no body.
pub fn plan_setting<S: Store>(blocks: &FileBlocks<S>, set: Setting) -> Result<(Change, Done), Fault>
    ensures { MatchResult result (λ p. Plans (setting set) blocks.now.document p.0 p.1)
        (RefusesInMemory (setting set) blocks.now.document) }
{
    match set {
        Setting::UserId(handle, user_id) => plan_set_user_id(blocks, handle, user_id),
        Setting::Type(handle, heap_type) => plan_set_type(blocks, handle, heap_type),
        Setting::MapBlock(handle) => plan_set_map(blocks, handle),
    }
}

/// Of an edit that makes a block.
pub fn plan_new_block<S: Store>(
    alloc: Global,
    blocks: &FileBlocks<S>,
    new: NewBlock,
) -> Result<(Change, Done), Fault>
    ensures { MatchResult result (λ p. Plans (new_block new) blocks.now.document p.0 p.1)
        (RefusesInMemory (new_block new) blocks.now.document) }
{
    match new {
        NewBlock::Raw(user_id, size) => plan_new_raw(alloc, blocks, user_id, size),
        NewBlock::Heap(user_id) => plan_new_heap(alloc, blocks, user_id),
    }
}

/// Of an edit of a block as a whole, which is in memory.
pub fn plan_block<S: Store>(
    alloc: Global,
    blocks: &FileBlocks<S>,
    handle: VmHandle,
    edit: BlockEdit,
) -> Result<(Change, Done), Fault>
    requires { is_loaded blocks.now handle.0 ≡ true }
    ensures planned { MatchResult result (λ p. Plans (block_edit handle edit) blocks.now.document p.0 p.1)
        (RefusesInMemory (block_edit handle edit) blocks.now.document) }
    ensures alone { (b : VmHandle) → block_edit handle edit ≡ edits.FreeBlock b
        → IfOk result (λ p. freed_by p.0 ≡ b.0 ∷ []) }
{
    match edit {
        BlockEdit::Free => plan_free_block(alloc, blocks, handle),
        BlockEdit::Copy => plan_copy_block(alloc, blocks, handle),
    }
}

/// Of the edit that makes a raw block of zeros.
#[tactic(auto, using(crate::proofs::BlockPlans::block_made))]
fn plan_new_raw<S: Store>(
    alloc: Global,
    blocks: &FileBlocks<S>,
    user_id: u16,
    size: u32,
) -> Result<(Change, Done), Fault>
    ensures { MatchResult result (λ p. Plans (edits.NewRaw user_id size) blocks.now.document p.0 p.1)
        (RefusesInMemory (edits.NewRaw user_id size) blocks.now.document) }
{
    if size as usize > SIZE {
        return Err(Fault::TooBig);
    }
    let handle = match blocks.next_handle() {
        Some(handle) => handle,
        None => return Err(Fault::NoHandles),
    };
    let attributes = Attributes {
        user_id,
        heap_type: 0,
    };
    let block = BlockImage::zeros(attributes, size as usize);
    let made = Members::one(alloc, handle, block)?;
    Ok((Change::BlocksIn(made), Done::Block(handle)))
}

/// Of the edit that makes a block with an empty heap.
#[tactic(auto, using(crate::proofs::BlockPlans::block_made))]
fn plan_new_heap<S: Store>(
    alloc: Global,
    blocks: &FileBlocks<S>,
    user_id: u16,
) -> Result<(Change, Done), Fault>
    ensures { MatchResult result (λ p. Plans (edits.NewHeap user_id) blocks.now.document p.0 p.1)
        (RefusesInMemory (edits.NewHeap user_id) blocks.now.document) }
{
    let handle = match blocks.next_handle() {
        Some(handle) => handle,
        None => return Err(Fault::NoHandles),
    };
    let attributes = Attributes {
        user_id,
        heap_type: 0,
    };
    let block = BlockImage::empty_heap(attributes);
    let made = Members::one(alloc, handle, block)?;
    Ok((Change::BlocksIn(made), Done::Block(handle)))
}

/// Of the edit that frees a block, which is in memory.
fn plan_free_block<S: Store>(
    alloc: Global,
    blocks: &FileBlocks<S>,
    handle: VmHandle,
) -> Result<(Change, Done), Fault>
    requires { is_loaded blocks.now handle.0 ≡ true }
    ensures planned { MatchResult result (λ p. Plans (edits.FreeBlock handle) blocks.now.document p.0 p.1)
        (RefusesInMemory (edits.FreeBlock handle) blocks.now.document) }
    ensures alone { IfOk result (λ p. freed_by p.0 ≡ handle.0 ∷ []) }
{
    if blocks.map_block() == handle {
        return Err(Fault::IsMap);
    }
    let saved = imaged_block(alloc, blocks.attributes(handle), blocks.body(handle))?;
    let freed = Members::one(alloc, handle, saved)?;
    Ok((Change::BlocksOut(freed), Done::Nothing))
}

/// Of the edit that makes a block with the body and the attributes of another, which is in memory.
fn plan_copy_block<S: Store>(
    alloc: Global,
    blocks: &FileBlocks<S>,
    from: VmHandle,
) -> Result<(Change, Done), Fault>
    requires { is_loaded blocks.now from.0 ≡ true }
    ensures { MatchResult result (λ p. Plans (edits.CopyBlock from) blocks.now.document p.0 p.1)
        (RefusesInMemory (edits.CopyBlock from) blocks.now.document) }
{
    let handle = match blocks.next_handle() {
        Some(handle) => handle,
        None => return Err(Fault::NoHandles),
    };
    let copy = imaged_block(alloc, blocks.attributes(from), blocks.body(from))?;
    let made = Members::one(alloc, handle, copy)?;
    Ok((Change::BlocksIn(made), Done::Block(handle)))
}

/// Of the edit that sets the user ID of a block.
fn plan_set_user_id<S: Store>(
    blocks: &FileBlocks<S>,
    handle: VmHandle,
    user_id: u16,
) -> Result<(Change, Done), Fault>
    ensures { MatchResult result (λ p. Plans (edits.SetUserId handle user_id) blocks.now.document p.0 p.1)
        (RefusesInMemory (edits.SetUserId handle user_id) blocks.now.document) }
{
    if !blocks.is_live(handle) {
        return Err(Fault::NoBlock);
    }
    let old = blocks.attributes(handle);
    let change = Change::Attributes {
        handle,
        old,
        new: Attributes { user_id, ..old },
    };
    Ok((change, Done::Nothing))
}

/// Of the edit that sets the type of a heap.
fn plan_set_type<S: Store>(
    blocks: &FileBlocks<S>,
    handle: VmHandle,
    heap_type: u16,
) -> Result<(Change, Done), Fault>
    ensures { MatchResult result (λ p. Plans (edits.SetType handle heap_type) blocks.now.document p.0 p.1)
        (RefusesInMemory (edits.SetType handle heap_type) blocks.now.document) }
{
    if !blocks.is_live(handle) {
        return Err(Fault::NoBlock);
    }
    if !blocks.is_heap(handle) {
        return Err(Fault::WrongKind);
    }
    let old = blocks.attributes(handle);
    let change = Change::Attributes {
        handle,
        old,
        new: Attributes { heap_type, ..old },
    };
    Ok((change, Done::Nothing))
}

/// Of the edit that sets the map block, or with 0 that there is none.
fn plan_set_map<S: Store>(blocks: &FileBlocks<S>, handle: VmHandle) -> Result<(Change, Done), Fault>
    ensures { MatchResult result (λ p. Plans (edits.SetMap handle) blocks.now.document p.0 p.1)
        (RefusesInMemory (edits.SetMap handle) blocks.now.document) }
{
    if handle.0 != 0 && !blocks.is_live(handle) {
        return Err(Fault::NoBlock);
    }
    let old = blocks.map_block();
    Ok((Change::Map { old, new: handle }, Done::Nothing))
}
