//! Heaps that are compared.
#![tactic(auto, using(crate::proofs::Texts::texts))]

ghost use Rattle.std.specs.Prelude.{◌≡◌, ◌++◌, IfOk, OnOk, Some};
ghost use Rattle.std.specs.Option.{option_copied, option_map};
ghost use Rattle.std.specs.FinMap.{get};
ghost use Rattle.document_diff.specs.Differences.{chunk_compared, heap_compared};
ghost use Rattle.document_diff.specs.Lines.{diff_lines};
ghost use Rattle.document_diff.specs.Merging.{handle_numbers, lesser_first, live_chunks, rest_behind};

use crate::bytes::{bytes_change, is_same};
use crate::difference::Difference;
use crate::lines::push_difference;
use geos_model::{ChunkHandle, VmHandle};
use lmem_heap::Heap;
use std::alloc::AllocError;

// What is under a handle in one heap and in the other.
fn push_chunk(
    out: &mut Vec<u8>,
    block: VmHandle,
    chunk: ChunkHandle,
    old: Option<&[u8]>,
    new: Option<&[u8]>,
) -> Result<(), AllocError>
    ensures { OnOk result (out.new.items ≡ out.old.items
        ++ diff_lines (chunk_compared block chunk (option_copied old.entry) (option_copied new.entry))) }
{
    match (old, new) {
        (None, None) => Ok(()),
        (Some(old), None) => push_difference(out, Difference::ChunkWent(block, chunk, old.len())),
        (None, Some(new)) => push_difference(out, Difference::ChunkCame(block, chunk, new.len())),
        (Some(old), Some(new)) => push_both(out, block, chunk, old, new),
    }
}

// A chunk that is in both.
fn push_both(
    out: &mut Vec<u8>,
    block: VmHandle,
    chunk: ChunkHandle,
    old: &[u8],
    new: &[u8],
) -> Result<(), AllocError>
    ensures { OnOk result (out.new.items ≡ out.old.items
        ++ diff_lines (chunk_compared block chunk (Some old.now) (Some new.now))) }
{
    if is_same(old, new) {
        return Ok(());
    }
    push_difference(
        out,
        Difference::ChunkChanged(block, chunk, bytes_change(old, new)),
    )
}

// What is under a handle in both heaps.
fn push_entry(
    out: &mut Vec<u8>,
    block: VmHandle,
    chunk: ChunkHandle,
    old: &Heap,
    new: &Heap,
) -> Result<(), AllocError>
    ensures { OnOk result (out.new.items ≡ out.old.items ++ diff_lines (chunk_compared block chunk
        (get old.now.chunks chunk.0) (get new.now.chunks chunk.0))) }
{
    push_chunk(out, block, chunk, old.chunk(chunk), new.chunk(chunk))
}

// The handles of a heap's chunks, rising.
fn live_handles(heap: &Heap) -> Result<Vec<ChunkHandle>, AllocError>
    ensures { IfOk result (λ handles. handle_numbers handles.items ≡ live_chunks heap.now.chunks) }
{
    // That all its handles are chunk handles, `chunk` tells of a heap, and `handles` doesn't.
    let _ = heap.chunk(ChunkHandle(0));
    heap.handles()
}

// The least handle of two lists that rise.
fn least_handle(old: &[ChunkHandle], new: &[ChunkHandle]) -> Option<ChunkHandle>
    ensures { option_map (λ h. h.0) result ≡ lesser_first (handle_numbers old.now) (handle_numbers new.now) }
{
    match (old, new) {
        ([], []) => None,
        ([first, ..], []) | ([], [first, ..]) => Some(*first),
        ([before, ..], [after, ..]) => Some(ChunkHandle(before.0.min(after.0))),
    }
}

// What is left of a list that rises, of which no handle is below this one.
fn behind(handles: &[ChunkHandle], chunk: ChunkHandle) -> &[ChunkHandle]
    ensures { handle_numbers result.now ≡ rest_behind chunk.0 (handle_numbers handles.now) }
{
    match handles {
        [first, rest @ ..] if first.0 == chunk.0 => rest,
        _ => handles,
    }
}

/// What differs between two heaps under a handle, by rising chunk handles. The chunks of both are walked side by side.
pub fn push_heaps(
    out: &mut Vec<u8>,
    block: VmHandle,
    old: &Heap,
    new: &Heap,
) -> Result<(), AllocError>
    ensures { OnOk result
        (out.new.items ≡ out.old.items ++ diff_lines (heap_compared block old.now.chunks new.now.chunks)) }
{
    let old_handles = live_handles(old)?;
    let new_handles = live_handles(new)?;
    let mut before = old_handles.as_slice();
    let mut after = new_handles.as_slice();
    while let Some(chunk) = least_handle(before, after) {
        push_entry(out, block, chunk, old, new)?;
        before = behind(before, chunk);
        after = behind(after, chunk);
    }
    Ok(())
}
