//! Plans of edits inside a heap: of a chunk, of an array in one, and of a new chunk, where there is room for it.
ghost use Rattle.std.specs.Prelude.{◌≡◌, ◌<◌, ◌≤◌, true, false, IsTrue, MatchOption, MatchResult, None, Some, length};
ghost use Rattle.std.specs.FinMap.{contains_key, get};
ghost use Rattle.geos_model.specs.Document.{is_heap};
ghost use Rattle.geos_model.specs.Heap.{chunk_bytes, fits_with, fits_new, is_chunk_handle, is_heap_map, next_chunk};
ghost use Rattle.geos_model.specs.Targets.{array_edit, byte_edit, new_chunk};
ghost use Rattle.geos_model.specs.declared.command.Edit.TheVariants as edits;
ghost use Rattle.chunk_edits.specs.Patching.{patched};
ghost use Rattle.vm_blocks.specs.Keeping.{is_loaded};
ghost use Rattle.vm_blocks.specs.Allowing.{AllowsNewChunk};
ghost use Rattle.vm_blocks.specs.Changes.{content_bytes};
ghost use Rattle.vm_blocks.specs.declared.change.PartChange.TheVariants as parts;
ghost use Rattle.doc_edits.specs.Building.{IsBuilt};
ghost use Rattle.doc_edits.specs.Planning.{Plans, RefusesInMemory};

use crate::building::{build_chunk, build_patch, build_splice};
use crate::found::{bytes_in, heap_at, known_in};
use chunk_edits::{ArrayPatch, Direction, copied};
use geos_model::{ArrayEdit, ByteEdit, ChunkHandle, Done, Fault, NewChunk, VmHandle};
use lmem_heap::Heap;
use std::alloc::Global;
use vm_blocks::{Change, Content, FileBlocks, PartChange};
use vm_store::Store;

/// Of an edit of a chunk's bytes as such: Full where the heap has no room for them.
pub fn plan_bytes<S: Store>(
    alloc: Global,
    blocks: &FileBlocks<S>,
    handle: VmHandle,
    chunk: ChunkHandle,
    edit: ByteEdit<'_>,
) -> Result<(Change, Done), Fault>
    requires loaded { is_loaded blocks.now handle.0 ≡ true }
    requires heap { is_heap blocks.now.document handle.0 ≡ true }
    ensures { MatchResult result (λ p. Plans (byte_edit handle chunk edit.entry) blocks.now.document p.0 p.1)
        (RefusesInMemory (byte_edit handle chunk edit.entry) blocks.now.document) }
{
    let heap = heap_at(blocks, handle);
    let bytes = bytes_in(heap, chunk)?;
    let splice = build_splice(alloc, heap, chunk, bytes, edit)?;
    Ok((
        Change::Part(handle, PartChange::Chunk(chunk, splice)),
        Done::Nothing,
    ))
}

/// Of an edit of the array in a chunk: Full where the heap has no room for what it makes.
pub fn plan_array<S: Store>(
    alloc: Global,
    blocks: &FileBlocks<S>,
    handle: VmHandle,
    chunk: ChunkHandle,
    edit: ArrayEdit<'_>,
) -> Result<(Change, Done), Fault>
    requires loaded { is_loaded blocks.now handle.0 ≡ true }
    requires heap { is_heap blocks.now.document handle.0 ≡ true }
    ensures { MatchResult result (λ p. Plans (array_edit handle chunk edit.entry) blocks.now.document p.0 p.1)
        (RefusesInMemory (array_edit handle chunk edit.entry) blocks.now.document) }
{
    let heap = heap_at(blocks, handle);
    let bytes = known_in(heap, chunk)?;
    let (built, done) = build_patch(alloc, &bytes, edit)?;
    if !has_room(heap, chunk, bytes.bytes().len(), &built) {
        return Err(Fault::Full);
    }
    let part = PartChange::Patch(chunk, built.patch, built.runs);
    Ok((Change::Part(handle, part), done))
}

/// Whether the heap has room for what a patch makes of the bytes of a chunk, of which there are so many: it has for no
/// more than these, without being asked.
fn has_room(heap: &Heap, chunk: ChunkHandle, len: usize, built: &ArrayPatch) -> bool
    requires live { IsTrue (contains_key heap.now.chunks chunk.0) }
    requires valid { is_heap_map heap.now.chunks ≡ true }
    requires len { len ≡ length (chunk_bytes heap.now.chunks chunk.0) }
    requires built { IsBuilt (parts.Patch chunk built.now.patch built.now.runs) (chunk_bytes heap.now.chunks chunk.0) }
    ensures { result
        ≡ fits_with heap.now.chunks chunk.0 (patched built.now.patch (chunk_bytes heap.now.chunks chunk.0)) }
{
    let size = built.patch.size_before(Direction::Backwards);
    if size <= len {
        return true;
    }
    heap.fits_resize(chunk, size as u32)
}

/// Of an edit that makes a chunk: Full where the heap has no handle or no room for it.
pub fn plan_new_chunk<S: Store>(
    alloc: Global,
    blocks: &FileBlocks<S>,
    handle: VmHandle,
    new: NewChunk,
) -> Result<(Change, Done), Fault>
    requires loaded { is_loaded blocks.now handle.0 ≡ true }
    requires heap { is_heap blocks.now.document handle.0 ≡ true }
    ensures { MatchResult result (λ p. Plans (new_chunk handle new) blocks.now.document p.0 p.1)
        (RefusesInMemory (new_chunk handle new) blocks.now.document) }
{
    let heap = heap_at(blocks, handle);
    let content = build_chunk(alloc, new)?;
    match free_place(heap, &content) {
        Some(chunk) => Ok((
            Change::Part(handle, PartChange::ChunkIn(chunk, content)),
            Done::Chunk(chunk),
        )),
        None => Err(Fault::Full),
    }
}

/// The least free handle of a heap, if it has room for a new chunk there.
fn free_place(heap: &Heap, content: &Content) -> Option<ChunkHandle>
    ensures { MatchOption result (fits_new heap.now.chunks (content_bytes content.now) ≡ false)
        (λ chunk. (next_chunk heap.now.chunks ≡ Some chunk.0)
        × AllowsNewChunk heap.now.chunks chunk.0 (content_bytes content.now)) }
{
    let chunk = heap.next_handle()?;
    let size = size_of(content)?;
    if heap.fits_at(chunk, size) {
        Some(chunk)
    } else {
        None
    }
}

/// How many bytes a new chunk has, if a word of 32 bits holds their number.
fn size_of(content: &Content) -> Option<u32>
    ensures { MatchOption result (4294967296 ≤ length (content_bytes content.now))
        (λ n. n ≡ length (content_bytes content.now)) }
{
    match content {
        Content::Zeros(n) => Some(*n),
        Content::Bytes(bytes) => match u32::try_from(bytes.as_slice().len()) {
            Ok(n) => Some(n),
            Err(_) => None,
        },
    }
}

/// Of the edit that frees a chunk.
pub fn plan_free_chunk<S: Store>(
    alloc: Global,
    blocks: &FileBlocks<S>,
    handle: VmHandle,
    chunk: ChunkHandle,
) -> Result<(Change, Done), Fault>
    requires loaded { is_loaded blocks.now handle.0 ≡ true }
    requires heap { is_heap blocks.now.document handle.0 ≡ true }
    ensures { MatchResult result (λ p. Plans (edits.Free handle chunk) blocks.now.document p.0 p.1)
        (RefusesInMemory (edits.Free handle chunk) blocks.now.document) }
{
    let heap = heap_at(blocks, handle);
    let bytes = bytes_in(heap, chunk)?;
    let content = Content::Bytes(copied(alloc, bytes)?);
    Ok((
        Change::Part(handle, PartChange::ChunkOut(chunk, content)),
        Done::Nothing,
    ))
}
