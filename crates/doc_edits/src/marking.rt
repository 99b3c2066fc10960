//! Which chunks are known to be arrays: one that was tested once isn't tested again until something else changes it.
ghost use Rattle.std.specs.Prelude.{◌≡◌, ◌≢◌, ◌++◌, true, MatchResult, Some};
ghost use Rattle.std.specs.FinMap.{contains_key};
ghost use Rattle.geos_model.specs.Document.{is_heap};
ghost use Rattle.geos_model.specs.Heap.{is_heap_map};
ghost use Rattle.geos_model.specs.Meaning.{on_chunk};
ghost use Rattle.geos_model.specs.Refusal.{Conditions, first_refusal};
ghost use Rattle.geos_model.specs.Targets.{array_edit, edit_of};
ghost use Rattle.geos_model.specs.declared.handle.ChunkHandle.{ChunkHandle};
ghost use Rattle.geos_model.specs.declared.handle.VmHandle.{VmHandle};
ghost use Rattle.geos_model.specs.declared.target.ArrayEdit.{ArrayEdit};
ghost use Rattle.lmem_heap.specs.Known.{is_array_of};
ghost use Rattle.lmem_heap.specs.declared.known.ArrayKind.TheVariants as kinds;
ghost use Rattle.vm_blocks.specs.Keeping.{is_loaded};
ghost use Rattle.doc_edits.specs.Found.{AreLate, IsChunkLive};
ghost use Rattle.doc_edits.specs.Marking.{array_kind, IsJustEdited};

use crate::found::{heap_at, known_in};
use geos_model::{ArrayEdit, ChunkEdit, ChunkHandle, Fault, Target, VmHandle};
use lmem_heap::{ArrayKind, Heap, KnownBytes};
use vm_blocks::FileBlocks;
use vm_store::Store;

/// Of which kind the array is that an edit is for.
pub(crate) fn array_kind(edit: ArrayEdit<'_>) -> ArrayKind
    ensures { result ≡ array_kind edit.entry }
{
    match edit {
        ArrayEdit::Chunk(_) => ArrayKind::Chunk,
        ArrayEdit::Element(_) => ArrayKind::Element,
        ArrayEdit::Name(_) => ArrayKind::Name,
    }
}

/// Tests the chunk of an array that an edit is for, in a heap in memory. An edit of a chunk array looks at its elements
/// itself, and but once, so that nothing is gained by a test before it: what the edit leaves is kept in mind.
pub(crate) fn test_edited<S: Store>(
    blocks: &mut FileBlocks<S>,
    block: VmHandle,
    chunk: ChunkHandle,
    edit: ArrayEdit<'_>,
)
    requires loaded { is_loaded blocks.old block.0 ≡ true }
    requires heap { is_heap blocks.old.document block.0 ≡ true }
    ensures { blocks.new ≡ blocks.old }
{
    match array_kind(edit) {
        ArrayKind::Chunk => {}
        kind => {
            let _ = test_array(blocks, block, chunk, kind);
        }
    }
}

/// Tests a chunk of a heap in memory, unless it is known to be an array of the kind, and keeps in mind if it is one.
/// NoChunk where it isn't live.
pub(crate) fn test_array<S: Store>(
    blocks: &mut FileBlocks<S>,
    block: VmHandle,
    chunk: ChunkHandle,
    kind: ArrayKind,
) -> Result<(), Fault>
    requires loaded { is_loaded blocks.old block.0 ≡ true }
    requires heap { is_heap blocks.old.document block.0 ≡ true }
    ensures same { blocks.new ≡ blocks.old }
    ensures live { MatchResult result (λ _. IsChunkLive blocks.old.document block.0 chunk.0)
        (λ fault. (rest : Conditions) → AreLate rest
        → first_refusal (on_chunk blocks.old.document block.0 chunk.0 ++ rest) ≡ Some fault) }
{
    let is_new = {
        let bytes = known_in(heap_at(blocks, block), chunk)?;
        is_new_array(&bytes, kind)
    };
    if is_new {
        blocks.mark_array(block, chunk, kind);
    }
    Ok(())
}

/// Whether bytes are an array of a kind that it takes a walk over its elements to test, and weren't known to be one. Of
/// a chunk array with elements of one size the header is tested alone, so that there is nothing to keep in mind.
fn is_new_array(bytes: &KnownBytes<'_>, kind: ArrayKind) -> bool
    ensures { result ≡ true → is_array_of kind bytes.now ≡ true }
{
    takes_walk(bytes.bytes(), kind) && !bytes.is_known(kind) && is_array(bytes, kind)
}

/// Whether bytes are an array of a kind.
fn is_array(bytes: &KnownBytes<'_>, kind: ArrayKind) -> bool
    ensures { result ≡ is_array_of kind bytes.now }
{
    match kind {
        ArrayKind::Chunk => chunk_arrays::is_array(bytes),
        ArrayKind::Element => element_arrays::is_element_array(bytes),
        ArrayKind::Name => name_arrays::is_name_array(bytes),
    }
}

/// Whether a test of a kind reads all elements of an array, and not its header alone.
fn takes_walk(bytes: &[u8], kind: ArrayKind) -> bool
    ensures { kind ≢ kinds.Chunk → result ≡ true }
{
    match kind {
        ArrayKind::Chunk => !chunk_arrays::has_one_size(bytes),
        ArrayKind::Element | ArrayKind::Name => true,
    }
}

/// Keeps in mind that an array is one still after an edit of it that was just made: no edit of an array leaves anything
/// else. Nothing is read but the header of the array, and nothing that a caller sees changes.
pub fn mark_edited<S: Store>(blocks: &mut FileBlocks<S>, target: Target<'_>)
    requires { (b : VmHandle) (c : ChunkHandle) (array : ArrayEdit) → edit_of target ≡ array_edit b c array
        → IsJustEdited (edit_of target) b blocks.old }
    ensures { blocks.new ≡ blocks.old }
{
    if let Target::Chunk(block, chunk, ChunkEdit::Array(edit)) = target {
        let kind = array_kind(edit);
        if is_worth_a_mark(heap_at(blocks, block), chunk, kind) {
            blocks.mark_array(block, chunk, kind);
        }
    }
}

/// Whether a heap has a chunk with an array that it takes a walk to test.
fn is_worth_a_mark(heap: &Heap, chunk: ChunkHandle, kind: ArrayKind) -> bool
    ensures live { result ≡ true → contains_key heap.now.chunks chunk.0 ≡ true }
    ensures valid { is_heap_map heap.now.chunks ≡ true }
{
    match heap.chunk(chunk) {
        Some(bytes) => takes_walk(bytes, kind),
        None => false,
    }
}
