//! What stands under a handle: a raw body, a heap or a chunk's bytes, or the refusal that it doesn't.
ghost use Rattle.std.specs.Prelude.{◌≡◌, ◌++◌, ℕ, true, MatchResult, Some};
ghost use Rattle.geos_model.specs.Document.{Document, is_heap, is_raw};
ghost use Rattle.geos_model.specs.Refusal.{Conditions, first_refusal};
ghost use Rattle.geos_model.specs.Meaning.{chunk_at, on_chunk};
ghost use Rattle.vm_blocks.specs.Keeping.{is_loaded};
ghost use Rattle.doc_edits.specs.Found.{AreLate, IsRawAt, IsHeapAt, IsChunkAt, IsChunkLive};

use geos_model::{ChunkHandle, Fault, VmHandle};
use lmem_heap::{Heap, KnownBytes};
use raw_region::RawBody;
use vm_blocks::{BlockBody, FileBlocks};
use vm_store::Store;

/// The body of a raw block in memory.
pub fn raw_at<S: Store>(blocks: &FileBlocks<S>, handle: VmHandle) -> &RawBody
    requires loaded { is_loaded blocks.now handle.0 ≡ true }
    requires raw { is_raw blocks.now.document handle.0 ≡ true }
    ensures { IsRawAt blocks.now.document handle.0 result.now }
{
    match blocks.body(handle) {
        BlockBody::Raw(body) => body,
        BlockBody::Heap(_) => unreachable!(),
    }
}

/// The heap of a block in memory.
pub fn heap_at<S: Store>(blocks: &FileBlocks<S>, handle: VmHandle) -> &Heap
    requires loaded { is_loaded blocks.now handle.0 ≡ true }
    requires heap { is_heap blocks.now.document handle.0 ≡ true }
    ensures { IsHeapAt blocks.now.document handle.0 result.now.chunks }
{
    match blocks.body(handle) {
        BlockBody::Heap(heap) => heap,
        BlockBody::Raw(_) => unreachable!(),
    }
}

/// The bytes of a chunk of a heap, which is that of a block: NoChunk where it isn't live.
pub fn bytes_in(heap: &Heap, chunk: ChunkHandle) -> Result<&[u8], Fault>
    ensures { (d : Document) (b : ℕ) → IsHeapAt d b heap.now.chunks → MatchResult result
        (λ bytes. IsChunkAt d b chunk.0 bytes.now)
        (λ fault. (rest : Conditions) → AreLate rest → first_refusal (on_chunk d b chunk.0 ++ rest) ≡ Some fault) }
{
    heap.chunk(chunk).ok_or(Fault::NoChunk)
}

/// The same, with what is known of them.
pub fn known_in(heap: &Heap, chunk: ChunkHandle) -> Result<KnownBytes<'_>, Fault>
    ensures { (d : Document) (b : ℕ) → IsHeapAt d b heap.now.chunks → MatchResult result
        (λ bytes. IsChunkAt d b chunk.0 bytes)
        (λ fault. (rest : Conditions) → AreLate rest → first_refusal (on_chunk d b chunk.0 ++ rest) ≡ Some fault) }
{
    heap.known_chunk(chunk).ok_or(Fault::NoChunk)
}

/// The bytes of a chunk that is live in a heap in memory, with what is known of them.
pub fn known_at<S: Store>(
    blocks: &FileBlocks<S>,
    block: VmHandle,
    chunk: ChunkHandle,
) -> KnownBytes<'_>
    requires loaded { is_loaded blocks.now block.0 ≡ true }
    requires live { IsChunkLive blocks.now.document block.0 chunk.0 }
    ensures { result ≡ chunk_at blocks.now.document block.0 chunk.0 }
{
    heap_at(blocks, block).known_chunk(chunk).unwrap()
}
