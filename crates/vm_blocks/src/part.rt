//! Changes of a part of a body: whether a body takes one, and its carrying out in place.
ghost use Rattle.std.specs.Prelude.{◌≡◌, ◌+◌, ◌-◌, ◌≤◌, ◌↔◌, ℕ, List, IsTrue, MatchBool, None, Some, true, length, replicate, take};
ghost use Rattle.std.specs.FinMap.{get, insert};
ghost use Rattle.std.specs.List.{splice};
ghost use Rattle.geos_model.specs.Document.{is_valid_body};
ghost use Rattle.geos_model.specs.Heap.{capacity, chunk_bytes, fits_with, is_chunk_handle, is_heap_map};
ghost use Rattle.geos_model.specs.declared.command.Body.TheVariants as bodies;
ghost use Rattle.chunk_edits.specs.Patching.{directed_pieces};
ghost use Rattle.chunk_edits.specs.Splicing.{OccursAt};
ghost use Rattle.lmem_heap.specs.Found.{IsFoundIn, handle_found};
ghost use Rattle.vm_blocks.specs.Bodies.{body_value};
ghost use Rattle.vm_blocks.specs.ByteChanges.{byte_part};
ghost use Rattle.vm_blocks.specs.Allowing.{AllowsRaw, AllowsRawPatch, AllowsChunk, AllowsPatch, AllowsNewChunk};
ghost use Rattle.vm_blocks.specs.Changes.{content_bytes, directed_part};
ghost use Rattle.vm_blocks.specs.Exactness.{HeapHolds, HoldsPart, IsExactPart, RawHolds};
ghost use Rattle.vm_blocks.specs.Parts.{AllowsPart, RawAllowsPart, HeapAllowsPart, body_after_part};
ghost use Rattle.vm_blocks.specs.Runs.{PutsPart, TakesPart};

use crate::frame::Frame;
use crate::{BlockBody, ByteChange, Content, Direction, PartChange};
use chunk_edits::{
    Patch, apply, apply_back, apply_patch, apply_raw, apply_raw_back, apply_raw_patch,
};
use geos_model::ChunkHandle;
use lmem_heap::{FoundChunk, Heap};
use raw_region::{RawBody, SIZE};

/// Whether a body takes a change of a part of it: it is of the kind, and has the range, the room and the chunk.
pub(crate) fn can_take(body: &BlockBody, change: &PartChange, direction: Direction) -> bool
    ensures { IsTrue result ↔ AllowsPart (directed_part direction change.now) (body_value body.now) }
{
    match body {
        BlockBody::Raw(body) => raw_can_take(body, change, direction),
        BlockBody::Heap(heap) => heap_can_take(heap, change, direction),
    }
}

/// Of a raw body.
fn raw_can_take(body: &RawBody, change: &PartChange, direction: Direction) -> bool
    ensures { IsTrue result ↔ RawAllowsPart (directed_part direction change.now) body.now }
{
    match change {
        PartChange::Raw(splice) => {
            let (old, new) = (splice.old(), splice.new());
            match direction {
                Direction::Forwards => raw_allows(body, splice.at(), old, new),
                Direction::Backwards => raw_allows(body, splice.at(), new, old),
            }
        }
        PartChange::RawPatch(patch) => raw_patch_allows(body, patch.as_patch(), direction),
        PartChange::Chunk(_, _)
        | PartChange::Patch(_, _, _)
        | PartChange::ChunkIn(_, _)
        | PartChange::ChunkOut(_, _) => false,
    }
}

/// Of a heap.
fn heap_can_take(heap: &Heap, change: &PartChange, direction: Direction) -> bool
    ensures { IsTrue result ↔ HeapAllowsPart (directed_part direction change.now) heap.now.chunks }
{
    match change {
        PartChange::Chunk(chunk, splice) => {
            let (old, new) = (splice.old(), splice.new());
            match direction {
                Direction::Forwards => chunk_allows(heap, *chunk, splice.at(), old, new),
                Direction::Backwards => chunk_allows(heap, *chunk, splice.at(), new, old),
            }
        }
        PartChange::Patch(chunk, patch, _) => patch_allows(heap, *chunk, patch, direction),
        PartChange::ChunkIn(chunk, content) => match direction {
            Direction::Forwards => allows_new(heap, *chunk, content),
            Direction::Backwards => heap.chunk(*chunk).is_some(),
        },
        PartChange::ChunkOut(chunk, content) => match direction {
            Direction::Forwards => heap.chunk(*chunk).is_some(),
            Direction::Backwards => allows_new(heap, *chunk, content),
        },
        PartChange::Raw(_) | PartChange::RawPatch(_) => false,
    }
}

/// Makes a change of a run of bytes of a block in memory, if its body takes it, and says whether: from then on the file
/// may have another body.
pub(crate) fn change_in_frame(frame: &mut Frame, change: ByteChange<'_>) -> bool
    ensures { MatchBool result (PutsPart (byte_part change.entry) frame.old frame.new)
        ((AllowsPart (byte_part change.entry) (body_value frame.old.body) → ⊥) × (frame.new ≡ frame.old)) }
{
    let is_made = change_body(&mut frame.body, change);
    if is_made {
        frame.changed = true;
    }
    is_made
}

/// Makes it in a body that takes it.
fn change_body(body: &mut BlockBody, change: ByteChange<'_>) -> bool
    ensures { MatchBool result (TakesPart (byte_part change.entry) (body_value body.old) (body_value body.new))
        ((AllowsPart (byte_part change.entry) (body_value body.old) → ⊥) × (body.new ≡ body.old)) }
{
    match (body, change.chunk) {
        (BlockBody::Raw(raw), None) => change_raw(raw, change),
        (BlockBody::Heap(heap), Some(chunk)) => change_chunk(heap, chunk, change),
        (BlockBody::Raw(_), Some(_)) | (BlockBody::Heap(_), None) => false,
    }
}

/// Of a raw body.
fn change_raw(body: &mut RawBody, change: ByteChange<'_>) -> bool
    requires { change.chunk ≡ None }
    ensures { MatchBool result (TakesPart (byte_part change.entry) (bodies.Raw body.old) (bodies.Raw body.new))
        ((AllowsPart (byte_part change.entry) (bodies.Raw body.old) → ⊥) × (body.new ≡ body.old)) }
{
    let is_taken = raw_allows(body, change.at, change.old, change.new);
    if is_taken {
        put_in_raw(body, change.at as usize, change.old.len(), change.new);
    }
    is_taken
}

/// Of a chunk of a heap, which is looked up once.
fn change_chunk(heap: &mut Heap, chunk: ChunkHandle, change: ByteChange<'_>) -> bool
    requires { change.chunk ≡ Some chunk }
    ensures { MatchBool result
        (TakesPart (byte_part change.entry) (bodies.Heap heap.old.chunks) (bodies.Heap heap.new.chunks))
        ((AllowsPart (byte_part change.entry) (bodies.Heap heap.old.chunks) → ⊥) × (heap.new ≡ heap.old)) }
{
    let found = match heap.find_chunk(chunk) {
        Some(found) => found,
        None => return false,
    };
    let is_taken = found_allows(heap, found, change.at, change.old, change.new);
    if is_taken {
        heap.replace_found(found, change.at as usize, change.old.len(), change.new);
    }
    is_taken
}

/// Whether a body takes a change of a part and has what goes, so that the same the other way round gives it back.
pub(crate) fn is_exact(body: &BlockBody, change: &PartChange, direction: Direction) -> bool
    ensures { IsTrue result ↔ IsExactPart (directed_part direction change.now) (body_value body.now) }
{
    can_take(body, change, direction) && holds(body, change, direction)
}

/// It does nothing: its caller learns that a body in memory is one that can be.
pub(crate) fn reveal_invariant(body: &BlockBody)
    ensures { is_valid_body (body_value body.now) ≡ true }
{
    match body {
        BlockBody::Raw(body) => {
            let _bytes = body.bytes();
        }
        BlockBody::Heap(heap) => {
            let _none = heap.chunk(ChunkHandle(0));
        }
    }
}

/// Whether a body has what goes, where it goes.
fn holds(body: &BlockBody, change: &PartChange, direction: Direction) -> bool
    ensures { IsTrue result ↔ HoldsPart (directed_part direction change.now) (body_value body.now) }
{
    match body {
        BlockBody::Raw(body) => raw_holds(body, change, direction),
        BlockBody::Heap(heap) => heap_holds(heap, change, direction),
    }
}

/// Of a raw body.
fn raw_holds(body: &RawBody, change: &PartChange, direction: Direction) -> bool
    ensures { IsTrue result ↔ RawHolds (directed_part direction change.now) body.now }
{
    match change {
        PartChange::Raw(splice) => match direction {
            Direction::Forwards => occurs_at(body.bytes(), splice.at(), splice.old()),
            Direction::Backwards => occurs_at(body.bytes(), splice.at(), splice.new()),
        },
        PartChange::RawPatch(patch) => patch.as_patch().is_of(body.bytes(), direction),
        PartChange::Chunk(_, _)
        | PartChange::Patch(_, _, _)
        | PartChange::ChunkIn(_, _)
        | PartChange::ChunkOut(_, _) => false,
    }
}

/// Of a heap.
fn heap_holds(heap: &Heap, change: &PartChange, direction: Direction) -> bool
    ensures { IsTrue result ↔ HeapHolds (directed_part direction change.now) heap.now.chunks }
{
    match change {
        PartChange::Chunk(chunk, splice) => match direction {
            Direction::Forwards => occurs_at(chunk_bytes(heap, *chunk), splice.at(), splice.old()),
            Direction::Backwards => occurs_at(chunk_bytes(heap, *chunk), splice.at(), splice.new()),
        },
        PartChange::Patch(chunk, patch, _) => patch.is_of(chunk_bytes(heap, *chunk), direction),
        PartChange::ChunkIn(chunk, content) => match direction {
            Direction::Forwards => true,
            Direction::Backwards => has_content(heap, *chunk, content),
        },
        PartChange::ChunkOut(chunk, content) => match direction {
            Direction::Forwards => has_content(heap, *chunk, content),
            Direction::Backwards => true,
        },
        PartChange::Raw(_) | PartChange::RawPatch(_) => false,
    }
}

/// The bytes of a chunk; none where it isn't live.
fn chunk_bytes(heap: &Heap, chunk: ChunkHandle) -> &[u8]
    ensures { result.now ≡ chunk_bytes heap.now.chunks chunk.0 }
{
    heap.chunk(chunk).unwrap_or(&[])
}

/// Whether a part stands at a place of some bytes.
fn occurs_at(bytes: &[u8], at: u32, part: &[u8]) -> bool
    ensures { IsTrue result ↔ OccursAt bytes.now at part.now }
{
    at as usize <= bytes.len() && begins_with(&bytes[at as usize..], part)
}

/// Whether bytes begin with a part.
fn begins_with(bytes: &[u8], part: &[u8]) -> bool
    ensures { IsTrue result ↔ take (length part.now) bytes.now ≡ part.now }
{
    bytes.starts_with(part)
}

/// Whether a chunk is live, with this content.
fn has_content(heap: &Heap, chunk: ChunkHandle, content: &Content) -> bool
    ensures { IsTrue result ↔ get heap.now.chunks chunk.0 ≡ Some (content_bytes content.now) }
{
    match heap.chunk(chunk) {
        Some(bytes) => match content {
            Content::Bytes(content) => bytes == content.as_slice(),
            Content::Zeros(n) => bytes.len() == *n as usize && are_zeros(bytes),
        },
        None => false,
    }
}

/// Whether all bytes are zeros.
fn are_zeros(bytes: &[u8]) -> bool
    ensures { IsTrue result ↔ bytes.now ≡ replicate (length bytes.now) 0 }
{
    for byte in bytes {
        if *byte != 0 {
            return false;
        }
    }
    true
}

/// Whether so many bytes have a part of `k` bytes at a place.
pub(crate) fn is_within(size: usize, at: usize, k: usize) -> bool
    ensures { IsTrue result ↔ at + k ≤ size }
{
    at <= size && k <= size - at
}

/// Whether a raw body has the range of the old part, and room for the new one in its place.
fn raw_allows(body: &RawBody, at: u32, old: &[u8], new: &[u8]) -> bool
    ensures { IsTrue result ↔ AllowsRaw body.now (record { at = at; old = old.now; new = new.now }) }
{
    let size = body.bytes().len();
    is_within(size, at as usize, old.len()) && new.len() <= SIZE - (size - old.len())
}

/// Whether a raw body is of as many bytes as the pieces of a patch, and as many as there are on the way fit.
fn raw_patch_allows(body: &RawBody, patch: &Patch, direction: Direction) -> bool
    ensures { IsTrue result ↔ AllowsRawPatch body.now (directed_pieces direction patch.now) }
{
    patch.size_before(direction) == body.bytes().len() && patch.peak() <= SIZE
}

/// So of a chunk in its heap.
fn chunk_allows(heap: &Heap, chunk: ChunkHandle, at: u32, old: &[u8], new: &[u8]) -> bool
    ensures { IsTrue result ↔ AllowsChunk heap.now.chunks chunk.0 (record { at = at; old = old.now; new = new.now }) }
{
    match heap.find_chunk(chunk) {
        Some(found) => found_allows(heap, found, at, old, new),
        None => false,
    }
}

/// So of one that was found.
fn found_allows(heap: &Heap, found: FoundChunk, at: u32, old: &[u8], new: &[u8]) -> bool
    requires found { IsFoundIn heap.now found }
    requires valid { IsTrue (is_heap_map heap.now.chunks) }
    ensures { IsTrue result
        ↔ AllowsChunk heap.now.chunks (handle_found found) (record { at = at; old = old.now; new = new.now }) }
{
    let size = heap.found_bytes(found).len();
    is_within(size, at as usize, old.len()) && has_room(heap, found, size, old.len(), new.len())
}

/// Whether a chunk is of as many bytes as a patch, and its heap has room for as many as there are on the way.
fn patch_allows(heap: &Heap, chunk: ChunkHandle, patch: &Patch, direction: Direction) -> bool
    ensures { IsTrue result ↔ AllowsPatch heap.now.chunks chunk.0 (directed_pieces direction patch.now) }
{
    match heap.find_chunk(chunk) {
        Some(found) => {
            let size = heap.found_bytes(found).len();
            let is_sized = size == patch.size_before(direction);
            is_sized && has_room(heap, found, size, size, patch.peak())
        }
        None => false,
    }
}

/// Whether a heap has room for a chunk of `size` bytes with `new` ones in place of `old` of them.
pub(crate) fn has_room(heap: &Heap, found: FoundChunk, size: usize, old: usize, new: usize) -> bool
    requires found { IsFoundIn heap.now found }
    requires valid { IsTrue (is_heap_map heap.now.chunks) }
    requires size { size ≡ length (chunk_bytes heap.now.chunks (handle_found found)) }
    requires old { old ≤ size }
    ensures { (bytes : List ℕ) → length bytes ≡ size - old + new
        → result ≡ fits_with heap.now.chunks (handle_found found) bytes }
{
    // As many bytes as go, or fewer, have the room that those had.
    if new <= old {
        return true;
    }
    // No heap has room for more, whatever else is in it.
    new <= SIZE && heap.fits_found(found, (size - old + new) as u32)
}

/// Whether a heap takes a new chunk of this content: its handle can be one and is free, and there is room.
fn allows_new(heap: &Heap, chunk: ChunkHandle, content: &Content) -> bool
    ensures { IsTrue result ↔ AllowsNewChunk heap.now.chunks chunk.0 (content_bytes content.now) }
{
    if !is_handle(chunk) || heap.chunk(chunk).is_some() {
        return false;
    }
    match content {
        Content::Bytes(bytes) => has_room_for_new(heap, chunk, bytes.as_slice().len()),
        Content::Zeros(n) => has_room_for_new(heap, chunk, *n as usize),
    }
}

/// Whether a heap has room for a chunk of `n` bytes under a free handle.
fn has_room_for_new(heap: &Heap, chunk: ChunkHandle, n: usize) -> bool
    requires handle { IsTrue (is_chunk_handle chunk.0) }
    requires free { get heap.now.chunks chunk.0 ≡ None }
    ensures { (bytes : List ℕ) → length bytes ≡ n → result ≡ fits_with heap.now.chunks chunk.0 bytes }
{
    // No heap has room for more, whatever else is in it.
    n <= SIZE && heap.fits_at(chunk, n as u32)
}

/// Whether a chunk can have this handle.
#[tactic(auto, unfolding(geos_model::specs::Heap::is_chunk_handle))]
fn is_handle(chunk: ChunkHandle) -> bool
    ensures { result ≡ is_chunk_handle chunk.0 }
{
    16 <= chunk.0 && chunk.0 <= 0xFFEE && chunk.0 % 2 == 0
}

/// Carries a change of a part of a raw body out in place.
pub(crate) fn carry_out_raw(body: &mut RawBody, change: &PartChange, direction: Direction)
    requires { RawAllowsPart (directed_part direction change.now) body.old }
    ensures { bodies.Raw body.new ≡ body_after_part (directed_part direction change.now) (bodies.Raw body.old) }
{
    match change {
        PartChange::Raw(splice) => match direction {
            Direction::Forwards => apply_raw(body, splice),
            Direction::Backwards => apply_raw_back(body, splice),
        },
        PartChange::RawPatch(patch) => apply_raw_patch(body, patch, direction),
        PartChange::Chunk(_, _)
        | PartChange::Patch(_, _, _)
        | PartChange::ChunkIn(_, _)
        | PartChange::ChunkOut(_, _) => unreachable!(),
    }
}

/// So of a heap.
pub(crate) fn carry_out_heap(heap: &mut Heap, change: &PartChange, direction: Direction)
    requires { HeapAllowsPart (directed_part direction change.now) heap.old.chunks }
    ensures { bodies.Heap heap.new.chunks ≡ body_after_part (directed_part direction change.now)
        (bodies.Heap heap.old.chunks) }
{
    match change {
        PartChange::Chunk(chunk, splice) => match direction {
            Direction::Forwards => apply(heap, *chunk, splice),
            Direction::Backwards => apply_back(heap, *chunk, splice),
        },
        PartChange::Patch(chunk, patch, _) => apply_patch(heap, *chunk, patch, direction),
        PartChange::ChunkIn(chunk, content) => match direction {
            Direction::Forwards => bring_in(heap, *chunk, content),
            Direction::Backwards => heap.free(*chunk),
        },
        PartChange::ChunkOut(chunk, content) => match direction {
            Direction::Forwards => heap.free(*chunk),
            Direction::Backwards => bring_in(heap, *chunk, content),
        },
        PartChange::Raw(_) | PartChange::RawPatch(_) => unreachable!(),
    }
}

/// Puts `new` in the place of `count` bytes of a raw body. As many are written over without a move of others.
pub(crate) fn put_in_raw(body: &mut RawBody, at: usize, count: usize, new: &[u8])
    requires within { at + count ≤ length body.old }
    requires room { length body.old + length new.now ≤ capacity + count }
    ensures { body.new ≡ splice body.old at (at + count) new.now }
{
    if new.len() == count {
        body.copy_in(at, new);
    } else {
        body.replace(at, count, new);
    }
}

/// A new chunk of this content, under a free handle.
fn bring_in(heap: &mut Heap, chunk: ChunkHandle, content: &Content)
    requires { AllowsNewChunk heap.old.chunks chunk.0 (content_bytes content.now) }
    ensures { heap.new.chunks ≡ insert heap.old.chunks chunk.0 (content_bytes content.now) }
{
    match content {
        Content::Bytes(bytes) => fill_chunk(heap, chunk, bytes.as_slice()),
        Content::Zeros(n) => heap.alloc_at(chunk, *n),
    }
}

/// A new chunk of these bytes, under a free handle.
fn fill_chunk(heap: &mut Heap, chunk: ChunkHandle, bytes: &[u8])
    requires { AllowsNewChunk heap.old.chunks chunk.0 bytes.now }
    ensures { heap.new.chunks ≡ insert heap.old.chunks chunk.0 bytes.now }
{
    heap.alloc_at(chunk, bytes.len() as u32);
    heap.write(chunk, 0, bytes);
}
