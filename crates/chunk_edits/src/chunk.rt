//! Edits of a heap's chunk: the splice that each makes, and how a splice is applied and taken back. Who asks for a
//! splice has found the bytes of the chunk, and hands them in.
ghost use Rattle.std.specs.Prelude.{◌≡◌, ◌≤◌, ◌<◌, ◌+◌, ◌-◌, ◌*◌, ◌++◌, ℕ, List, true, IsTrue, IfOk, MatchResult, length, take, drop, min};
ghost use Rattle.std.specs.List.{splice};
ghost use Rattle.std.specs.FinMap.{insert, contains_key};
ghost use Rattle.geos_model.specs.Bytes.{written, spliced, resized, inserted, deleted};
ghost use Rattle.geos_model.specs.Cost.{difference};
ghost use Rattle.geos_model.specs.Heap.{chunk_bytes, fits_with, is_heap_map, capacity};
ghost use Rattle.geos_model.specs.Meaning.{past_end, no_room};
ghost use Rattle.chunk_edits.specs.Found.{IsChunkIn};
ghost use Rattle.chunk_edits.specs.Runs.{LiesAt};
ghost use Rattle.chunk_edits.specs.Splicing.{Builds, RefusesToBuild, forwards, backwards};

use crate::parts::{Splice, part};
use geos_model::{ChunkHandle, Fault};
use lmem_heap::Heap;
use std::alloc::Global;

/// Puts the new part in the place of the old one.
pub fn apply(heap: &mut Heap, h: ChunkHandle, splice: &Splice)
    requires live { IsTrue (contains_key heap.old.chunks h.0) }
    requires within { splice.now.at + length splice.now.old ≤ length (chunk_bytes heap.old.chunks h.0) }
    requires fits { IsTrue (fits_with heap.old.chunks h.0 (forwards splice.now (chunk_bytes heap.old.chunks h.0))) }
    ensures { heap.new.chunks ≡ insert heap.old.chunks h.0 (forwards splice.now (chunk_bytes heap.old.chunks h.0)) }
{
    let old = splice.old().len();
    put(heap, h, splice.at() as usize, old, splice.new());
}

/// Puts the old part in the place of the new one, which takes `apply` back.
pub fn apply_back(heap: &mut Heap, h: ChunkHandle, splice: &Splice)
    requires live { IsTrue (contains_key heap.old.chunks h.0) }
    requires within { splice.now.at + length splice.now.new ≤ length (chunk_bytes heap.old.chunks h.0) }
    requires fits { IsTrue (fits_with heap.old.chunks h.0 (backwards splice.now (chunk_bytes heap.old.chunks h.0))) }
    ensures { heap.new.chunks ≡ insert heap.old.chunks h.0 (backwards splice.now (chunk_bytes heap.old.chunks h.0)) }
{
    let new = splice.new().len();
    put(heap, h, splice.at() as usize, new, splice.old());
}

/// Puts bytes in the place of the `k` bytes at `at` of a chunk. As many are written over without a move of others.
pub(crate) fn put(heap: &mut Heap, h: ChunkHandle, at: usize, k: usize, bytes: &[u8])
    requires live { IsTrue (contains_key heap.old.chunks h.0) }
    requires within { at + k ≤ length (chunk_bytes heap.old.chunks h.0) }
    requires fits { IsTrue
        (fits_with heap.old.chunks h.0 (splice (chunk_bytes heap.old.chunks h.0) at (at + k) bytes.now)) }
    ensures { heap.new.chunks ≡
        insert heap.old.chunks h.0 (splice (chunk_bytes heap.old.chunks h.0) at (at + k) bytes.now) }
{
    if bytes.len() == k {
        heap.write(h, at, bytes);
    } else {
        heap.replace(h, at, k, bytes);
    }
}

/// The splice that writes over the bytes of a chunk from `at` on. Range where that reaches past the chunk's end.
pub fn write(alloc: Global, bytes: &[u8], at: u32, new: &[u8]) -> Result<Splice, Fault>
    requires { length bytes.now ≤ capacity }
    ensures built { MatchResult result
        (λ s. Builds (past_end bytes.now (at + length new.now)) s bytes.now (written bytes.now at new.now)
        (2 * length new.now))
        (RefusesToBuild (past_end bytes.now (at + length new.now))) }
    ensures no_longer { IfOk result (λ s. length (written bytes.now at new.now) ≤ length bytes.now) }
    ensures run { IfOk result (λ s. LiesAt s at (length new.now) (length new.now)) }
{
    let old = part(bytes, at as usize, new.len())?;
    Ok(Splice::of(alloc, at, old, new)?)
}

/// The splice that puts bytes in the place of the `n` bytes at `at` of a chunk. Range where these reach past its end,
/// Full where the heap has no room for the new ones.
pub fn splice(
    alloc: Global,
    heap: &Heap,
    h: ChunkHandle,
    bytes: &[u8],
    at: u32,
    n: u32,
    new: &[u8],
) -> Result<Splice, Fault>
    requires { IsChunkIn heap.now.chunks h.0 bytes.now }
    ensures built { MatchResult result
        (λ s. Builds
        (past_end bytes.now (at + n) ++ no_room heap.now.chunks h.0 (spliced bytes.now at n new.now)) s
        bytes.now (spliced bytes.now at n new.now) (n + length new.now))
        (RefusesToBuild
        (past_end bytes.now (at + n) ++ no_room heap.now.chunks h.0 (spliced bytes.now at n new.now))) }
    ensures fits { IfOk result (λ s. IsTrue (fits_with heap.now.chunks h.0 (spliced bytes.now at n new.now))) }
    ensures run { IfOk result (λ s. LiesAt s at n (length new.now)) }
{
    let old = part(bytes, at as usize, n as usize)?;
    let others = bytes.len() - old.len();
    if !fits_size(heap, h, others + new.len()) {
        return Err(Fault::Full);
    }
    Ok(Splice::of(alloc, at, old, new)?)
}

/// The splice that puts `n` zeros in before the byte at `at` of a chunk. Range where `at` is past the chunk's end, Full
/// where the heap has no room for them.
pub fn insert(
    alloc: Global,
    heap: &Heap,
    h: ChunkHandle,
    bytes: &[u8],
    at: u32,
    n: u32,
) -> Result<Splice, Fault>
    requires { IsChunkIn heap.now.chunks h.0 bytes.now }
    ensures built { MatchResult result
        (λ s. Builds (past_end bytes.now at ++ no_room heap.now.chunks h.0 (inserted bytes.now at n)) s
        bytes.now (inserted bytes.now at n) n)
        (RefusesToBuild (past_end bytes.now at ++ no_room heap.now.chunks h.0 (inserted bytes.now at n))) }
    ensures fits { IfOk result (λ s. IsTrue (fits_with heap.now.chunks h.0 (inserted bytes.now at n))) }
    ensures run { IfOk result (λ s. LiesAt s at 0 n) }
{
    if at as usize > bytes.len() {
        return Err(Fault::Range);
    }
    if !fits_size(heap, h, bytes.len() + n as usize) {
        return Err(Fault::Full);
    }
    Ok(Splice::of_zeros(alloc, at, &[], n)?)
}

/// The splice that takes `n` bytes out of a chunk from `at` on. Range where they reach past the chunk's end.
pub fn delete(alloc: Global, bytes: &[u8], at: u32, n: u32) -> Result<Splice, Fault>
    requires { length bytes.now ≤ capacity }
    ensures built { MatchResult result
        (λ s. Builds (past_end bytes.now (at + n)) s bytes.now (deleted bytes.now at n) n)
        (RefusesToBuild (past_end bytes.now (at + n))) }
    ensures no_longer { IfOk result (λ s. length (deleted bytes.now at n) ≤ length bytes.now) }
    ensures run { IfOk result (λ s. LiesAt s at n 0) }
{
    let gone = part(bytes, at as usize, n as usize)?;
    Ok(Splice::of(alloc, at, gone, &[])?)
}

/// The splice that cuts a chunk at its end, or adds zeros there, so that it has `n` bytes. Full where the heap has no
/// room for them.
pub fn resize(
    alloc: Global,
    heap: &Heap,
    h: ChunkHandle,
    bytes: &[u8],
    n: u32,
) -> Result<Splice, Fault>
    requires { IsChunkIn heap.now.chunks h.0 bytes.now }
    ensures built { MatchResult result
        (λ s. Builds (no_room heap.now.chunks h.0 (resized bytes.now n)) s
        bytes.now (resized bytes.now n) (difference n (length bytes.now)))
        (RefusesToBuild (no_room heap.now.chunks h.0 (resized bytes.now n))) }
    ensures fits { IfOk result (λ s. IsTrue (fits_with heap.now.chunks h.0 (resized bytes.now n))) }
    ensures run { IfOk result
        (λ s. LiesAt s (min n (length bytes.now)) (length bytes.now - n) (n - length bytes.now)) }
{
    if !heap.fits_resize(h, n) {
        return Err(Fault::Full);
    }
    let kept = n.min(bytes.len() as u32);
    Ok(Splice::of_zeros(alloc, kept, &bytes[kept as usize..], n - kept)?)
}

/// The bytes of a live chunk.
pub(crate) fn chunk_of(heap: &Heap, h: ChunkHandle) -> &[u8]
    requires { IsTrue (contains_key heap.now.chunks h.0) }
    ensures value { result.now ≡ chunk_bytes heap.now.chunks h.0 }
    ensures short { length (chunk_bytes heap.now.chunks h.0) ≤ capacity }
    ensures valid { is_heap_map heap.now.chunks ≡ true }
{
    match heap.chunk(h) {
        Some(bytes) => bytes,
        None => unreachable!(),
    }
}

/// Whether the heap has room for a live chunk with a size of `n` bytes.
fn fits_size(heap: &Heap, h: ChunkHandle, n: usize) -> bool
    requires live { IsTrue (contains_key heap.now.chunks h.0) }
    requires valid { is_heap_map heap.now.chunks ≡ true }
    ensures { (bytes : List ℕ) → length bytes ≡ n → result ≡ fits_with heap.now.chunks h.0 bytes }
{
    // No heap has room for as many bytes as the greatest `u32`, at which the size is cut.
    heap.fits_resize(h, n.min(u32::MAX as usize) as u32)
}
