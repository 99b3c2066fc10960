//! Edits of an array, each as a patch of all bytes of a chunk, and where it changes them.
ghost use Rattle.std.specs.Prelude.{◌≡◌, ◌≤◌, ◌+◌, ◌==◌, ◌++◌, None, true, false, MatchResult, length};
ghost use Rattle.geos_model.specs.Refusal.{first_refusal};
ghost use Rattle.geos_model.specs.Array.{array_bytes};
ghost use Rattle.geos_model.specs.ArrayEdits.{array_in, new_array, element_inserted, element_set, element_resized, elements_deleted, array_zeroed, on_array, create_conditions, insert_conditions, set_conditions, resize_conditions, delete_conditions, too_long, is_missized};
ghost use Rattle.geos_model.specs.Bytes.{resized};
ghost use Rattle.geos_model.specs.Heap.{longest_chunk};
ghost use Rattle.chunk_arrays.specs.Rewriting.{bytes_of};
ghost use Rattle.chunk_edits.specs.Splicing.{RefusesToBuild};
ghost use Rattle.chunk_arrays.specs.Replacing.{ReplacesAt, RefusesToReplace};

use crate::even::{set_even, splice_even};
use crate::rewriting::{NewElement, push_header, rewrite};
use crate::view::{View, check};
use chunk_edits::ArrayPatch;
use geos_model::{Fault, LONGEST_CHUNK};
use lmem_heap::KnownBytes;
use std::alloc::Global;

/// The greatest size of each element that an array can be made with.
pub const GREATEST_SIZE: u32 = 4096;

/// How many extra bytes an array can be made with at most.
const GREATEST_EXTRA: u32 = 1024;

/// The bytes of an array without elements: the size that each will have, 0 where sizes vary, and how many zeros as
/// extra bytes. Range past 4,096 or past 1,024.
pub fn create_bytes(alloc: Global, size: u32, extra: u32) -> Result<Vec<u8>, Fault>
    ensures { MatchResult result
        (λ bytes. (first_refusal (create_conditions size extra) ≡ None) ×
        (bytes.items ≡ array_bytes (new_array size extra)))
        (RefusesToBuild (create_conditions size extra)) }
{
    if size > GREATEST_SIZE || extra > GREATEST_EXTRA {
        return Err(Fault::Range);
    }
    let start = 8 + extra as usize;
    let mut bytes = Vec::with_capacity(alloc, start)?;
    push_header(&mut bytes, 0, size as usize, start)?;
    bytes.resize(start, 0)?;
    Ok(bytes)
}

/// The patch that makes these bytes an element before element `i`. NotArray; Range where `i` is past the count, or the
/// array has elements of another size; Full where the array would be longer than any chunk.
pub fn insert(
    alloc: Global,
    bytes: &KnownBytes<'_>,
    i: u32,
    element: &[u8],
) -> Result<ArrayPatch, Fault>
    ensures { MatchResult result
        (ReplacesAt (insert_conditions bytes.now i element.now) bytes.now
        (element_inserted bytes.now i element.now) i i 1)
        (RefusesToReplace (insert_conditions bytes.now i element.now) (element_inserted bytes.now i element.now)) }
{
    let view = check(bytes)?;
    let at = i as usize;
    if at > view.count() || is_missized(view.element_size(), element) {
        return Err(Fault::Range);
    }
    if is_even(&view) {
        return splice_even(alloc, &view, at, at, element, 1);
    }
    rewrite(alloc, &view, &[], at, at, Some(whole(element)))
}

/// The patch that gives element `i` these bytes in place of its own. NotArray, NoElement; Range where the array has
/// elements of another size; Full where the array would be longer than any chunk.
pub fn set(
    alloc: Global,
    bytes: &KnownBytes<'_>,
    i: u32,
    element: &[u8],
) -> Result<ArrayPatch, Fault>
    ensures { MatchResult result
        (ReplacesAt (set_conditions bytes.now i element.now) bytes.now
        (element_set bytes.now i element.now) i (i + 1) 1)
        (RefusesToReplace (set_conditions bytes.now i element.now) (element_set bytes.now i element.now)) }
{
    let view = check(bytes)?;
    let at = i as usize;
    if at >= view.count() {
        return Err(Fault::NoElement);
    }
    if is_missized(view.element_size(), element) {
        return Err(Fault::Range);
    }
    if view.element_size() != 0 {
        return set_even(alloc, &view, at, element);
    }
    rewrite(alloc, &view, &[], at, at + 1, Some(whole(element)))
}

/// The patch that cuts element `i` at its end, or adds zeros there, so that it has `n` bytes. NotArray, NoElement;
/// Range where the array has elements of one size; Full where the array would be longer than any chunk.
pub fn resize(alloc: Global, bytes: &KnownBytes<'_>, i: u32, n: u32) -> Result<ArrayPatch, Fault>
    ensures { MatchResult result
        (ReplacesAt (resize_conditions bytes.now i) bytes.now (element_resized bytes.now i n) i (i + 1) 1)
        (RefusesToReplace (resize_conditions bytes.now i) (element_resized bytes.now i n)) }
{
    let view = check(bytes)?;
    let at = i as usize;
    if at >= view.count() {
        return Err(Fault::NoElement);
    }
    if view.element_size() != 0 {
        return Err(Fault::Range);
    }
    let new = resized_to(view.element(at), n as usize);
    rewrite(alloc, &view, &[], at, at + 1, Some(new))
}

/// The patch that deletes `k` elements from element `i` on. NotArray; NoElement where there are not so many; Full where
/// what is left is longer than any chunk.
pub fn delete(alloc: Global, bytes: &KnownBytes<'_>, i: u32, k: u32) -> Result<ArrayPatch, Fault>
    ensures { MatchResult result
        (ReplacesAt (delete_conditions bytes.now i k) bytes.now (elements_deleted bytes.now i k) i (i + k) 0)
        (RefusesToReplace (delete_conditions bytes.now i k) (elements_deleted bytes.now i k)) }
{
    let view = check(bytes)?;
    let from = i as usize;
    let to = from + k as usize;
    if to > view.count() {
        return Err(Fault::NoElement);
    }
    if is_even(&view) {
        return splice_even(alloc, &view, from, to, &[], 0);
    }
    rewrite(alloc, &view, &[], from, to, None)
}

/// The patch that deletes all elements. NotArray; Full where the extra bytes are longer than any chunk.
pub fn zero(alloc: Global, bytes: &KnownBytes<'_>) -> Result<ArrayPatch, Fault>
    ensures { MatchResult result
        (ReplacesAt (on_array bytes.now) bytes.now (array_zeroed bytes.now) 0
        (length (array_in bytes.now).elements) 0)
        (RefusesToReplace (on_array bytes.now) (array_zeroed bytes.now)) }
{
    let view = check(bytes)?;
    rewrite(alloc, &view, &[], 0, view.count(), None)
}

/// Whether these bytes can't be an element where each has this size, 0 where sizes vary.
pub fn is_missized(size: usize, element: &[u8]) -> bool
    ensures { result ≡ is_missized size element.now }
{
    size != 0 && element.len() != size
}

/// Whether an array has elements of one size, and no more bytes than a chunk can have.
fn is_even(view: &View<'_>) -> bool
    ensures size { result ≡ true → (view.now.array.size == 0) ≡ false }
    ensures short { result ≡ true → length (array_bytes view.now.array) ≤ longest_chunk }
{
    view.element_size() != 0 && view.bytes().len() <= LONGEST_CHUNK
}

/// An element of these bytes.
fn whole(bytes: &[u8]) -> NewElement<'_>
    ensures { bytes_of result ≡ bytes.now }
{
    NewElement {
        head: bytes,
        middle: &[],
        tail: &[],
        zeros: 0,
    }
}

/// An element of these bytes, cut at the end or with zeros there, so that it has `n`.
fn resized_to(bytes: &[u8], n: usize) -> NewElement<'_>
    ensures { bytes_of result ≡ resized bytes.now n }
{
    let kept = bytes.len().min(n);
    NewElement {
        head: &bytes[..kept],
        middle: &[],
        tail: &[],
        zeros: n - kept,
    }
}
