//! Edits of an array whose elements have one size.
ghost use Rattle.std.specs.Prelude.{◌≡◌, ◌<◌, ◌≤◌, ◌+◌, ◌-◌, ◌^◌, ◌==◌, [], ◌∷◌, ℕ, List, Some, None, if◌then◌else◌, false, IfOk, MatchResult, length, take, drop};
ghost use Rattle.geos_model.specs.Array.{array_bytes};
ghost use Rattle.geos_model.specs.ArrayEdits.{with_elements};
ghost use Rattle.geos_model.specs.Heap.{longest_chunk};
ghost use Rattle.geos_model.specs.Words.{word};
ghost use Rattle.chunk_edits.specs.Patching.{Keep, Put};
ghost use Rattle.chunk_arrays.specs.Even.{AreElements};
ghost use Rattle.chunk_arrays.specs.Reading.{element_place};
ghost use Rattle.chunk_arrays.specs.Replacing.{ReplacesAt, RefusesToReplace};

use crate::View;
use chunk_edits::{ArrayPatch, ArrayRuns, Exchange, Patch};
use geos_model::{Fault, LONGEST_CHUNK};
use std::alloc::{AllocError, Global};

/// The patch that gives an element these bytes, as many as its own, in place of its own; and where it changes the
/// array's bytes. Full where these are more than any chunk has.
pub(crate) fn set_even(
    alloc: Global,
    view: &View<'_>,
    at: usize,
    element: &[u8],
) -> Result<ArrayPatch, Fault>
    // Which element goes, and what comes.
    requires within { at < length view.now.array.elements }
    requires even { (view.now.array.size == 0) ≡ false }
    requires sized { length element.now ≡ view.now.array.size }
    // What the bytes become, and where they change.
    ensures { MatchResult result
        (ReplacesAt [] (array_bytes view.now.array)
        (array_bytes (with_elements view.now.array at (at + 1) (element.now ∷ []))) at (at + 1) 1)
        (RefusesToReplace [] (array_bytes (with_elements view.now.array at (at + 1) (element.now ∷ [])))) }
{
    let bytes = view.bytes();
    if bytes.len() > LONGEST_CHUNK {
        return Err(Fault::Full);
    }
    let (front, rest) = bytes.split_at(view.place(at));
    let (old, behind) = rest.split_at(element.len());
    let start = front.len() as u32;
    let size = element.len() as u32;
    let exchange = Exchange { old, new: element };
    let patch = Patch::replacing(alloc, start, exchange, behind.len() as u32)?;
    let runs = ArrayRuns {
        head: None,
        at: start,
        before: size,
        after: size,
    };
    Ok(ArrayPatch { patch, runs })
}

/// The patch that puts elements, so many, with these bytes in the place of those from `from` to `to`; and where it
/// changes the array's bytes. Full where there would be more than any chunk has.
pub(crate) fn splice_even(
    alloc: Global,
    view: &View<'_>,
    from: usize,
    to: usize,
    new: &[u8],
    others: usize,
) -> Result<ArrayPatch, Fault>
    // Which elements go, and of what.
    requires order { from ≤ to }
    requires within { to ≤ length view.now.array.elements }
    requires even { (view.now.array.size == 0) ≡ false }
    requires short { length (array_bytes view.now.array) ≤ longest_chunk }
    // What comes.
    requires few { others ≤ 1 }
    // What the bytes become, and where they change.
    ensures { (ys : List (List ℕ)) → AreElements view.now.array from to new.now others ys → MatchResult result
        (ReplacesAt [] (array_bytes view.now.array) (array_bytes (with_elements view.now.array from to ys))
        from to others)
        (RefusesToReplace [] (array_bytes (with_elements view.now.array from to ys))) }
{
    let bytes = view.bytes();
    let (start, end) = (view.place(from), view.place(to));
    if bytes.len() - (end - start) + new.len() > LONGEST_CHUNK {
        return Err(Fault::Full);
    }
    let count = view.count() - (to - from) + others;
    let patch = counted_patch(alloc, bytes, count as u16, start, end, new)?;
    let runs = ArrayRuns {
        head: head_with(view, count),
        at: start as u32,
        before: (end - start) as u32,
        after: new.len() as u32,
    };
    Ok(ArrayPatch { patch, runs })
}

/// The patch of an array's bytes that gives it this count, and these bytes in place of those from `start` to `end`.
fn counted_patch(
    alloc: Global,
    bytes: &[u8],
    count: u16,
    start: usize,
    end: usize,
    new: &[u8],
) -> Result<Patch, AllocError>
    requires start { 2 ≤ start }
    requires order { start ≤ end }
    requires within { end ≤ length bytes.now }
    requires short { length bytes.now < 2 ^ 32 }
    requires new { length new.now < 2 ^ 32 }
    ensures { IfOk result (λ patch. patch ≡ Put (take 2 bytes.now) (word count) ∷ Keep (start - 2)
        ∷ Put (take (end - start) (drop start bytes.now)) new.now ∷ Keep (length bytes.now - end) ∷ []) }
{
    let word = count.to_le_bytes();
    let counts = Exchange {
        old: &bytes[..2],
        new: word.as_slice(),
    };
    let elements = Exchange {
        old: &bytes[start..end],
        new,
    };
    let behind = (bytes.len() - end) as u32;
    Patch::replacing_two(alloc, counts, (start - 2) as u32, elements, behind)
}

/// How many bytes lay before the elements, and how many lie there where there are so many elements: as many. None where
/// these stay as they are.
fn head_with(view: &View<'_>, count: usize) -> Option<(u32, u32)>
    requires { length (array_bytes view.now.array) ≤ longest_chunk }
    ensures { result ≡ if count == length view.now.array.elements then None
        else Some (element_place view.now.array 0, element_place view.now.array 0) }
{
    if count == view.count() {
        return None;
    }
    let head = view.place(0) as u32;
    Some((head, head))
}
