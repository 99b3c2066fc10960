//! Edits of an element array, each as a patch of all bytes of a chunk, and where it changes them.
ghost use Rattle.std.specs.Prelude.{◌≡◌, None, true, MatchResult};
ghost use Rattle.geos_model.specs.Refusal.{first_refusal};
ghost use Rattle.geos_model.specs.ElementArray.{element_bytes, element_array_of, is_sound};
ghost use Rattle.geos_model.specs.ElementEdits.{no_slots, element_added, token_added, reference_added, reference_removed, element_deleted, element_changed, on_token, create_elements_conditions, add_conditions, add_reference_conditions, change_conditions};
ghost use Rattle.chunk_edits.specs.Splicing.{RefusesToBuild};
ghost use Rattle.chunk_arrays.specs.Replacing.{RefusesToReplace};
ghost use Rattle.element_arrays.specs.Slotted.{ReplacesOne, slotted_bytes};
ghost use Rattle.element_arrays.specs.Referencing.{element_with_reference, element_reference_conditions};

use crate::SlotView;
use crate::reading::{read, used_at};
use chunk_arrays::{GREATEST_SIZE, empty_bytes, is_missized};
use chunk_edits::ArrayPatch;
use geos_model::{Fault, Token};
use lmem_heap::KnownBytes;
use std::alloc::Global;

/// How many references an element or a name has at most.
pub const GREATEST_COUNT: u32 = 0xFE_FFFF;

/// The newest free token of an array that has none.
const NO_TOKEN: [u8; 2] = [0xFF, 0xFF];

/// The bytes of an element array without elements: how many bytes each will have, 0 where sizes vary. Range past 4,096.
pub fn create_bytes(alloc: Global, size: u32) -> Result<Vec<u8>, Fault>
    ensures { MatchResult result
        (λ bytes. (first_refusal (create_elements_conditions size) ≡ None) ×
        (bytes.items ≡ element_bytes (no_slots size)))
        (RefusesToBuild (create_elements_conditions size)) }
{
    if size > GREATEST_SIZE {
        return Err(Fault::Range);
    }
    // a slot has its count before its element
    let slot_size = if size == 0 { 0 } else { size as u16 + 3 };
    Ok(empty_bytes(alloc, slot_size, &NO_TOKEN)?)
}

/// The patch that gives an equal element, the lowest of these, one more reference, or else brings a new one, and its
/// token. NotArray; CountFull where the equal one has as many as any can have; Range where the array has elements of
/// another size; Full where the array would be longer than any chunk.
pub fn add(
    alloc: Global,
    bytes: &KnownBytes<'_>,
    element: &[u8],
) -> Result<(ArrayPatch, Token), Fault>
    ensures { MatchResult result
        (λ made. ReplacesOne (add_conditions bytes.now element.now) bytes.now
        (element_added bytes.now element.now) (token_added bytes.now element.now) made.0 ×
        (made.1.0 ≡ token_added bytes.now element.now))
        (RefusesToReplace (add_conditions bytes.now element.now) (element_added bytes.now element.now)) }
{
    let slots = read(bytes)?;
    match slots.find(0, element) {
        Some(token) => {
            let patch = with_reference(alloc, &slots, token)?;
            Ok((patch, token))
        }
        None => {
            if is_missized(slots.element_size(), element) {
                return Err(Fault::Range);
            }
            slots.with_new(alloc, element, &[])
        }
    }
}

/// The patch that gives an element one more reference. NotArray, NoElement; CountFull where it has as many as any can
/// have; Full where the array is longer than any chunk.
pub fn add_ref(alloc: Global, bytes: &KnownBytes<'_>, token: Token) -> Result<ArrayPatch, Fault>
    ensures { MatchResult result
        (ReplacesOne (add_reference_conditions bytes.now token.0) bytes.now (reference_added bytes.now token.0)
        token.0)
        (RefusesToReplace (add_reference_conditions bytes.now token.0) (reference_added bytes.now token.0)) }
{
    let slots = read(bytes)?;
    with_reference(alloc, &slots, token)
}

/// The patch that takes a reference of an element, which is freed with the last one. NotArray, NoElement; Full where
/// the array is longer than any chunk.
pub fn remove_ref(alloc: Global, bytes: &KnownBytes<'_>, token: Token) -> Result<ArrayPatch, Fault>
    ensures { MatchResult result
        (ReplacesOne (on_token bytes.now token.0) bytes.now (reference_removed bytes.now token.0) token.0)
        (RefusesToReplace (on_token bytes.now token.0) (reference_removed bytes.now token.0)) }
{
    let slots = read(bytes)?;
    let used = used_at(&slots, token)?;
    if used.count == 1 {
        slots.without_element(alloc, token)
    } else {
        slots.with_element(alloc, token, used.count - 1, used.bytes, &[])
    }
}

/// The patch that frees an element, whatever its references. NotArray, NoElement; Full where the array is longer than
/// any chunk.
pub fn delete(alloc: Global, bytes: &KnownBytes<'_>, token: Token) -> Result<ArrayPatch, Fault>
    ensures { MatchResult result
        (ReplacesOne (on_token bytes.now token.0) bytes.now (element_deleted bytes.now token.0) token.0)
        (RefusesToReplace (on_token bytes.now token.0) (element_deleted bytes.now token.0)) }
{
    let slots = read(bytes)?;
    used_at(&slots, token)?;
    slots.without_element(alloc, token)
}

/// The patch that gives an element other bytes; its references stay, and others may have the same bytes. NotArray,
/// NoElement; Range where the array has elements of another size; Full where the array would be longer than any chunk.
pub fn change(
    alloc: Global,
    bytes: &KnownBytes<'_>,
    token: Token,
    element: &[u8],
) -> Result<ArrayPatch, Fault>
    ensures { MatchResult result
        (ReplacesOne (change_conditions bytes.now token.0 element.now) bytes.now
        (element_changed bytes.now token.0 element.now) token.0)
        (RefusesToReplace (change_conditions bytes.now token.0 element.now)
        (element_changed bytes.now token.0 element.now)) }
{
    let slots = read(bytes)?;
    let used = used_at(&slots, token)?;
    if is_missized(slots.element_size(), element) {
        return Err(Fault::Range);
    }
    slots.with_element(alloc, token, used.count, element, &[])
}

/// The patch that gives an element one more reference. NoElement; CountFull where it has as many as any can have; Full
/// where the array is longer than any chunk.
fn with_reference(alloc: Global, slots: &SlotView<'_>, token: Token) -> Result<ArrayPatch, Fault>
    ensures { MatchResult result
        (ReplacesOne (element_reference_conditions slots.now.slots token.0)
        (slotted_bytes slots.now.more slots.now.slots)
        (slotted_bytes slots.now.more (element_with_reference slots.now.slots token.0)) token.0)
        (RefusesToReplace (element_reference_conditions slots.now.slots token.0)
        (slotted_bytes slots.now.more (element_with_reference slots.now.slots token.0))) }
{
    let used = used_at(slots, token)?;
    if used.count == GREATEST_COUNT {
        return Err(Fault::CountFull);
    }
    slots.with_element(alloc, token, used.count + 1, used.bytes, &[])
}
