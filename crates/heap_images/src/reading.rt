//! The bytes of a heap's image, read: whether they are one, and what stands where.
ghost use Rattle.std.specs.Prelude.{◌≡◌, ◌↔◌, ◌+◌, ◌*◌, ◌^◌, ◌≤◌, ◌<◌, ◌++◌, ◌∷◌, ℕ, List, true, false, None, IsTrue, IsSome, IfSome, MatchOption, length, drop, get_or};
ghost use Rattle.std.specs.Option.{option_map};
ghost use Rattle.geos_model.specs.Words.{word, word_at};
ghost use Rattle.geos_model.proofs.Table.{IsTrimmed};
ghost use Rattle.heap_images.specs.Packed.{PackedSlots, IsPackedTable, packed, slots_in, packed_words, total};
ghost use Rattle.heap_images.specs.Slots.{space_in, need_in};
ghost use Rattle.heap_images.specs.HeapImage.{IsHeapImage, HasHeapTable};

use crate::sizes::{need_of, space_of};
use geos_model::CAPACITY;

/// The first byte of a heap's image. The table's length stands behind it.
pub const HEAP_KIND: u8 = 1;

/// How many bytes of an image stand before the sizes.
pub const PREFIX: usize = 3;

/// The size word of a slot with no chunk.
pub const NO_SIZE: u16 = 0xFFFF;

/// The table length that an image begins with; None where the bytes don't begin as a heap's image does.
fn image_slots(bytes: &[u8]) -> Option<usize>
    ensures { MatchOption result
        ((n : ℕ) (rest : List ℕ) → bytes.now ≡ 1 ∷ word n ++ rest → ⊥)
        (λ n. (n < 2 ^ 16) × (bytes.now ≡ 1 ∷ word n ++ drop 3 bytes.now)) }
{
    match bytes {
        [HEAP_KIND, low, high, ..] => Some(*low as usize + 256 * *high as usize),
        _ => None,
    }
}

/// The size word of a slot.
fn size_word(rest: &[u8], i: usize) -> usize
    requires { 2 * i + 2 ≤ length rest.now }
    ensures value { result ≡ word_at rest.now (2 * i) }
    ensures small { result < 65536 }
{
    rest[2 * i] as usize + 256 * rest[2 * i + 1] as usize
}

/// How many bytes the chunks of the first `slots` sizes have.
fn bytes_total(rest: &[u8], slots: usize) -> usize
    requires within { 2 * slots ≤ length rest.now }
    requires small { slots < 2 ^ 16 }
    ensures { result ≡ total (packed_words slots rest.now) }
{
    let mut sum: usize = 0;
    for k in 0..slots {
        let size = size_word(rest, k);
        if size != NO_SIZE as usize {
            sum += size;
        }
    }
    sum
}

/// Whether what stands behind an image's first bytes is a size word for each of so many slots, and the chunks.
fn is_table(rest: &[u8], slots: usize) -> bool
    requires { length rest.now ≤ 65520 }
    ensures yes { result ≡ true → IsPackedTable slots rest.now }
    ensures no { result ≡ false → (t : PackedSlots) → length t ≡ slots → packed t ≡ rest.now → ⊥ }
{
    if slots > rest.len() / 2 {
        return false;
    }
    bytes_total(rest, slots) == rest.len() - 2 * slots
}

/// The size of a slot's chunk.
pub fn slot_size(rest: &[u8], slots: usize, i: usize) -> Option<usize>
    requires table { IsPackedTable slots rest.now }
    requires slot { i < slots }
    ensures { result ≡ option_map length (get_or (slots_in slots rest.now) i None) }
{
    let size = size_word(rest, i);
    if size == NO_SIZE as usize {
        None
    } else {
        Some(size)
    }
}

/// What the chunks take in a heap.
fn space_total(rest: &[u8], slots: usize) -> usize
    requires { IsPackedTable slots rest.now }
    ensures value { result ≡ space_in (slots_in slots rest.now) }
    ensures bound { result < 2 ^ 33 }
{
    let mut space = 0;
    for i in 0..slots {
        if let Some(size) = slot_size(rest, slots, i) {
            space += space_of(size);
        }
    }
    space
}

/// Whether the last slot has a chunk, and the chunks fit into a heap.
fn is_heap(rest: &[u8], slots: usize) -> bool
    requires { IsPackedTable slots rest.now }
    ensures yes { result ≡ true → IsTrimmed (slots_in slots rest.now) × (need_in (slots_in slots rest.now) ≤ 65520) }
    ensures no { result ≡ false → IsTrimmed (slots_in slots rest.now) → need_in (slots_in slots rest.now) ≤ 65520 → ⊥ }
{
    if slots > 0 && slot_size(rest, slots, slots - 1).is_none() {
        return false;
    }
    need_of(slots, space_total(rest, slots)) <= CAPACITY
}

/// The table length of the heap of which the bytes are the image; None where they are the image of no heap that fits.
pub fn heap_slots(bytes: &[u8]) -> Option<usize>
    ensures image { IsSome result ↔ IsHeapImage bytes.now }
    ensures table { IfSome result (λ slots. HasHeapTable slots bytes.now) }
{
    let slots = image_slots(bytes)?;
    if bytes.len() > PREFIX + CAPACITY {
        return None;
    }
    let rest = &bytes[PREFIX..];
    if !is_table(rest, slots) || !is_heap(rest, slots) {
        return None;
    }
    Some(slots)
}

/// Whether the bytes are the image of a heap that fits.
pub fn is_image(bytes: &[u8]) -> bool
    ensures { IsTrue result ↔ IsHeapImage bytes.now }
{
    heap_slots(bytes).is_some()
}
