//! The slots that are read of a chunk's bytes, and the element of a token there.
ghost use Rattle.std.specs.Prelude.{◌≡◌, None, Some, [], MatchResult};
ghost use Rattle.lmem_heap.specs.Known.{is_array_of};
ghost use Rattle.geos_model.specs.ElementArray.{element_array_of, element_at};
ghost use Rattle.element_arrays.specs.Slotted.{slotted_bytes};
ghost use Rattle.element_arrays.specs.Used.{used_element};

use crate::{SlotView, Used, known_slots, slots_in};
use chunk_arrays::check;
use geos_model::{Fault, Token};
use lmem_heap::{ArrayKind, KnownBytes};

/// The extra bytes of an element array: the newest free token.
const EXTRA: usize = 2;

/// The slots of the element array that these bytes are. NotArray where they are none. It takes time in proportion to
/// the bytes, but none where they are known to be such an array, and no memory.
pub(crate) fn read<'a>(bytes: &KnownBytes<'a>) -> Result<SlotView<'a>, Fault>
    ensures { MatchResult result
        (λ s. (element_array_of bytes.now ≡ Some s.slots) × (slotted_bytes s.more s.slots ≡ bytes.now) × (s.more ≡ []))
        (λ fault. (fault ≡ Fault.NotArray) × (element_array_of bytes.now ≡ None)) }
{
    let view = check(bytes)?;
    if bytes.is_known(ArrayKind::Element) {
        return Ok(known_slots(view, EXTRA));
    }
    slots_in(view, EXTRA)
}

/// Whether bytes are an element array.
pub fn is_element_array(bytes: &KnownBytes<'_>) -> bool
    ensures { result ≡ is_array_of ArrayKind.Element bytes.now }
{
    read(bytes).is_ok()
}

/// The element of a token. NoElement where it isn't used.
pub(crate) fn used_at<'a>(slots: &SlotView<'a>, token: Token) -> Result<Used<'a>, Fault>
    ensures { MatchResult result
        (λ used. element_at slots.now.slots token.0 ≡ Some (used_element used))
        (λ fault. (fault ≡ Fault.NoElement) × (element_at slots.now.slots token.0 ≡ None)) }
{
    slots.element(token).ok_or(Fault::NoElement)
}
