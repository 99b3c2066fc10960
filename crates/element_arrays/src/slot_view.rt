//! The slots of an element array or a name array, read where they lie.
ghost use Rattle.std.specs.Prelude.{◌≡◌, ◌==◌, ◌&&◌, ◌≤◌, ◌<◌, ◌+◌, ◌^◌, ℕ, nat_le, None, Some, [], true, false, is_some, MatchOption, MatchResult, count_by, length, drop, get_or};
ghost use Rattle.std.specs.List.{list_all};
ghost use Rattle.std.specs.Option.{option_map};
ghost use Rattle.geos_model.specs.Bytes.{same_bytes};
ghost use Rattle.geos_model.specs.Words.{word_at};
ghost use Rattle.geos_model.specs.ElementArray.{slots_of, slots_read, slot_read, element_at, is_sound};
ghost use Rattle.geos_model.specs.ElementEdits.{token_of};
ghost use Rattle.element_arrays.specs.Slotted.{slotted_array, slotted_bytes};
ghost use Rattle.element_arrays.specs.Tested.{NoneHas, is_freed, is_freed_at, is_slot_within, are_slots_within, has_length, has_bytes, is_walk};
ghost use Rattle.element_arrays.specs.Used.{used_element};

use byteorder::{ByteOrder, LittleEndian};
use chunk_arrays::View;
use geos_model::{Fault, Token};
use std::marker::Model;

/// The third byte of a free element, and of no count.
pub(crate) const FREE: u8 = 0xFF;

/// The link of the last free element.
const NO_TOKEN: u16 = 0xFFFF;

/// A used element: how many references it has, and its bytes.
#[derive(Clone, Copy)]
pub struct Used<'a> {
    pub count: u32,
    pub bytes: &'a [u8],
}

/// The slots of an element array or a name array, read where they lie. Contracts see the slots, and the extra bytes
/// behind the newest free token.
#[derive(Drop)]
pub struct SlotView<'a> {
    view: View<'a>,
    ghost sound: { is_sound (slots_read view.array) ≡ true },
}

impl<'a> Model for SlotView<'a> {
    ghost use Rattle.std.specs.Prelude.{◌≡◌, drop};
    ghost use Rattle.element_arrays.specs.Slotted.{Slotted};
    ghost use Rattle.geos_model.specs.ElementArray.{slots_read, slots_array};

    ghost Value = { Slotted };

    ghost view = { λ v. record { more = drop 2 v.view.array.extra; slots = slots_read v.view.array; sound = v.sound } };

    ghost invariant = { λ v. slots_array (drop 2 v.view.array.extra) (slots_read v.view.array) ≡ v.view.array };
}

/// The slots of an array that is known to be one of slots, with so many extra bytes, at least two. It takes no time for
/// the elements.
pub fn known_slots<'a>(view: View<'a>, extra: usize) -> SlotView<'a>
    requires enough { 2 ≤ extra }
    requires known { is_some (slots_of extra view.array) ≡ true }
    ensures { (slots_of extra view.entry.array ≡ Some result.slots) × (slotted_array result ≡ view.entry.array) ×
        (length result.more + 2 ≡ extra) }
{
    SlotView { view }
}

/// The slots of an array that has so many extra bytes, at least two. NotArray where it is none of slots. It takes time
/// in proportion to the array's bytes, and no memory.
pub fn slots_in<'a>(view: View<'a>, extra: usize) -> Result<SlotView<'a>, Fault>
    requires { 2 ≤ extra }
    ensures { MatchResult result
        (λ s. (slots_of extra view.entry.array ≡ Some s.slots) × (slotted_array s ≡ view.entry.array) ×
        (length s.more + 2 ≡ extra))
        (λ fault. (fault ≡ Fault.NotArray) × (slots_of extra view.entry.array ≡ None)) }
{
    // no element is longer than the array
    let most = view.bytes().len();
    slots_within(view, extra, 0, most)
}

/// The slots of an array that has so many extra bytes, at least two, where each used element has so many bytes at least
/// and at most. NotArray where it is none of such slots. One walk over the elements tests both.
pub fn slots_within<'a>(
    view: View<'a>,
    extra: usize,
    least: usize,
    most: usize,
) -> Result<SlotView<'a>, Fault>
    requires enough { 2 ≤ extra }
    requires order { least ≤ most }
    requires room { most + 3 < 2 ^ 64 }
    ensures { MatchResult result
        (λ s. (slots_of extra view.entry.array ≡ Some s.slots) × (slotted_array s ≡ view.entry.array) ×
        (length s.more + 2 ≡ extra) × (list_all (has_length least most) s.slots.slots ≡ true))
        (λ fault. (fault ≡ Fault.NotArray) × (are_slots_within extra least most view.entry.array ≡ false)) }
{
    if are_slots(&view, extra, least, most) {
        Ok(SlotView { view })
    } else {
        Err(Fault::NotArray)
    }
}

/// Whether an array with so many extra bytes is one of slots, and each used element has so many bytes at least and at
/// most.
fn are_slots(view: &View<'_>, extra: usize, least: usize, most: usize) -> bool
    requires enough { 2 ≤ extra }
    requires order { least ≤ most }
    requires room { most + 3 < 2 ^ 64 }
    ensures { result ≡ are_slots_within extra least most view.now.array }
{
    let bytes = view.extra();
    let size = view.element_size();
    if bytes.len() != extra {
        return false;
    }
    // Elements of one size have a byte at least behind the count.
    if 0 < size && size < 4 {
        return false;
    }
    let first = LittleEndian::read_u16(bytes);
    match count_free(view, size.saturating_sub(3), least, most) {
        Some(free) => is_walk(view, first, free),
        None => false,
    }
}

/// How many elements are free, if the bytes of each are those of a slot, and each used one has so many bytes at least
/// and at most.
fn count_free(view: &View<'_>, size: usize, least: usize, most: usize) -> Option<usize>
    requires order { least ≤ most }
    requires room { most + 3 < 2 ^ 64 }
    ensures { MatchOption result
        (list_all (is_slot_within size least most) view.now.array.elements ≡ false)
        (λ free. (list_all (is_slot_within size least most) view.now.array.elements ≡ true) ×
        (free ≡ count_by is_freed view.now.array.elements)) }
{
    let count = view.count();
    if count == 0 {
        return Some(0);
    }
    let mut free = 0;
    let mut place = view.place(0);
    // each but the last ends where another begins, so that no more is asked of most
    for i in 0..count - 1 {
        let (bytes, next) = view.element_from(i, place);
        place = next;
        if is_plain(bytes, least, most) {
            continue;
        }
        if is_free(bytes, size, least, most)? {
            free += 1;
        }
    }
    let (last, _) = view.element_from(count - 1, place);
    if is_free(last, size, least, most)? {
        free += 1;
    }
    Some(free)
}

/// Whether these are the bytes of a slot with a used element, as far as their number, their third and their first alone
/// tell. So they do of most, since hardly any element has a multiple of 256 references.
fn is_plain(bytes: &[u8], least: usize, most: usize) -> bool
    requires order { least ≤ most }
    requires room { most + 3 < 2 ^ 64 }
    ensures { result ≡ true → (size : ℕ) →
        (is_slot_within size least most bytes.now ≡ true) × (is_freed bytes.now ≡ false) }
{
    is_within(bytes.len(), least + 3, most + 3) && bytes[2] != FREE && bytes[0] != 0
}

/// Whether a slot is free, if these are the bytes of one, where each has so many behind the first three, 0 where sizes
/// vary, and a used element so many at least and at most.
fn is_free(bytes: &[u8], size: usize, least: usize, most: usize) -> Option<bool>
    requires { least ≤ most }
    ensures { MatchOption result
        (is_slot_within size least most bytes.now ≡ false)
        (λ free. (is_slot_within size least most bytes.now ≡ true) × (free ≡ is_freed bytes.now)) }
{
    if bytes.len() < 3 {
        return None;
    }
    let len = bytes.len() - 3;
    let is_free = bytes[2] == FREE;
    let is_slot = if is_free {
        len == size && are_zeros(&bytes[3..])
    } else {
        LittleEndian::read_u24(bytes) != 0 && is_within(len, least, most)
    };
    if is_slot { Some(is_free) } else { None }
}

/// Whether a number is one of those from the least to the most.
fn is_within(n: usize, least: usize, most: usize) -> bool
    requires { least ≤ most }
    ensures { result ≡ (nat_le least n && nat_le n most) }
{
    // a number below the least wraps to one above the difference
    n.wrapping_sub(least) <= most - least
}

/// Whether each byte is 0.
fn are_zeros(bytes: &[u8]) -> bool
    ensures { result ≡ list_all (λ b. b == 0) bytes.now }
{
    bytes.iter().all(|b| *b == 0)
}

/// Whether from a token on so many links lead over free elements to the end. A walk that ends meets no token twice, so
/// one of as many steps as there are free elements meets each of them.
fn is_walk(view: &View<'_>, first: u16, steps: usize) -> bool
    ensures { result ≡ is_walk steps view.now.array.elements first }
{
    let mut token = first;
    for _ in 0..steps {
        match link_of(view, token) {
            Some(next) => token = next,
            None => return false,
        }
    }
    token == NO_TOKEN
}

/// The token after this one, if this one's element is free.
fn link_of(view: &View<'_>, token: u16) -> Option<u16>
    ensures { MatchOption result
        (is_freed_at view.now.array.elements token ≡ false)
        (λ next. (is_freed_at view.now.array.elements token ≡ true) ×
        (next ≡ word_at (get_or view.now.array.elements token []) 0)) }
{
    let i = usize::from(token);
    if view.count() <= i {
        return None;
    }
    let bytes = view.element(i);
    if bytes.len() < 3 || bytes[2] != FREE {
        return None;
    }
    Some(LittleEndian::read_u16(bytes))
}

impl<'a> SlotView<'a> {
    /// How many tokens there are, used and free.
    pub fn len(&self) -> u16
        ensures { result ≡ length self.now.slots.slots }
    {
        self.view.count() as u16
    }

    /// How many bytes each element has, 0 where sizes vary.
    pub fn element_size(&self) -> usize
        ensures { result ≡ self.now.slots.size }
    {
        self.view.element_size().saturating_sub(3)
    }

    /// The extra bytes behind the newest free token.
    pub fn more(&self) -> &'a [u8]
        ensures { result.now ≡ self.now.more }
    {
        &self.view.extra()[2..]
    }

    /// All bytes of the array.
    pub fn bytes(&self) -> &'a [u8]
        ensures { result.now ≡ slotted_bytes self.now.more self.now.slots }
    {
        self.view.bytes()
    }

    /// The array that the slots are.
    pub(crate) fn array(&self) -> &View<'a>
        ensures { result.now.array ≡ slotted_array self.now }
    {
        &self.view
    }

    /// The element of a token, if it is used.
    pub fn element(&self, token: Token) -> Option<Used<'a>>
        ensures { option_map used_element result ≡ element_at self.now.slots token.0 }
    {
        let i = usize::from(token.0);
        if self.view.count() <= i {
            return None;
        }
        used_in(self.view.element(i))
    }

    /// The bytes of the slot of a token.
    fn slot(&self, token: usize) -> &'a [u8]
        requires { token < length self.now.slots.slots }
        ensures read { slot_read result.now ≡ get_or self.now.slots.slots token None }
        ensures long { 3 ≤ length result.now }
        ensures near { token < 2 ^ 16 }
    {
        self.view.element(token)
    }

    /// The lowest token whose element has these bytes behind its first `skip` ones.
    pub fn find(&self, skip: usize, bytes: &[u8]) -> Option<Token>
        ensures { option_map (λ t. t.0) result ≡
            token_of (λ e. same_bytes (drop skip e.bytes) bytes.now) self.now.slots }
    {
        let mut from = 0;
        while let Some(i) = self.candidate(from, bytes) {
            if has_bytes(self.slot(i), skip, bytes) {
                return Some(Token(i as u16));
            }
            from = i + 1;
        }
        None
    }

    /// The first slot from one on that ends as these bytes do, or any slot where these are none. Hardly any other does,
    /// so that no more is read of most slots.
    fn candidate(&self, from: usize, bytes: &[u8]) -> Option<usize>
        requires { from ≤ length self.now.slots.slots }
        ensures { MatchOption result
            (NoneHas self.now.slots.slots from (length self.now.slots.slots) bytes.now)
            (λ i. (from ≤ i) × (i < length self.now.slots.slots) × NoneHas self.now.slots.slots from i bytes.now) }
    {
        if !bytes.is_empty() {
            return self.view.first_ending(from, bytes[bytes.len() - 1]);
        }
        if from < self.view.count() {
            Some(from)
        } else {
            None
        }
    }
}

/// The bytes behind so many, none where there are fewer.
fn behind(bytes: &[u8], skip: usize) -> &[u8]
    ensures { result.now ≡ drop skip bytes.now }
{
    &bytes[skip.min(bytes.len())..]
}

/// The used element in the bytes of a slot.
fn used_in(bytes: &[u8]) -> Option<Used<'_>>
    requires { 3 ≤ length bytes.now }
    ensures { option_map used_element result ≡ slot_read bytes.now }
{
    if bytes[2] == FREE {
        return None;
    }
    Some(Used {
        count: LittleEndian::read_u24(bytes),
        bytes: &bytes[3..],
    })
}

/// Whether a slot is that of a used element with these bytes behind its first `skip` ones.
fn has_bytes(slot: &[u8], skip: usize, bytes: &[u8]) -> bool
    requires { 3 ≤ length slot.now }
    ensures { result ≡ has_bytes skip bytes.now (slot_read slot.now) }
{
    match used_in(slot) {
        Some(used) => behind(used.bytes, skip) == bytes,
        None => false,
    }
}
