//! An array that is read where it lies.
ghost use Rattle.std.specs.Prelude.{◌≡◌, ◌^◌, ◌<◌, ◌≤◌, ◌+◌, ◌-◌, ◌*◌, ◌↔◌, Some, None, [], true, false, IsTrue, MatchOption, MatchResult, length, take, drop, get_or};
ghost use Rattle.std.specs.List.{flat_map};
ghost use Rattle.geos_model.specs.Words.{word_at};
ghost use Rattle.geos_model.specs.Array.{array_bytes, array_of, array_read, is_even};
ghost use Rattle.lmem_heap.specs.Known.{is_array_of};
ghost use Rattle.chunk_arrays.specs.Parts.{AreByteValues, IsPlaceTable, HasElements};
ghost use Rattle.chunk_arrays.specs.Reading.{NoneEnds, element_place, has_one_size, words_from};

use byteorder::{ByteOrder, LittleEndian};
use geos_model::Fault;
use lmem_heap::{ArrayKind, KnownBytes};
use std::marker::Model;

/// A chunk array, read where it lies. Contracts see it as the array, with what holds of each.
#[derive(Drop)]
pub struct View<'a> {
    bytes: &'a [u8],
    /// How many elements there are.
    count: usize,
    /// How many bytes each has, 0 where sizes vary.
    size: usize,
    /// Where the extra bytes end.
    start: usize,
    ghost even: { is_even (array_read bytes.now) ≡ true },
    ghost few: { length (array_read bytes.now).elements < 2 ^ 16 },
    ghost are_bytes: { AreByteValues (array_bytes (array_read bytes.now)) },
}

impl<'a> Model for View<'a> {
    ghost use Rattle.geos_model.specs.Array.{array_read};
    ghost use Rattle.chunk_arrays.specs.Viewed.{Viewed};

    ghost Value = { Viewed };

    ghost use Rattle.chunk_arrays.specs.Viewing.{IsView};

    ghost view = { λ v. record {
      array = array_read v.bytes.now;
      even = v.even;
      few = v.few;
      are_bytes = v.are_bytes;
    } };

    ghost invariant = { IsView };
}

/// The array that these bytes are: a header of four words, extra bytes, and elements without gaps. NotArray where they
/// are none. It takes time in proportion to the number of elements, but none for them where the bytes are known to be
/// an array, and no memory.
pub fn check<'a>(bytes: &KnownBytes<'a>) -> Result<View<'a>, Fault>
    ensures { MatchResult result (λ view. array_of bytes.now ≡ Some view.array)
        (λ fault. (fault ≡ Fault.NotArray) × (array_of bytes.now ≡ None)) }
{
    let plain = bytes.bytes();
    if plain.len() < 8 {
        return Err(Fault::NotArray);
    }
    let count = word(plain, 0);
    let size = word(plain, 2);
    let third = word(plain, 4);
    let start = word(plain, 6);
    if third != 0 || start < 8 || plain.len() < start {
        return Err(Fault::NotArray);
    }
    if !are_filled(bytes, count, size, start) {
        return Err(Fault::NotArray);
    }
    Ok(View {
        bytes: plain,
        count,
        size,
        start,
    })
}

/// Whether bytes are an array.
pub fn is_array(bytes: &KnownBytes<'_>) -> bool
    ensures { result ≡ is_array_of ArrayKind.Chunk bytes.now }
{
    check(bytes).is_ok()
}

/// Whether a header says that all elements have one size, so that a test of them reads no more than that.
pub fn has_one_size(bytes: &[u8]) -> bool
    ensures { result ≡ has_one_size bytes.now }
{
    4 <= bytes.len() && 0 < word(bytes, 2)
}

/// The word at a place.
fn word(bytes: &[u8], at: usize) -> usize
    requires { at + 2 ≤ length bytes.now }
    ensures value { result ≡ word_at bytes.now at }
    ensures bound { result < 2 ^ 16 }
{
    usize::from(LittleEndian::read_u16(&bytes[at..]))
}

/// Whether elements fill the bytes from `start` on, by the numbers of their header. Those of an array do.
fn are_filled(bytes: &KnownBytes<'_>, count: usize, size: usize, start: usize) -> bool
    requires within { start ≤ length bytes.now }
    requires count { count ≡ word_at bytes.now 0 }
    requires size { size ≡ word_at bytes.now 2 }
    requires start { start ≡ word_at bytes.now 6 }
    ensures { IsTrue result ↔ HasElements bytes.now count size start }
{
    let plain = bytes.bytes();
    bytes.is_known(ArrayKind::Chunk) || has_elements(plain, count, size, start)
}

/// Whether elements fill the bytes from `start` on.
fn has_elements(bytes: &[u8], count: usize, size: usize, start: usize) -> bool
    requires start { start ≤ length bytes.now }
    requires words { (count < 2 ^ 16) × (size < 2 ^ 16) × (start < 2 ^ 16) }
    ensures { IsTrue result ↔ HasElements bytes.now count size start }
{
    if size == 0 {
        has_table(bytes, count, start)
    } else {
        bytes.len() - start == count * size
    }
}

/// Whether a table of places begins at `start`, and the elements fill the bytes from there on.
fn has_table(bytes: &[u8], count: usize, start: usize) -> bool
    requires start { start ≤ length bytes.now }
    requires words { (count < 2 ^ 16) × (start < 2 ^ 16) }
    ensures { IsTrue result ↔ IsPlaceTable bytes.now count start }
{
    let len = bytes.len();
    if count == 0 {
        return len == start;
    }
    let end = start + 2 * count;
    if len < end {
        return false;
    }
    let mut last = word(bytes, start);
    if last != end {
        return false;
    }
    for i in 1..count {
        let next = word(bytes, start + 2 * i);
        if next < last {
            return false;
        }
        last = next;
    }
    // none of the others is greater
    last <= len
}

impl<'a> View<'a> {
    /// How many elements there are.
    pub fn count(&self) -> usize
        ensures { result ≡ length self.now.array.elements }
    {
        self.count
    }

    /// How many bytes each element has, 0 where sizes vary.
    pub fn element_size(&self) -> usize
        ensures { result ≡ self.now.array.size }
    {
        self.size
    }

    /// The bytes of an element.
    pub fn element(&self, i: usize) -> &'a [u8]
        requires { i < length self.now.array.elements }
        ensures { result.now ≡ get_or self.now.array.elements i [] }
    {
        self.run(i, i + 1)
    }

    /// The extra bytes.
    pub fn extra(&self) -> &'a [u8]
        ensures { result.now ≡ self.now.array.extra }
    {
        &self.bytes[8..self.start]
    }

    /// All bytes of the array.
    pub fn bytes(&self) -> &'a [u8]
        ensures { result.now ≡ array_bytes self.now.array }
    {
        self.bytes
    }

    /// The bytes of the elements from one up to another, one after another.
    pub fn run(&self, from: usize, to: usize) -> &'a [u8]
        requires order { from ≤ to }
        requires within { to ≤ length self.now.array.elements }
        ensures { result.now ≡ flat_map (λ x. x) (take (to - from) (drop from self.now.array.elements)) }
    {
        let start = self.place(from);
        let end = self.place(to);
        &self.bytes[start..end]
    }

    /// The words of the table of places from one element up to another, where sizes vary.
    pub fn places(&self, from: usize, to: usize) -> &'a [u8]
        requires any { self.now.array.size ≡ 0 }
        requires order { from ≤ to }
        requires within { to ≤ length self.now.array.elements }
        ensures { result.now ≡
            words_from (element_place self.now.array from) (take (to - from) (drop from self.now.array.elements)) }
    {
        &self.bytes[self.start + 2 * from..self.start + 2 * to]
    }

    /// The bytes of an element that begins at this place, and where the next one begins, or where the last one ends. A
    /// walk over the elements looks each place up but once.
    pub fn element_from(&self, i: usize, place: usize) -> (&'a [u8], usize)
        requires within { i < length self.now.array.elements }
        requires place { place ≡ element_place self.now.array i }
        ensures bytes { result.0.now ≡ get_or self.now.array.elements i [] }
        ensures next { result.1 ≡ element_place self.now.array (i + 1) }
    {
        let next = self.place(i + 1);
        let bytes = &self.bytes[place..next];
        (bytes, next)
    }

    /// The first element from one on that may end in a byte: it does, or it has no bytes. Of those before it no more is
    /// read than where they end.
    pub fn first_ending(&self, from: usize, byte: u8) -> Option<usize>
        requires { from ≤ length self.now.array.elements }
        ensures { MatchOption result
            (NoneEnds self.now.array from (length self.now.array.elements) byte)
            (λ i. (from ≤ i) × (i < length self.now.array.elements) × NoneEnds self.now.array from i byte) }
    {
        let bytes = self.bytes();
        let count = self.count();
        if from == count {
            return None;
        }
        if let Some(i) = self.first_inner(from, byte) {
            return Some(i);
        }
        let end = bytes[bytes.len() - 1];
        if end == byte { Some(count - 1) } else { None }
    }

    /// The same of all elements but the last, each of which ends where another begins.
    fn first_inner(&self, from: usize, byte: u8) -> Option<usize>
        requires { from < length self.now.array.elements }
        ensures { MatchOption result
            (NoneEnds self.now.array from (length self.now.array.elements - 1) byte)
            (λ i. (from ≤ i) × (i < length self.now.array.elements) × NoneEnds self.now.array from i byte) }
    {
        if self.element_size() == 0 {
            self.first_listed(from, byte)
        } else {
            self.first_placed(from, byte)
        }
    }

    /// The same where sizes vary, by the table of places alone.
    fn first_listed(&self, from: usize, byte: u8) -> Option<usize>
        requires any { self.now.array.size ≡ 0 }
        requires within { from < length self.now.array.elements }
        ensures { MatchOption result
            (NoneEnds self.now.array from (length self.now.array.elements - 1) byte)
            (λ i. (from ≤ i) × (i < length self.now.array.elements) × NoneEnds self.now.array from i byte) }
    {
        let near = self.skip_listed(from, byte);
        for i in near + 1..self.count() {
            if self.ends_before(i, byte) {
                return Some(i - 1);
            }
        }
        None
    }

    /// An element from one on, before which none may end in a byte, and which is one of the last four, or of four of
    /// which one may. A search spends nearly all of its time here: what a step costs is shared by four elements.
    fn skip_listed(&self, from: usize, byte: u8) -> usize
        requires any { self.now.array.size ≡ 0 }
        requires within { from < length self.now.array.elements }
        ensures order { from ≤ result }
        ensures within { result < length self.now.array.elements }
        ensures none { NoneEnds self.now.array from result byte }
    {
        let steps = (self.count() - 1 - from) / 4;
        for k in 0..steps {
            let at = from + 4 * k;
            if self.ends_among(at, byte) {
                return at;
            }
        }
        from + 4 * steps
    }

    /// Whether one of four elements may end in a byte.
    fn ends_among(&self, at: usize, byte: u8) -> bool
        requires any { self.now.array.size ≡ 0 }
        requires within { at + 4 < length self.now.array.elements }
        ensures { result ≡ false → NoneEnds self.now.array at (at + 4) byte }
    {
        self.ends_before(at + 1, byte)
            || self.ends_before(at + 2, byte)
            || self.ends_before(at + 3, byte)
            || self.ends_before(at + 4, byte)
    }

    /// Whether the element before one may end in a byte.
    fn ends_before(&self, i: usize, byte: u8) -> bool
        requires any { self.now.array.size ≡ 0 }
        requires some { 1 ≤ i }
        requires within { i < length self.now.array.elements }
        ensures { result ≡ false → NoneEnds self.now.array (i - 1) i byte }
    {
        let bytes = self.bytes();
        let last = bytes[self.listed_place(i) - 1];
        last == byte
    }

    /// The same of elements of any sizes.
    fn first_placed(&self, from: usize, byte: u8) -> Option<usize>
        requires { from < length self.now.array.elements }
        ensures { MatchOption result
            (NoneEnds self.now.array from (length self.now.array.elements - 1) byte)
            (λ i. (from ≤ i) × (i < length self.now.array.elements) × NoneEnds self.now.array from i byte) }
    {
        let bytes = self.bytes();
        let count = self.count();
        for i in from + 1..count {
            let last = bytes[self.place(i) - 1];
            if last == byte {
                return Some(i - 1);
            }
        }
        None
    }

    /// Where an element begins among the array's bytes, or where the last one ends. A table of places gives only places
    /// that words can hold.
    pub fn place(&self, i: usize) -> usize
        requires { i ≤ length self.now.array.elements }
        ensures place { result ≡ element_place self.now.array i }
        ensures near { self.now.array.size ≡ 0 → i < length self.now.array.elements → result < 2 ^ 16 }
    {
        if i == self.count {
            self.bytes.len()
        } else if self.size == 0 {
            self.listed_place(i)
        } else {
            self.start + i * self.size
        }
    }

    /// Where an element begins by the table of places.
    fn listed_place(&self, i: usize) -> usize
        requires any { self.now.array.size ≡ 0 }
        requires within { i < length self.now.array.elements }
        ensures place { result ≡ element_place self.now.array i }
        ensures near { result < 2 ^ 16 }
    {
        word(self.bytes, self.start + 2 * i)
    }
}
