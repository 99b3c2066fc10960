//! A region: 65,520 bytes from the allocator, which go back to it once.
ghost use Rattle.std.specs.Prelude.{◌≡◌, ◌+◌, ◌≤◌, ◌∷◌, IfOk, length, replicate, slice_range, take};
ghost use Rattle.std.specs.Borrow.{sem};
ghost use Rattle.geos_model.specs.Words.{word, word_at};
ghost use Rattle.raw_region.specs.Bytes.{put};

use crate::SIZE;
use crate::moving::move_within;
use crate::raw::{LEAD, Raw};
use byteorder::{ByteOrder, LittleEndian};
use std::alloc::{AllocError, Global};
use std::marker::Model;

// Where the byte of a raw body's kind lies: right before a region's bytes.
const KIND_AT: usize = LEAD - 1;

/// `SIZE` bytes from the allocator, which go back to it once, at the drop. Contracts see the list of the bytes. A body
/// or a heap whose bytes lie in a region gives it back, and another can be made in it.
///
/// Right before them lies the byte that the image of a raw body begins with, 0, so that the image of a body in a region
/// lies there as a whole, and is lent without a copy.
pub struct Region {
    raw: Raw,
    alloc: Global,
}

impl Model for Region {
    ghost use Rattle.std.specs.Prelude.{◌≡◌, ◌+◌, ℕ, List, ◌∷◌, length, drop};
    ghost use Rattle.raw_region.specs.declared.TheConstants.{SIZE};
    ghost use Rattle.raw_region.specs.declared.raw.TheConstants.{LEAD};
    ghost use Rattle.raw_region.specs.declared.region.TheConstants.{KIND_AT};

    ghost Value = { List ℕ };

    ghost view = { λ r. drop LEAD r.raw.bytes };

    // It has to hold whatever list a lent slice is left as, so that each byte is below 256 can't stand here. Whoever
    // has a slice of the bytes knows it by the slice's type.
    ghost invariant = { λ r. (length r.raw.bytes ≡ LEAD + SIZE)
        × (drop KIND_AT r.raw.bytes ≡ 0 ∷ drop LEAD r.raw.bytes) };
}

#[tactic(auto, using(crate::proofs::Puts::lengths))]
impl Region {
    ghost use Rattle.raw_region.specs.LendsRun.{lends_region_run};

    /// A region of zeros.
    pub fn new(alloc: Global) -> Result<Region, AllocError>
        ensures { IfOk result (λ r. r ≡ replicate SIZE 0) }
    {
        let raw = Raw::new(&alloc)?;
        Ok(Region { raw, alloc })
    }

    /// How many bytes the region has.
    pub fn len(&self) -> usize
        ensures all { result ≡ length self.now }
        ensures size { result ≡ SIZE }
    {
        self.raw.view().len() - LEAD
    }

    /// The allocator that the region goes back to.
    pub fn alloc(&self) -> Global {
        self.alloc
    }

    /// The word at `at`, its low byte first.
    pub fn word(&self, at: usize) -> u16
        requires { at + 2 ≤ SIZE }
        ensures { result ≡ word_at self.now at }
    {
        LittleEndian::read_u16(self.slice(at, 2))
    }

    /// Writes a word at `at`, its low byte first.
    pub fn set_word(&mut self, at: usize, v: u16)
        requires { at + 2 ≤ SIZE }
        ensures { self.new ≡ put self.old at (word v) }
    {
        LittleEndian::write_u16(self.slice_mut(at, 2), v);
    }

    /// The `n` bytes from `at` on.
    pub fn slice(&self, at: usize, n: usize) -> &[u8]
        requires { at + n ≤ SIZE }
        ensures value { result.now ≡ slice_range self.now at (at + n) }
        ensures len { length result.now ≡ n }
    {
        &self.raw.view()[LEAD + at..LEAD + at + n]
    }

    /// The byte of a raw body's kind, 0, and behind it the first `n` bytes.
    pub(crate) fn with_kind(&self, n: usize) -> &[u8]
        requires { n ≤ SIZE }
        ensures value { result.now ≡ 0 ∷ take n self.now }
        ensures len { length result.now ≡ 1 + n }
    {
        &self.raw.view()[KIND_AT..LEAD + n]
    }

    /// The `n` bytes from `at` on, to be written. The region ends as it was, with what is left in them in their place.
    pub fn slice_mut(&mut self, at: usize, n: usize) -> &mut [u8]
        requires { at + n ≤ SIZE }
        ensures* writes_back { sem 𝓛 (lends_region_run self.entry at n result) }
        ensures value { result.now ≡ slice_range self.old at (at + n) }
        ensures len { length result.now ≡ n }
    {
        self.raw.slice_mut(LEAD + at, n)
    }

    /// Moves `n` bytes from `from` to `to`, as if they were copied aside first.
    pub fn slide(&mut self, from: usize, to: usize, n: usize)
        requires source { from + n ≤ SIZE }
        requires target { to + n ≤ SIZE }
        ensures { self.new ≡ put self.old to (slice_range self.old from (from + n)) }
    {
        let size = self.len();
        move_within(self.slice_mut(0, size), from, to, n);
    }

    /// Writes `bytes` over the region's from `at` on.
    pub fn copy_in(&mut self, at: usize, bytes: &[u8])
        requires { at + length bytes.now ≤ SIZE }
        ensures { self.new ≡ put self.old at bytes.now }
    {
        self.slice_mut(at, bytes.len()).copy_from_slice(bytes);
    }

    /// Makes the `n` bytes from `at` on zero.
    pub fn zero(&mut self, at: usize, n: usize)
        requires { at + n ≤ SIZE }
        ensures { self.new ≡ put self.old at (replicate n 0) }
    {
        self.slice_mut(at, n).fill(0);
    }
}

impl Drop for Region {
    fn drop(self) {
        let Region { raw, alloc } = self;
        raw.free(&alloc);
    }
}
