//! A raw body: up to 65,520 bytes in a region of their own.
ghost use Rattle.std.specs.Prelude.{◌≡◌, ◌+◌, ◌≤◌, ℕ, true, IfOk, List, [], ◌++◌, length, take, drop, replicate, slice_index, slice_range};
ghost use Rattle.std.specs.Borrow.{sem};
ghost use Rattle.std.specs.List.{splice};
ghost use Rattle.geos_model.specs.Image.{image};
ghost use Rattle.geos_model.specs.Words.{word, word_at};
ghost use Rattle.geos_model.specs.declared.command.Body.TheVariants as bodies;
ghost use Rattle.raw_region.specs.Bytes.{put};
ghost use Rattle.raw_region.specs.Roots.{is_large_root};
ghost use Rattle.raw_region.specs.declared.TheConstants.{SIZE};

use crate::SIZE;
use crate::region::Region;
use std::alloc::{AllocError, Global};
use std::marker::Model;

/// Up to `SIZE` bytes, in a region of their own.
#[derive(Drop)]
pub struct RawBody {
    region: Region,
    len: usize,
    /// Whether the bytes are known to be the root of a large array.
    is_root: bool,
}

impl Model for RawBody {
    ghost use Rattle.std.specs.Prelude.{◌≡◌, ◌≤◌, ℕ, List, true, length, take};
    ghost use Rattle.raw_region.specs.Roots.{is_large_root};
    ghost use Rattle.raw_region.specs.declared.TheConstants.{SIZE};

    ghost Value = { List ℕ };

    ghost view = { λ b. take b.len b.region };

    ghost invariant = { λ b. (b.len ≤ SIZE) × (length b.region ≡ SIZE)
        × (b.is_root ≡ true → is_large_root (take b.len b.region) ≡ true) };
}

#[tactic(auto, using(crate::proofs::Puts::lengths))]
impl RawBody {
    ghost use Rattle.raw_region.specs.LendsBody.{lends_body_run};

    /// No bytes yet; the region is allocated here, and never grows.
    pub fn new(alloc: Global) -> Result<RawBody, AllocError>
        ensures { IfOk result (λ b. b ≡ []) }
    {
        Ok(RawBody::of_region(Region::new(alloc)?))
    }

    /// No bytes yet, in a region that may have others: these are never read.
    pub fn of_region(region: Region) -> RawBody
        ensures { result ≡ [] }
    {
        RawBody::fill(region, [].as_slice())
    }

    /// So many bytes at the front of a region, whatever they are: for who writes them before they are read.
    pub fn front(region: Region, len: usize) -> RawBody
        requires { len ≤ SIZE }
        ensures bytes { result ≡ take len region }
        ensures long { length result ≡ len }
    {
        // How long a region is, is known where a call says it.
        let _ = region.len();
        RawBody {
            region,
            len,
            is_root: false,
        }
    }

    /// These bytes, in a region that may have others.
    pub fn fill(region: Region, bytes: &[u8]) -> RawBody
        requires { length bytes.now ≤ SIZE }
        ensures { result ≡ bytes.now }
    {
        let mut region = region;
        // How long a region is, is known where a call says it.
        let _ = region.len();
        region.copy_in(0, bytes);
        RawBody {
            region,
            len: bytes.len(),
            is_root: false,
        }
    }

    /// The region, which begins with the body's bytes.
    pub fn into_region(self) -> Region
        ensures { take (length self) result ≡ self }
    {
        let RawBody { region, .. } = self;
        region
    }

    /// The bytes in use.
    pub fn bytes(&self) -> &[u8]
        ensures value { result.now ≡ self.now }
        ensures len { length self.now ≤ SIZE }
    {
        self.region.slice(0, self.len)
    }

    /// The body's image, as a file keeps it, lent where it lies: the byte of its kind lies right before its bytes.
    pub fn image(&self) -> &[u8]
        ensures value { result.now ≡ image (bodies.Raw self.now) }
        ensures len { length result.now ≤ SIZE + 1 }
    {
        self.region.with_kind(self.len)
    }

    /// Whether the bytes are known to be the root of a large array, which `mark_root` was told since they last changed.
    /// Where they aren't known to be one they may be one.
    pub fn is_known_root(&self) -> bool
        ensures { result ≡ true → is_large_root self.now ≡ true }
    {
        self.is_root
    }

    /// Keeps in mind that the bytes are the root of a large array, until they change. No memory is taken.
    pub fn mark_root(&mut self)
        requires { is_large_root self.old ≡ true }
        ensures { self.new ≡ self.old }
    {
        self.is_root = true;
    }

    /// The word at `at`, its low byte first.
    pub fn word(&self, at: usize) -> u16
        requires { at + 2 ≤ length self.now }
        ensures { result ≡ word_at self.now at }
    {
        self.region.word(at)
    }

    /// Writes a word at `at`, its low byte first.
    pub fn set_word(&mut self, at: usize, v: u16)
        requires { at + 2 ≤ length self.old }
        ensures { self.new ≡ put self.old at (word v) }
    {
        self.is_root = false;
        self.region.set_word(at, v);
    }

    /// Writes `bytes` over those from `at` on.
    pub fn copy_in(&mut self, at: usize, bytes: &[u8])
        requires { at + length bytes.now ≤ length self.old }
        ensures { self.new ≡ put self.old at bytes.now }
    {
        self.is_root = false;
        self.region.copy_in(at, bytes);
    }

    /// The `n` bytes from `at` on, to be written. They end as what is left in them, and the others as they were.
    pub fn slice_mut(&mut self, at: usize, n: usize) -> &mut [u8]
        requires { at + n ≤ length self.old }
        ensures* writes_back { sem 𝓛 (lends_body_run self.entry at n result) }
        ensures value { result.now ≡ slice_range self.old at (at + n) }
    {
        self.is_root = false;
        self.region.slice_mut(at, n)
    }

    /// Puts `new` in the place of the `k` bytes at `at`; the bytes behind them slide.
    pub fn replace(&mut self, at: usize, k: usize, new: &[u8])
        requires within { at + k ≤ length self.old }
        requires room { length self.old + length new.now ≤ SIZE + k }
        ensures { self.new ≡ splice self.old at (at + k) new.now }
    {
        let tail = self.len - (at + k);
        self.is_root = false;
        self.region.slide(at + k, at + new.len(), tail);
        self.region.copy_in(at, new);
        self.len = at + new.len() + tail;
    }

    /// Puts `n` zeros in before the byte at `at`.
    pub fn insert_zeros(&mut self, at: usize, n: usize)
        requires within { at ≤ length self.old }
        requires room { length self.old + n ≤ SIZE }
        ensures { self.new ≡ splice self.old at at (replicate n 0) }
    {
        let tail = self.len - at;
        self.is_root = false;
        self.region.slide(at, at + n, tail);
        self.region.zero(at, n);
        self.len = at + n + tail;
    }
}
