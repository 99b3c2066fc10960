//! A splice: a part of some bytes, and what comes in its place.
ghost use Rattle.std.specs.Prelude.{◌≡◌, ◌+◌, ◌<◌, ◌≤◌, ◌^◌, ◌++◌, IfOk, MatchResult, length, take, drop, replicate};

use geos_model::{Bytes, Fault};
use std::alloc::{AllocError, Global};
use std::marker::Model;
use std::mem::size_of;

/// How many bytes a splice holds without an allocation.
const FEW: usize = 24;

/// A part of some bytes, and what takes its place.
#[derive(Drop)]
pub struct Splice {
    held: Held,
}

// Millions of splices may be kept, each in so many bytes.
const _: () = prove!(size_of::<Splice>() <= 32);

/// The part as it stands, and behind it what takes its place; how many bytes the part has, and where it begins. The
/// numbers come first, where they share a word with the tag.
#[derive(Drop)]
enum Held {
    /// The first `len` of these bytes.
    Few {
        len: u8,
        cut: u16,
        at: u32,
        bytes: [u8; FEW],
    },
    /// More bytes, in an allocation.
    Many {
        cut: u16,
        at: u32,
        bytes: Vec<u8>,
    },
}

impl Model for Splice {
    ghost use Rattle.chunk_edits.specs.Holding.{AreThere, held_splice};
    ghost use Rattle.chunk_edits.specs.Splicing.{Splice as Parts};

    ghost Value = { Parts };

    ghost view = { λ s. held_splice s.held };

    ghost invariant = { λ s. AreThere s.held };
}

impl Splice {
    /// The splice that puts bytes in the place of a part that begins at `at`.
    pub fn of(alloc: Global, at: u32, old: &[u8], new: &[u8]) -> Result<Splice, AllocError>
        requires old { length old.now < 2 ^ 16 }
        requires new { length new.now < 2 ^ 32 }
        ensures { IfOk result (λ s. s ≡ record { at = at; old = old.now; new = new.now }) }
    {
        let count = old.len() + new.len();
        if count <= FEW {
            return Ok(Splice::of_few(at, old, new));
        }
        let mut bytes = Vec::with_capacity(alloc, count)?;
        bytes.extend_from_slice(old)?;
        bytes.extend_from_slice(new)?;
        let cut = old.len() as u16;
        let held = Held::Many { cut, at, bytes };
        Ok(Splice { held })
    }

    /// The splice that puts `n` zeros in the place of a part that begins at `at`.
    pub(crate) fn of_zeros(alloc: Global, at: u32, old: &[u8], n: u32) -> Result<Splice, AllocError>
        requires { length old.now < 2 ^ 16 }
        ensures { IfOk result (λ s. s ≡ record { at = at; old = old.now; new = replicate n 0 }) }
    {
        let count = old.len() + n as usize;
        if count <= FEW {
            return Ok(Splice::of_few(at, old, &[0; FEW][..n as usize]));
        }
        let mut bytes = Vec::with_capacity(alloc, count)?;
        bytes.extend_from_slice(old)?;
        bytes.resize(count, 0)?;
        let cut = old.len() as u16;
        let held = Held::Many { cut, at, bytes };
        Ok(Splice { held })
    }

    // The same of few bytes.
    fn of_few(at: u32, old: &[u8], new: &[u8]) -> Splice
        requires { length old.now + length new.now ≤ 24 }
        ensures { result ≡ record { at = at; old = old.now; new = new.now } }
    {
        let count = old.len() + new.len();
        let mut bytes = [0; FEW];
        bytes[..old.len()].copy_from_slice(old);
        bytes[old.len()..count].copy_from_slice(new);
        let held = Held::Few {
            len: count as u8,
            cut: old.len() as u16,
            at,
            bytes,
        };
        Splice { held }
    }

    /// Where the part begins.
    pub fn at(&self) -> u32
        ensures { result ≡ self.now.at }
    {
        match &self.held {
            Held::Few { at, .. } | Held::Many { at, .. } => *at,
        }
    }

    /// The part as it stands.
    pub fn old(&self) -> &[u8]
        ensures { result.now ≡ self.now.old }
    {
        &self.row()[..self.old_len() as usize]
    }

    /// What takes its place.
    pub fn new(&self) -> &[u8]
        ensures { result.now ≡ self.now.new }
    {
        &self.row()[self.old_len() as usize..]
    }

    /// How many bytes the part has.
    pub fn old_len(&self) -> u32
        ensures { result ≡ length self.now.old }
    {
        match &self.held {
            Held::Few { cut, .. } | Held::Many { cut, .. } => u32::from(*cut),
        }
    }

    /// How many bytes come in its place.
    pub fn new_len(&self) -> u32
        ensures { result ≡ length self.now.new }
    {
        match &self.held {
            Held::Few {
                len,
                cut,
                bytes,
                ..
            } => bytes[usize::from(*cut)..usize::from(*len)].len() as u32,
            Held::Many { cut, bytes, .. } => bytes[usize::from(*cut)..].len() as u32,
        }
    }

    /// How many bytes it holds.
    pub fn byte_count(&self) -> usize
        ensures { result ≡ length self.now.old + length self.now.new }
    {
        self.row().len()
    }

    // The part, and behind it what takes its place.
    fn row(&self) -> &[u8]
        ensures { result.now ≡ self.now.old ++ self.now.new }
    {
        match &self.held {
            Held::Few { len, bytes, .. } => &bytes[..usize::from(*len)],
            Held::Many { bytes, .. } => bytes.as_slice(),
        }
    }
}

/// A copy of these bytes.
pub fn copied(alloc: Global, bytes: &[u8]) -> Result<Bytes, AllocError>
    ensures { IfOk result (λ copy. copy ≡ bytes.now) }
{
    let mut copy = Vec::with_capacity(alloc, bytes.len())?;
    copy.extend_from_slice(bytes)?;
    Ok(Bytes::from_vec(copy))
}

/// The `n` of these bytes from `at` on; Range where there are not so many.
pub(crate) fn part(bytes: &[u8], at: usize, n: usize) -> Result<&[u8], Fault>
    ensures { MatchResult result
        (λ part. (at + n ≤ length bytes.now) × (part.now ≡ take n (drop at bytes.now)))
        (λ fault. (length bytes.now < at + n) × (fault ≡ Fault.Range)) }
{
    if bytes.len() < at || bytes.len() - at < n {
        return Err(Fault::Range);
    }
    Ok(&bytes[at..at + n])
}
