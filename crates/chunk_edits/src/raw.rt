//! Edits of a raw body: the splice that each makes, and how a splice is applied and taken back.
ghost use Rattle.std.specs.Prelude.{◌≡◌, ◌≤◌, ◌+◌, ◌*◌, ◌++◌, IfOk, MatchResult, length};
ghost use Rattle.std.specs.List.{splice};
ghost use Rattle.geos_model.specs.Bytes.{written, spliced};
ghost use Rattle.geos_model.specs.Heap.{capacity};
ghost use Rattle.geos_model.specs.Meaning.{past_end, too_big};
ghost use Rattle.chunk_edits.specs.Runs.{LiesAt};
ghost use Rattle.chunk_edits.specs.Splicing.{Builds, RefusesToBuild, forwards, backwards};

use crate::parts::{Splice, part};
use geos_model::Fault;
use raw_region::{RawBody, SIZE};
use std::alloc::Global;

/// Puts the new part in the place of the old one.
pub fn apply_raw(body: &mut RawBody, splice: &Splice)
    requires within { splice.now.at + length splice.now.old ≤ length body.old }
    requires room { length (forwards splice.now body.old) ≤ capacity }
    ensures { body.new ≡ forwards splice.now body.old }
{
    let old = splice.old().len();
    put(body, splice.at() as usize, old, splice.new());
}

/// Puts the old part in the place of the new one, which takes `apply_raw` back.
pub fn apply_raw_back(body: &mut RawBody, splice: &Splice)
    requires within { splice.now.at + length splice.now.new ≤ length body.old }
    requires room { length (backwards splice.now body.old) ≤ capacity }
    ensures { body.new ≡ backwards splice.now body.old }
{
    let new = splice.new().len();
    put(body, splice.at() as usize, new, splice.old());
}

/// Puts bytes in the place of the `k` bytes at `at`. As many are written over without a move of others.
pub(crate) fn put(body: &mut RawBody, at: usize, k: usize, bytes: &[u8])
    requires within { at + k ≤ length body.old }
    requires room { length (splice body.old at (at + k) bytes.now) ≤ capacity }
    ensures { body.new ≡ splice body.old at (at + k) bytes.now }
{
    if bytes.len() == k {
        body.copy_in(at, bytes);
    } else {
        body.replace(at, k, bytes);
    }
}

/// The splice that writes over the bytes of a raw body from `at` on. Range where that reaches past its end.
pub fn raw_write(alloc: Global, body: &RawBody, at: u32, bytes: &[u8]) -> Result<Splice, Fault>
    ensures built { MatchResult result
        (λ s. Builds (past_end body.now (at + length bytes.now)) s body.now (written body.now at bytes.now)
        (2 * length bytes.now))
        (RefusesToBuild (past_end body.now (at + length bytes.now))) }
    ensures room { IfOk result (λ s. length (written body.now at bytes.now) ≤ capacity) }
    ensures run { IfOk result (λ s. LiesAt s at (length bytes.now) (length bytes.now)) }
{
    let old = part(body.bytes(), at as usize, bytes.len())?;
    Ok(Splice::of(alloc, at, old, bytes)?)
}

/// The splice that puts bytes in the place of the `n` bytes at `at` of a raw body. Range where these reach past its
/// end, TooBig where a raw body can't have so many bytes as it gets.
pub fn raw_splice(
    alloc: Global,
    body: &RawBody,
    at: u32,
    n: u32,
    bytes: &[u8],
) -> Result<Splice, Fault>
    ensures built { MatchResult result
        (λ s. Builds (past_end body.now (at + n) ++ too_big (length (spliced body.now at n bytes.now))) s body.now
        (spliced body.now at n bytes.now) (n + length bytes.now))
        (RefusesToBuild (past_end body.now (at + n) ++ too_big (length (spliced body.now at n bytes.now)))) }
    ensures room { IfOk result (λ s. length (spliced body.now at n bytes.now) ≤ capacity) }
    ensures run { IfOk result (λ s. LiesAt s at n (length bytes.now)) }
{
    let all = body.bytes();
    let old = part(all, at as usize, n as usize)?;
    if all.len() - old.len() + bytes.len() > SIZE {
        return Err(Fault::TooBig);
    }
    Ok(Splice::of(alloc, at, old, bytes)?)
}

/// The splice that replaces a whole raw body. TooBig where a raw body can't have so many bytes.
pub fn raw_replace(alloc: Global, body: &RawBody, bytes: &[u8]) -> Result<Splice, Fault>
    ensures built { MatchResult result
        (λ s. Builds (too_big (length bytes.now)) s body.now bytes.now (length body.now + length bytes.now))
        (RefusesToBuild (too_big (length bytes.now))) }
    ensures run { IfOk result (λ s. LiesAt s 0 (length body.now) (length bytes.now)) }
{
    if bytes.len() > SIZE {
        return Err(Fault::TooBig);
    }
    Ok(Splice::of(alloc, 0, body.bytes(), bytes)?)
}
