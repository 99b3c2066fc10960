//! The pages that are free while extents come and go: for each page on how many of the taken extents it lies.
ghost use Rattle.std.specs.Prelude.{◌≡◌, ◌∷◌, [], ◌+◌, ◌-◌, ◌^◌, ◌<◌, ◌≤◌, ◌≢◌, List, All, ℕ, length, min, replicate, false, IfOk, IsOk, OnOk, OnErr, slice_index, MatchOption};
ghost use Rattle.file_format.specs.File.{end_page};
ghost use Rattle.file_format.specs.declared.file.Extent.{Extent};
ghost use Rattle.file_space.specs.Placing.{IsFirstFit, IsLength};
ghost use Rattle.file_space.specs.Space.{AreCountsRaised, AreTaken, IsFirstRun, IsHint, IsLargestHint, IsTaken, lowest};
ghost use Rattle.file_space.specs.Stretches.{IsFull};

use crate::full_stretch::FullStretch;
use crate::limit::{MOST_EXTENTS, MOST_PAGES};
use file_format::{Extent, FIRST_PAGE, page_behind, page_count};
use std::alloc::{AllocError, Global};
use std::marker::Model;

// An extent takes from no page, which none that is taken does, to that many.
const SIZES: usize = MOST_PAGES as usize + 1;

/// The pages that are free while extents come and go.
#[derive(Drop)]
pub struct FreeSpace {
    // For each page, how many of the extents that are taken lie on it: extents of a file may overlap. A page behind the
    // last one is free.
    counts: Vec<u16>,
    // For each number of pages, one before which so many are free nowhere. Kept apart, so that little is moved where
    // the space is.
    hints: Vec<u32>,
    // The most pages that were taken at once: the hints for more are those of an empty space.
    longest: usize,
    count: usize,
    // What is known to be full behind the pages that were given back last.
    full: FullStretch,
}

impl Model for FreeSpace {
    ghost use Rattle.file_space.specs.Space.{Space, AreHintsUpTo, IsSpaceSound};
    ghost use Rattle.file_space.specs.Stretches.{IsFull};

    ghost Value = { Space };

    ghost view = { λ f. record { counts = f.counts.items; count = f.count } };

    ghost invariant = { λ f. IsSpaceSound f.counts.items f.hints.items f.count
        × (AreHintsUpTo f.longest f.hints.items × IsFull f.counts.items f.full) };
}

impl FreeSpace {
    /// Nothing is taken.
    pub fn new(alloc: Global) -> Result<FreeSpace, AllocError>
        ensures { IfOk result (AreTaken []) }
    {
        Ok(FreeSpace {
            counts: Vec::new(alloc),
            hints: first_hints(alloc)?,
            longest: 0,
            count: 0,
            full: FullStretch::empty(),
        })
    }

    /// One more extent is taken, of 1 to 321 pages; others may lie there too. Memory goes to pages behind all that were
    /// taken so far: an extent that is taken already is taken once more without any.
    pub fn hold(&mut self, extent: Extent) -> Result<(), AllocError>
        requires few { self.old.count < MOST_EXTENTS }
        requires behind_slots { 2 ≤ extent.page }
        requires in_range { IsLength extent.length }
        ensures held { OnOk result ((taken : List Extent) →
            AreTaken taken self.old → AreTaken (extent ∷ taken) self.new) }
        ensures count { OnOk result (self.new.count ≡ self.old.count + 1) }
        ensures room { end_page extent ≤ length self.old.counts → IsOk result }
        ensures refused { OnErr result (self.new ≡ self.old) }
    {
        let start = extent.page as usize;
        let end = page_behind(extent) as usize;
        make_room(&mut self.counts, end)?;
        count_up(&mut self.counts, start, end);
        self.count += 1;
        Ok(())
    }

    /// Takes the first free extent of `len` bytes, 1 to 321 pages.
    pub fn take(&mut self, len: u32) -> Result<Extent, AllocError>
        requires few { self.old.count < MOST_EXTENTS }
        requires in_range { IsLength len }
        ensures placed { IfOk result (λ extent. (taken : List Extent) → AreTaken taken self.old →
            IsFirstFit taken len extent × AreTaken (extent ∷ taken) self.new) }
        ensures count { OnOk result (self.new.count ≡ self.old.count + 1) }
        ensures refused { OnErr result (self.new ≡ self.old) }
    {
        let pages = page_count(u64::from(len)) as usize;
        let from = largest_hint(&self.hints, pages) as usize;
        let page = first_run(&self.counts, self.full, from, pages) as u32;
        let extent = Extent { page, length: len };
        self.hold(extent)?;
        // So many are free nowhere before the page, its own are taken now, and those behind it may be known to be.
        self.hints[pages] = self.full.behind(page as usize + pages, pages) as u32;
        self.longest = self.longest.max(pages);
        Ok(extent)
    }

    /// Gives back an extent that is taken.
    pub fn release(&mut self, extent: Extent)
        requires { IsTaken extent self.old }
        ensures left { (rest : List Extent) → AreTaken (extent ∷ rest) self.old → AreTaken rest self.new }
        ensures count { self.old.count ≡ self.new.count + 1 }
    {
        let start = extent.page as usize;
        let end = page_behind(extent) as usize;
        count_down(&mut self.counts, start, end);
        self.count -= 1;
        if has_free(&self.counts, start, end) {
            self.full = full_behind(self.full, &self.hints, start, end);
            lower(&mut self.hints, self.longest, extent.page);
        }
    }
}

// Before the first page behind the slots nothing is free.
fn first_hints(alloc: Global) -> Result<Vec<u32>, AllocError>
    ensures { IfOk result (λ hints. hints.items ≡ replicate 322 2) }
{
    vec![in alloc; FIRST_PAGE; SIZES]
}

// Counts of pages before `end` are there.
fn make_room(counts: &mut Vec<u16>, end: usize) -> Result<(), AllocError>
    ensures room { OnOk result (end ≤ length counts.new.items) }
    ensures same { (page : ℕ) → slice_index counts.new.items page ≡ slice_index counts.old.items page }
    ensures enough { end ≤ length counts.old.items → IsOk result }
    ensures refused { OnErr result (counts.new.items ≡ counts.old.items) }
{
    if counts.len() < end {
        counts.resize(end, 0)?;
    }
    Ok(())
}

fn count_up(counts: &mut [u16], start: usize, end: usize)
    requires inside { end ≤ length counts.old }
    requires order { start ≤ end }
    requires few { (page : ℕ) → slice_index counts.old page < 65535 }
    ensures { AreCountsRaised start end counts.old counts.new }
{
    for page in start..end {
        counts[page] += 1;
    }
}

fn count_down(counts: &mut [u16], start: usize, end: usize)
    requires order { start ≤ end }
    requires some { (page : ℕ) → start ≤ page → page < end → 1 ≤ slice_index counts.old page }
    ensures { AreCountsRaised start end counts.new counts.old }
{
    for page in start..end {
        counts[page] -= 1;
    }
}

// Whether one of these pages is free.
fn has_free(counts: &[u16], start: usize, end: usize) -> bool
    ensures { result ≡ false → (page : ℕ) → start ≤ page → page < end → 1 ≤ slice_index counts.now page }
{
    for page in start..end {
        if page >= counts.len() || counts[page] == 0 {
            return true;
        }
    }
    false
}

// The first page from which so many reach one that is free from now on.
fn lowest(page: u32, pages: usize) -> u32
    requires { pages < 322 }
    ensures { result ≡ lowest page pages }
{
    let before = (pages as u32).saturating_sub(1);
    page.saturating_sub(before).max(FIRST_PAGE)
}

// From a page on some are free that weren't. For more pages than `longest` the hints stay.
fn lower(hints: &mut [u32], longest: usize, page: u32)
    requires known { longest < 322 }
    requires within { longest < length hints.old }
    ensures lower { (n : ℕ) → n ≤ longest → slice_index hints.new n ≡ min (slice_index hints.old n) (lowest page n) }
    ensures same { (n : ℕ) → longest < n → slice_index hints.new n ≡ slice_index hints.old n }
{
    for n in 0..longest + 1 {
        hints[n] = hints[n].min(lowest(page, n));
    }
}

// What is full behind pages that were given back: up to the hint for so many, or else what was known.
fn full_behind(full: FullStretch, hints: &[u32], start: usize, end: usize) -> FullStretch
    requires behind_slots { 2 ≤ end }
    requires order { start ≤ end }
    requires known { end - start < length hints.now }
    ensures { (old new : List ℕ) → IsFull old full → IsHint old (end - start) (slice_index hints.now (end - start))
        → AreCountsRaised start end new old → IsFull new result }
{
    let pages = end - start;
    let hint = hints[pages] as usize;
    if end < hint {
        FullStretch {
            pages,
            from: end,
            to: hint,
        }
    } else {
        FullStretch {
            from: full.from.max(end),
            ..full
        }
    }
}

// The largest hint for so many pages or fewer: where fewer aren't free, so many aren't either.
fn largest_hint(hints: &[u32], pages: usize) -> u32
    requires known { pages < length hints.now }
    ensures { IsLargestHint hints.now pages result }
{
    let mut largest = hints[pages];
    for hint in &hints[..pages] {
        largest = largest.max(*hint);
    }
    largest
}

// The last page of a range that isn't free.
fn last_taken(counts: &[u16], start: usize, end: usize) -> Option<usize>
    requires { end ≤ length counts.now }
    ensures { MatchOption result ((k : ℕ) → start ≤ k → k < end → slice_index counts.now k ≡ 0)
        (λ page. (start ≤ page) × (page < end) × (slice_index counts.now page ≢ 0)) }
{
    let mut page = end;
    while page > start {
        page -= 1;
        if counts[page] != 0 {
            return Some(page);
        }
    }
    None
}

// The first page from one on at which so many are free. Each look begins at the last page of a place, so that most
// pages are passed over unseen, and so are those that are known to be full.
fn first_run(counts: &[u16], full: FullStretch, from: usize, pages: usize) -> usize
    requires full { IsFull counts.now full }
    requires near { from < 2 ^ 32 }
    requires few { pages ≤ MOST_PAGES }
    ensures { IsFirstRun counts.now from pages result }
{
    let mut start = full.behind(from, pages);
    while let Some(page) = last_taken(counts, start, (start + pages).min(counts.len())) {
        start = full.behind(page + 1, pages);
    }
    start
}
