//! The root of a large array, read where it lies.
ghost use Rattle.std.specs.Prelude.{◌≡◌, ◌^◌, ◌<◌, ◌≤◌, ◌+◌, ◌-◌, ◌*◌, ◌↔◌, Some, None, true, is_some, IsTrue, MatchResult, length, get_or, map, take, drop, sum_by};
ghost use Rattle.std.specs.List.{range_with_len};
ghost use Rattle.geos_model.specs.Words.{word_at, double_word_at};
ghost use Rattle.geos_model.specs.Heap.{capacity};
ghost use Rattle.geos_model.specs.LargeLayout.{root_of, total_count};
ghost use Rattle.geos_model.specs.Spread.{start_place, end_place};
ghost use Rattle.large_bodies.specs.RootEdits.{count_bytes, link_bytes, run_between};
ghost use Rattle.large_bodies.specs.RootParts.{HasMarks, HasLength, HasHead, HasCounts, HasZeros, branches_in};

use byteorder::{ByteOrder, LittleEndian};
use geos_model::Fault;
use std::marker::Model;

/// The first word of a tree block.
pub const TREE_MARK: u16 = 0xFFFF;

/// By which a tree block is known as a root.
pub const MARK: [u8; 4] = *b"GARR";

/// The greatest size of elements that have one size.
const GREATEST_SIZE: u16 = 4_096;

/// How many branches are passed at a time where a place is looked for.
const BLOCK: usize = 64;

/// The root of a large array, read where it lies. Contracts see it as the root.
#[derive(Drop)]
pub struct RootView<'a> {
    bytes: &'a [u8],
    /// How many branches there are.
    branches: usize,
    /// How many bytes each element has, 0 where sizes vary.
    size: usize,
    /// How many elements there are.
    total: u32,
}

impl<'a> Model for RootView<'a> {
    ghost use Rattle.geos_model.specs.LargeLayout.{Root, root_read};

    ghost Value = { Root };

    ghost use Rattle.large_bodies.specs.RootViewing.{IsRootView};

    ghost view = { λ v. root_read v.bytes.now };

    ghost invariant = { IsRootView };
}

/// The root that these bytes of a raw body are. NotArray where they are none. It takes time in proportion to the number
/// of branches, and no memory.
pub fn read_root<'a>(bytes: &'a [u8]) -> Result<RootView<'a>, Fault>
    requires { length bytes.now ≤ capacity }
    ensures { MatchResult result (λ root. root_of bytes.now ≡ Some root)
        (λ fault. (fault ≡ Fault.NotArray) × (root_of bytes.now ≡ None)) }
{
    if !has_head(bytes) {
        return Err(Fault::NotArray);
    }
    let branches = usize::from(word(bytes, 4));
    let AllBranches {
        total,
        has_counts,
        has_zeros,
    } = all_branches(bytes, branches);
    if stored_total(bytes) != total {
        return Err(Fault::NotArray);
    }
    if !has_counts || !has_zeros {
        return Err(Fault::NotArray);
    }
    let size = usize::from(word(bytes, 10));
    Ok(RootView {
        bytes,
        branches,
        size,
        total,
    })
}

/// The root that these bytes of a raw body are, which are known to be one: nothing is tested.
pub fn known_root<'a>(bytes: &'a [u8]) -> RootView<'a>
    requires short { length bytes.now ≤ capacity }
    requires root { is_some (root_of bytes.now) ≡ true }
    ensures { root_of bytes.now ≡ Some result }
{
    RootView {
        bytes,
        branches: usize::from(word(bytes, 4)),
        size: usize::from(word(bytes, 10)),
        total: stored_total(bytes),
    }
}

/// The word at a place.
fn word(bytes: &[u8], at: usize) -> u16
    requires { at + 2 ≤ length bytes.now }
    ensures { result ≡ word_at bytes.now at }
{
    LittleEndian::read_u16(&bytes[at..])
}

/// The double word at a place.
fn double_word(bytes: &[u8], at: usize) -> u32
    requires { at + 4 ≤ length bytes.now }
    ensures { result ≡ double_word_at bytes.now at }
{
    LittleEndian::read_u32(&bytes[at..])
}

/// How many elements a root says that there are.
fn stored_total(bytes: &[u8]) -> u32
    requires { 16 ≤ length bytes.now }
    ensures { result ≡ double_word_at bytes.now 12 }
{
    double_word(bytes, 12)
}

/// Whether bytes begin as those of a root do, and are as many.
fn has_head(bytes: &[u8]) -> bool
    ensures { IsTrue result ↔ HasHead bytes.now }
{
    16 <= bytes.len() && has_marks(bytes) && has_length(bytes)
}

/// Whether they have the marks of a root, and a size that elements can have.
fn has_marks(bytes: &[u8]) -> bool
    requires { 16 ≤ length bytes.now }
    ensures { IsTrue result ↔ HasMarks bytes.now }
{
    word(bytes, 0) == TREE_MARK
        && &bytes[6..10] == MARK.as_slice()
        && word(bytes, 10) <= GREATEST_SIZE
}

/// Whether they are as many as the number of branches says.
fn has_length(bytes: &[u8]) -> bool
    requires { 16 ≤ length bytes.now }
    ensures { IsTrue result ↔ HasLength bytes.now }
{
    let branches = usize::from(word(bytes, 4));
    let place = usize::from(word(bytes, 2));
    0 < branches && place == 16 + 2 * branches && bytes.len() == 16 + 6 * branches
}

/// What is told of all branches of a root together.
#[derive(Drop)]
struct AllBranches {
    /// How many elements they have, as the root says.
    total: u32,
    /// Whether none is empty but a single one.
    has_counts: bool,
    /// Whether each begins with a zero word.
    has_zeros: bool,
}

/// All branches of a root, looked at once. It doesn't end at a first fault, so that several are looked at together by
/// vectors.
fn all_branches(bytes: &[u8], branches: usize) -> AllBranches
    requires branches { branches ≡ branches_in bytes.now }
    requires few { branches < 2 ^ 16 }
    requires room { 16 + 6 * branches ≤ length bytes.now }
    ensures total { result.total ≡
        sum_by (λ c. c) (map (λ i. word_at bytes.now (16 + 2 * i)) (range_with_len 0 branches)) }
    ensures counts { IsTrue result.has_counts ↔ HasCounts bytes.now }
    ensures zeros { IsTrue result.has_zeros ↔ HasZeros bytes.now }
{
    let mut total: u32 = 0;
    let mut least = u32::MAX;
    // The bits of all links, each with its zero word in the low half.
    let mut links = 0;
    for i in 0..branches {
        let count = u32::from(word(bytes, 16 + 2 * i));
        total += count;
        least = least.min(count);
        links |= double_word(bytes, 16 + 2 * branches + 4 * i);
    }
    AllBranches {
        total,
        has_counts: branches == 1 || 0 < least,
        has_zeros: links % 65_536 == 0,
    }
}

impl<'a> RootView<'a> {
    /// How many bytes each element has, 0 where sizes vary.
    pub fn element_size(&self) -> usize
        ensures value { result ≡ self.now.size }
        ensures small { result < 2 ^ 16 }
    {
        self.size
    }

    /// How many elements there are.
    pub fn total(&self) -> u32
        ensures { result ≡ total_count self.now }
    {
        self.total
    }

    /// How many branches there are.
    pub fn branches(&self) -> usize
        ensures counts { result ≡ length self.now.counts }
        ensures branches { result ≡ length self.now.branches }
        ensures some { 0 < result }
        ensures few { result < 2 ^ 16 }
    {
        self.branches
    }

    /// How many elements a branch has.
    pub fn count(&self, k: usize) -> u16
        requires { k < length self.now.counts }
        ensures { result ≡ get_or self.now.counts k 0 }
    {
        word(self.bytes, 16 + 2 * k)
    }

    /// The handle of a branch's block.
    pub fn branch(&self, k: usize) -> u16
        requires { k < length self.now.branches }
        ensures { result ≡ get_or self.now.branches k 0 }
    {
        word(self.bytes, 18 + 2 * self.branches + 4 * k)
    }

    /// How many elements the branches have that aren't among those from one up to another.
    pub fn total_without(&self, first: usize, behind: usize) -> u32
        requires order { first ≤ behind }
        requires within { behind ≤ length self.now.counts }
        ensures value { result ≡
            sum_by (λ c. c) (take first self.now.counts) + sum_by (λ c. c) (drop behind self.now.counts) }
        ensures few { result ≤ 65535 * (length self.now.counts - (behind - first)) }
    {
        let mut total = self.total;
        for k in first..behind {
            total -= u32::from(self.count(k));
        }
        total
    }

    /// The size of elements, as it stands in the root.
    pub fn size_word(&self) -> u16
        ensures { result ≡ self.now.size }
    {
        word(self.bytes, 10)
    }

    /// The bytes of counts, from one branch up to another.
    pub fn count_bytes(&self, from: usize, to: usize) -> &'a [u8]
        requires order { from ≤ to }
        requires within { to ≤ length self.now.counts }
        ensures { result.now ≡ count_bytes (run_between self.now.counts from to) }
    {
        &self.bytes[16 + 2 * from..16 + 2 * to]
    }

    /// The bytes of branches, from one up to another.
    pub fn link_bytes(&self, from: usize, to: usize) -> &'a [u8]
        requires order { from ≤ to }
        requires within { to ≤ length self.now.branches }
        ensures { result.now ≡ link_bytes (run_between self.now.branches from to) }
    {
        let start = 16 + 2 * self.branches;
        &self.bytes[start + 4 * from..start + 4 * to]
    }

    /// Whole blocks of branches before the one that has an element: how many branches these are, and how many elements
    /// lie between them and that element.
    fn passed(&self, i: u32) -> (usize, u32)
        ensures within { result.0 < length self.now.counts }
        ensures value { sum_by (λ c. c) (take result.0 self.now.counts) + result.1 ≡ i }
        ensures between { 0 < result.0 → 0 < result.1 }
    {
        let blocks = (self.branches - 1) / BLOCK;
        let mut left = i;
        for block in 0..blocks {
            let total = self.block_total(BLOCK * block);
            if left <= total {
                return (BLOCK * block, left);
            }
            left -= total;
        }
        (BLOCK * blocks, left)
    }

    /// How many elements a block of branches has, from one on.
    fn block_total(&self, first: usize) -> u32
        requires few { first < 2 ^ 16 }
        requires within { first + 64 ≤ length self.now.counts }
        ensures { result + sum_by (λ c. c) (drop (first + 64) self.now.counts)
            ≡ sum_by (λ c. c) (drop first self.now.counts) }
    {
        let mut total: u32 = 0;
        for k in 0..BLOCK {
            total += u32::from(self.count(first + k));
        }
        total
    }

    /// In which branch an element is, or a run begins, and how many of that branch's elements are before it.
    pub fn start_place(&self, i: u32) -> (usize, u32)
        ensures value { result ≡ start_place self.now.counts i }
        ensures within { result.0 < length self.now.counts }
        ensures branch { result.0 < length self.now.branches }
        ensures few { result.0 < 2 ^ 16 }
    {
        let last = self.branches - 1;
        let (first, before) = self.passed(i);
        let mut left = before;
        for k in first..last {
            let count = u32::from(self.count(k));
            if left < count {
                return (k, left);
            }
            left -= count;
        }
        (last, left)
    }

    /// In which branch a run ends, or elements are put in, and how many of that branch's elements are before that.
    pub fn end_place(&self, i: u32) -> (usize, u32)
        ensures value { result ≡ end_place self.now.counts i }
        ensures within { result.0 < length self.now.counts }
        ensures branch { result.0 < length self.now.branches }
        ensures few { result.0 < 2 ^ 16 }
    {
        let last = self.branches - 1;
        let (first, before) = self.passed(i);
        let mut left = before;
        for k in first..last {
            let count = u32::from(self.count(k));
            if left <= count {
                return (k, left);
            }
            left -= count;
        }
        (last, left)
    }
}
