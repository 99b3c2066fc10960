//! Chunks in a region under slots, seen as a list of what each slot has and one of where its bytes lie.
ghost use Rattle.std.specs.Prelude.{◌≡◌, ◌≢◌, ◌+◌, ◌-◌, ◌≤◌, ◌<◌, ℕ, [], ◌++◌, Some, None, IfOk, IfSome, IsSome, MatchOption, length, replicate, take, set, get_or, unwrap_or, slice_range, is_some, nat_lt, true, ◌==◌, if◌then◌else◌};
ghost use Rattle.std.specs.Borrow.{sem};
ghost use Rattle.std.specs.List.{splice};
ghost use Rattle.std.specs.Option.{option_copied, option_map};
ghost use Rattle.geos_model.specs.Bytes.{resized};
ghost use Rattle.geos_model.proofs.Table.{IsTrimmed};
ghost use Rattle.raw_region.specs.Bytes.{put};
ghost use Rattle.heap_images.specs.Slots.{space_in, need_in, need_of};

use crate::found::FoundChunk;
use crate::space::Space;
use crate::words::EMPTY;
use raw_region::Region;
use std::marker::Model;

/// Chunks in a region, each under a slot.
#[derive(Drop)]
pub(crate) struct ChunkTable {
    space: Space,
}

impl Model for ChunkTable {
    ghost use Rattle.lmem_heap.specs.Stored.{Stored, store_of, IsStoredHeap};

    ghost Value = { Stored };

    ghost view = { λ t. store_of t.space.region t.space.slots };

    ghost invariant = { λ t. IsStoredHeap t.space };
}

impl ChunkTable {
    ghost use Rattle.lmem_heap.specs.Found.{IsFoundAt};
    ghost use Rattle.lmem_heap.specs.LendsChunk.{lends_table_chunk};
    ghost use Rattle.lmem_heap.specs.Stored.{AreLast, AreStoredDisjoint, AreBehind, StoredHoldsChunks};

    /// No slots, in a region that may have any bytes.
    pub(crate) fn of_region(region: Region) -> ChunkTable
        ensures chunks { result.chunks ≡ [] }
        ensures offsets { result.offsets ≡ [] }
    {
        ChunkTable {
            space: Space::of_region(region),
        }
    }

    /// The region, with the chunks' bytes where they lie.
    pub(crate) fn into_region(self) -> Region
        ensures { StoredHoldsChunks result self }
    {
        let ChunkTable { space } = self;
        space.region
    }

    /// How many slots there are.
    pub(crate) fn len(&self) -> usize
        ensures chunks { result ≡ length self.now.chunks }
        ensures offsets { result ≡ length self.now.offsets }
        ensures room { need_in self.now.chunks ≤ 65520 }
        ensures apart { AreStoredDisjoint self.now }
        ensures behind { AreBehind self.now }
    {
        self.space.slots
    }

    /// What the chunks take, each with the word before it.
    pub(crate) fn space(&self) -> usize
        ensures { result ≡ space_in self.now.chunks }
    {
        self.space.total
    }

    /// Whether a slot has a chunk.
    pub(crate) fn has_chunk(&self, i: usize) -> bool
        requires { i < length self.now.chunks }
        ensures { result ≡ is_some (get_or self.now.chunks i None) }
    {
        self.space.has_chunk(i)
    }

    /// The size of a slot's chunk.
    pub(crate) fn size(&self, i: usize) -> Option<usize>
        requires { i < length self.now.chunks }
        ensures value { result ≡ option_map length (get_or self.now.chunks i None) }
        ensures small { IfSome result (λ n. n < 65536) }
    {
        self.space.size(i)
    }

    /// Where the bytes of a slot's chunk lie; None where it has none.
    pub(crate) fn offset(&self, i: usize) -> Option<usize>
        requires { i < length self.now.chunks }
        ensures place { result ≡ get_or self.now.offsets i None }
        ensures there { is_some result ≡ nat_lt 0 (length (unwrap_or (get_or self.now.chunks i None) [])) }
        ensures within { IfSome result (λ at. at + length (unwrap_or (get_or self.now.chunks i None) []) ≤ 65520) }
    {
        self.space.offset(i)
    }

    /// The chunk of a slot; None where it has none.
    pub(crate) fn find(&self, i: usize) -> Option<FoundChunk>
        requires { i < length self.now.chunks }
        ensures { MatchOption result (get_or self.now.chunks i None ≡ None)
            (λ found. (found.slot ≡ i) × IsFoundAt self.now found) }
    {
        if self.has_chunk(i) {
            Some(self.find_live(i))
        } else {
            None
        }
    }

    /// The chunk of a slot that has one.
    pub(crate) fn find_live(&self, i: usize) -> FoundChunk
        requires slot { i < length self.now.chunks }
        requires live { IsSome (get_or self.now.chunks i None) }
        ensures slot { result.slot ≡ i }
        ensures found { IsFoundAt self.now result }
    {
        FoundChunk {
            slot: i,
            run: self.space.find_run(i),
        }
    }

    /// The bytes of a chunk.
    pub(crate) fn bytes(&self, found: FoundChunk) -> &[u8]
        requires { IsFoundAt self.now found }
        ensures { result.now ≡ unwrap_or (get_or self.now.chunks found.slot None) [] }
    {
        self.space.region.slice(found.run.from, found.run.size)
    }

    /// The bytes of a slot's chunk.
    pub(crate) fn chunk(&self, i: usize) -> Option<&[u8]>
        requires { i < length self.now.chunks }
        ensures { option_copied result ≡ get_or self.now.chunks i None }
    {
        let found = self.find(i)?;
        Some(self.bytes(found))
    }

    /// Sees that there are `n` slots. New ones have no chunk.
    pub(crate) fn grow(&mut self, n: usize)
        requires more { length self.old.chunks ≤ n }
        requires room { need_of n (space_in self.old.chunks) ≤ 65520 }
        ensures { self.new.chunks ≡ self.old.chunks ++ replicate (n - length self.old.chunks) None }
    {
        self.space.open_below(n);
        self.space.lengthen(n);
    }

    /// A chunk of `n` zeros for a slot with none, or with one that has no bytes.
    pub(crate) fn place(&mut self, i: usize, n: usize)
        requires slot { i < length self.old.chunks }
        requires none { length (unwrap_or (get_or self.old.chunks i None) []) ≡ 0 }
        requires room { need_in (set self.old.chunks i (Some (replicate n 0))) ≤ 65520 }
        ensures { self.new.chunks ≡ set self.old.chunks i (Some (replicate n 0)) }
    {
        self.space.place(i, n);
    }

    /// A chunk with these bytes for a slot with none.
    pub(crate) fn put(&mut self, i: usize, bytes: &[u8])
        requires slot { i < length self.old.chunks }
        requires none { get_or self.old.chunks i None ≡ None }
        requires room { need_in (set self.old.chunks i (Some bytes.now)) ≤ 65520 }
        ensures { self.new.chunks ≡ set self.old.chunks i (Some bytes.now) }
    {
        self.place(i, bytes.len());
        self.write(i, 0, bytes);
    }

    /// A slot's chunk becomes an empty one, or none. Every other chunk stays where it lies.
    pub(crate) fn vacate(&mut self, i: usize, e: usize)
        requires slot { i < length self.old.chunks }
        requires entry { e ≤ 1 }
        ensures chunks { self.new.chunks ≡ set self.old.chunks i (if e == 0 then None else Some []) }
        ensures offsets { self.new.offsets ≡ set self.old.offsets i None }
        ensures count { length self.old.offsets ≡ length self.old.chunks }
    {
        self.space.vacate(i, e);
    }

    /// Leaves off the last slots with no chunk.
    pub(crate) fn trim(&mut self)
        ensures less { length self.new.chunks ≤ length self.old.chunks }
        ensures chunks { self.new.chunks ≡ take (length self.new.chunks) self.old.chunks }
        ensures gaps { (j : ℕ) → length self.new.chunks ≤ j → get_or self.old.chunks j None ≡ None }
        ensures trimmed { IsTrimmed self.new.chunks }
        ensures offsets { (j : ℕ) → get_or self.new.offsets j None ≡ get_or self.old.offsets j None }
    {
        self.space.trim();
    }

    /// Packs the chunks at the end of the region, so that all free room is in one piece.
    pub(crate) fn pack(&mut self)
        ensures chunks { self.new.chunks ≡ self.old.chunks }
        ensures last { AreLast self.new.offsets (space_in self.new.chunks) }
    {
        self.space.compact();
    }

    /// Writes over the bytes of a slot's chunk from `at` on, where they lie.
    pub(crate) fn write(&mut self, i: usize, at: usize, bytes: &[u8])
        requires slot { i < length self.old.chunks }
        requires live { IsSome (get_or self.old.chunks i None) }
        requires range { at + length bytes.now ≤ length (unwrap_or (get_or self.old.chunks i None) []) }
        ensures chunks { self.new.chunks ≡
            set self.old.chunks i (Some (put (unwrap_or (get_or self.old.chunks i None) []) at bytes.now)) }
        ensures offsets { self.new.offsets ≡ self.old.offsets }
    {
        let found = self.find_live(i);
        self.write_found(found, at, bytes);
    }

    /// So of a chunk that was found.
    fn write_found(&mut self, found: FoundChunk, at: usize, bytes: &[u8])
        requires found { IsFoundAt self.old found }
        requires range { at + length bytes.now ≤ length (unwrap_or (get_or self.old.chunks found.slot None) []) }
        ensures chunks { let i = found.slot in self.new.chunks ≡
            set self.old.chunks i (Some (put (unwrap_or (get_or self.old.chunks i None) []) at bytes.now)) }
        ensures offsets { self.new.offsets ≡ self.old.offsets }
    {
        self.space.region.copy_in(found.run.from + at, bytes);
    }

    /// A slot's chunk becomes one of `n` bytes: those that it had, cut or with zeros behind them.
    pub(crate) fn resize(&mut self, i: usize, n: usize)
        requires slot { i < length self.old.chunks }
        requires room { need_in
            (set self.old.chunks i (Some (resized (unwrap_or (get_or self.old.chunks i None) []) n))) ≤ 65520 }
        ensures { self.new.chunks ≡
            set self.old.chunks i (Some (resized (unwrap_or (get_or self.old.chunks i None) []) n)) }
    {
        let size = self.space.find_run(i).size;
        if n == 0 {
            self.space.vacate(i, EMPTY);
        } else if size == 0 {
            self.space.place(i, n);
        } else {
            self.space.resize(i, n);
        }
    }

    /// Puts `new` in the place of the `k` bytes from `at` on of a chunk; what stands behind them slides.
    #[inline(always)]
    pub(crate) fn replace(&mut self, found: FoundChunk, at: usize, k: usize, new: &[u8])
        requires found { IsFoundAt self.old found }
        requires range { at + k ≤ length (unwrap_or (get_or self.old.chunks found.slot None) []) }
        requires room { need_in (set self.old.chunks found.slot
            (Some (splice (unwrap_or (get_or self.old.chunks found.slot None) []) at (at + k) new.now))) ≤ 65520 }
        ensures { let i = found.slot in self.new.chunks ≡ set self.old.chunks i
            (Some (splice (unwrap_or (get_or self.old.chunks i None) []) at (at + k) new.now)) }
    {
        if new.len() == k {
            self.write_found(found, at, new);
        } else {
            self.replace_resized(found, at, k, new);
        }
    }

    /// So where not as many bytes come as go.
    #[inline(never)]
    fn replace_resized(&mut self, found: FoundChunk, at: usize, k: usize, new: &[u8])
        // The chunk.
        requires found { IsFoundAt self.old found }
        // What comes in the place of what goes.
        requires range { at + k ≤ length (unwrap_or (get_or self.old.chunks found.slot None) []) }
        requires room { need_in (set self.old.chunks found.slot
            (Some (splice (unwrap_or (get_or self.old.chunks found.slot None) []) at (at + k) new.now))) ≤ 65520 }
        requires other { length new.now ≢ k }
        // What the chunk becomes.
        ensures { let i = found.slot in self.new.chunks ≡ set self.old.chunks i
            (Some (splice (unwrap_or (get_or self.old.chunks i None) []) at (at + k) new.now)) }
    {
        let FoundChunk { slot, run } = found;
        let end = run.size - k + new.len();
        if end > run.size {
            self.resize(slot, end);
            let longer = self.find_live(slot);
            self.overlay(longer, at, at + k, run.size, new);
        } else {
            self.overlay(found, at, at + k, run.size, new);
            self.resize(slot, end);
        }
    }

    /// Moves the bytes of a chunk between two places behind what comes at `at`, and writes that.
    fn overlay(&mut self, found: FoundChunk, at: usize, from: usize, to: usize, new: &[u8])
        // The chunk.
        requires found { IsFoundAt self.old found }
        // What moves, and where to.
        requires order { at ≤ from }
        requires forward { from ≤ to }
        requires within { to ≤ length (unwrap_or (get_or self.old.chunks found.slot None) []) }
        requires room { at + length new.now + (to - from)
            ≤ length (unwrap_or (get_or self.old.chunks found.slot None) []) }
        // What the chunk becomes.
        ensures { let i = found.slot in let b = unwrap_or (get_or self.old.chunks i None) [] in
            self.new.chunks ≡
            set self.old.chunks i (Some (put (put b (at + length new.now) (slice_range b from to)) at new.now)) }
    {
        self.slide(found, from, at + new.len(), to - from);
        self.write_found(found, at, new);
    }

    /// Moves `n` bytes of a chunk from one place in it to another, as if they were copied aside first.
    fn slide(&mut self, found: FoundChunk, from: usize, to: usize, n: usize)
        requires found { IsFoundAt self.old found }
        requires source { from + n ≤ length (unwrap_or (get_or self.old.chunks found.slot None) []) }
        requires target { to + n ≤ length (unwrap_or (get_or self.old.chunks found.slot None) []) }
        ensures chunks { let i = found.slot in let b = unwrap_or (get_or self.old.chunks i None) [] in
            self.new.chunks ≡ set self.old.chunks i (Some (put b to (slice_range b from (from + n)))) }
        ensures offsets { self.new.offsets ≡ self.old.offsets }
    {
        let run = found.run;
        self.space.region.slide(run.from + from, run.from + to, n);
    }

    /// The bytes of the chunk of a slot that has one, to be written.
    pub(crate) fn chunk_mut(&mut self, i: usize) -> &mut [u8]
        requires slot { i < length self.old.chunks }
        requires live { IsSome (get_or self.old.chunks i None) }
        ensures* writes_back { sem 𝓛 (lends_table_chunk self.entry i result) }
        ensures value { result.now ≡ unwrap_or (get_or self.old.chunks i None) [] }
    {
        let run = self.space.find_run(i);
        self.space.region.slice_mut(run.from, run.size)
    }
}
