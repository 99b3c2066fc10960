//! A region with its table, its pieces and the list of the free ones, and what is read there of a slot's chunk.
ghost use Rattle.std.specs.Prelude.{◌≡◌, ◌+◌, ◌≤◌, ◌<◌, ℕ, Some, None, IfSome, is_some, slice_range, length, get_or};
ghost use Rattle.lmem_heap.specs.Pieces.{word_in, entry, piece_space};
ghost use Rattle.std.specs.Option.{option_map};
ghost use Rattle.lmem_heap.specs.Tiled.{chunks_in, offset_under};
ghost use Rattle.lmem_heap.specs.Space.{IsRunOf, IsWellFormed, IsWellFormedBut};

use crate::words::{EMPTY, NO_CHUNK, entry, word_in};
use raw_region::Region;

/// A region with its table, its pieces and the list of the free ones.
#[derive(Drop)]
pub(crate) struct Space {
    pub(crate) region: Region,
    /// How many slots the table has.
    pub(crate) slots: usize,
    /// Where the pieces begin.
    pub(crate) low: usize,
    /// The first free piece of the list, or 0.
    pub(crate) head: usize,
    /// What the chunks take.
    pub(crate) total: usize,
}

impl Space {
    /// No slots and no pieces, in a region that may have any bytes: none is read before it is written.
    pub(crate) fn of_region(region: Region) -> Space
        ensures well_formed { IsWellFormed result }
        ensures slots { result.slots ≡ 0 }
        ensures total { result.total ≡ 0 }
    {
        let low = region.len();
        Space {
            region,
            slots: 0,
            low,
            head: 0,
            total: 0,
        }
    }

    /// Whether a slot has a chunk.
    pub(crate) fn has_chunk(&self, i: usize) -> bool
        requires well_formed { IsWellFormed self.now }
        requires slot { i < self.now.slots }
        ensures { result ≡ is_some (get_or (chunks_in self.now.region self.now.slots) i None) }
    {
        entry(&self.region, i) != NO_CHUNK
    }

    /// The size of a slot's chunk.
    pub(crate) fn size(&self, i: usize) -> Option<usize>
        requires well_formed { IsWellFormed self.now }
        requires slot { i < length (chunks_in self.now.region self.now.slots) }
        ensures { result ≡ option_map length (get_or (chunks_in self.now.region self.now.slots) i None) }
    {
        let p = entry(&self.region, i);
        if p == NO_CHUNK {
            None
        } else if p == EMPTY {
            Some(0)
        } else {
            Some(word_in(&self.region, p))
        }
    }

    /// Where the bytes of a slot's chunk lie; None where it has none.
    pub(crate) fn offset(&self, i: usize) -> Option<usize>
        requires well_formed { IsWellFormed self.now }
        requires slot { i < length (chunks_in self.now.region self.now.slots) }
        ensures place { result ≡ offset_under (entry self.now.region i) }
        ensures stands { IfSome result (λ p. get_or (chunks_in self.now.region self.now.slots) i None ≡
            Some (slice_range self.now.region p (p + word_in self.now.region (entry self.now.region i)))) }
    {
        let p = entry(&self.region, i);
        if p > EMPTY { Some(p + 2) } else { None }
    }

    /// The piece of a slot whose chunk has bytes: where it lies, and how many bytes it holds.
    pub(crate) fn live_piece(&self, i: usize) -> LivePiece
        // A slot whose chunk has bytes.
        requires held { (detached : ℕ) × IsWellFormedBut self.now detached }
        requires slot { i < self.now.slots }
        requires live { 1 < entry self.now.region i }
        // Its piece.
        ensures place { result.place ≡ entry self.now.region i }
        ensures size { result.size ≡ word_in self.now.region result.place }
        ensures ends { result.place + piece_space result.size ≤ 65520 }
        ensures some { 1 < result.place }
    {
        let place = entry(&self.region, i);
        LivePiece {
            place,
            size: word_in(&self.region, place),
        }
    }

    /// Where the bytes of a slot's chunk lie, and how many there are; none where it has no piece.
    pub(crate) fn find_run(&self, i: usize) -> Run
        requires well_formed { IsWellFormed self.now }
        requires slot { i < self.now.slots }
        ensures { IsRunOf self.now.region i result.from result.size }
    {
        let p = entry(&self.region, i);
        if p > EMPTY {
            Run {
                from: p + 2,
                size: word_in(&self.region, p),
            }
        } else {
            Run { from: 0, size: 0 }
        }
    }
}

/// The piece of a chunk that has bytes.
#[derive(Clone, Copy)]
pub(crate) struct LivePiece {
    pub(crate) place: usize,
    /// How many bytes the chunk has.
    pub(crate) size: usize,
}

/// A run of bytes in a region.
#[derive(Clone, Copy, Debug)]
pub(crate) struct Run {
    pub(crate) from: usize,
    pub(crate) size: usize,
}
