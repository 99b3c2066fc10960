//! The table's entries: slots are opened and left off, and one gets a chunk, or loses it.
ghost use Rattle.std.specs.Prelude.{◌≡◌, ◌⊎◌, ◌+◌, ◌-◌, ◌≤◌, ◌<◌, ℕ, [], Some, None, replicate, take, set, ◌++◌, ◌==◌, if◌then◌else◌};
ghost use Rattle.lmem_heap.specs.Pieces.{word_in, entry, piece_space};
ghost use Rattle.geos_model.specs.Heap.{space_of};
ghost use Rattle.geos_model.proofs.Table.{slot_space};
ghost use Rattle.lmem_heap.specs.Tiled.{chunk_under, chunks_in, table_end};
ghost use Rattle.lmem_heap.specs.Space.{IsWellFormed, IsDetached, IsChanged, HasSameChunks, room_of};

use crate::sizes::{piece_space, table_end};
use crate::space::{LivePiece, Space};
use crate::words::{EMPTY, entry, entry_at, set_entry, set_word, zero};

impl Space {
    /// Makes room for a table of `t` slots below the pieces, by packing the chunks where there is less.
    pub(crate) fn open_below(&mut self, t: usize)
        requires well_formed { IsWellFormed self.old }
        requires fits { table_end t + self.old.total ≤ 65520 }
        ensures well_formed { IsWellFormed self.new }
        ensures room { table_end t ≤ self.new.low }
        ensures spared { (self.new ≡ self.old) ⊎ (self.old.low < table_end t) }
        ensures same { HasSameChunks self.old self.new }
    {
        if table_end(t) > self.low {
            self.compact();
        }
    }

    /// Opens slots up to `t`, each with no chunk.
    pub(crate) fn lengthen(&mut self, t: usize)
        // The longer table.
        requires well_formed { IsWellFormed self.old }
        requires more { self.old.slots ≤ t }
        requires room { table_end t ≤ self.old.low }
        // The chunks are the same, and new slots have none.
        ensures well_formed { IsWellFormed self.new }
        ensures slots { self.new.slots ≡ t }
        ensures chunks { chunks_in self.new.region t ≡
            chunks_in self.old.region self.old.slots ++ replicate (t - self.old.slots) None }
        ensures entries { (j : ℕ) → j < self.old.slots → entry self.new.region j ≡ entry self.old.region j }
        ensures new { (j : ℕ) → self.old.slots ≤ j → j < t → entry self.new.region j ≡ 0 }
        // No piece moves.
        ensures low { self.new.low ≡ self.old.low }
        ensures total { self.new.total ≡ self.old.total }
    {
        let end = entry_at(self.slots);
        zero(&mut self.region, end, 2 * (t - self.slots));
        self.slots = t;
    }

    /// Leaves off the last slots with no chunk.
    pub(crate) fn trim(&mut self)
        requires { IsWellFormed self.old }
        // Which slots are left off.
        ensures well_formed { IsWellFormed self.new }
        ensures less { self.new.slots ≤ self.old.slots }
        ensures region { self.new.region ≡ self.old.region }
        ensures none { (j : ℕ) → self.new.slots ≤ j → j < self.old.slots → entry self.old.region j ≡ 0 }
        ensures last { 0 < self.new.slots → 0 < entry self.old.region (self.new.slots - 1) }
        // What stays.
        ensures chunks { chunks_in self.new.region self.new.slots ≡
            take self.new.slots (chunks_in self.old.region self.old.slots) }
        ensures low { self.new.low ≡ self.old.low }
        ensures total { self.new.total ≡ self.old.total }
    {
        let mut t = self.slots;
        while t > 0 {
            if entry(&self.region, t - 1) > 0 {
                break;
            }
            t -= 1;
        }
        self.slots = t;
    }

    /// A chunk of `n` zeros for a slot with no bytes, in a free piece that the list lacks.
    fn fill(&mut self, p: usize, i: usize, n: usize)
        // The piece.
        requires detached { IsDetached self.old p (piece_space n) }
        // The slot, and the size.
        requires slot { i < self.old.slots }
        requires none { entry self.old.region i ≤ 1 }
        requires some { 0 < n }
        // The slot has the chunk.
        ensures well_formed { IsWellFormed self.new }
        ensures changed { IsChanged self.old self.new i (Some (replicate n 0)) }
        ensures place { entry self.new.region i ≡ p }
        // What the chunks take, from where on.
        ensures total { self.new.total ≡ self.old.total + piece_space n }
        ensures low { self.new.low ≡ self.old.low }
    {
        zero(&mut self.region, p + 2, n);
        set_word(&mut self.region, p, n);
        set_entry(&mut self.region, i, p);
        self.total += piece_space(n);
    }

    /// The piece of a slot's chunk becomes free, in no list; the entry becomes `e`, for no chunk or an empty one.
    fn release(&mut self, i: usize, e: usize) -> usize
        // The slot, and its new entry.
        requires well_formed { IsWellFormed self.old }
        requires slot { i < self.old.slots }
        requires live { 1 < entry self.old.region i }
        requires dead { e ≤ 1 }
        // The piece.
        ensures detached { (room : ℕ) × IsDetached self.new result room }
        // The slot has no bytes.
        ensures changed { IsChanged self.old self.new i (if e == 0 then None else Some []) }
        ensures entry { entry self.new.region i ≡ e }
        // What the chunks take, from where on.
        ensures total { self.new.total + room_of self.old i ≡ self.old.total }
        ensures low { self.new.low ≡ self.old.low }
    {
        let LivePiece { place: p, size: n } = self.live_piece(i);
        let room = piece_space(n);
        set_word(&mut self.region, p, room + 1);
        set_entry(&mut self.region, i, e);
        self.total -= room;
        p
    }

    /// The entry of a slot with no bytes becomes `e`, for no chunk or an empty one.
    fn set_dead(&mut self, i: usize, e: usize)
        // The slot, and its new entry.
        requires well_formed { IsWellFormed self.old }
        requires slot { i < self.old.slots }
        requires none { entry self.old.region i ≤ 1 }
        requires dead { e ≤ 1 }
        // The slot has no bytes.
        ensures well_formed { IsWellFormed self.new }
        ensures changed { IsChanged self.old self.new i (if e == 0 then None else Some []) }
        ensures entry { entry self.new.region i ≡ e }
        // What the chunks take, from where on.
        ensures total { self.new.total ≡ self.old.total }
        ensures low { self.new.low ≡ self.old.low }
    {
        set_entry(&mut self.region, i, e);
    }

    /// A chunk of `n` zeros for a slot with none or an empty one.
    pub(crate) fn place(&mut self, i: usize, n: usize)
        // The slot, and the room.
        requires well_formed { IsWellFormed self.old }
        requires slot { i < self.old.slots }
        requires none { entry self.old.region i ≤ 1 }
        requires fits { table_end self.old.slots + self.old.total + space_of n ≤ 65520 }
        // The slot has the chunk.
        ensures well_formed { IsWellFormed self.new }
        ensures slots { self.new.slots ≡ self.old.slots }
        ensures total { self.new.total ≡ self.old.total + space_of n }
        ensures chunks { chunks_in self.new.region self.new.slots ≡
            set (chunks_in self.old.region self.old.slots) i (Some (replicate n 0)) }
    {
        if n == 0 {
            self.set_dead(i, EMPTY);
        } else {
            let p = self.room_for(piece_space(n));
            self.fill(p, i, n);
        }
    }

    /// A slot's chunk is freed: the slot has none, or an empty one. Every other chunk stays where it lies.
    pub(crate) fn vacate(&mut self, i: usize, e: usize)
        // The slot, and its new entry.
        requires well_formed { IsWellFormed self.old }
        requires slot { i < self.old.slots }
        requires dead { e ≤ 1 }
        // The slot has no bytes.
        ensures well_formed { IsWellFormed self.new }
        ensures changed { IsChanged self.old self.new i (if e == 0 then None else Some []) }
        ensures entry { entry self.new.region i ≡ e }
        // What the chunks take, from where on.
        ensures total { self.new.total + slot_space (chunk_under self.old.region (entry self.old.region i)) ≡
            self.old.total }
        ensures low { self.new.low ≡ self.old.low }
    {
        if entry(&self.region, i) > EMPTY {
            let p = self.release(i, e);
            self.push(p);
        } else {
            self.set_dead(i, e);
        }
    }
}
