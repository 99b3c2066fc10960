//! A slot's chunk is cut or gets zeros: in its piece, in a part of it, with the free room behind it, or elsewhere.
ghost use Rattle.std.specs.Prelude.{◌≡◌, ◌+◌, ◌-◌, ◌*◌, ◌/◌, ◌≤◌, ◌<◌, ℕ};
ghost use Rattle.lmem_heap.specs.Pieces.{word_in, entry, piece_space};
ghost use Rattle.lmem_heap.specs.Tiled.{chunks_in, table_end};
ghost use Rattle.lmem_heap.specs.Space.{IsWellFormed, IsDetached, HasNext, HasBehind, HasSameChunks, IsLinked, IsUnmoved, IsReadyToTake, IsResized, room_of};

use crate::compaction::{lower_entries, raise_entries};
use crate::pieces::Fit;
use crate::sizes::{piece_space, table_end};
use crate::space::{LivePiece, Space};
use crate::words::{
    NO_CHUNK, SIZE, copy_piece, entry, set_entry, set_size, set_word, slide, word_in,
};

impl Space {
    /// A slot's chunk gets `n` bytes where it lies, in a piece that is no larger and no smaller.
    pub(crate) fn refit(&mut self, i: usize, n: usize)
        // A slot whose chunk has bytes.
        requires well_formed { IsWellFormed self.old }
        requires slot { i < self.old.slots }
        requires live { 1 < entry self.old.region i }
        // The new size.
        requires some { 0 < n }
        requires same { piece_space n ≡ room_of self.old i }
        // What it leaves.
        ensures well_formed { IsWellFormed self.new }
        ensures resized { IsResized self.old self.new i n }
    {
        let LivePiece { place: p, size } = self.live_piece(i);
        set_size(&mut self.region, p, size, n);
    }

    /// A slot's chunk gets `n` bytes where it lies, in a smaller piece. What is left of the old one becomes a free
    /// piece, in no list.
    fn shorten(&mut self, i: usize, n: usize) -> usize
        // A slot whose chunk has bytes.
        requires well_formed { IsWellFormed self.old }
        requires slot { i < self.old.slots }
        requires live { 1 < entry self.old.region i }
        // The new size.
        requires some { 0 < n }
        requires less { piece_space n < room_of self.old i }
        // What it leaves.
        ensures detached { IsDetached self.new result (room_of self.old i - piece_space n) }
        ensures resized { IsResized self.old self.new i n }
    {
        let LivePiece { place: p, size } = self.live_piece(i);
        let room = piece_space(n);
        let rest = piece_space(size) - room;
        set_size(&mut self.region, p, size, n);
        set_word(&mut self.region, p + room, rest + 1);
        self.total -= rest;
        p + room
    }

    /// A slot's chunk gets `n` bytes where it lies, in a piece that is no larger. What is left of the old one is free.
    fn cut_down(&mut self, i: usize, n: usize)
        // A slot whose chunk has bytes.
        requires well_formed { IsWellFormed self.old }
        requires slot { i < self.old.slots }
        requires live { 1 < entry self.old.region i }
        // The new size.
        requires some { 0 < n }
        requires less { piece_space n ≤ room_of self.old i }
        // What it leaves.
        ensures well_formed { IsWellFormed self.new }
        ensures resized { IsResized self.old self.new i n }
    {
        if piece_space(n) == piece_space(self.find_run(i).size) {
            self.refit(i, n);
        } else {
            let p = self.shorten(i, n);
            self.push(p);
        }
    }

    /// A slot's chunk gets `n` bytes where it lies, with the free piece behind its own.
    fn absorb(&mut self, i: usize, n: usize)
        requires slot { i < self.old.slots }
        requires more { room_of self.old i < piece_space n }
        requires next { HasNext self.old i (piece_space n - room_of self.old i) }
        ensures well_formed { IsWellFormed self.new }
        ensures resized { IsResized self.old self.new i n }
    {
        let p = entry(&self.region, i);
        let size = word_in(&self.region, p);
        set_size(&mut self.region, p, size, n);
        self.total += piece_space(n) - piece_space(size);
    }

    /// The bytes of a slot's chunk are copied into a free piece that the list lacks, with zeros behind them up to `n`.
    fn prepare(&mut self, i: usize, q: usize, n: usize)
        // The free piece.
        requires detached { IsDetached self.old q (piece_space n) }
        // A slot whose chunk has bytes.
        requires slot { i < self.old.slots }
        requires live { 1 < entry self.old.region i }
        requires more { word_in self.old.region (entry self.old.region i) ≤ n }
        // What it leaves.
        ensures detached { IsDetached self.new q (piece_space n) }
        ensures unmoved { IsUnmoved self.old self.new }
        ensures ready { IsReadyToTake self.new i q n }
    {
        let LivePiece { place: p, size } = self.live_piece(i);
        copy_piece(&mut self.region, p, q, size, n);
    }

    /// A free piece that the list lacks becomes that of a slot's chunk, with the `n` bytes that stand there. The one
    /// that it had becomes free, in no list.
    fn exchange(&mut self, i: usize, q: usize, n: usize) -> usize
        // The free piece.
        requires detached { IsDetached self.old q (piece_space n) }
        // A slot whose chunk has bytes.
        requires slot { i < self.old.slots }
        requires live { 1 < entry self.old.region i }
        // The new size.
        requires some { 0 < n }
        requires ready { IsReadyToTake self.old i q n }
        // What it leaves.
        ensures detached { IsDetached self.new result (room_of self.old i) }
        ensures resized { IsResized self.old self.new i n }
    {
        let LivePiece { place: p, size } = self.live_piece(i);
        let room = piece_space(size);
        set_word(&mut self.region, p, room + 1);
        set_entry(&mut self.region, i, NO_CHUNK);
        set_word(&mut self.region, q, n);
        set_entry(&mut self.region, i, q);
        self.total = self.total - room + piece_space(n);
        p
    }

    /// A slot's chunk gets `n` bytes, no fewer than it has, in a free piece that the list lacks.
    fn move_to(&mut self, i: usize, q: usize, n: usize)
        // The free piece.
        requires detached { IsDetached self.old q (piece_space n) }
        // A slot whose chunk has bytes.
        requires slot { i < self.old.slots }
        requires live { 1 < entry self.old.region i }
        // The new size.
        requires some { 0 < n }
        requires more { word_in self.old.region (entry self.old.region i) ≤ n }
        // What it leaves.
        ensures well_formed { IsWellFormed self.new }
        ensures resized { IsResized self.old self.new i n }
    {
        self.prepare(i, q, n);
        let p = self.exchange(i, q, n);
        self.push(p);
    }

    /// A slot's chunk gets `n` bytes where it lies, with a free piece of the list that lies behind its own. What it
    /// doesn't need of that is free again.
    fn join(&mut self, i: usize, n: usize, prev: usize, place: usize)
        // A slot whose chunk has bytes.
        requires well_formed { IsWellFormed self.old }
        requires slot { i < self.old.slots }
        requires live { 1 < entry self.old.region i }
        // The free piece.
        requires linked { IsLinked self.old prev place }
        requires behind { place ≡ entry self.old.region i + room_of self.old i }
        // The new size.
        requires more { room_of self.old i < piece_space n }
        requires less { piece_space n < room_of self.old i + word_in self.old.region place }
        // What it leaves.
        ensures well_formed { IsWellFormed self.new }
        ensures resized { IsResized self.old self.new i n }
    {
        let size = self.find_run(i).size;
        let room = piece_space(size) + word_in(&self.region, place) - 1;
        self.unlink(prev, place);
        self.absorb(i, room - 2);
        self.cut_down(i, n);
    }

    /// A slot's chunk gets `n` bytes, for which its piece is too small. It grows into the piece behind its own where
    /// that serves, or moves where a piece is found or made by joining free ones; else the chunks are packed.
    fn enlarge(&mut self, i: usize, n: usize)
        // A slot whose chunk has bytes.
        requires well_formed { IsWellFormed self.old }
        requires slot { i < self.old.slots }
        requires live { 1 < entry self.old.region i }
        // The new size.
        requires more { room_of self.old i < piece_space n }
        requires fits { table_end self.old.slots + self.old.total + piece_space n ≤ 65520 + room_of self.old i }
        // What it leaves.
        ensures well_formed { IsWellFormed self.new }
        ensures resized { IsResized self.old self.new i n }
    {
        match self.find_next(i, n) {
            Some(Fit { prev, place }) => self.join(i, n, prev, place),
            None => self.enlarge_elsewhere(i, n),
        }
    }

    /// The same where no free piece behind the chunk's own serves.
    fn enlarge_elsewhere(&mut self, i: usize, n: usize)
        // A slot whose chunk has bytes.
        requires well_formed { IsWellFormed self.old }
        requires slot { i < self.old.slots }
        requires live { 1 < entry self.old.region i }
        // The new size.
        requires more { room_of self.old i < piece_space n }
        requires fits { table_end self.old.slots + self.old.total + piece_space n ≤ 65520 + room_of self.old i }
        // What it leaves.
        ensures well_formed { IsWellFormed self.new }
        ensures resized { IsResized self.old self.new i n }
    {
        let room = piece_space(n);
        match self.find_room(room) {
            Some(q) => self.move_to(i, q, n),
            None => self.enlarge_packed(i, n, room),
        }
    }

    /// The same when free pieces are joined first, or the chunks packed: it moves where that makes such a piece, else
    /// it gets what it lacks where it lies.
    fn enlarge_packed(&mut self, i: usize, n: usize, room: usize)
        // A slot whose chunk has bytes.
        requires well_formed { IsWellFormed self.old }
        requires slot { i < self.old.slots }
        requires live { 1 < entry self.old.region i }
        // The new size.
        requires more { room_of self.old i < piece_space n }
        requires fits { table_end self.old.slots + self.old.total + piece_space n ≤ 65520 + room_of self.old i }
        requires room { room ≡ piece_space n }
        // What it leaves.
        ensures well_formed { IsWellFormed self.new }
        ensures resized { IsResized self.old self.new i n }
    {
        match self.gather_for(room) {
            Some(q) => self.move_to(i, q, n),
            None => self.enlarge_there(i, n, room),
        }
    }

    /// The same where no free piece can be as large as the new one: the free pieces become one behind its own, or all
    /// that is free goes below the chunks.
    fn enlarge_there(&mut self, i: usize, n: usize, room: usize)
        // A slot whose chunk has bytes.
        requires well_formed { IsWellFormed self.old }
        requires slot { i < self.old.slots }
        requires live { 1 < entry self.old.region i }
        // The new size.
        requires more { room_of self.old i < piece_space n }
        requires fits { table_end self.old.slots + self.old.total + piece_space n ≤ 65520 + room_of self.old i }
        requires room { room ≡ piece_space n }
        // What it leaves.
        ensures well_formed { IsWellFormed self.new }
        ensures resized { IsResized self.old self.new i n }
    {
        let lack = room - piece_space(self.find_run(i).size);
        if SIZE - self.low - self.total >= lack {
            let h = self.gather_apart();
            self.grow_into(i, n, h);
        } else {
            self.compact();
            self.enlarge_below(i, n, room);
        }
    }

    /// A slot's chunk gets `n` bytes where it lies, with a free piece that the list lacks, before which lie only
    /// chunks.
    fn grow_into(&mut self, i: usize, n: usize, h: usize)
        // A slot whose chunk has bytes.
        requires slot { i < self.old.slots }
        requires live { 1 < entry self.old.region i }
        // The free piece.
        requires behind { (room : ℕ) × HasBehind self.old i h room }
        // The new size.
        requires more { room_of self.old i < piece_space n }
        requires less { piece_space n < room_of self.old i + word_in self.old.region h }
        // What it leaves.
        ensures well_formed { IsWellFormed self.new }
        ensures resized { IsResized self.old self.new i n }
    {
        let LivePiece { place: _, size } = self.live_piece(i);
        let room = piece_space(size) + word_in(&self.region, h) - 1;
        self.sink(i, h);
        self.absorb(i, room - 2);
        self.cut_down(i, n);
    }

    /// A free piece that the list lacks goes down to the end of a slot's piece; the chunks between them go up.
    fn sink(&mut self, i: usize, h: usize)
        requires slot { i < self.old.slots }
        requires live { 1 < entry self.old.region i }
        requires behind { (room : ℕ) × HasBehind self.old i h room }
        ensures next { HasNext self.new i (word_in self.old.region h - 1) }
        ensures same { HasSameChunks self.old self.new }
    {
        let LivePiece { place, size } = self.live_piece(i);
        let from = place + piece_space(size);
        let room = word_in(&self.region, h) - 1;
        slide(&mut self.region, from, from + room, h - from);
        set_word(&mut self.region, from, room + 1);
        raise_entries(&mut self.region, self.slots, from, h, room);
    }

    /// The same where all that is free lies below the chunks: it moves there, else it gets what it lacks where it lies.
    fn enlarge_below(&mut self, i: usize, n: usize, room: usize)
        // A slot whose chunk has bytes.
        requires well_formed { IsWellFormed self.old }
        requires slot { i < self.old.slots }
        requires live { 1 < entry self.old.region i }
        // The new size.
        requires more { room_of self.old i < piece_space n }
        requires fits { table_end self.old.slots + self.old.total + piece_space n ≤ 65520 + room_of self.old i }
        requires room { room ≡ piece_space n }
        // No piece is free.
        requires packed { self.old.head ≡ 0 }
        requires low { self.old.low ≡ 65520 - self.old.total }
        // What it leaves.
        ensures well_formed { IsWellFormed self.new }
        ensures resized { IsResized self.old self.new i n }
    {
        if self.low - table_end(self.slots) >= room {
            let q = self.extend(room);
            self.move_to(i, q, n);
        } else {
            let size = self.find_run(i).size;
            self.open_gap(i, room - piece_space(size));
            self.absorb(i, n);
        }
    }

    /// The pieces up to a slot's go down, and a free piece of this room, in no list, opens behind it. No other is free.
    pub(crate) fn open_gap(&mut self, i: usize, room: usize)
        // A slot whose chunk has bytes, where no piece is free.
        requires well_formed { IsWellFormed self.old }
        requires packed { self.old.head ≡ 0 }
        requires slot { i < self.old.slots }
        requires live { 1 < entry self.old.region i }
        // The room.
        requires some { 0 < room }
        requires whole { room ≡ 4 * (room / 4) }
        requires fits { table_end self.old.slots + room ≤ self.old.low }
        // The gap.
        ensures next { HasNext self.new i room }
        // The chunks are the same.
        ensures slots { self.new.slots ≡ self.old.slots }
        ensures total { self.new.total ≡ self.old.total }
        ensures chunks { chunks_in self.new.region self.new.slots ≡ chunks_in self.old.region self.old.slots }
        ensures low { self.new.low ≡ self.old.low - room }
    {
        let LivePiece { place: p, size: n } = self.live_piece(i);
        let end = p + piece_space(n);
        let low = self.low - room;
        slide(&mut self.region, self.low, low, end - self.low);
        set_word(&mut self.region, end - room, room + 1);
        lower_entries(&mut self.region, self.slots, end, room);
        self.low = low;
    }

    /// A slot's chunk with bytes is cut to `n` bytes, or gets zeros at its end.
    pub(crate) fn resize(&mut self, i: usize, n: usize)
        // A slot whose chunk has bytes.
        requires well_formed { IsWellFormed self.old }
        requires slot { i < self.old.slots }
        requires live { 1 < entry self.old.region i }
        // The new size.
        requires some { 0 < n }
        requires fits { table_end self.old.slots + self.old.total + piece_space n ≤ 65520 + room_of self.old i }
        // What it leaves.
        ensures well_formed { IsWellFormed self.new }
        ensures resized { IsResized self.old self.new i n }
    {
        if piece_space(n) <= piece_space(self.find_run(i).size) {
            self.cut_down(i, n);
        } else {
            self.enlarge(i, n);
        }
    }
}
