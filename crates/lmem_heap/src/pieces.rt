//! The allocator of pieces: a free one is made below the others, or found in the list, taken out and cut, or put back.
ghost use Rattle.std.specs.Prelude.{◌≡◌, ◌⊎◌, ◌+◌, ◌-◌, ◌*◌, ◌/◌, ◌≤◌, ◌<◌, ℕ, MatchOption, IfSome};
ghost use Rattle.lmem_heap.specs.Pieces.{word_in, entry, piece_space};
ghost use Rattle.lmem_heap.specs.Tiled.{chunks_in, table_end};
ghost use Rattle.lmem_heap.specs.Space.{IsWellFormed, IsDetached, HasNoFree, HasFree, IsLinked, IsUnmoved, HasSameChunks, room_of};

use crate::sizes::{piece_space, table_end};
use crate::space::{LivePiece, Space};
use crate::words::{SIZE, set_word, word_in};

impl Space {
    /// A free piece of this room is made below the others.
    pub(crate) fn extend(&mut self, room: usize) -> usize
        // The room.
        requires well_formed { IsWellFormed self.old }
        requires some { 0 < room }
        requires whole { room ≡ 4 * (room / 4) }
        requires fits { table_end self.old.slots + room ≤ self.old.low }
        // The piece.
        ensures detached { IsDetached self.new result room }
        ensures unmoved { IsUnmoved self.old self.new }
        ensures low { self.new.low ≡ self.old.low - room }
    {
        self.low -= room;
        set_word(&mut self.region, self.low, room + 1);
        self.low
    }

    /// The smallest of the first `LOOKS` free pieces of the list that have this room. None where none of them has it.
    fn find_fit(&self, room: usize) -> Option<Fit>
        requires { IsWellFormed self.now }
        ensures { MatchOption result
            (HasNoFree self.now room)
            (λ fit. IsLinked self.now fit.prev fit.place × (room < word_in self.now.region fit.place)) }
    {
        let mut best = None;
        let mut least = SIZE;
        let mut prev = 0;
        let mut place = self.head;
        for _seen in 0..LOOKS {
            if place == 0 {
                return best;
            }
            let head = word_in(&self.region, place);
            if head > room && head < least {
                best = Some(Fit { prev, place });
                least = head;
            }
            prev = place;
            place = word_in(&self.region, place + 2);
        }
        best
    }

    /// Where a free piece lies at `at`, in the list: the one before it, or 0. None where none of the first `LOOKS`
    /// pieces is it.
    pub(crate) fn find_link(&self, at: usize) -> Option<usize>
        requires { IsWellFormed self.now }
        ensures { IfSome result (λ prev. IsLinked self.now prev at) }
    {
        let mut prev = 0;
        let mut place = self.head;
        for _seen in 0..LOOKS {
            if place == 0 {
                return None;
            }
            if place == at {
                return Some(prev);
            }
            prev = place;
            place = word_in(&self.region, place + 2);
        }
        None
    }

    /// The free piece of the list that lies behind a slot's, if both together hold `n` bytes. None where it is as large
    /// as such a chunk's piece alone: then the chunk is moved in less time.
    pub(crate) fn find_next(&self, i: usize, n: usize) -> Option<Fit>
        requires well_formed { IsWellFormed self.now }
        requires slot { i < self.now.slots }
        requires live { 1 < entry self.now.region i }
        requires small { n < 131072 }
        ensures { IfSome result (λ fit. IsLinked self.now fit.prev fit.place ×
            (fit.place ≡ entry self.now.region i + room_of self.now i) ×
            (piece_space n < room_of self.now i + word_in self.now.region fit.place)) }
    {
        let LivePiece { place: p, size } = self.live_piece(i);
        let place = p + piece_space(size);
        let prev = self.find_link(place)?;
        let head = word_in(&self.region, place);
        let room = piece_space(n);
        if room < piece_space(size) + head && head <= room {
            Some(Fit { prev, place })
        } else {
            None
        }
    }

    /// Takes a free piece out of the list.
    pub(crate) fn unlink(&mut self, prev: usize, place: usize)
        requires { IsLinked self.old prev place }
        ensures detached { IsDetached self.new place (word_in self.old.region place - 1) }
        ensures unmoved { IsUnmoved self.old self.new }
        ensures low { self.new.low ≡ self.old.low }
    {
        let next = word_in(&self.region, place + 2);
        if prev == 0 {
            self.head = next;
        } else {
            set_word(&mut self.region, prev + 2, next);
        }
    }

    /// Cuts room off the end of a free piece.
    fn cut(&mut self, place: usize, space: usize, room: usize) -> usize
        // The piece, and the room.
        requires free { HasFree self.old place space }
        requires some { 0 < room }
        requires less { room < space }
        requires whole { room ≡ 4 * (room / 4) }
        // What is cut off.
        ensures detached { IsDetached self.new result room }
        ensures unmoved { IsUnmoved self.old self.new }
        ensures low { self.new.low ≡ self.old.low }
    {
        let rest = space - room;
        set_word(&mut self.region, place, rest + 1);
        set_word(&mut self.region, place + rest, room + 1);
        place + rest
    }

    /// Takes free room out of the list: a piece of it, or the end of a larger one. None where none of the first `LOOKS`
    /// pieces has the room.
    pub(crate) fn take(&mut self, room: usize) -> Option<usize>
        requires well_formed { IsWellFormed self.old }
        requires some { 0 < room }
        requires whole { room ≡ 4 * (room / 4) }
        ensures taken { MatchOption result
            ((self.new ≡ self.old) × HasNoFree self.old room)
            (λ p. IsDetached self.new p room × IsUnmoved self.old self.new × (self.new.low ≡ self.old.low)) }
    {
        match self.find_fit(room) {
            Some(Fit { prev, place }) => {
                let space = word_in(&self.region, place) - 1;
                if space == room {
                    self.unlink(prev, place);
                    Some(place)
                } else {
                    Some(self.cut(place, space, room))
                }
            }
            None => None,
        }
    }

    /// Puts a free piece at the head of the list.
    pub(crate) fn push(&mut self, p: usize)
        requires { (room : ℕ) × IsDetached self.old p room }
        ensures well_formed { IsWellFormed self.new }
        ensures unmoved { IsUnmoved self.old self.new }
        ensures low { self.new.low ≡ self.old.low }
    {
        set_word(&mut self.region, p + 2, self.head);
        self.head = p;
    }

    /// A free piece of this room, in no list: one below the others while the table leaves the room there, which takes
    /// no search, and then one of the list. None where neither is found.
    pub(crate) fn find_room(&mut self, room: usize) -> Option<usize>
        requires well_formed { IsWellFormed self.old }
        requires some { 0 < room }
        requires whole { room ≡ 4 * (room / 4) }
        ensures found { MatchOption result
            ((self.new ≡ self.old) × HasNoFree self.old room × (self.old.low < table_end self.old.slots + room))
            (λ p. IsDetached self.new p room × IsUnmoved self.old self.new) }
    {
        if self.low - table_end(self.slots) >= room {
            Some(self.extend(room))
        } else {
            self.take(room)
        }
    }

    /// A free piece of this room, in no list. Where none is found free pieces are joined first, or the chunks packed.
    pub(crate) fn room_for(&mut self, room: usize) -> usize
        // The room.
        requires well_formed { IsWellFormed self.old }
        requires some { 0 < room }
        requires whole { room ≡ 4 * (room / 4) }
        requires fits { table_end self.old.slots + self.old.total + room ≤ 65520 }
        // The piece.
        ensures detached { IsDetached self.new result room }
        // When chunks move.
        ensures spared { IsUnmoved self.old self.new
            ⊎ (HasNoFree self.old room × (self.old.low < table_end self.old.slots + room)) }
        ensures same { HasSameChunks self.old self.new }
    {
        match self.find_room(room) {
            Some(p) => p,
            None => match self.gather_for(room) {
                Some(p) => p,
                None => {
                    self.compact();
                    self.extend(room)
                }
            },
        }
    }
}

/// How many pieces of the free list a search looks at. A list whose first so many pieces lack the room is walked in
/// vain again and again. Packing ends it, and is paid for by the chunks that were freed, cut short or moved since the
/// last time: each of these put one piece on the list. Joining looks at as many.
pub(crate) const LOOKS: usize = 128;

/// A free piece of the list, and the one before it, or 0.
#[derive(Clone, Copy)]
pub(crate) struct Fit {
    pub(crate) prev: usize,
    pub(crate) place: usize,
}
