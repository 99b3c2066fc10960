//! Which slots are known to have arrays.
ghost use Rattle.std.specs.Prelude.{◌≡◌, [], ◌∷◌, take};
ghost use Rattle.lmem_heap.specs.Marks.{kind_in, without};

use crate::known::ArrayKind;
use arrayvec::ArrayVec;

/// How many slots are marked at most.
const MOST_MARKS: usize = 8;

/// A slot, and the kind of the array that it has.
#[derive(Clone, Copy, Debug)]
pub(crate) struct Mark {
    slot: usize,
    kind: ArrayKind,
}

impl Default for Mark {
    fn default() -> Mark {
        Mark {
            slot: 0,
            kind: ArrayKind::Chunk,
        }
    }
}

/// The marks of a few slots, the latest first. Each slot has one at most. They lie in the value itself.
#[derive(Drop)]
pub(crate) struct Marks {
    list: ArrayVec<Mark, MOST_MARKS>,
}

impl Marks {
    /// No marks.
    pub(crate) fn new() -> Marks
        ensures { result.list.items ≡ [] }
    {
        Marks {
            list: ArrayVec::new(),
        }
    }

    /// The kind of the array in a slot, where the slot is marked.
    pub(crate) fn kind_of(&self, slot: usize) -> Option<ArrayKind>
        ensures { result ≡ kind_in self.now.list.items slot }
    {
        for mark in self.list.as_slice() {
            if mark.slot == slot {
                return Some(mark.kind);
            }
        }
        None
    }

    /// Forgets the mark of a slot.
    pub(crate) fn forget(&mut self, slot: usize)
        ensures { self.new.list.items ≡ without slot self.old.list.items }
    {
        // Mostly there is none, and nothing is moved.
        if self.kind_of(slot).is_some() {
            self.list.retain(|mark| mark.slot != slot);
        }
    }

    /// Marks a slot. Where there are too many marks the oldest is forgotten.
    pub(crate) fn set(&mut self, slot: usize, kind: ArrayKind)
        ensures { self.new.list.items ≡
            record { slot = slot; kind = kind } ∷ take 7 (without slot self.old.list.items) }
    {
        self.forget(slot);
        self.list.truncate(MOST_MARKS - 1);
        self.list.insert(0, Mark { slot, kind });
    }
}
