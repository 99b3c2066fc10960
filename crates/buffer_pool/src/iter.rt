//! The iterator of a pool.
ghost use Rattle.std.specs.Prelude.{length};
ghost use Rattle.std.specs.Iterator.{at_most};
ghost use Rattle.std.specs.Map.Iter.{TakesFirst, TakesLast, deref_pair};

use crate::seated::Seated;
use slab::Slab;
use std::marker::Model;

/// An iterator over the keys of a pool and their values, from the one that was used last to the one that was used
/// least recently. Contracts see those that are left.
#[derive(Drop)]
pub struct Iter<'a, V> {
    pub(crate) seats: Seated<'a>,
    pub(crate) values: &'a Slab<V>,
}

impl<'a, V> Model for Iter<'a, V> {
    ghost use Rattle.std.specs.Prelude.{ℕ, List};
    ghost use Rattle.buffer_pool.specs.Seats.{seated, AreTaken};

    ghost Value = { List (ℕ × V) };

    ghost view = { λ i. seated i.values.now i.seats };

    ghost invariant = { λ i. AreTaken i.values.now i.seats };
}

impl<'a, V> Iterator for Iter<'a, V> {
    type Item = (&'a u16, &'a V);

    ghost next_gives = { TakesFirst deref_pair };

    ghost remaining = { λ s. at_most (length s) };

    fn next(&mut self) -> Option<(&'a u16, &'a V)> {
        let values = self.values;
        let (key, slot) = self.seats.next()?;
        Some((key, &values[*slot]))
    }
}

impl<'a, V> DoubleEndedIterator for Iter<'a, V> {
    ghost next_back_gives = { TakesLast deref_pair };

    fn next_back(&mut self) -> Option<(&'a u16, &'a V)> {
        let values = self.values;
        let (key, slot) = self.seats.next_back()?;
        Some((key, &values[*slot]))
    }
}
