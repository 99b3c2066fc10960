//! The iterator of an order.
ghost use Rattle.std.specs.Prelude.{length};
ghost use Rattle.std.specs.Iterator.{at_most};
ghost use Rattle.std.specs.Map.Iter.{TakesFirst, TakesLast, deref_pair};

use std::marker::Model;

/// An iterator over the keys of an order and their slots. Contracts see those that are left.
#[derive(Drop)]
pub(crate) struct Seated<'a> {
    pub(crate) seats: lru::Iter<'a, usize, (u16, usize)>,
}

impl<'a> Model for Seated<'a> {
    ghost use Rattle.std.specs.Prelude.{ℕ, List, map};

    ghost Value = { List (ℕ × ℕ) };

    ghost view = { λ s. map (λ e. e.1) s.seats };
}

impl<'a> Iterator for Seated<'a> {
    type Item = (&'a u16, &'a usize);

    ghost next_gives = { TakesFirst deref_pair };

    ghost remaining = { λ s. at_most (length s) };

    fn next(&mut self) -> Option<(&'a u16, &'a usize)> {
        let (_, (key, slot)) = self.seats.next()?;
        Some((key, slot))
    }
}

impl<'a> DoubleEndedIterator for Seated<'a> {
    ghost next_back_gives = { TakesLast deref_pair };

    fn next_back(&mut self) -> Option<(&'a u16, &'a usize)> {
        let (_, (key, slot)) = self.seats.next_back()?;
        Some((key, slot))
    }
}
