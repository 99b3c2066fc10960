//! The order of use of the keys, and the slot of each.
ghost use Rattle.std.specs.Prelude.{◌≡◌, ◌<◌, ◌^◌, ◌≤◌, ℕ, [], ◌∷◌, None, IfOk, OnOk, OnErr, length, nat_eq, option_map, slice_get};
ghost use Rattle.std.specs.List.{AllByRecursion};
ghost use Rattle.std.specs.NonZero.{non_zero_usize_get};
ghost use Rattle.std.specs.Map.{lookup, remove_entry};
ghost use Rattle.std.specs.Map.Iter.{deref_pair};
ghost use Rattle.lru.specs.LruCache.{IsValid, lru_cache, demoted, promoted};
ghost use Rattle.buffer_pool.specs.Orders.{AreApart, IsVacant, keyed};

use crate::places::{Place, Places};
use crate::seated::Seated;
use lru::LruCache;
use std::alloc::{AllocError, Global};
use std::marker::Model;
use std::num::NonZeroUsize;

/// Keys in the order of their use, each with a slot. Contracts see an `LruCache` of them. A key that goes leaves its
/// seat in the order to the next one that comes, so that for this nothing is allocated, freed or hashed anew.
#[derive(Drop)]
pub(crate) struct Order {
    // The seats in the order of their use, those without a key last; each with the key and slot that it had last.
    seats: LruCache<usize, (u16, usize)>,
    // How many of the seats have a key.
    taken: usize,
    // Where each key is.
    places: Places,
}

impl Model for Order {
    ghost use Rattle.std.specs.Prelude.{ℕ};
    ghost use Rattle.std.specs.Coded.{coded_ℕ};
    ghost use Rattle.lru.specs.LruCache.{LruCache as Entries, lru_cache, lru_cache_code};
    ghost use Rattle.buffer_pool.specs.Orders.{keyed, IsOrdered};

    ghost Value = { Entries ℕ ℕ };

    ghost coded = { lru_cache_code coded_ℕ coded_ℕ };

    ghost view = { λ o. lru_cache (keyed o.taken o.seats.entries) o.seats.cap };

    ghost invariant = { λ o. IsOrdered o.seats.entries o.taken o.places };
}

/// A seat without a key: one that had one, or the next new one.
fn vacant_seat(seats: &LruCache<usize, (u16, usize)>, taken: usize) -> usize
    requires few { taken ≤ length seats.now.entries }
    requires apart { AreApart seats.now.entries }
    requires below { AllByRecursion (λ e. e.0 < length seats.now.entries) seats.now.entries }
    ensures vacant { IsVacant seats.now.entries taken result }
    ensures fits { taken < 2 ^ 63 }
{
    let count = seats.len();
    if taken == count {
        return count;
    }
    let (last, _) = seats.peek_lru().unwrap();
    *last
}

/// Makes a seat the first in the order. Where it is the first already this is seen without a hash.
// Inlined, since most seats are the first, for which it is a comparison.
#[inline(always)]
fn move_first(seats: &mut LruCache<usize, (u16, usize)>, seat: usize)
    ensures { seats.new ≡ lru_cache (promoted (nat_eq seat) seats.old.entries) seats.old.cap }
{
    match seats.peek_mru() {
        Some((first, _)) if *first == seat => {}
        _ => move_up(seats, seat),
    }
}

/// Makes a seat the first that isn't.
#[inline(never)]
fn move_up(seats: &mut LruCache<usize, (u16, usize)>, seat: usize)
    ensures { seats.new ≡ lru_cache (promoted (nat_eq seat) seats.old.entries) seats.old.cap }
{
    seats.promote(&seat);
}

/// Makes a seat the last in the order, in the same way.
#[inline(always)]
fn move_last(seats: &mut LruCache<usize, (u16, usize)>, seat: usize)
    requires { AreApart seats.old.entries }
    ensures { seats.new ≡ lru_cache (demoted (nat_eq seat) seats.old.entries) seats.old.cap }
{
    match seats.peek_lru() {
        Some((last, _)) if *last == seat => {}
        _ => {
            seats.demote(&seat);
        }
    }
}

impl Order {
    /// No key yet, and as many as this at most.
    pub(crate) fn new(alloc: Global, cap: NonZeroUsize) -> Result<Order, AllocError>
        ensures { IfOk result (λ order. order ≡ lru_cache [] (non_zero_usize_get cap)) }
    {
        Ok(Order {
            seats: LruCache::new(alloc, cap)?,
            taken: 0,
            places: Places::new(alloc),
        })
    }

    /// How many keys there are.
    pub(crate) fn len(&self) -> usize
        ensures len { result ≡ length self.now.entries }
        ensures fits { result < 2 ^ 63 }
        ensures valid { IsValid nat_eq self.now }
    {
        let _seats = self.seats.len();
        self.taken
    }

    /// How many there may be.
    pub(crate) fn cap(&self) -> NonZeroUsize
        ensures { non_zero_usize_get result ≡ self.now.cap }
    {
        self.seats.cap()
    }

    /// The slot of a key. The order of use stays.
    pub(crate) fn peek(&self, key: u16) -> Option<usize>
        ensures { result ≡ lookup (nat_eq key) self.now.entries }
    {
        match self.places.get(key) {
            Some(place) => Some(place.slot),
            None => None,
        }
    }

    /// The key that was used last, and its slot.
    pub(crate) fn peek_mru(&self) -> Option<(&u16, &usize)>
        ensures { option_map deref_pair result ≡ slice_get self.now.entries 0 }
    {
        if self.taken == 0 {
            return None;
        }
        let (_, (key, slot)) = self.seats.peek_mru()?;
        Some((key, slot))
    }

    /// Makes a key the one that was used last, and returns its slot.
    #[inline(always)]
    pub(crate) fn get(&mut self, key: u16) -> Option<usize>
        ensures value { result ≡ lookup (nat_eq key) self.old.entries }
        ensures entries { self.new ≡ lru_cache (promoted (nat_eq key) self.old.entries) self.old.cap }
    {
        let place = self.places.get(key)?;
        move_first(&mut self.seats, place.seat);
        Some(place.slot)
    }

    /// Puts in a key that isn't there, with its slot; it is the one that was used last from then on. Without memory for
    /// it nothing changes.
    pub(crate) fn insert(&mut self, key: u16, slot: usize) -> Result<(), AllocError>
        requires absent { lookup (nat_eq key) self.old.entries ≡ None }
        requires room { length self.old.entries < self.old.cap }
        ensures entries { OnOk result (self.new ≡ lru_cache ((key, slot) ∷ self.old.entries) self.old.cap) }
        ensures err { OnErr result (self.new ≡ self.old) }
    {
        self.places.make_room(key)?;
        let seat = vacant_seat(&self.seats, self.taken);
        self.seats.put(seat, (key, slot))?;
        self.taken += 1;
        self.places.set(key, Place { seat, slot });
        Ok(())
    }

    /// Takes a key out, and returns its slot.
    #[inline(always)]
    pub(crate) fn pop(&mut self, key: u16) -> Option<usize>
        ensures value { result ≡ lookup (nat_eq key) self.old.entries }
        ensures entries { self.new ≡ lru_cache (remove_entry (nat_eq key) self.old.entries) self.old.cap }
    {
        let place = self.places.get(key)?;
        self.places.remove(key);
        move_last(&mut self.seats, place.seat);
        self.taken -= 1;
        Some(place.slot)
    }

    /// Takes every key out.
    pub(crate) fn clear(&mut self)
        ensures { self.new ≡ lru_cache [] self.old.cap }
    {
        self.seats.clear();
        self.taken = 0;
        self.places.clear();
    }

    /// The keys with their slots, the one that was used last first.
    pub(crate) fn iter(&self) -> Seated<'_>
        ensures { result ≡ self.now.entries }
    {
        let mut seats = self.seats.iter();
        while seats.len() > self.taken {
            let _vacant = seats.next_back();
        }
        Seated { seats }
    }
}
