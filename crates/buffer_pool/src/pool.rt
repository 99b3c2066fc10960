//! The pool, and the calls of it.
ghost use Rattle.std.specs.Prelude.{◌≡◌, ◌<◌, ◌^◌, [], ◌∷◌, None, Some, IfOk, IfSome, OnOk, OnErr, is_some, length, nat_eq, option_copied, option_map, slice_get};
ghost use Rattle.std.specs.Option.{option_copied_mut};
ghost use Rattle.std.specs.NonZero.{non_zero_usize_get};
ghost use Rattle.std.specs.Borrow.{sem};
ghost use Rattle.std.specs.Map.{lookup, remove_entry};
ghost use Rattle.std.specs.Map.Iter.{deref_pair};
ghost use Rattle.lru.specs.LruCache.{IsValid, lru_cache, promoted};

use crate::iter::Iter;
use crate::order::Order;
use slab::Slab;
use std::alloc::{AllocError, Global};
use std::marker::Model;
use std::num::NonZeroUsize;

/// Values under keys, as many as there are slots at most, and the order of their use. Contracts see it as they see an
/// `LruCache`: its entries, of which the first was used last, and how many there may be.
#[derive(Drop)]
pub struct BufferPool<V> {
    // The keys in the order of their use, each with the slot of its value.
    order: Order,
    values: Slab<V>,
}

impl<V> Model for BufferPool<V> {
    ghost use Rattle.std.specs.Prelude.{ℕ};
    ghost use Rattle.std.specs.Coded.{coded_ℕ};
    ghost use Rattle.lru.specs.LruCache.{LruCache as Entries, lru_cache, lru_cache_code};
    ghost use Rattle.buffer_pool.specs.Seats.{seated, AreSeats};

    ghost Value = { Entries ℕ V };

    ghost coded = { lru_cache_code coded_ℕ V.code };

    ghost view = { λ p. lru_cache (seated p.values p.order.entries) p.order.cap };

    ghost invariant = { λ p. AreSeats p.order p.values };
}

impl<V> BufferPool<V> {
    ghost use Rattle.buffer_pool.specs.Lends.{lends_value};

    /// An empty pool with so many slots. All memory for the slots is taken here.
    pub fn new(alloc: Global, cap: NonZeroUsize) -> Result<Self, AllocError>
        ensures { IfOk result (λ pool. pool ≡ lru_cache [] (non_zero_usize_get cap)) }
    {
        let order = Order::new(alloc, cap)?;
        let values = Slab::with_capacity(alloc, cap.get())?;
        Ok(BufferPool { order, values })
    }

    /// How many keys have a value.
    pub fn len(&self) -> usize
        ensures len { result ≡ length self.now.entries }
        ensures fits { result < 2 ^ 63 }
        ensures valid { IsValid nat_eq self.now }
    {
        self.order.len()
    }

    /// How many values there may be.
    pub fn cap(&self) -> NonZeroUsize
        ensures { non_zero_usize_get result ≡ self.now.cap }
    {
        self.order.cap()
    }

    /// Whether a key has a value.
    pub fn contains(&self, key: u16) -> bool
        ensures { result ≡ is_some (lookup (nat_eq key) self.now.entries) }
    {
        self.order.peek(key).is_some()
    }

    /// The value of a key. The order of use stays.
    pub fn peek(&self, key: u16) -> Option<&V>
        ensures { option_copied result ≡ lookup (nat_eq key) self.now.entries }
    {
        self.values.get(self.order.peek(key)?)
    }

    /// The value of a key to write to. The order of use stays.
    pub fn peek_mut(&mut self, key: u16) -> Option<&mut V>
        ensures* writes_back { sem 𝓛 (lends_value V.row self.entry (nat_eq key) self.old.entries result) }
        ensures value { option_copied_mut result ≡ lookup (nat_eq key) self.old.entries }
    {
        let slot = self.order.peek(key)?;
        Some(&mut self.values[slot])
    }

    /// The value of a key to write to, which is the key that was used last from then on.
    #[inline(always)]
    pub fn get_mut(&mut self, key: u16) -> Option<&mut V>
        ensures* writes_back { sem 𝓛 (lends_value V.row self.entry (nat_eq key)
            (promoted (nat_eq key) self.old.entries) result) }
        ensures value { option_copied_mut result ≡ lookup (nat_eq key) self.old.entries }
    {
        let slot = self.order.get(key)?;
        Some(&mut self.values[slot])
    }

    /// The key that was used last, and its value.
    pub fn peek_mru(&self) -> Option<(&u16, &V)>
        ensures { option_map deref_pair result ≡ slice_get self.now.entries 0 }
    {
        let (key, slot) = self.order.peek_mru()?;
        Some((key, &self.values[*slot]))
    }

    /// Makes a key the one that was used last, and says whether it has a value.
    #[inline(always)]
    pub fn promote(&mut self, key: u16) -> bool
        ensures value { result ≡ is_some (lookup (nat_eq key) self.old.entries) }
        ensures entries { self.new ≡ lru_cache (promoted (nat_eq key) self.old.entries) self.old.cap }
    {
        self.order.get(key).is_some()
    }

    /// Puts in the value of a key that has none, which is the one that was used last from then on. Without memory for
    /// it nothing changes, and the value is dropped.
    pub fn insert(&mut self, key: u16, value: V) -> Result<(), AllocError>
    where
        V: Drop,
        requires absent { lookup (nat_eq key) self.old.entries ≡ None }
        requires room { length self.old.entries < self.old.cap }
        ensures entries { OnOk result (self.new ≡ lru_cache ((key, value) ∷ self.old.entries) self.old.cap) }
        ensures err { OnErr result (self.new ≡ self.old) }
    {
        self.order.insert(key, self.values.vacant_key())?;
        self.values.insert_reserved(value);
        Ok(())
    }

    /// Takes a key out, and returns its value.
    // Inlined, so that only what a caller uses of the value is copied.
    #[inline(always)]
    pub fn pop(&mut self, key: u16) -> Option<V>
        ensures value { result ≡ lookup (nat_eq key) self.old.entries }
        ensures entries { self.new ≡ lru_cache (remove_entry (nat_eq key) self.old.entries) self.old.cap }
    {
        let slot = self.order.pop(key)?;
        Some(self.values.remove(slot))
    }

    /// Takes every key out, and drops the values.
    pub fn clear(&mut self)
    where
        V: Drop,
        ensures { self.new ≡ lru_cache [] self.old.cap }
    {
        self.order.clear();
        self.values.clear();
    }

    /// The keys and their values, the one that was used last first.
    pub fn iter(&self) -> Iter<'_, V>
        ensures { result ≡ self.now.entries }
    {
        Iter {
            seats: self.order.iter(),
            values: &self.values,
        }
    }
}
