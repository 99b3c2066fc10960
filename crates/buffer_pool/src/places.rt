//! Where each key is in the order.
ghost use Rattle.std.specs.Prelude.{◌≡◌, ◌<◌, ℕ, None, Some, OnOk, OnErr, cond, length, nat_eq};
ghost use Rattle.buffer_pool.specs.Places.{place_at};

use std::alloc::{AllocError, Global};
use std::marker::Model;

/// Where a key is: its seat in the order of use, and the slot of its value.
#[derive(Clone, Copy, Drop)]
pub(crate) struct Place {
    pub(crate) seat: usize,
    pub(crate) slot: usize,
}

/// The places of keys, each found without a hash.
#[derive(Drop)]
pub(crate) struct Places {
    by_key: Vec<Option<Place>>,
}

impl Model for Places {
    ghost use Rattle.std.specs.Prelude.{List, Option};
    ghost use Rattle.buffer_pool.specs.declared.places.Place.{Place as APlace};

    ghost Value = { List (Option APlace) };

    ghost view = { λ p. p.by_key.items };
}

impl Places {
    /// No key has a place.
    pub(crate) fn new(alloc: Global) -> Places
        ensures { (k : ℕ) → place_at result k ≡ None }
    {
        Places {
            by_key: Vec::new(alloc),
        }
    }

    /// The place of a key.
    pub(crate) fn get(&self, key: u16) -> Option<Place>
        ensures { result ≡ place_at self.now key }
    {
        match self.by_key.get(usize::from(key)) {
            Some(place) => *place,
            None => None,
        }
    }

    /// Makes room for the place of a key.
    pub(crate) fn make_room(&mut self, key: u16) -> Result<(), AllocError>
        ensures same { (k : ℕ) → place_at self.new k ≡ place_at self.old k }
        ensures room { OnOk result (key < length self.new) }
    {
        let at = usize::from(key);
        if at >= self.by_key.len() {
            self.by_key.resize(at + 1, None)?;
        }
        Ok(())
    }

    /// Gives a key for which there is room a place.
    pub(crate) fn set(&mut self, key: u16, place: Place)
        requires { key < length self.old }
        ensures { (k : ℕ) → place_at self.new k ≡ cond (nat_eq key k) (Some place) (place_at self.old k) }
    {
        self.by_key[usize::from(key)] = Some(place);
    }

    /// Takes the place of a key away.
    pub(crate) fn remove(&mut self, key: u16)
        ensures { (k : ℕ) → place_at self.new k ≡ cond (nat_eq key k) None (place_at self.old k) }
    {
        if let Some(place) = self.by_key.get_mut(usize::from(key)) {
            *place = None;
        }
    }

    /// Takes the places of all keys away.
    pub(crate) fn clear(&mut self)
        ensures { (k : ℕ) → place_at self.new k ≡ None }
    {
        self.by_key.clear();
    }
}
