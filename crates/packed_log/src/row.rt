//! Items in a row with a cursor, of which the oldest can be forgotten.
ghost use Rattle.std.specs.Prelude.{◌≡◌, ◌≢◌, ◌+◌, ◌-◌, ◌<◌, ◌≤◌, ◌++◌, [], ◌∷◌, OnErr, OnOk, Some, drop, length, slice_get, take};
ghost use Rattle.packed_log.specs.Rows.{last_of, without_last};

use crate::growing::reserve;
use std::alloc::{AllocError, Global};
use std::marker::Model;
use std::mem;

/// Less room than for so many items isn't given back.
const LEAST: usize = 1_024;

/// Items before a cursor, and behind it. Those that are forgotten stay in front until they are as many as the others.
#[derive(Drop)]
pub(crate) struct Row<T> {
    items: Vec<T>,
    // How many are forgotten.
    dead: usize,
    // How many lie before the cursor, those that are forgotten too.
    cursor: usize,
}

impl<T> Model for Row<T> {
    ghost use Rattle.std.specs.Prelude.{◌-◌, ◌≤◌, drop, take, vec_capacity, vec_len};
    ghost use Rattle.packed_log.specs.Rows.{Row as Items, row_code};

    ghost Value = { Items T };

    ghost coded = { row_code T.code };

    ghost view = { λ r. record {
      before = drop r.dead (take r.cursor r.items.items);
      behind = drop r.cursor r.items.items;
      room = vec_capacity r.items - r.cursor;
    } };

    ghost invariant = { λ r. (r.dead ≤ r.cursor) × (r.cursor ≤ vec_len r.items) };
}

impl<T> Row<T> {
    /// A row without items, which takes no memory.
    pub(crate) fn new(alloc: Global) -> Row<T>
        ensures before { result.before ≡ [] }
        ensures behind { result.behind ≡ [] }
    {
        Row {
            items: Vec::new(alloc),
            dead: 0,
            cursor: 0,
        }
    }

    /// The items before the cursor, the oldest first.
    pub(crate) fn before(&self) -> &[T]
        ensures { result.now ≡ self.now.before }
    {
        &self.items.as_slice()[self.dead..self.cursor]
    }

    /// The items behind the cursor, the next first.
    pub(crate) fn behind(&self) -> &[T]
        ensures { result.now ≡ self.now.behind }
    {
        &self.items.as_slice()[self.cursor..]
    }

    /// All items, the oldest first.
    pub(crate) fn all(&self) -> &[T]
        ensures { result.now ≡ self.now.before ++ self.now.behind }
    {
        &self.items.as_slice()[self.dead..]
    }

    /// The last item before the cursor.
    pub(crate) fn last(&self) -> &T
        requires { self.now.before ≢ [] }
        ensures { result.now ∷ [] ≡ last_of 1 self.now.before }
    {
        &self.items[self.cursor - 1]
    }

    /// The first item behind the cursor.
    pub(crate) fn first(&self) -> &T
        requires { self.now.behind ≢ [] }
        ensures { Some result.now ≡ slice_get self.now.behind 0 }
    {
        &self.items[self.cursor]
    }

    /// The last items before the cursor.
    pub(crate) fn newest(&self, count: usize) -> &[T]
        requires { count ≤ length self.now.before }
        ensures { result.now ≡ last_of count self.now.before }
    {
        &self.items.as_slice()[self.cursor - count..self.cursor]
    }

    /// The first items behind the cursor.
    pub(crate) fn next(&self, count: usize) -> &[T]
        requires { count ≤ length self.now.behind }
        ensures { result.now ≡ take count self.now.behind }
    {
        &self.items.as_slice()[self.cursor..self.cursor + count]
    }

    /// Makes room for so many items at the cursor, to which those behind it may give way. Without memory for it all
    /// stays.
    pub(crate) fn reserve(&mut self, count: usize) -> Result<(), AllocError>
        ensures before { self.new.before ≡ self.old.before }
        ensures behind { self.new.behind ≡ self.old.behind }
        ensures ok { OnOk result (count ≤ self.new.room) }
        ensures room { self.old.room ≤ self.new.room }
        ensures err { OnErr result (self.new ≡ self.old) }
    {
        let behind = self.items.len() - self.cursor;
        if count <= behind {
            return Ok(());
        }
        reserve(&mut self.items, count - behind)
    }

    /// An item goes before the cursor, as the newest.
    pub(crate) fn push(&mut self, item: T)
        requires room { 0 < self.old.room }
        requires none { self.old.behind ≡ [] }
        ensures before { self.new.before ≡ self.old.before ++ item ∷ [] }
        ensures behind { self.new.behind ≡ [] }
    {
        self.items.push_reserved(item);
        self.cursor += 1;
    }

    /// Items go before the cursor, as the newest.
    pub(crate) fn extend(&mut self, items: &[T])
    where
        T: Copy,
        requires room { length items.now ≤ self.old.room }
        requires none { self.old.behind ≡ [] }
        ensures before { self.new.before ≡ self.old.before ++ items.now }
        ensures behind { self.new.behind ≡ [] }
        ensures room { self.old.room ≤ self.new.room + length items.now }
    {
        if self.items.extend_from_slice(items).is_err() {
            unreachable!();
        }
        self.cursor = self.items.len();
    }

    /// An item goes before the cursor, also where some lie behind it. Without memory for it all stays, and it is
    /// dropped.
    pub(crate) fn insert(&mut self, item: T) -> Result<(), AllocError>
    where
        T: Drop,
        ensures before { OnOk result (self.new.before ≡ self.old.before ++ item ∷ []) }
        ensures behind { OnOk result (self.new.behind ≡ self.old.behind) }
        ensures err { OnErr result (self.new ≡ self.old) }
    {
        reserve(&mut self.items, 1)?;
        if self.items.insert(self.cursor, item).is_err() {
            unreachable!();
        }
        self.cursor += 1;
        Ok(())
    }

    /// No item is left behind the cursor.
    pub(crate) fn cut_behind(&mut self)
    where
        T: Drop,
        ensures before { self.new.before ≡ self.old.before }
        ensures behind { self.new.behind ≡ [] }
        ensures room { self.new.room ≡ self.old.room }
    {
        self.items.truncate(self.cursor);
    }

    /// The last items before the cursor are the first behind it.
    pub(crate) fn step_back(&mut self, count: usize)
        requires { count ≤ length self.old.before }
        ensures before { self.new.before ≡ without_last count self.old.before }
        ensures behind { self.new.behind ≡ last_of count self.old.before ++ self.old.behind }
        ensures room { self.old.room ≤ self.new.room }
    {
        self.cursor -= count;
    }

    /// The first items behind the cursor are the last before it.
    pub(crate) fn step_forward(&mut self, count: usize)
        requires { count ≤ length self.old.behind }
        ensures before { self.new.before ≡ self.old.before ++ take count self.old.behind }
        ensures behind { self.new.behind ≡ drop count self.old.behind }
    {
        self.cursor += count;
    }

    /// Takes the first items behind the cursor out.
    pub(crate) fn remove_next(&mut self, count: usize)
    where
        T: Drop,
        requires { count ≤ length self.old.behind }
        ensures before { self.new.before ≡ self.old.before }
        ensures behind { self.new.behind ≡ drop count self.old.behind }
        ensures room { self.new.room ≡ self.old.room }
    {
        let left = self.items.len() - count;
        self.items.slice_mut(self.cursor..).rotate_left(count);
        self.items.truncate(left);
    }

    /// Takes the oldest items out.
    pub(crate) fn forget(&mut self, count: usize)
    where
        T: Drop,
        requires { count ≤ length self.old.before }
        ensures before { self.new.before ≡ drop count self.old.before }
        ensures behind { self.new.behind ≡ self.old.behind }
        ensures room { self.old.room ≤ self.new.room }
    {
        self.dead += count;
        self.take_dead_away();
    }

    // Where as many items are forgotten as aren't, the others are moved down: the mean time of a call stays the same.
    fn take_dead_away(&mut self)
    where
        T: Drop,
        ensures before { self.new.before ≡ self.old.before }
        ensures behind { self.new.behind ≡ self.old.behind }
        ensures room { self.old.room ≤ self.new.room }
    {
        let live = self.items.len() - self.dead;
        if self.dead >= live {
            self.items.rotate_left(self.dead);
            self.items.truncate(live);
            self.cursor -= self.dead;
            self.dead = 0;
        }
    }

    /// Another item is in the place of the oldest, which is returned.
    pub(crate) fn replace_oldest(&mut self, item: T) -> T
        requires { self.old.before ≢ [] }
        ensures oldest { Some result ≡ slice_get self.old.before 0 }
        ensures row { self.new ≡ record self.old { before = item ∷ drop 1 self.old.before } }
    {
        mem::replace(&mut self.items[self.dead], item)
    }

    /// Another item is in the place of the last before the cursor, which is returned.
    pub(crate) fn replace_newest(&mut self, item: T) -> T
        requires { self.old.before ≢ [] }
        ensures newest { result ∷ [] ≡ last_of 1 self.old.before }
        ensures row { self.new ≡ record self.old { before = without_last 1 self.old.before ++ item ∷ [] } }
    {
        mem::replace(&mut self.items[self.cursor - 1], item)
    }

    /// Another item is in the place of the first behind the cursor, which is returned.
    pub(crate) fn replace_next(&mut self, item: T) -> T
        requires { self.old.behind ≢ [] }
        ensures next { Some result ≡ slice_get self.old.behind 0 }
        ensures row { self.new ≡ record self.old { behind = item ∷ drop 1 self.old.behind } }
    {
        mem::replace(&mut self.items[self.cursor], item)
    }

    /// Where no more than a quarter of the room has items, three quarters go back.
    pub(crate) fn give_back(&mut self)
        ensures before { self.new.before ≡ self.old.before }
        ensures behind { self.new.behind ≡ self.old.behind }
    {
        let wanted = self.items.capacity() / 4;
        if wanted >= LEAST && wanted >= self.items.len() {
            self.items.shrink_to(wanted);
        }
    }

    /// No item is left.
    pub(crate) fn clear(&mut self)
    where
        T: Drop,
        ensures before { self.new.before ≡ [] }
        ensures behind { self.new.behind ≡ [] }
    {
        self.items.clear();
        self.dead = 0;
        self.cursor = 0;
    }
}
