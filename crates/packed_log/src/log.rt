//! The log, and the calls of it.
ghost use Rattle.std.specs.Prelude.{◌≡◌, ◌≢◌, ◌+◌, ◌-◌, ◌^◌, ◌<◌, ◌≤◌, ◌++◌, [], ◌∷◌, IfSome, OnErr, OnOk, Some, drop, false, length, option_map, slice_get, take, true};
ghost use Rattle.std.specs.Bool.{OnFalse, OnTrue};
ghost use Rattle.packed_log.specs.Lent.{record_of};
ghost use Rattle.packed_log.specs.Records.{Short, Whole, bytes_of, count_bytes, is_short, is_whole, log_wholes};

use crate::mark::Mark;
use crate::record::LentRecord;
use crate::row::Row;
use std::alloc::{AllocError, Global};
use std::marker::Model;

/// Records in a row, with a cursor. A record is short, a head and bytes, or whole, a value. The bytes of all short ones
/// lie behind each other, so that such a one takes no memory of its own, and is read where it lies.
#[derive(Drop)]
pub struct PackedLog<H, W> {
    marks: Row<Mark<H>>,
    bytes: Row<u8>,
    wholes: Row<W>,
}

impl<H, W> Model for PackedLog<H, W> {
    ghost use Rattle.packed_log.specs.Records.{PackedLog as Log, packed_log_code};

    ghost Value = { Log H W };

    ghost coded = { packed_log_code H.code W.code };

    ghost use Rattle.packed_log.specs.Settled.{AreSettled, log_of};

    ghost view = { λ l. log_of l.marks l.bytes l.wholes };

    ghost invariant = { λ l. AreSettled l.marks l.bytes l.wholes };
}

impl<H: Copy, W> PackedLog<H, W> {
    /// A log without records, which takes no memory.
    pub fn new(alloc: Global) -> Self
        ensures before { result.before ≡ [] }
        ensures behind { result.behind ≡ [] }
    {
        PackedLog {
            marks: Row::new(alloc),
            bytes: Row::new(alloc),
            wholes: Row::new(alloc),
        }
    }

    /// Makes room for a record more before the cursor, to which those behind it give way.
    #[inline(always)]
    pub fn reserve(&mut self) -> Result<(), AllocError>
        ensures before { self.new.before ≡ self.old.before }
        ensures behind { self.new.behind ≡ self.old.behind }
        ensures ok { OnOk result (self.new.place ≡ true) }
        ensures place { self.old.place ≡ true → self.new.place ≡ true }
    {
        self.marks.reserve(1)?;
        self.wholes.reserve(1)
    }

    /// The newest record is a short one, with the first and the second bytes behind each other. Of 2^16 bytes or more,
    /// or without memory for them, it is `false`, and all stays.
    pub fn push_short(&mut self, head: H, first: &[u8], second: &[u8]) -> bool
        requires place { self.old.place ≡ true }
        requires none { self.old.behind ≡ [] }
        ensures before { OnTrue result (self.new.before ≡ Short head (first.now ++ second.now) ∷ self.old.before) }
        ensures behind { self.new.behind ≡ [] }
        ensures stays { OnFalse result (self.new ≡ self.old) }
        ensures long { 2 ^ 16 ≤ length first.now + length second.now → result ≡ false }
    {
        let Ok(len) = u16::try_from(first.len() + second.len()) else {
            return false;
        };
        if self.bytes.reserve(len as usize).is_err() {
            return false;
        }
        self.bytes.extend(first);
        self.bytes.extend(second);
        self.marks.push(Mark::Short { len, head });
        true
    }

    /// The newest record is a whole one.
    pub fn push_whole(&mut self, whole: W)
        requires place { self.old.place ≡ true }
        requires none { self.old.behind ≡ [] }
        ensures before { self.new.before ≡ Whole whole ∷ self.old.before }
        ensures behind { self.new.behind ≡ [] }
    {
        self.wholes.push(whole);
        self.marks.push(Mark::Whole);
    }

    /// No record is left behind the cursor.
    pub fn cut_behind(&mut self)
    where
        W: Drop,
        ensures before { self.new.before ≡ self.old.before }
        ensures behind { self.new.behind ≡ [] }
        ensures place { self.new.place ≡ self.old.place }
    {
        self.marks.cut_behind();
        self.bytes.cut_behind();
        self.bytes.give_back();
        self.wholes.cut_behind();
    }

    /// The last record before the cursor.
    #[inline(always)]
    pub fn newest(&self) -> Option<LentRecord<'_, H, W>>
        ensures first { option_map record_of result ≡ slice_get self.now.before 0 }
        ensures few { IfSome result (λ lent. length (bytes_of (record_of lent)) < 2 ^ 16) }
    {
        match *self.marks.before().last()? {
            Mark::Short { len, head } => {
                Some(LentRecord::Short(head, self.bytes.newest(len as usize)))
            }
            Mark::Whole => Some(LentRecord::Whole(self.wholes.last())),
        }
    }

    /// The first record behind the cursor.
    #[inline(always)]
    pub fn next(&self) -> Option<LentRecord<'_, H, W>>
        ensures first { option_map record_of result ≡ slice_get self.now.behind 0 }
        ensures few { IfSome result (λ lent. length (bytes_of (record_of lent)) < 2 ^ 16) }
    {
        match *self.marks.behind().first()? {
            Mark::Short { len, head } => {
                Some(LentRecord::Short(head, self.bytes.next(len as usize)))
            }
            Mark::Whole => Some(LentRecord::Whole(self.wholes.first())),
        }
    }

    /// The last record before the cursor is the first behind it.
    pub fn step_back(&mut self)
        requires { self.old.before ≢ [] }
        ensures before { self.new.before ≡ drop 1 self.old.before }
        ensures behind { self.new.behind ≡ take 1 self.old.before ++ self.old.behind }
        ensures place { self.old.place ≡ true → self.new.place ≡ true }
    {
        let mark = *self.marks.last();
        self.marks.step_back(1);
        self.bytes.step_back(mark.bytes());
        self.wholes.step_back(mark.wholes());
    }

    /// The first record behind the cursor is the last before it.
    pub fn step_forward(&mut self)
        requires { self.old.behind ≢ [] }
        ensures before { self.new.before ≡ take 1 self.old.behind ++ self.old.before }
        ensures behind { self.new.behind ≡ drop 1 self.old.behind }
    {
        let mark = *self.marks.first();
        self.marks.step_forward(1);
        self.bytes.step_forward(mark.bytes());
        self.wholes.step_forward(mark.wholes());
    }

    /// Another value is that of the last record before the cursor, and its own is returned.
    pub fn replace_newest(&mut self, whole: W) -> W
        requires { is_whole (slice_get self.old.before 0) ≡ true }
        ensures value { Some (Whole result) ≡ slice_get self.old.before 0 }
        ensures log { self.new ≡ record self.old { before = Whole whole ∷ drop 1 self.old.before } }
    {
        self.wholes.replace_newest(whole)
    }

    /// Another value is that of the first record behind the cursor, and its own is returned.
    pub fn replace_next(&mut self, whole: W) -> W
        requires { is_whole (slice_get self.old.behind 0) ≡ true }
        ensures value { Some (Whole result) ≡ slice_get self.old.behind 0 }
        ensures log { self.new ≡ record self.old { behind = Whole whole ∷ drop 1 self.old.behind } }
    {
        self.wholes.replace_next(whole)
    }

    /// The last record before the cursor, a short one, is a whole one with this value. Without memory for it all stays,
    /// and the value is dropped.
    pub fn make_whole(&mut self, whole: W) -> Result<(), AllocError>
    where
        W: Drop,
        requires { is_short (slice_get self.old.before 0) ≡ true }
        ensures before { OnOk result (self.new.before ≡ Whole whole ∷ drop 1 self.old.before) }
        ensures behind { self.new.behind ≡ self.old.behind }
        ensures err { OnErr result (self.new ≡ self.old) }
    {
        self.wholes.insert(whole)?;
        let mark = self.marks.replace_newest(Mark::Whole);
        let count = mark.bytes();
        self.bytes.step_back(count);
        self.bytes.remove_next(count);
        Ok(())
    }

    /// Takes the first record behind the cursor out.
    pub fn remove_next(&mut self)
    where
        W: Drop,
        requires { self.old.behind ≢ [] }
        ensures { self.new ≡ record self.old { behind = drop 1 self.old.behind } }
    {
        let mark = *self.marks.first();
        self.marks.remove_next(1);
        self.bytes.remove_next(mark.bytes());
        self.wholes.remove_next(mark.wholes());
    }

    /// Takes the oldest record before the cursor out. Where it is whole its value is dropped at once; the other one may
    /// stay in its place for a while.
    pub fn forget_oldest(&mut self, instead: W)
    where
        W: Drop,
        requires { self.old.before ≢ [] }
        ensures before { self.new.before ≡ take (length self.old.before - 1) self.old.before }
        ensures behind { self.new.behind ≡ self.old.behind }
        ensures place { self.old.place ≡ true → self.new.place ≡ true }
    {
        match self.marks.before()[0] {
            Mark::Short { len, head: _ } => {
                self.bytes.forget(len as usize);
                self.bytes.give_back();
            }
            Mark::Whole => {
                let _forgotten = self.wholes.replace_oldest(instead);
                self.wholes.forget(1);
            }
        }
        self.marks.forget(1);
    }

    /// How many records are before the cursor.
    pub fn before_len(&self) -> usize
        ensures { result ≡ length self.now.before }
    {
        self.marks.before().len()
    }

    /// How many are behind it.
    pub fn behind_len(&self) -> usize
        ensures { result ≡ length self.now.behind }
    {
        self.marks.behind().len()
    }

    /// How many bytes the short records have, those before the cursor and those behind it.
    pub fn short_bytes(&self) -> usize
        ensures { result ≡ count_bytes self.now.before + count_bytes self.now.behind }
    {
        self.bytes.all().len()
    }

    /// The values of the whole records, the oldest first.
    pub fn wholes(&self) -> &[W]
        ensures { result.now ≡ log_wholes self.now }
    {
        self.wholes.all()
    }

    /// No record is left.
    pub fn clear(&mut self)
    where
        W: Drop,
        ensures before { self.new.before ≡ [] }
        ensures behind { self.new.behind ≡ [] }
    {
        self.marks.clear();
        self.bytes.clear();
        self.bytes.give_back();
        self.wholes.clear();
    }
}
