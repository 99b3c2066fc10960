//! The steps that can be undone and those that can be made again. One that replaces a run of bytes is short: it lies in
//! the log with its bytes, and takes no memory of its own.
ghost use Rattle.std.specs.Prelude.{◌≡◌, ◌≢◌, ◌+◌, ◌-◌, ◌^◌, ◌∷◌, ◌<◌, ◌≤◌, [], List, true, OnOk, IsOk, MatchOption, MatchResult, drop, length, min, slice_get, take};
ghost use Rattle.std.specs.Bool.{OnFalse, OnTrue};
ghost use Rattle.std.specs.List.{sum_by};
ghost use Rattle.packed_log.specs.Records.{Whole, is_whole};
ghost use Rattle.undo_log.specs.Entries.{One, log_entries, unnamed};
ghost use Rattle.undo_log.specs.Joining.{with_joined};
ghost use Rattle.undo_log.specs.Logging.{entry_weight, named, turned_over};
ghost use Rattle.undo_log.specs.Steps.{IsFirst, JoinsAcross, StaysSame, TurnsOver, entries_of, with_first};
ghost use Rattle.undo_log.specs.Telling.{next_changes, told};
ghost use Rattle.undo_log.specs.declared.touched.Touched.TheVariants.{Newest};
ghost use Rattle.vm_blocks.specs.ByteChanges.{byte_change};
ghost use Rattle.vm_blocks.specs.declared.change.Change.{Change};

use crate::entry::NamedEntry;
use crate::head::Head;
use crate::joining::join;
use crate::step::Step;
use crate::touched::Touched;
use crate::weighing::entries_weight;
use packed_log::{LentRecord, PackedLog};
use std::alloc::{AllocError, Global};
use std::marker::Model;
use vm_blocks::{ByteChange, Change};

/// The steps of a log. Contracts see an entry of each.
#[derive(Drop)]
pub struct KeptSteps {
    log: PackedLog<Head, NamedEntry>,
}

impl Model for KeptSteps {
    ghost use Rattle.undo_log.specs.Steps.{Steps, steps_code, steps_of};

    ghost Value = { Steps };

    ghost coded = { steps_code };

    ghost view = { λ s. steps_of s.log };
}

impl KeptSteps {
    /// None.
    pub(crate) fn new(alloc: Global) -> KeptSteps
        ensures undo { result.undo ≡ [] }
        ensures redo { result.redo ≡ [] }
    {
        KeptSteps {
            log: PackedLog::new(alloc),
        }
    }

    /// Makes room for one more, to which those that can be made again give way.
    #[inline(always)]
    pub(crate) fn reserve(&mut self) -> Result<(), AllocError>
        ensures undo { self.new.undo ≡ self.old.undo }
        ensures redo { self.new.redo ≡ self.old.redo }
        ensures ok { OnOk result (self.new.place ≡ true) }
        ensures place { self.old.place ≡ true → self.new.place ≡ true }
    {
        self.log.reserve()
    }

    /// The change of an edit is the newest step: a short one where it can be, if there is memory for its bytes.
    #[inline(always)]
    pub(crate) fn push_change(&mut self, change: Change)
        requires place { self.old.place ≡ true }
        requires none { self.old.redo ≡ [] }
        ensures undo { self.new.undo ≡ unnamed (One change) ∷ self.old.undo }
        ensures redo { self.new.redo ≡ [] }
    {
        if !push_short(&mut self.log, &change) {
            self.log.push_whole(NamedEntry::one(change));
        }
    }

    /// So is a change of bytes that are lent. One of its own is made of it only where it can't be a short one.
    pub(crate) fn push_bytes(
        &mut self,
        alloc: Global,
        change: ByteChange<'_>,
    ) -> Result<(), AllocError>
        requires place { self.old.place ≡ true }
        requires none { self.old.redo ≡ [] }
        requires old { length change.old.now < 2 ^ 16 }
        requires new { length change.new.now < 2 ^ 32 }
        ensures undo { MatchResult result
            (λ _. self.new.undo ≡ unnamed (One (byte_change change.entry)) ∷ self.old.undo)
            (λ _. self.new.undo ≡ self.old.undo) }
        ensures redo { self.new.redo ≡ [] }
    {
        if !push_short_bytes(&mut self.log, change) {
            let change = change.to_change(alloc)?;
            self.log.push_whole(NamedEntry::one(change));
        }
        Ok(())
    }

    /// An entry is the newest step.
    pub(crate) fn push_entry(&mut self, entry: NamedEntry)
        requires place { self.old.place ≡ true }
        requires none { self.old.redo ≡ [] }
        ensures undo { self.new.undo ≡ entry ∷ self.old.undo }
        ensures redo { self.new.redo ≡ [] }
    {
        self.log.push_whole(entry);
    }

    /// Nothing is left to make again.
    pub(crate) fn cut_redo(&mut self)
        ensures undo { self.new.undo ≡ self.old.undo }
        ensures redo { self.new.redo ≡ [] }
        ensures place { self.new.place ≡ self.old.place }
    {
        self.log.cut_behind();
    }

    /// The newest step that can be undone.
    #[inline(always)]
    pub(crate) fn newest(&self) -> Option<Step<'_>>
        ensures { MatchOption result (self.now.undo ≡ []) (λ step. IsFirst step self.now.undo) }
    {
        Some(Step::of(self.log.newest()?))
    }

    /// The next one that can be made again.
    #[inline(always)]
    pub(crate) fn next(&self) -> Option<Step<'_>>
        ensures { MatchOption result (self.now.redo ≡ []) (λ step. IsFirst step self.now.redo) }
    {
        Some(Step::of(self.log.next()?))
    }

    /// How many changes the newest one has.
    pub(crate) fn newest_len(&self) -> usize
        ensures { result ≡ length (next_changes (log_entries self.now.undo)) }
    {
        match self.newest() {
            Some(step) => step.len(),
            None => 0,
        }
    }

    /// The newest one was undone: it is the next that can be made again.
    pub(crate) fn move_undone(&mut self, alloc: Global)
        requires { self.old.undo ≢ [] }
        ensures { TurnsOver self.old.undo self.old.redo self.new.undo self.new.redo }
    {
        turn_newest(alloc, &mut self.log);
        self.log.step_back();
    }

    /// The next one was made again: it is the newest that can be undone.
    pub(crate) fn move_redone(&mut self, alloc: Global)
        requires { self.old.redo ≢ [] }
        ensures { TurnsOver self.old.redo self.old.undo self.new.redo self.new.undo }
    {
        self.log.step_forward();
        turn_newest(alloc, &mut self.log);
    }

    /// The newest one has this name, if there is memory for it; one without bytes takes none.
    pub(crate) fn name_newest(&mut self, alloc: Global, name: Vec<u8>) -> Result<(), AllocError>
        requires { self.old.undo ≢ [] }
        ensures done { MatchResult result
            (λ _. self.new.undo ≡ with_first (named name.items) self.old.undo)
            (λ _. self.new.undo ≡ self.old.undo) }
        ensures redo { self.new.redo ≡ self.old.redo }
        ensures none { name.items ≡ [] → IsOk result }
    {
        if name.is_empty() && !is_newest_whole(&self.log) {
            return Ok(());
        }
        make_newest_whole(alloc, &mut self.log)?;
        let mut entry = self.log.replace_newest(NamedEntry::empty(alloc));
        let named = entry.set_name(alloc, name);
        put_newest(&mut self.log, entry);
        named
    }

    /// The newest two are one, if there is memory for it.
    pub(crate) fn join_newest(&mut self, alloc: Global) -> Result<(), AllocError>
        requires { 2 ≤ length self.old.undo }
        ensures done { MatchResult result
            (λ _. self.new.undo ≡ with_joined self.old.undo)
            (λ _. self.new.undo ≡ self.old.undo) }
        ensures redo { self.new.redo ≡ self.old.redo }
    {
        make_newest_whole(alloc, &mut self.log)?;
        self.log.step_back();
        if join_across(alloc, &mut self.log).is_err() {
            self.log.step_forward();
            return Err(AllocError);
        }
        self.log.remove_next();
        Ok(())
    }

    /// No more than so many are left to be undone, the newest.
    pub(crate) fn keep_newest(&mut self, alloc: Global, most: usize)
        ensures undo { self.new.undo ≡ take most self.old.undo }
        ensures redo { self.new.redo ≡ self.old.redo }
        ensures place { self.old.place ≡ true → self.new.place ≡ true }
    {
        forget_oldest(alloc, &mut self.log, most);
    }

    /// What tells so many of the newest changes of the newest one, which is about to be forgotten, or nothing.
    pub(crate) fn take_told(&mut self, alloc: Global, count: usize) -> Touched
        ensures told { (next : List Change) → told result [] next
            ≡ told (Newest count) (next_changes (log_entries self.old.undo)) next }
        ensures redo { self.new.redo ≡ self.old.redo }
        ensures place { self.new.place ≡ self.old.place }
    {
        if is_newest_whole(&self.log) {
            let entry = self.log.replace_newest(NamedEntry::empty(alloc));
            return Touched::Forgotten(entry.into_next(alloc, count));
        }
        match self.log.newest() {
            Some(LentRecord::Short(head, bytes)) => told_of_bytes(head.change(bytes), count),
            Some(LentRecord::Whole(_)) => Touched::Nothing,
            None => Touched::Nothing,
        }
    }

    /// How many can be undone.
    pub(crate) fn undo_count(&self) -> usize
        ensures { result ≡ length self.now.undo }
    {
        self.log.before_len()
    }

    /// How many can be made again.
    pub(crate) fn redo_count(&self) -> usize
        ensures { result ≡ length self.now.redo }
    {
        self.log.behind_len()
    }

    /// How many content bytes they hold, 2^64 - 1 where these are more.
    pub(crate) fn weight(&self) -> u64
        ensures { result ≡ min (sum_by (λ e. entry_weight e.entry) self.now.undo
            + sum_by (λ e. entry_weight e.entry) self.now.redo) (2 ^ 64 - 1) }
    {
        entries_weight(self.log.wholes()).saturating_add(self.log.short_bytes() as u64)
    }

    /// None is left.
    pub(crate) fn clear(&mut self)
        ensures undo { self.new.undo ≡ [] }
        ensures redo { self.new.redo ≡ [] }
    {
        self.log.clear();
    }
}

// A change is the newest step, as a short one, where it can be, and if there is memory for its bytes.
fn push_short(log: &mut PackedLog<Head, NamedEntry>, change: &Change) -> bool
    requires place { log.old.place ≡ true }
    requires none { log.old.behind ≡ [] }
    ensures done { OnTrue result (entries_of log.new.before ≡ unnamed (One change.now) ∷ entries_of log.old.before) }
    ensures behind { log.new.behind ≡ [] }
    ensures stays { OnFalse result (log.new ≡ log.old) }
{
    match change.as_bytes() {
        Some(change) => push_short_bytes(log, change),
        None => false,
    }
}

// So is one of bytes that are lent.
fn push_short_bytes(log: &mut PackedLog<Head, NamedEntry>, change: ByteChange<'_>) -> bool
    requires place { log.old.place ≡ true }
    requires none { log.old.behind ≡ [] }
    ensures done { OnTrue result
        (entries_of log.new.before ≡ unnamed (One (byte_change change.entry)) ∷ entries_of log.old.before) }
    ensures behind { log.new.behind ≡ [] }
    ensures stays { OnFalse result (log.new ≡ log.old) }
{
    match Head::of(change) {
        Some(head) => log.push_short(head, change.old, change.new),
        None => false,
    }
}

// Whether there is a newest step, and it is whole.
fn is_newest_whole(log: &PackedLog<Head, NamedEntry>) -> bool
    ensures { result ≡ is_whole (slice_get log.now.before 0) }
{
    matches!(log.newest(), Some(LentRecord::Whole(_)))
}

// An entry is in the place of that of the newest step, which is whole.
fn put_newest(log: &mut PackedLog<Head, NamedEntry>, entry: NamedEntry)
    requires { is_whole (slice_get log.old.before 0) ≡ true }
    ensures { log.new ≡ record log.old { before = Whole entry ∷ drop 1 log.old.before } }
{
    let _other = log.replace_newest(entry);
}

// So it is of that of the next one.
fn put_next(log: &mut PackedLog<Head, NamedEntry>, entry: NamedEntry)
    requires { is_whole (slice_get log.old.behind 0) ≡ true }
    ensures { log.new ≡ record log.old { behind = Whole entry ∷ drop 1 log.old.behind } }
{
    let _other = log.replace_next(entry);
}

// What tells so many of the changes of a short step, of which it has one.
fn told_of_bytes(change: ByteChange<'_>, count: usize) -> Touched
    requires old { length change.old.now < 2 ^ 32 }
    requires new { length change.new.now < 2 ^ 32 }
    ensures { (next : List Change) → told result [] next ≡ told (Newest count) (byte_change change.entry ∷ []) next }
{
    if count > 0 {
        Touched::At(change.place())
    } else {
        Touched::Nothing
    }
}

// The newest step is turned over. A short one stays as it is.
#[inline(always)]
fn turn_newest(alloc: Global, log: &mut PackedLog<Head, NamedEntry>)
    ensures before { entries_of log.new.before ≡ with_first turned_over (entries_of log.old.before) }
    ensures behind { log.new.behind ≡ log.old.behind }
{
    if is_newest_whole(log) {
        turn_whole(alloc, log);
    }
}

// So is a whole one. Never inlined, since most steps are short.
#[inline(never)]
fn turn_whole(alloc: Global, log: &mut PackedLog<Head, NamedEntry>)
    requires { is_whole (slice_get log.old.before 0) ≡ true }
    ensures before { entries_of log.new.before ≡ with_first turned_over (entries_of log.old.before) }
    ensures behind { log.new.behind ≡ log.old.behind }
{
    let mut entry = log.replace_newest(NamedEntry::empty(alloc));
    entry.turn_over();
    put_newest(log, entry);
}

// The newest step is a whole one, if there is memory for it.
fn make_newest_whole(alloc: Global, log: &mut PackedLog<Head, NamedEntry>) -> Result<(), AllocError>
    requires { log.old.before ≢ [] }
    ensures ok { OnOk result (is_whole (slice_get log.new.before 0) ≡ true) }
    ensures before { entries_of log.new.before ≡ entries_of log.old.before }
    ensures behind { log.new.behind ≡ log.old.behind }
    ensures none { is_whole (slice_get log.old.before 0) ≡ true → IsOk result }
{
    let change = match log.newest() {
        Some(LentRecord::Short(head, bytes)) => head.change(bytes).to_change(alloc)?,
        Some(LentRecord::Whole(_)) => return Ok(()),
        None => return Ok(()),
    };
    log.make_whole(NamedEntry::one(change))
}

// The newest step that can be undone and the next one that can be made again, which is whole, are one in the place of
// the first, if there is memory for it. An empty one is in the place of the second.
fn join_across(alloc: Global, log: &mut PackedLog<Head, NamedEntry>) -> Result<(), AllocError>
    requires some { log.old.before ≢ [] }
    requires whole { is_whole (slice_get log.old.behind 0) ≡ true }
    ensures { MatchResult result
        (λ _. JoinsAcross log.old log.new)
        (λ _. StaysSame log.old log.new) }
{
    make_newest_whole(alloc, log)?;
    let older = log.replace_newest(NamedEntry::empty(alloc));
    let newer = log.replace_next(NamedEntry::empty(alloc));
    match join(alloc, older, newer) {
        Ok(entry) => {
            put_newest(log, entry);
            Ok(())
        }
        Err(apart) => {
            put_newest(log, apart.older);
            put_next(log, apart.newer);
            Err(AllocError)
        }
    }
}

// No more than so many steps are left to be undone.
fn forget_oldest(alloc: Global, log: &mut PackedLog<Head, NamedEntry>, most: usize)
    ensures before { log.new.before ≡ take most log.old.before }
    ensures behind { log.new.behind ≡ log.old.behind }
    ensures place { log.old.place ≡ true → log.new.place ≡ true }
{
    let count = log.before_len().saturating_sub(most);
    for _ in 0..count {
        log.forget_oldest(NamedEntry::empty(alloc));
    }
}
