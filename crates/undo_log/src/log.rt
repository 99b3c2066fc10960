//! The log: what can be undone, what can be made again, the group that is open, and where the committed documents
//! stand.
ghost use Rattle.std.specs.Prelude.{◌≡◌, ◌≢◌, ◌≤◌, ◌<◌, ◌+◌, ◌-◌, ◌^◌, ◌++◌, [], ◌&&◌, ◌==◌, IfErr, IfOk, IfSome, IsOk, true, Some, None, OnOk, MatchOption, MatchResult, is_some, length, min, reverse, take, vec_capacity, vec_len};
ghost use Rattle.chunk_edits.specs.declared.direction.Direction.TheVariants.{Backwards, Forwards};
ghost use Rattle.geos_model.specs.Machine.{first_name};
ghost use Rattle.std.specs.Bool.{OnTrue};
ghost use Rattle.undo_log.specs.Entries.{One, unnamed};
ghost use Rattle.undo_log.specs.Logging.{AreExclusive, IsHead, TakesBytes, abandoned_log, forgotten_log, fresh_log, is_at, joined_log, limited_log, named_log, next_entries, next_moved, next_names, open_changes, pushed_log, retold, reverted_log, saved_log, to_redo, to_undo, total_weight, updated_log, with_change, with_changes, with_group_closed, without_redo};
ghost use Rattle.undo_log.specs.Asking.{asked_places, places_ahead};
ghost use Rattle.undo_log.specs.Steps.{IsCounted, step_entry};
ghost use Rattle.undo_log.specs.Telling.{all_places, newest_changes};
ghost use Rattle.vm_blocks.specs.ByteChanges.{byte_change};

use crate::entry::{Changes, NamedEntry};
use crate::growing::reserve;
use crate::kept_steps::KeptSteps;
use crate::marks::Marks;
use crate::step::Step;
use crate::touched::{Touched, tell_made, tell_newest, tell_next};
use crate::weighing::total_weight;
use geos_model::{Place, PlacesLookUp};
use std::alloc::{AllocError, Global};
use std::marker::Model;
use vm_blocks::{ByteChange, Change, Direction, Recorder};

/// What is kept of the steps that can be undone or made again, and of the group that is open.
#[derive(Drop)]
pub struct UndoLog {
    steps: KeptSteps,
    // The newest change of the open group is the last. While it has some, nothing is left to make again, and there is a
    // place for the step that it becomes.
    group: Option<Vec<Change>>,
    // Where the committed documents stand among the steps, so that an undo or a redo needn't say.
    marks: Marks,
    // From what it is read where the document was changed last.
    last: Touched,
    // How many steps are kept to be undone.
    limit: Option<u32>,
}

impl Model for UndoLog {
    ghost use Rattle.undo_log.specs.Entries.{entry_names, log_entries};
    ghost use Rattle.undo_log.specs.Logging.{LogState};
    ghost use Rattle.undo_log.specs.Codes.{log_state_code};
    ghost use Rattle.undo_log.specs.Logging.{AreExclusive, open_changes};
    ghost use Rattle.undo_log.specs.Marks.{AreMarksWithin, position_of};
    ghost use Rattle.undo_log.specs.Rooms.{KeepsPlace, spare_room};
    ghost use Rattle.undo_log.specs.Telling.{newest_changes, next_changes, told};

    ghost Value = { LogState };

    ghost coded = { log_state_code };

    ghost use Rattle.std.specs.Prelude.{◌+◌, length, reverse, vec_len, vec_capacity};
    ghost use Rattle.std.specs.Option.{option_map};

    ghost view = { λ l. record {
      lists = record {
        undo = log_entries l.steps.undo;
        redo = log_entries l.steps.redo;
        undo_names = entry_names l.steps.undo;
        redo_names = entry_names l.steps.redo;
        group = option_map (λ changes. reverse changes.items) l.group;
        updated_at = position_of (length l.steps.undo) l.marks.updated;
        saved_at = position_of (length l.steps.undo) l.marks.saved;
        touched = told l.last
            (newest_changes (log_entries l.steps.undo) (option_map (λ changes. reverse changes.items) l.group))
            (next_changes (log_entries l.steps.redo));
        limit = l.limit;
      };
      last = l.last;
      place = l.steps.place;
      spare = spare_room (option_map (λ changes. (vec_len changes, vec_capacity changes)) l.group);
    } };

    ghost invariant = { λ l. AreMarksWithin 0 (length l.steps.undo + length l.steps.redo) l.marks
        × KeepsPlace (option_map (λ changes. (vec_len changes, vec_capacity changes)) l.group) l.steps.place
        × AreExclusive (open_changes (option_map (λ changes. reverse changes.items) l.group))
        (log_entries l.steps.redo) };
}

impl UndoLog {
    /// A log of nothing, of a file with one directory for both documents or with two.
    pub(crate) fn new(alloc: Global, one: bool) -> UndoLog
        ensures { result.lists ≡ fresh_log one }
    {
        UndoLog {
            steps: KeptSteps::new(alloc),
            group: None,
            marks: Marks {
                updated: Some(0),
                saved: if one { Some(0) } else { None },
            },
            last: Touched::Nothing,
            limit: None,
        }
    }

    /// Makes room for so many changes more, of one edit.
    #[inline(always)]
    pub(crate) fn reserve(&mut self, count: usize) -> Result<(), AllocError>
        ensures lists { self.new.lists ≡ self.old.lists }
        ensures place { OnOk result (self.new.place ≡ true) }
        ensures spare { OnOk result (is_some self.old.lists.group ≡ true → count ≤ self.new.spare) }
    {
        self.steps.reserve()?;
        if let Some(changes) = &mut self.group {
            reserve(changes, count)?;
        }
        Ok(())
    }

    /// The change of an edit that was made is the newest.
    #[inline(always)]
    pub(crate) fn add(&mut self, alloc: Global, change: Change)
        requires place { self.old.place ≡ true }
        requires spare { is_some self.old.lists.group ≡ true → 1 ≤ self.old.spare }
        ensures { self.new.lists ≡ with_change change self.old.lists }
    {
        // In a group too.
        self.cut_undone();
        self.last.be_newest(1);
        if let Some(changes) = &mut self.group {
            changes.push_reserved(change);
            return;
        }
        self.push_change(alloc, change);
    }

    // Whether a change of bytes that are lent can be added with no change of its own: no group is open, and nothing is
    // left to make again.
    fn takes_bytes(&self) -> bool
        ensures { OnTrue result (TakesBytes self.now.lists) }
    {
        self.group.is_none() && self.steps.redo_count() == 0
    }

    // The change of an edit of bytes that are lent is the newest. Where it can't be a short step, there may be no memory
    // for it.
    fn add_bytes(&mut self, alloc: Global, change: ByteChange<'_>) -> Result<(), AllocError>
        requires place { self.old.place ≡ true }
        requires takes { TakesBytes self.old.lists }
        requires old { length change.old.now < 2 ^ 16 }
        requires new { length change.new.now < 2 ^ 32 }
        ensures { MatchResult result
            (λ _. self.new.lists ≡ with_change (byte_change change.entry) self.old.lists)
            (λ _. self.new.lists ≡ self.old.lists) }
    {
        match self.steps.push_bytes(alloc, change) {
            Ok(()) => {
                self.last.be_newest(1);
                self.keep_limit(alloc);
                Ok(())
            }
            Err(_) => Err(AllocError),
        }
    }

    // So is it with bytes of its own, in a group too, and where something is left to make again. That goes no sooner than
    // there is memory for the change.
    #[inline(never)]
    fn add_copy(&mut self, alloc: Global, change: ByteChange<'_>) -> Result<(), AllocError>
        requires place { self.old.place ≡ true }
        requires spare { is_some self.old.lists.group ≡ true → 1 ≤ self.old.spare }
        requires old { length change.old.now < 2 ^ 16 }
        requires new { length change.new.now < 2 ^ 32 }
        ensures { MatchResult result
            (λ _. self.new.lists ≡ with_change (byte_change change.entry) self.old.lists)
            (λ _. self.new.lists ≡ self.old.lists) }
    {
        let change = change.to_change(alloc)?;
        self.add(alloc, change);
        Ok(())
    }

    /// So are those of an edit of a large array together, in the order in which they were made.
    pub(crate) fn add_all(&mut self, alloc: Global, changes: Vec<Change>)
        requires place { self.old.place ≡ true }
        requires spare { is_some self.old.lists.group ≡ true → vec_len changes ≤ self.old.spare }
        ensures { self.new.lists ≡ with_changes changes.items self.old.lists }
    {
        self.cut_undone();
        self.last.be_newest(changes.len());
        if let Some(newest) = &mut self.group {
            push_all(newest, changes);
            return;
        }
        self.push(
            alloc,
            NamedEntry::group(Changes::new(changes), Vec::new(alloc)),
        );
    }

    // Nothing is left to make again, nor to be told of it.
    fn cut_undone(&mut self)
        ensures lists { self.new.lists ≡ retold self.old.last (without_redo self.old.lists) }
        ensures place { self.new.place ≡ self.old.place }
        ensures spare { self.new.spare ≡ self.old.spare }
    {
        // Where nothing was, no mark stands behind either.
        if self.steps.redo_count() > 0 {
            self.steps.cut_redo();
            self.marks.cut_behind(self.steps.undo_count());
        }
    }

    // The change of an edit is the newest step, and the limit may take the oldest.
    #[inline(always)]
    fn push_change(&mut self, alloc: Global, change: Change)
        requires place { self.old.place ≡ true }
        requires closed { self.old.lists.group ≡ None }
        requires none { self.old.lists.redo ≡ [] }
        ensures { self.new.lists ≡ pushed_log (unnamed (One change)) self.old }
    {
        self.steps.push_change(change);
        self.keep_limit(alloc);
    }

    // So is an entry.
    fn push(&mut self, alloc: Global, entry: NamedEntry)
        requires place { self.old.place ≡ true }
        requires closed { self.old.lists.group ≡ None }
        requires none { self.old.lists.redo ≡ [] }
        ensures { self.new.lists ≡ pushed_log entry self.old }
    {
        self.steps.push_entry(entry);
        self.keep_limit(alloc);
    }

    // No more are left to be undone than the limit says.
    fn keep_limit(&mut self, alloc: Global)
        ensures { self.new.lists ≡ limited_log self.old.lists.limit self.old.lists }
    {
        if let Some(most) = self.limit {
            self.forget(alloc, most);
        }
    }

    /// No more than so many steps are left to be undone, the newest.
    pub(crate) fn forget(&mut self, alloc: Global, most: u32)
        ensures { self.new.lists ≡ forgotten_log most self.old.lists }
    {
        let most = most as usize;
        let count = self.steps.undo_count();
        if count > most {
            let is_told = self.tells_entry(most);
            self.last.keep_newest(alloc, &mut self.steps, is_told);
            self.steps.keep_newest(alloc, most);
            self.marks.cut_before(count - most);
            self.marks.lower(count - most);
        }
    }

    // Whether what is told may be told of the newest entry, and none is kept where so many are.
    fn tells_entry(&self, most: usize) -> bool
        ensures { result ≡ (most == 0 && length (open_changes self.now.lists.group) == 0) }
    {
        most == 0 && self.group().is_empty()
    }

    /// The newest two steps are one, if there is memory for it. No time goes by but for the changes of the newest and
    /// for what can be made again.
    pub(crate) fn join(&mut self, alloc: Global) -> Result<(), AllocError>
        requires two { 2 ≤ length self.old.lists.undo }
        requires closed { self.old.lists.group ≡ None }
        ensures { MatchResult result
            (λ _. self.new.lists ≡ joined_log self.old.lists)
            (λ _. self.new.lists ≡ self.old.lists) }
    {
        let count = self.steps.newest_len();
        self.steps.join_newest(alloc)?;
        self.last.at_most(count);
        self.marks.join_at(self.steps.undo_count());
        Ok(())
    }

    /// The next step in a direction: to go backwards is to undo.
    #[inline(always)]
    pub(crate) fn next_step(&self, direction: Direction) -> Option<Step<'_>>
        ensures next { MatchOption result (next_entries direction self.now.lists ≡ [])
            (λ step. IsHead (step_entry step).entry (next_entries direction self.now.lists)) }
        ensures named { MatchOption result ([] ≡ first_name (next_names direction self.now.lists))
            (λ step. (step_entry step).name ≡ first_name (next_names direction self.now.lists)) }
        ensures counted { IfSome result IsCounted }
    {
        match direction {
            Direction::Backwards => self.steps.newest(),
            Direction::Forwards => self.steps.next(),
        }
    }

    /// The name of the next step in a direction; no bytes where it has none.
    pub(crate) fn next_name(&self, direction: Direction) -> &[u8]
        ensures { result.now ≡ first_name (next_names direction self.now.lists) }
    {
        match self.next_step(direction) {
            Some(step) => step.name(),
            None => &[],
        }
    }

    /// The newest step to be undone has this name, if there is memory for it; one without bytes takes none.
    pub(crate) fn name_newest(&mut self, alloc: Global, name: &[u8]) -> Result<(), AllocError>
        requires some { self.old.lists.undo ≢ [] }
        requires closed { self.old.lists.group ≡ None }
        ensures done { MatchResult result
            (λ _. self.new.lists ≡ named_log name.now self.old.lists)
            (λ _. self.new.lists ≡ self.old.lists) }
        ensures none { name.now ≡ [] → IsOk result }
    {
        let name = copy_of(alloc, name)?;
        self.steps.name_newest(alloc, name)
    }

    /// The next step in a direction was made: it becomes the next in the opposite one. Without one, nothing changes.
    pub(crate) fn move_next(&mut self, alloc: Global, direction: Direction)
        requires { self.old.lists.group ≡ None }
        ensures { self.new.lists ≡ next_moved direction self.old.lists }
    {
        match direction {
            Direction::Backwards => self.move_undone(alloc),
            Direction::Forwards => self.move_redone(alloc),
        }
    }

    // The newest step was undone: it becomes the next that can be made again. Without one, nothing changes.
    fn move_undone(&mut self, alloc: Global)
        requires { self.old.lists.group ≡ None }
        ensures { self.new.lists ≡ next_moved Backwards self.old.lists }
    {
        if self.steps.undo_count() > 0 {
            self.steps.move_undone(alloc);
            self.last.be_undone();
        }
    }

    // The next step was made again: it becomes the newest that can be undone. Without one, nothing changes.
    fn move_redone(&mut self, alloc: Global)
        requires { self.old.lists.group ≡ None }
        ensures { self.new.lists ≡ next_moved Forwards self.old.lists }
    {
        if self.steps.redo_count() > 0 {
            self.steps.move_redone(alloc);
            self.last.be_newest(self.steps.newest_len());
        }
    }

    /// Opens a group without a change.
    pub(crate) fn open_group(&mut self, alloc: Global)
        requires { self.old.lists.group ≡ None }
        ensures { self.new.lists ≡ record self.old.lists { group = Some [] } }
    {
        self.group = Some(Vec::new(alloc));
    }

    /// Closes the group, if one is open: its changes are the newest entry, if it has some.
    pub(crate) fn close_group(&mut self, alloc: Global)
        ensures { self.new.lists ≡ with_group_closed self.old.lists }
    {
        if let Some(changes) = self.group.take() {
            if !changes.is_empty() {
                self.push(
                    alloc,
                    NamedEntry::group(Changes::new(changes), Vec::new(alloc)),
                );
            }
        }
    }

    /// Closes the group, of which the changes were taken back. They are kept until something else is told.
    pub(crate) fn abandon_group(&mut self)
        requires { is_some self.old.lists.group ≡ true }
        ensures { self.new.lists ≡ abandoned_log self.old.lists }
    {
        if let Some(changes) = self.group.take() {
            self.last = Touched::Abandoned(Changes::new(changes));
        }
    }

    /// Forgets all, after a revert. The limit stays.
    pub(crate) fn clear(&mut self)
        ensures { self.new.lists ≡ reverted_log self.old.lists }
    {
        self.steps.clear();
        self.group = None;
        self.marks = Marks {
            updated: Some(0),
            saved: Some(0),
        };
        self.last = Touched::All;
    }

    /// Keeps so many entries to be undone from the next one on, or all.
    pub(crate) fn set_limit(&mut self, limit: Option<u32>)
        ensures { self.new.lists ≡ record self.old.lists { limit = limit } }
    {
        self.limit = limit;
    }

    /// The document became the updated one.
    pub(crate) fn mark_updated(&mut self)
        ensures { self.new.lists ≡ updated_log self.old.lists }
    {
        self.marks.updated = Some(self.steps.undo_count());
    }

    /// The document became the updated and the saved one.
    pub(crate) fn mark_saved(&mut self)
        ensures { self.new.lists ≡ saved_log self.old.lists }
    {
        let count = self.steps.undo_count();
        self.marks.updated = Some(count);
        self.marks.saved = Some(count);
    }

    /// Whether the document is the updated one.
    pub(crate) fn is_updated(&self) -> bool
        ensures { result ≡ is_at self.now.lists.updated_at self.now.lists }
    {
        self.marks.updated == Some(self.steps.undo_count()) && self.group().is_empty()
    }

    /// Whether the document is the saved one.
    pub(crate) fn is_saved(&self) -> bool
        ensures { result ≡ is_at self.now.lists.saved_at self.now.lists }
    {
        self.marks.saved == Some(self.steps.undo_count()) && self.group().is_empty()
    }

    /// Tells what is asked for.
    pub(crate) fn tell(
        &self,
        asked: PlacesLookUp,
        places: &mut Vec<Place>,
    ) -> Result<(), AllocError>
        ensures ok { IfOk result (λ _. places.new.items ≡ places.old.items ++ asked_places asked self.now.lists) }
        ensures err { IfErr result (λ _. asked_places asked self.now.lists ≢ []) }
    {
        match asked {
            PlacesLookUp::Touched => self.tell_touched(places),
            PlacesLookUp::Undo => self.tell_step(Direction::Backwards, places),
            PlacesLookUp::Redo => self.tell_step(Direction::Forwards, places),
            PlacesLookUp::Abandon => tell_next(self.group(), Direction::Backwards, places),
        }
    }

    // Tells what the next step in a direction would change.
    fn tell_step(&self, direction: Direction, places: &mut Vec<Place>) -> Result<(), AllocError>
        ensures ok { IfOk result (λ _. places.new.items
            ≡ places.old.items ++ places_ahead direction (next_entries direction self.now.lists)) }
        ensures err { IfErr result (λ _. places_ahead direction (next_entries direction self.now.lists) ≢ []) }
    {
        match self.next_step(direction) {
            Some(step) => step.tell_next(direction, places),
            None => Ok(()),
        }
    }

    // Tells where the document was changed last.
    fn tell_touched(&self, places: &mut Vec<Place>) -> Result<(), AllocError>
        ensures ok { IfOk result (λ _. places.new.items ≡ places.old.items ++ self.now.lists.touched) }
        ensures err { IfErr result (λ _. self.now.lists.touched ≢ []) }
    {
        match &self.last {
            Touched::Nothing => Ok(()),
            Touched::All => {
                places.push(Place::All)?;
                Ok(())
            }
            Touched::Newest(count) => self.tell_newest(*count, places),
            Touched::Undone => match self.steps.next() {
                Some(step) => step.tell_made(Direction::Backwards, places),
                None => Ok(()),
            },
            Touched::At(place) => {
                places.push(*place)?;
                Ok(())
            }
            Touched::Forgotten(entry) => tell_made(entry.as_slice(), Direction::Forwards, places),
            Touched::Abandoned(changes) => {
                tell_next(changes.as_slice(), Direction::Backwards, places)
            }
        }
    }

    // Tells so many of the newest changes, the newest last: of the open group or, where it has none, of the newest
    // step.
    fn tell_newest(&self, count: usize, places: &mut Vec<Place>) -> Result<(), AllocError>
        ensures ok { IfOk result (λ _. places.new.items ≡ places.old.items ++ all_places Forwards
            (reverse (take count (newest_changes self.now.lists.undo self.now.lists.group)))) }
        ensures err { IfErr result (λ _. all_places Forwards
            (reverse (take count (newest_changes self.now.lists.undo self.now.lists.group))) ≢ []) }
    {
        let group = self.group();
        if !group.is_empty() {
            return tell_newest(group, count, places);
        }
        match self.steps.newest() {
            Some(step) => step.tell_newest(count, places),
            None => Ok(()),
        }
    }

    /// The changes of the group that is open, the newest last; none where none is.
    pub(crate) fn group(&self) -> &[Change]
        ensures { reverse result.now ≡ open_changes self.now.lists.group }
    {
        match &self.group {
            Some(changes) => changes.as_slice(),
            None => &[],
        }
    }

    /// Whether a group is open.
    pub(crate) fn in_group(&self) -> bool
        ensures { result ≡ is_some self.now.lists.group }
    {
        self.group.is_some()
    }

    /// How many steps can be undone.
    pub(crate) fn undo_count(&self) -> usize
        ensures { result ≡ length self.now.lists.undo }
    {
        self.steps.undo_count()
    }

    /// How many steps can be made again.
    pub(crate) fn redo_count(&self) -> usize
        ensures { result ≡ length self.now.lists.redo }
    {
        self.steps.redo_count()
    }

    /// How many content bytes it holds, 2^64 - 1 where these are more.
    pub(crate) fn weight(&self) -> u64
        ensures { result
            ≡ min (total_weight (to_undo self.now.lists) + total_weight (to_redo self.now.lists)) (2 ^ 64 - 1) }
    {
        self.group_weight().saturating_add(self.steps.weight())
    }

    // How many those of the open group hold.
    fn group_weight(&self) -> u64
        ensures { result ≡ min (total_weight (open_changes self.now.lists.group)) (2 ^ 64 - 1) }
    {
        match &self.group {
            Some(changes) => total_weight(changes.as_slice()),
            None => 0,
        }
    }

    /// It does nothing: its caller learns that nothing is left to make again while the open group has changes.
    pub(crate) fn reveal_invariant(&self)
        ensures { AreExclusive (open_changes self.now.lists.group) self.now.lists.redo }
    {
        let _group = &self.group;
    }
}

impl Recorder for UndoLog {
    ghost use Rattle.std.specs.Prelude.{◌≡◌, ◌≤◌, true, is_some};
    ghost use Rattle.undo_log.specs.Logging.{with_change};

    ghost ready = { λ log. (log.place ≡ true) × (is_some log.lists.group ≡ true → 1 ≤ log.spare) };

    ghost records = { λ old change new. new.lists ≡ with_change change old.lists };

    ghost keeps = { λ old new. new.lists ≡ old.lists };

    fn record(&mut self, alloc: Global, change: ByteChange<'_>) -> Result<(), AllocError> {
        if self.takes_bytes() {
            self.add_bytes(alloc, change)
        } else {
            self.add_copy(alloc, change)
        }
    }
}

// Changes go behind those of a stack, which has room for them.
fn push_all(stack: &mut Vec<Change>, mut changes: Vec<Change>)
    requires { vec_len stack.old + vec_len changes ≤ vec_capacity stack.old }
    ensures items { stack.new.items ≡ stack.old.items ++ changes.items }
    ensures len { vec_len stack.new ≡ vec_len stack.old + vec_len changes }
    ensures capacity { vec_capacity stack.old ≤ vec_capacity stack.new }
{
    if stack.append(&mut changes).is_err() {
        unreachable!();
    }
}

// Bytes of their own; none take no memory.
fn copy_of(alloc: Global, bytes: &[u8]) -> Result<Vec<u8>, AllocError>
    ensures bytes { IfOk result (λ copy. copy.items ≡ bytes.now) }
    ensures none { bytes.now ≡ [] → IsOk result }
{
    if bytes.is_empty() {
        Ok(Vec::new(alloc))
    } else {
        Vec::from_slice(alloc, bytes)
    }
}
