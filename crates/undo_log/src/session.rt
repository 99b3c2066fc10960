//! A document that is edited, with what undo needs.
ghost use Rattle.std.specs.Prelude.{◌≡◌, ◌↔◌, ◌+◌, ◌-◌, ◌^◌, ◌≤◌, ◌<◌, ◌||◌, ◌⊎◌, ℕ, Bool, true, false, [], Some, None, Ok, Err, IsTrue, IsOk, IfOk, IfErr, OnOk, OnErr, MatchOption, MatchResult, is_some, length, min, nat_lt};
ghost use Rattle.std.specs.Result.{IsErrAnd};
ghost use Rattle.std.specs.FinMap.{get};
ghost use Rattle.std.specs.Option.{option_map, option_map_or};
ghost use Rattle.geos_model.specs.Document.{Document};
ghost use Rattle.file_format.specs.File.{stands};
ghost use Rattle.geos_model.specs.Targets.{edit_of, large_edit};
ghost use Rattle.geos_model.specs.Reply.{Accepted, Refused as RefusedWith, NumberIs, reply_by};
ghost use Rattle.geos_model.specs.Machine.{AreValidLocks, IsValidMachine, Step, empty_machine, has_locks as machine_has_locks, locked_chunk, locked_raw, opened_machine};
ghost use Rattle.geos_model.specs.declared.command.Command.TheVariants as commands;
ghost use Rattle.document_file.specs.Calls.{last_sequence};
ghost use Rattle.document_file.specs.Disk.{IsFileDocument, IsCrashConsistent, KeepsCommitted};
ghost use Rattle.document_file.specs.Documents.{has_one_directory, sequence_in};
ghost use Rattle.document_file.specs.Effects.{Fails, IsWorn};
ghost use Rattle.vm_blocks.specs.Bodies.{body_value};
ghost use Rattle.vm_blocks.specs.State.{locks_of, locked_count};
ghost use Rattle.vm_blocks.specs.SavingAs.{IsSavedAs};
ghost use Rattle.vm_blocks.specs.Keeping.{IsEnvironmentFault, is_loaded};
ghost use Rattle.vm_blocks.specs.Locking.{CantLock, GainsLock, HasNoLock, LosesLock};
ghost use Rattle.vm_blocks.specs.Opening.{IsOpenedFrom, IsNotOpened, IsMadeIn, IsNotMade};
ghost use Rattle.chunk_edits.specs.declared.direction.Direction.TheVariants.{Backwards, Forwards};
ghost use Rattle.undo_log.specs.Editing.{EditsSession};
ghost use Rattle.undo_log.specs.Committing.{IsBusy, IsSaveAsRefused, IsSessionCommit};
ghost use Rattle.undo_log.specs.Logging.{AreExclusive, abandoned_log, before, fresh_log, next_entries, next_moved, open_changes, reverted_log, saved_log, to_redo, to_undo, total_weight, updated_log, with_group_closed};
ghost use Rattle.undo_log.specs.Sessions.{cache_of, file_of, has_locked_blocks, machine_of, opposite, failed_since, total_cost, IsExact, IsStep, KeepsSession};
ghost use Rattle.undo_log.specs.Turning.{Abandons, IsNotAbandoned, IsRefusedUndoOrRedo, IsSure, IsSureGroup, MovesEntry, abandon_fault, newest_made, busy_fault, no_step_fault, step_command};

mod lent_runs;
mod look_ups;
mod steps;

use crate::log::UndoLog;
use crate::making::{is_barred, make_all, make_recorded};
use crate::turning::{make_step, nothing_to_turn, take_back};
use doc_edits::look_ups::Lists;
use doc_edits::plan_large;
use document_file::Refused;
use geos_model::{ChunkHandle, Done, Edit, EditTarget, Fault, LargeEdit, Place, Target, VmHandle};
use std::alloc::Global;
use std::marker::Model;
use vm_blocks::{BlockBody, Direction, FileBlocks};
use vm_store::Store;

/// A document of a file that is edited, with what undo needs. Contracts see it as the blocks of the file with its
/// records, of which the machine of documents is a function: each call is one step of it, refused or not.
#[derive(Drop)]
pub struct Session<S: Store> {
    alloc: Global,
    blocks: FileBlocks<S>,
    log: UndoLog,
    // From which the reply to a look-up is lent: no part of what a session is.
    lists: Lists,
    // From which places are lent.
    shown: Vec<Place>,
}

impl<S: Store> Model for Session<S> {
    ghost use Rattle.undo_log.specs.Sessions.{SessionState};
    ghost use Rattle.undo_log.specs.Codes.{session_code};

    ghost Value = { SessionState S };

    ghost coded = { session_code S.code };

    ghost use Rattle.std.specs.Prelude.{◌≡◌, None};
    ghost use Rattle.chunk_edits.specs.declared.direction.Direction.TheVariants.{Backwards};
    ghost use Rattle.undo_log.specs.Logging.{to_redo, to_undo};
    ghost use Rattle.undo_log.specs.Sessions.{CanApplyBothByHandle};

    ghost view = { λ s. record {
      disk = s.blocks.disk;
      document = s.blocks.document;
      resident = s.blocks.resident;
      frames = s.blocks.frames;
      log = s.log.lists;
    } };

    ghost invariant = { λ s.
        CanApplyBothByHandle Backwards s.blocks.document (to_undo s.log.lists) (to_redo s.log.lists)
        × (s.blocks.disk.marked ≡ None) };
}

impl<S: Store> Session<S> {
    // A session of blocks of a file, none of which is in memory, with nothing to undo. The file has one directory for
    // both documents, or two.
    fn start(alloc: Global, blocks: FileBlocks<S>, one: bool) -> Session<S>
        requires { blocks.disk.marked ≡ None }
        ensures blocks { cache_of result ≡ blocks }
        ensures log { result.log ≡ fresh_log one }
        ensures exact { IsTrue (S.facts blocks.disk.store).honest → IsExact S.facts result }
    {
        blocks.reveal_invariant();
        Session {
            alloc,
            blocks,
            log: UndoLog::new(alloc, one),
            lists: Lists::new(alloc),
            shown: Vec::new(alloc),
        }
    }

    /// Makes the store an empty document file, with nothing to undo, whatever was in it; with checksums, where they are
    /// asked for. Memory, before the store is called; File.
    pub fn create(
        alloc: Global,
        store: S,
        frames: usize,
        checksums: bool,
    ) -> Result<Session<S>, Refused<S>>
        requires { (1 ≤ frames) × (frames ≤ 64) }
        ensures made { MatchResult result
            (λ session. IsMadeIn S.facts store checksums (file_of session))
            (λ refused. IsNotMade S.facts store refused.store refused.fault) }
        ensures new { IfOk result (λ session. (session.log ≡ fresh_log true) × (session.frames ≡ frames)) }
        ensures exact { IfOk result (λ session. IsTrue (S.facts store).honest → IsExact S.facts session) }
        ensures machine { IfOk result
            (λ session. (target : Bool) → machine_of target session ≡ empty_machine frames target) }
    {
        match FileBlocks::create(alloc, store, frames, checksums) {
            Ok(blocks) => Ok(Session::start(alloc, blocks, true)),
            Err(refused) => Err(refused),
        }
    }

    /// Opens the file that a store has, with its updated document as it is now and nothing to undo. Where it is refused
    /// the store comes back, and nothing was written to an honest one: NotDocument or Damaged where it has no file;
    /// Memory, File. Where a crash left the store, what is read is on the disk from then on. With checksums the next
    /// commit gives the file those, if it has none.
    pub fn open(
        alloc: Global,
        store: S,
        frames: usize,
        checksums: bool,
    ) -> Result<Session<S>, Refused<S>>
        requires { (1 ≤ frames) × (frames ≤ 64) }
        ensures opened { MatchResult result
            (λ session. IsOpenedFrom S.facts store checksums (file_of session))
            (λ refused. IsNotOpened S.facts store refused.store refused.fault) }
        ensures new { IfOk result
            (λ session. ((one : Bool) × (session.log ≡ fresh_log one)) × (session.frames ≡ frames)) }
        ensures exact { IfOk result (λ session. IsTrue (S.facts store).honest → IsExact S.facts session) }
        ensures machine { IfOk result
            (λ session. IsTrue (S.facts store).honest → (updated saved : Document) (sequence : ℕ) (target : Bool)
            → stands (S.facts store).content ≡ Ok (updated, saved) → sequence_in (S.facts store).content ≡ Some sequence
            → machine_of target session ≡ opened_machine updated saved (has_one_directory (S.facts store).content)
            sequence frames target) }
    {
        match FileBlocks::open(alloc, store, frames, checksums) {
            Ok(blocks) => {
                let one = blocks.has_one_directory();
                Ok(Session::start(alloc, blocks, one))
            }
            Err(refused) => Err(refused),
        }
    }

    /// Gives the store back. Nothing is written, also while a group is open.
    pub fn close(self) -> S
        ensures { result ≡ self.disk.store }
    {
        self.blocks.close()
    }

    /// Makes the document as it is now the updated one. GroupOpen while a group is open, and then Locked where any
    /// block is, before all else; Worn where the sequence number can't rise, before anything is written; Memory, where
    /// nothing is committed; File, where what was to be may be read after a crash.
    pub fn update(&mut self) -> Result<(), Fault>
        ensures step { IsStep S.facts self.old self.new commands.Update (reply_by (λ _. Accepted) result) }
        ensures commit { IsSessionCommit S.facts
            (self.old.document, self.old.disk.saved) self.old.document self.old self.new result }
        ensures fails { Fails S.facts
            (λ fault. IsWorn fault ⊎ IsBusy self.old fault) self.old.disk.store self.new.disk.store result }
        ensures lists { MatchResult result
            (λ _. self.new.log ≡ updated_log self.old.log)
            (λ _. self.new.log ≡ self.old.log) × (self.new.frames ≡ self.old.frames) }
        ensures resident { self.new.resident ≡ self.old.resident }
    {
        self.blocks.reveal_invariant();
        if let Some(fault) = self.busy_fault() {
            return Err(fault);
        }
        self.blocks.update()?;
        self.log.mark_updated();
        Ok(())
    }

    /// Makes the document as it is now the updated and the saved one. Refused as an update is.
    pub fn save(&mut self) -> Result<(), Fault>
        ensures step { IsStep S.facts self.old self.new commands.Save (reply_by (λ _. Accepted) result) }
        ensures commit { IsSessionCommit S.facts
            (self.old.document, self.old.document) self.old.document self.old self.new result }
        ensures fails { Fails S.facts
            (λ fault. IsWorn fault ⊎ IsBusy self.old fault) self.old.disk.store self.new.disk.store result }
        ensures lists { MatchResult result
            (λ _. self.new.log ≡ saved_log self.old.log)
            (λ _. self.new.log ≡ self.old.log) × (self.new.frames ≡ self.old.frames) }
        ensures resident { self.new.resident ≡ self.old.resident }
    {
        self.blocks.reveal_invariant();
        if let Some(fault) = self.busy_fault() {
            // Before the sequence number is looked at.
            return Err(fault);
        }
        self.blocks.save()?;
        self.log.mark_saved();
        Ok(())
    }

    /// Makes the saved document the updated one and the document as it is now, with nothing to undo. Where it is
    /// refused the document, over an honest store, and both lists stay. Refused as an update is.
    pub fn revert(&mut self) -> Result<(), Fault>
        ensures step { IsStep S.facts self.old self.new commands.Revert (reply_by (λ _. Accepted) result) }
        ensures commit { IsSessionCommit S.facts
            (self.old.disk.saved, self.old.disk.saved) self.old.disk.saved self.old self.new result }
        ensures fails { Fails S.facts
            (λ fault. IsWorn fault ⊎ IsBusy self.old fault) self.old.disk.store self.new.disk.store result }
        ensures exact { OnOk result (IsTrue (S.facts self.old.disk.store).honest → IsExact S.facts self.new) }
        ensures lists { MatchResult result
            (λ _. self.new.log ≡ reverted_log self.old.log)
            (λ _. self.new.log ≡ self.old.log) × (self.new.frames ≡ self.old.frames) }
        ensures resident { MatchResult result
            (λ _. self.new.resident ≡ [])
            (λ _. self.new.resident ≡ self.old.resident) }
    {
        self.blocks.reveal_invariant();
        if let Some(fault) = self.busy_fault() {
            return Err(fault);
        }
        self.blocks.revert()?;
        self.blocks.reveal_invariant();
        self.log.clear();
        Ok(())
    }

    /// Makes another store a file of its own, with the document as it is now as its updated and its saved one, and goes
    /// on in that. The old file goes back to its saved document, and its store comes back. Where it is refused the
    /// session stays in its file, and the target comes back, with any bytes; in the old file nothing is committed then,
    /// but where its store fails. GroupOpen while a group is open, and then Locked where any block is, before all else,
    /// and Worn where the sequence number of the old file can't rise, before anything is written; over a store that
    /// isn't honest what is read may be no image, which is Damaged; Memory, File.
    pub fn save_as(&mut self, target: S) -> Result<S, Refused<S>>
        // What is done: a step of the machine, where it is accepted into an honest target.
        ensures ok { IfOk result (λ _. IsExact S.facts self.old → IsTrue (S.facts target).honest
            → IsExact S.facts self.new
            × Step false (machine_of true self.old) (Some commands.SaveAs) Accepted (machine_of false self.new)) }
        ensures err { IfErr result (λ refused. IsExact S.facts self.old
            → IsExact S.facts self.new
            × Step (failed_since (S.facts self.old.disk.store) (S.facts self.new.disk.store) || failed_since
            (S.facts target) (S.facts refused.store))
            (machine_of true self.old) (Some commands.SaveAs) (RefusedWith refused.fault) (machine_of true self.new)) }
        ensures saved_as { MatchResult result
            (λ store. IsSavedAs S.facts target store (file_of self.old) (file_of self.new))
            (λ refused. IsSaveAsRefused S.facts target refused.store self.old self.new refused.fault) }
        // Refusals.
        ensures held { (fault : Fault) → busy_fault self.old ≡ Some fault
            → IsErrAnd result (λ refused. (refused.fault ≡ fault) × (refused.store ≡ target)) × (self.new ≡ self.old) }
        // Of the store that comes back.
        ensures reverted { IfOk result (λ store. IsTrue (S.facts self.old.disk.store).honest
            → stands (S.facts store).content ≡ Ok (self.old.disk.saved, self.old.disk.saved)) }
        // What stays.
        ensures lists { MatchResult result
            (λ _. self.new.log ≡ saved_log self.old.log)
            (λ _. self.new.log ≡ self.old.log) × (self.new.frames ≡ self.old.frames) }
        ensures resident { self.new.resident ≡ self.old.resident }
        // Refusals: Worn.
        ensures worn { IsErrAnd result (λ refused. refused.fault ≡ Fault.Worn)
            ↔ (busy_fault self.old ≡ None) × (self.old.disk.sequence ≡ last_sequence) }
    {
        self.blocks.reveal_invariant();
        if let Some(fault) = self.busy_fault() {
            return Err(Refused {
                fault,
                store: target,
            });
        }
        match self.blocks.save_as(target) {
            Ok(store) => {
                self.log.mark_saved();
                Ok(store)
            }
            Err(refused) => Err(refused),
        }
    }

    /// Makes an edit, after which nothing is left to redo. Outside of a group it is the newest step; in one it is a
    /// part of the step that the group becomes. Locked where it frees a locked block, or copies or frees a chain or
    /// changes a large array while any block is locked, before all else; CacheFull where each frame has a locked block,
    /// and it looks into the body of another one. For an edit of a user ID, of the map block or of the body of a block
    /// in memory, and for one that frees such a block, no store is called; nor, and nothing changes then, where the
    /// block isn't there or is of another kind.
    pub fn edit(&mut self, edit: &Edit) -> Result<Done, Fault>
        ensures { EditsSession S.facts edit.now self.old self.new result }
    {
        match edit.target() {
            EditTarget::One(target) => self.edit_once(target),
            EditTarget::Large(root, edit) => self.edit_large(root, edit),
        }
    }

    // Makes an edit by its one change.
    fn edit_once(&mut self, target: Target<'_>) -> Result<Done, Fault>
        ensures { EditsSession S.facts (edit_of target.entry) self.old self.new result }
    {
        self.blocks.reveal_invariant();
        if is_barred(&self.blocks, target) {
            return Err(Fault::Locked);
        }
        self.log.reserve(1)?;
        make_recorded(self.alloc, &mut self.blocks, &mut self.log, target)
    }

    // Makes one of a large array, by several.
    fn edit_large(&mut self, root: VmHandle, edit: LargeEdit<'_>) -> Result<Done, Fault>
        ensures { EditsSession S.facts (large_edit root edit.entry) self.old self.new result }
    {
        self.blocks.reveal_invariant();
        if self.blocks.has_locks() {
            return Err(Fault::Locked);
        }
        let mut changes = plan_large(self.alloc, &mut self.blocks, root, edit)?;
        self.log.reserve(changes.len())?;
        make_all(&mut self.blocks, changes.as_mut_slice())?;
        self.log.add_all(self.alloc, changes);
        Ok(Done::Nothing)
    }

    /// Goes back to the document before the newest step: an edit, or a group of edits as a whole. GroupOpen while a
    /// group is open, and then Locked where any block is, before all else; NothingToUndo. Memory or File where a block
    /// has to be brought into memory or comes in; Damaged only over a store that isn't honest, or after a save-as from
    /// one. Where with a group a block comes in under the handle of one that goes, or those that it changes don't fit
    /// into memory together, all that is changed in memory is written to the file first, and where it is refused then
    /// no block may be in memory afterwards.
    pub fn undo(&mut self) -> Result<(), Fault>
        // What is done.
        ensures step { IsStep S.facts self.old self.new commands.Undo (reply_by (λ _. Accepted) result) }
        ensures ok { OnOk result (MovesEntry S.facts Backwards (cache_of self.old)
            (cache_of self.new) self.old.log.undo self.old.log.redo self.new.log.undo self.new.log.redo) }
        ensures moved { OnOk result (self.new.log ≡ next_moved Backwards self.old.log) }
        ensures err { OnErr result (KeepsSession S.facts self.old self.new) }
        // Refusals.
        ensures refusals { IfErr result
            (IsRefusedUndoOrRedo S.facts Fault.NothingToUndo self.old.log.undo self.old self.new) }
        ensures held { (fault : Fault) → busy_fault self.old ≡ Some fault
            → (result ≡ Err fault) × (self.new ≡ self.old) }
        // What stays.
        ensures group { self.new.log.group ≡ self.old.log.group }
        ensures passes { KeepsCommitted S.facts self.old.disk self.new.disk }
        // When the answer is known beforehand.
        ensures sure { busy_fault self.old ≡ None → IsSure S.facts self.old Backwards self.old.log.undo
            → IsOk result × (self.new.disk ≡ self.old.disk)
            × (self.new.document ≡ newest_made Backwards self.old.log.undo self.old.document) }
    {
        self.turn(Direction::Backwards)
    }

    /// Makes the step again that the newest undo took back. Refused as an undo is; NothingToRedo.
    pub fn redo(&mut self) -> Result<(), Fault>
        // What is done.
        ensures step { IsStep S.facts self.old self.new commands.Redo (reply_by (λ _. Accepted) result) }
        ensures ok { OnOk result (MovesEntry S.facts Forwards (cache_of self.old)
            (cache_of self.new) self.old.log.redo self.old.log.undo self.new.log.redo self.new.log.undo) }
        ensures moved { OnOk result (self.new.log ≡ next_moved Forwards self.old.log) }
        ensures err { OnErr result (KeepsSession S.facts self.old self.new) }
        // Refusals.
        ensures refusals { IfErr result
            (IsRefusedUndoOrRedo S.facts Fault.NothingToRedo self.old.log.redo self.old self.new) }
        ensures held { (fault : Fault) → busy_fault self.old ≡ Some fault
            → (result ≡ Err fault) × (self.new ≡ self.old) }
        // What stays.
        ensures group { self.new.log.group ≡ self.old.log.group }
        ensures passes { KeepsCommitted S.facts self.old.disk self.new.disk }
        // When the answer is known beforehand.
        ensures sure { busy_fault self.old ≡ None → IsSure S.facts self.old Forwards self.old.log.redo
            → IsOk result × (self.new.disk ≡ self.old.disk)
            × (self.new.document ≡ newest_made Forwards self.old.log.redo self.old.document) }
    {
        self.turn(Direction::Forwards)
    }

    // Makes the next step in a direction: to go backwards is to undo.
    fn turn(&mut self, direction: Direction) -> Result<(), Fault>
        // What is done.
        ensures step { IsStep S.facts self.old self.new (step_command direction) (reply_by (λ _. Accepted) result) }
        ensures ok { OnOk result (MovesEntry S.facts direction (cache_of self.old) (cache_of self.new)
            (next_entries direction self.old.log) (next_entries (opposite direction) self.old.log)
            (next_entries direction self.new.log) (next_entries (opposite direction) self.new.log)) }
        ensures moved { OnOk result (self.new.log ≡ next_moved direction self.old.log) }
        ensures err { OnErr result (KeepsSession S.facts self.old self.new) }
        // Refusals.
        ensures refusals { IfErr result (IsRefusedUndoOrRedo S.facts (no_step_fault direction)
            (next_entries direction self.old.log) self.old self.new) }
        ensures held { (fault : Fault) → busy_fault self.old ≡ Some fault
            → (result ≡ Err fault) × (self.new ≡ self.old) }
        // What stays.
        ensures group { self.new.log.group ≡ self.old.log.group }
        ensures passes { KeepsCommitted S.facts self.old.disk self.new.disk }
        // When the answer is known beforehand.
        ensures sure { busy_fault self.old ≡ None
            → IsSure S.facts self.old direction (next_entries direction self.old.log)
            → IsOk result × (self.new.disk ≡ self.old.disk)
            × (self.new.document ≡ newest_made direction (next_entries direction self.old.log) self.old.document) }
    {
        self.blocks.reveal_invariant();
        if let Some(fault) = self.busy_fault() {
            // Before it is asked whether there is a step.
            return Err(fault);
        }
        match self.log.next_step(direction) {
            None => Err(nothing_to_turn(direction)),
            Some(step) => {
                make_step(&mut self.blocks, step, direction)?;
                self.log.move_next(self.alloc, direction);
                Ok(())
            }
        }
    }

    /// Opens a group: the edits from here on are one step, once it ends. GroupOpen where one is open. No memory, no
    /// store.
    pub fn begin(&mut self) -> Result<(), Fault>
        ensures step { (target : Bool) → Step false (machine_of target self.old) (Some commands.Begin)
            (reply_by (λ _. Accepted) result) (machine_of target self.new) }
        ensures ok { OnOk result ((self.old.log.group ≡ None)
            × (self.new ≡ record self.old { log = record self.old.log { group = Some [] } })) }
        ensures err { IfErr result
            (λ fault. (fault ≡ Fault.GroupOpen) × (is_some self.old.log.group ≡ true) × (self.new ≡ self.old)) }
        ensures exact { IsExact S.facts self.old → IsExact S.facts self.new }
    {
        if self.log.in_group() {
            return Err(Fault::GroupOpen);
        }
        self.log.open_group(self.alloc);
        Ok(())
    }

    /// Ends the group: its edits are the newest step. Where it has none it leaves no step, and what can be made again
    /// stays. NoGroup where none is open. No memory, no store.
    pub fn end(&mut self) -> Result<(), Fault>
        ensures step { (target : Bool) → Step false (machine_of target self.old) (Some commands.End)
            (reply_by (λ _. Accepted) result) (machine_of target self.new) }
        ensures ok { OnOk result ((is_some self.old.log.group ≡ true)
            × (self.new ≡ record self.old { log = with_group_closed self.old.log })) }
        ensures err { IfErr result
            (λ fault. (fault ≡ Fault.NoGroup) × (self.old.log.group ≡ None) × (self.new ≡ self.old)) }
        ensures exact { IsExact S.facts self.old → IsExact S.facts self.new }
    {
        if !self.log.in_group() {
            return Err(Fault::NoGroup);
        }
        self.log.close_group(self.alloc);
        Ok(())
    }

    /// Ends the group and goes back to the document before it. What can be undone stays; what could be made again stays
    /// where the group has no edit. NoGroup where none is open, and then Locked where any block is, before all else;
    /// Memory, File or Damaged as an undo of a group is, and then the group is open still. A group without an edit
    /// takes no memory and calls no store.
    pub fn abandon(&mut self) -> Result<(), Fault>
        // What is done.
        ensures step { IsStep S.facts self.old self.new commands.Abandon (reply_by (λ _. Accepted) result) }
        ensures ok { OnOk result (Abandons S.facts self.old self.new) }
        ensures err { OnErr result (KeepsSession S.facts self.old self.new) }
        // Refusals.
        ensures refusals { IfErr result (IsNotAbandoned S.facts self.old self.new) }
        ensures held { (fault : Fault) → abandon_fault self.old ≡ Some fault
            → (result ≡ Err fault) × (self.new ≡ self.old) }
        // What stays.
        ensures passes { KeepsCommitted S.facts self.old.disk self.new.disk }
        // When the answer is known beforehand.
        ensures empty { abandon_fault self.old ≡ None → self.old.log.group ≡ Some []
            → IsOk result × (self.new ≡ record self.old { log = abandoned_log self.old.log }) }
        ensures sure { abandon_fault self.old ≡ None
            → IsSureGroup S.facts self.old Backwards (open_changes self.old.log.group)
            → IsOk result × (self.new.disk ≡ self.old.disk)
            × (self.new.document ≡ before self.old.log.group self.old.document) }
    {
        self.blocks.reveal_invariant();
        self.log.reveal_invariant();
        if let Some(fault) = self.abandon_fault() {
            return Err(fault);
        }
        take_back(&mut self.blocks, self.log.group())?;
        self.log.abandon_group();
        Ok(())
    }

    /// Whether a group is open.
    pub fn in_group(&self) -> bool
        ensures value { result ≡ is_some self.now.log.group }
        ensures machine { (target : Bool) → result ≡ is_some (machine_of target self.now).group }
    {
        self.log.in_group()
    }

    // What keeps a commit, an undo or a redo from being tried.
    fn busy_fault(&self) -> Option<Fault>
        ensures is { result ≡ busy_fault self.now }
        ensures unlocked { result ≡ None → nat_lt 0 (locked_count self.now.resident) ≡ false }
    {
        if self.log.in_group() {
            Some(Fault::GroupOpen)
        } else if self.has_locks() {
            Some(Fault::Locked)
        } else {
            None
        }
    }

    // What keeps a group from being abandoned.
    fn abandon_fault(&self) -> Option<Fault>
        ensures is { result ≡ abandon_fault self.now }
        ensures unlocked { result ≡ None → nat_lt 0 (locked_count self.now.resident) ≡ false }
    {
        if !self.log.in_group() {
            Some(Fault::NoGroup)
        } else if self.has_locks() {
            Some(Fault::Locked)
        } else {
            None
        }
    }

    /// How many steps can be undone. A group that is open is none yet.
    pub fn undo_count(&self) -> usize
        ensures records { result ≡ length self.now.log.undo }
        ensures past { (target : Bool) → result ≡ length (machine_of target self.now).past }
    {
        self.log.undo_count()
    }

    /// How many steps can be redone.
    pub fn redo_count(&self) -> usize
        ensures records { result ≡ length self.now.log.redo }
        ensures future { (target : Bool) → result ≡ length (machine_of target self.now).future }
    {
        self.log.redo_count()
    }

    /// It does nothing: its caller learns that each document of the machine of an exact session is valid, as it always
    /// is, that its locks are, what a crash now leaves, and that nothing is left to redo while the open group has an
    /// edit. What a store that isn't honest has isn't known, but for handles and the map block.
    pub fn reveal_invariant(&self)
        ensures machine { IsExact S.facts self.now → (target : Bool) → IsValidMachine (machine_of target self.now) }
        ensures locks { (target : Bool) → AreValidLocks (machine_of target self.now) }
        ensures listed { IsFileDocument (S.facts self.now.disk.store).honest self.now.document }
        ensures crash_consistent { IsCrashConsistent S.facts self.now.disk }
        ensures group { AreExclusive (open_changes self.now.log.group) self.now.log.redo }
        ensures few { length self.now.resident ≤ self.now.frames }
    {
        self.blocks.reveal_invariant();
        self.log.reveal_invariant();
    }

    /// How many content bytes the records of undo, redo and an open group hold, 2^64 - 1 where these are more. What is
    /// still told of a group that was abandoned, or of a step that was forgotten, isn't counted.
    pub fn weight(&self) -> u64
        ensures exact { result
            ≡ min (total_weight (to_undo self.now.log) + total_weight (to_redo self.now.log)) (2 ^ 64 - 1) }
        ensures charged { (target : Bool) → result ≤ total_cost (machine_of target self.now).past + total_cost
            (machine_of target self.now).future + option_map_or (λ g. g.cost) (machine_of target self.now).group 0 }
    {
        self.log.weight()
    }

    /// Locks a block once more. It is brought into memory, and stays there until it is unlocked as often. NoBlock;
    /// LockLimit where it is locked 255 times; CacheFull where each frame has a locked block, and it isn't one of them:
    /// then nothing changes. Otherwise refused as a look-up into it is.
    pub fn lock(&mut self, block: VmHandle) -> Result<(), Fault>
        // What is done.
        ensures step { IsStep S.facts self.old self.new (commands.Lock block) (reply_by (λ _. Accepted) result) }
        ensures ok { OnOk result (GainsLock S.facts block.0 (cache_of self.old) (cache_of self.new)) }
        ensures err { OnErr result (KeepsSession S.facts self.old self.new) }
        // Refusals.
        ensures refusals { IfErr result
            (λ fault. IsEnvironmentFault S.facts self.old.disk.store self.new.disk.store fault
            ⊎ CantLock (cache_of self.old) block.0 fault) }
        ensures early { (fault : Fault) → CantLock (cache_of self.old) block.0 fault
            → (result ≡ Err fault) × (self.new ≡ self.old) }
        // What stays.
        ensures log { self.new.log ≡ self.old.log }
        // When the answer is known beforehand.
        ensures already { is_loaded (cache_of self.old) block.0 ≡ true → locks_of self.old.resident block.0 < 255
            → IsOk result × (self.new.disk ≡ self.old.disk) × (self.new.document ≡ self.old.document) }
    {
        self.blocks.reveal_invariant();
        self.blocks.lock(block)
    }

    /// Takes one lock of a block away. NoBlock; NotLocked where it has none. No memory, no store.
    pub fn unlock(&mut self, block: VmHandle) -> Result<(), Fault>
        ensures step { (target : Bool) → Step false (machine_of target self.old) (Some (commands.Unlock block))
            (reply_by (λ _. Accepted) result) (machine_of target self.new) }
        ensures ok { OnOk result (LosesLock block.0 (cache_of self.old) (cache_of self.new)) }
        ensures err { OnErr result (self.new ≡ self.old) }
        ensures refusals { IfErr result (HasNoLock (cache_of self.old) block.0) }
        // but for the locks
        ensures same { self.new ≡ record self.old { resident = self.new.resident } }
    {
        self.blocks.unlock(block)
    }

    /// Has a locked block written to the file by the next commit, as one that was edited is. NoBlock; NotLocked where
    /// it isn't locked. No memory, no store.
    pub fn dirty(&mut self, block: VmHandle) -> Result<(), Fault>
        ensures step { (target : Bool) → Step false (machine_of target self.old) (Some (commands.Dirty block))
            (reply_by (λ _. Accepted) result) (machine_of target self.new) }
        ensures refusals { IfErr result (HasNoLock (cache_of self.old) block.0) }
        ensures same { self.new ≡ self.old }
    {
        self.blocks.dirty(block)
    }

    /// How often a block is locked. NoBlock.
    pub fn locks(&self, block: VmHandle) -> Result<u8, Fault>
        ensures { (target : Bool) → Step false (machine_of target self.now) (Some (commands.Locks block))
            (reply_by NumberIs result) (machine_of target self.now) }
    {
        if self.blocks.is_live(block) {
            Ok(self.blocks.locks(block))
        } else {
            Err(Fault::NoBlock)
        }
    }

    /// Whether any block is locked, so that commits, undo, redo, abandon and edits of chains are refused.
    pub fn has_locks(&self) -> bool
        ensures value { result ≡ has_locked_blocks self.now }
        ensures machine { (target : Bool) → result ≡ machine_has_locks (machine_of target self.now) }
        ensures blocks { result ≡ nat_lt 0 (locked_count self.now.resident) }
    {
        self.blocks.reveal_invariant();
        self.blocks.has_locks()
    }

    /// The bytes of a chunk of a heap that is locked, straight from memory; None where there is no such block, lock or
    /// chunk, or the block is raw.
    pub fn locked_chunk(&self, block: VmHandle, chunk: ChunkHandle) -> Option<&[u8]>
        ensures { (target : Bool)
            → option_map (λ bytes. bytes.now) result ≡ locked_chunk (machine_of target self.now) block.0 chunk.0 }
    {
        match self.locked_body(block)? {
            BlockBody::Heap(heap) => heap.chunk(chunk),
            BlockBody::Raw(_) => None,
        }
    }

    /// The bytes of a raw block that is locked, straight from memory; None where there is no such block or lock, or it
    /// is a heap.
    pub fn locked_raw(&self, block: VmHandle) -> Option<&[u8]>
        ensures { (target : Bool)
            → option_map (λ bytes. bytes.now) result ≡ locked_raw (machine_of target self.now) block.0 }
    {
        match self.locked_body(block)? {
            BlockBody::Raw(body) => Some(body.bytes()),
            BlockBody::Heap(_) => None,
        }
    }

    // The body of a block that is locked.
    fn locked_body(&self, block: VmHandle) -> Option<&BlockBody>
        ensures { MatchOption result (locks_of self.now.resident block.0 ≡ 0)
            (λ body. (0 < locks_of self.now.resident block.0)
            × (option_map (λ b. b.body) (get self.now.document.blocks block.0) ≡ Some (body_value body.now))) }
    {
        self.blocks.reveal_invariant();
        if self.blocks.locks(block) > 0 {
            Some(self.blocks.body(block))
        } else {
            None
        }
    }

    /// Whether a block is in memory.
    pub fn is_resident(&self, block: VmHandle) -> bool
        ensures { result ≡ is_loaded (cache_of self.now) block.0 }
    {
        self.blocks.is_resident(block)
    }
}
