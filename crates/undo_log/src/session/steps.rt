//! Steps that are joined or forgotten, and whether the document is a committed one.
ghost use Rattle.std.specs.Prelude.{◌≡◌, ◌≢◌, ◌⊎◌, Bool, [], length, Some, None, Err, IfErr, MatchResult};
ghost use Rattle.geos_model.specs.Reply.{Accepted, reply_by};
ghost use Rattle.geos_model.specs.Machine.{stands_as, with_undo_limit};
ghost use Rattle.geos_model.specs.Standing.{is_as_saved, is_as_updated};
ghost use Rattle.geos_model.specs.declared.command.Command.TheVariants as commands;
ghost use Rattle.undo_log.specs.Logging.{forgotten_log, is_at, joined_log, named_log};
ghost use Rattle.undo_log.specs.Sessions.{machine_of, IsStep};
ghost use Rattle.undo_log.specs.Turning.{join_fault, name_fault};

use super::Session;
use geos_model::{Fault, LONGEST_NAME};
use vm_store::Store;

impl<S: Store> Session<S> {
    /// Makes the newest two steps one, which is undone as a group of their edits is. What can be redone stays.
    /// GroupOpen while a group is open, before all else; NothingToUndo where there are fewer than two; Memory. No store
    /// is called.
    pub fn join(&mut self) -> Result<(), Fault>
        // What is done.
        ensures step { IsStep S.facts self.old self.new commands.Join (reply_by (λ _. Accepted) result) }
        ensures done { MatchResult result
            (λ _. self.new ≡ record self.old { log = joined_log self.old.log })
            (λ _. self.new ≡ self.old) }
        // Refusals.
        ensures refusals { IfErr result (λ fault. (join_fault self.old ≡ Some fault)
            ⊎ ((join_fault self.old ≡ None) × (fault ≡ Fault.Memory))) }
        ensures held { (fault : Fault) → join_fault self.old ≡ Some fault → result ≡ Err fault }
    {
        if let Some(fault) = self.join_fault() {
            return Err(fault);
        }
        self.log.join(self.alloc)?;
        Ok(())
    }

    // What keeps two steps from being joined.
    fn join_fault(&self) -> Option<Fault>
        ensures { result ≡ join_fault self.now }
    {
        if self.log.in_group() {
            Some(Fault::GroupOpen)
        } else if self.log.undo_count() < 2 {
            Some(Fault::NothingToUndo)
        } else {
            None
        }
    }

    /// Gives the newest step to be undone a name, in place of the one that it has, for a menu's "Undo Typing": at most
    /// 64 bytes, which mean nothing here. With no bytes it has none. The name goes with the step through undo, redo and
    /// join. GroupOpen while a group is open, before all else; NothingToUndo; TooBig; Memory. No store is called, and
    /// without bytes no memory is taken.
    pub fn name_step(&mut self, name: &[u8]) -> Result<(), Fault>
        // What is done.
        ensures step { IsStep S.facts self.old self.new (commands.Name name.now) (reply_by (λ _. Accepted) result) }
        ensures done { MatchResult result
            (λ _. self.new ≡ record self.old { log = named_log name.now self.old.log })
            (λ _. self.new ≡ self.old) }
        // Refusals.
        ensures refusals { IfErr result (λ fault. (name_fault (length name.now) self.old ≡ Some fault)
            ⊎ ((name_fault (length name.now) self.old ≡ None) × (name.now ≢ []) × (fault ≡ Fault.Memory))) }
        ensures held { (fault : Fault) → name_fault (length name.now) self.old ≡ Some fault → result ≡ Err fault }
    {
        if let Some(fault) = self.name_fault(name.len()) {
            return Err(fault);
        }
        self.log.name_newest(self.alloc, name)?;
        Ok(())
    }

    // What keeps the newest step from having a name of so many bytes.
    fn name_fault(&self, len: usize) -> Option<Fault>
        ensures { result ≡ name_fault len self.now }
    {
        if self.log.in_group() {
            Some(Fault::GroupOpen)
        } else if self.log.undo_count() == 0 {
            Some(Fault::NothingToUndo)
        } else if len > LONGEST_NAME {
            Some(Fault::TooBig)
        } else {
            None
        }
    }

    /// Forgets the oldest steps, so that no more than so many can be undone, also while a group is open. What can be
    /// redone stays. No memory, no store.
    pub fn forget(&mut self, most: u32)
        ensures step { IsStep S.facts self.old self.new (commands.Forget most) Accepted }
        ensures done { self.new ≡ record self.old { log = forgotten_log most self.old.log } }
    {
        self.log.forget(self.alloc, most);
    }

    /// From the next step on no more than so many can be undone, or all. No memory, no store.
    pub fn limit_undo(&mut self, most: Option<u32>)
        ensures done { self.new ≡ record self.old { log = record self.old.log { limit = most } } }
        ensures machine { (target : Bool)
            → machine_of target self.new ≡ with_undo_limit most (machine_of target self.old) }
    {
        self.log.set_limit(most);
    }

    /// Whether the document is the saved one, as far as the steps between tell: where this says so, a revert would
    /// leave it. Where steps were joined or forgotten since, it may be the same, and this doesn't say so.
    pub fn is_saved(&self) -> bool
        ensures value { result ≡ is_at self.now.log.saved_at self.now.log }
        ensures machine { (target : Bool) → result ≡ is_as_saved (machine_of target self.now) }
    {
        self.log.is_saved()
    }

    /// Whether the document is the updated one, which opening the file gives, as far as the steps between tell.
    pub fn is_updated(&self) -> bool
        ensures value { result ≡ is_at self.now.log.updated_at self.now.log }
        ensures machine { (target : Bool) → result ≡ is_as_updated (machine_of target self.now) }
    {
        self.log.is_updated()
    }

    // 1 where the document is as it was saved, and 2 more where it is as it was updated.
    pub(super) fn stands_as(&self) -> u64
        ensures { (target : Bool) → result ≡ stands_as (machine_of target self.now) }
    {
        let saved: u64 = if self.is_saved() { 1 } else { 0 };
        let updated: u64 = if self.is_updated() { 2 } else { 0 };
        saved + updated
    }
}
