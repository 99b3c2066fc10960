//! Commits, and a save-as.
ghost use Rattle.std.specs.Prelude.{◌≡◌, ◌↔◌, [], OnOk, OnErr, MatchResult};
ghost use Rattle.std.specs.Result.{IsErrAnd};
ghost use Rattle.document_file.specs.Calls.{last_sequence};
ghost use Rattle.document_file.specs.Effects.{IsCommit, Fails, IsWorn};
ghost use Rattle.vm_blocks.specs.State.{as_file};
ghost use Rattle.vm_blocks.specs.SavingAs.{IsSavedAs, IsNotSavedAs};

use super::FileBlocks;
use crate::frame::mark_all;
use crate::transfers::{begin_commit, flush};
use document_file::Refused;
use geos_model::Fault;
use std::mem::replace;
use vm_store::Store;

impl<S: Store> FileBlocks<S> {
    /// Makes the document as it is now the updated one. The blocks in memory stay there, with their locks. Worn where
    /// the sequence number can't rise, before anything is written; Memory, where nothing is committed; File, where what
    /// was to be may be read after a crash.
    pub fn update(&mut self) -> Result<(), Fault>
        ensures commit { IsCommit S.facts (self.old.document, self.old.disk.saved) self.old.document
            (as_file self.old) (as_file self.new) result }
        ensures fails { Fails S.facts IsWorn self.old.disk.store self.new.disk.store result }
        ensures resident { (self.new.resident ≡ self.old.resident) × (self.new.frames ≡ self.old.frames) }
    {
        begin_commit(self.alloc, &mut self.file, &mut self.frames)?;
        self.file.commit_update()
    }

    /// Makes the document as it is now the updated and the saved one. Refused as an update is.
    pub fn save(&mut self) -> Result<(), Fault>
        ensures commit { IsCommit S.facts (self.old.document, self.old.document) self.old.document
            (as_file self.old) (as_file self.new) result }
        ensures fails { Fails S.facts IsWorn self.old.disk.store self.new.disk.store result }
        ensures resident { (self.new.resident ≡ self.old.resident) × (self.new.frames ≡ self.old.frames) }
    {
        begin_commit(self.alloc, &mut self.file, &mut self.frames)?;
        self.file.commit_save()
    }

    /// Makes the saved document the updated one and the document as it is now; no block is in memory then, or locked.
    /// Where it is refused, as an update is, those in memory stay.
    pub fn revert(&mut self) -> Result<(), Fault>
        ensures commit { IsCommit S.facts (self.old.disk.saved, self.old.disk.saved) self.old.disk.saved
            (as_file self.old) (as_file self.new) result }
        ensures fails { Fails S.facts IsWorn self.old.disk.store self.new.disk.store result }
        ensures ok { OnOk result (self.new.resident ≡ []) }
        ensures err { OnErr result (self.new.resident ≡ self.old.resident) }
        ensures frames { self.new.frames ≡ self.old.frames }
    {
        self.file.reveal_invariant();
        self.file.commit_revert()?;
        self.frames.clear();
        self.locked = 0;
        Ok(())
    }

    /// Makes the target a file of its own of the document as it is now, and goes on in that, with the same blocks in
    /// memory. The file so far goes back to its saved document, and its store comes back. Where it is refused the file
    /// stays, and the target comes back, with any bytes; nothing is committed then, but where the store of the old file
    /// fails. Worn, before anything is written; Damaged where what is read is no image, which an honest store never
    /// gives; Memory, File.
    pub fn save_as(&mut self, target: S) -> Result<S, Refused<S>>
        ensures saved_as { MatchResult result
            (λ store. IsSavedAs S.facts target store (as_file self.old) (as_file self.new))
            (λ refused. IsNotSavedAs S.facts target refused.store (as_file self.old) (as_file self.new) refused.fault) }
        ensures worn { IsErrAnd result (λ refused. refused.fault ≡ Fault.Worn)
            ↔ self.old.disk.sequence ≡ last_sequence }
        ensures resident { (self.new.resident ≡ self.old.resident) × (self.new.frames ≡ self.old.frames) }
    {
        self.file.reveal_invariant();
        if self.file.is_worn() {
            return Err(Refused {
                fault: Fault::Worn,
                store: target,
            });
        }
        if let Err(fault) = flush(self.alloc, &mut self.file, &mut self.frames) {
            return Err(Refused {
                fault,
                store: target,
            });
        }
        let copied = self.file.copy_to(target)?;
        copied.reveal_invariant();
        if let Err(fault) = self.file.commit_revert() {
            return Err(Refused {
                fault,
                store: copied.close(),
            });
        }
        // Where a store isn't honest the copy may have other bodies than are in memory.
        mark_all(&mut self.frames);
        Ok(replace(&mut self.file, copied).close())
    }
}
