//! Elements of large arrays that are lent where they lie.
ghost use Rattle.undo_log.specs.LockedRuns.{LocksRun};

use super::Session;
use doc_edits::prepare_run;
use geos_model::{Fault, VmHandle};
use large_arrays::RunPlace;
use vm_store::Store;

impl<S: Store> Session<S> {
    /// Locks the block of a large array that has an element, once more, and tells where that element and those behind
    /// it stand there, to the block's end: `locked_raw` lends its bytes until it is unlocked. NoBlock, WrongKind; then
    /// CacheFull where each frame has a locked block: with these nothing changes; NotArray, NoElement; Range where
    /// elements vary in size; BadChain; LockLimit where the block is locked 255 times. Memory, File or Damaged may come
    /// in place of what follows CacheFull.
    pub fn lock_run(&mut self, root: VmHandle, i: u32) -> Result<RunPlace, Fault>
        ensures { LocksRun S.facts root.0 i self.old self.new result }
    {
        self.blocks.reveal_invariant();
        let place = prepare_run(&mut self.blocks, root, i)?;
        self.blocks.reveal_invariant();
        self.blocks.lock(place.block)?;
        Ok(place)
    }
}
