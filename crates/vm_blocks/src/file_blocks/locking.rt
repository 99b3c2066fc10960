//! Locks of blocks, which keep them in memory.
ghost use Rattle.std.specs.Prelude.{◌≡◌, ◌⊎◌, ◌<◌, ◌+◌, ◌-◌, ◌^◌, ◌==◌, if◌then◌else◌, Err, true, IsOk, IfErr, OnOk, OnErr, nat_eq};
ghost use Rattle.std.specs.Map.{set_value};
ghost use Rattle.vm_blocks.specs.State.{locks_of};
ghost use Rattle.vm_blocks.specs.Keeping.{KeepsBlocks, IsEnvironmentFault, is_loaded};
ghost use Rattle.vm_blocks.specs.Locking.{GainsLock, LosesLock, CantLock, HasNoLock};

use super::FileBlocks;
use crate::frame::{lock, locks_of, mark, unlock};
use geos_model::{Fault, VmHandle};
use vm_store::Store;

impl<S: Store> FileBlocks<S> {
    /// One more lock of a block. It is brought into memory, and stays there until its last lock is taken away. NoBlock
    /// where it isn't live; LockLimit where it is locked 255 times; CacheFull where each frame has a locked block, and
    /// it isn't one of them: then nothing changes. Otherwise refused as `load` is.
    pub fn lock(&mut self, handle: VmHandle) -> Result<(), Fault>
        ensures ok { OnOk result (GainsLock S.facts handle.0 self.old self.new) }
        ensures err { OnErr result (KeepsBlocks S.facts self.old self.new) }
        ensures refusals { IfErr result
            (λ fault. IsEnvironmentFault S.facts self.old.disk.store self.new.disk.store fault
            ⊎ CantLock self.old handle.0 fault) }
        ensures early { (fault : Fault) → CantLock self.old handle.0 fault
            → (result ≡ Err fault) × (self.new ≡ self.old) }
        ensures already { is_loaded self.old handle.0 ≡ true → locks_of self.old.resident handle.0 < 255
            → IsOk result × (self.new.disk ≡ self.old.disk) × (self.new.document ≡ self.old.document) }
    {
        if !self.is_live(handle) {
            return Err(Fault::NoBlock);
        }
        if self.locks(handle) == u8::MAX {
            return Err(Fault::LockLimit);
        }
        self.load_live(handle)?;
        self.lock_loaded(handle);
        Ok(())
    }

    // One more lock of a block in memory.
    fn lock_loaded(&mut self, handle: VmHandle)
        requires loaded { is_loaded self.old handle.0 ≡ true }
        requires few { locks_of self.old.resident handle.0 < 255 }
        ensures { self.new ≡ record self.old {
          resident = set_value (nat_eq handle.0) self.old.resident
              (locks_of self.old.resident handle.0 + 1);
        } }
    {
        let _count = self.frames.len();
        self.locked = count_with_lock(self.locked, locks_of(&self.frames, handle.0));
        lock(&mut self.frames, handle.0);
    }

    /// One lock of a block less; with the last one it may go from memory again. NoBlock where it isn't live, NotLocked
    /// where it isn't locked: then nothing changes. No memory, no store.
    pub fn unlock(&mut self, handle: VmHandle) -> Result<(), Fault>
        ensures ok { OnOk result (LosesLock handle.0 self.old self.new) }
        ensures err { OnErr result (self.new ≡ self.old) }
        ensures refusals { IfErr result (HasNoLock self.old handle.0) }
        ensures early { (fault : Fault) → HasNoLock self.old handle.0 fault → result ≡ Err fault }
    {
        self.check_lock(handle)?;
        self.locked = count_without_lock(self.locked, locks_of(&self.frames, handle.0));
        unlock(&mut self.frames, handle.0);
        Ok(())
    }

    /// Has a locked block written to the file with the next update, save or save-as, or when it goes from memory, as
    /// one that was changed is. Nothing that a caller sees changes. NoBlock where it isn't live, NotLocked where it
    /// isn't locked. No memory, no store.
    pub fn dirty(&mut self, handle: VmHandle) -> Result<(), Fault>
        ensures same { self.new ≡ self.old }
        ensures ok { OnOk result (0 < locks_of self.old.resident handle.0) }
        ensures refusals { IfErr result (HasNoLock self.old handle.0) }
        ensures early { (fault : Fault) → HasNoLock self.old handle.0 fault → result ≡ Err fault }
    {
        self.check_lock(handle)?;
        mark(&mut self.frames, handle.0, true);
        Ok(())
    }

    // NoBlock where a block isn't live, NotLocked where it isn't locked.
    fn check_lock(&self, handle: VmHandle) -> Result<(), Fault>
        ensures ok { OnOk result (0 < locks_of self.now.resident handle.0) }
        ensures err { IfErr result (HasNoLock self.now handle.0) }
        ensures early { (fault : Fault) → HasNoLock self.now handle.0 fault → result ≡ Err fault }
    {
        if !self.is_live(handle) {
            return Err(Fault::NoBlock);
        }
        if self.locks(handle) == 0 {
            return Err(Fault::NotLocked);
        }
        Ok(())
    }
}

// How many blocks are locked once one that has so many locks gets one more.
fn count_with_lock(locked: usize, locks: u8) -> usize
    requires { locked < 2 ^ 63 }
    ensures { result ≡ (if locks == 0 then locked + 1 else locked) }
{
    if locks == 0 { locked + 1 } else { locked }
}

// How many blocks are locked once one that has so many locks loses one.
fn count_without_lock(locked: usize, locks: u8) -> usize
    requires { 0 < locked }
    ensures { result ≡ (if locks == 1 then locked - 1 else locked) }
{
    if locks == 1 { locked - 1 } else { locked }
}
