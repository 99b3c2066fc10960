//! Changes of the document, in either direction.
ghost use Rattle.std.specs.Prelude.{◌≡◌, ◌≢◌, [], Some, None, Err, true, is_some, IsTrue, IsOk, IfErr, IfSome, OnOk, OnErr};
ghost use Rattle.std.specs.List.{All};
ghost use Rattle.geos_model.specs.Document.{IsValid, block_at, is_heap, is_live, handles_of, with_attributes, without_block, without_blocks};
ghost use Rattle.document_file.specs.Disk.{KeepsCommitted, unmarked};
ghost use Rattle.document_file.specs.Effects.{Fails, NoFault};
ghost use Rattle.document_file.specs.Members.{imaged_blocks};
ghost use Rattle.vm_blocks.specs.State.{locks_of, locked_count, KeepsDocument, KeepsLocks, Marks};
ghost use Rattle.vm_blocks.specs.Changes.{attributes_for_kind, after_change, after_part, directed, directed_all, directed_part, incoming_blocks, AreFree};
ghost use Rattle.vm_blocks.specs.InPlace.{TriesPart, TriesPartInMemory};
ghost use Rattle.vm_blocks.specs.Keeping.{KeepsBlocks, IsEnvironmentFault, is_loaded};
ghost use Rattle.vm_blocks.specs.Parts.{AllowsPart};
ghost use Rattle.vm_blocks.specs.Preparing.{after_changes, CanRemoveByHandle, CanApplyAll, CanApplyByHandle, CanCarryOut, CanApplyAllByHandle, AreInMemory, NoneComesIn, AreUnlocked, AllowsChange, IsInMemory, IsShutOut, CantPrepare, CantPrepareAll, IsApplied, AreApplied, AppliesChange};

use super::FileBlocks;
use crate::frame::change_part_in_frame;
use crate::in_memory::{Obstacle, change_in_memory};
use crate::transfers::flush;
use crate::{Change, Direction, Members, PartChange};
use geos_model::{Attributes, Fault, VmHandle};
use vm_store::Store;

impl<S: Store> FileBlocks<S> {
    /// Makes a change, in the direction. Where the body of a block changes, that block is brought into memory; Damaged
    /// where its body doesn't take the change, and CacheFull where each frame has a locked block, and it isn't one of
    /// them. Blocks that come in are written to the file, all or none; those that go aren't locked. Otherwise refused
    /// as `load` is. Where no block comes in, and the one that changes is in memory, it takes no memory, calls no store
    /// and isn't refused for want of either.
    pub fn change(&mut self, change: &Change, direction: Direction) -> Result<(), Fault>
        // Asked of the caller.
        requires listed { CanApplyByHandle (directed direction change.now) self.old.document }
        requires unlocked { AreUnlocked (directed direction change.now) self.old.resident }
        // What is done.
        ensures ok { OnOk result (IsApplied S.facts (directed direction change.now) self.old self.new) }
        ensures err { OnErr result (KeepsBlocks S.facts self.old self.new) }
        // Refusals.
        ensures refusals { IfErr result (CantPrepare S.facts (directed direction change.now) self.old self.new) }
        // When the answer is known beforehand.
        ensures sure { incoming_blocks (directed direction change.now) ≡ []
            → IsInMemory (directed direction change.now) self.old
            → AllowsChange (directed direction change.now) self.old.document
            → IsOk result × (self.new.disk ≡ self.old.disk)
            × (self.new.document ≡ after_change (directed direction change.now) self.old.document) }
        ensures shut { IsShutOut (directed direction change.now) self.old
            → (result ≡ Err Fault.CacheFull) × (self.new ≡ self.old) }
    {
        self.turn(change, direction)
    }

    /// Makes a change that can be made as things are, as the plan of an edit has just seen: the block whose body
    /// changes is in memory, and takes it, so that neither is looked at again. It isn't refused but where blocks come
    /// in, which are written to the file, all or none: Memory, File.
    pub fn carry_out(&mut self, change: &Change) -> Result<(), Fault>
        // Asked of the caller.
        requires ready { CanCarryOut change.now self.old }
        requires unlocked { AreUnlocked change.now self.old.resident }
        // What is done.
        ensures ok { OnOk result (IsApplied S.facts change.now self.old self.new) }
        ensures err { OnErr result (KeepsBlocks S.facts self.old self.new) }
        // Refusals.
        ensures refusals { IfErr result (IsEnvironmentFault S.facts self.old.disk.store self.new.disk.store) }
        // When the answer is known beforehand.
        ensures sure { incoming_blocks change.now ≡ [] → IsOk result × (self.new.disk ≡ self.old.disk)
            × (self.new.document ≡ after_change change.now self.old.document) }
    {
        self.reveal_invariant();
        match change {
            Change::Part(handle, part) => self.carry_out_loaded(*handle, part),
            _ => self.turn(change, Direction::Forwards),
        }
    }

    /// Carries changes out in a direction one after another, the last one first: all of them or none. Blocks that come
    /// in are written to the file before all else, and those whose bodies change are brought into memory; where none
    /// comes in, and these are there, it takes no memory, calls no store and isn't refused for want of either, if what
    /// goes stands there. What else is changed in memory is first written to the file only where the changes can't be
    /// carried out so: a block comes in under the handle of one that goes, those whose bodies change don't fit into
    /// memory together, or what goes doesn't stand there; where it is refused after that no block is in memory. Damaged
    /// where a body doesn't take its change; otherwise refused as `load` is, but never CacheFull.
    pub fn change_all(&mut self, changes: &[Change], direction: Direction) -> Result<(), Fault>
        // Asked of the caller.
        requires unmarked { self.old.disk.marked ≡ None }
        requires listed { CanApplyAllByHandle (directed_all direction changes.now) self.old.document }
        requires unlocked { locked_count self.old.resident ≡ 0 }
        // What is done.
        ensures ok { OnOk result (AreApplied S.facts (directed_all direction changes.now) self.old self.new) }
        ensures err { OnErr result (KeepsBlocks S.facts self.old self.new) }
        // Refusals.
        ensures refusals { IfErr result
            (CantPrepareAll S.facts (directed_all direction changes.now) self.old self.new) }
        // When the answer is known beforehand.
        ensures sure { NoneComesIn (directed_all direction changes.now)
            → AreInMemory (directed_all direction changes.now) self.old
            → CanApplyAll (directed_all direction changes.now) self.old.document
            → IsOk result × (self.new.disk ≡ self.old.disk)
            × (self.new.document ≡ after_changes (directed_all direction changes.now) self.old.document) }
    {
        match change_in_memory(self, changes, direction) {
            Ok(()) => Ok(()),
            Err(Obstacle::Fault(fault)) => Err(fault),
            Err(Obstacle::NotInMemory) => self.change_marked(changes, direction),
        }
    }

    // So it does where the document is marked first, which writes what is changed in memory to the file.
    fn change_marked(&mut self, changes: &[Change], direction: Direction) -> Result<(), Fault>
        requires unmarked { self.old.disk.marked ≡ None }
        requires listed { CanApplyAllByHandle (directed_all direction changes.now) self.old.document }
        requires unlocked { locked_count self.old.resident ≡ 0 }
        ensures ok { OnOk result (AreApplied S.facts (directed_all direction changes.now) self.old self.new) }
        ensures err { OnErr result (KeepsBlocks S.facts self.old self.new) }
        ensures refusals { IfErr result
            (CantPrepareAll S.facts (directed_all direction changes.now) self.old self.new) }
    {
        self.reveal_invariant();
        self.mark()?;
        match self.turn_all(changes, direction) {
            Ok(()) => {
                self.release();
                Ok(())
            }
            Err(fault) => {
                self.roll_back();
                Err(fault)
            }
        }
    }

    // Marks the document as it is now, so that `roll_back` can bring it back: what is changed in memory is written to
    // the file first. The blocks in memory stay there. Memory, File: then no document is marked.
    fn mark(&mut self) -> Result<(), Fault>
        requires { self.old.disk.marked ≡ None }
        ensures ok { OnOk result (Marks S.facts self.old self.new) }
        ensures err { OnErr result (KeepsDocument S.facts self.old self.new) }
        ensures resident { self.new.resident ≡ self.old.resident }
        ensures fails { Fails S.facts NoFault self.old.disk.store self.new.disk.store result }
    {
        flush(self.alloc, &mut self.file, &mut self.frames)?;
        self.file.mark()?;
        Ok(())
    }

    // Makes the marked document the one as it is now: none is marked and no block is in memory then. No memory, no
    // store.
    fn roll_back(&mut self)
        requires marked { is_some self.old.disk.marked ≡ true }
        requires valid { IfSome self.old.disk.marked (λ d. IsTrue (S.facts self.old.disk.store).honest → IsValid d) }
        ensures document { Some self.new.document ≡ self.old.disk.marked }
        ensures disk { self.new.disk ≡ unmarked self.old.disk }
        ensures empty { (self.new.resident ≡ []) × (self.new.frames ≡ self.old.frames) }
    {
        self.frames.clear();
        self.locked = 0;
        self.file.roll_back();
    }

    // Forgets the marked document, if one is. No memory, no store.
    fn release(&mut self)
        ensures { self.new ≡ record self.old { disk = unmarked self.old.disk } }
    {
        self.file.release();
    }

    // Carries changes out in a direction one after another, the last one first, until one is refused.
    fn turn_all(&mut self, changes: &[Change], direction: Direction) -> Result<(), Fault>
        // Asked of the caller.
        requires listed { CanApplyAllByHandle (directed_all direction changes.now) self.old.document }
        requires unlocked { locked_count self.old.resident ≡ 0 }
        // What is done.
        ensures ok { OnOk result (AreApplied S.facts (directed_all direction changes.now) self.old self.new) }
        ensures passes { KeepsCommitted S.facts self.old.disk self.new.disk }
        // What stays.
        ensures frames { self.new.frames ≡ self.old.frames }
        ensures locks { KeepsLocks self.old.resident self.new.resident }
        // Refusals.
        ensures refusals { IfErr result
            (CantPrepareAll S.facts (directed_all direction changes.now) self.old self.new) }
    {
        self.reveal_invariant();
        for change in changes.iter().rev() {
            self.turn(change, direction)?;
        }
        Ok(())
    }

    // So it does, in one word.
    fn turn(&mut self, change: &Change, direction: Direction) -> Result<(), Fault>
        requires listed { CanApplyByHandle (directed direction change.now) self.old.document }
        requires unlocked { AreUnlocked (directed direction change.now) self.old.resident }
        ensures { AppliesChange S.facts (directed direction change.now) self.old self.new result }
    {
        match change {
            Change::BlocksIn(members) => match direction {
                Direction::Forwards => self.put_in(members),
                Direction::Backwards => self.take_out(members),
            },
            Change::BlocksOut(members) => match direction {
                Direction::Forwards => self.take_out(members),
                Direction::Backwards => self.put_in(members),
            },
            Change::Part(handle, part) => self.change_part(*handle, part, direction),
            Change::Attributes { handle, old, new } => match direction {
                Direction::Forwards => self.set_attributes(*handle, *old, *new),
                Direction::Backwards => self.set_attributes(*handle, *new, *old),
            },
            Change::Map { old, new } => match direction {
                Direction::Forwards => self.set_map(*old, *new),
                Direction::Backwards => self.set_map(*new, *old),
            },
        }
    }

    /// Puts each of these blocks under its handle. Memory, File.
    pub(crate) fn put_in(&mut self, members: &Members) -> Result<(), Fault>
        requires { AreFree self.old.document (handles_of (imaged_blocks members.now.list.items)) }
        ensures turns { AppliesChange S.facts (Change.BlocksIn members.now) self.old self.new result }
        ensures resident { self.new.resident ≡ self.old.resident }
    {
        self.reveal_invariant();
        self.file.put_blocks(&members.list, &[])
    }

    // Takes each of these blocks out. It isn't refused.
    fn take_out(&mut self, members: &Members) -> Result<(), Fault>
        requires leave { CanRemoveByHandle self.old.document (handles_of (imaged_blocks members.now.list.items)) }
        requires unlocked { All
            (λ h. locks_of self.old.resident h ≡ 0) (handles_of (imaged_blocks members.now.list.items)) }
        ensures { AppliesChange S.facts (Change.BlocksOut members.now) self.old self.new result }
    {
        self.take_all(members);
        Ok(())
    }

    /// Takes each of these blocks out.
    pub(crate) fn take_all(&mut self, members: &Members)
        requires leave { CanRemoveByHandle self.old.document (handles_of (imaged_blocks members.now.list.items)) }
        requires unlocked { All
            (λ h. locks_of self.old.resident h ≡ 0) (handles_of (imaged_blocks members.now.list.items)) }
        ensures disk { self.new.disk ≡ self.old.disk }
        ensures document { self.new.document
            ≡ without_blocks self.old.document (handles_of (imaged_blocks members.now.list.items)) }
        ensures frames { self.new.frames ≡ self.old.frames }
        ensures locks { KeepsLocks self.old.resident self.new.resident }
    {
        for member in &members.list {
            self.take_one(member.handle);
        }
    }

    fn take_one(&mut self, handle: VmHandle)
        requires other { self.old.document.map_block ≢ handle.0 }
        requires unlocked { locks_of self.old.resident handle.0 ≡ 0 }
        ensures disk { self.new.disk ≡ self.old.disk }
        ensures document { self.new.document ≡ without_block self.old.document handle.0 }
        ensures frames { self.new.frames ≡ self.old.frames }
        ensures locks { KeepsLocks self.old.resident self.new.resident }
    {
        self.reveal_invariant();
        let _count = self.frames.len();
        self.frames.pop(handle.0);
        let _removed = self.file.put_blocks(&[], &[handle]);
    }

    // Changes the body of a block in memory, which takes the change. It isn't refused.
    fn carry_out_loaded(&mut self, handle: VmHandle, part: &PartChange) -> Result<(), Fault>
        requires loaded { is_loaded self.old handle.0 ≡ true }
        requires takes { AllowsPart part.now (block_at self.old.document handle.0).body }
        ensures { AppliesChange S.facts (Change.Part handle part.now) self.old self.new result }
    {
        self.reveal_invariant();
        self.carry_out_part(handle, part, Direction::Forwards);
        Ok(())
    }

    // Changes the body of a block, which is brought into memory, if the body takes the change.
    fn change_part(
        &mut self,
        handle: VmHandle,
        part: &PartChange,
        direction: Direction,
    ) -> Result<(), Fault>
        requires { is_live self.old.document handle.0 ≡ true }
        ensures { AppliesChange S.facts (Change.Part handle (directed_part direction part.now)) self.old self.new
            result }
    {
        self.reveal_invariant();
        match self.change_resident_part(handle, part, direction) {
            Some(true) => Ok(()),
            Some(false) => Err(Fault::Damaged),
            None => self.bring_and_change_part(handle, part, direction),
        }
    }

    // Changes the body of a block in memory, if it takes the change, and says whether; None where it isn't there.
    #[inline(always)]
    fn change_resident_part(
        &mut self,
        handle: VmHandle,
        part: &PartChange,
        direction: Direction,
    ) -> Option<bool>
        ensures { TriesPartInMemory handle.0 (directed_part direction part.now) self.old self.new result }
    {
        // That no block has two frames is known where they are counted.
        let _count = self.frames.len();
        let frame = self.frames.get_mut(handle.0)?;
        Some(change_part_in_frame(frame, part, direction))
    }

    // Changes the body of a block that is brought into memory first.
    #[inline(never)]
    fn bring_and_change_part(
        &mut self,
        handle: VmHandle,
        part: &PartChange,
        direction: Direction,
    ) -> Result<(), Fault>
        requires { is_live self.old.document handle.0 ≡ true }
        ensures { AppliesChange S.facts (Change.Part handle (directed_part direction part.now)) self.old self.new
            result }
    {
        self.load_live(handle)?;
        if self.change_loaded_part(handle, part, direction) {
            Ok(())
        } else {
            Err(Fault::Damaged)
        }
    }

    // Changes the body of a block in memory, if it takes the change, and says whether.
    fn change_loaded_part(
        &mut self,
        handle: VmHandle,
        part: &PartChange,
        direction: Direction,
    ) -> bool
        requires { is_loaded self.old handle.0 ≡ true }
        ensures { TriesPart handle.0 (directed_part direction part.now) self.old self.new result }
    {
        let frame = self.frames.peek_mut(handle.0).unwrap();
        change_part_in_frame(frame, part, direction)
    }

    /// Changes the body of a block in memory in place.
    pub(crate) fn carry_out_part(
        &mut self,
        handle: VmHandle,
        part: &PartChange,
        direction: Direction,
    )
        requires loaded { is_loaded self.old handle.0 ≡ true }
        requires takes { AllowsPart (directed_part direction part.now) (block_at self.old.document handle.0).body }
        ensures { self.new
            ≡ record self.old { document = after_part handle.0 (directed_part direction part.now) self.old.document } }
    {
        let frame = self.frames.peek_mut(handle.0).unwrap();
        frame.carry_out(part, direction);
    }

    // Gives a block other attributes in place of the old ones. Whichever kind it is of, only a heap has a type.
    fn set_attributes(
        &mut self,
        handle: VmHandle,
        old: Attributes,
        new: Attributes,
    ) -> Result<(), Fault>
        requires { is_live self.old.document handle.0 ≡ true }
        ensures { AppliesChange S.facts (Change.Attributes handle old new) self.old self.new result }
    {
        self.put_attributes(handle, new);
        Ok(())
    }

    /// Gives a block these attributes, of which only a heap has a type.
    pub(crate) fn put_attributes(&mut self, handle: VmHandle, attributes: Attributes)
        requires { is_live self.old.document handle.0 ≡ true }
        ensures { self.new ≡ record self.old {
          document = with_attributes self.old.document handle.0
              (attributes_for_kind (is_heap self.old.document handle.0) attributes);
        } }
    {
        let given = attributes_for_kind(self.is_heap(handle), attributes);
        self.file.set_attributes(handle, given);
    }

    // Makes another block the map block in place of the old one; 0 stands for none.
    fn set_map(&mut self, old: VmHandle, new: VmHandle) -> Result<(), Fault>
        requires { new.0 ≢ 0 → is_live self.old.document new.0 ≡ true }
        ensures { AppliesChange S.facts (Change.Map old new) self.old self.new result }
    {
        self.put_map(new);
        Ok(())
    }

    /// Makes a block the map block; 0 stands for none.
    pub(crate) fn put_map(&mut self, block: VmHandle)
        requires { block.0 ≢ 0 → is_live self.old.document block.0 ≡ true }
        ensures { self.new
            ≡ record self.old { document = record self.old.document { map_block = block.0 } } }
    {
        self.file.set_map(block);
    }
}

// Attributes as a block of a kind has them.
fn attributes_for_kind(is_heap: bool, attributes: Attributes) -> Attributes
    ensures { result ≡ attributes_for_kind is_heap attributes }
{
    if is_heap {
        attributes
    } else {
        Attributes {
            heap_type: 0,
            ..attributes
        }
    }
}
