//! Entries that are made in a direction, and changes that are taken back.
ghost use Rattle.std.specs.Prelude.{◌≡◌, [], true, false, None, map, nat_lt, IsOk, IfErr, OnOk, OnErr, reverse};
ghost use Rattle.vm_blocks.specs.State.{locked_count};
ghost use Rattle.vm_blocks.specs.Changes.{directed};
ghost use Rattle.vm_blocks.specs.Keeping.{KeepsBlocks};
ghost use Rattle.vm_blocks.specs.Preparing.{AreInMemory, CanApplyAllByHandle, CantPrepareAll, AreApplied, NoneComesIn};
ghost use Rattle.chunk_edits.specs.declared.direction.Direction.TheVariants.{Backwards};
ghost use Rattle.undo_log.specs.Logging.{after_all, after_entry, changes_in};
ghost use Rattle.undo_log.specs.Sessions.{CanApplyAllDirected};
ghost use Rattle.undo_log.specs.Steps.{step_entry};
ghost use Rattle.undo_log.specs.Turning.{CanApplyEntry, CantApplyEntry, IsEntryApplied, no_step_fault};

use crate::entry::NamedEntry;
use crate::step::Step;
use geos_model::Fault;
use vm_blocks::{Change, Direction, FileBlocks};
use vm_store::Store;

/// What a turn in a direction is refused for where there is no step to make.
pub fn nothing_to_turn(direction: Direction) -> Fault
    ensures { result ≡ no_step_fault direction }
{
    match direction {
        Direction::Backwards => Fault::NothingToUndo,
        Direction::Forwards => Fault::NothingToRedo,
    }
}

/// Makes the changes of a step in a direction, all or none. No block is locked.
pub fn make_step<S: Store>(
    blocks: &mut FileBlocks<S>,
    step: Step<'_>,
    direction: Direction,
) -> Result<(), Fault>
    // Asked of the caller.
    requires unmarked { blocks.old.disk.marked ≡ None }
    requires unlocked { nat_lt 0 (locked_count blocks.old.resident) ≡ false }
    requires listed { CanApplyAllByHandle (map (directed direction) (changes_in (step_entry step).entry)) blocks.old.document }
    // What is done.
    ensures ok { OnOk result (IsEntryApplied S.facts direction (step_entry step.entry).entry blocks.old blocks.new) }
    ensures err { OnErr result (KeepsBlocks S.facts blocks.old blocks.new) }
    // Refusals.
    ensures refusals { IfErr result (CantApplyEntry S.facts direction (step_entry step.entry).entry blocks.old blocks.new) }
    // When the answer is known beforehand.
    ensures sure { CanApplyEntry direction (step_entry step.entry).entry blocks.old
        → IsOk result × (blocks.new.disk ≡ blocks.old.disk)
        × (blocks.new.document ≡ after_entry direction (step_entry step.entry).entry blocks.old.document) }
{
    blocks.reveal_invariant();
    match step {
        Step::Bytes(change) => blocks.change_bytes(change, direction),
        Step::Entry(entry) => make_entry(blocks, entry, direction),
    }
}

// So of a whole one.
fn make_entry<S: Store>(
    blocks: &mut FileBlocks<S>,
    entry: &NamedEntry,
    direction: Direction,
) -> Result<(), Fault>
    // Asked of the caller.
    requires unmarked { blocks.old.disk.marked ≡ None }
    requires unlocked { nat_lt 0 (locked_count blocks.old.resident) ≡ false }
    requires listed { CanApplyAllByHandle (map (directed direction) (changes_in entry.now.entry)) blocks.old.document }
    // What is done.
    ensures ok { OnOk result (IsEntryApplied S.facts direction entry.now.entry blocks.old blocks.new) }
    ensures err { OnErr result (KeepsBlocks S.facts blocks.old blocks.new) }
    // Refusals.
    ensures refusals { IfErr result (CantApplyEntry S.facts direction entry.now.entry blocks.old blocks.new) }
    // When the answer is known beforehand.
    ensures sure { CanApplyEntry direction entry.now.entry blocks.old
        → IsOk result × (blocks.new.disk ≡ blocks.old.disk)
        × (blocks.new.document ≡ after_entry direction entry.now.entry blocks.old.document) }
{
    blocks.reveal_invariant();
    match entry.edit() {
        Some(change) => blocks.change(change, direction),
        None => blocks.change_all(entry.as_slice(), direction),
    }
}

/// Takes changes back, the last one first, all or none. No block is locked. Where there are none it does nothing.
pub fn take_back<S: Store>(blocks: &mut FileBlocks<S>, changes: &[Change]) -> Result<(), Fault>
    // Asked of the caller.
    requires unmarked { blocks.old.disk.marked ≡ None }
    requires unlocked { nat_lt 0 (locked_count blocks.old.resident) ≡ false }
    requires listed { CanApplyAllByHandle (map (directed Backwards) (reverse changes.now)) blocks.old.document }
    // What is done.
    ensures ok { OnOk result
        (AreApplied S.facts (map (directed Backwards) (reverse changes.now)) blocks.old blocks.new) }
    ensures err { OnErr result (KeepsBlocks S.facts blocks.old blocks.new) }
    // Refusals.
    ensures refusals { IfErr result
        (CantPrepareAll S.facts (map (directed Backwards) (reverse changes.now)) blocks.old blocks.new) }
    // When the answer is known beforehand.
    ensures none { changes.now ≡ [] → IsOk result × (blocks.new ≡ blocks.old) }
    ensures sure { NoneComesIn (map (directed Backwards) (reverse changes.now))
        → AreInMemory (map (directed Backwards) (reverse changes.now)) blocks.old
        → CanApplyAllDirected Backwards (reverse changes.now) blocks.old.document
        → IsOk result × (blocks.new.disk ≡ blocks.old.disk)
        × (blocks.new.document ≡ after_all Backwards (reverse changes.now) blocks.old.document) }
{
    if changes.is_empty() {
        return Ok(());
    }
    blocks.change_all(changes, Direction::Backwards)
}
