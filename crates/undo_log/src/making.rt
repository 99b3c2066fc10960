//! Edits that are planned and made, and which of them a lock bars.
ghost use Rattle.std.specs.Prelude.{◌≡◌, ◌≤◌, true, false, None, is_some, nat_lt, IfErr, OnErr, OnOk};
ghost use Rattle.geos_model.specs.Targets.{edit_of};
ghost use Rattle.vm_blocks.specs.Keeping.{KeepsBlocks};
ghost use Rattle.vm_blocks.specs.Preparing.{AreApplied, CanApplyAllByHandle, CantPrepareAll};
ghost use Rattle.vm_blocks.specs.State.{locked_count};
ghost use Rattle.undo_log.specs.Locking.{bars};
ghost use Rattle.undo_log.specs.Making.{MakesEdit, MakesRecorded};

use crate::log::UndoLog;
use doc_edits::{make_run, mark_edited, plan};
use geos_model::{BlockEdit, Done, Fault, Target};
use std::alloc::Global;
use vm_blocks::{Change, Direction, FileBlocks};
use vm_store::Store;

/// Whether a lock keeps an edit from being made: it frees a locked block, or copies or frees a chain while any block is
/// locked.
pub fn is_barred<S: Store>(blocks: &FileBlocks<S>, target: Target<'_>) -> bool
    ensures { result ≡ bars blocks.now.resident (edit_of target.entry) }
{
    match target {
        Target::Block(block, BlockEdit::Free) => blocks.locks(block) > 0,
        Target::Chain(_, _) => blocks.has_locks(),
        _ => false,
    }
}

// Plans an edit, and makes its change.
fn make<S: Store>(
    alloc: Global,
    blocks: &mut FileBlocks<S>,
    target: Target<'_>,
) -> Result<(Change, Done), Fault>
    requires { bars blocks.old.resident (edit_of target) ≡ false }
    ensures { MakesEdit S.facts (edit_of target.entry) blocks.old blocks.new result }
{
    let (change, done) = plan(alloc, blocks, target)?;
    blocks.carry_out(&change)?;
    mark_edited(blocks, target);
    Ok((change, done))
}

/// Makes an edit, and records its change as the newest of the log.
pub fn make_recorded<S: Store>(
    alloc: Global,
    blocks: &mut FileBlocks<S>,
    log: &mut UndoLog,
    target: Target<'_>,
) -> Result<Done, Fault>
    requires free { bars blocks.old.resident (edit_of target) ≡ false }
    requires place { log.old.place ≡ true }
    requires spare { is_some log.old.lists.group ≡ true → 1 ≤ log.old.spare }
    ensures { MakesRecorded S.facts (edit_of target.entry) blocks.old blocks.new log.old.lists log.new.lists result }
{
    // Of a run of bytes those that go, and those that come in, are copied nowhere but into the log.
    if make_run(blocks, target, log)? {
        return Ok(Done::Nothing);
    }
    let (change, done) = make(alloc, blocks, target)?;
    log.add(alloc, change);
    Ok(done)
}

/// Makes changes one after another, the first one first, all or none. No block is locked.
pub fn make_all<S: Store>(blocks: &mut FileBlocks<S>, changes: &mut [Change]) -> Result<(), Fault>
    // Asked of the caller.
    requires unmarked { blocks.old.disk.marked ≡ None }
    requires unlocked { nat_lt 0 (locked_count blocks.old.resident) ≡ false }
    requires listed { CanApplyAllByHandle changes.old blocks.old.document }
    // What is done.
    ensures ok { OnOk result (AreApplied S.facts changes.old blocks.old blocks.new) }
    ensures err { OnErr result (KeepsBlocks S.facts blocks.old blocks.new) }
    // Refusals.
    ensures refusals { IfErr result (CantPrepareAll S.facts changes.old blocks.old blocks.new) }
    // What stays.
    ensures changes { changes.new ≡ changes.old }
{
    // The next one is to be the last.
    changes.reverse();
    let made = blocks.change_all(changes, Direction::Forwards);
    changes.reverse();
    made
}
