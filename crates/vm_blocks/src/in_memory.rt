//! Changes that are carried out in memory, all or none.
ghost use Rattle.std.specs.Prelude.{◌≡◌, true, false, IfErr, IsOk, OnErr, OnOk};
ghost use Rattle.chunk_edits.specs.Directions.{opposite};
ghost use Rattle.geos_model.specs.Document.{block_at, without_blocks};
ghost use Rattle.vm_blocks.specs.State.{KeepsLocks, locked_count};
ghost use Rattle.vm_blocks.specs.Changes.{directed, directed_all, directed_part};
ghost use Rattle.vm_blocks.specs.Exactness.{IsExactPart};
ghost use Rattle.vm_blocks.specs.Incoming.{IsObstacle, others};
ghost use Rattle.vm_blocks.specs.InMemory.{AllFit, AreListed, CanTakeBack, CanTakeOut, FitsInPlace, IsListed, IsReady, IsReversible, IsReversiblePart, StaysInMemory, all_in_place, all_outgoing, all_taken_back, carried, outgoing};
ghost use Rattle.vm_blocks.specs.Keeping.{IsEnvironmentFault, KeepsBlocks, is_loaded};
ghost use Rattle.vm_blocks.specs.Preparing.{after_changes, AreApplied, AreInMemory, CanApplyAll, CanApplyAllByHandle, CanRemoveByHandle, IsInMemory, NoneComesIn};

use crate::bringing_in::{bring_in_all, take_out_again};
use crate::part::{is_exact, reveal_invariant};
use crate::{Change, Direction, FileBlocks, PartChange};
use geos_model::{Fault, VmHandle};
use vm_store::Store;

/// Why changes aren't carried out in memory.
#[derive(Drop)]
pub(crate) enum Obstacle {
    /// Memory ran out, the store failed, or what it gave back is no body.
    Fault(Fault),
    /// They can't be carried out there: a block comes in under a handle that is live before the blocks go that do,
    /// those whose bodies change don't fit into memory together, or what goes doesn't stand there.
    NotInMemory,
}

impl From<Fault> for Obstacle {
    ghost use Rattle.std.specs.Prelude.{◌≡◌};
    ghost use Rattle.vm_blocks.specs.declared.in_memory.Obstacle.{Obstacle};

    ghost from_gives = { λ fault obstacle. obstacle ≡ Obstacle.Fault fault };

    fn from(fault: Fault) -> Obstacle {
        Obstacle::Fault(fault)
    }
}

/// Carries out changes in a direction, the last one first, all or none, but blocks that come in before all else, and
/// those that go last. The store is called for the blocks that come in, and for what has to be brought into memory. A
/// body has to have what goes, so that all can be taken back on the way.
pub(crate) fn change_in_memory<S: Store>(
    blocks: &mut FileBlocks<S>,
    changes: &[Change],
    direction: Direction,
) -> Result<(), Obstacle>
    // Asked of the caller.
    requires listed { CanApplyAllByHandle (directed_all direction changes.now) blocks.old.document }
    requires unlocked { locked_count blocks.old.resident ≡ 0 }
    // What is done.
    ensures ok { OnOk result (AreApplied S.facts (directed_all direction changes.now) blocks.old blocks.new) }
    ensures err { OnErr result (KeepsBlocks S.facts blocks.old blocks.new) }
    // Refusals.
    ensures refusals { IfErr result (IsObstacle S.facts blocks.old.disk.store blocks.new.disk.store) }
    // When the answer is known beforehand.
    ensures sure { NoneComesIn (directed_all direction changes.now)
        → AreInMemory (directed_all direction changes.now) blocks.old
        → CanApplyAll (directed_all direction changes.now) blocks.old.document
        → IsOk result × (blocks.new.disk ≡ blocks.old.disk)
        × (blocks.new.document ≡ after_changes (directed_all direction changes.now) blocks.old.document) }
{
    bring_in_all(blocks, changes, direction)?;
    match change_others(blocks, changes, direction) {
        Ok(()) => Ok(()),
        Err(obstacle) => {
            take_out_again(blocks, changes, direction);
            Err(obstacle)
        }
    }
}

/// Carries out those changes that bring no blocks in.
fn change_others<S: Store>(
    blocks: &mut FileBlocks<S>,
    changes: &[Change],
    direction: Direction,
) -> Result<(), Obstacle>
    // Asked of the caller.
    requires listed { CanApplyAllByHandle (others (directed_all direction changes.now)) blocks.old.document }
    requires unlocked { locked_count blocks.old.resident ≡ 0 }
    // What is done.
    ensures ok { OnOk result
        (AreApplied S.facts (others (directed_all direction changes.now)) blocks.old blocks.new) }
    ensures err { OnErr result (KeepsBlocks S.facts blocks.old blocks.new) }
    // Refusals.
    ensures refusals { IfErr result (IsObstacle S.facts blocks.old.disk.store blocks.new.disk.store) }
    // When the answer is known beforehand.
    ensures sure { AreInMemory (others (directed_all direction changes.now)) blocks.old
        → CanApplyAll (others (directed_all direction changes.now)) blocks.old.document
        → IsOk result × (blocks.new.disk ≡ blocks.old.disk)
        × (blocks.new.document
        ≡ after_changes (others (directed_all direction changes.now)) blocks.old.document) }
{
    load_all(blocks, changes, direction)?;
    blocks.reveal_invariant();
    if !carry_out_all(blocks, changes, direction) {
        return Err(Obstacle::NotInMemory);
    }
    take_out_all(blocks, changes, direction);
    Ok(())
}

/// Carries out a change of what is there; blocks that come in or go are left out.
fn carry_out<S: Store>(blocks: &mut FileBlocks<S>, change: &Change, direction: Direction)
    requires { IsReady (directed direction change.now) blocks.old }
    ensures { blocks.new ≡ carried (directed direction change.now) blocks.old }
{
    match change {
        Change::BlocksIn(_) | Change::BlocksOut(_) => {}
        Change::Part(handle, part) => blocks.carry_out_part(*handle, part, direction),
        Change::Attributes { handle, old, new } => match direction {
            Direction::Forwards => blocks.put_attributes(*handle, *new),
            Direction::Backwards => blocks.put_attributes(*handle, *old),
        },
        Change::Map { old, new } => match direction {
            Direction::Forwards => blocks.put_map(*new),
            Direction::Backwards => blocks.put_map(*old),
        },
    }
}

/// Whether a change of what is there can be carried out in memory, and taken back by the same the other way round: what
/// goes stands there.
fn is_reversible<S: Store>(blocks: &FileBlocks<S>, change: &Change, direction: Direction) -> bool
    requires { IsListed (directed direction change.now) blocks.now.document }
    ensures yes { result ≡ true → IsReversible direction change.now blocks.now }
    ensures no { result ≡ false → IsInMemory (directed direction change.now) blocks.now
        → FitsInPlace (directed direction change.now) blocks.now.document → ⊥ }
{
    blocks.reveal_invariant();
    match change {
        Change::BlocksIn(_) | Change::BlocksOut(_) | Change::Map { .. } => true,
        Change::Part(handle, part) => is_reversible_part(blocks, *handle, part, direction),
        Change::Attributes { handle, old, new } => match direction {
            Direction::Forwards => blocks.attributes(*handle) == *old,
            Direction::Backwards => blocks.attributes(*handle) == *new,
        },
    }
}

/// So of a change of a part of a body.
fn is_reversible_part<S: Store>(
    blocks: &FileBlocks<S>,
    handle: VmHandle,
    part: &PartChange,
    direction: Direction,
) -> bool
    ensures yes { result ≡ true → IsReversiblePart (directed_part direction part.now) handle.0 blocks.now }
    ensures no { result ≡ false → is_loaded blocks.now handle.0 ≡ true
        → IsExactPart (directed_part direction part.now) (block_at blocks.now.document handle.0).body → ⊥ }
{
    if !blocks.is_resident(handle) {
        return false;
    }
    let body = blocks.body(handle);
    reveal_invariant(body);
    is_exact(body, part, direction)
}

/// Takes back changes that were carried out in a direction, of which the newest is the first.
fn take_back<S: Store>(blocks: &mut FileBlocks<S>, changes: &[Change], direction: Direction)
    requires { CanTakeBack direction changes.now blocks.old }
    ensures { blocks.new ≡ all_taken_back direction changes.now blocks.old }
{
    for change in changes {
        carry_out(blocks, change, direction.opposite());
    }
}

/// Carries out changes of what is there, the last one first: all of them, or none where one isn't in memory or can't be
/// taken back. Says which.
fn carry_out_all<S: Store>(
    blocks: &mut FileBlocks<S>,
    changes: &[Change],
    direction: Direction,
) -> bool
    requires { AreListed (directed_all direction changes.now) blocks.old.document }
    ensures all { result ≡ true → blocks.new ≡ record blocks.old {
      document = all_in_place (directed_all direction changes.now) blocks.old.document;
    } }
    ensures none { result ≡ false → (blocks.new ≡ blocks.old)
        × (AreInMemory (directed_all direction changes.now) blocks.old
        → AllFit (directed_all direction changes.now) blocks.old.document → ⊥) }
{
    let mut rest = changes.len();
    while rest > 0 {
        let change = &changes[rest - 1];
        if !is_reversible(blocks, change, direction) {
            take_back(blocks, &changes[rest..], direction);
            return false;
        }
        carry_out(blocks, change, direction);
        rest -= 1;
    }
    true
}

/// Takes out the blocks that changes take out in a direction, those of the last one first.
fn take_out_all<S: Store>(blocks: &mut FileBlocks<S>, changes: &[Change], direction: Direction)
    requires leave { CanTakeOut (directed_all direction changes.now) blocks.old.document }
    requires unlocked { locked_count blocks.old.resident ≡ 0 }
    ensures disk { blocks.new.disk ≡ blocks.old.disk }
    ensures document { blocks.new.document
        ≡ without_blocks blocks.old.document (all_outgoing (directed_all direction changes.now)) }
    ensures frames { blocks.new.frames ≡ blocks.old.frames }
    ensures locks { KeepsLocks blocks.old.resident blocks.new.resident }
{
    for change in changes.iter().rev() {
        take_out(blocks, change, direction);
    }
}

/// Takes out the blocks that a change takes out in a direction.
pub(crate) fn take_out<S: Store>(blocks: &mut FileBlocks<S>, change: &Change, direction: Direction)
    requires leave { CanRemoveByHandle blocks.old.document (outgoing (directed direction change.now)) }
    requires unlocked { locked_count blocks.old.resident ≡ 0 }
    ensures disk { blocks.new.disk ≡ blocks.old.disk }
    ensures document { blocks.new.document
        ≡ without_blocks blocks.old.document (outgoing (directed direction change.now)) }
    ensures frames { blocks.new.frames ≡ blocks.old.frames }
    ensures locks { KeepsLocks blocks.old.resident blocks.new.resident }
{
    match change {
        Change::BlocksIn(members) => match direction {
            Direction::Forwards => {}
            Direction::Backwards => blocks.take_all(members),
        },
        Change::BlocksOut(members) => match direction {
            Direction::Forwards => blocks.take_all(members),
            Direction::Backwards => {}
        },
        Change::Part(_, _) | Change::Attributes { .. } | Change::Map { .. } => {}
    }
}

/// Brings the block whose body a change changes into memory.
fn load_for<S: Store>(
    blocks: &mut FileBlocks<S>,
    change: &Change,
    direction: Direction,
) -> Result<(), Fault>
    requires unlocked { locked_count blocks.old.resident ≡ 0 }
    ensures keeps { KeepsBlocks S.facts blocks.old blocks.new }
    ensures err { IfErr result (IsEnvironmentFault S.facts blocks.old.disk.store blocks.new.disk.store) }
    ensures sure { IsInMemory (directed direction change.now) blocks.old
        → IsOk result × StaysInMemory blocks.old blocks.new }
{
    blocks.reveal_invariant();
    match change {
        Change::Part(handle, _) if blocks.is_live(*handle) => blocks.load_live(*handle),
        _ => Ok(()),
    }
}

/// So of each of the changes.
fn load_all<S: Store>(
    blocks: &mut FileBlocks<S>,
    changes: &[Change],
    direction: Direction,
) -> Result<(), Fault>
    requires unlocked { locked_count blocks.old.resident ≡ 0 }
    ensures keeps { KeepsBlocks S.facts blocks.old blocks.new }
    ensures err { IfErr result (IsEnvironmentFault S.facts blocks.old.disk.store blocks.new.disk.store) }
    ensures sure { AreInMemory (directed_all direction changes.now) blocks.old
        → IsOk result × StaysInMemory blocks.old blocks.new }
{
    for change in changes.iter().rev() {
        load_for(blocks, change, direction)?;
    }
    Ok(())
}
