//! Blocks that changes bring in, which are put in before all else that is done in memory, and taken out again where
//! that can't be done.
ghost use Rattle.std.specs.Prelude.{◌≡◌, [], true, IfErr, IsOk, MatchOption, OnErr, OnOk};
ghost use Rattle.std.specs.List.{All, list_any};
ghost use Rattle.geos_model.specs.Document.{handles_of, is_live, is_vm_handle};
ghost use Rattle.geos_model.specs.ElementArray.{all_distinct};
ghost use Rattle.document_file.specs.Members.{imaged_blocks};
ghost use Rattle.vm_blocks.specs.State.{KeepsLocks, locked_count};
ghost use Rattle.vm_blocks.specs.Changes.{directed, directed_all, incoming_blocks};
ghost use Rattle.vm_blocks.specs.Incoming.{AreBroughtIn, CanGoAgain, IsBroughtIn, IsObstacle, without_again};
ghost use Rattle.vm_blocks.specs.InMemory.{StaysInMemory};
ghost use Rattle.vm_blocks.specs.Keeping.{KeepsBlocks};
ghost use Rattle.vm_blocks.specs.Preparing.{CanApplyAllByHandle, NoneComesIn};

use crate::in_memory::{Obstacle, take_out};
use crate::{Change, Direction, FileBlocks, Members};
use vm_store::Store;

/// Puts in the blocks that changes bring in in a direction, those of the last one first: all of them or none. Not in
/// memory where one comes in under a handle that is live by then, since blocks that go do so last of all.
pub(crate) fn bring_in_all<S: Store>(
    blocks: &mut FileBlocks<S>,
    changes: &[Change],
    direction: Direction,
) -> Result<(), Obstacle>
    requires listed { CanApplyAllByHandle (directed_all direction changes.now) blocks.old.document }
    requires unlocked { locked_count blocks.old.resident ≡ 0 }
    ensures ok { OnOk result (AreBroughtIn S.facts direction changes.now blocks.old blocks.new) }
    ensures err { OnErr result (KeepsBlocks S.facts blocks.old blocks.new) }
    ensures refusals { IfErr result (IsObstacle S.facts blocks.old.disk.store blocks.new.disk.store) }
    ensures sure { NoneComesIn (directed_all direction changes.now)
        → IsOk result × StaysInMemory blocks.old blocks.new }
{
    let mut rest = changes.len();
    while rest > 0 {
        let change = &changes[rest - 1];
        if let Err(obstacle) = bring_in(blocks, change, direction) {
            take_out_again(blocks, &changes[rest..], direction);
            return Err(obstacle);
        }
        rest -= 1;
    }
    Ok(())
}

/// Takes out blocks that changes brought in in a direction, of which the newest is the first.
pub(crate) fn take_out_again<S: Store>(
    blocks: &mut FileBlocks<S>,
    changes: &[Change],
    direction: Direction,
)
    requires leave { CanGoAgain direction changes.now blocks.old.document }
    requires unlocked { locked_count blocks.old.resident ≡ 0 }
    ensures disk { blocks.new.disk ≡ blocks.old.disk }
    ensures document { blocks.new.document ≡ without_again direction changes.now blocks.old.document }
    ensures frames { blocks.new.frames ≡ blocks.old.frames }
    ensures locks { KeepsLocks blocks.old.resident blocks.new.resident }
{
    for change in changes {
        take_out(blocks, change, direction.opposite());
    }
}

/// Puts in the blocks that a change brings in in a direction.
fn bring_in<S: Store>(
    blocks: &mut FileBlocks<S>,
    change: &Change,
    direction: Direction,
) -> Result<(), Obstacle>
    requires handles { All (λ h. is_vm_handle h ≡ true) (handles_of (incoming_blocks (directed direction change.now))) }
    requires distinct { all_distinct (handles_of (incoming_blocks (directed direction change.now))) ≡ true }
    ensures ok { OnOk result
        (IsBroughtIn S.facts (incoming_blocks (directed direction change.now)) blocks.old blocks.new) }
    ensures err { OnErr result (KeepsBlocks S.facts blocks.old blocks.new) }
    ensures refusals { IfErr result (IsObstacle S.facts blocks.old.disk.store blocks.new.disk.store) }
    ensures sure { incoming_blocks (directed direction change.now) ≡ []
        → IsOk result × StaysInMemory blocks.old blocks.new }
{
    match incoming(change, direction) {
        Some(members) => put_in_free(blocks, members),
        None => Ok(()),
    }
}

/// The blocks that a change brings in in a direction.
fn incoming(change: &Change, direction: Direction) -> Option<&Members>
    ensures { MatchOption result (incoming_blocks (directed direction change.now) ≡ [])
        (λ members. incoming_blocks (directed direction change.now) ≡ imaged_blocks members.now.list.items) }
{
    match change {
        Change::BlocksIn(members) => match direction {
            Direction::Forwards => Some(members),
            Direction::Backwards => None,
        },
        Change::BlocksOut(members) => match direction {
            Direction::Forwards => None,
            Direction::Backwards => Some(members),
        },
        Change::Part(_, _) | Change::Attributes { .. } | Change::Map { .. } => None,
    }
}

/// Puts in these blocks, if none of their handles is live.
fn put_in_free<S: Store>(blocks: &mut FileBlocks<S>, members: &Members) -> Result<(), Obstacle>
    requires handles { All (λ h. is_vm_handle h ≡ true) (handles_of (imaged_blocks members.now.list.items)) }
    requires distinct { all_distinct (handles_of (imaged_blocks members.now.list.items)) ≡ true }
    ensures ok { OnOk result
        (IsBroughtIn S.facts (imaged_blocks members.now.list.items) blocks.old blocks.new) }
    ensures err { OnErr result (KeepsBlocks S.facts blocks.old blocks.new) }
    ensures refusals { IfErr result (IsObstacle S.facts blocks.old.disk.store blocks.new.disk.store) }
    ensures sure { imaged_blocks members.now.list.items ≡ []
        → IsOk result × StaysInMemory blocks.old blocks.new }
{
    blocks.reveal_invariant();
    if has_live(blocks, members) {
        return Err(Obstacle::NotInMemory);
    }
    blocks.put_in(members)?;
    Ok(())
}

/// Whether one of these handles is live.
fn has_live<S: Store>(blocks: &FileBlocks<S>, members: &Members) -> bool
    ensures { result
        ≡ list_any (is_live blocks.now.document) (handles_of (imaged_blocks members.now.list.items)) }
{
    for member in &members.list {
        if blocks.is_live(member.handle) {
            return true;
        }
    }
    false
}
