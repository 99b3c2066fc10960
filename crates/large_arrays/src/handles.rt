//! Which blocks the pieces have that come in the place of some branches.
ghost use Rattle.std.specs.Prelude.{◌≡◌, ◌<◌, ◌≤◌, ◌-◌, ◌++◌, true, IfOk, length};
ghost use Rattle.geos_model.specs.ElementArray.{all_distinct};
ghost use Rattle.vm_chains.specs.Numbers.{numbers};
ghost use Rattle.large_arrays.specs.HandleLists.{AreFreed, AreKeptPlaces, IsMost, old_handles, old_pairs};
ghost use Rattle.geos_model.specs.LargeWindow.{window_handles};

use geos_model::VmHandle;
use std::alloc::{AllocError, Global};

/// A branch in the place of which others come.
#[derive(Clone, Copy)]
pub struct OldBranch {
    /// Its block.
    pub handle: VmHandle,
    /// How many bytes of its elements, with their places, stay there.
    pub staying: usize,
}

/// The places of old blocks that stay: those from `start` up to `end`, and those from `last` on. New blocks come
/// between the two.
#[derive(Clone, Copy)]
struct KeptPlaces {
    start: usize,
    end: usize,
    last: usize,
}

/// How many new blocks so many pieces need that come in the place of so many branches.
pub fn blocks_needed(olds: usize, pieces: usize) -> usize
    ensures { result ≡ pieces - olds }
{
    pieces.saturating_sub(olds)
}

/// The blocks of so many pieces that come in the place of branches. Where there was one branch, `head` says that its
/// block has the first of several pieces, rather than the last one.
pub fn window_handles(
    alloc: Global,
    olds: &[OldBranch],
    head: bool,
    pieces: usize,
    new: &[VmHandle],
) -> Result<Vec<VmHandle>, AllocError>
    requires { length new.now ≤ pieces - length olds.now }
    ensures { IfOk result
        (λ handles. numbers handles.items ≡ window_handles (old_pairs olds.now) head pieces (numbers new.now)) }
{
    let kept = kept_places(olds, head, pieces);
    let mut handles = Vec::with_capacity(alloc, pieces)?;
    push_handles(&mut handles, &olds[kept.start..kept.end])?;
    handles.extend_from_slice(new)?;
    push_handles(&mut handles, &olds[kept.last..])?;
    Ok(handles)
}

/// The blocks that go where so many pieces come in the place of branches, in order.
pub fn freed_handles(
    alloc: Global,
    olds: &[OldBranch],
    pieces: usize,
) -> Result<Vec<VmHandle>, AllocError>
    requires { all_distinct (old_handles olds.now) ≡ true }
    ensures { IfOk result (λ freed. AreFreed (old_pairs olds.now) pieces (numbers freed.items)) }
{
    let kept = kept_places(olds, true, pieces);
    let mut freed = Vec::new(alloc);
    push_handles(&mut freed, &olds[..kept.start])?;
    push_handles(&mut freed, &olds[kept.end..kept.last])?;
    Ok(freed)
}

/// Which of the old blocks stay.
fn kept_places(olds: &[OldBranch], head: bool, pieces: usize) -> KeptPlaces
    ensures { AreKeptPlaces (old_pairs olds.now) head pieces result }
{
    let count = olds.len();
    if pieces == 0 || count == 0 {
        return KeptPlaces {
            start: 0,
            end: 0,
            last: count,
        };
    }
    if pieces == 1 {
        let most = place_of_most(olds);
        return KeptPlaces {
            start: most,
            end: most + 1,
            last: count,
        };
    }
    if count == 1 {
        let end = usize::from(head);
        return KeptPlaces {
            start: 0,
            end,
            last: end,
        };
    }
    KeptPlaces {
        start: 0,
        end: count.min(pieces) - 1,
        last: count - 1,
    }
}

/// The place of the first block in which most stays.
fn place_of_most(olds: &[OldBranch]) -> usize
    requires { 0 < length olds.now }
    ensures { IsMost (old_pairs olds.now) result }
{
    let mut most = 0;
    for i in 1..olds.len() {
        if olds[most].staying < olds[i].staying {
            most = i;
        }
    }
    most
}

/// Adds the handles of branches.
fn push_handles(handles: &mut Vec<VmHandle>, olds: &[OldBranch]) -> Result<(), AllocError>
    ensures { IfOk result (λ _. numbers handles.new.items ≡ numbers handles.old.items ++ old_handles olds.now) }
{
    for old in olds {
        handles.push(old.handle)?;
    }
    Ok(())
}
