//! The branches that an edit replaces, with what stays of each.
ghost use Rattle.std.specs.Prelude.{◌≡◌, ◌<◌, ◌+◌, ◌^◌, IfOk, length};
ghost use Rattle.large_arrays.specs.HandleLists.{old_pairs};
ghost use Rattle.large_arrays.specs.Spots.{link_handles};
ghost use Rattle.large_arrays.specs.WindowParts.{staying_at, staying_pairs};

use crate::handles::OldBranch;
use crate::spot::BranchLink;
use std::alloc::{AllocError, Global};

/// How many bytes stay in their blocks where elements are replaced, with their places.
#[derive(Clone, Copy, Debug, PartialEq, Eq)]
pub struct StayingBytes {
    /// Of the left neighbour, where it is joined.
    pub left: usize,
    /// Before the run, in the branch where it begins.
    pub head: usize,
    /// Behind it, in the one where it ends.
    pub tail: usize,
    /// Of the right neighbour, where it is joined.
    pub right: usize,
}

/// The branches from the one at `first` on, with what stays of each, where a run begins in the branch at `start` and
/// ends in the one at `end`.
pub fn old_branches(
    alloc: Global,
    links: &[BranchLink],
    first: usize,
    start: usize,
    end: usize,
    staying: StayingBytes,
) -> Result<Vec<OldBranch>, AllocError>
    requires places { first + length links.now < 2 ^ 64 }
    requires room { staying.head + staying.tail < 2 ^ 64 }
    ensures { IfOk result
        (λ olds. old_pairs olds.items ≡ staying_pairs (link_handles links.now) first start end staying) }
{
    let mut olds = Vec::with_capacity(alloc, links.len())?;
    let mut place = first;
    for link in links {
        olds.push(OldBranch {
            handle: link.handle,
            staying: staying_of(place, start, end, staying),
        })?;
        place += 1;
    }
    Ok(olds)
}

/// What stays of the branch at a place.
fn staying_of(place: usize, start: usize, end: usize, staying: StayingBytes) -> usize
    requires { staying.head + staying.tail < 2 ^ 64 }
    ensures { result ≡ staying_at start end staying place }
{
    if place < start {
        return staying.left;
    }
    if end < place {
        return staying.right;
    }
    let head = if place == start { staying.head } else { 0 };
    let tail = if place == end { staying.tail } else { 0 };
    head + tail
}
