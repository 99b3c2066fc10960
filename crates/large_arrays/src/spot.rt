//! What an edit or a look-up takes from a root before it looks at branches: with one frame the root leaves memory when
//! a branch comes.
ghost use Rattle.std.specs.Prelude.{◌≡◌, IfOk};
ghost use Rattle.large_arrays.specs.Spots.{AreBranchLinks, IsSpot};

use geos_model::VmHandle;
use large_bodies::RootView;
use std::alloc::{AllocError, Global};

/// A branch as its root has it.
#[derive(Clone, Copy, Debug, PartialEq, Eq)]
pub struct BranchLink {
    pub handle: VmHandle,
    /// How many elements it has.
    pub count: u16,
}

/// What is taken from a root of the elements from one up to another. A place is a branch and how many of its elements
/// are before that place.
#[derive(Drop)]
pub struct Spot {
    /// How many bytes each element has, 0 where sizes vary.
    pub size: usize,
    /// How many branches the root has.
    pub branches: usize,
    /// How many elements it has.
    pub total: u32,
    /// Where the elements begin; of none, where they would be put in.
    pub start: (usize, u32),
    /// Where they end.
    pub end: (usize, u32),
    /// The first branch of `links`.
    pub first: usize,
    /// The branches that have the elements, and the neighbours of these.
    pub links: Vec<BranchLink>,
}

impl Spot {
    /// That of the elements from i up to j.
    pub fn new(alloc: Global, root: &RootView<'_>, i: u32, j: u32) -> Result<Spot, AllocError>
        ensures { IfOk result (IsSpot root.now i j) }
    {
        let end = root.end_place(j);
        let start = if i == j {
            root.end_place(i)
        } else {
            root.start_place(i)
        };
        let first = start.0.saturating_sub(1);
        Ok(Spot {
            size: root.element_size(),
            branches: root.branches(),
            total: root.total(),
            start,
            end,
            first,
            links: links_from(alloc, root, first, end.0 + 2)?,
        })
    }
}

/// The branches of a root from one on, up to another or the last one.
pub fn links_from(
    alloc: Global,
    root: &RootView<'_>,
    first: usize,
    behind: usize,
) -> Result<Vec<BranchLink>, AllocError>
    ensures { IfOk result (λ links. AreBranchLinks root.now first behind links.items) }
{
    let mut links = Vec::new(alloc);
    for k in first..root.branches().min(behind) {
        links.push(BranchLink {
            handle: VmHandle(root.branch(k)),
            count: root.count(k),
        })?;
    }
    Ok(links)
}
