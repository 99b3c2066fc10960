//! Whether branches are different blocks.
ghost use Rattle.std.specs.Prelude.{◌≡◌, ◌∷◌, ◌==◌, ◌||◌, ℕ, false, IfOk, get_or};
ghost use Rattle.std.specs.List.{list_any};
ghost use Rattle.geos_model.specs.ElementArray.{all_distinct};
ghost use Rattle.large_arrays.specs.Spots.{link_handles};

use crate::spot::BranchLink;
use geos_model::VmHandle;
use std::alloc::{AllocError, Global};
use std::marker::Model;

/// Up to how many branches are compared pair by pair, for which no memory is taken.
const FEW: usize = 8;

/// How many numbers a handle can have.
const HANDLES: usize = 65_536;

/// Whether none of these branches is there twice, and none is the root. It takes time in proportion to their number.
pub fn are_distinct(alloc: Global, root: VmHandle, links: &[BranchLink]) -> Result<bool, AllocError>
    ensures { IfOk result (λ distinct. distinct ≡ all_distinct (root.0 ∷ link_handles links.now)) }
{
    if links.len() <= FEW {
        Ok(!has_handle(links, root) && are_few_distinct(links))
    } else {
        are_many_distinct(alloc, root, links)
    }
}

/// Whether one of these branches has a handle.
fn has_handle(links: &[BranchLink], handle: VmHandle) -> bool
    ensures { result ≡ list_any (λ h. handle.0 == h) (link_handles links.now) }
{
    for link in links {
        if handle == link.handle {
            return true;
        }
    }
    false
}

/// Whether none of these branches is there twice.
fn are_few_distinct(links: &[BranchLink]) -> bool
    ensures { result ≡ all_distinct (link_handles links.now) }
{
    for i in 0..links.len() {
        if has_handle(&links[i + 1..], links[i].handle) {
            return false;
        }
    }
    true
}

/// The same of more, each of which is marked.
fn are_many_distinct(
    alloc: Global,
    root: VmHandle,
    links: &[BranchLink],
) -> Result<bool, AllocError>
    ensures { IfOk result (λ distinct. distinct ≡ all_distinct (root.0 ∷ link_handles links.now)) }
{
    let mut met = Met::new(alloc)?;
    met.add(root);
    for link in links {
        if met.contains(link.handle) {
            return Ok(false);
        }
        met.add(link.handle);
    }
    Ok(true)
}

/// The handles that were met. Contracts see a mark at each.
#[derive(Drop)]
struct Met {
    marks: Vec<bool>,
}

impl Model for Met {
    ghost use Rattle.std.specs.Prelude.{◌≡◌, Bool, List, length};

    ghost Value = { List Bool };

    ghost view = { λ m. m.marks.items };

    ghost invariant = { λ m. length m.marks.items ≡ 65536 };
}

impl Met {
    /// None yet.
    fn new(alloc: Global) -> Result<Met, AllocError>
        ensures { IfOk result (λ met. (h : ℕ) → get_or met h false ≡ false) }
    {
        Ok(Met {
            marks: vec![in alloc; false; HANDLES]?,
        })
    }

    /// Whether a handle was met.
    fn contains(&self, handle: VmHandle) -> bool
        ensures { result ≡ get_or self.now handle.0 false }
    {
        self.marks[usize::from(handle.0)]
    }

    /// Adds a handle.
    fn add(&mut self, handle: VmHandle)
        ensures { (h : ℕ) → get_or self.new h false ≡ ((h == handle.0) || get_or self.old h false) }
    {
        self.marks[usize::from(handle.0)] = true;
    }
}
