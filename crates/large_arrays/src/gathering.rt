//! What an edit takes from the branches that it looks at, before any block changes.
ghost use Rattle.std.specs.Prelude.{◌≡◌, ◌⊎◌, ◌<◌, ◌≤◌, ◌+◌, ℕ, true, false, IfOk, IfErr, MatchResult};
ghost use Rattle.geos_model.specs.declared.fault.Fault.TheVariants.{BadChain};
ghost use Rattle.vm_blocks.specs.Keeping.{KeepsBlocks, IsHonest, IsEnvironmentFault, is_full};
ghost use Rattle.vm_chains.specs.Walking.{Stops};
ghost use Rattle.geos_model.specs.LargeBlocks.{root_at, pieces_at};
ghost use Rattle.geos_model.specs.LargeWindow.{looked_at, are_branches};
ghost use Rattle.large_arrays.specs.Bodies.{AreBodies, are_raw, bytes_of_bodies};
ghost use Rattle.large_arrays.specs.Gathering.{IsGatheredWindow, AreGathered};
ghost use Rattle.large_arrays.specs.LookedBranches.{AreThere, HasLinks, HaveBodies, left_links, right_links};
ghost use Rattle.large_arrays.specs.Middle.{IsRunSpot};
ghost use Rattle.large_arrays.specs.Spots.{IsSpot, link_handles};

use crate::bodies::copy_bodies;
use crate::gathered::Gathered;
use crate::joining::{
    LookedBodies, behind_with, first_with, links_between, looked_sides, middle_ends, put_together,
};
use crate::middle::middle_of;
use crate::spot::Spot;
use geos_model::{Fault, VmHandle};
use large_bodies::{NewElements, Sides};
use std::alloc::Global;
use vm_blocks::FileBlocks;
use vm_store::Store;

/// What comes in the place of the elements of a spot, and of neighbours that are joined to it, with all that is needed
/// of the branches that go. BadChain where one of those that are looked at isn't what the root says, is there twice, or
/// is the root; Memory, File, Damaged.
pub(crate) fn gather<S: Store>(
    alloc: Global,
    blocks: &mut FileBlocks<S>,
    root: VmHandle,
    spot: &Spot,
    new: &NewElements<'_>,
) -> Result<Gathered, Fault>
    // Asked of the caller.
    requires room { is_full blocks.old ≡ false }
    requires run { IsRunSpot spot.now }
    requires size { new.now.size ≡ spot.now.size }
    // What stays.
    ensures keeps { KeepsBlocks S.facts blocks.old blocks.new }
    // What is answered.
    ensures value { IsHonest S.facts blocks.old.disk.store → (i j : ℕ)
        → IsSpot (root_at blocks.new.document root.0) i j spot.now → i ≤ j → MatchResult result
        (IsGatheredWindow blocks.new.document root.0 i j new.now.elements)
        (Stops (IsEnvironmentFault S.facts blocks.old.disk.store blocks.new.disk.store)
        (are_branches blocks.new.document root.0 (root_at blocks.new.document root.0)
        (looked_at (root_at blocks.new.document root.0).size
        (pieces_at blocks.new.document (root_at blocks.new.document root.0)) i j new.now.elements) ≡ false)) }
    // Over any store.
    ensures listed { IfOk result (AreGathered blocks.new.document root.0) }
    ensures refusals { IfErr result (λ fault.
        IsEnvironmentFault S.facts blocks.old.disk.store blocks.new.disk.store fault ⊎ (fault ≡ BadChain)) }
{
    let next = spot.end.0 + 1;
    let links = links_between(spot, spot.start.0, next);
    let copied = copy_bodies(alloc, blocks, links)?;
    let middle = middle_of(alloc, spot, copied.as_slice(), new)?;
    let looked = looked_sides(spot, middle_ends(&middle.pieces));
    let bodies = with_neighbours(alloc, blocks, spot, looked, copied)?;
    put_together(alloc, root, spot, middle, looked, bodies)
}

/// The bodies of a run, with those of the neighbours that are looked at.
fn with_neighbours<S: Store>(
    alloc: Global,
    blocks: &mut FileBlocks<S>,
    spot: &Spot,
    looked: Sides,
    run: Vec<Vec<u8>>,
) -> Result<LookedBodies, Fault>
    // Asked of the caller.
    requires room { is_full blocks.old ≡ false }
    requires run { HasLinks spot.now }
    requires there { AreThere spot.now looked }
    // What stays.
    ensures keeps { KeepsBlocks S.facts blocks.old blocks.new }
    ensures same { IfOk result (λ bodies. bodies.run ≡ run) }
    // What is answered.
    ensures value { IsHonest S.facts blocks.old.disk.store → MatchResult result
        (λ bodies. AreBodies blocks.new.document (link_handles (left_links spot.now looked)) (bytes_of_bodies bodies.left.items)
        × AreBodies blocks.new.document (link_handles (right_links spot.now looked)) (bytes_of_bodies bodies.right.items))
        (Stops (IsEnvironmentFault S.facts blocks.old.disk.store blocks.new.disk.store)
        ((are_raw blocks.new.document (link_handles (left_links spot.now looked)) ≡ false)
        ⊎ (are_raw blocks.new.document (link_handles (right_links spot.now looked)) ≡ false))) }
    // Over any store.
    ensures left { IfOk result (λ bodies. HaveBodies (left_links spot.now looked) bodies.left.items) }
    ensures right { IfOk result (λ bodies. HaveBodies (right_links spot.now looked) bodies.right.items) }
    ensures raw { IfOk result (λ _. (are_raw blocks.new.document (link_handles (left_links spot.now looked)) ≡ true)
        × (are_raw blocks.new.document (link_handles (right_links spot.now looked)) ≡ true)) }
    ensures refusals { IfErr result (λ fault.
        IsEnvironmentFault S.facts blocks.old.disk.store blocks.new.disk.store fault ⊎ (fault ≡ BadChain)) }
{
    let before = links_between(spot, first_with(spot, looked), spot.start.0);
    let left = copy_bodies(alloc, blocks, before)?;
    let next = spot.end.0 + 1;
    let behind = links_between(spot, next, behind_with(spot, looked));
    let right = copy_bodies(alloc, blocks, behind)?;
    Ok(LookedBodies { left, run, right })
}
