//! The bodies of branches that are copied out of memory.
ghost use Rattle.std.specs.Prelude.{◌≡◌, ◌⊎◌, ◌≤◌, false, true, IfOk, IfErr, MatchResult, length, vec_len};
ghost use Rattle.std.specs.List.{All};
ghost use Rattle.geos_model.specs.Document.{is_raw};
ghost use Rattle.geos_model.specs.Heap.{capacity};
ghost use Rattle.geos_model.specs.declared.fault.Fault.TheVariants.{BadChain};
ghost use Rattle.vm_blocks.specs.Keeping.{KeepsBlocks, IsHonest, IsEnvironmentFault, is_full};
ghost use Rattle.vm_chains.specs.Walking.{Stops};
ghost use Rattle.large_arrays.specs.Bodies.{AreBodies, HasBody, are_raw, bytes_of_bodies};
ghost use Rattle.large_arrays.specs.Spots.{link_handles};

use crate::loading::{load_branch, raw_bytes};
use crate::spot::BranchLink;
use geos_model::{Fault, VmHandle};
use std::alloc::Global;
use vm_blocks::FileBlocks;
use vm_store::Store;

/// The bodies of these branches, whatever they are, copied one after another. BadChain where there is no block of one,
/// or that is a heap.
pub fn copy_bodies<S: Store>(
    alloc: Global,
    blocks: &mut FileBlocks<S>,
    links: &[BranchLink],
) -> Result<Vec<Vec<u8>>, Fault>
    // Asked of the caller.
    requires room { is_full blocks.old ≡ false }
    // What stays.
    ensures keeps { KeepsBlocks S.facts blocks.old blocks.new }
    // What is answered.
    ensures value { IsHonest S.facts blocks.old.disk.store → MatchResult result
        (λ bodies. AreBodies blocks.new.document (link_handles links.now) (bytes_of_bodies bodies.items))
        (Stops (IsEnvironmentFault S.facts blocks.old.disk.store blocks.new.disk.store)
        (are_raw blocks.new.document (link_handles links.now) ≡ false)) }
    // Over any store.
    ensures raw { IfOk result (λ _. are_raw blocks.new.document (link_handles links.now) ≡ true) }
    ensures many { IfOk result (λ bodies. vec_len bodies ≡ length links.now) }
    ensures short { IfOk result (λ bodies. All (λ body. length body ≤ capacity) (bytes_of_bodies bodies.items)) }
    // Refusals.
    ensures refusals { IfErr result (λ fault.
        IsEnvironmentFault S.facts blocks.old.disk.store blocks.new.disk.store fault ⊎ (fault ≡ BadChain)) }
{
    let mut bodies = Vec::new(alloc);
    for link in links {
        bodies.push(copy_body(alloc, blocks, link.handle)?)?;
    }
    Ok(bodies)
}

/// That of one branch.
fn copy_body<S: Store>(
    alloc: Global,
    blocks: &mut FileBlocks<S>,
    handle: VmHandle,
) -> Result<Vec<u8>, Fault>
    requires room { is_full blocks.old ≡ false }
    ensures keeps { KeepsBlocks S.facts blocks.old blocks.new }
    ensures value { MatchResult result
        (λ body. HasBody blocks.new.document handle.0 body.items)
        (Stops (IsEnvironmentFault S.facts blocks.old.disk.store blocks.new.disk.store)
        (is_raw blocks.new.document handle.0 ≡ false)) }
    ensures short { IfOk result (λ body. length body.items ≤ capacity) }
{
    load_branch(blocks, handle)?;
    Ok(raw_bytes(blocks, handle).to_vec(alloc)?)
}
