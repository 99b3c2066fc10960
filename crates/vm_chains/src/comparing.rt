//! Whether two chains are equal.
ghost use Rattle.std.specs.Prelude.{◌≡◌, ◌⊎◌, ◌<◌, ℕ, None, Some, true, false, IfOk, IfErr, IfSome, MatchOption, MatchResult};
ghost use Rattle.geos_model.specs.Bytes.{same_bytes};
ghost use Rattle.geos_model.specs.Chain.{chain, chain_blocks, on_chains, same_shape};
ghost use Rattle.geos_model.specs.Document.{is_raw};
ghost use Rattle.geos_model.specs.Refusal.{first_refusal};
ghost use Rattle.geos_model.specs.declared.fault.Fault.TheVariants.{BadChain};
ghost use Rattle.vm_blocks.specs.Keeping.{KeepsBlocks, IsHonest, IsEnvironmentFault, is_full};
ghost use Rattle.vm_chains.specs.Answers.{AnswersChain, IsWrongRoot, IsWalkRefusal};
ghost use Rattle.vm_chains.specs.Comparing.{AreCompared, AreEqualIf, AreInStep};
ghost use Rattle.vm_chains.specs.Walking.{Stops};

use crate::stepping::Walk;
use crate::walking::test_root;
use geos_model::{Fault, VmHandle};
use raw_region::Region;
use std::alloc::Global;
use vm_blocks::FileBlocks;
use vm_store::Store;

/// Whether two chains are equal, each link compared by the place of its block in its chain, and user IDs not at all.
pub fn equal<S: Store>(
    alloc: Global,
    blocks: &mut FileBlocks<S>,
    first: VmHandle,
    second: VmHandle,
) -> Result<bool, Fault>
    requires room { is_full blocks.old ≡ false }
    ensures keeps { KeepsBlocks S.facts blocks.old blocks.new }
    ensures value { IsHonest S.facts blocks.old.disk.store
        → AnswersChain (IsEnvironmentFault S.facts blocks.old.disk.store blocks.new.disk.store)
        (on_chains blocks.new.document first.0 second.0)
        (λ same. same ≡ same_shape blocks.new.document (chain_blocks blocks.new.document first.0)
        (chain_blocks blocks.new.document second.0)) result }
    ensures refusals { IfErr result
        (IsWalkRefusal (IsEnvironmentFault S.facts blocks.old.disk.store blocks.new.disk.store)
        (IsWrongRoot blocks.old.document first.0 second.0)) }
{
    test_roots(blocks, first, second)?;
    have_same_shape(alloc, blocks, first, second)
}

/// Tests the roots of two chains: NoBlock where one of them isn't live, and then WrongKind where one is a heap. No
/// block is looked into.
pub fn test_roots<S: Store>(
    blocks: &FileBlocks<S>,
    first: VmHandle,
    second: VmHandle,
) -> Result<(), Fault>
    ensures value { MatchResult result
        (λ _. (is_raw blocks.now.document first.0 ≡ true) × (is_raw blocks.now.document second.0 ≡ true))
        (λ fault. first_refusal (on_chains blocks.now.document first.0 second.0) ≡ Some fault) }
    ensures refusals { IfErr result (IsWrongRoot blocks.now.document first.0 second.0) }
{
    if !blocks.is_live(first) || !blocks.is_live(second) {
        return Err(Fault::NoBlock);
    }
    test_root(blocks, first)?;
    test_root(blocks, second)
}

/// Whether the chains of two raw blocks are equal. They are walked side by side, so that each block is read once.
fn have_same_shape<S: Store>(
    alloc: Global,
    blocks: &mut FileBlocks<S>,
    first_root: VmHandle,
    second_root: VmHandle,
) -> Result<bool, Fault>
    // Asked of the caller.
    requires room { is_full blocks.old ≡ false }
    // What stays.
    ensures keeps { KeepsBlocks S.facts blocks.old blocks.new }
    // What is answered.
    ensures value { IsHonest S.facts blocks.old.disk.store → MatchResult result
        (AreEqualIf blocks.new.document first_root.0 second_root.0)
        (Stops (IsEnvironmentFault S.facts blocks.old.disk.store blocks.new.disk.store)
        ((chain blocks.new.document first_root.0 ≡ None) ⊎ (chain blocks.new.document second_root.0 ≡ None))) }
    // Refusals.
    ensures refusals { IfErr result
        (λ fault. IsEnvironmentFault S.facts blocks.old.disk.store blocks.new.disk.store fault ⊎ (fault ≡ BadChain)) }
{
    blocks.reveal_invariant();
    let mut first = Walk::new(alloc, first_root)?;
    let mut second = Walk::new(alloc, second_root)?;
    let same = are_alike(alloc, blocks, &mut first, &mut second)?;
    // Behind what differs there may still be what is none of a chain.
    first.finish(blocks)?;
    second.finish(blocks)?;
    Ok(same)
}

/// Whether the blocks that two walks come to are alike, one by one, as far as that takes to know.
fn are_alike<S: Store>(
    alloc: Global,
    blocks: &mut FileBlocks<S>,
    first: &mut Walk,
    second: &mut Walk,
) -> Result<bool, Fault>
    // What stays.
    ensures keeps { KeepsBlocks S.facts blocks.old blocks.new }
    // What is answered.
    ensures value { (f : ℕ) → (s : ℕ) → IsHonest S.facts blocks.old.disk.store
        → AreInStep blocks.old.document f s first.old second.old → MatchResult result
        (λ same. AreCompared blocks.new.document f s same first.new second.new)
        (Stops (IsEnvironmentFault S.facts blocks.old.disk.store blocks.new.disk.store)
        ((chain blocks.new.document f ≡ None) ⊎ (chain blocks.new.document s ≡ None))) }
    // Refusals.
    ensures refusals { IfErr result
        (λ fault. IsEnvironmentFault S.facts blocks.old.disk.store blocks.new.disk.store fault ⊎ (fault ≡ BadChain)) }
{
    // Each pair is read in the same region and put into the same two buffers.
    let mut spare = None;
    let mut mine = Vec::new(alloc);
    let mut other = Vec::new(alloc);
    loop {
        if let Some(same) = compare_next(
            blocks, first, second, &mut spare, &mut mine, &mut other,
        )? {
            return Ok(same);
        }
    }
}

/// Compares the next blocks of two walks. None where each has one and these are alike, so that the next ones decide.
/// They are put into two buffers, whatever is in these.
fn compare_next<S: Store>(
    blocks: &mut FileBlocks<S>,
    first: &mut Walk,
    second: &mut Walk,
    spare: &mut Option<Region>,
    mine: &mut Vec<u8>,
    other: &mut Vec<u8>,
) -> Result<Option<bool>, Fault>
    // What stays.
    ensures keeps { KeepsBlocks S.facts blocks.old blocks.new }
    // What is answered.
    ensures value { (f : ℕ) → (s : ℕ) → IsHonest S.facts blocks.old.disk.store
        → AreInStep blocks.old.document f s first.old second.old → MatchResult result
        (λ known. MatchOption known (AreInStep blocks.new.document f s first.new second.new)
        (λ same. AreCompared blocks.new.document f s same first.new second.new))
        (Stops (IsEnvironmentFault S.facts blocks.old.disk.store blocks.new.disk.store)
        ((chain blocks.new.document f ≡ None) ⊎ (chain blocks.new.document s ≡ None))) }
    ensures fewer { IfOk result (λ known. MatchOption known (first.new.left < first.old.left) (λ _. Unit {0})) }
    // Refusals.
    ensures refusals { IfErr result
        (λ fault. IsEnvironmentFault S.facts blocks.old.disk.store blocks.new.disk.store fault ⊎ (fault ≡ BadChain)) }
{
    let first_block = first.step_aside(blocks, spare, mine)?;
    let second_block = second.step_aside(blocks, spare, other)?;
    match first_block {
        Some(_) => match second_block {
            Some(_) => {
                let same = are_same(mine.as_slice(), other.as_slice());
                Ok(if same { None } else { Some(false) })
            }
            None => Ok(Some(false)),
        },
        None => Ok(Some(second_block.is_none())),
    }
}

/// Whether these are the same bytes.
fn are_same(first: &[u8], second: &[u8]) -> bool
    ensures { result ≡ same_bytes first.now second.now }
{
    first == second
}
