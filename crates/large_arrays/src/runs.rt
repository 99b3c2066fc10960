//! A run of elements of one size.
ghost use Rattle.std.specs.Prelude.{◌≡◌, ◌^◌, ◌+◌, ◌-◌, ◌++◌, ◌<◌, ◌≤◌, ◌⊎◌, None, Some, true, false, IfOk, IfErr, MatchResult};
ghost use Rattle.geos_model.specs.declared.fault.Fault.TheVariants.{BadChain};
ghost use Rattle.vm_blocks.specs.Keeping.{KeepsBlocks, IsEnvironmentFault, IsHonest, is_full};
ghost use Rattle.vm_chains.specs.Answers.{AnswersChain};
ghost use Rattle.vm_chains.specs.Walking.{Stops};
ghost use Rattle.geos_model.specs.LargeEdits.{large_run, read_large_conditions};
ghost use Rattle.large_arrays.specs.LargeRuns.{AppendsRun, IsReadable, IsRunRefusal, IsRunRefused, IsReadSpot, IsWithin, are_branches_under, run_under};
ghost use Rattle.large_arrays.specs.Loading.{branch_under};

use crate::distinct::are_distinct;
use crate::loading::{load_branch, load_root, loaded_branch, loaded_root};
use crate::spot::{BranchLink, links_from};
use geos_model::{CAPACITY, Fault, VmHandle};
use large_bodies::RootView;
use std::alloc::{AllocError, Global};
use vm_blocks::FileBlocks;
use vm_store::Store;

/// The bytes of n elements of one size from one on. Range where sizes vary, or where they are more than a raw body has.
pub fn read_run<S: Store>(
    alloc: Global,
    blocks: &mut FileBlocks<S>,
    root: VmHandle,
    i: u32,
    n: u32,
) -> Result<Vec<u8>, Fault>
    // Asked of the caller.
    requires room { is_full blocks.old ≡ false }
    // What stays.
    ensures keeps { KeepsBlocks S.facts blocks.old blocks.new }
    // What is answered.
    ensures value { IsHonest S.facts blocks.old.disk.store
        → AnswersChain (IsEnvironmentFault S.facts blocks.old.disk.store blocks.new.disk.store)
        (read_large_conditions blocks.new.document root.0 i n)
        (λ bytes. bytes.items ≡ large_run blocks.new.document root.0 i n) result }
    // Refusals.
    ensures refusals { IfErr result
        (IsRunRefusal (IsEnvironmentFault S.facts blocks.old.disk.store blocks.new.disk.store)
        blocks.old.document root.0) }
{
    load_root(blocks, root)?;
    test_run(&loaded_root(blocks, root), i, n)?;
    if n == 0 {
        return Ok(Vec::new(alloc));
    }
    let spot = run_spot(alloc, &loaded_root(blocks, root), i, n)?;
    if !are_distinct(alloc, root, &spot.links)? {
        return Err(Fault::BadChain);
    }
    copy_run(alloc, blocks, &spot)
}

/// Whether there is a run that can be read. NoElement, Range.
fn test_run(root: &RootView<'_>, i: u32, n: u32) -> Result<(), Fault>
    ensures { MatchResult result (λ _. IsReadable root.now i n) (IsRunRefused root.now i n) }
{
    if u64::from(i) + u64::from(n) > u64::from(root.total()) {
        return Err(Fault::NoElement);
    }
    let size = root.element_size();
    if size == 0 || n as usize * size > CAPACITY {
        return Err(Fault::Range);
    }
    Ok(())
}

/// What is taken from a root of a run of elements.
#[derive(Drop)]
struct RunSpot {
    size: usize,
    /// The branches that have them.
    links: Vec<BranchLink>,
    /// How many elements of the first branch are before them.
    before: usize,
    count: usize,
}

/// That of some elements.
fn run_spot(alloc: Global, root: &RootView<'_>, i: u32, n: u32) -> Result<RunSpot, AllocError>
    requires { IsReadable root.now i n }
    ensures { IfOk result (IsReadSpot root.now i n) }
{
    let (first, before) = root.start_place(i);
    let (last, _) = root.end_place(i + n);
    Ok(RunSpot {
        size: root.element_size(),
        links: links_from(alloc, root, first, last + 1)?,
        before: before as usize,
        count: n as usize,
    })
}

/// The elements of a run, from one branch after another. BadChain.
fn copy_run<S: Store>(
    alloc: Global,
    blocks: &mut FileBlocks<S>,
    spot: &RunSpot,
) -> Result<Vec<u8>, Fault>
    // Asked of the caller.
    requires room { is_full blocks.old ≡ false }
    requires within { IsWithin spot.now }
    // What stays.
    ensures keeps { KeepsBlocks S.facts blocks.old blocks.new }
    // What is answered.
    ensures value { IsHonest S.facts blocks.old.disk.store → MatchResult result
        (λ bytes. (are_branches_under blocks.new.document spot.now.size spot.now.links.items ≡ true)
        × (bytes.items ≡ run_under blocks.new.document spot.now))
        (Stops (IsEnvironmentFault S.facts blocks.old.disk.store blocks.new.disk.store)
        (are_branches_under blocks.new.document spot.now.size spot.now.links.items ≡ false)) }
    // Refusals.
    ensures refusals { IfErr result
        (λ fault. IsEnvironmentFault S.facts blocks.old.disk.store blocks.new.disk.store fault ⊎ (fault ≡ BadChain)) }
{
    let mut bytes = Vec::new(alloc);
    let mut from = spot.before;
    let mut left = spot.count;
    for link in &spot.links {
        let to = usize::from(link.count).min(from + left);
        append_run(blocks, *link, spot.size, from, to, &mut bytes)?;
        left -= to - from;
        from = 0;
    }
    Ok(bytes)
}

/// Appends the elements of a branch from one up to another. BadChain.
fn append_run<S: Store>(
    blocks: &mut FileBlocks<S>,
    link: BranchLink,
    size: usize,
    from: usize,
    to: usize,
    bytes: &mut Vec<u8>,
) -> Result<(), Fault>
    // Asked of the caller.
    requires room { is_full blocks.old ≡ false }
    requires size { size < 2 ^ 16 }
    requires order { from ≤ to }
    requires within { to ≤ link.count }
    // What stays.
    ensures keeps { KeepsBlocks S.facts blocks.old blocks.new }
    // What is done.
    ensures value { MatchResult result
        (λ _. AppendsRun blocks.new.document size link from to bytes.old.items bytes.new.items)
        (Stops (IsEnvironmentFault S.facts blocks.old.disk.store blocks.new.disk.store)
        (branch_under blocks.new.document link.handle.0 size link.count ≡ None)) }
{
    load_branch(blocks, link.handle)?;
    let view = loaded_branch(blocks, link.handle, size, usize::from(link.count))?;
    bytes.extend_from_slice(view.run(from, to))?;
    Ok(())
}
