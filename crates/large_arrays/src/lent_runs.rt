//! Elements of one size that are lent where they lie in their branch.
ghost use Rattle.std.specs.Prelude.{◌≡◌, ◌^◌, ◌<◌, ◌⊎◌, None, Some, false, IfOk, IfErr, MatchResult};
ghost use Rattle.geos_model.specs.Refusal.{first_refusal};
ghost use Rattle.geos_model.specs.LargeEdits.{read_large_conditions};
ghost use Rattle.geos_model.specs.declared.fault.Fault.TheVariants.{BadChain};
ghost use Rattle.vm_blocks.specs.Keeping.{KeepsBlocks, IsEnvironmentFault, IsHonest, is_full};
ghost use Rattle.large_arrays.specs.LargeRuns.{IsRunRefusal, IsRunRefused};
ghost use Rattle.large_arrays.specs.LentRuns.{IsLentFrom, IsLentSpot, IsRunLoaded, IsRunPlace};
ghost use Rattle.large_arrays.specs.Loading.{IsRawLoaded, branch_under};

use crate::loading::{load_branch, load_root, loaded_branch, loaded_root};
use crate::spot::BranchLink;
use geos_model::{Fault, VmHandle};
use large_bodies::RootView;
use vm_blocks::FileBlocks;
use vm_store::Store;

/// Where elements stand: in a block, from a byte on to the block's last one.
#[derive(Clone, Copy)]
pub struct RunPlace {
    pub block: VmHandle,
    pub start: usize,
}

/// Brings the branch of an element into memory, and tells where that and those behind it stand there. NoBlock,
/// WrongKind, NotArray, NoElement; Range where elements vary in size; BadChain; Memory, File, Damaged.
pub fn find_run<S: Store>(
    blocks: &mut FileBlocks<S>,
    root: VmHandle,
    i: u32,
) -> Result<RunPlace, Fault>
    // Asked of the caller.
    requires room { is_full blocks.old ≡ false }
    // What stays.
    ensures keeps { KeepsBlocks S.facts blocks.old blocks.new }
    // What is answered.
    ensures value { IsHonest S.facts blocks.old.disk.store → MatchResult result
        (IsRunPlace blocks.new.document root.0 i)
        (λ fault. IsEnvironmentFault S.facts blocks.old.disk.store blocks.new.disk.store fault
        ⊎ (first_refusal (read_large_conditions blocks.new.document root.0 i 1) ≡ Some fault)) }
    ensures ready { IfOk result (IsRunLoaded blocks.new) }
    // Refusals.
    ensures refusals { IfErr result
        (IsRunRefusal (IsEnvironmentFault S.facts blocks.old.disk.store blocks.new.disk.store)
        blocks.old.document root.0) }
{
    load_root(blocks, root)?;
    let spot = lent_spot(&loaded_root(blocks, root), i)?;
    if spot.link.handle == root {
        return Err(Fault::BadChain);
    }
    load_branch(blocks, spot.link.handle)?;
    run_place(blocks, &spot)
}

/// What is taken from a root of an element that is lent with those behind it.
#[derive(Clone, Copy)]
struct LentSpot {
    size: usize,
    link: BranchLink,
    /// How many elements of the branch are before it.
    before: usize,
}

/// That of an element. NoElement; Range where sizes vary.
fn lent_spot(root: &RootView<'_>, i: u32) -> Result<LentSpot, Fault>
    ensures { MatchResult result (IsLentSpot root.now i) (IsRunRefused root.now i 1) }
{
    if i >= root.total() {
        return Err(Fault::NoElement);
    }
    let size = root.element_size();
    if size == 0 {
        return Err(Fault::Range);
    }
    let (k, before) = root.start_place(i);
    Ok(LentSpot {
        size,
        link: BranchLink {
            handle: VmHandle(root.branch(k)),
            count: root.count(k),
        },
        before: before as usize,
    })
}

/// Where the element stands in its branch, which is in memory. BadChain.
fn run_place<S: Store>(blocks: &FileBlocks<S>, spot: &LentSpot) -> Result<RunPlace, Fault>
    requires loaded { IsRawLoaded blocks.now spot.now.link.handle.0 }
    requires size { spot.now.size < 2 ^ 16 }
    requires there { spot.now.before < spot.now.link.count }
    ensures value { MatchResult result
        (λ place. IsLentFrom blocks.now.document spot.now place)
        (λ fault. (fault ≡ BadChain)
        × (branch_under blocks.now.document spot.now.link.handle.0 spot.now.size spot.now.link.count ≡ None)) }
    ensures ready { IfOk result (IsRunLoaded blocks.now) }
{
    let link = spot.link;
    let view = loaded_branch(blocks, link.handle, spot.size, usize::from(link.count))?;
    // The array stands behind a zero word.
    Ok(RunPlace {
        block: link.handle,
        start: 2 + view.place(spot.before),
    })
}
