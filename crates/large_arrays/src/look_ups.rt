//! How many elements a large array has, and one of them.
ghost use Rattle.std.specs.Prelude.{◌≡◌, ◌^◌, ◌<◌, ◌≤◌, ◌⊎◌, None, Some, [], true, false, IfOk, IfErr, MatchResult, get_or};
ghost use Rattle.geos_model.specs.declared.fault.Fault.TheVariants.{BadChain, NoElement};
ghost use Rattle.vm_blocks.specs.Keeping.{KeepsBlocks, IsEnvironmentFault, IsHonest, is_full};
ghost use Rattle.vm_chains.specs.Answers.{AnswersChain};
ghost use Rattle.geos_model.specs.LargeEdits.{get_large_conditions, large_count, large_element, on_root};
ghost use Rattle.large_arrays.specs.LargeLookUps.{IsElementLoaded, IsElementRefusal, IsElementSpot, IsElementPlaced, placed_bytes};
ghost use Rattle.geos_model.specs.LargeLayout.{total_count};
ghost use Rattle.large_arrays.specs.Loading.{IsRawLoaded, IsRootRefusal, branch_under};

use crate::loading::{load_branch, load_root, loaded_branch, loaded_root, raw_bytes};
use crate::spot::BranchLink;
use geos_model::{Fault, VmHandle};
use large_bodies::RootView;
use vm_blocks::FileBlocks;
use vm_store::Store;

/// How many elements there are. No branch is looked at.
pub fn count<S: Store>(blocks: &mut FileBlocks<S>, root: VmHandle) -> Result<u32, Fault>
    requires room { is_full blocks.old ≡ false }
    ensures keeps { KeepsBlocks S.facts blocks.old blocks.new }
    ensures value { AnswersChain (IsEnvironmentFault S.facts blocks.old.disk.store blocks.new.disk.store)
        (on_root blocks.new.document root.0) (λ n. n ≡ large_count blocks.new.document root.0) result }
    ensures refusals { IfErr result
        (IsRootRefusal (IsEnvironmentFault S.facts blocks.old.disk.store blocks.new.disk.store)
        blocks.old.document root.0) }
{
    load_root(blocks, root)?;
    Ok(loaded_root(blocks, root).total())
}

/// Where an element stands: in a block, from one byte up to another.
#[derive(Clone, Copy)]
pub struct ElementPlace {
    block: VmHandle,
    start: usize,
    end: usize,
}

/// Brings the branch of an element into memory, and tells where it stands there.
pub fn prepare_element<S: Store>(
    blocks: &mut FileBlocks<S>,
    root: VmHandle,
    i: u32,
) -> Result<ElementPlace, Fault>
    // Asked of the caller.
    requires room { is_full blocks.old ≡ false }
    // What stays.
    ensures keeps { KeepsBlocks S.facts blocks.old blocks.new }
    // What is answered.
    ensures value { IsHonest S.facts blocks.old.disk.store
        → AnswersChain (IsEnvironmentFault S.facts blocks.old.disk.store blocks.new.disk.store)
        (get_large_conditions blocks.new.document root.0 i)
        (λ place. placed_bytes blocks.new.document place ≡ large_element blocks.new.document root.0 i) result }
    ensures ready { IfOk result (IsElementLoaded blocks.new) }
    // Refusals.
    ensures refusals { IfErr result
        (IsElementRefusal (IsEnvironmentFault S.facts blocks.old.disk.store blocks.new.disk.store)
        blocks.old.document root.0) }
{
    load_root(blocks, root)?;
    let spot = element_spot(&loaded_root(blocks, root), i)?;
    if spot.link.handle == root {
        return Err(Fault::BadChain);
    }
    load_branch(blocks, spot.link.handle)?;
    element_place(blocks, &spot)
}

/// The bytes of an element that was prepared, where they lie.
pub fn element<S: Store>(blocks: &FileBlocks<S>, place: ElementPlace) -> &[u8]
    requires { IsElementLoaded blocks.now place }
    ensures { result.now ≡ placed_bytes blocks.now.document place }
{
    &raw_bytes(blocks, place.block)[place.start..place.end]
}

/// What is taken from a root of one element.
#[derive(Clone, Copy)]
struct ElementSpot {
    size: usize,
    link: BranchLink,
    /// How many elements of the branch are before it.
    before: usize,
}

/// That of an element. NoElement.
fn element_spot(root: &RootView<'_>, i: u32) -> Result<ElementSpot, Fault>
    ensures { MatchResult result (IsElementSpot root.now i)
        (λ fault. (fault ≡ NoElement) × (total_count root.now ≤ i)) }
{
    if i >= root.total() {
        return Err(Fault::NoElement);
    }
    let (k, before) = root.start_place(i);
    Ok(ElementSpot {
        size: root.element_size(),
        link: BranchLink {
            handle: VmHandle(root.branch(k)),
            count: root.count(k),
        },
        before: before as usize,
    })
}

/// Where the element stands in its branch, which is in memory. BadChain.
fn element_place<S: Store>(
    blocks: &FileBlocks<S>,
    spot: &ElementSpot,
) -> Result<ElementPlace, Fault>
    requires loaded { IsRawLoaded blocks.now spot.now.link.handle.0 }
    requires size { spot.now.size < 2 ^ 16 }
    requires there { spot.now.before < spot.now.link.count }
    ensures value { MatchResult result
        (λ place. IsElementPlaced blocks.now.document spot.now place)
        (λ fault. (fault ≡ BadChain)
        × (branch_under blocks.now.document spot.now.link.handle.0 spot.now.size spot.now.link.count ≡ None)) }
    ensures ready { IfOk result (IsElementLoaded blocks.now) }
{
    let link = spot.link;
    let view = loaded_branch(blocks, link.handle, spot.size, usize::from(link.count))?;
    // The array stands behind a zero word.
    Ok(ElementPlace {
        block: link.handle,
        start: 2 + view.place(spot.before),
        end: 2 + view.place(spot.before + 1),
    })
}
