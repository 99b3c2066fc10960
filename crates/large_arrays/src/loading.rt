//! Roots and branches of large arrays that are brought into memory, and read there.
ghost use Rattle.std.specs.Prelude.{◌≡◌, ◌^◌, ◌+◌, ◌<◌, ◌≤◌, None, Some, true, false, IfOk, IfErr, MatchResult, length};
ghost use Rattle.geos_model.specs.Document.{is_raw, raw_bytes_of};
ghost use Rattle.geos_model.specs.Array.{array_bytes};
ghost use Rattle.geos_model.specs.Heap.{capacity};
ghost use Rattle.geos_model.specs.LargeLayout.{root_of};
ghost use Rattle.raw_region.specs.Roots.{is_large_root};
ghost use Rattle.vm_blocks.specs.Keeping.{KeepsBlocks, IsEnvironmentFault, is_full, is_loaded};
ghost use Rattle.vm_chains.specs.Answers.{AnswersChain};
ghost use Rattle.vm_chains.specs.Walking.{Stops};
ghost use Rattle.geos_model.specs.LargeBlocks.{root_at};
ghost use Rattle.large_bodies.specs.BranchReading.{IsPlain};
ghost use Rattle.geos_model.specs.LargeEdits.{on_root};
ghost use Rattle.large_arrays.specs.Loading.{IsRawLoaded, IsRootLoaded, IsRootRefusal, branch_under};

use chunk_arrays::View;
use geos_model::{Fault, VmHandle};
use large_bodies::{RootView, known_root, read_branch, read_root};
use vm_blocks::{BlockBody, FileBlocks};
use vm_chains::test_root;
use vm_store::Store;

// A block that is brought in may take the frame of another one. So what is needed of a root is copied before a branch
// comes, and what is needed of a branch before the next one does.

/// Brings a root into memory. NoBlock where no block is there, WrongKind where a heap is, NotArray where its bytes are
/// no root. They are tested where they aren't known to be one, in time by the number of branches.
pub fn load_root<S: Store>(blocks: &mut FileBlocks<S>, root: VmHandle) -> Result<(), Fault>
    requires room { is_full blocks.old ≡ false }
    ensures keeps { KeepsBlocks S.facts blocks.old blocks.new }
    ensures value { AnswersChain (IsEnvironmentFault S.facts blocks.old.disk.store blocks.new.disk.store)
        (on_root blocks.new.document root.0) (λ _. IsRootLoaded blocks.new root.0) result }
    ensures refusals { IfErr result
        (IsRootRefusal (IsEnvironmentFault S.facts blocks.old.disk.store blocks.new.disk.store)
        blocks.old.document root.0) }
{
    blocks.load_raw(root)?;
    if is_known_root(blocks, root) {
        return Ok(());
    }
    test_loaded_root(blocks, root)
}

/// Whether the bytes of a block in memory are known to be a root.
fn is_known_root<S: Store>(blocks: &FileBlocks<S>, root: VmHandle) -> bool
    requires { is_loaded blocks.now root.0 ≡ true }
    ensures { result ≡ true → is_large_root (raw_bytes_of blocks.now.document root.0) ≡ true }
{
    match blocks.body(root) {
        BlockBody::Raw(body) => body.is_known_root(),
        BlockBody::Heap(_) => false,
    }
}

/// Tests the bytes of a raw block in memory, and has it keep in mind that they are a root. NotArray where they are
/// none.
fn test_loaded_root<S: Store>(blocks: &mut FileBlocks<S>, root: VmHandle) -> Result<(), Fault>
    requires { IsRawLoaded blocks.old root.0 }
    ensures same { blocks.new ≡ blocks.old }
    ensures value { MatchResult result
        (λ _. is_large_root (raw_bytes_of blocks.old.document root.0) ≡ true)
        (λ fault. (fault ≡ Fault.NotArray) × (root_of (raw_bytes_of blocks.old.document root.0) ≡ None)) }
{
    let _tested = read_root(raw_bytes(blocks, root))?;
    blocks.mark_root(root);
    Ok(())
}

/// The root that is in memory. It isn't tested again.
pub fn loaded_root<S: Store>(blocks: &FileBlocks<S>, root: VmHandle) -> RootView<'_>
    requires { IsRootLoaded blocks.now root.0 }
    ensures { result ≡ root_at blocks.now.document root.0 }
{
    known_root(raw_bytes(blocks, root))
}

/// Brings the block of a branch into memory. BadChain where no block is there, or a heap is.
pub fn load_branch<S: Store>(blocks: &mut FileBlocks<S>, handle: VmHandle) -> Result<(), Fault>
    requires room { is_full blocks.old ≡ false }
    ensures keeps { KeepsBlocks S.facts blocks.old blocks.new }
    ensures value { MatchResult result
        (λ _. IsRawLoaded blocks.new handle.0)
        (Stops (IsEnvironmentFault S.facts blocks.old.disk.store blocks.new.disk.store)
        (is_raw blocks.new.document handle.0 ≡ false)) }
{
    if test_root(blocks, handle).is_err() {
        return Err(Fault::BadChain);
    }
    blocks.load_raw(handle)
}

/// The elements of the branch that is in memory. BadChain where its bytes are no branch of so many elements of this
/// size, 0 where sizes vary.
pub fn loaded_branch<S: Store>(
    blocks: &FileBlocks<S>,
    handle: VmHandle,
    size: usize,
    count: usize,
) -> Result<View<'_>, Fault>
    requires loaded { IsRawLoaded blocks.now handle.0 }
    requires size { size < 2 ^ 16 }
    ensures value { MatchResult result
        (λ view. branch_under blocks.now.document handle.0 size count ≡ Some view.array.elements)
        (λ fault. (fault ≡ Fault.BadChain) × (branch_under blocks.now.document handle.0 size count ≡ None)) }
    ensures plain { IfOk result (λ view. IsPlain view.array size count) }
    ensures short { IfOk result (λ view. 2 + length (array_bytes view.array) ≤ capacity) }
{
    read_branch(raw_bytes(blocks, handle), size, count)
}

/// The bytes of a raw block in memory.
pub(crate) fn raw_bytes<S: Store>(blocks: &FileBlocks<S>, handle: VmHandle) -> &[u8]
    requires { IsRawLoaded blocks.now handle.0 }
    ensures value { result.now ≡ raw_bytes_of blocks.now.document handle.0 }
    ensures short { length result.now ≤ capacity }
{
    match blocks.body(handle) {
        BlockBody::Raw(body) => body.bytes(),
        BlockBody::Heap(_) => unreachable!(),
    }
}
