//! Elements of one size of a large array that are lent where they lie.
ghost use Rattle.doc_edits.specs.LentRuns.{FindsRun};

use crate::room::test_chain;
use geos_model::{Fault, VmHandle};
use large_arrays::{RunPlace, find_run};
use vm_blocks::FileBlocks;
use vm_store::Store;

/// Brings the branch of an element into memory, and tells where that and those behind it stand there. NoBlock,
/// WrongKind; then CacheFull where each frame has a locked block: with these nothing changes; NotArray, NoElement;
/// Range where elements vary in size; BadChain. Memory, File or Damaged may come in place of what follows CacheFull.
pub fn prepare_run<S: Store>(
    blocks: &mut FileBlocks<S>,
    root: VmHandle,
    i: u32,
) -> Result<RunPlace, Fault>
    ensures { FindsRun S.facts blocks.old blocks.new root.0 i result }
{
    test_chain(blocks, root)?;
    find_run(blocks, root, i)
}
