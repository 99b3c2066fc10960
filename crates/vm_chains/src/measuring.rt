//! How many bytes the blocks of a chain have.
ghost use Rattle.std.specs.Prelude.{◌≡◌, false, IfErr};
ghost use Rattle.geos_model.specs.Chain.{chain_bytes, chain_blocks, on_chain};
ghost use Rattle.geos_model.specs.Document.{is_raw};
ghost use Rattle.vm_blocks.specs.Keeping.{KeepsBlocks, IsHonest, IsEnvironmentFault, is_full};
ghost use Rattle.vm_blocks.specs.Kinds.{IsWrongBlock};
ghost use Rattle.vm_chains.specs.Answers.{AnswersChain, IsWalkRefusal};
ghost use Rattle.vm_chains.specs.Numbers.{numbers};
ghost use Rattle.vm_chains.specs.Walking.{AreBlocks};

use crate::walk;
use geos_model::{Fault, VmHandle};
use std::alloc::Global;
use vm_blocks::FileBlocks;
use vm_store::Store;

/// How many bytes the blocks of a chain have. How long a block is, is known without its bytes.
pub fn size<S: Store>(
    alloc: Global,
    blocks: &mut FileBlocks<S>,
    root: VmHandle,
) -> Result<u32, Fault>
    requires room { is_full blocks.old ≡ false }
    ensures keeps { KeepsBlocks S.facts blocks.old blocks.new }
    ensures value { IsHonest S.facts blocks.old.disk.store
        → AnswersChain (IsEnvironmentFault S.facts blocks.old.disk.store blocks.new.disk.store)
        (on_chain blocks.new.document root.0)
        (λ n. n ≡ chain_bytes blocks.new.document (chain_blocks blocks.new.document root.0)) result }
    ensures refusals { IfErr result
        (IsWalkRefusal (IsEnvironmentFault S.facts blocks.old.disk.store blocks.new.disk.store)
        (IsWrongBlock is_raw blocks.old.document root.0)) }
{
    let handles = walk(alloc, blocks, root)?;
    Ok(total_len(blocks, &handles))
}

/// How many bytes these blocks have.
fn total_len<S: Store>(blocks: &FileBlocks<S>, handles: &[VmHandle]) -> u32
    requires { AreBlocks blocks.now.document handles.now }
    ensures { IsHonest S.facts blocks.now.disk.store
        → result ≡ chain_bytes blocks.now.document (numbers handles.now) }
{
    let mut total = 0;
    for handle in handles {
        total += blocks.raw_len(*handle) as u32;
    }
    total
}
