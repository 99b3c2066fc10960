//! What is read of a block that a walk has met.
ghost use Rattle.std.specs.Prelude.{◌≡◌, ◌≤◌, true, false, IfOk, IfErr, length};
ghost use Rattle.geos_model.specs.Chain.{is_member, relinked};
ghost use Rattle.geos_model.specs.Document.{is_heap, is_live, raw_bytes_of};
ghost use Rattle.geos_model.specs.Heap.{capacity};
ghost use Rattle.vm_blocks.specs.Keeping.{KeepsBlocks, IsHonest, IsEnvironmentFault};
ghost use Rattle.vm_chains.specs.Naming.{name_in};

use crate::links::links_of;
use crate::renaming::{Renaming, relink};
use geos_model::{Fault, VmHandle};
use raw_region::Region;
use std::alloc::Global;
use vm_blocks::FileBlocks;
use vm_store::Store;

// A block that was met before is read again. Only a store that isn't honest gives another body then: where no chain can
// have that, it is Damaged.

/// Its bytes, with each of its links renamed. It stays where it is, and is read in a spare region.
pub(crate) fn relinked_at<S: Store>(
    alloc: Global,
    blocks: &mut FileBlocks<S>,
    handle: VmHandle,
    names: &Renaming,
    spare: &mut Option<Region>,
) -> Result<Vec<u8>, Fault>
    // Asked of the caller.
    requires live { is_live blocks.old.document handle.0 ≡ true }
    requires member { IsHonest S.facts blocks.old.disk.store → is_member blocks.old.document handle.0 ≡ true }
    // What stays.
    ensures keeps { KeepsBlocks S.facts blocks.old blocks.new }
    // What is answered.
    ensures value { IsHonest S.facts blocks.old.disk.store → IfOk result
        (λ bytes. bytes.items ≡ relinked (name_in names.now) (raw_bytes_of blocks.new.document handle.0)) }
    ensures small { IfOk result (λ bytes. length bytes.items ≤ capacity) }
    ensures raw { IfOk result (λ _. is_heap blocks.new.document handle.0 ≡ false) }
    // Refusals.
    ensures refusals { IfErr result (IsEnvironmentFault S.facts blocks.old.disk.store blocks.new.disk.store) }
{
    if blocks.is_heap(handle) {
        return Err(Fault::Damaged);
    }
    let body = blocks.read_aside(handle, spare)?;
    let Some(links) = links_of(&body) else {
        return Err(Fault::Damaged);
    };
    let mut bytes = Vec::new(alloc);
    relink(&body, links, names, &mut bytes)?;
    *spare = Some(body.into_region());
    Ok(bytes)
}
