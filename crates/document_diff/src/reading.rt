//! Blocks that are read.
ghost use Rattle.std.specs.Prelude.{◌≡◌, IfErr, IfOk, IsTrue, Some, true};
ghost use Rattle.std.specs.FinMap.{get};
ghost use Rattle.geos_model.specs.Document.{attributes_of, is_live};
ghost use Rattle.document_file.specs.StoredDocuments.{OnlyReadsDocuments};
ghost use Rattle.document_diff.specs.Blocks.{block_as_read, found_block};
ghost use Rattle.document_diff.specs.Diffs.{document_by};
ghost use Rattle.document_diff.specs.Faults.{IsBlockRefusal};

use crate::block::{BlockRead, read_body};
use crate::version::Version;
use document_file::StoredDocuments;
use geos_model::{Attributes, Fault, VmHandle};
use std::alloc::Global;
use vm_store::Store;

// The block under a handle, which is live.
fn read_live<S: Store>(
    alloc: Global,
    file: &mut StoredDocuments<S>,
    version: Version,
    block: VmHandle,
    attributes: Attributes,
) -> Result<BlockRead, Fault>
    requires live { is_live (document_by version file.old) block.0 ≡ true }
    requires attributes { attributes ≡ attributes_of (document_by version file.old) block.0 }
    ensures reads { OnlyReadsDocuments S.facts file.old file.new }
    ensures fails { IfErr result (IsBlockRefusal (S.facts file.old.store) (S.facts file.new.store)) }
    ensures ok { IfOk result (λ read. IsTrue (S.facts file.old.store).honest
        → Some (block_as_read read) ≡ get (document_by version file.old).blocks block.0) }
{
    file.reveal_invariant();
    let image = version.read(file, block)?;
    let body = read_body(alloc, image)?;
    Ok(BlockRead { attributes, body })
}

/// The block under a handle, None where none is live.
pub fn read_block<S: Store>(
    alloc: Global,
    file: &mut StoredDocuments<S>,
    version: Version,
    block: VmHandle,
) -> Result<Option<BlockRead>, Fault>
    ensures reads { OnlyReadsDocuments S.facts file.old file.new }
    ensures fails { IfErr result (IsBlockRefusal (S.facts file.old.store) (S.facts file.new.store)) }
    ensures ok { IfOk result (λ found. IsTrue (S.facts file.old.store).honest
        → found_block found ≡ get (document_by version file.old).blocks block.0) }
{
    match version.attributes(file, block) {
        None => Ok(None),
        Some(attributes) => {
            let read = read_live(alloc, file, version, block, attributes)?;
            Ok(Some(read))
        }
    }
}
