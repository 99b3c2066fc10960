//! The blocks of a directory, read and counted.
ghost use Rattle.std.specs.Prelude.{◌≡◌, IsTrue, IfOk, IfErr, IsErrOf, Some, None};
ghost use Rattle.file_format.specs.File.{block_of, blocks_of_entries};
ghost use Rattle.vm_store.specs.Facts.{FailedSince};
ghost use Rattle.file_format.specs.Reading.{IsReadRefusal, OnlyReadsStore};
ghost use Rattle.file_report.specs.Reading.{block_with};
ghost use Rattle.document_stat.specs.Counted.{Blocks, IsCount};

use crate::blocks::BlockStat;
use document_file::Image;
use file_format::Entry;
use geos_model::Fault;
use std::alloc::Global;
use vm_store::Store;

// The image of an entry, of a body that can have its type. Damaged, Memory, File.
fn read_image<S: Store>(alloc: Global, store: &mut S, entry: &Entry) -> Result<Image, Fault>
    ensures looks { OnlyReadsStore (S.facts store.old) (S.facts store.new) }
    ensures ok { IfOk result (λ image. IsTrue (S.facts store.old).honest
        → block_of (S.facts store.old).content entry.now ≡ Some (block_with entry.now image)) }
    ensures damaged { IsErrOf result Fault.Damaged → IsTrue (S.facts store.old).honest
        → block_of (S.facts store.old).content entry.now ≡ None }
    ensures file { IsErrOf result Fault.File → FailedSince (S.facts store.old) (S.facts store.new) }
    ensures refusals { IfErr result IsReadRefusal }
{
    match file_report::read_image(alloc, store, entry)? {
        Some(image) => Ok(image),
        None => Err(Fault::Damaged),
    }
}

/// Counts the blocks of a directory with these entries. Each image is read once, and one at a time is kept. Damaged
/// where the bytes of one are no image of a body that can have its type; Memory, File.
pub fn count_blocks<S: Store>(
    alloc: Global,
    store: &mut S,
    entries: &[Entry],
) -> Result<BlockStat, Fault>
    ensures looks { OnlyReadsStore (S.facts store.old) (S.facts store.new) }
    ensures ok { IfOk result (λ stat. IsTrue (S.facts store.old).honest
        → (bs : Blocks) × (blocks_of_entries (S.facts store.old).content entries.now ≡ Some bs) × IsCount bs stat) }
    ensures damaged { IsErrOf result Fault.Damaged → IsTrue (S.facts store.old).honest
        → blocks_of_entries (S.facts store.old).content entries.now ≡ None }
    ensures file { IsErrOf result Fault.File → FailedSince (S.facts store.old) (S.facts store.new) }
    ensures refusals { IfErr result IsReadRefusal }
{
    let mut stat = BlockStat::new(alloc);
    for entry in entries {
        let image = read_image(alloc, store, entry)?;
        stat.add(alloc, entry.handle, entry.attributes, &image)?;
    }
    Ok(stat)
}
