//! The tables of heaps.
ghost use Rattle.std.specs.Prelude.{◌≡◌, ◌≤◌, IsTrue, IfOk, IfErr, IsErrOf, length};
ghost use Rattle.file_format.specs.File.{bytes_in};
ghost use Rattle.geos_model.specs.Heap.{most_chunks};
ghost use Rattle.vm_store.specs.Facts.{FailedSince};
ghost use Rattle.file_format.specs.Reading.{OnlyReadsStore};
ghost use Rattle.file_map.specs.Faults.{IsReadLack};
ghost use Rattle.file_map.specs.Heaps.{sizes};

use crate::fault::MapFault;
use crate::heaps::read_sizes;
use file_format::{Extent, read_extent};
use std::alloc::Global;
use vm_store::Store;

/// The table of the heap in an extent. Memory, File.
pub fn read_table<S: Store>(
    alloc: Global,
    store: &mut S,
    extent: Extent,
) -> Result<Vec<u16>, MapFault>
    ensures looks { OnlyReadsStore (S.facts store.old) (S.facts store.new) }
    ensures table { IfOk result (λ table. IsTrue (S.facts store.old).honest
        → table.items ≡ sizes (bytes_in (S.facts store.old).content extent)) }
    ensures few { IfOk result (λ table. length table.items ≤ most_chunks) }
    ensures file { IsErrOf result MapFault.File → FailedSince (S.facts store.old) (S.facts store.new) }
    ensures refusals { IfErr result IsReadLack }
{
    let image = read_extent(alloc, store, extent)?;
    let sizes = read_sizes(alloc, &image)?;
    Ok(sizes)
}
