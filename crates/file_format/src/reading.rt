//! Reading the length of a file and the bytes of an extent.
ghost use Rattle.std.specs.Prelude.{◌≡◌, ◌*◌, IsTrue, IfOk, IfErr, IsErrOf, length};
ghost use Rattle.file_format.specs.File.{bytes_in};
ghost use Rattle.vm_store.specs.Facts.{FailedSince, Holds};
ghost use Rattle.file_format.specs.Reading.{IsResourceFault, OnlyReadsStore};

use crate::file::Extent;
use crate::pages::start_of;
use geos_model::Fault;
use std::alloc::Global;
use vm_store::Store;

/// How many bytes there are. File.
pub fn read_length<S: Store>(store: &mut S) -> Result<u64, Fault>
    ensures looks { OnlyReadsStore (S.facts store.old) (S.facts store.new) }
    ensures length { IfOk result (λ n. IsTrue (S.facts store.old).honest → n ≡ length (S.facts store.old).content) }
    ensures file { IsErrOf result Fault.File → FailedSince (S.facts store.old) (S.facts store.new) }
    ensures refusals { IfErr result (λ fault. fault ≡ Fault.File) }
{
    Ok(store.len()?)
}

/// The bytes of an extent. Memory, File.
pub fn read_extent<S: Store>(alloc: Global, store: &mut S, extent: Extent) -> Result<Vec<u8>, Fault>
    // The store.
    ensures looks { OnlyReadsStore (S.facts store.old) (S.facts store.new) }
    // The bytes.
    ensures size { IfOk result (λ bytes. length bytes.items ≡ extent.length) }
    ensures held { IfOk result (λ bytes. IsTrue (S.facts store.old).honest
        → Holds (S.facts store.old).content (512 * extent.page) bytes.items) }
    ensures bytes { IfOk result (λ bytes. IsTrue (S.facts store.old).honest
        → bytes.items ≡ bytes_in (S.facts store.old).content extent) }
    // Refusals.
    ensures file { IsErrOf result Fault.File → FailedSince (S.facts store.old) (S.facts store.new) }
    ensures refusals { IfErr result IsResourceFault }
{
    let mut bytes = vec![in alloc; 0; extent.length as usize]?;
    store.read_at(start_of(extent), &mut bytes)?;
    Ok(bytes)
}
