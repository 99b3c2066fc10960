//! Reading images. Each must have its sum, where it has one.
ghost use Rattle.std.specs.Prelude.{◌≡◌, IsTrue, IfOk, IfErr, IsErrOf, true, false, length};
ghost use Rattle.vm_store.specs.Facts.{FailedSince};
ghost use Rattle.geos_model.specs.Image.{image};
ghost use Rattle.geos_model.specs.declared.command.Body.TheVariants as bodies;
ghost use Rattle.file_format.specs.File.{bytes_in, has_sum};
ghost use Rattle.file_format.specs.Reading.{IsReadRefusal, OnlyReadsStore};

use checksum::{crc32c, crc32c_after};
use file_format::{BodyKind, Extent, has_sum, read_extent};
use geos_model::Fault;
use std::alloc::Global;
use vm_store::Store;

/// The bytes of an extent. Damaged where a sum is given and theirs is another; Memory, File.
pub fn read_summed<S: Store>(
    alloc: Global,
    store: &mut S,
    extent: Extent,
    sum: Option<u32>,
) -> Result<Vec<u8>, Fault>
    // The store.
    ensures looks { OnlyReadsStore (S.facts store.old) (S.facts store.new) }
    // The bytes.
    ensures size { IfOk result (λ bytes. length bytes.items ≡ extent.length) }
    ensures bytes { IfOk result (λ bytes. IsTrue (S.facts store.old).honest
        → bytes.items ≡ bytes_in (S.facts store.old).content extent) }
    ensures summed { IfOk result (λ bytes. has_sum sum bytes.items ≡ true) }
    // Refusals.
    ensures damaged { IsErrOf result Fault.Damaged → IsTrue (S.facts store.old).honest
        → has_sum sum (bytes_in (S.facts store.old).content extent) ≡ false }
    ensures file { IsErrOf result Fault.File → FailedSince (S.facts store.old) (S.facts store.new) }
    ensures refusals { IfErr result IsReadRefusal }
{
    let bytes = read_extent(alloc, store, extent)?;
    if !has_sum(sum, &bytes) {
        return Err(Fault::Damaged);
    }
    Ok(bytes)
}

/// Whether the image of a raw body has this sum, where one is given. It is summed piece by piece, so that the body is
/// not copied behind its kind.
pub fn raw_has_sum(sum: Option<u32>, body: &[u8]) -> bool
    ensures { result ≡ has_sum sum (image (bodies.Raw body.now)) }
{
    match sum {
        None => true,
        Some(sum) => {
            let kind = crc32c(&[BodyKind::Raw.byte()]);
            sum == crc32c_after(kind, body)
        }
    }
}
