//! Of which kind an image is: found out from its bytes, or known already.
ghost use Rattle.std.specs.Prelude.{◌≡◌, ◌*◌, ◌<◌, ◌≤◌, ◌==◌, ℕ, List, IsTrue, IfOk, OnOk, IfErr, IfSome, IsErrOf, MatchOption, Some, None, length, true};
ghost use Rattle.vm_store.specs.Facts.{FailedSince, byte};
ghost use Rattle.geos_model.specs.Image.{body_of};
ghost use Rattle.file_format.specs.File.{bytes_in, has_sum, longest_image, summed_body};
ghost use Rattle.document_file.specs.Documents.{AreImaged};
ghost use Rattle.document_file.specs.Sums.{HaveSums};
ghost use Rattle.file_format.specs.Reading.{OnlyReadsStore, IsReadRefusal};
ghost use Rattle.document_file.specs.Opened.{IsImageOf};

use crate::reading::read_summed;
use crate::table::Place;
use file_format::{BodyKind, Extent, LONGEST_IMAGE, start_of};
use geos_model::Fault;
use std::alloc::Global;
use vm_store::Store;

/// Whether bytes are the image of a heap, and not of a raw body. None where they are of neither.
pub fn image_kind(bytes: &[u8]) -> Option<bool>
    ensures { MatchOption result (body_of bytes.now ≡ None) (λ is_heap. IsImageOf is_heap bytes.now) }
{
    if bytes.is_empty() {
        return None;
    }
    let is_heap = BodyKind::of_byte(bytes[0]).is_heap();
    let is_image = if is_heap {
        heap_images::is_image(bytes)
    } else {
        bytes.len() <= LONGEST_IMAGE
    };
    if is_image { Some(is_heap) } else { None }
}

// An image of so many bytes or fewer is read whole: it takes no longer than its first byte.
const SHORT: u32 = 4096;

// Whether an extent has more bytes than are read at once, and no more than an image.
fn is_long(extent: Extent) -> bool
    ensures { result ≡ true → (1 ≤ extent.length) × (extent.length ≤ longest_image) }
{
    extent.length > SHORT && extent.length as usize <= LONGEST_IMAGE
}

/// Whether the image in an extent, which must have a sum if one is given, is that of a heap. Of a long raw body the
/// first byte alone is read, since any bytes may follow it, unless there is a sum. Damaged, Memory, File.
pub fn read_kind<S: Store>(
    alloc: Global,
    store: &mut S,
    extent: Extent,
    sum: Option<u32>,
) -> Result<bool, Fault>
    ensures looks { OnlyReadsStore (S.facts store.old) (S.facts store.new) }
    ensures imaged { IfOk result (λ is_heap. IsTrue (S.facts store.old).honest
        → IsImageOf is_heap (bytes_in (S.facts store.old).content extent)) }
    ensures summed { OnOk result (IsTrue (S.facts store.old).honest
        → has_sum sum (bytes_in (S.facts store.old).content extent) ≡ true) }
    ensures damaged { IsErrOf result Fault.Damaged → IsTrue (S.facts store.old).honest
        → summed_body sum (bytes_in (S.facts store.old).content extent) ≡ None }
    ensures file { IsErrOf result Fault.File → FailedSince (S.facts store.old) (S.facts store.new) }
    ensures refusals { IfErr result IsReadRefusal }
{
    if sum.is_none() && is_long(extent) && is_raw(store, extent)? {
        return Ok(false);
    }
    let bytes = read_summed(alloc, store, extent, sum)?;
    image_kind(&bytes).ok_or(Fault::Damaged)
}

// Whether the first byte of an extent is that of raw bodies. File.
fn is_raw<S: Store>(store: &mut S, extent: Extent) -> Result<bool, Fault>
    ensures looks { OnlyReadsStore (S.facts store.old) (S.facts store.new) }
    ensures first { IfOk result (λ is_raw. IsTrue (S.facts store.old).honest
        → (512 * extent.page < length (S.facts store.old).content)
        × (is_raw ≡ (byte (S.facts store.old).content (512 * extent.page) == 0))) }
    ensures file { IsErrOf result Fault.File → FailedSince (S.facts store.old) (S.facts store.new) }
    ensures refusals { IfErr result (λ fault. fault ≡ Fault.File) }
{
    let mut first = [0];
    store.read_at(start_of(extent), &mut first)?;
    Ok(BodyKind::of_byte(first[0]) == BodyKind::Raw)
}

/// The kind of the image of a place that is known, if it lies in this extent and has this sum.
pub fn known_kind(
    known: &[Option<Place>],
    index: usize,
    extent: Extent,
    sum: Option<u32>,
) -> Option<bool>
    ensures summed { IfSome result (λ _. (file : List ℕ) → HaveSums file known.now
        → has_sum sum (bytes_in file extent) ≡ true) }
    ensures imaged { IfSome result (λ is_heap. (file : List ℕ) → AreImaged file known.now
        → IsImageOf is_heap (bytes_in file extent)) }
{
    match known.get(index) {
        Some(Some(place)) => {
            if place.extent == extent && place.sum == sum {
                Some(place.is_heap)
            } else {
                None
            }
        }
        _ => None,
    }
}
