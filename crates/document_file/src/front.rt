//! Reading the front of an image, without what stands behind it.
ghost use Rattle.std.specs.Prelude.{◌≡◌, Bool, IsTrue, IfOk, IfErr, false, true, is_some, drop};
ghost use Rattle.vm_store.specs.Facts.{FailedSince};
ghost use Rattle.geos_model.specs.Document.{is_heap, is_live, raw_bytes_of};
ghost use Rattle.file_format.specs.File.{bytes_in};
ghost use Rattle.file_format.specs.Reading.{OnlyReadsStore};
ghost use Rattle.document_file.specs.Documents.{document_in, AreImaged};
ghost use Rattle.document_file.specs.Fronts.{first_word};
ghost use Rattle.document_file.specs.Sums.{AreSummed};

use crate::table::{BlockTable, place_in};
use byteorder::{ByteOrder, LittleEndian};
use file_format::{Extent, start_of};
use geos_model::{Fault, VmHandle};
use vm_store::Store;

/// The first word of a raw block that a table has, without the bytes behind it. None where it has no word, or where its
/// image has a sum: then only the whole image tells whether it is damaged. File.
pub fn read_first_word<S: Store>(
    store: &mut S,
    table: &BlockTable,
    block: VmHandle,
) -> Result<Option<u16>, Fault>
    // A live raw block of a table whose images the store has.
    requires live { is_live (document_in (S.facts store.old).content table.now) block.0 ≡ true }
    requires raw { is_heap (document_in (S.facts store.old).content table.now) block.0 ≡ false }
    requires images { IsTrue (S.facts store.old).honest → AreImaged (S.facts store.old).content table.now.places.items }
    // What is read.
    ensures looks { OnlyReadsStore (S.facts store.old) (S.facts store.new) }
    ensures word { IfOk result (λ word. (summed : Bool) → IsTrue (S.facts store.old).honest
        → AreSummed summed (S.facts store.old).content table.now.places.items
        → word ≡ first_word summed (raw_bytes_of (document_in (S.facts store.old).content table.now) block.0)) }
    // Refusals.
    ensures fails { IfErr result
        (λ fault. (fault ≡ Fault.File) × FailedSince (S.facts store.old) (S.facts store.new)) }
{
    match place_in(table, block) {
        Some(place) => read_word_behind_kind(store, place.extent, place.sum),
        None => unreachable!(),
    }
}

/// The word behind the first byte of an extent. None where the extent ends before it, or where a sum is given. File.
fn read_word_behind_kind<S: Store>(
    store: &mut S,
    extent: Extent,
    sum: Option<u32>,
) -> Result<Option<u16>, Fault>
    ensures looks { OnlyReadsStore (S.facts store.old) (S.facts store.new) }
    ensures word { IfOk result (λ word. IsTrue (S.facts store.old).honest
        → word ≡ first_word (is_some sum) (drop 1 (bytes_in (S.facts store.old).content extent))) }
    ensures fails { IfErr result
        (λ fault. (fault ≡ Fault.File) × FailedSince (S.facts store.old) (S.facts store.new)) }
{
    if sum.is_some() || extent.length < 3 {
        return Ok(None);
    }
    let mut word = [0; 2];
    store.read_at(start_of(extent) + 1, &mut word)?;
    Ok(Some(LittleEndian::read_u16(&word)))
}
