//! One of a slot's documents: its directory, and the images of its blocks.
ghost use Rattle.std.specs.Prelude.{◌≡◌, ◌<◌, ℕ, IsTrue, List, OnOk, IfOk, IfErr, IsErrOf, false, true, None, is_some, length};
ghost use Rattle.std.specs.Option.{option_map};
ghost use Rattle.file_format.specs.File.{block_of, blocks_of_entries, bytes_in, has_sum};
ghost use Rattle.vm_store.specs.Facts.{FailedSince};
ghost use Rattle.file_format.specs.Reading.{IsResourceFault, OnlyReadsStore};
ghost use Rattle.file_report.specs.Findings.{FindsMore};
ghost use Rattle.file_report.specs.Reading.{IsSoIn, IsSoOfEntries, IsSoOfEntry, block_with};
ghost use Rattle.file_report.specs.Checked.{IsChecked};

use crate::directory::{directory_extent, directory_sum, note_directory};
use crate::finding::{Finding, Named, note_unless};
use document_file::Image;
use file_format::{
    Directory, Entry, ReadDirectory, Slot, has_sum, look_for_directory, read_extent,
};
use geos_model::{Bytes, Fault};
use std::alloc::Global;
use vm_store::Store;

/// One of a slot's documents, as it was found.
#[derive(Drop)]
pub struct CheckedDocument {
    /// None where there is none.
    pub directory: Option<Directory>,
    /// Whether it is a document: it has a directory, and an image of each block.
    pub stands: bool,
}

/// The image of an entry, None where its bytes haven't its sum, or are none of a body that can have its type. Memory,
/// File.
pub fn read_image<S: Store>(
    alloc: Global,
    store: &mut S,
    entry: &Entry,
) -> Result<Option<Image>, Fault>
    ensures looks { OnlyReadsStore (S.facts store.old) (S.facts store.new) }
    ensures image { IfOk result (λ image. IsTrue (S.facts store.old).honest
        → block_of (S.facts store.old).content entry.now ≡ option_map (block_with entry.now) image) }
    ensures file { IsErrOf result Fault.File → FailedSince (S.facts store.old) (S.facts store.new) }
    ensures refusals { IfErr result IsResourceFault }
{
    let bytes = read_extent(alloc, store, entry.extent)?;
    if !has_sum(entry.sum, &bytes) {
        return Ok(None);
    }
    Ok(summed_image(entry, bytes))
}

// The image of an entry in bytes that have its sum.
fn summed_image(entry: &Entry, bytes: Vec<u8>) -> Option<Image>
    ensures { (file : List ℕ) → bytes.items ≡ bytes_in file entry.now.extent
        → has_sum entry.now.sum bytes.items ≡ true
        → block_of file entry.now ≡ option_map (block_with entry.now) result }
{
    match Image::from_bytes(Bytes::from_vec(bytes)) {
        Some(image) if image.is_heap() || entry.attributes.heap_type == 0 => Some(image),
        _ => None,
    }
}

// Whether there is one, and what is wrong if not. Memory, File.
fn look_for_image<S: Store>(
    alloc: Global,
    store: &mut S,
    entry: &Entry,
    name: Named,
) -> Result<(bool, Finding), Fault>
    ensures looks { OnlyReadsStore (S.facts store.old) (S.facts store.new) }
    ensures image { IfOk result (λ found. IsTrue (S.facts store.old).honest
        → found.0 ≡ is_some (block_of (S.facts store.old).content entry.now)) }
    ensures wrong { IfOk result (λ found. found.0 ≡ false
        → IsSoOfEntry (S.facts store.old) name entry.now found.1) }
    ensures file { IsErrOf result Fault.File → FailedSince (S.facts store.old) (S.facts store.new) }
    ensures refusals { IfErr result IsResourceFault }
{
    let bytes = read_extent(alloc, store, entry.extent)?;
    if !has_sum(entry.sum, &bytes) {
        return Ok((false, Finding::Sum(name, *entry)));
    }
    let has = summed_image(entry, bytes).is_some();
    Ok((has, Finding::Image(name, *entry)))
}

// Whether each of these entries has its image. Memory, File.
fn check_images<S: Store>(
    alloc: Global,
    store: &mut S,
    entries: &[Entry],
    name: Named,
    findings: &mut Vec<Finding>,
) -> Result<bool, Fault>
    ensures looks { OnlyReadsStore (S.facts store.old) (S.facts store.new) }
    ensures images { IfOk result (λ have. IsTrue (S.facts store.old).honest
        → have ≡ is_some (blocks_of_entries (S.facts store.old).content entries.now)) }
    ensures found { OnOk result (FindsMore (IsSoOfEntries (S.facts store.old) name entries.now)
        findings.old.items findings.new.items) }
    ensures some { IfOk result (λ have. have ≡ false → length findings.old.items < length findings.new.items) }
    ensures file { IsErrOf result Fault.File → FailedSince (S.facts store.old) (S.facts store.new) }
    ensures refusals { IfErr result IsResourceFault }
{
    let mut have = true;
    for entry in entries {
        let (has, wrong) = look_for_image(alloc, store, entry, name)?;
        note_unless(has, wrong, findings)?;
        have = have & has;
    }
    Ok(have)
}

fn nothing() -> CheckedDocument
    ensures { (result.directory ≡ None) × (result.stands ≡ false) }
{
    CheckedDocument {
        directory: None,
        stands: false,
    }
}

/// Looks through one of a slot's documents. Memory, File.
pub fn check_document<S: Store>(
    alloc: Global,
    store: &mut S,
    file_length: u64,
    slot: &Slot,
    name: Named,
    findings: &mut Vec<Finding>,
) -> Result<CheckedDocument, Fault>
    requires { IsTrue (S.facts store.old).honest → file_length ≡ length (S.facts store.old).content }
    ensures looks { OnlyReadsStore (S.facts store.old) (S.facts store.new) }
    ensures document { IfOk result (λ d. IsTrue (S.facts store.old).honest
        → IsChecked (S.facts store.old).content slot.now name d) }
    ensures found { OnOk result (FindsMore (IsSoIn (S.facts store.old) slot.now)
        findings.old.items findings.new.items) }
    ensures some { IfOk result (λ d. d.stands ≡ false → length findings.old.items < length findings.new.items) }
    ensures file { IsErrOf result Fault.File → FailedSince (S.facts store.old) (S.facts store.new) }
    ensures refusals { IfErr result IsResourceFault }
{
    let extent = directory_extent(slot, name);
    let sum = directory_sum(slot, name);
    let read = look_for_directory(alloc, store, slot.version, file_length, extent, sum)?;
    note_directory(&read, file_length, slot, name, findings)?;
    match read {
        ReadDirectory::Right(directory) => {
            let stands = check_images(alloc, store, &directory.entries, name, findings)?;
            Ok(CheckedDocument {
                directory: Some(directory),
                stands,
            })
        }
        ReadDirectory::Misplaced => Ok(nothing()),
        ReadDirectory::Wrong(_bytes) => Ok(nothing()),
    }
}
