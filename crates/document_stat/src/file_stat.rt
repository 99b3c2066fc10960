//! What a document file has, counted.
ghost use Rattle.std.specs.Prelude.{◌≡◌, ℕ, true, IsTrue, IfOk, IfErr, IsErrOf, Some, None};
ghost use Rattle.geos_model.specs.Document.{Document};
ghost use Rattle.file_format.specs.File.{document_of, is_directory};
ghost use Rattle.file_format.specs.Listed.{as_directory};
ghost use Rattle.vm_store.specs.Facts.{FailedSince};
ghost use Rattle.file_format.specs.Reading.{IsReadRefusal, OnlyReadsStore};
ghost use Rattle.document_stat.specs.Files.{IsCountingSlot, IsDocumentStat, IsFileStat, IsRefusal, IsSavedStat};

use crate::blocks::BlockStat;
use crate::counting::{CountingSlot, read_counting_slot};
use crate::documents::count_blocks;
use crate::pages::count_pages;
use file_format::{Directory, page_count, read_length};
use file_report::FreePages;
use geos_model::{Fault, VmHandle};
use std::alloc::Global;
use vm_store::Store;

/// What a document has.
#[derive(Drop)]
pub struct DocumentStat {
    /// 0 for none.
    pub map_block: VmHandle,
    pub blocks: BlockStat,
}

/// What a file has, of what the slot that counts leads to.
#[derive(Drop)]
pub struct FileStat {
    /// In bytes.
    pub file_length: u64,
    /// Of 512 bytes; the last one may not be whole.
    pub pages: u64,
    /// Those on which nothing lies.
    pub free: FreePages,
    pub updated: DocumentStat,
    /// None where both documents have the same directory, so that it is the updated one.
    pub saved: Option<DocumentStat>,
}

// Damaged where an image is none; Memory, File.
fn count_document<S: Store>(
    alloc: Global,
    store: &mut S,
    directory: &Directory,
) -> Result<DocumentStat, Fault>
    ensures looks { OnlyReadsStore (S.facts store.old) (S.facts store.new) }
    ensures ok { IfOk result (λ stat. IsTrue (S.facts store.old).honest
        → (version : ℕ) (n : ℕ) → is_directory version n (as_directory directory.now) ≡ true
        → (d : Document) × (document_of (S.facts store.old).content (as_directory directory.now) ≡ Some d)
        × IsDocumentStat d stat) }
    ensures damaged { IsErrOf result Fault.Damaged → IsTrue (S.facts store.old).honest
        → document_of (S.facts store.old).content (as_directory directory.now) ≡ None }
    ensures file { IsErrOf result Fault.File → FailedSince (S.facts store.old) (S.facts store.new) }
    ensures refusals { IfErr result IsReadRefusal }
{
    let blocks = count_blocks(alloc, store, &directory.entries)?;
    Ok(DocumentStat {
        map_block: directory.map_block,
        blocks,
    })
}

// The saved document of a slot, None where the updated one has the same directory. Damaged where an image is none;
// Memory, File.
fn count_saved<S: Store>(
    alloc: Global,
    store: &mut S,
    slot: &CountingSlot,
) -> Result<Option<DocumentStat>, Fault>
    ensures looks { OnlyReadsStore (S.facts store.old) (S.facts store.new) }
    ensures ok { IfOk result (λ stat. IsTrue (S.facts store.old).honest
        → IsCountingSlot (S.facts store.old).content slot.now
        → IsSavedStat (S.facts store.old).content slot.now.slot stat) }
    ensures damaged { IsErrOf result Fault.Damaged → IsTrue (S.facts store.old).honest
        → document_of (S.facts store.old).content (as_directory slot.now.saved) ≡ None }
    ensures file { IsErrOf result Fault.File → FailedSince (S.facts store.old) (S.facts store.new) }
    ensures refusals { IfErr result IsReadRefusal }
{
    if slot.slot.working == slot.slot.saved {
        return Ok(None);
    }
    Ok(Some(count_document(alloc, store, &slot.saved)?))
}

/// Reads a file and counts what it has. Each directory is read once, and each image once for each of the two documents
/// that has it; no more memory is taken than for the directories and one image. NotDocument and Damaged where an
/// opening answers so; Memory, File.
pub fn stat<S: Store>(alloc: Global, store: &mut S) -> Result<FileStat, Fault>
    ensures looks { OnlyReadsStore (S.facts store.old) (S.facts store.new) }
    ensures ok { IfOk result (λ stat. IsTrue (S.facts store.old).honest → IsFileStat (S.facts store.old).content stat) }
    ensures file { IsErrOf result Fault.File → FailedSince (S.facts store.old) (S.facts store.new) }
    ensures err { IfErr result (IsRefusal (S.facts store.old)) }
{
    let file_length = read_length(store)?;
    let slot = read_counting_slot(alloc, store, file_length)?;
    let free = count_pages(alloc, &slot, file_length)?;
    let updated = count_document(alloc, store, &slot.updated)?;
    let saved = count_saved(alloc, store, &slot)?;
    Ok(FileStat {
        file_length,
        pages: page_count(file_length),
        free,
        updated,
        saved,
    })
}
