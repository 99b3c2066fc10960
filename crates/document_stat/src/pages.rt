//! The pages of a file on which nothing lies.
ghost use Rattle.std.specs.Prelude.{IfOk};
ghost use Rattle.file_format.specs.File.{pages_of};
ghost use Rattle.file_report.specs.Pages.{AreFreePages};
ghost use Rattle.document_stat.specs.Files.{counting_usages};

use crate::counting::CountingSlot;
use file_format::page_count;
use file_report::{FreePages, free_pages, slot_usages};
use std::alloc::{AllocError, Global};

/// Of a file of so many bytes the pages on which nothing lies that the slot that counts leads to.
pub fn count_pages(
    alloc: Global,
    slot: &CountingSlot,
    file_length: u64,
) -> Result<FreePages, AllocError>
    ensures { IfOk result (AreFreePages (counting_usages slot.now) (pages_of file_length)) }
{
    let usages = slot_usages(alloc, &slot.slot, Some(&slot.updated), Some(&slot.saved))?;
    Ok(free_pages(&usages, page_count(file_length)))
}
