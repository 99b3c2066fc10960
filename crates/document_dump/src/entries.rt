//! A dump of one document whose entries are given.
#![tactic(auto, using(crate::proofs::Texts::texts))]

ghost use Rattle.std.specs.Prelude.{◌≡◌, ◌++◌, ◌+◌, ◌≤◌, ◌<◌, ℕ, List, OnOk, IfErr, IfOk, IsTrue, is_some};
ghost use Rattle.std.specs.Io.KnownBytes.{Appends};
ghost use Rattle.geos_model.specs.Document.{Document, empty_document, vm_handles};
ghost use Rattle.file_format.specs.Reading.{OnlyReadsStore};
ghost use Rattle.document_dump.specs.Changes.{after_block, block_changed, block_freed, blocks_changed, blocks_freed, changes, first_progress, progress_after};
ghost use Rattle.document_dump.specs.Dumps.{is_some_text, saved_text};
ghost use Rattle.document_dump.specs.Entries.{HasBlocks, IsListedAs, entry_with};
ghost use Rattle.document_dump.specs.Faults.{IsDumpRefusal};
ghost use Rattle.document_dump.specs.Lines.{text};
ghost use Rattle.document_dump.specs.Steps.{IsChange};

use crate::changes::{Change, Progress, push_change, push_map_set};
use crate::dumping::{Written, either, send};
use crate::fault::DumpFault;
use crate::lines::push_free_block;
use file_format::{Entry, read_extent};
use geos_model::{MOST_BLOCKS, VmHandle};
use std::alloc::{AllocError, Global};
use std::io::Write;
use vm_store::Store;

fn entry_with(entries: &[Entry], block: VmHandle) -> Option<Entry>
    ensures { result ≡ entry_with block.0 entries.now }
{
    for entry in entries {
        let found = entry.handle.0 == block.0;
        if found {
            return Some(*entry);
        }
    }
    None
}

fn is_listed(entries: &[Entry], block: VmHandle) -> bool
    ensures { result ≡ is_some (entry_with block.0 entries.now) }
{
    entry_with(entries, block).is_some()
}

// What is done of the block under a handle. Memory, File.
fn listed_change<S: Store>(
    alloc: Global,
    store: &mut S,
    entries: &[Entry],
    block: VmHandle,
) -> Result<Change, DumpFault>
    ensures reads { OnlyReadsStore (S.facts store.old) (S.facts store.new) }
    ensures fails { IfErr result (IsDumpRefusal (S.facts store.old) (S.facts store.new)) }
    ensures ok { IfOk result (λ change. IsTrue (S.facts store.old).honest
        → (map_block : ℕ) (d : Document) → IsListedAs (S.facts store.old).content map_block entries.now d
        → IsChange empty_document d block.0 change) }
{
    match entry_with(entries, block) {
        None => Ok(Change::Free),
        Some(entry) => {
            let image = read_extent(alloc, store, entry.extent)?;
            Ok(Change::Made(false, entry.attributes, image))
        }
    }
}

// The edits of one block. Whether there are any, and how far the blocks are made then.
fn write_listed<S: Store, W: Write>(
    alloc: Global,
    store: &mut S,
    entries: &[Entry],
    block: VmHandle,
    progress: Progress,
    writer: &mut W,
) -> Result<Written, DumpFault>
    requires few { progress.holes < 65535 }
    requires whole { IsTrue (S.facts store.old).honest → HasBlocks (S.facts store.old).content entries.now }
    ensures reads { OnlyReadsStore (S.facts store.old) (S.facts store.new) }
    ensures fails { IfErr result (IsDumpRefusal (S.facts store.old) (S.facts store.new)) }
    ensures holes { IfOk result (λ after. after.progress.holes ≤ progress.holes + 1) }
    ensures ok { IfOk result (λ after. IsTrue (S.facts store.old).honest
        → (map_block : ℕ) (d : Document) → IsListedAs (S.facts store.old).content map_block entries.now d
        → (after.some ≡ is_some_text (text (block_changed empty_document d progress block.0)))
        × (after.progress ≡ after_block empty_document d progress block.0)
        × Appends (W.contents writer.old) (W.contents writer.new)
        (text (block_changed empty_document d progress block.0))) }
{
    let mut out = Vec::new(alloc);
    let change = listed_change(alloc, store, entries, block)?;
    let after = push_change(alloc, &mut out, block, change, progress)?;
    let some = send(out.as_slice(), writer)?;
    Ok(Written {
        some,
        progress: after,
    })
}

// The edits of all blocks.
fn write_all_listed<S: Store, W: Write>(
    alloc: Global,
    store: &mut S,
    entries: &[Entry],
    writer: &mut W,
) -> Result<Written, DumpFault>
    requires { IsTrue (S.facts store.old).honest → HasBlocks (S.facts store.old).content entries.now }
    ensures reads { OnlyReadsStore (S.facts store.old) (S.facts store.new) }
    ensures fails { IfErr result (IsDumpRefusal (S.facts store.old) (S.facts store.new)) }
    ensures ok { IfOk result (λ after. IsTrue (S.facts store.old).honest
        → (map_block : ℕ) (d : Document) → IsListedAs (S.facts store.old).content map_block entries.now d
        → (after.some ≡ is_some_text (text (blocks_changed empty_document d (first_progress 0) vm_handles)))
        × (after.progress ≡ progress_after empty_document d (first_progress 0) vm_handles)
        × Appends (W.contents writer.old) (W.contents writer.new)
        (text (blocks_changed empty_document d (first_progress 0) vm_handles))) }
{
    let mut some = false;
    let mut progress = Progress {
        holes: 0,
        last: 0,
        map_block: 0,
    };
    for i in 0..MOST_BLOCKS {
        let block = VmHandle(i + 1);
        let step = write_listed(alloc, store, entries, block, progress, writer)?;
        some = either(some, step.some);
        progress = step.progress;
    }
    Ok(Written { some, progress })
}

fn push_unlisted(
    out: &mut Vec<u8>,
    entries: &[Entry],
    last: u16,
    block: VmHandle,
) -> Result<(), AllocError>
    ensures { OnOk result ((file : List ℕ) (map_block : ℕ) (d : Document) → IsListedAs file map_block entries.now d
        → out.new.items ≡ out.old.items ++ text (block_freed empty_document d last block.0)) }
{
    let listed = is_listed(entries, block);
    if listed {
        return Ok(());
    }
    let below = block.0 < last;
    if below {
        push_free_block(out, block)?;
        return Ok(());
    }
    Ok(())
}

// The blocks that took a free handle go.
fn push_all_unlisted(out: &mut Vec<u8>, entries: &[Entry], last: u16) -> Result<(), AllocError>
    ensures { OnOk result ((file : List ℕ) (map_block : ℕ) (d : Document) → IsListedAs file map_block entries.now d
        → out.new.items ≡ out.old.items ++ text (blocks_freed empty_document d last)) }
{
    for i in 0..MOST_BLOCKS {
        push_unlisted(out, entries, last, VmHandle(i + 1))?;
    }
    Ok(())
}

/// Writes a script of commands that makes one document, whose blocks lie in a store under these entries; of those with
/// one handle the first one counts. Nothing is written to the store. The writer gets many short pieces, so it should be
/// buffered.
pub fn dump_entries<S: Store, W: Write>(
    alloc: Global,
    store: &mut S,
    entries: &[Entry],
    map_block: VmHandle,
    writer: &mut W,
) -> Result<(), DumpFault>
    requires { IsTrue (S.facts store.old).honest → HasBlocks (S.facts store.old).content entries.now }
    ensures reads { OnlyReadsStore (S.facts store.old) (S.facts store.new) }
    ensures fails { IfErr result (IsDumpRefusal (S.facts store.old) (S.facts store.new)) }
    ensures ok { OnOk result (IsTrue (S.facts store.old).honest
        → (d : Document) → IsListedAs (S.facts store.old).content map_block.0 entries.now d
        → Appends (W.contents writer.old) (W.contents writer.new) (saved_text d)) }
{
    let made = write_all_listed(alloc, store, entries, writer)?;
    let mut out = Vec::new(alloc);
    push_map_set(&mut out, made.progress.map_block, map_block)?;
    push_all_unlisted(&mut out, entries, made.progress.last)?;
    send(out.as_slice(), writer)?;
    send(b"save\n", writer)?;
    Ok(())
}
