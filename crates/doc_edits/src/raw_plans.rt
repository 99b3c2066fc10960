//! Plans of edits of raw blocks: bytes written over, or put in place of all.
ghost use Rattle.std.specs.Prelude.{◌≡◌, true, MatchResult};
ghost use Rattle.geos_model.specs.Document.{is_raw};
ghost use Rattle.geos_model.specs.Targets.{raw_edit};
ghost use Rattle.geos_model.specs.declared.command.Edit.TheVariants as edits;
ghost use Rattle.vm_blocks.specs.Keeping.{is_loaded};
ghost use Rattle.doc_edits.specs.Planning.{Plans, RefusesInMemory};

use crate::found::raw_at;
use chunk_edits::{raw_replace, raw_splice, raw_write};
use geos_model::{Done, Fault, RawEdit, VmHandle};
use std::alloc::Global;
use vm_blocks::{Change, FileBlocks, PartChange};
use vm_store::Store;

/// Of an edit of a raw block, which is in memory.
pub fn plan_raw<S: Store>(
    alloc: Global,
    blocks: &FileBlocks<S>,
    handle: VmHandle,
    edit: RawEdit<'_>,
) -> Result<(Change, Done), Fault>
    requires loaded { is_loaded blocks.now handle.0 ≡ true }
    requires raw { is_raw blocks.now.document handle.0 ≡ true }
    ensures { MatchResult result (λ p. Plans (raw_edit handle edit.entry) blocks.now.document p.0 p.1)
        (RefusesInMemory (raw_edit handle edit.entry) blocks.now.document) }
{
    match edit {
        RawEdit::Write(at, bytes) => plan_write_raw(alloc, blocks, handle, at, bytes),
        RawEdit::Splice(at, n, bytes) => plan_splice_raw(alloc, blocks, handle, at, n, bytes),
        RawEdit::Attach(bytes) => plan_attach(alloc, blocks, handle, bytes),
    }
}

/// Of the edit that writes over the bytes of a raw block.
fn plan_write_raw<S: Store>(
    alloc: Global,
    blocks: &FileBlocks<S>,
    handle: VmHandle,
    at: u32,
    bytes: &[u8],
) -> Result<(Change, Done), Fault>
    requires loaded { is_loaded blocks.now handle.0 ≡ true }
    requires raw { is_raw blocks.now.document handle.0 ≡ true }
    ensures { MatchResult result (λ p. Plans (edits.WriteRaw handle at bytes.now) blocks.now.document p.0 p.1)
        (RefusesInMemory (edits.WriteRaw handle at bytes.now) blocks.now.document) }
{
    let body = raw_at(blocks, handle);
    let splice = raw_write(alloc, body, at, bytes)?;
    Ok((Change::Part(handle, PartChange::Raw(splice)), Done::Nothing))
}

/// Of the edit that puts bytes in the place of some of a raw block.
fn plan_splice_raw<S: Store>(
    alloc: Global,
    blocks: &FileBlocks<S>,
    handle: VmHandle,
    at: u32,
    n: u32,
    bytes: &[u8],
) -> Result<(Change, Done), Fault>
    requires loaded { is_loaded blocks.now handle.0 ≡ true }
    requires raw { is_raw blocks.now.document handle.0 ≡ true }
    ensures { MatchResult result (λ p. Plans (edits.SpliceRaw handle at n bytes.now) blocks.now.document p.0 p.1)
        (RefusesInMemory (edits.SpliceRaw handle at n bytes.now) blocks.now.document) }
{
    let body = raw_at(blocks, handle);
    let splice = raw_splice(alloc, body, at, n, bytes)?;
    Ok((Change::Part(handle, PartChange::Raw(splice)), Done::Nothing))
}

/// Of the edit that replaces the bytes of a raw block.
fn plan_attach<S: Store>(
    alloc: Global,
    blocks: &FileBlocks<S>,
    handle: VmHandle,
    bytes: &[u8],
) -> Result<(Change, Done), Fault>
    requires loaded { is_loaded blocks.now handle.0 ≡ true }
    requires raw { is_raw blocks.now.document handle.0 ≡ true }
    ensures { MatchResult result (λ p. Plans (edits.Attach handle bytes.now) blocks.now.document p.0 p.1)
        (RefusesInMemory (edits.Attach handle bytes.now) blocks.now.document) }
{
    let body = raw_at(blocks, handle);
    let splice = raw_replace(alloc, body, bytes)?;
    Ok((Change::Part(handle, PartChange::Raw(splice)), Done::Nothing))
}
