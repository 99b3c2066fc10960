//! What is done of the block under each handle.
#![tactic(auto, using(crate::proofs::Texts::texts))]

ghost use Rattle.std.specs.Prelude.{◌≡◌, ◌++◌, ◌+◌, ◌≤◌, ◌<◌, true, false, OnOk, IfErr, IfOk, IsTrue, replicate, if◌then◌else◌, ◌==◌, ◌∷◌, []};
ghost use Rattle.geos_model.specs.Bytes.{same_bytes};
ghost use Rattle.geos_model.specs.Document.{Document, attributes_of, empty_document, is_live};
ghost use Rattle.geos_model.specs.declared.command.Edit.TheVariants as edits;
ghost use Rattle.document_file.specs.StoredDocuments.{OnlyReadsDocuments};
ghost use Rattle.document_dump.specs.Faults.{IsDumpRefusal, IsRefusalOf, IsChangeOf};
ghost use Rattle.document_dump.specs.Lines.{text};
ghost use Rattle.document_dump.specs.Changes.{after_block, attributes_set, block_changed, block_name, filler, map_set, taken_out, user_id_set};
ghost use Rattle.document_dump.specs.Steps.{IsChange};
ghost use Rattle.document_dump.specs.Versions.{new_in, old_in};

use crate::bodies::{push_block, push_type_set};
use crate::fault::DumpFault;
use crate::lines::{push_free_block, push_map, push_new_raw, push_user_id};
use crate::versions::Stage;
use document_file::StoredDocuments;
use geos_model::{Attributes, VmHandle};
use std::alloc::{AllocError, Global};
use vm_store::Store;

/// What is done of the block under a handle.
#[derive(Drop)]
pub enum Change {
    /// There is none in either document.
    Free,
    /// It goes, once all others are made.
    Goes,
    /// It keeps its body, and may get other attributes.
    Keeps(Attributes, Attributes),
    /// It is made of this image, with these attributes, in the place of another one where that is said.
    Made(bool, Attributes, Vec<u8>),
}

/// How far the blocks are made.
#[derive(Clone, Copy)]
pub struct Progress {
    /// How many handles below are free.
    pub holes: u16,
    /// The last block that was made, 0 for none.
    pub last: u16,
    /// The map block.
    pub map_block: u16,
}

fn is_same(first: &[u8], second: &[u8]) -> bool
    ensures { result ≡ same_bytes first.now second.now }
{
    first == second
}

// Of a block of the saved document.
fn first_change<S: Store>(
    file: &mut StoredDocuments<S>,
    block: VmHandle,
) -> Result<Change, DumpFault>
    ensures reads { OnlyReadsDocuments S.facts file.old file.new }
    ensures fails { IfErr result (IsDumpRefusal (S.facts file.old.store) (S.facts file.new.store)) }
    ensures ok { IfOk result (λ change. IsTrue (S.facts file.old.store).honest
        → IsChange empty_document file.old.saved block.0 change) }
{
    file.reveal_invariant();
    match file.saved_entry(block) {
        None => Ok(Change::Free),
        Some(place) => {
            let image = file.read_saved(block)?;
            Ok(Change::Made(false, place.attributes, image))
        }
    }
}

// Of a block that is live in both documents.
fn both_change<S: Store>(
    file: &mut StoredDocuments<S>,
    block: VmHandle,
    before: Attributes,
    after: Attributes,
) -> Result<Change, DumpFault>
    // The block, and its attributes in both.
    requires was { is_live file.old.saved block.0 ≡ true }
    requires live { is_live file.old.updated block.0 ≡ true }
    requires before { before ≡ attributes_of file.old.saved block.0 }
    requires after { after ≡ attributes_of file.old.updated block.0 }
    // What is read, and found.
    ensures reads { OnlyReadsDocuments S.facts file.old file.new }
    ensures fails { IfErr result (IsDumpRefusal (S.facts file.old.store) (S.facts file.new.store)) }
    ensures ok { IfOk result (λ change. IsTrue (S.facts file.old.store).honest
        → IsChange file.old.saved file.old.updated block.0 change) }
{
    file.reveal_invariant();
    let former = file.read_saved(block)?;
    let image = file.read_block(block)?;
    let same = is_same(former.as_slice(), image.as_slice());
    if same {
        return Ok(Change::Keeps(before, after));
    }
    Ok(Change::Made(true, after, image))
}

// Of a block that isn't live in the saved document.
fn new_change<S: Store>(file: &mut StoredDocuments<S>, block: VmHandle) -> Result<Change, DumpFault>
    requires { is_live file.old.saved block.0 ≡ false }
    ensures reads { OnlyReadsDocuments S.facts file.old file.new }
    ensures fails { IfErr result (IsDumpRefusal (S.facts file.old.store) (S.facts file.new.store)) }
    ensures ok { IfOk result (λ change. IsTrue (S.facts file.old.store).honest
        → IsChange file.old.saved file.old.updated block.0 change) }
{
    file.reveal_invariant();
    match file.entry(block) {
        None => Ok(Change::Free),
        Some(place) => {
            let image = file.read_block(block)?;
            Ok(Change::Made(false, place.attributes, image))
        }
    }
}

// Of a block that is live there.
fn old_change<S: Store>(
    file: &mut StoredDocuments<S>,
    block: VmHandle,
    before: Attributes,
) -> Result<Change, DumpFault>
    requires was { is_live file.old.saved block.0 ≡ true }
    requires before { before ≡ attributes_of file.old.saved block.0 }
    ensures reads { OnlyReadsDocuments S.facts file.old file.new }
    ensures fails { IfErr result (IsDumpRefusal (S.facts file.old.store) (S.facts file.new.store)) }
    ensures ok { IfOk result (λ change. IsTrue (S.facts file.old.store).honest
        → IsChange file.old.saved file.old.updated block.0 change) }
{
    match file.entry(block) {
        None => Ok(Change::Goes),
        Some(place) => both_change(file, block, before, place.attributes),
    }
}

// Of a block of the saved document or the updated one.
fn later_change<S: Store>(
    file: &mut StoredDocuments<S>,
    block: VmHandle,
) -> Result<Change, DumpFault>
    ensures reads { OnlyReadsDocuments S.facts file.old file.new }
    ensures fails { IfErr result (IsDumpRefusal (S.facts file.old.store) (S.facts file.new.store)) }
    ensures ok { IfOk result (λ change. IsTrue (S.facts file.old.store).honest
        → IsChange file.old.saved file.old.updated block.0 change) }
{
    match file.saved_entry(block) {
        None => new_change(file, block),
        Some(place) => old_change(file, block, place.attributes),
    }
}

/// What is done of the block under a handle. Damaged where what is read has another sum, which an honest store never
/// gives; Memory, File.
pub fn change_of<S: Store>(
    file: &mut StoredDocuments<S>,
    stage: Stage,
    block: VmHandle,
) -> Result<Change, DumpFault>
    ensures reads { OnlyReadsDocuments S.facts file.old file.new }
    ensures fails { IfErr result (IsDumpRefusal (S.facts file.old.store) (S.facts file.new.store)) }
    ensures ok { IfOk result (λ change. IsTrue (S.facts file.old.store).honest
        → IsChange (old_in stage file.old) (new_in stage file.old) block.0 change) }
{
    match stage {
        Stage::Saved => first_change(file, block),
        Stage::Open => later_change(file, block),
    }
}

fn push_user_id_set(
    out: &mut Vec<u8>,
    block: VmHandle,
    old: u16,
    new: u16,
) -> Result<(), AllocError>
    ensures { OnOk result (out.new.items ≡ out.old.items ++ text (user_id_set block old new)) }
{
    if old == new {
        return Ok(());
    }
    push_user_id(out, block, new)
}

fn push_attributes(
    out: &mut Vec<u8>,
    block: VmHandle,
    old: Attributes,
    new: Attributes,
) -> Result<(), AllocError>
    ensures { OnOk result (out.new.items ≡ out.old.items ++ text (attributes_set block old new)) }
{
    push_user_id_set(out, block, old.user_id, new.user_id)?;
    push_type_set(out, block, old.heap_type, new.heap_type)
}

fn push_fillers(out: &mut Vec<u8>, count: u16) -> Result<(), AllocError>
    ensures { OnOk result (out.new.items ≡ out.old.items ++ text (replicate count filler)) }
{
    for _ in 0..count {
        push_new_raw(out, 0, 0)?;
    }
    Ok(())
}

// A block goes, which may be the map block.
fn push_taken_out(out: &mut Vec<u8>, map_block: u16, block: VmHandle) -> Result<(), AllocError>
    ensures { OnOk result (out.new.items ≡ out.old.items ++ text (taken_out map_block block.0)) }
{
    if map_block == block.0 {
        push_map(out, VmHandle(0))?;
    }
    push_free_block(out, block)
}

pub fn push_map_set(out: &mut Vec<u8>, old: u16, new: VmHandle) -> Result<(), AllocError>
    ensures { OnOk result (out.new.items ≡ out.old.items ++ text (map_set old new.0)) }
{
    if old == new.0 {
        return Ok(());
    }
    push_map(out, new)
}

// All that comes before the edits that make a block.
fn push_place(
    out: &mut Vec<u8>,
    block: VmHandle,
    replaces: bool,
    progress: Progress,
) -> Result<(), AllocError>
    ensures { OnOk result (out.new.items ≡ out.old.items
        ++ text (replicate progress.holes filler ++ (if replaces then taken_out progress.map_block block.0 else []))) }
{
    push_fillers(out, progress.holes)?;
    if !replaces {
        return Ok(());
    }
    push_taken_out(out, progress.map_block, block)
}

fn made_progress(block: VmHandle, progress: Progress) -> Progress
    ensures { result ≡ record {
      holes = 0;
      last = block.0;
      map_block = if progress.map_block == block.0 then 0 else progress.map_block;
    } }
{
    Progress {
        holes: 0,
        last: block.0,
        map_block: if progress.map_block == block.0 {
            0
        } else {
            progress.map_block
        },
    }
}

/// Puts the edits of a block behind the others, and says how far the blocks are made then.
pub fn push_change(
    alloc: Global,
    out: &mut Vec<u8>,
    block: VmHandle,
    change: Change,
    progress: Progress,
) -> Result<Progress, DumpFault>
    requires { progress.holes < 65535 }
    ensures err { IfErr result (IsRefusalOf (IsChangeOf block.0 change)) }
    ensures holes { IfOk result (λ after. after.holes ≤ progress.holes + 1) }
    ensures ok { IfOk result (λ after. (old new : Document) → IsChange old new block.0 change
        → (out.new.items ≡ out.old.items ++ text (block_changed old new progress block.0))
        × (after ≡ after_block old new progress block.0)) }
{
    match change {
        Change::Free => Ok(Progress {
            holes: progress.holes + 1,
            last: progress.last,
            map_block: progress.map_block,
        }),
        Change::Goes => Ok(progress),
        Change::Keeps(old, new) => {
            push_attributes(out, block, old, new)?;
            Ok(progress)
        }
        Change::Made(replaces, attributes, bytes) => {
            push_place(out, block, replaces, progress)?;
            push_block(alloc, out, block, attributes, bytes.as_slice())?;
            Ok(made_progress(block, progress))
        }
    }
}
