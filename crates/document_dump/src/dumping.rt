//! A dump: the script of a file's documents.
#![tactic(auto, using(crate::proofs::Texts::texts))]

ghost use Rattle.std.specs.Prelude.{◌≡◌, ◌++◌, ◌+◌, ◌≤◌, ◌<◌, ◌||◌, [], OnOk, IfErr, IfOk, IsTrue, codes};
ghost use Rattle.std.specs.Io.KnownBytes.{Appends};
ghost use Rattle.geos_model.specs.Document.{vm_handles};
ghost use Rattle.document_file.specs.StoredDocuments.{OnlyReadsDocuments};
ghost use Rattle.document_dump.specs.Faults.{IsDumpRefusal, IsWriteFault};
ghost use Rattle.document_dump.specs.Lines.{text};
ghost use Rattle.document_dump.specs.Changes.{after_block, block_changed, block_freed, blocks_changed, blocks_freed, changes, first_progress, progress_after};
ghost use Rattle.document_dump.specs.Dumps.{dump_text, if_changed, is_some_text, saved_text};
ghost use Rattle.document_dump.specs.Versions.{new_in, old_in};

use crate::changes::{Progress, change_of, push_change, push_map_set};
use crate::fault::DumpFault;
use crate::lines::push_free_block;
use crate::versions::Stage;
use document_file::StoredDocuments;
use geos_model::{MOST_BLOCKS, VmHandle};
use std::alloc::{AllocError, Global};
use std::io::Write;
use vm_store::Store;

/// Which documents of a file are dumped.
#[derive(Clone, Copy, Debug, PartialEq, Eq)]
pub enum Which {
    /// The saved one, and then the updated one, where it is another.
    Both,
    /// The saved one alone.
    Saved,
}

/// Writes bytes of a script, and says whether there are any.
pub fn send<W: Write>(bytes: &[u8], writer: &mut W) -> Result<bool, DumpFault>
    ensures err { IfErr result IsWriteFault }
    ensures ok { IfOk result (λ some. (some ≡ is_some_text bytes.now)
        × Appends (W.contents writer.old) (W.contents writer.new) bytes.now) }
{
    match writer.write_all(bytes) {
        Ok(()) => Ok(!bytes.is_empty()),
        Err(_) => Err(DumpFault::Write),
    }
}

/// What was written.
#[derive(Clone, Copy)]
pub(crate) struct Written {
    /// Whether there were any edits.
    pub some: bool,
    /// How far the blocks are made.
    pub progress: Progress,
}

pub(crate) fn either(first: bool, second: bool) -> bool
    ensures { result ≡ first || second }
{
    first || second
}

// The edits of one block. Whether there are any, and how far the blocks are made then.
fn write_block<S: Store, W: Write>(
    alloc: Global,
    file: &mut StoredDocuments<S>,
    stage: Stage,
    block: VmHandle,
    progress: Progress,
    writer: &mut W,
) -> Result<Written, DumpFault>
    requires { progress.holes < 65535 }
    ensures reads { OnlyReadsDocuments S.facts file.old file.new }
    ensures fails { IfErr result (IsDumpRefusal (S.facts file.old.store) (S.facts file.new.store)) }
    ensures holes { IfOk result (λ after. after.progress.holes ≤ progress.holes + 1) }
    ensures ok { IfOk result (λ after. IsTrue (S.facts file.old.store).honest
        → (after.some
        ≡ is_some_text (text (block_changed (old_in stage file.old) (new_in stage file.old) progress block.0)))
        × (after.progress ≡ after_block (old_in stage file.old) (new_in stage file.old) progress block.0)
        × Appends (W.contents writer.old) (W.contents writer.new)
        (text (block_changed (old_in stage file.old) (new_in stage file.old) progress block.0))) }
{
    let mut out = Vec::new(alloc);
    let change = change_of(file, stage, block)?;
    let after = push_change(alloc, &mut out, block, change, progress)?;
    let some = send(out.as_slice(), writer)?;
    Ok(Written {
        some,
        progress: after,
    })
}

// The edits of all blocks that are made or stay.
fn write_blocks<S: Store, W: Write>(
    alloc: Global,
    file: &mut StoredDocuments<S>,
    stage: Stage,
    first: Progress,
    writer: &mut W,
) -> Result<Written, DumpFault>
    requires { first.holes ≡ 0 }
    ensures reads { OnlyReadsDocuments S.facts file.old file.new }
    ensures fails { IfErr result (IsDumpRefusal (S.facts file.old.store) (S.facts file.new.store)) }
    ensures ok { IfOk result (λ after. IsTrue (S.facts file.old.store).honest
        → (after.some
        ≡ is_some_text (text (blocks_changed (old_in stage file.old) (new_in stage file.old) first vm_handles)))
        × (after.progress ≡ progress_after (old_in stage file.old) (new_in stage file.old) first vm_handles)
        × Appends (W.contents writer.old) (W.contents writer.new)
        (text (blocks_changed (old_in stage file.old) (new_in stage file.old) first vm_handles))) }
{
    let mut some = false;
    let mut progress = first;
    for i in 0..MOST_BLOCKS {
        let block = VmHandle(i + 1);
        let step = write_block(alloc, file, stage, block, progress, writer)?;
        some = either(some, step.some);
        progress = step.progress;
    }
    Ok(Written { some, progress })
}

fn push_freed<S: Store>(
    out: &mut Vec<u8>,
    file: &StoredDocuments<S>,
    stage: Stage,
    last: u16,
    block: VmHandle,
) -> Result<(), AllocError>
    ensures { OnOk result (out.new.items ≡ out.old.items
        ++ text (block_freed (old_in stage file.now) (new_in stage file.now) last block.0)) }
{
    if stage.is_live(file, block) {
        return Ok(());
    }
    if stage.was_live(file, block) || block.0 < last {
        return push_free_block(out, block);
    }
    Ok(())
}

// The blocks that go.
fn push_all_freed<S: Store>(
    out: &mut Vec<u8>,
    file: &StoredDocuments<S>,
    stage: Stage,
    last: u16,
) -> Result<(), AllocError>
    ensures { OnOk result (out.new.items ≡ out.old.items
        ++ text (blocks_freed (old_in stage file.now) (new_in stage file.now) last)) }
{
    for i in 0..MOST_BLOCKS {
        push_freed(out, file, stage, last, VmHandle(i + 1))?;
    }
    Ok(())
}

// All edits of a stage. Whether there are any.
fn write_changes<S: Store, W: Write>(
    alloc: Global,
    file: &mut StoredDocuments<S>,
    stage: Stage,
    writer: &mut W,
) -> Result<bool, DumpFault>
    ensures reads { OnlyReadsDocuments S.facts file.old file.new }
    ensures fails { IfErr result (IsDumpRefusal (S.facts file.old.store) (S.facts file.new.store)) }
    ensures ok { IfOk result (λ some. IsTrue (S.facts file.old.store).honest
        → (some ≡ is_some_text (text (changes (old_in stage file.old) (new_in stage file.old))))
        × Appends (W.contents writer.old) (W.contents writer.new)
        (text (changes (old_in stage file.old) (new_in stage file.old)))) }
{
    let first = Progress {
        holes: 0,
        last: 0,
        map_block: stage.old_map(file).0,
    };
    let made = write_blocks(alloc, file, stage, first, writer)?;
    let mut out = Vec::new(alloc);
    push_map_set(&mut out, made.progress.map_block, stage.new_map(file))?;
    push_all_freed(&mut out, file, stage, made.progress.last)?;
    let more = send(out.as_slice(), writer)?;
    Ok(either(made.some, more))
}

// The saved document, made of none.
fn dump_saved<S: Store, W: Write>(
    alloc: Global,
    file: &mut StoredDocuments<S>,
    writer: &mut W,
) -> Result<(), DumpFault>
    ensures reads { OnlyReadsDocuments S.facts file.old file.new }
    ensures fails { IfErr result (IsDumpRefusal (S.facts file.old.store) (S.facts file.new.store)) }
    ensures ok { OnOk result (IsTrue (S.facts file.old.store).honest
        → Appends (W.contents writer.old) (W.contents writer.new) (saved_text file.old.saved)) }
{
    write_changes(alloc, file, Stage::Saved, writer)?;
    send(b"save\n", writer)?;
    Ok(())
}

// The updated document, made of the saved one.
fn dump_open<S: Store, W: Write>(
    alloc: Global,
    file: &mut StoredDocuments<S>,
    writer: &mut W,
) -> Result<(), DumpFault>
    ensures reads { OnlyReadsDocuments S.facts file.old file.new }
    ensures fails { IfErr result (IsDumpRefusal (S.facts file.old.store) (S.facts file.new.store)) }
    ensures ok { OnOk result (IsTrue (S.facts file.old.store).honest
        → Appends (W.contents writer.old) (W.contents writer.new)
        (if_changed (text (changes file.old.saved file.old.updated)) (codes "update\n"))) }
{
    let some = write_changes(alloc, file, Stage::Open, writer)?;
    if some {
        send(b"update\n", writer)?;
        return Ok(());
    }
    Ok(())
}

/// Writes a script of commands that makes the documents of a slot again where it is fed to `geosvm --new`: first the
/// saved one, and then, unless that is all that is asked for, the updated one. Nothing is written to the file. The
/// writer gets many short pieces, so it should be buffered.
pub fn dump<S: Store, W: Write>(
    alloc: Global,
    file: &mut StoredDocuments<S>,
    which: Which,
    writer: &mut W,
) -> Result<(), DumpFault>
    ensures reads { OnlyReadsDocuments S.facts file.old file.new }
    ensures fails { IfErr result (IsDumpRefusal (S.facts file.old.store) (S.facts file.new.store)) }
    ensures ok { OnOk result (IsTrue (S.facts file.old.store).honest
        → Appends (W.contents writer.old) (W.contents writer.new)
        (dump_text which file.old.updated file.old.saved)) }
{
    dump_saved(alloc, file, writer)?;
    match which {
        Which::Saved => Ok(()),
        Which::Both => {
            dump_open(alloc, file, writer)?;
            Ok(())
        }
    }
}
