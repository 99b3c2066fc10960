//! The comparison of two files' documents.
#![tactic(auto, using(crate::proofs::Texts::texts))]

ghost use Rattle.std.specs.Prelude.{◌≡◌, ◌&&◌, IfErr, IfOk, IsTrue, OnOk};
ghost use Rattle.std.specs.Io.KnownBytes.{Appends};
ghost use Rattle.document_file.specs.StoredDocuments.{OnlyReadsDocuments};
ghost use Rattle.document_diff.specs.Differences.{blocks_compared, compared_at, map_compared};
ghost use Rattle.document_diff.specs.Diffs.{TellsSame, diff_text, document_by, is_no_text};
ghost use Rattle.document_diff.specs.Faults.{IsDiffRefusal, IsDiffWriteFault, IsOwnRefusal};
ghost use Rattle.document_diff.specs.Lines.{diff_lines};

use crate::comparing::{push_blocks, push_map_blocks};
use crate::fault::{DiffFault, Side};
use crate::reading::read_block;
use crate::version::Version;
use document_file::StoredDocuments;
use geos_model::{MOST_BLOCKS, VmHandle};
use std::alloc::Global;
use std::io::Write;
use vm_store::Store;

fn send<W: Write>(bytes: &[u8], writer: &mut W) -> Result<bool, DiffFault>
    ensures err { IfErr result IsDiffWriteFault }
    ensures ok { IfOk result (λ none. (none ≡ is_no_text bytes.now)
        × Appends (W.contents writer.old) (W.contents writer.new) bytes.now) }
{
    match writer.write_all(bytes) {
        Ok(()) => Ok(bytes.is_empty()),
        Err(_) => Err(DiffFault::Write),
    }
}

fn both(first: bool, second: bool) -> bool
    ensures { result ≡ first && second }
{
    first && second
}

// What differs under a handle. Whether nothing does.
fn write_block<S: Store, T: Store, W: Write>(
    alloc: Global,
    old: &mut StoredDocuments<S>,
    new: &mut StoredDocuments<T>,
    version: Version,
    block: VmHandle,
    writer: &mut W,
) -> Result<bool, DiffFault>
    ensures reads_old { OnlyReadsDocuments S.facts old.old old.new }
    ensures reads_new { OnlyReadsDocuments T.facts new.old new.new }
    ensures fails { IfErr result (IsDiffRefusal (S.facts old.old.store) (S.facts old.new.store) (T.facts new.old.store)
        (T.facts new.new.store)) }
    ensures ok { IfOk result (λ none. IsTrue (S.facts old.old.store).honest → IsTrue (T.facts new.old.store).honest
        → (none ≡ is_no_text
        (diff_lines (compared_at (document_by version old.old) (document_by version new.old) block.0)))
        × Appends (W.contents writer.old) (W.contents writer.new)
        (diff_lines (compared_at (document_by version old.old) (document_by version new.old) block.0))) }
{
    let before = match read_block(alloc, old, version, block) {
        Ok(found) => found,
        Err(fault) => return Err(Side::Old.fault(fault)),
    };
    let after = match read_block(alloc, new, version, block) {
        Ok(found) => found,
        Err(fault) => return Err(Side::New.fault(fault)),
    };
    let mut out = Vec::new(alloc);
    push_blocks(&mut out, block, &before, &after)?;
    send(out.as_slice(), writer)
}

// What differs under each handle. Whether nothing does.
fn write_blocks<S: Store, T: Store, W: Write>(
    alloc: Global,
    old: &mut StoredDocuments<S>,
    new: &mut StoredDocuments<T>,
    version: Version,
    writer: &mut W,
) -> Result<bool, DiffFault>
    ensures reads_old { OnlyReadsDocuments S.facts old.old old.new }
    ensures reads_new { OnlyReadsDocuments T.facts new.old new.new }
    ensures fails { IfErr result (IsDiffRefusal (S.facts old.old.store) (S.facts old.new.store) (T.facts new.old.store)
        (T.facts new.new.store)) }
    ensures ok { IfOk result (λ none. IsTrue (S.facts old.old.store).honest → IsTrue (T.facts new.old.store).honest
        → (none ≡ is_no_text (diff_lines (blocks_compared (document_by version old.old) (document_by version new.old))))
        × Appends (W.contents writer.old) (W.contents writer.new)
        (diff_lines (blocks_compared (document_by version old.old) (document_by version new.old)))) }
{
    let mut none = true;
    for i in 0..MOST_BLOCKS {
        let step = write_block(alloc, old, new, version, VmHandle(i + 1), writer)?;
        none = both(none, step);
    }
    Ok(none)
}

// What differs of the map blocks. Whether nothing does.
fn write_map_blocks<W: Write>(
    alloc: Global,
    old: VmHandle,
    new: VmHandle,
    writer: &mut W,
) -> Result<bool, DiffFault>
    ensures err { IfErr result IsOwnRefusal }
    ensures ok { IfOk result (λ none. (none ≡ is_no_text (diff_lines (map_compared old.0 new.0)))
        × Appends (W.contents writer.old) (W.contents writer.new) (diff_lines (map_compared old.0 new.0))) }
{
    let mut out = Vec::new(alloc);
    push_map_blocks(&mut out, old, new)?;
    send(out.as_slice(), writer)
}

/// Writes a line for each difference between documents of two files, by rising block handles and within a block by
/// rising chunk handles, and says whether they are the same. Nothing is written to the files. Of a block both versions
/// are in memory at a time. The writer gets a piece for each block, so it should be buffered.
pub fn diff<S: Store, T: Store, W: Write>(
    alloc: Global,
    old: &mut StoredDocuments<S>,
    new: &mut StoredDocuments<T>,
    version: Version,
    writer: &mut W,
) -> Result<bool, DiffFault>
    // Both files.
    ensures reads_old { OnlyReadsDocuments S.facts old.old old.new }
    ensures reads_new { OnlyReadsDocuments T.facts new.old new.new }
    ensures fails { IfErr result (IsDiffRefusal (S.facts old.old.store) (S.facts old.new.store) (T.facts new.old.store)
        (T.facts new.new.store)) }
    // The text.
    ensures text { OnOk result (IsTrue (S.facts old.old.store).honest → IsTrue (T.facts new.old.store).honest
        → Appends (W.contents writer.old) (W.contents writer.new)
        (diff_text (document_by version old.old) (document_by version new.old))) }
    // The answer.
    ensures answer { IfOk result (λ same. IsTrue (S.facts old.old.store).honest
        → IsTrue (T.facts new.old.store).honest
        → (same ≡ is_no_text (diff_text (document_by version old.old) (document_by version new.old)))
        × TellsSame (document_by version old.old) (document_by version new.old) same) }
{
    old.reveal_invariant();
    new.reveal_invariant();
    let none = write_map_blocks(
        alloc,
        version.map_block(old),
        version.map_block(new),
        writer,
    )?;
    let rest = write_blocks(alloc, old, new, version, writer)?;
    Ok(both(none, rest))
}
