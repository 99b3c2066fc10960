//! What differs between the documents of two files.
ghost use Rattle.std.specs.Prelude.{◌≡◌, IfErr, IfOk, IsErrOf, IsTrue};
ghost use Rattle.std.specs.Io.KnownBytes.{Appends};
ghost use Rattle.document_file.specs.Opened.{OnlyReadsStore};
ghost use Rattle.document_file.specs.StoredDocuments.{OnlyReadsDocuments};
ghost use Rattle.geos_shell.specs.Streams.{StopsWriting};
ghost use Rattle.document_diff.specs.Diffs.{TellsSame, diff_text, document_by};
ghost use Rattle.document_diff.specs.Faults.{IsDiffRefusal};
ghost use Rattle.document_tools.specs.Endings.{IsEndOfPieces, IsUncomparedFor};
ghost use Rattle.document_tools.specs.Comparisons.{ComparesFiles, ComparesOpen, ComparesStored, ComparesStores, ComparesWith, EndsComparison, EndsUncompared, name_of_side};

use crate::ending::{Ending, Trouble, uncompared};
use crate::obstacle::Obstacle;
use crate::pieces::{Pieces, Watched};
use crate::viewer::Viewer;
use document_diff::{DiffFault, Side, Version, diff};
use document_file::{StoredDocuments, VmFile};
use geos_model::Fault;
use geos_shell::Sink;
use std::alloc::Global;
use vm_store::Store;

/// The names of the files that are compared.
#[derive(Clone, Copy)]
pub struct Names<'a> {
    pub first: &'a str,
    pub second: &'a str,
}

// How a comparison ended whose pieces were gathered, by whether the last write of them failed. A piece that couldn't be
// written though none failed found no memory.
fn diff_end(compared: Result<bool, DiffFault>, failed: bool) -> Result<bool, DiffFault>
    ensures { IsEndOfPieces DiffFault.Memory DiffFault.Write compared failed result }
{
    match compared {
        Ok(_) if failed => Err(DiffFault::Write),
        Err(DiffFault::Write) if !failed => Err(DiffFault::Memory),
        _ => compared,
    }
}

// Writes what differs between documents that are open, and gives the writer back.
fn write_diff<S: Store, W: Sink + Drop>(
    alloc: Global,
    first: &mut StoredDocuments<S>,
    second: &mut StoredDocuments<S>,
    version: Version,
    writer: W,
) -> (W, Result<bool, DiffFault>)
    ensures reads_first { OnlyReadsDocuments S.facts first.old first.new }
    ensures reads_second { OnlyReadsDocuments S.facts second.old second.new }
    ensures fails { IfErr result.1 (IsDiffRefusal (S.facts first.old.store) (S.facts first.new.store)
        (S.facts second.old.store) (S.facts second.new.store)) }
    ensures cause { IsErrOf result.1 DiffFault.Write → ∥ StopsWriting W.writes result.0 ∥₁ }
    ensures ok { IfOk result.1 (λ same. IsTrue (S.facts first.old.store).honest
        → IsTrue (S.facts second.old.store).honest
        → Appends (W.contents writer) (W.contents result.0)
        (diff_text (document_by version first.old) (document_by version second.old))
        × TellsSame (document_by version first.old) (document_by version second.old) same) }
{
    let mut pieces = Pieces::new(alloc, writer);
    let compared = diff(alloc, first, second, version, &mut pieces);
    let Watched { sink, failed } = pieces.finish();
    (sink, diff_end(compared, failed))
}

// What is told where this stands against the file of a side.
fn uncompared_side(alloc: Global, names: Names<'_>, side: Side, obstacle: Obstacle) -> Ending
    ensures { IsUncomparedFor (name_of_side names.entry.first.now names.entry.second.now side) obstacle result }
{
    match side {
        Side::Old => uncompared(alloc, names.first, obstacle),
        Side::New => uncompared(alloc, names.second, obstacle),
    }
}

// What comes of a comparison, by how it ended.
fn diff_ending(alloc: Global, names: Names<'_>, compared: Result<bool, DiffFault>) -> Ending
    ensures { EndsComparison names.entry.first.now names.entry.second.now compared result }
{
    match compared {
        Ok(true) => Ending::Done,
        Ok(false) => Ending::Different,
        Err(DiffFault::Memory) => Ending::Uncompared(Trouble::Memory),
        Err(DiffFault::File(side)) => uncompared_side(alloc, names, side, Obstacle::Unread),
        Err(DiffFault::Damaged(side)) => uncompared_side(alloc, names, side, Obstacle::Changed),
        Err(DiffFault::Write) => Ending::Uncompared(Trouble::WriteFault),
    }
}

// What comes of a file that doesn't open.
fn unopened_one(alloc: Global, file: &str, fault: Fault) -> Ending
    ensures { EndsUncompared file.now fault result }
{
    match fault {
        Fault::Memory => Ending::Uncompared(Trouble::Memory),
        Fault::File => uncompared(alloc, file, Obstacle::Unread),
        _ => uncompared(alloc, file, Obstacle::Unopened(fault)),
    }
}

fn compare_open<S: Store, W: Sink + Drop>(
    alloc: Global,
    first: &mut StoredDocuments<S>,
    second: &mut StoredDocuments<S>,
    names: Names<'_>,
    version: Version,
    writer: W,
) -> (W, Ending)
    ensures reads_first { OnlyReadsDocuments S.facts first.old first.new }
    ensures reads_second { OnlyReadsDocuments S.facts second.old second.new }
    ensures told { ComparesOpen S.facts W.contents W.writes names.entry.first.now names.entry.second.now version first.old first.new
        second.old second.new writer result.0 result.1 }
{
    let (left, compared) = write_diff(alloc, first, second, version, writer);
    (left, diff_ending(alloc, names, compared))
}

// The second file is opened too.
fn compare_second<S: Store, W: Sink + Drop>(
    alloc: Global,
    first: &mut StoredDocuments<S>,
    second: S,
    names: Names<'_>,
    version: Version,
    writer: W,
) -> (W, Ending)
    ensures reads { OnlyReadsDocuments S.facts first.old first.new }
    ensures told { (left : S) × OnlyReadsStore (S.facts second) (S.facts left)
        × ComparesStored W.contents W.writes names.entry.first.now names.entry.second.now version (S.facts first.old.store)
        (S.facts first.new.store) (document_by version first.old) (S.facts second) (S.facts left) writer result.0
        result.1 }
{
    match VmFile::open(alloc, second, false) {
        Ok(file) => {
            let mut documents = file.into_documents();
            compare_open(alloc, first, &mut documents, names, version, writer)
        }
        Err(refused) => (writer, unopened_one(alloc, names.second, refused.fault)),
    }
}

fn compare_stores<S: Store, W: Sink + Drop>(
    alloc: Global,
    first: S,
    second: S,
    names: Names<'_>,
    version: Version,
    writer: W,
) -> (W, Ending)
    ensures { (first_left : S) × (second_left : S) × OnlyReadsStore (S.facts first) (S.facts first_left)
        × OnlyReadsStore (S.facts second) (S.facts second_left)
        × ComparesStores W.contents W.writes names.entry.first.now names.entry.second.now version (S.facts first)
        (S.facts first_left) (S.facts second) (S.facts second_left) writer result.0 result.1 }
{
    match VmFile::open(alloc, first, false) {
        Ok(file) => {
            let mut documents = file.into_documents();
            compare_second(alloc, &mut documents, second, names, version, writer)
        }
        Err(refused) => (writer, unopened_one(alloc, names.first, refused.fault)),
    }
}

fn compare_with<V: Viewer, W: Sink + Drop>(
    alloc: Global,
    viewer: &mut V,
    first: V::Opened,
    names: Names<'_>,
    version: Version,
    writer: W,
) -> (W, Ending)
    ensures { ComparesWith V.views V.Opened.facts W.contents W.writes names.entry.first.now names.entry.second.now version first
        viewer.old viewer.new writer result.0 result.1 }
{
    match viewer.view(names.second) {
        Ok(second) => compare_stores(alloc, first, second, names, version, writer),
        Err(cause) => (
            writer,
            uncompared(alloc, names.second, Obstacle::Unviewed(cause)),
        ),
    }
}

/// Opens the files of two names to be read alone, which may be the same one, writes what differs between their
/// documents, and gives the writer back. It gets the text in parts.
pub fn diff_files<V: Viewer, W: Sink + Drop>(
    alloc: Global,
    viewer: &mut V,
    names: Names<'_>,
    version: Version,
    writer: W,
) -> (W, Ending)
    ensures { ComparesFiles V.views V.Opened.facts W.contents W.writes names.entry.first.now names.entry.second.now version
        viewer.old viewer.new writer result.0 result.1 }
{
    match viewer.view(names.first) {
        Ok(store) => compare_with(alloc, viewer, store, names, version, writer),
        Err(cause) => (
            writer,
            uncompared(alloc, names.first, Obstacle::Unviewed(cause)),
        ),
    }
}
