//! A dump: a script that makes documents of a file again.
ghost use Rattle.std.specs.Prelude.{◌≡◌, IfErr, IsErrOf, IsTrue, OnOk};
ghost use Rattle.std.specs.Io.KnownBytes.{Appends};
ghost use Rattle.document_file.specs.Opened.{OnlyReadsStore};
ghost use Rattle.document_file.specs.StoredDocuments.{OnlyReadsDocuments};
ghost use Rattle.geos_shell.specs.Streams.{StopsWriting};
ghost use Rattle.document_dump.specs.Dumps.{dump_text};
ghost use Rattle.document_dump.specs.Faults.{IsDumpRefusal};
ghost use Rattle.document_tools.specs.DumpedFiles.{DumpsFile, DumpsOpen, DumpsStore, EndsDump, EndsFault};
ghost use Rattle.document_tools.specs.Endings.{IsEndOfPieces};

use crate::ending::{Ending, refused};
use crate::looking::unopened;
use crate::obstacle::Obstacle;
use crate::pieces::{Pieces, Watched};
use crate::viewer::Viewer;
use document_dump::{DumpFault, Which, dump};
use document_file::{StoredDocuments, VmFile};
use geos_shell::Sink;
use std::alloc::Global;
use vm_store::Store;

/// How the making of a script ended whose pieces were gathered, by whether the last write of them failed. A piece that
/// couldn't be written though none failed found no memory.
pub(crate) fn script_end<T: Copy>(made: Result<T, DumpFault>, failed: bool) -> Result<T, DumpFault>
    ensures { IsEndOfPieces DumpFault.Memory DumpFault.Write made failed result }
{
    match made {
        Ok(_) if failed => Err(DumpFault::Write),
        Err(DumpFault::Write) if !failed => Err(DumpFault::Memory),
        _ => made,
    }
}

// Writes the script of documents that are open, and gives the writer back.
fn write_dump<S: Store, W: Sink + Drop>(
    alloc: Global,
    file: &mut StoredDocuments<S>,
    which: Which,
    writer: W,
) -> (W, Result<(), DumpFault>)
    ensures reads { OnlyReadsDocuments S.facts file.old file.new }
    ensures fails { IfErr result.1 (IsDumpRefusal (S.facts file.old.store) (S.facts file.new.store)) }
    ensures cause { IsErrOf result.1 DumpFault.Write → ∥ StopsWriting W.writes result.0 ∥₁ }
    ensures ok { OnOk result.1 (IsTrue (S.facts file.old.store).honest
        → Appends (W.contents writer) (W.contents result.0) (dump_text which file.old.updated file.old.saved)) }
{
    let mut pieces = Pieces::new(alloc, writer);
    let dumped = dump(alloc, file, which, &mut pieces);
    let Watched { sink, failed } = pieces.finish();
    (sink, script_end(dumped, failed))
}

/// What comes of a script that isn't written, or not whole.
pub(crate) fn fault_ending(alloc: Global, name: &str, fault: DumpFault) -> Ending
    ensures { EndsFault name.now fault result }
{
    match fault {
        DumpFault::Memory => Ending::Memory,
        DumpFault::File => refused(alloc, name, Obstacle::Unread),
        DumpFault::Damaged => refused(alloc, name, Obstacle::Changed),
        DumpFault::Write => Ending::WriteFault,
    }
}

// What comes of a dump, by how it ended.
fn dump_ending(alloc: Global, name: &str, dumped: Result<(), DumpFault>) -> Ending
    ensures { EndsDump name.now dumped result }
{
    match dumped {
        Ok(()) => Ending::Done,
        Err(fault) => fault_ending(alloc, name, fault),
    }
}

/// Writes the script that makes documents again that are open, and gives the writer back.
pub(crate) fn dump_open<S: Store, W: Sink + Drop>(
    alloc: Global,
    file: &mut StoredDocuments<S>,
    name: &str,
    which: Which,
    writer: W,
) -> (W, Ending)
    ensures reads { OnlyReadsDocuments S.facts file.old file.new }
    ensures told { DumpsOpen S.facts W.contents W.writes name.now which file.old file.new writer result.0 result.1 }
{
    let (left, dumped) = write_dump(alloc, file, which, writer);
    (left, dump_ending(alloc, name, dumped))
}

fn dump_store<S: Store, W: Sink + Drop>(
    alloc: Global,
    store: S,
    name: &str,
    which: Which,
    writer: W,
) -> (W, Ending)
    ensures { (left : S) × OnlyReadsStore (S.facts store) (S.facts left)
        × DumpsStore W.contents W.writes name.now which (S.facts store) (S.facts left) writer result.0 result.1 }
{
    match VmFile::open(alloc, store, false) {
        Ok(file) => {
            let mut documents = file.into_documents();
            dump_open(alloc, &mut documents, name, which, writer)
        }
        Err(refused) => {
            let obstacle = Obstacle::Unopened(refused.fault);
            (writer, unopened(alloc, name, refused.fault, obstacle))
        }
    }
}

/// Opens the file of a name to be read alone, writes the script that makes documents of it again, and gives the writer
/// back. It gets the script in parts.
pub fn dump_file<V: Viewer, W: Sink + Drop>(
    alloc: Global,
    viewer: &mut V,
    file: &str,
    which: Which,
    writer: W,
) -> (W, Ending)
    ensures { DumpsFile V.views V.Opened.facts W.contents W.writes file.now which viewer.old viewer.new writer
        result.0 result.1 }
{
    match viewer.view(file) {
        Ok(store) => dump_store(alloc, store, file, which, writer),
        Err(cause) => (writer, refused(alloc, file, Obstacle::Unviewed(cause))),
    }
}
