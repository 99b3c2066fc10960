//! A salvage: a script of all that can be read of a file.
ghost use Rattle.std.specs.Prelude.{◌≡◌, IfErr, IfOk, IsErrOf, IsTrue};
ghost use Rattle.document_file.specs.Opened.{OnlyReadsStore};
ghost use Rattle.geos_shell.specs.Streams.{StopsWriting};
ghost use Rattle.document_dump.specs.Faults.{IsDumpRefusal};
ghost use Rattle.file_salvage.specs.Salvaged.{salvage_text};
ghost use Rattle.document_tools.specs.Salvages.{EndsSalvage, HasSalvage, Salvages, SalvagesFile, SalvagesUnopened, file_script};

use crate::dumping::{dump_open, fault_ending, script_end};
use crate::ending::{Ending, refused};
use crate::obstacle::Obstacle;
use crate::pieces::{Pieces, Watched};
use crate::viewer::Viewer;
use document_dump::{DumpFault, Which};
use document_file::VmFile;
use file_salvage::salvage;
use geos_model::Fault;
use geos_shell::Sink;
use std::alloc::Global;
use vm_store::Store;

// Writes the script of what can be read, and gives the writer back. False where there is none.
fn write_salvage<S: Store, W: Sink + Drop>(
    alloc: Global,
    store: &mut S,
    all: bool,
    writer: W,
) -> (W, Result<bool, DumpFault>)
    ensures reads { OnlyReadsStore (S.facts store.old) (S.facts store.new) }
    ensures fails { IfErr result.1 (IsDumpRefusal (S.facts store.old) (S.facts store.new)) }
    ensures cause { IsErrOf result.1 DumpFault.Write → ∥ StopsWriting W.writes result.0 ∥₁ }
    ensures ok { IfOk result.1 (λ some. IsTrue (S.facts store.old).honest
        → HasSalvage (salvage_text all (S.facts store.old).content) some (W.contents writer) (W.contents result.0)) }
{
    let mut pieces = Pieces::new(alloc, writer);
    let salvaged = salvage(alloc, store, all, &mut pieces);
    let Watched { sink, failed } = pieces.finish();
    (sink, script_end(salvaged, failed))
}

// What comes of a salvage, by how it ended.
fn salvage_ending(alloc: Global, name: &str, salvaged: Result<bool, DumpFault>) -> Ending
    ensures { EndsSalvage name.now salvaged result }
{
    match salvaged {
        Ok(true) => Ending::Done,
        Ok(false) => refused(alloc, name, Obstacle::Unsalvaged),
        Err(fault) => fault_ending(alloc, name, fault),
    }
}

// Salvages a store that doesn't open.
fn salvage_refused<S: Store, W: Sink + Drop>(
    alloc: Global,
    mut store: S,
    name: &str,
    all: bool,
    writer: W,
) -> (W, Ending)
    ensures { (left : S) × OnlyReadsStore (S.facts store) (S.facts left)
        × Salvages W.contents W.writes name.now (salvage_text all) (S.facts store) (S.facts left) writer
        result.0 result.1 }
{
    let (left, salvaged) = write_salvage(alloc, &mut store, all, writer);
    (left, salvage_ending(alloc, name, salvaged))
}

// The same, where it isn't opened for this fault.
fn salvage_unopened<S: Store, W: Sink + Drop>(
    alloc: Global,
    fault: Fault,
    store: S,
    name: &str,
    all: bool,
    writer: W,
) -> (W, Ending)
    ensures { (left : S) × OnlyReadsStore (S.facts store) (S.facts left)
        × SalvagesUnopened W.contents W.writes name.now all fault (S.facts store) (S.facts left) writer
        result.0 result.1 }
{
    match fault {
        Fault::Memory => (writer, Ending::Memory),
        Fault::File => (writer, refused(alloc, name, Obstacle::Unread)),
        _ => salvage_refused(alloc, store, name, all, writer),
    }
}

fn salvage_store<S: Store, W: Sink + Drop>(
    alloc: Global,
    store: S,
    name: &str,
    all: bool,
    writer: W,
) -> (W, Ending)
    ensures { (left : S) × OnlyReadsStore (S.facts store) (S.facts left)
        × Salvages W.contents W.writes name.now (file_script all) (S.facts store) (S.facts left) writer
        result.0 result.1 }
{
    match VmFile::open(alloc, store, false) {
        Ok(file) => {
            let mut documents = file.into_documents();
            dump_open(alloc, &mut documents, name, Which::Both, writer)
        }
        Err(none) => salvage_unopened(alloc, none.fault, none.store, name, all, writer),
    }
}

/// Opens the file of a name to be read alone, writes the script that makes its documents again, or, where it doesn't
/// open, the blocks that are whole, or `all` that can be read, and gives the writer back. It gets the script in parts.
pub fn salvage_file<V: Viewer, W: Sink + Drop>(
    alloc: Global,
    viewer: &mut V,
    file: &str,
    all: bool,
    writer: W,
) -> (W, Ending)
    ensures { SalvagesFile V.views V.Opened.facts W.contents W.writes file.now all viewer.old viewer.new writer
        result.0 result.1 }
{
    match viewer.view(file) {
        Ok(store) => salvage_store(alloc, store, file, all, writer),
        Err(cause) => (writer, refused(alloc, file, Obstacle::Unviewed(cause))),
    }
}
