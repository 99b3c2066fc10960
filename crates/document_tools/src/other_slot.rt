//! A dump of what the slot leads to that doesn't count.
ghost use Rattle.std.specs.Prelude.{◌≡◌, IsTrue, MatchResult, Some};
ghost use Rattle.document_file.specs.Opened.{OnlyReadsStore};
ghost use Rattle.file_report.specs.Checked.{IsReport, counting_number};
ghost use Rattle.file_map.specs.Faults.{IsUncounted};
ghost use Rattle.file_map.specs.declared.fault.MapFault.TheVariants.{Unopened};
ghost use Rattle.document_tools.specs.OtherSlots.{DumpsOther, DumpsOtherFile, DumpsSlot};
ghost use Rattle.file_format.specs.Slots.{number_of};

use crate::dumping::dump_open;
use crate::ending::{Ending, refused};
use crate::looking::unopened;
use crate::obstacle::Obstacle;
use crate::viewer::Viewer;
use document_dump::Which;
use document_file::StoredDocuments;
use file_report::{Report, check};
use geos_model::Fault;
use geos_shell::Sink;
use std::alloc::Global;
use vm_store::Store;

// The slot that counts. Where none does it is told why: the file opens in no such case.
fn counting_slot(report: &Report) -> Result<u8, Fault>
    ensures { MatchResult result
        (λ slot. counting_number report.now.first report.now.second ≡ Some slot)
        (λ fault. IsUncounted report.now (Unopened fault)) }
{
    if let Some(slot) = report.counting_number() {
        return Ok(slot);
    }
    match report.verdict {
        Ok(()) => Err(Fault::NotDocument),
        Err(fault) => Err(fault),
    }
}

// Dumps what a slot leads to, the second one or the first.
fn dump_slot<S: Store, W: Sink + Drop>(
    alloc: Global,
    store: S,
    second: bool,
    name: &str,
    writer: W,
) -> (W, Ending)
    ensures { (left : S) × OnlyReadsStore (S.facts store) (S.facts left)
        × DumpsSlot W.contents W.writes name.now (number_of second) (S.facts store) (S.facts left) writer
        result.0 result.1 }
{
    match StoredDocuments::open_slot(alloc, store, second) {
        Ok(mut documents) => { dump_open(alloc, &mut documents, name, Which::Both, writer) }
        Err(refused) => {
            let obstacle = Obstacle::NoOther(refused.fault);
            (writer, unopened(alloc, name, refused.fault, obstacle))
        }
    }
}

// Dumps what the slot leads to that doesn't count, by what was found of the file.
fn dump_by_report<S: Store, W: Sink + Drop>(
    alloc: Global,
    store: S,
    report: &Report,
    name: &str,
    writer: W,
) -> (W, Ending)
    requires { IsTrue (S.facts store).honest → IsReport (S.facts store).content report.now }
    ensures { (left : S) × OnlyReadsStore (S.facts store) (S.facts left)
        × DumpsOther W.contents W.writes name.now (S.facts store) (S.facts left) writer result.0 result.1 }
{
    match counting_slot(report) {
        Ok(slot) => dump_slot(alloc, store, slot == 0, name, writer),
        Err(fault) => (writer, refused(alloc, name, Obstacle::Unopened(fault))),
    }
}

fn dump_other_of<S: Store, W: Sink + Drop>(
    alloc: Global,
    mut store: S,
    name: &str,
    writer: W,
) -> (W, Ending)
    ensures { (left : S) × OnlyReadsStore (S.facts store) (S.facts left)
        × DumpsOther W.contents W.writes name.now (S.facts store) (S.facts left) writer result.0 result.1 }
{
    match check(alloc, &mut store) {
        Ok(report) => dump_by_report(alloc, store, &report, name, writer),
        Err(fault) => {
            let obstacle = Obstacle::Unopened(fault);
            (writer, unopened(alloc, name, fault, obstacle))
        }
    }
}

/// Opens the file of a name to be read alone, writes the script that makes the documents again to which the slot leads
/// that doesn't count, and gives the writer back. It gets the script in parts.
pub fn dump_other<V: Viewer, W: Sink + Drop>(
    alloc: Global,
    viewer: &mut V,
    file: &str,
    writer: W,
) -> (W, Ending)
    ensures { DumpsOtherFile V.views V.Opened.facts W.contents W.writes file.now viewer.old viewer.new writer
        result.0 result.1 }
{
    match viewer.view(file) {
        Ok(store) => dump_other_of(alloc, store, file, writer),
        Err(cause) => (writer, refused(alloc, file, Obstacle::Unviewed(cause))),
    }
}
