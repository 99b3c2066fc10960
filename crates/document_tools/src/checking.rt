//! The check of a file.
ghost use Rattle.std.specs.Prelude.{◌≡◌, ◌++◌, IfOk, MatchResult};
ghost use Rattle.document_file.specs.Opened.{OnlyReadsStore};
ghost use Rattle.file_report.specs.Checked.{counting_number};
ghost use Rattle.document_tools.specs.Checks.{ChecksFile, ChecksStore, IsCheckText, PrintsReport};
ghost use Rattle.document_tools.specs.Reports.{next_lines, report_text};
ghost use Rattle.document_tools.specs.declared.ending.Ending.TheVariants as endings;

use crate::ending::{Ending, refused, unread};
use crate::next_step::push_next_lines;
use crate::obstacle::Obstacle;
use crate::pages_text::counting_text;
use crate::report_text::push_report;
use crate::viewer::Viewer;
use file_report::{Report, check};
use geos_model::Fault;
use geos_shell::Sink;
use std::alloc::{AllocError, Global};
use vm_store::Store;

// The lines of a report, these behind them, and the next step.
fn report_lines(
    alloc: Global,
    report: &Report,
    counts: Option<u8>,
    pages: &[u8],
) -> Result<Vec<u8>, AllocError>
    requires { counts ≡ counting_number report.now.first report.now.second }
    ensures { IfOk result (λ text. text.items ≡ report_text report.now ++ pages.now ++ next_lines report.now) }
{
    let mut text = Vec::new(alloc);
    push_report(&mut text, report, counts)?;
    text.extend_from_slice(pages)?;
    push_next_lines(&mut text, report)?;
    Ok(text)
}

// All that is told of a report.
fn check_text(alloc: Global, report: &Report) -> Result<Vec<u8>, AllocError>
    ensures { IfOk result (λ text. IsCheckText report.now text.items) }
{
    let counts = report.counting_number();
    let counting = report.counting();
    let pages = counting_text(alloc, counting, report.file_length)?;
    let told = pages.as_slice();
    let text = report_lines(alloc, report, counts, told)?;
    Ok(text)
}

fn ending_of(verdict: Result<(), Fault>) -> Ending
    ensures { MatchResult verdict (λ _. result ≡ endings.Done) (λ _. result ≡ endings.Unsound) }
{
    match verdict {
        Ok(()) => Ending::Done,
        Err(_) => Ending::Unsound,
    }
}

// Writes all that is told of a report.
fn send_report<W: Sink>(report: &Report, text: &[u8], writer: &mut W) -> Ending
    requires { IsCheckText report.now text.now }
    ensures { PrintsReport W.writes report.now writer.old writer.new result }
{
    match writer.write_out(text) {
        Ok(()) => ending_of(report.verdict),
        Err(_) => Ending::WriteFault,
    }
}

fn tell_report<W: Sink>(alloc: Global, report: &Report, writer: &mut W) -> Ending
    ensures { PrintsReport W.writes report.now writer.old writer.new result }
{
    match check_text(alloc, report) {
        Ok(text) => send_report(report, text.as_slice(), writer),
        Err(_) => Ending::Memory,
    }
}

fn check_store<S: Store, W: Sink>(
    alloc: Global,
    store: &mut S,
    file: &str,
    writer: &mut W,
) -> Ending
    ensures looks { OnlyReadsStore (S.facts store.old) (S.facts store.new) }
    ensures told { ChecksStore W.writes file.now (S.facts store.old) (S.facts store.new) writer.old writer.new result }
{
    match check(alloc, store) {
        Ok(report) => tell_report(alloc, &report, writer),
        Err(fault) => unread(alloc, file, fault),
    }
}

/// Opens the file of a name to be read alone, and writes whether it opens, its length, what stands at its slots and
/// what is wrong with them, which of its extents overlap, how many of its pages nothing lies on, and where it doesn't
/// open what can be done. It is one write.
pub fn check_file<V: Viewer, W: Sink>(
    alloc: Global,
    viewer: &mut V,
    file: &str,
    writer: &mut W,
) -> Ending
    ensures { ChecksFile V.views V.Opened.facts W.writes file.now viewer.old viewer.new writer.old writer.new result }
{
    match viewer.view(file) {
        Ok(mut store) => check_store(alloc, &mut store, file, writer),
        Err(cause) => refused(alloc, file, Obstacle::Unviewed(cause)),
    }
}
