//! The check of a whole file.
ghost use Rattle.std.specs.Prelude.{◌≡◌, ◌≤◌, ◌<◌, ◌&&◌, if◌then◌else◌, IsTrue, IfOk, IfErr, IsErr, IsErrOf, Ok, Err, [], ◌==◌, ◌||◌, not, length};
ghost use Rattle.std.specs.Option.{option_map};
ghost use Rattle.std.specs.Result.{result_map_both};
ghost use Rattle.vm_store.specs.Facts.{FailedSince};
ghost use Rattle.file_format.specs.Reading.{IsResourceFault, OnlyReadsStore};
ghost use Rattle.file_report.specs.Findings.{FindsMore};
ghost use Rattle.file_report.specs.Reading.{IsSoOfSlot};
ghost use Rattle.file_format.specs.Slots.{chosen_by, header_verdict};
ghost use Rattle.file_report.specs.Checked.{IsReport, IsSlotReport, IsState, chosen_between, counting_between, counting_number, with_sequence, opened, verdict_by};

use crate::document::check_document;
use crate::finding::{Finding, Named, note_unless};
use file_format::{
    Directory, PAGE, Slot, check_slot as check_header, choose, is_sealed, is_version, read_length,
    read_raw_slot,
};
use geos_model::Fault;
use std::alloc::{AllocError, Global};
use vm_store::Store;

/// What was found of an open slot, as if it counted.
#[derive(Drop)]
pub struct SlotReport {
    pub slot: Slot,
    /// Whether its two documents stand, or why not: `Damaged`, or `NotDocument` where its version is none.
    pub verdict: Result<(), Fault>,
    /// The directory of the updated document, None where there is none, or where the slot itself is wrong.
    pub updated: Option<Directory>,
    /// That of the saved document.
    pub saved: Option<Directory>,
    /// What is wrong.
    pub findings: Vec<Finding>,
}

/// What stands at the page of a slot.
#[derive(Drop)]
pub enum SlotState {
    /// The file has fewer than 1,024 bytes, so it has no slots.
    Short,
    /// The mark of a slot doesn't stand there.
    NoMark,
    /// A slot, of which the gate isn't open.
    Closed(Slot),
    /// An open slot.
    Open(SlotReport),
}

/// What was found of a file.
#[derive(Drop)]
pub struct Report {
    /// In bytes.
    pub file_length: u64,
    /// Whether the file opens, or why not: `Damaged` or `NotDocument`.
    pub verdict: Result<(), Fault>,
    /// That at page 0.
    pub first: SlotState,
    /// That at page 1.
    pub second: SlotState,
}

// What is wrong with a slot, whatever it leads to.
fn slot_findings(alloc: Global, slot: &Slot) -> Result<Vec<Finding>, AllocError>
    ensures so { IfOk result (λ findings. FindsMore (IsSoOfSlot slot.now) [] findings.items) }
    ensures some { IfOk result (λ findings. IsErr (header_verdict slot.now) → 0 < length findings.items) }
{
    let mut findings = Vec::new(alloc);
    let version = is_version(slot.version);
    note_unless(version, Finding::SlotVersion(slot.version), &mut findings)?;
    let zeros = slot.reserved == 0;
    note_unless(zeros, Finding::SlotZeros, &mut findings)?;
    let numbered = is_sequence(slot.sequence);
    note_unless(numbered, Finding::SlotSequence, &mut findings)?;
    let sealed = is_sealed(slot);
    note_unless(sealed, Finding::SlotSum, &mut findings)?;
    Ok(findings)
}

// Whether a slot can have the sequence number.
fn is_sequence(sequence: u64) -> bool
    ensures { result ≡ not (sequence == 0) }
{
    sequence != 0
}

// Whether two documents stand.
fn both(updated: bool, saved: bool) -> Result<(), Fault>
    ensures { result ≡ (if updated && saved then Ok tt else Err Fault.Damaged) }
{
    if updated && saved {
        Ok(())
    } else {
        Err(Fault::Damaged)
    }
}

// Looks through an open slot. What it leads to isn't looked at where it is wrong itself. Memory, File.
fn check_slot<S: Store>(
    alloc: Global,
    store: &mut S,
    file_length: u64,
    slot: Slot,
) -> Result<SlotReport, Fault>
    requires { IsTrue (S.facts store.old).honest → file_length ≡ length (S.facts store.old).content }
    ensures looks { OnlyReadsStore (S.facts store.old) (S.facts store.new) }
    ensures slot { IfOk result (λ r. r.slot ≡ slot) }
    ensures report { IfOk result (λ r. IsTrue (S.facts store.old).honest
        → IsSlotReport (S.facts store.old).content r) }
    ensures file { IsErrOf result Fault.File → FailedSince (S.facts store.old) (S.facts store.new) }
    ensures refusals { IfErr result IsResourceFault }
{
    let mut findings = slot_findings(alloc, &slot)?;
    if let Err(fault) = check_header(&slot) {
        return Ok(SlotReport {
            slot,
            verdict: Err(fault),
            updated: None,
            saved: None,
            findings,
        });
    }
    let updated = check_document(
        alloc,
        store,
        file_length,
        &slot,
        Named::Updated,
        &mut findings,
    )?;
    let saved = check_document(
        alloc,
        store,
        file_length,
        &slot,
        Named::Saved,
        &mut findings,
    )?;
    Ok(SlotReport {
        slot,
        verdict: both(updated.stands, saved.stands),
        updated: updated.directory,
        saved: saved.directory,
        findings,
    })
}

// Looks at the page of a slot, 0 or 1. Memory, File.
fn check_page<S: Store>(
    alloc: Global,
    store: &mut S,
    file_length: u64,
    page: u32,
) -> Result<SlotState, Fault>
    requires length { IsTrue (S.facts store.old).honest → file_length ≡ length (S.facts store.old).content }
    ensures looks { OnlyReadsStore (S.facts store.old) (S.facts store.new) }
    ensures state { IfOk result (λ state. IsTrue (S.facts store.old).honest
        → IsState (S.facts store.old).content page state) }
    ensures file { IsErrOf result Fault.File → FailedSince (S.facts store.old) (S.facts store.new) }
    ensures refusals { IfErr result IsResourceFault }
{
    match read_raw_slot(store, page)?.slot {
        None => Ok(SlotState::NoMark),
        Some(slot) if slot.gate != 1 => Ok(SlotState::Closed(slot)),
        Some(slot) => Ok(SlotState::Open(check_slot(alloc, store, file_length, slot)?)),
    }
}

impl SlotState {
    /// What was found of the slot, where it is open.
    pub fn opened(&self) -> Option<&SlotReport>
        ensures { option_map (λ r. r.now) result ≡ opened self.now }
    {
        match self {
            SlotState::Open(report) => Some(report),
            _ => None,
        }
    }
}

impl Report {
    /// The open slot that counts: of two that with the greater sequence number, and none where they are equal.
    pub fn counting(&self) -> Option<&SlotReport>
        ensures { option_map (λ r. r.now) result ≡ counting_between self.now.first self.now.second }
    {
        match chosen(&self.first, &self.second) {
            Ok((_, report)) => Some(report),
            Err(_) => None,
        }
    }

    /// Its number, 0 or 1.
    pub fn counting_number(&self) -> Option<u8>
        ensures { result ≡ counting_number self.now.first self.now.second }
    {
        match chosen(&self.first, &self.second) {
            Ok((slot, _)) => Some(slot),
            Err(_) => None,
        }
    }
}

// What was found of a slot, with its sequence number, where it is open.
fn numbered(state: &SlotState) -> Option<(u64, &SlotReport)>
    ensures { option_map (λ p. (p.0, p.1.now)) result ≡ option_map with_sequence (opened state.now) }
{
    match state {
        SlotState::Open(report) => Some((report.slot.sequence, report)),
        _ => None,
    }
}

// Which slot counts, 0 or 1, and what was found of it, or what the file is where none does.
fn chosen<'a>(first: &'a SlotState, second: &'a SlotState) -> Result<(u8, &'a SlotReport), Fault>
    ensures { result_map_both (λ p. (p.0, p.1.now)) (λ fault. fault) result ≡ chosen_between first.now second.now }
{
    choose(numbered(first), numbered(second))
}

// Whether the file of two slots opens.
fn verdict_between(first: &SlotState, second: &SlotState) -> Result<(), Fault>
    ensures { result ≡ verdict_by (chosen_between first.now second.now) }
{
    match chosen(first, second) {
        Ok((_, report)) => report.verdict,
        Err(fault) => Err(fault),
    }
}

/// Looks through a file: whether it opens, and what is wrong. Nothing is written, and no more memory is taken than for
/// one image and the directories. Memory, File.
pub fn check<S: Store>(alloc: Global, store: &mut S) -> Result<Report, Fault>
    ensures looks { OnlyReadsStore (S.facts store.old) (S.facts store.new) }
    ensures report { IfOk result (λ r. IsTrue (S.facts store.old).honest → IsReport (S.facts store.old).content r) }
    ensures file { IsErrOf result Fault.File → FailedSince (S.facts store.old) (S.facts store.new) }
    ensures refusals { IfErr result IsResourceFault }
{
    let file_length = read_length(store)?;
    if file_length < 2 * u64::from(PAGE) {
        return Ok(Report {
            file_length,
            verdict: Err(Fault::NotDocument),
            first: SlotState::Short,
            second: SlotState::Short,
        });
    }
    let first = check_page(alloc, store, file_length, 0)?;
    let second = check_page(alloc, store, file_length, 1)?;
    Ok(Report {
        file_length,
        verdict: verdict_between(&first, &second),
        first,
        second,
    })
}
