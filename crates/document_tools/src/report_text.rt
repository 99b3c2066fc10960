//! The report of a check as text, one fact a line.
ghost use Rattle.std.specs.Prelude.{◌≡◌, ◌++◌, OnOk, codes};
ghost use Rattle.std.specs.Fmt.{decimal};
ghost use Rattle.std.specs.Option.{option_map};
ghost use Rattle.std.specs.List.{flat_map};
ghost use Rattle.file_report.specs.Checked.{counting_number};
ghost use Rattle.document_tools.specs.Reports.{counts_line, finding_line, none_line, words_and_number, open_line, opens_line, report_text, slot_lines, slot_start, stands_text};

use crate::lines::{push_decimal, push_shown};
use file_format::Slot;
use file_report::{Finding, Report, SlotReport, SlotState};
use geos_model::Fault;
use std::alloc::AllocError;

fn push_verdict(out: &mut Vec<u8>, verdict: Result<(), Fault>) -> Result<(), AllocError>
    ensures { OnOk result (out.new.items ≡ out.old.items ++ opens_line verdict) }
{
    match verdict {
        Ok(()) => out.extend_from_slice(b"opens: yes\n"),
        Err(fault) => {
            out.extend_from_slice(b"opens: no, ")?;
            out.extend_from_slice(fault.name().as_bytes())?;
            Ok(out.push(b'\n')?)
        }
    }
}

fn push_length(out: &mut Vec<u8>, length: u64) -> Result<(), AllocError>
    ensures { OnOk result (out.new.items
        ≡ out.old.items ++ (codes "length: " ++ decimal length ++ codes " bytes\n")) }
{
    out.extend_from_slice(b"length: ")?;
    push_decimal(out, length)?;
    out.extend_from_slice(b" bytes\n")
}

// How each line of a slot begins.
fn push_start(out: &mut Vec<u8>, number: u8) -> Result<(), AllocError>
    ensures { OnOk result (out.new.items ≡ out.old.items ++ slot_start number) }
{
    out.extend_from_slice(b"slot ")?;
    push_decimal(out, u64::from(number))?;
    out.extend_from_slice(b": ")
}

fn push_finding(out: &mut Vec<u8>, number: u8, finding: &Finding) -> Result<(), AllocError>
    ensures { OnOk result (out.new.items ≡ out.old.items ++ finding_line number finding.now) }
{
    push_start(out, number)?;
    push_shown(out, *finding)?;
    Ok(out.push(b'\n')?)
}

fn push_findings(out: &mut Vec<u8>, number: u8, findings: &[Finding]) -> Result<(), AllocError>
    ensures { OnOk result (out.new.items ≡ out.old.items ++ flat_map (finding_line number) findings.now) }
{
    for finding in findings {
        push_finding(out, number, finding)?;
    }
    Ok(())
}

fn push_stands(out: &mut Vec<u8>, verdict: Result<(), Fault>) -> Result<(), AllocError>
    ensures { OnOk result (out.new.items ≡ out.old.items ++ stands_text verdict) }
{
    match verdict {
        Ok(()) => out.extend_from_slice(b"its documents stand\n"),
        Err(_) => out.extend_from_slice(b"its documents don't stand\n"),
    }
}

// Words, and a number behind them.
fn push_numbered(out: &mut Vec<u8>, words: &[u8], number: u64) -> Result<(), AllocError>
    ensures { OnOk result (out.new.items ≡ out.old.items ++ words_and_number words.now number) }
{
    out.extend_from_slice(words)?;
    push_decimal(out, number)
}

fn push_open_line(out: &mut Vec<u8>, number: u8, report: &SlotReport) -> Result<(), AllocError>
    ensures { OnOk result (out.new.items ≡ out.old.items ++ open_line number report.now) }
{
    push_start(out, number)?;
    push_numbered(out, b"open, version ", u64::from(report.slot.version))?;
    push_numbered(out, b", sequence ", report.slot.sequence)?;
    out.extend_from_slice(b": ")?;
    Ok(push_stands(out, report.verdict)?)
}

fn push_closed(out: &mut Vec<u8>, slot: &Slot) -> Result<(), AllocError>
    ensures { OnOk result (out.new.items ≡ out.old.items ++ (codes "closed, its gate is " ++ decimal slot.now.gate ++ codes "\n")) }
{
    out.extend_from_slice(b"closed, its gate is ")?;
    push_decimal(out, u64::from(slot.gate))?;
    Ok(out.push(b'\n')?)
}

fn push_slot(out: &mut Vec<u8>, number: u8, state: &SlotState) -> Result<(), AllocError>
    ensures { OnOk result (out.new.items ≡ out.old.items ++ slot_lines number state.now) }
{
    match state {
        SlotState::Short => {
            push_start(out, number)?;
            out.extend_from_slice(b"the file is shorter than 1024 bytes\n")
        }
        SlotState::NoMark => {
            push_start(out, number)?;
            out.extend_from_slice(b"its mark is not GVMF\n")
        }
        SlotState::Closed(slot) => {
            push_start(out, number)?;
            push_closed(out, slot)
        }
        SlotState::Open(report) => {
            push_open_line(out, number, report)?;
            push_findings(out, number, &report.findings)
        }
    }
}

// Why no slot counts, by what was found of the first.
fn push_none(out: &mut Vec<u8>, first: Option<&SlotReport>) -> Result<(), AllocError>
    ensures { OnOk result (out.new.items ≡ out.old.items ++ none_line (option_map (λ r. r.now) first.entry)) }
{
    match first {
        None => out.extend_from_slice(b"counts: no slot, none is open\n"),
        Some(_) => out.extend_from_slice(b"counts: no slot, both have the same sequence number\n"),
    }
}

// Which slot counts, or why none does.
fn push_counts(out: &mut Vec<u8>, counts: Option<u8>, first: &SlotState) -> Result<(), AllocError>
    ensures { OnOk result (out.new.items ≡ out.old.items ++ counts_line counts first.now) }
{
    match counts {
        Some(number) => {
            out.extend_from_slice(b"counts: slot ")?;
            push_decimal(out, u64::from(number))?;
            Ok(out.push(b'\n')?)
        }
        None => push_none(out, first.opened()),
    }
}

/// Puts what a check found behind what is there.
pub fn push_report(out: &mut Vec<u8>, report: &Report, counts: Option<u8>) -> Result<(), AllocError>
    requires { counts ≡ counting_number report.now.first report.now.second }
    ensures { OnOk result (out.new.items ≡ out.old.items ++ report_text report.now) }
{
    push_verdict(out, report.verdict)?;
    push_length(out, report.file_length)?;
    push_slot(out, 0, &report.first)?;
    push_slot(out, 1, &report.second)?;
    push_counts(out, counts, &report.first)
}
