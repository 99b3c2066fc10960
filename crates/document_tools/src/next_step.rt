//! What can be done of a file that doesn't open.
ghost use Rattle.std.specs.Prelude.{◌≡◌, ◌++◌, OnOk};
ghost use Rattle.document_tools.specs.Reports.{has_other, slot_has_sums, is_marked, is_standing, is_summed, next_lines, other_step, restore_words, salvage_step, step_line, step_lines};

use file_report::{Report, SlotState};
use std::alloc::AllocError;

const NOTHING: &[u8] =
    b"next: see whether this is the right file; nothing of a document is where its slots would be\n";

// Whether there is a slot, open or closed.
fn is_marked(state: &SlotState) -> bool
    ensures { result ≡ is_marked state.now }
{
    !matches!(state, SlotState::Short | SlotState::NoMark)
}

// Whether it has sums, and so is of version 3.
fn slot_has_sums(state: &SlotState) -> bool
    ensures { result ≡ slot_has_sums state.now }
{
    match state {
        SlotState::Short | SlotState::NoMark => false,
        SlotState::Closed(slot) => slot.sums.is_some(),
        SlotState::Open(report) => report.slot.sums.is_some(),
    }
}

// Whether it is open, and its documents stand.
fn is_standing(state: &SlotState) -> bool
    ensures { result ≡ is_standing state.now }
{
    match state {
        SlotState::Open(report) => report.verdict.is_ok(),
        _ => false,
    }
}

// Whether one counts and one stands. Where the file doesn't open that isn't the same.
fn has_other(report: &Report) -> bool
    ensures { result ≡ has_other report.now }
{
    report.counting_number().is_some()
        && (is_standing(&report.first) || is_standing(&report.second))
}

// Whether the file has checksums. No slot need count for that: one that is damaged may not tell its version.
fn is_summed(report: &Report) -> bool
    ensures { result ≡ is_summed report.now }
{
    slot_has_sums(&report.first) || slot_has_sums(&report.second)
}

fn restore_words(summed: bool) -> &'static [u8]
    ensures { result.now ≡ restore_words summed }
{
    if summed {
        b" FILE | geosdoc restore --checksums FILE2 makes "
    } else {
        b" FILE | geosdoc restore FILE2 makes "
    }
}

// The line of a command that writes a script, and of what the script makes.
fn push_step(out: &mut Vec<u8>, command: &[u8], summed: bool, made: &[u8]) -> Result<(), AllocError>
    ensures { OnOk result (out.new.items ≡ out.old.items ++ step_line command.now summed made.now) }
{
    out.extend_from_slice(b"next: geosdoc ")?;
    out.extend_from_slice(command)?;
    out.extend_from_slice(restore_words(summed))?;
    out.extend_from_slice(made)?;
    Ok(out.push(b'\n')?)
}

fn push_salvage_step(out: &mut Vec<u8>, summed: bool) -> Result<(), AllocError>
    ensures { OnOk result (out.new.items ≡ out.old.items ++ salvage_step summed) }
{
    push_step(
        out,
        b"salvage",
        summed,
        b"a document of the blocks that can be read",
    )
}

fn push_other_step(out: &mut Vec<u8>, summed: bool) -> Result<(), AllocError>
    ensures { OnOk result (out.new.items ≡ out.old.items ++ other_step summed) }
{
    push_step(
        out,
        b"dump --other",
        summed,
        b"the documents of the commit before",
    )
}

fn push_step_lines(out: &mut Vec<u8>, report: &Report) -> Result<(), AllocError>
    ensures { OnOk result (out.new.items ≡ out.old.items ++ step_lines report.now) }
{
    let summed = is_summed(report);
    if has_other(report) {
        // These documents are whole, but lack the last commit, of which a salvage may have more.
        push_other_step(out, summed)?;
        push_salvage_step(out, summed)
    } else if is_marked(&report.first) || is_marked(&report.second) {
        push_salvage_step(out, summed)
    } else {
        out.extend_from_slice(NOTHING)
    }
}

/// Puts what can be done of a file behind what is there, nothing where it opens.
pub fn push_next_lines(out: &mut Vec<u8>, report: &Report) -> Result<(), AllocError>
    ensures { OnOk result (out.new.items ≡ out.old.items ++ next_lines report.now) }
{
    if report.verdict.is_ok() {
        Ok(())
    } else {
        push_step_lines(out, report)
    }
}
