//! What is wrong with the directory of one of a slot's documents.
ghost use Rattle.std.specs.Prelude.{◌≡◌, ◌<◌, ◌≤◌, OnOk, length};
ghost use Rattle.file_report.specs.Findings.{FindsMore, HasEntry, IsSeen, directory_extent, directory_sum};
ghost use Rattle.file_report.specs.Reading.{IsSoOf, IsSoOfRead, IsWrong};

use crate::entry::{
    count_of, directory_version, entry_text_at, handle_before, has_entry_zeros, has_header_zeros,
    has_mark, is_above, is_directory_length, is_handle, is_image_length, is_map_block, is_whole,
    map_block_of, whole_entries,
};
use crate::finding::{EntryFault, Finding, HeaderFault, Named, note_unless};
use file_format::{
    Extent, HEADER_LENGTH, ReadDirectory, Slot, has_sum, is_in_file, is_known, read_entry,
};
use geos_model::VmHandle;
use std::alloc::AllocError;

/// Where the directory of one of a slot's documents lies.
pub fn directory_extent(slot: &Slot, name: Named) -> Extent
    ensures { result ≡ directory_extent slot.now name }
{
    match name {
        Named::Updated => slot.working,
        Named::Saved => slot.saved,
    }
}

/// The sum of that directory, if there is one.
pub fn directory_sum(slot: &Slot, name: Named) -> Option<u32>
    ensures { result ≡ directory_sum slot.now name }
{
    let sums = slot.sums?;
    match name {
        Named::Updated => Some(sums.working),
        Named::Saved => Some(sums.saved),
    }
}

// Notes what is wrong with a header.
fn note_header(
    bytes: &[u8],
    file_length: u64,
    file_version: u8,
    name: Named,
    findings: &mut Vec<Finding>,
) -> Result<(), AllocError>
    requires { 16 ≤ length bytes.now }
    ensures { OnOk result (FindsMore (IsSeen file_version file_length bytes.now name)
        findings.old.items findings.new.items) }
{
    let version = directory_version(bytes);
    let count = count_of(bytes);
    let marked = has_mark(bytes);
    note_unless(marked, Finding::Header(name, HeaderFault::Mark), findings)?;
    let known = is_known(version, file_version);
    note_unless(
        known,
        Finding::Header(name, HeaderFault::Version(version)),
        findings,
    )?;
    let zeros = has_header_zeros(bytes);
    note_unless(zeros, Finding::Header(name, HeaderFault::Zeros), findings)?;
    let whole = is_whole(bytes, count);
    note_unless(
        whole,
        Finding::Header(name, HeaderFault::Length(count)),
        findings,
    )?;
    Ok(())
}

// Notes what is wrong with an entry.
fn note_entry(
    bytes: &[u8],
    file_length: u64,
    file_version: u8,
    name: Named,
    i: usize,
    findings: &mut Vec<Finding>,
) -> Result<(), AllocError>
    requires { HasEntry bytes.now i }
    ensures { OnOk result (FindsMore (IsSeen file_version file_length bytes.now name)
        findings.old.items findings.new.items) }
{
    let version = directory_version(bytes);
    let text = entry_text_at(bytes, i);
    let last = handle_before(bytes, i);
    let entry = read_entry(version, text);
    let above = is_above(entry.handle.0, last);
    note_unless(
        above,
        Finding::Entry(name, i, entry, EntryFault::Order),
        findings,
    )?;
    let handle = is_handle(entry.handle.0, version);
    note_unless(
        handle,
        Finding::Entry(name, i, entry, EntryFault::Handle),
        findings,
    )?;
    let length = is_image_length(entry.extent.length);
    note_unless(
        length,
        Finding::Entry(name, i, entry, EntryFault::Length),
        findings,
    )?;
    let inside = is_in_file(entry.extent, file_length, file_version);
    note_unless(
        inside,
        Finding::Entry(name, i, entry, EntryFault::Outside),
        findings,
    )?;
    let zeros = has_entry_zeros(version, text);
    note_unless(
        zeros,
        Finding::Entry(name, i, entry, EntryFault::Zeros),
        findings,
    )?;
    Ok(())
}

// Notes what is wrong with the entries.
fn note_entries(
    bytes: &[u8],
    file_length: u64,
    file_version: u8,
    name: Named,
    findings: &mut Vec<Finding>,
) -> Result<(), AllocError>
    requires { 16 ≤ length bytes.now }
    ensures { OnOk result (FindsMore (IsSeen file_version file_length bytes.now name)
        findings.old.items findings.new.items) }
{
    for i in 0..whole_entries(bytes) {
        note_entry(bytes, file_length, file_version, name, i, findings)?;
    }
    Ok(())
}

// Notes that the map block isn't listed.
fn note_map_block(
    bytes: &[u8],
    file_length: u64,
    file_version: u8,
    name: Named,
    findings: &mut Vec<Finding>,
) -> Result<(), AllocError>
    requires { 16 ≤ length bytes.now }
    ensures { OnOk result (FindsMore (IsSeen file_version file_length bytes.now name)
        findings.old.items findings.new.items) }
{
    let map_block = map_block_of(bytes);
    let listed = is_map_block(bytes, map_block);
    note_unless(
        listed,
        Finding::MapBlock(name, VmHandle(map_block)),
        findings,
    )?;
    Ok(())
}

// Notes what is wrong with the bytes of a directory. Entries behind a wrong header aren't looked at.
fn note_bytes(
    bytes: &[u8],
    file_length: u64,
    file_version: u8,
    name: Named,
    findings: &mut Vec<Finding>,
) -> Result<(), AllocError>
    ensures { OnOk result (FindsMore (IsSeen file_version file_length bytes.now name)
        findings.old.items findings.new.items) }
{
    if bytes.len() < HEADER_LENGTH {
        return Ok(());
    }
    let before = findings.len();
    note_header(bytes, file_length, file_version, name, findings)?;
    if findings.len() > before {
        return Ok(());
    }
    note_entries(bytes, file_length, file_version, name, findings)?;
    note_map_block(bytes, file_length, file_version, name, findings)?;
    Ok(())
}

// Notes why no directory can lie where it should.
fn note_place(
    file_length: u64,
    slot: &Slot,
    name: Named,
    findings: &mut Vec<Finding>,
) -> Result<(), AllocError>
    ensures { OnOk result (FindsMore (IsSoOf file_length slot.now) findings.old.items findings.new.items) }
{
    let extent = directory_extent(slot, name);
    let inside = is_in_file(extent, file_length, slot.version);
    note_unless(inside, Finding::Outside(name, extent), findings)?;
    let length = is_directory_length(extent.length);
    note_unless(length, Finding::NoLength(name, extent), findings)?;
    Ok(())
}

/// Notes what is wrong with a directory that was read.
pub fn note_directory(
    read: &ReadDirectory,
    file_length: u64,
    slot: &Slot,
    name: Named,
    findings: &mut Vec<Finding>,
) -> Result<(), AllocError>
    ensures found { OnOk result (FindsMore (IsSoOfRead file_length slot.now name read.now)
        findings.old.items findings.new.items) }
    ensures some { OnOk result (IsWrong read.now → length findings.old.items < length findings.new.items) }
{
    let extent = directory_extent(slot, name);
    match read {
        ReadDirectory::Right(_) => Ok(()),
        ReadDirectory::Misplaced => {
            findings.push(Finding::NoDirectory(name, extent))?;
            note_place(file_length, slot, name, findings)?;
            Ok(())
        }
        ReadDirectory::Wrong(bytes) => {
            findings.push(Finding::NoDirectory(name, extent))?;
            let summed = has_sum(directory_sum(slot, name), bytes);
            note_unless(summed, Finding::DirectorySum(name), findings)?;
            note_bytes(bytes, file_length, slot.version, name, findings)?;
            Ok(())
        }
    }
}
