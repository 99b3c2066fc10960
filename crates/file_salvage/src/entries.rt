//! Which entries of a directory are whole, and which are taken.
ghost use Rattle.std.specs.Prelude.{◌≡◌, ◌++◌, ◌<◌, ◌≤◌, ℕ, All, IfErr, IfOk, IsErrOf, IsTrue, OnOk, false, get_or, is_some, length, map};
ghost use Rattle.std.specs.Io.KnownBytes.{Appends};
ghost use Rattle.vm_store.specs.Facts.{FailedSince};
ghost use Rattle.file_format.specs.Reading.{IsResourceFault, OnlyReadsStore};
ghost use Rattle.file_format.specs.File as file;
ghost use Rattle.file_format.specs.File.{block_of, entry_length};
ghost use Rattle.document_dump.specs.Faults.{IsDumpRefusal};
ghost use Rattle.file_salvage.specs.Entries.{all_notes, damage_at, damages, entry_at, entry_beside, entry_count, fits_row, flaw_beside, free_among, free_below, free_numbers, free_unsummed, frees_beside, has_handle, image_flaw, is_right, is_taken, note_of, notes, taken_at, taken_entries, taken_row, without_sum};
ghost use Rattle.file_salvage.specs.Salvaged.{IsNoteFault};

use crate::flaw::Flaw;
use crate::rows::longest_row;
use document_dump::{DumpFault, send};
use file_format::{
    Entry, HEADER_LENGTH, LONGEST_IMAGE, entry_length, is_in_file, most_handles, read_entry,
};
use file_report::{directory_version, entry_text_at, has_entry_zeros, read_image};
use geos_model::Fault;
use geos_script::{Word, push_words};
use std::alloc::{AllocError, Global};
use std::io::Write;
use vm_store::Store;

/// The bytes of a directory, and of what file it is.
#[derive(Clone, Copy)]
pub struct Listing<'a> {
    pub file_version: u8,
    pub file_length: u64,
    pub bytes: &'a [u8],
}

fn entry_count(bytes: &[u8]) -> usize
    requires { 16 ≤ length bytes.now }
    ensures { result ≡ entry_count bytes.now }
{
    (bytes.len() - HEADER_LENGTH) / entry_length(directory_version(bytes))
}

fn entry_at(bytes: &[u8], i: usize) -> Entry
    requires { i < entry_count bytes.now }
    ensures { result ≡ entry_at bytes.now i }
{
    read_entry(directory_version(bytes), entry_text_at(bytes, i))
}

fn is_entry(listing: Listing<'_>, version: u16, entry: Entry) -> bool
    ensures { result ≡ file.is_entry listing.entry.file_version listing.entry.file_length version entry }
{
    entry.handle.0 <= most_handles(version)
        && entry.extent.length >= 1
        && entry.extent.length as usize <= LONGEST_IMAGE
        && is_in_file(entry.extent, listing.file_length, listing.file_version)
}

fn is_right(listing: Listing<'_>, i: usize) -> bool
    requires { i < entry_count listing.bytes.now }
    ensures { result ≡ is_right listing.entry.file_version listing.entry.file_length listing.entry.bytes.now i }
{
    let bytes = listing.bytes;
    let version = directory_version(bytes);
    let entry = entry_at(bytes, i);
    entry.handle.0 >= 1
        && is_entry(listing, version, entry)
        && has_entry_zeros(version, entry_text_at(bytes, i))
}

// Whether an entry has its block. Memory, File.
fn has_block<S: Store>(alloc: Global, store: &mut S, entry: Entry) -> Result<bool, Fault>
    ensures looks { OnlyReadsStore (S.facts store.old) (S.facts store.new) }
    ensures block { IfOk result (λ has. IsTrue (S.facts store.old).honest
        → has ≡ is_some (block_of (S.facts store.old).content entry)) }
    ensures file { IsErrOf result Fault.File → FailedSince (S.facts store.old) (S.facts store.new) }
    ensures refusals { IfErr result IsResourceFault }
{
    Ok(read_image(alloc, store, &entry)?.is_some())
}

fn without_sum(entry: Entry) -> Entry
    ensures { result ≡ without_sum entry }
{
    Entry { sum: None, ..entry }
}

// Why an entry hasn't its block. Memory, File.
fn image_flaw<S: Store>(alloc: Global, store: &mut S, entry: Entry) -> Result<Flaw, Fault>
    ensures looks { OnlyReadsStore (S.facts store.old) (S.facts store.new) }
    ensures flaw { IfOk result (λ flaw. IsTrue (S.facts store.old).honest
        → flaw ≡ image_flaw (S.facts store.old).content entry) }
    ensures file { IsErrOf result Fault.File → FailedSince (S.facts store.old) (S.facts store.new) }
    ensures refusals { IfErr result IsResourceFault }
{
    if has_block(alloc, store, without_sum(entry))? {
        Ok(Flaw::Sum)
    } else {
        Ok(Flaw::Image)
    }
}

// Why an entry isn't whole. Memory, File.
fn damage_at<S: Store>(
    alloc: Global,
    store: &mut S,
    listing: Listing<'_>,
    i: usize,
) -> Result<Option<Flaw>, Fault>
    requires within { i < entry_count listing.bytes.now }
    requires size { IsTrue (S.facts store.old).honest → listing.file_length ≡ length (S.facts store.old).content }
    ensures looks { OnlyReadsStore (S.facts store.old) (S.facts store.new) }
    ensures damage { IfOk result (λ flaw. IsTrue (S.facts store.old).honest
        → flaw ≡ damage_at (S.facts store.old).content listing.entry.file_version listing.entry.bytes.now i) }
    ensures file { IsErrOf result Fault.File → FailedSince (S.facts store.old) (S.facts store.new) }
    ensures refusals { IfErr result IsResourceFault }
{
    if !is_right(listing, i) {
        return Ok(Some(Flaw::Entry));
    }
    let entry = entry_at(listing.bytes, i);
    let has = has_block(alloc, store, entry)?;
    if has {
        return Ok(None);
    }
    let flaw = image_flaw(alloc, store, entry)?;
    Ok(Some(flaw))
}

// Why each entry isn't whole. Memory, File.
fn damages<S: Store>(
    alloc: Global,
    store: &mut S,
    listing: Listing<'_>,
) -> Result<Vec<Option<Flaw>>, Fault>
    requires header { 16 ≤ length listing.bytes.now }
    requires size { IsTrue (S.facts store.old).honest → listing.file_length ≡ length (S.facts store.old).content }
    ensures looks { OnlyReadsStore (S.facts store.old) (S.facts store.new) }
    ensures count { IfOk result (λ found. length found.items ≡ entry_count listing.entry.bytes.now) }
    ensures damages { IfOk result (λ found. IsTrue (S.facts store.old).honest
        → found.items ≡ damages (S.facts store.old).content listing.entry.file_version listing.entry.bytes.now) }
    ensures file { IsErrOf result Fault.File → FailedSince (S.facts store.old) (S.facts store.new) }
    ensures refusals { IfErr result IsResourceFault }
{
    let mut found = Vec::new(alloc);
    for i in 0..entry_count(listing.bytes) {
        let damage = damage_at(alloc, store, listing, i)?;
        found.push(damage)?;
    }
    Ok(found)
}

fn free_below(i: usize, entry: Entry, damage: Option<Flaw>) -> u16
    ensures { result ≡ free_below i entry damage }
{
    match damage {
        None => usize::from(entry.handle.0).saturating_sub(i) as u16,
        Some(_) => 0,
    }
}

fn free_numbers(
    alloc: Global,
    bytes: &[u8],
    damages: &[Option<Flaw>],
) -> Result<Vec<u16>, AllocError>
    requires { length damages.now ≡ entry_count bytes.now }
    ensures { IfOk result (λ numbers. numbers.items ≡ free_numbers bytes.now damages.now) }
{
    let mut frees = Vec::new(alloc);
    for i in 0..damages.len() {
        frees.push(free_below(i, entry_at(bytes, i), damages[i]))?;
    }
    Ok(frees)
}

fn free_unsummed(i: usize, entry: Entry, damage: Option<Flaw>) -> u16
    ensures { result ≡ free_unsummed i entry damage }
{
    match damage {
        None | Some(Flaw::Sum) => free_below(i, entry, None),
        Some(_) => 0,
    }
}

// Whether a number at a place can stand among those of a row.
fn fits_row(numbers: &[u16], row: &[usize], i: usize, number: u16) -> bool
    requires { All (λ j. j < length numbers.now) row.now }
    ensures { result ≡ fits_row numbers.now row.now i number }
{
    row.iter().all(|j| {
        if *j <= i {
            numbers[*j] <= number
        } else {
            number <= numbers[*j]
        }
    })
}

fn free_among(numbers: &[u16], row: &[usize], i: usize, number: u16) -> u16
    requires { All (λ j. j < length numbers.now) row.now }
    ensures { result ≡ free_among numbers.now row.now i number }
{
    if fits_row(numbers, row, i, number) {
        number
    } else {
        0
    }
}

fn frees_beside(
    alloc: Global,
    bytes: &[u8],
    damages: &[Option<Flaw>],
    numbers: &[u16],
    row: &[usize],
) -> Result<Vec<u16>, AllocError>
    requires count { length damages.now ≡ entry_count bytes.now }
    requires row { All (λ j. j < length numbers.now) row.now }
    ensures { IfOk result (λ frees. frees.items ≡ frees_beside bytes.now damages.now numbers.now row.now) }
{
    let mut frees = Vec::new(alloc);
    for i in 0..damages.len() {
        let free = free_unsummed(i, entry_at(bytes, i), damages[i]);
        frees.push(free_among(numbers, row, i, free))?;
    }
    Ok(frees)
}

// The places of the entries that are taken, the last one first.
fn taken_row(
    alloc: Global,
    all: bool,
    bytes: &[u8],
    damages: &[Option<Flaw>],
) -> Result<Vec<usize>, AllocError>
    requires { length damages.now ≡ entry_count bytes.now }
    ensures row { IfOk result (λ row. row.items ≡ taken_row all bytes.now damages.now) }
    ensures within { IfOk result (λ row. All (λ i. i < length damages.now) row.items) }
{
    let frees = free_numbers(alloc, bytes, damages)?;
    let row = longest_row(alloc, frees.as_slice())?;
    if !all {
        return Ok(row);
    }
    let beside = frees_beside(alloc, bytes, damages, frees.as_slice(), row.as_slice())?;
    let more = longest_row(alloc, beside.as_slice())?;
    Ok(more)
}

fn entry_beside(entry: Entry, damage: Option<Flaw>) -> Entry
    ensures { result ≡ entry_beside entry damage }
{
    match damage {
        None => entry,
        Some(_) => without_sum(entry),
    }
}

fn entries_at(
    alloc: Global,
    bytes: &[u8],
    damages: &[Option<Flaw>],
    row: &[usize],
) -> Result<Vec<Entry>, AllocError>
    requires count { length damages.now ≡ entry_count bytes.now }
    requires within { All (λ i. i < length damages.now) row.now }
    ensures { IfOk result (λ entries. entries.items ≡ map (taken_at bytes.now damages.now) row.now) }
{
    let mut entries = Vec::new(alloc);
    for i in row {
        entries.push(entry_beside(entry_at(bytes, *i), damages[*i]))?;
    }
    Ok(entries)
}

pub fn has_handle(handle: u16, entries: &[Entry]) -> bool
    ensures { result ≡ has_handle handle entries.now }
{
    entries.iter().any(|entry| entry.handle.0 == handle)
}

// Of each of so many entries whether it is taken.
fn taken_marks(alloc: Global, count: usize, row: &[usize]) -> Result<Vec<bool>, AllocError>
    requires { All (λ i. i < count) row.now }
    ensures count { IfOk result (λ marks. length marks.items ≡ count) }
    ensures marks { IfOk result (λ marks. (i : ℕ) → i < count → get_or marks.items i false ≡ is_taken i row.now) }
{
    let mut marks = vec![in alloc; false; count]?;
    for place in row {
        marks[*place] = true;
    }
    Ok(marks)
}

fn flaw_beside(is_taken: bool, damage: Option<Flaw>) -> Option<Flaw>
    ensures { result ≡ flaw_beside is_taken damage }
{
    match damage {
        None if is_taken => None,
        None => Some(Flaw::Order),
        Some(Flaw::Sum) if is_taken => Some(Flaw::Taken),
        Some(_) => damage,
    }
}

fn push_note(out: &mut Vec<u8>, handle: u16, flaw: Option<Flaw>) -> Result<(), AllocError>
    ensures { OnOk result (out.new.items ≡ out.old.items ++ note_of handle flaw) }
{
    match flaw {
        None => Ok(()),
        Some(flaw) => {
            push_words(out, "# block", &[Word::Handle(handle)])?;
            out.extend_from_slice(flaw.words().as_bytes())
        }
    }
}

// A line tells what is wrong with the block of an entry, if anything is.
fn send_note<W: Write>(
    alloc: Global,
    entry: Entry,
    flaw: Option<Flaw>,
    writer: &mut W,
) -> Result<(), DumpFault>
    ensures err { IfErr result IsNoteFault }
    ensures ok { OnOk result (Appends (W.contents writer.old) (W.contents writer.new) (note_of entry.handle.0 flaw)) }
{
    let mut note = Vec::new(alloc);
    push_note(&mut note, entry.handle.0, flaw)?;
    send(note.as_slice(), writer)?;
    Ok(())
}

fn send_notes<W: Write>(
    alloc: Global,
    bytes: &[u8],
    damages: &[Option<Flaw>],
    row: &[usize],
    writer: &mut W,
) -> Result<(), DumpFault>
    requires count { length damages.now ≡ entry_count bytes.now }
    requires within { All (λ i. i < length damages.now) row.now }
    ensures err { IfErr result IsNoteFault }
    ensures ok { OnOk result (Appends (W.contents writer.old) (W.contents writer.new)
        (notes bytes.now damages.now row.now (length damages.now))) }
{
    let marks = taken_marks(alloc, damages.len(), row)?;
    for i in 0..damages.len() {
        let flaw = flaw_beside(marks[i], damages[i]);
        send_note(alloc, entry_at(bytes, i), flaw, writer)?;
    }
    Ok(())
}

/// The entries that are taken: those that are whole, or all whose image can be read. Lines tell which blocks are left
/// out, and which are taken without their sum.
pub fn take_entries<S: Store, W: Write>(
    alloc: Global,
    store: &mut S,
    all: bool,
    listing: Listing<'_>,
    writer: &mut W,
) -> Result<Vec<Entry>, DumpFault>
    requires header { 16 ≤ length listing.bytes.now }
    requires size { IsTrue (S.facts store.old).honest → listing.file_length ≡ length (S.facts store.old).content }
    ensures reads { OnlyReadsStore (S.facts store.old) (S.facts store.new) }
    ensures fails { IfErr result (IsDumpRefusal (S.facts store.old) (S.facts store.new)) }
    ensures entries { IfOk result (λ entries. IsTrue (S.facts store.old).honest
        → entries.items ≡ taken_entries all listing.entry.bytes.now
        (damages (S.facts store.old).content listing.entry.file_version listing.entry.bytes.now)) }
    ensures told { OnOk result (IsTrue (S.facts store.old).honest
        → Appends (W.contents writer.old) (W.contents writer.new) (all_notes all listing.entry.bytes.now
        (damages (S.facts store.old).content listing.entry.file_version listing.entry.bytes.now))) }
{
    let bytes = listing.bytes;
    let damages = damages(alloc, store, listing)?;
    let row = taken_row(alloc, all, bytes, damages.as_slice())?;
    send_notes(alloc, bytes, damages.as_slice(), row.as_slice(), writer)?;
    let entries = entries_at(alloc, bytes, damages.as_slice(), row.as_slice())?;
    Ok(entries)
}
