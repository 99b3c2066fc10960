//! The text of a directory: a header, and an entry for each block, with the sum of its image in version 3.
ghost use Rattle.std.specs.Prelude.{◌≡◌, ◌⊎◌, ◌+◌, ◌*◌, ◌≤◌, ◌<◌, ◌↔◌, ◌++◌, if◌then◌else◌, length, Some, None, true, false, IsTrue, IfOk, IfErr, OnOk, OnErr, ◌==◌};
ghost use Rattle.std.specs.List.{list_any};
ghost use Rattle.file_format.specs.File.{directory_text, directory_in, header_text, number_or_zero, sum_text, sum_at, entry_length, entry_text, entry_read, entry_start, is_entry, is_map_block, is_version_in, greatest_handle};
ghost use Rattle.geos_model.specs.declared.fault.Fault.TheVariants.{Memory, Damaged};
ghost use Rattle.file_format.specs.Listed.{as_directory, HasHeader, IsNextEntry, entries_read, are_entries};

use crate::extent::{extent_of_text, write_extent};
use crate::file::Entry;
use crate::pages::is_in_file;
use byteorder::{ByteOrder, LittleEndian};
use geos_model::{Attributes, CAPACITY, Fault, MOST_BLOCKS, MOST_BLOCKS_OF_VERSION_1, VmHandle};
use std::alloc::{AllocError, Global};

/// What a directory says of a document.
#[derive(Drop)]
pub struct Directory {
    /// That of its format: 1, 2 or 3.
    pub version: u16,
    /// 0 for none.
    pub map_block: VmHandle,
    /// By rising handles.
    pub entries: Vec<Entry>,
}

/// How many entries a directory can have: one for each block.
pub const MOST_ENTRIES: usize = MOST_BLOCKS as usize;

/// How many bytes stand before the entries of a directory.
pub const HEADER_LENGTH: usize = 16;

/// How many bytes an entry has without a sum.
const SHORTEST_ENTRY: usize = 16;

/// How many bytes an entry has at most: 16, and four for a sum.
pub const LONGEST_ENTRY: usize = 20;

/// How many bytes a directory of that many entries has at most.
pub const LONGEST_DIRECTORY: usize = HEADER_LENGTH + LONGEST_ENTRY * MOST_ENTRIES;

/// How many bytes an image has at most: a byte for its kind before those of a raw body.
pub const LONGEST_IMAGE: usize = CAPACITY + 1;

/// Whether a directory of this version has the sum of each image.
pub fn has_sums(version: u16) -> bool
    ensures { result ≡ (version == 3) }
{
    version == 3
}

/// How many bytes an entry has in a directory of this version.
pub fn entry_length(version: u16) -> usize
    ensures value { result ≡ entry_length version }
    ensures some { 16 ≤ result }
    ensures most { result ≤ LONGEST_ENTRY }
{
    if has_sums(version) {
        LONGEST_ENTRY
    } else {
        SHORTEST_ENTRY
    }
}

/// Where the entry of this index begins in a directory of this version.
pub fn entry_start(version: u16, index: usize) -> usize
    requires { index ≤ 65536 }
    ensures value { result ≡ entry_start version index }
    ensures most { result ≤ 16 + 20 * index }
{
    if has_sums(version) {
        HEADER_LENGTH + LONGEST_ENTRY * index
    } else {
        HEADER_LENGTH + SHORTEST_ENTRY * index
    }
}

/// The text of a directory: 16 bytes, and 16 for each entry, or 20 in version 3.
pub fn write_dir(
    alloc: Global,
    version: u8,
    map_block: VmHandle,
    entries: &[Entry],
) -> Result<Vec<u8>, AllocError>
    requires { length entries.now ≤ MOST_ENTRIES }
    ensures { IfOk result (λ bytes. bytes.items
        ≡ directory_text (record { version = version; map_block = map_block.0; entries = entries.now })) }
{
    let mut text = begin_directory(alloc, version, map_block, entries.len())?;
    for entry in entries {
        push_entry(&mut text, version, entry)?;
    }
    Ok(text)
}

/// The text of a directory of so many entries before the first of them. It has room for all.
pub fn begin_directory(
    alloc: Global,
    version: u8,
    map_block: VmHandle,
    count: usize,
) -> Result<Vec<u8>, AllocError>
    requires { count ≤ MOST_ENTRIES }
    ensures { IfOk result (λ text. text.items ≡ header_text version count map_block.0) }
{
    let version = u16::from(version);
    let mut text = Vec::with_capacity(alloc, entry_start(version, count))?;
    text.extend_from_slice(&header(version, count as u16, map_block))?;
    Ok(text)
}

/// Appends an entry to the text of a directory. Its length is known where it is written, so that no call copies it.
pub fn push_entry(text: &mut Vec<u8>, version: u8, entry: &Entry) -> Result<(), AllocError>
    ensures pushed { OnOk result (text.new.items ≡ text.old.items ++ entry_text version entry.now) }
    ensures refused { OnErr result (text.new.items ≡ text.old.items) }
{
    let version = u16::from(version);
    if has_sums(version) {
        let mut written = [0; LONGEST_ENTRY];
        write_entry(&mut written, version, entry);
        text.extend_from_slice(&written)
    } else {
        let mut written = [0; SHORTEST_ENTRY];
        write_entry(&mut written, version, entry);
        text.extend_from_slice(&written)
    }
}

fn header(version: u16, count: u16, map_block: VmHandle) -> [u8; HEADER_LENGTH]
    ensures { result ≡ header_text version count map_block.0 }
{
    let mut text = [0; HEADER_LENGTH];
    text[..4].copy_from_slice(b"GDIR");
    LittleEndian::write_u16(&mut text[4..], version);
    LittleEndian::write_u16(&mut text[6..], count);
    LittleEndian::write_u16(&mut text[8..], map_block.0);
    text
}

// The word for the type of a heap in a directory of this version: version 1 has zeros for it.
fn type_word(version: u16, heap_type: u16) -> u16
    ensures { result ≡ (if version == 1 then 0 else heap_type) }
{
    if version == 1 { 0 } else { heap_type }
}

// The number that stands for a sum: 0 for none, which no directory with sums has.
fn sum_word(sum: Option<u32>) -> u32
    ensures { result ≡ number_or_zero sum }
{
    match sum {
        Some(sum) => sum,
        None => 0,
    }
}

fn write_sum(text: &mut [u8], version: u16, sum: Option<u32>)
    requires { length text.old ≡ length (sum_text version sum) }
    ensures { text.new ≡ sum_text version sum }
{
    if has_sums(version) {
        LittleEndian::write_u32(text, sum_word(sum));
    }
}

fn write_entry(text: &mut [u8], version: u16, entry: &Entry)
    requires { length text.old ≡ entry_length version }
    ensures { text.new ≡ entry_text version entry.now }
{
    LittleEndian::write_u16(text, entry.handle.0);
    LittleEndian::write_u16(&mut text[2..], entry.attributes.user_id);
    write_extent(&mut text[4..], entry.extent);
    LittleEndian::write_u16(
        &mut text[12..],
        type_word(version, entry.attributes.heap_type),
    );
    LittleEndian::write_u16(&mut text[14..], 0);
    write_sum(&mut text[16..], version, entry.sum);
}

/// Reads a directory in a file of `file_length` bytes and of the version `file_version`, that of its slot. `Damaged` is
/// the answer to bytes that aren't the text of one, `Memory` to lack of memory.
pub fn read_dir(
    alloc: Global,
    bytes: &[u8],
    file_length: u64,
    file_version: u8,
) -> Result<Directory, Fault>
    ensures read { IfOk result (λ d. directory_in file_version file_length bytes.now ≡ Some (as_directory d)) }
    ensures damaged { result ≡ Err Damaged → directory_in file_version file_length bytes.now ≡ None }
    ensures refused { IfErr result (λ fault. (fault ≡ Damaged) ⊎ (fault ≡ Memory)) }
{
    if !has_header(bytes, file_version) {
        return Err(Fault::Damaged);
    }
    let version = LittleEndian::read_u16(&bytes[4..]);
    let map_block = VmHandle(LittleEndian::read_u16(&bytes[8..]));
    let entries = read_entries(alloc, bytes, file_length, file_version)?;
    if !is_listed(map_block, &entries) {
        return Err(Fault::Damaged);
    }
    Ok(Directory {
        version,
        map_block,
        entries,
    })
}

/// Whether a directory of this version can be in a file of that one.
pub fn is_known(version: u16, file_version: u8) -> bool
    ensures { result ≡ is_version_in file_version version }
{
    if file_version == 3 {
        version == 3
    } else {
        version == 1 || (version == 2 && file_version == 2)
    }
}

fn has_header(bytes: &[u8], file_version: u8) -> bool
    ensures { IsTrue result ↔ HasHeader file_version bytes.now }
{
    if bytes.len() < HEADER_LENGTH {
        return false;
    }
    let version = LittleEndian::read_u16(&bytes[4..]);
    let count = LittleEndian::read_u16(&bytes[6..]);
    let map_block = VmHandle(LittleEndian::read_u16(&bytes[8..]));
    is_known(version, file_version)
        && bytes.len() == entry_start(version, usize::from(count))
        && bytes[..HEADER_LENGTH] == header(version, count, map_block)[..]
}

// Memory is taken for as many entries as there are bytes for.
fn read_entries(
    alloc: Global,
    bytes: &[u8],
    file_length: u64,
    file_version: u8,
) -> Result<Vec<Entry>, Fault>
    requires { HasHeader file_version bytes.now }
    ensures read { IfOk result (λ entries.
        (entries.items ≡ entries_read bytes.now) × (are_entries file_version file_length bytes.now ≡ true)) }
    ensures damaged { result ≡ Err Damaged → are_entries file_version file_length bytes.now ≡ false }
    ensures refused { IfErr result (λ fault. (fault ≡ Damaged) ⊎ (fault ≡ Memory)) }
{
    let version = LittleEndian::read_u16(&bytes[4..]);
    let count = usize::from(LittleEndian::read_u16(&bytes[6..]));
    let mut entries = Vec::with_capacity(alloc, count)?;
    let mut last = 0;
    for i in 0..count {
        let at = entry_start(version, i);
        let text = &bytes[at..at + entry_length(version)];
        let entry = read_entry(version, text);
        if !is_next(&entry, text, last, version, file_length, file_version) {
            return Err(Fault::Damaged);
        }
        last = entry.handle.0;
        entries.push(entry)?;
    }
    Ok(entries)
}

// The sum at the end of an entry's text in a directory of this version.
fn read_sum(version: u16, text: &[u8]) -> Option<u32>
    requires { length text.now ≡ entry_length version }
    ensures { result ≡ sum_at version text.now 16 }
{
    if has_sums(version) {
        Some(LittleEndian::read_u32(&text[16..]))
    } else {
        None
    }
}

/// The entry of this text in a directory of this version.
pub fn read_entry(version: u16, text: &[u8]) -> Entry
    requires { length text.now ≡ entry_length version }
    ensures { result ≡ entry_read version text.now }
{
    Entry {
        handle: VmHandle(LittleEndian::read_u16(text)),
        attributes: Attributes {
            user_id: LittleEndian::read_u16(&text[2..]),
            heap_type: type_word(version, LittleEndian::read_u16(&text[12..])),
        },
        extent: extent_of_text(&text[4..]),
        sum: read_sum(version, text),
    }
}

// Whether the words that say nothing are zero in an entry's text in a directory of this version: the last one before
// the sum, and in version 1 the type's. All other bytes are those of the entry that was read from them.
fn is_padded(version: u16, text: &[u8]) -> bool
    requires { length text.now ≡ entry_length version }
    ensures { IsTrue result ↔ (text.now ≡ entry_text version (entry_read version text.now)) }
{
    LittleEndian::read_u16(&text[14..]) == 0
        && (version != 1 || LittleEndian::read_u16(&text[12..]) == 0)
}

// Whether an entry that was read from this text is the one of it in a directory of this version, may stand behind one
// of the handle `last`, and can stand in the file.
fn is_next(
    entry: &Entry,
    text: &[u8],
    last: u16,
    version: u16,
    file_length: u64,
    file_version: u8,
) -> bool
    requires size { length text.now ≡ entry_length version }
    requires read { entry.now ≡ entry_read version text.now }
    ensures { IsTrue result ↔ IsNextEntry file_version file_length version last text.now entry.now }
{
    last < entry.handle.0
        && is_entry_in(*entry, version, file_length, file_version)
        && is_padded(version, text)
}

/// The greatest handle in a directory of this version.
pub fn most_handles(version: u16) -> u16
    ensures { result ≡ greatest_handle version }
{
    if version == 1 {
        MOST_BLOCKS_OF_VERSION_1
    } else {
        MOST_BLOCKS
    }
}

fn is_entry_in(entry: Entry, version: u16, file_length: u64, file_version: u8) -> bool
    ensures { result ≡ is_entry file_version file_length version entry }
{
    entry.handle.0 <= most_handles(version)
        && entry.extent.length >= 1
        && entry.extent.length as usize <= LONGEST_IMAGE
        && is_in_file(entry.extent, file_length, file_version)
}

fn is_listed(map_block: VmHandle, entries: &[Entry]) -> bool
    ensures { result ≡ is_map_block map_block.0 entries.now }
{
    map_block.0 == 0 || lists(entries, map_block)
}

fn lists(entries: &[Entry], handle: VmHandle) -> bool
    ensures { result ≡ list_any (λ e. e.handle.0 == handle.0) entries.now }
{
    entries.iter().any(|entry| entry.handle.0 == handle.0)
}
