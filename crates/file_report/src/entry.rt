//! The entries of a directory that may be wrong, by their bytes.
ghost use Rattle.std.specs.Prelude.{◌≡◌, ◌<◌, ◌≤◌, ◌≢◌, ◌⊎◌, ℕ, false, length, take, drop};
ghost use Rattle.geos_model.specs.Words.{word_at};
ghost use Rattle.file_format.specs.File.{directory_mark, entry_length, entry_start, greatest_handle, longest_directory, longest_image};
ghost use Rattle.file_report.specs.Findings.{HasEntry, are_zeros, directory_version, handle_at, handle_before, has_entry_zeros, entry_text_at, zeros_of};

use byteorder::{ByteOrder, LittleEndian};
use file_format::{
    HEADER_LENGTH, LONGEST_DIRECTORY, LONGEST_IMAGE, entry_length, entry_start, most_handles,
};

// Where an entry begins.
fn start_of_entry(bytes: &[u8], i: usize) -> usize
    requires { HasEntry bytes.now i }
    ensures { result ≡ entry_start (word_at bytes.now 4) i }
{
    HEADER_LENGTH + entry_length(directory_version(bytes)) * i
}

/// The text of an entry.
pub fn entry_text_at(bytes: &[u8], i: usize) -> &[u8]
    requires { HasEntry bytes.now i }
    ensures text { result.now ≡ entry_text_at bytes.now i }
    ensures size { length result.now ≡ entry_length (word_at bytes.now 4) }
{
    let at = start_of_entry(bytes, i);
    &bytes[at..at + entry_length(directory_version(bytes))]
}

/// Whether a directory has its mark.
pub fn has_mark(bytes: &[u8]) -> bool
    ensures { result ≡ false → take 4 bytes.now ≢ directory_mark }
{
    bytes.starts_with(b"GDIR")
}

/// How many entries the header of a directory counts.
pub fn count_of(bytes: &[u8]) -> u16
    requires { 16 ≤ length bytes.now }
    ensures { result ≡ word_at bytes.now 6 }
{
    LittleEndian::read_u16(&bytes[6..])
}

/// The map block of a directory, 0 for none.
pub fn map_block_of(bytes: &[u8]) -> u16
    requires { 16 ≤ length bytes.now }
    ensures { result ≡ word_at bytes.now 8 }
{
    LittleEndian::read_u16(&bytes[8..])
}

/// Whether a directory has the bytes of so many entries.
pub fn is_whole(bytes: &[u8], count: u16) -> bool
    requires { 16 ≤ length bytes.now }
    ensures { result ≡ false → length bytes.now ≢ entry_start (word_at bytes.now 4) count }
{
    bytes.len() == entry_start(directory_version(bytes), usize::from(count))
}

/// Whether a header ends in zeros.
pub fn has_header_zeros(bytes: &[u8]) -> bool
    requires { 16 ≤ length bytes.now }
    ensures { result ≡ are_zeros (take 6 (drop 10 bytes.now)) }
{
    are_zeros(&bytes[10..HEADER_LENGTH])
}

/// Whether a directory can have so many bytes.
pub fn is_directory_length(length: u32) -> bool
    ensures { result ≡ false → (length < 16) ⊎ (longest_directory < length) }
{
    length as usize >= HEADER_LENGTH && length as usize <= LONGEST_DIRECTORY
}

/// Whether a handle is above another.
pub fn is_above(handle: u16, last: u16) -> bool
    ensures { result ≡ false → handle ≤ last }
{
    last < handle
}

/// Whether a block of a directory of this version can have the handle.
pub fn is_handle(handle: u16, version: u16) -> bool
    ensures { result ≡ false → greatest_handle version < handle }
{
    handle <= most_handles(version)
}

/// Whether an image can have so many bytes.
pub fn is_image_length(length: u32) -> bool
    ensures { result ≡ false → (length ≡ 0) ⊎ (longest_image < length) }
{
    length >= 1 && length as usize <= LONGEST_IMAGE
}

/// Whether an entry of a directory of this version has its zeros.
pub fn has_entry_zeros(version: u16, text: &[u8]) -> bool
    requires { 16 ≤ length text.now }
    ensures { result ≡ has_entry_zeros version text.now }
{
    are_zeros(&text[..16][16 - zeros_of(version)..])
}

/// The version of a directory.
pub fn directory_version(bytes: &[u8]) -> u16
    requires { 16 ≤ length bytes.now }
    ensures { result ≡ directory_version bytes.now }
{
    LittleEndian::read_u16(&bytes[4..])
}

// The handle of an entry.
fn handle_at(bytes: &[u8], i: usize) -> u16
    requires { HasEntry bytes.now i }
    ensures { result ≡ handle_at bytes.now i }
{
    LittleEndian::read_u16(&bytes[start_of_entry(bytes, i)..])
}

/// The handle of the entry before one, 0 before the first.
pub fn handle_before(bytes: &[u8], i: usize) -> u16
    requires { HasEntry bytes.now i }
    ensures { result ≡ handle_before bytes.now i }
{
    if i == 0 { 0 } else { handle_at(bytes, i - 1) }
}

// How many zeros an entry has, in a directory of this version.
fn zeros_of(version: u16) -> usize
    ensures value { result ≡ zeros_of version }
    ensures few { result ≤ 4 }
{
    if version == 1 { 4 } else { 2 }
}

// Whether these bytes are zeros.
fn are_zeros(bytes: &[u8]) -> bool
    ensures { result ≡ are_zeros bytes.now }
{
    bytes.iter().all(|byte| *byte == 0)
}

/// How many entries have their bytes whole.
pub fn whole_entries(bytes: &[u8]) -> usize
    requires { 16 ≤ length bytes.now }
    ensures within { (i : ℕ) → i < result → HasEntry bytes.now i }
    ensures all { (i : ℕ) → HasEntry bytes.now i → i < result }
{
    (bytes.len() - HEADER_LENGTH) / entry_length(directory_version(bytes))
}

// Whether an entry has this handle.
fn lists(bytes: &[u8], handle: u16) -> bool
    requires { 16 ≤ length bytes.now }
    ensures { result ≡ false → (i : ℕ) → HasEntry bytes.now i → handle_at bytes.now i ≢ handle }
{
    for i in 0..whole_entries(bytes) {
        if handle_at(bytes, i) == handle {
            return true;
        }
    }
    false
}

/// Whether a directory has no map block or lists it.
pub fn is_map_block(bytes: &[u8], map_block: u16) -> bool
    requires { 16 ≤ length bytes.now }
    ensures { result ≡ false
        → (map_block ≢ 0) × ((i : ℕ) → HasEntry bytes.now i → handle_at bytes.now i ≢ map_block) }
{
    map_block == 0 || lists(bytes, map_block)
}
