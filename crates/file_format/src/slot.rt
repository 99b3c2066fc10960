//! The text of a slot.
ghost use Rattle.std.specs.Prelude.{◌≡◌, ◌+◌, ◌++◌, ◌≤◌, Some, None, length};
ghost use Rattle.checksum.specs.Crc32c.{crc32c};
ghost use Rattle.file_format.specs.File.{sealed_text, slot_fields, slot_of, slot_sums_at, slot_sums_text, slot_text};

use crate::extent::{extent_of_text, write_extent};
use crate::file::{Slot, SlotSums};
use arrayvec::ArrayVec;
use byteorder::{ByteOrder, LittleEndian};
use checksum::crc32c;

/// How many bytes a slot's text has at most: 32, and twelve for three sums.
pub const LONGEST_SLOT: usize = 44;

/// What a slot's text begins with.
pub const SLOT_MARK: [u8; 4] = *b"GVMF";

// A slot's text without its sums.
fn head(slot: &Slot) -> [u8; 32]
    ensures { result ≡ slot_text (record slot.now { sums = None }) }
{
    let mut text = [0; 32];
    text[..4].copy_from_slice(&SLOT_MARK);
    text[4] = slot.gate;
    text[5] = slot.version;
    LittleEndian::write_u16(&mut text[6..], slot.reserved);
    LittleEndian::write_u64(&mut text[8..], slot.sequence);
    write_extent(&mut text[16..], slot.working);
    write_extent(&mut text[24..], slot.saved);
    text
}

fn end(sums: &SlotSums) -> [u8; 12]
    ensures { result ≡ slot_sums_text (Some sums.now) }
{
    let mut text = [0; 12];
    LittleEndian::write_u32(&mut text, sums.working);
    LittleEndian::write_u32(&mut text[4..], sums.saved);
    LittleEndian::write_u32(&mut text[8..], sums.own);
    text
}

fn push(text: &mut SlotText, bytes: &[u8])
    requires { length text.old.items + length bytes.now ≤ LONGEST_SLOT }
    ensures { text.new.items ≡ text.old.items ++ bytes.now }
{
    if text.try_extend_from_slice(bytes).is_err() {
        unreachable!();
    }
}

/// A slot's text.
pub type SlotText = ArrayVec<u8, LONGEST_SLOT>;

/// A slot's text: 32 bytes, and 44 with sums.
pub fn write_slot(slot: &Slot) -> SlotText
    ensures { result.items ≡ slot_text slot.now }
{
    let mut text = ArrayVec::new();
    push(&mut text, &head(slot));
    if let Some(sums) = &slot.sums {
        push(&mut text, &end(sums));
    }
    text
}

/// A slot's own sum, beside those of its directories: that of its text from the version on, up to the sum itself.
pub fn own_sum(slot: &Slot, sums: &SlotSums) -> u32
    ensures { result ≡ crc32c (sealed_text slot.now sums.now) }
{
    let summed = Slot {
        sums: Some(*sums),
        ..*slot
    };
    crc32c(&write_slot(&summed)[5..40])
}

// The sums at the end of a slot's text, of a version.
fn read_sums(version: u8, bytes: &[u8]) -> Option<SlotSums>
    requires { length bytes.now ≡ LONGEST_SLOT }
    ensures { result ≡ slot_sums_at version bytes.now }
{
    if version != 3 {
        return None;
    }
    Some(SlotSums {
        working: LittleEndian::read_u32(&bytes[32..]),
        saved: LittleEndian::read_u32(&bytes[36..]),
        own: LittleEndian::read_u32(&bytes[40..]),
    })
}

// The fields of a slot's text.
fn fields(bytes: &[u8]) -> Slot
    requires { length bytes.now ≡ LONGEST_SLOT }
    ensures { result ≡ slot_fields bytes.now }
{
    Slot {
        gate: bytes[4],
        version: bytes[5],
        reserved: LittleEndian::read_u16(&bytes[6..]),
        sequence: LittleEndian::read_u64(&bytes[8..]),
        working: extent_of_text(&bytes[16..]),
        saved: extent_of_text(&bytes[24..]),
        sums: read_sums(bytes[5], bytes),
    }
}

/// The slot whose text stands at the front of 44 bytes, `None` where its mark doesn't stand. Any values of its fields
/// are read.
pub fn read_slot(bytes: &[u8]) -> Option<Slot>
    requires { length bytes.now ≡ LONGEST_SLOT }
    ensures { result ≡ slot_of bytes.now }
{
    if bytes[..4] == SLOT_MARK[..] {
        Some(fields(bytes))
    } else {
        None
    }
}
