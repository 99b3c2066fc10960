//! The image of a heap, its table and chunks as bytes: written, and read into a region.
ghost use Rattle.std.specs.Prelude.{◌≡◌, ◌+◌, ◌*◌, ◌≤◌, ◌<◌, ◌++◌, None, OnOk, length, flat_map, take, set, get_or};
ghost use Rattle.geos_model.proofs.HeapTables.{slot_size_word, slot_bytes};
ghost use Rattle.heap_images.specs.Packed.{IsPackedTable, chunks, slots_in};
ghost use Rattle.heap_images.specs.Slots.{need_in};

use crate::table::ChunkTable;
use heap_images::{NO_SIZE, PREFIX, slot_size};
use raw_region::Region;
use std::alloc::AllocError;

/// How many bytes the image has, so that no more are taken for it.
pub(crate) fn image_len(table: &ChunkTable) -> usize {
    let mut len = PREFIX + 2 * table.len();
    for i in 0..table.len() {
        len = len.saturating_add(table.size(i).unwrap_or(0));
    }
    len
}

/// The size of each slot's chunk, as a word.
pub(crate) fn push_sizes(table: &ChunkTable, image: &mut Vec<u8>) -> Result<(), AllocError>
    ensures { OnOk result (image.new.items ≡ image.old.items ++ flat_map slot_size_word table.now.chunks) }
{
    for i in 0..table.len() {
        let size = match table.size(i) {
            Some(size) => size as u16,
            None => NO_SIZE,
        };
        image.extend_from_slice(size.to_le_bytes().as_slice())?;
    }
    Ok(())
}

/// The chunks, one behind the other.
pub(crate) fn push_chunks(table: &ChunkTable, image: &mut Vec<u8>) -> Result<(), AllocError>
    ensures { OnOk result (image.new.items ≡ image.old.items ++ flat_map slot_bytes table.now.chunks) }
{
    for i in 0..table.len() {
        if let Some(bytes) = table.chunk(i) {
            image.extend_from_slice(bytes)?;
        }
    }
    Ok(())
}

/// The chunks, in a region that may have any bytes.
pub(crate) fn unpack(region: Region, rest: &[u8], slots: usize) -> ChunkTable
    requires table { IsPackedTable slots rest.now }
    requires fits { need_in (slots_in slots rest.now) ≤ 65520 }
    ensures { result.chunks ≡ slots_in slots rest.now }
{
    let mut table = ChunkTable::of_region(region);
    table.grow(slots);
    let mut at = 2 * slots;
    for i in 0..slots {
        at = unpack_slot(&mut table, rest, slots, i, at);
    }
    table
}

/// The chunk of a slot, if it has one, whose bytes begin at `at`. Says where they end.
fn unpack_slot(table: &mut ChunkTable, rest: &[u8], slots: usize, i: usize, at: usize) -> usize
    // What is unpacked.
    requires table { IsPackedTable slots rest.now }
    requires slot { i < slots }
    requires count { length table.old.chunks ≡ slots }
    // Where it goes.
    requires none { get_or table.old.chunks i None ≡ None }
    requires begins { at ≡ 2 * slots + length (chunks (take i (slots_in slots rest.now))) }
    requires room { need_in (set table.old.chunks i (get_or (slots_in slots rest.now) i None)) ≤ 65520 }
    // What is left to unpack.
    ensures filled { table.new.chunks ≡ set table.old.chunks i (get_or (slots_in slots rest.now) i None) }
    ensures ends { result ≡ 2 * slots + length (chunks (take (i + 1) (slots_in slots rest.now))) }
{
    match slot_size(rest, slots, i) {
        Some(size) => {
            table.put(i, &rest[at..at + size]);
            at + size
        }
        None => at,
    }
}
