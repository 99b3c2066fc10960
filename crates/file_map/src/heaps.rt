//! The lines of heaps.
ghost use Rattle.std.specs.Prelude.{◌≡◌, ◌≤◌, ◌<◌, ◌+◌, ◌*◌, ◌-◌, ◌/◌, ◌++◌, ◌∷◌, not, ◌==◌, count_by, IfOk, OnOk, length, min};
ghost use Rattle.geos_model.specs.Heap.{most_chunks};
ghost use Rattle.geos_model.specs.Words.{word_at};
ghost use Rattle.file_map.specs.Heaps.{bar, bytes_text, cells, heap_columns, counts_text, header, heap_line, heap_numbers, is_chunk_size, line_start, sizes, chunk_space, table_bytes, used_bytes, users_name};

use crate::lines::{push_handle, push_numbered, push_padded, push_repeated};
use crate::part::Users;
use geos_model::{CAPACITY, VmHandle};
use std::alloc::{AllocError, Global};

/// The size of a table entry in a heap's image that is free.
const NO_CHUNK: u16 = 0xFFFF;

/// How many entries a table has at most.
const MOST_CHUNKS: usize = 32_752;

/// How many cells the bar of a heap has.
const CELLS: usize = 32;

/// How many bytes a cell stands for.
const CELL: usize = 2_048;

fn word_at(bytes: &[u8], at: usize) -> u16
    requires { at + 2 ≤ length bytes.now }
    ensures { result ≡ word_at bytes.now at }
{
    u16::from_le_bytes([bytes[at], bytes[at + 1]])
}

// The words of the table of a heap's image, as far as the image has them.
fn table_bytes(image: &[u8]) -> &[u8]
    ensures { result.now ≡ table_bytes image.now }
{
    if image.len() < 3 {
        return &[];
    }
    let rest = &image[3..];
    let entries = usize::from(word_at(image, 1)).min(MOST_CHUNKS);
    &rest[..rest.len().min(2 * entries)]
}

/// The table of a heap's image: the size of each chunk in bytes, 0xFFFF where the entry is free.
pub fn read_sizes(alloc: Global, image: &[u8]) -> Result<Vec<u16>, AllocError>
    ensures sizes { IfOk result (λ table. table.items ≡ sizes image.now) }
    ensures few { IfOk result (λ table. length table.items ≤ most_chunks) }
{
    let table = table_bytes(image);
    let mut read = Vec::new(alloc);
    for i in 0..table.len() / 2 {
        read.push(word_at(table, 2 * i))?;
    }
    Ok(read)
}

/// Whether a table entry is that of a chunk.
pub fn is_live(size: u16) -> bool
    ensures { result ≡ is_chunk_size size }
{
    size != NO_CHUNK
}

/// What an entry takes outside the table.
pub fn space(size: u16) -> usize
    ensures value { result ≡ chunk_space size }
    ensures most { result ≤ 65540 }
{
    if size == NO_CHUNK || size == 0 {
        0
    } else {
        4 * ((usize::from(size) + 5) / 4)
    }
}

/// What the heap needs before its chunks.
pub fn header(sizes: &[u16]) -> usize
    requires { length sizes.now ≤ most_chunks }
    ensures { result ≡ header sizes.now }
{
    16 + 4 * ((sizes.len() + 1) / 2)
}

/// How many bytes the heap needs.
pub fn used(sizes: &[u16]) -> usize
    requires { length sizes.now ≤ most_chunks }
    ensures { result ≡ used_bytes sizes.now }
{
    let mut total = header(sizes);
    for size in sizes {
        total += space(*size);
    }
    total
}

/// How many chunks there are.
pub fn live_count(sizes: &[u16]) -> usize
    ensures { result ≡ count_by is_chunk_size sizes.now }
{
    sizes.iter().filter(|size| is_live(**size)).count()
}

// How many cells so many bytes take.
fn cells(bytes: usize) -> usize
    ensures { result ≡ cells bytes }
{
    bytes.div_ceil(CELL).min(CELLS)
}

// The bar: the header and the table, the chunks, and free room.
fn push_bar(out: &mut Vec<u8>, header: usize, used: usize) -> Result<(), AllocError>
    ensures { OnOk result (out.new.items ≡ out.old.items ++ bar header used) }
{
    let first = cells(header);
    let all = cells(used);
    push_repeated(out, b't', first)?;
    push_repeated(out, b'#', all.saturating_sub(first))?;
    push_repeated(out, b'.', CELLS - all)
}

fn users_name(users: Users) -> &'static [u8]
    ensures { result.now ≡ users_name users }
{
    match users {
        Users::Updated => b"updated",
        Users::Saved => b"saved  ",
        Users::Both => b"both   ",
    }
}

/// Above the lines of heaps: what the bar and the numbers are.
pub const HEADING: &[u8] =
    b"\nheap of      t table, # chunks, . free; 2,048 B  chunks unused   used   free\n";

fn push_line_start(out: &mut Vec<u8>, block: VmHandle, users: Users) -> Result<(), AllocError>
    ensures { OnOk result (out.new.items ≡ out.old.items ++ line_start block users) }
{
    push_handle(out, block.0)?;
    out.extend_from_slice(b" ")?;
    out.extend_from_slice(users_name(users))?;
    out.extend_from_slice(b" [")
}

/// The line of a heap: its block, whose it is, the bar, and the numbers in columns.
pub fn push_heap_line(
    out: &mut Vec<u8>,
    block: VmHandle,
    users: Users,
    sizes: &[u16],
) -> Result<(), AllocError>
    requires { length sizes.now ≤ most_chunks }
    ensures { OnOk result (out.new.items ≡ out.old.items ++ heap_line block users sizes.now) }
{
    let used = used(sizes);
    push_line_start(out, block, users)?;
    push_bar(out, header(sizes), used)?;
    out.extend_from_slice(b"]")?;
    push_columns(out, live_count(sizes), sizes.len(), used)
}

// How many chunks a heap has, entries of the table without one, bytes used and free.
fn push_columns(
    out: &mut Vec<u8>,
    live: usize,
    entries: usize,
    used: usize,
) -> Result<(), AllocError>
    ensures { OnOk result (out.new.items ≡ out.old.items ++ heap_columns live entries used) }
{
    push_padded(out, 7, live as u64)?;
    push_padded(out, 7, entries.saturating_sub(live) as u64)?;
    push_padded(out, 7, used as u64)?;
    push_padded(out, 7, CAPACITY.saturating_sub(used) as u64)?;
    Ok(out.push(b'\n')?)
}

fn push_counts(out: &mut Vec<u8>, live: usize, entries: usize) -> Result<(), AllocError>
    ensures { OnOk result (out.new.items ≡ out.old.items ++ counts_text live entries) }
{
    push_numbered(out, b" chunks ", live as u64)?;
    push_numbered(
        out,
        b", unused handles ",
        entries.saturating_sub(live) as u64,
    )
}

fn push_bytes(out: &mut Vec<u8>, used: usize) -> Result<(), AllocError>
    ensures { OnOk result (out.new.items ≡ out.old.items ++ bytes_text used) }
{
    push_numbered(out, b", bytes used ", used as u64)?;
    push_numbered(out, b", free ", CAPACITY.saturating_sub(used) as u64)
}

/// The same numbers in words.
pub fn push_numbers(out: &mut Vec<u8>, sizes: &[u16]) -> Result<(), AllocError>
    requires { length sizes.now ≤ most_chunks }
    ensures { OnOk result (out.new.items ≡ out.old.items ++ heap_numbers sizes.now) }
{
    push_counts(out, live_count(sizes), sizes.len())?;
    push_bytes(out, used(sizes))
}
