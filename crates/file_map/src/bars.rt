//! Heaps as SVG: a bar for each, with its chunks.
ghost use Rattle.std.specs.Prelude.{◌≡◌, false, ◌≤◌, ◌<◌, ◌+◌, ◌*◌, ◌-◌, ◌^◌, ◌++◌, IfErr, IfOk, IsErrOf, IsTrue, OnOk, length};
ghost use Rattle.std.specs.Io.KnownBytes.{Appends};
ghost use Rattle.file_format.specs.File.{bytes_in};
ghost use Rattle.geos_model.specs.Heap.{most_chunks};
ghost use Rattle.vm_store.specs.Facts.{FailedSince};
ghost use Rattle.file_format.specs.Reading.{OnlyReadsStore};
ghost use Rattle.file_map.specs.Bars.{bar_drawn, bar_of, bars_drawn, below, caption, chunk_drawn, chunk_place, chunk_start, chunk_title, chunks_drawn, flipped, room};
ghost use Rattle.file_map.specs.Faults.{IsLack, IsWriteLack};
ghost use Rattle.file_map.specs.Heaps.{header};

use crate::fault::MapFault;
use crate::heaps::{header, is_live, push_numbers, space};
use crate::lines::{push_handle, push_numbered, send};
use crate::part::Part;
use crate::svg::push_subject;
use crate::tables::read_table;
use std::alloc::{AllocError, Global};
use std::io::Write;
use vm_store::Store;

/// The beginning of a bar, as wide as 65,520 bytes.
pub const BAR: &[u8] =
    b"<svg x='70' width='894' height='14' viewBox='0 0 65520 1' preserveAspectRatio='none";

/// The room of a bar, and the beginning of the table.
pub const FREE: &[u8] =
    b"'>\n<g fill='#ddd'><title>free</title><rect width='65520' height='1'/></g>\n<g fill='#000'><title>table</title><rect height='1";

/// How high a heap is.
pub const HEAP_HEIGHT: u64 = 34;

// The shade of a chunk.
fn chunk_start(dark: bool) -> &'static [u8]
    ensures { result.now ≡ chunk_start dark }
{
    if dark {
        b"<g fill='#16466a'><title>chunk "
    } else {
        b"<g fill='#2c7fb8'><title>chunk "
    }
}

// The other shade, behind a chunk.
fn flipped(dark: bool, size: u16) -> bool
    ensures { result ≡ flipped dark size }
{
    if is_live(size) { !dark } else { dark }
}

// Which chunk it is, and its bytes.
fn push_chunk_title(
    out: &mut Vec<u8>,
    dark: bool,
    entry: usize,
    size: u16,
) -> Result<(), AllocError>
    requires { entry < most_chunks }
    ensures { OnOk result (out.new.items ≡ out.old.items ++ chunk_title dark entry size) }
{
    out.extend_from_slice(chunk_start(dark))?;
    push_handle(out, (16 + 2 * entry) as u16)?;
    push_numbered(out, b", bytes ", u64::from(size))
}

// Its place.
fn push_chunk_place(out: &mut Vec<u8>, at: usize, width: usize) -> Result<(), AllocError>
    ensures { OnOk result (out.new.items ≡ out.old.items ++ chunk_place at width) }
{
    push_numbered(out, b"</title><rect height='1' x='", at as u64)?;
    push_numbered(out, b"' width='", width as u64)?;
    out.extend_from_slice(b"'/></g>\n")
}

// A chunk, nothing where the entry is free.
fn push_chunk_drawn(
    out: &mut Vec<u8>,
    dark: bool,
    at: usize,
    entry: usize,
    size: u16,
) -> Result<(), AllocError>
    requires { entry < most_chunks }
    ensures { OnOk result (out.new.items ≡ out.old.items ++ chunk_drawn dark at entry size) }
{
    if !is_live(size) {
        return Ok(());
    }
    push_chunk_title(out, dark, entry, size)?;
    push_chunk_place(out, at, space(size))
}

// The chunks of a heap, behind its table.
fn write_chunks<W: Write>(alloc: Global, sizes: &[u16], writer: &mut W) -> Result<(), MapFault>
    requires { length sizes.now ≤ most_chunks }
    ensures text { OnOk result (Appends (W.contents writer.old) (W.contents writer.new)
        (chunks_drawn false (header sizes.now) 0 sizes.now)) }
    ensures refusals { IfErr result IsWriteLack }
{
    let mut at = header(sizes);
    let mut dark = false;
    for (entry, size) in sizes.iter().enumerate() {
        let mut out = Vec::new(alloc);
        push_chunk_drawn(&mut out, dark, at, entry, *size)?;
        send(&out, writer)?;
        at += space(*size);
        dark = flipped(dark, *size);
    }
    Ok(())
}

// What a heap is, and its numbers.
fn push_caption(out: &mut Vec<u8>, part: &Part, y: u64, sizes: &[u16]) -> Result<(), AllocError>
    requires { length sizes.now ≤ most_chunks }
    ensures { OnOk result (out.new.items ≡ out.old.items ++ caption part.now y sizes.now) }
{
    push_numbered(out, b"<text x='70' y='", y)?;
    out.extend_from_slice(b"'>")?;
    push_subject(out, part)?;
    out.extend_from_slice(b":")?;
    push_numbers(out, sizes)?;
    out.extend_from_slice(b"</text>\n")
}

// The room of a heap, and its header and table in it.
fn push_room(out: &mut Vec<u8>, y: u64, header: usize) -> Result<(), AllocError>
    requires { y < 2 ^ 60 }
    ensures { OnOk result (out.new.items ≡ out.old.items ++ room y header) }
{
    out.extend_from_slice(BAR)?;
    push_numbered(out, b"' y='", y + 4)?;
    out.extend_from_slice(FREE)?;
    push_numbered(out, b"' width='", header as u64)?;
    out.extend_from_slice(b"'/></g>\n")
}

// A heap.
fn write_bar<W: Write>(
    alloc: Global,
    part: &Part,
    y: u64,
    sizes: &[u16],
    writer: &mut W,
) -> Result<(), MapFault>
    requires few { length sizes.now ≤ most_chunks }
    requires y { y < 2 ^ 60 }
    ensures text { OnOk result (Appends (W.contents writer.old) (W.contents writer.new)
        (bar_drawn part.now y sizes.now)) }
    ensures refusals { IfErr result IsWriteLack }
{
    let mut out = Vec::new(alloc);
    push_caption(&mut out, part, y, sizes)?;
    push_room(&mut out, y, header(sizes))?;
    send(&out, writer)?;
    write_chunks(alloc, sizes, writer)?;
    send(b"</svg>\n", writer)
}

// The heap that a part is, if it is one. Where the next one stands.
fn write_heap<S: Store, W: Write>(
    alloc: Global,
    store: &mut S,
    part: Part,
    y: u64,
    writer: &mut W,
) -> Result<u64, MapFault>
    requires { y < 2 ^ 60 }
    ensures looks { OnlyReadsStore (S.facts store.old) (S.facts store.new) }
    ensures next { IfOk result (λ next. next ≡ below part y) }
    ensures text { IfOk result (λ next. IsTrue (S.facts store.old).honest
        → Appends (W.contents writer.old) (W.contents writer.new) (bar_of (S.facts store.old).content y part)) }
    ensures file { IsErrOf result MapFault.File → FailedSince (S.facts store.old) (S.facts store.new) }
    ensures refusals { IfErr result IsLack }
{
    if !part.is_heap() {
        return Ok(y);
    }
    let table = read_table(alloc, store, part.extent)?;
    write_bar(alloc, &part, y, &table, writer)?;
    Ok(y + HEAP_HEIGHT)
}

/// All heaps, from a height on.
pub fn write_bars<S: Store, W: Write>(
    alloc: Global,
    store: &mut S,
    parts: &[Part],
    top: u64,
    writer: &mut W,
) -> Result<(), MapFault>
    requires few { length parts.now ≤ 16387 }
    requires top { top < 2 ^ 58 }
    ensures looks { OnlyReadsStore (S.facts store.old) (S.facts store.new) }
    ensures text { OnOk result (IsTrue (S.facts store.old).honest
        → Appends (W.contents writer.old) (W.contents writer.new)
        (bars_drawn (S.facts store.old).content top parts.now)) }
    ensures file { IsErrOf result MapFault.File → FailedSince (S.facts store.old) (S.facts store.new) }
    ensures refusals { IfErr result IsLack }
{
    let mut y = top;
    for part in parts {
        y = write_heap(alloc, store, *part, y, writer)?;
    }
    Ok(())
}
