//! The whole picture.
ghost use Rattle.std.specs.Prelude.{◌≡◌, ◌≤◌, ◌<◌, ◌+◌, ◌*◌, ◌^◌, IsTrue, IfOk, IfErr, IsErrOf, OnOk, count_by, length};
ghost use Rattle.std.specs.List.Sorted.{IsNonDecreasingBy};
ghost use Rattle.std.specs.Io.KnownBytes.{Appends};
ghost use Rattle.file_format.specs.File.{bytes_in};
ghost use Rattle.geos_model.specs.Heap.{most_chunks};
ghost use Rattle.vm_store.specs.Facts.{FailedSince};
ghost use Rattle.file_format.specs.Reading.{OnlyReadsStore};
ghost use Rattle.file_map.specs.Drawn.{AreByHandle, IsDrawn, IsDrawnOf, svg_of, map_text};
ghost use Rattle.file_map.specs.Faults.{IsLack, IsMapRefusal, IsWriteLack};
ghost use Rattle.file_map.specs.Heaps.{heap_lines, line_of, sizes};
ghost use Rattle.file_map.specs.Parts.{drawn_parts, is_heap_part};

use crate::bars::{HEAP_HEIGHT, write_bars};
use crate::fault::MapFault;
use crate::heaps::{HEADING, push_heap_line};
use crate::lines::send;
use crate::part::{Part, push_part};
use crate::reading::{FileMap, read_map};
use crate::rows::write_pages;
use crate::svg::{heaps_top, write_gaps, write_parts, write_start};
use crate::tables::read_table;
use std::alloc::{AllocError, Global};
use std::io::Write;
use vm_store::Store;

/// No file leads to more parts: the slots, two directories, and an image of each block of each document.
const MOST_PARTS: usize = 16_387;

// Each part once.
fn draw_once(alloc: Global, parts: &[Part]) -> Result<Vec<Part>, AllocError>
    ensures parts { IfOk result (λ once. once.items ≡ drawn_parts parts.now) }
    ensures few { IfOk result (λ once. length once.items ≤ 16387) }
{
    let mut once = Vec::new(alloc);
    for part in parts {
        push_part(&mut once, *part)?;
    }
    if once.len() > MOST_PARTS {
        return Err(AllocError);
    }
    Ok(once)
}

// These parts by handle.
fn by_handle(once: Vec<Part>) -> Result<Vec<Part>, AllocError>
    ensures parts { IfOk result (λ parts. AreByHandle once.items parts.items) }
    ensures few { IfOk result (λ parts. length parts.items ≡ length once.items) }
{
    let mut parts = once;
    parts.sort_by_key(|part| part.handle_rank())?;
    Ok(parts)
}

// The line of a part that is a heap. Memory, File, Write.
fn write_line<S: Store, W: Write>(
    alloc: Global,
    store: &mut S,
    part: Part,
    writer: &mut W,
) -> Result<(), MapFault>
    ensures looks { OnlyReadsStore (S.facts store.old) (S.facts store.new) }
    ensures text { OnOk result (IsTrue (S.facts store.old).honest
        → Appends (W.contents writer.old) (W.contents writer.new) (line_of (S.facts store.old).content part)) }
    ensures file { IsErrOf result MapFault.File → FailedSince (S.facts store.old) (S.facts store.new) }
    ensures refusals { IfErr result IsLack }
{
    let mut out = Vec::new(alloc);
    if part.is_heap() {
        let table = read_table(alloc, store, part.extent)?;
        push_heap_line(&mut out, part.block, part.users, &table)?;
    }
    send(&out, writer)
}

// The lines of all heaps. Memory, File, Write.
fn write_heaps<S: Store, W: Write>(
    alloc: Global,
    store: &mut S,
    parts: &[Part],
    writer: &mut W,
) -> Result<(), MapFault>
    ensures looks { OnlyReadsStore (S.facts store.old) (S.facts store.new) }
    ensures text { OnOk result (IsTrue (S.facts store.old).honest
        → Appends (W.contents writer.old) (W.contents writer.new)
        (heap_lines (S.facts store.old).content parts.now)) }
    ensures file { IsErrOf result MapFault.File → FailedSince (S.facts store.old) (S.facts store.new) }
    ensures refusals { IfErr result IsLack }
{
    for part in parts {
        write_line(alloc, store, *part, writer)?;
    }
    Ok(())
}

fn write_heading<W: Write>(writer: &mut W) -> Result<(), MapFault>
    ensures text { OnOk result (Appends (W.contents writer.old) (W.contents writer.new) HEADING.now) }
    ensures refusals { IfErr result IsWriteLack }
{
    send(HEADING, writer)
}

// The picture as text. Memory, File, Write.
fn write_text<S: Store, W: Write>(
    alloc: Global,
    store: &mut S,
    map: &FileMap,
    writer: &mut W,
) -> Result<(), MapFault>
    requires sorted { IsNonDecreasingBy (λ p. p.extent.page) map.now.parts.items }
    requires few { map.now.pages < 2 ^ 56 }
    ensures looks { OnlyReadsStore (S.facts store.old) (S.facts store.new) }
    ensures text { OnOk result (IsTrue (S.facts store.old).honest
        → IsDrawnOf map_text (S.facts store.old).content map.now.parts.items map.now.pages
        (W.contents writer.old) (W.contents writer.new)) }
    ensures file { IsErrOf result MapFault.File → FailedSince (S.facts store.old) (S.facts store.new) }
    ensures refusals { IfErr result IsLack }
{
    write_pages(alloc, &map.parts, map.pages, writer)?;
    write_heading(writer)?;
    let once = draw_once(alloc, &map.parts)?;
    let heaps = by_handle(once)?;
    write_heaps(alloc, store, &heaps, writer)
}

/// Writes a picture of a file as text: a character for each page in rows of 64, what the characters mean with how many
/// pages each has, and a line for each heap. A file that doesn't open is refused for what an opening answers, and
/// nothing is written then. The writer gets short pieces, so it should be buffered. Memory is taken for what lies in
/// the file and for one image.
pub fn draw_text<S: Store, W: Write>(
    alloc: Global,
    store: &mut S,
    writer: &mut W,
) -> Result<(), MapFault>
    ensures looks { OnlyReadsStore (S.facts store.old) (S.facts store.new) }
    ensures text { OnOk result (IsTrue (S.facts store.old).honest
        → IsDrawn map_text (S.facts store.old).content (W.contents writer.old) (W.contents writer.new)) }
    ensures file { IsErrOf result MapFault.File → FailedSince (S.facts store.old) (S.facts store.new) }
    ensures refusals { IfErr result (IsMapRefusal (S.facts store.old)) }
{
    let map = read_map(alloc, store)?;
    write_text(alloc, store, &map, writer)
}

// How many of them are heaps.
fn heap_count(parts: &[Part]) -> usize
    ensures { result ≡ count_by is_heap_part parts.now }
{
    parts.iter().filter(|part| part.is_heap()).count()
}

// How high the picture is, with heaps from `top` on.
fn height(parts: &[Part], top: u64) -> u64
    requires few { length parts.now ≤ 16387 }
    requires top { top < 2 ^ 57 }
    ensures { result ≡ top + 34 * count_by is_heap_part parts.now }
{
    top + HEAP_HEIGHT * heap_count(parts) as u64
}

// The picture as SVG. Memory, File, Write.
fn write_svg<S: Store, W: Write>(
    alloc: Global,
    store: &mut S,
    map: &FileMap,
    writer: &mut W,
) -> Result<(), MapFault>
    requires { map.now.pages < 2 ^ 56 }
    ensures looks { OnlyReadsStore (S.facts store.old) (S.facts store.new) }
    ensures text { OnOk result (IsTrue (S.facts store.old).honest
        → IsDrawnOf svg_of (S.facts store.old).content map.now.parts.items map.now.pages
        (W.contents writer.old) (W.contents writer.new)) }
    ensures file { IsErrOf result MapFault.File → FailedSince (S.facts store.old) (S.facts store.new) }
    ensures refusals { IfErr result IsLack }
{
    let once = draw_once(alloc, &map.parts)?;
    let top = heaps_top(map.pages);
    write_start(alloc, map.pages, height(&once, top), writer)?;
    write_parts(alloc, &once, writer)?;
    write_gaps(alloc, map.pages, writer)?;
    let heaps = by_handle(once)?;
    write_bars(alloc, store, &heaps, top, writer)?;
    send(b"</svg>\n", writer)
}

/// Writes a picture of a file as one SVG file: a rectangle for each part and row of pages, with what it is as its
/// title, and a bar for each heap, with its chunks. Refused as the text is, and the same holds of the writer and of
/// memory.
pub fn draw_svg<S: Store, W: Write>(
    alloc: Global,
    store: &mut S,
    writer: &mut W,
) -> Result<(), MapFault>
    ensures looks { OnlyReadsStore (S.facts store.old) (S.facts store.new) }
    ensures text { OnOk result (IsTrue (S.facts store.old).honest
        → IsDrawn svg_of (S.facts store.old).content (W.contents writer.old) (W.contents writer.new)) }
    ensures file { IsErrOf result MapFault.File → FailedSince (S.facts store.old) (S.facts store.new) }
    ensures refusals { IfErr result (IsMapRefusal (S.facts store.old)) }
{
    let map = read_map(alloc, store)?;
    write_svg(alloc, store, &map, writer)
}
