//! The pages of a file as SVG: a rectangle for each part and row, in cells of a fixed width.
ghost use Rattle.std.specs.Prelude.{◌≡◌, ◌≤◌, ◌<◌, ◌+◌, ◌*◌, ◌-◌, ◌/◌, ◌%◌, ◌^◌, ◌++◌, ◌∷◌, IfErr, OnOk};
ghost use Rattle.std.specs.Io.KnownBytes.{Appends};
ghost use Rattle.file_map.specs.Faults.{IsWriteLack};
ghost use Rattle.file_map.specs.Svg.{filled_group, gaps, heaps_top, kind_words, label, labels, last_row, legend_drawn, opening, part_drawn, parts_drawn, place, rect, rects, row_rect, rows_height, start_drawn, subject, swatch, swatch_at, swatch_text, title, unused_drawn, users_words, whole_rows};

use crate::colours::{PATTERNS, content_fill, fill};
use crate::fault::MapFault;
use crate::lines::{push_decimal, push_handle, push_numbered, send};
use crate::pages::{Content, LEGEND};
use crate::part::{Kind, Part, Users};
use file_format::page_count;
use std::alloc::{AllocError, Global};
use std::io::Write;

/// How many pages a row has.
const ROW: u64 = 64;

/// The width and the height of a page's cell, with the gap behind it.
const CELL: u64 = 14;

/// The number of the content that the picture doesn't have: each part is drawn by itself.
const SEVERAL: usize = 10;

/// Where the first page's cell stands.
const LEFT: u64 = 70;

pub const TOP: u64 = 98;

// A rectangle as high as a cell.
fn push_rect(out: &mut Vec<u8>, x: u64, y: u64, width: u64) -> Result<(), AllocError>
    ensures { OnOk result (out.new.items ≡ out.old.items ++ rect x y width) }
{
    push_numbered(out, b"<rect x='", x)?;
    push_numbered(out, b"' y='", y)?;
    push_numbered(out, b"' width='", width)?;
    out.extend_from_slice(b"' height='12'/>")
}

// Those pages of a row that lie from one on and before another.
fn push_row_rect(out: &mut Vec<u8>, start: u64, end: u64, row: u64) -> Result<(), AllocError>
    requires start { start < 2 ^ 33 }
    requires end { end < 2 ^ 33 }
    requires row { row < 2 ^ 33 }
    ensures { OnOk result (out.new.items ≡ out.old.items ++ row_rect start end row) }
{
    let first = start.max(ROW * row);
    let behind = end.min(ROW * row + ROW);
    push_rect(
        out,
        LEFT + CELL * first.saturating_sub(ROW * row),
        TOP + CELL * row,
        (CELL * behind.saturating_sub(first)).saturating_sub(2),
    )
}

// The rectangles of a part, one in each row.
fn push_rects(out: &mut Vec<u8>, part: &Part) -> Result<(), AllocError>
    ensures { OnOk result (out.new.items ≡ out.old.items ++ rects part.now) }
{
    let start = u64::from(part.extent.page);
    let end = start + page_count(u64::from(part.extent.length));
    for row in start / ROW..end.div_ceil(ROW) {
        push_row_rect(out, start, end, row)?;
    }
    Ok(())
}

fn kind_words(kind: Kind) -> &'static [u8]
    ensures { result.now ≡ kind_words kind }
{
    match kind {
        Kind::Slots => b"slots",
        Kind::Directory => b"directory",
        Kind::Raw => b"raw block ",
        Kind::Heap => b"heap ",
    }
}

fn users_words(users: Users) -> &'static [u8]
    ensures { result.now ≡ users_words users }
{
    match users {
        Users::Updated => b" of the updated document",
        Users::Saved => b" of the saved document",
        Users::Both => b" of both documents",
    }
}

/// What a part is, and whose.
pub fn push_subject(out: &mut Vec<u8>, part: &Part) -> Result<(), AllocError>
    ensures { OnOk result (out.new.items ≡ out.old.items ++ subject part.now) }
{
    out.extend_from_slice(kind_words(part.kind))?;
    if part.is_raw() || part.is_heap() {
        push_handle(out, part.block.0)?;
    }
    out.extend_from_slice(users_words(part.users))
}

// Where a part lies.
fn push_place(out: &mut Vec<u8>, part: &Part) -> Result<(), AllocError>
    ensures { OnOk result (out.new.items ≡ out.old.items ++ place part.now) }
{
    push_numbered(out, b": page ", u64::from(part.extent.page))?;
    push_numbered(out, b", bytes ", u64::from(part.extent.length))
}

// What a part is, whose, and where it lies.
fn push_title(out: &mut Vec<u8>, part: &Part) -> Result<(), AllocError>
    ensures { OnOk result (out.new.items ≡ out.old.items ++ title part.now) }
{
    out.extend_from_slice(b"<title>")?;
    push_subject(out, part)?;
    push_place(out, part)?;
    out.extend_from_slice(b"</title>")
}

// Begins what has a fill.
fn push_filled(out: &mut Vec<u8>, colour: &[u8]) -> Result<(), AllocError>
    ensures { OnOk result (out.new.items ≡ out.old.items ++ filled_group colour.now) }
{
    out.extend_from_slice(b"<g fill='")?;
    out.extend_from_slice(colour)?;
    out.extend_from_slice(b"'>")
}

// A part: its rectangles, and what a browser shows where the pointer stands on one.
fn push_part_drawn(out: &mut Vec<u8>, part: &Part) -> Result<(), AllocError>
    ensures { OnOk result (out.new.items ≡ out.old.items ++ part_drawn part.now) }
{
    push_filled(out, fill(part.kind, part.users))?;
    push_title(out, part)?;
    push_rects(out, part)?;
    out.extend_from_slice(b"</g>\n")
}

/// Each part once, in their order.
pub fn write_parts<W: Write>(alloc: Global, parts: &[Part], writer: &mut W) -> Result<(), MapFault>
    ensures text { OnOk result (Appends (W.contents writer.old) (W.contents writer.new) (parts_drawn parts.now)) }
    ensures refusals { IfErr result IsWriteLack }
{
    for part in parts {
        let mut out = Vec::new(alloc);
        push_part_drawn(&mut out, part)?;
        send(&out, writer)?;
    }
    Ok(())
}

// The cells of whole rows.
fn push_whole_rows(out: &mut Vec<u8>, pages: u64) -> Result<(), AllocError>
    requires { pages < 2 ^ 56 }
    ensures { OnOk result (out.new.items ≡ out.old.items ++ whole_rows pages) }
{
    out.extend_from_slice(
        b"<g fill='url(#n)'><title>nothing</title><rect x='70' y='98' width='896'",
    )?;
    push_numbered(out, b" height='", CELL * (pages / ROW))
}

// Those of the last row.
fn push_last_row(out: &mut Vec<u8>, pages: u64) -> Result<(), AllocError>
    requires { pages < 2 ^ 56 }
    ensures { OnOk result (out.new.items ≡ out.old.items ++ last_row pages) }
{
    push_numbered(
        out,
        b"'/><rect x='70' height='14' y='",
        TOP + CELL * (pages / ROW),
    )?;
    push_numbered(out, b"' width='", CELL * (pages % ROW))?;
    out.extend_from_slice(b"'/></g>\n")
}

// The cells of the pages, as if nothing lay on them.
fn push_unused(out: &mut Vec<u8>, pages: u64) -> Result<(), AllocError>
    requires { pages < 2 ^ 56 }
    ensures { OnOk result (out.new.items ≡ out.old.items ++ unused_drawn pages) }
{
    push_whole_rows(out, pages)?;
    push_last_row(out, pages)
}

// The number of a row's first page, for each fourth row.
fn push_label(out: &mut Vec<u8>, k: u64) -> Result<(), AllocError>
    requires { k < 2 ^ 56 }
    ensures { OnOk result (out.new.items ≡ out.old.items ++ label k) }
{
    push_numbered(
        out,
        b"<text x='62' text-anchor='end' y='",
        TOP + 10 + 4 * CELL * k,
    )?;
    push_numbered(out, b"'>", 4 * ROW * k)?;
    out.extend_from_slice(b"</text>\n")
}

// The word beside a swatch.
fn push_swatch_text(out: &mut Vec<u8>, x: u64, y: u64, word: &[u8]) -> Result<(), AllocError>
    requires x { x < 2 ^ 20 }
    requires y { y < 2 ^ 20 }
    ensures { OnOk result (out.new.items ≡ out.old.items ++ swatch_text x y word.now) }
{
    push_numbered(out, b"</g><text x='", x + 20)?;
    push_numbered(out, b"' y='", y + 10)?;
    out.extend_from_slice(b"'>")?;
    out.extend_from_slice(word)?;
    out.extend_from_slice(b"</text>\n")
}

fn push_swatch_at(out: &mut Vec<u8>, x: u64, y: u64, content: Content) -> Result<(), AllocError>
    requires x { x < 2 ^ 20 }
    requires y { y < 2 ^ 20 }
    ensures { OnOk result (out.new.items ≡ out.old.items ++ swatch_at x y content) }
{
    push_filled(out, content_fill(content))?;
    push_rect(out, x, y, 12)?;
    push_swatch_text(out, x, y, content.name())
}

// What a fill means.
fn push_swatch(out: &mut Vec<u8>, content: Content) -> Result<(), AllocError>
    ensures { OnOk result (out.new.items ≡ out.old.items ++ swatch content) }
{
    let number = content.number();
    if number == SEVERAL {
        return Ok(());
    }
    let x = 70 + 300 * (number / 4) as u64;
    let y = 10 + 20 * (number % 4) as u64;
    push_swatch_at(out, x, y, content)
}

fn push_swatches(out: &mut Vec<u8>) -> Result<(), AllocError>
    ensures { OnOk result (out.new.items ≡ out.old.items ++ legend_drawn) }
{
    for content in &LEGEND {
        push_swatch(out, *content)?;
    }
    Ok(())
}

// The numbers of rows.
fn write_labels<W: Write>(alloc: Global, pages: u64, writer: &mut W) -> Result<(), MapFault>
    requires { pages < 2 ^ 56 }
    ensures text { OnOk result (Appends (W.contents writer.old) (W.contents writer.new) (labels pages)) }
    ensures refusals { IfErr result IsWriteLack }
{
    for k in 0..pages.div_ceil(4 * ROW) {
        let mut out = Vec::new(alloc);
        push_label(&mut out, k)?;
        send(&out, writer)?;
    }
    Ok(())
}

// How high the rows of pages are.
fn rows_height(pages: u64) -> u64
    requires { pages < 2 ^ 56 }
    ensures value { result ≡ rows_height pages }
    ensures most { result < 2 ^ 56 }
{
    CELL * pages.div_ceil(ROW)
}

/// Where the heaps stand.
pub fn heaps_top(pages: u64) -> u64
    requires { pages < 2 ^ 56 }
    ensures value { result ≡ heaps_top pages }
    ensures most { result < 2 ^ 57 }
{
    TOP + rows_height(pages) + 30
}

fn push_opening(out: &mut Vec<u8>, height: u64) -> Result<(), AllocError>
    ensures { OnOk result (out.new.items ≡ out.old.items ++ opening height) }
{
    out.extend_from_slice(
        b"<svg xmlns='http://www.w3.org/2000/svg' width='980' font-family='monospace' font-size='12'",
    )?;
    push_numbered(out, b" height='", height)?;
    out.extend_from_slice(b"'>\n<rect width='980' height='100%' fill='#fff'/>\n")
}

fn push_start(out: &mut Vec<u8>, pages: u64, height: u64) -> Result<(), AllocError>
    requires { pages < 2 ^ 56 }
    ensures { OnOk result (out.new.items ≡ out.old.items ++ start_drawn pages height) }
{
    push_opening(out, height)?;
    out.extend_from_slice(PATTERNS)?;
    push_swatches(out)?;
    push_unused(out, pages)
}

/// The beginning of the picture: what the fills mean, the cells of the pages and their numbers.
pub fn write_start<W: Write>(
    alloc: Global,
    pages: u64,
    height: u64,
    writer: &mut W,
) -> Result<(), MapFault>
    requires { pages < 2 ^ 56 }
    ensures text { OnOk result (Appends (W.contents writer.old) (W.contents writer.new)
        (start_drawn pages height ++ labels pages)) }
    ensures refusals { IfErr result IsWriteLack }
{
    let mut out = Vec::new(alloc);
    push_start(&mut out, pages, height)?;
    send(&out, writer)?;
    write_labels(alloc, pages, writer)
}

// The gaps between pages.
fn push_gaps(out: &mut Vec<u8>, pages: u64) -> Result<(), AllocError>
    requires { pages < 2 ^ 56 }
    ensures { OnOk result (out.new.items ≡ out.old.items ++ gaps pages) }
{
    out.extend_from_slice(b"<rect x='70' y='98' width='896' fill='url(#g)' pointer-events='none'")?;
    push_numbered(out, b" height='", rows_height(pages))?;
    out.extend_from_slice(b"'/>\n")
}

/// The gaps between the cells of the pages, over the parts.
pub fn write_gaps<W: Write>(alloc: Global, pages: u64, writer: &mut W) -> Result<(), MapFault>
    requires { pages < 2 ^ 56 }
    ensures text { OnOk result (Appends (W.contents writer.old) (W.contents writer.new) (gaps pages)) }
    ensures refusals { IfErr result IsWriteLack }
{
    let mut out = Vec::new(alloc);
    push_gaps(&mut out, pages)?;
    send(&out, writer)
}
