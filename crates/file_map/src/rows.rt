//! The rows of pages, and the legend.
ghost use Rattle.std.specs.Prelude.{◌≡◌, ◌≤◌, ◌<◌, ◌+◌, ◌*◌, ◌/◌, ◌^◌, ◌++◌, ◌∷◌, [], IfErr, IfOk, OnOk, IsTrue, length};
ghost use Rattle.std.specs.List.Sorted.{IsNonDecreasingBy};
ghost use Rattle.std.specs.Io.KnownBytes.{Appends};
ghost use Rattle.file_map.specs.Faults.{IsWriteLack};
ghost use Rattle.file_map.specs.Pages.{content_at, glyph, legend, legend_line, page_picture, row_end, row_text, rows};
ghost use Rattle.file_map.specs.Tallies.{IsPageTally};
ghost use Rattle.file_map.specs.Walks.{IsPartWalk};

use crate::fault::MapFault;
use crate::lines::{push_padded, send};
use crate::pages::{CONTENTS, Content, LEGEND};
use crate::part::Part;
use crate::walk::{Walk, advance, content_of, start_walk};
use std::alloc::{AllocError, Global};
use std::io::Write;

/// How many pages a row has.
const ROW: u64 = 64;

// A page. The walk stands at the next one then.
fn push_page(
    out: &mut Vec<u8>,
    parts: &[Part],
    from: Walk,
    counts: &mut [u64],
    page: u64,
) -> Result<Walk, AllocError>
    // The page, and what was found below it.
    requires sorted { IsNonDecreasingBy (λ p. p.extent.page) parts.now }
    requires walk { IsPartWalk parts.now page from }
    requires tally { IsPageTally parts.now page counts.old }
    requires below { page < 2 ^ 56 }
    // What is found with it.
    ensures walk { IfOk result (λ walk. IsPartWalk parts.now (page + 1) walk) }
    ensures tally { OnOk result (IsPageTally parts.now (page + 1) counts.new) }
    ensures text { OnOk result (out.new.items ≡ out.old.items ++ glyph (content_at parts.now page) ∷ []) }
{
    let walk = advance(parts, from, page);
    let content = content_of(parts, walk, page);
    out.push(content.glyph())?;
    counts[content.number()] += 1;
    Ok(walk)
}

// A row: the number of its first page, and its pages.
fn push_row(
    out: &mut Vec<u8>,
    parts: &[Part],
    pages: u64,
    from: Walk,
    counts: &mut [u64],
    row: u64,
) -> Result<Walk, AllocError>
    // The row, and what was found below it.
    requires sorted { IsNonDecreasingBy (λ p. p.extent.page) parts.now }
    requires below { pages < 2 ^ 56 }
    requires begins { 64 * row < pages }
    requires walk { IsPartWalk parts.now (64 * row) from }
    requires tally { IsPageTally parts.now (64 * row) counts.old }
    // What is found with it.
    ensures walk { IfOk result (λ walk. IsPartWalk parts.now (row_end pages row) walk) }
    ensures tally { OnOk result (IsPageTally parts.now (row_end pages row) counts.new) }
    ensures text { OnOk result (out.new.items ≡ out.old.items ++ row_text parts.now pages row) }
{
    let first = ROW * row;
    push_padded(out, 8, first)?;
    out.extend_from_slice(b"  ")?;
    let mut walk = from;
    for page in first..pages.min(first + ROW) {
        walk = push_page(out, parts, walk, counts, page)?;
    }
    out.push(b'\n')?;
    Ok(walk)
}

// All rows, each sent by itself.
fn write_rows<W: Write>(
    alloc: Global,
    parts: &[Part],
    pages: u64,
    counts: &mut [u64],
    writer: &mut W,
) -> Result<(), MapFault>
    requires sorted { IsNonDecreasingBy (λ p. p.extent.page) parts.now }
    requires below { pages < 2 ^ 56 }
    requires tally { IsPageTally parts.now 0 counts.old }
    ensures tally { OnOk result (IsPageTally parts.now pages counts.new) }
    ensures text { OnOk result (Appends (W.contents writer.old) (W.contents writer.new) (rows parts.now pages)) }
    ensures refusals { IfErr result IsWriteLack }
{
    let mut walk = start_walk(parts);
    for row in 0..pages.div_ceil(ROW) {
        let mut out = Vec::new(alloc);
        walk = push_row(&mut out, parts, pages, walk, counts, row)?;
        send(&out, writer)?;
    }
    Ok(())
}

// A line of the legend, none where no page has the content.
fn push_legend_line(out: &mut Vec<u8>, content: Content, count: u64) -> Result<(), AllocError>
    ensures { OnOk result (out.new.items ≡ out.old.items ++ legend_line content count) }
{
    if count == 0 {
        return Ok(());
    }
    out.push(content.glyph())?;
    push_padded(out, 9, count)?;
    out.extend_from_slice(b"  ")?;
    out.extend_from_slice(content.name())?;
    Ok(out.push(b'\n')?)
}

// How many pages have each content.
fn push_legend(
    out: &mut Vec<u8>,
    parts: &[Part],
    pages: u64,
    counts: &[u64],
) -> Result<(), AllocError>
    requires { IsPageTally parts.now pages counts.now }
    ensures { OnOk result (out.new.items ≡ out.old.items ++ legend parts.now pages) }
{
    let _ = parts;
    let _ = pages;
    for content in &LEGEND {
        push_legend_line(out, *content, counts[content.number()])?;
    }
    Ok(())
}

/// Writes the rows of pages, and the legend with how many pages have each content.
pub fn write_pages<W: Write>(
    alloc: Global,
    parts: &[Part],
    pages: u64,
    writer: &mut W,
) -> Result<(), MapFault>
    requires sorted { IsNonDecreasingBy (λ p. p.extent.page) parts.now }
    requires below { pages < 2 ^ 56 }
    ensures text { OnOk result (Appends (W.contents writer.old) (W.contents writer.new)
        (page_picture parts.now pages)) }
    ensures refusals { IfErr result IsWriteLack }
{
    let mut counts = [0; CONTENTS];
    write_rows(alloc, parts, pages, &mut counts, writer)?;
    let mut out = Vec::new(alloc);
    out.push(b'\n')?;
    push_legend(&mut out, parts, pages, &counts)?;
    send(&out, writer)
}
