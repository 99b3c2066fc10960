//! What lies on the pages of a file as text, one fact a line.
ghost use Rattle.std.specs.Prelude.{◌≡◌, ◌++◌, IfOk, OnOk};
ghost use Rattle.std.specs.List.{flat_map};
ghost use Rattle.std.specs.Option.{option_map};
ghost use Rattle.file_report.specs.Texts.{extent_words};
ghost use Rattle.document_tools.specs.Pages.{ReportsCounting, ReportsPages, content_text, overlap_line, unused_line, usage_text};

use crate::lines::{push_decimal, push_handle, push_shown};
use file_format::{Extent, page_count};
use file_report::{Content, SlotReport, Usage, free_pages, overlaps, usages};
use std::alloc::{AllocError, Global};

fn push_content(out: &mut Vec<u8>, content: Content) -> Result<(), AllocError>
    ensures { OnOk result (out.new.items ≡ out.old.items ++ content_text content) }
{
    match content {
        Content::Slots => out.extend_from_slice(b"the slots"),
        Content::Directory(name) => {
            out.extend_from_slice(b"the ")?;
            push_shown(out, name)?;
            out.extend_from_slice(b" directory")
        }
        Content::Image(name, block) => {
            out.extend_from_slice(b"the ")?;
            push_shown(out, name)?;
            out.extend_from_slice(b" block ")?;
            push_handle(out, block.0)
        }
    }
}

fn push_extent(out: &mut Vec<u8>, extent: Extent) -> Result<(), AllocError>
    ensures { OnOk result (out.new.items ≡ out.old.items ++ extent_words extent) }
{
    out.extend_from_slice(b"page ")?;
    push_decimal(out, u64::from(extent.page))?;
    out.extend_from_slice(b", ")?;
    push_decimal(out, u64::from(extent.length))?;
    out.extend_from_slice(b" bytes")
}

fn push_usage(out: &mut Vec<u8>, usage: Usage) -> Result<(), AllocError>
    ensures { OnOk result (out.new.items ≡ out.old.items ++ usage_text usage) }
{
    push_content(out, usage.content)?;
    out.extend_from_slice(b" (")?;
    push_extent(out, usage.extent)?;
    Ok(out.push(b')')?)
}

fn push_overlap(out: &mut Vec<u8>, pair: (Usage, Usage)) -> Result<(), AllocError>
    ensures { OnOk result (out.new.items ≡ out.old.items ++ overlap_line pair) }
{
    let (one, other) = pair;
    out.extend_from_slice(b"overlap: ")?;
    push_usage(out, one)?;
    out.extend_from_slice(b" and ")?;
    push_usage(out, other)?;
    Ok(out.push(b'\n')?)
}

fn push_overlaps(out: &mut Vec<u8>, pairs: &[(Usage, Usage)]) -> Result<(), AllocError>
    ensures { OnOk result (out.new.items ≡ out.old.items ++ flat_map overlap_line pairs.now) }
{
    for pair in pairs {
        push_overlap(out, *pair)?;
    }
    Ok(())
}

fn push_unused(out: &mut Vec<u8>, free: u64, pages: u64) -> Result<(), AllocError>
    ensures { OnOk result (out.new.items ≡ out.old.items ++ unused_line free pages) }
{
    out.extend_from_slice(b"unused pages: ")?;
    push_decimal(out, free)?;
    out.extend_from_slice(b" of ")?;
    push_decimal(out, pages)?;
    Ok(out.push(b'\n')?)
}

fn pages_lines(
    alloc: Global,
    pairs: &[(Usage, Usage)],
    free: u64,
    pages: u64,
) -> Result<Vec<u8>, AllocError>
    ensures { IfOk result (λ text. text.items ≡ flat_map overlap_line pairs.now ++ unused_line free pages) }
{
    let mut text = Vec::new(alloc);
    push_overlaps(&mut text, pairs)?;
    push_unused(&mut text, free, pages)?;
    Ok(text)
}

// Which extents of what a slot leads to overlap, and how many pages nothing lies on.
fn slot_pages(alloc: Global, slot: &SlotReport, length: u64) -> Result<Vec<u8>, AllocError>
    ensures { IfOk result (λ text. ReportsPages length slot.now text.items) }
{
    let found = usages(alloc, slot)?;
    let extents = found.as_slice();
    let pairs = overlaps(alloc, extents)?;
    let pages = page_count(length);
    let free = free_pages(extents, pages);
    let told = pairs.as_slice();
    let text = pages_lines(alloc, told, free.pages, pages)?;
    Ok(text)
}

/// What is told of the pages of a file of this length, of which this slot counts.
pub fn counting_text(
    alloc: Global,
    counting: Option<&SlotReport>,
    length: u64,
) -> Result<Vec<u8>, AllocError>
    ensures { IfOk result (λ text. ReportsCounting length (option_map (λ r. r.now) counting.entry) text.items) }
{
    match counting {
        Some(slot) => slot_pages(alloc, slot, length),
        None => Ok(Vec::new(alloc)),
    }
}
