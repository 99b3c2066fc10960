//! What lies on the pages of a file.
ghost use Rattle.std.specs.Prelude.{◌≡◌, ◌⊎◌, ◌↔◌, ◌≤◌, ◌++◌, All, IfOk, OnOk, IsTrue, IsPermutation, Some, length, map, max, min, nat_lt};
ghost use Rattle.std.specs.List.{Contains};
ghost use Rattle.std.specs.List.Sorted.{IsNonDecreasingBy};
ghost use Rattle.std.specs.Option.{option_copied, option_map};
ghost use Rattle.file_format.specs.File.{end_page};
ghost use Rattle.file_format.specs.Listed.{as_directory};
ghost use Rattle.file_report.specs.Pages.{AreReportedIn, DoOverlap, IsShared, IsReportedIn, image_usage, part_of_content, slot_usages, usages_in, usages_of};
ghost use Rattle.file_report.specs.declared.pages.Usage.{Usage};

use crate::checking::SlotReport;
use crate::finding::Named;
use file_format::{Directory, Extent, PAGE, Slot, page_behind};
use geos_model::VmHandle;
use std::alloc::{AllocError, Global};

/// What an extent holds.
#[derive(Clone, Copy)]
pub enum Content {
    Slots,
    /// That of one of a slot's documents.
    Directory(Named),
    /// That of a block of such a document.
    Image(Named, VmHandle),
}

/// An extent of a file, and what it holds.
#[derive(Clone, Copy)]
pub struct Usage {
    pub extent: Extent,
    pub content: Content,
}

// What the slots take.
const SLOTS: Usage = Usage {
    extent: Extent {
        page: 0,
        length: 2 * PAGE,
    },
    content: Content::Slots,
};

fn push_document(
    usages: &mut Vec<Usage>,
    name: Named,
    extent: Extent,
    directory: Option<&Directory>,
) -> Result<(), AllocError>
    ensures { OnOk result (usages.new.items
        ≡ usages.old.items ++ usages_in name extent (option_map as_directory (option_copied directory.entry))) }
{
    if let Some(directory) = directory {
        usages.push(Usage {
            extent,
            content: Content::Directory(name),
        })?;
        push_images(usages, name, directory)?;
    }
    Ok(())
}

fn push_images(
    usages: &mut Vec<Usage>,
    name: Named,
    directory: &Directory,
) -> Result<(), AllocError>
    ensures { OnOk result (usages.new.items ≡ usages.old.items ++ map (image_usage name) directory.now.entries.items) }
{
    for entry in &directory.entries {
        usages.push(Usage {
            extent: entry.extent,
            content: Content::Image(name, entry.handle),
        })?;
    }
    Ok(())
}

/// What a slot leads to with these directories of its documents, by first pages. What both have is there for each of
/// them.
pub fn slot_usages(
    alloc: Global,
    slot: &Slot,
    updated: Option<&Directory>,
    saved: Option<&Directory>,
) -> Result<Vec<Usage>, AllocError>
    ensures all { IfOk result (λ usages. IsPermutation (slot_usages slot.now
        (option_map as_directory (option_copied updated.entry)) (option_map as_directory (option_copied saved.entry)))
        usages.items) }
    ensures order { IfOk result (λ usages. IsNonDecreasingBy (λ u. u.extent.page) usages.items) }
{
    let mut usages = Vec::new(alloc);
    usages.push(SLOTS)?;
    push_document(&mut usages, Named::Updated, slot.working, updated)?;
    push_document(&mut usages, Named::Saved, slot.saved, saved)?;
    usages.sort_by_key(|usage| usage.extent.page)?;
    Ok(usages)
}

/// The same with the directories that were found.
pub fn usages(alloc: Global, slot: &SlotReport) -> Result<Vec<Usage>, AllocError>
    ensures all { IfOk result (λ usages. IsPermutation (usages_of slot.now) usages.items) }
    ensures order { IfOk result (λ usages. IsNonDecreasingBy (λ u. u.extent.page) usages.items) }
{
    slot_usages(
        alloc,
        &slot.slot,
        slot.updated.as_ref(),
        slot.saved.as_ref(),
    )
}

/// What an extent holds, in whichever document.
#[derive(Clone, Copy, PartialEq, Eq)]
pub enum Part {
    Slots,
    Directory,
    Image(VmHandle),
}

fn part_of_content(content: Content) -> Part
    ensures { result ≡ part_of_content content }
{
    match content {
        Content::Slots => Part::Slots,
        Content::Directory(_) => Part::Directory,
        Content::Image(_, block) => Part::Image(block),
    }
}

// Whether they are the same in the same place, as what both of a slot's documents have.
fn is_shared(one: Usage, other: Usage) -> bool
    ensures { IsTrue result ↔ IsShared one other }
{
    part_of_content(one.content) == part_of_content(other.content) && one.extent == other.extent
}

// Whether there is a page on which both lie.
fn share_a_page(one: Extent, other: Extent) -> bool
    ensures { result ≡ nat_lt (max one.page other.page) (min (end_page one) (end_page other)) }
{
    u64::from(one.page.max(other.page)) < page_behind(one).min(page_behind(other))
}

fn do_overlap(one: Usage, other: Usage) -> bool
    ensures { IsTrue result ↔ DoOverlap (one, other) }
{
    share_a_page(one.extent, other.extent) && !is_shared(one, other)
}

// An extent and what was the furthest of those before it, where they overlap.
fn push_overlap(
    pairs: &mut Vec<(Usage, Usage)>,
    furthest: Option<Usage>,
    usage: Usage,
) -> Result<(), AllocError>
    ensures overlap { OnOk result (All DoOverlap pairs.old.items → All DoOverlap pairs.new.items) }
    ensures kept { OnOk result ((u : Usage) → IsReportedIn pairs.old.items u → IsReportedIn pairs.new.items u) }
    ensures told { OnOk result ((u : Usage) → furthest ≡ Some u → DoOverlap (u, usage)
        → Contains pairs.new.items (u, usage)) }
{
    if let Some(other) = furthest {
        if do_overlap(other, usage) {
            pairs.push((other, usage))?;
        }
    }
    Ok(())
}

// The extent or what was the furthest of those before it, whichever ends behind the other.
fn further(furthest: Option<Usage>, usage: Usage) -> Usage
    ensures one { (furthest ≡ Some result) ⊎ (result ≡ usage) }
    ensures behind { end_page usage.extent ≤ end_page result.extent }
    ensures behind_all { (u : Usage) → furthest ≡ Some u → end_page u.extent ≤ end_page result.extent }
{
    match furthest {
        Some(other) if page_behind(usage.extent) <= page_behind(other.extent) => other,
        _ => usage,
    }
}

/// Of extents by their first pages those that begin on a page of one before, each with the one before that reaches
/// furthest. What both of a slot's documents have in the same place doesn't overlap; where a third lies on its pages it
/// is told once.
pub fn overlaps(alloc: Global, usages: &[Usage]) -> Result<Vec<(Usage, Usage)>, AllocError>
    ensures overlap { IfOk result (λ pairs. All DoOverlap pairs.items) }
    ensures all { IfOk result (λ pairs. IsNonDecreasingBy (λ u. u.extent.page) usages.now
        → AreReportedIn usages.now pairs.items) }
{
    let mut pairs = Vec::new(alloc);
    let mut furthest = None;
    for usage in usages {
        push_overlap(&mut pairs, furthest, *usage)?;
        furthest = Some(further(furthest, *usage));
    }
    Ok(pairs)
}
