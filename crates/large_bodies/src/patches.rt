//! The patch from one raw body to another, which holds what changes.
ghost use Rattle.std.specs.Prelude.{◌≡◌, ◌<◌, ◌≤◌, ◌+◌, ◌-◌, ◌*◌, IfOk, OnOk, length};
ghost use Rattle.geos_model.specs.Heap.{capacity};
ghost use Rattle.geos_model.specs.Words.{word_at};
ghost use Rattle.chunk_edits.specs.Patching.{ArePiecesOf, patched, peak, total_held};
ghost use Rattle.large_bodies.specs.Patches.{AddsPieces, AddsRegion, AddsTable, AreShifted, HoldsLeast, IsFurther, IsShiftedBack, IsShiftedFront, regions_peak, word_from_end};

use crate::cut_body::CutBody;
use crate::differences::{common_back, common_front};
use byteorder::{ByteOrder, LittleEndian};
use chunk_edits::Patch;
use geos_model::CAPACITY;
use std::alloc::{AllocError, Global};

/// The patch from one body to another. It goes from region to region, so that bytes that stay apart in both cost
/// nothing; where more bytes would lie on that way than a body has room for, it goes from the whole body to the other.
pub fn body_patch(alloc: Global, old: &CutBody<'_>, new: &CutBody<'_>) -> Result<Patch, AllocError>
    ensures leads { IfOk result
        (λ patch. ArePiecesOf patch old.now.bytes.now × (patched patch old.now.bytes.now ≡ new.now.bytes.now)) }
    ensures room { IfOk result (λ patch. peak patch ≤ capacity) }
    ensures held { IfOk result (λ patch. HoldsLeast old.now new.now (total_held patch)) }
{
    if peak_of_regions(old, new) <= CAPACITY {
        return regions_patch(alloc, old, new);
    }
    whole_patch(alloc, old, new)
}

/// For how many bytes there must be room on the way from region to region.
fn peak_of_regions(old: &CutBody<'_>, new: &CutBody<'_>) -> usize
    ensures { result ≡ regions_peak old.now new.now }
{
    let header = old.header_bytes().len().max(new.header_bytes().len());
    let table = old.table_bytes().len().max(new.table_bytes().len());
    let rest = old.rest_bytes().len().max(new.rest_bytes().len());
    header + table + rest
}

/// The patch from region to region.
fn regions_patch(alloc: Global, old: &CutBody<'_>, new: &CutBody<'_>) -> Result<Patch, AllocError>
    requires { regions_peak old.now new.now ≤ capacity }
    ensures leads { IfOk result
        (λ patch. ArePiecesOf patch old.now.bytes.now × (patched patch old.now.bytes.now ≡ new.now.bytes.now)) }
    ensures room { IfOk result (λ patch. peak patch ≤ capacity) }
    ensures held { IfOk result (λ patch. HoldsLeast old.now new.now (total_held patch)) }
{
    let mut patch = Patch::new(alloc)?;
    add_region(&mut patch, old.header_bytes(), new.header_bytes())?;
    add_table(&mut patch, old.table_bytes(), new.table_bytes())?;
    add_region(&mut patch, old.rest_bytes(), new.rest_bytes())?;
    patch.shrink_to_fit();
    Ok(patch)
}

/// The patch from the whole body to the other.
fn whole_patch(alloc: Global, old: &CutBody<'_>, new: &CutBody<'_>) -> Result<Patch, AllocError>
    requires { capacity < regions_peak old.now new.now }
    ensures leads { IfOk result
        (λ patch. ArePiecesOf patch old.now.bytes.now × (patched patch old.now.bytes.now ≡ new.now.bytes.now)) }
    ensures room { IfOk result (λ patch. peak patch ≤ capacity) }
    ensures held { IfOk result (λ patch. HoldsLeast old.now new.now (total_held patch)) }
{
    let mut patch = Patch::new(alloc)?;
    add_region(&mut patch, old.bytes, new.bytes)?;
    patch.shrink_to_fit();
    Ok(patch)
}

/// Adds the pieces from one table of places to another: the words in front that all move by the same stay as such, and
/// so do those at the end.
fn add_table(patch: &mut Patch, old: &[u8], new: &[u8]) -> Result<(), AllocError>
    requires old { length old.now ≤ capacity }
    requires new { length new.now ≤ capacity }
    ensures { OnOk result (AddsTable patch.old patch.new old.now new.now) }
{
    let front_by = first_shift(old, new);
    let front = 2 * shifted_front(old, new, front_by);
    let (old_front, old_end) = old.split_at(front);
    let (new_front, new_end) = new.split_at(front);
    let back_by = last_shift(old_end, new_end);
    let back = 2 * shifted_back(old_end, new_end, back_by);
    let (old_middle, old_back) = old_end.split_at(old_end.len() - back);
    let (new_middle, new_back) = new_end.split_at(new_end.len() - back);
    add_shifted(patch, old_front, new_front, front_by)?;
    add_region(patch, old_middle, new_middle)?;
    add_shifted(patch, old_back, new_back, back_by)
}

/// Adds the pieces from one region to another: what both begin and end with stays.
fn add_region(patch: &mut Patch, old: &[u8], new: &[u8]) -> Result<(), AllocError>
    requires old { length old.now ≤ capacity }
    requires new { length new.now ≤ capacity }
    ensures { OnOk result (AddsRegion patch.old patch.new old.now new.now) }
{
    let front = common_front(old, new);
    let (old_front, old_end) = old.split_at(front);
    let new_end = &new[front..];
    let back = common_back(old_end, new_end);
    let (old_middle, old_back) = old_end.split_at(old_end.len() - back);
    add_kept(patch, old_front)?;
    add_put(patch, old_middle, &new_end[..new_end.len() - back])?;
    add_kept(patch, old_back)
}

/// Adds bytes that stay, if there are any.
fn add_kept(patch: &mut Patch, bytes: &[u8]) -> Result<(), AllocError>
    requires { length bytes.now ≤ capacity }
    ensures { OnOk result (AddsPieces patch.old patch.new bytes.now bytes.now 0) }
{
    if bytes.is_empty() {
        return Ok(());
    }
    patch.keep(bytes.len() as u32)
}

/// Adds bytes that go, and those that come in their place, if there are any of either.
fn add_put(patch: &mut Patch, old: &[u8], new: &[u8]) -> Result<(), AllocError>
    requires old { length old.now ≤ capacity }
    requires new { length new.now ≤ capacity }
    ensures { OnOk result
        (AddsPieces patch.old patch.new old.now new.now (length old.now + length new.now)) }
{
    if old.is_empty() && new.is_empty() {
        return Ok(());
    }
    patch.put(old, new)
}

/// Adds words that all move by so much, or stay where that is 0.
fn add_shifted(patch: &mut Patch, old: &[u8], new: &[u8], by: u16) -> Result<(), AllocError>
    requires short { length old.now ≤ capacity }
    requires shifted { AreShifted old.now new.now by }
    ensures { OnOk result (AddsPieces patch.old patch.new old.now new.now 0) }
{
    if by == 0 {
        return add_kept(patch, old);
    }
    patch.rebase((old.len() / 2) as u32, 0, by)
}

/// By how much the first word moves; 0 where there is none.
fn first_shift(old: &[u8], new: &[u8]) -> u16
    ensures { 2 ≤ length old.now → 2 ≤ length new.now
        → IsFurther result (word_at old.now 0) (word_at new.now 0) }
{
    if old.len() < 2 || new.len() < 2 {
        return 0;
    }
    word(new, 0).wrapping_sub(word(old, 0))
}

/// By how much the last word moves; 0 where there is none.
fn last_shift(old: &[u8], new: &[u8]) -> u16
    ensures { 2 ≤ length old.now → 2 ≤ length new.now
        → IsFurther result (word_from_end old.now 0) (word_from_end new.now 0) }
{
    if old.len() < 2 || new.len() < 2 {
        return 0;
    }
    word(new, new.len() - 2).wrapping_sub(word(old, old.len() - 2))
}

/// How many words in front all move by so much.
fn shifted_front(old: &[u8], new: &[u8], by: u16) -> usize
    ensures shifted { IsShiftedFront old.now new.now by result }
    ensures most { 2 * result + 2 ≤ length old.now → 2 * result + 2 ≤ length new.now
        → IsFurther by (word_at old.now (2 * result)) (word_at new.now (2 * result)) → ⊥ }
{
    let most = old.len().min(new.len()) / 2;
    for k in 0..most {
        if word(new, 2 * k) != word(old, 2 * k).wrapping_add(by) {
            return k;
        }
    }
    most
}

/// How many words at the end all move by so much.
fn shifted_back(old: &[u8], new: &[u8], by: u16) -> usize
    ensures shifted { IsShiftedBack old.now new.now by result }
    ensures most { 2 * result + 2 ≤ length old.now → 2 * result + 2 ≤ length new.now
        → IsFurther by (word_from_end old.now result) (word_from_end new.now result) → ⊥ }
{
    let most = old.len().min(new.len()) / 2;
    for k in 0..most {
        let from_end = 2 * k + 2;
        let moved = word(old, old.len() - from_end).wrapping_add(by);
        if word(new, new.len() - from_end) != moved {
            return k;
        }
    }
    most
}

/// The word at a place.
fn word(bytes: &[u8], at: usize) -> u16
    requires { at + 2 ≤ length bytes.now }
    ensures { result ≡ word_at bytes.now at }
{
    LittleEndian::read_u16(&bytes[at..])
}
