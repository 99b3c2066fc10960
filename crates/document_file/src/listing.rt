//! Which handles are live, and where in a table to look for them.
ghost use Rattle.std.specs.Prelude.{◌≡◌, ◌≤◌, ◌-◌, ◌<◌, ℕ, [], All, IfOk, length, map, get_or, is_some, true, false, None};
ghost use Rattle.std.specs.Option.{option_map};
ghost use Rattle.geos_model.specs.Document.{most_blocks};
ghost use Rattle.geos_model.proofs.Table.{table_entries, first_gap};
ghost use Rattle.document_file.specs.Calls.{IsPut};
ghost use Rattle.document_file.specs.Listing.{AreBounds, IsListed, IsWidened, found_in};

use crate::member::Member;
use crate::table::Place;
use geos_model::VmHandle;
use std::alloc::AllocError;

/// Where a table has blocks, so that a listing doesn't go through all its places.
#[derive(Clone, Copy)]
pub struct Bounds {
    /// Each place below this one has a block.
    pub gap: usize,
    /// No place from this one on has a block.
    pub end: usize,
}

/// The first place that has no block. Each one below the start has a block.
pub fn first_free(places: &[Option<Place>], start: usize) -> usize
    requires within { start ≤ length places.now }
    requires full { (k : ℕ) → k < start → is_some (get_or places.now k None) ≡ true }
    ensures { result ≡ first_gap places.now }
{
    for i in start..places.len() {
        if places[i].is_none() {
            return i;
        }
    }
    places.len()
}

// The place behind the last one that has a block. None from the end on has one.
fn live_end(places: &[Option<Place>], end: usize) -> usize
    requires within { end ≤ length places.now }
    requires past { (k : ℕ) → end ≤ k → is_some (get_or places.now k None) ≡ false }
    ensures within { result ≤ length places.now }
    ensures past { (k : ℕ) → result ≤ k → is_some (get_or places.now k None) ≡ false }
{
    let mut end = end;
    while end > 0 && places[end - 1].is_none() {
        end -= 1;
    }
    end
}

/// The same bounds, as near as they can be.
pub fn tightened(places: &[Option<Place>], bounds: Bounds) -> Bounds
    requires { AreBounds places.now bounds }
    ensures { AreBounds places.now result }
{
    Bounds {
        gap: first_free(places, bounds.gap),
        end: live_end(places, bounds.end),
    }
}

/// The bounds of a table of which nothing is known.
pub fn bounds_of(places: &[Option<Place>]) -> Bounds
    ensures { AreBounds places.now result }
{
    let bounds = Bounds {
        gap: 0,
        end: places.len(),
    };
    tightened(places, bounds)
}

// Not before the handle of any of these blocks.
fn end_with(end: usize, puts: &[Member]) -> usize
    requires puts { All IsPut puts.now }
    requires within { end ≤ most_blocks }
    ensures start { end ≤ result }
    ensures puts { All (λ p. p.handle.0 ≤ result) puts.now }
    ensures alone { puts.now ≡ [] → result ≡ end }
    ensures within { result ≤ most_blocks }
{
    let mut end = end;
    for put in puts {
        end = end.max(usize::from(put.handle.0));
    }
    end
}

// Not past the place of any of these handles.
fn gap_without(gap: usize, removals: &[VmHandle]) -> usize
    ensures start { result ≤ gap }
    ensures removals { All (λ h. result ≤ h.0 - 1) removals.now }
{
    let mut gap = gap;
    for block in removals {
        gap = gap.min(usize::from(block.0).saturating_sub(1));
    }
    gap
}

/// Bounds of a table that has these blocks more and those less.
pub fn widened(bounds: Bounds, puts: &[Member], removals: &[VmHandle]) -> Bounds
    requires puts { All IsPut puts.now }
    requires within { bounds.end ≤ most_blocks }
    ensures { IsWidened puts.now removals.now bounds result }
{
    Bounds {
        gap: gap_without(bounds.gap, removals),
        end: end_with(bounds.end, puts),
    }
}

/// Puts the handles of the blocks of a table in place of those that are there. No memory is taken where they have room.
pub fn list_live(places: &[Option<Place>], handles: &mut Vec<VmHandle>) -> Result<(), AllocError>
    requires { length places.now ≤ most_blocks }
    ensures { IsListed (map (λ e. e.0) (table_entries 1 1 places.now)) handles.old handles.new result }
{
    handles.clear();
    for (i, place) in places.iter().enumerate() {
        if place.is_some() {
            handles.push(VmHandle(i as u16 + 1))?;
        }
    }
    Ok(())
}

/// The least handle above a start whose block has this user ID.
pub fn find_from(places: &[Option<Place>], user_id: u16, start: u16) -> Option<VmHandle>
    requires { length places.now ≤ most_blocks }
    ensures { option_map (λ h. h.0) result ≡ found_in places.now user_id start }
{
    for i in usize::from(start)..places.len() {
        if let Some(place) = &places[i] {
            if place.attributes.user_id == user_id {
                return Some(VmHandle(i as u16 + 1));
            }
        }
    }
    None
}
