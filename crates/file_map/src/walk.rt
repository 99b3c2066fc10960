//! A walk along the pages of a file, over the parts by their first pages.
ghost use Rattle.std.specs.Prelude.{◌≡◌, ◌≤◌, ◌<◌, ◌+◌, max, length, nat_lt, slice_index_or, if◌then◌else◌, IsTrue};
ghost use Rattle.std.specs.List.Sorted.{IsNonDecreasingBy};
ghost use Rattle.file_map.specs.Pages.{page_content, content_at, users};
ghost use Rattle.file_map.specs.Walks.{IsPast, IsPartWalk, begins_by, ends_behind};

use crate::pages::{Content, make_content, users};
use crate::part::Part;
use file_format::page_behind;

/// Behind which page the parts of a kind end that have begun, and those of a document.
#[derive(Clone, Copy)]
pub struct Ends {
    pub slots: u64,
    pub directory: u64,
    pub raw: u64,
    pub heap: u64,
    pub updated: u64,
    pub saved: u64,
}

/// How far a walk has come: those parts have begun that are before the next one.
#[derive(Clone, Copy)]
pub struct Walk {
    pub next: usize,
    pub ends: Ends,
}

/// Before the first page.
pub fn start_walk(parts: &[Part]) -> Walk
    ensures { IsPartWalk parts.now 0 result }
{
    let _ = parts;
    Walk {
        next: 0,
        ends: Ends {
            slots: 0,
            directory: 0,
            raw: 0,
            heap: 0,
            updated: 0,
            saved: 0,
        },
    }
}

// The greater end, where the part counts.
fn further(counts: bool, part_end: u64, end: u64) -> u64
    ensures { result ≡ (if counts then max end part_end else end) }
{
    if counts { end.max(part_end) } else { end }
}

// The ends with one part more.
fn ends_behind(part: &Part, ends: Ends) -> Ends
    ensures { result ≡ ends_behind part.now ends }
{
    let end = page_behind(part.extent);
    Ends {
        slots: further(part.is_slots(), end, ends.slots),
        directory: further(part.is_directory(), end, ends.directory),
        raw: further(part.is_raw(), end, ends.raw),
        heap: further(part.is_heap(), end, ends.heap),
        updated: further(part.is_updated(), end, ends.updated),
        saved: further(part.is_saved(), end, ends.saved),
    }
}

// Whether there is a next part, and it begins on the page or before it.
fn begins_by(parts: &[Part], next: usize, page: u64) -> bool
    ensures { result ≡ begins_by parts.now next page }
{
    match parts.get(next) {
        Some(part) => u64::from(part.extent.page) <= page,
        None => false,
    }
}

/// Goes on to a page: each part that begins there has begun.
pub fn advance(parts: &[Part], from: Walk, page: u64) -> Walk
    requires sorted { IsNonDecreasingBy (λ p. p.extent.page) parts.now }
    requires walk { IsPartWalk parts.now page from }
    ensures walk { IsPartWalk parts.now page result }
    ensures past { IsPast parts.now page result }
{
    let mut walk = from;
    while begins_by(parts, walk.next, page) {
        walk = Walk {
            next: walk.next + 1,
            ends: ends_behind(&parts[walk.next], walk.ends),
        };
    }
    walk
}

/// What lies on a page to which a walk has come.
pub fn content_of(parts: &[Part], walk: Walk, page: u64) -> Content
    requires sorted { IsNonDecreasingBy (λ p. p.extent.page) parts.now }
    requires walk { IsPartWalk parts.now page walk }
    requires past { IsPast parts.now page walk }
    ensures { result ≡ content_at parts.now page }
{
    let _ = parts;
    let ends = walk.ends;
    make_content(
        page < ends.slots,
        page < ends.directory,
        page < ends.raw,
        page < ends.heap,
        users(page < ends.updated, page < ends.saved),
    )
}
