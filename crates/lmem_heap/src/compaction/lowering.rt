//! Entries that are places below a mark go down, as the pieces there have moved.
ghost use Rattle.std.specs.Prelude.{◌≡◌, ◌+◌, ◌*◌, ◌≤◌, ◌<◌, ℕ, length};
ghost use Rattle.lmem_heap.specs.Pieces.{entry};
ghost use Rattle.lmem_heap.specs.Edits.{IsEntryLowered, AreLowered};

use crate::words::{entry, set_entry};
use raw_region::Region;

/// A slot's entry goes down if it is a place below `m`.
fn lower_entry(region: &mut Region, i: usize, m: usize, by: usize)
    requires within { 18 + 2 * i ≤ 65520 }
    requires enough { 1 < entry region.old i → by ≤ entry region.old i }
    requires long { length region.old ≡ 65520 }
    requires some { 1 < m }
    ensures { IsEntryLowered region.old region.new i m by }
{
    let e = entry(region, i);
    if e > 1 && e < m {
        set_entry(region, i, e - by);
    }
}

/// The entries of `t` slots that are places below `m` go down.
pub(crate) fn lower_entries(region: &mut Region, t: usize, m: usize, by: usize)
    requires within { 16 + 2 * t ≤ 65520 }
    requires enough { (j : ℕ) → j < t → 1 < entry region.old j → by ≤ entry region.old j }
    requires long { length region.old ≡ 65520 }
    requires some { 1 < m }
    ensures { AreLowered region.old region.new t m by }
{
    for i in 0..t {
        lower_entry(region, i, m, by);
    }
}
