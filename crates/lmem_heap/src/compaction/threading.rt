//! Each entry is threaded through its piece: they change places, the piece's size for the slot's handle.
ghost use Rattle.std.specs.Prelude.{◌≡◌, ◌+◌, ◌*◌, ◌≤◌, ◌<◌, List, length};
ghost use Rattle.lmem_heap.specs.Pieces.{Piece};
ghost use Rattle.lmem_heap.specs.Tiled.{IsTiled, IsThreaded, AreThreaded};

use crate::words::{entry, entry_at, set_entry, set_word, word_in};
use raw_region::Region;

/// Writes the word `v` at `p`, and `e` as a slot's entry.
pub(crate) fn thread(region: &mut Region, i: usize, p: usize, v: usize, e: usize)
    requires slot { 18 + 2 * i ≤ p }
    requires within { p + 2 ≤ 65520 }
    requires value { v < 65536 }
    requires word { e < 65536 }
    requires long { length region.old ≡ 65520 }
    ensures { IsThreaded region.old region.new i p v e }
{
    set_word(region, p, v);
    set_entry(region, i, e);
}

/// Each entry that says where a piece lies changes places with the size that stands there, and goes there as the slot's
/// handle.
pub(crate) fn thread_all(region: &mut Region, t: usize, low: usize)
    requires { (cs : List Piece) × IsTiled region.old t low cs }
    ensures { (cs : List Piece) → IsTiled region.old t low cs → AreThreaded region.old region.new t low cs }
{
    for i in 0..t {
        let p = entry(region, i);
        if p > 1 {
            let n = word_in(region, p);
            thread(region, i, p, entry_at(i), n);
        }
    }
}
