//! Pieces with threaded entries get their sizes back run by run, and each run moves down, so that all lie side by side.
ghost use Rattle.std.specs.Prelude.{◌≡◌, ◌+◌, ◌%◌, ◌<◌, List};
ghost use Rattle.lmem_heap.specs.Pieces.{word_in, Piece};
ghost use Rattle.lmem_heap.specs.Edits.{IsRunPacked, IsReadyToPack, IsPacked};

use crate::compaction::threading::thread;
use crate::sizes::piece_space;
use crate::words::{SIZE, slide, slot_at, word_in};
use raw_region::Region;

/// The chunks from `start` up to the next free piece get their sizes back, and the entries that they have from `target`
/// on. Says where that piece begins, or the region ends.
fn thread_run(region: &mut Region, start: usize, target: usize) -> usize
    requires { (cs : List Piece) × IsReadyToPack region.old start target cs }
    ensures run { (cs : List Piece) → IsReadyToPack region.old start target cs →
        IsRunPacked region.old region.new start target cs result }
    ensures stops { result < 65520 → word_in region.new result % 2 ≡ 1 }
{
    let mut p = start;
    while p < SIZE {
        let head = word_in(region, p);
        if head % 2 == 1 {
            return p;
        }
        let n = word_in(region, head);
        thread(region, slot_at(head), p, n, p + target - start);
        p += piece_space(n);
    }
    p
}

/// Packs the chunks of pieces that begin with their slots' handles, whose sizes stand in the table, from `low` on, with
/// the entries that they have from `target` on.
pub(crate) fn pack(region: &mut Region, low: usize, target: usize)
    requires { (cs : List Piece) × IsReadyToPack region.old low target cs }
    ensures { (cs : List Piece) → IsReadyToPack region.old low target cs
        → IsPacked region.old region.new low target cs }
{
    let mut p = low;
    let mut q = low;
    while p < SIZE {
        let head = word_in(region, p);
        if head % 2 == 1 {
            p += head - 1;
        } else {
            let end = thread_run(region, p, q + target - low);
            slide(region, p, q, end - p);
            q += end - p;
            p = end;
        }
    }
}
