//! A region's words, read and written, and among them the table's entries, one for each slot.
ghost use Rattle.std.specs.Prelude.{◌≡◌, ◌+◌, ◌-◌, ◌*◌, ◌/◌, ◌≤◌, ◌<◌, length};
ghost use Rattle.lmem_heap.specs.Pieces.{entry, word_in};
ghost use Rattle.lmem_heap.specs.Edits.{IsSet, IsSlid, IsZeroed, IsSized, IsRangeCopied};

use geos_model::CAPACITY;
use raw_region::Region;

/// How many bytes a region has.
pub(crate) const SIZE: usize = CAPACITY;

/// The bytes of the header.
pub(crate) const HEADER: usize = 16;

/// The entry of a slot that has no chunk.
pub(crate) const NO_CHUNK: usize = 0;

/// The entry of a slot whose chunk has no bytes.
pub(crate) const EMPTY: usize = 1;

/// Where a slot's entry stands.
pub(crate) fn entry_at(i: usize) -> usize
    requires { i < 65536 }
    ensures { result ≡ 16 + 2 * i }
{
    HEADER + 2 * i
}

/// The slot whose entry stands there.
pub(crate) fn slot_at(at: usize) -> usize
    requires { 16 ≤ at }
    ensures { result ≡ (at - 16) / 2 }
{
    (at - HEADER) / 2
}

/// The word at a place.
#[tactic(auto, unfolding(crate::specs::Pieces::word_in))]
pub(crate) fn word_in(region: &Region, p: usize) -> usize
    requires { p + 2 ≤ 65520 }
    ensures value { result ≡ word_in region.now p }
    ensures small { result < 65536 }
{
    region.word(p) as usize
}

/// Writes a word.
pub(crate) fn set_word(region: &mut Region, p: usize, v: usize)
    requires within { p + 2 ≤ 65520 }
    requires small { v < 65536 }
    requires long { length region.old ≡ 65520 }
    ensures { IsSet region.old region.new p v }
{
    region.set_word(p, v as u16);
}

/// A slot's entry.
pub(crate) fn entry(region: &Region, i: usize) -> usize
    requires { 18 + 2 * i ≤ 65520 }
    ensures value { result ≡ entry region.now i }
    ensures small { result < 65536 }
{
    word_in(region, entry_at(i))
}

/// Writes a slot's entry.
pub(crate) fn set_entry(region: &mut Region, i: usize, e: usize)
    requires within { 18 + 2 * i ≤ 65520 }
    requires small { e < 65536 }
    requires long { length region.old ≡ 65520 }
    ensures { IsSet region.old region.new (16 + 2 * i) e }
{
    set_word(region, entry_at(i), e);
}

/// Moves `n` bytes. Takes no time where they stay.
pub(crate) fn slide(region: &mut Region, p: usize, q: usize, n: usize)
    requires source { p + n ≤ 65520 }
    requires target { q + n ≤ 65520 }
    requires long { length region.old ≡ 65520 }
    ensures { IsSlid region.old region.new p q n }
{
    if p != q {
        region.slide(p, q, n);
    }
}

/// Makes `n` bytes zero.
pub(crate) fn zero(region: &mut Region, p: usize, n: usize)
    requires within { p + n ≤ 65520 }
    requires long { length region.old ≡ 65520 }
    ensures { IsZeroed region.old region.new p n }
{
    region.zero(p, n);
}

/// The bytes of a piece become `n`. Those behind the first `size` are zeros.
pub(crate) fn set_size(region: &mut Region, p: usize, size: usize, n: usize)
    requires within { p + 2 + n ≤ 65520 }
    requires held { p + 2 + size ≤ 65520 }
    requires long { length region.old ≡ 65520 }
    ensures { IsSized region.old region.new p size n }
{
    if n > size {
        zero(region, p + 2 + size, n - size);
    }
    set_word(region, p, n);
}

/// Copies the `size` bytes of a piece to another place, with zeros behind them.
pub(crate) fn copy_piece(region: &mut Region, p: usize, q: usize, size: usize, n: usize)
    requires source { p + 2 + size ≤ 65520 }
    requires target { q + 2 + n ≤ 65520 }
    requires more { size ≤ n }
    requires long { length region.old ≡ 65520 }
    ensures { IsRangeCopied region.old region.new p q size n }
{
    slide(region, p + 2, q + 2, size);
    zero(region, q + 2 + size, n - size);
}
