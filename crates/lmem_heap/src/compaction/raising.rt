//! Entries that are places within a run go up, as the pieces there have moved.
ghost use Rattle.std.specs.Prelude.{◌≡◌, ◌+◌, ◌*◌, ◌≤◌, ◌<◌, length};
ghost use Rattle.lmem_heap.specs.Pieces.{word_in};
ghost use Rattle.lmem_heap.specs.Edits.{IsWordRaised, AreWordsRaised, AreRaised};

use crate::words::HEADER;
use raw_region::Region;

/// A word goes up if it is a place from `from` to `from + span`.
fn raise_word(word: &mut [u8], from: u16, span: u16, by: u16)
    requires pair { length word.old ≡ 2 }
    requires fits { from + span + by < 65520 }
    ensures long { length word.new ≡ 2 }
    ensures raised { IsWordRaised (word_in word.old 0) (word_in word.new 0) from (from + span + 1) by }
{
    // Read and written as a whole, a word is taken eight at a time.
    if let Some(pair) = word.first_chunk_mut::<2>() {
        let e = u16::from_le_bytes(*pair);
        // One test serves for both ends: a place below `from` wraps to one above `span`.
        let moved = if e.wrapping_sub(from) <= span {
            e + by
        } else {
            e
        };
        *pair = moved.to_le_bytes();
    }
}

/// The words that are places from `from` to `from + span` go up.
fn raise_words(table: &mut [u8], from: u16, span: u16, by: u16)
    requires { from + span + by < 65520 }
    ensures { AreWordsRaised table.old table.new from (from + span + 1) by }
{
    for i in 0..table.len() / 2 {
        raise_word(&mut table[2 * i..2 * i + 2], from, span, by);
    }
}

/// The entries of `t` slots that are places from `from` on, below `to`, go up.
pub(crate) fn raise_entries(region: &mut Region, t: usize, from: usize, to: usize, by: usize)
    requires within { 16 + 2 * t ≤ 65520 }
    requires order { from ≤ to }
    requires fits { to + by ≤ 65520 }
    requires long { length region.old ≡ 65520 }
    ensures { AreRaised region.old region.new t from to by }
{
    if from < to {
        raise_words(
            region.slice_mut(HEADER, 2 * t),
            from as u16,
            (to - from - 1) as u16,
            by as u16,
        );
    }
}
