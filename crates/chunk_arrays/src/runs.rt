//! Where the bytes of an array change by which an element or none takes the place of some.
ghost use Rattle.std.specs.Prelude.{◌≡◌, ◌≤◌, ◌<◌, ◌+◌, ◌^◌, ◌==◌, ◌&&◌, ◌||◌, true, IsSome, length, take};
ghost use Rattle.geos_model.specs.Array.{array_bytes, is_even};
ghost use Rattle.geos_model.specs.Bytes.{same_bytes};
ghost use Rattle.geos_model.specs.Heap.{longest_chunk};
ghost use Rattle.chunk_edits.specs.Runs.{AreRuns};
ghost use Rattle.chunk_arrays.specs.Rewriting.{elements_of, extra_after, rewritten};

use crate::View;
use crate::rewriting::{NewElement, count_after, new_len, table_len};
use chunk_edits::ArrayRuns;

/// Where the bytes of an array change by what `rewrite` makes of it. It takes time in proportion to the extra bytes
/// that others replace.
pub(crate) fn runs_of(
    view: &View<'_>,
    first: &[u8],
    from: usize,
    to: usize,
    new: Option<NewElement<'_>>,
) -> ArrayRuns
    // Which elements go, and what comes.
    requires order { from ≤ to }
    requires within { to ≤ length view.now.array.elements }
    requires one { IsSome new → to ≤ from + 1 }
    requires extra { length first.now ≤ length view.now.array.extra }
    requires even { is_even (rewritten view.now.array (extra_after view.now.array first.now) from to new) ≡ true }
    requires short { length
        (array_bytes (rewritten view.now.array (extra_after view.now.array first.now) from to new)) ≤ longest_chunk }
    ensures { length (array_bytes view.now.array) < 2 ^ 16 → AreRuns (array_bytes view.now.array)
        (array_bytes (rewritten view.now.array (extra_after view.now.array first.now) from to new.entry))
        from to (length (elements_of new.entry)) result }
{
    let count = count_after(view, from, to, new);
    let head = view.place(0);
    let new_head = view.extra().len() + 8 + table_len(view, count);
    let start = view.place(from);
    let gone = view.place(to) - start;
    let come = new_len(new);
    ArrayRuns {
        head: if keeps_head(view, first, count, to, gone == come) {
            None
        } else {
            Some((number(head), number(new_head)))
        },
        at: number(new_head + (start - head)),
        before: number(gone),
        after: number(come),
    }
}

/// Whether the bytes before the elements stay as they are: how many elements there are, the extra bytes, and where the
/// elements behind `to` begin.
fn keeps_head(view: &View<'_>, first: &[u8], count: usize, to: usize, is_as_long: bool) -> bool
    requires { length first.now ≤ length view.now.array.extra }
    ensures { result ≡ (count == length view.now.array.elements) &&
        (same_bytes (take (length first.now) view.now.array.extra) first.now &&
        (to == length view.now.array.elements || is_as_long)) }
{
    count == view.count()
        && &view.extra()[..first.len()] == first
        && (to == view.count() || is_as_long)
}

/// A number below 2^32, which that of bytes of a chunk is.
fn number(n: usize) -> u32
    ensures { n < 2 ^ 32 → result ≡ n }
{
    n.min(0xffff_ffff) as u32
}
