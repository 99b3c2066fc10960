//! Room for more items.
ghost use Rattle.std.specs.Prelude.{◌≡◌, ◌+◌, ◌≤◌, OnErr, OnOk, vec_len, vec_capacity};

use std::alloc::AllocError;

/// Makes room for so many items more. Where it lacks, the vector grows by a quarter at least: what is kept for long has
/// little room to spare.
// Inlined, since there mostly is room.
#[inline(always)]
pub(crate) fn reserve<T>(items: &mut Vec<T>, count: usize) -> Result<(), AllocError>
    ensures items { items.new.items ≡ items.old.items }
    ensures len { vec_len items.new ≡ vec_len items.old }
    ensures ok { OnOk result (vec_len items.new + count ≤ vec_capacity items.new) }
    ensures capacity { vec_capacity items.old ≤ vec_capacity items.new }
    ensures err { OnErr result (vec_capacity items.new ≡ vec_capacity items.old) }
{
    if count <= items.capacity() - items.len() {
        return Ok(());
    }
    grow(items, count)
}

// Where there is none.
#[cold]
#[inline(never)]
fn grow<T>(items: &mut Vec<T>, count: usize) -> Result<(), AllocError>
    ensures items { items.new.items ≡ items.old.items }
    ensures len { vec_len items.new ≡ vec_len items.old }
    ensures ok { OnOk result (vec_len items.new + count ≤ vec_capacity items.new) }
    ensures capacity { vec_capacity items.old ≤ vec_capacity items.new }
    ensures err { OnErr result (vec_capacity items.new ≡ vec_capacity items.old) }
{
    items.reserve_exact(count.max(items.len() / 4 + 4))
}
