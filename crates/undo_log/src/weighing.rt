//! How many content bytes changes and entries hold together.
ghost use Rattle.std.specs.Prelude.{◌≡◌, ◌-◌, ◌^◌, min};
ghost use Rattle.std.specs.List.{sum_by};
ghost use Rattle.undo_log.specs.Logging.{entry_weight, total_weight};

use crate::entry::NamedEntry;
use vm_blocks::Change;

/// How many content bytes changes hold together, 2^64 - 1 where these are more.
pub fn total_weight(changes: &[Change]) -> u64
    ensures { result ≡ min (total_weight changes.now) (2 ^ 64 - 1) }
{
    let mut total = 0u64;
    for change in changes.iter() {
        total = total.saturating_add(change.weight());
    }
    total
}

/// How many those of entries hold.
pub fn entries_weight(entries: &[NamedEntry]) -> u64
    ensures { result ≡ min (sum_by (λ e. entry_weight e.entry) entries.now) (2 ^ 64 - 1) }
{
    let mut total = 0u64;
    for entry in entries.iter() {
        total = total.saturating_add(entry.weight());
    }
    total
}
