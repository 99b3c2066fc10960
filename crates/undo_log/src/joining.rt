//! Two entries that become one.
ghost use Rattle.std.specs.Prelude.{◌≡◌, MatchResult};
ghost use Rattle.undo_log.specs.Joining.{joined};

use crate::entry::{Changes, NamedEntry};
use std::alloc::Global;

/// Two entries that stayed apart.
#[derive(Drop)]
pub struct Apart {
    pub older: NamedEntry,
    pub newer: NamedEntry,
}

/// One entry of two, in time by how many changes the newer one has. Where there is no memory both come back.
pub fn join(alloc: Global, older: NamedEntry, newer: NamedEntry) -> Result<NamedEntry, Apart>
    ensures { MatchResult result
        (λ entry. entry ≡ joined newer older)
        (λ apart. (apart.older ≡ older) × (apart.newer ≡ newer)) }
{
    match older.into_stack(alloc, newer.len()) {
        Ok((mut stack, older_name)) => {
            let newer_name = newer.move_onto(alloc, &mut stack);
            let name = if newer_name.is_empty() {
                older_name
            } else {
                newer_name
            };
            Ok(NamedEntry::group(Changes::new(stack), name))
        }
        Err(older) => Err(Apart { older, newer }),
    }
}
