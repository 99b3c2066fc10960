//! Where a change of bytes is kept before it is made.
ghost use Rattle.std.specs.Prelude.{◌<◌, ◌^◌, length, MatchResult};
ghost use Rattle.vm_blocks.specs.ByteChanges.{byte_change};
ghost use Rattle.vm_blocks.specs.declared.change.Change.{Change};

use crate::ByteChange;
use std::alloc::{AllocError, Global};

/// A log to which a change of bytes that are lent is told before it is made, so that it can be taken back.
pub trait Recorder {
    /// That a change can be recorded.
    ghost ready: { Self → Type 0 };

    /// What recording a change makes of it.
    ghost records: { Self → Change → Self → Type 0 };

    /// What it is where there was no memory for that.
    ghost keeps: { Self → Self → Type 0 };

    /// Records a change, or has no memory for it.
    fn record(&mut self, alloc: Global, change: ByteChange<'_>) -> Result<(), AllocError>
        requires ready { ready self.old }
        requires old { length change.old.now < 2 ^ 16 }
        requires new { length change.new.now < 2 ^ 32 }
        ensures { MatchResult result (λ _. records self.old (byte_change change.entry) self.new)
            (λ _. keeps self.old self.new) };
}
