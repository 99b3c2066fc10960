//! What is kept of a short step beside its bytes.
ghost use Rattle.std.specs.Prelude.{◌≡◌, ◌<◌, ◌≤◌, ◌^◌, ◌++◌, IfSome, length};
ghost use Rattle.undo_log.specs.Steps.{short_change};
ghost use Rattle.vm_blocks.specs.ByteChanges.{byte_change};

use geos_model::{ChunkHandle, VmHandle};
use std::mem::size_of;
use vm_blocks::ByteChange;

/// Which bytes a change replaces, of which those that go lie in front of those that come in.
#[derive(Clone, Copy)]
pub struct Head {
    pub block: VmHandle,
    /// 0 in a raw block.
    pub chunk: ChunkHandle,
    pub at: u16,
    /// How many go.
    pub cut: u16,
}

/// The most bytes of a short step. More are kept whole: beside them an allocation of their own is little, and it goes
/// back with the step at once.
const MOST_BYTES: usize = 256;

// Millions of short steps may be kept, each in so many bytes beside its own, and in four more of its mark.
const _: () = prove!(size_of::<Head>() <= 8);

impl Head {
    /// The one of a change, if that has few bytes, and its numbers fit.
    pub(crate) fn of(change: ByteChange<'_>) -> Option<Head>
        ensures { IfSome result
            (λ head. short_change head (change.entry.old.now ++ change.entry.new.now) ≡ byte_change change.entry) }
    {
        if change.old.len() + change.new.len() > MOST_BYTES {
            return None;
        }
        let chunk = match change.chunk {
            Some(ChunkHandle(0)) => return None,
            Some(chunk) => chunk,
            None => ChunkHandle(0),
        };
        Some(Head {
            block: change.block,
            chunk,
            at: u16::try_from(change.at).ok()?,
            cut: u16::try_from(change.old.len()).ok()?,
        })
    }

    /// The change that it stands for, with its bytes.
    pub(crate) fn change(self, bytes: &[u8]) -> ByteChange<'_>
        ensures change { byte_change result ≡ short_change self bytes.now }
        ensures old { length result.old.now < 2 ^ 16 }
        ensures new { length result.new.now ≤ length bytes.now }
    {
        let cut = usize::from(self.cut).min(bytes.len());
        ByteChange {
            block: self.block,
            chunk: if self.chunk.0 == 0 {
                None
            } else {
                Some(self.chunk)
            },
            at: u32::from(self.at),
            old: &bytes[..cut],
            new: &bytes[cut..],
        }
    }
}
