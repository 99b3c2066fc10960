//! What is kept of each record in one row, beside its bytes or its value.
ghost use Rattle.std.specs.Prelude.{◌≡◌};
ghost use Rattle.packed_log.specs.Marks.{mark_bytes, mark_wholes};

use std::mem::size_of;

/// A record as it is marked.
#[derive(Clone, Copy)]
pub(crate) enum Mark<H> {
    /// It is the next value of the wholes.
    Whole,
    /// It has a head, and is so many bytes more of the row of bytes.
    Short { len: u16, head: H },
}

// Few bytes are taken for a short record beside its own.
const _: () = prove!(size_of::<Mark<[u16; 4]>>() <= 12);

impl<H: Copy> Mark<H> {
    /// How many bytes the record has.
    pub(crate) fn bytes(self) -> usize
        ensures { result ≡ mark_bytes self }
    {
        match self {
            Mark::Whole => 0,
            Mark::Short { len, head: _ } => len as usize,
        }
    }

    /// How many values it has: one or none.
    pub(crate) fn wholes(self) -> usize
        ensures { result ≡ mark_wholes self }
    {
        match self {
            Mark::Whole => 1,
            Mark::Short { len: _, head: _ } => 0,
        }
    }
}
