//! What pieces, chunks, a table and a heap take.
ghost use Rattle.std.specs.Prelude.{◌≡◌, ◌<◌};
ghost use Rattle.lmem_heap.specs.Pieces.{piece_space};
ghost use Rattle.lmem_heap.specs.Tiled.{table_end};

use crate::words::HEADER;

/// What a piece takes that holds `n` bytes: they and the word before them, in whole double words.
pub(crate) fn piece_space(n: usize) -> usize
    requires { n < 4294967296 }
    ensures { result ≡ piece_space n }
{
    4 * ((n + 5) / 4)
}

/// Where a table of `t` slots ends.
pub(crate) fn table_end(t: usize) -> usize
    requires { t < 65536 }
    ensures { result ≡ table_end t }
{
    HEADER + 4 * t.div_ceil(2)
}
