//! What chunks and a heap take.
ghost use Rattle.std.specs.Prelude.{◌≡◌, ◌<◌};
ghost use Rattle.geos_model.specs.Heap.{space_of};
ghost use Rattle.heap_images.specs.Slots.{need_of};

/// How many bytes a heap has before its table.
const HEADER: usize = 16;

/// What a chunk of `n` bytes takes: they and the word before them, in whole double words; an empty one takes nothing.
pub fn space_of(n: usize) -> usize
    requires { n < 4294967296 }
    ensures { result ≡ space_of n }
{
    if n == 0 { 0 } else { 4 * ((n + 5) / 4) }
}

/// What a heap with so long a table needs, if its chunks take `space`.
pub fn need_of(slots: usize, space: usize) -> usize
    requires small { slots < 65536 }
    requires room { space < 8589934592 }
    ensures { result ≡ need_of slots space }
{
    HEADER + 4 * slots.div_ceil(2) + space
}
