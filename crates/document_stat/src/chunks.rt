//! The chunks of heaps, counted, and the arrays in them.
ghost use Rattle.std.specs.Prelude.{◌≡◌, ◌≤◌, ◌<◌, true, [], ◌∷◌, length};
ghost use Rattle.std.specs.FinMap.{entries, get, keys};
ghost use Rattle.geos_model.specs.Heap.{handle_of, is_heap_map, most_chunks, table_len};
ghost use Rattle.document_stat.specs.Arrays.{element_count, kind_of_array};
ghost use Rattle.document_stat.specs.Counted.{AddsArray, AddsChunks, chunks_under, tally_of};
ghost use Rattle.document_stat.specs.Tallies.{IsTally};
ghost use Rattle.lmem_heap.specs.declared.known.ArrayKind.{ArrayKind};

use crate::arrays::read_array;
use crate::tally::{Item, Subject, Tally};
use geos_model::{ChunkHandle, VmHandle};
use lmem_heap::{ArrayKind, Heap};

/// The chunks that read as arrays, by what they read as. An array's size is the number of its elements, free ones too.
#[derive(Clone, Copy)]
pub struct ArrayStat {
    pub chunk: Tally,
    pub element: Tally,
    pub name: Tally,
}

/// The chunks of heaps. A chunk's size is the number of its bytes.
#[derive(Clone, Copy)]
pub struct ChunkStat {
    pub all: Tally,
    pub arrays: ArrayStat,
}

impl ArrayStat {
    fn new() -> ArrayStat
        ensures { (kind : ArrayKind) → IsTally [] (tally_of kind result) }
    {
        ArrayStat {
            chunk: Tally::new(),
            element: Tally::new(),
            name: Tally::new(),
        }
    }

    fn with(self, kind: ArrayKind, item: Item) -> ArrayStat
        ensures { AddsArray (Some kind) item self result }
    {
        match kind {
            ArrayKind::Chunk => ArrayStat {
                chunk: self.chunk.with(item),
                ..self
            },
            ArrayKind::Element => ArrayStat {
                element: self.element.with(item),
                ..self
            },
            ArrayKind::Name => ArrayStat {
                name: self.name.with(item),
                ..self
            },
        }
    }

    // With the array that a chunk's bytes read as, if any.
    fn with_bytes(self, subject: Subject, bytes: &[u8]) -> ArrayStat
        ensures { AddsArray (kind_of_array bytes.now) (record { subject = subject; size = element_count bytes.now })
            self result }
    {
        match read_array(bytes) {
            Some((kind, elements)) => self.with(
                kind,
                Item {
                    subject,
                    size: elements,
                },
            ),
            None => self,
        }
    }
}

impl ChunkStat {
    /// That of no chunks.
    pub(crate) fn new() -> ChunkStat
        ensures all { IsTally [] result.all }
        ensures arrays { (kind : ArrayKind) → IsTally [] (tally_of kind result.arrays) }
    {
        ChunkStat {
            all: Tally::new(),
            arrays: ArrayStat::new(),
        }
    }

    fn with(self, block: VmHandle, chunk: ChunkHandle, bytes: &[u8]) -> ChunkStat
        requires { length bytes.now < 65536 }
        ensures { AddsChunks block.0 ((chunk.0, bytes.now) ∷ []) self result }
    {
        let subject = Subject::Chunk(block, chunk);
        let item = Item {
            subject,
            size: bytes.len() as u32,
        };
        ChunkStat {
            all: self.all.with(item),
            arrays: self.arrays.with_bytes(subject, bytes),
        }
    }

    // With what is under the handle of a table entry.
    fn with_entry(self, block: VmHandle, heap: &Heap, i: usize) -> ChunkStat
        requires { i < most_chunks }
        ensures { AddsChunks block.0 (chunks_under (handle_of i) (get heap.now.chunks (handle_of i))) self result }
    {
        let chunk = ChunkHandle((16 + 2 * i) as u16);
        match heap.chunk(chunk) {
            Some(bytes) => self.with(block, chunk, bytes),
            None => self,
        }
    }

    /// With the chunks of a heap, whose table is so long.
    pub(crate) fn with_heap(self, block: VmHandle, heap: &Heap, slots: usize) -> ChunkStat
        requires valid { is_heap_map heap.now.chunks ≡ true }
        requires slots { slots ≡ table_len (keys heap.now.chunks) }
        ensures { AddsChunks block.0 (entries heap.now.chunks) self result }
    {
        let mut stat = self;
        for i in 0..slots {
            stat = stat.with_entry(block, heap, i);
        }
        stat
    }
}
