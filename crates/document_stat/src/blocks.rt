//! The blocks of a document, counted.
ghost use Rattle.std.specs.Prelude.{◌≡◌, ◌+◌, ◌-◌, ◌*◌, ◌≤◌, ℕ, true, List, [], ◌∷◌, OnOk, IfErr, length, ◌==◌};
ghost use Rattle.std.specs.BTreeMap.{get};
ghost use Rattle.std.specs.Ordering.{nat_cmp};
ghost use Rattle.std.specs.FinMap.{keys};
ghost use Rattle.geos_model.specs.Heap.{capacity, is_heap_map, table_len};
ghost use Rattle.geos_model.specs.declared.block.Attributes.{Attributes};
ghost use Rattle.geos_model.specs.declared.command.Body.TheVariants as bodies;
ghost use Rattle.document_stat.specs.Counted.{AddsBlocks, IsBlockStat, free_bytes, if_so};
ghost use Rattle.document_stat.specs.Tallies.{AddsIfAny, most_items};

use crate::chunks::ChunkStat;
use crate::tally::{Item, Subject, Tally};
use document_file::Image;
use file_report::read_heap;
use geos_model::{Attributes, CAPACITY, Fault, VmHandle};
use lmem_heap::Heap;
use std::alloc::{AllocError, Global};
use std::collections::BTreeMap;

/// The blocks of a document. A raw block's size is the number of its bytes, and a heap's the number of bytes that it
/// needs of the 65,520 that each heap has.
#[derive(Drop)]
pub struct BlockStat {
    pub raw: Tally,
    pub heaps: Tally,
    /// The heaps of each type of which there are any.
    pub types: BTreeMap<u16, Tally>,
    pub chunks: ChunkStat,
}

// With one more of a type.
fn add_type(types: &mut BTreeMap<u16, Tally>, heap_type: u16, item: Item) -> Result<(), AllocError>
    ensures { OnOk result ((t : ℕ) → AddsIfAny (if_so (heap_type == t) item)
        (get nat_cmp types.old t) (get nat_cmp types.new t)) }
{
    let tally = match types.get(&heap_type) {
        Some(tally) => *tally,
        None => Tally::new(),
    };
    types.insert(heap_type, tally.with(item))?;
    Ok(())
}

impl BlockStat {
    /// That of no blocks.
    pub(crate) fn new(alloc: Global) -> BlockStat
        ensures { IsBlockStat [] result }
    {
        BlockStat {
            raw: Tally::new(),
            heaps: Tally::new(),
            types: BTreeMap::new(alloc),
            chunks: ChunkStat::new(),
        }
    }

    /// How many bytes the heaps don't need of the 65,520 that each of them has.
    pub fn free_bytes(&self) -> u64
        ensures exact { result ≡ free_bytes self.now }
        ensures told { self.now.heaps.count ≤ most_items
            → result ≡ capacity * self.now.heaps.count - self.now.heaps.sum }
    {
        (CAPACITY as u64)
            .saturating_mul(self.heaps.count)
            .saturating_sub(self.heaps.sum)
    }

    fn add_raw(&mut self, block: VmHandle, size: u32)
        ensures { (attributes : Attributes) (bytes : List ℕ) → size ≡ length bytes
            → AddsBlocks ((block.0, record { attributes = attributes; body = bodies.Raw bytes }) ∷ [])
            self.old self.new }
    {
        self.raw = self.raw.with(Item {
            subject: Subject::Block(block),
            size,
        });
    }

    fn add_heap(
        &mut self,
        block: VmHandle,
        heap_type: u16,
        heap: &Heap,
        slots: usize,
    ) -> Result<(), AllocError>
        requires valid { is_heap_map heap.now.chunks ≡ true }
        requires slots { slots ≡ table_len (keys heap.now.chunks) }
        ensures { OnOk result ((attributes : Attributes) → attributes.heap_type ≡ heap_type
            → AddsBlocks ((block.0, record { attributes = attributes; body = bodies.Heap heap.now.chunks }) ∷ [])
            self.old self.new) }
    {
        let item = Item {
            subject: Subject::Block(block),
            size: heap.need(),
        };
        add_type(&mut self.types, heap_type, item)?;
        self.heaps = self.heaps.with(item);
        self.chunks = self.chunks.with_heap(block, heap, slots);
        Ok(())
    }

    /// With one more. Memory.
    pub(crate) fn add(
        &mut self,
        alloc: Global,
        block: VmHandle,
        attributes: Attributes,
        image: &Image,
    ) -> Result<(), Fault>
        ensures ok { OnOk result
            (AddsBlocks ((block.0, record { attributes = attributes; body = image.now }) ∷ []) self.old self.new) }
        ensures err { IfErr result (λ fault. fault ≡ Fault.Memory) }
    {
        image.reveal_invariant();
        let bytes = image.as_slice();
        if !image.is_heap() {
            self.add_raw(block, (bytes.len() - 1) as u32);
            return Ok(());
        }
        let (heap, slots) = read_heap(alloc, bytes)?;
        self.add_heap(block, attributes.heap_type, &heap, slots)?;
        Ok(())
    }
}
