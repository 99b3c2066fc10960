//! Heaps of images.
ghost use Rattle.std.specs.Prelude.{◌≡◌, ◌≤◌, ◌⊎◌, true, IfOk, IfErr, length};
ghost use Rattle.std.specs.FinMap.{keys};
ghost use Rattle.geos_model.specs.Heap.{ChunkMap, is_heap_map, most_chunks, table_len};
ghost use Rattle.geos_model.specs.Image.{image};
ghost use Rattle.geos_model.specs.Words.{word_at};
ghost use Rattle.geos_model.specs.declared.command.Body.TheVariants as bodies;

use byteorder::{ByteOrder, LittleEndian};
use geos_model::Fault;
use lmem_heap::Heap;
use std::alloc::Global;

// The length of the table that the image of a heap begins with, behind the byte for its kind.
fn table_length(image: &[u8]) -> usize
    requires { 3 ≤ length image.now }
    ensures { result ≡ word_at image.now 1 }
{
    usize::from(LittleEndian::read_u16(&image[1..]))
}

/// The heap of which the bytes are the image, and how many entries its table has. Damaged where they are the image of
/// no heap that fits; Memory.
pub fn read_heap(alloc: Global, bytes: &[u8]) -> Result<(Heap, usize), Fault>
    ensures heap { IfOk result
        (λ p. (image (bodies.Heap p.0.chunks) ≡ bytes.now) × (is_heap_map p.0.chunks ≡ true)) }
    ensures slots { IfOk result (λ p. p.1 ≡ table_len (keys p.0.chunks)) }
    ensures few { IfOk result (λ p. p.1 ≤ most_chunks) }
    ensures err { IfErr result (λ fault. (fault ≡ Fault.Memory) ⊎ ((fault ≡ Fault.Damaged)
        × ((m : ChunkMap) → is_heap_map m ≡ true → image (bodies.Heap m) ≡ bytes.now → ⊥))) }
{
    let heap = Heap::from_image(alloc, bytes)?;
    let slots = table_length(bytes);
    Ok((heap, slots))
}
