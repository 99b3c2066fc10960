//! Chunks that a heap knows to be arrays: which marks are kept, and until when.
ghost use Rattle.std.specs.Prelude.{◌≡◌, true, IsTrue};
ghost use Rattle.std.specs.FinMap.{contains_key};
ghost use Rattle.geos_model.specs.Heap.{chunk_bytes};
ghost use Rattle.lmem_heap.specs.Known.{is_array_of};

use element_arrays::is_element_array;
use geos_model::ChunkHandle;
use lmem_heap::{ArrayKind, Heap};
use std::test::Fail;

// An element array: the element 61 with two references, and a free one.
const ELEMENTS: &[u8] = &[
    2, 0, 0, 0, 0, 0, 10, 0, 1, 0, 14, 0, 18, 0, 2, 0, 0, 0x61, 255, 255, 255,
];

// A new chunk, where it fits.
fn added(heap: &mut Heap, n: u32) -> Option<ChunkHandle> {
    if heap.fits_alloc(n) {
        Some(heap.alloc(n))
    } else {
        None
    }
}

// Bytes are copied over those of a chunk of as many.
fn copied(heap: &mut Heap, chunk: ChunkHandle, bytes: &[u8]) -> bool {
    if heap.chunk(chunk).is_none() {
        return false;
    }
    let place = heap.chunk_mut(chunk);
    if place.len() != bytes.len() {
        return false;
    }
    place.copy_from_slice(bytes);
    true
}

// A chunk that is freed.
fn freed(heap: &mut Heap, chunk: ChunkHandle) -> bool {
    if heap.chunk(chunk).is_none() {
        return false;
    }
    heap.free(chunk);
    true
}

// One that gets another size, where it fits.
fn resized(heap: &mut Heap, chunk: ChunkHandle, n: u32) -> bool {
    if heap.chunk(chunk).is_none() || !heap.fits_resize(chunk, n) {
        return false;
    }
    heap.resize(chunk, n);
    true
}

// Whether a chunk is an element array.
fn is_element_chunk(heap: &Heap, chunk: ChunkHandle) -> bool
    ensures live { result ≡ true → IsTrue (contains_key heap.now.chunks chunk.0) }
    ensures array { result ≡ true → is_array_of ArrayKind.Element (chunk_bytes heap.now.chunks chunk.0) ≡ true }
{
    match heap.known_chunk(chunk) {
        Some(bytes) => is_element_array(&bytes),
        None => false,
    }
}

// An element array is marked.
fn marked(heap: &mut Heap, chunk: ChunkHandle) -> bool {
    if !is_element_chunk(heap, chunk) {
        return false;
    }
    heap.mark_array(chunk, ArrayKind::Element);
    true
}

// A new chunk with an element array that is marked.
fn marked_chunk(heap: &mut Heap) -> Option<ChunkHandle> {
    let chunk = added(heap, ELEMENTS.len() as u32)?;
    if copied(heap, chunk, ELEMENTS) && marked(heap, chunk) {
        Some(chunk)
    } else {
        None
    }
}

// What a heap keeps in mind of a chunk.
fn is_marked(heap: &Heap, chunk: ChunkHandle) -> bool {
    match heap.known_chunk(chunk) {
        Some(bytes) => bytes.is_known(ArrayKind::Element),
        None => false,
    }
}

#[test]
fn a_mark_goes_with_a_change_of_its_chunk_alone(rt: HostRuntime) -> Result<(), Fail> {
    let mut heap = Heap::new(rt.alloc())?;
    let first = marked_chunk(&mut heap).ok_or("no room")?;
    let second = marked_chunk(&mut heap).ok_or("no room")?;
    assert!(rt; copied(&mut heap, first, ELEMENTS));
    assert!(rt; !is_marked(&heap, first) && is_marked(&heap, second));
    assert!(rt; marked(&mut heap, first) && is_marked(&heap, first));
    assert!(rt; resized(&mut heap, second, ELEMENTS.len() as u32));
    assert!(rt; is_marked(&heap, first) && !is_marked(&heap, second));
    assert!(rt; marked(&mut heap, second));
    heap.contract();
    assert!(rt; freed(&mut heap, first));
    assert!(rt; added(&mut heap, 3) == Some(first));
    assert!(rt; !is_marked(&heap, first) && is_marked(&heap, second));
    Ok(())
}

#[test]
fn a_ninth_mark_takes_the_place_of_the_oldest(rt: HostRuntime) -> Result<(), Fail> {
    let mut heap = Heap::new(rt.alloc())?;
    let first = marked_chunk(&mut heap).ok_or("no room")?;
    let second = marked_chunk(&mut heap).ok_or("no room")?;
    for _ in 0..6 {
        assert!(rt; marked_chunk(&mut heap).is_some());
    }
    assert!(rt; is_marked(&heap, first) && is_marked(&heap, second));
    let last = marked_chunk(&mut heap).ok_or("no room")?;
    assert!(rt; !is_marked(&heap, first));
    assert!(rt; is_marked(&heap, second) && is_marked(&heap, last));
    Ok(())
}
