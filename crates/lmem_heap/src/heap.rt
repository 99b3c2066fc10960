//! A heap of chunks in a region, seen as finite maps from chunk handles to bytes and to where they lie.
ghost use Rattle.std.specs.Prelude.{◌≡◌, ◌⊎◌, ◌+◌, ◌*◌, ◌≤◌, ◌<◌, ℕ, true, Some, None, IsTrue, IfOk, IfErr, MatchOption, is_some, nat_lt, length, map, drop, replicate};
ghost use Rattle.std.specs.Borrow.{sem};
ghost use Rattle.std.specs.List.{splice};
ghost use Rattle.std.specs.Option.{option_map, option_copied, IfSome};
ghost use Rattle.std.specs.FinMap.{empty, get, insert, remove, keys, contains_key};
ghost use Rattle.geos_model.specs.Heap.{ChunkMap, need, capacity, most_chunks, chunk_bytes, next_chunk, fits_new, fits_with, is_chunk_handle, is_heap_map, space_of, handle_of};
ghost use Rattle.geos_model.specs.Bytes.{resized};
ghost use Rattle.geos_model.specs.Image.{image};
ghost use Rattle.geos_model.specs.declared.command.Body.TheVariants as bodies;
ghost use Rattle.geos_model.proofs.Table.{first_gap};
ghost use Rattle.heap_images.specs.HeapImage.{HasHeapTable};
ghost use Rattle.lmem_heap.specs.Found.{IsFoundIn, handle_found};
ghost use Rattle.lmem_heap.specs.Known.{is_array_of};

use crate::found::FoundChunk;
use crate::image::{image_len, push_chunks, push_sizes, unpack};
use crate::known::{ArrayKind, KnownBytes};
use crate::marks::Marks;
use crate::table::ChunkTable;
use crate::words::{HEADER, NO_CHUNK, SIZE, entry_at, slot_at};
use geos_model::{ChunkHandle, Fault};
use heap_images::{HEAP_KIND, PREFIX, heap_slots, need_of, space_of};
use raw_region::Region;
use std::alloc::{AllocError, Global};
use std::marker::Model;

/// How many chunks a heap can have: so many table entries fill it.
const MOST_CHUNKS: usize = 32_752;

/// Chunks in 65,520 bytes.
#[derive(Drop)]
pub struct Heap {
    table: ChunkTable,
    /// The slots below this one all have chunks.
    gap: usize,
    /// Which slots have chunks that are known to be arrays.
    marks: Marks,
    alloc: Global,
}

impl Model for Heap {
    ghost use Rattle.lmem_heap.specs.Placed.{Placed, placed_code, placed_in};
    ghost use Rattle.heap_images.specs.Slots.{IsCounted};
    ghost use Rattle.lmem_heap.specs.Marks.{AreMarked};

    ghost Value = { Placed };

    ghost coded = { placed_code };

    ghost view = { λ h. placed_in h.table };

    ghost invariant = { λ h. IsCounted h.table.chunks h.gap × AreMarked h.table.chunks h.marks.list.items };
}

impl Heap {
    ghost use Rattle.lmem_heap.specs.LendsHeapChunk.{lends_chunk};
    ghost use Rattle.lmem_heap.specs.Placed.{AreAllLast, AreDisjoint, AreBehindTable, HoldsChunks};

    /// An empty heap.
    pub fn new(alloc: Global) -> Result<Heap, AllocError>
        ensures { IfOk result (λ h. h.chunks ≡ empty) }
    {
        Ok(Heap::of_region(Region::new(alloc)?))
    }

    /// An empty heap, in a region that may have any bytes: none is read before it is written.
    pub fn of_region(region: Region) -> Heap
        ensures { result.chunks ≡ empty }
    {
        let alloc = region.alloc();
        Heap {
            table: ChunkTable::of_region(region),
            gap: 0,
            marks: Marks::new(),
            alloc,
        }
    }

    /// The region, with the bytes of each chunk where `offset` said that they lie.
    pub fn into_region(self) -> Region
        ensures { HoldsChunks result self }
    {
        let Heap {
            table,
            gap: _,
            marks: _,
            alloc: _,
        } = self;
        table.into_region()
    }

    /// How many bytes the heap needs: a header of 16 bytes, two for each table entry up to the greatest live handle,
    /// in whole double words, and each chunk with a word before it, in whole double words; an empty chunk takes nothing
    /// beside its entry.
    pub fn need(&self) -> u32
        ensures { result ≡ need self.now.chunks }
    {
        need_of(self.table.len(), self.table.space()) as u32
    }

    /// Whether a chunk of `n` bytes finds a handle and room.
    pub fn fits_alloc(&self, n: u32) -> bool
        ensures { result ≡ fits_new self.now.chunks (replicate n 0) }
    {
        match self.next_handle() {
            Some(h) => self.fits_at(h, n),
            None => false,
        }
    }

    /// Whether a chunk of `n` bytes under a free handle finds room.
    pub fn fits_at(&self, h: ChunkHandle, n: u32) -> bool
        requires handle { IsTrue (is_chunk_handle h.0) }
        requires free { get self.now.chunks h.0 ≡ None }
        ensures { result ≡ fits_with self.now.chunks h.0 (replicate n 0) }
    {
        let slots = self.table.len().max(slot(h) + 1);
        need_of(slots, self.table.space() + space_of(n as usize)) <= SIZE
    }

    /// Whether a chunk finds room with a size of `n` bytes.
    pub fn fits_resize(&self, h: ChunkHandle, n: u32) -> bool
        requires { IsTrue (contains_key self.now.chunks h.0) }
        ensures { result ≡ fits_with self.now.chunks h.0 (resized (chunk_bytes self.now.chunks h.0) n) }
    {
        self.fits_found(self.find_live(h), n)
    }

    /// So of a chunk that was found.
    pub fn fits_found(&self, found: FoundChunk, n: u32) -> bool
        requires { IsFoundIn self.now found }
        ensures { let h = handle_found found in
            result ≡ fits_with self.now.chunks h (resized (chunk_bytes self.now.chunks h) n) }
    {
        let others = self.table.space() - space_of(found.run.size);
        need_of(self.table.len(), others + space_of(n as usize)) <= SIZE
    }

    /// The chunk of a live handle.
    fn find_live(&self, h: ChunkHandle) -> FoundChunk
        requires { IsTrue (contains_key self.now.chunks h.0) }
        ensures handle { handle_found result ≡ h.0 }
        ensures found { IsFoundIn self.now result }
    {
        self.table.find_live(self.live_slot(h))
    }

    /// The slot of a live handle.
    fn live_slot(&self, h: ChunkHandle) -> usize
        requires { IsTrue (contains_key self.now.chunks h.0) }
        ensures { h.0 ≡ handle_of result }
    {
        // What is always so of a heap is known where one of its fields is named: a live handle has a slot.
        let _ = &self.table;
        slot(h)
    }

    /// The least free handle.
    pub fn next_handle(&self) -> Option<ChunkHandle>
        ensures { option_map (λ h. h.0) result ≡ next_chunk self.now.chunks }
    {
        let i = gap_from(&self.table, self.gap);
        if i < MOST_CHUNKS {
            Some(handle_of(i))
        } else {
            None
        }
    }

    /// A new chunk of `n` zeros, under the least free handle.
    pub fn alloc(&mut self, n: u32) -> ChunkHandle
        requires { IsTrue (fits_new self.old.chunks (replicate n 0)) }
        ensures handle { next_chunk self.old.chunks ≡ Some result.0 }
        ensures chunk { self.new.chunks ≡ insert self.old.chunks result.0 (replicate n 0) }
    {
        let i = gap_from(&self.table, self.gap);
        let h = handle_of(i);
        self.gap = i;
        self.alloc_at(h, n);
        h
    }

    /// A new chunk of `n` zeros, under a free handle.
    pub fn alloc_at(&mut self, h: ChunkHandle, n: u32)
        requires handle { IsTrue (is_chunk_handle h.0) }
        requires free { get self.old.chunks h.0 ≡ None }
        requires fits { IsTrue (fits_with self.old.chunks h.0 (replicate n 0)) }
        ensures { self.new.chunks ≡ insert self.old.chunks h.0 (replicate n 0) }
    {
        let i = slot(h);
        let gap = gap_from(&self.table, self.gap);
        self.table.grow(self.table.len().max(i + 1));
        self.table.place(i, n as usize);
        self.marks.forget(i);
        self.gap = if i == gap { i + 1 } else { gap };
    }

    /// Frees a chunk. The table becomes as short as the greatest live handle lets it be.
    pub fn free(&mut self, h: ChunkHandle)
        requires { IsTrue (contains_key self.old.chunks h.0) }
        ensures chunks { self.new.chunks ≡ remove self.old.chunks h.0 }
        ensures places { self.new.places ≡ remove self.old.places h.0 }
    {
        let gap = self.gap;
        let i = slot(h);
        self.table.vacate(i, NO_CHUNK);
        self.table.trim();
        self.marks.forget(i);
        self.gap = gap.min(i).min(self.table.len());
    }

    /// Cuts a chunk at its end, or adds zeros there, so that it has `n` bytes.
    pub fn resize(&mut self, h: ChunkHandle, n: u32)
        requires live { IsTrue (contains_key self.old.chunks h.0) }
        requires fits { IsTrue (fits_with self.old.chunks h.0 (resized (chunk_bytes self.old.chunks h.0) n)) }
        ensures { self.new.chunks ≡ insert self.old.chunks h.0 (resized (chunk_bytes self.old.chunks h.0) n) }
    {
        let i = self.live_slot(h);
        self.table.resize(i, n as usize);
        self.marks.forget(i);
    }

    /// Puts `new` in the place of the `k` bytes from `at` on of a chunk; what stands behind them slides.
    pub fn replace(&mut self, h: ChunkHandle, at: usize, k: usize, new: &[u8])
        requires live { IsTrue (contains_key self.old.chunks h.0) }
        requires range { at + k ≤ length (chunk_bytes self.old.chunks h.0) }
        requires fits { IsTrue
            (fits_with self.old.chunks h.0 (splice (chunk_bytes self.old.chunks h.0) at (at + k) new.now)) }
        ensures { self.new.chunks ≡
            insert self.old.chunks h.0 (splice (chunk_bytes self.old.chunks h.0) at (at + k) new.now) }
    {
        let found = self.find_live(h);
        self.replace_found(found, at, k, new);
    }

    /// So in a chunk that was found. Where as many bytes come as go, they are written over where they lie.
    #[inline(always)]
    pub fn replace_found(&mut self, found: FoundChunk, at: usize, k: usize, new: &[u8])
        requires found { IsFoundIn self.old found }
        requires range { at + k ≤ length (chunk_bytes self.old.chunks (handle_found found)) }
        requires fits { let h = handle_found found in IsTrue
            (fits_with self.old.chunks h (splice (chunk_bytes self.old.chunks h) at (at + k) new.now)) }
        ensures { let h = handle_found found in self.new.chunks ≡
            insert self.old.chunks h (splice (chunk_bytes self.old.chunks h) at (at + k) new.now) }
    {
        self.table.replace(found, at, k, new);
        self.marks.forget(found.slot);
    }

    /// Joins all free room into one piece. The chunks stay as they are.
    pub fn contract(&mut self)
        ensures chunks { self.new.chunks ≡ self.old.chunks }
        ensures last { AreAllLast self.new }
    {
        self.table.pack();
    }

    /// Where the bytes of a chunk stand in the heap's region; None where there is no such chunk, or it has no bytes. A
    /// call that makes or resizes a chunk may move others, and so may `contract`. `free` and `write` move none, nor
    /// does what is written through `chunk_mut`.
    pub fn offset(&self, h: ChunkHandle) -> Option<usize>
        ensures place { result ≡ get self.now.places h.0 }
        ensures there { is_some result ≡ nat_lt 0 (length (chunk_bytes self.now.chunks h.0)) }
        ensures within { IfSome result (λ at. at + length (chunk_bytes self.now.chunks h.0) ≤ capacity) }
        ensures apart { AreDisjoint self.now }
        ensures behind { AreBehindTable self.now }
    {
        let i = slot_of(h, self.table.len())?;
        self.table.offset(i)
    }

    /// A chunk, to be read, tested and changed with no further look-up; None where there is no such chunk. What was
    /// found serves until the heap changes.
    pub fn find_chunk(&self, h: ChunkHandle) -> Option<FoundChunk>
        ensures value { MatchOption result (get self.now.chunks h.0 ≡ None)
            (λ found. (handle_found found ≡ h.0) × IsFoundIn self.now found) }
        ensures valid { is_heap_map self.now.chunks ≡ true }
    {
        let i = slot_of(h, self.table.len())?;
        self.table.find(i)
    }

    /// The bytes of a chunk that was found.
    pub fn found_bytes(&self, found: FoundChunk) -> &[u8]
        requires { IsFoundIn self.now found }
        ensures { result.now ≡ chunk_bytes self.now.chunks (handle_found found) }
    {
        self.table.bytes(found)
    }

    /// The bytes of a chunk.
    pub fn chunk(&self, h: ChunkHandle) -> Option<&[u8]>
        ensures value { option_copied result ≡ get self.now.chunks h.0 }
        ensures valid { is_heap_map self.now.chunks ≡ true }
    {
        let i = slot_of(h, self.table.len())?;
        self.table.chunk(i)
    }

    /// The bytes of a chunk, with the kind that `mark_array` was last given for it, while the mark is kept. The time
    /// that this takes doesn't grow with the heap.
    pub fn known_chunk(&self, h: ChunkHandle) -> Option<KnownBytes<'_>>
        ensures value { result ≡ get self.now.chunks h.0 }
        ensures valid { is_heap_map self.now.chunks ≡ true }
    {
        let i = slot_of(h, self.table.len())?;
        let bytes = self.table.chunk(i)?;
        Some(KnownBytes::of_kind(bytes, self.marks.kind_of(i)))
    }

    /// Keeps in mind that a chunk is an array of a kind, until it is changed or freed. A heap has room for eight such
    /// marks, and a further one takes the place of the oldest. No memory is taken.
    pub fn mark_array(&mut self, h: ChunkHandle, kind: ArrayKind)
        requires live { IsTrue (contains_key self.old.chunks h.0) }
        requires array { is_array_of kind (chunk_bytes self.old.chunks h.0) ≡ true }
        ensures { self.new ≡ self.old }
    {
        let i = self.live_slot(h);
        self.marks.set(i, kind);
    }

    /// The bytes of a chunk, to be written.
    pub fn chunk_mut(&mut self, h: ChunkHandle) -> &mut [u8]
        requires { IsTrue (contains_key self.old.chunks h.0) }
        ensures* writes_back { sem 𝓛 (lends_chunk self.entry h.0 result) }
        ensures value { result.now ≡ chunk_bytes self.old.chunks h.0 }
    {
        let i = self.live_slot(h);
        self.marks.forget(i);
        self.table.chunk_mut(i)
    }

    /// Writes over the bytes of a chunk from `at` on.
    pub fn write(&mut self, h: ChunkHandle, at: usize, bytes: &[u8])
        requires live { IsTrue (contains_key self.old.chunks h.0) }
        requires range { at + length bytes.now ≤ length (chunk_bytes self.old.chunks h.0) }
        ensures chunks { self.new.chunks ≡
            insert self.old.chunks h.0 (splice (chunk_bytes self.old.chunks h.0) at (at + length bytes.now) bytes.now) }
        ensures places { self.new.places ≡ self.old.places }
    {
        let i = self.live_slot(h);
        self.table.write(i, at, bytes);
        self.marks.forget(i);
    }

    /// The live handles, rising.
    pub fn handles(&self) -> Result<Vec<ChunkHandle>, AllocError>
        ensures { IfOk result (λ handles. map (λ h. h.0) handles.items ≡ keys self.now.chunks) }
    {
        let mut handles = Vec::new(self.alloc);
        for i in 0..self.table.len() {
            if self.table.has_chunk(i) {
                handles.push(handle_of(i))?;
            }
        }
        Ok(handles)
    }

    /// The heap as bytes, from which `from_image` makes it again.
    pub fn image(&self) -> Result<Vec<u8>, AllocError>
        ensures bytes { IfOk result (λ bytes. bytes.items ≡ image (bodies.Heap self.now.chunks)) }
        ensures valid { is_heap_map self.now.chunks ≡ true }
    {
        let slots = self.table.len();
        let mut image = Vec::with_capacity(self.alloc, image_len(&self.table))?;
        image.push(HEAP_KIND)?;
        image.extend_from_slice((slots as u16).to_le_bytes().as_slice())?;
        push_sizes(&self.table, &mut image)?;
        push_chunks(&self.table, &mut image)?;
        Ok(image)
    }

    /// The heap of which the bytes are the image. Damaged where they are the image of no heap that fits.
    pub fn from_image(alloc: Global, bytes: &[u8]) -> Result<Heap, Fault>
        ensures ok { IfOk result (λ h. (image (bodies.Heap h.chunks) ≡ bytes.now) × (is_heap_map h.chunks ≡ true)) }
        ensures err { IfErr result (λ fault. (fault ≡ Fault.Memory)
            ⊎ ((fault ≡ Fault.Damaged) ×
            ((m : ChunkMap) → is_heap_map m ≡ true → image (bodies.Heap m) ≡ bytes.now → ⊥))) }
    {
        let slots = match heap_slots(bytes) {
            Some(slots) => slots,
            None => return Err(Fault::Damaged),
        };
        match Region::new(alloc) {
            Ok(region) => Ok(Heap::unpacked(region, bytes, slots)),
            Err(_) => Err(Fault::Memory),
        }
    }

    /// The same, in a region that may have any bytes, which is given back where they are the image of no heap that
    /// fits. No memory is taken.
    pub fn of_image(region: Region, bytes: &[u8]) -> Result<Heap, Region>
        ensures ok { IfOk result (λ h. (image (bodies.Heap h.chunks) ≡ bytes.now) × (is_heap_map h.chunks ≡ true)) }
        ensures err { IfErr result (λ r. (r ≡ region) ×
            ((m : ChunkMap) → is_heap_map m ≡ true → image (bodies.Heap m) ≡ bytes.now → ⊥)) }
    {
        match heap_slots(bytes) {
            Some(slots) => Ok(Heap::unpacked(region, bytes, slots)),
            None => Err(region),
        }
    }

    /// The heap of which the bytes are the image, with so long a table.
    fn unpacked(region: Region, bytes: &[u8], slots: usize) -> Heap
        requires { HasHeapTable slots bytes.now }
        ensures image { image (bodies.Heap result.chunks) ≡ bytes.now }
        ensures valid { is_heap_map result.chunks ≡ true }
    {
        let alloc = region.alloc();
        let table = unpack(region, &bytes[PREFIX..], slots);
        let gap = gap_from(&table, 0);
        Heap {
            table,
            gap,
            marks: Marks::new(),
            alloc,
        }
    }
}

/// The handle of a slot.
fn handle_of(i: usize) -> ChunkHandle
    requires { i < most_chunks }
    ensures { result.0 ≡ handle_of i }
{
    ChunkHandle(entry_at(i) as u16)
}

/// The slot of a handle, in a table this long.
fn slot_of(h: ChunkHandle, slots: usize) -> Option<usize>
    ensures { MatchOption result
        ((i : ℕ) → i < slots → h.0 ≡ handle_of i → ⊥)
        (λ i. (i < slots) × (h.0 ≡ handle_of i)) }
{
    let offset = h.0 as usize;
    if offset < HEADER || offset % 2 == 1 {
        return None;
    }
    let i = slot_at(offset);
    if i < slots { Some(i) } else { None }
}

/// The slot of a handle that a chunk can have.
fn slot(h: ChunkHandle) -> usize
    requires { IsTrue (is_chunk_handle h.0) }
    ensures at { h.0 ≡ handle_of result }
    ensures within { result < most_chunks }
{
    slot_at(h.0 as usize)
}

/// The first slot from `start` on that has no chunk, or the table's length.
fn gap_from(table: &ChunkTable, start: usize) -> usize
    requires { start ≤ length table.now.chunks }
    ensures { result ≡ start + first_gap (drop start table.now.chunks) }
{
    for i in start..table.len() {
        if !table.has_chunk(i) {
            return i;
        }
    }
    table.len()
}
