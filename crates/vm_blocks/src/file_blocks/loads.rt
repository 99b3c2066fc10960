//! Blocks that come into memory.
ghost use Rattle.std.specs.Prelude.{◌≡◌, ◌⊎◌, ◌<◌, ◌∷◌, ℕ, Ok, Err, true, false, cond, nat_lt, length, is_some, IsOk, IfErr, OnOk, OnErr, MatchOption};
ghost use Rattle.std.specs.FinMap.{contains_key};
ghost use Rattle.geos_model.specs.Document.{chunks_of, is_heap, is_raw, is_live, raw_bytes_of};
ghost use Rattle.geos_model.specs.Heap.{chunk_bytes};
ghost use Rattle.lmem_heap.specs.Known.{is_array_of};
ghost use Rattle.raw_region.specs.Roots.{is_large_root};
ghost use Rattle.document_file.specs.Effects.{Fails, NoFault, IsDamage};
ghost use Rattle.vm_blocks.specs.State.{is_resident, all_frames_locked, after_load, evicted, victim, KeepsDocument};
ghost use Rattle.vm_blocks.specs.Keeping.{KeepsBlocks, IsEnvironmentFault, IsCacheFull, is_loaded, has_no_frame_for};
ghost use Rattle.vm_blocks.specs.Kinds.{IsWrongBlock};

use super::FileBlocks;
use crate::frame::{Frame, mark_array, mark_root, use_again, victim};
use crate::transfers::{read_body, write_back};
use geos_model::{ChunkHandle, Fault, VmHandle};
use lmem_heap::ArrayKind;
use raw_region::Region;
use vm_store::Store;

impl<S: Store> FileBlocks<S> {
    /// Brings a block into memory; where all frames are taken, that one of the blocks that aren't locked goes which was
    /// used least recently. NoBlock where it isn't live; CacheFull where each frame has a locked block, and it isn't
    /// one of them: then nothing changes. Memory, File; Damaged where what is read is no body, which an honest store
    /// never gives. For a block that is in memory it takes no memory, calls no store and isn't refused.
    pub fn load(&mut self, handle: VmHandle) -> Result<(), Fault>
        ensures keeps { KeepsBlocks S.facts self.old self.new }
        ensures ok { OnOk result (is_loaded self.new handle.0 ≡ true) }
        ensures err { IfErr result (λ fault. IsEnvironmentFault S.facts self.old.disk.store self.new.disk.store fault
            ⊎ (((fault ≡ Fault.NoBlock) × (is_live self.new.document handle.0 ≡ false))
            ⊎ IsCacheFull self.old handle.0 fault)) }
        ensures already { is_loaded self.old handle.0 ≡ true
            → IsOk result × (self.new.disk ≡ self.old.disk) × (self.new.document ≡ self.old.document) }
        ensures dead { is_live self.old.document handle.0 ≡ false
            → (result ≡ Err Fault.NoBlock) × (self.new ≡ self.old) }
        ensures shut { is_live self.old.document handle.0 ≡ true → has_no_frame_for self.old handle.0 ≡ true
            → (result ≡ Err Fault.CacheFull) × (self.new ≡ self.old) }
    {
        if self.is_live(handle) {
            self.load_live(handle)
        } else {
            Err(Fault::NoBlock)
        }
    }

    /// Brings a raw block into memory, as `load` does. WrongKind where it is a heap: then, and where it isn't live, no
    /// memory is taken and no store is called.
    pub fn load_raw(&mut self, handle: VmHandle) -> Result<(), Fault>
        ensures keeps { KeepsBlocks S.facts self.old self.new }
        ensures ok { OnOk result ((is_loaded self.new handle.0 ≡ true) × (is_raw self.new.document handle.0 ≡ true)) }
        ensures err { IfErr result (λ fault. IsEnvironmentFault S.facts self.old.disk.store self.new.disk.store fault
            ⊎ (IsWrongBlock is_raw self.new.document handle.0 fault ⊎ IsCacheFull self.old handle.0 fault)) }
        ensures already { is_loaded self.old handle.0 ≡ true → is_raw self.old.document handle.0 ≡ true
            → IsOk result × (self.new.disk ≡ self.old.disk) × (self.new.document ≡ self.old.document) }
        ensures early { (fault : Fault) → IsWrongBlock is_raw self.old.document handle.0 fault
            → (result ≡ Err fault) × (self.new ≡ self.old) }
        ensures shut { is_raw self.old.document handle.0 ≡ true → has_no_frame_for self.old handle.0 ≡ true
            → (result ≡ Err Fault.CacheFull) × (self.new ≡ self.old) }
    {
        let Some(is_heap) = self.kind(handle) else {
            return Err(Fault::NoBlock);
        };
        if is_heap {
            return Err(Fault::WrongKind);
        }
        self.load_live(handle)
    }

    /// Brings a heap into memory, as `load` does. WrongKind where the block is raw: then, and where it isn't live, no
    /// memory is taken and no store is called.
    pub fn load_heap(&mut self, handle: VmHandle) -> Result<(), Fault>
        ensures keeps { KeepsBlocks S.facts self.old self.new }
        ensures ok { OnOk result ((is_loaded self.new handle.0 ≡ true) × (is_heap self.new.document handle.0 ≡ true)) }
        ensures err { IfErr result (λ fault. IsEnvironmentFault S.facts self.old.disk.store self.new.disk.store fault
            ⊎ (IsWrongBlock is_heap self.new.document handle.0 fault ⊎ IsCacheFull self.old handle.0 fault)) }
        ensures already { is_loaded self.old handle.0 ≡ true → is_heap self.old.document handle.0 ≡ true
            → IsOk result × (self.new.disk ≡ self.old.disk) × (self.new.document ≡ self.old.document) }
        ensures early { (fault : Fault) → IsWrongBlock is_heap self.old.document handle.0 fault
            → (result ≡ Err fault) × (self.new ≡ self.old) }
        ensures shut { is_heap self.old.document handle.0 ≡ true → has_no_frame_for self.old handle.0 ≡ true
            → (result ≡ Err Fault.CacheFull) × (self.new ≡ self.old) }
    {
        let Some(is_heap) = self.kind(handle) else {
            return Err(Fault::NoBlock);
        };
        if !is_heap {
            return Err(Fault::WrongKind);
        }
        self.load_live(handle)
    }

    /// Whether the block under a handle is a heap; none where no block is live there.
    pub(crate) fn kind(&self, handle: VmHandle) -> Option<bool>
        ensures { MatchOption result (is_live self.now.document handle.0 ≡ false)
            (λ kind. (is_live self.now.document handle.0 ≡ true)
            × (is_heap self.now.document handle.0 ≡ kind)) }
    {
        match self.file.entry(handle) {
            Some(place) => Some(place.is_heap),
            None => None,
        }
    }

    /// Brings a live block into memory, if it isn't shut out, and makes it the most recently used.
    // Inlined, since most blocks are the one that was used last, for which it is a comparison.
    #[inline(always)]
    pub(crate) fn load_live(&mut self, handle: VmHandle) -> Result<(), Fault>
        requires { is_live self.old.document handle.0 ≡ true }
        ensures keeps { KeepsBlocks S.facts self.old self.new }
        ensures ok { OnOk result (is_loaded self.new handle.0 ≡ true) }
        ensures err { IfErr result (λ fault. IsEnvironmentFault S.facts self.old.disk.store self.new.disk.store fault
            ⊎ IsCacheFull self.old handle.0 fault) }
        ensures already { is_loaded self.old handle.0 ≡ true
            → IsOk result × (self.new.disk ≡ self.old.disk) × (self.new.document ≡ self.old.document) }
        ensures stay { is_loaded self.old handle.0 ≡ true
            → (h : ℕ) → is_loaded self.old h ≡ true → is_loaded self.new h ≡ true }
        ensures shut { has_no_frame_for self.old handle.0 ≡ true → (result ≡ Err Fault.CacheFull)
            × (self.new ≡ self.old) }
        // The order of use.
        ensures order { OnOk result (self.new.resident ≡ after_load self.old.frames handle.0 self.old.resident) }
        ensures less { OnErr result
            ((self.new.resident ≡ self.old.resident) ⊎ (self.new.resident ≡ evicted self.old.resident)) }
    {
        self.reveal_invariant();
        let _count = self.frames.len();
        if use_again(&mut self.frames, handle.0) {
            return Ok(());
        }
        if self.all_locked() {
            return Err(Fault::CacheFull);
        }
        self.bring(handle)
    }

    // Brings a block into memory that isn't there, and frees a frame for it if each one is taken. Refused as `fetch`
    // is.
    #[inline(never)]
    fn bring(&mut self, handle: VmHandle) -> Result<(), Fault>
        // Asked of the caller.
        requires live { is_live self.old.document handle.0 ≡ true }
        requires absent { is_resident self.old.resident handle.0 ≡ false }
        requires room { all_frames_locked self.old.frames self.old.resident ≡ false }
        // What is done.
        ensures stays { KeepsDocument S.facts self.old self.new }
        ensures ok { OnOk result (self.new.resident ≡ (handle.0, 0) ∷ cond
            (nat_lt (length self.old.resident) self.old.frames) self.old.resident (evicted self.old.resident)) }
        ensures err { OnErr result
            ((self.new.resident ≡ self.old.resident) ⊎ (self.new.resident ≡ evicted self.old.resident)) }
        // Refusals.
        ensures fails { Fails S.facts
            (IsDamage (S.facts self.old.disk.store).honest) self.old.disk.store self.new.disk.store result }
    {
        let region = self.make_room()?;
        self.fetch(handle, region)
    }

    // Frees a frame, if each one is taken. The region for the block that comes is that of the block that goes, or else
    // a new one. Memory, File.
    fn make_room(&mut self) -> Result<Region, Fault>
        requires { all_frames_locked self.old.frames self.old.resident ≡ false }
        ensures stays { KeepsDocument S.facts self.old self.new }
        ensures ok { OnOk result (self.new.resident ≡ cond
            (nat_lt (length self.old.resident) self.old.frames) self.old.resident (evicted self.old.resident)) }
        ensures room { OnOk result (length self.new.resident < self.new.frames) }
        ensures err { OnErr result (self.new.resident ≡ self.old.resident) }
        ensures fails { Fails S.facts NoFault self.old.disk.store self.new.disk.store result }
    {
        if self.frames.len() < self.frames.cap().get() {
            return Ok(Region::new(self.alloc)?);
        }
        self.evict()
    }

    // Frees the frame of the least recently used block that isn't locked, and gives its region. Memory, File.
    fn evict(&mut self) -> Result<Region, Fault>
        requires { is_some (victim self.old.resident) ≡ true }
        ensures stays { KeepsDocument S.facts self.old self.new }
        ensures ok { OnOk result (self.new.resident ≡ evicted self.old.resident) }
        ensures fewer { OnOk result (length self.new.resident < length self.old.resident) }
        ensures err { OnErr result (self.new.resident ≡ self.old.resident) }
        ensures fails { Fails S.facts NoFault self.old.disk.store self.new.disk.store result }
    {
        let block = victim(&self.frames).unwrap();
        write_back(&mut self.file, &mut self.frames, VmHandle(block))?;
        let _count = self.frames.len();
        let frame = self.frames.pop(block).unwrap();
        Ok(frame.body.into_region())
    }

    // Reads a block into a free frame, in this region. Refused as `read_body` is.
    fn fetch(&mut self, handle: VmHandle, region: Region) -> Result<(), Fault>
        // Asked of the caller.
        requires live { is_live self.old.document handle.0 ≡ true }
        requires absent { is_resident self.old.resident handle.0 ≡ false }
        requires room { length self.old.resident < self.old.frames }
        // What is done.
        ensures stays { KeepsDocument S.facts self.old self.new }
        ensures ok { OnOk result (self.new.resident ≡ (handle.0, 0) ∷ self.old.resident) }
        ensures err { OnErr result (self.new.resident ≡ self.old.resident) }
        // Refusals.
        ensures fails { Fails S.facts
            (IsDamage (S.facts self.old.disk.store).honest) self.old.disk.store self.new.disk.store result }
    {
        let body = read_body(&mut self.file, handle, region)?;
        let frame = Frame {
            body,
            changed: false,
            locks: 0,
        };
        self.frames.insert(handle.0, frame)?;
        Ok(())
    }

    /// Has the heap of a block that is in memory keep in mind that a chunk of it is an array of a kind. An array that
    /// is known to be one isn't tested again until its chunk is changed or its block leaves memory. Nothing is read,
    /// written or allocated, and nothing that a caller sees changes.
    pub fn mark_array(&mut self, handle: VmHandle, chunk: ChunkHandle, kind: ArrayKind)
        requires loaded { is_loaded self.old handle.0 ≡ true }
        requires heap { is_heap self.old.document handle.0 ≡ true }
        requires live { contains_key (chunks_of self.old.document handle.0) chunk.0 ≡ true }
        requires array { is_array_of kind (chunk_bytes (chunks_of self.old.document handle.0) chunk.0) ≡ true }
        ensures { self.new ≡ self.old }
    {
        mark_array(&mut self.frames, handle.0, chunk, kind);
    }

    /// Has a raw block that is in memory keep in mind that it is the root of a large array, until a change makes
    /// something else of it or it leaves memory. Nothing is read, written or allocated, and nothing that a caller sees
    /// changes.
    pub fn mark_root(&mut self, handle: VmHandle)
        requires loaded { is_loaded self.old handle.0 ≡ true }
        requires root { is_large_root (raw_bytes_of self.old.document handle.0) ≡ true }
        ensures { self.new ≡ self.old }
    {
        mark_root(&mut self.frames, handle.0);
    }
}
