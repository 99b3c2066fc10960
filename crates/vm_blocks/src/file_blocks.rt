//! The blocks of a document file, so many of which may be in memory.
ghost use Rattle.std.specs.Prelude.{◌≡◌, ◌≤◌, ℕ, [], Some, None, true, IsTrue, IfOk, IfSome, MatchResult, length, map, nat_lt};
ghost use Rattle.std.specs.Option.{option_map};
ghost use Rattle.std.specs.FinMap.{get, keys};
ghost use Rattle.geos_model.specs.Document.{IsValid, is_heap, next_handle, is_live, is_vm_handle, attributes_of, IsTyped};
ghost use Rattle.geos_model.specs.ElementArray.{all_distinct};
ghost use Rattle.geos_model.specs.Reply.{found};
ghost use Rattle.document_file.specs.Disk.{IsFileDocument, IsCrashConsistent};
ghost use Rattle.document_file.specs.Documents.{has_one_directory};
ghost use Rattle.document_file.specs.Listing.{IsListed};
ghost use Rattle.vm_blocks.specs.Bodies.{body_value};
ghost use Rattle.vm_blocks.specs.State.{is_resident, locks_of, locked_count, as_file};
ghost use Rattle.vm_blocks.specs.Keeping.{is_full, is_loaded};
ghost use Rattle.vm_blocks.specs.Opening.{IsOpenedFrom, IsNotOpened, IsMadeIn, IsNotMade};
ghost use Rattle.lru.specs.LruCache.{lru_cache};

mod changing;
mod changing_bytes;
mod commits;
mod fronts;
mod loads;
mod locking;

use crate::BlockBody;
use crate::frame::{Frame, body_in, locks_of};
use buffer_pool::BufferPool;
use document_file::{Refused, VmFile};
use geos_model::{Attributes, Fault, VmHandle};
use std::alloc::{AllocError, Global};
use std::marker::Model;
use std::num::NonZeroUsize;
use vm_store::Store;

/// A document file with its blocks, so many of which may be in memory. Contracts see the document that callers see:
/// that of the file with the bodies in memory in place of the file's. What was changed in memory an accepted update or
/// save makes the file's.
#[derive(Drop)]
pub struct FileBlocks<S: Store> {
    alloc: Global,
    file: VmFile<S>,
    frames: BufferPool<Frame>,
    // How many of the frames have a locked block.
    locked: usize,
}

impl<S: Store> Model for FileBlocks<S> {
    ghost use Rattle.vm_blocks.specs.State.{CacheState, cache_state_code, locked_count};

    ghost Value = { CacheState S };

    ghost coded = { cache_state_code S.code };

    ghost use Rattle.std.specs.Prelude.{◌≡◌};
    ghost use Rattle.vm_blocks.specs.Frames.{residents, shown};
    ghost use Rattle.vm_blocks.specs.Sound.{AreBlocksOf};

    ghost view = { λ b. shown b.file b.frames.entries b.frames.cap };

    ghost invariant = { λ b. AreBlocksOf S.facts b.file b.frames.entries b.frames.cap
        × (b.locked ≡ locked_count (residents b.frames.entries)) };
}

impl<S: Store> FileBlocks<S> {
    /// Makes the store an empty document file, whatever was in it, with so many blocks in memory at most; with
    /// checksums, where they are asked for. Memory, before the store is called; File.
    pub fn create(
        alloc: Global,
        store: S,
        frames: usize,
        checksums: bool,
    ) -> Result<FileBlocks<S>, Refused<S>>
        requires { 1 ≤ frames }
        ensures made { MatchResult result
            (λ blocks. IsMadeIn S.facts store checksums (as_file blocks))
            (λ refused. IsNotMade S.facts store refused.store refused.fault) }
        ensures frames { IfOk result (λ blocks. blocks.frames ≡ frames) }
        ensures empty { IfOk result (λ blocks. blocks.resident ≡ []) }
    {
        let Ok(frames) = new_frames(alloc, frames) else {
            return Err(Refused {
                fault: Fault::Memory,
                store,
            });
        };
        let file = VmFile::create(alloc, store, checksums)?;
        Ok(FileBlocks {
            alloc,
            file,
            frames,
            locked: 0,
        })
    }

    /// Opens the file that a store has, with its updated document as it is now. Where it is refused the store comes
    /// back, and nothing was written to an honest one: NotDocument or Damaged where it has no file; Memory, File. Where
    /// a crash left the store, what is read is on the disk from then on. With checksums the next commit gives the file
    /// those, if it has none.
    pub fn open(
        alloc: Global,
        store: S,
        frames: usize,
        checksums: bool,
    ) -> Result<FileBlocks<S>, Refused<S>>
        requires { 1 ≤ frames }
        ensures opened { MatchResult result
            (λ blocks. IsOpenedFrom S.facts store checksums (as_file blocks))
            (λ refused. IsNotOpened S.facts store refused.store refused.fault) }
        ensures frames { IfOk result (λ blocks. blocks.frames ≡ frames) }
        ensures empty { IfOk result (λ blocks. blocks.resident ≡ []) }
    {
        let Ok(frames) = new_frames(alloc, frames) else {
            return Err(Refused {
                fault: Fault::Memory,
                store,
            });
        };
        let file = VmFile::open(alloc, store, checksums)?;
        file.reveal_invariant();
        Ok(FileBlocks {
            alloc,
            file,
            frames,
            locked: 0,
        })
    }

    /// Gives the store back. Nothing is written.
    pub fn close(self) -> S
        ensures { result ≡ self.disk.store }
    {
        self.file.close()
    }

    /// It does nothing: its caller learns what always holds. What a store that isn't honest has of bodies, and of the
    /// updated and the saved document, isn't known.
    pub fn reveal_invariant(&self)
        // Of the documents and their file.
        ensures document { IsTrue (S.facts self.now.disk.store).honest → IsValid self.now.document }
        ensures listed { IsFileDocument (S.facts self.now.disk.store).honest self.now.document }
        ensures crash_consistent { IsCrashConsistent S.facts self.now.disk }
        ensures valid { IsTrue (S.facts self.now.disk.store).honest
            → IsValid self.now.disk.updated × IsValid self.now.disk.saved }
        // Of the blocks in memory.
        ensures few { length self.now.resident ≤ self.now.frames }
        ensures some { 1 ≤ self.now.frames }
        ensures resident { (h : ℕ) → is_resident self.now.resident h ≡ true → is_live self.now.document h ≡ true }
        ensures distinct { all_distinct (map (λ s. s.0) self.now.resident) ≡ true }
        ensures counts { (h : ℕ) → locks_of self.now.resident h ≤ 255 }
    {
        let _count = self.frames.len();
        self.file.reveal_invariant();
    }

    /// Whether one directory serves the updated and the saved document. They may be the same where each has its own.
    pub fn has_one_directory(&self) -> bool
        ensures content { IsTrue (S.facts self.now.disk.store).honest → self.now.disk.in_doubt ≡ []
            → result ≡ has_one_directory (S.facts self.now.disk.store).content }
        ensures same { IsTrue (S.facts self.now.disk.store).honest → result ≡ true
            → self.now.disk.saved ≡ self.now.disk.updated }
    {
        self.file.has_one_directory()
    }

    /// How often a block is locked, 0 where it isn't in memory.
    pub fn locks(&self, handle: VmHandle) -> u8
        ensures { result ≡ locks_of self.now.resident handle.0 }
    {
        locks_of(&self.frames, handle.0)
    }

    /// Whether a block is locked.
    pub fn has_locks(&self) -> bool
        ensures { result ≡ nat_lt 0 (locked_count self.now.resident) }
    {
        self.locked > 0
    }

    /// Whether each frame has a locked block, so that no other one can be brought into memory.
    pub fn all_locked(&self) -> bool
        ensures { result ≡ is_full self.now }
    {
        self.frames.cap().get() <= self.locked
    }

    /// Whether a block has this handle, in memory or not.
    pub fn is_live(&self, handle: VmHandle) -> bool
        ensures { result ≡ is_live self.now.document handle.0 }
    {
        self.file.entry(handle).is_some()
    }

    /// Whether a block is a heap, in memory or not.
    pub fn is_heap(&self, handle: VmHandle) -> bool
        requires { is_live self.now.document handle.0 ≡ true }
        ensures { result ≡ is_heap self.now.document handle.0 }
    {
        self.file.entry(handle).unwrap().is_heap
    }

    /// The attributes of a block, in memory or not. Only a heap has a type, over any store.
    pub fn attributes(&self, handle: VmHandle) -> Attributes
        requires { is_live self.now.document handle.0 ≡ true }
        ensures value { result ≡ attributes_of self.now.document handle.0 }
        ensures typed { IsTyped (is_heap self.now.document handle.0) result }
    {
        self.file.reveal_invariant();
        self.file.entry(handle).unwrap().attributes
    }

    /// Whether a block is in memory, so that its body can be read.
    pub fn is_resident(&self, handle: VmHandle) -> bool
        ensures { result ≡ is_loaded self.now handle.0 }
    {
        self.frames.contains(handle.0)
    }

    /// The body of a block that is in memory.
    pub fn body(&self, handle: VmHandle) -> &BlockBody
        requires { is_loaded self.now handle.0 ≡ true }
        ensures { option_map (λ b. b.body) (get self.now.document.blocks handle.0) ≡ Some (body_value result.now) }
    {
        body_in(&self.frames, handle.0)
    }

    /// The map block, 0 if there is none.
    pub fn map_block(&self) -> VmHandle
        ensures { result.0 ≡ self.now.document.map_block }
    {
        self.file.map_block()
    }

    /// The least handle above `start` whose block has this user ID.
    pub fn find(&self, user_id: u16, start: VmHandle) -> Option<VmHandle>
        ensures { option_map (λ h. h.0) result ≡ found self.now.document user_id start.0 }
    {
        self.file.find(user_id, start)
    }

    /// The live handles, rising.
    pub fn list(&self) -> Result<Vec<VmHandle>, AllocError>
        ensures { IfOk result (λ handles. map (λ h. h.0) handles.items ≡ keys self.now.document.blocks) }
    {
        self.file.list()
    }

    /// Puts the live handles, rising, in place of those that are there. No memory is taken where they have room; where
    /// it lacks, the first of them are there.
    pub fn list_into(&self, handles: &mut Vec<VmHandle>) -> Result<(), AllocError>
        ensures { IsListed (keys self.now.document.blocks) handles.old handles.new result }
    {
        self.file.list_into(handles)
    }

    /// The least handle that isn't live.
    pub fn next_handle(&self) -> Option<VmHandle>
        ensures value { option_map (λ h. h.0) result ≡ next_handle self.now.document }
        ensures within { IfSome result (λ h. is_vm_handle h.0 ≡ true) }
        ensures free { IfSome result (λ h. get self.now.document.blocks h.0 ≡ None) }
    {
        self.file.next_handle()
    }
}

// So many frames, none of them taken.
fn new_frames(alloc: Global, frames: usize) -> Result<BufferPool<Frame>, AllocError>
    requires { 1 ≤ frames }
    ensures { IfOk result (λ empty. empty ≡ lru_cache [] frames) }
{
    let cap = NonZeroUsize::new(frames).unwrap();
    BufferPool::new(alloc, cap)
}
