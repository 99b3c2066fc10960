//! The blocks in memory, in the order of their use.
ghost use Rattle.std.specs.Prelude.{◌≡◌, ◌<◌, ◌+◌, ◌-◌, ℕ, Bool, true, false, nat_eq, is_some, Some, IfSome, MatchBool, MatchOption};
ghost use Rattle.std.specs.FinMap.{contains_key};
ghost use Rattle.std.specs.Option.{option_map};
ghost use Rattle.geos_model.specs.Document.{Document, IsValid, is_live, is_valid_body, is_vm_handle};
ghost use Rattle.geos_model.specs.Heap.{chunk_bytes};
ghost use Rattle.lmem_heap.specs.Known.{is_array_of};
ghost use Rattle.lru.specs.LruCache.{lru_cache, promoted};
ghost use Rattle.raw_region.specs.Roots.{is_large_root};
ghost use Rattle.vm_blocks.specs.Bodies.{body_value};
ghost use Rattle.vm_blocks.specs.Changes.{directed_part};
ghost use Rattle.vm_blocks.specs.Frames.{bytes_in_frames, chunks_in_frames, frame_of, overlay, residents, with_frame, AreFramesOf};
ghost use Rattle.vm_blocks.specs.Parts.{AllowsPart, body_after_part};
ghost use Rattle.vm_blocks.specs.Runs.{PutsPart};
ghost use Rattle.vm_blocks.specs.State.{locks_of, victim};

use crate::body::BlockBody;
use crate::part::{can_take, carry_out_heap, carry_out_raw};
use crate::{Direction, PartChange};
use buffer_pool::BufferPool;
use geos_model::{ChunkHandle, MOST_BLOCKS};
use lmem_heap::ArrayKind;

/// A block in memory.
#[derive(Drop)]
pub struct Frame {
    pub body: BlockBody,
    /// Whether the file may have another body of it.
    pub changed: bool,
    /// How often it is locked.
    pub locks: u8,
}

impl Frame {
    /// Changes the body in place: from now on the file may have another.
    pub(crate) fn carry_out(&mut self, part: &PartChange, direction: Direction)
        requires { AllowsPart (directed_part direction part.now) (body_value self.old.body) }
        ensures body { body_value self.new.body
            ≡ body_after_part (directed_part direction part.now) (body_value self.old.body) }
        ensures marks { (self.new.changed ≡ true) × (self.new.locks ≡ self.old.locks) }
    {
        self.changed = true;
        match &mut self.body {
            BlockBody::Raw(raw) => carry_out_raw(raw, part, direction),
            BlockBody::Heap(heap) => carry_out_heap(heap, part, direction),
        }
    }
}

/// Makes a change of a part of the body of a block in memory, if the body takes it, and says whether: from then on the
/// file may have another.
pub(crate) fn change_part_in_frame(
    frame: &mut Frame,
    part: &PartChange,
    direction: Direction,
) -> bool
    ensures { MatchBool result (PutsPart (directed_part direction part.now) frame.old frame.new)
        ((AllowsPart (directed_part direction part.now) (body_value frame.old.body) → ⊥)
        × (frame.new ≡ frame.old)) }
{
    if !can_take(&frame.body, part, direction) {
        return false;
    }
    frame.carry_out(part, direction);
    true
}

/// Says whether a block in memory may differ from what the file has of it.
pub fn mark(frames: &mut BufferPool<Frame>, block: u16, changed: bool)
    ensures { frames.new
        ≡ lru_cache (with_frame frames.old.entries block (λ f. record f { changed = changed })) frames.old.cap }
{
    if let Some(frame) = frames.peek_mut(block) {
        frame.changed = changed;
    }
}

// Says of a block, if it is in memory, that the file may have another body of it.
fn mark_one(frames: &mut BufferPool<Frame>, block: u16)
    ensures entries { frames.new
        ≡ lru_cache (with_frame frames.old.entries block (λ f. record f { changed = true })) frames.old.cap }
    ensures valid { IfSome (frame_of frames.new.entries block) (λ f. is_valid_body (body_value f.body) ≡ true) }
{
    mark(frames, block, true);
    if let Some(frame) = frames.peek(block) {
        frame.body.reveal_invariant();
    }
}

/// Says so of each block in memory.
pub fn mark_all(frames: &mut BufferPool<Frame>)
    ensures shown { (d : Document) → overlay frames.new.entries d ≡ overlay frames.old.entries d }
    ensures valid { (d : Document) → IsValid d → AreFramesOf false d frames.new.entries
        → IsValid (overlay frames.new.entries d) }
    ensures kept { (honest : Bool) (d : Document) → ((h : ℕ) → is_live d h ≡ true → is_vm_handle h ≡ true)
        → AreFramesOf false d frames.old.entries → AreFramesOf honest d frames.new.entries }
    ensures residents { residents frames.new.entries ≡ residents frames.old.entries }
    ensures cap { frames.new.cap ≡ frames.old.cap }
{
    for block in 0..MOST_BLOCKS + 1 {
        mark_one(frames, block);
    }
}

/// Has the heap of a block in memory keep in mind that a chunk of it is an array of a kind. The file needs no other
/// body for that, and the order of use stays.
pub fn mark_array(frames: &mut BufferPool<Frame>, block: u16, chunk: ChunkHandle, kind: ArrayKind)
    requires live { contains_key (chunks_in_frames frames.old.entries block) chunk.0 ≡ true }
    requires array { is_array_of kind (chunk_bytes (chunks_in_frames frames.old.entries block) chunk.0) ≡ true }
    ensures { frames.new ≡ frames.old }
{
    if let Some(frame) = frames.peek_mut(block) {
        frame.body.mark_array(chunk, kind);
    }
}

/// Has the raw body of a block in memory keep in mind that it is the root of a large array, as `mark_array` does.
pub fn mark_root(frames: &mut BufferPool<Frame>, block: u16)
    requires { is_large_root (bytes_in_frames frames.old.entries block) ≡ true }
    ensures { frames.new ≡ frames.old }
{
    if let Some(frame) = frames.peek_mut(block) {
        frame.body.mark_root();
    }
}

/// Makes a block the one that was used last, and says whether it is in memory; where it isn't nothing changes.
#[inline(always)]
pub fn use_again(frames: &mut BufferPool<Frame>, block: u16) -> bool
    ensures value { result ≡ is_some (frame_of frames.old.entries block) }
    ensures moves { frames.new ≡ lru_cache (promoted (nat_eq block) frames.old.entries) frames.old.cap }
    ensures absent { result ≡ false → frames.new ≡ frames.old }
{
    frames.promote(block)
}

/// One more lock of a block in memory.
pub fn lock(frames: &mut BufferPool<Frame>, block: u16)
    requires { MatchOption (frame_of frames.old.entries block) (Unit {0}) (λ f. f.locks < 255) }
    ensures { frames.new
        ≡ lru_cache (with_frame frames.old.entries block (λ f. record f { locks = f.locks + 1 })) frames.old.cap }
{
    if let Some(frame) = frames.peek_mut(block) {
        frame.locks += 1;
    }
}

/// One lock less of a block in memory.
pub fn unlock(frames: &mut BufferPool<Frame>, block: u16)
    requires { MatchOption (frame_of frames.old.entries block) (Unit {0}) (λ f. 0 < f.locks) }
    ensures { frames.new
        ≡ lru_cache (with_frame frames.old.entries block (λ f. record f { locks = f.locks - 1 })) frames.old.cap }
{
    if let Some(frame) = frames.peek_mut(block) {
        frame.locks -= 1;
    }
}

/// The least recently used block that isn't locked.
pub fn victim(frames: &BufferPool<Frame>) -> Option<u16>
    ensures { result ≡ victim (residents frames.now.entries) }
{
    match frames.iter().rev().find(|(_, frame)| frame.locks == 0) {
        Some((block, _)) => Some(*block),
        None => None,
    }
}

/// The body of a block in memory.
pub fn body_in(frames: &BufferPool<Frame>, block: u16) -> &BlockBody
    requires { is_some (frame_of frames.now.entries block) ≡ true }
    ensures { option_map (λ f. f.body) (frame_of frames.now.entries block) ≡ Some result.now }
{
    &frames.peek(block).unwrap().body
}

/// How often a block is locked, 0 where it isn't in memory.
pub fn locks_of(frames: &BufferPool<Frame>, block: u16) -> u8
    ensures { result ≡ locks_of (residents frames.now.entries) block }
{
    match frames.peek(block) {
        Some(frame) => frame.locks,
        None => 0,
    }
}
