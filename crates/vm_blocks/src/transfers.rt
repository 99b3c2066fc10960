//! Bodies that go from memory into the file, and come from there.
ghost use Rattle.std.specs.Prelude.{◌≡◌, ◌≢◌, ◌⊎◌, ◌<◌, ℕ, false, true, cond, nat_lt, List, [], ◌∷◌, length, IsTrue, is_some, None, Some, IfOk, OnOk, OnErr, MatchOption, MatchResult};
ghost use Rattle.geos_model.specs.Document.{Document, block_at, is_heap, is_heap_body, is_live, with_body};
ghost use Rattle.geos_model.specs.declared.command.Body.TheVariants as bodies;
ghost use Rattle.document_file.specs.Calls.{IsPut, put_all, last_sequence};
ghost use Rattle.document_file.specs.Documents.{Documents};
ghost use Rattle.document_file.specs.Effects.{IsCommit, LeavesDocument, OnlyReads, Fails, NoFault, IsDamage, IsWorn};
ghost use Rattle.vm_blocks.specs.Bodies.{body_value};
ghost use Rattle.vm_blocks.specs.Frames.{frame_of, residents, overlay, with_frames, changed_in, is_changed_in, AreClean, IsChangedBody, AreFramesOf, KeepsOverlay};

use crate::body::{BlockBody, read_image};
use crate::frame::{Frame, mark};
use buffer_pool::BufferPool;
use document_file::{BlockImage, Image, Member, VmFile};
use geos_model::{Fault, VmHandle};
use lmem_heap::Heap;
use raw_region::Region;
use std::alloc::{AllocError, Global};
use vm_store::Store;

// A heap in memory as it is put into the file.
fn put_of<S: Store>(file: &VmFile<S>, block: VmHandle, heap: &Heap) -> Result<Member, AllocError>
    requires { is_live file.now.document block.0 ≡ true }
    ensures put { IfOk result IsPut }
    ensures is { IfOk result (λ put. put_all (put ∷ []) file.now.document
        ≡ with_body file.now.document block.0 (bodies.Heap heap.now.chunks)) }
{
    let place = file.entry(block).unwrap();
    Ok(Member {
        handle: block,
        block: BlockImage::new(place.attributes, Image::of_heap(heap)?),
    })
}

// Puts a body of a block, of the kind that it has in the file, there. A raw one is written from where it lies. Memory,
// File.
#[inline(never)]
fn put_body<S: Store>(file: &mut VmFile<S>, block: VmHandle, body: &BlockBody) -> Result<(), Fault>
    requires live { is_live file.old.document block.0 ≡ true }
    requires kind { is_heap_body (body_value body.now) ≡ is_heap file.old.document block.0 }
    ensures keeps { MatchResult result
        (λ _. LeavesDocument S.facts (with_body file.old.document block.0 (body_value body.now)) file.old file.new)
        (λ _. LeavesDocument S.facts file.old.document file.old file.new) }
    ensures fails { Fails S.facts NoFault file.old.disk.store file.new.disk.store result }
{
    match body {
        BlockBody::Raw(raw) => file.put_raw_image(block, raw.image()),
        BlockBody::Heap(heap) => {
            let puts = [put_of(file, block, heap)?];
            file.put_blocks(&puts, &[])
        }
    }
}

// The body of a block in memory, if it is changed.
fn changed_body(frames: &BufferPool<Frame>, block: u16) -> Option<&BlockBody>
    ensures { MatchOption result
        (is_changed_in frames.now.entries block ≡ false)
        (λ body. IsChangedBody frames.now.entries block body.now) }
{
    match frames.peek(block) {
        Some(frame) => {
            if frame.changed {
                Some(&frame.body)
            } else {
                None
            }
        }
        None => None,
    }
}

/// Puts a block in memory into the file, if it is changed. Memory, File.
// Inlined, since most blocks that go from memory aren't changed.
#[inline(always)]
pub fn write_back<S: Store>(
    file: &mut VmFile<S>,
    frames: &mut BufferPool<Frame>,
    block: VmHandle,
) -> Result<(), Fault>
    // Asked of the caller.
    requires kept { AreFramesOf (S.facts file.old.disk.store).honest file.old.document frames.old.entries }
    // What stays.
    ensures moves { KeepsOverlay S.facts file.old frames.old.entries file.new frames.new.entries }
    ensures residents { residents frames.new.entries ≡ residents frames.old.entries }
    ensures cap { frames.new.cap ≡ frames.old.cap }
    // What is done.
    ensures clean { OnOk result (is_changed_in frames.new.entries block.0 ≡ false) }
    ensures others { OnOk result ((h : ℕ) → h ≢ block.0
        → is_changed_in frames.new.entries h ≡ is_changed_in frames.old.entries h) }
    // Refusals.
    ensures fails { Fails S.facts NoFault file.old.disk.store file.new.disk.store result }
{
    match changed_body(frames, block.0) {
        None => Ok(()),
        Some(body) => {
            put_body(file, block, body)?;
            mark(frames, block.0, false);
            Ok(())
        }
    }
}

/// The body of a block as the file has it, in this region. Damaged where what is read has another sum, or is of a heap
/// and no image of one, which an honest store never gives; Memory, File. A raw body is read where it will stand.
pub fn read_body<S: Store>(
    file: &mut VmFile<S>,
    block: VmHandle,
    region: Region,
) -> Result<BlockBody, Fault>
    requires live { is_live file.old.document block.0 ≡ true }
    ensures reads { OnlyReads S.facts file.old file.new }
    ensures kind { IfOk result (λ body. is_heap_body (body_value body) ≡ is_heap file.old.document block.0) }
    ensures same { IfOk result (λ body. IsTrue (S.facts file.old.disk.store).honest
        → (block_at file.old.document block.0).body ≡ body_value body) }
    ensures fails { Fails S.facts
        (IsDamage (S.facts file.old.disk.store).honest) file.old.disk.store file.new.disk.store result }
{
    file.reveal_invariant();
    if !file.entry(block).unwrap().is_heap {
        let raw = file.read_raw(block, region)?;
        return Ok(BlockBody::Raw(raw));
    }
    let image = file.read_block(block)?;
    match read_image(region, &image) {
        Some(body) => {
            if body.is_heap() {
                Ok(body)
            } else {
                Err(Fault::Damaged)
            }
        }
        None => Err(Fault::Damaged),
    }
}

// The blocks in memory that are changed. Where there are none this takes no memory.
fn changed_blocks(alloc: Global, frames: &BufferPool<Frame>) -> Result<Vec<u16>, AllocError>
    ensures { IfOk result (λ blocks. blocks.items ≡ changed_in frames.now.entries) }
{
    frames
        .iter()
        .filter(|(_, frame)| frame.changed)
        .map(|(block, _)| *block)
        .collect(alloc)
}

/// Puts all blocks in memory that are changed into the file; they stay in memory. Where that is refused, some are in
/// the file, and the others are still changed. Memory, File.
pub fn flush<S: Store>(
    alloc: Global,
    file: &mut VmFile<S>,
    frames: &mut BufferPool<Frame>,
) -> Result<(), Fault>
    requires kept { AreFramesOf (S.facts file.old.disk.store).honest file.old.document frames.old.entries }
    ensures moves { KeepsOverlay S.facts file.old frames.old.entries file.new frames.new.entries }
    ensures residents { residents frames.new.entries ≡ residents frames.old.entries }
    ensures cap { frames.new.cap ≡ frames.old.cap }
    ensures clean { OnOk result (AreClean frames.new.entries) }
    ensures fails { Fails S.facts NoFault file.old.disk.store file.new.disk.store result }
{
    // Found in one walk, since a walk for each of them would take the square of their number.
    let blocks = changed_blocks(alloc, frames)?;
    for block in &blocks {
        write_back(file, frames, VmHandle(*block))?;
    }
    Ok(())
}

/// Puts what is changed in memory into the file, which a commit follows. Refused as any commit is, whatever it was to
/// commit.
pub fn begin_commit<S: Store>(
    alloc: Global,
    file: &mut VmFile<S>,
    frames: &mut BufferPool<Frame>,
) -> Result<(), Fault>
    requires kept { AreFramesOf (S.facts file.old.disk.store).honest file.old.document frames.old.entries }
    // The file, and what a commit may be made of.
    ensures moves { KeepsOverlay S.facts file.old frames.old.entries file.new frames.new.entries }
    ensures ok { OnOk result ((file.old.disk.sequence ≢ last_sequence) × AreClean frames.new.entries) }
    ensures err { OnErr result ((pair : Documents) (behind : Document) → IsCommit S.facts pair behind
        (with_frames file.old frames.old.entries) (with_frames file.new frames.new.entries) result) }
    // What is in memory stays there.
    ensures residents { residents frames.new.entries ≡ residents frames.old.entries }
    ensures cap { frames.new.cap ≡ frames.old.cap }
    // Refusals.
    ensures fails { Fails S.facts IsWorn file.old.disk.store file.new.disk.store result }
{
    file.reveal_invariant();
    if file.is_worn() {
        return Err(Fault::Worn);
    }
    flush(alloc, file, frames)?;
    Ok(())
}
