//! Bodies in memory, and as the bytes that a file keeps.
ghost use Rattle.std.specs.Prelude.{◌≡◌, ◌≤◌, true, false, Some, None, IfOk, MatchOption, length};
ghost use Rattle.std.specs.FinMap.{contains_key};
ghost use Rattle.geos_model.specs.Image.{body_of as body_of_image};
ghost use Rattle.document_file.specs.Fronts.{first_word};
ghost use Rattle.geos_model.specs.Document.{bytes_of_body, chunks_of_body, is_heap_body, is_valid_body};
ghost use Rattle.geos_model.specs.Heap.{capacity, chunk_bytes};
ghost use Rattle.lmem_heap.specs.Known.{is_array_of};
ghost use Rattle.raw_region.specs.Roots.{is_large_root};
ghost use Rattle.vm_blocks.specs.Bodies.{body_value};

use document_file::Image;
use file_format::BodyKind;
use geos_model::ChunkHandle;
use lmem_heap::{ArrayKind, Heap};
use raw_region::{RawBody, Region, SIZE};
use std::alloc::{AllocError, Global};

/// What a block in memory holds, in a region of its own.
#[derive(Drop)]
pub enum BlockBody {
    Raw(RawBody),
    Heap(Heap),
}

impl BlockBody {
    /// Whether it is a heap.
    pub fn is_heap(&self) -> bool
        ensures { result ≡ is_heap_body (body_value self.now) }
    {
        matches!(self, BlockBody::Heap(_))
    }

    /// The bytes of a raw body; a heap has none.
    pub(crate) fn raw_bytes(&self) -> &[u8]
        ensures value { result.now ≡ bytes_of_body (body_value self.now) }
        ensures small { length result.now ≤ capacity }
    {
        match self {
            BlockBody::Raw(raw) => raw.bytes(),
            BlockBody::Heap(_) => &[],
        }
    }

    /// The first word of a raw body, if it has one.
    pub(crate) fn first_word(&self) -> Option<u16>
        ensures { result ≡ first_word false (bytes_of_body (body_value self.now)) }
    {
        match self {
            BlockBody::Raw(raw) if raw.bytes().len() >= 2 => Some(raw.word(0)),
            _ => None,
        }
    }

    /// It as a file keeps it.
    pub fn image(&self, alloc: Global) -> Result<Image, AllocError>
        ensures { IfOk result (λ i. i ≡ body_value self.now) }
    {
        match self {
            BlockBody::Raw(raw) => Image::of_raw(alloc, raw.bytes()),
            BlockBody::Heap(heap) => Image::of_heap(heap),
        }
    }

    /// Has a heap keep in mind that a chunk of it is an array of a kind. Nothing that a caller sees changes.
    pub(crate) fn mark_array(&mut self, chunk: ChunkHandle, kind: ArrayKind)
        requires live { contains_key (chunks_of_body (body_value self.old)) chunk.0 ≡ true }
        requires array { is_array_of kind (chunk_bytes (chunks_of_body (body_value self.old)) chunk.0) ≡ true }
        ensures { self.new ≡ self.old }
    {
        if let BlockBody::Heap(heap) = self {
            heap.mark_array(chunk, kind);
        }
    }

    /// Has a raw body keep in mind that it is the root of a large array. Nothing that a caller sees changes.
    pub(crate) fn mark_root(&mut self)
        requires { is_large_root (bytes_of_body (body_value self.old)) ≡ true }
        ensures { self.new ≡ self.old }
    {
        if let BlockBody::Raw(raw) = self {
            raw.mark_root();
        }
    }

    /// The region, with any bytes: another body can be put there.
    pub(crate) fn into_region(self) -> Region {
        match self {
            BlockBody::Raw(raw) => raw.into_region(),
            BlockBody::Heap(heap) => heap.into_region(),
        }
    }

    /// It does nothing: its caller learns that the body is one that a document can have.
    pub fn reveal_invariant(&self)
        ensures { is_valid_body (body_value self.now) ≡ true }
    {
        match self {
            BlockBody::Raw(raw) => {
                let _bytes = raw.bytes();
            }
            BlockBody::Heap(heap) => {
                let _chunk = heap.chunk(ChunkHandle(0));
            }
        }
    }
}

/// The body whose image these bytes are, in a region that may have others. None where they are the image of no body
/// that can be. It takes no memory.
pub fn read_image(region: Region, bytes: &[u8]) -> Option<BlockBody>
    ensures { MatchOption result
        (body_of_image bytes.now ≡ None)
        (λ body. body_of_image bytes.now ≡ Some (body_value body)) }
{
    if bytes.is_empty() {
        return None;
    }
    if BodyKind::of_byte(bytes[0]).is_heap() {
        return match Heap::of_image(region, bytes) {
            Ok(heap) => Some(BlockBody::Heap(heap)),
            Err(_region) => None,
        };
    }
    if bytes.len() > SIZE + 1 {
        return None;
    }
    Some(BlockBody::Raw(RawBody::fill(region, &bytes[1..])))
}
