//! The bytes of bodies, as a file keeps them.
ghost use Rattle.std.specs.Prelude.{◌≡◌, ◌≤◌, ◌+◌, true, None, Some, IfOk, MatchOption, length, replicate};
ghost use Rattle.std.specs.FinMap.{empty};
ghost use Rattle.geos_model.specs.Document.{is_heap_body, is_valid_body};
ghost use Rattle.geos_model.specs.Heap.{capacity};
ghost use Rattle.geos_model.specs.Image.{image, body_of};
ghost use Rattle.geos_model.specs.declared.command.Body.TheVariants as bodies;

use crate::kind::image_kind;
use file_format::BodyKind;
use geos_model::Bytes;
use lmem_heap::Heap;
use std::alloc::{AllocError, Global};
use std::marker::Model;

#[tactic(auto, unfolding(geos_model::specs::Image::image))]
fn raw_image(alloc: Global, bytes: &[u8]) -> Result<Vec<u8>, AllocError>
    ensures { IfOk result (λ v. v.items ≡ image (bodies.Raw bytes.now)) }
{
    let mut image = Vec::with_capacity(alloc, bytes.len() + 1)?;
    image.push(BodyKind::Raw.byte())?;
    image.extend_from_slice(bytes)?;
    Ok(image)
}

#[tactic(auto, unfolding(geos_model::specs::Image::image))]
fn with_kind(bytes: Vec<u8>) -> Result<Vec<u8>, AllocError>
    ensures { IfOk result (λ v. v.items ≡ image (bodies.Raw bytes.items)) }
{
    let mut image = bytes;
    image.insert(0, BodyKind::Raw.byte())?;
    Ok(image)
}

// The image of a raw body of zeros is the front of these: none is longer.
static ZEROS: [u8; 65536] = [0; 65536];

// The image of a heap without chunks: its kind, and a table of no entries.
static EMPTY_HEAP: [u8; 3] = [1, 0, 0];

// How an image is held. That of a block that was just made takes no memory.
#[derive(Drop)]
enum Held {
    Bytes(Bytes),
    // A raw body of so many zeros.
    Zeros(u16),
    // A heap without chunks.
    EmptyHeap,
}

// The image of a raw body of so many zeros.
fn zeros(size: u16) -> &'static [u8]
    ensures { result.now ≡ replicate (size + 1) 0 }
{
    &ZEROS[..usize::from(size) + 1]
}

/// What a file keeps of a body that a document can have: a byte for its kind, and the bytes of a raw body or of a
/// heap's image behind it, at most `LONGEST_IMAGE` in all. Contracts see the body.
#[derive(Drop)]
pub struct Image {
    held: Held,
}

impl Model for Image {
    ghost use Rattle.geos_model.specs.declared.command.Body.{Body};
    ghost use Rattle.geos_model.specs.Image.{body_read};
    ghost use Rattle.geos_model.proofs.Codes.{body_code};
    ghost use Rattle.document_file.specs.Images.{IsImage};
    ghost use Rattle.document_file.specs.Held.{held_bytes};

    ghost Value = { Body };

    ghost coded = { body_code };

    ghost view = { λ i. body_read (held_bytes i.held) };

    ghost invariant = { λ i. IsImage (held_bytes i.held) };
}

impl Image {
    /// The image that these bytes are, None where they are that of no body that a document can have. It takes no
    /// memory.
    pub fn from_bytes(bytes: Bytes) -> Option<Image>
        ensures { MatchOption result (body_of bytes ≡ None) (λ i. body_of bytes ≡ Some i) }
    {
        match image_kind(bytes.as_slice()) {
            Some(_) => Some(Image {
                held: Held::Bytes(bytes),
            }),
            None => None,
        }
    }

    /// That of a raw body of these bytes.
    pub fn of_raw(alloc: Global, bytes: &[u8]) -> Result<Image, AllocError>
        requires { length bytes.now ≤ capacity }
        ensures { IfOk result (λ i. i ≡ bodies.Raw bytes.now) }
    {
        let image = raw_image(alloc, bytes)?;
        Ok(Image {
            held: Held::Bytes(Bytes::from_vec(image)),
        })
    }

    /// That of a raw body of these bytes, before which the byte for the kind is put.
    pub fn from_raw(bytes: Vec<u8>) -> Result<Image, AllocError>
        requires { length bytes.items ≤ capacity }
        ensures { IfOk result (λ i. i ≡ bodies.Raw bytes.items) }
    {
        let image = with_kind(bytes)?;
        Ok(Image {
            held: Held::Bytes(Bytes::from_vec(image)),
        })
    }

    /// That of a raw body of so many zeros. It takes no memory.
    pub fn zeros(size: usize) -> Image
        requires { size ≤ capacity }
        ensures { result ≡ bodies.Raw (replicate size 0) }
    {
        Image {
            held: Held::Zeros(size as u16),
        }
    }

    /// That of a heap as it is now.
    pub fn of_heap(heap: &Heap) -> Result<Image, AllocError>
        ensures { IfOk result (λ i. i ≡ bodies.Heap heap.now.chunks) }
    {
        let image = heap.image()?;
        Ok(Image {
            held: Held::Bytes(Bytes::from_vec(image)),
        })
    }

    /// That of a heap without chunks. It takes no memory.
    pub fn empty_heap() -> Image
        ensures { result ≡ bodies.Heap empty }
    {
        Image {
            held: Held::EmptyHeap,
        }
    }

    /// The bytes.
    pub fn as_slice(&self) -> &[u8]
        ensures { result.now ≡ image self.now }
    {
        match &self.held {
            Held::Bytes(bytes) => bytes.as_slice(),
            Held::Zeros(size) => zeros(*size),
            Held::EmptyHeap => &EMPTY_HEAP,
        }
    }

    /// Whether the body is a heap.
    pub fn is_heap(&self) -> bool
        ensures { result ≡ is_heap_body self.now }
    {
        BodyKind::of_byte(self.as_slice()[0]).is_heap()
    }

    /// It does nothing: its caller learns that the body is one that a document can have.
    pub fn reveal_invariant(&self)
        ensures { is_valid_body self.now ≡ true }
    {
        // What is always so of the fields is known where one is named.
        let _ = &self.held;
    }
}
