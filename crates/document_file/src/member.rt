//! Blocks on their way into the file or out of it.
ghost use Rattle.std.specs.Prelude.{◌≡◌, ◌≤◌, ◌<◌, ◌+◌, true, IfOk, length, replicate};
ghost use Rattle.std.specs.FinMap.{empty};
ghost use Rattle.geos_model.specs.Document.{FitAttributes, IsTyped, is_heap_body, is_valid_body};
ghost use Rattle.geos_model.specs.Heap.{capacity};
ghost use Rattle.geos_model.specs.Image.{image};
ghost use Rattle.geos_model.specs.declared.command.Body.TheVariants as bodies;

use crate::image::Image;
use geos_model::{Attributes, VmHandle};
use std::alloc::{AllocError, Global};

/// A block as it was, one that a document can have, with its body as a file keeps it.
#[derive(Drop)]
pub struct BlockImage {
    pub attributes: Attributes,
    pub image: Image,
    // The law of changes has it from here, since there a number has no range.
    ghost fit: { FitAttributes attributes },
    ghost valid: { is_valid_body image ≡ true },
    ghost typed: { IsTyped (is_heap_body image) attributes },
}

impl BlockImage {
    ghost use Rattle.document_file.specs.Members.{imaged_block};

    /// A block with this body. Only a heap has a type.
    pub fn new(attributes: Attributes, image: Image) -> BlockImage
        requires { IsTyped (is_heap_body image) attributes }
        ensures { imaged_block result ≡ record { attributes = attributes; body = image } }
    {
        image.reveal_invariant();
        BlockImage { attributes, image }
    }

    /// A raw block of so many zeros. It has no type, and its image takes no memory.
    pub fn zeros(attributes: Attributes, size: usize) -> BlockImage
        requires size { size ≤ capacity }
        requires typed { attributes.heap_type ≡ 0 }
        ensures { imaged_block result ≡ record { attributes = attributes; body = bodies.Raw (replicate size 0) } }
    {
        BlockImage::new(attributes, Image::zeros(size))
    }

    /// A raw block of these bytes. It has no type.
    pub fn raw(attributes: Attributes, bytes: Vec<u8>) -> Result<BlockImage, AllocError>
        requires size { length bytes.items ≤ capacity }
        requires typed { attributes.heap_type ≡ 0 }
        ensures { IfOk result
            (λ saved. imaged_block saved ≡ record { attributes = attributes; body = bodies.Raw bytes.items }) }
    {
        Ok(BlockImage::new(attributes, Image::from_raw(bytes)?))
    }

    /// A block with an empty heap, whose image takes no memory.
    pub fn empty_heap(attributes: Attributes) -> BlockImage
        ensures { imaged_block result ≡ record { attributes = attributes; body = bodies.Heap empty } }
    {
        BlockImage::new(attributes, Image::empty_heap())
    }

    /// How many bytes it holds: those of the image.
    pub fn byte_count(&self) -> usize
        ensures value { result ≡ length (image (imaged_block self.now).body) }
        ensures small { result ≤ capacity + 1 }
    {
        self.image.as_slice().len()
    }
}

/// A block that comes into the file under a handle, or gets another body there; or one that goes from there.
#[derive(Drop)]
pub struct Member {
    pub handle: VmHandle,
    pub block: BlockImage,
}
