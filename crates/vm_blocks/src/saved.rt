//! A block with its body, as it is now.
ghost use Rattle.std.specs.Prelude.{◌≡◌, IfOk};
ghost use Rattle.vm_blocks.specs.Bodies.{body_value};
ghost use Rattle.geos_model.specs.Document.{IsTyped, is_heap_body};
ghost use Rattle.document_file.specs.Members.{imaged_block};

use crate::{BlockBody, BlockImage};
use geos_model::Attributes;
use std::alloc::{AllocError, Global};

/// A block with this body, as it is now. Only a heap has a type.
pub fn imaged_block(
    alloc: Global,
    attributes: Attributes,
    body: &BlockBody,
) -> Result<BlockImage, AllocError>
    requires { IsTyped (is_heap_body (body_value body.now)) attributes }
    ensures { IfOk result
        (λ saved. imaged_block saved ≡ record { attributes = attributes; body = body_value body.now }) }
{
    Ok(BlockImage::new(attributes, body.image(alloc)?))
}
