//! The image of a body as the body.
ghost use Rattle.std.specs.Prelude.{◌≡◌, IfErr, IfOk, true};
ghost use Rattle.geos_model.specs.Document.{is_valid_body};
ghost use Rattle.geos_model.specs.Image.{image};
ghost use Rattle.geos_model.specs.declared.command.Body.{Body};
ghost use Rattle.document_diff.specs.Blocks.{body_as_read};
ghost use Rattle.document_diff.specs.Faults.{IsImageRefusal};

use file_format::BodyKind;
use geos_model::{Attributes, Fault};
use lmem_heap::Heap;
use std::alloc::Global;

/// The body of a block.
#[derive(Drop)]
pub enum BodyRead {
    Raw(Vec<u8>),
    Heap(Heap),
}

/// A block.
#[derive(Drop)]
pub struct BlockRead {
    pub attributes: Attributes,
    pub body: BodyRead,
}

/// The body that this is the image of. Memory, and Damaged where it is the image of none.
pub fn read_body(alloc: Global, bytes: Vec<u8>) -> Result<BodyRead, Fault>
    ensures err { IfErr result (IsImageRefusal bytes.items) }
    ensures ok { IfOk result (λ read. (body : Body) → is_valid_body body ≡ true → image body ≡ bytes.items
        → body_as_read read ≡ body) }
{
    if bytes.is_empty() {
        return Err(Fault::Damaged);
    }
    if BodyKind::of_byte(bytes.as_slice()[0]).is_heap() {
        let heap = Heap::from_image(alloc, bytes.as_slice())?;
        return Ok(BodyRead::Heap(heap));
    }
    let mut raw = bytes;
    raw.remove(0);
    Ok(BodyRead::Raw(raw))
}
