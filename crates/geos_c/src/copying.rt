//! Bytes that a call is passed, as values of the document's.
ghost use Rattle.std.specs.Prelude.{◌≡◌, IfOk};
ghost use Rattle.geos_c.specs.Handles.{IsUncopied};

use crate::handle::Handle;
use c_sessions::NOT_OPEN;
use geos_model::{Bytes, Fault};
use std::alloc::{AllocError, Global};

pub(crate) fn copied(alloc: Global, bytes: &[u8]) -> Result<Bytes, AllocError>
    ensures { IfOk result (λ copy. copy ≡ bytes.now) }
{
    let mut items = Vec::new(alloc);
    items.extend_from_slice(bytes)?;
    Ok(Bytes::from_vec(items))
}

/// Answers a call that found no memory for its copy.
pub(crate) fn uncopied(handle: &mut Handle) -> i32
    ensures { IsUncopied handle.old handle.new result }
{
    if handle.is_open() {
        i32::from(Fault::Memory.number())
    } else {
        NOT_OPEN
    }
}
