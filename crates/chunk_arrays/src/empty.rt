//! The bytes of an array without elements.
ghost use Rattle.std.specs.Prelude.{◌≡◌, ◌^◌, ◌<◌, ◌+◌, [], IfOk, length};
ghost use Rattle.geos_model.specs.Array.{array_bytes};

use crate::rewriting::push_header;
use std::alloc::{AllocError, Global};

/// The bytes of an array without elements: the size that each will have, 0 where sizes vary, and the extra bytes.
pub fn empty_bytes(alloc: Global, size: u16, extra: &[u8]) -> Result<Vec<u8>, AllocError>
    requires { length extra.now + 8 < 2 ^ 16 }
    ensures { IfOk result
        (λ bytes. bytes.items ≡ array_bytes (record { extra = extra.now; size = size; elements = [] })) }
{
    let start = 8 + extra.len();
    let mut bytes = Vec::with_capacity(alloc, start)?;
    push_header(&mut bytes, 0, size as usize, start)?;
    bytes.extend_from_slice(extra)?;
    Ok(bytes)
}
