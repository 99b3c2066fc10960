//! The edits that make a chunk by the elements of an array.
#![tactic(auto, using(crate::proofs::Texts::texts))]

ghost use Rattle.std.specs.Prelude.{◌≡◌, ◌++◌, None, Some, MatchOption, OnOk};
ghost use Rattle.document_dump.specs.Lines.{text};
ghost use Rattle.document_dump.specs.Arrays.{array_made, array_to_make, elements_inserted, extra_written, if_creatable, is_zeros};

use crate::lines::{push_create_array, push_insert, push_write};
use chunk_arrays::{View, check};
use geos_model::{ChunkHandle, VmHandle};
use lmem_heap::KnownBytes;
use std::alloc::AllocError;

/// How many bytes each element has at most of an array that is made with one size for all.
const GREATEST_SIZE: usize = 4096;

/// How many extra bytes an array is made with at most.
const MOST_EXTRA: usize = 1024;

/// Where the extra bytes of an array begin.
const EXTRA_AT: usize = 8;

pub fn is_zeros(bytes: &[u8]) -> bool
    ensures { result ≡ is_zeros bytes.now }
{
    bytes.iter().all(|x| *x == 0)
}

fn if_creatable<'a>(view: View<'a>) -> Option<View<'a>>
    ensures { MatchOption result
        (if_creatable view.entry.array ≡ None)
        (λ array. if_creatable view.entry.array ≡ Some array.array) }
{
    if view.element_size() <= GREATEST_SIZE && view.extra().len() <= MOST_EXTRA {
        Some(view)
    } else {
        None
    }
}

/// The array by whose elements these bytes are made, if they are one.
pub fn array_to_make<'a>(bytes: &'a [u8]) -> Option<View<'a>>
    ensures { MatchOption result
        (array_to_make bytes.now ≡ None)
        (λ array. array_to_make bytes.now ≡ Some array.array) }
{
    let known = KnownBytes::new(bytes);
    match check(&known) {
        Ok(view) => if_creatable(view),
        Err(_) => None,
    }
}

fn push_extra(
    out: &mut Vec<u8>,
    block: VmHandle,
    chunk: ChunkHandle,
    extra: &[u8],
) -> Result<(), AllocError>
    ensures { OnOk result (out.new.items ≡ out.old.items ++ text (extra_written block chunk extra.now)) }
{
    if is_zeros(extra) {
        return Ok(());
    }
    push_write(out, block, chunk, EXTRA_AT, extra)
}

fn push_elements(
    out: &mut Vec<u8>,
    block: VmHandle,
    chunk: ChunkHandle,
    view: &View<'_>,
) -> Result<(), AllocError>
    ensures { OnOk result
        (out.new.items ≡ out.old.items ++ text (elements_inserted block chunk view.now.array.elements)) }
{
    let count = view.count();
    for i in 0..count {
        push_insert(out, block, chunk, view.element(count - 1 - i))?;
    }
    Ok(())
}

/// A new chunk with the bytes of an array.
pub fn push_array(
    out: &mut Vec<u8>,
    block: VmHandle,
    chunk: ChunkHandle,
    view: &View<'_>,
) -> Result<(), AllocError>
    ensures { OnOk result (out.new.items ≡ out.old.items ++ text (array_made block chunk view.now.array)) }
{
    push_create_array(out, block, view.element_size(), view.extra().len())?;
    push_extra(out, block, chunk, view.extra())?;
    push_elements(out, block, chunk, view)
}
