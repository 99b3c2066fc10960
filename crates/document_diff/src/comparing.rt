//! Blocks that are compared.
#![tactic(auto, using(crate::proofs::Texts::texts))]

ghost use Rattle.std.specs.Prelude.{◌≡◌, ◌++◌, IfOk, OnOk};
ghost use Rattle.document_diff.specs.Blocks.{block_as_read, body_as_read, found_block};
ghost use Rattle.document_diff.specs.Differences.{attributes_compared, block_compared, bodies_compared, map_compared, raw_compared, size_of_body, type_compared, user_id_compared};
ghost use Rattle.document_diff.specs.Lines.{diff_line, diff_lines};
ghost use Rattle.document_diff.specs.declared.difference.Difference.TheVariants as differences;

use crate::block::{BlockRead, BodyRead};
use crate::bytes::{bytes_change, is_same};
use crate::difference::{BodySize, Difference};
use crate::heaps::push_heaps;
use crate::lines::push_difference;
use geos_model::{Attributes, VmHandle};
use std::alloc::AllocError;

fn size_of(body: &BodyRead) -> Result<BodySize, AllocError>
    ensures { IfOk result (λ size. size ≡ size_of_body (body_as_read body.now)) }
{
    match body {
        BodyRead::Raw(bytes) => Ok(BodySize::Raw(bytes.len())),
        BodyRead::Heap(heap) => {
            let handles = heap.handles()?;
            Ok(BodySize::Heap(handles.len()))
        }
    }
}

fn push_went(out: &mut Vec<u8>, block: VmHandle, old: &BodyRead) -> Result<(), AllocError>
    ensures { OnOk result
        (out.new.items ≡ out.old.items
        ++ diff_line (differences.BlockWent block (size_of_body (body_as_read old.now)))) }
{
    let size = size_of(old)?;
    push_difference(out, Difference::BlockWent(block, size))
}

fn push_came(out: &mut Vec<u8>, block: VmHandle, new: &BodyRead) -> Result<(), AllocError>
    ensures { OnOk result
        (out.new.items ≡ out.old.items
        ++ diff_line (differences.BlockCame block (size_of_body (body_as_read new.now)))) }
{
    let size = size_of(new)?;
    push_difference(out, Difference::BlockCame(block, size))
}

fn push_user_ids(out: &mut Vec<u8>, block: VmHandle, old: u16, new: u16) -> Result<(), AllocError>
    ensures { OnOk result (out.new.items ≡ out.old.items ++ diff_lines (user_id_compared block old new)) }
{
    if old == new {
        return Ok(());
    }
    push_difference(out, Difference::UserId(block, old, new))
}

fn push_types(out: &mut Vec<u8>, block: VmHandle, old: u16, new: u16) -> Result<(), AllocError>
    ensures { OnOk result (out.new.items ≡ out.old.items ++ diff_lines (type_compared block old new)) }
{
    if old == new {
        return Ok(());
    }
    push_difference(out, Difference::HeapType(block, old, new))
}

fn push_attributes(
    out: &mut Vec<u8>,
    block: VmHandle,
    old: Attributes,
    new: Attributes,
) -> Result<(), AllocError>
    ensures { OnOk result (out.new.items ≡ out.old.items ++ diff_lines (attributes_compared block old new)) }
{
    push_user_ids(out, block, old.user_id, new.user_id)?;
    push_types(out, block, old.heap_type, new.heap_type)
}

fn push_raws(out: &mut Vec<u8>, block: VmHandle, old: &[u8], new: &[u8]) -> Result<(), AllocError>
    ensures { OnOk result (out.new.items ≡ out.old.items ++ diff_lines (raw_compared block old.now new.now)) }
{
    if is_same(old, new) {
        return Ok(());
    }
    push_difference(out, Difference::RawChanged(block, bytes_change(old, new)))
}

// A block that is live in both.
fn push_both(
    out: &mut Vec<u8>,
    block: VmHandle,
    old: &BlockRead,
    new: &BlockRead,
) -> Result<(), AllocError>
    ensures { OnOk result (out.new.items ≡ out.old.items ++ diff_lines
        (bodies_compared block old.now.attributes new.now.attributes
        (body_as_read old.now.body) (body_as_read new.now.body))) }
{
    match (&old.body, &new.body) {
        (BodyRead::Raw(before), BodyRead::Raw(after)) => {
            push_attributes(out, block, old.attributes, new.attributes)?;
            push_raws(out, block, before.as_slice(), after.as_slice())
        }
        (BodyRead::Heap(before), BodyRead::Heap(after)) => {
            push_attributes(out, block, old.attributes, new.attributes)?;
            push_heaps(out, block, before, after)
        }
        (before, after) => {
            push_went(out, block, before)?;
            push_came(out, block, after)
        }
    }
}

/// What differs under a handle.
pub fn push_blocks(
    out: &mut Vec<u8>,
    block: VmHandle,
    old: &Option<BlockRead>,
    new: &Option<BlockRead>,
) -> Result<(), AllocError>
    ensures { OnOk result
        (out.new.items ≡ out.old.items
        ++ diff_lines (block_compared block (found_block old.now) (found_block new.now))) }
{
    match (old, new) {
        (None, None) => Ok(()),
        (Some(old), None) => push_went(out, block, &old.body),
        (None, Some(new)) => push_came(out, block, &new.body),
        (Some(old), Some(new)) => push_both(out, block, old, new),
    }
}

/// What differs of the map blocks.
pub fn push_map_blocks(out: &mut Vec<u8>, old: VmHandle, new: VmHandle) -> Result<(), AllocError>
    ensures { OnOk result (out.new.items ≡ out.old.items ++ diff_lines (map_compared old.0 new.0)) }
{
    if old.0 == new.0 {
        return Ok(());
    }
    push_difference(out, Difference::MapBlock(old, new))
}
