//! The edits that make a block.
#![tactic(auto, using(crate::proofs::Texts::texts))]

ghost use Rattle.std.specs.Prelude.{◌≡◌, ◌++◌, ◌+◌, ◌*◌, ◌≤◌, ◌<◌, ℕ, true, Some, IfErr, OnOk, length};
ghost use Rattle.std.specs.Option.{option_copied};
ghost use Rattle.std.specs.FinMap.{get, keys};
ghost use Rattle.geos_model.specs.Document.{is_valid_body};
ghost use Rattle.geos_model.specs.Heap.{most_chunks, handle_of, table_len};
ghost use Rattle.geos_model.specs.Image.{image};
ghost use Rattle.geos_model.specs.declared.command.Body.{Body};
ghost use Rattle.geos_model.specs.declared.command.Body.TheVariants as model_bodies;
ghost use Rattle.document_dump.specs.Faults.{IsHeapBodyImage, IsBodyImage, IsRefusalOf};
ghost use Rattle.document_dump.specs.Lines.{line, text};
ghost use Rattle.document_dump.specs.Arrays.{is_zeros};
ghost use Rattle.document_dump.specs.Changes.{write_of, piece_at, piece_written, bytes_written, bytes_made, chunk_made, chunk_name, entries_passed, entry_edits, block_made, type_set};

use crate::arrays::{array_to_make, is_zeros};
use crate::fault::DumpFault;
use crate::lines::{
    push_alloc, push_free, push_new_heap, push_new_raw, push_type, push_write, push_write_raw,
};
use crate::rows::push_array_edits;
use file_format::BodyKind;
use file_report::read_heap;
use geos_model::{Attributes, ChunkHandle, VmHandle};
use lmem_heap::Heap;
use std::alloc::{AllocError, Global};

/// How many bytes a write has at most.
const PIECE: usize = 32;

/// What bytes are written into.
#[derive(Clone, Copy)]
pub enum Target {
    Raw(VmHandle),
    Chunk(VmHandle, ChunkHandle),
}

fn push_write_of(
    out: &mut Vec<u8>,
    target: Target,
    at: usize,
    bytes: &[u8],
) -> Result<(), AllocError>
    ensures { OnOk result (out.new.items ≡ out.old.items ++ line (write_of target at bytes.now)) }
{
    match target {
        Target::Raw(block) => push_write_raw(out, block, at, bytes),
        Target::Chunk(block, chunk) => push_write(out, block, chunk, at, bytes),
    }
}

fn piece_at(bytes: &[u8], k: usize) -> &[u8]
    requires { 32 * k ≤ length bytes.now }
    ensures { result.now ≡ piece_at bytes.now k }
{
    let rest = &bytes[PIECE * k..];
    &rest[..PIECE.min(rest.len())]
}

// A piece, over zeros.
fn push_piece(out: &mut Vec<u8>, target: Target, bytes: &[u8], k: usize) -> Result<(), AllocError>
    requires { 32 * k ≤ length bytes.now }
    ensures { OnOk result (out.new.items ≡ out.old.items ++ text (piece_written target bytes.now k)) }
{
    let piece = piece_at(bytes, k);
    if is_zeros(piece) {
        return Ok(());
    }
    push_write_of(out, target, PIECE * k, piece)
}

// Writes bytes over zeros that are as many.
fn push_pieces(out: &mut Vec<u8>, target: Target, bytes: &[u8]) -> Result<(), AllocError>
    ensures { OnOk result (out.new.items ≡ out.old.items ++ text (bytes_written target bytes.now)) }
{
    for k in 0..(bytes.len() + PIECE - 1) / PIECE {
        push_piece(out, target, bytes, k)?;
    }
    Ok(())
}

fn push_raw(
    out: &mut Vec<u8>,
    block: VmHandle,
    attributes: Attributes,
    bytes: &[u8],
) -> Result<(), AllocError>
    ensures { OnOk result
        (out.new.items ≡ out.old.items ++ text (block_made block attributes (model_bodies.Raw bytes.now))) }
{
    push_new_raw(out, attributes.user_id, bytes.len())?;
    push_pieces(out, Target::Raw(block), bytes)
}

/// Each handle of a heap's table gets a chunk, and those that aren't live are freed again.
#[derive(Clone, Copy)]
pub enum Pass {
    Making,
    Freeing,
}

fn push_bytes_chunk(
    out: &mut Vec<u8>,
    block: VmHandle,
    chunk: ChunkHandle,
    bytes: &[u8],
) -> Result<(), AllocError>
    ensures { OnOk result (out.new.items ≡ out.old.items ++ text (bytes_made block chunk bytes.now)) }
{
    push_alloc(out, block, bytes.len())?;
    push_pieces(out, Target::Chunk(block, chunk), bytes)
}

fn push_live_chunk(
    out: &mut Vec<u8>,
    block: VmHandle,
    chunk: ChunkHandle,
    bytes: &[u8],
) -> Result<(), AllocError>
    ensures { OnOk result (out.new.items ≡ out.old.items ++ text (chunk_made block chunk (Some bytes.now))) }
{
    match array_to_make(bytes) {
        Some(array) => push_array_edits(out, block, chunk, bytes, &array),
        None => push_bytes_chunk(out, block, chunk, bytes),
    }
}

fn push_chunk(
    out: &mut Vec<u8>,
    pass: Pass,
    block: VmHandle,
    chunk: ChunkHandle,
    bytes: Option<&[u8]>,
) -> Result<(), AllocError>
    ensures { OnOk result
        (out.new.items ≡ out.old.items ++ text (entry_edits pass block chunk (option_copied bytes.entry))) }
{
    match (pass, bytes) {
        (Pass::Making, None) => push_alloc(out, block, 0),
        (Pass::Making, Some(bytes)) => push_live_chunk(out, block, chunk, bytes),
        (Pass::Freeing, None) => push_free(out, block, chunk),
        (Pass::Freeing, Some(_)) => Ok(()),
    }
}

fn chunk_handle(i: usize) -> ChunkHandle
    requires { i < most_chunks }
    ensures { result ≡ chunk_name (handle_of i) }
{
    ChunkHandle((16 + 2 * i) as u16)
}

// The entry of a table, live or not.
fn push_entry(
    out: &mut Vec<u8>,
    pass: Pass,
    block: VmHandle,
    heap: &Heap,
    i: usize,
) -> Result<(), AllocError>
    requires { i < most_chunks }
    ensures { OnOk result (out.new.items ≡ out.old.items
        ++ text (entry_edits pass block (chunk_name (handle_of i)) (get heap.now.chunks (handle_of i)))) }
{
    let chunk = chunk_handle(i);
    push_chunk(out, pass, block, chunk, heap.chunk(chunk))
}

fn push_entries(
    out: &mut Vec<u8>,
    pass: Pass,
    block: VmHandle,
    heap: &Heap,
    slots: usize,
) -> Result<(), AllocError>
    requires { slots ≤ most_chunks }
    ensures { OnOk result (out.new.items ≡ out.old.items ++ text (entries_passed pass block heap.now.chunks slots)) }
{
    for i in 0..slots {
        push_entry(out, pass, block, heap, i)?;
    }
    Ok(())
}

pub fn push_type_set(
    out: &mut Vec<u8>,
    block: VmHandle,
    old: u16,
    new: u16,
) -> Result<(), AllocError>
    ensures { OnOk result (out.new.items ≡ out.old.items ++ text (type_set block old new)) }
{
    if old == new {
        return Ok(());
    }
    push_type(out, block, new)
}

fn push_heap(
    out: &mut Vec<u8>,
    block: VmHandle,
    attributes: Attributes,
    heap: &Heap,
    slots: usize,
) -> Result<(), AllocError>
    requires slots { slots ≡ table_len (keys heap.now.chunks) }
    requires few { slots ≤ most_chunks }
    ensures { OnOk result
        (out.new.items ≡ out.old.items ++ text (block_made block attributes (model_bodies.Heap heap.now.chunks))) }
{
    push_new_heap(out, attributes.user_id)?;
    push_type_set(out, block, 0, attributes.heap_type)?;
    push_entries(out, Pass::Making, block, heap, slots)?;
    push_entries(out, Pass::Freeing, block, heap, slots)
}

// The body is a heap, if any.
fn push_heap_image(
    alloc: Global,
    out: &mut Vec<u8>,
    block: VmHandle,
    attributes: Attributes,
    bytes: &[u8],
) -> Result<(), DumpFault>
    ensures err { IfErr result (IsRefusalOf (IsHeapBodyImage bytes.now)) }
    ensures ok { OnOk result ((body : Body) → is_valid_body body ≡ true → image body ≡ bytes.now
        → out.new.items ≡ out.old.items ++ text (block_made block attributes body)) }
{
    let (heap, slots) = read_heap(alloc, bytes)?;
    push_heap(out, block, attributes, &heap, slots)?;
    Ok(())
}

/// A block with these attributes and the body that this is the image of.
pub fn push_block(
    alloc: Global,
    out: &mut Vec<u8>,
    block: VmHandle,
    attributes: Attributes,
    bytes: &[u8],
) -> Result<(), DumpFault>
    ensures err { IfErr result (IsRefusalOf (IsBodyImage bytes.now)) }
    ensures ok { OnOk result ((body : Body) → is_valid_body body ≡ true → image body ≡ bytes.now
        → out.new.items ≡ out.old.items ++ text (block_made block attributes body)) }
{
    if bytes.is_empty() {
        return Err(DumpFault::Damaged);
    }
    if BodyKind::of_byte(bytes[0]).is_heap() {
        return push_heap_image(alloc, out, block, attributes, bytes);
    }
    push_raw(out, block, attributes, &bytes[1..])?;
    Ok(())
}
