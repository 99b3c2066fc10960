//! What an edit of a chunk makes of its bytes: a change of a part of them, or the bytes of a new chunk.
ghost use Rattle.std.specs.Prelude.{◌≡◌, MatchResult};
ghost use Rattle.geos_model.specs.Document.{Document, chunks_of};
ghost use Rattle.geos_model.specs.Targets.{array_edit, byte_edit, chunk_array_edit, element_array_edit, name_array_edit, new_chunk};
ghost use Rattle.geos_model.specs.declared.command.Done.TheVariants as done;
ghost use Rattle.geos_model.specs.declared.handle.ChunkHandle.{ChunkHandle};
ghost use Rattle.geos_model.specs.declared.handle.VmHandle.{VmHandle};
ghost use Rattle.chunk_edits.specs.Found.{IsChunkIn};
ghost use Rattle.vm_blocks.specs.Changes.{content_bytes};
ghost use Rattle.vm_blocks.specs.declared.change.PartChange.TheVariants as parts;
ghost use Rattle.doc_edits.specs.Building.{Creates, MakesPart, MakesSplice, silently};
ghost use Rattle.doc_edits.specs.Found.{IsChunkAt, IsHeapAt};
ghost use Rattle.doc_edits.specs.Planning.{RefusesInMemory};

use chunk_edits::{ArrayPatch, Splice};
use geos_model::{
    ArrayEdit, ByteEdit, Bytes, ChunkArrayEdit, ChunkHandle, Done, ElementArrayEdit, Fault,
    NameArrayEdit, NewChunk,
};
use lmem_heap::{Heap, KnownBytes};
use std::alloc::Global;
use vm_blocks::Content;

/// What an edit of the bytes of a chunk as such changes of them, where the heap has room for what it makes.
pub fn build_splice(
    alloc: Global,
    heap: &Heap,
    chunk: ChunkHandle,
    bytes: &[u8],
    edit: ByteEdit<'_>,
) -> Result<Splice, Fault>
    requires { IsChunkIn heap.now.chunks chunk.0 bytes.now }
    ensures { (d : Document) (b : VmHandle) → IsHeapAt d b.0 heap.now.chunks → IsChunkAt d b.0 chunk.0 bytes.now
        → MatchResult result (λ s. MakesSplice (byte_edit b chunk edit.entry) d b chunk s)
        (RefusesInMemory (byte_edit b chunk edit.entry) d) }
{
    match edit {
        ByteEdit::Resize(n) => chunk_edits::resize(alloc, heap, chunk, bytes, n),
        ByteEdit::Insert(at, n) => chunk_edits::insert(alloc, heap, chunk, bytes, at, n),
        ByteEdit::Delete(at, n) => chunk_edits::delete(alloc, bytes, at, n),
        ByteEdit::Write(at, new) => chunk_edits::write(alloc, bytes, at, new),
        ByteEdit::Splice(at, n, new) => chunk_edits::splice(alloc, heap, chunk, bytes, at, n, new),
    }
}

/// What an edit of an array changes of the bytes of its chunk, and what it answers. Whether the heap has room for what
/// it makes isn't looked at.
pub fn build_patch(
    alloc: Global,
    bytes: &KnownBytes<'_>,
    edit: ArrayEdit<'_>,
) -> Result<(ArrayPatch, Done), Fault>
    ensures { (d : Document) (b : VmHandle) (c : ChunkHandle) → IsChunkAt d b.0 c.0 bytes.now
        → MatchResult result (λ built. let made = built.0 in
        MakesPart (array_edit b c edit.entry) d b c (parts.Patch c made.patch made.runs) built.1)
        (RefusesInMemory (array_edit b c edit.entry) d) }
{
    match edit {
        ArrayEdit::Chunk(edit) => silent(build_in_array(alloc, bytes, edit)),
        ArrayEdit::Element(edit) => build_in_elements(alloc, bytes, edit),
        ArrayEdit::Name(edit) => build_in_names(alloc, bytes, edit),
    }
}

/// Of a chunk array.
fn build_in_array(
    alloc: Global,
    bytes: &KnownBytes<'_>,
    edit: ChunkArrayEdit<'_>,
) -> Result<ArrayPatch, Fault>
    ensures { (d : Document) (b : VmHandle) (c : ChunkHandle) → IsChunkAt d b.0 c.0 bytes.now
        → MatchResult result
        (λ built. MakesPart (chunk_array_edit b c edit.entry) d b c (parts.Patch c built.patch built.runs) done.Nothing)
        (RefusesInMemory (chunk_array_edit b c edit.entry) d) }
{
    match edit {
        ChunkArrayEdit::Insert(i, new) => chunk_arrays::insert(alloc, bytes, i, new),
        ChunkArrayEdit::Set(i, new) => chunk_arrays::set(alloc, bytes, i, new),
        ChunkArrayEdit::Resize(i, n) => chunk_arrays::resize(alloc, bytes, i, n),
        ChunkArrayEdit::Delete(i, k) => chunk_arrays::delete(alloc, bytes, i, k),
        ChunkArrayEdit::Zero => chunk_arrays::zero(alloc, bytes),
    }
}

/// Of an element array.
fn build_in_elements(
    alloc: Global,
    bytes: &KnownBytes<'_>,
    edit: ElementArrayEdit<'_>,
) -> Result<(ArrayPatch, Done), Fault>
    ensures { (d : Document) (b : VmHandle) (c : ChunkHandle) → IsChunkAt d b.0 c.0 bytes.now
        → MatchResult result (λ built. let made = built.0 in
        MakesPart (element_array_edit b c edit.entry) d b c (parts.Patch c made.patch made.runs) built.1)
        (RefusesInMemory (element_array_edit b c edit.entry) d) }
{
    match edit {
        ElementArrayEdit::Add(element) => {
            let (built, token) = element_arrays::add(alloc, bytes, element)?;
            Ok((built, Done::Token(token)))
        }
        ElementArrayEdit::AddReference(token) => silent(element_arrays::add_ref(
            alloc, bytes, token,
        )),
        ElementArrayEdit::RemoveReference(token) => {
            silent(element_arrays::remove_ref(alloc, bytes, token))
        }
        ElementArrayEdit::Delete(token) => silent(element_arrays::delete(alloc, bytes, token)),
        ElementArrayEdit::Change(token, new) => {
            silent(element_arrays::change(alloc, bytes, token, new))
        }
    }
}

/// Of a name array.
fn build_in_names(
    alloc: Global,
    bytes: &KnownBytes<'_>,
    edit: NameArrayEdit<'_>,
) -> Result<(ArrayPatch, Done), Fault>
    ensures { (d : Document) (b : VmHandle) (c : ChunkHandle) → IsChunkAt d b.0 c.0 bytes.now
        → MatchResult result (λ built. let made = built.0 in
        MakesPart (name_array_edit b c edit.entry) d b c (parts.Patch c made.patch made.runs) built.1)
        (RefusesInMemory (name_array_edit b c edit.entry) d) }
{
    match edit {
        NameArrayEdit::Add(name, part, replace) => {
            let (built, token) = name_arrays::add(alloc, bytes, name, part, replace)?;
            Ok((built, Done::Token(token)))
        }
        NameArrayEdit::Change(token, name) => {
            silent(name_arrays::change_name(alloc, bytes, token, name))
        }
        NameArrayEdit::SetPart(token, part) => {
            silent(name_arrays::set_part(alloc, bytes, token, part))
        }
        NameArrayEdit::Remove(token) => silent(name_arrays::remove_ref(alloc, bytes, token)),
    }
}

/// What was built for an edit that answers nothing.
fn silent(built: Result<ArrayPatch, Fault>) -> Result<(ArrayPatch, Done), Fault>
    ensures { result ≡ silently built }
{
    Ok((built?, Done::Nothing))
}

/// What is in the chunk that an edit makes.
pub fn build_chunk(alloc: Global, new: NewChunk) -> Result<Content, Fault>
    ensures { (d : Document) (b : VmHandle) → IsHeapAt d b.0 (chunks_of d b.0)
        → MatchResult result (λ content. Creates (new_chunk b new) d b (content_bytes content))
        (RefusesInMemory (new_chunk b new) d) }
{
    match new {
        NewChunk::Zeros(n) => Ok(Content::Zeros(n)),
        NewChunk::Array(size, extra) => {
            let bytes = chunk_arrays::create_bytes(alloc, size, extra)?;
            Ok(Content::Bytes(Bytes::from_vec(bytes)))
        }
        NewChunk::ElementArray(size) => {
            let bytes = element_arrays::create_bytes(alloc, size)?;
            Ok(Content::Bytes(Bytes::from_vec(bytes)))
        }
        NewChunk::NameArray(part) => {
            let bytes = name_arrays::create_bytes(alloc, part)?;
            Ok(Content::Bytes(Bytes::from_vec(bytes)))
        }
    }
}
