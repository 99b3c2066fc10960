//! Edits by name: those of `docs/SCRIPT.md`, with their names.
ghost use Rattle.geos_model.specs.declared.command.Edit.TheVariants as edits;
ghost use Rattle.geos_c.specs.Calls.{chunk_handle, element_count, token_numbered, vm};
ghost use Rattle.geos_c.specs.Handles.{Copies, CopiesAndReports, EditsOnHandle, MakesOnHandle};

use crate::calls;
use crate::copying::{copied, uncopied};
use crate::handle::{Handle, put, take};
use c_sessions::NOT_OPEN;
use geos_model::{ChunkHandle, Edit, ElementCount, Token, VmHandle};
use std::alloc::Global;

// Makes an edit in the session behind a handle, and hands out what it made.
fn make(handle: &mut Handle, alloc: Global, asked: &Edit, made: &mut u16) -> i32
    ensures { MakesOnHandle asked.now made.new handle.old handle.new result }
{
    *made = 0;
    answer!(handle, alloc, |session| calls::edit(session, asked, made))
}

// Makes one that makes nothing to be named.
fn edit(handle: &mut Handle, alloc: Global, asked: &Edit) -> i32
    ensures { EditsOnHandle asked.now handle.old handle.new result }
{
    let mut made = 0;
    make(handle, alloc, asked, &mut made)
}

// Blocks.

/// A raw block of so many zeros, with this user ID.
#[unsafe(no_mangle)]
pub extern "C" fn geosvm_newraw(
    handle: &mut Handle,
    alloc: Global,
    user_id: u16,
    size: u32,
    block: &mut u16,
) -> i32
    ensures { MakesOnHandle (edits.NewRaw user_id size) block.new handle.old handle.new result }
{
    make(handle, alloc, &Edit::NewRaw(user_id, size), block)
}

/// A block with an empty heap.
#[unsafe(no_mangle)]
pub extern "C" fn geosvm_newheap(
    handle: &mut Handle,
    alloc: Global,
    user_id: u16,
    block: &mut u16,
) -> i32
    ensures { MakesOnHandle (edits.NewHeap user_id) block.new handle.old handle.new result }
{
    make(handle, alloc, &Edit::NewHeap(user_id), block)
}

#[unsafe(no_mangle)]
pub extern "C" fn geosvm_vfree(handle: &mut Handle, alloc: Global, block: u16) -> i32
    ensures { EditsOnHandle (edits.FreeBlock (vm block)) handle.old handle.new result }
{
    edit(handle, alloc, &Edit::FreeBlock(VmHandle(block)))
}

/// A block with the same body, user ID and type. `copy` becomes its handle.
#[unsafe(no_mangle)]
pub extern "C" fn geosvm_vcopy(
    handle: &mut Handle,
    alloc: Global,
    block: u16,
    copy: &mut u16,
) -> i32
    ensures { MakesOnHandle (edits.CopyBlock (vm block)) copy.new handle.old handle.new result }
{
    make(handle, alloc, &Edit::CopyBlock(VmHandle(block)), copy)
}

/// Writes over the bytes of a raw block, from `at` on.
#[unsafe(no_mangle)]
pub extern "C" fn geosvm_vwrite(
    handle: &mut Handle,
    alloc: Global,
    block: u16,
    at: u32,
    bytes: &[u8],
) -> i32
    ensures { Copies (EditsOnHandle (edits.WriteRaw (vm block) at bytes.now)) handle.old handle.new result }
{
    let Ok(bytes) = copied(alloc, bytes) else {
        return uncopied(handle);
    };
    edit(handle, alloc, &Edit::WriteRaw(VmHandle(block), at, bytes))
}

/// Puts these bytes in the place of `count` of a raw block, from `at` on.
#[unsafe(no_mangle)]
pub extern "C" fn geosvm_vsplice(
    handle: &mut Handle,
    alloc: Global,
    block: u16,
    at: u32,
    count: u32,
    bytes: &[u8],
) -> i32
    ensures { Copies (EditsOnHandle (edits.SpliceRaw (vm block) at count bytes.now)) handle.old handle.new result }
{
    let Ok(bytes) = copied(alloc, bytes) else {
        return uncopied(handle);
    };
    edit(
        handle,
        alloc,
        &Edit::SpliceRaw(VmHandle(block), at, count, bytes),
    )
}

/// Gives a raw block these bytes in place of its own.
#[unsafe(no_mangle)]
pub extern "C" fn geosvm_attach(handle: &mut Handle, alloc: Global, block: u16, bytes: &[u8]) -> i32
    ensures { Copies (EditsOnHandle (edits.Attach (vm block) bytes.now)) handle.old handle.new result }
{
    let Ok(bytes) = copied(alloc, bytes) else {
        return uncopied(handle);
    };
    edit(handle, alloc, &Edit::Attach(VmHandle(block), bytes))
}

#[unsafe(no_mangle)]
pub extern "C" fn geosvm_uid(handle: &mut Handle, alloc: Global, block: u16, user_id: u16) -> i32
    ensures { EditsOnHandle (edits.SetUserId (vm block) user_id) handle.old handle.new result }
{
    edit(handle, alloc, &Edit::SetUserId(VmHandle(block), user_id))
}

#[unsafe(no_mangle)]
pub extern "C" fn geosvm_settype(
    handle: &mut Handle,
    alloc: Global,
    block: u16,
    heap_type: u16,
) -> i32
    ensures { EditsOnHandle (edits.SetType (vm block) heap_type) handle.old handle.new result }
{
    edit(handle, alloc, &Edit::SetType(VmHandle(block), heap_type))
}

/// Makes a block the map block; 0 leaves none.
#[unsafe(no_mangle)]
pub extern "C" fn geosvm_map(handle: &mut Handle, alloc: Global, block: u16) -> i32
    ensures { EditsOnHandle (edits.SetMap (vm block)) handle.old handle.new result }
{
    edit(handle, alloc, &Edit::SetMap(VmHandle(block)))
}

// Chunks.

/// A chunk of so many zeros.
#[unsafe(no_mangle)]
pub extern "C" fn geosvm_alloc(
    handle: &mut Handle,
    alloc: Global,
    block: u16,
    size: u32,
    chunk: &mut u16,
) -> i32
    ensures { MakesOnHandle (edits.Alloc (vm block) size) chunk.new handle.old handle.new result }
{
    make(handle, alloc, &Edit::Alloc(VmHandle(block), size), chunk)
}

#[unsafe(no_mangle)]
pub extern "C" fn geosvm_free(handle: &mut Handle, alloc: Global, block: u16, chunk: u16) -> i32
    ensures { EditsOnHandle (edits.Free (vm block) (chunk_handle chunk)) handle.old handle.new result }
{
    edit(
        handle,
        alloc,
        &Edit::Free(VmHandle(block), ChunkHandle(chunk)),
    )
}

#[unsafe(no_mangle)]
pub extern "C" fn geosvm_resize(
    handle: &mut Handle,
    alloc: Global,
    block: u16,
    chunk: u16,
    size: u32,
) -> i32
    ensures { EditsOnHandle (edits.Resize (vm block) (chunk_handle chunk) size) handle.old handle.new result }
{
    edit(
        handle,
        alloc,
        &Edit::Resize(VmHandle(block), ChunkHandle(chunk), size),
    )
}

/// Puts so many zeros in before the byte at `at`.
#[unsafe(no_mangle)]
pub extern "C" fn geosvm_insert(
    handle: &mut Handle,
    alloc: Global,
    block: u16,
    chunk: u16,
    at: u32,
    size: u32,
) -> i32
    ensures { EditsOnHandle (edits.Insert (vm block) (chunk_handle chunk) at size) handle.old handle.new result }
{
    edit(
        handle,
        alloc,
        &Edit::Insert(VmHandle(block), ChunkHandle(chunk), at, size),
    )
}

/// Takes so many bytes out, from `at` on.
#[unsafe(no_mangle)]
pub extern "C" fn geosvm_delete(
    handle: &mut Handle,
    alloc: Global,
    block: u16,
    chunk: u16,
    at: u32,
    size: u32,
) -> i32
    ensures { EditsOnHandle (edits.Delete (vm block) (chunk_handle chunk) at size) handle.old handle.new result }
{
    edit(
        handle,
        alloc,
        &Edit::Delete(VmHandle(block), ChunkHandle(chunk), at, size),
    )
}

/// Writes over the bytes of a chunk, from `at` on.
#[unsafe(no_mangle)]
pub extern "C" fn geosvm_write(
    handle: &mut Handle,
    alloc: Global,
    block: u16,
    chunk: u16,
    at: u32,
    bytes: &[u8],
) -> i32
    ensures { Copies (EditsOnHandle (edits.Write (vm block) (chunk_handle chunk) at bytes.now))
        handle.old handle.new result }
{
    let Ok(bytes) = copied(alloc, bytes) else {
        return uncopied(handle);
    };
    edit(
        handle,
        alloc,
        &Edit::Write(VmHandle(block), ChunkHandle(chunk), at, bytes),
    )
}

/// Puts these bytes in the place of `count` of a chunk, from `at` on.
#[unsafe(no_mangle)]
pub extern "C" fn geosvm_splice(
    handle: &mut Handle,
    alloc: Global,
    block: u16,
    chunk: u16,
    at: u32,
    count: u32,
    bytes: &[u8],
) -> i32
    ensures { Copies (EditsOnHandle (edits.Splice (vm block) (chunk_handle chunk) at count bytes.now))
        handle.old handle.new result }
{
    let Ok(bytes) = copied(alloc, bytes) else {
        return uncopied(handle);
    };
    edit(
        handle,
        alloc,
        &Edit::Splice(VmHandle(block), ChunkHandle(chunk), at, count, bytes),
    )
}

// Arrays.

/// An array of elements of this size, 0 where sizes vary, with so many zeros as extra bytes.
#[unsafe(no_mangle)]
pub extern "C" fn geosvm_acreate(
    handle: &mut Handle,
    alloc: Global,
    block: u16,
    size: u32,
    extra: u32,
    chunk: &mut u16,
) -> i32
    ensures { MakesOnHandle (edits.CreateArray (vm block) size extra) chunk.new handle.old handle.new result }
{
    make(
        handle,
        alloc,
        &Edit::CreateArray(VmHandle(block), size, extra),
        chunk,
    )
}

/// These bytes become an element before the one that has this number.
#[unsafe(no_mangle)]
pub extern "C" fn geosvm_ainsert(
    handle: &mut Handle,
    alloc: Global,
    block: u16,
    chunk: u16,
    i: u32,
    bytes: &[u8],
) -> i32
    ensures { Copies (EditsOnHandle (edits.InsertElement (vm block) (chunk_handle chunk) i bytes.now))
        handle.old handle.new result }
{
    let Ok(bytes) = copied(alloc, bytes) else {
        return uncopied(handle);
    };
    edit(
        handle,
        alloc,
        &Edit::InsertElement(VmHandle(block), ChunkHandle(chunk), i, bytes),
    )
}

#[unsafe(no_mangle)]
pub extern "C" fn geosvm_aset(
    handle: &mut Handle,
    alloc: Global,
    block: u16,
    chunk: u16,
    i: u32,
    bytes: &[u8],
) -> i32
    ensures { Copies (EditsOnHandle (edits.SetElement (vm block) (chunk_handle chunk) i bytes.now))
        handle.old handle.new result }
{
    let Ok(bytes) = copied(alloc, bytes) else {
        return uncopied(handle);
    };
    edit(
        handle,
        alloc,
        &Edit::SetElement(VmHandle(block), ChunkHandle(chunk), i, bytes),
    )
}

#[unsafe(no_mangle)]
pub extern "C" fn geosvm_aresize(
    handle: &mut Handle,
    alloc: Global,
    block: u16,
    chunk: u16,
    i: u32,
    size: u32,
) -> i32
    ensures { EditsOnHandle (edits.ResizeElement (vm block) (chunk_handle chunk) i size) handle.old handle.new result }
{
    edit(
        handle,
        alloc,
        &Edit::ResizeElement(VmHandle(block), ChunkHandle(chunk), i, size),
    )
}

/// Deletes so many elements, from this one on.
#[unsafe(no_mangle)]
pub extern "C" fn geosvm_adelete(
    handle: &mut Handle,
    alloc: Global,
    block: u16,
    chunk: u16,
    i: u32,
    count: u32,
) -> i32
    ensures { EditsOnHandle (edits.DeleteElements (vm block) (chunk_handle chunk) i count)
        handle.old handle.new result }
{
    edit(
        handle,
        alloc,
        &Edit::DeleteElements(VmHandle(block), ChunkHandle(chunk), i, count),
    )
}

/// Deletes all elements.
#[unsafe(no_mangle)]
pub extern "C" fn geosvm_azero(handle: &mut Handle, alloc: Global, block: u16, chunk: u16) -> i32
    ensures { EditsOnHandle (edits.ZeroArray (vm block) (chunk_handle chunk)) handle.old handle.new result }
{
    edit(
        handle,
        alloc,
        &Edit::ZeroArray(VmHandle(block), ChunkHandle(chunk)),
    )
}

// Element arrays.

/// An element array with data of this size, 0 where sizes vary.
#[unsafe(no_mangle)]
pub extern "C" fn geosvm_ecreate(
    handle: &mut Handle,
    alloc: Global,
    block: u16,
    size: u32,
    chunk: &mut u16,
) -> i32
    ensures { MakesOnHandle (edits.CreateElementArray (vm block) size) chunk.new handle.old handle.new result }
{
    make(
        handle,
        alloc,
        &Edit::CreateElementArray(VmHandle(block), size),
        chunk,
    )
}

/// Gives the element with these bytes one more reference, or makes it.
#[unsafe(no_mangle)]
pub extern "C" fn geosvm_eadd(
    handle: &mut Handle,
    alloc: Global,
    block: u16,
    chunk: u16,
    bytes: &[u8],
    token: &mut u16,
) -> i32
    ensures { CopiesAndReports token.new
        (MakesOnHandle (edits.AddElement (vm block) (chunk_handle chunk) bytes.now) token.new)
        handle.old handle.new result }
{
    *token = 0;
    let Ok(bytes) = copied(alloc, bytes) else {
        return uncopied(handle);
    };
    make(
        handle,
        alloc,
        &Edit::AddElement(VmHandle(block), ChunkHandle(chunk), bytes),
        token,
    )
}

#[unsafe(no_mangle)]
pub extern "C" fn geosvm_eref(
    handle: &mut Handle,
    alloc: Global,
    block: u16,
    chunk: u16,
    token: u16,
) -> i32
    ensures { EditsOnHandle (edits.AddReference (vm block) (chunk_handle chunk) (token_numbered token))
        handle.old handle.new result }
{
    edit(
        handle,
        alloc,
        &Edit::AddReference(VmHandle(block), ChunkHandle(chunk), Token(token)),
    )
}

#[unsafe(no_mangle)]
pub extern "C" fn geosvm_eunref(
    handle: &mut Handle,
    alloc: Global,
    block: u16,
    chunk: u16,
    token: u16,
) -> i32
    ensures { EditsOnHandle (edits.RemoveReference (vm block) (chunk_handle chunk) (token_numbered token))
        handle.old handle.new result }
{
    edit(
        handle,
        alloc,
        &Edit::RemoveReference(VmHandle(block), ChunkHandle(chunk), Token(token)),
    )
}

/// Frees an element, whatever its references.
#[unsafe(no_mangle)]
pub extern "C" fn geosvm_edelete(
    handle: &mut Handle,
    alloc: Global,
    block: u16,
    chunk: u16,
    token: u16,
) -> i32
    ensures { EditsOnHandle (edits.DeleteElement (vm block) (chunk_handle chunk) (token_numbered token))
        handle.old handle.new result }
{
    edit(
        handle,
        alloc,
        &Edit::DeleteElement(VmHandle(block), ChunkHandle(chunk), Token(token)),
    )
}

#[unsafe(no_mangle)]
pub extern "C" fn geosvm_echange(
    handle: &mut Handle,
    alloc: Global,
    block: u16,
    chunk: u16,
    token: u16,
    bytes: &[u8],
) -> i32
    ensures { Copies (EditsOnHandle (edits.ChangeElement (vm block) (chunk_handle chunk)
        (token_numbered token) bytes.now))
        handle.old handle.new result }
{
    let Ok(bytes) = copied(alloc, bytes) else {
        return uncopied(handle);
    };
    edit(
        handle,
        alloc,
        &Edit::ChangeElement(VmHandle(block), ChunkHandle(chunk), Token(token), bytes),
    )
}

// Name arrays.

/// A name array with parts of this size.
#[unsafe(no_mangle)]
pub extern "C" fn geosvm_ncreate(
    handle: &mut Handle,
    alloc: Global,
    block: u16,
    size: u32,
    chunk: &mut u16,
) -> i32
    ensures { MakesOnHandle (edits.CreateNameArray (vm block) size) chunk.new handle.old handle.new result }
{
    make(
        handle,
        alloc,
        &Edit::CreateNameArray(VmHandle(block), size),
        chunk,
    )
}

/// Gives a name one more reference, or makes it with this part. One that is there gets the part where `sets`.
#[unsafe(no_mangle)]
pub extern "C" fn geosvm_nadd(
    handle: &mut Handle,
    alloc: Global,
    block: u16,
    chunk: u16,
    name: &[u8],
    part: &[u8],
    sets: bool,
    token: &mut u16,
) -> i32
    ensures { CopiesAndReports token.new
        (MakesOnHandle (edits.AddName (vm block) (chunk_handle chunk) name.now part.now sets) token.new)
        handle.old handle.new result }
{
    *token = 0;
    let Ok(name) = copied(alloc, name) else {
        return uncopied(handle);
    };
    let Ok(part) = copied(alloc, part) else {
        return uncopied(handle);
    };
    make(
        handle,
        alloc,
        &Edit::AddName(VmHandle(block), ChunkHandle(chunk), name, part, sets),
        token,
    )
}

#[unsafe(no_mangle)]
pub extern "C" fn geosvm_nname(
    handle: &mut Handle,
    alloc: Global,
    block: u16,
    chunk: u16,
    token: u16,
    name: &[u8],
) -> i32
    ensures { Copies (EditsOnHandle (edits.ChangeName (vm block) (chunk_handle chunk) (token_numbered token) name.now))
        handle.old handle.new result }
{
    let Ok(name) = copied(alloc, name) else {
        return uncopied(handle);
    };
    edit(
        handle,
        alloc,
        &Edit::ChangeName(VmHandle(block), ChunkHandle(chunk), Token(token), name),
    )
}

/// Gives the name of a token this part.
#[unsafe(no_mangle)]
pub extern "C" fn geosvm_nset(
    handle: &mut Handle,
    alloc: Global,
    block: u16,
    chunk: u16,
    token: u16,
    part: &[u8],
) -> i32
    ensures { Copies (EditsOnHandle (edits.SetNamePart (vm block) (chunk_handle chunk) (token_numbered token) part.now))
        handle.old handle.new result }
{
    let Ok(part) = copied(alloc, part) else {
        return uncopied(handle);
    };
    edit(
        handle,
        alloc,
        &Edit::SetNamePart(VmHandle(block), ChunkHandle(chunk), Token(token), part),
    )
}

#[unsafe(no_mangle)]
pub extern "C" fn geosvm_nunref(
    handle: &mut Handle,
    alloc: Global,
    block: u16,
    chunk: u16,
    token: u16,
) -> i32
    ensures { EditsOnHandle (edits.RemoveName (vm block) (chunk_handle chunk) (token_numbered token))
        handle.old handle.new result }
{
    edit(
        handle,
        alloc,
        &Edit::RemoveName(VmHandle(block), ChunkHandle(chunk), Token(token)),
    )
}

// Chains.

/// A copy of each block of a chain. `copy` becomes the handle of the root's.
#[unsafe(no_mangle)]
pub extern "C" fn geosvm_chcopy(
    handle: &mut Handle,
    alloc: Global,
    block: u16,
    copy: &mut u16,
) -> i32
    ensures { MakesOnHandle (edits.CopyChain (vm block)) copy.new handle.old handle.new result }
{
    make(handle, alloc, &Edit::CopyChain(VmHandle(block)), copy)
}

/// Frees all blocks of a chain.
#[unsafe(no_mangle)]
pub extern "C" fn geosvm_chfree(handle: &mut Handle, alloc: Global, block: u16) -> i32
    ensures { EditsOnHandle (edits.FreeChain (vm block)) handle.old handle.new result }
{
    edit(handle, alloc, &Edit::FreeChain(VmHandle(block)))
}

// Large arrays.

/// A large array of elements of this size, 0 where sizes vary. `root` becomes its root, which has this user ID.
#[unsafe(no_mangle)]
pub extern "C" fn geosvm_hcreate(
    handle: &mut Handle,
    alloc: Global,
    user_id: u16,
    size: u32,
    root: &mut u16,
) -> i32
    ensures { MakesOnHandle (edits.CreateLarge user_id size) root.new handle.old handle.new result }
{
    make(handle, alloc, &Edit::CreateLarge(user_id, size), root)
}

/// Puts these bytes in before the element that has this number: one element, or as many of its size as they are.
#[unsafe(no_mangle)]
pub extern "C" fn geosvm_hinsert(
    handle: &mut Handle,
    alloc: Global,
    root: u16,
    i: u32,
    bytes: &[u8],
) -> i32
    ensures { Copies (EditsOnHandle (edits.InsertLarge (vm root) (element_count i) bytes.now))
        handle.old handle.new result }
{
    let Ok(bytes) = copied(alloc, bytes) else {
        return uncopied(handle);
    };
    edit(
        handle,
        alloc,
        &Edit::InsertLarge(VmHandle(root), ElementCount(i), bytes),
    )
}

/// Puts these bytes in the place of as many elements, from this one on.
#[unsafe(no_mangle)]
pub extern "C" fn geosvm_hset(
    handle: &mut Handle,
    alloc: Global,
    root: u16,
    i: u32,
    bytes: &[u8],
) -> i32
    ensures { Copies (EditsOnHandle (edits.SetLarge (vm root) (element_count i) bytes.now))
        handle.old handle.new result }
{
    let Ok(bytes) = copied(alloc, bytes) else {
        return uncopied(handle);
    };
    edit(
        handle,
        alloc,
        &Edit::SetLarge(VmHandle(root), ElementCount(i), bytes),
    )
}

/// Deletes so many elements, from this one on.
#[unsafe(no_mangle)]
pub extern "C" fn geosvm_hdelete(
    handle: &mut Handle,
    alloc: Global,
    root: u16,
    i: u32,
    count: u32,
) -> i32
    ensures { EditsOnHandle (edits.DeleteLarge (vm root) (element_count i) (element_count count))
        handle.old handle.new result }
{
    edit(
        handle,
        alloc,
        &Edit::DeleteLarge(VmHandle(root), ElementCount(i), ElementCount(count)),
    )
}
