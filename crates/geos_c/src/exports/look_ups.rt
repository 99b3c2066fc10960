//! Look-ups by name: those of `docs/SCRIPT.md`, with their names. What is refused hands out no bytes, and else 0.
ghost use Rattle.std.specs.Prelude.{◌≡◌};
ghost use Rattle.geos_model.specs.Forms.{form_asked};
ghost use Rattle.geos_model.specs.Forms as forms;
ghost use Rattle.geos_model.specs.declared.command.Command.TheVariants as commands;
ghost use Rattle.geos_c.specs.Calls.{chunk_handle, element_count, token_numbered, vm};
ghost use Rattle.geos_c.specs.Handles.{CopiesAndReports, EqualOnHandle, HandsOutOnHandle, InfoOnHandle, NumberOnHandle};
ghost use Rattle.geos_c.specs.LookUps.{ReadsBytes};
ghost use Rattle.geos_c.specs.Stores.{facts};

use crate::copying::{copied, uncopied};
use crate::handle::{Handle, put, take};
use crate::look_ups;
use c_sessions::NOT_OPEN;
use geos_model::{ChunkHandle, Command, ElementCount, Token, VmHandle};
use std::alloc::Global;

// Asks the session behind a handle for a number.
fn number(handle: &mut Handle, alloc: Global, asked: &Command, number: &mut usize) -> i32
    requires { form_asked asked.now ≡ forms.Number }
    ensures { NumberOnHandle asked.now number.new handle.old handle.new result }
{
    *number = 0;
    answer!(
        handle,
        alloc,
        |session| look_ups::number(session, asked, number)
    )
}

// Asks it for a block or a token.
fn word(handle: &mut Handle, alloc: Global, asked: &Command, word: &mut u16) -> i32
    requires { form_asked asked.now ≡ forms.Name }
    ensures { NumberOnHandle asked.now word.new handle.old handle.new result }
{
    *word = 0;
    answer!(
        handle,
        alloc,
        |session| look_ups::word(session, asked, word)
    )
}

// Asks it for bytes. `length` becomes how many there are; as many as fit lie in the buffer.
fn bytes(
    handle: &mut Handle,
    alloc: Global,
    asked: &Command,
    buffer: &mut [u8],
    length: &mut usize,
) -> i32
    requires { form_asked asked.now ≡ forms.Bytes }
    ensures { HandsOutOnHandle (ReadsBytes facts asked.now)
        handle.old handle.new buffer.old buffer.new length.new result }
{
    *length = 0;
    answer!(
        handle,
        alloc,
        |session| look_ups::bytes(session, asked, buffer, length)
    )
}

// Asks it for handles, likewise.
fn handles(
    handle: &mut Handle,
    alloc: Global,
    asked: &Command,
    buffer: &mut [u16],
    length: &mut usize,
) -> i32
    requires { form_asked asked.now ≡ forms.Names }
    ensures { HandsOutOnHandle (ReadsBytes facts asked.now)
        handle.old handle.new buffer.old buffer.new length.new result }
{
    *length = 0;
    answer!(
        handle,
        alloc,
        |session| look_ups::handles(session, asked, buffer, length)
    )
}

// Blocks.

/// Whether a block is a heap, which is 1, or a raw block, 0; its user ID, and the bytes that a heap needs, or that a
/// raw block has.
#[unsafe(no_mangle)]
pub extern "C" fn geosvm_info(
    handle: &mut Handle,
    alloc: Global,
    block: u16,
    is_heap: &mut u8,
    user_id: &mut u16,
    size: &mut u32,
) -> i32
    ensures { InfoOnHandle (commands.Info (vm block)) is_heap.new user_id.new size.new handle.old handle.new result }
{
    *is_heap = 0;
    *user_id = 0;
    *size = 0;
    answer!(
        handle,
        alloc,
        |session| look_ups::info(session, VmHandle(block), is_heap, user_id, size)
    )
}

/// The type of a heap.
#[unsafe(no_mangle)]
pub extern "C" fn geosvm_gettype(
    handle: &mut Handle,
    alloc: Global,
    block: u16,
    heap_type: &mut u16,
) -> i32
    ensures { NumberOnHandle (commands.HeapType (vm block)) heap_type.new handle.old handle.new result }
{
    *heap_type = 0;
    answer!(
        handle,
        alloc,
        |session| look_ups::heap_type(session, VmHandle(block), heap_type)
    )
}

/// The live blocks, rising.
#[unsafe(no_mangle)]
pub extern "C" fn geosvm_list(
    handle: &mut Handle,
    alloc: Global,
    blocks: &mut [u16],
    length: &mut usize,
) -> i32
    ensures { HandsOutOnHandle (ReadsBytes facts commands.List)
        handle.old handle.new blocks.old blocks.new length.new result }
{
    handles(handle, alloc, &Command::List, blocks, length)
}

/// The least handle above `start` with this user ID. `block` becomes 0 where there is none.
#[unsafe(no_mangle)]
pub extern "C" fn geosvm_find(
    handle: &mut Handle,
    alloc: Global,
    user_id: u16,
    start: u16,
    block: &mut u16,
) -> i32
    ensures { NumberOnHandle (commands.Find user_id (vm start)) block.new handle.old handle.new result }
{
    word(
        handle,
        alloc,
        &Command::Find(user_id, VmHandle(start)),
        block,
    )
}

/// `block` becomes 0 where there is none.
#[unsafe(no_mangle)]
pub extern "C" fn geosvm_mapblock(handle: &mut Handle, alloc: Global, block: &mut u16) -> i32
    ensures { NumberOnHandle commands.MapBlock block.new handle.old handle.new result }
{
    word(handle, alloc, &Command::MapBlock, block)
}

/// The bytes of a raw block.
#[unsafe(no_mangle)]
pub extern "C" fn geosvm_vread(
    handle: &mut Handle,
    alloc: Global,
    block: u16,
    buffer: &mut [u8],
    length: &mut usize,
) -> i32
    ensures { HandsOutOnHandle (ReadsBytes facts (commands.ReadRaw (vm block)))
        handle.old handle.new buffer.old buffer.new length.new result }
{
    bytes(
        handle,
        alloc,
        &Command::ReadRaw(VmHandle(block)),
        buffer,
        length,
    )
}

// Chunks.

/// The live chunks of a heap, rising.
#[unsafe(no_mangle)]
pub extern "C" fn geosvm_chunks(
    handle: &mut Handle,
    alloc: Global,
    block: u16,
    chunks: &mut [u16],
    length: &mut usize,
) -> i32
    ensures { HandsOutOnHandle (ReadsBytes facts (commands.Chunks (vm block)))
        handle.old handle.new chunks.old chunks.new length.new result }
{
    handles(
        handle,
        alloc,
        &Command::Chunks(VmHandle(block)),
        chunks,
        length,
    )
}

/// The bytes of a chunk.
#[unsafe(no_mangle)]
pub extern "C" fn geosvm_read(
    handle: &mut Handle,
    alloc: Global,
    block: u16,
    chunk: u16,
    buffer: &mut [u8],
    length: &mut usize,
) -> i32
    ensures { HandsOutOnHandle (ReadsBytes facts (commands.Read (vm block) (chunk_handle chunk)))
        handle.old handle.new buffer.old buffer.new length.new result }
{
    bytes(
        handle,
        alloc,
        &Command::Read(VmHandle(block), ChunkHandle(chunk)),
        buffer,
        length,
    )
}

// Arrays.

/// How many elements an array of any kind has.
#[unsafe(no_mangle)]
pub extern "C" fn geosvm_acount(
    handle: &mut Handle,
    alloc: Global,
    block: u16,
    chunk: u16,
    count: &mut usize,
) -> i32
    ensures { NumberOnHandle (commands.ArrayCount (vm block) (chunk_handle chunk)) count.new
        handle.old handle.new result }
{
    number(
        handle,
        alloc,
        &Command::ArrayCount(VmHandle(block), ChunkHandle(chunk)),
        count,
    )
}

/// The bytes of an element by its number, from 0 on.
#[unsafe(no_mangle)]
pub extern "C" fn geosvm_aget(
    handle: &mut Handle,
    alloc: Global,
    block: u16,
    chunk: u16,
    i: u32,
    buffer: &mut [u8],
    length: &mut usize,
) -> i32
    ensures { HandsOutOnHandle (ReadsBytes facts (commands.ArrayElement (vm block) (chunk_handle chunk) i))
        handle.old handle.new buffer.old buffer.new length.new result }
{
    bytes(
        handle,
        alloc,
        &Command::ArrayElement(VmHandle(block), ChunkHandle(chunk), i),
        buffer,
        length,
    )
}

// Element arrays.

/// How many references an element has.
#[unsafe(no_mangle)]
pub extern "C" fn geosvm_ecount(
    handle: &mut Handle,
    alloc: Global,
    block: u16,
    chunk: u16,
    token: u16,
    count: &mut usize,
) -> i32
    ensures { NumberOnHandle (commands.ElementReferences (vm block) (chunk_handle chunk) (token_numbered token))
        count.new
        handle.old handle.new result }
{
    number(
        handle,
        alloc,
        &Command::ElementReferences(VmHandle(block), ChunkHandle(chunk), Token(token)),
        count,
    )
}

/// The bytes of an element.
#[unsafe(no_mangle)]
pub extern "C" fn geosvm_edata(
    handle: &mut Handle,
    alloc: Global,
    block: u16,
    chunk: u16,
    token: u16,
    buffer: &mut [u8],
    length: &mut usize,
) -> i32
    ensures { HandsOutOnHandle (ReadsBytes facts
        (commands.ElementBytes (vm block) (chunk_handle chunk) (token_numbered token)))
        handle.old handle.new buffer.old buffer.new length.new result }
{
    bytes(
        handle,
        alloc,
        &Command::ElementBytes(VmHandle(block), ChunkHandle(chunk), Token(token)),
        buffer,
        length,
    )
}

/// How many elements are used.
#[unsafe(no_mangle)]
pub extern "C" fn geosvm_eused(
    handle: &mut Handle,
    alloc: Global,
    block: u16,
    chunk: u16,
    count: &mut usize,
) -> i32
    ensures { NumberOnHandle (commands.ElementsUsed (vm block) (chunk_handle chunk)) count.new
        handle.old handle.new result }
{
    number(
        handle,
        alloc,
        &Command::ElementsUsed(VmHandle(block), ChunkHandle(chunk)),
        count,
    )
}

/// The token of a used element by its number, from 0 on.
#[unsafe(no_mangle)]
pub extern "C" fn geosvm_etoken(
    handle: &mut Handle,
    alloc: Global,
    block: u16,
    chunk: u16,
    k: u32,
    token: &mut u16,
) -> i32
    ensures { NumberOnHandle (commands.TokenOfUsed (vm block) (chunk_handle chunk) k) token.new
        handle.old handle.new result }
{
    word(
        handle,
        alloc,
        &Command::TokenOfUsed(VmHandle(block), ChunkHandle(chunk), k),
        token,
    )
}

/// How many used tokens are lower.
#[unsafe(no_mangle)]
pub extern "C" fn geosvm_eindex(
    handle: &mut Handle,
    alloc: Global,
    block: u16,
    chunk: u16,
    token: u16,
    index: &mut usize,
) -> i32
    ensures { NumberOnHandle (commands.UsedOfToken (vm block) (chunk_handle chunk) (token_numbered token)) index.new
        handle.old handle.new result }
{
    number(
        handle,
        alloc,
        &Command::UsedOfToken(VmHandle(block), ChunkHandle(chunk), Token(token)),
        index,
    )
}

// Name arrays.

/// The token of a name, the lowest that has it.
#[unsafe(no_mangle)]
pub extern "C" fn geosvm_nfind(
    handle: &mut Handle,
    alloc: Global,
    block: u16,
    chunk: u16,
    name: &[u8],
    token: &mut u16,
) -> i32
    ensures { CopiesAndReports token.new
        (NumberOnHandle (commands.NameFind (vm block) (chunk_handle chunk) name.now) token.new)
        handle.old handle.new result }
{
    *token = 0;
    let Ok(name) = copied(alloc, name) else {
        return uncopied(handle);
    };
    word(
        handle,
        alloc,
        &Command::NameFind(VmHandle(block), ChunkHandle(chunk), name),
        token,
    )
}

/// How many references a name has.
#[unsafe(no_mangle)]
pub extern "C" fn geosvm_ncount(
    handle: &mut Handle,
    alloc: Global,
    block: u16,
    chunk: u16,
    token: u16,
    count: &mut usize,
) -> i32
    ensures { NumberOnHandle (commands.NameReferences (vm block) (chunk_handle chunk) (token_numbered token)) count.new
        handle.old handle.new result }
{
    number(
        handle,
        alloc,
        &Command::NameReferences(VmHandle(block), ChunkHandle(chunk), Token(token)),
        count,
    )
}

/// A name.
#[unsafe(no_mangle)]
pub extern "C" fn geosvm_ntext(
    handle: &mut Handle,
    alloc: Global,
    block: u16,
    chunk: u16,
    token: u16,
    buffer: &mut [u8],
    length: &mut usize,
) -> i32
    ensures { HandsOutOnHandle (ReadsBytes facts
        (commands.NameText (vm block) (chunk_handle chunk) (token_numbered token)))
        handle.old handle.new buffer.old buffer.new length.new result }
{
    bytes(
        handle,
        alloc,
        &Command::NameText(VmHandle(block), ChunkHandle(chunk), Token(token)),
        buffer,
        length,
    )
}

/// The part before a name.
#[unsafe(no_mangle)]
pub extern "C" fn geosvm_ndata(
    handle: &mut Handle,
    alloc: Global,
    block: u16,
    chunk: u16,
    token: u16,
    buffer: &mut [u8],
    length: &mut usize,
) -> i32
    ensures { HandsOutOnHandle (ReadsBytes facts
        (commands.NamePart (vm block) (chunk_handle chunk) (token_numbered token)))
        handle.old handle.new buffer.old buffer.new length.new result }
{
    bytes(
        handle,
        alloc,
        &Command::NamePart(VmHandle(block), ChunkHandle(chunk), Token(token)),
        buffer,
        length,
    )
}

// Chains.

/// The blocks of a chain, each before those that it links to, branches in order.
#[unsafe(no_mangle)]
pub extern "C" fn geosvm_walk(
    handle: &mut Handle,
    alloc: Global,
    block: u16,
    blocks: &mut [u16],
    length: &mut usize,
) -> i32
    ensures { HandsOutOnHandle (ReadsBytes facts (commands.Walk (vm block)))
        handle.old handle.new blocks.old blocks.new length.new result }
{
    handles(
        handle,
        alloc,
        &Command::Walk(VmHandle(block)),
        blocks,
        length,
    )
}

/// How many bytes the blocks of a chain have.
#[unsafe(no_mangle)]
pub extern "C" fn geosvm_chsize(
    handle: &mut Handle,
    alloc: Global,
    block: u16,
    size: &mut usize,
) -> i32
    ensures { NumberOnHandle (commands.ChainSize (vm block)) size.new handle.old handle.new result }
{
    number(handle, alloc, &Command::ChainSize(VmHandle(block)), size)
}

/// Whether two chains are equal but for handles and user IDs, which is 1.
#[unsafe(no_mangle)]
pub extern "C" fn geosvm_chequal(
    handle: &mut Handle,
    alloc: Global,
    block: u16,
    other: u16,
    equal: &mut u8,
) -> i32
    ensures { EqualOnHandle (commands.ChainEqual (vm block) (vm other)) equal.new handle.old handle.new result }
{
    *equal = 0;
    answer!(
        handle,
        alloc,
        |session| look_ups::equal(session, VmHandle(block), VmHandle(other), equal)
    )
}

// Large arrays.

/// How many elements a large array has.
#[unsafe(no_mangle)]
pub extern "C" fn geosvm_hcount(
    handle: &mut Handle,
    alloc: Global,
    root: u16,
    count: &mut usize,
) -> i32
    ensures { NumberOnHandle (commands.LargeCount (vm root)) count.new handle.old handle.new result }
{
    number(handle, alloc, &Command::LargeCount(VmHandle(root)), count)
}

/// The bytes of an element by its number, from 0 on.
#[unsafe(no_mangle)]
pub extern "C" fn geosvm_hget(
    handle: &mut Handle,
    alloc: Global,
    root: u16,
    i: u32,
    buffer: &mut [u8],
    length: &mut usize,
) -> i32
    ensures { HandsOutOnHandle (ReadsBytes facts (commands.LargeElement (vm root) (element_count i)))
        handle.old handle.new buffer.old buffer.new length.new result }
{
    bytes(
        handle,
        alloc,
        &Command::LargeElement(VmHandle(root), ElementCount(i)),
        buffer,
        length,
    )
}

/// The bytes of so many elements of one size, from this one on.
#[unsafe(no_mangle)]
pub extern "C" fn geosvm_hread(
    handle: &mut Handle,
    alloc: Global,
    root: u16,
    i: u32,
    count: u32,
    buffer: &mut [u8],
    length: &mut usize,
) -> i32
    ensures { HandsOutOnHandle (ReadsBytes facts
        (commands.LargeRun (vm root) (element_count i) (element_count count)))
        handle.old handle.new buffer.old buffer.new length.new result }
{
    bytes(
        handle,
        alloc,
        &Command::LargeRun(VmHandle(root), ElementCount(i), ElementCount(count)),
        buffer,
        length,
    )
}

// Steps.

/// How many steps can be undone.
#[unsafe(no_mangle)]
pub extern "C" fn geosvm_undos(handle: &mut Handle, alloc: Global, count: &mut usize) -> i32
    ensures { NumberOnHandle commands.Undos count.new handle.old handle.new result }
{
    number(handle, alloc, &Command::Undos, count)
}

/// How many steps can be redone.
#[unsafe(no_mangle)]
pub extern "C" fn geosvm_redos(handle: &mut Handle, alloc: Global, count: &mut usize) -> i32
    ensures { NumberOnHandle commands.Redos count.new handle.old handle.new result }
{
    number(handle, alloc, &Command::Redos, count)
}

/// Whether the document is as it was saved, 1, and as it was updated, 2 more.
#[unsafe(no_mangle)]
pub extern "C" fn geosvm_modified(handle: &mut Handle, alloc: Global, modified: &mut usize) -> i32
    ensures { NumberOnHandle commands.Modified modified.new handle.old handle.new result }
{
    number(handle, alloc, &Command::Modified, modified)
}

/// The name of the step that an undo takes back; no bytes where it has none.
#[unsafe(no_mangle)]
pub extern "C" fn geosvm_undo_name(
    handle: &mut Handle,
    alloc: Global,
    name: &mut [u8],
    length: &mut usize,
) -> i32
    ensures { HandsOutOnHandle (ReadsBytes facts commands.UndoName)
        handle.old handle.new name.old name.new length.new result }
{
    bytes(handle, alloc, &Command::UndoName, name, length)
}

/// That of the step that a redo makes again.
#[unsafe(no_mangle)]
pub extern "C" fn geosvm_redo_name(
    handle: &mut Handle,
    alloc: Global,
    name: &mut [u8],
    length: &mut usize,
) -> i32
    ensures { HandsOutOnHandle (ReadsBytes facts commands.RedoName)
        handle.old handle.new name.old name.new length.new result }
{
    bytes(handle, alloc, &Command::RedoName, name, length)
}
