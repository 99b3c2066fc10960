//! What an edit touches, with its operands: all that forks on an edit matches this view.
ghost use Rattle.std.specs.Prelude.{◌≡◌};
ghost use Rattle.geos_model.specs.Targets.{byte_edit, chunk_array_edit, edit_of, edit_seen, element_array_edit, name_array_edit};

use crate::{ChunkHandle, Edit, ElementCount, Token, VmHandle};

/// What is set without a body.
#[derive(Clone, Copy)]
pub enum Setting {
    UserId(VmHandle, u16),
    Type(VmHandle, u16),
    MapBlock(VmHandle),
}

/// A block that is made: with a user ID, and a raw one with so many zeros.
#[derive(Clone, Copy)]
pub enum NewBlock {
    Raw(u16, u32),
    Heap(u16),
}

/// An edit of a block as a whole, of either kind.
#[derive(Clone, Copy)]
pub enum BlockEdit {
    Free,
    Copy,
}

/// An edit of the bytes of a raw block.
#[derive(Clone, Copy)]
pub enum RawEdit<'a> {
    Write(u32, &'a [u8]),
    Splice(u32, u32, &'a [u8]),
    Attach(&'a [u8]),
}

/// A chunk that is made in a heap: of zeros, or with an array of no elements.
#[derive(Clone, Copy)]
pub enum NewChunk {
    Zeros(u32),
    Array(u32, u32),
    ElementArray(u32),
    NameArray(u32),
}

/// An edit of the bytes of a chunk as such.
#[derive(Clone, Copy)]
pub enum ByteEdit<'a> {
    Resize(u32),
    Insert(u32, u32),
    Delete(u32, u32),
    Write(u32, &'a [u8]),
    Splice(u32, u32, &'a [u8]),
}

/// An edit of a chunk array, by the numbers of its elements.
#[derive(Clone, Copy)]
pub enum ChunkArrayEdit<'a> {
    Insert(u32, &'a [u8]),
    Set(u32, &'a [u8]),
    Resize(u32, u32),
    Delete(u32, u32),
    Zero,
}

/// An edit of an element array, by tokens.
#[derive(Clone, Copy)]
pub enum ElementArrayEdit<'a> {
    Add(&'a [u8]),
    AddReference(Token),
    RemoveReference(Token),
    Delete(Token),
    Change(Token, &'a [u8]),
}

/// An edit of a name array. A new name comes with the part before it, and whether that replaces one that is there.
#[derive(Clone, Copy)]
pub enum NameArrayEdit<'a> {
    Add(&'a [u8], &'a [u8], bool),
    Change(Token, &'a [u8]),
    SetPart(Token, &'a [u8]),
    Remove(Token),
}

/// An edit of the array in a chunk, by the kind of the array.
#[derive(Clone, Copy)]
pub enum ArrayEdit<'a> {
    Chunk(ChunkArrayEdit<'a>),
    Element(ElementArrayEdit<'a>),
    Name(NameArrayEdit<'a>),
}

/// An edit of a chunk of a heap.
#[derive(Clone, Copy)]
pub enum ChunkEdit<'a> {
    Free,
    Bytes(ByteEdit<'a>),
    Array(ArrayEdit<'a>),
}

/// An edit of a chain, which has a root.
#[derive(Clone, Copy)]
pub enum ChainEdit {
    Copy,
    Free,
}

/// An edit of a large array, by the numbers of its elements.
#[derive(Clone, Copy)]
pub enum LargeEdit<'a> {
    Insert(ElementCount, &'a [u8]),
    Set(ElementCount, &'a [u8]),
    Delete(ElementCount, ElementCount),
}

/// What an edit touches that one change makes, and how.
#[derive(Clone, Copy)]
pub enum Target<'a> {
    Setting(Setting),
    NewBlock(NewBlock),
    Block(VmHandle, BlockEdit),
    Raw(VmHandle, RawEdit<'a>),
    NewChunk(VmHandle, NewChunk),
    Chunk(VmHandle, ChunkHandle, ChunkEdit<'a>),
    Chain(VmHandle, ChainEdit),
    /// A large array that is made: the user ID of its root, and the size of each element.
    NewLarge(u16, u32),
}

/// What an edit touches: by one change, or a large array, which has a root, by several.
#[derive(Clone, Copy)]
pub enum EditTarget<'a> {
    One(Target<'a>),
    Large(VmHandle, LargeEdit<'a>),
}

// One row for each edit that one change makes. Those of large arrays are the same in each table.
macro_rules! targets {
    ($edit:expr; $($name:ident($($operand:ident),*) => $target:expr,)*) => {
        match $edit {
            $(Edit::$name($($operand),*) => EditTarget::One($target),)*
            Edit::InsertLarge(root, i, new) => EditTarget::Large(*root, LargeEdit::Insert(*i, new.as_slice())),
            Edit::SetLarge(root, i, new) => EditTarget::Large(*root, LargeEdit::Set(*i, new.as_slice())),
            Edit::DeleteLarge(root, i, n) => EditTarget::Large(*root, LargeEdit::Delete(*i, *n)),
        }
    };
}

impl Edit {
    /// What the edit touches, with its operands. Nothing is copied.
    pub fn target(&self) -> EditTarget<'_>
        ensures { edit_seen result ≡ self.now }
    {
        targets! { self;
            SetUserId(block, user_id) => Target::Setting(Setting::UserId(*block, *user_id)),
            SetType(block, heap_type) => Target::Setting(Setting::Type(*block, *heap_type)),
            SetMap(block) => Target::Setting(Setting::MapBlock(*block)),
            NewRaw(user_id, size) => Target::NewBlock(NewBlock::Raw(*user_id, *size)),
            NewHeap(user_id) => Target::NewBlock(NewBlock::Heap(*user_id)),
            FreeBlock(block) => Target::Block(*block, BlockEdit::Free),
            CopyBlock(block) => Target::Block(*block, BlockEdit::Copy),
            WriteRaw(block, at, new) => Target::Raw(*block, RawEdit::Write(*at, new.as_slice())),
            SpliceRaw(block, at, n, new) => Target::Raw(*block, RawEdit::Splice(*at, *n, new.as_slice())),
            Attach(block, new) => Target::Raw(*block, RawEdit::Attach(new.as_slice())),
            Alloc(block, size) => Target::NewChunk(*block, NewChunk::Zeros(*size)),
            CreateArray(block, size, extra) => Target::NewChunk(*block, NewChunk::Array(*size, *extra)),
            CreateElementArray(block, size) => Target::NewChunk(*block, NewChunk::ElementArray(*size)),
            CreateNameArray(block, part) => Target::NewChunk(*block, NewChunk::NameArray(*part)),
            Free(block, chunk) => Target::Chunk(*block, *chunk, ChunkEdit::Free),
            Resize(block, chunk, n) => bytes(block, chunk, ByteEdit::Resize(*n)),
            Insert(block, chunk, at, n) => bytes(block, chunk, ByteEdit::Insert(*at, *n)),
            Delete(block, chunk, at, n) => bytes(block, chunk, ByteEdit::Delete(*at, *n)),
            Write(block, chunk, at, new) => bytes(block, chunk, ByteEdit::Write(*at, new.as_slice())),
            Splice(block, chunk, at, n, new) => bytes(block, chunk, ByteEdit::Splice(*at, *n, new.as_slice())),
            InsertElement(block, chunk, i, new) => array(block, chunk, ChunkArrayEdit::Insert(*i, new.as_slice())),
            SetElement(block, chunk, i, new) => array(block, chunk, ChunkArrayEdit::Set(*i, new.as_slice())),
            ResizeElement(block, chunk, i, n) => array(block, chunk, ChunkArrayEdit::Resize(*i, *n)),
            DeleteElements(block, chunk, i, k) => array(block, chunk, ChunkArrayEdit::Delete(*i, *k)),
            ZeroArray(block, chunk) => array(block, chunk, ChunkArrayEdit::Zero),
            AddElement(block, chunk, new) => elements(block, chunk, ElementArrayEdit::Add(new.as_slice())),
            AddReference(block, chunk, token) => elements(block, chunk, ElementArrayEdit::AddReference(*token)),
            RemoveReference(block, chunk, token) => elements(block, chunk, ElementArrayEdit::RemoveReference(*token)),
            DeleteElement(block, chunk, token) => elements(block, chunk, ElementArrayEdit::Delete(*token)),
            ChangeElement(b, c, token, new) => elements(b, c, ElementArrayEdit::Change(*token, new.as_slice())),
            AddName(b, c, name, part, set) => names(b, c, NameArrayEdit::Add(name.as_slice(), part.as_slice(), *set)),
            ChangeName(b, c, token, name) => names(b, c, NameArrayEdit::Change(*token, name.as_slice())),
            SetNamePart(b, c, token, part) => names(b, c, NameArrayEdit::SetPart(*token, part.as_slice())),
            RemoveName(block, chunk, token) => names(block, chunk, NameArrayEdit::Remove(*token)),
            CopyChain(root) => Target::Chain(*root, ChainEdit::Copy),
            FreeChain(root) => Target::Chain(*root, ChainEdit::Free),
            CreateLarge(user_id, size) => Target::NewLarge(*user_id, *size),
        }
    }
}

fn bytes<'a>(block: &VmHandle, chunk: &ChunkHandle, edit: ByteEdit<'a>) -> Target<'a>
    ensures { edit_of result ≡ byte_edit block.now chunk.now edit.entry }
{
    Target::Chunk(*block, *chunk, ChunkEdit::Bytes(edit))
}

fn array<'a>(block: &VmHandle, chunk: &ChunkHandle, edit: ChunkArrayEdit<'a>) -> Target<'a>
    ensures { edit_of result ≡ chunk_array_edit block.now chunk.now edit.entry }
{
    Target::Chunk(*block, *chunk, ChunkEdit::Array(ArrayEdit::Chunk(edit)))
}

fn elements<'a>(block: &VmHandle, chunk: &ChunkHandle, edit: ElementArrayEdit<'a>) -> Target<'a>
    ensures { edit_of result ≡ element_array_edit block.now chunk.now edit.entry }
{
    Target::Chunk(*block, *chunk, ChunkEdit::Array(ArrayEdit::Element(edit)))
}

fn names<'a>(block: &VmHandle, chunk: &ChunkHandle, edit: NameArrayEdit<'a>) -> Target<'a>
    ensures { edit_of result ≡ name_array_edit block.now chunk.now edit.entry }
{
    Target::Chunk(*block, *chunk, ChunkEdit::Array(ArrayEdit::Name(edit)))
}
