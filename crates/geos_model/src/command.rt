//! The commands of a script, the edits among them, and what an accepted edit answers.
use crate::{Bytes, ChunkHandle, Chunks, ElementCount, Token, VmHandle};

/// What a block holds.
#[derive(Drop)]
pub enum Body {
    Raw(Bytes),
    Heap(Chunks),
}

/// A change of the document.
#[derive(Drop)]
pub enum Edit {
    /// A new raw block with this user ID, of so many zeros.
    NewRaw(u16, u32),
    /// A new empty heap, with this user ID and the type 0.
    NewHeap(u16),
    /// The block is freed.
    FreeBlock(VmHandle),
    /// A new block with the same body, user ID and type.
    CopyBlock(VmHandle),
    /// Bytes written over those of a raw block, from a place on.
    WriteRaw(VmHandle, u32, Bytes),
    /// These bytes in the place of so many of a raw block, from a place on.
    SpliceRaw(VmHandle, u32, u32, Bytes),
    /// The raw block has these bytes in place of its own.
    Attach(VmHandle, Bytes),
    /// The block gets this user ID.
    SetUserId(VmHandle, u16),
    /// The heap gets this type.
    SetType(VmHandle, u16),
    /// The block becomes the map block; with 0 there is none.
    SetMap(VmHandle),
    /// A new chunk of so many zeros.
    Alloc(VmHandle, u32),
    /// The chunk is freed.
    Free(VmHandle, ChunkHandle),
    /// The chunk is cut at its end, or gets zeros there, so that it has this size.
    Resize(VmHandle, ChunkHandle, u32),
    /// Before a place of a chunk, so many zeros are put in.
    Insert(VmHandle, ChunkHandle, u32, u32),
    /// From a place of a chunk on, so many bytes are taken out.
    Delete(VmHandle, ChunkHandle, u32, u32),
    /// Bytes written over those of a chunk, from a place on.
    Write(VmHandle, ChunkHandle, u32, Bytes),
    /// These bytes in the place of so many of a chunk, from a place on.
    Splice(VmHandle, ChunkHandle, u32, u32, Bytes),
    /// A new chunk with an array of no elements: the size of each, 0 where sizes vary, and how many zeros as extra
    /// bytes.
    CreateArray(VmHandle, u32, u32),
    /// These bytes become an element of the array, before the one that has this number.
    InsertElement(VmHandle, ChunkHandle, u32, Bytes),
    /// The element has these bytes in place of its own.
    SetElement(VmHandle, ChunkHandle, u32, Bytes),
    /// The element is cut at its end, or gets zeros there, so that it has this size.
    ResizeElement(VmHandle, ChunkHandle, u32, u32),
    /// From an element on, so many are deleted.
    DeleteElements(VmHandle, ChunkHandle, u32, u32),
    /// All elements are deleted.
    ZeroArray(VmHandle, ChunkHandle),
    /// A new chunk with an element array of no elements: how many bytes each will have, 0 where sizes vary.
    CreateElementArray(VmHandle, u32),
    /// The element with these bytes gets one more reference, or becomes a new element.
    AddElement(VmHandle, ChunkHandle, Bytes),
    /// The element gets one more reference.
    AddReference(VmHandle, ChunkHandle, Token),
    /// The element loses a reference, and is freed with the last one.
    RemoveReference(VmHandle, ChunkHandle, Token),
    /// The element is freed, whatever its references.
    DeleteElement(VmHandle, ChunkHandle, Token),
    /// The element has these bytes in place of its own.
    ChangeElement(VmHandle, ChunkHandle, Token, Bytes),
    /// A new chunk with a name array of no names: how many bytes stand before each name.
    CreateNameArray(VmHandle, u32),
    /// A name and the part before it: one that is there gets one more reference, and this part if the flag says so.
    AddName(VmHandle, ChunkHandle, Bytes, Bytes, bool),
    /// The token gets this name.
    ChangeName(VmHandle, ChunkHandle, Token, Bytes),
    /// The token's name gets this part before it.
    SetNamePart(VmHandle, ChunkHandle, Token, Bytes),
    /// The name loses a reference, and is freed with the last one.
    RemoveName(VmHandle, ChunkHandle, Token),
    /// New blocks with the bodies and user IDs of a chain's, which link to one another as those do.
    CopyChain(VmHandle),
    /// All blocks of the chain are freed.
    FreeChain(VmHandle),
    /// A new large array of no elements: the user ID of its root, and the size of each element, 0 where sizes vary.
    CreateLarge(u16, u32),
    /// Before an element of the large array, these bytes are put in: one element, or as many of its size as they are.
    InsertLarge(VmHandle, ElementCount, Bytes),
    /// From an element on, these bytes stand in place of as many elements.
    SetLarge(VmHandle, ElementCount, Bytes),
    /// From an element on, so many are deleted.
    DeleteLarge(VmHandle, ElementCount, ElementCount),
}

/// What an accepted edit answers.
#[derive(Clone, Copy, Debug, PartialEq, Eq)]
pub enum Done {
    Nothing,
    Block(VmHandle),
    Chunk(ChunkHandle),
    Token(Token),
}

/// What kind of step an edit or a group of edits makes.
#[derive(Clone, Copy, Debug, PartialEq, Eq)]
pub enum Kind {
    /// Of a user ID, a type or the map block.
    Plain,
    /// Of the body of one block.
    In(VmHandle),
    /// Blocks were made.
    Made,
    /// Blocks were freed.
    Freed,
    /// Of several blocks: the edits of a group together, or an edit of a large array.
    Group,
}

/// A line of a script.
#[derive(Drop)]
pub enum Command {
    /// A line without a word, or a note: it gets no reply.
    Blank,
    Edit(Edit),
    Undo,
    Redo,
    /// Edits from here on are one group, until it ends or is abandoned.
    Begin,
    /// The group ends: its edits, if it has any, are one step of the undo list.
    End,
    /// The group ends, and its edits are taken back.
    Abandon,
    /// The newest two steps to be undone become one.
    Join,
    /// No more than so many steps are left to be undone, the newest.
    Forget(u32),
    /// The newest step to be undone gets this name, in place of the one that it has; with no bytes it has none.
    Name(Bytes),
    /// The document becomes the updated one of the file.
    Update,
    /// The document becomes the updated and the saved one of the file.
    Save,
    /// The saved document becomes the document, and the updated one of the file.
    Revert,
    /// The document becomes the updated and the saved one of another file, and the session goes on there.
    SaveAs,
    /// The block stays in memory until it was unlocked as often as it was locked.
    Lock(VmHandle),
    Unlock(VmHandle),
    /// The body of a locked block counts as changed.
    Dirty(VmHandle),
    /// How often a block is locked.
    Locks(VmHandle),
    Info(VmHandle),
    /// The type of a heap.
    HeapType(VmHandle),
    List,
    /// The least handle above a start that has this user ID.
    Find(u16, VmHandle),
    MapBlock,
    /// The bytes of a raw block.
    ReadRaw(VmHandle),
    Chunks(VmHandle),
    Read(VmHandle, ChunkHandle),
    /// How many elements the array in a chunk has.
    ArrayCount(VmHandle, ChunkHandle),
    /// The bytes of an element of the array in a chunk.
    ArrayElement(VmHandle, ChunkHandle, u32),
    /// How many references an element has.
    ElementReferences(VmHandle, ChunkHandle, Token),
    /// The bytes of an element.
    ElementBytes(VmHandle, ChunkHandle, Token),
    /// How many elements are used.
    ElementsUsed(VmHandle, ChunkHandle),
    /// The token of a used element by its number from 0 on.
    TokenOfUsed(VmHandle, ChunkHandle, u32),
    /// How many used tokens are lower than this one.
    UsedOfToken(VmHandle, ChunkHandle, Token),
    /// The token of a name.
    NameFind(VmHandle, ChunkHandle, Bytes),
    /// How many references a name has.
    NameReferences(VmHandle, ChunkHandle, Token),
    /// The name of a token.
    NameText(VmHandle, ChunkHandle, Token),
    /// What stands before the name of a token.
    NamePart(VmHandle, ChunkHandle, Token),
    /// The blocks of a chain, each before those that it links to.
    Walk(VmHandle),
    /// How many bytes the blocks of a chain have.
    ChainSize(VmHandle),
    /// Whether two chains are equal, but for handles and user IDs.
    ChainEqual(VmHandle, VmHandle),
    /// How many elements a large array has.
    LargeCount(VmHandle),
    /// The bytes of an element of a large array.
    LargeElement(VmHandle, ElementCount),
    /// The bytes of so many elements of one size, from one on.
    LargeRun(VmHandle, ElementCount, ElementCount),
    /// How many steps can be undone.
    Undos,
    /// How many steps can be redone.
    Redos,
    /// Whether the document is a committed one: 1 where it is as it was saved, and 2 more where it is as it was
    /// updated.
    Modified,
    /// The name of the step that an undo takes back; no bytes where it has none.
    UndoName,
    /// That of the step that a redo makes again.
    RedoName,
    /// The places at which the newest accepted edit, undo, redo, abandon or revert changed the document.
    Touched,
    /// Those at which an undo would change it.
    UndoPlaces,
    RedoPlaces,
    AbandonPlaces,
}

/// A block's user ID, and the bytes of a raw body or those that a heap needs.
#[derive(Clone, Copy, Debug, PartialEq, Eq)]
pub enum Info {
    Raw(u16, u32),
    Heap(u16, u32),
}
