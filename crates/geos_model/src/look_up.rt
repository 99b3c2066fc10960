//! What a command asks, with its operands: all that forks on a look-up matches this view.
ghost use Rattle.std.specs.Prelude.{◌≡◌, false, MatchOption};
ghost use Rattle.geos_model.specs.LookUps.{array_look_up, chunk_array_look_up, command_of, element_array_look_up, is_look_up, name_array_look_up};

use crate::{ChunkHandle, Command, ElementCount, Token, VmHandle};

/// What is asked of no block's body, but for the list of blocks.
#[derive(Clone, Copy)]
pub enum PlainLookUp {
    HeapType(VmHandle),
    Find(u16, VmHandle),
    MapBlock,
    Locks(VmHandle),
    Undos,
    Redos,
    Modified,
}

/// Which step's name is asked for: that of the next undo, or of the next redo.
#[derive(Clone, Copy)]
pub enum StepNameLookUp {
    Undo,
    Redo,
}

/// Whose places are asked for: those of what changed the document last, or of what would change it next.
#[derive(Clone, Copy)]
pub enum PlacesLookUp {
    Touched,
    Undo,
    Redo,
    Abandon,
}

/// What is asked of a chunk array, by the numbers of its elements.
#[derive(Clone, Copy)]
pub enum ChunkArrayLookUp {
    Count,
    Element(u32),
}

/// What is asked of an element array, by tokens.
#[derive(Clone, Copy)]
pub enum ElementArrayLookUp {
    References(Token),
    Bytes(Token),
    Used,
    TokenOfUsed(u32),
    UsedOfToken(Token),
}

/// What is asked of a name array.
#[derive(Clone, Copy)]
pub enum NameArrayLookUp<'a> {
    Find(&'a [u8]),
    References(Token),
    Text(Token),
    Part(Token),
}

/// What is asked of the array in a chunk, by the kind of the array.
#[derive(Clone, Copy)]
pub enum ArrayLookUp<'a> {
    Chunk(ChunkArrayLookUp),
    Element(ElementArrayLookUp),
    Name(NameArrayLookUp<'a>),
}

/// What is asked of a chunk of a heap.
#[derive(Clone, Copy)]
pub enum ChunkLookUp<'a> {
    Read,
    Array(ArrayLookUp<'a>),
}

/// What is asked of the body of one block.
#[derive(Clone, Copy)]
pub enum BlockLookUp<'a> {
    Info,
    ReadRaw,
    Chunks,
    InChunk(ChunkHandle, ChunkLookUp<'a>),
}

/// What is asked along chains and of large arrays, each of which has a root.
#[derive(Clone, Copy)]
pub enum ChainLookUp {
    Walk(VmHandle),
    Size(VmHandle),
    Equal(VmHandle, VmHandle),
    LargeCount(VmHandle),
    LargeElement(VmHandle, ElementCount),
    LargeRun(VmHandle, ElementCount, ElementCount),
}

/// What is asked, by the bodies that are looked into: none, that of one block, or those of chains or large arrays.
#[derive(Clone, Copy)]
pub enum LookUp<'a> {
    List,
    Plain(PlainLookUp),
    StepName(StepNameLookUp),
    Places(PlacesLookUp),
    InBlock(VmHandle, BlockLookUp<'a>),
    AlongChain(ChainLookUp),
}

// One row for each.
macro_rules! look_ups {
    ($command:expr; $($row:pat => $look_up:expr,)*) => {
        match $command {
            $($row => Some($look_up),)*
            _ => None,
        }
    };
}

impl Command {
    /// What the command asks, with its operands; None where it doesn't only ask. Nothing is copied.
    pub fn look_up(&self) -> Option<LookUp<'_>>
        ensures { MatchOption result (is_look_up self.now ≡ false) (λ look_up. command_of look_up ≡ self.now) }
    {
        look_ups! { self;
            Command::List => LookUp::List,
            Command::HeapType(block) => LookUp::Plain(PlainLookUp::HeapType(*block)),
            Command::Find(user_id, start) => LookUp::Plain(PlainLookUp::Find(*user_id, *start)),
            Command::MapBlock => LookUp::Plain(PlainLookUp::MapBlock),
            Command::Locks(block) => LookUp::Plain(PlainLookUp::Locks(*block)),
            Command::Undos => LookUp::Plain(PlainLookUp::Undos),
            Command::Redos => LookUp::Plain(PlainLookUp::Redos),
            Command::Modified => LookUp::Plain(PlainLookUp::Modified),
            Command::UndoName => LookUp::StepName(StepNameLookUp::Undo),
            Command::RedoName => LookUp::StepName(StepNameLookUp::Redo),
            Command::Touched => LookUp::Places(PlacesLookUp::Touched),
            Command::UndoPlaces => LookUp::Places(PlacesLookUp::Undo),
            Command::RedoPlaces => LookUp::Places(PlacesLookUp::Redo),
            Command::AbandonPlaces => LookUp::Places(PlacesLookUp::Abandon),
            Command::Info(block) => LookUp::InBlock(*block, BlockLookUp::Info),
            Command::ReadRaw(block) => LookUp::InBlock(*block, BlockLookUp::ReadRaw),
            Command::Chunks(block) => LookUp::InBlock(*block, BlockLookUp::Chunks),
            Command::Read(b, c) => LookUp::InBlock(*b, BlockLookUp::InChunk(*c, ChunkLookUp::Read)),
            Command::ArrayCount(b, c) => array(b, c, ChunkArrayLookUp::Count),
            Command::ArrayElement(b, c, i) => array(b, c, ChunkArrayLookUp::Element(*i)),
            Command::ElementReferences(b, c, token) => elements(b, c, ElementArrayLookUp::References(*token)),
            Command::ElementBytes(b, c, token) => elements(b, c, ElementArrayLookUp::Bytes(*token)),
            Command::ElementsUsed(b, c) => elements(b, c, ElementArrayLookUp::Used),
            Command::TokenOfUsed(b, c, k) => elements(b, c, ElementArrayLookUp::TokenOfUsed(*k)),
            Command::UsedOfToken(b, c, token) => elements(b, c, ElementArrayLookUp::UsedOfToken(*token)),
            Command::NameFind(b, c, name) => names(b, c, NameArrayLookUp::Find(name.as_slice())),
            Command::NameReferences(b, c, token) => names(b, c, NameArrayLookUp::References(*token)),
            Command::NameText(b, c, token) => names(b, c, NameArrayLookUp::Text(*token)),
            Command::NamePart(b, c, token) => names(b, c, NameArrayLookUp::Part(*token)),
            Command::Walk(root) => LookUp::AlongChain(ChainLookUp::Walk(*root)),
            Command::ChainSize(root) => LookUp::AlongChain(ChainLookUp::Size(*root)),
            Command::ChainEqual(first, second) => LookUp::AlongChain(ChainLookUp::Equal(*first, *second)),
            Command::LargeCount(root) => LookUp::AlongChain(ChainLookUp::LargeCount(*root)),
            Command::LargeElement(root, i) => LookUp::AlongChain(ChainLookUp::LargeElement(*root, *i)),
            Command::LargeRun(root, i, n) => LookUp::AlongChain(ChainLookUp::LargeRun(*root, *i, *n)),
        }
    }
}

fn array<'a>(block: &VmHandle, chunk: &ChunkHandle, asked: ChunkArrayLookUp) -> LookUp<'a>
    ensures { command_of result ≡ chunk_array_look_up block.now chunk.now asked }
{
    in_chunk(block, chunk, ArrayLookUp::Chunk(asked))
}

fn elements<'a>(block: &VmHandle, chunk: &ChunkHandle, asked: ElementArrayLookUp) -> LookUp<'a>
    ensures { command_of result ≡ element_array_look_up block.now chunk.now asked }
{
    in_chunk(block, chunk, ArrayLookUp::Element(asked))
}

fn names<'a>(block: &VmHandle, chunk: &ChunkHandle, asked: NameArrayLookUp<'a>) -> LookUp<'a>
    ensures { command_of result ≡ name_array_look_up block.now chunk.now asked.entry }
{
    in_chunk(block, chunk, ArrayLookUp::Name(asked))
}

fn in_chunk<'a>(block: &VmHandle, chunk: &ChunkHandle, asked: ArrayLookUp<'a>) -> LookUp<'a>
    ensures { command_of result ≡ array_look_up block.now chunk.now asked.entry }
{
    LookUp::InBlock(
        *block,
        BlockLookUp::InChunk(*chunk, ChunkLookUp::Array(asked)),
    )
}
