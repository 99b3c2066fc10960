//! What is looked up of a document.
ghost use Rattle.std.specs.Prelude.{◌≡◌, [], true, false, IfOk, MatchResult, OnOk, get_or, length};
ghost use Rattle.geos_model.specs.ArrayEdits.{array_in, on_array, on_element};
ghost use Rattle.geos_model.specs.Forms.{form_asked, has_form};
ghost use Rattle.geos_model.specs.LookUps.{array_look_up, block_look_up, chain_look_up, chunk_array_look_up, chunk_look_up, element_array_look_up, name_array_look_up};
ghost use Rattle.geos_model.specs.Reply.{Reply as Answer, AreEqual, BytesAre, NumberIs, reply_by, reply_of, info_is, blocks_are, chunks_are};
ghost use Rattle.geos_model.specs.declared.command.Command.TheVariants as commands;
ghost use Rattle.vm_blocks.specs.Keeping.{KeepsBlocks, is_loaded};
ghost use Rattle.large_arrays.specs.LargeLookUps.{IsElementLoaded, placed_bytes};
ghost use Rattle.element_arrays.specs.Answering.{IsAnswered, IsRefused};
ghost use Rattle.doc_edits.specs.declared.look_ups.Lists.{Lists};
ghost use Rattle.doc_edits.specs.LookUps.{AnswersInChunk, FindsChunk, IsPreparedLookUp, AnswersFromBlocks, AnswersChainFromBlocks, Shows, ShowsOrRefuses, is_list};

use crate::found::{bytes_in, heap_at, known_at, raw_at};
use crate::marking::test_array;
use crate::room::{test_chain, test_chains};
use geos_model::{
    ArrayLookUp, BlockLookUp, ChainLookUp, ChunkArrayLookUp, ChunkHandle, ChunkLookUp,
    ElementArrayLookUp, ElementCount, Fault, Info, NameArrayLookUp, Reply, VmHandle,
};
use large_arrays::{ElementPlace, element, prepare_element, read_run};
use lmem_heap::{ArrayKind, KnownBytes};
use std::alloc::Global;
use vm_blocks::{BlockBody, FileBlocks};
use vm_store::Store;

/// A block's user ID and size.
fn info<S: Store>(blocks: &mut FileBlocks<S>, block: VmHandle) -> Result<Info, Fault>
    ensures { AnswersFromBlocks S.facts blocks.old blocks.new (commands.Info block) (reply_by info_is result) }
{
    blocks.load(block)?;
    let user_id = blocks.attributes(block).user_id;
    match blocks.body(block) {
        BlockBody::Raw(body) => Ok(Info::Raw(user_id, body.bytes().len() as u32)),
        BlockBody::Heap(heap) => Ok(Info::Heap(user_id, heap.need())),
    }
}

/// The live chunks of a heap, rising.
fn chunks<S: Store>(blocks: &mut FileBlocks<S>, block: VmHandle) -> Result<Vec<ChunkHandle>, Fault>
    ensures { AnswersFromBlocks S.facts blocks.old blocks.new (commands.Chunks block)
        (reply_by (λ handles. chunks_are handles.items) result) }
{
    blocks.load_heap(block)?;
    Ok(heap_at(blocks, block).handles()?)
}

/// Brings the block of a chunk into memory, and tests the chunk to be an array of a kind, unless it is known to be one;
/// or why each look-up into it is refused.
fn load_chunk<S: Store>(
    blocks: &mut FileBlocks<S>,
    block: VmHandle,
    chunk: ChunkHandle,
    kind: ArrayKind,
) -> Result<(), Fault>
    ensures found { FindsChunk S.facts blocks.old blocks.new block chunk result }
    ensures loaded { OnOk result (is_loaded blocks.new block.0 ≡ true) }
{
    blocks.load_heap(block)?;
    test_array(blocks, block, chunk, kind)
}

// How many elements the array has that these bytes are. NotArray.
fn count_in(bytes: &KnownBytes<'_>) -> Result<usize, Fault>
    ensures { MatchResult result (λ n. IsAnswered (on_array bytes.now) (length (array_in bytes.now).elements) n)
        (IsRefused (on_array bytes.now)) }
{
    let view = chunk_arrays::check(bytes)?;
    Ok(view.count())
}

// The bytes of an element of the array that these bytes are. NotArray, NoElement.
fn element_in<'a>(bytes: &KnownBytes<'a>, i: u32) -> Result<&'a [u8], Fault>
    ensures { MatchResult result
        (λ element. IsAnswered (on_element bytes.now i) (get_or (array_in bytes.now).elements i []) element.now)
        (IsRefused (on_element bytes.now i)) }
{
    let view = chunk_arrays::check(bytes)?;
    let i = i as usize;
    if i >= view.count() {
        return Err(Fault::NoElement);
    }
    Ok(view.element(i))
}

/// The blocks of a chain, each before those that it links to, branches in order.
fn walk<S: Store>(
    alloc: Global,
    blocks: &mut FileBlocks<S>,
    root: VmHandle,
) -> Result<Vec<VmHandle>, Fault>
    ensures { AnswersChainFromBlocks S.facts blocks.old blocks.new (commands.Walk root)
        (reply_by (λ handles. blocks_are handles.items) result) }
{
    test_chain(blocks, root)?;
    vm_chains::walk(alloc, blocks, root)
}

/// How many bytes the blocks of a chain have.
fn chain_size<S: Store>(
    alloc: Global,
    blocks: &mut FileBlocks<S>,
    root: VmHandle,
) -> Result<u32, Fault>
    ensures { AnswersChainFromBlocks S.facts blocks.old blocks.new (commands.ChainSize root)
        (reply_by NumberIs result) }
{
    test_chain(blocks, root)?;
    vm_chains::size(alloc, blocks, root)
}

/// Whether two chains are equal, but for handles and user IDs.
fn chain_equal<S: Store>(
    alloc: Global,
    blocks: &mut FileBlocks<S>,
    first: VmHandle,
    second: VmHandle,
) -> Result<bool, Fault>
    ensures { AnswersChainFromBlocks S.facts blocks.old blocks.new (commands.ChainEqual first second)
        (reply_by AreEqual result) }
{
    test_chains(blocks, first, second)?;
    vm_chains::equal(alloc, blocks, first, second)
}

/// How many elements a large array has.
fn large_count<S: Store>(blocks: &mut FileBlocks<S>, root: VmHandle) -> Result<u32, Fault>
    ensures { AnswersChainFromBlocks S.facts blocks.old blocks.new (commands.LargeCount root)
        (reply_by NumberIs result) }
{
    test_chain(blocks, root)?;
    large_arrays::count(blocks, root)
}

/// Where an element of a large array stands, in a block that is in memory then.
fn large_element<S: Store>(
    blocks: &mut FileBlocks<S>,
    root: VmHandle,
    i: ElementCount,
) -> Result<ElementPlace, Fault>
    ensures answers { AnswersChainFromBlocks S.facts blocks.old blocks.new (commands.LargeElement root i)
        (reply_by (λ place. BytesAre (placed_bytes blocks.new.document place)) result) }
    ensures ready { IfOk result (IsElementLoaded blocks.new) }
{
    test_chain(blocks, root)?;
    prepare_element(blocks, root, i.0)
}

/// The bytes of elements of a large array, one after another.
fn large_run<S: Store>(
    alloc: Global,
    blocks: &mut FileBlocks<S>,
    root: VmHandle,
    i: ElementCount,
    n: ElementCount,
) -> Result<Vec<u8>, Fault>
    ensures { AnswersChainFromBlocks S.facts blocks.old blocks.new (commands.LargeRun root i n)
        (reply_by (λ bytes. BytesAre bytes.items) result) }
{
    test_chain(blocks, root)?;
    read_run(alloc, blocks, root, i.0, n.0)
}

/// The lists that were asked for last, of which replies are lent.
#[derive(Drop)]
pub struct Lists {
    pub blocks: Vec<VmHandle>,
    pub chunks: Vec<ChunkHandle>,
    /// Those of elements of a large array.
    pub bytes: Vec<u8>,
}

impl Lists {
    /// Lists of nothing, for which no memory is taken.
    pub fn new(alloc: Global) -> Lists {
        Lists {
            blocks: Vec::new(alloc),
            chunks: Vec::new(alloc),
            bytes: Vec::new(alloc),
        }
    }
}

/// What was prepared for a reply: a value, or where the answer stands.
#[derive(Clone, Copy)]
pub enum Prepared<'a> {
    Info(Info),
    Number(u64),
    Equal(bool),
    /// The list of blocks.
    Blocks,
    /// The list of chunks.
    Chunks,
    /// The list of bytes.
    Bytes,
    /// The bytes of a raw block in memory.
    Raw(VmHandle),
    /// The bytes of a chunk of a heap in memory, if it is live.
    Chunk(VmHandle, ChunkHandle),
    /// What is asked of the array in a live chunk of a heap in memory.
    Array(VmHandle, ChunkHandle, ArrayLookUp<'a>),
    /// The bytes of an element of a large array, in a raw block in memory.
    Element(ElementPlace),
}

/// Brings into memory what a look-up into one block looks into.
pub fn prepare_in_block<'a, S: Store>(
    blocks: &mut FileBlocks<S>,
    lists: &mut Lists,
    block: VmHandle,
    asked: BlockLookUp<'a>,
) -> Result<Prepared<'a>, Fault>
    ensures keeps { KeepsBlocks S.facts blocks.old blocks.new }
    ensures ready { IfOk result (λ prepared. IsPreparedLookUp prepared blocks.new) }
    ensures sees { (reply : Answer) → ShowsOrRefuses result blocks.new lists.new reply
        → AnswersFromBlocks S.facts blocks.old blocks.new (block_look_up block asked.entry) reply }
{
    match asked {
        BlockLookUp::Info => Ok(Prepared::Info(info(blocks, block)?)),
        BlockLookUp::ReadRaw => {
            blocks.load_raw(block)?;
            Ok(Prepared::Raw(block))
        }
        BlockLookUp::Chunks => {
            lists.chunks = chunks(blocks, block)?;
            Ok(Prepared::Chunks)
        }
        BlockLookUp::InChunk(chunk, asked) => prepare_in_chunk(blocks, block, chunk, asked),
    }
}

/// Brings into memory the heap in whose chunk is looked.
fn prepare_in_chunk<'a, S: Store>(
    blocks: &mut FileBlocks<S>,
    block: VmHandle,
    chunk: ChunkHandle,
    asked: ChunkLookUp<'a>,
) -> Result<Prepared<'a>, Fault>
    ensures keeps { KeepsBlocks S.facts blocks.old blocks.new }
    ensures ready { IfOk result (λ prepared. IsPreparedLookUp prepared blocks.new) }
    ensures sees { (lists : Lists) (reply : Answer) → ShowsOrRefuses result blocks.new lists reply
        → AnswersFromBlocks S.facts blocks.old blocks.new (chunk_look_up block chunk asked.entry) reply }
{
    match asked {
        ChunkLookUp::Read => {
            blocks.load_heap(block)?;
            Ok(Prepared::Chunk(block, chunk))
        }
        ChunkLookUp::Array(asked) => {
            load_chunk(blocks, block, chunk, kind_asked(asked))?;
            Ok(Prepared::Array(block, chunk, asked))
        }
    }
}

/// Of which kind the array is that is asked.
fn kind_asked(asked: ArrayLookUp<'_>) -> ArrayKind {
    match asked {
        ArrayLookUp::Chunk(_) => ArrayKind::Chunk,
        ArrayLookUp::Element(_) => ArrayKind::Element,
        ArrayLookUp::Name(_) => ArrayKind::Name,
    }
}

/// Looks up along chains and in large arrays, whose blocks are brought into memory one after another.
pub fn prepare_along_chain<'a, S: Store>(
    alloc: Global,
    blocks: &mut FileBlocks<S>,
    lists: &mut Lists,
    asked: ChainLookUp,
) -> Result<Prepared<'a>, Fault>
    ensures keeps { KeepsBlocks S.facts blocks.old blocks.new }
    ensures ready { IfOk result (λ prepared. IsPreparedLookUp prepared blocks.new) }
    ensures sees { (reply : Answer) → ShowsOrRefuses result blocks.new lists.new reply
        → AnswersChainFromBlocks S.facts blocks.old blocks.new (chain_look_up asked) reply
        × (has_form reply (form_asked (chain_look_up asked)) ≡ true) }
{
    match asked {
        ChainLookUp::Walk(root) => {
            lists.blocks = walk(alloc, blocks, root)?;
            Ok(Prepared::Blocks)
        }
        ChainLookUp::Size(root) => {
            let size = chain_size(alloc, blocks, root)?;
            Ok(Prepared::Number(u64::from(size)))
        }
        ChainLookUp::Equal(first, second) => {
            let equal = chain_equal(alloc, blocks, first, second)?;
            Ok(Prepared::Equal(equal))
        }
        ChainLookUp::LargeCount(root) => {
            let count = large_count(blocks, root)?;
            Ok(Prepared::Number(u64::from(count)))
        }
        ChainLookUp::LargeElement(root, i) => {
            let place = large_element(blocks, root, i)?;
            Ok(Prepared::Element(place))
        }
        ChainLookUp::LargeRun(root, i, n) => {
            lists.bytes = large_run(alloc, blocks, root, i, n)?;
            Ok(Prepared::Bytes)
        }
    }
}

/// Answers what was prepared, but for a list, which its holder lends.
pub fn answer<'a, S: Store>(
    blocks: &'a FileBlocks<S>,
    prepared: Prepared<'_>,
) -> Result<Reply<'a>, Fault>
    requires ready { IsPreparedLookUp prepared blocks.now }
    requires other { is_list prepared ≡ false }
    ensures { (lists : Lists) → Shows prepared.entry blocks.now lists (reply_by reply_of result) }
{
    match prepared {
        Prepared::Info(info) => Ok(Reply::Info(info)),
        Prepared::Number(n) => Ok(Reply::Number(n)),
        Prepared::Equal(equal) => Ok(Reply::Equal(equal)),
        Prepared::Blocks | Prepared::Chunks | Prepared::Bytes => unreachable!(),
        Prepared::Raw(block) => Ok(Reply::Bytes(raw_at(blocks, block).bytes())),
        Prepared::Chunk(block, chunk) => {
            bytes_in(heap_at(blocks, block), chunk).map(Reply::Bytes)
        }
        Prepared::Array(block, chunk, asked) => {
            array_reply(&known_at(blocks, block, chunk), asked)
        }
        Prepared::Element(place) => Ok(Reply::Bytes(element(blocks, place))),
    }
}

// What an array answers that has these bytes. NotArray, NoElement, NoName.
fn array_reply<'a>(bytes: &KnownBytes<'a>, asked: ArrayLookUp<'_>) -> Result<Reply<'a>, Fault>
    ensures { AnswersInChunk bytes.now (λ b c. array_look_up b c asked.entry) (reply_by reply_of result) }
{
    match asked {
        ArrayLookUp::Chunk(asked) => chunk_array_reply(bytes, asked),
        ArrayLookUp::Element(asked) => element_array_reply(bytes, asked),
        ArrayLookUp::Name(asked) => name_array_reply(bytes, asked),
    }
}

fn chunk_array_reply<'a>(
    bytes: &KnownBytes<'a>,
    asked: ChunkArrayLookUp,
) -> Result<Reply<'a>, Fault>
    ensures { AnswersInChunk bytes.now (λ b c. chunk_array_look_up b c asked) (reply_by reply_of result) }
{
    match asked {
        ChunkArrayLookUp::Count => count_in(bytes).map(|n| Reply::Number(n as u64)),
        ChunkArrayLookUp::Element(i) => element_in(bytes, i).map(Reply::Bytes),
    }
}

fn element_array_reply<'a>(
    bytes: &KnownBytes<'a>,
    asked: ElementArrayLookUp,
) -> Result<Reply<'a>, Fault>
    ensures { AnswersInChunk bytes.now (λ b c. element_array_look_up b c asked) (reply_by reply_of result) }
{
    match asked {
        ElementArrayLookUp::References(token) => {
            element_arrays::count_of(bytes, token).map(|n| Reply::Number(u64::from(n)))
        }
        ElementArrayLookUp::Bytes(token) => {
            element_arrays::data_of(bytes, token).map(Reply::Bytes)
        }
        ElementArrayLookUp::Used => {
            element_arrays::used_count(bytes).map(|n| Reply::Number(n as u64))
        }
        ElementArrayLookUp::TokenOfUsed(k) => {
            element_arrays::token_of_used(bytes, k).map(|token| Reply::Token(token))
        }
        ElementArrayLookUp::UsedOfToken(token) => {
            element_arrays::used_of_token(bytes, token).map(|n| Reply::Number(n as u64))
        }
    }
}

fn name_array_reply<'a>(
    bytes: &KnownBytes<'a>,
    asked: NameArrayLookUp<'_>,
) -> Result<Reply<'a>, Fault>
    ensures { AnswersInChunk bytes.now (λ b c. name_array_look_up b c asked.entry) (reply_by reply_of result) }
{
    match asked {
        NameArrayLookUp::Find(name) => {
            name_arrays::find(bytes, name).map(|token| Reply::Token(token))
        }
        NameArrayLookUp::References(token) => {
            name_arrays::count_of(bytes, token).map(|n| Reply::Number(u64::from(n)))
        }
        NameArrayLookUp::Text(token) => name_arrays::name_of(bytes, token).map(Reply::Bytes),
        NameArrayLookUp::Part(token) => name_arrays::data_of(bytes, token).map(Reply::Bytes),
    }
}
