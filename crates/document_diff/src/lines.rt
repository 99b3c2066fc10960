//! The lines, each put behind those before it. Where memory runs out, a part of one may stand there.
#![tactic(auto, unfolding(crate::specs::Lines::difference_text))]

ghost use Rattle.std.specs.Prelude.{◌≡◌, ◌++◌, ◌∷◌, [], OnOk, codes};
ghost use Rattle.geos_script.specs.declared.word.Word.TheVariants.{Handle, Number};
ghost use Rattle.document_diff.specs.Lines.{change_text, diff_line, difference_text, phrase, size_text};
ghost use Rattle.document_diff.specs.declared.difference.Difference.TheVariants as differences;

use crate::difference::{BodySize, BytesChange, Difference};
use geos_model::{ChunkHandle, VmHandle};
use geos_script::{Word, push_words};
use std::alloc::AllocError;

fn push_size(out: &mut Vec<u8>, size: BodySize) -> Result<(), AllocError>
    ensures { OnOk result (out.new.items ≡ out.old.items ++ size_text size) }
{
    match size {
        BodySize::Raw(bytes) => push_words(out, " raw", &[Word::Number(bytes as u64)]),
        BodySize::Heap(chunks) => push_words(out, " heap", &[Word::Number(chunks as u64)]),
    }
}

fn push_change(out: &mut Vec<u8>, change: BytesChange) -> Result<(), AllocError>
    ensures { OnOk result (out.new.items ≡ out.old.items ++ change_text change) }
{
    push_words(
        out,
        "",
        &[
            Word::Number(change.old as u64),
            Word::Number(change.new as u64),
        ],
    )?;
    push_words(out, " at", &[Word::Number(change.at as u64)])
}

// A sign, and a block.
fn push_block(out: &mut Vec<u8>, sign: &str, block: VmHandle) -> Result<(), AllocError>
    ensures { OnOk result (out.new.items ≡ out.old.items ++ phrase sign.now (Handle block.0 ∷ [])) }
{
    push_words(out, sign, &[Word::Handle(block.0)])
}

fn push_body(
    out: &mut Vec<u8>,
    sign: &str,
    block: VmHandle,
    size: BodySize,
) -> Result<(), AllocError>
    ensures { OnOk result
        (out.new.items ≡ out.old.items ++ (phrase sign.now (Handle block.0 ∷ []) ++ size_text size)) }
{
    push_block(out, sign, block)?;
    push_size(out, size)
}

// Both numbers of an attribute.
fn push_numbers(
    out: &mut Vec<u8>,
    block: VmHandle,
    name: &str,
    old: u16,
    new: u16,
) -> Result<(), AllocError>
    ensures { OnOk result (out.new.items ≡ out.old.items
        ++ (phrase (codes "!") (Handle block.0 ∷ []) ++ phrase name.now (Number old ∷ Number new ∷ []))) }
{
    push_block(out, "!", block)?;
    push_words(
        out,
        name,
        &[Word::Number(u64::from(old)), Word::Number(u64::from(new))],
    )
}

fn push_chunk(
    out: &mut Vec<u8>,
    sign: &str,
    block: VmHandle,
    chunk: ChunkHandle,
    size: usize,
) -> Result<(), AllocError>
    ensures { OnOk result (out.new.items ≡ out.old.items
        ++ phrase sign.now (Handle block.0 ∷ Handle chunk.0 ∷ Number size ∷ [])) }
{
    push_words(
        out,
        sign,
        &[
            Word::Handle(block.0),
            Word::Handle(chunk.0),
            Word::Number(size as u64),
        ],
    )
}

fn push_raw_change(
    out: &mut Vec<u8>,
    block: VmHandle,
    change: BytesChange,
) -> Result<(), AllocError>
    ensures { OnOk result (out.new.items ≡ out.old.items ++ difference_text (differences.RawChanged block change)) }
{
    push_block(out, "!", block)?;
    out.extend_from_slice(b" raw")?;
    push_change(out, change)
}

fn push_chunk_change(
    out: &mut Vec<u8>,
    block: VmHandle,
    chunk: ChunkHandle,
    change: BytesChange,
) -> Result<(), AllocError>
    ensures { OnOk result
        (out.new.items ≡ out.old.items ++ difference_text (differences.ChunkChanged block chunk change)) }
{
    push_words(out, "!", &[Word::Handle(block.0), Word::Handle(chunk.0)])?;
    push_change(out, change)
}

// Without a line feed.
fn push_text(out: &mut Vec<u8>, difference: Difference) -> Result<(), AllocError>
    ensures { OnOk result (out.new.items ≡ out.old.items ++ difference_text difference) }
{
    match difference {
        Difference::MapBlock(old, new) => {
            push_words(out, "map", &[Word::Handle(old.0), Word::Handle(new.0)])
        }
        Difference::BlockWent(block, size) => push_body(out, "-", block, size),
        Difference::BlockCame(block, size) => push_body(out, "+", block, size),
        Difference::UserId(block, old, new) => push_numbers(out, block, " uid", old, new),
        Difference::HeapType(block, old, new) => push_numbers(out, block, " type", old, new),
        Difference::RawChanged(block, change) => push_raw_change(out, block, change),
        Difference::ChunkWent(block, chunk, size) => push_chunk(out, "-", block, chunk, size),
        Difference::ChunkCame(block, chunk, size) => push_chunk(out, "+", block, chunk, size),
        Difference::ChunkChanged(block, chunk, change) => {
            push_chunk_change(out, block, chunk, change)
        }
    }
}

/// The line of a difference.
pub fn push_difference(out: &mut Vec<u8>, difference: Difference) -> Result<(), AllocError>
    ensures { OnOk result (out.new.items ≡ out.old.items ++ diff_line difference) }
{
    push_text(out, difference)?;
    Ok(out.push(b'\n')?)
}
