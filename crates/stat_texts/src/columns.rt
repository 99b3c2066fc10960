//! What a file has, as text in columns.
ghost use Rattle.std.specs.Prelude.{◌≡◌, ◌++◌, OnOk};
ghost use Rattle.std.specs.Fmt.{decimal};
ghost use Rattle.std.specs.List.{flat_map};
ghost use Rattle.stat_texts.specs.Columns.{array_lines, columns, document_lines, document_start, free_line, heading, heap_stat_lines, largest_text, length_lines, map_block_text, saved_lines, sized_lines, subject_text, tally_columns, tally_line, type_line};

use crate::numbers::{push_decimal, push_handle, push_left, push_right};
use document_stat::{ArrayStat, BlockStat, DocumentStat, FileStat, Item, Subject, Tally};
use std::alloc::AllocError;
use std::collections::BTreeMap;

fn push_subject(out: &mut Vec<u8>, subject: Subject) -> Result<(), AllocError>
    ensures { OnOk result (out.new.items ≡ out.old.items ++ subject_text subject) }
{
    match subject {
        Subject::Block(block) => push_handle(out, block.0),
        Subject::Chunk(block, chunk) => {
            push_handle(out, block.0)?;
            out.extend_from_slice(b" ")?;
            push_handle(out, chunk.0)
        }
    }
}

fn push_largest(out: &mut Vec<u8>, largest: Option<Item>) -> Result<(), AllocError>
    ensures { OnOk result (out.new.items ≡ out.old.items ++ largest_text largest) }
{
    match largest {
        None => out.extend_from_slice(b"-"),
        Some(item) => {
            push_decimal(out, u64::from(item.size))?;
            out.extend_from_slice(b" in ")?;
            push_subject(out, item.subject)
        }
    }
}

fn push_tally_columns(out: &mut Vec<u8>, tally: &Tally) -> Result<(), AllocError>
    ensures { OnOk result (out.new.items ≡ out.old.items ++ tally_columns tally.now) }
{
    push_right(out, 10, tally.count)?;
    out.extend_from_slice(b" ")?;
    push_right(out, 12, tally.sum)?;
    out.extend_from_slice(b"   ")?;
    push_largest(out, tally.largest)?;
    out.extend_from_slice(b"\n")
}

fn push_tally(out: &mut Vec<u8>, name: &[u8], tally: &Tally) -> Result<(), AllocError>
    ensures { OnOk result (out.new.items ≡ out.old.items ++ tally_line name.now tally.now) }
{
    out.extend_from_slice(name)?;
    push_tally_columns(out, tally)
}

fn push_type(out: &mut Vec<u8>, heap_type: u16, tally: &Tally) -> Result<(), AllocError>
    ensures { OnOk result (out.new.items ≡ out.old.items ++ type_line (heap_type, tally.now)) }
{
    out.extend_from_slice(b"    type ")?;
    push_left(out, 9, u64::from(heap_type))?;
    out.extend_from_slice(b" ")?;
    push_tally_columns(out, tally)
}

fn push_types(out: &mut Vec<u8>, types: &BTreeMap<u16, Tally>) -> Result<(), AllocError>
    ensures { OnOk result (out.new.items ≡ out.old.items ++ flat_map type_line types.now.entries) }
{
    for (heap_type, tally) in types {
        push_type(out, *heap_type, tally)?;
    }
    Ok(())
}

fn push_heading(out: &mut Vec<u8>, sizes: &[u8]) -> Result<(), AllocError>
    ensures { OnOk result (out.new.items ≡ out.old.items ++ heading sizes.now) }
{
    out.extend_from_slice(b"                        count ")?;
    out.extend_from_slice(sizes)?;
    out.extend_from_slice(b"   largest\n")
}

fn push_sized(out: &mut Vec<u8>, blocks: &BlockStat) -> Result<(), AllocError>
    ensures { OnOk result (out.new.items ≡ out.old.items ++ sized_lines blocks.now) }
{
    push_heading(out, b"       bytes")?;
    push_tally(out, b"  raw blocks       ", &blocks.raw)?;
    push_tally(out, b"  chunks           ", &blocks.chunks.all)
}

fn push_heaps(out: &mut Vec<u8>, blocks: &BlockStat) -> Result<(), AllocError>
    ensures { OnOk result (out.new.items ≡ out.old.items ++ heap_stat_lines blocks.now) }
{
    push_heading(out, b"needed bytes")?;
    push_tally(out, b"  heaps            ", &blocks.heaps)?;
    push_types(out, &blocks.types)?;
    out.extend_from_slice(b"  free in heaps ")?;
    push_right(out, 26, blocks.free_bytes())?;
    Ok(out.extend_from_slice(b"\n")?)
}

fn push_arrays(out: &mut Vec<u8>, arrays: &ArrayStat) -> Result<(), AllocError>
    ensures { OnOk result (out.new.items ≡ out.old.items ++ array_lines arrays.now) }
{
    push_heading(out, b"    elements")?;
    push_tally(out, b"  chunk arrays     ", &arrays.chunk)?;
    push_tally(out, b"  element arrays   ", &arrays.element)?;
    push_tally(out, b"  name arrays      ", &arrays.name)
}

fn push_map_block(out: &mut Vec<u8>, block: u16) -> Result<(), AllocError>
    ensures { OnOk result (out.new.items ≡ out.old.items ++ map_block_text block) }
{
    if block == 0 {
        out.extend_from_slice(b"none")
    } else {
        push_handle(out, block)
    }
}

fn push_start(out: &mut Vec<u8>, name: &[u8], document: &DocumentStat) -> Result<(), AllocError>
    ensures { OnOk result (out.new.items ≡ out.old.items ++ document_start name.now document.now) }
{
    out.extend_from_slice(b"\n")?;
    out.extend_from_slice(name)?;
    out.extend_from_slice(b" document\n  map block        ")?;
    push_map_block(out, document.map_block.0)?;
    out.extend_from_slice(b"\n")
}

fn push_document(out: &mut Vec<u8>, name: &[u8], document: &DocumentStat) -> Result<(), AllocError>
    ensures { OnOk result (out.new.items ≡ out.old.items ++ document_lines name.now document.now) }
{
    push_start(out, name, document)?;
    push_sized(out, &document.blocks)?;
    push_heaps(out, &document.blocks)?;
    Ok(push_arrays(out, &document.blocks.chunks.arrays)?)
}

fn push_saved(out: &mut Vec<u8>, saved: &Option<DocumentStat>) -> Result<(), AllocError>
    ensures { OnOk result (out.new.items ≡ out.old.items ++ saved_lines saved.now) }
{
    match saved {
        None => out.extend_from_slice(b"\nthe saved document is the updated one\n"),
        Some(document) => push_document(out, b"saved", document),
    }
}

fn push_lengths(out: &mut Vec<u8>, stat: &FileStat) -> Result<(), AllocError>
    ensures { OnOk result (out.new.items ≡ out.old.items ++ length_lines stat.now) }
{
    out.extend_from_slice(b"bytes        ")?;
    push_right(out, 10, stat.file_length)?;
    out.extend_from_slice(b"\npages        ")?;
    push_right(out, 10, stat.pages)?;
    out.extend_from_slice(b"\n")
}

// Words, and a number behind them.
fn push_numbered(out: &mut Vec<u8>, words: &[u8], number: u64) -> Result<(), AllocError>
    ensures { OnOk result (out.new.items ≡ out.old.items ++ (words.now ++ decimal number)) }
{
    out.extend_from_slice(words)?;
    push_decimal(out, number)
}

fn push_free(out: &mut Vec<u8>, stat: &FileStat) -> Result<(), AllocError>
    ensures { OnOk result (out.new.items ≡ out.old.items ++ free_line stat.now) }
{
    out.extend_from_slice(b"free pages   ")?;
    push_right(out, 10, stat.free.pages)?;
    push_numbered(out, b"   runs: ", stat.free.runs)?;
    push_numbered(out, b", longest: ", stat.free.longest)?;
    out.extend_from_slice(b"\n")
}

/// Puts what a file has behind what is there, as text in columns.
pub fn push_columns(out: &mut Vec<u8>, stat: &FileStat) -> Result<(), AllocError>
    ensures { OnOk result (out.new.items ≡ out.old.items ++ columns stat.now) }
{
    push_lengths(out, stat)?;
    push_free(out, stat)?;
    push_document(out, b"updated", &stat.updated)?;
    push_saved(out, &stat.saved)
}
