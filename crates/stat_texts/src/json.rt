//! What a file has, as one JSON object on a line.
ghost use Rattle.std.specs.Prelude.{◌≡◌, ◌++◌, [], OnOk, codes, if◌then◌else◌};
ghost use Rattle.stat_texts.specs.Json.{arrays, blocks, document, free_pages, handle_member, heap_type_object, heaps, json, largest, map_block, members, number_member, pages, saved, subject_members, tally_member, types};

use crate::numbers::{push_decimal, push_handle};
use document_stat::{ArrayStat, BlockStat, DocumentStat, FileStat, Item, Subject, Tally};
use std::alloc::AllocError;
use std::collections::BTreeMap;

fn push_number(out: &mut Vec<u8>, name: &[u8], value: u64) -> Result<(), AllocError>
    ensures { OnOk result (out.new.items ≡ out.old.items ++ number_member name.now value) }
{
    out.extend_from_slice(b"\"")?;
    out.extend_from_slice(name)?;
    out.extend_from_slice(b"\":")?;
    push_decimal(out, value)
}

fn push_named_handle(out: &mut Vec<u8>, name: &[u8], value: u16) -> Result<(), AllocError>
    ensures { OnOk result (out.new.items ≡ out.old.items ++ handle_member name.now value) }
{
    out.extend_from_slice(b"\"")?;
    out.extend_from_slice(name)?;
    out.extend_from_slice(b"\":\"")?;
    push_handle(out, value)?;
    out.extend_from_slice(b"\"")
}

fn push_subject(out: &mut Vec<u8>, of: Subject) -> Result<(), AllocError>
    ensures { OnOk result (out.new.items ≡ out.old.items ++ subject_members of) }
{
    match of {
        Subject::Block(block) => push_named_handle(out, b"block", block.0),
        Subject::Chunk(block, chunk) => {
            push_named_handle(out, b"block", block.0)?;
            out.extend_from_slice(b",")?;
            push_named_handle(out, b"chunk", chunk.0)
        }
    }
}

fn push_largest(out: &mut Vec<u8>, unit: &[u8], item: Option<Item>) -> Result<(), AllocError>
    ensures { OnOk result (out.new.items ≡ out.old.items ++ largest unit.now item) }
{
    match item {
        None => out.extend_from_slice(b"null"),
        Some(item) => {
            out.extend_from_slice(b"{")?;
            push_subject(out, item.subject)?;
            out.extend_from_slice(b",")?;
            push_number(out, unit, u64::from(item.size))?;
            out.extend_from_slice(b"}")
        }
    }
}

fn push_members(out: &mut Vec<u8>, unit: &[u8], of: &Tally) -> Result<(), AllocError>
    ensures { OnOk result (out.new.items ≡ out.old.items ++ members unit.now of.now) }
{
    push_number(out, b"count", of.count)?;
    out.extend_from_slice(b",")?;
    push_number(out, unit, of.sum)?;
    out.extend_from_slice(b",\"largest\":")?;
    push_largest(out, unit, of.largest)
}

fn push_tally(out: &mut Vec<u8>, name: &[u8], unit: &[u8], of: &Tally) -> Result<(), AllocError>
    ensures { OnOk result (out.new.items ≡ out.old.items ++ tally_member name.now unit.now of.now) }
{
    out.extend_from_slice(b"\"")?;
    out.extend_from_slice(name)?;
    out.extend_from_slice(b"\":{")?;
    push_members(out, unit, of)?;
    out.extend_from_slice(b"}")
}

fn push_type(out: &mut Vec<u8>, number: u16, of: &Tally) -> Result<(), AllocError>
    ensures { OnOk result (out.new.items ≡ out.old.items ++ heap_type_object (number, of.now)) }
{
    out.extend_from_slice(b"{")?;
    push_number(out, b"type", u64::from(number))?;
    out.extend_from_slice(b",")?;
    push_members(out, b"needed_bytes", of)?;
    out.extend_from_slice(b"}")
}

fn push_comma_unless(out: &mut Vec<u8>, first: bool) -> Result<(), AllocError>
    ensures { OnOk result (out.new.items ≡ out.old.items ++ (if first then [] else codes ",")) }
{
    if first {
        Ok(())
    } else {
        out.extend_from_slice(b",")
    }
}

fn push_types(out: &mut Vec<u8>, all: &BTreeMap<u16, Tally>) -> Result<(), AllocError>
    ensures { OnOk result (out.new.items ≡ out.old.items ++ types all.now.entries) }
{
    let mut first = true;
    for (number, of) in all {
        push_comma_unless(out, first)?;
        push_type(out, *number, of)?;
        first = false;
    }
    Ok(())
}

fn push_listed_types(out: &mut Vec<u8>, all: &BTreeMap<u16, Tally>) -> Result<(), AllocError>
    ensures { OnOk result (out.new.items
        ≡ out.old.items ++ (codes ",\"types\":[" ++ types all.now.entries ++ codes "]}")) }
{
    out.extend_from_slice(b",\"types\":[")?;
    push_types(out, all)?;
    out.extend_from_slice(b"]}")
}

fn push_heaps(out: &mut Vec<u8>, of: &BlockStat) -> Result<(), AllocError>
    ensures { OnOk result (out.new.items ≡ out.old.items ++ heaps of.now) }
{
    out.extend_from_slice(b"\"heaps\":{")?;
    push_members(out, b"needed_bytes", &of.heaps)?;
    out.extend_from_slice(b",")?;
    push_number(out, b"free_bytes", of.free_bytes())?;
    Ok(push_listed_types(out, &of.types)?)
}

fn push_arrays(out: &mut Vec<u8>, of: &ArrayStat) -> Result<(), AllocError>
    ensures { OnOk result (out.new.items ≡ out.old.items ++ arrays of.now) }
{
    push_tally(out, b"chunk_arrays", b"elements", &of.chunk)?;
    out.extend_from_slice(b",")?;
    push_tally(out, b"element_arrays", b"elements", &of.element)?;
    out.extend_from_slice(b",")?;
    push_tally(out, b"name_arrays", b"elements", &of.name)
}

fn push_map_block(out: &mut Vec<u8>, block: u16) -> Result<(), AllocError>
    ensures { OnOk result (out.new.items ≡ out.old.items ++ map_block block) }
{
    if block == 0 {
        out.extend_from_slice(b"\"map_block\":null")
    } else {
        push_named_handle(out, b"map_block", block)
    }
}

fn push_blocks(out: &mut Vec<u8>, of: &BlockStat) -> Result<(), AllocError>
    ensures { OnOk result (out.new.items ≡ out.old.items ++ blocks of.now) }
{
    push_tally(out, b"raw_blocks", b"bytes", &of.raw)?;
    out.extend_from_slice(b",")?;
    push_heaps(out, of)?;
    out.extend_from_slice(b",")?;
    Ok(push_tally(out, b"chunks", b"bytes", &of.chunks.all)?)
}

fn push_document(out: &mut Vec<u8>, of: &DocumentStat) -> Result<(), AllocError>
    ensures { OnOk result (out.new.items ≡ out.old.items ++ document of.now) }
{
    out.extend_from_slice(b"{")?;
    push_map_block(out, of.map_block.0)?;
    out.extend_from_slice(b",")?;
    push_blocks(out, &of.blocks)?;
    out.extend_from_slice(b",")?;
    push_arrays(out, &of.blocks.chunks.arrays)?;
    out.extend_from_slice(b"}")
}

fn push_saved(out: &mut Vec<u8>, of: &Option<DocumentStat>) -> Result<(), AllocError>
    ensures { OnOk result (out.new.items ≡ out.old.items ++ saved of.now) }
{
    match of {
        None => out.extend_from_slice(b"null"),
        Some(document) => push_document(out, document),
    }
}

fn push_free_pages(out: &mut Vec<u8>, stat: &FileStat) -> Result<(), AllocError>
    ensures { OnOk result (out.new.items ≡ out.old.items ++ free_pages stat.now) }
{
    out.extend_from_slice(b"\"free_pages\":{")?;
    push_number(out, b"count", stat.free.pages)?;
    out.extend_from_slice(b",")?;
    push_number(out, b"runs", stat.free.runs)?;
    out.extend_from_slice(b",")?;
    push_number(out, b"longest", stat.free.longest)?;
    Ok(out.extend_from_slice(b"}")?)
}

fn push_pages(out: &mut Vec<u8>, stat: &FileStat) -> Result<(), AllocError>
    ensures { OnOk result (out.new.items ≡ out.old.items ++ pages stat.now) }
{
    push_number(out, b"bytes", stat.file_length)?;
    out.extend_from_slice(b",")?;
    push_number(out, b"pages", stat.pages)?;
    out.extend_from_slice(b",")?;
    push_free_pages(out, stat)
}

/// Puts what a file has behind what is there, as one JSON object on a line.
pub fn push_json(out: &mut Vec<u8>, stat: &FileStat) -> Result<(), AllocError>
    ensures { OnOk result (out.new.items ≡ out.old.items ++ json stat.now) }
{
    out.extend_from_slice(b"{")?;
    push_pages(out, stat)?;
    out.extend_from_slice(b",\"updated\":")?;
    push_document(out, &stat.updated)?;
    out.extend_from_slice(b",\"saved\":")?;
    push_saved(out, &stat.saved)?;
    out.extend_from_slice(b"}\n")
}
