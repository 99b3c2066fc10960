//! The lines of a script, each put behind those before it. Where memory runs out, a part of one may stand there.
#![tactic(auto, unfolding(geos_script::specs::Printing::edit_text))]

ghost use Rattle.std.specs.Prelude.{◌≡◌, ◌++◌, ◌∷◌, [], OnOk, false};
ghost use Rattle.std.specs.List.{flat_map};
ghost use Rattle.geos_model.specs.Script.{line_feed};
ghost use Rattle.geos_model.specs.declared.command.Edit.TheVariants as edits;
ghost use Rattle.geos_script.specs.Printing.{word_text};
ghost use Rattle.document_dump.specs.Lines.{line};

use geos_model::{ChunkHandle, VmHandle};
use geos_script::{Word, push_words};
use std::alloc::AllocError;

// A name and its operands, each of them behind a space.
fn push_line(out: &mut Vec<u8>, name: &str, operands: &[Word]) -> Result<(), AllocError>
    ensures { OnOk result (out.new.items ≡ out.old.items
        ++ (name.now ++ flat_map (λ w. 32 ∷ word_text w) operands.now ++ line_feed ∷ [])) }
{
    push_words(out, name, operands)?;
    Ok(out.push(b'\n')?)
}

pub fn push_new_raw(out: &mut Vec<u8>, user_id: u16, size: usize) -> Result<(), AllocError>
    ensures { OnOk result (out.new.items ≡ out.old.items ++ line (edits.NewRaw user_id size)) }
{
    push_line(
        out,
        "newraw",
        &[Word::Number(u64::from(user_id)), Word::Number(size as u64)],
    )
}

pub fn push_new_heap(out: &mut Vec<u8>, user_id: u16) -> Result<(), AllocError>
    ensures { OnOk result (out.new.items ≡ out.old.items ++ line (edits.NewHeap user_id)) }
{
    push_line(out, "newheap", &[Word::Number(u64::from(user_id))])
}

pub fn push_free_block(out: &mut Vec<u8>, block: VmHandle) -> Result<(), AllocError>
    ensures { OnOk result (out.new.items ≡ out.old.items ++ line (edits.FreeBlock block)) }
{
    push_line(out, "vfree", &[Word::Handle(block.0)])
}

pub fn push_write_raw(
    out: &mut Vec<u8>,
    block: VmHandle,
    at: usize,
    bytes: &[u8],
) -> Result<(), AllocError>
    ensures { OnOk result (out.new.items ≡ out.old.items ++ line (edits.WriteRaw block at bytes.now)) }
{
    push_line(
        out,
        "vwrite",
        &[
            Word::Handle(block.0),
            Word::Number(at as u64),
            Word::Bytes(bytes),
        ],
    )
}

pub fn push_user_id(out: &mut Vec<u8>, block: VmHandle, user_id: u16) -> Result<(), AllocError>
    ensures { OnOk result (out.new.items ≡ out.old.items ++ line (edits.SetUserId block user_id)) }
{
    push_line(
        out,
        "uid",
        &[Word::Handle(block.0), Word::Number(u64::from(user_id))],
    )
}

pub fn push_type(out: &mut Vec<u8>, block: VmHandle, heap_type: u16) -> Result<(), AllocError>
    ensures { OnOk result (out.new.items ≡ out.old.items ++ line (edits.SetType block heap_type)) }
{
    push_line(
        out,
        "settype",
        &[Word::Handle(block.0), Word::Number(u64::from(heap_type))],
    )
}

pub fn push_map(out: &mut Vec<u8>, block: VmHandle) -> Result<(), AllocError>
    ensures { OnOk result (out.new.items ≡ out.old.items ++ line (edits.SetMap block)) }
{
    push_line(out, "map", &[Word::Handle(block.0)])
}

pub fn push_alloc(out: &mut Vec<u8>, block: VmHandle, size: usize) -> Result<(), AllocError>
    ensures { OnOk result (out.new.items ≡ out.old.items ++ line (edits.Alloc block size)) }
{
    push_line(
        out,
        "alloc",
        &[Word::Handle(block.0), Word::Number(size as u64)],
    )
}

pub fn push_free(out: &mut Vec<u8>, block: VmHandle, chunk: ChunkHandle) -> Result<(), AllocError>
    ensures { OnOk result (out.new.items ≡ out.old.items ++ line (edits.Free block chunk)) }
{
    push_line(out, "free", &[Word::Handle(block.0), Word::Handle(chunk.0)])
}

pub fn push_write(
    out: &mut Vec<u8>,
    block: VmHandle,
    chunk: ChunkHandle,
    at: usize,
    bytes: &[u8],
) -> Result<(), AllocError>
    ensures { OnOk result (out.new.items ≡ out.old.items ++ line (edits.Write block chunk at bytes.now)) }
{
    push_line(
        out,
        "write",
        &[
            Word::Handle(block.0),
            Word::Handle(chunk.0),
            Word::Number(at as u64),
            Word::Bytes(bytes),
        ],
    )
}

pub fn push_create_array(
    out: &mut Vec<u8>,
    block: VmHandle,
    size: usize,
    extra: usize,
) -> Result<(), AllocError>
    ensures { OnOk result (out.new.items ≡ out.old.items ++ line (edits.CreateArray block size extra)) }
{
    push_line(
        out,
        "acreate",
        &[
            Word::Handle(block.0),
            Word::Number(size as u64),
            Word::Number(extra as u64),
        ],
    )
}

/// In front of the other elements.
pub fn push_insert(
    out: &mut Vec<u8>,
    block: VmHandle,
    chunk: ChunkHandle,
    element: &[u8],
) -> Result<(), AllocError>
    ensures { OnOk result (out.new.items ≡ out.old.items ++ line (edits.InsertElement block chunk 0 element.now)) }
{
    push_line(
        out,
        "ainsert",
        &[
            Word::Handle(block.0),
            Word::Handle(chunk.0),
            Word::Number(0),
            Word::Bytes(element),
        ],
    )
}

pub fn push_set_element(
    out: &mut Vec<u8>,
    block: VmHandle,
    chunk: ChunkHandle,
    i: usize,
    element: &[u8],
) -> Result<(), AllocError>
    ensures { OnOk result (out.new.items ≡ out.old.items ++ line (edits.SetElement block chunk i element.now)) }
{
    push_line(
        out,
        "aset",
        &[
            Word::Handle(block.0),
            Word::Handle(chunk.0),
            Word::Number(i as u64),
            Word::Bytes(element),
        ],
    )
}

pub fn push_create_elements(
    out: &mut Vec<u8>,
    block: VmHandle,
    size: usize,
) -> Result<(), AllocError>
    ensures { OnOk result (out.new.items ≡ out.old.items ++ line (edits.CreateElementArray block size)) }
{
    push_line(
        out,
        "ecreate",
        &[Word::Handle(block.0), Word::Number(size as u64)],
    )
}

pub fn push_add_element(
    out: &mut Vec<u8>,
    block: VmHandle,
    chunk: ChunkHandle,
    element: &[u8],
) -> Result<(), AllocError>
    ensures { OnOk result (out.new.items ≡ out.old.items ++ line (edits.AddElement block chunk element.now)) }
{
    push_line(
        out,
        "eadd",
        &[
            Word::Handle(block.0),
            Word::Handle(chunk.0),
            Word::Bytes(element),
        ],
    )
}

pub fn push_create_names(out: &mut Vec<u8>, block: VmHandle, part: usize) -> Result<(), AllocError>
    ensures { OnOk result (out.new.items ≡ out.old.items ++ line (edits.CreateNameArray block part)) }
{
    push_line(
        out,
        "ncreate",
        &[Word::Handle(block.0), Word::Number(part as u64)],
    )
}

pub fn push_add_name(
    out: &mut Vec<u8>,
    block: VmHandle,
    chunk: ChunkHandle,
    name: &[u8],
    part: &[u8],
) -> Result<(), AllocError>
    ensures { OnOk result (out.new.items ≡ out.old.items ++ line (edits.AddName block chunk name.now part.now false)) }
{
    // One array's words have one lifetime, which that of the last one is.
    push_words(
        out,
        "nadd",
        &[
            Word::Handle(block.0),
            Word::Handle(chunk.0),
            Word::Bytes(name),
        ],
    )?;
    push_words(out, "", &[Word::Bytes(part)])?;
    push_line(out, "", &[Word::Flag(false)])
}
