//! A salvage: the script of what can be read of a file.
ghost use Rattle.std.specs.Prelude.{◌≡◌, ◌++◌, ◌≤◌, IfErr, IfOk, IsTrue, OnOk, length, true};
ghost use Rattle.std.specs.Io.KnownBytes.{Appends};
ghost use Rattle.file_format.specs.Reading.{OnlyReadsStore};
ghost use Rattle.document_dump.specs.Faults.{IsDumpRefusal};
ghost use Rattle.file_salvage.specs.Places.{is_place};
ghost use Rattle.file_salvage.specs.Salvaged.{IsNoteFault, IsSalvage, gate_note, head_note, lost_map, map_kept, map_note, place_note, salvage_text, script_of, sum_note};

use crate::entries::{Listing, has_handle, take_entries};
use crate::place::Place;
use crate::places::{find_place, read_place};
use document_dump::{DumpFault, dump_entries, send};
use file_format::{Entry, has_sum, read_length};
use file_report::{Named, map_block_of};
use geos_model::VmHandle;
use geos_script::{Word, push_words};
use std::alloc::{AllocError, Global};
use std::io::Write;
use vm_store::Store;

fn push_place_note(out: &mut Vec<u8>, place: Place) -> Result<(), AllocError>
    ensures { OnOk result (out.new.items ≡ out.old.items ++ place_note place) }
{
    out.extend_from_slice(b"# what can be read of the ")?;
    out.extend_from_slice(match place.name {
        Named::Updated => b"updated",
        Named::Saved => b"saved",
    })?;
    if place.second {
        out.extend_from_slice(b" document of slot 1\n")
    } else {
        out.extend_from_slice(b" document of slot 0\n")
    }
}

fn push_gate_note(out: &mut Vec<u8>, is_open: bool) -> Result<(), AllocError>
    ensures { OnOk result (out.new.items ≡ out.old.items ++ gate_note is_open) }
{
    if is_open {
        return Ok(());
    }
    out.extend_from_slice(
        b"# its slot is closed: it may be an earlier document, or written over in part, or not whole yet\n",
    )
}

fn push_sum_note(out: &mut Vec<u8>, sum: Option<u32>, bytes: &[u8]) -> Result<(), AllocError>
    ensures { OnOk result (out.new.items ≡ out.old.items ++ sum_note sum bytes.now) }
{
    if has_sum(sum, bytes) {
        return Ok(());
    }
    out.extend_from_slice(
        b"# its directory's sum is wrong: handles, user IDs, types and the map block may be, too\n",
    )
}

// Of which document a directory of these bytes is, whether its slot is closed, and whether its sum is wrong.
fn push_head_note(out: &mut Vec<u8>, place: Place, bytes: &[u8]) -> Result<(), AllocError>
    ensures { OnOk result (out.new.items ≡ out.old.items ++ head_note place bytes.now) }
{
    push_place_note(out, place)?;
    push_gate_note(out, place.is_open)?;
    push_sum_note(out, place.sum, bytes)
}

fn map_kept(map_block: u16, entries: &[Entry]) -> u16
    ensures { result ≡ map_kept map_block entries.now }
{
    if has_handle(map_block, entries) {
        map_block
    } else {
        0
    }
}

fn push_lost_map(out: &mut Vec<u8>, map_block: u16) -> Result<(), AllocError>
    ensures { OnOk result (out.new.items ≡ out.old.items ++ lost_map map_block) }
{
    push_words(out, "# map block", &[Word::Handle(map_block)])?;
    out.extend_from_slice(b" is left out\n")?;
    Ok(())
}

fn push_map_note(out: &mut Vec<u8>, map_block: u16, kept: u16) -> Result<(), AllocError>
    ensures { OnOk result (out.new.items ≡ out.old.items ++ map_note map_block kept) }
{
    if map_block == kept {
        return Ok(());
    }
    push_lost_map(out, map_block)
}

fn send_head_note<W: Write>(
    alloc: Global,
    place: Place,
    bytes: &[u8],
    writer: &mut W,
) -> Result<(), DumpFault>
    ensures err { IfErr result IsNoteFault }
    ensures ok { OnOk result (Appends (W.contents writer.old) (W.contents writer.new) (head_note place bytes.now)) }
{
    let mut note = Vec::new(alloc);
    push_head_note(&mut note, place, bytes)?;
    send(note.as_slice(), writer)?;
    Ok(())
}

fn send_map_note<W: Write>(
    alloc: Global,
    map_block: u16,
    kept: u16,
    writer: &mut W,
) -> Result<(), DumpFault>
    ensures err { IfErr result IsNoteFault }
    ensures ok { OnOk result (Appends (W.contents writer.old) (W.contents writer.new) (map_note map_block kept)) }
{
    let mut note = Vec::new(alloc);
    push_map_note(&mut note, map_block, kept)?;
    send(note.as_slice(), writer)?;
    Ok(())
}

// The script of what a directory has.
fn salvage_place<S: Store, W: Write>(
    alloc: Global,
    store: &mut S,
    file_length: u64,
    all: bool,
    place: Place,
    writer: &mut W,
) -> Result<(), DumpFault>
    requires size { IsTrue (S.facts store.old).honest → file_length ≡ length (S.facts store.old).content }
    requires place { is_place file_length place ≡ true }
    ensures reads { OnlyReadsStore (S.facts store.old) (S.facts store.new) }
    ensures fails { IfErr result (IsDumpRefusal (S.facts store.old) (S.facts store.new)) }
    ensures ok { OnOk result (IsTrue (S.facts store.old).honest
        → IsSalvage (script_of all (S.facts store.old).content place) true
        (W.contents writer.old) (W.contents writer.new)) }
{
    let directory = read_place(alloc, store, file_length, place)?;
    let bytes = directory.as_slice();
    send_head_note(alloc, place, bytes, writer)?;
    let listing = Listing {
        file_version: place.version,
        file_length,
        bytes,
    };
    let found = take_entries(alloc, store, all, listing, writer)?;
    let entries = found.as_slice();
    let map_block = map_block_of(bytes);
    let kept = map_kept(map_block, entries);
    send_map_note(alloc, map_block, kept, writer)?;
    dump_entries(alloc, store, entries, VmHandle(kept), writer)?;
    Ok(())
}

/// Writes a script of commands that makes all blocks anew that are whole in a file, whether or not it opens, with lines
/// before it that tell which are left out, whether the slot is closed, and whether the directory's sum is wrong. With
/// `all` those are taken too whose image can be read and hasn't its sum, and a line tells of each. False where no
/// directory can be read; then nothing is written. Nothing is written to the store. The writer gets many short pieces,
/// so it should be buffered.
pub fn salvage<S: Store, W: Write>(
    alloc: Global,
    store: &mut S,
    all: bool,
    writer: &mut W,
) -> Result<bool, DumpFault>
    ensures reads { OnlyReadsStore (S.facts store.old) (S.facts store.new) }
    ensures fails { IfErr result (IsDumpRefusal (S.facts store.old) (S.facts store.new)) }
    ensures ok { IfOk result (λ some. IsTrue (S.facts store.old).honest
        → IsSalvage (salvage_text all (S.facts store.old).content) some
        (W.contents writer.old) (W.contents writer.new)) }
{
    let file_length = read_length(store)?;
    match find_place(alloc, store, file_length)? {
        None => Ok(false),
        Some(place) => {
            salvage_place(alloc, store, file_length, all, place, writer)?;
            Ok(true)
        }
    }
}
