//! Bytes of locked blocks, lent where they lie.
ghost use Rattle.std.specs.Prelude.{◌≡◌, ◌≤◌, Bool, Some, length};
ghost use Rattle.std.specs.Ptr.{as_ptr, null_ptr};
ghost use Rattle.geos_model.specs.Document.{raw_bytes_of};
ghost use Rattle.geos_model.specs.Machine.{locked_raw};
ghost use Rattle.geos_model.specs.Reply.{BytesAre, reply_by};
ghost use Rattle.geos_model.specs.declared.command.Command.TheVariants as commands;
ghost use Rattle.geos_c.specs.Calls.{chunk_handle, vm};
ghost use Rattle.c_sessions.specs.Codes.{ReportsAnswer};
ghost use Rattle.large_arrays.specs.LentRuns.{run_bytes};
ghost use Rattle.undo_log.specs.Sessions.{machine_of};
ghost use Rattle.geos_c.specs.Lending.{HandsOutPlace, IsLent, Lends, LendsRun};

use geos_model::{ChunkHandle, Fault, VmHandle};
use large_arrays::RunPlace;
use std::ptr::null;
use undo_log::Session;
use vm_store::Store;

/// The address at which bytes lie. Where there are none it is some address, which isn't null.
fn address(bytes: &[u8]) -> *const u8
    ensures { result ≡ as_ptr bytes.entry }
{
    bytes.as_ptr()
}

/// The address of nothing.
pub(crate) fn nowhere() -> *const u8
    ensures { result ≡ null_ptr }
{
    null()
}

/// Hands out where the bytes that are lent lie, and how many they are, or nothing, where they are refused.
fn hand_out_place(answer: Result<&[u8], Fault>, bytes: &mut *const u8, length: &mut usize) -> i32
    ensures { HandsOutPlace answer.entry bytes.new length.new result }
{
    match answer {
        Ok(lent) => {
            *bytes = address(lent);
            *length = lent.len();
            0
        }
        Err(fault) => {
            *bytes = nowhere();
            *length = 0;
            i32::from(fault.number())
        }
    }
}

/// The bytes of a chunk of a locked block. NoBlock, WrongKind, NotLocked, NoChunk.
fn locked_chunk<S: Store>(
    session: &Session<S>,
    block: VmHandle,
    chunk: ChunkHandle,
) -> Result<&[u8], Fault>
    ensures { IsLent (commands.Read block chunk) block.0 session.now (reply_by (λ bytes. BytesAre bytes.now) result) }
{
    session.heap_type(block)?;
    if session.locks(block)? == 0 {
        return Err(Fault::NotLocked);
    }
    session.locked_chunk(block, chunk).ok_or(Fault::NoChunk)
}

/// The bytes of a raw block that is locked. NoBlock, WrongKind, NotLocked.
fn locked_raw<S: Store>(session: &Session<S>, block: VmHandle) -> Result<&[u8], Fault>
    ensures { IsLent (commands.ReadRaw block) block.0 session.now (reply_by (λ bytes. BytesAre bytes.now) result) }
{
    // Whether it is there; None below says that it isn't locked.
    session.locks(block)?;
    if session.heap_type(block).is_ok() {
        return Err(Fault::WrongKind);
    }
    session.locked_raw(block).ok_or(Fault::NotLocked)
}

/// Lends the bytes of a chunk.
pub(crate) fn lend_chunk<S: Store>(
    session: &mut Session<S>,
    block: u16,
    chunk: u16,
    bytes: &mut *const u8,
    length: &mut usize,
) -> i32
    ensures { ReportsAnswer
        (Lends (commands.Read (vm block) (chunk_handle chunk)) block bytes.new length.new session.old session.new)
        result }
{
    hand_out_place(
        locked_chunk(session, VmHandle(block), ChunkHandle(chunk)),
        bytes,
        length,
    )
}

/// Lends the bytes of a raw block.
pub(crate) fn lend_raw<S: Store>(
    session: &mut Session<S>,
    block: u16,
    bytes: &mut *const u8,
    length: &mut usize,
) -> i32
    ensures { ReportsAnswer (Lends (commands.ReadRaw (vm block)) block bytes.new length.new session.old session.new)
        result }
{
    hand_out_place(locked_raw(session, VmHandle(block)), bytes, length)
}

/// The bytes of a locked block from a place on.
fn run_bytes<S: Store>(session: &Session<S>, place: RunPlace) -> &[u8]
    requires lent { (target : Bool) → locked_raw (machine_of target session.now) place.block.0
        ≡ Some (raw_bytes_of session.now.document place.block.0) }
    requires within { place.start ≤ length (raw_bytes_of session.now.document place.block.0) }
    ensures { result.now ≡ run_bytes session.now.document place }
{
    &session.locked_raw(place.block).unwrap()[place.start..]
}

/// Locks the block that has an element of a large array, and lends its bytes from that on.
pub(crate) fn lend_run<S: Store>(
    session: &mut Session<S>,
    root: u16,
    i: u32,
    block: &mut u16,
    bytes: &mut *const u8,
    length: &mut usize,
) -> i32
    ensures { ReportsAnswer
        (LendsRun S.facts root i block.new bytes.new length.new session.old session.new) result }
{
    match session.lock_run(VmHandle(root), i) {
        Ok(place) => {
            let lent = run_bytes(session, place);
            *block = place.block.0;
            *bytes = address(lent);
            *length = lent.len();
            0
        }
        Err(fault) => {
            *block = 0;
            *bytes = nowhere();
            *length = 0;
            i32::from(fault.number())
        }
    }
}
