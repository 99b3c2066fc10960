//! What C calls. Each call answers 0, the number of a fault of the document, 1 to 29, or a code of its own from 100 on.
ghost use Rattle.std.specs.Prelude.{◌≡◌, false, pos, true, MatchResult};
ghost use Rattle.geos_model.specs.Refusal.{number_of_fault};
ghost use Rattle.geos_c.specs.Calls.{AbandonsGroup, BeginsGroup, CountsLocks, Dirties, EndsGroup, Forgets, Joins, LimitsUndo, LocksBlock, NamesStep, Redoes, Reverts, Saves, Undoes, UnlocksBlock, Updates};
ghost use Rattle.c_sessions.specs.Codes.{IsNamed};
ghost use Rattle.geos_c.specs.Handles.{Begins, ClosesHandle, HandsOutOnHandle, OnHandle, SavesOnHandle};
ghost use Rattle.c_sessions.specs.Keeping.{IsCreation, IsOpening};
ghost use Rattle.geos_c.specs.Lines.{AnswersLine};
ghost use Rattle.geos_c.specs.Stores.{facts};

use crate::calls::{
    abandon, begin as begin_group, dirty, end, forget, join, limit_undo, lock, locks, name_step,
    redo, revert, save, undo, unlock, update,
};
use crate::channel::{Channel, ChannelFile};
use crate::handle::{Handle, put, take};
use crate::line::command;
use c_sessions::{
    BAD_ARGUMENT, FileNumber, Kept, NOT_OPEN, OPEN_ALREADY, close, create, fault_name, open,
    save_as,
};
use geos_model::Fault;
use host_store::HostStore;
use std::alloc::Global;

/// No session has more frames.
const MOST_FRAMES: usize = 64;

// Answers by a call on the session behind a handle.
macro_rules! answer {
    ($handle:ident, $alloc:ident, |$session:ident| $call:expr) => {
        match take($handle, $alloc) {
            None => NOT_OPEN,
            Some(mut kept) => {
                let $session = &mut kept.session;
                let code = $call;
                put($handle, kept);
                code
            }
        }
    };
}

mod edits;
mod lending;
mod look_ups;
mod places;

// Puts a session that was begun behind a handle.
fn begin(handle: &mut Handle, begun: Result<Box<Kept<HostStore<ChannelFile>>>, Fault>) -> i32
    requires { handle.old.is_open ≡ false }
    ensures { MatchResult begun
        (λ kept. (result ≡ pos 0) × (handle.new.is_open ≡ true) × (handle.new.kept ≡ kept.value))
        (λ fault. (handle.new ≡ handle.old) × (result ≡ pos (number_of_fault fault))) }
{
    match begun {
        Ok(kept) => {
            put(handle, kept);
            0
        }
        Err(fault) => i32::from(fault.number()),
    }
}

// Opens the document of a file of the program's; with checksums the next commit gives the file those.
fn open_in(handle: &mut Handle, alloc: Global, number: i32, frames: usize, checksums: bool) -> i32
    ensures { Begins (IsOpening facts frames checksums) number frames handle.old handle.new result }
{
    if handle.is_open() {
        return OPEN_ALREADY;
    }
    if frames < 1 || frames > MOST_FRAMES {
        return BAD_ARGUMENT;
    }
    begin(
        handle,
        open(alloc, &mut Channel, FileNumber(number), frames, checksums),
    )
}

// Makes a file of the program's an empty document, whatever was in it; with checksums or without.
fn create_in(handle: &mut Handle, alloc: Global, number: i32, frames: usize, checksums: bool) -> i32
    ensures { Begins (IsCreation facts frames checksums) number frames handle.old handle.new result }
{
    if handle.is_open() {
        return OPEN_ALREADY;
    }
    if frames < 1 || frames > MOST_FRAMES {
        return BAD_ARGUMENT;
    }
    begin(
        handle,
        create(alloc, &mut Channel, FileNumber(number), frames, checksums),
    )
}

/// Opens the document of a file of the program's, with so many frames, 1 to 64.
#[unsafe(no_mangle)]
pub extern "C" fn geosvm_open(handle: &mut Handle, alloc: Global, number: i32, frames: usize) -> i32
    ensures { Begins (IsOpening facts frames false) number frames handle.old handle.new result }
{
    open_in(handle, alloc, number, frames, false)
}

/// The same, after which the next commit gives the file checksums.
#[unsafe(no_mangle)]
pub extern "C" fn geosvm_open_checksums(
    handle: &mut Handle,
    alloc: Global,
    number: i32,
    frames: usize,
) -> i32
    ensures { Begins (IsOpening facts frames true) number frames handle.old handle.new result }
{
    open_in(handle, alloc, number, frames, true)
}

/// Makes a file of the program's an empty document, whatever was in it.
#[unsafe(no_mangle)]
pub extern "C" fn geosvm_create(
    handle: &mut Handle,
    alloc: Global,
    number: i32,
    frames: usize,
) -> i32
    ensures { Begins (IsCreation facts frames false) number frames handle.old handle.new result }
{
    create_in(handle, alloc, number, frames, false)
}

/// The same, with checksums.
#[unsafe(no_mangle)]
pub extern "C" fn geosvm_create_checksums(
    handle: &mut Handle,
    alloc: Global,
    number: i32,
    frames: usize,
) -> i32
    ensures { Begins (IsCreation facts frames true) number frames handle.old handle.new result }
{
    create_in(handle, alloc, number, frames, true)
}

/// Gives up what isn't committed. Nothing is written.
#[unsafe(no_mangle)]
pub extern "C" fn geosvm_close(handle: &mut Handle, alloc: Global) -> i32
    ensures { ClosesHandle handle.old handle.new result }
{
    match take(handle, alloc) {
        None => NOT_OPEN,
        Some(kept) => {
            close(&mut Channel, Box::into_inner(kept));
            0
        }
    }
}

/// Answers one line, without its line feed. `length` becomes how many bytes its reply line has; as many as fit lie in
/// the buffer.
#[unsafe(no_mangle)]
pub extern "C" fn geosvm_command(
    handle: &mut Handle,
    alloc: Global,
    line: &[u8],
    reply: &mut [u8],
    length: &mut usize,
) -> i32
    ensures { HandsOutOnHandle (AnswersLine facts line.now)
        handle.old handle.new reply.old reply.new length.new result }
{
    *length = 0;
    answer!(
        handle,
        alloc,
        |session| command(session, alloc, line, reply, length)
    )
}

#[unsafe(no_mangle)]
pub extern "C" fn geosvm_undo(handle: &mut Handle, alloc: Global) -> i32
    ensures { OnHandle (Undoes facts) handle.old handle.new result }
{
    answer!(handle, alloc, |session| undo(session))
}

#[unsafe(no_mangle)]
pub extern "C" fn geosvm_redo(handle: &mut Handle, alloc: Global) -> i32
    ensures { OnHandle (Redoes facts) handle.old handle.new result }
{
    answer!(handle, alloc, |session| redo(session))
}

#[unsafe(no_mangle)]
pub extern "C" fn geosvm_join(handle: &mut Handle, alloc: Global) -> i32
    ensures { OnHandle (Joins facts) handle.old handle.new result }
{
    answer!(handle, alloc, |session| join(session))
}

/// Names the newest step to be undone; with no bytes it has no name.
#[unsafe(no_mangle)]
pub extern "C" fn geosvm_name(handle: &mut Handle, alloc: Global, name: &[u8]) -> i32
    ensures { OnHandle (NamesStep facts name.now) handle.old handle.new result }
{
    answer!(handle, alloc, |session| name_step(session, name))
}

/// Keeps the newest `most` steps to be undone.
#[unsafe(no_mangle)]
pub extern "C" fn geosvm_forget(handle: &mut Handle, alloc: Global, most: u32) -> i32
    ensures { OnHandle (Forgets facts most) handle.old handle.new result }
{
    answer!(handle, alloc, |session| forget(session, most))
}

/// Keeps no more than `most` steps to be undone from the next one on; all where that is 0.
#[unsafe(no_mangle)]
pub extern "C" fn geosvm_limit_undo(handle: &mut Handle, alloc: Global, most: u32) -> i32
    ensures { OnHandle (LimitsUndo most) handle.old handle.new result }
{
    answer!(handle, alloc, |session| limit_undo(session, most))
}

#[unsafe(no_mangle)]
pub extern "C" fn geosvm_update(handle: &mut Handle, alloc: Global) -> i32
    ensures { OnHandle (Updates facts) handle.old handle.new result }
{
    answer!(handle, alloc, |session| update(session))
}

#[unsafe(no_mangle)]
pub extern "C" fn geosvm_save(handle: &mut Handle, alloc: Global) -> i32
    ensures { OnHandle (Saves facts) handle.old handle.new result }
{
    answer!(handle, alloc, |session| save(session))
}

#[unsafe(no_mangle)]
pub extern "C" fn geosvm_revert(handle: &mut Handle, alloc: Global) -> i32
    ensures { OnHandle (Reverts facts) handle.old handle.new result }
{
    answer!(handle, alloc, |session| revert(session))
}

/// Goes on in another file of the program's. The old one is no longer used.
#[unsafe(no_mangle)]
pub extern "C" fn geosvm_save_as(handle: &mut Handle, alloc: Global, number: i32) -> i32
    ensures { SavesOnHandle number handle.old handle.new result }
{
    match take(handle, alloc) {
        None => NOT_OPEN,
        Some(mut kept) => {
            let code = save_as(&mut Channel, &mut kept, FileNumber(number));
            put(handle, kept);
            code
        }
    }
}

/// The name of the fault that has this number, 1 to 29.
#[unsafe(no_mangle)]
pub extern "C" fn geosvm_fault_name(code: i32, name: &mut [u8], length: &mut usize) -> i32
    ensures { IsNamed code name.old name.new length.new result }
{
    fault_name(&mut Channel, code, name, length)
}

#[unsafe(no_mangle)]
pub extern "C" fn geosvm_begin(handle: &mut Handle, alloc: Global) -> i32
    ensures { OnHandle BeginsGroup handle.old handle.new result }
{
    answer!(handle, alloc, |session| begin_group(session))
}

#[unsafe(no_mangle)]
pub extern "C" fn geosvm_end(handle: &mut Handle, alloc: Global) -> i32
    ensures { OnHandle EndsGroup handle.old handle.new result }
{
    answer!(handle, alloc, |session| end(session))
}

#[unsafe(no_mangle)]
pub extern "C" fn geosvm_abandon(handle: &mut Handle, alloc: Global) -> i32
    ensures { OnHandle (AbandonsGroup facts) handle.old handle.new result }
{
    answer!(handle, alloc, |session| abandon(session))
}

#[unsafe(no_mangle)]
pub extern "C" fn geosvm_lock(handle: &mut Handle, alloc: Global, block: u16) -> i32
    ensures { OnHandle (LocksBlock facts block) handle.old handle.new result }
{
    answer!(handle, alloc, |session| lock(session, block))
}

#[unsafe(no_mangle)]
pub extern "C" fn geosvm_unlock(handle: &mut Handle, alloc: Global, block: u16) -> i32
    ensures { OnHandle (UnlocksBlock block) handle.old handle.new result }
{
    answer!(handle, alloc, |session| unlock(session, block))
}

#[unsafe(no_mangle)]
pub extern "C" fn geosvm_dirty(handle: &mut Handle, alloc: Global, block: u16) -> i32
    ensures { OnHandle (Dirties block) handle.old handle.new result }
{
    answer!(handle, alloc, |session| dirty(session, block))
}

/// `count` becomes how often the block is locked, 0 where that is refused.
#[unsafe(no_mangle)]
pub extern "C" fn geosvm_locks(
    handle: &mut Handle,
    alloc: Global,
    block: u16,
    count: &mut u8,
) -> i32
    ensures told { OnHandle (CountsLocks block count.new) handle.old handle.new result }
    ensures none { handle.old.is_open ≡ false → count.new ≡ 0 }
{
    *count = 0;
    answer!(handle, alloc, |session| locks(session, block, count))
}
