//! Calls on a session over any store, answered by codes.
ghost use Rattle.std.specs.Prelude.{◌≡◌};
ghost use Rattle.geos_c.specs.Calls.{AbandonsGroup, BeginsGroup, CountsLocks, Dirties, EndsGroup, Forgets, Joins, LimitsUndo, LocksBlock, NamesStep, Redoes, Reverts, Saves, Undoes, UnlocksBlock, Updates};
ghost use Rattle.c_sessions.specs.Codes.{ReportsAnswer};
ghost use Rattle.geos_c.specs.Edits.{Makes, handle_made as number_done};

use c_sessions::code_of;
use geos_model::{Done, Edit, VmHandle};
use undo_log::Session;
use vm_store::Store;

pub(crate) fn undo<S: Store>(session: &mut Session<S>) -> i32
    ensures { ReportsAnswer (Undoes S.facts session.old session.new) result }
{
    let answer = session.undo();
    code_of(answer)
}

pub(crate) fn redo<S: Store>(session: &mut Session<S>) -> i32
    ensures { ReportsAnswer (Redoes S.facts session.old session.new) result }
{
    let answer = session.redo();
    code_of(answer)
}

pub(crate) fn join<S: Store>(session: &mut Session<S>) -> i32
    ensures { ReportsAnswer (Joins S.facts session.old session.new) result }
{
    let answer = session.join();
    code_of(answer)
}

pub(crate) fn forget<S: Store>(session: &mut Session<S>, most: u32) -> i32
    ensures { ReportsAnswer (Forgets S.facts most session.old session.new) result }
{
    session.forget(most);
    code_of(Ok(()))
}

/// Names the newest step.
pub(crate) fn name_step<S: Store>(session: &mut Session<S>, name: &[u8]) -> i32
    ensures { ReportsAnswer (NamesStep S.facts name.now session.old session.new) result }
{
    let answer = session.name_step(name);
    code_of(answer)
}

/// Limits the steps that are kept to be undone, or takes the limit away by 0.
pub(crate) fn limit_undo<S: Store>(session: &mut Session<S>, most: u32) -> i32
    ensures { ReportsAnswer (LimitsUndo most session.old session.new) result }
{
    let limit = if most == 0 { None } else { Some(most) };
    session.limit_undo(limit);
    code_of(Ok(()))
}

pub(crate) fn update<S: Store>(session: &mut Session<S>) -> i32
    ensures { ReportsAnswer (Updates S.facts session.old session.new) result }
{
    let answer = session.update();
    code_of(answer)
}

pub(crate) fn save<S: Store>(session: &mut Session<S>) -> i32
    ensures { ReportsAnswer (Saves S.facts session.old session.new) result }
{
    let answer = session.save();
    code_of(answer)
}

pub(crate) fn revert<S: Store>(session: &mut Session<S>) -> i32
    ensures { ReportsAnswer (Reverts S.facts session.old session.new) result }
{
    let answer = session.revert();
    code_of(answer)
}

pub(crate) fn begin<S: Store>(session: &mut Session<S>) -> i32
    ensures { ReportsAnswer (BeginsGroup session.old session.new) result }
{
    let answer = session.begin();
    code_of(answer)
}

pub(crate) fn end<S: Store>(session: &mut Session<S>) -> i32
    ensures { ReportsAnswer (EndsGroup session.old session.new) result }
{
    let answer = session.end();
    code_of(answer)
}

pub(crate) fn abandon<S: Store>(session: &mut Session<S>) -> i32
    ensures { ReportsAnswer (AbandonsGroup S.facts session.old session.new) result }
{
    let answer = session.abandon();
    code_of(answer)
}

pub(crate) fn lock<S: Store>(session: &mut Session<S>, block: u16) -> i32
    ensures { ReportsAnswer (LocksBlock S.facts block session.old session.new) result }
{
    let answer = session.lock(VmHandle(block));
    code_of(answer)
}

pub(crate) fn unlock<S: Store>(session: &mut Session<S>, block: u16) -> i32
    ensures { ReportsAnswer (UnlocksBlock block session.old session.new) result }
{
    let answer = session.unlock(VmHandle(block));
    code_of(answer)
}

pub(crate) fn dirty<S: Store>(session: &mut Session<S>, block: u16) -> i32
    ensures { ReportsAnswer (Dirties block session.old session.new) result }
{
    let answer = session.dirty(VmHandle(block));
    code_of(answer)
}

/// Hands out how often a block is locked, none where that is refused.
pub(crate) fn locks<S: Store>(session: &mut Session<S>, block: u16, count: &mut u8) -> i32
    ensures { ReportsAnswer (CountsLocks block count.new session.old session.new) result }
{
    match session.locks(VmHandle(block)) {
        Ok(locks) => {
            *count = locks;
            0
        }
        Err(fault) => {
            *count = 0;
            i32::from(fault.number())
        }
    }
}

/// Makes an edit, and hands out what it made, 0 where it makes nothing or is refused.
pub(crate) fn edit<S: Store>(session: &mut Session<S>, edit: &Edit, made: &mut u16) -> i32
    ensures { ReportsAnswer (Makes S.facts edit.now made.new session.old session.new) result }
{
    match session.edit(edit) {
        Ok(done) => {
            *made = number_of(done);
            0
        }
        Err(fault) => {
            *made = 0;
            i32::from(fault.number())
        }
    }
}

fn number_of(done: Done) -> u16
    ensures { result ≡ number_done done }
{
    match done {
        Done::Nothing => 0,
        Done::Block(block) => block.0,
        Done::Chunk(chunk) => chunk.0,
        Done::Token(token) => token.0,
    }
}
