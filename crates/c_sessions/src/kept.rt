//! What is kept behind a handle: a session, which no call takes its store from but those below, that close it.
ghost use Rattle.std.specs.Prelude.{◌≡◌, ◌≤◌, Ok, MatchResult};
ghost use Rattle.c_sessions.specs.Files.{BeginsOn, IsNotBegun, fault_of, left_by};
ghost use Rattle.c_sessions.specs.Keeping.{IsCreation, IsMoved, IsNotMoved, IsOpening, SavesInto};

use crate::codes::{BAD_ARGUMENT, code_of};
use crate::files::{FileNumber, ProgramFiles};
use document_file::Refused;
use geos_model::Fault;
use std::alloc::Global;
use undo_log::Session;
use vm_store::Store;

/// A session, and the number of the file that it is in.
#[derive(Drop)]
pub struct Kept<S: Store> {
    pub number: FileNumber,
    pub session: Session<S>,
}

/// A session that is kept, or why there is none.
type Keeping<F> = Result<Box<Kept<<F as ProgramFiles>::Opened>>, Fault>;

/// Opens the document of the file that has a number. File also where the file can't be opened, in which case nothing is
/// done to it; where no session is begun its store is closed as it was left. With checksums the next commit gives the
/// file those, if it has none.
pub fn open<F: ProgramFiles>(
    alloc: Global,
    files: &mut F,
    number: FileNumber,
    frames: usize,
    checksums: bool,
) -> Keeping<F>
    requires { (1 ≤ frames) × (frames ≤ 64) }
    ensures { MatchResult result
        (λ kept. (kept.value.number ≡ number)
        × BeginsOn F.calls (IsOpening F.Opened.facts frames checksums) number files.old kept.value.session files.new)
        (λ fault. IsNotBegun F.calls (IsOpening F.Opened.facts frames checksums) number files.old fault files.new) }
{
    let store = files.open(number, None)?;
    keep(
        alloc,
        files,
        number,
        opened(alloc, store, frames, checksums),
    )
}

/// Makes the file that has a number an empty document, likewise; with checksums, where they are asked for.
pub fn create<F: ProgramFiles>(
    alloc: Global,
    files: &mut F,
    number: FileNumber,
    frames: usize,
    checksums: bool,
) -> Keeping<F>
    requires { (1 ≤ frames) × (frames ≤ 64) }
    ensures { MatchResult result
        (λ kept. (kept.value.number ≡ number)
        × BeginsOn F.calls (IsCreation F.Opened.facts frames checksums) number files.old kept.value.session files.new)
        (λ fault. IsNotBegun F.calls (IsCreation F.Opened.facts frames checksums) number files.old fault files.new) }
{
    let store = files.open(number, None)?;
    keep(
        alloc,
        files,
        number,
        created(alloc, store, frames, checksums),
    )
}

// A session on the document that a store has.
fn opened<S: Store>(
    alloc: Global,
    store: S,
    frames: usize,
    checksums: bool,
) -> Result<Session<S>, Refused<S>>
    requires { (1 ≤ frames) × (frames ≤ 64) }
    ensures { IsOpening S.facts frames checksums store result }
{
    Session::open(alloc, store, frames, checksums)
}

// A session on an empty document that a store is made.
fn created<S: Store>(
    alloc: Global,
    store: S,
    frames: usize,
    checksums: bool,
) -> Result<Session<S>, Refused<S>>
    requires { (1 ≤ frames) × (frames ≤ 64) }
    ensures { IsCreation S.facts frames checksums store result }
{
    Session::create(alloc, store, frames, checksums)
}

// Keeps a session that was begun, or closes the store on which none was, or is kept.
fn keep<F: ProgramFiles>(
    alloc: Global,
    files: &mut F,
    number: FileNumber,
    begun: Result<Session<F::Opened>, Refused<F::Opened>>,
) -> Keeping<F>
    ensures { MatchResult result
        (λ kept. (kept.value.number ≡ number) × (begun ≡ Ok kept.value.session) × (files.new ≡ files.old))
        (λ fault. (fault ≡ fault_of begun) × F.calls.closes files.old (left_by begun) files.new) }
{
    let session = match begun {
        Ok(session) => session,
        Err(refused) => {
            files.close(refused.store);
            return Err(refused.fault);
        }
    };
    match Box::new(alloc, Kept { number, session }) {
        Ok(kept) => Ok(kept),
        Err(failed) => {
            close(files, failed.value);
            Err(Fault::Memory)
        }
    }
}

/// Gives a session up. Its store is closed as it is, and nothing is written.
pub fn close<F: ProgramFiles>(files: &mut F, kept: Kept<F::Opened>)
    ensures { F.calls.closes files.old kept.session.disk.store files.new }
{
    files.close(kept.session.close());
}

// Saves into the file that has a number, goes on in it and closes the store of the old file; or closes that of the file
// that it couldn't be saved into.
fn move_to<F: ProgramFiles>(
    files: &mut F,
    kept: &mut Kept<F::Opened>,
    number: FileNumber,
) -> Result<(), Fault>
    ensures { MatchResult result
        (λ _. IsMoved F.calls F.Opened.facts number kept.old kept.new files.old files.new)
        (λ fault. IsNotMoved F.calls F.Opened.facts number kept.old kept.new files.old fault files.new) }
{
    let target = files.open(number, Some(kept.number))?;
    match kept.session.save_as(target) {
        Ok(former) => {
            files.close(former);
            kept.number = number;
            Ok(())
        }
        Err(unsaved) => {
            files.close(unsaved.store);
            Err(unsaved.fault)
        }
    }
}

/// Saves into another file of the program's, and goes on in that. The number that the session has itself is refused
/// before anything is called.
pub fn save_as<F: ProgramFiles>(
    files: &mut F,
    kept: &mut Kept<F::Opened>,
    number: FileNumber,
) -> i32
    ensures { SavesInto F.calls F.Opened.facts number kept.old kept.new files.old files.new result }
{
    if number == kept.number {
        return BAD_ARGUMENT;
    }
    code_of(move_to(files, kept, number))
}
