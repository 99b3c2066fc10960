//! Notes in a document, a chunk each, kept by the calls of a session.
#![tactic(auto)]

ghost use Rattle.std.specs.Prelude.{◌≡◌, ◌≢◌, [], Ok, IsTrue, MatchResult};
ghost use Rattle.file_format.specs.File.{stands};

use document_file::Refused;
use geos_model::{
    BlockLookUp, Bytes, ChunkHandle, ChunkLookUp, Done, Edit, Fault, LookUp, Reply, VmHandle,
};
use host_store::machine_files;
use std::alloc::Global;
use std::env;
use std::io::{self, Write};
use std::process::ExitCode;
use undo_log::Session;
use vm_store::{Files, Store};

/// How many blocks may be in memory at a time, 1 to 64.
const FRAMES: usize = 8;

/// The user ID of the heap with the notes.
const NOTES: u16 = 7;

/// Opens the document of a file, or makes one in a file that is empty. What has bytes is never made anew. NotDocument,
/// Damaged; Memory, File.
fn open_or_create<S: Store>(alloc: Global, store: S) -> Result<Session<S>, Refused<S>>
    ensures kept { IsTrue (S.facts store).honest → (S.facts store).content ≢ [] → MatchResult result
        (λ session. stands (S.facts store).content ≡ Ok (session.document, session.disk.saved))
        (λ refused. (S.facts refused.store).content ≡ (S.facts store).content) }
{
    let mut store = store;
    match store.len() {
        Ok(0) => Session::create(alloc, store, FRAMES, false),
        Ok(_) => Session::open(alloc, store, FRAMES, false),
        Err(fault) => Err(Refused {
            fault: fault.into(),
            store,
        }),
    }
}

/// Opens the file of a name, or makes it, and keeps notes in it.
fn edit_file<F: Files>(alloc: Global, files: &mut F, name: &str) -> Result<Vec<u8>, Fault> {
    // Else the file might be taken for a standard stream that is closed.
    files.guard_streams()?;
    let store = files.open(name, true)?;
    match open_or_create(alloc, store) {
        Ok(session) => {
            let mut session = session;
            let told = keep_notes(alloc, &mut session);
            files.close(session.close());
            told
        }
        Err(refused) => {
            files.close(refused.store);
            Err(refused.fault)
        }
    }
}

/// The block that an edit made, 0 where it makes none.
fn block_of(done: Done) -> VmHandle {
    match done {
        Done::Block(block) => block,
        _ => VmHandle(0),
    }
}

/// The chunk that an edit made, 0 where it makes none.
fn chunk_of(done: Done) -> ChunkHandle {
    match done {
        Done::Chunk(chunk) => chunk,
        _ => ChunkHandle(0),
    }
}

/// The heap with the notes, which is the map block: the one that is there, or a new one where there is no map block.
/// WrongKind where it is another one, as in a document of another program.
fn notes_of<S: Store>(session: &mut Session<S>) -> Result<VmHandle, Fault> {
    if session.map_block() == VmHandle(0) {
        let block = block_of(session.edit(&Edit::NewHeap(NOTES))?);
        session.edit(&Edit::SetMap(block))?;
    }
    match session.find(NOTES, VmHandle(0)) {
        Some(notes) if notes == session.map_block() => Ok(notes),
        _ => Err(Fault::WrongKind),
    }
}

/// A new chunk with this text: two edits.
fn write_note<S: Store>(
    alloc: Global,
    session: &mut Session<S>,
    notes: VmHandle,
    text: &str,
) -> Result<(), Fault> {
    let chunk = chunk_of(session.edit(&Edit::Alloc(notes, 0))?);
    let bytes = Bytes::from_vec(text.as_bytes().to_vec(alloc)?);
    session.edit(&Edit::Splice(notes, chunk, 0, 0, bytes))?;
    Ok(())
}

/// The same as one step, which has a name for a menu. Where it is refused nothing of it is left; where it can't even be
/// given up, for want of memory or since the file fails, the group is open still, so that nothing is committed.
fn add_note<S: Store>(
    alloc: Global,
    session: &mut Session<S>,
    notes: VmHandle,
    text: &str,
) -> Result<(), Fault> {
    session.begin()?;
    match write_note(alloc, session, notes, text) {
        Ok(()) => {
            session.end()?;
            // Without memory for its name the step has none.
            let _ = session.name_step(b"Add note");
            Ok(())
        }
        Err(fault) => {
            session.abandon()?;
            Err(fault)
        }
    }
}

/// The handles of the notes, copied, since what is lent ends with the next call.
fn chunks_of<S: Store>(
    alloc: Global,
    session: &mut Session<S>,
    notes: VmHandle,
) -> Result<Vec<ChunkHandle>, Fault> {
    match session.look_up(LookUp::InBlock(notes, BlockLookUp::Chunks))? {
        Reply::Chunks(chunks) => Ok(chunks.to_vec(alloc)?),
        _ => Ok(Vec::new(alloc)),
    }
}

/// The bytes of a note, behind those that are told already. A chunk is answered by bytes.
fn push_note<S: Store>(
    session: &mut Session<S>,
    notes: VmHandle,
    chunk: ChunkHandle,
    told: &mut Vec<u8>,
) -> Result<(), Fault> {
    let asked = BlockLookUp::InChunk(chunk, ChunkLookUp::Read);
    match session.look_up(LookUp::InBlock(notes, asked))? {
        Reply::Bytes(text) => Ok(told.extend_from_slice(text)?),
        _ => unreachable!(),
    }
}

/// A line with what was done, and each note that is there then.
fn tell<S: Store>(
    alloc: Global,
    session: &mut Session<S>,
    notes: VmHandle,
    done: &str,
    told: &mut Vec<u8>,
) -> Result<(), Fault> {
    told.extend_from_slice(done.as_bytes())?;
    for chunk in chunks_of(alloc, session, notes)? {
        told.push(b' ')?;
        push_note(session, notes, chunk, told)?;
    }
    told.push(b'\n')?;
    Ok(())
}

/// Adds two notes, takes the second back, makes it again, and saves.
fn keep_notes<S: Store>(alloc: Global, session: &mut Session<S>) -> Result<Vec<u8>, Fault> {
    let mut told = Vec::new(alloc);
    let notes = notes_of(session)?;
    add_note(alloc, session, notes, "milk")?;
    add_note(alloc, session, notes, "bread")?;
    tell(alloc, session, notes, "added:", &mut told)?;
    session.undo()?;
    tell(alloc, session, notes, "undone:", &mut told)?;
    session.redo()?;
    session.save()?;
    tell(alloc, session, notes, "saved:", &mut told)?;
    Ok(told)
}

/// The one word of the command line; None where there is none, or another one.
fn file_name(rt: &HostRuntime) -> io::Result<Option<String>> {
    let mut words = env::args(rt)?;
    let _ = words.next();
    match (words.next(), words.next()) {
        (name, None) => Ok(name),
        _ => Ok(None),
    }
}

fn main(rt: HostRuntime) -> ExitCode {
    let Ok(Some(name)) = file_name(&rt) else {
        let _ = eprintln!(rt; "usage: session_example FILE");
        return ExitCode::from(2);
    };
    let mut files = machine_files(&rt);
    let told = match edit_file(rt.alloc(), &mut files, name.as_str()) {
        Ok(told) => io::writer(&rt).write_all(told.as_slice()).is_ok(),
        Err(fault) => {
            let _ = eprintln!(rt; "session_example: {} {}", fault.number(), fault.name());
            false
        }
    };
    ExitCode::from(if told { 0 } else { 1 })
}
