//! A restore: a script makes the document of a file that wasn't there.
ghost use Rattle.std.specs.Prelude.{◌≡◌, ◌++◌, ◌^◌, [], true, IfErr, IfOk, IsTrue, None, Ok, OnErr, OnOk};
ghost use Rattle.document_file.specs.Opened.{OnlyReadsStore};
ghost use Rattle.geos_shell.specs.Streams.{StopsReading};
ghost use Rattle.document_tools.specs.Restores.{EndsRun, EndsUncreated, IsUnusable, MakesFile, MakesNone, Restores, RestoresIn, RunsScript, EndsByRefusal, refused_line, refused_start};

use crate::ending::{Ending, refused};
use crate::lines::push_decimal;
use crate::obstacle::{MakeFault, Obstacle};
use arrayvec::ArrayVec;
use geos_model::{Bytes, Fault};
use geos_shell::{RunFault, ScriptOptions, Sink, Source, WriteFault, run_in_manner};
use std::alloc::{AllocError, Global};
use undo_log::Session;
use vm_store::{Files, Store};

/// How many frames the cache has, as of a `geosvm` that isn't told.
const FRAMES: usize = 8;

/// How many reads are made at most, so that each restore ends.
const READS: u32 = 1 << 24;

/// How many bytes of a reply are kept. A refusal has fewer.
const LONGEST_REFUSAL: usize = 64;

const MANNER: ScriptOptions = ScriptOptions {
    bails: true,
    echoes: false,
};

/// Who makes files where none are. What a call does is known by its relation alone, so that where a contract has it,
/// just that call was made.
pub trait MakesNew {
    ghost use Rattle.document_tools.specs.Restores.{MakeCalls};

    ghost makes: { MakeCalls Self };

    /// Makes an empty file of a name, and leaves what is there as it is: it fails where there is anything of that name,
    /// a link too that leads nowhere.
    fn make_new(&mut self, name: &str) -> Result<(), MakeFault>
        ensures { makes self.old name.now result self.new };
}

/// Takes all replies, and keeps the front of the last line alone. A run writes the replies to several lines together,
/// the refused one last.
#[derive(Drop)]
struct LastReply {
    line: ArrayVec<u8, LONGEST_REFUSAL>,
}

impl Sink for LastReply {
    // What it keeps doesn't tell all that was written.
    ghost contents = { λ _. None };

    // No write fails.
    ghost writes = { λ old bytes result new. result ≡ Ok tt };

    fn write_out(&mut self, bytes: &[u8]) -> Result<(), WriteFault> {
        let line = last_line(bytes);
        self.line.clear();
        let _ = self
            .line
            .try_extend_from_slice(&line[..line.len().min(LONGEST_REFUSAL)]);
        Ok(())
    }
}

fn last_line(text: &[u8]) -> &[u8] {
    let lines = text.trim_ascii_end();
    match lines.iter().rposition(|byte| *byte == b'\n') {
        Some(end) => &lines[end + 1..],
        None => lines,
    }
}

// A store that is empty, or the fault of one that isn't, which is closed.
fn empty<F: Files>(files: &mut F, store: F::Opened) -> Result<F::Opened, MakeFault>
    ensures ok { IfOk result (λ left. (files.new ≡ files.old)
        × OnlyReadsStore (F.Opened.facts store) (F.Opened.facts left)
        × (IsTrue (F.Opened.facts store).honest → (F.Opened.facts store).content ≡ [])) }
    ensures err { OnErr result ((left : F.Opened) × OnlyReadsStore (F.Opened.facts store) (F.Opened.facts left)
        × F.calls.closes files.old left files.new) }
{
    let mut store = store;
    let fault = match store.len() {
        Ok(0) => return Ok(store),
        Ok(_) => MakeFault::Present,
        Err(_) => MakeFault::Failed,
    };
    files.close(store);
    Err(fault)
}

// Opens a file that was made. Until it is locked others may write to it, and put another file into its place.
fn open_made<F: Files>(files: &mut F, name: &str) -> Result<F::Opened, MakeFault>
    ensures ok { IfOk result (λ store. (first : F.Opened) × F.calls.opens files.old name.now true (Ok first) files.new
        × OnlyReadsStore (F.Opened.facts first) (F.Opened.facts store)
        × (IsTrue (F.Opened.facts first).honest → (F.Opened.facts first).content ≡ [])) }
    ensures err { OnErr result (IsUnusable F.calls F.Opened.facts name.now files.old files.new) }
{
    match files.open(name, true) {
        Ok(store) => empty(files, store),
        Err(_) => Err(MakeFault::Failed),
    }
}

// Makes a file where none is, and opens it, which nobody else can do then.
fn make<F: Files, M: MakesNew>(
    files: &mut F,
    maker: &mut M,
    name: &str,
) -> Result<F::Opened, MakeFault>
    ensures ok { IfOk result (λ store. MakesFile F.calls F.Opened.facts M.makes name.now files.old maker.old store
        files.new maker.new) }
    ensures err { IfErr result (λ fault. MakesNone F.calls F.Opened.facts M.makes name.now files.old maker.old files.new
        maker.new fault) }
{
    match files.guard_streams() {
        Ok(()) => {
            maker.make_new(name)?;
            open_made(files, name)
        }
        Err(_) => Err(MakeFault::Failed),
    }
}

fn push_refused_start(out: &mut Vec<u8>, file: &str, number: u64) -> Result<(), AllocError>
    ensures { OnOk result (out.new.items ≡ out.old.items ++ refused_start file.now number) }
{
    out.extend_from_slice(b"geosdoc: ")?;
    out.extend_from_slice(file.as_bytes())?;
    out.extend_from_slice(b": line ")?;
    push_decimal(out, number)?;
    Ok(out.extend_from_slice(b" of the script is refused: ")?)
}

fn push_refused_line(
    out: &mut Vec<u8>,
    file: &str,
    number: u64,
    reply: &[u8],
) -> Result<(), AllocError>
    ensures { OnOk result (out.new.items ≡ out.old.items ++ refused_line file.now number reply.now) }
{
    push_refused_start(out, file, number)?;
    out.extend_from_slice(reply)?;
    Ok(out.push(b'\n')?)
}

fn refused_by(alloc: Global, file: &str, number: u64, reply: &[u8]) -> Ending
    ensures { EndsByRefusal file.now number result }
{
    let mut line = Vec::new(alloc);
    match push_refused_line(&mut line, file, number, reply) {
        Ok(()) => Ending::Refused(Bytes::from_vec(line)),
        Err(_) => Ending::Memory,
    }
}

// How a restore ends, by what its script came to. All replies are taken, so that no run ends for a write's sake.
fn end_of_run(alloc: Global, file: &str, ended: Result<(), RunFault>, reply: &[u8]) -> Ending
    ensures { EndsRun file.now ended result }
{
    match ended {
        Ok(()) => Ending::Done,
        Err(RunFault::Read) => Ending::ReadFault,
        Err(RunFault::Write) => Ending::WriteFault,
        Err(RunFault::Memory) => Ending::Memory,
        Err(RunFault::Refused(number)) => refused_by(alloc, file, number, reply),
    }
}

fn run_script<F: Files, R: Source>(
    alloc: Global,
    files: &mut F,
    file: &str,
    session: Session<F::Opened>,
    reader: &mut R,
) -> Ending
    ensures { RunsScript F.calls F.Opened.facts file.now session files.old (R.remaining reader.old)
        (R.remaining reader.new) (StopsReading R.reads (2 ^ 24) reader.old reader.new) result files.new }
{
    let mut session = session;
    let mut replies = LastReply {
        line: ArrayVec::new(),
    };
    let ended = run_in_manner(
        alloc,
        MANNER,
        &mut session,
        &mut None,
        &mut None,
        reader,
        &mut replies,
        READS,
    );
    files.close(session.close());
    end_of_run(alloc, file, ended, &replies.line)
}

// What comes of a document that can't be made.
fn uncreated(alloc: Global, file: &str, fault: Fault) -> Ending
    ensures { EndsUncreated file.now fault result }
{
    match fault {
        Fault::Memory => Ending::Memory,
        _ => refused(alloc, file, Obstacle::Unmade(MakeFault::Failed)),
    }
}

fn restore_in<F: Files, R: Source>(
    alloc: Global,
    files: &mut F,
    file: &str,
    checksums: bool,
    store: F::Opened,
    reader: &mut R,
) -> Ending
    ensures { RestoresIn F.calls F.Opened.facts file.now checksums store files.old (R.remaining reader.old)
        (R.remaining reader.new) (StopsReading R.reads (2 ^ 24) reader.old reader.new) result files.new }
{
    match Session::create(alloc, store, FRAMES, checksums) {
        Ok(session) => run_script(alloc, files, file, session, reader),
        Err(refused) => {
            files.close(refused.store);
            uncreated(alloc, file, refused.fault)
        }
    }
}

/// Makes a file of a name where none is, with checksums or without, and in it the document that a script makes. A line
/// that is refused ends it; the file is left then as the commits before it made it.
pub fn restore<F: Files, M: MakesNew, R: Source>(
    alloc: Global,
    files: &mut F,
    maker: &mut M,
    file: &str,
    checksums: bool,
    reader: &mut R,
) -> Ending
    ensures { Restores F.calls F.Opened.facts M.makes file.now checksums files.old maker.old files.new maker.new
        (R.remaining reader.old) (R.remaining reader.new) (StopsReading R.reads (2 ^ 24) reader.old reader.new) result }
{
    match make(files, maker, file) {
        Ok(store) => restore_in(alloc, files, file, checksums, store, reader),
        Err(fault) => refused(alloc, file, Obstacle::Unmade(fault)),
    }
}
