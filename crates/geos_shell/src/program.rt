//! The program: a document file, a script and its replies.
ghost use Rattle.std.specs.Prelude.{◌≡◌, ◌≤◌, ◌^◌, true, false, None, OnErr, IfOk, IfErr, MatchResult, map};
ghost use Rattle.command_lines.specs.Options.{line_of_options};
ghost use Rattle.geos_shell.specs.Files.{OpensFile, FileFails, OpensTarget, TargetFails, ClosesAny};
ghost use Rattle.geos_shell.specs.Outcome.{HasRunCause, PrintsOutcome, IsUnread};
ghost use Rattle.geos_shell.specs.Program.{FromFile, BeginsSession, ComesTo, IsScriptAnswered, IsGivenUp, IsScriptNotAnswered};
ghost use Rattle.geos_shell.specs.Streams.{StopsReading, StopsWriting};
ghost use Rattle.geos_replies.specs.Holdings.{holding};

use crate::outcome::Outcome;
use crate::runner::{READS, RunFault, ScriptOptions, run_in_manner};
use crate::streams::{Sink, Source};
use command_lines::{Options, options};
use geos_model::{Bytes, Fault};
use std::alloc::Global;
use std::convert::AsStr;
use std::io::{self, ErrorKind};
use undo_log::Session;
use vm_store::{Files, StoreFault};

/// Runs the program on the words of a command line, of which the first is its name: it opens the files that they name,
/// answers the script that the reader gives, closes the files, and tells what that came to.
///
/// What is wrong is found in this order: the command line, two names that are the same, FILE, the target, the run. A
/// new document is made only after the target was opened, so that where the target is FILE by another name nothing is
/// written.
#[tactic(auto, using(crate::proofs::Causes::refused_cause, crate::proofs::Causes::not_begun_cause))]
pub fn serve<'a, F: Files, T: AsStr, R: Source, W: Sink>(
    alloc: Global,
    files: &mut F,
    words: &'a [T],
    reader: &mut R,
    writer: &mut W,
) -> Outcome
    ensures comes_to { ComesTo F.calls F.Opened.facts (map T.text words.entry.now) files.old files.new (R.remaining reader.old)
        (R.remaining reader.new) (W.contents writer.old) (W.contents writer.new) result }
    ensures cause { HasRunCause result (StopsReading R.reads (2 ^ 24) reader.old reader.new)
        (StopsWriting W.writes writer.new) }
{
    match options(alloc, words) {
        Ok(options) => match begin(alloc, files, options) {
            Ok(begun) => {
                let manner = ScriptOptions {
                    bails: options.bail,
                    echoes: options.echo,
                };
                answer(alloc, manner, files, begun, reader, writer)
            }
            Err(outcome) => outcome,
        },
        Err(none) => Outcome::from(none),
    }
}

/// The whole program: serves the words of a command line, where these could be read, and tells what that came to, help
/// and the version on the writer that the replies go to, and all else on `errors`. Gives the exit status.
pub fn run_program<F: Files, T: AsStr + Drop, R: Source, W: Sink, E: Sink>(
    alloc: Global,
    files: &mut F,
    words: io::Result<Vec<T>>,
    reader: &mut R,
    writer: &mut W,
    errors: &mut E,
) -> u8
    ensures { (outcome : Outcome) × (served : W)
        × MatchResult words (λ words. ComesTo F.calls F.Opened.facts (map T.text words.items) files.old files.new
        (R.remaining reader.old) (R.remaining reader.new) (W.contents writer.old) (W.contents served) outcome)
        (λ _. IsUnread outcome × (files.new ≡ files.old) × (reader.new ≡ reader.old) × (served ≡ writer.old))
        × HasRunCause outcome (StopsReading R.reads (2 ^ 24) reader.old reader.new) (StopsWriting W.writes served)
        × PrintsOutcome W.writes E.writes outcome served writer.new errors.old errors.new result }
{
    match words {
        Ok(words) => {
            let outcome = serve(alloc, files, words.as_slice(), reader, writer);
            outcome.tell(writer, errors)
        }
        Err(error) => {
            let outcome = unread(alloc, error.kind());
            outcome.tell(writer, errors)
        }
    }
}

/// What `clap` writes of a word that isn't text.
const NOT_TEXT: &[u8] = b"error: invalid UTF-8 was detected in one or more arguments\n";

/// What the words come to that couldn't be read.
fn unread(alloc: Global, kind: ErrorKind) -> Outcome
    ensures { IsUnread result }
{
    if kind == ErrorKind::OutOfMemory {
        return Outcome::Run(RunFault::Memory);
    }
    match NOT_TEXT.to_vec(alloc) {
        Ok(text) => Outcome::Usage(Bytes::from_vec(text)),
        Err(_) => Outcome::Run(RunFault::Memory),
    }
}

/// A session, and a target if there is one.
type Begun<F> = (Session<<F as Files>::Opened>, Option<<F as Files>::Opened>);

/// Opens what a command line names, and begins a session on FILE.
fn begin<F: Files>(alloc: Global, files: &mut F, options: Options) -> Result<Begun<F>, Outcome>
    requires { (1 ≤ options.cache) × (options.cache ≤ 64) }
    ensures ok { IfOk result
        (λ begun. FromFile F.calls (line_of_options options.entry) files.old
        (λ store opened. BeginsSession F.calls F.Opened.facts
        (line_of_options options.entry) store opened begun.0 begun.1 files.new)) }
    ensures err { IfErr result (IsScriptNotAnswered F.calls F.Opened.facts
        (line_of_options options.entry) files.old files.new) }
{
    match open_file(files, options) {
        Ok(store) if options.new => create(alloc, files, options, store),
        Ok(store) => open(alloc, files, options, store),
        Err(_) if options.new => Err(Outcome::Create(Fault::File)),
        Err(_) => Err(Outcome::Open(Fault::File)),
    }
}

/// Opens FILE, once the standard streams are guarded.
fn open_file<F: Files>(files: &mut F, options: Options) -> Result<F::Opened, StoreFault>
    ensures ok { IfOk result (λ store. OpensFile F.calls (line_of_options options.entry) files.old store files.new) }
    ensures err { OnErr result (FileFails F.calls (line_of_options options.entry) files.old files.new) }
{
    files.guard_streams()?;
    files.open(options.file, options.new)
}

/// Opens the target of a save-as, if one is named. A missing file is made; nothing is written to it before a save-as.
fn open_target<F: Files>(files: &mut F, options: Options) -> Result<Option<F::Opened>, StoreFault>
    ensures ok { IfOk result (λ target. OpensTarget F.calls
        (line_of_options options.entry).target files.old target files.new) }
    ensures err { OnErr result (TargetFails F.calls (line_of_options options.entry).target files.old files.new) }
{
    match options.target {
        Some(name) => Ok(Some(files.open(name, true)?)),
        None => Ok(None),
    }
}

/// Makes a new document in FILE's store, after the target is opened.
fn create<F: Files>(
    alloc: Global,
    files: &mut F,
    options: Options,
    store: F::Opened,
) -> Result<Begun<F>, Outcome>
    requires frames { (1 ≤ options.cache) × (options.cache ≤ 64) }
    requires new { options.new ≡ true }
    ensures ok { IfOk result
        (λ begun. BeginsSession F.calls F.Opened.facts
        (line_of_options options.entry) store files.old begun.0 begun.1 files.new) }
    ensures err { IfErr result (IsGivenUp F.calls F.Opened.facts
        (line_of_options options.entry) store files.old files.new) }
{
    let Ok(target) = open_target(files, options) else {
        files.close(store);
        return Err(Outcome::Target);
    };
    match Session::create(alloc, store, usize::from(options.cache), options.checksums) {
        Ok(mut session) => {
            session.limit_undo(options.undo_limit);
            Ok((session, target))
        }
        Err(refused) => {
            files.close(refused.store);
            close_any(files, target);
            Err(Outcome::Create(refused.fault))
        }
    }
}

/// Opens the document that FILE's store has, and then the target.
fn open<F: Files>(
    alloc: Global,
    files: &mut F,
    options: Options,
    store: F::Opened,
) -> Result<Begun<F>, Outcome>
    requires frames { (1 ≤ options.cache) × (options.cache ≤ 64) }
    requires old { options.new ≡ false }
    ensures ok { IfOk result
        (λ begun. BeginsSession F.calls F.Opened.facts
        (line_of_options options.entry) store files.old begun.0 begun.1 files.new) }
    ensures err { IfErr result (IsGivenUp F.calls F.Opened.facts
        (line_of_options options.entry) store files.old files.new) }
{
    let frames = usize::from(options.cache);
    let mut session = match Session::open(alloc, store, frames, options.checksums) {
        Ok(session) => session,
        Err(refused) => {
            files.close(refused.store);
            return Err(Outcome::Open(refused.fault));
        }
    };
    session.limit_undo(options.undo_limit);
    let Ok(target) = open_target(files, options) else {
        files.close(session.close());
        return Err(Outcome::Target);
    };
    Ok((session, target))
}

/// Answers the script, and closes all files.
fn answer<F: Files, R: Source, W: Sink>(
    alloc: Global,
    manner: ScriptOptions,
    files: &mut F,
    begun: Begun<F>,
    reader: &mut R,
    writer: &mut W,
) -> Outcome
    ensures answered { IsScriptAnswered F.calls F.Opened.facts manner (holding begun.0 begun.1 None) files.old files.new
        (R.remaining reader.old) (R.remaining reader.new) (W.contents writer.old) (W.contents writer.new) result }
    ensures cause { HasRunCause result (StopsReading R.reads (2 ^ 24) reader.old reader.new)
        (StopsWriting W.writes writer.new) }
{
    let (mut session, mut target) = begun;
    let mut old = None;
    let ended = run_in_manner(
        alloc,
        manner,
        &mut session,
        &mut target,
        &mut old,
        reader,
        writer,
        READS,
    );
    files.close(session.close());
    close_any(files, target);
    close_any(files, old);
    match ended {
        Ok(()) => Outcome::Done,
        Err(fault) => Outcome::Run(fault),
    }
}

/// Closes a store, if there is one.
fn close_any<F: Files>(files: &mut F, store: Option<F::Opened>)
    ensures { ClosesAny F.calls files.old store files.new }
{
    if let Some(store) = store {
        files.close(store);
    }
}
