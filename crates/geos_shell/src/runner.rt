//! A run over a script: pieces are read, their lines answered, and the replies written.
ghost use Rattle.std.specs.Prelude.{◌≡◌, ◌+◌, ◌<◌, ◌≤◌, ◌^◌, [], length, IfErr, OnOk, Ok, None};
ghost use Rattle.std.specs.Io.KnownBytes.{Appends};
ghost use Rattle.undo_log.specs.Sessions.{IsExact};
ghost use Rattle.geos_replies.specs.Holdings.{AreExact, holding};
ghost use Rattle.geos_shell.specs.Manners.{plain};
ghost use Rattle.geos_shell.specs.Progress.{AnswersPiece, AnswersRest, PieceFails, RestFails, moment};
ghost use Rattle.geos_shell.specs.RunFaults.{HasCause};
ghost use Rattle.geos_shell.specs.Runs.{RunsTo};
ghost use Rattle.geos_shell.specs.Streams.{StopsReading, StopsWriting};

use crate::answering::Answering;
use crate::streams::{ReadFault, Sink, Source};
use geos_script::Spare;
use std::alloc::{AllocError, Global};
use std::fmt;
use undo_log::Session;
use vm_store::Store;

/// How many bytes a read may give.
const PIECE: usize = 16_384;

/// How many reads a run makes at most, so that it ends with any reader.
pub(crate) const READS: u32 = 1 << 24;

/// How a script is run. A plain run goes to its script's end, and writes nothing but replies.
#[derive(Clone, Copy, Debug, Default, PartialEq, Eq)]
pub struct ScriptOptions {
    /// The run ends behind the first refusal.
    pub bails: bool,
    /// Each line is written before its reply.
    pub echoes: bool,
}

/// Why a run ended before its script did.
#[derive(Clone, Copy, Debug, PartialEq, Eq)]
pub enum RunFault {
    /// The reader failed, or hadn't ended after as many reads as the run may make.
    Read,
    /// The writer failed. How much of the replies went out is not known.
    Write,
    /// A line, the bytes of its command or the text of a reply found no memory.
    Memory,
    /// The command in the line of this number was refused, in a run that bails. All lines of the script are counted,
    /// from 1 on.
    Refused(u64),
}

impl fmt::Display for RunFault {
    ghost use Rattle.std.specs.Prelude.{Some};
    ghost use Rattle.geos_shell.specs.RunFaults.{run_fault_text};

    ghost output = { λ fault. Some (run_fault_text fault) };

    fn fmt<W: fmt::Write>(&self, f: &mut fmt::Formatter<W>) -> fmt::Result {
        match self {
            RunFault::Read => f.write_str("read fault"),
            RunFault::Write => f.write_str("write fault"),
            RunFault::Memory => f.write_str("memory"),
            RunFault::Refused(line) => write!(f, "line {line} is refused"),
        }
    }
}

impl From<AllocError> for RunFault {
    ghost use Rattle.std.specs.Prelude.{◌≡◌};
    ghost use Rattle.geos_shell.specs.declared.runner.RunFault.TheVariants.{Memory};

    ghost from_gives = { λ _ fault. fault ≡ Memory };

    fn from(_: AllocError) -> RunFault {
        RunFault::Memory
    }
}

/// What a run leaves, and how it ended.
#[derive(Drop)]
pub struct Ended<S: Store> {
    /// The session, as the answered lines left it.
    pub session: Session<S>,
    /// The target of a save-as, while none was accepted.
    pub target: Option<S>,
    /// The store that an accepted save-as went away from.
    pub former: Option<S>,
    /// Why the run ended before its script did, if it did so.
    pub result: Result<(), RunFault>,
}

/// Answers a script line by line, from the session's state on. It reads pieces of at most 16,384 bytes, and writes the
/// replies to the lines of a piece together, or in parts, each as soon as it is more than 65,536 bytes. A read that was
/// interrupted is tried again. It makes 16,777,216 reads at most.
///
/// The target is where the script's first save-as goes that goes well: its store is the session's from then on, and the
/// store before is put aside. A later save-as has no target, as the first one has none where there is none to begin
/// with.
///
/// Over any store each line is answered as by `answer_line`: a refusal leaves what there was, and a file fault is
/// answered only where a store failed in just that call.
///
/// Where what is held is exact, over an honest store and target, the session is what the answers lead to, and is exact,
/// and each answer is the machine's but for such a fault or lack of memory. A crash now leaves the documents
/// acknowledged last or those of a commit that failed since, as a session's `reveal_invariant` says; where no call of a
/// store failed in this run, those of none that failed in it.
pub fn run<S: Store, R: Source, W: Sink>(
    alloc: Global,
    session: Session<S>,
    target: Option<S>,
    reader: &mut R,
    writer: &mut W,
) -> Ended<S>
    ensures runs { RunsTo result.result S.facts plain (holding session target None) (R.remaining reader.old)
        (R.remaining reader.new) (W.contents writer.old) (W.contents writer.new)
        (holding result.session result.target result.former) }
    ensures exact { result.result ≡ Ok tt → AreExact S.facts (holding session target None)
        → IsExact S.facts result.session }
    ensures cause { IfErr result.result (λ fault. HasCause fault (StopsReading R.reads (2 ^ 24) reader.old reader.new)
        (StopsWriting W.writes writer.new)) }
{
    let mut session = session;
    let mut target = target;
    let mut former = None;
    let result = run_in(
        alloc,
        &mut session,
        &mut target,
        &mut former,
        reader,
        writer,
    );
    Ended {
        session,
        target,
        former,
        result,
    }
}

/// Answers a script as `run` does, in places that its caller lends, and so keeps however it ends. An accepted save-as
/// puts the old store into `former`, whose store before is dropped.
///
/// Over any store the session is at each end what the answered lines lead to, as `answer_line` says of each of them.
/// Where memory ran out, the next line may be carried out too, without its reply. Where the writer failed, some of the
/// replies may not have gone out.
pub fn run_in<S: Store, R: Source, W: Sink>(
    alloc: Global,
    session: &mut Session<S>,
    target: &mut Option<S>,
    former: &mut Option<S>,
    reader: &mut R,
    writer: &mut W,
) -> Result<(), RunFault>
    ensures runs { RunsTo result S.facts plain (holding session.old target.old former.old) (R.remaining reader.old)
        (R.remaining reader.new) (W.contents writer.old) (W.contents writer.new)
        (holding session.new target.new former.new) }
    ensures cause { IfErr result (λ fault. HasCause fault (StopsReading R.reads (2 ^ 24) reader.old reader.new)
        (StopsWriting W.writes writer.new)) }
{
    let plain = ScriptOptions::default();
    run_in_manner(alloc, plain, session, target, former, reader, writer, READS)
}

/// Answers a script as `run_in` does, in a manner of the caller's, and in so many reads at most: a reader that hasn't
/// ended after them has failed. Where lines are echoed, the line and a line feed go before its reply; of a line of more
/// than 140,001 bytes, which is no command, so many. A run that bails ends by `Refused` behind the first reply that is
/// a refusal, and carries out nothing further, whatever else was read. Each read is told whether there are edits then
/// that the file wouldn't have.
pub fn run_in_manner<S: Store, R: Source, W: Sink>(
    alloc: Global,
    manner: ScriptOptions,
    session: &mut Session<S>,
    target: &mut Option<S>,
    former: &mut Option<S>,
    reader: &mut R,
    writer: &mut W,
    reads: u32,
) -> Result<(), RunFault>
    ensures runs { RunsTo result S.facts manner (holding session.old target.old former.old) (R.remaining reader.old)
        (R.remaining reader.new) (W.contents writer.old) (W.contents writer.new)
        (holding session.new target.new former.new) }
    ensures cause { IfErr result (λ fault. HasCause fault (StopsReading R.reads reads reader.old reader.new)
        (StopsWriting W.writes writer.new)) }
{
    let mut spare = Spare::new(alloc);
    let mut answering = Answering {
        begun: Vec::new(alloc),
        replies: Vec::new(alloc),
        ended: 0,
    };
    let mut piece = [0u8; PIECE];
    for _ in 0..reads {
        let has_unsaved = !session.is_updated();
        match reader.read_piece(has_unsaved, &mut piece) {
            Ok(0) => {
                return answer_rest(
                    &mut spare,
                    manner,
                    &mut answering,
                    session,
                    target,
                    former,
                    writer,
                );
            }
            Ok(count) => {
                let bytes = &piece[..count];
                answer_piece(
                    &mut spare,
                    manner,
                    &mut answering,
                    session,
                    target,
                    former,
                    bytes,
                    writer,
                )?;
            }
            Err(ReadFault::Interrupted) => {}
            Err(ReadFault::Failed) => return Err(RunFault::Read),
        }
    }
    Err(RunFault::Read)
}

/// Answers the lines that end in a piece, and writes their replies, so that they are seen before the next read.
fn answer_piece<S: Store, W: Sink>(
    spare: &mut Spare,
    manner: ScriptOptions,
    answering: &mut Answering,
    session: &mut Session<S>,
    target: &mut Option<S>,
    former: &mut Option<S>,
    piece: &[u8],
    writer: &mut W,
) -> Result<(), RunFault>
    requires { answering.old.ended + length piece.now < 2 ^ 64 }
    ensures counted { OnOk result (answering.new.ended ≤ answering.old.ended + length piece.now) }
    ensures ok { OnOk result (AnswersPiece S.facts manner
        (moment (holding session.old target.old former.old) answering.old) piece.now
        (moment (holding session.new target.new former.new) answering.new)
        (W.contents writer.old) (W.contents writer.new)) }
    ensures sent { OnOk result (answering.old.replies.items ≡ [] → answering.new.replies.items ≡ []) }
    ensures err { IfErr result (λ fault. PieceFails fault S.facts manner
        (moment (holding session.old target.old former.old) answering.old) piece.now
        (holding session.new target.new former.new) (W.contents writer.old) (W.contents writer.new)) }
    ensures cause { IfErr result (λ fault. HasCause fault ⊥ (StopsWriting W.writes writer.new)) }
{
    let mut rest = piece;
    while !rest.is_empty() {
        let fed = answering.feed(spare, manner, session, target, former, rest);
        send(&mut answering.replies, writer)?;
        rest = &rest[fed?..];
    }
    Ok(())
}

/// Answers the last line, which no line feed ends, if there is one, and writes its reply.
fn answer_rest<S: Store, W: Sink>(
    spare: &mut Spare,
    manner: ScriptOptions,
    answering: &mut Answering,
    session: &mut Session<S>,
    target: &mut Option<S>,
    former: &mut Option<S>,
    writer: &mut W,
) -> Result<(), RunFault>
    requires { answering.old.ended + 1 < 2 ^ 64 }
    ensures ok { OnOk result (AnswersRest S.facts manner
        (moment (holding session.old target.old former.old) answering.old)
        (holding session.new target.new former.new) (W.contents writer.old) (W.contents writer.new)) }
    ensures err { IfErr result (λ fault. RestFails fault S.facts manner
        (moment (holding session.old target.old former.old) answering.old)
        (holding session.new target.new former.new) (W.contents writer.old) (W.contents writer.new)) }
    ensures cause { IfErr result (λ fault. HasCause fault ⊥ (StopsWriting W.writes writer.new)) }
{
    let ended = answering.end(spare, manner, session, target, former);
    send(&mut answering.replies, writer)?;
    ended
}

/// Writes the replies so far, also where the run stopped in a line.
fn send<W: Sink>(replies: &mut Vec<u8>, writer: &mut W) -> Result<(), RunFault>
    ensures ok { OnOk result ((replies.new.items ≡ [])
        × Appends (W.contents writer.old) (W.contents writer.new) replies.old.items) }
    ensures err { IfErr result (λ fault. (fault ≡ RunFault.Write) × StopsWriting W.writes writer.new) }
{
    if writer.write_out(replies).is_err() {
        return Err(RunFault::Write);
    }
    replies.clear();
    Ok(())
}
