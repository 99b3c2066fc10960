//! The lines of a script and their replies, as the script comes piece by piece.
ghost use Rattle.std.specs.Prelude.{◌≡◌, ◌++◌, ◌∷◌, [], ◌≤◌, ◌<◌, ◌+◌, ◌^◌, ◌&&◌, ℕ, List, drop, take, length, IfOk, IfErr, OnOk, OnErr};
ghost use Rattle.geos_model.specs.Script.{command, line_feed};
ghost use Rattle.geos_replies.specs.Holdings.{MayServe, holding};
ghost use Rattle.geos_shell.specs.Manners.{begins_with_no, lead};
ghost use Rattle.geos_shell.specs.Progress.{Ends, HasNoFeed, IsAnsweredInRun, IsStopped, MovesTo, StandsFor, StopsAtEnd, StopsIn, moment};
ghost use Rattle.geos_replies.specs.Replies.{Extends, Responds};
ghost use Rattle.geos_shell.specs.RunFaults.{HasCause};

use crate::runner::{RunFault, ScriptOptions};
use bstr::ByteSlice;
use geos_replies::answer_line;
use geos_script::Spare;
use std::alloc::AllocError;
use undo_log::Session;
use vm_store::Store;

/// How many bytes of a line are kept, and echoed. One that is longer than the longest command is a bad one whatever it
/// holds.
const LONGEST_KEPT: usize = 140_001;

/// How many bytes of replies wait at most, besides the last reply: they are written once they are more, or the piece of
/// the script is answered.
const HELD: usize = 65_536;

/// What is kept of a script that is being answered, between two pieces of it.
#[derive(Drop)]
pub(crate) struct Answering {
    /// The front of the line that has begun and has not ended.
    pub(crate) begun: Vec<u8>,
    /// The replies that are not written yet, each behind its line where lines are echoed.
    pub(crate) replies: Vec<u8>,
    /// How many lines have ended.
    pub(crate) ended: u64,
}

impl Answering {
    /// Answers the lines that end in this piece, until their replies pass `HELD` bytes, and tells how much of the piece
    /// that was. Behind its last line feed it keeps the rest of the piece, so that this was all of it.
    pub(crate) fn feed<S: Store>(
        &mut self,
        spare: &mut Spare,
        manner: ScriptOptions,
        session: &mut Session<S>,
        target: &mut Option<S>,
        former: &mut Option<S>,
        piece: &[u8],
    ) -> Result<usize, RunFault>
        requires { self.old.ended + length piece.now < 2 ^ 64 }
        ensures ok { IfOk result (λ used.
            MovesTo S.facts manner (moment (holding session.old target.old former.old) self.old) (take used piece.now)
            (moment (holding session.new target.new former.new) self.new)) }
        ensures used { IfOk result (λ used. (used ≤ length piece.now) × (0 < length piece.now → 0 < used)) }
        ensures counted { IfOk result (λ used. self.new.ended ≤ self.old.ended + used) }
        ensures err { IfErr result
            (λ fault. StopsIn fault S.facts manner (moment (holding session.old target.old former.old) self.old)
            piece.now (moment (holding session.new target.new former.new) self.new)) }
        ensures cause { IfErr result (λ fault. HasCause fault ⊥ ⊥) }
    {
        let mut rest = piece;
        while let Some(end) = rest.find_byte(b'\n') {
            self.end_line(spare, manner, session, target, former, &rest[..end])?;
            rest = &rest[end + 1..];
            if self.replies.len() > HELD {
                return Ok(piece.len() - rest.len());
            }
        }
        keep(&mut self.begun, rest)?;
        Ok(piece.len())
    }

    /// Answers the line that has begun and ends with `tail`.
    fn end_line<S: Store>(
        &mut self,
        spare: &mut Spare,
        manner: ScriptOptions,
        session: &mut Session<S>,
        target: &mut Option<S>,
        former: &mut Option<S>,
        tail: &[u8],
    ) -> Result<(), RunFault>
        requires { self.old.ended + 1 < 2 ^ 64 }
        ensures one { OnOk result (self.new.ended ≡ self.old.ended + 1) }
        ensures ok { OnOk result (HasNoFeed tail.now
            → MovesTo S.facts manner (moment (holding session.old target.old former.old) self.old)
            (tail.now ++ line_feed ∷ []) (moment (holding session.new target.new former.new) self.new)) }
        ensures err { IfErr result (λ fault. HasNoFeed tail.now → (rest : List ℕ)
            → StopsIn fault S.facts manner (moment (holding session.old target.old former.old) self.old)
            (tail.now ++ line_feed ∷ rest) (moment (holding session.new target.new former.new) self.new)) }
        ensures cause { IfErr result (λ fault. HasCause fault ⊥ ⊥) }
    {
        self.ended += 1;
        let number = self.ended;
        let replies = &mut self.replies;
        if self.begun.is_empty() {
            return answer(
                spare, manner, number, session, target, former, tail, replies,
            );
        }
        keep(&mut self.begun, tail)?;
        answer(
            spare,
            manner,
            number,
            session,
            target,
            former,
            &self.begun,
            replies,
        )?;
        self.begun.clear();
        Ok(())
    }

    /// Answers the last line, which no line feed ends, if there is one.
    pub(crate) fn end<S: Store>(
        &mut self,
        spare: &mut Spare,
        manner: ScriptOptions,
        session: &mut Session<S>,
        target: &mut Option<S>,
        former: &mut Option<S>,
    ) -> Result<(), RunFault>
        requires { self.old.ended + 1 < 2 ^ 64 }
        ensures ok { OnOk result
            (Ends S.facts manner (moment (holding session.old target.old former.old) self.old)
            (moment (holding session.new target.new former.new) self.new)) }
        ensures err { IfErr result
            (λ fault. StopsAtEnd fault S.facts manner (moment (holding session.old target.old former.old) self.old)
            (moment (holding session.new target.new former.new) self.new)) }
        ensures cause { IfErr result (λ fault. HasCause fault ⊥ ⊥) }
    {
        if self.begun.is_empty() {
            return Ok(());
        }
        let number = self.ended + 1;
        let replies = &mut self.replies;
        answer(
            spare,
            manner,
            number,
            session,
            target,
            former,
            &self.begun,
            replies,
        )
    }
}

/// Answers the line of this number, behind the line itself where lines are echoed. Where the run bails, a refusal stops
/// it.
fn answer<S: Store>(
    spare: &mut Spare,
    manner: ScriptOptions,
    number: u64,
    session: &mut Session<S>,
    target: &mut Option<S>,
    former: &mut Option<S>,
    line: &[u8],
    out: &mut Vec<u8>,
) -> Result<(), RunFault>
    ensures ok { OnOk result (IsAnsweredInRun S.facts manner (holding session.old target.old former.old) line.now
        (holding session.new target.new former.new) out.old.items out.new.items) }
    ensures err { IfErr result
        (λ fault. IsStopped fault S.facts manner number (holding session.old target.old former.old) line.now
        (holding session.new target.new former.new) out.old.items out.new.items) }
    ensures cause { IfErr result (λ fault. HasCause fault ⊥ ⊥) }
{
    let start = out.len();
    match push_lines(spare, manner, session, target, former, line, out) {
        Ok(true) => Err(RunFault::Refused(number)),
        Ok(false) => Ok(()),
        Err(_) => {
            out.truncate(start);
            Err(RunFault::Memory)
        }
    }
}

/// Puts the line behind `out`, if it is to be echoed, and its reply line behind that, and says whether this is a
/// refusal that the run ends with: a run that doesn't bail isn't looked at for one. Where memory runs out, a part of them
/// may stand there.
fn push_lines<S: Store>(
    spare: &mut Spare,
    manner: ScriptOptions,
    session: &mut Session<S>,
    target: &mut Option<S>,
    former: &mut Option<S>,
    line: &[u8],
    out: &mut Vec<u8>,
) -> Result<bool, AllocError>
    ensures ok { OnOk result (Responds S.facts (holding session.old target.old former.old) (command line.now)
        (holding session.new target.new former.new) (out.old.items ++ lead manner.echoes line.now) out.new.items) }
    ensures refused { IfOk result (λ ends. ends ≡ (manner.bails
        && begins_with_no (drop (length (out.old.items ++ lead manner.echoes line.now)) out.new.items))) }
    ensures may { OnErr result (MayServe S.facts (holding session.old target.old former.old) (command line.now)
        (holding session.new target.new former.new)) }
    ensures err { OnErr result (Extends out.old.items out.new.items) }
{
    if manner.echoes {
        out.extend_from_slice(&line[..line.len().min(LONGEST_KEPT)])?;
        out.push(b'\n')?;
    }
    let reply = out.len();
    answer_line(spare, session, target, former, line, out)?;
    Ok(manner.bails && out[reply..].starts_with(b"no "))
}

/// Puts a part of a line behind what is kept of it.
fn keep(begun: &mut Vec<u8>, part: &[u8]) -> Result<(), AllocError>
    ensures ok { OnOk result (StandsFor (begun.old.items ++ part.now) begun.new.items) }
    ensures bounded { length begun.old.items ≤ LONGEST_KEPT → length begun.new.items ≤ LONGEST_KEPT }
{
    let room = LONGEST_KEPT.saturating_sub(begun.len());
    begun.extend_from_slice(&part[..part.len().min(room)])
}
