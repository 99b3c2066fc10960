//! A command is carried out by the session, and its reply line put behind those before it.
ghost use Rattle.std.specs.Prelude.{◌≡◌, ◌≢◌, ◌++◌, true, IfErr, OnOk, OnErr, Some, IsTrue};
ghost use Rattle.geos_model.specs.LookUps.{command_of};
ghost use Rattle.geos_model.specs.Reply.{Accepted, reply_by};
ghost use Rattle.geos_model.specs.Script.{command, reply_text};
ghost use Rattle.geos_model.specs.declared.command.Command.TheVariants as commands;
ghost use Rattle.geos_replies.specs.Holdings.{AreExact, KeepsHolding, MayServe, ServesRequest, failed_since_in, holding};
ghost use Rattle.geos_replies.specs.Replies.{Extends, Replied, Responds, RepliesToLookUp, asks_no_body};

use geos_model::{Command, Fault, LookUp, Reply};
use geos_script::{Spare, push_reply, read_command};
use std::alloc::AllocError;
use undo_log::Session;
use vm_store::Store;

// Puts the reply to a look-up behind `out`, without its line feed.
fn push_look_up<S: Store>(
    session: &mut Session<S>,
    look_up: LookUp<'_>,
    out: &mut Vec<u8>,
) -> Result<(), AllocError>
    ensures told { RepliesToLookUp result S.facts session.old
        (command_of look_up.entry) session.new out.old.items out.new.items }
    ensures stays { asks_no_body (command_of look_up.entry) ≡ true → session.new ≡ session.old }
    ensures err { OnErr result (Extends out.old.items out.new.items) }
{
    push_reply(out, session.look_up(look_up))
}

// Saves to the target, which is used up where that goes well, and then the old store is put aside. Else the target goes
// back into its place.
fn save_as<S: Store>(
    session: &mut Session<S>,
    target: &mut Option<S>,
    former: &mut Option<S>,
) -> Result<(), Fault>
    ensures serves { AreExact S.facts (holding session.old target.old former.old)
        → ServesRequest S.facts (holding session.old target.old former.old) (Some commands.SaveAs)
        (reply_by (λ _. Accepted) result) (holding session.new target.new former.new) }
    ensures stays { OnErr result (KeepsHolding S.facts
        (holding session.old target.old former.old) (holding session.new target.new former.new)) }
    ensures file { IfErr result (λ fault. fault ≡ Fault.File → IsTrue (failed_since_in S.facts
        (holding session.old target.old former.old) (holding session.new target.new former.new))) }
    ensures frames { session.new.frames ≡ session.old.frames }
{
    let Some(store) = target.take() else {
        // What is to be done first, whether there is a target or not.
        return Err(if session.in_group() {
            Fault::GroupOpen
        } else if session.has_locks() {
            Fault::Locked
        } else {
            Fault::NoTarget
        });
    };
    match session.save_as(store) {
        Ok(old) => {
            *former = Some(old);
            Ok(())
        }
        Err(refused) => {
            *target = Some(refused.store);
            Err(refused.fault)
        }
    }
}

// Inlined, since an undo or a redo says no more.
#[inline(always)]
fn push_accepted(out: &mut Vec<u8>, done: Result<(), Fault>) -> Result<(), AllocError>
    ensures ok { OnOk result (out.new.items ≡ out.old.items ++ reply_text (reply_by (λ _. Accepted) done)) }
    ensures err { OnErr result (Extends out.old.items out.new.items) }
{
    push_reply(out, done.map(|()| Reply::Accepted))
}

// Carries out a command that gets a reply, and puts the reply's text behind `out`. Where memory runs out, a part of it
// may stand there.
fn push_response<S: Store>(
    session: &mut Session<S>,
    target: &mut Option<S>,
    former: &mut Option<S>,
    command: &Command,
    out: &mut Vec<u8>,
) -> Result<(), AllocError>
    requires { command.now ≢ Command.Blank }
    ensures replied { Replied result S.facts (holding session.old target.old former.old) command.now
        (holding session.new target.new former.new) out.old.items out.new.items }
    ensures ok { OnOk result (Extends out.old.items out.new.items) }
    ensures err { OnErr result (Extends out.old.items out.new.items) }
{
    match command {
        Command::Edit(edit) => push_reply(out, session.edit(edit).map(|done| Reply::from(done))),
        Command::Undo => push_accepted(out, session.undo()),
        Command::Redo => push_accepted(out, session.redo()),
        Command::Begin => push_accepted(out, session.begin()),
        Command::End => push_accepted(out, session.end()),
        Command::Abandon => push_accepted(out, session.abandon()),
        Command::Join => push_accepted(out, session.join()),
        Command::Forget(most) => {
            session.forget(*most);
            push_accepted(out, Ok(()))
        }
        Command::Name(name) => push_accepted(out, session.name_step(name.as_slice())),
        Command::Update => push_accepted(out, session.update()),
        Command::Save => push_accepted(out, session.save()),
        Command::Revert => push_accepted(out, session.revert()),
        Command::SaveAs => push_accepted(out, save_as(session, target, former)),
        Command::Lock(block) => push_accepted(out, session.lock(*block)),
        Command::Unlock(block) => push_accepted(out, session.unlock(*block)),
        Command::Dirty(block) => push_accepted(out, session.dirty(*block)),
        asking => match asking.look_up() {
            Some(look_up) => push_look_up(session, look_up, out),
            None => unreachable!(),
        },
    }
}

/// Answers a line, without its line feed, and puts its reply line behind `out`; a blank line and a note get none. A
/// save-as goes to the target: where it goes well the target is used up, and the old store is put into `former`, whose
/// store before is dropped.
///
/// Over any store a refusal leaves the document, as far as the store gives back what it has, the log, the locks, the
/// frames and whether a target is left, and a file fault is answered only where a store failed in just this call.
///
/// Where what is held is exact, over an honest store and target, each answer is the machine's but for such a fault or
/// lack of memory, the files are as the reply tells, and all is exact still.
///
/// What the bytes of the line take comes from `spare`, and goes back there.
///
/// An `Err` is lack of memory for the line or for the text of its reply. Then `out` is as it was, and the line may be
/// carried out all the same: what it was answered isn't told.
pub fn answer_line<S: Store>(
    spare: &mut Spare,
    session: &mut Session<S>,
    target: &mut Option<S>,
    former: &mut Option<S>,
    line: &[u8],
    out: &mut Vec<u8>,
) -> Result<(), AllocError>
    ensures ok { OnOk result (Responds S.facts (holding session.old target.old former.old) (command line.now)
        (holding session.new target.new former.new) out.old.items out.new.items) }
    ensures may { OnErr result (MayServe S.facts (holding session.old target.old former.old) (command line.now)
        (holding session.new target.new former.new)) }
    ensures extends { Extends out.old.items out.new.items }
    ensures err { OnErr result (out.new.items ≡ out.old.items) }
{
    let start = out.len();
    let mut command = Command::Blank;
    let answered = match read_command(spare, &mut command, line) {
        Ok(()) if matches!(&command, Command::Blank) => return Ok(()),
        Ok(()) => push_response(session, target, former, &command, out),
        Err(Fault::BadCommand) => push_reply(out, Err(Fault::BadCommand)),
        // The line found no memory.
        Err(_) => Err(AllocError),
    };
    spare.take_back(&mut command);
    if answered.is_err() || out.push(b'\n').is_err() {
        out.truncate(start);
        return Err(AllocError);
    }
    Ok(())
}
