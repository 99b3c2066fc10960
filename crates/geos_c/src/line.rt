//! One line, answered as a line of a script.
ghost use Rattle.geos_c.specs.Lines.{AnswersLine};

use c_sessions::{UNTOLD, hand_out};
use geos_replies::answer_line;
use geos_script::Spare;
use std::alloc::Global;
use undo_log::Session;
use vm_store::Store;

/// Answers a line, and hands out its reply line. A save-as has no target.
pub(crate) fn command<S: Store>(
    session: &mut Session<S>,
    alloc: Global,
    line: &[u8],
    reply: &mut [u8],
    length: &mut usize,
) -> i32
    ensures { AnswersLine S.facts line.now session.old session.new reply.old reply.new length.new result }
{
    let mut text = Vec::new(alloc);
    let mut target = None;
    let mut former = None;
    let mut spare = Spare::new(alloc);
    match answer_line(
        &mut spare,
        session,
        &mut target,
        &mut former,
        line,
        &mut text,
    ) {
        Ok(()) => hand_out(&text, reply, length),
        Err(_) => {
            *length = 0;
            UNTOLD
        }
    }
}
