//! What comes of a look at a file.
ghost use Rattle.document_tools.specs.Looks.{EndsUnopened, SendsText};

use crate::ending::{Ending, refused};
use crate::obstacle::Obstacle;
use geos_model::Fault;
use geos_shell::Sink;
use std::alloc::Global;

/// What comes of an opening that is refused: the obstacle is told where there was memory and the file could be read.
pub fn unopened(alloc: Global, file: &str, fault: Fault, obstacle: Obstacle) -> Ending
    ensures { EndsUnopened file.now fault obstacle result }
{
    match fault {
        Fault::Memory => Ending::Memory,
        Fault::File => refused(alloc, file, Obstacle::Unread),
        _ => refused(alloc, file, obstacle),
    }
}

/// Writes a text in one write.
pub fn send_text<W: Sink>(text: &[u8], writer: &mut W) -> Ending
    ensures { SendsText W.writes text.now writer.old writer.new result }
{
    match writer.write_out(text) {
        Ok(()) => Ending::Done,
        Err(_) => Ending::WriteFault,
    }
}
