//! What is told where a command line asks for nothing.
ghost use Rattle.std.specs.Prelude.{◌≡◌};
ghost use Rattle.document_tools.specs.Requests.{PrintsNoRequest, PrintsRequestedText};

use crate::ending::{Ending, complain};
use document_commands::NoRequest;
use geos_model::Bytes;
use geos_shell::Sink;

/// Tells why a command line asks for nothing, help and the version on `out` and all else on `errors`, and gives the
/// exit status.
pub fn tell_no_request<W: Sink, E: Sink>(none: &NoRequest, out: &mut W, errors: &mut E) -> u8
    ensures { PrintsNoRequest W.writes E.writes none.now out.old out.new errors.old errors.new result }
{
    match none {
        NoRequest::Told(text) => tell_text(text, out, errors),
        NoRequest::Usage(text) => {
            complain(errors, text.as_slice());
            2
        }
        NoRequest::Unread => {
            complain(errors, b"geosdoc: the command line can't be read\n");
            2
        }
        NoRequest::Memory => Ending::Memory.tell(errors),
    }
}

// Writes a text to standard output, and gives the exit status. Where that fails, a write fault is told.
fn tell_text<W: Sink, E: Sink>(text: &Bytes, out: &mut W, errors: &mut E) -> u8
    ensures { PrintsRequestedText W.writes E.writes text.now out.old out.new errors.old errors.new result }
{
    match out.write_out(text.as_slice()) {
        Ok(()) => 0,
        Err(_) => Ending::WriteFault.tell(errors),
    }
}
