//! How a tool ends.
ghost use Rattle.std.specs.Prelude.{◌≡◌, Some};
ghost use Rattle.document_file.specs.Calls.{IsResourceFault};
ghost use Rattle.document_tools.specs.Endings.{EndsUnread, IsRefusedFor, IsUncomparedFor, PrintsLine, ending_status, error_line, trouble_line};

use crate::obstacle::{Obstacle, push_refusal};
use geos_model::{Bytes, Fault};
use geos_shell::Sink;
use std::alloc::Global;

const MEMORY: &[u8] = b"geosdoc: memory\n";

const WRITE_FAULT: &[u8] = b"geosdoc: write fault\n";

/// How a tool ends.
#[derive(Drop)]
pub enum Ending {
    /// All is told, or done.
    Done,
    /// All is told, of a file that doesn't open.
    Unsound,
    /// The file can't be looked at, or made, or not as was asked. The line says which file, and why.
    Refused(Bytes),
    Memory,
    /// The script couldn't be read.
    ReadFault,
    /// What was asked for couldn't be written.
    WriteFault,
    /// The documents differ that were to be compared, and it is told in what.
    Different,
    /// They can't be compared.
    Uncompared(Trouble),
}

/// Why documents can't be compared.
#[derive(Drop)]
pub enum Trouble {
    /// One of the files can't be looked at. The line says which, and why.
    Refused(Bytes),
    Memory,
    /// What differs couldn't be written.
    WriteFault,
}

impl Trouble {
    fn line(&self) -> &[u8]
        ensures { result.now ≡ trouble_line self.now }
    {
        match self {
            Trouble::Refused(line) => line.as_slice(),
            Trouble::Memory => MEMORY,
            Trouble::WriteFault => WRITE_FAULT,
        }
    }
}

impl Ending {
    /// The exit status.
    pub fn status(&self) -> u8
        ensures { result ≡ ending_status self.now }
    {
        match self {
            Ending::Done => 0,
            Ending::Unsound
            | Ending::Refused(_)
            | Ending::Memory
            | Ending::ReadFault
            | Ending::Different
            | Ending::WriteFault => 1,
            Ending::Uncompared(_) => 2,
        }
    }

    /// Tells it on `errors`, where there is anything to tell, and gives the exit status.
    pub fn tell<E: Sink>(&self, errors: &mut E) -> u8
        ensures status { result ≡ ending_status self.now }
        ensures told { PrintsLine E.writes (error_line self.now) errors.old errors.new }
    {
        self.tell_line(errors);
        self.status()
    }

    fn tell_line<E: Sink>(&self, errors: &mut E)
        ensures { PrintsLine E.writes (error_line self.now) errors.old errors.new }
    {
        match self {
            Ending::Done | Ending::Unsound | Ending::Different => {}
            Ending::Refused(line) => complain(errors, line.as_slice()),
            Ending::Memory => complain(errors, MEMORY),
            Ending::ReadFault => complain(errors, b"geosdoc: read fault\n"),
            Ending::WriteFault => complain(errors, WRITE_FAULT),
            Ending::Uncompared(trouble) => complain(errors, trouble.line()),
        }
    }
}

/// Writes a line to standard error. Where not even that can be done, the status still says what became of the run.
pub fn complain<E: Sink>(errors: &mut E, line: &[u8])
    ensures { PrintsLine E.writes (Some line.now) errors.old errors.new }
{
    let _ = errors.write_out(line);
}

/// What is told where this stands against what is asked of a file.
pub fn refused(alloc: Global, file: &str, obstacle: Obstacle) -> Ending
    ensures { IsRefusedFor file.now obstacle result }
{
    let mut line = Vec::new(alloc);
    match push_refusal(&mut line, file, obstacle) {
        Ok(()) => Ending::Refused(Bytes::from_vec(line)),
        Err(_) => Ending::Memory,
    }
}

/// What comes of a reading that failed.
pub fn unread(alloc: Global, file: &str, fault: Fault) -> Ending
    ensures { EndsUnread file.now fault result }
{
    match fault {
        Fault::Memory => Ending::Memory,
        _ => refused(alloc, file, Obstacle::Unread),
    }
}

/// What is told where this stands against a comparison.
pub fn uncompared(alloc: Global, file: &str, obstacle: Obstacle) -> Ending
    ensures { IsUncomparedFor file.now obstacle result }
{
    let mut line = Vec::new(alloc);
    match push_refusal(&mut line, file, obstacle) {
        Ok(()) => Ending::Uncompared(Trouble::Refused(Bytes::from_vec(line))),
        Err(_) => Ending::Uncompared(Trouble::Memory),
    }
}
