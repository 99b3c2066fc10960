//! What a run of the program comes to.
ghost use Rattle.std.specs.Prelude.{◌≡◌, OnOk};
ghost use Rattle.std.specs.Io.KnownBytes.{Appends};
ghost use Rattle.geos_shell.specs.Outcome.{PrintsOutcome, PrintsOutcomeLine, PrintsText, fault_line, status_of, outcome_text};

use crate::runner::RunFault;
use crate::streams::Sink;
use arrayvec::ArrayVec;
use command_lines::NoOptions;
use geos_model::{Bytes, Fault};
use std::io::{self, Write};

/// As many bytes as the line of a fault has at most.
const LONGEST_LINE: usize = 80;

/// What a run of the program comes to, in the order in which the program finds it out.
#[derive(Drop)]
pub enum Outcome {
    /// The words are no command line. The text says why, and how one looks.
    Usage(Bytes),
    /// The words ask for help, which the text is.
    Help(Bytes),
    /// The words ask for the version, which the text tells.
    Version(Bytes),
    /// The target and the file are the same text.
    SameFile,
    /// The new document was refused.
    Create(Fault),
    /// Opening the document was refused.
    Open(Fault),
    /// The target can't be opened.
    Target,
    /// The run ended before its script did, or the words or what was made of them found no memory.
    Run(RunFault),
    /// The script was run to its end.
    Done,
}

impl From<NoOptions> for Outcome {
    ghost use Rattle.std.specs.Prelude.{◌≡◌};
    ghost use Rattle.geos_shell.specs.Outcome.{without_options};

    ghost from_gives = { λ none outcome. outcome ≡ without_options none };

    fn from(none: NoOptions) -> Outcome {
        match none {
            NoOptions::Usage(text) => Outcome::Usage(text),
            NoOptions::Help(text) => Outcome::Help(text),
            NoOptions::Version(text) => Outcome::Version(text),
            NoOptions::SameFile => Outcome::SameFile,
            NoOptions::Memory => Outcome::Run(RunFault::Memory),
        }
    }
}

impl Outcome {
    /// The exit status.
    pub fn status(&self) -> u8
        ensures { result ≡ status_of self.now }
    {
        match self {
            Outcome::Done | Outcome::Help(_) | Outcome::Version(_) => 0,
            Outcome::Create(_) | Outcome::Open(_) | Outcome::Target | Outcome::Run(_) => 1,
            Outcome::Usage(_) | Outcome::SameFile => 2,
        }
    }

    /// Tells it, help and the version on `out` and all else on `errors`, and gives the exit status. Help and a version
    /// that can't be written are a write fault, which is told as one. It takes no memory.
    pub fn tell<W: Sink, E: Sink>(&self, out: &mut W, errors: &mut E) -> u8
        ensures { PrintsOutcome W.writes E.writes self.now out.old out.new errors.old errors.new result }
    {
        match self {
            Outcome::Help(text) | Outcome::Version(text) => tell_text(text, out, errors),
            Outcome::Done => 0,
            Outcome::Usage(text) => {
                // Where not even this can be told, the status still says what the words are.
                let _ = errors.write_out(text.as_slice());
                2
            }
            Outcome::SameFile
            | Outcome::Create(_)
            | Outcome::Open(_)
            | Outcome::Target
            | Outcome::Run(_) => self.tell_fault(errors),
        }
    }

    /// Writes the line to standard error, and gives the exit status.
    fn tell_fault<E: Sink>(&self, errors: &mut E) -> u8
        ensures { PrintsOutcomeLine E.writes self.now errors.old errors.new × (result ≡ status_of self.now) }
    {
        let mut line = ArrayVec::<u8, LONGEST_LINE>::new();
        // Where not even this can be told, the status still says what became of the run.
        let _ = match self.write_line(&mut line) {
            Ok(()) => errors.write_out(line.as_slice()),
            Err(_) => errors.write_out(b"geosvm: memory\n"),
        };
        self.status()
    }

    /// Writes what there is to tell: help and the version are for standard output, all else for standard error.
    pub fn write_line<W: Write>(&self, writer: &mut W) -> io::Result<()>
        ensures { OnOk result (Appends (W.contents writer.old) (W.contents writer.new) (outcome_text self.now)) }
    {
        match self {
            Outcome::Usage(text) | Outcome::Help(text) | Outcome::Version(text) => writer.write_all(
                text.as_slice(),
            ),
            Outcome::SameFile => writer.write_all(b"geosvm: FILE2 is FILE\n"),
            Outcome::Create(fault) => write_fault(writer, "create", *fault),
            Outcome::Open(fault) => write_fault(writer, "open", *fault),
            Outcome::Target => write_fault(writer, "target", Fault::File),
            Outcome::Run(fault) => writeln!(writer, "geosvm: {fault}"),
            Outcome::Done => Ok(()),
        }
    }
}

/// Writes where a fault was met, and which.
fn write_fault<W: Write>(writer: &mut W, place: &str, fault: Fault) -> io::Result<()>
    ensures { OnOk result (Appends (W.contents writer.old) (W.contents writer.new) (fault_line place.now fault)) }
{
    let number = fault.number();
    let name = fault.name();
    writeln!(writer, "geosvm: {place} {number} {name}")
}

/// Writes a text to standard output, and gives the exit status. Where that fails, a write fault is told.
fn tell_text<W: Sink, E: Sink>(text: &Bytes, out: &mut W, errors: &mut E) -> u8
    ensures { PrintsText W.writes E.writes text.now out.old out.new errors.old errors.new result }
{
    match out.write_out(text.as_slice()) {
        Ok(()) => 0,
        Err(_) => Outcome::Run(RunFault::Write).tell_fault(errors),
    }
}
