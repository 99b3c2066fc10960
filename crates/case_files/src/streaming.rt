//! What comes between the lines of a run or of the program, and how its reader and its writer go.
use crate::step::expanded;
use std::alloc::{AllocError, Global};

/// What is begun, whose script stands in the lines below.
#[derive(Drop)]
pub enum Beginning {
    /// A run in the session, which may end at a refusal, and may write each line before its reply.
    Run { bails: bool, echoes: bool },
    /// The program, by these words behind its name.
    Program(String),
}

/// What a reader does where it has come to a place of the script.
#[derive(Clone, Copy, PartialEq, Eq)]
pub enum Stop {
    /// A read ends here.
    Piece,
    /// A read is interrupted here.
    Interrupted,
    /// A read fails here.
    Fails,
}

/// How the reader and the writer of what was begun go on.
#[derive(Drop)]
pub enum Streaming {
    Stop(Stop),
    /// A line is written that is no reply.
    Line(String),
    /// A line is told on standard error.
    Told(String),
    /// A read gives so many bytes at most.
    Reads(usize),
    /// A read is interrupted before each one that serves.
    IsInterrupted,
    /// The script comes over and over.
    IsEndless,
    /// A write takes so many bytes at most.
    Takes(usize),
    /// So many writes serve.
    Writes(usize),
    /// So many flushes serve.
    Flushes(usize),
    /// The standard streams can't be guarded.
    IsUnguarded,
}

fn read_stop(text: &str) -> Option<Streaming> {
    match text {
        "fails" => Some(Streaming::Stop(Stop::Fails)),
        "is interrupted" => Some(Streaming::Stop(Stop::Interrupted)),
        _ => None,
    }
}

// A line with its line feed.
fn line_of(alloc: Global, text: &str) -> Result<String, AllocError> {
    format!(in alloc; "{text}\n")
}

// A line that is written or told. Behind `|*` it stands as the lines of a script do.
fn read_text(alloc: Global, word: &str, rest: &str) -> Result<Option<Streaming>, AllocError> {
    match word {
        "|" => Ok(Some(Streaming::Line(line_of(alloc, rest)?))),
        "|*" => Ok(Some(Streaming::Line(expanded(alloc, rest)?))),
        "told" => Ok(Some(Streaming::Told(line_of(alloc, rest)?))),
        _ => Ok(None),
    }
}

fn read_limit(word: &str, rest: &str) -> Option<Streaming> {
    let count = rest.parse().ok()?;
    match word {
        "reads" => Some(Streaming::Reads(count)),
        "takes" => Some(Streaming::Takes(count)),
        "writes" => Some(Streaming::Writes(count)),
        "flushes" => Some(Streaming::Flushes(count)),
        _ => None,
    }
}

/// Reads a line of these, if it is one.
pub(crate) fn read_streaming(
    alloc: Global,
    word: &str,
    rest: &str,
) -> Result<Option<Streaming>, AllocError> {
    match word {
        "piece" => Ok(Some(Streaming::Stop(Stop::Piece))),
        "interrupted" => Ok(Some(Streaming::IsInterrupted)),
        "endless" => Ok(Some(Streaming::IsEndless)),
        "unguarded" => Ok(Some(Streaming::IsUnguarded)),
        "read" => Ok(read_stop(rest)),
        "|" | "|*" | "told" => read_text(alloc, word, rest),
        _ => Ok(read_limit(word, rest)),
    }
}

/// Reads how a run goes: `bail`, `echo`, both or neither.
pub(crate) fn read_run(rest: &str) -> Option<Beginning> {
    let (bails, echoes) = match rest {
        "" => (false, false),
        "bail" => (true, false),
        "echo" => (false, true),
        "bail echo" => (true, true),
        _ => return None,
    };
    Some(Beginning::Run { bails, echoes })
}
