//! The steps of a case.
use crate::numbers::{read_handle, with_list};
use crate::said::Said;
use crate::streaming::{Beginning, Streaming, read_run, read_streaming};
use geos_model::VmHandle;
use std::alloc::{AllocError, Global};

/// Which of two stores.
#[derive(Clone, Copy, PartialEq, Eq)]
pub enum Side {
    /// The one of the file that the case begins on.
    File,
    /// The one that a save-as makes a file of.
    Target,
}

/// Which calls of a store fail.
#[derive(Clone, Copy)]
pub enum Failing {
    /// The next one of the file.
    Next,
    /// Each one of the file from here on.
    All,
    /// The last one of the file that the next line makes.
    Last,
    /// One of those that the next line makes, each in turn.
    Each(Side),
}

/// What is done, or must be so.
#[derive(Drop)]
pub enum Action {
    /// A line of a script is said, and its reply is this one, if it gets any.
    Say(Said),
    /// A new file is made and opened.
    New,
    /// There is a file of so many zeros, which isn't open.
    File(usize),
    /// Bytes are put into the file.
    Put(usize, Vec<u8>),
    /// The file is opened, or refused for this.
    Open(String),
    Close,
    /// A save-as can make a file of a store with these bytes.
    Target(Vec<u8>),
    /// The file is the one that a save-as has left.
    Former,
    /// A crash keeps so many of the writes since the last sync, and leaves this byte in place of the others.
    Crash(usize, u8),
    Fail(Failing),
    /// Calls of the file's store are counted from here on.
    Count,
    /// So many were counted. They are counted anew from here on.
    Calls(u64),
    /// The block is in memory.
    Resident(VmHandle),
    /// The block isn't in memory.
    Away(VmHandle),
    /// The file has these bytes there.
    Has(usize, Vec<u8>),
    /// The file has the bytes that it had when it was opened.
    Unchanged,
    /// A crash now leaves the file as it is.
    Synced,
    /// A run or the program is begun.
    Begin(Beginning),
    Stream(Streaming),
    /// What was begun ends so.
    Ends(String),
    /// The file is the next one of those that the program has closed.
    Closed,
    Look(Look),
}

/// What must be so of what has ended, or of the session or the file.
#[derive(Drop)]
pub enum Look {
    /// The program has asked for this.
    Asked(String),
    /// It has closed no other file.
    AllClosed,
    /// So many bytes of the script weren't read.
    Unread(usize),
    /// The longest write has so many bytes.
    Longest(usize),
    /// The file has so many bytes.
    Length(usize),
    /// The records of the session weigh so much, no less than the first and no more than the second.
    Weight(u64, u64),
}

/// A step, and the number of its line in the case file.
#[derive(Drop)]
pub struct Step {
    pub number: usize,
    pub action: Action,
}

/// Why a line can't be read.
#[derive(Debug, Drop)]
pub(crate) enum StepFault {
    Memory,
    /// It says nothing that is known.
    Unknown,
}

impl From<AllocError> for StepFault {
    fn from(_: AllocError) -> StepFault {
        StepFault::Memory
    }
}

// What stands in a script for what is hard to see or to write there.
const MARKS: [(&str, &str); 5] = [
    ("<nothing>", ""),
    ("<space>", " "),
    ("<tab>", "\t"),
    ("<return>", "\r"),
    ("<vtab>", "\x0b"),
];

// Puts that in the place of what stands for it.
fn with_marks(alloc: Global, script: &str) -> Result<String, AllocError> {
    let mut text = script.to_string(alloc)?;
    for (mark, meant) in MARKS {
        text = text.replace(alloc, mark, meant)?;
    }
    Ok(text)
}

// The same script and replies, with that in the place of what stands for it.
fn marked(alloc: Global, script: &str, replies: &str) -> Result<Said, AllocError> {
    let mut line = Said::new(alloc);
    if script.contains('<') {
        line.add_text(&with_marks(alloc, script)?, replies)?;
    } else {
        line.add_text(script, replies)?;
    }
    Ok(line)
}

/// The line of a script, with its reply if it has one.
pub(crate) fn read_line(alloc: Global, text: &str) -> Result<Action, AllocError> {
    let mut line = Said::new(alloc);
    line.add_lines(&with_list(alloc, text)?)?;
    Ok(Action::Say(marked(alloc, line.script(), line.replies())?))
}

/// A line that stands as the lines of a script do, with its line feed.
pub(crate) fn expanded(alloc: Global, text: &str) -> Result<String, AllocError> {
    let mut line = Said::new(alloc);
    line.add_lines(text)?;
    with_marks(alloc, line.script())
}

// A line that ends without a line feed.
fn read_last(alloc: Global, text: &str) -> Result<Action, AllocError> {
    let mut line = Said::new(alloc);
    line.add_lines(text)?;
    let script = line.script().trim_matches('\n');
    Ok(Action::Say(marked(alloc, script, line.replies())?))
}

/// The first word of a line, and the others.
pub(crate) fn first_word(text: &str) -> (&str, &str) {
    text.split_once(' ').unwrap_or((text, ""))
}

// Bytes in hexadecimal digits, in which `00*4` stands for `00000000`.
fn read_bytes(alloc: Global, text: &str) -> Result<Vec<u8>, StepFault> {
    let mut digits = Said::new(alloc);
    digits.add_lines(text)?;
    match hex::decode(alloc, digits.script().trim_matches('\n')) {
        Ok(bytes) => Ok(bytes),
        Err(_) => Err(StepFault::Unknown),
    }
}

fn read_number(text: &str) -> Result<usize, StepFault> {
    text.parse().map_err(|_| StepFault::Unknown)
}

fn read_block(text: &str) -> Result<VmHandle, StepFault> {
    match read_handle(text) {
        Some(handle) => Ok(VmHandle(handle)),
        None => Err(StepFault::Unknown),
    }
}

// A place in a file, and bytes.
fn read_place(alloc: Global, text: &str) -> Result<(usize, Vec<u8>), StepFault> {
    let (at, bytes) = first_word(text);
    Ok((read_number(at)?, read_bytes(alloc, bytes)?))
}

fn read_crash(text: &str) -> Result<Action, StepFault> {
    let (keep, fill) = first_word(text);
    match fill.parse() {
        Ok(fill) => Ok(Action::Crash(read_number(keep)?, fill)),
        Err(_) => Err(StepFault::Unknown),
    }
}

fn read_failing(text: &str) -> Result<Action, StepFault> {
    match text {
        "next" => Ok(Action::Fail(Failing::Next)),
        "all" => Ok(Action::Fail(Failing::All)),
        "last" => Ok(Action::Fail(Failing::Last)),
        "each" => Ok(Action::Fail(Failing::Each(Side::File))),
        "each of target" => Ok(Action::Fail(Failing::Each(Side::Target))),
        _ => Err(StepFault::Unknown),
    }
}

// `12`, or `up to 12`.
fn read_weight(text: &str) -> Result<Look, StepFault> {
    match text.strip_prefix("up to ") {
        Some(most) => Ok(Look::Weight(0, read_number(most)? as u64)),
        None => {
            let weight = read_number(text)? as u64;
            Ok(Look::Weight(weight, weight))
        }
    }
}

// What must be so of what has ended, or of the session or the file.
fn read_look(alloc: Global, word: &str, rest: &str) -> Result<Option<Look>, StepFault> {
    Ok(Some(match word {
        "asked" => Look::Asked(rest.to_string(alloc)?),
        "unread" => Look::Unread(read_number(rest)?),
        "longest" => Look::Longest(read_number(rest)?),
        "length" => Look::Length(read_number(rest)?),
        "weight" => read_weight(rest)?,
        _ => return Ok(None),
    }))
}

// What a run or the program is about.
fn read_stream(alloc: Global, word: &str, rest: &str) -> Result<Option<Action>, StepFault> {
    match word {
        "run" => Ok(read_run(rest).map(Action::Begin)),
        "serve" => Ok(Some(Action::Begin(Beginning::Program(rest.to_string(alloc)?)))),
        "ends" => Ok(Some(Action::Ends(rest.to_string(alloc)?))),
        _ => Ok(read_streaming(alloc, word, rest)?.map(Action::Stream)),
    }
}

// A step that is one word.
fn read_alone(word: &str) -> Result<Action, StepFault> {
    match word {
        "closed" => Ok(Action::Closed),
        "all closed" => Ok(Action::Look(Look::AllClosed)),
        "close" => Ok(Action::Close),
        "former" => Ok(Action::Former),
        "count" => Ok(Action::Count),
        "unchanged" => Ok(Action::Unchanged),
        "synced" => Ok(Action::Synced),
        _ => Err(StepFault::Unknown),
    }
}

/// A step that isn't a line of a script.
pub(crate) fn read_action(alloc: Global, text: &str) -> Result<Action, StepFault> {
    let (word, rest) = first_word(text);
    if let Some(action) = read_stream(alloc, word, rest)? {
        return Ok(action);
    }
    match read_look(alloc, word, rest)? {
        Some(look) => Ok(Action::Look(look)),
        None => read_other(alloc, text),
    }
}

// A step that is neither.
fn read_other(alloc: Global, text: &str) -> Result<Action, StepFault> {
    let (word, rest) = first_word(text);
    match word {
        "last" => Ok(read_last(alloc, rest)?),
        "open" => Ok(Action::Open(rest.to_string(alloc)?)),
        "target" => Ok(Action::Target(read_bytes(alloc, rest)?)),
        "file" => Ok(Action::File(read_number(rest)?)),
        "fail" => read_failing(rest),
        "crash" => read_crash(rest),
        "resident" => Ok(Action::Resident(read_block(rest)?)),
        "away" => Ok(Action::Away(read_block(rest)?)),
        "calls" => Ok(Action::Calls(read_number(rest)? as u64)),
        "put" => {
            let (at, bytes) = read_place(alloc, rest)?;
            Ok(Action::Put(at, bytes))
        }
        "has" => {
            let (at, bytes) = read_place(alloc, rest)?;
            Ok(Action::Has(at, bytes))
        }
        _ => read_alone(text),
    }
}
