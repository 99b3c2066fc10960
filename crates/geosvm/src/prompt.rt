//! Where a script comes from: bytes as they are, or lines of a person, who is prompted, helped, told why a line is no
//! command, and asked once before edits that aren't saved are given up.
ghost use Rattle.std.specs.Prelude.{◌≤◌, None, is_some, if◌then◌else◌, length};
ghost use Rattle.std.specs.Io.{ReadsAtMost};

use geos_shell::{ReadFault, Source};
use std::alloc::{AllocError, Global};
use std::io::{Read, Write};
use typed_lines::{Typed, read_typed};

const PROMPT: &[u8] = b"geosvm> ";

const QUESTION: &[u8] =
    b"Edits aren't saved. Type save or update to keep them, quit again to drop them.\n";

/// How many bytes a read of a terminal may give. It gives no more of a line.
const PIECE: usize = 4_096;

/// A reader that gives what the reader in it gives; but where there is somebody who types, the lines that are for the
/// machine, with bytes in place of texts.
#[derive(Drop)]
pub(crate) struct Prompting<R: Read + Drop, W: Write + Drop> {
    pub(crate) reader: R,
    pub(crate) typing: Option<Typing<W>>,
}

/// What is kept of what a person types.
#[derive(Drop)]
pub(crate) struct Typing<W: Write + Drop> {
    alloc: Global,
    errors: W,
    // The front of a line that hasn't ended.
    begun: Vec<u8>,
    // Lines for the machine, and how many of their bytes were given.
    ready: Vec<u8>,
    given: usize,
    has_ended: bool,
    // Since the last line nothing was typed but ends, before one of which it was asked.
    was_asked: bool,
}

impl<W: Write + Drop> Typing<W> {
    /// Nothing was typed yet. What is told goes to `errors`.
    pub(crate) fn new(alloc: Global, errors: W) -> Typing<W> {
        Typing {
            alloc,
            errors,
            begun: Vec::new(alloc),
            ready: Vec::new(alloc),
            given: 0,
            has_ended: false,
            was_asked: false,
        }
    }

    // What can't be told is left untold, and the line still goes to the machine.
    fn tell(&mut self, text: &[u8]) {
        let _ = self.errors.write_all(text);
    }

    // Whether there are bytes to give.
    fn is_ready(&self) -> bool {
        self.given < self.ready.len()
    }

    // Whether the script ends here. Before edits are given up it is asked, and goes on.
    fn ends(&mut self, has_unsaved: bool) -> bool {
        if !self.has_ended || self.was_asked || !has_unsaved {
            return self.has_ended;
        }
        self.tell(QUESTION);
        self.was_asked = true;
        self.has_ended = false;
        false
    }

    // Takes what a read gave, line by line.
    fn take(&mut self, typed: &[u8]) -> Result<(), AllocError> {
        if typed.is_empty() {
            return self.take_end();
        }
        for part in typed.split_inclusive(|byte| *byte == b'\n') {
            if self.has_ended {
                return Ok(());
            }
            self.begun.extend_from_slice(part)?;
            if part.ends_with(b"\n") {
                self.begun.pop();
                self.take_line()?;
            }
        }
        Ok(())
    }

    // The script is ended by a key, so the line of the last prompt isn't.
    fn take_end(&mut self) -> Result<(), AllocError> {
        self.tell(b"\n");
        if !self.begun.is_empty() {
            self.take_line()?;
        }
        self.has_ended = true;
        Ok(())
    }

    // Takes the line that has begun, which has ended.
    fn take_line(&mut self) -> Result<(), AllocError> {
        let typed = read_typed(self.alloc, &self.begun)?;
        self.begun.clear();
        self.was_asked &= matches!(&typed, Typed::Quit);
        match typed {
            Typed::Command(line) => self.hand_on(&line)?,
            Typed::Refused(line, reason) => {
                self.hand_on(&line)?;
                self.tell(&reason);
            }
            Typed::Help(text) => self.tell(&text),
            Typed::Quit => self.has_ended = true,
        }
        Ok(())
    }

    fn hand_on(&mut self, line: &[u8]) -> Result<(), AllocError> {
        self.ready.extend_from_slice(line)?;
        self.ready.push(b'\n')?;
        Ok(())
    }

    // Gives bytes that are ready.
    fn give(&mut self, piece: &mut [u8]) -> usize
        ensures { result ≤ length piece.new }
    {
        let left = &self.ready[self.given.min(self.ready.len())..];
        let count = left.len().min(piece.len());
        piece[..count].copy_from_slice(&left[..count]);
        self.given += count;
        if self.given >= self.ready.len() {
            self.ready.clear();
            self.given = 0;
        }
        count
    }
}

impl<R: Read + Drop, W: Write + Drop> Source for Prompting<R, W> {
    // What a person types isn't known.
    ghost remaining = { λ prompting. if is_some prompting.typing then None else R.remaining prompting.reader };

    ghost reads = { λ _ _ _. Unit {0} };

    fn read_piece(&mut self, has_unsaved: bool, piece: &mut [u8]) -> Result<usize, ReadFault> {
        let Some(typing) = &mut self.typing else {
            return self.reader.read_piece(has_unsaved, piece);
        };
        read_typing(&mut self.reader, typing, has_unsaved, piece)
    }
}

// Prompts until there are bytes to give, or the script has ended.
fn read_typing<R: Read, W: Write + Drop>(
    reader: &mut R,
    typing: &mut Typing<W>,
    has_unsaved: bool,
    piece: &mut [u8],
) -> Result<usize, ReadFault>
    ensures { ReadsAtMost result piece.new }
{
    let mut typed = [0; PIECE];
    for _ in 0..u64::MAX {
        if typing.is_ready() || typing.ends(has_unsaved) {
            break;
        }
        typing.tell(PROMPT);
        let count = reader.read_piece(has_unsaved, &mut typed)?;
        if typing.take(&typed[..count]).is_err() {
            return Err(ReadFault::Failed);
        }
    }
    Ok(typing.give(piece))
}
