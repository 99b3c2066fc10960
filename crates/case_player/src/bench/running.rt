//! Runs in the session and runs of the program, over readers and writers that give or take little at once or fail.
use crate::bench::{Bench, NO_FUSE, Pending, no_lines};
use crate::files::ProgramFiles;
use crate::mismatch::{Mismatch, mismatch_at};
use crate::streams::{Desk, Feeding, Place, STRONG, Strength, Taking};
use crate::subject::{File, RunOptions, Subject};
use case_files::{Beginning, Look, Streaming};
use std::alloc::{AllocError, Global};
use std::mem;
use test_stores::{FuseStore, MemStore};

/// What was begun and hasn't ended.
#[derive(Drop)]
pub(super) struct Stream {
    beginning: Beginning,
    places: Vec<Place>,
    // What must be told on standard error.
    told: String,
    strength: Strength,
    can_guard: bool,
}

impl Stream {
    fn new(alloc: Global, beginning: Beginning) -> Stream {
        Stream {
            beginning,
            places: Vec::new(alloc),
            told: String::new(alloc),
            strength: STRONG,
            can_guard: true,
        }
    }

    // Goes on so, behind so many bytes of the script and of the replies.
    fn put(&mut self, at: usize, due: usize, step: &Streaming) -> Result<(), AllocError> {
        match step {
            Streaming::Stop(stop) => self.places.push(Place {
                at,
                due,
                stop: *stop,
            })?,
            Streaming::Told(text) => self.told.push_str(text)?,
            Streaming::Reads(most) => self.strength.reads = *most,
            Streaming::IsInterrupted => self.strength.is_interrupted = true,
            Streaming::IsEndless => self.strength.is_endless = true,
            Streaming::Takes(most) => self.strength.takes = *most,
            Streaming::Writes(count) => self.strength.writes = *count,
            Streaming::Flushes(count) => self.strength.flushes = *count,
            Streaming::IsUnguarded => self.can_guard = false,
            Streaming::Line(_) => {}
        }
        Ok(())
    }
}

/// What is seen of what has ended.
#[derive(Drop)]
pub(super) struct Seen {
    // What was written.
    written: Vec<u8>,
    // What was told on standard error.
    told: Vec<u8>,
    ends: String,
    asked: String,
    unread: usize,
    longest: usize,
    // The files that were closed and weren't looked at, the next one last.
    closed: Vec<File>,
}

impl Seen {
    pub(super) fn nothing(alloc: Global) -> Seen {
        Seen {
            written: Vec::new(alloc),
            told: Vec::new(alloc),
            ends: String::new(alloc),
            asked: String::new(alloc),
            unread: 0,
            longest: 0,
            closed: Vec::new(alloc),
        }
    }
}

// The words of a command line.
fn words<'a>(alloc: Global, text: &'a str) -> Result<Vec<&'a str>, AllocError> {
    let mut words = Vec::new(alloc);
    words.push("geosvm")?;
    for word in text.split(' ') {
        if !word.is_empty() {
            words.push(word)?;
        }
    }
    Ok(words)
}

// How many lines end in these bytes.
fn count_lines(bytes: &[u8]) -> usize {
    let mut count = 0_usize;
    for byte in bytes {
        if *byte == b'\n' {
            count = count.saturating_add(1);
        }
    }
    count
}

impl<S: Subject> Bench<S> {
    /// What was begun doesn't end.
    pub(super) fn no_end(&self, number: usize) -> Mismatch {
        mismatch_at(self.alloc, number, "how it ends", "nothing")
    }

    // There is nothing that was begun.
    fn no_beginning(&self, number: usize) -> Mismatch {
        mismatch_at(self.alloc, number, "a run", "none")
    }

    /// Begins a run or the program.
    pub(super) fn begin(&mut self, beginning: &Beginning) -> Result<(), Mismatch> {
        let beginning = match beginning {
            Beginning::Run { bails, echoes } => Beginning::Run {
                bails: *bails,
                echoes: *echoes,
            },
            Beginning::Program(text) => Beginning::Program(text.to_string(self.alloc)?),
        };
        self.stream = Some(Stream::new(self.alloc, beginning));
        Ok(())
    }

    /// Goes on with what was begun.
    pub(super) fn stream_on(&mut self, number: usize, step: &Streaming) -> Result<(), Mismatch> {
        let (at, due) = (self.pending.script.len(), self.pending.replies.len());
        let Some(stream) = &mut self.stream else {
            return Err(self.no_beginning(number));
        };
        stream.put(at, due, step)?;
        if let Streaming::Line(text) = step {
            self.pending.put_written(number, text)?;
        }
        Ok(())
    }

    /// Has what was begun, and compares how it ends.
    pub(super) fn end(&mut self, number: usize, wanted: &str) -> Result<(), Mismatch> {
        let Some(stream) = self.stream.take() else {
            return Err(self.no_beginning(number));
        };
        let lines = mem::replace(&mut self.pending, no_lines(self.alloc));
        match &stream.beginning {
            Beginning::Run { bails, echoes } => {
                let options = RunOptions {
                    bails: *bails,
                    echoes: *echoes,
                };
                self.run(number, options, &lines, &stream)?
            }
            Beginning::Program(text) => self.serve(text, &lines, &stream)?,
        }
        self.compare_end(number, wanted, &lines, &stream)
    }

    // Compares the replies of a run to so many lines, of which some may not be written where a write or a flush failed.
    fn compare_cut(&self, lines: &Pending, count: usize) -> Result<(), Mismatch> {
        let (written, replies) = (self.seen.written.as_slice(), lines.replies.as_bytes());
        let may_lack = self.seen.ends.as_str() == "write fault";
        if replies.starts_with(written) && (may_lack || count_lines(written) == count) {
            return Ok(());
        }
        let number = lines.number_at(count);
        Err(mismatch_at(self.alloc, number, "the first replies", "others"))
    }

    /// Has the lines that aren't said yet in a run, which may end by a fault of the reader or of the writer. Gives how
    /// many lines were read, and whether the run ended well.
    pub(crate) fn cut(&mut self, strength: Strength) -> Result<(usize, bool), Mismatch> {
        let lines = mem::replace(&mut self.pending, no_lines(self.alloc));
        let mut stream = Stream::new(
            self.alloc,
            Beginning::Run {
                bails: false,
                echoes: false,
            },
        );
        stream.strength = strength;
        self.run(lines.number_at(0), RunOptions::default(), &lines, &stream)?;
        let script = lines.script.as_bytes();
        let read = script.len().saturating_sub(self.seen.unread);
        let count = count_lines(script.get(..read).unwrap_or(&[]));
        self.compare_cut(&lines, count)?;
        Ok((count, self.seen.ends.as_str() == "well"))
    }

    fn compare_end(
        &self,
        number: usize,
        wanted: &str,
        lines: &Pending,
        stream: &Stream,
    ) -> Result<(), Mismatch> {
        let seen = &self.seen;
        self.expect(number, seen.ends.as_str() == wanted, wanted, &seen.ends)?;
        let told = String::from_utf8_lossy(self.alloc, &seen.told)?;
        self.expect(
            number,
            told.as_str() == stream.told.as_str(),
            &stream.told,
            told.as_str(),
        )?;
        if self.is_judged {
            return lines.compare(self.alloc, &seen.written);
        }
        Ok(())
    }

    // Has a run in the session.
    fn run(
        &mut self,
        number: usize,
        options: RunOptions,
        lines: &Pending,
        stream: &Stream,
    ) -> Result<(), Mismatch> {
        let desk = Desk::new();
        let script = lines.script.as_bytes();
        let mut reader = Feeding::new(&desk, script, &stream.places, stream.strength);
        let mut writer = Taking::new(self.alloc, &desk, stream.strength);
        let Some(session) = &mut self.session else {
            return Err(self.no_session(number));
        };
        self.seen.ends = session.run(
            self.alloc,
            options,
            &mut self.sides,
            &mut reader,
            &mut writer,
        )?;
        self.see(&reader, writer);
        Ok(())
    }

    // Has the program.
    fn serve(&mut self, text: &str, lines: &Pending, stream: &Stream) -> Result<(), Mismatch> {
        let desk = Desk::new();
        let script = lines.script.as_bytes();
        let mut reader = Feeding::new(&desk, script, &stream.places, stream.strength);
        let mut writer = Taking::new(self.alloc, &desk, stream.strength);
        let mut files = self.lent_files(stream.can_guard)?;
        let words = words(self.alloc, text)?;
        let (status, errors) = S::serve(self.alloc, &mut files, &words, &mut reader, &mut writer);
        self.seen.ends = status.to_string(self.alloc)?;
        self.see(&reader, writer);
        self.seen.told = errors;
        self.take_back(files);
        Ok(())
    }

    // What is seen of a reader and a writer.
    fn see(&mut self, reader: &Feeding<'_>, writer: Taking<'_>) {
        self.seen.unread = reader.left();
        self.seen.longest = writer.longest;
        self.seen.written = writer.taken;
        self.seen.told.clear();
    }

    // A file that the program makes.
    fn empty_file(&self) -> File {
        FuseStore::new(MemStore::new(self.alloc), NO_FUSE.passes, NO_FUSE.all)
    }

    // The program is lent the file that isn't open, and the target.
    fn lent_files(&mut self, can_guard: bool) -> Result<ProgramFiles<File>, Mismatch> {
        if let Some(file) = &self.file {
            self.opened = file.inner().bytes().to_vec(self.alloc)?;
        }
        // The program opens two files at most.
        let mut empty = Vec::new(self.alloc);
        for _ in 0..2 {
            empty.push(self.empty_file())?;
        }
        let (document, copy) = (self.file.take(), self.sides.target.take());
        Ok(ProgramFiles::new(self.alloc, document, copy, empty, can_guard))
    }

    // What the program has closed, and what it has asked for.
    fn take_back(&mut self, files: ProgramFiles<File>) {
        let ProgramFiles { asked, closed, .. } = files;
        self.seen.asked = asked;
        self.seen.closed = closed;
        self.seen.closed.as_mut_slice().reverse();
    }

    /// The file is the next one that the program has closed.
    pub(super) fn turn_to_closed(&mut self, number: usize) -> Result<(), Mismatch> {
        match self.seen.closed.pop() {
            Some(file) => {
                self.file = Some(file);
                Ok(())
            }
            None => Err(mismatch_at(self.alloc, number, "a file that was closed", "none")),
        }
    }

    // Compares a number.
    fn expect_number(&self, number: usize, wanted: usize, given: usize) -> Result<(), Mismatch> {
        let (want, give) = (wanted.to_string(self.alloc)?, given.to_string(self.alloc)?);
        self.expect(number, wanted == given, &want, &give)
    }

    // Looks at how much the records of the session weigh.
    fn look_at_weight(&self, number: usize, least: u64, most: u64) -> Result<(), Mismatch> {
        let Some(session) = &self.session else {
            return Err(self.no_session(number));
        };
        let weight = session.weight();
        let wanted = format!(in self.alloc; "{least} to {most}")?;
        let given = weight.to_string(self.alloc)?;
        self.expect(number, least <= weight && weight <= most, &wanted, &given)
    }

    /// Looks whether something is as it must be behind what has ended.
    pub(super) fn look_behind(&self, number: usize, look: &Look) -> Result<(), Mismatch> {
        let seen = &self.seen;
        match look {
            Look::Asked(wanted) => {
                let holds = wanted.as_str() == seen.asked.as_str();
                self.expect(number, holds, wanted, &seen.asked)
            }
            Look::AllClosed => self.expect_number(number, 0, seen.closed.len()),
            Look::Unread(wanted) => self.expect_number(number, *wanted, seen.unread),
            Look::Longest(wanted) => self.expect_number(number, *wanted, seen.longest),
            Look::Length(wanted) => {
                self.expect_number(number, *wanted, self.closed_file(number)?.bytes().len())
            }
            Look::Weight(least, most) => self.look_at_weight(number, *least, *most),
        }
    }
}
