//! What a case is played on: a file and a session on it, and what a save-as makes and leaves.
mod running;

use crate::bench::running::{Seen, Stream};
use crate::mismatch::{Mismatch, expect, mismatch_at};
use crate::subject::{File, Sides, Subject};
use case_files::{Action, Said, Side, Step};
use geos_model::{Fault, VmHandle};
use std::alloc::{AllocError, Global};
use std::mem;
use test_stores::{FuseStore, MemStore};

/// Of which store the call after so many fails, or all from there on.
#[derive(Clone, Copy)]
pub(crate) struct Fuse {
    pub(crate) side: Side,
    pub(crate) passes: u64,
    pub(crate) all: bool,
}

/// No call fails.
pub(crate) const NO_FUSE: Fuse = Fuse {
    side: Side::File,
    passes: u64::MAX,
    all: false,
};

/// Lines of a script that aren't said yet, the replies that they must get, and the number of the line of each reply.
#[derive(Drop)]
struct Pending {
    script: String,
    replies: String,
    numbers: Vec<usize>,
}

fn no_lines(alloc: Global) -> Pending {
    Pending {
        script: String::new(alloc),
        replies: String::new(alloc),
        numbers: Vec::new(alloc),
    }
}

impl Pending {
    fn put(&mut self, number: usize, line: &Said) -> Result<(), AllocError> {
        self.script.push_str(line.script())?;
        if !line.replies().is_empty() {
            self.put_written(number, line.replies())?;
        }
        Ok(())
    }

    // Puts a line that is written behind the replies.
    fn put_written(&mut self, number: usize, line: &str) -> Result<(), AllocError> {
        self.replies.push_str(line)?;
        self.numbers.push(number)?;
        Ok(())
    }

    // The number of the line that gets the reply at a place, or of the last one.
    fn number_at(&self, place: usize) -> usize {
        let last = self.numbers.last().copied().unwrap_or(0);
        self.numbers.get(place).copied().unwrap_or(last)
    }

    // The first reply that differs.
    fn first_mismatch(&self, alloc: Global, given: &str) -> Mismatch {
        for (place, (want, give)) in self.replies.lines().zip(given.lines()).enumerate() {
            if want != give {
                return mismatch_at(alloc, self.number_at(place), want, give);
            }
        }
        let count = given.lines().count();
        mismatch_at(
            alloc,
            self.number_at(count),
            "as many replies",
            "more or fewer",
        )
    }

    fn compare(&self, alloc: Global, given: &[u8]) -> Result<(), Mismatch> {
        if given == self.replies.as_bytes() {
            return Ok(());
        }
        let given = String::from_utf8_lossy(alloc, given)?;
        Err(self.first_mismatch(alloc, given.as_str()))
    }
}

/// Where a case is played.
#[derive(Drop)]
pub(crate) struct Bench<S: Subject> {
    alloc: Global,
    frames: usize,
    fuse: Fuse,
    /// Whether it is looked at whether all is as it must be.
    is_judged: bool,
    /// The session, while the file is open.
    session: Option<S>,
    /// The file, while it isn't open.
    file: Option<File>,
    sides: Sides,
    /// The bytes of the file when it was opened last.
    opened: Vec<u8>,
    pending: Pending,
    /// What was begun and hasn't ended. The lines that aren't said yet are its script.
    stream: Option<Stream>,
    seen: Seen,
}

// How a fault is told.
fn refusal(alloc: Global, fault: Fault) -> Result<String, AllocError> {
    let (number, name) = (fault.number(), fault.name());
    format!(in alloc; "no {number} {name}")
}

impl<S: Subject> Bench<S> {
    /// With no file and no session.
    pub(crate) fn new(alloc: Global, frames: usize, fuse: Fuse, is_judged: bool) -> Bench<S> {
        Bench {
            alloc,
            frames,
            fuse,
            is_judged,
            session: None,
            file: None,
            sides: Sides {
                target: None,
                former: None,
            },
            opened: Vec::new(alloc),
            pending: no_lines(alloc),
            stream: None,
            seen: Seen::nothing(alloc),
        }
    }

    // A store that fails as this side's does.
    fn fused(&self, side: Side, store: MemStore) -> File {
        let fuse = if self.fuse.side == side {
            self.fuse
        } else {
            NO_FUSE
        };
        FuseStore::new(store, fuse.passes, fuse.all)
    }

    /// Begins a session on a new file, in the store of the one that there is or in a new one.
    pub(crate) fn create(&mut self, number: usize) -> Result<(), Mismatch> {
        let store = match self.file.take() {
            Some(file) => file,
            None => self.fused(Side::File, MemStore::new(self.alloc)),
        };
        match S::begin(self.alloc, store, self.frames, true) {
            Ok(session) => {
                self.session = Some(session);
                Ok(())
            }
            Err((fault, file)) => {
                self.file = Some(file);
                let given = refusal(self.alloc, fault)?;
                Err(mismatch_at(self.alloc, number, "a new file", &given))
            }
        }
    }

    // Fails where a line that is judged isn't as it must be.
    fn expect(
        &self,
        number: usize,
        holds: bool,
        wanted: &str,
        given: &str,
    ) -> Result<(), Mismatch> {
        expect(self.alloc, number, holds || !self.is_judged, wanted, given)
    }

    // There is no file that isn't open.
    fn no_file(&self, number: usize) -> Mismatch {
        mismatch_at(self.alloc, number, "a file that isn't open", "none")
    }

    // There is no session.
    fn no_session(&self, number: usize) -> Mismatch {
        mismatch_at(self.alloc, number, "a file that is open", "none")
    }

    /// The replies to a script; none where no file is open.
    pub(crate) fn answered(&mut self, script: &str) -> Result<Vec<u8>, Mismatch> {
        let mut given = Vec::new(self.alloc);
        let Some(session) = &mut self.session else {
            return Ok(given);
        };
        session.answer(self.alloc, &mut self.sides, script.as_bytes(), &mut given)?;
        Ok(given)
    }

    /// Says the lines that aren't said yet.
    pub(crate) fn say(&mut self) -> Result<(), Mismatch> {
        let lines = mem::replace(&mut self.pending, no_lines(self.alloc));
        if self.stream.is_some() {
            return Err(self.no_end(lines.number_at(0)));
        }
        if lines.script.is_empty() {
            return Ok(());
        }
        if self.session.is_none() {
            return Err(self.no_session(lines.number_at(0)));
        }
        let given = self.answered(&lines.script)?;
        if self.is_judged {
            return lines.compare(self.alloc, &given);
        }
        Ok(())
    }

    fn open(&mut self, number: usize, wanted: &str) -> Result<(), Mismatch> {
        self.opened = self.closed_file(number)?.bytes().to_vec(self.alloc)?;
        let Some(file) = self.file.take() else {
            return Err(self.no_file(number));
        };
        match S::begin(self.alloc, file, self.frames, false) {
            Ok(session) => {
                self.session = Some(session);
                self.expect(number, wanted.is_empty(), wanted, "a document")
            }
            Err((fault, file)) => {
                self.file = Some(file);
                let given = refusal(self.alloc, fault)?;
                let is_wanted = given.as_str() == wanted;
                self.expect(number, is_wanted, wanted, &given)
            }
        }
    }

    fn close(&mut self, number: usize) -> Result<(), Mismatch> {
        match self.session.take() {
            Some(session) => {
                self.file = Some(session.close());
                Ok(())
            }
            None => Err(self.no_session(number)),
        }
    }

    // The file is another one.
    fn turn_to(&mut self, store: MemStore) {
        let file = self.fused(Side::File, store);
        self.file = Some(file);
    }

    // The file that a save-as has left is the one that there is.
    fn turn_back(&mut self, number: usize) -> Result<(), Mismatch> {
        match self.sides.former.take() {
            Some(former) => {
                self.file = Some(former);
                Ok(())
            }
            None => Err(mismatch_at(self.alloc, number, "a save-as", "none")),
        }
    }

    fn closed_file(&self, number: usize) -> Result<&MemStore, Mismatch> {
        match &self.file {
            Some(file) => Ok(file.inner()),
            None => Err(self.no_file(number)),
        }
    }

    // A crash comes over the file, whose store serves from then on.
    fn crash(&mut self, number: usize, keep: usize, fill: u8) -> Result<(), Mismatch> {
        let left = self.closed_file(number)?.crashed(keep, fill)?;
        self.file = Some(FuseStore::new(left, NO_FUSE.passes, NO_FUSE.all));
        Ok(())
    }

    // A file of so many zeros is there.
    fn give(&mut self, length: usize) -> Result<(), Mismatch> {
        let mut bytes = Vec::new(self.alloc);
        bytes.resize(length, 0)?;
        let store = MemStore::from_bytes(self.alloc, &bytes)?;
        self.turn_to(store);
        Ok(())
    }

    // Puts bytes into the file.
    fn put(&mut self, number: usize, at: usize, bytes: &[u8]) -> Result<(), Mismatch> {
        let mut all = self.closed_file(number)?.bytes().to_vec(self.alloc)?;
        let end = at.saturating_add(bytes.len());
        if end > all.len() || end - at != bytes.len() {
            return Err(mismatch_at(self.alloc, number, "a longer file", "a short one"));
        }
        all[at..end].copy_from_slice(bytes);
        let store = MemStore::from_bytes(self.alloc, &all)?;
        self.turn_to(store);
        Ok(())
    }

    // A save-as can make a file of these bytes.
    fn aim(&mut self, bytes: &[u8]) -> Result<(), Mismatch> {
        let store = MemStore::from_bytes(self.alloc, bytes)?;
        self.sides.target = Some(self.fused(Side::Target, store));
        Ok(())
    }

    // Looks whether a block is in memory.
    fn look_for(&self, number: usize, block: VmHandle, is_wanted: bool) -> Result<(), Mismatch> {
        let (wanted, given) = if is_wanted {
            ("in memory", "away")
        } else {
            ("away", "in memory")
        };
        match &self.session {
            Some(session) => {
                let holds = session.is_resident(block) == is_wanted;
                self.expect(number, holds, wanted, given)
            }
            None => Err(self.no_session(number)),
        }
    }

    // Looks at bytes of the file.
    fn look_at(&self, number: usize, at: usize, bytes: &[u8]) -> Result<(), Mismatch> {
        let file = self.closed_file(number)?.bytes();
        let there = file.get(at..at.saturating_add(bytes.len())).unwrap_or(&[]);
        let wanted = format!(in self.alloc; "{bytes:?}")?;
        let given = format!(in self.alloc; "{there:?}")?;
        self.expect(number, there == bytes, &wanted, &given)
    }

    // Looks whether the file has the bytes that it had when it was opened.
    fn look_for_change(&self, number: usize) -> Result<(), Mismatch> {
        let is_same = self.closed_file(number)?.bytes() == self.opened.as_slice();
        self.expect(number, is_same, "the bytes as they were", "others")
    }

    // Looks whether a crash now leaves the file as it is.
    fn look_for_crash(&self, number: usize) -> Result<(), Mismatch> {
        let file = self.closed_file(number)?;
        let left = file.crashed(0, 255)?;
        let is_same = left.bytes() == file.bytes();
        self.expect(number, is_same, "a file that is synced", "another one")
    }

    // Looks whether something is as it must be.
    fn look(&self, number: usize, action: &Action) -> Result<(), Mismatch> {
        match action {
            Action::Resident(block) => self.look_for(number, *block, true),
            Action::Away(block) => self.look_for(number, *block, false),
            Action::Has(at, bytes) => self.look_at(number, *at, bytes),
            Action::Unchanged => self.look_for_change(number),
            Action::Synced => self.look_for_crash(number),
            Action::Look(look) => self.look_behind(number, look),
            _ => Ok(()),
        }
    }

    // Takes a step that belongs to what was begun, if it is one.
    fn take_streamed(&mut self, number: usize, action: &Action) -> Result<bool, Mismatch> {
        match action {
            Action::Say(line) => self.pending.put(number, line)?,
            Action::Stream(step) => self.stream_on(number, step)?,
            Action::Ends(wanted) => self.end(number, wanted)?,
            _ => return Ok(false),
        }
        Ok(true)
    }

    /// Takes a step.
    pub(crate) fn take(&mut self, number: usize, action: &Action) -> Result<(), Mismatch> {
        if self.take_streamed(number, action)? {
            return Ok(());
        }
        self.say()?;
        match action {
            Action::New => self.create(number),
            Action::Begin(beginning) => self.begin(beginning),
            Action::Closed => self.turn_to_closed(number),
            Action::File(length) => self.give(*length),
            Action::Put(at, bytes) => self.put(number, *at, bytes),
            Action::Open(wanted) => self.open(number, wanted),
            Action::Close => self.close(number),
            Action::Target(bytes) => self.aim(bytes),
            Action::Former => self.turn_back(number),
            Action::Crash(keep, fill) => self.crash(number, *keep, *fill),
            _ => self.look(number, action),
        }
    }

    // Takes a step, and says it if it is a line.
    fn take_now(&mut self, step: &Step) -> Result<(), Mismatch> {
        self.take(step.number, &step.action)?;
        self.say()
    }

    /// Takes a step. Whether it is refused, since a call of a store failed in it.
    pub(crate) fn is_refused(&mut self, step: &Step) -> Result<bool, Mismatch> {
        let Err(mismatch) = self.take_now(step) else {
            return Ok(false);
        };
        if mismatch.is_of_store() {
            return Ok(true);
        }
        Err(mismatch)
    }

    /// Closes the file that is open, if one is. Gives how many calls the file's store has had, and the target's.
    pub(crate) fn calls(&mut self) -> (u64, u64) {
        if let Some(session) = self.session.take() {
            self.file = Some(session.close());
        }
        let here = calls_of(&self.file);
        match &self.sides.former {
            Some(former) => (former.calls(), here),
            None => (here, calls_of(&self.sides.target)),
        }
    }

    /// The file that is open, which is closed, or the one that isn't.
    pub(crate) fn left(&mut self) -> Option<File> {
        match self.session.take() {
            Some(session) => Some(session.close()),
            None => self.file.take(),
        }
    }

    /// With no file and no session, and so a store may fail.
    pub(crate) fn begin_anew(&mut self, fuse: Fuse) {
        *self = Bench::new(self.alloc, self.frames, fuse, self.is_judged);
    }

    /// What a file stands for: what its updated document answers to these questions, and then its saved one; or how it
    /// is refused.
    pub(crate) fn documents_of(
        &mut self,
        file: MemStore,
        questions: &str,
    ) -> Result<Vec<u8>, Mismatch> {
        self.begin_anew(NO_FUSE);
        self.turn_to(file);
        if let Err(mismatch) = self.open(0, "") {
            return mismatch.given();
        }
        let mut documents = self.answered(questions)?;
        self.answered("revert\n")?;
        let saved = self.answered(questions)?;
        documents.extend_from_slice(&saved)?;
        Ok(documents)
    }
}

fn calls_of(store: &Option<File>) -> u64 {
    match store {
        Some(store) => store.calls(),
        None => 0,
    }
}
