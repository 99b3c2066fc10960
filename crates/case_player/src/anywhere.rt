//! A case that is played once for each place where something can fail: a call of the file or of the target, once or for
//! good, and a read, a write or a flush of a run.
use crate::bench::{Bench, Fuse, NO_FUSE};
use crate::mismatch::{Mismatch, expect, mismatch_at};
use crate::streams::{STRONG, Strength};
use crate::subject::Subject;
use case_files::{Action, Case, Side, Step};
use std::alloc::Global;
use test_stores::MemStore;

/// What there is behind some first steps: what the session answers to the questions, and what its file stands for.
#[derive(Drop)]
struct Behind {
    state: Vec<u8>,
    documents: Vec<u8>,
}

/// A case that is played again and again.
#[derive(Drop)]
struct Play<'a, S: Subject> {
    alloc: Global,
    case: &'a Case,
    bench: Bench<S>,
    /// What there is behind so many steps where nothing fails, for each number of them.
    behind: Vec<Behind>,
    /// How many calls the file and the target have then.
    of_file: u64,
    of_target: u64,
}

/// Which call of a reader or of a writer fails.
#[derive(Clone, Copy)]
enum Call {
    Read,
    Write,
    Flush,
}

/// Which call fails, of what reader and writer: how many bytes a read gives at most, and a write takes.
const CUTS: [(Call, usize, usize); 6] = [
    (Call::Read, 1, usize::MAX),
    (Call::Read, 7, usize::MAX),
    (Call::Read, 100, usize::MAX),
    (Call::Write, 20, usize::MAX),
    (Call::Write, 20, 3),
    (Call::Flush, 20, usize::MAX),
];

// More calls of a reader or of a writer than a run makes.
const MANY_CALLS: usize = 10_000;

// More writes than there are between two syncs.
const MANY_WRITES: usize = 100;

// What stands where a write is lost.
const FILLS: [u8; 3] = [0, 1, 255];

// How much a reader and a writer can do, of whose calls so many serve.
fn strength_of(cut: (Call, usize, usize), serving: usize) -> Strength {
    let (call, reads, takes) = cut;
    let strong = Strength {
        reads,
        takes,
        ..STRONG
    };
    match call {
        Call::Read => Strength {
            serves: serving,
            ..strong
        },
        Call::Write => Strength {
            writes: serving,
            ..strong
        },
        Call::Flush => Strength {
            flushes: serving,
            ..strong
        },
    }
}

impl<S: Subject> Play<'_, S> {
    // Something isn't as it must be.
    fn mismatch(&self, place: usize, wanted: &str, given: &str) -> Mismatch {
        let number = match self.case.steps.get(place) {
            Some(step) => step.number,
            None => 0,
        };
        mismatch_at(self.alloc, number, wanted, given)
    }

    // Takes the first steps, so many, where nothing fails. The last lines of a script may not be said yet.
    fn take(&mut self, count: usize) -> Result<(), Mismatch> {
        self.bench.begin_anew(NO_FUSE);
        let case = self.case;
        for step in case.steps.iter().take(count) {
            self.bench.take(step.number, &step.action)?;
        }
        Ok(())
    }

    // Looks how many calls there are behind so many steps. The target isn't known any more where the old file is open
    // again.
    fn count_calls(&mut self, count: usize) -> Result<(), Mismatch> {
        self.take(count)?;
        self.bench.say()?;
        let (of_file, of_target) = self.bench.calls();
        self.of_file = self.of_file.max(of_file);
        self.of_target = self.of_target.max(of_target);
        Ok(())
    }

    // What the file stands for that there is now.
    fn documents(&mut self) -> Result<Vec<u8>, Mismatch> {
        let Some(file) = self.bench.left() else {
            return Ok(Vec::new(self.alloc));
        };
        let store = MemStore::from_bytes(self.alloc, file.inner().bytes())?;
        let case = self.case;
        self.bench.documents_of(store, &case.questions)
    }

    // What there is now.
    fn behind(&mut self) -> Result<Behind, Mismatch> {
        let case = self.case;
        let state = self.bench.answered(&case.questions)?;
        let documents = self.documents()?;
        Ok(Behind { state, documents })
    }

    // Goes through the case where nothing fails, and takes down what there is behind each step.
    fn go_through(&mut self) -> Result<(), Mismatch> {
        for count in 0..=self.case.steps.len() {
            self.count_calls(count)?;
            self.take(count)?;
            self.bench.say()?;
            let behind = self.behind()?;
            self.behind.push(behind)?;
        }
        Ok(())
    }

    // Whether the session shows what it shows behind so many steps where nothing fails.
    fn expect_state(&mut self, place: usize) -> Result<(), Mismatch> {
        let case = self.case;
        let state = self.bench.answered(&case.questions)?;
        match self.behind.get(place) {
            Some(behind) if behind.state == state => Ok(()),
            _ => Err(self.mismatch(place, "the session as it was", "another one")),
        }
    }

    // Whether a file stands for what it does behind so many steps.
    fn is_document(&self, place: usize, documents: &[u8]) -> bool {
        match self.behind.get(place) {
            Some(behind) => behind.documents.as_slice() == documents,
            None => false,
        }
    }

    // Takes a step, and once more where it is refused: that has changed nothing. Whether it was.
    fn take_again(&mut self, place: usize, step: &Step) -> Result<bool, Mismatch> {
        if !self.bench.is_refused(step)? {
            return Ok(false);
        }
        self.expect_state(place)?;
        if self.bench.is_refused(step)? {
            return Err(self.mismatch(place, "one refusal", "another one"));
        }
        Ok(true)
    }

    // Plays the case while a call of a store fails once. One step is refused for that.
    fn fail_once(&mut self, fuse: Fuse) -> Result<(), Mismatch> {
        self.bench.begin_anew(fuse);
        let case = self.case;
        let mut refusals = 0_usize;
        for (place, step) in case.steps.iter().enumerate() {
            if self.take_again(place, step)? {
                refusals = refusals.saturating_add(1);
            }
        }
        expect(self.alloc, 0, refusals == 1, "one refusal", "none or more")
    }

    // Takes steps up to the one that is refused. Gives how many were taken before.
    fn take_until_refused(&mut self, fuse: Fuse) -> Result<usize, Mismatch> {
        self.bench.begin_anew(fuse);
        let case = self.case;
        for (place, step) in case.steps.iter().enumerate() {
            if self.bench.is_refused(step)? {
                return Ok(place);
            }
        }
        Err(mismatch_at(self.alloc, 0, "a refusal", "none"))
    }

    // What a crash leaves stands for what was acknowledged before a step, or for what this step would have committed.
    fn expect_left(&mut self, place: usize, left: MemStore) -> Result<(), Mismatch> {
        let case = self.case;
        let documents = self.bench.documents_of(left, &case.questions)?;
        if self.is_document(place, &documents)
            || self.is_document(place.saturating_add(1), &documents)
        {
            return Ok(());
        }
        Err(self.mismatch(place, "a document that was committed", "another one"))
    }

    // Looks at what crashes leave that keep so many of the writes, but for the file as it is. Whether that is what they
    // leave.
    fn crash_to(&mut self, place: usize, file: &MemStore, keep: usize) -> Result<bool, Mismatch> {
        let mut are_all = true;
        for fill in FILLS {
            let left = file.crashed(keep, fill)?;
            if left.bytes() != file.bytes() {
                are_all = false;
                self.expect_left(place, left)?;
            }
        }
        Ok(are_all)
    }

    // Looks at what each crash leaves, and at the file as it is.
    fn crash_each(&mut self, place: usize, file: &MemStore) -> Result<(), Mismatch> {
        self.expect_left(place, MemStore::from_bytes(self.alloc, file.bytes())?)?;
        for keep in 0..MANY_WRITES {
            if self.crash_to(place, file, keep)? {
                return Ok(());
            }
        }
        Err(self.mismatch(place, "a crash that keeps all writes", "none"))
    }

    // Takes steps while all calls of a store fail from one on, up to the first that is refused. Then comes each crash,
    // if there was a document before.
    fn fail_for_good(&mut self, fuse: Fuse) -> Result<(), Mismatch> {
        let place = self.take_until_refused(fuse)?;
        match self.bench.left() {
            Some(file) if place > 0 => self.crash_each(place, file.inner()),
            _ => Ok(()),
        }
    }

    // Has a call of a store fail once, and all from it on.
    fn fail_at(&mut self, side: Side, passes: u64) -> Result<(), Mismatch> {
        let all = false;
        self.fail_once(Fuse { side, passes, all })?;
        let all = true;
        self.fail_for_good(Fuse { side, passes, all })
    }

    // Has each call of the file fail, and each of the target.
    fn fail_each(&mut self) -> Result<(), Mismatch> {
        for passes in 0..self.of_file {
            self.fail_at(Side::File, passes)?;
        }
        for passes in 0..self.of_target {
            self.fail_at(Side::Target, passes)?;
        }
        Ok(())
    }

    // How many steps come before the first line of the script.
    fn first_line(&self) -> usize {
        for (place, step) in self.case.steps.iter().enumerate() {
            if matches!(step.action, Action::Say(_)) {
                return place;
            }
        }
        0
    }

    // How many steps come before the first one that is no line of the script, from a place on.
    fn last_line(&self, first: usize) -> usize {
        for (place, step) in self.case.steps.iter().enumerate().skip(first) {
            if !matches!(step.action, Action::Say(_)) {
                return place;
            }
        }
        self.case.steps.len()
    }

    // Has the first lines in a run. What is answered, and what there is behind it, is what the lines lead to that were
    // read. Whether the run ended well.
    fn run(&mut self, strength: Strength) -> Result<bool, Mismatch> {
        let first = self.first_line();
        self.take(self.last_line(first))?;
        let (count, is_well) = self.bench.cut(strength)?;
        let place = first.saturating_add(count);
        self.expect_state(place)?;
        let documents = self.documents()?;
        if self.is_document(place, &documents) {
            return Ok(is_well);
        }
        Err(self.mismatch(
            place,
            "the document of the lines that were read",
            "another one",
        ))
    }

    // Has each call of a reader or of a writer fail.
    fn cut_each(&mut self, cut: (Call, usize, usize)) -> Result<(), Mismatch> {
        for serving in 0..MANY_CALLS {
            if self.run(strength_of(cut, serving))? {
                return expect(self.alloc, 0, serving > 0, "a run that is cut", "none");
            }
        }
        Err(mismatch_at(self.alloc, 0, "a run that ends well", "none"))
    }

    fn cut_all(&mut self) -> Result<(), Mismatch> {
        for cut in CUTS {
            self.cut_each(cut)?;
        }
        Ok(())
    }

    fn play(&mut self) -> Result<(), Mismatch> {
        self.go_through()?;
        self.fail_each()?;
        self.cut_all()
    }
}

/// Plays a case once for each place where something can fail.
pub(crate) fn fail_anywhere<S: Subject>(
    alloc: Global,
    case: &Case,
    frames: usize,
) -> Result<(), Mismatch> {
    let mut play = Play {
        alloc,
        case,
        bench: Bench::<S>::new(alloc, frames, NO_FUSE, true),
        behind: Vec::new(alloc),
        of_file: 0,
        of_target: 0,
    };
    play.play()
}
