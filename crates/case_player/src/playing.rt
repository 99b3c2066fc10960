//! How a case is played: once with each number of frames, or once for each call of a store that is to fail.
use crate::anywhere::fail_anywhere;
use crate::bench::{Bench, Fuse, NO_FUSE};
use crate::mismatch::{Mismatch, expect, mismatch_at};
use crate::subject::Subject;
use case_files::{Action, Beginning, Case, Failing, Side};
use std::alloc::Global;
use std::ops::Range;

/// A case that is played with some number of frames.
#[derive(Clone, Copy)]
struct Play<'a> {
    alloc: Global,
    case: &'a Case,
    frames: usize,
}

impl Play<'_> {
    // Whether the case begins on a file that it gives.
    fn is_given(self) -> bool {
        match self
            .case
            .steps
            .iter()
            .find(|step| !matches!(step.action, Action::Say(_)))
        {
            Some(step) => matches!(
                step.action,
                Action::New | Action::File(_) | Action::Begin(Beginning::Program(_))
            ),
            None => false,
        }
    }

    // Takes the first steps, so many.
    fn take_steps<S: Subject>(self, bench: &mut Bench<S>, count: usize) -> Result<(), Mismatch> {
        if !self.is_given() {
            bench.create(1)?;
        }
        for step in self.case.steps.iter().take(count) {
            bench.take(step.number, &step.action)?;
        }
        bench.say()
    }

    // Takes the first steps, so many, while a call fails.
    fn run<S: Subject>(
        self,
        count: usize,
        fuse: Fuse,
        is_judged: bool,
    ) -> Result<Bench<S>, Mismatch> {
        let mut bench = Bench::<S>::new(self.alloc, self.frames, fuse, is_judged);
        match self.take_steps(&mut bench, count) {
            Ok(()) => Ok(bench),
            Err(mismatch) => Err(mismatch),
        }
    }

    // The calls of a store's side behind the first steps, so many.
    fn calls_behind<S: Subject>(
        self,
        count: usize,
        side: Side,
        fuse: Fuse,
    ) -> Result<u64, Mismatch> {
        let mut bench = self.run::<S>(count, fuse, false)?;
        let (file, target) = bench.calls();
        Ok(match side {
            Side::File => file,
            Side::Target => target,
        })
    }

    // Compares how many calls there were from the last count on, and counts anew. Gives where the next count begins.
    fn compare_calls<S: Subject>(
        self,
        place: usize,
        number: usize,
        wanted: u64,
        before: u64,
        fuse: Fuse,
    ) -> Result<u64, Mismatch> {
        let behind = self.calls_behind::<S>(place, Side::File, fuse)?;
        let calls = behind.saturating_sub(before);
        let text = format!(in self.alloc; "{wanted} calls")?;
        let given = format!(in self.alloc; "{calls}")?;
        expect(self.alloc, number, calls == wanted, &text, &given)?;
        Ok(behind)
    }

    // Compares each number of calls that is written down.
    fn compare_all_calls<S: Subject>(self, fuse: Fuse) -> Result<(), Mismatch> {
        let mut before = 0;
        for (place, step) in self.case.steps.iter().enumerate() {
            match step.action {
                Action::Count => before = self.calls_behind::<S>(place, Side::File, fuse)?,
                Action::Calls(wanted) => {
                    before = self.compare_calls::<S>(place, step.number, wanted, before, fuse)?;
                }
                _ => {}
            }
        }
        Ok(())
    }

    // Takes all steps, and compares all that is written down.
    fn play<S: Subject>(self, fuse: Fuse) -> Result<(), Mismatch> {
        self.run::<S>(self.case.steps.len(), fuse, true)?;
        self.compare_all_calls::<S>(fuse)
    }

    // The calls of a store that the line behind a place makes.
    fn calls_of_line<S: Subject>(
        self,
        place: usize,
        number: usize,
        side: Side,
    ) -> Result<Range<u64>, Mismatch> {
        let before = self.calls_behind::<S>(place, side, NO_FUSE)?;
        let behind = self.calls_behind::<S>(place.saturating_add(2), side, NO_FUSE)?;
        if before < behind {
            return Ok(before..behind);
        }
        Err(mismatch_at(self.alloc, number, "a line that calls the store", "none"))
    }

    // Plays the case once for each of those calls, in which this one fails.
    fn fail_each<S: Subject>(
        self,
        place: usize,
        number: usize,
        side: Side,
    ) -> Result<(), Mismatch> {
        for passes in self.calls_of_line::<S>(place, number, side)? {
            let all = false;
            self.play::<S>(Fuse { side, passes, all })?;
        }
        Ok(())
    }

    // Plays the case while one call of the file fails, or all from there on.
    fn fail_from<S: Subject>(self, passes: u64, all: bool) -> Result<(), Mismatch> {
        let side = Side::File;
        self.play::<S>(Fuse { side, passes, all })
    }

    // Plays the case while calls fail from a place on.
    fn fail<S: Subject>(
        self,
        place: usize,
        number: usize,
        failing: Failing,
    ) -> Result<(), Mismatch> {
        let file = Side::File;
        match failing {
            Failing::Next => {
                self.fail_from::<S>(self.calls_behind::<S>(place, file, NO_FUSE)?, false)
            }
            Failing::All => {
                self.fail_from::<S>(self.calls_behind::<S>(place, file, NO_FUSE)?, true)
            }
            Failing::Last => {
                let calls = self.calls_of_line::<S>(place, number, file)?;
                self.fail_from::<S>(calls.end.saturating_sub(1), false)
            }
            Failing::Each(side) => self.fail_each::<S>(place, number, side),
        }
    }

    fn begin<S: Subject>(self) -> Result<(), Mismatch> {
        if !self.case.questions.is_empty() {
            return fail_anywhere::<S>(self.alloc, self.case, self.frames);
        }
        for (place, step) in self.case.steps.iter().enumerate() {
            if let Action::Fail(failing) = step.action {
                return self.fail::<S>(place, step.number, failing);
            }
        }
        self.play::<S>(NO_FUSE)
    }
}

/// Plays a case with each of its numbers of frames, on sessions of this kind.
pub fn play_case<S: Subject>(alloc: Global, case: &Case) -> Result<(), Mismatch> {
    for frames in &case.frames {
        let play = Play {
            alloc,
            case,
            frames: *frames,
        };
        play.begin::<S>()?;
    }
    Ok(())
}
