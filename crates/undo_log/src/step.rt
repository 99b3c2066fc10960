//! A step of the log, as it is lent.
ghost use Rattle.std.specs.Prelude.{◌≡◌, ◌≢◌, ◌<◌, ◌^◌, ◌++◌, [], length, reverse, take, IfErr, IfOk};
ghost use Rattle.chunk_edits.specs.declared.direction.Direction.TheVariants.{Forwards};
ghost use Rattle.packed_log.specs.Lent.{record_of};
ghost use Rattle.packed_log.specs.Records.{bytes_of};
ghost use Rattle.undo_log.specs.Steps.{IsCounted, entry_of, step_entry};
ghost use Rattle.undo_log.specs.Telling.{all_places, changes_in};

use crate::entry::NamedEntry;
use crate::head::Head;
use crate::touched::{tell_made, tell_newest, tell_next};
use geos_model::Place;
use packed_log::LentRecord;
use std::alloc::AllocError;
use vm_blocks::{ByteChange, Direction};

/// A step: the one change of a short one, which has no name, or what is kept of a whole one.
#[derive(Clone, Copy)]
pub enum Step<'a> {
    Bytes(ByteChange<'a>),
    Entry(&'a NamedEntry),
}

impl<'a> Step<'a> {
    /// The step that a record of the log is.
    #[inline(always)]
    pub(crate) fn of(lent: LentRecord<'a, Head, NamedEntry>) -> Step<'a>
        requires { length (bytes_of (record_of lent)) < 2 ^ 16 }
        ensures entry { step_entry result ≡ entry_of (record_of lent.entry) }
        ensures counted { IsCounted result }
    {
        match lent {
            LentRecord::Short(head, bytes) => Step::Bytes(head.change(bytes)),
            LentRecord::Whole(entry) => Step::Entry(entry),
        }
    }

    /// Its name; no bytes where it has none.
    pub(crate) fn name(self) -> &'a [u8]
        ensures { result.now ≡ (step_entry self.entry).name }
    {
        match self {
            Step::Bytes(_) => &[],
            Step::Entry(entry) => entry.name(),
        }
    }

    /// How many changes it has.
    pub(crate) fn len(self) -> usize
        ensures { result ≡ length (changes_in (step_entry self.entry).entry) }
    {
        match self {
            Step::Bytes(_) => 1,
            Step::Entry(entry) => entry.len(),
        }
    }

    /// Tells the places of its changes, which were made in a direction, the last one first.
    pub(crate) fn tell_made(
        self,
        direction: Direction,
        places: &mut Vec<Place>,
    ) -> Result<(), AllocError>
        requires { IsCounted self }
        ensures ok { IfOk result (λ _. places.new.items
            ≡ places.old.items ++ all_places direction (reverse (changes_in (step_entry self.entry).entry))) }
        ensures err { IfErr result
            (λ _. all_places direction (reverse (changes_in (step_entry self.entry).entry)) ≢ []) }
    {
        match self {
            Step::Bytes(change) => change.append_places(direction, places),
            Step::Entry(entry) => tell_made(entry.as_slice(), direction, places),
        }
    }

    /// Tells those of its changes, which are made in a direction next, the first one first.
    pub(crate) fn tell_next(
        self,
        direction: Direction,
        places: &mut Vec<Place>,
    ) -> Result<(), AllocError>
        requires { IsCounted self }
        ensures ok { IfOk result (λ _. places.new.items
            ≡ places.old.items ++ all_places direction (changes_in (step_entry self.entry).entry)) }
        ensures err { IfErr result (λ _. all_places direction (changes_in (step_entry self.entry).entry) ≢ []) }
    {
        match self {
            Step::Bytes(change) => change.append_places(direction, places),
            Step::Entry(entry) => tell_next(entry.as_slice(), direction, places),
        }
    }

    /// Tells those of so many of its newest changes, the newest one last.
    pub(crate) fn tell_newest(self, count: usize, places: &mut Vec<Place>) -> Result<(), AllocError>
        requires { IsCounted self }
        ensures ok { IfOk result (λ _. places.new.items ≡ places.old.items
            ++ all_places Forwards (reverse (take count (changes_in (step_entry self.entry).entry)))) }
        ensures err { IfErr result
            (λ _. all_places Forwards (reverse (take count (changes_in (step_entry self.entry).entry))) ≢ []) }
    {
        match self {
            Step::Bytes(change) if count > 0 => change.append_places(Direction::Forwards, places),
            Step::Bytes(_) => Ok(()),
            Step::Entry(entry) => tell_newest(entry.as_slice(), count, places),
        }
    }
}
