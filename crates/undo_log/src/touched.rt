//! Where the document was changed last, and what tells it.
ghost use Rattle.std.specs.Prelude.{◌≡◌, ◌≢◌, ◌++◌, [], IfErr, IfOk, reverse, take};
ghost use Rattle.chunk_edits.specs.declared.direction.Direction.TheVariants.{Forwards};
ghost use Rattle.undo_log.specs.Telling.{all_places, clipped};
ghost use Rattle.undo_log.specs.Steps.{KeepsNewest};
ghost use Rattle.undo_log.specs.declared.touched.Touched.TheVariants.{Newest, Undone};

use crate::entry::{Changes, NamedEntry};
use crate::kept_steps::KeptSteps;
use geos_model::Place;
use std::alloc::{AllocError, Global};
use vm_blocks::{Change, Direction};

/// From what it is read where the document was changed last: no place is kept beside the changes.
#[derive(Drop)]
pub enum Touched {
    /// Nothing was changed since the session began.
    Nothing,
    /// Anything may have been, by a revert.
    All,
    /// By so many of the newest changes: of the open group or, where it has none, of the newest entry.
    Newest(usize),
    /// By the next entry to be made again, which was undone.
    Undone,
    /// Just there, by a short step that was forgotten since.
    At(Place),
    /// By the changes of an entry that was forgotten since, or the newest of them.
    Forgotten(NamedEntry),
    /// By changes that were taken back with their group.
    Abandoned(Changes),
}

impl Touched {
    /// So many of the newest changes are told. Where some were told before, as from edit to edit, nothing has to be
    /// given back.
    #[inline(always)]
    pub(crate) fn be_newest(&mut self, count: usize)
        ensures { self.new ≡ Newest count }
    {
        match self {
            Touched::Newest(told) => *told = count,
            _ => self.put(Touched::Newest(count)),
        }
    }

    /// The entry that was undone last is told.
    #[inline(always)]
    pub(crate) fn be_undone(&mut self)
        ensures { self.new ≡ Undone }
    {
        match self {
            Touched::Undone => {}
            _ => self.put(Touched::Undone),
        }
    }

    // Something else is told. Never inlined, since what was told before may have to be given back.
    #[inline(never)]
    fn put(&mut self, other: Touched)
        ensures { self.new ≡ other }
    {
        *self = other;
    }

    /// The newest step is about to be forgotten, and where it may be told of, it is kept if it is.
    pub(crate) fn keep_newest(&mut self, alloc: Global, steps: &mut KeptSteps, is_told: bool)
        ensures { KeepsNewest is_told self.old self.new steps.old steps.new }
    {
        if !is_told {
            return;
        }
        if let Touched::Newest(count) = self {
            let count = *count;
            *self = steps.take_told(alloc, count);
        }
    }

    /// No more than so many of the newest changes: those behind them became changes of the same entry.
    pub(crate) fn at_most(&mut self, most: usize)
        ensures { self.new ≡ clipped most self.old }
    {
        if let Touched::Newest(count) = self {
            *count = (*count).min(most);
        }
    }
}

/// Tells the places of changes that were made in a direction, the first one first.
pub fn tell_made(
    changes: &[Change],
    direction: Direction,
    places: &mut Vec<Place>,
) -> Result<(), AllocError>
    ensures ok { IfOk result (λ _. places.new.items ≡ places.old.items ++ all_places direction changes.now) }
    ensures err { IfErr result (λ _. all_places direction changes.now ≢ []) }
{
    for change in changes.iter() {
        change.append_places(direction, places)?;
    }
    Ok(())
}

/// Tells those of changes that are made in a direction next, the last one first.
pub fn tell_next(
    changes: &[Change],
    direction: Direction,
    places: &mut Vec<Place>,
) -> Result<(), AllocError>
    ensures ok { IfOk result (λ _. places.new.items ≡ places.old.items ++ all_places direction (reverse changes.now)) }
    ensures err { IfErr result (λ _. all_places direction (reverse changes.now) ≢ []) }
{
    for change in changes.iter().rev() {
        change.append_places(direction, places)?;
    }
    Ok(())
}

/// Tells those of so many of the newest of changes that were made, the newest one last.
pub fn tell_newest(
    changes: &[Change],
    count: usize,
    places: &mut Vec<Place>,
) -> Result<(), AllocError>
    ensures ok { IfOk result (λ _. places.new.items
        ≡ places.old.items ++ all_places Forwards (reverse (take count (reverse changes.now)))) }
    ensures err { IfErr result (λ _. all_places Forwards (reverse (take count (reverse changes.now))) ≢ []) }
{
    let first = changes.len().saturating_sub(count);
    tell_made(&changes[first..], Direction::Forwards, places)
}
