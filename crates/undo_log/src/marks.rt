//! Where the committed documents stand among the entries of a log.
ghost use Rattle.std.specs.Prelude.{◌≡◌, ◌≤◌, IfSome};
ghost use Rattle.undo_log.specs.Marks.{both_marks, mark_from, mark_joined, mark_lowered, mark_up_to};

/// How many entries lie before each of them; None where no steps lead to it any more.
#[derive(Drop)]
pub struct Marks {
    pub updated: Option<usize>,
    pub saved: Option<usize>,
}

impl Marks {
    /// The entries behind a place are gone.
    pub(crate) fn cut_behind(&mut self, last: usize)
        ensures { self.new ≡ both_marks (mark_up_to last) self.old }
    {
        self.updated = up_to(self.updated, last);
        self.saved = up_to(self.saved, last);
    }

    /// The entries before a place are forgotten.
    pub(crate) fn cut_before(&mut self, first: usize)
        ensures { self.new ≡ both_marks (mark_from first) self.old }
    {
        self.updated = from(self.updated, first);
        self.saved = from(self.saved, first);
    }

    /// The entries before and behind a place became one.
    pub(crate) fn join_at(&mut self, place: usize)
        ensures { self.new ≡ both_marks (mark_joined place) self.old }
    {
        self.updated = joined(self.updated, place);
        self.saved = joined(self.saved, place);
    }

    /// So many entries in front, with no mark among them, aren't counted any more.
    pub(crate) fn lower(&mut self, count: usize)
        requires updated { IfSome self.old.updated (λ at. count ≤ at) }
        requires saved { IfSome self.old.saved (λ at. count ≤ at) }
        ensures { self.new ≡ both_marks (mark_lowered count) self.old }
    {
        self.updated = lowered(self.updated, count);
        self.saved = lowered(self.saved, count);
    }
}

fn up_to(mark: Option<usize>, last: usize) -> Option<usize>
    ensures { result ≡ mark_up_to last mark }
{
    match mark {
        Some(place) if place <= last => mark,
        _ => None,
    }
}

fn from(mark: Option<usize>, first: usize) -> Option<usize>
    ensures { result ≡ mark_from first mark }
{
    match mark {
        Some(place) if first <= place => mark,
        _ => None,
    }
}

fn joined(mark: Option<usize>, place: usize) -> Option<usize>
    ensures { result ≡ mark_joined place mark }
{
    match mark {
        Some(at) if place < at => Some(at - 1),
        Some(at) if place == at => None,
        _ => mark,
    }
}

fn lowered(mark: Option<usize>, count: usize) -> Option<usize>
    requires { IfSome mark (λ at. count ≤ at) }
    ensures { result ≡ mark_lowered count mark }
{
    match mark {
        Some(at) => Some(at - count),
        None => None,
    }
}
