//! Which neighbours of a run an edit looks at and joins, by what pieces weigh.
ghost use Rattle.std.specs.Prelude.{◌≡◌};
ghost use Rattle.large_bodies.specs.Neighbours.{are_joined_by, last_weight, left_joins_by, looks_left_by, looks_right_by, right_joins_by};

use crate::piece::JOIN_ROOM;

/// How many pieces come in a run's place, and what the first of them and the last weigh, 0 where there is none.
#[derive(Clone, Copy, Debug, PartialEq, Eq)]
pub struct MiddleEnds {
    pub pieces: usize,
    pub first: usize,
    pub last: usize,
}

/// A fact of the left neighbour of a run, and of the right one.
#[derive(Clone, Copy, Debug, PartialEq, Eq)]
pub struct Sides {
    pub left: bool,
    pub right: bool,
}

/// Which of the neighbours that there are is looked at where sizes vary: one that may be joined by what the piece
/// beside it weighs.
pub fn looked_at_sides(there: Sides, middle: MiddleEnds) -> Sides
    ensures left { result.left ≡ looks_left_by there.left there.right middle }
    ensures right { result.right ≡ looks_right_by there.left there.right middle }
{
    if middle.pieces == 0 {
        let both = there.left && there.right;
        return Sides {
            left: both,
            right: both,
        };
    }
    Sides {
        left: there.left && middle.first <= JOIN_ROOM,
        right: there.right && middle.last <= JOIN_ROOM,
    }
}

/// Which neighbours are joined, by what they weigh. That of one that isn't there, or that isn't looked at where sizes
/// vary, is left out.
pub fn joined_sides(left: Option<usize>, right: Option<usize>, middle: MiddleEnds) -> Sides
    ensures left { result.left ≡ left_joins_by left right middle }
    ensures right { result.right ≡ right_joins_by left right middle }
{
    if middle.pieces == 0 {
        let both = are_joined(left, right);
        return Sides {
            left: both,
            right: both,
        };
    }
    let joins_left = are_joined(left, Some(middle.first));
    let before = if middle.pieces == 1 && joins_left {
        left.unwrap_or(0).saturating_add(middle.last)
    } else {
        middle.last
    };
    Sides {
        left: joins_left,
        right: are_joined(Some(before), right),
    }
}

/// Whether two neighbours are joined, by what they weigh.
fn are_joined(first: Option<usize>, second: Option<usize>) -> bool
    ensures { result ≡ are_joined_by first second }
{
    match (first, second) {
        (Some(first), Some(second)) => first.saturating_add(second) <= JOIN_ROOM,
        _ => false,
    }
}
