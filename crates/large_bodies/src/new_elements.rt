//! Elements that come into a large array.
ghost use Rattle.std.specs.Prelude.{◌≡◌, ◌<◌, ◌≤◌, ◌+◌, [], None, Some, true, MatchResult, length, take, drop};
ghost use Rattle.std.specs.List.{flat_map};
ghost use Rattle.geos_model.specs.Refusal.{first_refusal};
ghost use Rattle.geos_model.specs.Pieces.{piece_weight, each_fits};
ghost use Rattle.geos_model.specs.LargeLayout.{greatest_element_size};
ghost use Rattle.geos_model.specs.LargeEdits.{cut_elements};
ghost use Rattle.large_bodies.specs.SizedElements.{have_size, new_conditions};

use crate::piece::BRANCH_ROOM;
use geos_model::Fault;
use std::marker::Model;

/// The elements that come by an edit, as bytes that lie one after another. Each fits into a branch. Contracts see them
/// with their size.
#[derive(Drop)]
pub struct NewElements<'a> {
    bytes: &'a [u8],
    /// How many bytes each has, 0 where sizes vary.
    size: usize,
    /// How many there are: one or none where sizes vary.
    count: usize,
}

impl<'a> Model for NewElements<'a> {
    ghost use Rattle.large_bodies.specs.SizedElements.{SizedElements};

    ghost Value = { SizedElements };

    ghost use Rattle.large_bodies.specs.NewElementsViewing.{seen_elements, HasNewElements};

    ghost view = { seen_elements };

    ghost invariant = { HasNewElements };
}

impl<'a> NewElements<'a> {
    /// None, as a deletion has.
    pub fn none(size: usize) -> NewElements<'a>
        ensures { result ≡ record { size = size; elements = [] } }
    {
        NewElements {
            bytes: &[],
            size,
            count: 0,
        }
    }

    /// The elements that bytes are: one where sizes vary, else as many as there are of this size. Range where they are
    /// no whole number; TooBig where they are one element for which no branch has room.
    pub fn new(bytes: &'a [u8], size: usize) -> Result<NewElements<'a>, Fault>
        requires { size ≤ greatest_element_size }
        ensures { MatchResult result
            (λ new. (first_refusal (new_conditions size bytes.now) ≡ None) ×
            (new ≡ record { size = size; elements = cut_elements size bytes.now }))
            (λ fault. first_refusal (new_conditions size bytes.now) ≡ Some fault) }
    {
        if size == 0 {
            if bytes.len() > BRANCH_ROOM - 2 {
                return Err(Fault::TooBig);
            }
            return Ok(NewElements {
                bytes,
                size,
                count: 1,
            });
        }
        if bytes.len() % size != 0 {
            return Err(Fault::Range);
        }
        Ok(NewElements {
            bytes,
            size,
            count: bytes.len() / size,
        })
    }

    /// How many bytes each has, 0 where sizes vary.
    pub fn element_size(&self) -> usize
        ensures { result ≡ self.now.size }
    {
        self.size
    }

    /// How many there are.
    pub fn count(&self) -> usize
        ensures value { result ≡ length self.now.elements }
        ensures fits { each_fits self.now.size self.now.elements ≡ true }
        ensures sized { have_size self.now.size self.now.elements ≡ true }
    {
        self.count
    }

    /// Their bytes, one after another.
    pub fn bytes(&self) -> &'a [u8]
        ensures value { result.now ≡ flat_map (λ x. x) self.now.elements }
        ensures one { self.now.size ≡ 0 → length self.now.elements ≤ 1 }
        ensures sized { have_size self.now.size self.now.elements ≡ true }
    {
        self.bytes
    }

    /// How many of them, from the first on, weigh so much or less together.
    pub fn fitting(&self, room: usize) -> usize
        ensures within { result ≤ length self.now.elements }
        ensures fits { piece_weight self.now.size (take result self.now.elements) ≤ room }
        ensures most { result < length self.now.elements →
            room < piece_weight self.now.size (take (result + 1) self.now.elements) }
    {
        if self.size != 0 {
            return self.count.min(room / self.size);
        }
        if self.count != 0 && self.bytes.len() + 2 <= room {
            self.count
        } else {
            0
        }
    }

    /// The first `k`, and the others.
    pub fn split_at(&self, k: usize) -> (NewElements<'a>, NewElements<'a>)
        requires { k ≤ length self.now.elements }
        ensures first { result.0 ≡ record { size = self.now.size; elements = take k self.now.elements } }
        ensures rest { result.1 ≡ record { size = self.now.size; elements = drop k self.now.elements } }
    {
        let (first, rest) = self.bytes.split_at(self.end(k));
        let size = self.size;
        (
            NewElements {
                bytes: first,
                size,
                count: k,
            },
            NewElements {
                bytes: rest,
                size,
                count: self.count - k,
            },
        )
    }

    /// How many bytes the first `k` have.
    fn end(&self, k: usize) -> usize
        requires { k ≤ length self.now.elements }
        ensures { result ≡ length (flat_map (λ x. x) (take k self.now.elements)) }
    {
        if self.size != 0 {
            k * self.size
        } else if k == 0 {
            0
        } else {
            self.bytes.len()
        }
    }
}
