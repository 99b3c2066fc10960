//! Pieces into which elements are packed, and the pieces beside these.
ghost use Rattle.std.specs.Prelude.{◌≡◌, ◌^◌, ◌<◌, ◌≤◌, ◌+◌, ◌++◌, ◌∷◌, ◌&&◌, [], true, IfOk, IfSome, MatchResult, MatchOption, is_some, length, drop, get_or, nat_lt};
ghost use Rattle.geos_model.specs.Pieces.{branch_room, join_room, are_joined, all_fit};
ghost use Rattle.geos_model.specs.Spread.{packed_from, with_last, with_first, if_none};
ghost use Rattle.large_bodies.specs.SizedElements.{elements_of_size};
ghost use Rattle.large_bodies.specs.Filling.{FillsPiece};
ghost use Rattle.geos_model.specs.JoinedPieces.{window_of};

use crate::new_elements::NewElements;
use crate::piece::{BRANCH_ROOM, JOIN_ROOM, Piece};
use std::alloc::{AllocError, Global};
use std::marker::Model;

/// Pieces whose elements have one size, or vary in it, in the order in which they will be branches. Contracts see them
/// as their elements, with the size.
#[derive(Drop)]
pub struct Pieces {
    pieces: Vec<Piece>,
    /// How many bytes each element has, 0 where sizes vary.
    size: usize,
}

impl Model for Pieces {
    ghost use Rattle.large_bodies.specs.SizedElements.{SizedPieces};

    ghost Value = { SizedPieces };

    ghost use Rattle.large_bodies.specs.PiecesKeeping.{held_pieces, KeepsPieces};

    ghost view = { held_pieces };

    ghost invariant = { KeepsPieces };
}

impl Pieces {
    ghost use Rattle.large_bodies.specs.PiecesKeeping.{with_piece_behind};

    /// The elements of a piece, and new ones behind them, in pieces that are each as full as they get. Of one size as
    /// many as fit go into a piece at a time.
    pub fn packed(alloc: Global, head: Piece, new: &NewElements<'_>) -> Result<Pieces, AllocError>
        requires { new.now.size ≡ head.size }
        ensures { IfOk result (λ p. p ≡ record {
          size = head.size;
          pieces = packed_from head.size [] (head.elements ++ new.now.elements);
        }) }
    {
        let size = head.element_size();
        let mut pieces = Pieces::none(alloc, size);
        let mut piece = head;
        let mut left = fill(&mut piece, new)?;
        while left.count() != 0 {
            pieces.push(piece)?;
            piece = Piece::new(alloc, size);
            left = fill(&mut piece, &left)?;
        }
        if piece.count() != 0 {
            pieces.push(piece)?;
        }
        Ok(pieces)
    }

    /// The same with a piece behind them: in the last one if that then weighs no more than `room`. An empty one is
    /// none.
    pub fn with_tail(self, tail: Piece, room: usize) -> Result<Pieces, AllocError>
        requires size { tail.size ≡ self.size }
        requires room { room ≤ branch_room }
        ensures { IfOk result (λ p. p ≡ record {
          size = self.size;
          pieces = with_last self.size room self.pieces tail.elements;
        }) }
    {
        if tail.count() == 0 {
            return Ok(self);
        }
        let mut pieces = self;
        let Some(mut last) = pieces.pop() else {
            pieces.push(tail)?;
            return Ok(pieces);
        };
        if last.weight() + tail.weight() <= room {
            last.append(&tail)?;
            pieces.push(last)?;
        } else {
            pieces.push(last)?;
            pieces.push(tail)?;
        }
        Ok(pieces)
    }

    /// The same with a piece before them: in the first one if the two are joined. An empty one is none.
    pub fn with_left(self, left: Piece) -> Result<Pieces, AllocError>
        requires { left.size ≡ self.size }
        ensures { IfOk result (λ p. p ≡ record {
          size = self.size;
          pieces = with_first self.size left.elements self.pieces;
        }) }
    {
        if left.count() == 0 {
            return Ok(self);
        }
        let mut pieces = self;
        if pieces.joins_first(&left) {
            let mut left = left;
            left.append(pieces.get(0))?;
            pieces.set_first(left);
        } else {
            pieces.insert_first(left)?;
        }
        Ok(pieces)
    }

    /// The same with the right neighbour behind them: in the last one if the two are joined. Where neither has an
    /// element there is an empty piece.
    pub fn with_right(self, right: Piece) -> Result<Pieces, AllocError>
        requires { right.size ≡ self.size }
        ensures { IfOk result (λ p. p ≡ record {
          size = self.size;
          pieces = if_none (with_last self.size join_room self.pieces right.elements);
        }) }
    {
        if self.len() != 0 {
            return self.with_tail(right, JOIN_ROOM);
        }
        let mut pieces = self;
        pieces.push(right)?;
        Ok(pieces)
    }

    /// What comes in the place of a window: the same with each neighbour that is joined beside them, and an empty piece
    /// where that is nothing and there is no neighbour.
    pub fn window(
        self,
        alloc: Global,
        left: Option<Piece>,
        right: Option<Piece>,
        is_alone: bool,
    ) -> Result<Pieces, AllocError>
        requires left { IfSome left (λ p. p.size ≡ self.size) }
        requires right { IfSome right (λ p. p.size ≡ self.size) }
        requires small { self.size < 2 ^ 16 }
        ensures { IfOk result (λ p. p ≡ record {
          size = self.size;
          pieces = window_of self.size (is_some left) (elements_of_size left) self.pieces
              (is_some right) (elements_of_size right) is_alone;
        }) }
    {
        let mut pieces = self;
        if let Some(left) = left {
            pieces = pieces.with_left(left)?;
        }
        if let Some(right) = right {
            pieces = pieces.with_tail(right, JOIN_ROOM)?;
        }
        if is_alone {
            pieces = pieces.or_empty(alloc)?;
        }
        Ok(pieces)
    }

    /// An empty piece where there is none.
    pub fn or_empty(self, alloc: Global) -> Result<Pieces, AllocError>
        requires { self.size < 2 ^ 16 }
        ensures { IfOk result (λ p. p ≡ record { size = self.size; pieces = if_none self.pieces }) }
    {
        if self.len() != 0 {
            return Ok(self);
        }
        let mut pieces = self;
        let piece = Piece::new(alloc, pieces.size);
        pieces.push(piece)?;
        Ok(pieces)
    }

    /// How many pieces there are.
    pub fn len(&self) -> usize
        ensures value { result ≡ length self.now.pieces }
        ensures fit { all_fit self.now.size self.now.pieces ≡ true }
    {
        self.pieces.len()
    }

    /// A piece.
    pub fn get(&self, k: usize) -> &Piece
        requires { k < length self.now.pieces }
        ensures { result.now ≡ record { size = self.now.size; elements = get_or self.now.pieces k [] } }
    {
        &self.pieces[k]
    }

    /// No pieces.
    fn none(alloc: Global, size: usize) -> Pieces
        ensures { result ≡ record { size = size; pieces = [] } }
    {
        Pieces {
            pieces: Vec::new(alloc),
            size,
        }
    }

    /// Adds a piece behind the others.
    fn push(&mut self, piece: Piece) -> Result<(), AllocError>
        requires { piece.size ≡ self.old.size }
        ensures { IfOk result (λ _. self.new ≡ with_piece_behind self.old piece.elements) }
    {
        piece.reveal_invariant();
        self.pieces.push(piece)?;
        Ok(())
    }

    /// Takes the last piece away.
    fn pop(&mut self) -> Option<Piece>
        ensures same { self.new.size ≡ self.old.size }
        ensures last { MatchOption result ((self.old.pieces ≡ []) × (self.new.pieces ≡ []))
            (λ last. (last.size ≡ self.old.size) × (self.old.pieces ≡ self.new.pieces ++ last.elements ∷ [])) }
    {
        self.pieces.pop()
    }

    /// Whether a piece is joined to the first one.
    fn joins_first(&self, left: &Piece) -> bool
        requires { left.now.size ≡ self.now.size }
        ensures { result ≡ nat_lt 0 (length self.now.pieces) &&
            are_joined self.now.size left.now.elements (get_or self.now.pieces 0 []) }
    {
        self.len() != 0 && left.weight() + self.get(0).weight() <= JOIN_ROOM
    }

    /// Puts a piece in the place of the first one.
    fn set_first(&mut self, piece: Piece)
        requires size { piece.size ≡ self.old.size }
        requires some { 0 < length self.old.pieces }
        ensures { self.new ≡ record self.old { pieces = piece.elements ∷ drop 1 self.old.pieces } }
    {
        piece.reveal_invariant();
        self.pieces[0] = piece;
    }

    /// Puts a piece before the others.
    fn insert_first(&mut self, piece: Piece) -> Result<(), AllocError>
        requires { piece.size ≡ self.old.size }
        ensures { IfOk result (λ _. self.new ≡ record self.old { pieces = piece.elements ∷ self.old.pieces }) }
    {
        piece.reveal_invariant();
        self.pieces.insert(0, piece)?;
        Ok(())
    }
}

/// Puts as many new elements behind those of a piece as there is room for, and answers the others.
fn fill<'a>(piece: &mut Piece, new: &NewElements<'a>) -> Result<NewElements<'a>, AllocError>
    requires { new.now.size ≡ piece.old.size }
    ensures { IfOk result (λ left. FillsPiece piece.old piece.new new.now left) }
{
    let fitting = new.fitting(BRANCH_ROOM - piece.weight());
    let (some, left) = new.split_at(fitting);
    piece.push_new(&some)?;
    Ok(left)
}
