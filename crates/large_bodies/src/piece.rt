//! The elements of one branch as they are put together.
ghost use Rattle.std.specs.Prelude.{◌≡◌, ◌^◌, ◌<◌, ◌≤◌, ◌+◌, ◌-◌, ◌*◌, ◌++◌, [], IfOk, MatchResult, is_ok, length, take, drop, sum, vec_len, if◌then◌else◌};
ghost use Rattle.std.specs.List.{flat_map};
ghost use Rattle.geos_model.specs.Words.{word};
ghost use Rattle.geos_model.specs.Heap.{capacity};
ghost use Rattle.geos_model.specs.Pieces.{piece_weight, branch_room};
ghost use Rattle.geos_model.specs.LargeLayout.{branch_bytes};
ghost use Rattle.large_bodies.specs.SizedElements.{IsPiece, with_behind};
ghost use Rattle.large_bodies.specs.ElementLengths.{kept_lengths, places_by};

use crate::new_elements::NewElements;
use chunk_arrays::View;
use std::alloc::{AllocError, Global};
use std::marker::Model;

/// How many bytes of elements a branch has room for, with their places where sizes vary.
pub const BRANCH_ROOM: usize = 65_510;

/// Up to how many bytes two neighbours are joined.
pub const JOIN_ROOM: usize = 49_132;

/// The elements of one branch as they are put together. Contracts see them with their size.
#[derive(Drop)]
pub struct Piece {
    /// Those of the elements, one after another.
    bytes: Vec<u8>,
    /// How many bytes each element has, where sizes vary; else nothing.
    lengths: Vec<u16>,
    /// How many elements there are.
    count: usize,
    /// How many bytes each has, 0 where sizes vary.
    size: usize,
}

impl Model for Piece {
    ghost use Rattle.large_bodies.specs.SizedElements.{SizedElements};

    ghost Value = { SizedElements };

    ghost use Rattle.large_bodies.specs.PieceKeeping.{held_elements, KeepsElements};

    ghost view = { held_elements };

    ghost invariant = { KeepsElements };
}

impl Piece {
    /// A piece without elements. It takes no memory.
    pub fn new(alloc: Global, size: usize) -> Piece
        requires { size < 2 ^ 16 }
        ensures { result ≡ record { size = size; elements = [] } }
    {
        Piece {
            bytes: Vec::new(alloc),
            lengths: Vec::new(alloc),
            count: 0,
            size,
        }
    }

    /// How many bytes each element has, 0 where sizes vary.
    pub fn element_size(&self) -> usize
        ensures { result ≡ self.now.size }
    {
        self.size
    }

    /// How many elements there are.
    pub fn count(&self) -> usize
        ensures value { result ≡ length self.now.elements }
        ensures holds { IsPiece self.now }
    {
        self.count
    }

    /// How many bytes the elements take in a branch, with their places where sizes vary.
    pub fn weight(&self) -> usize
        ensures value { result ≡ piece_weight self.now.size self.now.elements }
        ensures fits { result ≤ branch_room }
        ensures holds { IsPiece self.now }
    {
        self.bytes.len() + 2 * self.lengths.len()
    }

    /// It does nothing: its caller learns that the elements can be those of a branch.
    pub fn reveal_invariant(&self)
        ensures { IsPiece self.now }
    {
        // What is always so of the fields is known where one is named.
        let _ = &self.size;
    }

    /// Puts the elements from one up to another of a branch that was read behind the others. Those of one size are one
    /// copy of bytes.
    pub fn push_run(&mut self, view: &View<'_>, from: usize, to: usize) -> Result<(), AllocError>
        requires size { view.now.array.size ≡ self.old.size }
        requires order { from ≤ to }
        requires within { to ≤ length view.now.array.elements }
        requires room { piece_weight self.old.size self.old.elements +
            piece_weight self.old.size (take (to - from) (drop from view.now.array.elements)) ≤ branch_room }
        ensures { MatchResult result
            (λ _. self.new ≡ with_behind self.old (take (to - from) (drop from view.now.array.elements)))
            (λ _. self.new ≡ self.old) }
    {
        let run = view.run(from, to);
        self.bytes.reserve(run.len())?;
        push_lengths(&mut self.lengths, view, from, to)?;
        self.bytes.extend_from_slice(run)?;
        self.count += to - from;
        Ok(())
    }

    /// Puts new elements behind the others.
    pub fn push_new(&mut self, new: &NewElements<'_>) -> Result<(), AllocError>
        requires size { new.now.size ≡ self.old.size }
        requires room { piece_weight self.old.size self.old.elements + piece_weight self.old.size new.now.elements ≤ branch_room }
        ensures { MatchResult result (λ _. self.new ≡ with_behind self.old new.now.elements) (λ _. self.new ≡ self.old) }
    {
        let bytes = new.bytes();
        self.bytes.reserve(bytes.len())?;
        push_new_length(&mut self.lengths, new)?;
        self.bytes.extend_from_slice(bytes)?;
        self.count += new.count();
        Ok(())
    }

    /// Puts the elements of another piece behind the others.
    pub fn append(&mut self, other: &Piece) -> Result<(), AllocError>
        requires size { other.now.size ≡ self.old.size }
        requires room { piece_weight self.old.size self.old.elements + piece_weight self.old.size other.now.elements ≤ branch_room }
        ensures { MatchResult result (λ _. self.new ≡ with_behind self.old other.now.elements) (λ _. self.new ≡ self.old) }
    {
        self.bytes.reserve(other.bytes.len())?;
        self.lengths.extend_from_slice(other.lengths.as_slice())?;
        self.bytes.extend_from_slice(other.bytes.as_slice())?;
        self.count += other.count;
        Ok(())
    }

    /// The bytes of a branch with these elements, as many as a raw body may have.
    pub fn body(&self, alloc: Global) -> Result<Vec<u8>, AllocError>
        ensures value { IfOk result (λ bytes. bytes.items ≡ branch_bytes self.now.size self.now.elements) }
        ensures short { IfOk result (λ bytes. vec_len bytes ≤ capacity) }
    {
        let mut out = Vec::with_capacity(alloc, 10 + self.weight())?;
        push_head(&mut out, self.count, self.size)?;
        push_places(&mut out, self.lengths.as_slice())?;
        out.extend_from_slice(self.bytes.as_slice())?;
        Ok(out)
    }
}

/// Adds how many bytes the elements from one up to another of a branch have, where sizes vary.
fn push_lengths(
    lengths: &mut Vec<u16>,
    view: &View<'_>,
    from: usize,
    to: usize,
) -> Result<(), AllocError>
    requires order { from ≤ to }
    requires within { to ≤ length view.now.array.elements }
    requires room { piece_weight view.now.array.size (take (to - from) (drop from view.now.array.elements)) ≤ branch_room }
    ensures { lengths.new.items ≡ (if is_ok result
        then lengths.old.items ++ kept_lengths view.now.array.size (take (to - from) (drop from view.now.array.elements))
        else lengths.old.items) }
{
    if view.element_size() != 0 {
        return Ok(());
    }
    lengths.reserve(to - from)?;
    let mut place = view.place(from);
    for i in from..to {
        let (element, next) = view.element_from(i, place);
        lengths.push_reserved(element.len() as u16);
        place = next;
    }
    Ok(())
}

/// Adds how many bytes the new element has, where sizes vary and there is one.
fn push_new_length(lengths: &mut Vec<u16>, new: &NewElements<'_>) -> Result<(), AllocError>
    ensures { lengths.new.items ≡ (if is_ok result
        then lengths.old.items ++ kept_lengths new.now.size new.now.elements else lengths.old.items) }
{
    if new.element_size() != 0 || new.count() == 0 {
        return Ok(());
    }
    let length = new.bytes().len();
    lengths.push(length as u16)?;
    Ok(())
}

/// Adds what a branch begins with: a zero word, and the header of a chunk array without extra bytes.
fn push_head(out: &mut Vec<u8>, count: usize, size: usize) -> Result<(), AllocError>
    requires count { count < 2 ^ 16 }
    requires size { size < 2 ^ 16 }
    ensures { IfOk result
        (λ _. out.new.items ≡ out.old.items ++ (word 0 ++ word count ++ word size ++ word 0 ++ word 8)) }
{
    push_word(out, 0)?;
    push_word(out, count)?;
    push_word(out, size)?;
    push_word(out, 0)?;
    push_word(out, 8)
}

/// Adds the places of elements that have so many bytes each, and stand behind a table of these places.
fn push_places(out: &mut Vec<u8>, lengths: &[u16]) -> Result<(), AllocError>
    requires { 8 + 2 * length lengths.now + sum lengths.now < 2 ^ 16 }
    ensures { IfOk result (λ _. out.new.items ≡
        out.old.items ++ flat_map word (places_by (8 + 2 * length lengths.now) lengths.now)) }
{
    let mut place = 8 + 2 * lengths.len();
    for n in lengths {
        push_word(out, place)?;
        place += usize::from(*n);
    }
    Ok(())
}

/// Adds a number as a word.
fn push_word(out: &mut Vec<u8>, n: usize) -> Result<(), AllocError>
    requires { n < 2 ^ 16 }
    ensures { IfOk result (λ _. out.new.items ≡ out.old.items ++ word n) }
{
    let word = n as u16;
    out.extend_from_slice(word.to_le_bytes().as_slice())
}
