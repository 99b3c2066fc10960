//! What comes in the place of branches, put together of what an edit looks at.
ghost use Rattle.std.specs.Prelude.{◌≡◌, ◌⊎◌, ◌<◌, ◌≤◌, ◌+◌, ◌-◌, ◌*◌, ◌^◌, ◌∷◌, ◌++◌, ◌==◌, ◌&&◌, ℕ, List, [], None, Some, true, false, is_some, IfOk, IfErr, IfSome, MatchResult, length, map, get_or, if◌then◌else◌};
ghost use Rattle.std.specs.List.{All, range_with_len};
ghost use Rattle.geos_model.specs.Document.{Document};
ghost use Rattle.geos_model.specs.Heap.{capacity};
ghost use Rattle.geos_model.specs.ElementArray.{all_distinct};
ghost use Rattle.geos_model.specs.declared.fault.Fault.TheVariants.{BadChain, Memory};
ghost use Rattle.vm_chains.specs.Walking.{Stops};
ghost use Rattle.geos_model.specs.Pieces.{BranchPiece, piece_weight, branch_room, join_room};
ghost use Rattle.geos_model.specs.LargeLayout.{branch_of};
ghost use Rattle.geos_model.specs.Spread.{middle, left_piece, right_piece, with_first, with_last, if_none};
ghost use Rattle.geos_model.specs.LargeBlocks.{root_at, pieces_at};
ghost use Rattle.geos_model.specs.LargeWindow.{left_joins, right_joins, looks_left, looks_right, looked_at, are_branches};
ghost use Rattle.large_arrays.specs.Bodies.{are_raw, bytes_of_bodies};
ghost use Rattle.large_arrays.specs.Gathering.{IsGatheredWindow, AreGathered};
ghost use Rattle.geos_model.specs.JoinedPieces.{window_of};
ghost use Rattle.large_arrays.specs.LookedBranches.{AreAmong, AreLooked, AreThere, HasLinks, HaveAllBodies, IsPieceSpot, MissesNeighbour, AreNeighbours, ReadsNeighbours, behind_with, count_at, first_with, links_between, neighbour_read};
ghost use Rattle.large_bodies.specs.Neighbours.{ends_of, if_known};
ghost use Rattle.large_bodies.specs.SizedElements.{elements_of_size};
ghost use Rattle.large_arrays.specs.Spots.{link_handles};

use crate::distinct::are_distinct;
use crate::gathered::Gathered;
use crate::middle::Middle;
use crate::spot::{BranchLink, Spot};
use crate::staying::{StayingBytes, old_branches};
use geos_model::{Fault, VmHandle};
use large_bodies::{MiddleEnds, Piece, Pieces, Sides, joined_sides, looked_at_sides, read_branch};
use std::alloc::{AllocError, Global};

/// The bodies of the branches that an edit looks at: none or one of a neighbour.
#[derive(Drop)]
pub(crate) struct LookedBodies {
    pub(crate) left: Vec<Vec<u8>>,
    /// Those of the branches that have the elements.
    pub(crate) run: Vec<Vec<u8>>,
    pub(crate) right: Vec<Vec<u8>>,
}

/// Which neighbours are looked at. Where elements have one size the root tells what a neighbour weighs, and it is
/// looked at only to be joined.
pub(crate) fn looked_sides(spot: &Spot, ends: MiddleEnds) -> Sides
    requires { HasLinks spot.now }
    ensures there { AreThere spot.now result }
    ensures value { (ps : List BranchPiece) (i j : ℕ) (new : BranchPiece) → IsPieceSpot spot.now ps i j
        → ends ≡ ends_of spot.now.size (middle spot.now.size ps i j new)
        → (result.left ≡ looks_left spot.now.size ps i j new) × (result.right ≡ looks_right spot.now.size ps i j new) }
{
    let branches = spot.branches;
    let next = spot.end.0 + 1;
    let there = Sides {
        left: 0 < spot.start.0,
        right: next < branches,
    };
    if spot.size == 0 {
        return looked_at_sides(there, ends);
    }
    let left = even_weight(spot, there.left, spot.start.0.saturating_sub(1));
    let right = even_weight(spot, there.right, next);
    joined_sides(left, right, ends)
}

/// What a branch weighs by the root, where elements have one size, if it is there.
fn even_weight(spot: &Spot, there: bool, k: usize) -> Option<usize>
    requires small { spot.now.size < 2 ^ 16 }
    requires first { there ≡ true → spot.now.first ≤ k }
    requires within { there ≡ true → k < spot.now.first + length spot.now.links.items }
    ensures { result ≡ if_known there (count_at spot.now k * spot.now.size) }
{
    if !there {
        return None;
    }
    let link = spot.links[k - spot.first];
    Some(bytes_of_even(link.count, spot.size))
}

/// How many bytes so many elements of one size have.
fn bytes_of_even(count: u16, size: usize) -> usize
    requires { size < 2 ^ 16 }
    ensures { result ≡ count * size }
{
    usize::from(count) * size
}

/// How many pieces come in the place of a run, and what the first of them and the last weigh.
pub(crate) fn middle_ends(pieces: &Pieces) -> MiddleEnds
    ensures { result ≡ ends_of pieces.now.size pieces.now.pieces }
{
    let count = pieces.len();
    if count == 0 {
        return MiddleEnds {
            pieces: 0,
            first: 0,
            last: 0,
        };
    }
    MiddleEnds {
        pieces: count,
        first: pieces.get(0).weight(),
        last: pieces.get(count - 1).weight(),
    }
}

/// The links of a spot's branches, from one up to another.
pub(crate) fn links_between(spot: &Spot, from: usize, to: usize) -> &[BranchLink]
    requires first { spot.now.first ≤ from }
    requires order { from ≤ to }
    requires within { to ≤ spot.now.first + length spot.now.links.items }
    ensures { result.now ≡ links_between spot.now from to }
{
    &spot.links.as_slice()[from - spot.first..to - spot.first]
}

/// The first branch of a run with neighbours.
pub(crate) fn first_with(spot: &Spot, sides: Sides) -> usize
    requires { AreThere spot.now sides }
    ensures { result ≡ first_with spot.now sides }
{
    spot.start.0 - usize::from(sides.left)
}

/// The branch behind it.
pub(crate) fn behind_with(spot: &Spot, sides: Sides) -> usize
    requires run { HasLinks spot.now }
    requires there { AreThere spot.now sides }
    ensures { result ≡ behind_with spot.now sides }
{
    if sides.right {
        spot.end.0 + 2
    } else {
        spot.end.0 + 1
    }
}

/// What comes in the place of branches, by what is looked at. BadChain where a neighbour isn't what its root says, or a
/// branch is there twice, or is the root.
pub(crate) fn put_together(
    alloc: Global,
    root: VmHandle,
    spot: &Spot,
    middle: Middle,
    looked: Sides,
    bodies: LookedBodies,
) -> Result<Gathered, Fault>
    // Asked of the caller.
    requires run { HasLinks spot.now }
    requires there { AreThere spot.now looked }
    requires bodies { HaveAllBodies spot.now looked bodies }
    requires size { middle.pieces.size ≡ spot.now.size }
    requires head { middle.head ≤ branch_room }
    requires tail { middle.tail ≤ branch_room }
    // What is answered.
    ensures value { (d : Document) (i j : ℕ) (new : BranchPiece)
        → AreLooked d root.0 i j new spot.now middle looked bodies → MatchResult result
        (IsGatheredWindow d root.0 i j new)
        (Stops (λ fault. fault ≡ Memory) (are_branches d root.0 (root_at d root.0)
        (looked_at (root_at d root.0).size (pieces_at d (root_at d root.0)) i j new) ≡ false)) }
    // Of any bodies.
    ensures listed { (d : Document)
        → are_raw d (link_handles (links_between spot.now (first_with spot.now looked) (behind_with spot.now looked))) ≡ true
        → IfOk result (AreGathered d root.0) }
    ensures refusals { IfErr result (λ fault. (fault ≡ Memory) ⊎ (fault ≡ BadChain)) }
{
    let links = links_between(spot, first_with(spot, looked), behind_with(spot, looked));
    if !are_distinct(alloc, root, links)? {
        return Err(Fault::BadChain);
    }
    let neighbours = read_neighbours(alloc, spot, looked, &bodies)?;
    let joined = sides_joined(spot, looked, &neighbours, middle_ends(&middle.pieces));
    let staying = staying_in(&middle, &neighbours);
    let first = first_with(spot, joined);
    let replaced = links_between(spot, first, behind_with(spot, joined));
    let olds = old_branches(alloc, replaced, first, spot.start.0, spot.end.0, staying)?;
    let head = middle.tail <= middle.head;
    let pieces = join_pieces(alloc, spot, joined, middle.pieces, neighbours)?;
    Ok(Gathered {
        first,
        olds,
        bodies: window_bodies(joined, bodies)?,
        pieces,
        head,
    })
}

/// The neighbours that are looked at, without elements where one isn't.
#[derive(Drop)]
struct Neighbours {
    left: Piece,
    right: Piece,
}

/// The neighbours that are looked at, by their bodies.
fn read_neighbours(
    alloc: Global,
    spot: &Spot,
    looked: Sides,
    bodies: &LookedBodies,
) -> Result<Neighbours, Fault>
    requires run { HasLinks spot.now }
    requires there { AreThere spot.now looked }
    requires bodies { HaveAllBodies spot.now looked bodies.now }
    ensures { MatchResult result (ReadsNeighbours spot.now looked bodies.now)
        (Stops (λ fault. fault ≡ Memory) (MissesNeighbour spot.now looked bodies.now)) }
{
    let left = read_neighbour(
        alloc,
        spot,
        looked.left,
        spot.start.0.saturating_sub(1),
        bodies.left.as_slice(),
    )?;
    let right = read_neighbour(
        alloc,
        spot,
        looked.right,
        spot.end.0 + 1,
        bodies.right.as_slice(),
    )?;
    Ok(Neighbours { left, right })
}

/// A neighbour that is looked at, by its body. BadChain where it isn't what the root says.
fn read_neighbour(
    alloc: Global,
    spot: &Spot,
    looked: bool,
    k: usize,
    bodies: &[Vec<u8>],
) -> Result<Piece, Fault>
    requires small { spot.now.size < 2 ^ 16 }
    requires some { looked ≡ true → 0 < length bodies.now }
    requires short { All (λ body. length body.items ≤ capacity) bodies.now }
    requires first { looked ≡ true → spot.now.first ≤ k }
    requires within { looked ≡ true → k < spot.now.first + length spot.now.links.items }
    ensures value { MatchResult result
        (λ piece. neighbour_read spot.now looked k bodies.now ≡ Some piece.elements)
        (Stops (λ fault. fault ≡ Memory) (neighbour_read spot.now looked k bodies.now ≡ None)) }
    ensures size { IfOk result (λ piece. piece.size ≡ spot.now.size) }
{
    if !looked {
        return Ok(Piece::new(alloc, spot.size));
    }
    let link = spot.links[k - spot.first];
    read_piece(
        alloc,
        bodies[0].as_slice(),
        spot.size,
        usize::from(link.count),
    )
}

/// The elements of a branch by its body. BadChain where that has others.
fn read_piece(alloc: Global, body: &[u8], size: usize, count: usize) -> Result<Piece, Fault>
    requires small { size < 2 ^ 16 }
    requires short { length body.now ≤ capacity }
    ensures value { MatchResult result
        (λ piece. branch_of size count body.now ≡ Some piece.elements)
        (Stops (λ fault. fault ≡ Memory) (branch_of size count body.now ≡ None)) }
    ensures size { IfOk result (λ piece. piece.size ≡ size) }
{
    let view = read_branch(body, size, count)?;
    let mut piece = Piece::new(alloc, size);
    piece.push_run(&view, 0, count)?;
    Ok(piece)
}

/// Which neighbours are joined. Where sizes vary that is told by what those weigh that are looked at.
fn sides_joined(spot: &Spot, looked: Sides, neighbours: &Neighbours, ends: MiddleEnds) -> Sides
    requires left { neighbours.now.left.size ≡ spot.now.size }
    requires right { neighbours.now.right.size ≡ spot.now.size }
    ensures among { AreAmong result looked }
    ensures value { (ps : List BranchPiece) (i j : ℕ) (new : BranchPiece) → IsPieceSpot spot.now ps i j
        → ends ≡ ends_of spot.now.size (middle spot.now.size ps i j new)
        → AreNeighbours spot.now ps i j new looked neighbours.now
        → (result.left ≡ left_joins spot.now.size ps i j new) × (result.right ≡ right_joins spot.now.size ps i j new) }
{
    if spot.size != 0 {
        return looked;
    }
    let left = if_looked(looked.left, &neighbours.left);
    let right = if_looked(looked.right, &neighbours.right);
    joined_sides(left, right, ends)
}

/// What a neighbour weighs, if it is looked at.
fn if_looked(looked: bool, piece: &Piece) -> Option<usize>
    ensures { result ≡ if_known looked (piece_weight piece.now.size piece.now.elements) }
{
    if looked { Some(piece.weight()) } else { None }
}

/// What stays in the blocks.
fn staying_in(middle: &Middle, neighbours: &Neighbours) -> StayingBytes
    ensures { result ≡ record {
      left = piece_weight neighbours.now.left.size neighbours.now.left.elements;
      head = middle.now.head;
      tail = middle.now.tail;
      right = piece_weight neighbours.now.right.size neighbours.now.right.elements;
    } }
{
    StayingBytes {
        left: neighbours.left.weight(),
        head: middle.head,
        tail: middle.tail,
        right: neighbours.right.weight(),
    }
}

/// What comes in the place of branches: the middle, with the neighbours that are joined, or an empty piece where there
/// is nothing and no neighbour.
fn join_pieces(
    alloc: Global,
    spot: &Spot,
    joined: Sides,
    middle: Pieces,
    neighbours: Neighbours,
) -> Result<Pieces, AllocError>
    requires run { HasLinks spot.now }
    requires size { middle.size ≡ spot.now.size }
    requires left { neighbours.left.size ≡ spot.now.size }
    requires right { neighbours.right.size ≡ spot.now.size }
    ensures { IfOk result (λ pieces. pieces ≡ record {
      size = middle.size;
      pieces = window_of middle.size joined.left neighbours.left.elements middle.pieces joined.right
          neighbours.right.elements ((spot.now.start.0 == 0) && (spot.now.end.0 + 1 == spot.now.branches));
    }) }
{
    let left = joined_piece(joined.left, neighbours.left);
    let right = joined_piece(joined.right, neighbours.right);
    middle.window(alloc, left, right, is_alone(spot))
}

/// Whether there is no neighbour.
fn is_alone(spot: &Spot) -> bool
    requires { HasLinks spot.now }
    ensures { result ≡ ((spot.now.start.0 == 0) && (spot.now.end.0 + 1 == spot.now.branches)) }
{
    spot.start.0 == 0 && spot.end.0 + 1 == spot.branches
}

/// A neighbour, where it is joined.
fn joined_piece(joined: bool, piece: Piece) -> Option<Piece>
    ensures is { is_some result ≡ joined }
    ensures elements { elements_of_size result ≡ (if joined then piece.elements else []) }
    ensures size { (n : ℕ) → piece.size ≡ n → IfSome result (λ p. p.size ≡ n) }
{
    if joined { Some(piece) } else { None }
}

/// The bodies of the branches in the place of which others come.
fn window_bodies(joined: Sides, bodies: LookedBodies) -> Result<Vec<Vec<u8>>, AllocError>
    ensures { IfOk result (λ all. all.items ≡ (if joined.left then bodies.left.items else []) ++
        (bodies.run.items ++ (if joined.right then bodies.right.items else []))) }
{
    let mut all = if_joined(joined.left, bodies.left);
    let mut run = bodies.run;
    let mut right = if_joined(joined.right, bodies.right);
    run.append(&mut right)?;
    all.append(&mut run)?;
    Ok(all)
}

/// The bodies, where they are of a neighbour that is joined.
fn if_joined(joined: bool, bodies: Vec<Vec<u8>>) -> Vec<Vec<u8>>
    ensures { result.items ≡ (if joined then bodies.items else []) }
{
    let mut bodies = bodies;
    if !joined {
        bodies.clear();
    }
    bodies
}
