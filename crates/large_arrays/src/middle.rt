//! The branches that have the elements of an edit, put together again with what comes.
ghost use Rattle.std.specs.Prelude.{◌≡◌, ◌⊎◌, ◌<◌, ◌≤◌, ◌+◌, ◌-◌, ◌^◌, ℕ, None, true, false, is_some, IfOk, IfErr, MatchResult, length, take, drop};
ghost use Rattle.std.specs.List.{All};
ghost use Rattle.geos_model.specs.Document.{Document};
ghost use Rattle.geos_model.specs.Heap.{capacity};
ghost use Rattle.geos_model.specs.declared.fault.Fault.TheVariants.{BadChain, Memory};
ghost use Rattle.vm_chains.specs.Walking.{Stops};
ghost use Rattle.geos_model.specs.LargeBlocks.{root_at};
ghost use Rattle.large_arrays.specs.Bodies.{AreBodies, bytes_of_bodies};
ghost use Rattle.large_arrays.specs.Middle.{IsMiddle, IsRunSpot, are_there, run_branches, run_links};
ghost use Rattle.geos_model.specs.Pieces.{branch_room, piece_weight};
ghost use Rattle.large_arrays.specs.RunReading.{AreEnds, IsRunBranch, IsTail, OneUnread, run_read, tail_room};
ghost use Rattle.large_arrays.specs.Spots.{IsSpot, link_handles};

use crate::spot::Spot;
use chunk_arrays::View;
use geos_model::Fault;
use large_bodies::{BRANCH_ROOM, JOIN_ROOM, NewElements, Piece, Pieces, read_branch};
use std::alloc::{AllocError, Global};

/// What is left of the branches that have the elements of an edit, with those that come.
#[derive(Drop)]
pub struct Middle {
    pub pieces: Pieces,
    /// How many bytes of elements, with their places, stand before the edit in its first branch.
    pub head: usize,
    /// How many stand behind it in its last branch.
    pub tail: usize,
}

/// What stands before an edit in its first branch, and behind it in its last one.
#[derive(Drop)]
struct Ends {
    head: Piece,
    tail: Piece,
}

/// What is left of the branches of a spot that have the elements, with new ones in their place. Their bodies are given.
/// BadChain where one of them isn't the branch that the root says. No branch is read twice.
pub fn middle_of(
    alloc: Global,
    spot: &Spot,
    bodies: &[Vec<u8>],
    new: &NewElements<'_>,
) -> Result<Middle, Fault>
    // Asked of the caller.
    requires run { IsRunSpot spot.now }
    requires many { length bodies.now ≡ length (run_links spot.now) }
    requires short { All (λ body. length body ≤ capacity) (bytes_of_bodies bodies.now) }
    requires size { new.now.size ≡ spot.now.size }
    // What is answered.
    ensures value { (d : Document) (b i j : ℕ) → IsSpot (root_at d b) i j spot.now
        → AreBodies d (link_handles (run_links spot.now)) (bytes_of_bodies bodies.now) → MatchResult result
        (λ m. (are_there d (root_at d b) (run_branches spot.now) ≡ true)
        × IsMiddle d (root_at d b) i j new.now.elements m)
        (Stops (λ fault. fault ≡ Memory) (are_there d (root_at d b) (run_branches spot.now) ≡ false)) }
    // Of any bodies.
    ensures size { IfOk result (λ m. m.pieces.size ≡ spot.now.size) }
    ensures small { IfOk result (λ m. (m.head ≤ branch_room) × (m.tail ≤ branch_room)) }
    ensures refusals { IfErr result (λ fault. (fault ≡ Memory) ⊎ (fault ≡ BadChain)) }
{
    let ends = ends_of(alloc, spot, bodies)?;
    let head = ends.head.weight();
    let tail = ends.tail.weight();
    let pieces = Pieces::packed(alloc, ends.head, new)?.with_tail(ends.tail, tail_room(spot))?;
    Ok(Middle { pieces, head, tail })
}

/// What stands before the elements in the first branch, and behind them in the last one. Each branch is tested.
fn ends_of(alloc: Global, spot: &Spot, bodies: &[Vec<u8>]) -> Result<Ends, Fault>
    requires run { IsRunSpot spot.now }
    requires many { length bodies.now ≡ length (run_links spot.now) }
    requires short { All (λ body. length body ≤ capacity) (bytes_of_bodies bodies.now) }
    ensures { MatchResult result
        (AreEnds spot.now (bytes_of_bodies bodies.now))
        (λ fault. (fault ≡ Memory) ⊎ ((fault ≡ BadChain) × OneUnread spot.now (bytes_of_bodies bodies.now))) }
{
    let first = run_branch(spot, bodies, 0)?;
    let head = part_of(alloc, &first, 0, spot.start.1 as usize)?;
    test_between(spot, bodies)?;
    let tail = tail_of(alloc, spot, bodies, &first)?;
    Ok(Ends { head, tail })
}

/// What stands behind the elements in the last branch. The first one, which may be the last one too, is read already.
fn tail_of(alloc: Global, spot: &Spot, bodies: &[Vec<u8>], first: &View<'_>) -> Result<Piece, Fault>
    requires run { IsRunSpot spot.now }
    requires many { length bodies.now ≡ length (run_links spot.now) }
    requires short { All (λ body. length body ≤ capacity) (bytes_of_bodies bodies.now) }
    requires first { IsRunBranch spot.now (bytes_of_bodies bodies.now) 0 first.now.array }
    ensures { MatchResult result
        (IsTail spot.now (bytes_of_bodies bodies.now))
        (λ fault. (fault ≡ Memory) ⊎ ((fault ≡ BadChain) × OneUnread spot.now (bytes_of_bodies bodies.now))) }
{
    let last = bodies.len() - 1;
    let from = spot.end.1 as usize;
    if last == 0 {
        return Ok(part_of(alloc, first, from, first.count())?);
    }
    let view = run_branch(spot, bodies, last)?;
    Ok(part_of(alloc, &view, from, view.count())?)
}

/// Tests the branches between the first one and the last one, as `run_branch` does.
fn test_between(spot: &Spot, bodies: &[Vec<u8>]) -> Result<(), Fault>
    requires run { IsRunSpot spot.now }
    requires many { length bodies.now ≡ length (run_links spot.now) }
    requires short { All (λ body. length body ≤ capacity) (bytes_of_bodies bodies.now) }
    ensures { MatchResult result
        (λ _. (n : ℕ) → 0 < n → n + 1 < length bodies.now → is_some (run_read spot.now (bytes_of_bodies bodies.now) n) ≡ true)
        (λ fault. (fault ≡ BadChain) × OneUnread spot.now (bytes_of_bodies bodies.now)) }
{
    for n in 1..bodies.len() - 1 {
        let _tested = run_branch(spot, bodies, n)?;
    }
    Ok(())
}

/// One of the branches that have the elements, by its place among these. BadChain where its body isn't the branch that
/// the root says.
fn run_branch<'a>(spot: &Spot, bodies: &'a [Vec<u8>], n: usize) -> Result<View<'a>, Fault>
    requires run { IsRunSpot spot.now }
    requires many { length bodies.now ≡ length (run_links spot.now) }
    requires short { All (λ body. length body ≤ capacity) (bytes_of_bodies bodies.now) }
    requires within { n < length bodies.now }
    ensures { MatchResult result
        (λ view. IsRunBranch spot.now (bytes_of_bodies bodies.now) n view.array)
        (λ fault. (fault ≡ BadChain) × (run_read spot.now (bytes_of_bodies bodies.now) n ≡ None)) }
{
    let link = spot.links[spot.start.0 - spot.first + n];
    read_branch(bodies[n].as_slice(), spot.size, usize::from(link.count))
}

/// The elements of a branch from one up to another.
fn part_of(alloc: Global, view: &View<'_>, from: usize, to: usize) -> Result<Piece, AllocError>
    requires size { view.now.array.size < 2 ^ 16 }
    requires order { from ≤ to }
    requires within { to ≤ length view.now.array.elements }
    requires room { piece_weight view.now.array.size view.now.array.elements ≤ branch_room }
    ensures { IfOk result (λ part. part ≡ record {
      size = view.now.array.size;
      elements = take (to - from) (drop from view.now.array.elements);
    }) }
{
    let mut part = Piece::new(alloc, view.element_size());
    part.push_run(view, from, to)?;
    Ok(part)
}

/// Up to how much the last piece may weigh with what stands behind the elements: of one branch all that it has room
/// for, since it had both.
fn tail_room(spot: &Spot) -> usize
    ensures value { result ≡ tail_room spot.now }
    ensures low { result ≤ branch_room }
{
    if spot.start.0 == spot.end.0 {
        BRANCH_ROOM
    } else {
        JOIN_ROOM
    }
}
