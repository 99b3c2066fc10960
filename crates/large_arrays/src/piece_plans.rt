//! The changes by which pieces get their blocks.
ghost use Rattle.std.specs.Prelude.{◌≡◌, ◌≤◌, ◌<◌, ◌+◌, ◌++◌, ◌∷◌, [], ℕ, List, true, OnOk, MatchOption, length, get_or, map};
ghost use Rattle.std.specs.List.{All, AllZip, Contains, zip};
ghost use Rattle.geos_model.specs.Document.{Document, is_live};
ghost use Rattle.geos_model.specs.Heap.{capacity};
ghost use Rattle.geos_model.specs.LargeLayout.{branch_bytes};
ghost use Rattle.large_arrays.specs.ChangePlans.{ArePlanned, ArePlannedByHandle, IsUntouched, piece_bodies};
ghost use Rattle.large_arrays.specs.Gathering.{HasOldBody};
ghost use Rattle.vm_chains.specs.Numbers.{numbers};
ghost use Rattle.large_arrays.specs.HandleLists.{ShareNoHandle, old_handles};
ghost use Rattle.large_arrays.specs.WindowPlans.{AreHomes, IsHome};

use crate::changes::{plan_block, plan_body};
use crate::gathered::Gathered;
use byteorder::{ByteOrder, LittleEndian};
use geos_model::VmHandle;
use large_bodies::{CutBody, Piece};
use std::alloc::{AllocError, Global};
use vm_blocks::Change;

/// How many bytes of a branch stand before its elements' places: a zero word, and the header of a chunk array.
const HEADER: usize = 10;

/// Behind the others the changes by which each piece gets its block: one of the old ones, whose body becomes another,
/// or one that comes in.
pub(crate) fn plan_pieces(
    alloc: Global,
    gathered: &Gathered,
    handles: &[VmHandle],
    changes: &mut Vec<Change>,
) -> Result<(), AllocError>
    requires many { length handles.now ≡ length gathered.now.pieces.pieces }
    requires bodies { length gathered.now.bodies.items ≡ length gathered.now.olds.items }
    requires short { All (λ body. length body.items ≤ capacity) gathered.now.bodies.items }
    ensures planned { OnOk result ((d : Document) (freed : List ℕ) (bodies : List (ℕ × List ℕ))
        → ArePlanned changes.old.items d freed bodies
        → AllZip (λ old body. HasOldBody d old.handle.0 body.items) gathered.now.olds.items gathered.now.bodies.items
        → AreHomes d (old_handles gathered.now.olds.items) (numbers handles.now)
        → ShareNoHandle freed (numbers handles.now) → ShareNoHandle (map (λ p. p.0) bodies) (numbers handles.now)
        → ArePlanned changes.new.items d freed (bodies
        ++ piece_bodies gathered.now.pieces.size (zip (numbers handles.now) gathered.now.pieces.pieces))) }
    ensures listed { OnOk result ((d : Document) (freed : List ℕ) (bodies : List (ℕ × List ℕ))
        → ArePlannedByHandle changes.old.items d freed bodies
        → All (λ old. is_live d old.handle.0 ≡ true) gathered.now.olds.items
        → AreHomes d (old_handles gathered.now.olds.items) (numbers handles.now)
        → ShareNoHandle freed (numbers handles.now) → ShareNoHandle (map (λ p. p.0) bodies) (numbers handles.now)
        → ArePlannedByHandle changes.new.items d freed (bodies
        ++ piece_bodies gathered.now.pieces.size (zip (numbers handles.now) gathered.now.pieces.pieces))) }
    ensures more { OnOk result (length changes.new.items ≡ length changes.old.items + length handles.now) }
{
    for k in 0..handles.len() {
        plan_piece(alloc, gathered, handles[k], gathered.pieces.get(k), changes)?;
    }
    Ok(())
}

/// So of one piece.
fn plan_piece(
    alloc: Global,
    gathered: &Gathered,
    handle: VmHandle,
    piece: &Piece,
    changes: &mut Vec<Change>,
) -> Result<(), AllocError>
    requires bodies { length gathered.now.bodies.items ≡ length gathered.now.olds.items }
    requires short { All (λ body. length body.items ≤ capacity) gathered.now.bodies.items }
    ensures planned { OnOk result ((d : Document) (freed : List ℕ) (bodies : List (ℕ × List ℕ))
        → ArePlanned changes.old.items d freed bodies
        → AllZip (λ old body. HasOldBody d old.handle.0 body.items) gathered.now.olds.items gathered.now.bodies.items
        → IsHome d (old_handles gathered.now.olds.items) handle.0 → IsUntouched freed bodies handle.0
        → ArePlanned changes.new.items d freed
        (bodies ++ (handle.0, branch_bytes piece.now.size piece.now.elements) ∷ [])) }
    ensures listed { OnOk result ((d : Document) (freed : List ℕ) (bodies : List (ℕ × List ℕ))
        → ArePlannedByHandle changes.old.items d freed bodies
        → All (λ old. is_live d old.handle.0 ≡ true) gathered.now.olds.items
        → IsHome d (old_handles gathered.now.olds.items) handle.0 → IsUntouched freed bodies handle.0
        → ArePlannedByHandle changes.new.items d freed
        (bodies ++ (handle.0, branch_bytes piece.now.size piece.now.elements) ∷ [])) }
    ensures more { OnOk result (length changes.new.items ≡ length changes.old.items + 1) }
{
    let body = piece.body(alloc)?;
    match place_of(gathered, handle) {
        Some(i) => {
            let size = piece.element_size();
            let old = cut_branch(&gathered.bodies[i], size);
            plan_body(alloc, changes, handle, &old, &cut_branch(&body, size))
        }
        None => plan_block(alloc, changes, handle, body),
    }
}

/// The place of a block among the old ones.
pub(crate) fn place_of(gathered: &Gathered, handle: VmHandle) -> Option<usize>
    ensures { MatchOption result
        (Contains (old_handles gathered.now.olds.items) handle.0 → ⊥)
        (λ i. (i < length gathered.now.olds.items)
        × (get_or (old_handles gathered.now.olds.items) i 0 ≡ handle.0)) }
{
    for i in 0..gathered.olds.len() {
        if gathered.olds[i].handle == handle {
            return Some(i);
        }
    }
    None
}

/// The bytes of a branch, cut where its table of places begins and where its elements do.
fn cut_branch<'a>(bytes: &'a [u8], size: usize) -> CutBody<'a>
    requires { length bytes.now ≤ capacity }
    ensures { result.bytes.now ≡ bytes.now }
{
    let header = bytes.len().min(HEADER);
    if size != 0 || header < HEADER {
        return CutBody::new(bytes, header, header);
    }
    let places = 2 * usize::from(LittleEndian::read_u16(&bytes[2..]));
    CutBody::new(bytes, header, bytes.len().min(header + places))
}
