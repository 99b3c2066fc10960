//! A patch of a raw body, with what is known of it.
ghost use Rattle.std.specs.Prelude.{◌≡◌, ◌≤◌, true, length};
ghost use Rattle.geos_model.specs.Heap.{capacity};
ghost use Rattle.chunk_edits.specs.Patching.{directed_pieces, patched, peak, total_taken};
ghost use Rattle.chunk_edits.specs.Roots.{KeepsRoots};
ghost use Rattle.raw_region.specs.Roots.{is_large_root};

use crate::direction::Direction;
use crate::patch::{Patch, patch_raw};
use raw_region::RawBody;
use std::marker::Model;
use std::mem::size_of;

/// A patch of a raw body, of which it may be known that it makes roots of large arrays of roots. Contracts see the
/// patch alone.
#[derive(Drop)]
pub struct RawPatch {
    patch: Patch,
    keeps_roots: bool,
}

// Each step of the log keeps it in itself, within what a step takes.
const _: () = prove!(size_of::<RawPatch>() <= 32);

impl Model for RawPatch {
    ghost use Rattle.std.specs.Prelude.{◌≡◌, List, true};
    ghost use Rattle.chunk_edits.specs.Patching.{PatchPiece};
    ghost use Rattle.chunk_edits.specs.Roots.{KeepsRoots};

    ghost Value = { List PatchPiece };

    ghost view = { λ p. p.patch };

    ghost invariant = { λ p. p.keeps_roots ≡ true → KeepsRoots p.patch };
}

impl RawPatch {
    /// A patch of which nothing more is known.
    pub fn new(patch: Patch) -> RawPatch
        ensures { result ≡ patch }
    {
        RawPatch {
            patch,
            keeps_roots: false,
        }
    }

    /// A patch that makes of each root of a large array that it is of another one, in either direction.
    pub fn root_keeping(patch: Patch) -> RawPatch
        requires { KeepsRoots patch }
        ensures { result ≡ patch }
    {
        RawPatch {
            patch,
            keeps_roots: true,
        }
    }

    /// The patch.
    pub fn as_patch(&self) -> &Patch
        ensures { result.now ≡ self.now }
    {
        &self.patch
    }

    /// Whether it is known that a raw body is the root of a large array, and that the patch makes another one of it.
    fn keeps_root(&self, body: &RawBody, direction: Direction) -> bool
        ensures { result ≡ true → is_large_root (patched (directed_pieces direction self.now) body.now) ≡ true }
    {
        self.keeps_roots && body.is_known_root() && self.patch.is_of(body.bytes(), direction)
    }
}

/// Makes of a raw body what a patch makes of it in a direction. A body that is known to be the root of a large array
/// stays known to be one where the patch keeps roots, and is of its bytes.
pub fn apply_raw_patch(body: &mut RawBody, patch: &RawPatch, direction: Direction)
    requires size { total_taken (directed_pieces direction patch.now) ≡ length body.old }
    requires room { peak patch.now ≤ capacity }
    ensures { body.new ≡ patched (directed_pieces direction patch.now) body.old }
{
    let stays_root = patch.keeps_root(body, direction);
    patch_raw(body, &patch.patch, direction);
    if stays_root {
        body.mark_root();
    }
}
