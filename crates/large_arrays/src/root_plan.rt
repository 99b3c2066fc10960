//! The changes by which a root gets its bytes after an edit.
ghost use Rattle.std.specs.Prelude.{◌≡◌, ◌⊎◌, ◌≤◌, ◌+◌, ◌-◌, ◌∷◌, [], ℕ, List, true, false, IfOk, IfErr, OnOk, MatchResult, length, map, is_some};
ghost use Rattle.geos_model.specs.Document.{is_raw, raw_bytes_of};
ghost use Rattle.geos_model.specs.Heap.{capacity};
ghost use Rattle.geos_model.specs.declared.fault.Fault.TheVariants.{Damaged, Memory};
ghost use Rattle.vm_blocks.specs.Keeping.{KeepsBlocks, IsHonest, IsEnvironmentFault, is_full};
ghost use Rattle.vm_chains.specs.Numbers.{numbers};
ghost use Rattle.geos_model.specs.LargeLayout.{most_branches, root_bytes, root_of};
ghost use Rattle.geos_model.specs.LargeBlocks.{root_at};
ghost use Rattle.large_arrays.specs.ChangePlans.{ArePlanned, ArePlannedByHandle, IsUntouched};
ghost use Rattle.large_arrays.specs.Loading.{IsRootLoaded};
ghost use Rattle.large_arrays.specs.WindowPlans.{HasGatheredRoot, gathered_root};

use crate::changes::plan_body;
use crate::gathered::Gathered;
use crate::loading::{load_root, loaded_root, raw_bytes};
use crate::root_edits::new_root;
use byteorder::{ByteOrder, LittleEndian};
use geos_model::{Fault, VmHandle};
use large_bodies::{CutBody, Pieces, RootView};
use std::alloc::{AllocError, Global};
use vm_blocks::{Change, FileBlocks};
use vm_store::Store;

/// How many bytes of a root stand before its counts.
const HEADER: usize = 16;

/// Behind the changes by which blocks go those by which a root, which has so many branches, gets those of the pieces,
/// with these blocks, in the place of the ones that were gathered. Memory, File, Damaged.
pub(crate) fn plan_root<S: Store>(
    alloc: Global,
    blocks: &mut FileBlocks<S>,
    root: VmHandle,
    branches: usize,
    gathered: &Gathered,
    handles: &[VmHandle],
    changes: &mut Vec<Change>,
) -> Result<(), Fault>
    // Asked of the caller.
    requires room { is_full blocks.old ≡ false }
    requires root { IsHonest S.facts blocks.old.disk.store
        → HasGatheredRoot blocks.old.document root.0 branches gathered.now }
    requires many { length handles.now ≡ length gathered.now.pieces.pieces }
    requires few { branches - length gathered.now.olds.items + length handles.now ≤ most_branches }
    // What stays.
    ensures keeps { KeepsBlocks S.facts blocks.old blocks.new }
    // What is planned.
    ensures raw { OnOk result (is_raw blocks.new.document root.0 ≡ true) }
    ensures planned { OnOk result ((freed : List ℕ) → ArePlanned changes.old.items blocks.new.document freed []
        → IsUntouched freed [] root.0 → ArePlanned changes.new.items blocks.new.document freed
        ((
          root.0,
          root_bytes
              (gathered_root (root_at blocks.new.document root.0) gathered.now (numbers handles.now)),
        ) ∷ [])) }
    ensures listed { OnOk result ((freed : List ℕ) → ArePlannedByHandle changes.old.items blocks.new.document freed []
        → IsUntouched freed [] root.0 → ArePlannedByHandle changes.new.items blocks.new.document freed
        ((
          root.0,
          root_bytes
              (gathered_root (root_at blocks.new.document root.0) gathered.now (numbers handles.now)),
        ) ∷ [])) }
    ensures more { OnOk result (length changes.new.items ≡ length changes.old.items + 1) }
    // Refusals.
    ensures refusals { IfErr result (IsEnvironmentFault S.facts blocks.old.disk.store blocks.new.disk.store) }
{
    load_again(blocks, root)?;
    let bytes = replaced_bytes(
        alloc,
        &loaded_root(blocks, root),
        branches,
        gathered,
        handles,
    )?;
    let old = cut_root(raw_bytes(blocks, root));
    plan_body(alloc, changes, root, &old, &cut_root(&bytes))?;
    Ok(())
}

/// Brings a root into memory that was there before: a branch may have taken its frame. Where it is none any more the
/// store gave back something else: Damaged; Memory, File.
fn load_again<S: Store>(blocks: &mut FileBlocks<S>, root: VmHandle) -> Result<(), Fault>
    requires room { is_full blocks.old ≡ false }
    requires root { IsHonest S.facts blocks.old.disk.store
        → (is_raw blocks.old.document root.0 ≡ true)
        × (is_some (root_of (raw_bytes_of blocks.old.document root.0)) ≡ true) }
    ensures keeps { KeepsBlocks S.facts blocks.old blocks.new }
    ensures value { MatchResult result
        (λ _. IsRootLoaded blocks.new root.0)
        (IsEnvironmentFault S.facts blocks.old.disk.store blocks.new.disk.store) }
{
    let Err(fault) = load_root(blocks, root) else {
        return Ok(());
    };
    match fault {
        Fault::Memory => Err(Fault::Memory),
        Fault::File => Err(Fault::File),
        _ => Err(Fault::Damaged),
    }
}

/// The bytes of the root after the edit. Damaged where it hasn't so many branches, or those that were gathered aren't
/// among them; Memory.
fn replaced_bytes(
    alloc: Global,
    root: &RootView<'_>,
    branches: usize,
    gathered: &Gathered,
    handles: &[VmHandle],
) -> Result<Vec<u8>, Fault>
    requires many { length handles.now ≡ length gathered.now.pieces.pieces }
    requires few { branches - length gathered.now.olds.items + length handles.now ≤ most_branches }
    ensures value { MatchResult result
        (λ bytes. bytes.items ≡ root_bytes (gathered_root root.now gathered.now (numbers handles.now)))
        (λ fault. (fault ≡ Memory) ⊎ ((fault ≡ Damaged)
        × (length root.now.branches ≡ branches → gathered.now.first + length gathered.now.olds.items ≤ branches → ⊥))) }
    ensures short { IfOk result (λ bytes. length bytes.items ≤ capacity) }
{
    let first = gathered.first;
    let behind = first.saturating_add(gathered.olds.len());
    if root.branches() != branches || branches < behind {
        return Err(Fault::Damaged);
    }
    let counts = counts_of(alloc, &gathered.pieces)?;
    Ok(new_root(alloc, root, first, behind, &counts, handles)?)
}

/// How many elements each piece has.
fn counts_of(alloc: Global, pieces: &Pieces) -> Result<Vec<u16>, AllocError>
    ensures { IfOk result (λ counts. counts.items ≡ map length pieces.now.pieces) }
{
    let mut counts = Vec::with_capacity(alloc, pieces.len())?;
    for k in 0..pieces.len() {
        counts.push(pieces.get(k).count() as u16)?;
    }
    Ok(counts)
}

/// The bytes of a root, cut where its counts begin and where its branches do.
fn cut_root<'a>(bytes: &'a [u8]) -> CutBody<'a>
    requires { length bytes.now ≤ capacity }
    ensures { result.bytes.now ≡ bytes.now }
{
    let header = bytes.len().min(HEADER);
    if header < HEADER {
        return CutBody::new(bytes, header, header);
    }
    let counts = 2 * usize::from(LittleEndian::read_u16(&bytes[4..]));
    CutBody::new(bytes, header, bytes.len().min(header + counts))
}
