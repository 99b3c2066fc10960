//! Plans of edits of large arrays: the changes that make one of a document, all of them or none.
ghost use Rattle.std.specs.Prelude.{◌≡◌, ◌⊎◌, ◌≢◌, ◌≤◌, ◌<◌, ◌+◌, ◌∷◌, [], ◌==◌, ◌&&◌, Some, true, false, IfOk, IfErr, MatchResult, length};
ghost use Rattle.geos_model.specs.Refusal.{first_refusal};
ghost use Rattle.geos_model.specs.declared.fault.Fault.TheVariants.{NoElement, BadChain, IsMap, NoHandles};
ghost use Rattle.vm_blocks.specs.Keeping.{KeepsBlocks, IsHonest, IsEnvironmentFault, is_full};
ghost use Rattle.vm_blocks.specs.Preparing.{CanApplyAllByHandle};
ghost use Rattle.vm_chains.specs.Answers.{AnswersChain};
ghost use Rattle.geos_model.specs.LargeBlocks.{root_at};
ghost use Rattle.geos_model.specs.LargeEdits.{element_count, large_inserted, large_set, large_deleted, insert_large_conditions, set_large_conditions, delete_large_conditions, on_window, on_run};
ghost use Rattle.large_arrays.specs.EditPlans.{PlansLargeEdit, IsGivenFault, IsPastFault, IsSettingFault, IsLargeEditRefusal};
ghost use Rattle.geos_model.specs.ChangedBlocks.{replaced_blocks, overwritten_blocks, inserted_blocks, set_blocks, deleted_blocks};
ghost use Rattle.geos_model.specs.LargeLayout.{greatest_element_size, total_count};
ghost use Rattle.large_arrays.specs.Loading.{IsRootLoaded};
ghost use Rattle.large_arrays.specs.Replacements.{CanReplace, IsDeletion, IsInsertion, IsSetting, insertion_conditions, setting_conditions};
ghost use Rattle.geos_model.specs.LargeWindow.{elements_replaced, elements_overwritten};

use crate::changes::plan_body;
use crate::gathering::gather;
use crate::loading::{load_root, loaded_root, raw_bytes};
use crate::overwriting::plan_overwriting;
use crate::spot::Spot;
use crate::window_plan::plan_window;
use crate::within::{branch_edit, plan_within};
use geos_model::{Fault, VmHandle};
use large_bodies::{CutBody, NewElements, RootView};
use std::alloc::{AllocError, Global};
use vm_blocks::{Change, FileBlocks};
use vm_store::Store;

/// Of the edit that puts elements in before the one at `i`, or behind the last one: as many as the bytes are, of an
/// array whose elements vary in size one. NoBlock, WrongKind, NotArray; Range past the last one, or where the bytes are
/// no whole number of elements; TooBig where no branch has room for the one that they are. Only then branches are
/// looked at: BadChain, IsMap, NoHandles. Memory, File, Damaged.
pub fn plan_insertion<S: Store>(
    alloc: Global,
    blocks: &mut FileBlocks<S>,
    root: VmHandle,
    i: u32,
    bytes: &[u8],
) -> Result<Vec<Change>, Fault>
    requires room { is_full blocks.old ≡ false }
    // What stays.
    ensures keeps { KeepsBlocks S.facts blocks.old blocks.new }
    // What is answered.
    ensures value { IsHonest S.facts blocks.old.disk.store
        → AnswersChain (IsEnvironmentFault S.facts blocks.old.disk.store blocks.new.disk.store)
        (insert_large_conditions blocks.new.document root.0 i bytes.now)
        (λ changes. PlansLargeEdit blocks.new.document (large_inserted blocks.new.document root.0 i bytes.now)
        (inserted_blocks blocks.new.document root.0 i bytes.now) changes.items) result }
    // Over any store.
    ensures listed { IfOk result (λ changes. CanApplyAllByHandle changes.items blocks.new.document) }
    ensures some { IfOk result (λ changes. 0 < length changes.items) }
    ensures refusals { IfErr result
        (IsLargeEditRefusal IsGivenFault (IsEnvironmentFault S.facts blocks.old.disk.store blocks.new.disk.store)
        blocks.old.document root.0) }
{
    load_root(blocks, root)?;
    let edit = insertion(&loaded_root(blocks, root), i, bytes)?;
    plan_replacement(alloc, blocks, root, &edit)
}

/// Of the edit that puts bytes in the place of elements from the one at `i` on: of an array whose elements vary in size
/// they are one element, else as many as they are. Refused as an insertion, but NoElement where there are too few, and
/// where elements have one size neither IsMap nor NoHandles.
pub fn plan_setting<S: Store>(
    alloc: Global,
    blocks: &mut FileBlocks<S>,
    root: VmHandle,
    i: u32,
    bytes: &[u8],
) -> Result<Vec<Change>, Fault>
    requires room { is_full blocks.old ≡ false }
    // What stays.
    ensures keeps { KeepsBlocks S.facts blocks.old blocks.new }
    // What is answered.
    ensures value { IsHonest S.facts blocks.old.disk.store
        → AnswersChain (IsEnvironmentFault S.facts blocks.old.disk.store blocks.new.disk.store)
        (set_large_conditions blocks.new.document root.0 i bytes.now)
        (λ changes. PlansLargeEdit blocks.new.document (large_set blocks.new.document root.0 i bytes.now)
        (set_blocks blocks.new.document root.0 i bytes.now) changes.items) result }
    // Over any store.
    ensures listed { IfOk result (λ changes. CanApplyAllByHandle changes.items blocks.new.document) }
    ensures some { IfOk result (λ changes. 0 < length changes.items) }
    ensures refusals { IfErr result
        (IsLargeEditRefusal IsSettingFault (IsEnvironmentFault S.facts blocks.old.disk.store blocks.new.disk.store)
        blocks.old.document root.0) }
{
    load_root(blocks, root)?;
    let edit = setting(&loaded_root(blocks, root), i, bytes)?;
    if edit.new_elements.element_size() != 0 {
        return plan_writing(alloc, blocks, root, &edit);
    }
    plan_replacement(alloc, blocks, root, &edit)
}

/// Of the edit that takes `n` elements out from the one at `i` on. NoBlock, WrongKind, NotArray; NoElement where there
/// are too few; BadChain, IsMap, NoHandles. Memory, File, Damaged.
pub fn plan_deletion<S: Store>(
    alloc: Global,
    blocks: &mut FileBlocks<S>,
    root: VmHandle,
    i: u32,
    n: u32,
) -> Result<Vec<Change>, Fault>
    requires room { is_full blocks.old ≡ false }
    // What stays.
    ensures keeps { KeepsBlocks S.facts blocks.old blocks.new }
    // What is answered.
    ensures value { IsHonest S.facts blocks.old.disk.store
        → AnswersChain (IsEnvironmentFault S.facts blocks.old.disk.store blocks.new.disk.store)
        (delete_large_conditions blocks.new.document root.0 i n)
        (λ changes. PlansLargeEdit blocks.new.document (large_deleted blocks.new.document root.0 i n)
        (deleted_blocks blocks.new.document root.0 i n) changes.items)
        result }
    // Over any store.
    ensures listed { IfOk result (λ changes. CanApplyAllByHandle changes.items blocks.new.document) }
    ensures some { IfOk result (λ changes. 0 < length changes.items) }
    ensures refusals { IfErr result
        (IsLargeEditRefusal IsPastFault (IsEnvironmentFault S.facts blocks.old.disk.store blocks.new.disk.store)
        blocks.old.document root.0) }
{
    load_root(blocks, root)?;
    let edit = deletion(&loaded_root(blocks, root), i, n)?;
    plan_replacement(alloc, blocks, root, &edit)
}

/// Elements that come in the place of those from one up to another.
#[derive(Drop)]
struct Replacement<'a> {
    start: u32,
    end: u32,
    new_elements: NewElements<'a>,
}

impl<'a> Replacement<'a> {
    /// Whether no element goes, and none comes.
    fn is_nothing(&self) -> bool
        ensures { result ≡ ((self.now.start == self.now.end) && (length self.now.new_elements.elements == 0)) }
    {
        self.start == self.end && self.new_elements.count() == 0
    }
}

/// That of an insertion, before branches are looked at. Range, TooBig.
fn insertion<'a>(root: &RootView<'_>, i: u32, bytes: &'a [u8]) -> Result<Replacement<'a>, Fault>
    requires { root.now.size ≤ greatest_element_size }
    ensures { MatchResult result (IsInsertion root.now i bytes.now)
        (λ fault. first_refusal (insertion_conditions root.now i bytes.now) ≡ Some fault) }
{
    if i > root.total() {
        return Err(Fault::Range);
    }
    let new_elements = NewElements::new(bytes, root.element_size())?;
    Ok(Replacement {
        start: i,
        end: i,
        new_elements,
    })
}

/// That of a setting. NoElement, Range, TooBig.
fn setting<'a>(root: &RootView<'_>, i: u32, bytes: &'a [u8]) -> Result<Replacement<'a>, Fault>
    requires { root.now.size ≤ greatest_element_size }
    ensures { MatchResult result (IsSetting root.now i bytes.now)
        (λ fault. first_refusal (setting_conditions root.now i bytes.now) ≡ Some fault) }
{
    let end = u64::from(i) + elements_begun(bytes, root.element_size());
    if end > u64::from(root.total()) {
        return Err(Fault::NoElement);
    }
    let new_elements = NewElements::new(bytes, root.element_size())?;
    Ok(Replacement {
        start: i,
        end: end as u32,
        new_elements,
    })
}

/// That of a deletion. NoElement.
fn deletion<'a>(root: &RootView<'_>, i: u32, n: u32) -> Result<Replacement<'a>, Fault>
    ensures { MatchResult result (IsDeletion root.now i n)
        (λ fault. (fault ≡ NoElement) × (total_count root.now < i + n)) }
{
    let end = u64::from(i) + u64::from(n);
    if end > u64::from(root.total()) {
        return Err(Fault::NoElement);
    }
    Ok(Replacement {
        start: i,
        end: end as u32,
        new_elements: NewElements::none(root.element_size()),
    })
}

/// How many elements of a size bytes are, 0 where sizes vary: one that is begun is one.
fn elements_begun(bytes: &[u8], size: usize) -> u64
    requires { size ≤ greatest_element_size }
    ensures value { result ≡ element_count size bytes.now }
    ensures few { result ≤ length bytes.now + 1 }
{
    if size == 0 {
        return 1;
    }
    ((bytes.len() + (size - 1)) / size) as u64
}

/// The change of an edit of no element: the root, which is in memory, becomes what it is.
fn plan_nothing<S: Store>(
    alloc: Global,
    blocks: &FileBlocks<S>,
    root: VmHandle,
) -> Result<Vec<Change>, AllocError>
    requires { IsRootLoaded blocks.now root.0 }
    ensures planned { IfOk result (λ changes.
        PlansLargeEdit blocks.now.document blocks.now.document (root.0 ∷ []) changes.items) }
    ensures listed { IfOk result (λ changes. CanApplyAllByHandle changes.items blocks.now.document) }
    ensures some { IfOk result (λ changes. 0 < length changes.items) }
{
    let bytes = raw_bytes(blocks, root);
    let body = CutBody::new(bytes, 0, 0);
    let mut changes = Vec::new(alloc);
    plan_body(alloc, &mut changes, root, &body, &body)?;
    Ok(changes)
}

/// The changes by which elements come in the place of others of the root, which is in memory. BadChain, IsMap,
/// NoHandles; Memory, File, Damaged.
fn plan_replacement<S: Store>(
    alloc: Global,
    blocks: &mut FileBlocks<S>,
    root: VmHandle,
    edit: &Replacement<'_>,
) -> Result<Vec<Change>, Fault>
    // Asked of the caller.
    requires room { is_full blocks.old ≡ false }
    requires loaded { IsRootLoaded blocks.old root.0 }
    requires edit { CanReplace (root_at blocks.old.document root.0) edit.now }
    // What stays.
    ensures keeps { KeepsBlocks S.facts blocks.old blocks.new }
    // What is answered.
    ensures value { IsHonest S.facts blocks.old.disk.store
        → AnswersChain (IsEnvironmentFault S.facts blocks.old.disk.store blocks.new.disk.store)
        (on_window true blocks.new.document root.0 edit.now.start edit.now.end edit.now.new_elements.elements)
        (λ changes. PlansLargeEdit blocks.new.document
        (elements_replaced blocks.new.document root.0 edit.now.start edit.now.end edit.now.new_elements.elements)
        (replaced_blocks blocks.new.document root.0 edit.now.start edit.now.end edit.now.new_elements.elements)
        changes.items) result }
    // Over any store.
    ensures listed { IfOk result (λ changes. CanApplyAllByHandle changes.items blocks.new.document) }
    ensures some { IfOk result (λ changes. 0 < length changes.items) }
    ensures refusals { IfErr result (λ fault.
        IsEnvironmentFault S.facts blocks.old.disk.store blocks.new.disk.store fault
        ⊎ ((fault ≡ BadChain) ⊎ ((fault ≡ IsMap) ⊎ (fault ≡ NoHandles)))) }
{
    if edit.is_nothing() {
        return Ok(plan_nothing(alloc, blocks, root)?);
    }
    let spot = Spot::new(alloc, &loaded_root(blocks, root), edit.start, edit.end)?;
    if let Some(within) = branch_edit(&spot, &edit.new_elements) {
        return plan_within(alloc, blocks, root, &spot, &within, &edit.new_elements);
    }
    let gathered = gather(alloc, blocks, root, &spot, &edit.new_elements)?;
    plan_window(alloc, blocks, root, spot.branches, &gathered)
}

/// The changes by which elements of one size are written over as many of the root, which is in memory. BadChain;
/// Memory, File, Damaged.
fn plan_writing<S: Store>(
    alloc: Global,
    blocks: &mut FileBlocks<S>,
    root: VmHandle,
    edit: &Replacement<'_>,
) -> Result<Vec<Change>, Fault>
    // Asked of the caller.
    requires room { is_full blocks.old ≡ false }
    requires loaded { IsRootLoaded blocks.old root.0 }
    requires edit { CanReplace (root_at blocks.old.document root.0) edit.now }
    requires sized { edit.now.new_elements.size ≢ 0 }
    requires as_many { edit.now.end ≡ edit.now.start + length edit.now.new_elements.elements }
    // What stays.
    ensures keeps { KeepsBlocks S.facts blocks.old blocks.new }
    // What is answered.
    ensures value { IsHonest S.facts blocks.old.disk.store
        → AnswersChain (IsEnvironmentFault S.facts blocks.old.disk.store blocks.new.disk.store)
        (on_run true blocks.new.document root.0 edit.now.start (length edit.now.new_elements.elements))
        (λ changes. PlansLargeEdit blocks.new.document
        (elements_overwritten blocks.new.document root.0 edit.now.start edit.now.new_elements.elements)
        (overwritten_blocks blocks.new.document root.0 edit.now.start (length edit.now.new_elements.elements))
        changes.items) result }
    // Over any store.
    ensures listed { IfOk result (λ changes. CanApplyAllByHandle changes.items blocks.new.document) }
    ensures some { IfOk result (λ changes. 0 < length changes.items) }
    ensures refusals { IfErr result (λ fault.
        IsEnvironmentFault S.facts blocks.old.disk.store blocks.new.disk.store fault ⊎ (fault ≡ BadChain)) }
{
    if edit.new_elements.count() == 0 {
        return Ok(plan_nothing(alloc, blocks, root)?);
    }
    let spot = Spot::new(alloc, &loaded_root(blocks, root), edit.start, edit.end)?;
    plan_overwriting(alloc, blocks, root, &spot, &edit.new_elements)
}
