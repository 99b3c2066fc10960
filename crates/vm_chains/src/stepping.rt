//! Steps of a walk along a chain.
ghost use Rattle.std.specs.Prelude.{◌≡◌, ◌≤◌, ◌+◌, ◌⊎◌, ◌∷◌, ◌++◌, [], ℕ, None, Some, true, false, IfOk, IfErr, IfSome, OnOk, MatchOption, MatchResult};
ghost use Rattle.geos_model.specs.Chain.{chain, is_linked, is_member, links, relinked};
ghost use Rattle.geos_model.specs.Document.{Document, is_live, is_vm_handle, raw_bytes_of};
ghost use Rattle.geos_model.specs.declared.fault.Fault.TheVariants.{BadChain, Memory};
ghost use Rattle.vm_blocks.specs.Keeping.{KeepsBlocks, IsHonest, IsEnvironmentFault, is_full, is_loaded};
ghost use Rattle.vm_chains.specs.Alike.{mark_of};
ghost use Rattle.vm_chains.specs.Comparing.{IsMarkedStep};
ghost use Rattle.vm_chains.specs.Numbers.{numbers};
ghost use Rattle.vm_chains.specs.Stepping.{IsAtRoot, IsAlong, IsBroken, IsOver, IsTaken, IsWalkStep, HasMet, HasMetAll, HasPassed};
ghost use Rattle.vm_chains.specs.Walking.{GoesOn, Stops};

use crate::links::{TREE_MARK, links_of, push_link, push_links};
use crate::met::Met;
use crate::pending::Pending;
use crate::renaming::{Renaming, relink};
use geos_model::{Fault, VmHandle};
use raw_region::{RawBody, Region};
use std::alloc::{AllocError, Global};
use vm_blocks::{BlockBody, FileBlocks, MOST_BLOCKS};
use vm_store::Store;

/// A walk along a chain.
#[derive(Drop)]
pub(crate) struct Walk {
    met: Met,
    pending: Pending,
    /// How many blocks may still be met.
    left: usize,
}

impl Walk {
    /// At the root of a chain, with no block met.
    pub(crate) fn new(alloc: Global, root: VmHandle) -> Result<Walk, AllocError>
        ensures { IfOk result (λ walk. IsAtRoot root.0 walk) }
    {
        Ok(Walk {
            met: Met::new(alloc)?,
            pending: Pending::new(alloc, root)?,
            left: MOST_BLOCKS,
        })
    }

    /// The next block, which is in memory then; none at the end. BadChain where the next one is none of a chain or was
    /// met before, or where more are to come than may still be met.
    pub(crate) fn step<S: Store>(
        &mut self,
        blocks: &mut FileBlocks<S>,
    ) -> Result<Option<VmHandle>, Fault>
        // Asked of the caller.
        requires room { is_full blocks.old ≡ false }
        // What stays.
        ensures keeps { KeepsBlocks S.facts blocks.old blocks.new }
        // What is answered.
        ensures value { MatchResult result
            (λ next. MatchOption next (IsOver self.old self.new)
            (λ h. IsWalkStep blocks.new.document h.0 self.old self.new))
            (Stops (IsEnvironmentFault S.facts blocks.old.disk.store blocks.new.disk.store)
            (IsBroken blocks.new.document self.old)) }
        ensures loaded { IfOk result (λ next. IfSome next (λ h. is_loaded blocks.new h.0 ≡ true)) }
    {
        let Some(handle) = self.take_next()? else {
            return Ok(None);
        };
        blocks.reveal_invariant();
        follow(blocks, handle, &mut self.pending)?;
        self.meet(handle)?;
        Ok(Some(handle))
    }

    /// The next block, whose bytes, with a mark for each of its links, are put in place of what is in a buffer; none at
    /// the end. Refused as a step is. The block stays where it is, and is read in a spare region.
    pub(crate) fn step_aside<S: Store>(
        &mut self,
        blocks: &mut FileBlocks<S>,
        spare: &mut Option<Region>,
        bytes: &mut Vec<u8>,
    ) -> Result<Option<VmHandle>, Fault>
        // What stays.
        ensures keeps { KeepsBlocks S.facts blocks.old blocks.new }
        // What is answered.
        ensures value { IsHonest S.facts blocks.old.disk.store → MatchResult result
            (λ next. MatchOption next (IsOver self.old self.new)
            (λ _. IsMarkedStep blocks.new.document bytes.new.items self.old self.new))
            (Stops (IsEnvironmentFault S.facts blocks.old.disk.store blocks.new.disk.store)
            (IsBroken blocks.new.document self.old)) }
        ensures fewer { IfOk result (λ next. IfSome next (λ _. self.old.left ≡ self.new.left + 1)) }
        // Refusals.
        ensures refusals { IfErr result
            (λ fault. IsEnvironmentFault S.facts blocks.old.disk.store blocks.new.disk.store fault
            ⊎ (fault ≡ BadChain)) }
    {
        let Some(handle) = self.take_next()? else {
            return Ok(None);
        };
        blocks.reveal_invariant();
        follow_aside(blocks, handle, spare, &mut self.pending, bytes)?;
        self.meet(handle)?;
        Ok(Some(handle))
    }

    /// The next block; none at the end. Refused as a step is. A block that links to one next block stays where it is.
    fn pass<S: Store>(&mut self, blocks: &mut FileBlocks<S>) -> Result<Option<VmHandle>, Fault>
        // Asked of the caller.
        requires room { is_full blocks.old ≡ false }
        // What stays.
        ensures keeps { KeepsBlocks S.facts blocks.old blocks.new }
        // What is answered.
        ensures value { IsHonest S.facts blocks.old.disk.store → MatchResult result
            (λ next. MatchOption next (IsOver self.old self.new)
            (λ h. IsWalkStep blocks.new.document h.0 self.old self.new))
            (Stops (IsEnvironmentFault S.facts blocks.old.disk.store blocks.new.disk.store)
            (IsBroken blocks.new.document self.old)) }
        ensures passed { MatchResult result
            (λ next. MatchOption next (IsOver self.old self.new)
            (λ h. HasPassed blocks.new.document h.0 self.old self.new))
            (λ fault. IsEnvironmentFault S.facts blocks.old.disk.store blocks.new.disk.store fault
            ⊎ (fault ≡ BadChain)) }
    {
        let Some(handle) = self.take_next()? else {
            return Ok(None);
        };
        blocks.reveal_invariant();
        follow_link(blocks, handle, &mut self.pending)?;
        self.meet(handle)?;
        Ok(Some(handle))
    }

    /// Takes the next block that is pending; none at the end. BadChain where it was met before, or where more are
    /// pending than may still be met.
    fn take_next(&mut self) -> Result<Option<VmHandle>, Fault>
        ensures { MatchResult result
            (λ next. MatchOption next (IsOver self.old self.new) (λ h. IsTaken h.0 self.old self.new))
            (λ fault. (fault ≡ BadChain) × ((d : Document) → IsBroken d self.old)) }
    {
        // Each that is pending would be one more block.
        if self.pending.len() > self.left {
            return Err(Fault::BadChain);
        }
        let Some(handle) = self.pending.pop() else {
            return Ok(None);
        };
        if self.met.contains(handle) {
            return Err(Fault::BadChain);
        }
        Ok(Some(handle))
    }

    /// The block that was taken is met.
    fn meet(&mut self, handle: VmHandle) -> Result<(), AllocError>
        requires handle { is_vm_handle handle.0 ≡ true }
        requires left { 1 ≤ self.old.left }
        ensures { OnOk result ((self.new.met ≡ self.old.met ++ handle.0 ∷ [])
            × (self.new.pending ≡ self.old.pending) × (self.new.left + 1 ≡ self.old.left)) }
    {
        self.met.add(handle)?;
        self.left -= 1;
        Ok(())
    }

    /// Takes all steps that are left, and gives the blocks of the chain.
    pub(crate) fn finish<S: Store>(
        mut self,
        blocks: &mut FileBlocks<S>,
    ) -> Result<Vec<VmHandle>, Fault>
        // Asked of the caller.
        requires room { is_full blocks.old ≡ false }
        // What stays.
        ensures keeps { KeepsBlocks S.facts blocks.old blocks.new }
        // What is answered.
        ensures value { (root : ℕ) → IsHonest S.facts blocks.old.disk.store → IsAlong blocks.old.document root self
            → MatchResult result
            (λ handles. chain blocks.new.document root ≡ Some (numbers handles.items))
            (Stops (IsEnvironmentFault S.facts blocks.old.disk.store blocks.new.disk.store)
            (chain blocks.new.document root ≡ None)) }
        ensures met { (root : ℕ) → HasMet blocks.old.document root self
            → IfOk result (λ handles. HasMetAll blocks.new.document root handles.items) }
        // Refusals.
        ensures refusals { IfErr result
            (λ fault. IsEnvironmentFault S.facts blocks.old.disk.store blocks.new.disk.store fault
            ⊎ (fault ≡ BadChain)) }
    {
        blocks.reveal_invariant();
        while let Some(_next) = self.pass(blocks)? {}
        Ok(self.met.into_handles())
    }
}

/// Brings a block into memory and puts what it links to before all that is pending. BadChain where the block is none of
/// a chain.
fn follow<S: Store>(
    blocks: &mut FileBlocks<S>,
    handle: VmHandle,
    pending: &mut Pending,
) -> Result<(), Fault>
    requires room { is_full blocks.old ≡ false }
    ensures keeps { KeepsBlocks S.facts blocks.old blocks.new }
    ensures value { MatchResult result
        (λ _. GoesOn blocks.new.document handle.0 pending.old pending.new)
        (Stops (IsEnvironmentFault S.facts blocks.old.disk.store blocks.new.disk.store)
        (is_member blocks.new.document handle.0 ≡ false)) }
    ensures loaded { OnOk result (is_loaded blocks.new handle.0 ≡ true) }
{
    if !blocks.is_live(handle) {
        return Err(Fault::BadChain);
    }
    blocks.load(handle)?;
    match blocks.body(handle) {
        BlockBody::Heap(_) => Err(Fault::BadChain),
        BlockBody::Raw(body) => match links_of(body) {
            Some(found) => Ok(push_links(body, &found, pending)?),
            None => Err(Fault::BadChain),
        },
    }
}

/// Puts what a block links to before all that is pending. A block that links to one next block is not brought into
/// memory for that, where no sum says what its whole image is. BadChain where the block is none of a chain.
fn follow_link<S: Store>(
    blocks: &mut FileBlocks<S>,
    handle: VmHandle,
    pending: &mut Pending,
) -> Result<(), Fault>
    // Asked of the caller.
    requires room { is_full blocks.old ≡ false }
    // What stays.
    ensures keeps { KeepsBlocks S.facts blocks.old blocks.new }
    // What is answered.
    ensures value { IsHonest S.facts blocks.old.disk.store → MatchResult result
        (λ _. GoesOn blocks.new.document handle.0 pending.old pending.new)
        (Stops (IsEnvironmentFault S.facts blocks.old.disk.store blocks.new.disk.store)
        (is_member blocks.new.document handle.0 ≡ false)) }
    ensures live { OnOk result (is_live blocks.new.document handle.0 ≡ true) }
    // Refusals.
    ensures refusals { IfErr result
        (λ fault. IsEnvironmentFault S.facts blocks.old.disk.store blocks.new.disk.store fault ⊎ (fault ≡ BadChain)) }
{
    if !blocks.is_live(handle) || blocks.is_heap(handle) {
        return Err(Fault::BadChain);
    }
    match blocks.first_word(handle)? {
        Some(link) if link != TREE_MARK => Ok(push_link(link, pending)?),
        _ => follow(blocks, handle, pending),
    }
}

/// Reads a block in a spare region, puts what it links to before all that is pending, and its bytes, with a mark for
/// each of its links, in place of what is in a buffer. BadChain where the block is none of a chain.
fn follow_aside<S: Store>(
    blocks: &mut FileBlocks<S>,
    handle: VmHandle,
    spare: &mut Option<Region>,
    pending: &mut Pending,
    bytes: &mut Vec<u8>,
) -> Result<(), Fault>
    // What stays.
    ensures keeps { KeepsBlocks S.facts blocks.old blocks.new }
    // What is answered.
    ensures value { IsHonest S.facts blocks.old.disk.store → MatchResult result
        (λ _. GoesOn blocks.new.document handle.0 pending.old pending.new
        × (bytes.new.items ≡ relinked mark_of (raw_bytes_of blocks.new.document handle.0)))
        (Stops (IsEnvironmentFault S.facts blocks.old.disk.store blocks.new.disk.store)
        (is_member blocks.new.document handle.0 ≡ false)) }
    ensures live { OnOk result (is_live blocks.new.document handle.0 ≡ true) }
    // Refusals.
    ensures refusals { IfErr result
        (λ fault. IsEnvironmentFault S.facts blocks.old.disk.store blocks.new.disk.store fault ⊎ (fault ≡ BadChain)) }
{
    if !blocks.is_live(handle) || blocks.is_heap(handle) {
        return Err(Fault::BadChain);
    }
    let body = blocks.read_aside(handle, spare)?;
    mark_links(&body, pending, bytes)?;
    *spare = Some(body.into_region());
    Ok(())
}

/// Puts what a body links to before all that is pending, and its bytes, with a mark for each of its links, in place of
/// what is in a buffer. BadChain where it is none that a block of a chain can have.
fn mark_links(body: &RawBody, pending: &mut Pending, bytes: &mut Vec<u8>) -> Result<(), Fault>
    ensures { MatchResult result
        (λ _. (is_linked body.now ≡ true) × ((pending.new ≡ links body.now ++ pending.old)
        × (bytes.new.items ≡ relinked mark_of body.now)))
        (λ fault. (fault ≡ Memory) ⊎ ((fault ≡ BadChain) × (is_linked body.now ≡ false))) }
{
    let Some(found) = links_of(body) else {
        return Err(Fault::BadChain);
    };
    push_links(body, &found, pending)?;
    relink(body, found, &Renaming::Marks, bytes)?;
    Ok(())
}
