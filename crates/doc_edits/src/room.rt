//! Whether there is room in memory to follow a chain or a large array, which may take any frame. Nothing is brought in
//! for it.
ghost use Rattle.std.specs.Prelude.{◌≡◌, ◌∷◌, ◌++◌, true, false, IfErr, IfOk, MatchResult, Some};
ghost use Rattle.geos_model.specs.Chain.{on_chains};
ghost use Rattle.geos_model.specs.Refusal.{Conditions, first_refusal};
ghost use Rattle.geos_model.specs.declared.fault.Fault.TheVariants.{CacheFull};
ghost use Rattle.geos_model.specs.Document.{is_raw};
ghost use Rattle.geos_model.specs.Meaning.{on_raw};
ghost use Rattle.vm_blocks.specs.Keeping.{is_full};
ghost use Rattle.vm_blocks.specs.Kinds.{IsWrongBlock};
ghost use Rattle.vm_chains.specs.Answers.{IsWrongRoot};
ghost use Rattle.doc_edits.specs.Found.{AreLate};
ghost use Rattle.doc_edits.specs.Room.{IsRefusedEarly};

use geos_model::{Fault, VmHandle};
use vm_blocks::FileBlocks;
use vm_chains::{test_root, test_roots};
use vm_store::Store;

/// NoBlock and WrongKind as the root of a chain or of a large array may be refused, and then CacheFull where each frame
/// has a locked block.
pub fn test_chain<S: Store>(blocks: &FileBlocks<S>, root: VmHandle) -> Result<(), Fault>
    ensures value { MatchResult result (λ _. is_full blocks.now ≡ false)
        (λ fault. (rest : Conditions) → AreLate rest
        → first_refusal ((CacheFull, is_full blocks.now) ∷ on_raw blocks.now.document root.0 ++ rest) ≡ Some fault) }
    ensures raw { IfOk result (λ _. is_raw blocks.now.document root.0 ≡ true) }
    ensures refusals { IfErr result
        (IsRefusedEarly (IsWrongBlock is_raw blocks.now.document root.0) (is_full blocks.now)) }
{
    test_root(blocks, root)?;
    test_frames(blocks)
}

/// The same of two chains, of which both roots are looked at first.
pub fn test_chains<S: Store>(
    blocks: &FileBlocks<S>,
    first: VmHandle,
    second: VmHandle,
) -> Result<(), Fault>
    ensures value { MatchResult result (λ _. is_full blocks.now ≡ false)
        (λ fault. first_refusal
        ((CacheFull, is_full blocks.now) ∷ on_chains blocks.now.document first.0 second.0) ≡ Some fault) }
    ensures refusals { IfErr result
        (IsRefusedEarly (IsWrongRoot blocks.now.document first.0 second.0) (is_full blocks.now)) }
{
    test_roots(blocks, first, second)?;
    test_frames(blocks)
}

/// CacheFull where each frame has a locked block.
fn test_frames<S: Store>(blocks: &FileBlocks<S>) -> Result<(), Fault>
    ensures { MatchResult result (λ _. is_full blocks.now ≡ false)
        (λ fault. (fault ≡ CacheFull) × (is_full blocks.now ≡ true)) }
{
    if blocks.all_locked() {
        Err(Fault::CacheFull)
    } else {
        Ok(())
    }
}
