//! Changes of a run of bytes that lie with the caller: they are carried out as the change that they are, with no change
//! of their own.
ghost use Rattle.std.specs.Prelude.{◌≡◌, [], Err, true, is_some, IsOk, IsSome, IfErr, OnOk, OnErr};
ghost use Rattle.geos_model.specs.Document.{block_at, is_heap, is_live, is_valid_body};
ghost use Rattle.vm_blocks.specs.ByteChanges.{byte_change, byte_part};
ghost use Rattle.vm_blocks.specs.Changes.{after_change, directed, incoming_blocks};
ghost use Rattle.vm_blocks.specs.InPlace.{TriesPart, TriesPartInMemory};
ghost use Rattle.vm_blocks.specs.Keeping.{KeepsBlocks, is_loaded};
ghost use Rattle.vm_blocks.specs.LoadedRuns.{LoadsAndReplaces, TriesRunInMemory};
ghost use Rattle.vm_blocks.specs.Runs.{IsKindOfRun, TriesRun};
ghost use Rattle.vm_blocks.specs.Preparing.{CanApplyByHandle, AllowsChange, IsInMemory, IsShutOut, CantPrepare, IsApplied, AppliesChange};

use super::FileBlocks;
use crate::part::change_in_frame;
use crate::run::replace_in_frame;
use crate::{ByteChange, Direction, Recorder, Run};
use geos_model::Fault;
use vm_store::Store;

impl<S: Store> FileBlocks<S> {
    /// Makes a change of a run of bytes, in the direction, as `change` does. Beyond bringing the block into memory it
    /// takes none.
    pub fn change_bytes(
        &mut self,
        change: ByteChange<'_>,
        direction: Direction,
    ) -> Result<(), Fault>
        // Asked of the caller.
        requires { CanApplyByHandle (directed direction (byte_change change)) self.old.document }
        // What is done.
        ensures ok { OnOk result (IsApplied S.facts (directed direction (byte_change change.entry)) self.old self.new) }
        ensures err { OnErr result (KeepsBlocks S.facts self.old self.new) }
        // Refusals.
        ensures refusals { IfErr result
            (CantPrepare S.facts (directed direction (byte_change change.entry)) self.old self.new) }
        // When the answer is known beforehand.
        ensures sure { incoming_blocks (directed direction (byte_change change.entry)) ≡ []
            → IsInMemory (directed direction (byte_change change.entry)) self.old
            → AllowsChange (directed direction (byte_change change.entry)) self.old.document
            → IsOk result × (self.new.disk ≡ self.old.disk)
            × (self.new.document ≡ after_change (directed direction (byte_change change.entry)) self.old.document) }
        ensures shut { IsShutOut (directed direction (byte_change change.entry)) self.old
            → (result ≡ Err Fault.CacheFull) × (self.new ≡ self.old) }
    {
        self.replace_bytes(change.towards(direction))
    }

    /// Replaces a run of bytes of a block, which is brought into memory: its change is told to a recorder, with the
    /// bytes that go lent from where they lie, and then made. Refused as `load_heap` is where it has a chunk, and else
    /// as `load_raw` is; NoChunk where its chunk isn't live; Range where it reaches past the end; TooBig where a raw
    /// body, Full where the heap of a chunk has no room for what comes; Memory where the recorder has none for it. Then
    /// no block changes. It takes no memory and calls no store but to bring the block in.
    pub fn replace_run<R: Recorder>(&mut self, run: Run<'_>, recorder: &mut R) -> Result<(), Fault>
        requires { R.ready recorder.old }
        ensures { LoadsAndReplaces S.facts R.records R.keeps run.entry self.old self.new recorder.old recorder.new
            result }
    {
        self.reveal_invariant();
        let Some(is_heap) = self.kind(run.block) else {
            return Err(Fault::NoBlock);
        };
        if is_heap != run.chunk.is_some() {
            return Err(Fault::WrongKind);
        }
        match self.replace_resident(run, recorder) {
            Some(tried) => tried,
            None => self.bring_and_replace(run, recorder),
        }
    }

    // Replaces it in a block that is in memory; None where the block isn't there.
    #[inline(always)]
    fn replace_resident<R: Recorder>(
        &mut self,
        run: Run<'_>,
        recorder: &mut R,
    ) -> Option<Result<(), Fault>>
        requires kind { IsKindOfRun run (block_at self.old.document run.block.0).body }
        requires ready { R.ready recorder.old }
        ensures tries { TriesRunInMemory S.facts R.records R.keeps run.entry self.old self.new recorder.old recorder.new
            result }
        ensures valid { IsSome result → is_valid_body (block_at self.old.document run.entry.block.0).body ≡ true }
    {
        // That no block has two frames is known where they are counted.
        let _count = self.frames.len();
        let frame = self.frames.get_mut(run.block.0)?;
        Some(replace_in_frame(self.alloc, frame, run, recorder))
    }

    // Replaces it in a block that is brought into memory first.
    #[inline(never)]
    fn bring_and_replace<R: Recorder>(
        &mut self,
        run: Run<'_>,
        recorder: &mut R,
    ) -> Result<(), Fault>
        requires live { is_live self.old.document run.block.0 ≡ true }
        requires kind { is_heap self.old.document run.block.0 ≡ is_some run.chunk }
        requires ready { R.ready recorder.old }
        ensures { LoadsAndReplaces S.facts R.records R.keeps run.entry self.old self.new recorder.old recorder.new
            result }
    {
        self.load_live(run.block)?;
        self.replace_loaded(run, recorder)
    }

    // Replaces it in a block that is in memory.
    fn replace_loaded<R: Recorder>(&mut self, run: Run<'_>, recorder: &mut R) -> Result<(), Fault>
        requires loaded { is_loaded self.old run.block.0 ≡ true }
        requires kind { IsKindOfRun run (block_at self.old.document run.block.0).body }
        requires ready { R.ready recorder.old }
        ensures tries { TriesRun S.facts R.records R.keeps run.entry self.old self.new recorder.old recorder.new result }
        ensures valid { is_valid_body (block_at self.old.document run.entry.block.0).body ≡ true }
    {
        let frame = self.frames.peek_mut(run.block.0).unwrap();
        replace_in_frame(self.alloc, frame, run, recorder)
    }

    // `change_bytes` forwards, in one word.
    fn replace_bytes(&mut self, change: ByteChange<'_>) -> Result<(), Fault>
        requires { is_live self.old.document change.block.0 ≡ true }
        ensures { AppliesChange S.facts (byte_change change.entry) self.old self.new result }
    {
        self.reveal_invariant();
        match self.change_resident(change) {
            Some(true) => Ok(()),
            Some(false) => Err(Fault::Damaged),
            None => self.bring_and_change(change),
        }
    }

    // Makes it in a block that is in memory, if the body takes it, and says whether; None where the block isn't there.
    #[inline(always)]
    fn change_resident(&mut self, change: ByteChange<'_>) -> Option<bool>
        ensures { TriesPartInMemory change.entry.block.0 (byte_part change.entry) self.old self.new result }
    {
        // That no block has two frames is known where they are counted.
        let _count = self.frames.len();
        let frame = self.frames.get_mut(change.block.0)?;
        Some(change_in_frame(frame, change))
    }

    // Makes it in a block that is brought into memory first.
    #[inline(never)]
    fn bring_and_change(&mut self, change: ByteChange<'_>) -> Result<(), Fault>
        requires { is_live self.old.document change.block.0 ≡ true }
        ensures { AppliesChange S.facts (byte_change change.entry) self.old self.new result }
    {
        self.load_live(change.block)?;
        if self.change_loaded(change) {
            Ok(())
        } else {
            Err(Fault::Damaged)
        }
    }

    // Makes it in a block that is in memory, if the body takes it, and says whether.
    fn change_loaded(&mut self, change: ByteChange<'_>) -> bool
        requires { is_loaded self.old change.block.0 ≡ true }
        ensures { TriesPart change.entry.block.0 (byte_part change.entry) self.old self.new result }
    {
        let frame = self.frames.peek_mut(change.block.0).unwrap();
        change_in_frame(frame, change)
    }
}
