//! Edits that replace a run of bytes: planned, recorded and made in one, with the bytes that go and those that come left
//! where they lie.
ghost use Rattle.std.specs.Prelude.{◌≡◌, MatchOption, is_some};
ghost use Rattle.geos_model.specs.Targets.{byte_edit, edit_of, raw_edit};
ghost use Rattle.doc_edits.specs.RunPlans.{MakesAsRun, ReplacesRun, is_run_edit};

use geos_model::{ByteEdit, ChunkEdit, ChunkHandle, Fault, RawEdit, Target, VmHandle};
use vm_blocks::{FileBlocks, Recorder, Run};
use vm_store::Store;

/// Makes an edit that replaces a run of bytes, and says whether it is one: none but of bytes that are written over,
/// spliced or deleted. Its block is brought into memory; then the edit is refused as `plan` refuses it, or its change is
/// recorded, with the bytes that go and those that come lent from where they lie, and made. No memory is taken but to
/// bring the block in, and for the record.
pub fn make_run<S: Store, R: Recorder>(
    blocks: &mut FileBlocks<S>,
    target: Target<'_>,
    recorder: &mut R,
) -> Result<bool, Fault>
    requires { R.ready recorder.old }
    ensures { MakesAsRun S.facts R.records R.keeps (edit_of target.entry) blocks.old blocks.new recorder.old recorder.new
        result }
{
    let Some(run) = run_of(target) else {
        return Ok(false);
    };
    blocks.replace_run(run, recorder)?;
    Ok(true)
}

/// The run that an edit of a target replaces, if it does.
fn run_of(target: Target<'_>) -> Option<Run<'_>>
    ensures some { is_some result ≡ is_run_edit (edit_of target.entry) }
    ensures value { MatchOption result (Unit {0}) (λ run. ReplacesRun (edit_of target.entry) run) }
{
    match target {
        Target::Raw(block, edit) => run_in_raw(block, edit),
        Target::Chunk(block, chunk, ChunkEdit::Bytes(edit)) => run_in_chunk(block, chunk, edit),
        Target::Setting(_)
        | Target::NewBlock(_)
        | Target::Block(_, _)
        | Target::NewChunk(_, _)
        | Target::Chunk(_, _, _)
        | Target::Chain(_, _)
        | Target::NewLarge(_, _) => None,
    }
}

/// Of a raw block.
fn run_in_raw(block: VmHandle, edit: RawEdit<'_>) -> Option<Run<'_>>
    ensures some { is_some result ≡ is_run_edit (raw_edit block edit.entry) }
    ensures value { MatchOption result (Unit {0}) (λ run. ReplacesRun (raw_edit block edit.entry) run) }
{
    let (at, count, new) = match edit {
        RawEdit::Write(at, new) => (at, new.len(), new),
        RawEdit::Splice(at, n, new) => (at, n as usize, new),
        RawEdit::Attach(_) => return None,
    };
    Some(Run {
        block,
        chunk: None,
        at,
        count,
        new,
    })
}

/// Of a chunk.
fn run_in_chunk(block: VmHandle, chunk: ChunkHandle, edit: ByteEdit<'_>) -> Option<Run<'_>>
    ensures some { is_some result ≡ is_run_edit (byte_edit block chunk edit.entry) }
    ensures value { MatchOption result (Unit {0}) (λ run. ReplacesRun (byte_edit block chunk edit.entry) run) }
{
    let (at, count, new) = match edit {
        ByteEdit::Delete(at, n) => (at, n as usize, &[][..]),
        ByteEdit::Write(at, new) => (at, new.len(), new),
        ByteEdit::Splice(at, n, new) => (at, n as usize, new),
        ByteEdit::Resize(_) | ByteEdit::Insert(_, _) => return None,
    };
    Some(Run {
        block,
        chunk: Some(chunk),
        at,
        count,
        new,
    })
}
