//! A run of bytes that is replaced: whether its body takes what comes in its place, and the change that it is.
ghost use Rattle.std.specs.Prelude.{◌≡◌, ◌+◌, ◌≤◌, true, IfErr, MatchResult, OnOk, length};
ghost use Rattle.geos_model.specs.Document.{is_valid_body};
ghost use Rattle.geos_model.specs.Heap.{capacity, chunk_bytes, fits_with, is_heap_map};
ghost use Rattle.geos_model.specs.Meaning.{no_room, too_big};
ghost use Rattle.geos_model.specs.declared.command.Body.TheVariants as bodies;
ghost use Rattle.lmem_heap.specs.Found.{IsFoundIn, handle_found};
ghost use Rattle.vm_blocks.specs.Bodies.{body_value};
ghost use Rattle.vm_blocks.specs.ByteChanges.{byte_part};
ghost use Rattle.vm_blocks.specs.FoundRuns.{IsRunFound};
ghost use Rattle.vm_blocks.specs.Runs.{AllowsRun, AllowsRunIn, IsKindOfRun, IsRunRefused, PutsRun, RefusesRun, RefusesRunIn, TakesRun, bytes_in_body, part_of_run, run_part};
ghost use Rattle.vm_blocks.specs.declared.change.Change.TheVariants as changes;

use crate::frame::Frame;
use crate::part::{has_room, is_within, put_in_raw};
use crate::{BlockBody, ByteChange, Recorder};
use geos_model::{ChunkHandle, Fault, VmHandle};
use lmem_heap::{FoundChunk, Heap};
use raw_region::{RawBody, SIZE};
use std::alloc::Global;

/// A run of bytes that an edit replaces: how many go, and what comes, which is lent from the edit.
#[derive(Clone, Copy)]
pub struct Run<'a> {
    pub block: VmHandle,
    /// None in a raw block.
    pub chunk: Option<ChunkHandle>,
    /// Where the bytes that go begin.
    pub at: u32,
    pub count: usize,
    pub new: &'a [u8],
}

/// Where a run lies: in a raw body, or in a chunk, which was looked up.
#[derive(Clone, Copy)]
enum FoundRun {
    Raw,
    Chunk(FoundChunk),
}

/// Replaces a run of a block in memory: its change is told to a recorder, with the bytes that go lent from where they
/// lie, and then made, so that from now on the file may have another body. Refused as `find_run` is, and Memory where
/// the recorder has none for it.
pub(crate) fn replace_in_frame<R: Recorder>(
    alloc: Global,
    frame: &mut Frame,
    run: Run<'_>,
    recorder: &mut R,
) -> Result<(), Fault>
    requires kind { IsKindOfRun run (body_value frame.old.body) }
    requires ready { R.ready recorder.old }
    ensures ok { OnOk result (PutsRun run.entry frame.old frame.new) }
    ensures recorded { OnOk result (R.records recorder.old
        (changes.Part run.entry.block (run_part run.entry (body_value frame.old.body))) recorder.new) }
    ensures err { IfErr result (λ fault. (frame.new ≡ frame.old)
        × IsRunRefused R.keeps run.entry (body_value frame.old.body) recorder.old recorder.new fault) }
    ensures valid { is_valid_body (body_value frame.old.body) ≡ true }
{
    let found = find_run(&frame.body, run)?;
    recorder.record(alloc, change_of(bytes_of(&frame.body, found, run), run))?;
    frame.changed = true;
    put_run(&mut frame.body, found, run);
    Ok(())
}

/// Where a run lies in a body. NoChunk where its chunk isn't live; Range where it reaches past the end; TooBig where a
/// raw body can't have so many bytes as it gets, Full where the heap of a chunk has no room for them.
fn find_run(body: &BlockBody, run: Run<'_>) -> Result<FoundRun, Fault>
    requires { IsKindOfRun run (body_value body.now) }
    ensures value { MatchResult result
        (λ found. AllowsRun run.entry (body_value body.now) × IsRunFound run.entry.chunk body.now found)
        (RefusesRun run.entry (body_value body.now)) }
    ensures short { OnOk result ((length (bytes_in_body run.entry.chunk (body_value body.now)) ≤ capacity)
        × (length run.entry.new.now ≤ capacity)) }
    ensures valid { is_valid_body (body_value body.now) ≡ true }
{
    match (body, run.chunk) {
        (BlockBody::Raw(raw), None) => {
            test_raw(raw, run)?;
            Ok(FoundRun::Raw)
        }
        (BlockBody::Heap(heap), Some(chunk)) => {
            let found = heap.find_chunk(chunk).ok_or(Fault::NoChunk)?;
            test_chunk(heap, found, run)?;
            Ok(FoundRun::Chunk(found))
        }
        (BlockBody::Raw(_), Some(_)) | (BlockBody::Heap(_), None) => unreachable!(),
    }
}

/// The bytes among which a run lies.
fn bytes_of<'a>(body: &'a BlockBody, found: FoundRun, run: Run<'_>) -> &'a [u8]
    requires { IsRunFound run.chunk body.now found }
    ensures { result.now ≡ bytes_in_body run.entry.chunk (body_value body.now) }
{
    match (body, found) {
        (BlockBody::Raw(raw), FoundRun::Raw) => raw.bytes(),
        (BlockBody::Heap(heap), FoundRun::Chunk(found)) => heap.found_bytes(found),
        (BlockBody::Raw(_), FoundRun::Chunk(_)) | (BlockBody::Heap(_), FoundRun::Raw) =>
            unreachable!(),
    }
}

/// Replaces a run in place.
fn put_run(body: &mut BlockBody, found: FoundRun, run: Run<'_>)
    requires takes { AllowsRun run (body_value body.old) }
    requires found { IsRunFound run.chunk body.old found }
    ensures { TakesRun run.entry (body_value body.old) (body_value body.new) }
{
    match (body, found) {
        (BlockBody::Raw(raw), FoundRun::Raw) => put_in_raw(
            raw,
            run.at as usize,
            run.count,
            run.new,
        ),
        (BlockBody::Heap(heap), FoundRun::Chunk(found)) => {
            heap.replace_found(found, run.at as usize, run.count, run.new);
        }
        (BlockBody::Raw(_), FoundRun::Chunk(_)) | (BlockBody::Heap(_), FoundRun::Raw) =>
            unreachable!(),
    }
}

/// The change that replaces a run of these bytes.
fn change_of<'a>(bytes: &'a [u8], run: Run<'a>) -> ByteChange<'a>
    requires { run.at + run.count ≤ length bytes.now }
    ensures block { result.block ≡ run.entry.block }
    ensures part { byte_part result ≡ part_of_run run.entry bytes.now }
    ensures old { length result.old.now ≡ run.entry.count }
    ensures new { result.new.now ≡ run.entry.new.now }
{
    let at = run.at as usize;
    ByteChange {
        block: run.block,
        chunk: run.chunk,
        at: run.at,
        old: &bytes[at..at + run.count],
        new: run.new,
    }
}

/// Range where a run reaches past the end of a raw body, TooBig where the body can't have so many bytes as it gets.
fn test_raw(body: &RawBody, run: Run<'_>) -> Result<(), Fault>
    ensures value { MatchResult result
        (λ _. AllowsRunIn body.now run.entry (λ bytes. length bytes ≤ capacity))
        (RefusesRunIn body.now run.entry (λ bytes. too_big (length bytes))) }
    ensures short { length body.now ≤ capacity }
{
    let size = body.bytes().len();
    if !is_within(size, run.at as usize, run.count) {
        return Err(Fault::Range);
    }
    if size - run.count + run.new.len() > SIZE {
        return Err(Fault::TooBig);
    }
    Ok(())
}

/// Range where a run reaches past the end of a chunk, Full where its heap has no room for the bytes that it gets.
fn test_chunk(heap: &Heap, found: FoundChunk, run: Run<'_>) -> Result<(), Fault>
    requires found { IsFoundIn heap.now found }
    requires valid { is_heap_map heap.now.chunks ≡ true }
    ensures value { let m = heap.now.chunks in let h = handle_found found in MatchResult result
        (λ _. AllowsRunIn (chunk_bytes m h) run.entry (λ bytes. fits_with m h bytes ≡ true))
        (RefusesRunIn (chunk_bytes m h) run.entry (no_room m h)) }
    ensures short { OnOk result
        ((length (chunk_bytes heap.now.chunks (handle_found found)) ≤ capacity) × (length run.entry.new.now ≤ capacity)) }
{
    let size = heap.found_bytes(found).len();
    if !is_within(size, run.at as usize, run.count) {
        return Err(Fault::Range);
    }
    if !has_room(heap, found, size, run.count, run.new.len()) {
        return Err(Fault::Full);
    }
    Ok(())
}
