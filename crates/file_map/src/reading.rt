//! Reading what lies in a file.
ghost use Rattle.std.specs.Prelude.{◌≡◌, ◌≤◌, ◌<◌, ◌^◌, IsTrue, IfOk, IfErr, IsErrOf, IsOk, IsPermutation, OnOk, Some, map, length};
ghost use Rattle.file_report.specs.Checked.{IsReport, counting_between};
ghost use Rattle.std.specs.List.Sorted.{IsNonDecreasingBy};
ghost use Rattle.file_format.specs.Reading.{OnlyReadsStore};
ghost use Rattle.vm_store.specs.Facts.{FailedSince, byte};
ghost use Rattle.file_map.specs.Drawn.{IsFileMap};
ghost use Rattle.file_map.specs.Faults.{IsMapRefusal, IsReadLack, IsUncounted};
ghost use Rattle.file_map.specs.Parts.{is_heap_at, kind_at, part_of_usage};

use crate::fault::MapFault;
use crate::part::{Kind, Part, Users, users_of};
use file_format::{BodyKind, Extent, page_count, start_of};
use file_report::{Content, Report, SlotReport, Usage, check, usages};
use geos_model::{Fault, VmHandle};
use std::alloc::{AllocError, Global};
use vm_store::Store;

/// What lies in a file.
#[derive(Drop)]
pub struct FileMap {
    /// How many pages the file has, the last one too where it isn't whole.
    pub pages: u64,
    /// By first pages. What both documents have is there for each of them.
    pub parts: Vec<Part>,
}

// Whether the image in an extent is that of a heap. File.
fn is_heap_at<S: Store>(store: &mut S, extent: Extent) -> Result<bool, MapFault>
    ensures looks { OnlyReadsStore (S.facts store.old) (S.facts store.new) }
    ensures kind { IfOk result (λ is. IsTrue (S.facts store.old).honest
        → is ≡ is_heap_at (S.facts store.old).content extent) }
    ensures file { IsErrOf result MapFault.File → FailedSince (S.facts store.old) (S.facts store.new) }
    ensures refusals { IfErr result (λ fault. fault ≡ MapFault.File) }
{
    let mut kind = [0; 1];
    store.read_at(start_of(extent), &mut kind)?;
    Ok(BodyKind::of_byte(kind[0]).is_heap())
}

// The part that a usage is. File.
fn read_part<S: Store>(store: &mut S, usage: Usage) -> Result<Part, MapFault>
    ensures looks { OnlyReadsStore (S.facts store.old) (S.facts store.new) }
    ensures extent { IfOk result (λ part. part.extent ≡ usage.extent) }
    ensures part { IfOk result (λ part. IsTrue (S.facts store.old).honest
        → part ≡ part_of_usage (S.facts store.old).content usage) }
    ensures file { IsErrOf result MapFault.File → FailedSince (S.facts store.old) (S.facts store.new) }
    ensures refusals { IfErr result (λ fault. fault ≡ MapFault.File) }
{
    let extent = usage.extent;
    let (kind, users, block) = match usage.content {
        Content::Slots => (Kind::Slots, Users::Both, VmHandle(0)),
        Content::Directory(name) => (Kind::Directory, users_of(name), VmHandle(0)),
        Content::Image(name, block) => (image_kind(store, extent)?, users_of(name), block),
    };
    Ok(Part {
        extent,
        kind,
        users,
        block,
    })
}

// The kind of the block whose image lies in an extent. File.
fn image_kind<S: Store>(store: &mut S, extent: Extent) -> Result<Kind, MapFault>
    ensures looks { OnlyReadsStore (S.facts store.old) (S.facts store.new) }
    ensures kind { IfOk result (λ kind. IsTrue (S.facts store.old).honest
        → kind ≡ kind_at (S.facts store.old).content extent) }
    ensures file { IsErrOf result MapFault.File → FailedSince (S.facts store.old) (S.facts store.new) }
    ensures refusals { IfErr result (λ fault. fault ≡ MapFault.File) }
{
    if is_heap_at(store, extent)? {
        return Ok(Kind::Heap);
    }
    Ok(Kind::Raw)
}

// The parts that these usages are, in their order. Memory, File.
fn read_parts<S: Store>(
    alloc: Global,
    store: &mut S,
    usages: &[Usage],
) -> Result<Vec<Part>, MapFault>
    ensures looks { OnlyReadsStore (S.facts store.old) (S.facts store.new) }
    ensures extents { IfOk result (λ parts. map (λ p. p.extent) parts.items ≡ map (λ u. u.extent) usages.now) }
    ensures parts { IfOk result (λ parts. IsTrue (S.facts store.old).honest
        → parts.items ≡ map (part_of_usage (S.facts store.old).content) usages.now) }
    ensures file { IsErrOf result MapFault.File → FailedSince (S.facts store.old) (S.facts store.new) }
    ensures refusals { IfErr result IsReadLack }
{
    let mut parts = Vec::new(alloc);
    for usage in usages {
        parts.push(read_part(store, *usage)?)?;
    }
    Ok(parts)
}

// The number of the block whose image it is, else 0.
fn block_number(content: Content) -> u16 {
    match content {
        Content::Slots | Content::Directory(_) => 0,
        Content::Image(_, block) => block.0,
    }
}

// Of the usages that begin on one page puts those of one block side by side, that of the updated document first: there
// may be several blocks, and what both documents have of each is to be one part.
fn join_blocks(usages: &mut Vec<Usage>) -> Result<(), AllocError>
    ensures all { OnOk result (IsPermutation usages.old.items usages.new.items) }
    ensures order { OnOk result (IsNonDecreasingBy (λ u. u.extent.page) usages.new.items) }
{
    // What is equal stays in its order.
    usages.sort_by_key(|usage| block_number(usage.content))?;
    usages.sort_by_key(|usage| usage.extent.page)?;
    Ok(())
}

// The slot of a file that counts, where the file opens.
fn counting_slot(report: &Report) -> Result<&SlotReport, MapFault>
    ensures ok { IfOk result (λ slot. IsOk report.now.verdict
        × (counting_between report.now.first report.now.second ≡ Some slot.now)) }
    ensures refusals { IfErr result (λ fault. IsUncounted report.now fault) }
{
    if let Err(fault) = report.verdict {
        return Err(MapFault::Unopened(fault));
    }
    match report.counting() {
        Some(slot) => Ok(slot),
        None => Err(MapFault::Unopened(Fault::NotDocument)),
    }
}

// What lies in a file, by what was found of it. Memory, File, and what an opening answers where the file doesn't open.
fn read_report<S: Store>(alloc: Global, store: &mut S, report: &Report) -> Result<FileMap, MapFault>
    requires { IsTrue (S.facts store.old).honest → IsReport (S.facts store.old).content report.now }
    ensures looks { OnlyReadsStore (S.facts store.old) (S.facts store.new) }
    ensures sorted { IfOk result (λ map. IsNonDecreasingBy (λ p. p.extent.page) map.parts.items) }
    ensures few { IfOk result (λ map. map.pages < 2 ^ 56) }
    ensures map { IfOk result (λ map. IsTrue (S.facts store.old).honest
        → IsFileMap (S.facts store.old).content map) }
    ensures file { IsErrOf result MapFault.File → FailedSince (S.facts store.old) (S.facts store.new) }
    ensures refusals { IfErr result (IsMapRefusal (S.facts store.old)) }
{
    let slot = match counting_slot(report) {
        Ok(slot) => slot,
        Err(fault) => return Err(fault),
    };
    let mut usages = usages(alloc, slot)?;
    join_blocks(&mut usages)?;
    let parts = read_parts(alloc, store, &usages)?;
    Ok(FileMap {
        pages: page_count(report.file_length),
        parts,
    })
}

/// Reads what lies in a file. Memory, File, and what an opening answers where the file doesn't open.
pub fn read_map<S: Store>(alloc: Global, store: &mut S) -> Result<FileMap, MapFault>
    ensures looks { OnlyReadsStore (S.facts store.old) (S.facts store.new) }
    ensures sorted { IfOk result (λ map. IsNonDecreasingBy (λ p. p.extent.page) map.parts.items) }
    ensures few { IfOk result (λ map. map.pages < 2 ^ 56) }
    ensures map { IfOk result (λ map. IsTrue (S.facts store.old).honest
        → IsFileMap (S.facts store.old).content map) }
    ensures file { IsErrOf result MapFault.File → FailedSince (S.facts store.old) (S.facts store.new) }
    ensures refusals { IfErr result (IsMapRefusal (S.facts store.old)) }
{
    let report = check(alloc, store)?;
    read_report(alloc, store, &report)
}
