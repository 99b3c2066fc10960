//! The copying of a document into another store.
ghost use Rattle.std.specs.Prelude.{◌≡◌, ◌⊎◌, ◌≤◌, ◌+◌, ◌*◌, [], true, All, IsTrue, OnOk, IfOk, IfErr, IfSome, IsErrOf, length};
ghost use Rattle.vm_store.specs.Facts.{Holds, FailedSince};
ghost use Rattle.geos_model.specs.Document.{most_blocks};
ghost use Rattle.file_format.specs.File.{bytes_in, has_sum};
ghost use Rattle.document_file.specs.Ranges.{IsPlaced, start_of};
ghost use Rattle.document_file.specs.Slots.{block_extents};
ghost use Rattle.document_file.specs.Documents.{blocks_in, IsImaged, AreImaged};
ghost use Rattle.document_file.specs.Sound.{IsBlockTable, IsSound};
ghost use Rattle.file_format.specs.Reading.{OnlyReadsStore, IsReadRefusal};
ghost use Rattle.document_file.specs.Opened.{IsImageOf};
ghost use Rattle.document_file.specs.Sums.{AreSummed, IsSummed};
ghost use Rattle.document_file.specs.Making.{moved_to, pages_taken, laid_out, page_behind, IsBlockCopied, AreCopied, IsNewSlots, IsFounding, IsOne};

use crate::directory::directory_text_of;
use crate::kind::image_kind;
use crate::making::{NewFile, empty, first_slots, initialize};
use crate::reading::read_summed;
use crate::sums::{kept_sum, version_for};
use crate::table::{BlockTable, Place};
use file_format::{Extent, PAGE};
use geos_model::Fault;
use std::alloc::{AllocError, Global};
use vm_store::Store;

// The first page behind the slots.
const FIRST_PAGE: u32 = 2;

// The place of the same image from another page on, in a file with sums or without.
fn moved(place: Option<Place>, page: u32, checksums: bool) -> Option<Place>
    ensures { result ≡ moved_to checksums page place }
{
    match place {
        Some(place) => {
            let extent = Extent {
                page,
                length: place.extent.length,
            };
            Some(Place {
                extent,
                sum: kept_sum(checksums, place.sum),
                ..place
            })
        }
        None => None,
    }
}

// How many pages its extent takes.
fn page_count(place: Option<Place>) -> u32
    ensures { result ≡ pages_taken place }
{
    match place {
        Some(place) => place.extent.length.div_ceil(PAGE),
        None => 0,
    }
}

/// Places in a file that has no others.
#[derive(Drop)]
struct PackedPlaces {
    places: Vec<Option<Place>>,
    // The page behind them.
    end: u32,
}

/// Gives each image the first pages that are free, from the first handle on.
fn place_anew(
    alloc: Global,
    places: &[Option<Place>],
    checksums: bool,
) -> Result<PackedPlaces, AllocError>
    requires few { length places.now ≤ most_blocks }
    requires placed { All IsPlaced (block_extents places.now) }
    ensures places { IfOk result (λ placed. placed.places.items ≡ laid_out checksums 2 places.now) }
    ensures end { IfOk result (λ placed. placed.end ≡ page_behind 2 places.now) }
{
    let mut laid = Vec::with_capacity(alloc, places.len())?;
    let mut page = FIRST_PAGE;
    for place in places {
        laid.push(moved(*place, page, checksums))?;
        page += page_count(*place);
    }
    Ok(PackedPlaces {
        places: laid,
        end: page,
    })
}

/// The image at a place, of the kind that the place has and with this sum, if one is given. Damaged where it isn't;
/// Memory, File.
fn read_image<S: Store>(
    alloc: Global,
    store: &mut S,
    place: Place,
    sum: Option<u32>,
) -> Result<Vec<u8>, Fault>
    // The store.
    ensures looks { OnlyReadsStore (S.facts store.old) (S.facts store.new) }
    // The image.
    ensures size { IfOk result (λ image. length image.items ≡ place.extent.length) }
    ensures image { IfOk result (λ image. IsImageOf place.is_heap image.items) }
    ensures summed { IfOk result (λ image. has_sum sum image.items ≡ true) }
    ensures bytes { IfOk result (λ image. IsTrue (S.facts store.old).honest
        → image.items ≡ bytes_in (S.facts store.old).content place.extent) }
    // Refusals.
    ensures damaged { IsErrOf result Fault.Damaged → IsTrue (S.facts store.old).honest
        → IsImaged (S.facts store.old).content place
        → has_sum sum (bytes_in (S.facts store.old).content place.extent) ≡ true → ⊥ }
    ensures file { IsErrOf result Fault.File → FailedSince (S.facts store.old) (S.facts store.new) }
    ensures refusals { IfErr result IsReadRefusal }
{
    let image = read_summed(alloc, store, place.extent, sum)?;
    if image_kind(&image) != Some(place.is_heap) {
        return Err(Fault::Damaged);
    }
    Ok(image)
}

/// Copies the image of a block, if there is one, to a page. Damaged, Memory, File.
fn copy_image<S: Store>(
    alloc: Global,
    source: &mut S,
    place: Option<Place>,
    target: &mut S,
    page: u32,
    checksums: bool,
) -> Result<(), Fault>
    // The stores.
    ensures looks { OnlyReadsStore (S.facts source.old) (S.facts source.new) }
    ensures honest { (S.facts target.new).honest ≡ (S.facts target.old).honest }
    ensures failures { (S.facts target.old).failures ≤ (S.facts target.new).failures }
    // The copy.
    ensures copied { OnOk result (IsTrue (S.facts target.old).honest
        → IsBlockCopied checksums page place (IsTrue (S.facts source.old).honest) (S.facts source.old).content
        (S.facts target.old).content (S.facts target.new).content) }
    // Refusals.
    ensures damaged { IsErrOf result Fault.Damaged → IsTrue (S.facts source.old).honest
        → IfSome place (IsImaged (S.facts source.old).content)
        → IfSome place (IsSummed checksums (S.facts source.old).content) → ⊥ }
    ensures file { IsErrOf result Fault.File → FailedSince (S.facts source.old) (S.facts source.new)
        ⊎ FailedSince (S.facts target.old) (S.facts target.new) }
    ensures refusals { IfErr result IsReadRefusal }
{
    let Some(place) = place else {
        return Ok(());
    };
    let sum = kept_sum(checksums, place.sum);
    let image = read_image(alloc, source, place, sum)?;
    target.write_at(u64::from(PAGE) * u64::from(page), &image)?;
    Ok(())
}

/// Copies all images of a document, one behind the other. One at a time is in memory. Damaged, Memory, File.
fn copy_images<S: Store>(
    alloc: Global,
    source: &mut S,
    places: &[Option<Place>],
    target: &mut S,
    checksums: bool,
) -> Result<(), Fault>
    // Asked of the caller.
    requires few { length places.now ≤ most_blocks }
    requires placed { All IsPlaced (block_extents places.now) }
    // The stores.
    ensures looks { OnlyReadsStore (S.facts source.old) (S.facts source.new) }
    ensures honest { (S.facts target.new).honest ≡ (S.facts target.old).honest }
    ensures failures { (S.facts target.old).failures ≤ (S.facts target.new).failures }
    // The copies.
    ensures copied { OnOk result (IsTrue (S.facts target.old).honest
        → AreCopied checksums (IsTrue (S.facts source.old).honest) (S.facts source.old).content places.now
        (S.facts target.old).content (S.facts target.new).content) }
    // Refusals.
    ensures damaged { IsErrOf result Fault.Damaged → IsTrue (S.facts source.old).honest
        → AreImaged (S.facts source.old).content places.now
        → AreSummed checksums (S.facts source.old).content places.now → ⊥ }
    ensures file { IsErrOf result Fault.File → FailedSince (S.facts source.old) (S.facts source.new)
        ⊎ FailedSince (S.facts target.old) (S.facts target.new) }
    ensures refusals { IfErr result IsReadRefusal }
{
    let mut page = FIRST_PAGE;
    for place in places {
        copy_image(alloc, source, *place, target, page, checksums)?;
        page += page_count(*place);
    }
    Ok(())
}

/// What is written beside the images.
#[derive(Drop)]
struct CopyPlan {
    made: NewFile,
    text: Vec<u8>,
}

/// Places a document in a file of its own, its directory behind the images. It takes all the memory that the file
/// needs.
fn plan_copy(alloc: Global, live: &BlockTable, checksums: bool) -> Result<CopyPlan, AllocError>
    requires table { IsBlockTable live.now }
    requires placed { All IsPlaced (block_extents live.now.places.items) }
    ensures map_block { IfOk result (λ plan. plan.made.live.map_block ≡ live.now.map_block) }
    ensures places { IfOk result (λ plan. plan.made.live.places.items ≡ laid_out checksums 2 live.now.places.items) }
    ensures founding { IfOk result (λ plan. IsFounding checksums plan.made.slots.committed.updated.directory
        plan.text.items plan.made.live) }
    ensures first { IfOk result (λ plan. IsNewSlots checksums plan.made.slots.committed.updated.directory
        plan.text.items plan.made.live plan.made.slots) }
{
    let placed = place_anew(alloc, &live.places, checksums)?;
    let page = placed.end;
    let table = BlockTable {
        map_block: live.map_block,
        places: placed.places,
    };
    let text = directory_text_of(alloc, version_for(checksums), &table)?;
    let directory = Extent {
        page,
        length: text.len() as u32,
    };
    let made = first_slots(alloc, checksums, table, directory, &text)?;
    Ok(CopyPlan { made, text })
}

/// Makes the target a file, with sums or without, of a document whose images the source has. Damaged, Memory, File.
pub fn copy_document<S: Store>(
    alloc: Global,
    source: &mut S,
    live: &BlockTable,
    target: &mut S,
    checksums: bool,
) -> Result<NewFile, Fault>
    // Asked of the caller.
    requires table { IsBlockTable live.now }
    requires placed { All IsPlaced (block_extents live.now.places.items) }
    // The stores.
    ensures looks { OnlyReadsStore (S.facts source.old) (S.facts source.new) }
    ensures honest { (S.facts target.new).honest ≡ (S.facts target.old).honest }
    ensures failures { (S.facts target.old).failures ≤ (S.facts target.new).failures }
    // The new file.
    ensures sound { IfOk result (λ made. IsSound (S.facts target.new) made.live made.slots) }
    ensures one { IfOk result (λ made. IsOne checksums (S.facts target.new).content made.live made.slots) }
    ensures map_block { IfOk result (λ made. made.live.map_block ≡ live.now.map_block) }
    ensures places { IfOk result (λ made. made.live.places.items ≡ laid_out checksums 2 live.now.places.items) }
    ensures blocks { IfOk result (λ made. IsTrue (S.facts source.old).honest → IsTrue (S.facts target.old).honest
        → blocks_in (S.facts target.new).content made.live.places.items
        ≡ blocks_in (S.facts source.old).content live.now.places.items) }
    // Refusals.
    ensures damaged { IsErrOf result Fault.Damaged → IsTrue (S.facts source.old).honest
        → AreImaged (S.facts source.old).content live.now.places.items
        → AreSummed checksums (S.facts source.old).content live.now.places.items → ⊥ }
    ensures file { IsErrOf result Fault.File → FailedSince (S.facts source.old) (S.facts source.new)
        ⊎ FailedSince (S.facts target.old) (S.facts target.new) }
    ensures refusals { IfErr result IsReadRefusal }
{
    let plan = plan_copy(alloc, live, checksums)?;
    empty(target)?;
    copy_images(alloc, source, &live.places, target, checksums)?;
    initialize(target, &plan.made.slots, &plan.text)?;
    Ok(plan.made)
}
