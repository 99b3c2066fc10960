//! The blocks of a document and where their images lie in the file; copies of that, and who shares it.
ghost use Rattle.std.specs.Prelude.{IsTrue, IfErr, IsErrOf, true, false, ◌≡◌, ◌≤◌, ◌-◌, ◌+◌, ◌*◌, ◌++◌, ◌∷◌, [], List, All, IfSome, IsOk, OnOk, OnErr, None, Some, get_or, length, max, slice_set, IfOk};
ghost use Rattle.vm_store.specs.Facts.{FailedSince, Holds, byte};
ghost use Rattle.geos_model.specs.Document.{FitAttributes, is_heap, is_live, block_at};
ghost use Rattle.file_format.specs.File.{bytes_in, has_sum};
ghost use Rattle.geos_model.specs.Image.{image};
ghost use Rattle.geos_model.specs.declared.command.Body.TheVariants as bodies;
ghost use Rattle.document_file.specs.Ranges.{IsPlaced};
ghost use Rattle.document_file.specs.Documents.{document_in, AreImaged};
ghost use Rattle.document_file.specs.Sound.{ArePlaces};
ghost use Rattle.document_file.specs.Sums.{HasSumOf, HaveSums, has_sums, sum_for};
ghost use Rattle.file_format.specs.Reading.{IsReadRefusal, IsResourceFault, OnlyReadsStore};
ghost use Rattle.document_file.specs.Listing.{IsPlaceOf};
ghost use Rattle.document_file.specs.Calls.{IsPut, IsImageLength};
ghost use Rattle.document_file.specs.Slots.{block_extents, referenced_extents};
ghost use Rattle.document_file.specs.FreeSpace.{AreAmongTaken, IsSpaceOf};
ghost use Rattle.document_file.specs.Copies.{IsCopy, IsSameStored};
ghost use Rattle.document_file.specs.declared.table.Place.{Place};
ghost use Rattle.file_format.specs.declared.file.Extent.{Extent};
ghost use Rattle.file_space.specs.Space.{AreTaken};
ghost use Rattle.document_file.specs.Writing.{IsGrown, placed_at, with_places, without_place, without_places};

use crate::member::Member;
use crate::reading::{raw_has_sum, read_summed};
use crate::slot::Slots;
use crate::sums::{has_sums, sum_for};
use file_format::{Extent, start_of};
use file_space::FreeSpace;
use geos_model::{Attributes, Fault, VmHandle};
use raw_region::{RawBody, Region};
use std::alloc::{AllocError, Global};
use std::rc::Rc;
use vm_store::Store;

/// A block in the file.
#[derive(Clone, Copy, Debug, PartialEq, Eq)]
pub struct Place {
    pub attributes: Attributes,
    /// Whether its image is that of a heap.
    pub is_heap: bool,
    /// Where its image lies.
    pub extent: Extent,
    /// The CRC-32C of its image, in a file of version 3.
    pub sum: Option<u32>,
}

/// A document in the file. The block under the handle h is at h - 1, if it is live. There are places up to the highest
/// handle that was live since the table was made or read, and none past it.
#[derive(Drop)]
pub struct BlockTable {
    /// The handle of the map block, 0 if there is none.
    pub map_block: u16,
    pub places: Vec<Option<Place>>,
}

/// A document whose directory and blocks lie in the file. Its table never changes, so that several documents share it
/// where they are the same.
#[derive(Drop)]
pub struct DocumentRef {
    pub directory: Extent,
    /// The CRC-32C of the directory, in a file of version 3.
    pub sum: Option<u32>,
    pub table: Rc<BlockTable>,
}

/// What a slot leads to: the updated and the saved document.
#[derive(Drop)]
pub struct Pair {
    pub updated: DocumentRef,
    pub saved: DocumentRef,
}

pub fn copy_table(alloc: Global, table: &BlockTable) -> Result<BlockTable, AllocError>
    ensures { IfOk result (λ copy. IsCopy copy table.now) }
{
    let mut places = Vec::with_capacity(alloc, table.places.len())?;
    places.extend_from_slice(&table.places)?;
    Ok(BlockTable {
        map_block: table.map_block,
        places,
    })
}

/// A copy that several documents can share.
pub fn shared_copy(alloc: Global, table: &BlockTable) -> Result<Rc<BlockTable>, AllocError>
    ensures { IfOk result (λ shared. IsCopy shared.value table.now) }
{
    let copy = copy_table(alloc, table)?;
    let shared = Rc::new(alloc, copy)?;
    Ok(shared)
}

/// The same document once more, over the same table.
pub fn share(stored: &DocumentRef) -> Result<DocumentRef, AllocError>
    ensures { IfOk result (λ shared. IsSameStored shared stored.now) }
{
    let table = stored.table.clone()?;
    Ok(DocumentRef {
        directory: stored.directory,
        sum: stored.sum,
        table,
    })
}

/// The pair of which both documents are this one.
pub fn both_of(stored: &DocumentRef) -> Result<Pair, AllocError>
    ensures updated { IfOk result (λ pair. IsSameStored pair.updated stored.now) }
    ensures saved { IfOk result (λ pair. IsSameStored pair.saved stored.now) }
{
    let updated = share(stored)?;
    let saved = share(stored)?;
    Ok(Pair { updated, saved })
}

/// The place at an index, `None` past the last one.
pub fn place_at(places: &[Option<Place>], at: usize) -> Option<Place>
    ensures { result ≡ get_or places.now at None }
{
    match places.get(at) {
        Some(place) => *place,
        None => None,
    }
}

/// The place of a handle, `None` where no block is live under it.
fn place_of(places: &[Option<Place>], block: VmHandle) -> Option<Place>
    ensures zero { block.0 ≡ 0 → result ≡ None }
    ensures place { 1 ≤ block.0 → result ≡ get_or places.now (block.0 - 1) None }
{
    if block.0 == 0 {
        return None;
    }
    place_at(places, usize::from(block.0) - 1)
}

/// The place of a handle in a table, `None` where no block is live under it.
pub fn place_in(table: &BlockTable, block: VmHandle) -> Option<Place>
    ensures { IsPlaceOf table.now.places.items block.0 result }
{
    place_of(&table.places, block)
}

/// The image of a block that a table has. Damaged where its sum isn't that of its place, which over an honest store
/// never comes; Memory, File.
pub fn read_block<S: Store>(
    alloc: Global,
    store: &mut S,
    table: &BlockTable,
    block: VmHandle,
) -> Result<Vec<u8>, Fault>
    // A live block of a table whose images the store has, with their sums.
    requires live { is_live (document_in (S.facts store.old).content table.now) block.0 ≡ true }
    requires images { IsTrue (S.facts store.old).honest → AreImaged (S.facts store.old).content table.now.places.items }
    requires sums { IsTrue (S.facts store.old).honest → HaveSums (S.facts store.old).content table.now.places.items }
    // What is read.
    ensures looks { OnlyReadsStore (S.facts store.old) (S.facts store.new) }
    ensures image { IfOk result (λ bytes. IsTrue (S.facts store.old).honest
        → bytes.items ≡ image (block_at (document_in (S.facts store.old).content table.now) block.0).body) }
    ensures size { IfOk result (λ bytes. All IsPlaced (block_extents table.now.places.items)
        → ArePlaces table.now.places.items → IsImageLength (length bytes.items)) }
    ensures summed { IfOk result (λ bytes. HasSumOf table.now.places.items block.0 bytes.items) }
    // Refusals.
    ensures damaged { IsErrOf result Fault.Damaged → IsTrue (S.facts store.old).honest → ⊥ }
    ensures file { IsErrOf result Fault.File → FailedSince (S.facts store.old) (S.facts store.new) }
    ensures refusals { IfErr result IsReadRefusal }
{
    match place_in(table, block) {
        Some(place) => read_summed(alloc, store, place.extent, place.sum),
        None => unreachable!(),
    }
}

/// The bytes of a raw block that a table has, in a region. Damaged where the sum of its image isn't that of its place,
/// which over an honest store never comes; File.
pub fn read_raw<S: Store>(
    store: &mut S,
    table: &BlockTable,
    block: VmHandle,
    region: Region,
) -> Result<RawBody, Fault>
    // A live raw block of a table whose images the store has, with their sums.
    requires live { is_live (document_in (S.facts store.old).content table.now) block.0 ≡ true }
    requires raw { is_heap (document_in (S.facts store.old).content table.now) block.0 ≡ false }
    requires images { IsTrue (S.facts store.old).honest → AreImaged (S.facts store.old).content table.now.places.items }
    requires sums { IsTrue (S.facts store.old).honest → HaveSums (S.facts store.old).content table.now.places.items }
    requires placed { All IsPlaced (block_extents table.now.places.items) }
    requires places { ArePlaces table.now.places.items }
    // What is read.
    ensures looks { OnlyReadsStore (S.facts store.old) (S.facts store.new) }
    ensures body { IfOk result (λ body. IsTrue (S.facts store.old).honest
        → (block_at (document_in (S.facts store.old).content table.now) block.0).body ≡ bodies.Raw body) }
    ensures summed { IfOk result (λ body. HasSumOf table.now.places.items block.0 (image (bodies.Raw body))) }
    // Refusals.
    ensures damaged { IsErrOf result Fault.Damaged → IsTrue (S.facts store.old).honest → ⊥ }
    ensures file { IsErrOf result Fault.File → FailedSince (S.facts store.old) (S.facts store.new) }
    ensures refusals { IfErr result IsReadRefusal }
{
    match place_in(table, block) {
        Some(place) => read_raw_image(store, place.extent, place.sum, region),
        None => unreachable!(),
    }
}

/// The body of the raw image in an extent, in a region. Damaged where a sum is given and the image's is another; File.
fn read_raw_image<S: Store>(
    store: &mut S,
    extent: Extent,
    sum: Option<u32>,
    region: Region,
) -> Result<RawBody, Fault>
    requires { IsImageLength extent.length }
    // What is read.
    ensures looks { OnlyReadsStore (S.facts store.old) (S.facts store.new) }
    ensures image { IfOk result (λ body. IsTrue (S.facts store.old).honest
        → byte (S.facts store.old).content (512 * extent.page) ≡ 0
        → image (bodies.Raw body) ≡ bytes_in (S.facts store.old).content extent) }
    ensures summed { IfOk result (λ body. has_sum sum (image (bodies.Raw body)) ≡ true) }
    // Refusals.
    ensures damaged { IsErrOf result Fault.Damaged → IsTrue (S.facts store.old).honest
        → byte (S.facts store.old).content (512 * extent.page) ≡ 0
        → has_sum sum (bytes_in (S.facts store.old).content extent) ≡ false }
    ensures file { IsErrOf result Fault.File → FailedSince (S.facts store.old) (S.facts store.new) }
    ensures refusals { IfErr result IsReadRefusal }
{
    let body = read_behind_kind(store, extent, region)?;
    if !raw_has_sum(sum, body.bytes()) {
        return Err(Fault::Damaged);
    }
    Ok(body)
}

/// What stands in an extent behind its first byte, in a region. File.
fn read_behind_kind<S: Store>(
    store: &mut S,
    extent: Extent,
    region: Region,
) -> Result<RawBody, Fault>
    requires { IsImageLength extent.length }
    ensures looks { OnlyReadsStore (S.facts store.old) (S.facts store.new) }
    ensures size { IfOk result (λ body. length body + 1 ≡ extent.length) }
    ensures held { IfOk result (λ body. IsTrue (S.facts store.old).honest
        → Holds (S.facts store.old).content (512 * extent.page + 1) body) }
    ensures file { IsErrOf result Fault.File → FailedSince (S.facts store.old) (S.facts store.new) }
    ensures refusals { IfErr result IsResourceFault }
{
    let len = extent.length as usize - 1;
    let mut body = RawBody::front(region, len);
    store.read_at(start_of(extent) + 1, body.slice_mut(0, len))?;
    Ok(body)
}

/// Sets the attributes of a block that is live.
pub fn set_attributes(places: &mut [Option<Place>], block: VmHandle, attributes: Attributes)
    ensures { (place : Place) → 1 ≤ block.0 → get_or places.old (block.0 - 1) None ≡ Some place
        → places.new ≡ slice_set places.old (block.0 - 1) (Some (record place { attributes = attributes })) }
{
    if let Some(place) = place_of(places, block) {
        places[usize::from(block.0) - 1] = Some(Place {
            attributes,
            ..place
        });
    }
}

/// Makes a table as long as this, where it is shorter, by places of no block. On an error it is as it was.
pub fn make_room(places: &mut Vec<Option<Place>>, end: usize) -> Result<(), AllocError>
    ensures grown { IsGrown places.old.items places.new.items }
    ensures size { OnOk result (length places.new.items ≡ max (length places.old.items) end) }
    ensures enough { end ≤ length places.old.items → IsOk result }
    ensures err { OnErr result (places.new.items ≡ places.old.items) }
{
    if places.len() >= end {
        return Ok(());
    }
    places.resize(end, None)
}

// Where a block lies whose image is in this extent, in a file of a version.
fn placed_at(version: u8, put: &Member, extent: Extent) -> Place
    ensures { result ≡ placed_at version put.now extent }
{
    Place {
        attributes: put.block.attributes,
        is_heap: put.block.image.is_heap(),
        extent,
        sum: sum_for(has_sums(version), put.block.image.as_slice()),
    }
}

/// Where a block lies whose image is this one, in this extent. Its attributes and its kind stay.
pub fn rewritten(place: Place, version: u8, extent: Extent, image: &[u8]) -> Place
    ensures rewritten { result ≡ record place { extent = extent; sum = sum_for (has_sums version) image.now } }
    ensures attributes { FitAttributes place.attributes }
{
    Place {
        extent,
        sum: sum_for(has_sums(version), image),
        ..place
    }
}

/// Where a block lay, if one did, is free again.
pub fn release_place(space: &mut FreeSpace, place: Option<Place>)
    requires { AreAmongTaken (block_extents (place ∷ [])) space.old }
    ensures { (rest : List Extent) → AreTaken (block_extents (place ∷ []) ++ rest) space.old → AreTaken rest space.new }
{
    if let Some(place) = place {
        space.release(place.extent);
    }
}

// So it is where the free space is known.
fn give_back(space: &mut Option<FreeSpace>, place: Option<Place>)
    requires { IfSome space.old (AreAmongTaken (block_extents (place ∷ []))) }
    ensures { (rest : List Extent) → IsSpaceOf (block_extents (place ∷ []) ++ rest) space.old
        → IsSpaceOf rest space.new }
{
    if let Some(space) = space {
        release_place(space, place);
    }
}

/// Puts blocks into a table, each in its extent. Of the free space their extents are taken before; where a block is
/// that gets another place, it is free afterwards.
fn put_places(
    places: &mut [Option<Place>],
    puts: &[Member],
    extents: &[Extent],
    slots: &Slots,
    space: &mut Option<FreeSpace>,
)
    requires puts { All IsPut puts.now }
    requires room { All (λ p. p.handle.0 ≤ length places.old) puts.now }
    requires extents { length extents.now ≡ length puts.now }
    requires known { IsSpaceOf (extents.now ++ (block_extents places.old ++ referenced_extents slots.now)) space.old }
    ensures places { places.new ≡ with_places slots.now.next_version puts.now extents.now places.old }
    ensures known { IsSpaceOf (block_extents places.new ++ referenced_extents slots.now) space.new }
{
    let version = slots.next_version;
    for (i, put) in puts.iter().enumerate() {
        let at = usize::from(put.handle.0) - 1;
        let gone = places[at];
        give_back(space, gone);
        places[at] = Some(placed_at(version, put, extents[i]));
    }
}

/// Gives a block another place, whose extent is taken before. Where the block was is free afterwards.
pub fn move_block(
    places: &mut [Option<Place>],
    block: VmHandle,
    place: Place,
    slots: &Slots,
    space: &mut Option<FreeSpace>,
)
    requires some { 1 ≤ block.0 }
    requires room { block.0 ≤ length places.old }
    requires known { IsSpaceOf (place.extent ∷ (block_extents places.old ++ referenced_extents slots.now)) space.old }
    ensures places { places.new ≡ slice_set places.old (block.0 - 1) (Some place) }
    ensures known { IsSpaceOf (block_extents places.new ++ referenced_extents slots.now) space.new }
{
    let _ = slots;
    let at = usize::from(block.0) - 1;
    let gone = places[at];
    give_back(space, gone);
    places[at] = Some(place);
}

fn remove_place(
    places: &mut [Option<Place>],
    block: VmHandle,
    slots: &Slots,
    space: &mut Option<FreeSpace>,
)
    requires { IsSpaceOf (block_extents places.old ++ referenced_extents slots.now) space.old }
    ensures places { places.new ≡ without_place block.0 places.old }
    ensures known { IsSpaceOf (block_extents places.new ++ referenced_extents slots.now) space.new }
{
    let _ = slots;
    if block.0 != 0 && usize::from(block.0) <= places.len() {
        let at = usize::from(block.0) - 1;
        let gone = places[at];
        give_back(space, gone);
        places[at] = None;
    }
}

/// Takes blocks out of a table: where they lay is free. Handles that aren't live change nothing.
fn remove_places(
    places: &mut [Option<Place>],
    removals: &[VmHandle],
    slots: &Slots,
    space: &mut Option<FreeSpace>,
)
    requires { IsSpaceOf (block_extents places.old ++ referenced_extents slots.now) space.old }
    ensures places { places.new ≡ without_places removals.now places.old }
    ensures known { IsSpaceOf (block_extents places.new ++ referenced_extents slots.now) space.new }
{
    for block in removals {
        remove_place(places, *block, slots, space);
    }
}

/// Puts blocks into a table and then takes others out, as far as the free space goes too.
pub fn change_places(
    places: &mut [Option<Place>],
    puts: &[Member],
    extents: &[Extent],
    removals: &[VmHandle],
    slots: &Slots,
    space: &mut Option<FreeSpace>,
)
    requires puts { All IsPut puts.now }
    requires room { All (λ p. p.handle.0 ≤ length places.old) puts.now }
    requires extents { length extents.now ≡ length puts.now }
    requires known { IsSpaceOf (extents.now ++ (block_extents places.old ++ referenced_extents slots.now)) space.old }
    ensures places { places.new
        ≡ without_places removals.now (with_places slots.now.next_version puts.now extents.now places.old) }
    ensures known { IsSpaceOf (block_extents places.new ++ referenced_extents slots.now) space.new }
{
    put_places(places, puts, extents, slots, space);
    remove_places(places, removals, slots, space);
}
