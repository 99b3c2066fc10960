//! Which directory of a file is salvaged.
ghost use Rattle.std.specs.Prelude.{◌≡◌, ◌≤◌, IfErr, IfOk, IfSome, IsErrOf, IsTrue, if◌then◌else◌, length, true};
ghost use Rattle.vm_store.specs.Facts.{FailedSince};
ghost use Rattle.file_format.specs.File.{bytes_in, longest_directory};
ghost use Rattle.file_format.specs.Reading.{IsResourceFault, OnlyReadsStore};
ghost use Rattle.file_salvage.specs.Places.{head_of, if_readable, is_header, is_place, is_second_first, place_in_slot, readable_in, readable_of, salvaged_place};

use crate::place::Place;
use byteorder::{ByteOrder, LittleEndian};
use file_format::{
    Extent, HEADER_LENGTH, LONGEST_DIRECTORY, PAGE, Slot, entry_start, is_known, is_version,
    read_extent, read_raw_slot, start_of,
};
use file_report::{Named, directory_extent, directory_sum};
use geos_model::Fault;
use std::alloc::Global;
use vm_store::Store;

fn place_in_slot(second: bool, slot: Slot, name: Named) -> Place
    ensures { result ≡ place_in_slot second slot name }
{
    Place {
        second,
        name,
        is_open: slot.gate == 1,
        version: slot.version,
        extent: directory_extent(&slot, name),
        sum: directory_sum(&slot, name),
    }
}

fn head_of(extent: Extent) -> Extent
    ensures { result ≡ head_of extent }
{
    Extent {
        page: extent.page,
        length: 16,
    }
}

fn is_place(file_length: u64, place: Place) -> bool
    ensures { result ≡ is_place file_length place }
{
    is_version(place.version)
        && place.extent.length >= 16
        && place.extent.length as usize <= LONGEST_DIRECTORY
        && start_of(place.extent) + 16 <= file_length
}

fn is_header(file_version: u8, directory_length: u32, head: &[u8]) -> bool
    requires { length head.now ≡ HEADER_LENGTH }
    ensures { result ≡ is_header file_version directory_length head.now }
{
    let version = LittleEndian::read_u16(&head[4..]);
    let count = LittleEndian::read_u16(&head[6..]);
    head.starts_with(b"GDIR")
        && is_known(version, file_version)
        && directory_length as usize == entry_start(version, usize::from(count))
}

// The place, where a directory's header can be read there. Memory, File.
fn if_readable<S: Store>(
    alloc: Global,
    store: &mut S,
    file_length: u64,
    place: Place,
) -> Result<Option<Place>, Fault>
    requires { IsTrue (S.facts store.old).honest → file_length ≡ length (S.facts store.old).content }
    ensures looks { OnlyReadsStore (S.facts store.old) (S.facts store.new) }
    ensures readable { IfOk result (λ found. IsTrue (S.facts store.old).honest
        → found ≡ if_readable (S.facts store.old).content place) }
    ensures place { IfOk result (λ found. IfSome found (λ p. is_place file_length p ≡ true)) }
    ensures file { IsErrOf result Fault.File → FailedSince (S.facts store.old) (S.facts store.new) }
    ensures refusals { IfErr result IsResourceFault }
{
    if !is_place(file_length, place) {
        return Ok(None);
    }
    let head = read_extent(alloc, store, head_of(place.extent))?;
    if is_header(place.version, place.extent.length, head.as_slice()) {
        return Ok(Some(place));
    }
    Ok(None)
}

// The directory of a slot that is tried first, if it can be read, or else the other one. Memory, File.
fn readable_in<S: Store>(
    alloc: Global,
    store: &mut S,
    file_length: u64,
    second: bool,
    slot: Option<Slot>,
) -> Result<Option<Place>, Fault>
    requires { IsTrue (S.facts store.old).honest → file_length ≡ length (S.facts store.old).content }
    ensures looks { OnlyReadsStore (S.facts store.old) (S.facts store.new) }
    ensures readable { IfOk result (λ place. IsTrue (S.facts store.old).honest
        → place ≡ readable_in (S.facts store.old).content second slot) }
    ensures place { IfOk result (λ place. IfSome place (λ p. is_place file_length p ≡ true)) }
    ensures file { IsErrOf result Fault.File → FailedSince (S.facts store.old) (S.facts store.new) }
    ensures refusals { IfErr result IsResourceFault }
{
    let Some(slot) = slot else {
        return Ok(None);
    };
    let updated = place_in_slot(second, slot, Named::Updated);
    let first = if_readable(alloc, store, file_length, updated)?;
    if first.is_some() {
        return Ok(first);
    }
    let saved = place_in_slot(second, slot, Named::Saved);
    if_readable(alloc, store, file_length, saved)
}

fn is_second_first(first: Option<Slot>, second: Option<Slot>) -> bool
    ensures { result ≡ is_second_first first second }
{
    match (first, second) {
        (Some(first), Some(second)) if first.gate == 1 => {
            second.gate == 1 && first.sequence < second.sequence
        }
        (Some(first), Some(second)) => second.gate == 1 || first.sequence < second.sequence,
        _ => false,
    }
}

// The second slot first, or the first one.
fn in_order(turned: bool, first: Option<Slot>, second: Option<Slot>) -> (Option<Slot>, Option<Slot>)
    ensures { (result.0 ≡ (if turned then second else first)) × (result.1 ≡ (if turned then first else second)) }
{
    if turned {
        (second, first)
    } else {
        (first, second)
    }
}

// The directory that one slot leads to, or else the other one. Memory, File.
fn readable_of<S: Store>(
    alloc: Global,
    store: &mut S,
    file_length: u64,
    first: Option<Slot>,
    second: Option<Slot>,
) -> Result<Option<Place>, Fault>
    requires { IsTrue (S.facts store.old).honest → file_length ≡ length (S.facts store.old).content }
    ensures looks { OnlyReadsStore (S.facts store.old) (S.facts store.new) }
    ensures readable { IfOk result (λ place. IsTrue (S.facts store.old).honest
        → place ≡ readable_of (S.facts store.old).content first second) }
    ensures place { IfOk result (λ place. IfSome place (λ p. is_place file_length p ≡ true)) }
    ensures file { IsErrOf result Fault.File → FailedSince (S.facts store.old) (S.facts store.new) }
    ensures refusals { IfErr result IsResourceFault }
{
    let turned = is_second_first(first, second);
    let (one, other) = in_order(turned, first, second);
    let place = readable_in(alloc, store, file_length, turned, one)?;
    if place.is_some() {
        return Ok(place);
    }
    readable_in(alloc, store, file_length, !turned, other)
}

/// Where the directory lies that is salvaged, if one can be read. Memory, File.
pub fn find_place<S: Store>(
    alloc: Global,
    store: &mut S,
    file_length: u64,
) -> Result<Option<Place>, Fault>
    requires { IsTrue (S.facts store.old).honest → file_length ≡ length (S.facts store.old).content }
    ensures looks { OnlyReadsStore (S.facts store.old) (S.facts store.new) }
    ensures readable { IfOk result (λ place. IsTrue (S.facts store.old).honest
        → place ≡ salvaged_place (S.facts store.old).content) }
    ensures place { IfOk result (λ place. IfSome place (λ p. is_place file_length p ≡ true)) }
    ensures file { IsErrOf result Fault.File → FailedSince (S.facts store.old) (S.facts store.new) }
    ensures refusals { IfErr result IsResourceFault }
{
    if file_length < 2 * u64::from(PAGE) {
        return Ok(None);
    }
    let first = read_raw_slot(store, 0)?;
    let second = read_raw_slot(store, 1)?;
    readable_of(alloc, store, file_length, first.slot, second.slot)
}

/// The bytes of a directory, as far as the file has them. Memory, File.
pub fn read_place<S: Store>(
    alloc: Global,
    store: &mut S,
    file_length: u64,
    place: Place,
) -> Result<Vec<u8>, Fault>
    requires length { IsTrue (S.facts store.old).honest → file_length ≡ length (S.facts store.old).content }
    requires place { is_place file_length place ≡ true }
    ensures looks { OnlyReadsStore (S.facts store.old) (S.facts store.new) }
    ensures bytes { IfOk result (λ bytes. IsTrue (S.facts store.old).honest
        → bytes.items ≡ bytes_in (S.facts store.old).content place.extent) }
    ensures short { IfOk result (λ bytes. length bytes.items ≤ longest_directory) }
    ensures long { IfOk result (λ bytes. 16 ≤ length bytes.items) }
    ensures file { IsErrOf result Fault.File → FailedSince (S.facts store.old) (S.facts store.new) }
    ensures refusals { IfErr result IsResourceFault }
{
    let room = file_length - start_of(place.extent);
    let length = room.min(u64::from(place.extent.length)) as u32;
    let page = place.extent.page;
    read_extent(alloc, store, Extent { page, length })
}
