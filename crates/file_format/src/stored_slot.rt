//! Reading the slots of a file: the bytes of each, and which one counts.
ghost use Rattle.std.specs.Prelude.{◌≡◌, ◌⊎◌, ◌<◌, ◌≤◌, ◌^◌, ℕ, List, IsTrue, OnOk, MatchResult, IfOk, IfErr, IfSome, IsErrOf, Some, Ok, Err, true, ◌==◌, ◌||◌, if◌then◌else◌, length, slice_index};
ghost use Rattle.std.specs.Option.{option_and_then, option_map};
ghost use Rattle.file_format.specs.File.{counting_slot, if_open, is_sealed, is_version, pair_of, stands};
ghost use Rattle.vm_store.specs.Facts.{FailedSince};
ghost use Rattle.file_format.specs.Reading.{IsOpenRefusal, IsResourceFault, OnlyReadsStore};
ghost use Rattle.file_format.specs.Slots.{Beaten, HasItsSums, IsVersion, IsFoundSlot, IsRawSlot, chosen_by, header_verdict, number_of, slot_stands};

use crate::file::{PAGE, Slot};
use crate::slot::{LONGEST_SLOT, own_sum, read_slot};
use geos_model::Fault;
use vm_store::Store;

/// What stands where a slot does.
#[derive(Clone, Copy)]
pub struct RawSlot {
    pub gate: u8,
    /// None where the mark doesn't stand.
    pub slot: Option<Slot>,
}

// What is known of bytes that are lent.
fn are_bytes(bytes: &[u8])
    ensures { (i : ℕ) → slice_index bytes.now i < 256 }
{}

/// Reads the slot of a page, 0 or 1. File.
pub fn read_raw_slot<S: Store>(store: &mut S, page: u32) -> Result<RawSlot, Fault>
    ensures looks { OnlyReadsStore (S.facts store.old) (S.facts store.new) }
    ensures raw { IfOk result (λ raw. IsTrue (S.facts store.old).honest
        → IsRawSlot (S.facts store.old).content page raw) }
    ensures summed { IfOk result (λ raw. IfSome raw.slot HasItsSums) }
    ensures file { IsErrOf result Fault.File → FailedSince (S.facts store.old) (S.facts store.new) }
    ensures refusals { IfErr result (λ fault. fault ≡ Fault.File) }
{
    let mut bytes = [0; LONGEST_SLOT];
    store.read_at(u64::from(PAGE) * u64::from(page), &mut bytes)?;
    are_bytes(&bytes);
    Ok(RawSlot {
        gate: bytes[4],
        slot: read_slot(&bytes),
    })
}

/// Which of two slots counts, 0 or 1, and what there is of it: of two open ones that of the greater sequence number.
/// Each open one is given with its number. NotDocument where none is open, Damaged where both have one number.
pub fn choose<T: Copy>(first: Option<(u64, T)>, second: Option<(u64, T)>) -> Result<(u8, T), Fault>
    ensures { result ≡ chosen_by first second }
{
    match (first, second) {
        (None, None) => Err(Fault::NotDocument),
        (Some(one), None) => Ok((0, one.1)),
        (None, Some(other)) => Ok((1, other.1)),
        (Some(one), Some(other)) => {
            if one.0 == other.0 {
                Err(Fault::Damaged)
            } else if one.0 < other.0 {
                Ok((1, other.1))
            } else {
                Ok((0, one.1))
            }
        }
    }
}

// The slot, where it is open.
fn if_open(slot: Option<Slot>) -> Option<Slot>
    ensures { result ≡ option_and_then if_open slot }
{
    match slot {
        Some(slot) if slot.gate == 1 => Some(slot),
        _ => None,
    }
}

fn numbered(slot: Option<Slot>) -> Option<(u64, Slot)>
    ensures { result ≡ option_map (λ s. (s.sequence, s)) slot }
{
    let slot = slot?;
    Some((slot.sequence, slot))
}

// The slot that counts.
#[derive(Clone, Copy)]
struct ChosenSlot {
    second: bool,
    slot: Slot,
}

// Which of two slots counts; each is None where it isn't open. NotDocument, Damaged.
fn choose_slot(first: Option<Slot>, second: Option<Slot>) -> Result<ChosenSlot, Fault>
    ensures chosen { MatchResult result (λ choice. counting_slot first second ≡ Ok choice.slot)
        (λ fault. counting_slot first second ≡ Err fault) }
    ensures which { IfOk result (λ choice. (if choice.second then second else first) ≡ Some choice.slot) }
    ensures beaten { IfOk result (λ choice. Beaten (if choice.second then first else second) choice.slot.sequence) }
    ensures refusals { IfErr result IsOpenRefusal }
    ensures file { IsErrOf result Fault.File → ⊥ }
{
    let (number, slot) = choose(numbered(first), numbered(second))?;
    Ok(ChosenSlot {
        second: number == 1,
        slot,
    })
}

/// The slot that counts, and the other one.
#[derive(Clone, Copy)]
pub struct FoundSlot {
    /// Whether slot 1 counts.
    pub second: bool,
    pub slot: Slot,
    pub other: RawSlot,
}

// The slot that doesn't count, if it is told whether the second one does.
fn other_of(counts: bool, first: RawSlot, second: RawSlot) -> RawSlot
    ensures { result ≡ (if counts then first else second) }
{
    if counts { first } else { second }
}

/// Finds the slot that counts in a file of so many bytes. NotDocument, Damaged, File.
pub fn find_slot<S: Store>(store: &mut S, file_length: u64) -> Result<FoundSlot, Fault>
    // Asked of the caller.
    requires { IsTrue (S.facts store.old).honest → file_length ≡ length (S.facts store.old).content }
    // The store.
    ensures looks { OnlyReadsStore (S.facts store.old) (S.facts store.new) }
    // The slot.
    ensures found { IfOk result (λ found. IsTrue (S.facts store.old).honest
        → IsFoundSlot (S.facts store.old).content found) }
    // Refusals.
    ensures refused { IfErr result (λ fault. IsTrue (S.facts store.old).honest
        → IsResourceFault fault ⊎ (stands (S.facts store.old).content ≡ Err fault)) }
    ensures file { IsErrOf result Fault.File → FailedSince (S.facts store.old) (S.facts store.new) }
    ensures refusals { IfErr result IsOpenRefusal }
{
    if file_length < 2 * u64::from(PAGE) {
        return Err(Fault::NotDocument);
    }
    let first = read_raw_slot(store, 0)?;
    let second = read_raw_slot(store, 1)?;
    let choice = choose_slot(if_open(first.slot), if_open(second.slot))?;
    Ok(FoundSlot {
        second: choice.second,
        slot: choice.slot,
        other: other_of(choice.second, first, second),
    })
}

// The page of the second slot, or of the first.
fn page_of(second: bool) -> u32
    ensures { result ≡ number_of second }
{
    if second { 1 } else { 0 }
}

/// Reads a slot that is open, the second one or the first, in a file of so many bytes. NotDocument, File.
pub fn read_open_slot<S: Store>(
    store: &mut S,
    file_length: u64,
    second: bool,
) -> Result<Slot, Fault>
    // Asked of the caller.
    requires { IsTrue (S.facts store.old).honest → file_length ≡ length (S.facts store.old).content }
    // The store.
    ensures looks { OnlyReadsStore (S.facts store.old) (S.facts store.new) }
    // The slot.
    ensures slot { IfOk result (λ slot. IsTrue (S.facts store.old).honest
        → slot_stands (S.facts store.old).content (number_of second) ≡ pair_of (S.facts store.old).content slot) }
    ensures summed { IfOk result HasItsSums }
    // Refusals.
    ensures refused { IfErr result (λ fault. IsTrue (S.facts store.old).honest
        → IsResourceFault fault ⊎ (slot_stands (S.facts store.old).content (number_of second) ≡ Err fault)) }
    ensures file { IsErrOf result Fault.File → FailedSince (S.facts store.old) (S.facts store.new) }
    ensures refusals { IfErr result IsOpenRefusal }
{
    if file_length < 2 * u64::from(PAGE) {
        return Err(Fault::NotDocument);
    }
    let raw = read_raw_slot(store, page_of(second))?;
    match if_open(raw.slot) {
        Some(slot) => Ok(slot),
        None => Err(Fault::NotDocument),
    }
}

/// Whether it is a version of the format.
pub fn is_version(version: u8) -> bool
    ensures { result ≡ is_version version }
{
    version == 1 || version == 2 || version == 3
}

/// Whether a slot's own sum is right, where it has one.
pub fn is_sealed(slot: &Slot) -> bool
    ensures { result ≡ is_sealed slot.now }
{
    match &slot.sums {
        None => true,
        Some(sums) => sums.own == own_sum(slot, sums),
    }
}

/// Whether a slot can lead to documents: Ok, or `NotDocument` where its version is none of the format, or `Damaged`
/// where its zeros, its sequence number or its own sum are wrong.
pub fn check_slot(slot: &Slot) -> Result<(), Fault>
    ensures verdict { result ≡ header_verdict slot.now }
    ensures ok { OnOk result (IsVersion slot.now.version × (slot.now.reserved ≡ 0) × (1 ≤ slot.now.sequence)
        × (slot.now.sequence < 2 ^ 64) × (is_sealed slot.now ≡ true)) }
    ensures refused { IfErr result (λ fault. (file : List ℕ) → pair_of file slot.now ≡ Err fault) }
    ensures refusals { IfErr result IsOpenRefusal }
    ensures file { IsErrOf result Fault.File → ⊥ }
{
    if !is_version(slot.version) {
        return Err(Fault::NotDocument);
    }
    if slot.reserved != 0 || slot.sequence == 0 || !is_sealed(slot) {
        return Err(Fault::Damaged);
    }
    Ok(())
}
