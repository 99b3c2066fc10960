//! The edits that make a name array or an element array by adding one after another.
#![tactic(auto, using(crate::proofs::Texts::texts))]

ghost use Rattle.std.specs.Prelude.{◌≡◌, ◌==◌, ◌++◌, ◌<◌, ◌^◌, ◌∷◌, None, Some, MatchOption, OnOk, true, false, is_some, length, take, drop};
ghost use Rattle.std.specs.Option.{option_map, option_map_or};
ghost use Rattle.geos_model.specs.Words.{word_at};
ghost use Rattle.geos_model.specs.Array.{Array, array_of};
ghost use Rattle.geos_model.specs.NameArray.{names_of};
ghost use Rattle.document_dump.specs.Lines.{line, text};
ghost use Rattle.document_dump.specs.Arrays.{array_made};
ghost use Rattle.document_dump.specs.Rows.{are_own, array_edits, count_set, elements_to_make, if_own_elements, if_own_names, is_own, names_to_make, row_added, row_created, row_made, slot_made};
ghost use Rattle.document_dump.specs.declared.rows.Row.TheVariants as rows;

use crate::arrays::push_array;
use crate::lines::{
    push_add_element, push_add_name, push_create_elements, push_create_names, push_set_element,
};
use byteorder::{ByteOrder, LittleEndian};
use chunk_arrays::{View, check};
use element_arrays::{SlotView, known_slots, slots_in};
use geos_model::{ChunkHandle, Token, VmHandle};
use lmem_heap::KnownBytes;
use name_arrays::is_name_array;
use std::alloc::AllocError;

/// What is added one after another.
#[derive(Clone, Copy)]
pub enum Row {
    Elements,
    /// Behind parts of so many bytes.
    Names(usize),
}

/// A name array, whose names lie behind parts of so many bytes.
#[derive(Drop)]
struct Names<'a> {
    part: usize,
    slots: SlotView<'a>,
}

fn behind(bytes: &[u8], skip: usize) -> &[u8]
    ensures { result.now ≡ drop skip bytes.now }
{
    &bytes[skip.min(bytes.len())..]
}

fn front(bytes: &[u8], most: usize) -> &[u8]
    ensures { result.now ≡ take most bytes.now }
{
    &bytes[..most.min(bytes.len())]
}

fn is_token(found: Option<Token>, token: Token) -> bool
    ensures { result ≡ option_map_or (λ u. u == token.0) (option_map (λ u. u.0) found) false }
{
    match found {
        Some(other) => other.0 == token.0,
        None => false,
    }
}

fn is_own(slots: &SlotView<'_>, skip: usize, token: Token) -> bool
    ensures { result ≡ is_own skip slots.now.slots token.0 }
{
    match slots.element(token) {
        Some(used) => {
            let name = behind(used.bytes, skip);
            is_token(slots.find(skip, name), token)
        }
        None => false,
    }
}

/// Whether each token has an element that has no other token. As the commands that add them do, it looks through the
/// array for each.
fn are_own(slots: &SlotView<'_>, skip: usize) -> bool
    ensures { result ≡ are_own skip slots.now.slots }
{
    for t in 0..slots.len() {
        if !is_own(slots, skip, Token(t)) {
            return false;
        }
    }
    true
}

fn part_in(extra: &[u8]) -> usize
    requires { length extra.now ≡ 4 }
    ensures { result ≡ word_at extra.now 2 }
{
    usize::from(LittleEndian::read_u16(&extra[2..]))
}

fn if_own_names<'a>(part: usize, slots: SlotView<'a>) -> Option<Names<'a>>
    ensures { MatchOption result
        (if_own_names (record { part = part; names = slots.entry.slots }) ≡ None)
        (λ names. if_own_names (record { part = part; names = slots.entry.slots }) ≡
        Some (record { part = names.part; names = names.slots.slots })) }
{
    if are_own(&slots, part) {
        Some(Names { part, slots })
    } else {
        None
    }
}

fn names_of<'a>(view: View<'a>) -> Option<Names<'a>>
    requires { is_some (names_of view.array) ≡ true }
    ensures { MatchOption result
        (names_to_make view.entry.array ≡ None)
        (λ names. names_to_make view.entry.array ≡ Some (record { part = names.part; names = names.slots.slots })) }
{
    let part = part_in(view.extra());
    let slots = known_slots(view, 4);
    if_own_names(part, slots)
}

/// The names of an array, if it can be made by them.
fn names_in<'a>(bytes: &'a [u8]) -> Option<Names<'a>>
    ensures { (a : Array) → array_of bytes.now ≡ Some a → MatchOption result
        (names_to_make a ≡ None)
        (λ names. names_to_make a ≡ Some (record { part = names.part; names = names.slots.slots })) }
{
    let known = KnownBytes::new(bytes);
    if !is_name_array(&known) {
        return None;
    }
    match check(&known) {
        Ok(view) => names_of(view),
        Err(_) => None,
    }
}

fn if_own_elements<'a>(slots: SlotView<'a>) -> Option<SlotView<'a>>
    ensures { MatchOption result
        (if_own_elements slots.entry.slots ≡ None)
        (λ own. if_own_elements slots.entry.slots ≡ Some own.slots) }
{
    if are_own(&slots, 0) {
        Some(slots)
    } else {
        None
    }
}

fn elements_of<'a>(view: View<'a>) -> Option<SlotView<'a>>
    ensures { MatchOption result
        (elements_to_make view.entry.array ≡ None)
        (λ slots. elements_to_make view.entry.array ≡ Some slots.slots) }
{
    match slots_in(view, 2) {
        Ok(slots) => if_own_elements(slots),
        Err(_) => None,
    }
}

/// The elements of an array under tokens, if it can be made by them.
fn elements_in<'a>(bytes: &'a [u8]) -> Option<SlotView<'a>>
    ensures { (a : Array) → array_of bytes.now ≡ Some a → MatchOption result
        (elements_to_make a ≡ None)
        (λ slots. elements_to_make a ≡ Some slots.slots) }
{
    let known = KnownBytes::new(bytes);
    match check(&known) {
        Ok(view) => elements_of(view),
        Err(_) => None,
    }
}

fn push_created(
    out: &mut Vec<u8>,
    block: VmHandle,
    row: Row,
    slots: &SlotView<'_>,
) -> Result<(), AllocError>
    ensures { OnOk result (out.new.items ≡ out.old.items ++ line (row_created block row slots.now.slots)) }
{
    match row {
        Row::Elements => push_create_elements(out, block, slots.element_size()),
        Row::Names(part) => push_create_names(out, block, part),
    }
}

fn push_added(
    out: &mut Vec<u8>,
    block: VmHandle,
    chunk: ChunkHandle,
    row: Row,
    bytes: &[u8],
) -> Result<(), AllocError>
    ensures { OnOk result (out.new.items ≡ out.old.items ++ line (row_added block chunk row bytes.now)) }
{
    match row {
        Row::Elements => push_add_element(out, block, chunk, bytes),
        Row::Names(part) => {
            let name = behind(bytes, part);
            push_add_name(out, block, chunk, name, front(bytes, part))
        }
    }
}

fn push_count(
    out: &mut Vec<u8>,
    block: VmHandle,
    chunk: ChunkHandle,
    view: &View<'_>,
    t: usize,
    count: u32,
) -> Result<(), AllocError>
    requires { t < length view.now.array.elements }
    ensures { OnOk result (out.new.items ≡ out.old.items ++ text (count_set block chunk view.now.array t count)) }
{
    if count == 1 {
        return Ok(());
    }
    push_set_element(out, block, chunk, t, view.element(t))
}

fn push_used(
    out: &mut Vec<u8>,
    block: VmHandle,
    chunk: ChunkHandle,
    row: Row,
    view: &View<'_>,
    t: usize,
    bytes: &[u8],
    count: u32,
) -> Result<(), AllocError>
    requires { t < length view.now.array.elements }
    ensures { OnOk result (out.new.items ≡ out.old.items
        ++ text (row_added block chunk row bytes.now ∷ count_set block chunk view.now.array t count)) }
{
    push_added(out, block, chunk, row, bytes)?;
    push_count(out, block, chunk, view, t, count)
}

fn push_slot(
    out: &mut Vec<u8>,
    block: VmHandle,
    chunk: ChunkHandle,
    row: Row,
    view: &View<'_>,
    slots: &SlotView<'_>,
    t: usize,
) -> Result<(), AllocError>
    requires inside { t < length view.now.array.elements }
    requires small { t < 2 ^ 16 }
    ensures { OnOk result (out.new.items ≡ out.old.items
        ++ text (slot_made block chunk row view.now.array slots.now.slots t)) }
{
    match slots.element(Token(t as u16)) {
        Some(used) => push_used(out, block, chunk, row, view, t, used.bytes, used.count),
        None => Ok(()),
    }
}

fn push_row(
    out: &mut Vec<u8>,
    block: VmHandle,
    chunk: ChunkHandle,
    row: Row,
    view: &View<'_>,
    slots: &SlotView<'_>,
) -> Result<(), AllocError>
    ensures { OnOk result
        (out.new.items ≡ out.old.items ++ text (row_made block chunk row view.now.array slots.now.slots)) }
{
    push_created(out, block, row, slots)?;
    for t in 0..view.count() {
        push_slot(out, block, chunk, row, view, slots, t)?;
    }
    Ok(())
}

fn push_elements_or_array(
    out: &mut Vec<u8>,
    block: VmHandle,
    chunk: ChunkHandle,
    bytes: &[u8],
    view: &View<'_>,
) -> Result<(), AllocError>
    requires { array_of bytes.now ≡ Some view.now.array }
    ensures { OnOk result (out.new.items ≡ out.old.items
        ++ text (option_map_or (row_made block chunk rows.Elements view.now.array) (elements_to_make view.now.array)
        (array_made block chunk view.now.array))) }
{
    match elements_in(bytes) {
        Some(slots) => push_row(out, block, chunk, Row::Elements, view, &slots),
        None => push_array(out, block, chunk, view),
    }
}

/// A new chunk with the bytes of an array.
pub fn push_array_edits(
    out: &mut Vec<u8>,
    block: VmHandle,
    chunk: ChunkHandle,
    bytes: &[u8],
    view: &View<'_>,
) -> Result<(), AllocError>
    requires { array_of bytes.now ≡ Some view.now.array }
    ensures { OnOk result
        (out.new.items ≡ out.old.items ++ text (array_edits block chunk view.now.array)) }
{
    match names_in(bytes) {
        Some(names) => push_row(
            out,
            block,
            chunk,
            Row::Names(names.part),
            view,
            &names.slots,
        ),
        None => push_elements_or_array(out, block, chunk, bytes, view),
    }
}
