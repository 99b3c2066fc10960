//! The patch that leaves an array with other extra bytes, and with an element or none in the place of some.
ghost use Rattle.std.specs.Prelude.{◌≡◌, ◌≤◌, ◌<◌, ◌+◌, ◌-◌, ◌*◌, ◌^◌, ◌++◌, [], ◌∷◌, true, IsSome, IfSome, MatchResult, IfOk, length, take, drop, min, ◌==◌, if◌then◌else◌, get_or};
ghost use Rattle.std.specs.List.{flat_map};
ghost use Rattle.geos_model.specs.Words.{word};
ghost use Rattle.geos_model.specs.Array.{array_bytes, array_start, is_even, place_table};
ghost use Rattle.geos_model.specs.ArrayEdits.{with_elements};
ghost use Rattle.geos_model.specs.Heap.{longest_chunk};
ghost use Rattle.chunk_edits.specs.Patching.{PatchLeads};
ghost use Rattle.chunk_arrays.specs.Drafting.{Adds};
ghost use Rattle.chunk_arrays.specs.Reading.{element_place, words_from};
ghost use Rattle.chunk_arrays.specs.Rewriting.{HasFew, IsAlike, bytes_of, elements_after, elements_of, extra_after, rewritten};
ghost use Rattle.chunk_arrays.specs.Replacing.{Replaces, ReplacesAt, RefusesToReplace};

use crate::View;
use crate::difference::{MOST_COMPARED, compare};
use crate::draft::Draft;
use crate::runs::runs_of;
use byteorder::{ByteOrder, LittleEndian};
use chunk_edits::{ArrayPatch, Exchange, Patch};
use geos_model::{Fault, LONGEST_CHUNK};
use std::alloc::{AllocError, Global};

/// The bytes of an element that comes into an array: three parts, one after another, and so many zeros behind them.
#[derive(Clone, Copy)]
pub struct NewElement<'a> {
    pub head: &'a [u8],
    pub middle: &'a [u8],
    pub tail: &'a [u8],
    pub zeros: usize,
}

/// Of how many bytes a new element is at most that is put together without an allocation: as many as are compared, so
/// that no more of it is kept than what differs.
const JOINED_BYTES: usize = MOST_COMPARED;

/// The patch that leaves an array with these bytes as the first of its extra bytes, of which it has as many as before,
/// and with an element or none in the place of those from `from` to `to`, of which there is one at most where one
/// comes; and where it changes the array's bytes. Full where these would be more than any chunk has. What the patch
/// holds is in proportion to the elements that change.
pub fn rewrite(
    alloc: Global,
    view: &View<'_>,
    first: &[u8],
    from: usize,
    to: usize,
    new: Option<NewElement<'_>>,
) -> Result<ArrayPatch, Fault>
    // Which elements go.
    requires order { from ≤ to }
    requires within { to ≤ length view.now.array.elements }
    requires one { IsSome new → to ≤ from + 1 }
    // What comes.
    requires extra { length first.now ≤ length view.now.array.extra }
    requires even { is_even (rewritten view.now.array (extra_after view.now.array first.now) from to new) ≡ true }
    // What the bytes become, and where they change.
    ensures { MatchResult result
        (ReplacesAt [] (array_bytes view.now.array)
        (array_bytes (rewritten view.now.array (extra_after view.now.array first.now) from to new.entry))
        from to (length (elements_of new.entry)))
        (RefusesToReplace []
        (array_bytes (rewritten view.now.array (extra_after view.now.array first.now) from to new.entry))) }
{
    let patch = patch_of(alloc, view, first, from, to, new)?;
    let runs = runs_of(view, first, from, to, new);
    Ok(ArrayPatch { patch, runs })
}

/// The patch alone.
fn patch_of(
    alloc: Global,
    view: &View<'_>,
    first: &[u8],
    from: usize,
    to: usize,
    new: Option<NewElement<'_>>,
) -> Result<Patch, Fault>
    // Which elements go.
    requires order { from ≤ to }
    requires within { to ≤ length view.now.array.elements }
    requires one { IsSome new → to ≤ from + 1 }
    // What comes.
    requires extra { length first.now ≤ length view.now.array.extra }
    requires even { is_even (rewritten view.now.array (extra_after view.now.array first.now) from to new) ≡ true }
    // What the bytes become.
    ensures { MatchResult result
        (Replaces [] (array_bytes view.now.array)
        (array_bytes (rewritten view.now.array (extra_after view.now.array first.now) from to new.entry)))
        (RefusesToReplace []
        (array_bytes (rewritten view.now.array (extra_after view.now.array first.now) from to new.entry))) }
{
    match alike(view, first, from, to, new) {
        Some(element) => patch_alike(alloc, view, from, element),
        None => patch_drawn(alloc, view, first, from, to, new),
    }
}

/// The element that comes, where it takes the place of one of as many bytes, which are few, and the extra bytes stay.
fn alike<'a>(
    view: &View<'_>,
    first: &[u8],
    from: usize,
    to: usize,
    new: Option<NewElement<'a>>,
) -> Option<NewElement<'a>>
    requires order { from ≤ to }
    requires within { to ≤ length view.now.array.elements }
    requires extra { length first.now ≤ length view.now.array.extra }
    ensures { IfSome result (λ element. IsAlike view.now.array first.now from to new.entry element) }
{
    let Some(element) = new else {
        return None;
    };
    if to != from + 1 || !first.is_empty() || !are_few(element) {
        return None;
    }
    if new_len(new) == view.element(from).len() {
        Some(element)
    } else {
        None
    }
}

/// Whether an element has few bytes, of which none is a zero behind its parts.
fn are_few(element: NewElement<'_>) -> bool
    ensures { result ≡ true → HasFew element.entry }
{
    element.zeros == 0 && new_len(Some(element)) <= JOINED_BYTES
}

/// The patch of an array in which a new element of few bytes takes the place of one of as many.
fn patch_alike(
    alloc: Global,
    view: &View<'_>,
    at: usize,
    element: NewElement<'_>,
) -> Result<Patch, Fault>
    requires within { at < length view.now.array.elements }
    requires alike { length (bytes_of element) ≡ length (get_or view.now.array.elements at []) }
    requires few { HasFew element }
    ensures { MatchResult result
        (Replaces [] (array_bytes view.now.array)
        (array_bytes (with_elements view.now.array at (at + 1) (bytes_of element.entry ∷ []))))
        (RefusesToReplace []
        (array_bytes (with_elements view.now.array at (at + 1) (bytes_of element.entry ∷ [])))) }
{
    if view.bytes().len() > LONGEST_CHUNK {
        return Err(Fault::Full);
    }
    let bytes = joined_few(element);
    let len = new_len(Some(element));
    let patch = exchange_at(alloc, view, at, &bytes[..len])?;
    Ok(patch)
}

/// The patch of an array in which these bytes take the place of an element of as many. Those that stay aren't in it.
fn exchange_at(
    alloc: Global,
    view: &View<'_>,
    at: usize,
    element: &[u8],
) -> Result<Patch, AllocError>
    requires within { at < length view.now.array.elements }
    requires alike { length element.now ≡ length (get_or view.now.array.elements at []) }
    requires short { length (array_bytes view.now.array) ≤ longest_chunk }
    ensures { IfOk result
        (λ patch. PatchLeads patch (array_bytes view.now.array)
        (array_bytes (with_elements view.now.array at (at + 1) (element.now ∷ [])))) }
{
    let (front, rest) = view.bytes().split_at(view.place(at));
    let (old, behind) = rest.split_at(element.len());
    let changed = compare(old, element);
    let exchange = Exchange {
        old: changed.old,
        new: changed.new,
    };
    let before = front.len() + changed.front;
    let after = changed.back + behind.len();
    let patch = Patch::replacing(alloc, before as u32, exchange, after as u32)?;
    Ok(patch)
}

/// The patch alone, drawn up from the first byte on.
fn patch_drawn(
    alloc: Global,
    view: &View<'_>,
    first: &[u8],
    from: usize,
    to: usize,
    new: Option<NewElement<'_>>,
) -> Result<Patch, Fault>
    // Which elements go.
    requires order { from ≤ to }
    requires within { to ≤ length view.now.array.elements }
    requires one { IsSome new → to ≤ from + 1 }
    // What comes.
    requires extra { length first.now ≤ length view.now.array.extra }
    requires even { is_even (rewritten view.now.array (extra_after view.now.array first.now) from to new) ≡ true }
    // What the bytes become.
    ensures { MatchResult result
        (Replaces [] (array_bytes view.now.array)
        (array_bytes (rewritten view.now.array (extra_after view.now.array first.now) from to new.entry)))
        (RefusesToReplace []
        (array_bytes (rewritten view.now.array (extra_after view.now.array first.now) from to new.entry))) }
{
    let len = length_after(view, from, to, new);
    if len > LONGEST_CHUNK {
        return Err(Fault::Full);
    }
    let mut draft = Draft::new(alloc)?;
    draft_head(&mut draft, view, first, count_after(view, from, to, new))?;
    draft_table(&mut draft, view, from, to, new)?;
    draft_elements(&mut draft, alloc, view, from, to, new)?;
    let patch = draft.finish()?;
    Ok(patch)
}

/// How many bytes the array has then; the greatest number where they are more.
fn length_after(view: &View<'_>, from: usize, to: usize, new: Option<NewElement<'_>>) -> usize
    requires order { from ≤ to }
    requires within { to ≤ length view.now.array.elements }
    ensures { result ≡
        min (length (array_bytes (rewritten view.now.array view.now.array.extra from to new.entry))) (2 ^ 64 - 1) }
{
    let start = view.extra().len().saturating_add(8);
    let table = table_len(view, count_after(view, from, to, new));
    let before = view.run(0, from).len();
    let behind = view.run(to, view.count()).len();
    let elements = before.saturating_add(new_len(new)).saturating_add(behind);
    start.saturating_add(table).saturating_add(elements)
}

/// How many elements the array has then; the greatest number where they are more.
pub(crate) fn count_after(
    view: &View<'_>,
    from: usize,
    to: usize,
    new: Option<NewElement<'_>>,
) -> usize
    requires order { from ≤ to }
    requires within { to ≤ length view.now.array.elements }
    ensures { result ≡ min (length (elements_after view.now.array from to new.entry)) (2 ^ 64 - 1) }
{
    let left = from + (view.count() - to);
    match new {
        None => left,
        Some(_) => left.saturating_add(1),
    }
}

/// How many bytes the table of places of so many elements has; the greatest number where they are more.
pub(crate) fn table_len(view: &View<'_>, count: usize) -> usize
    ensures { result ≡ min (if view.now.array.size == 0 then 2 * count else 0) (2 ^ 64 - 1) }
{
    if view.element_size() == 0 {
        count.saturating_add(count)
    } else {
        0
    }
}

/// How many bytes the new element has; the greatest number where they are more.
pub(crate) fn new_len(new: Option<NewElement<'_>>) -> usize
    ensures { result ≡ min (length (flat_map (λ x. x) (elements_of new.entry))) (2 ^ 64 - 1) }
{
    match new {
        None => 0,
        Some(element) => {
            let parts = element.head.len().saturating_add(element.middle.len());
            parts
                .saturating_add(element.tail.len())
                .saturating_add(element.zeros)
        }
    }
}

/// Adds what lies before the table of places: the header, with the count then, and the extra bytes, with these as the
/// first.
fn draft_head(
    draft: &mut Draft,
    view: &View<'_>,
    first: &[u8],
    count: usize,
) -> Result<(), AllocError>
    requires count { count < 2 ^ 16 }
    requires extra { length first.now ≤ length view.now.array.extra }
    requires room { draft.old.kept + array_start view.now.array < 2 ^ 32 }
    ensures { IfOk result
        (λ _. Adds draft.old draft.new (take (array_start view.now.array) (array_bytes view.now.array))
        (word count ++ take 6 (drop 2 (array_bytes view.now.array)) ++ extra_after view.now.array first.now)) }
{
    let header = view.bytes();
    let extra = view.extra();
    draft.put_word(&header[..2], count as u16)?;
    draft.keep(&header[2..8]);
    draft_first(draft, &extra[..first.len()], first)?;
    draft.keep(&extra[first.len()..]);
    Ok(())
}

/// Adds the first of the extra bytes, with others in their place. Most often these are none, or a word.
fn draft_first(draft: &mut Draft, old: &[u8], new: &[u8]) -> Result<(), AllocError>
    requires alike { length old.now ≡ length new.now }
    requires room { draft.old.kept + length new.now < 2 ^ 32 }
    ensures { IfOk result (λ _. Adds draft.old draft.new old.now new.now) }
{
    if new.is_empty() {
        return Ok(());
    }
    if new.len() != 2 {
        return draft.put(old, new);
    }
    draft.put_word(old, LittleEndian::read_u16(new))?;
    Ok(())
}

/// Adds the table of places, where sizes vary.
fn draft_table(
    draft: &mut Draft,
    view: &View<'_>,
    from: usize,
    to: usize,
    new: Option<NewElement<'_>>,
) -> Result<(), AllocError>
    // Which elements go, and what comes.
    requires order { from ≤ to }
    requires within { to ≤ length view.now.array.elements }
    requires short { length (array_bytes (rewritten view.now.array view.now.array.extra from to new)) ≤ longest_chunk }
    // What the draft has room for.
    requires room { draft.old.kept + longest_chunk < 2 ^ 32 }
    // What the table becomes.
    ensures { IfOk result
        (λ _. Adds draft.old draft.new (place_table (array_start view.now.array) view.now.array)
        (place_table (array_start view.now.array) (rewritten view.now.array view.now.array.extra from to new.entry))) }
{
    if view.element_size() != 0 {
        return Ok(());
    }
    let first = view.extra().len() + 8 + 2 * count_after(view, from, to, new);
    let place = first + view.run(0, from).len();
    draft_places(draft, view, 0, from, first)?;
    draft_place(draft, view.places(from, to), place, new)?;
    draft_places(draft, view, to, view.count(), place + new_len(new))?;
    Ok(())
}

/// Adds the places of the elements from one up to another, the first of which comes to lie at `place`.
fn draft_places(
    draft: &mut Draft,
    view: &View<'_>,
    from: usize,
    to: usize,
    place: usize,
) -> Result<(), AllocError>
    requires any { view.now.array.size ≡ 0 }
    requires order { from ≤ to }
    requires within { to ≤ length view.now.array.elements }
    requires near { place < 2 ^ 16 }
    requires room { draft.old.kept + 2 * (to - from) < 2 ^ 32 }
    ensures { IfOk result (λ _. Adds draft.old draft.new
        (words_from (element_place view.now.array from) (take (to - from) (drop from view.now.array.elements)))
        (words_from place (take (to - from) (drop from view.now.array.elements)))) }
{
    let words = view.places(from, to);
    let before = view.place(from);
    if words.is_empty() || before == place {
        draft.keep(words);
        return Ok(());
    }
    draft.rebase(words, before as u16, place as u16)?;
    Ok(())
}

/// Adds the places of the elements that go, and the place of the new element instead.
fn draft_place(
    draft: &mut Draft,
    words: &[u8],
    place: usize,
    new: Option<NewElement<'_>>,
) -> Result<(), AllocError>
    requires near { place < 2 ^ 16 }
    requires room { draft.old.kept + 2 < 2 ^ 32 }
    ensures { IfOk result (λ _. Adds draft.old draft.new words.now (words_from place (elements_of new.entry))) }
{
    if new.is_none() {
        return draft.put(words, &[]);
    }
    let number = place as u16;
    draft.put(words, number.to_le_bytes().as_slice())
}

/// Adds the elements.
fn draft_elements(
    draft: &mut Draft,
    alloc: Global,
    view: &View<'_>,
    from: usize,
    to: usize,
    new: Option<NewElement<'_>>,
) -> Result<(), AllocError>
    // Which elements go, and what comes.
    requires order { from ≤ to }
    requires within { to ≤ length view.now.array.elements }
    requires short { length (flat_map (λ x. x) (elements_after view.now.array from to new)) ≤ longest_chunk }
    // What the draft has room for.
    requires room { draft.old.kept + longest_chunk < 2 ^ 32 }
    // What the elements become.
    ensures { IfOk result
        (λ _. Adds draft.old draft.new (flat_map (λ x. x) view.now.array.elements)
        (flat_map (λ x. x) (elements_after view.now.array from to new.entry))) }
{
    draft.keep(view.run(0, from));
    draft_new(draft, alloc, view.run(from, to), new)?;
    draft.keep(view.run(to, view.count()));
    Ok(())
}

/// Adds the elements that go, with the new element in their place. Few bytes are put together without an allocation.
fn draft_new(
    draft: &mut Draft,
    alloc: Global,
    gone: &[u8],
    new: Option<NewElement<'_>>,
) -> Result<(), AllocError>
    requires { draft.old.kept + length (flat_map (λ x. x) (elements_of new)) < 2 ^ 32 }
    ensures { IfOk result (λ _. Adds draft.old draft.new gone.now (flat_map (λ x. x) (elements_of new.entry))) }
{
    let Some(element) = new else {
        return draft.put(gone, &[]);
    };
    if !are_few(element) {
        return draft_long(draft, alloc, gone, new);
    }
    let bytes = joined_few(element);
    let len = new_len(new);
    draft.put_changes(gone, &bytes[..len])
}

/// The same of an element of any length. One that is whole is taken as it stands.
fn draft_long(
    draft: &mut Draft,
    alloc: Global,
    gone: &[u8],
    new: Option<NewElement<'_>>,
) -> Result<(), AllocError>
    requires { draft.old.kept + length (flat_map (λ x. x) (elements_of new)) < 2 ^ 32 }
    ensures { IfOk result (λ _. Adds draft.old draft.new gone.now (flat_map (λ x. x) (elements_of new.entry))) }
{
    match whole_of(new) {
        Some(bytes) => draft.put_changes(gone, bytes),
        None => {
            let bytes = new_bytes(alloc, new)?;
            draft.put_changes(gone, bytes.as_slice())
        }
    }
}

/// The bytes of the new element, none where none comes, if they stand in one place.
fn whole_of(new: Option<NewElement<'_>>) -> Option<&[u8]>
    ensures { IfSome result (λ bytes. bytes.now ≡ flat_map (λ x. x) (elements_of new.entry)) }
{
    let Some(element) = new else {
        return Some(&[]);
    };
    if element.middle.is_empty() && element.tail.is_empty() && element.zeros == 0 {
        Some(element.head)
    } else {
        None
    }
}

/// The bytes of a new element that has few, and zeros behind them.
fn joined_few(element: NewElement<'_>) -> [u8; JOINED_BYTES]
    requires { HasFew element }
    ensures { take (length (bytes_of element.entry)) result ≡ bytes_of element.entry }
{
    let mut bytes = [0; JOINED_BYTES];
    let middle = element.head.len();
    let tail = middle + element.middle.len();
    let end = tail + element.tail.len();
    bytes[..middle].copy_from_slice(element.head);
    bytes[middle..tail].copy_from_slice(element.middle);
    bytes[tail..end].copy_from_slice(element.tail);
    bytes
}

/// The bytes of the new element, none where none comes.
fn new_bytes(alloc: Global, new: Option<NewElement<'_>>) -> Result<Vec<u8>, AllocError>
    requires { length (flat_map (λ x. x) (elements_of new)) < 2 ^ 64 }
    ensures { IfOk result (λ bytes. bytes.items ≡ flat_map (λ x. x) (elements_of new.entry)) }
{
    let mut bytes = Vec::with_capacity(alloc, new_len(new))?;
    let Some(element) = new else {
        return Ok(bytes);
    };
    bytes.extend_from_slice(element.head)?;
    bytes.extend_from_slice(element.middle)?;
    bytes.extend_from_slice(element.tail)?;
    let len = bytes.len() + element.zeros;
    bytes.resize(len, 0)?;
    Ok(bytes)
}

/// Adds the four words that an array begins with: how many elements of which size, and where the extra bytes end.
pub(crate) fn push_header(
    out: &mut Vec<u8>,
    count: usize,
    size: usize,
    start: usize,
) -> Result<(), AllocError>
    requires count { count < 2 ^ 16 }
    requires size { size < 2 ^ 16 }
    requires start { start < 2 ^ 16 }
    ensures { IfOk result (λ _. out.new.items ≡ out.old.items ++ (word count ++ word size ++ word 0 ++ word start)) }
{
    push_word(out, count)?;
    push_word(out, size)?;
    push_word(out, 0)?;
    push_word(out, start)
}

/// Adds a number as a word.
fn push_word(out: &mut Vec<u8>, n: usize) -> Result<(), AllocError>
    requires { n < 2 ^ 16 }
    ensures { IfOk result (λ _. out.new.items ≡ out.old.items ++ word n) }
{
    let word = n as u16;
    out.extend_from_slice(word.to_le_bytes().as_slice())
}
