//! The names of an array, read where they lie.
ghost use Rattle.std.specs.Prelude.{◌≡◌, ◌≤◌, None, Some, true, is_some, MatchOption, MatchResult, length};
ghost use Rattle.std.specs.Option.{option_map};
ghost use Rattle.geos_model.specs.Words.{word, word_at};
ghost use Rattle.lmem_heap.specs.Known.{is_array_of};
ghost use Rattle.geos_model.specs.ElementArray.{element_at, slots_of};
ghost use Rattle.geos_model.specs.NameArray.{name_array_of, names_of, is_name, is_sound_names};
ghost use Rattle.geos_model.specs.NameEdits.{token_of_text};
ghost use Rattle.element_arrays.specs.Slotted.{slotted_array};
ghost use Rattle.name_arrays.specs.Reading.{named_array, IsNameArrayRead};

use byteorder::{ByteOrder, LittleEndian};
use chunk_arrays::{View, check};
use element_arrays::{SlotView, known_slots, slots_within};
use geos_model::{Fault, Token};
use lmem_heap::{ArrayKind, KnownBytes};

/// How many bytes a part has at most.
pub(crate) const GREATEST_PART: usize = 64;

/// The extra bytes of a name array: the newest free token and the size of a part, two each.
const EXTRA: usize = 4;

/// How many bytes a name has at most.
const LONGEST_NAME: usize = 256;

/// A name array, read where it lies: its slots, and how many bytes the part before each name has.
#[derive(Drop)]
pub(crate) struct Names<'a> {
    pub slots: SlotView<'a>,
    pub part: usize,
    ghost sound: { is_sound_names (named_array slots part) ≡ true },
    ghost more: { slots.more ≡ word part },
}

/// A name: how many references it has, the part before it, and its bytes.
#[derive(Clone, Copy)]
pub(crate) struct Name<'a> {
    pub count: u32,
    pub part: &'a [u8],
    pub text: &'a [u8],
}

/// The name array that these bytes are. NotArray where they are none. It takes time in proportion to the bytes, but
/// none where they are known to be such an array, and no memory.
pub(crate) fn read<'a>(bytes: &KnownBytes<'a>) -> Result<Names<'a>, Fault>
    ensures { MatchResult result
        (λ names. IsNameArrayRead bytes.now names.slots names.part)
        (λ fault. (fault ≡ Fault.NotArray) × (name_array_of bytes.now ≡ None)) }
{
    let view = check(bytes)?;
    if bytes.is_known(ArrayKind::Name) {
        return Ok(known_names(view));
    }
    let Some(part) = part_size(&view) else {
        return Err(Fault::NotArray);
    };
    // a used element is a part and a name
    let slots = slots_within(view, EXTRA, part + 1, part + LONGEST_NAME)?;
    if slots.element_size() != 0 {
        return Err(Fault::NotArray);
    }
    Ok(Names { slots, part })
}

/// The name array that an array is known to be.
fn known_names<'a>(view: View<'a>) -> Names<'a>
    requires { is_some (names_of view.array) ≡ true }
    ensures slots { slots_of 4 view.entry.array ≡ Some result.slots.slots }
    ensures array { slotted_array result.slots ≡ view.entry.array }
    ensures part { result.part ≡ word_at view.entry.array.extra 2 }
    ensures sound { is_sound_names (named_array result.slots result.part) ≡ true }
{
    let part = part_in(view.extra());
    let slots = known_slots(view, EXTRA);
    Names { slots, part }
}

/// How many bytes the part before each name has, by the extra bytes of a name array.
fn part_in(extra: &[u8]) -> usize
    requires { length extra.now ≡ 4 }
    ensures { result ≡ word_at extra.now 2 }
{
    usize::from(LittleEndian::read_u16(&extra[2..]))
}

/// Whether bytes are a name array.
pub fn is_name_array(bytes: &KnownBytes<'_>) -> bool
    ensures { result ≡ is_array_of ArrayKind.Name bytes.now }
{
    read(bytes).is_ok()
}

/// How many bytes the part before each name has, if the array has the extra bytes of a name array.
fn part_size(view: &View<'_>) -> Option<usize>
    ensures { MatchOption result
        (names_of view.now.array ≡ None)
        (λ part. (part ≡ word_at view.now.array.extra 2) × (part ≤ 64)) }
{
    let extra = view.extra();
    if extra.len() != EXTRA {
        return None;
    }
    let part = part_in(extra);
    if part <= GREATEST_PART {
        Some(part)
    } else {
        None
    }
}

/// Whether a name can be these bytes: one at least, and no more than 256.
pub(crate) fn is_name(text: &[u8]) -> bool
    ensures { result ≡ is_name text.now }
{
    !text.is_empty() && text.len() <= LONGEST_NAME
}

impl<'a> Names<'a> {
    ghost use Rattle.name_arrays.specs.Naming.{IsNameAt};

    /// The lowest token that has a name.
    pub fn find(&self, text: &[u8]) -> Option<Token>
        ensures { option_map (λ t. t.0) result ≡ token_of_text (named_array self.now.slots self.now.part) text.now }
    {
        self.slots.find(self.part, text)
    }

    /// The name of a token. NoElement where it isn't used.
    pub fn name(&self, token: Token) -> Result<Name<'a>, Fault>
        ensures { MatchResult result
            (λ name. IsNameAt (named_array self.now.slots self.now.part) token.0 name)
            (λ fault. (fault ≡ Fault.NoElement) × (element_at self.now.slots.slots token.0 ≡ None)) }
    {
        let used = self.slots.element(token).ok_or(Fault::NoElement)?;
        let (part, text) = used.bytes.split_at(self.part);
        Ok(Name {
            count: used.count,
            part,
            text,
        })
    }
}
