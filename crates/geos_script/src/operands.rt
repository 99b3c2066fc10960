//! What a word spells, where an operand of some kind is wanted.
ghost use Rattle.std.specs.Prelude.{◌≡◌, ◌<◌, ◌≤◌, ◌∷◌, ◌%◌, [], Bool, true, false, IfOk, IfSome, codes, drop, fold, is_some, length, ok_or, slice_index, take, List, ℕ, MatchResult, None, Option, Some};
ghost use Rattle.std.specs.List.{list_all};
ghost use Rattle.hex.specs.Hex.{decode_of};
ghost use Rattle.geos_model.specs.Bytes.{same_bytes};
ghost use Rattle.geos_model.specs.Script as script;
ghost use Rattle.geos_model.specs.declared.fault.Fault.TheVariants as faults;
ghost use Rattle.geos_script.specs.Making.{ReadsOff, last, read_off};
ghost use Rattle.geos_script.specs.Reading.{FailsToRead, ReadsAs, is_nonempty};

use crate::hex_digits::{are_digits, decode_into, handle_of};
use crate::line::{ends_word, has_no_word, next_word};
use crate::spare::Spare;
use geos_model::{Bytes, ChunkHandle, ElementCount, Fault, Token, VmHandle};
use std::alloc::AllocError;

/// What a word may spell.
pub(crate) trait Operand: Copy {
    ghost spelled: { List ℕ → Option Self };

    /// What the next word spells, and what stands behind it.
    fn read(text: &[u8]) -> Result<(Self, &[u8]), Fault>
        ensures { ReadsOff spelled text.now result };
}

/// The most digits of a number.
const MOST_DIGITS: usize = 7;

/// The most digits of a number of elements of a large array. So many are never too many for 32 bits.
const MOST_ELEMENT_DIGITS: usize = 9;

/// The number that the decimal digits at the front spell, at most so many of them, and how many they are.
#[inline(always)]
fn leading_number<const MOST: usize>(text: &[u8]) -> (u32, usize)
    requires { MOST ≤ 9 }
    ensures within { result.1 ≤ length text.now }
    ensures few { result.1 ≤ MOST }
    ensures digits { list_all script.is_digit (take result.1 text.now) ≡ true }
    ensures ends { result.1 < length text.now → result.1 < MOST
        → script.is_digit (slice_index text.now result.1) ≡ false }
    ensures value { result.0 ≡ fold script.with_digit 0 (take result.1 text.now) }
{
    let most = text.len().min(MOST);
    let mut number = 0;
    for i in 0..most {
        let digit = text[i];
        if !digit.is_ascii_digit() {
            return (number, i);
        }
        number = 10 * number + u32::from(digit - b'0');
    }
    (number, most)
}

/// 1 to so many decimal digits.
fn number<const MOST: usize>(word: &[u8]) -> Result<u32, Fault>
    requires { MOST ≤ 9 }
    ensures { result ≡ ok_or (script.number_within MOST word.now) faults.BadCommand }
{
    let (number, end) = leading_number::<MOST>(word);
    if end == 0 || end < word.len() {
        return Err(Fault::BadCommand);
    }
    Ok(number)
}

/// The number that the next word spells, wherever it stands.
#[cold]
#[inline(never)]
fn any_number<const MOST: usize>(text: &[u8]) -> Result<(u32, &[u8]), Fault>
    requires { MOST ≤ 9 }
    ensures { ReadsOff (script.number_within MOST) text.now result }
{
    let Some((word, tail)) = next_word(text) else {
        return Err(Fault::BadCommand);
    };
    Ok((number::<MOST>(word)?, tail))
}

// Each operand but a flag has a short way for the text that is usual. It answers in registers: an operand with the text
// behind it is too large for them.

/// The number that a text begins with as is usual, behind one space and before another or the end, and how many bytes
/// that takes: none where it begins otherwise.
// Never inlined, nor handles and bytes: else each shape of each row has its own.
#[inline(never)]
fn usual_number<const MOST: usize>(text: &[u8]) -> (u32, usize)
    requires { MOST ≤ 9 }
    ensures { 0 < result.1 → (result.1 ≤ length text.now)
        × (read_off (script.number_within MOST) (script.words text.now)
        ≡ Some (result.0, script.words (drop result.1 text.now))) }
{
    let [b' ', digits @ ..] = text else {
        return (0, 0);
    };
    let (number, end) = leading_number::<MOST>(digits);
    if end == 0 || !ends_word(&digits[end..]) {
        return (0, 0);
    }
    (number, end + 1)
}

/// The number that the next word spells, and what stands behind it.
#[inline(always)]
fn next_number<const MOST: usize>(text: &[u8]) -> Result<(u32, &[u8]), Fault>
    requires { MOST ≤ 9 }
    ensures { ReadsOff (script.number_within MOST) text.now result }
{
    let (number, end) = usual_number::<MOST>(text);
    if end == 0 {
        return any_number::<MOST>(text);
    }
    Ok((number, &text[end..]))
}

impl Operand for u32 {
    ghost spelled = { script.number };

    // Inlined, and so below: else the number comes by memory.
    #[inline(always)]
    fn read(text: &[u8]) -> Result<(u32, &[u8]), Fault> {
        next_number::<MOST_DIGITS>(text)
    }
}

impl Operand for ElementCount {
    ghost spelled = { script.element_number };

    #[inline(always)]
    fn read(text: &[u8]) -> Result<(ElementCount, &[u8]), Fault> {
        let (number, tail) = next_number::<MOST_ELEMENT_DIGITS>(text)?;
        Ok((ElementCount(number), tail))
    }
}

impl Operand for u16 {
    ghost spelled = { script.user_id };

    #[inline(always)]
    fn read(text: &[u8]) -> Result<(u16, &[u8]), Fault> {
        let (number, tail) = u32::read(text)?;
        let id = u16::try_from(number).ok().ok_or(Fault::BadCommand)?;
        Ok((id, tail))
    }
}

/// Exactly four hexadecimal digits.
fn handle(word: &[u8]) -> Result<u16, Fault>
    ensures { result ≡ ok_or (script.handle word.now) faults.BadCommand }
{
    if word.len() != 4 {
        return Err(Fault::BadCommand);
    }
    handle_of(word[0], word[1], word[2], word[3]).ok_or(Fault::BadCommand)
}

/// The handle that the next word spells, wherever it stands.
#[cold]
#[inline(never)]
fn any_handle(text: &[u8]) -> Result<(u16, &[u8]), Fault>
    ensures { ReadsOff script.handle text.now result }
{
    let Some((word, tail)) = next_word(text) else {
        return Err(Fault::BadCommand);
    };
    Ok((handle(word)?, tail))
}

/// The handle that a text begins with as is usual: behind one space, and before another or the end.
#[inline(never)]
fn usual_handle(text: &[u8]) -> Option<u16>
    ensures { IfSome result (λ h. (5 ≤ length text.now)
        × (read_off script.handle (script.words text.now) ≡ Some (h, script.words (drop 5 text.now)))) }
{
    let [b' ', a, b, c, d, tail @ ..] = text else {
        return None;
    };
    if !ends_word(tail) {
        return None;
    }
    handle_of(*a, *b, *c, *d)
}

/// The handle that the next word spells, and what stands behind it.
#[inline(always)]
fn next_handle(text: &[u8]) -> Result<(u16, &[u8]), Fault>
    ensures { ReadsOff script.handle text.now result }
{
    match usual_handle(text) {
        Some(handle) => Ok((handle, &text[5..])),
        None => any_handle(text),
    }
}

impl Operand for VmHandle {
    ghost spelled = { script.block };

    fn read(text: &[u8]) -> Result<(VmHandle, &[u8]), Fault> {
        let (handle, tail) = next_handle(text)?;
        Ok((VmHandle(handle), tail))
    }
}

impl Operand for ChunkHandle {
    ghost spelled = { script.chunk };

    fn read(text: &[u8]) -> Result<(ChunkHandle, &[u8]), Fault> {
        let (handle, tail) = next_handle(text)?;
        Ok((ChunkHandle(handle), tail))
    }
}

impl Operand for Token {
    ghost spelled = { script.token };

    fn read(text: &[u8]) -> Result<(Token, &[u8]), Fault> {
        let (handle, tail) = next_handle(text)?;
        Ok((Token(handle), tail))
    }
}

/// Whether a part is set or kept.
impl Operand for bool {
    ghost spelled = { script.is_set };

    fn read(text: &[u8]) -> Result<(bool, &[u8]), Fault> {
        let Some((word, tail)) = next_word(text) else {
            return Err(Fault::BadCommand);
        };
        match word {
            b"set" => Ok((true, tail)),
            b"keep" => Ok((false, tail)),
            _ => Err(Fault::BadCommand),
        }
    }
}

/// Whether a word spells bytes, which is told without memory.
pub(crate) fn spells_bytes(word: &[u8]) -> bool
    ensures { result ≡ is_some (script.bytes word.now) }
{
    word == b"-".as_slice() || (!word.is_empty() && word.len() % 2 == 0 && are_digits(word))
}

/// The bytes that pairs of digits spell, or none where some are no digits.
#[inline(always)]
fn bytes_of_pairs(spare: &mut Spare, digits: &[u8]) -> Result<Option<Bytes>, AllocError>
    requires { length digits.now % 2 ≡ 0 }
    ensures { IfOk result (λ bytes. bytes ≡ script.if_spelled (decode_of digits.now)) }
{
    let mut items = spare.zeros(digits.len() / 2)?;
    if !decode_into(digits, items.as_mut_slice()) {
        return Ok(None);
    }
    Ok(Some(Bytes::from_vec(items)))
}

/// What is answered where there is no memory for the bytes that a word may spell: what spells none is a BadCommand even
/// then.
#[cold]
#[inline(never)]
fn refused(word: &[u8]) -> Fault
    requires { same_bytes word.now (codes "-") ≡ false }
    ensures { FailsToRead is_nonempty (script.bytes word.now) result }
{
    if spells_bytes(word) {
        Fault::Memory
    } else {
        Fault::BadCommand
    }
}

/// The bytes that a word spells, for which there may be no memory.
pub(crate) fn bytes_of(spare: &mut Spare, word: &[u8]) -> Result<Bytes, Fault>
    ensures { ReadsAs is_nonempty (script.bytes word.now) result }
{
    if word == b"-".as_slice() {
        return Ok(spare.none());
    }
    if word.is_empty() || word.len() % 2 != 0 {
        return Err(Fault::BadCommand);
    }
    match bytes_of_pairs(spare, word) {
        Ok(Some(bytes)) => Ok(bytes),
        Ok(None) => Err(Fault::BadCommand),
        Err(_) => Err(refused(word)),
    }
}

/// The only word of a text.
#[inline(always)]
fn only_word(text: &[u8]) -> Result<&[u8], Fault>
    ensures { MatchResult result (λ word. script.words text.now ≡ word.now ∷ [])
        (λ fault. (fault ≡ faults.BadCommand) × (last script.bytes (script.words text.now) ≡ None)) }
{
    let Some((word, tail)) = next_word(text) else {
        return Err(Fault::BadCommand);
    };
    if !has_no_word(tail) {
        return Err(Fault::BadCommand);
    }
    Ok(word)
}

/// The bytes that the only word spells, wherever it stands.
#[cold]
#[inline(never)]
fn any_bytes(spare: &mut Spare, text: &[u8]) -> Result<Bytes, Fault>
    ensures { ReadsAs is_nonempty (last script.bytes (script.words text.now)) result }
{
    bytes_of(spare, only_word(text)?)
}

/// What is answered where there is no memory for the bytes that the only word may spell.
#[cold]
#[inline(never)]
fn bytes_refused(spare: &Spare, text: &[u8]) -> Result<Bytes, Fault>
    ensures { ReadsAs is_nonempty (last script.bytes (script.words text.now)) result }
{
    let word = only_word(text)?;
    if word == b"-".as_slice() {
        return Ok(spare.none());
    }
    Err(refused(word))
}

/// What the last word of a command may spell: for it there may be no memory.
pub(crate) trait LastOperand: Drop {
    ghost spelled_last: { List ℕ → Option Self };

    ghost is_kept: { Self → Bool };

    /// What the next word spells, behind which there is no other.
    fn read_last(spare: &mut Spare, text: &[u8]) -> Result<Self, Fault>
        ensures { ReadsAs is_kept (last spelled_last (script.words text.now)) result };
}

impl<T: Operand> LastOperand for T {
    ghost spelled_last = { T.spelled };

    ghost is_kept = { λ _. false };

    fn read_last(_spare: &mut Spare, text: &[u8]) -> Result<T, Fault> {
        let (operand, tail) = T::read(text)?;
        if !has_no_word(tail) {
            return Err(Fault::BadCommand);
        }
        Ok(operand)
    }
}

/// Bytes in hexadecimal digits, or a dash for none.
impl LastOperand for Bytes {
    ghost spelled_last = { script.bytes };

    ghost is_kept = { is_nonempty };

    // What stands behind the space is decoded before it is known to be one word, since digits are no blanks.
    #[inline(never)]
    fn read_last(spare: &mut Spare, text: &[u8]) -> Result<Bytes, Fault> {
        let [b' ', digits @ ..] = text else {
            return any_bytes(spare, text);
        };
        if digits.is_empty() || digits.len() % 2 != 0 {
            return any_bytes(spare, text);
        }
        match bytes_of_pairs(spare, digits) {
            Ok(Some(bytes)) => Ok(bytes),
            Ok(None) => any_bytes(spare, text),
            Err(_) => bytes_refused(spare, text),
        }
    }
}
