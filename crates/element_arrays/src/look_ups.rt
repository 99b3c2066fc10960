//! Look-ups in an element array.
ghost use Rattle.std.specs.Prelude.{◌≡◌, ◌≤◌, None, Some, is_some, MatchResult, count_by, length, take, get_or};
ghost use Rattle.geos_model.specs.ElementEdits.{elements_in, count_at, bytes_at, used_in, used_from, used_below, on_elements, on_token, on_used};
ghost use Rattle.geos_model.specs.ElementArray.{element_at};
ghost use Rattle.element_arrays.specs.Answering.{IsAnswered, IsRefused};
ghost use Rattle.element_arrays.specs.Used.{used_element};

use crate::reading::{read, used_at};
use crate::{SlotView, Used};
use geos_model::{Fault, Token};
use lmem_heap::KnownBytes;

/// How many references an element has. NotArray, NoElement.
pub fn count_of(bytes: &KnownBytes<'_>, token: Token) -> Result<u32, Fault>
    ensures { MatchResult result
        (λ n. IsAnswered (on_token bytes.now token.0) (count_at (elements_in bytes.now) token.0) n)
        (IsRefused (on_token bytes.now token.0)) }
{
    Ok(element_of(bytes, token)?.count)
}

/// The bytes of an element. NotArray, NoElement.
pub fn data_of<'a>(bytes: &KnownBytes<'a>, token: Token) -> Result<&'a [u8], Fault>
    ensures { MatchResult result
        (λ element. IsAnswered (on_token bytes.now token.0) (bytes_at (elements_in bytes.now) token.0) element.now)
        (IsRefused (on_token bytes.now token.0)) }
{
    Ok(element_of(bytes, token)?.bytes)
}

/// The element of a token. NotArray, NoElement.
fn element_of<'a>(bytes: &KnownBytes<'a>, token: Token) -> Result<Used<'a>, Fault>
    ensures { MatchResult result
        (λ used. IsAnswered (on_token bytes.now token.0) (element_at (elements_in bytes.now) token.0)
        (Some (used_element used)))
        (IsRefused (on_token bytes.now token.0)) }
{
    let slots = read(bytes)?;
    used_at(&slots, token)
}

/// How many elements are used. NotArray.
pub fn used_count(bytes: &KnownBytes<'_>) -> Result<usize, Fault>
    ensures { MatchResult result
        (λ n. IsAnswered (on_elements bytes.now) (used_in (elements_in bytes.now)) n)
        (IsRefused (on_elements bytes.now)) }
{
    let slots = read(bytes)?;
    Ok(used_up_to(&slots, slots.len()))
}

/// The token of the used element that has this number, from 0 on. NotArray, NoElement.
pub fn token_of_used(bytes: &KnownBytes<'_>, k: u32) -> Result<Token, Fault>
    ensures { MatchResult result
        (λ token. IsAnswered (on_used bytes.now k) (get_or (used_from 0 (elements_in bytes.now).slots) k 0) token.0)
        (IsRefused (on_used bytes.now k)) }
{
    let slots = read(bytes)?;
    let mut left = k;
    for i in 0..slots.len() {
        let token = Token(i);
        if slots.element(token).is_some() {
            if left == 0 {
                return Ok(token);
            }
            left -= 1;
        }
    }
    Err(Fault::NoElement)
}

/// How many used tokens are lower than this one. NotArray, NoElement.
pub fn used_of_token(bytes: &KnownBytes<'_>, token: Token) -> Result<usize, Fault>
    ensures { MatchResult result
        (λ n. IsAnswered (on_token bytes.now token.0) (used_below (elements_in bytes.now) token.0) n)
        (IsRefused (on_token bytes.now token.0)) }
{
    let slots = read(bytes)?;
    used_at(&slots, token)?;
    Ok(used_up_to(&slots, token.0))
}

/// How many used tokens are lower than this number.
fn used_up_to(slots: &SlotView<'_>, end: u16) -> usize
    requires { end ≤ length slots.now.slots.slots }
    ensures { result ≡ count_by is_some (take end slots.now.slots.slots) }
{
    let mut n = 0;
    for i in 0..end {
        if slots.element(Token(i)).is_some() {
            n += 1;
        }
    }
    n
}
