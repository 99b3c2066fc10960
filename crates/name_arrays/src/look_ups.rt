//! Look-ups in a name array.
ghost use Rattle.std.specs.Prelude.{◌≡◌, MatchResult, unwrap_or};
ghost use Rattle.geos_model.specs.ElementEdits.{count_at};
ghost use Rattle.geos_model.specs.NameEdits.{names_in, token_of_text, text_at, part_at, on_name_token, find_conditions};
ghost use Rattle.element_arrays.specs.Answering.{IsAnswered, IsRefused};

use crate::names::read;
use geos_model::{Fault, Token};
use lmem_heap::KnownBytes;

/// The token of a name, the lowest that has it. NotArray, NoName.
pub fn find(bytes: &KnownBytes<'_>, name: &[u8]) -> Result<Token, Fault>
    ensures { MatchResult result
        (λ token. IsAnswered (find_conditions bytes.now name.now)
        (unwrap_or (token_of_text (names_in bytes.now) name.now) 0) token.0)
        (IsRefused (find_conditions bytes.now name.now)) }
{
    let names = read(bytes)?;
    names.find(name).ok_or(Fault::NoName)
}

/// How many references a name has. NotArray, NoElement.
pub fn count_of(bytes: &KnownBytes<'_>, token: Token) -> Result<u32, Fault>
    ensures { MatchResult result
        (λ n. IsAnswered (on_name_token bytes.now token.0) (count_at (names_in bytes.now).names token.0) n)
        (IsRefused (on_name_token bytes.now token.0)) }
{
    let names = read(bytes)?;
    let name = names.name(token)?;
    Ok(name.count)
}

/// The name of a token. NotArray, NoElement.
pub fn name_of<'a>(bytes: &KnownBytes<'a>, token: Token) -> Result<&'a [u8], Fault>
    ensures { MatchResult result
        (λ name. IsAnswered (on_name_token bytes.now token.0) (text_at (names_in bytes.now) token.0) name.now)
        (IsRefused (on_name_token bytes.now token.0)) }
{
    let names = read(bytes)?;
    let name = names.name(token)?;
    Ok(name.text)
}

/// What stands before the name of a token. NotArray, NoElement.
pub fn data_of<'a>(bytes: &KnownBytes<'a>, token: Token) -> Result<&'a [u8], Fault>
    ensures { MatchResult result
        (λ part. IsAnswered (on_name_token bytes.now token.0) (part_at (names_in bytes.now) token.0) part.now)
        (IsRefused (on_name_token bytes.now token.0)) }
{
    let names = read(bytes)?;
    let name = names.name(token)?;
    Ok(name.part)
}
