//! Edits of a name array, each as a patch of all bytes of a chunk, and where it changes them.
ghost use Rattle.std.specs.Prelude.{◌≡◌, None, true, is_some, MatchResult};
ghost use Rattle.geos_model.specs.ElementArray.{element_at};
ghost use Rattle.element_arrays.specs.Slotted.{ReplacesOne, slotted_bytes};
ghost use Rattle.name_arrays.specs.Reading.{named_array};
ghost use Rattle.name_arrays.specs.Referencing.{name_bytes_with_reference, name_reference_conditions};
ghost use Rattle.geos_model.specs.Refusal.{first_refusal};
ghost use Rattle.geos_model.specs.NameArray.{name_bytes};
ghost use Rattle.geos_model.specs.NameEdits.{no_names, name_added, name_token_added, name_changed, name_part_set, name_reference_removed, on_name_token, create_names_conditions, add_name_conditions, change_name_conditions, set_part_conditions};
ghost use Rattle.chunk_edits.specs.Splicing.{RefusesToBuild};
ghost use Rattle.chunk_arrays.specs.Replacing.{RefusesToReplace};

use crate::names::{GREATEST_PART, Names, is_name, read};
use chunk_arrays::empty_bytes;
use chunk_edits::ArrayPatch;
use element_arrays::GREATEST_COUNT;
use geos_model::{Fault, Token};
use lmem_heap::KnownBytes;
use std::alloc::Global;

/// The bytes of a name array without names: how many bytes the part before each name has. Range past 64.
pub fn create_bytes(alloc: Global, part: u32) -> Result<Vec<u8>, Fault>
    ensures { MatchResult result
        (λ bytes. (first_refusal (create_names_conditions part) ≡ None) × (bytes.items ≡ name_bytes (no_names part)))
        (RefusesToBuild (create_names_conditions part)) }
{
    if part as usize > GREATEST_PART {
        return Err(Fault::Range);
    }
    // no token is free, and the part's size is a word
    let extra = [0xFF, 0xFF, part as u8, 0];
    Ok(empty_bytes(alloc, 0, &extra)?)
}

/// The patch that gives a name that is there, the lowest such, one more reference, and this part if `replace` says so;
/// or else brings a new one; and its token. NotArray; CountFull where the name has as many references as any can have;
/// Range where the name has no byte or more than 256, or the part isn't as long as the array's are; Full where the
/// array would be longer than any chunk.
pub fn add(
    alloc: Global,
    bytes: &KnownBytes<'_>,
    name: &[u8],
    part: &[u8],
    replace: bool,
) -> Result<(ArrayPatch, Token), Fault>
    ensures { MatchResult result
        (λ made. ReplacesOne (add_name_conditions bytes.now name.now part.now) bytes.now
        (name_added bytes.now name.now part.now replace) (name_token_added bytes.now name.now part.now replace)
        made.0 ×
        (made.1.0 ≡ name_token_added bytes.now name.now part.now replace))
        (RefusesToReplace (add_name_conditions bytes.now name.now part.now)
        (name_added bytes.now name.now part.now replace)) }
{
    let names = read(bytes)?;
    match names.find(name) {
        Some(token) => {
            let patch = with_reference(alloc, &names, token, part, replace)?;
            Ok((patch, token))
        }
        None => {
            if !is_name(name) || part.len() != names.part {
                return Err(Fault::Range);
            }
            names.slots.with_new(alloc, part, name)
        }
    }
}

/// The patch that gives a token another name; its part and references stay. NotArray, NoElement; NameInUse where
/// another token has the name, and this one hasn't; Range where the name has no byte or more than 256; Full where the
/// array would be longer than any chunk.
pub fn change_name(
    alloc: Global,
    bytes: &KnownBytes<'_>,
    token: Token,
    name: &[u8],
) -> Result<ArrayPatch, Fault>
    ensures { MatchResult result
        (ReplacesOne (change_name_conditions bytes.now token.0 name.now) bytes.now
        (name_changed bytes.now token.0 name.now) token.0)
        (RefusesToReplace (change_name_conditions bytes.now token.0 name.now)
        (name_changed bytes.now token.0 name.now)) }
{
    let names = read(bytes)?;
    let old = names.name(token)?;
    if old.text != name && names.find(name).is_some() {
        return Err(Fault::NameInUse);
    }
    if !is_name(name) {
        return Err(Fault::Range);
    }
    names
        .slots
        .with_element(alloc, token, old.count, old.part, name)
}

/// The patch that gives the name of a token another part; the name and its references stay. NotArray, NoElement; Range
/// where the part isn't as long as the array's are; Full where the array is longer than any chunk.
pub fn set_part(
    alloc: Global,
    bytes: &KnownBytes<'_>,
    token: Token,
    part: &[u8],
) -> Result<ArrayPatch, Fault>
    ensures { MatchResult result
        (ReplacesOne (set_part_conditions bytes.now token.0 part.now) bytes.now
        (name_part_set bytes.now token.0 part.now) token.0)
        (RefusesToReplace (set_part_conditions bytes.now token.0 part.now)
        (name_part_set bytes.now token.0 part.now)) }
{
    let names = read(bytes)?;
    let old = names.name(token)?;
    if part.len() != names.part {
        return Err(Fault::Range);
    }
    names
        .slots
        .with_element(alloc, token, old.count, part, old.text)
}

/// The patch that takes a reference of a name, which is freed with the last one. NotArray, NoElement; Full where the
/// array is longer than any chunk.
pub fn remove_ref(alloc: Global, bytes: &KnownBytes<'_>, token: Token) -> Result<ArrayPatch, Fault>
    ensures { MatchResult result
        (ReplacesOne (on_name_token bytes.now token.0) bytes.now (name_reference_removed bytes.now token.0) token.0)
        (RefusesToReplace (on_name_token bytes.now token.0) (name_reference_removed bytes.now token.0)) }
{
    let names = read(bytes)?;
    let old = names.name(token)?;
    if old.count == 1 {
        names.slots.without_element(alloc, token)
    } else {
        names
            .slots
            .with_element(alloc, token, old.count - 1, old.part, old.text)
    }
}

/// The patch that gives a used name one more reference, and this part if `replace` says so. CountFull where the name
/// has as many references as any can have; Range where the part isn't as long as the array's are; Full where the array
/// would be longer than any chunk.
fn with_reference(
    alloc: Global,
    names: &Names<'_>,
    token: Token,
    part: &[u8],
    replace: bool,
) -> Result<ArrayPatch, Fault>
    requires { is_some (element_at names.now.slots.slots token.0) ≡ true }
    ensures { MatchResult result
        (ReplacesOne (name_reference_conditions (named_array names.now.slots names.now.part) part.now token.0)
        (slotted_bytes names.now.slots.more names.now.slots.slots)
        (name_bytes_with_reference (named_array names.now.slots names.now.part) part.now replace token.0) token.0)
        (RefusesToReplace (name_reference_conditions (named_array names.now.slots names.now.part) part.now token.0)
        (name_bytes_with_reference (named_array names.now.slots names.now.part) part.now replace token.0)) }
{
    let old = names.name(token)?;
    if old.count == GREATEST_COUNT {
        return Err(Fault::CountFull);
    }
    if part.len() != names.part {
        return Err(Fault::Range);
    }
    let head = if replace { part } else { old.part };
    names
        .slots
        .with_element(alloc, token, old.count + 1, head, old.text)
}
