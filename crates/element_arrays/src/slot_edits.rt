//! Edits of slots, of an element array or a name array, each as a patch of all bytes of a chunk, and where it changes
//! them.
ghost use Rattle.std.specs.Prelude.{◌≡◌, ◌≤◌, ◌++◌, ◌∷◌, [], true, false, is_some, length, take, drop, IfOk, MatchOption, MatchResult};
ghost use Rattle.geos_model.specs.ArrayEdits.{is_missized};
ghost use Rattle.geos_model.specs.ElementArray.{element_at, greatest_count};
ghost use Rattle.geos_model.specs.ElementEdits.{with_element, without_element, with_new};
ghost use Rattle.element_arrays.specs.Slotted.{GivesSlots, RefusesSlots};

use crate::slot_view::{FREE, SlotView};
use byteorder::{ByteOrder, LittleEndian};
use chunk_arrays::{NewElement, rewrite};
use chunk_edits::ArrayPatch;
use geos_model::{Fault, Token};
use std::alloc::{AllocError, Global};

impl<'a> SlotView<'a> {
    /// The patch that gives a used element this count and these bytes, in two parts. Full where the array would be
    /// longer than any chunk.
    pub fn with_element(
        &self,
        alloc: Global,
        token: Token,
        count: u32,
        head: &[u8],
        tail: &[u8],
    ) -> Result<ArrayPatch, Fault>
        requires used { is_some (element_at self.now.slots token.0) ≡ true }
        requires counted { 1 ≤ count }
        requires bounded { count ≤ greatest_count }
        requires sized { is_missized self.now.slots.size (head.now ++ tail.now) ≡ false }
        ensures { MatchResult result
            (GivesSlots self.now (with_element self.now.slots token.0 count (head.now ++ tail.now)) token.0)
            (RefusesSlots self.now (with_element self.now.slots token.0 count (head.now ++ tail.now))) }
    {
        let array = self.array();
        let at = usize::from(token.0);
        let number = count.to_le_bytes();
        let element = NewElement {
            head: &number[..3],
            middle: head,
            tail,
            zeros: 0,
        };
        rewrite(alloc, array, &[], at, at + 1, Some(element))
    }

    /// The patch that frees a used element. Full where the array would still be longer than any chunk.
    pub fn without_element(&self, alloc: Global, token: Token) -> Result<ArrayPatch, Fault>
        requires { is_some (element_at self.now.slots token.0) ≡ true }
        ensures { MatchResult result
            (GivesSlots self.now (without_element self.now.slots token.0) token.0)
            (RefusesSlots self.now (without_element self.now.slots token.0)) }
    {
        let array = self.array();
        let at = usize::from(token.0);
        let number = token.0.to_le_bytes();
        let element = NewElement {
            head: first_word(array.extra()),
            middle: &[FREE],
            tail: &[],
            zeros: self.element_size(),
        };
        rewrite(alloc, array, &number, at, at + 1, Some(element))
    }

    /// The patch that brings a new element of one reference and these bytes, in two parts, and its token: the newest
    /// free one, else the next. Full where the array would be longer than any chunk.
    pub fn with_new(
        &self,
        alloc: Global,
        head: &[u8],
        tail: &[u8],
    ) -> Result<(ArrayPatch, Token), Fault>
        requires { is_missized self.now.slots.size (head.now ++ tail.now) ≡ false }
        ensures { MatchResult result
            (λ made. GivesSlots self.now (with_new self.now.slots (head.now ++ tail.now)).0
            (with_new self.now.slots (head.now ++ tail.now)).1 made.0 ×
            (made.1.0 ≡ (with_new self.now.slots (head.now ++ tail.now)).1))
            (RefusesSlots self.now (with_new self.now.slots (head.now ++ tail.now)).0) }
    {
        let array = self.array();
        let element = NewElement {
            head: &[1, 0, 0],
            middle: head,
            tail,
            zeros: 0,
        };
        match self.newest_free() {
            None => {
                let token = Token(self.len());
                let at = usize::from(token.0);
                let patch = rewrite(alloc, array, &[], at, at, Some(element))?;
                Ok((patch, token))
            }
            Some(token) => {
                let at = usize::from(token.0);
                let next = first_word(array.element(at));
                let patch = rewrite(alloc, array, next, at, at + 1, Some(element))?;
                Ok((patch, token))
            }
        }
    }

    /// The newest free token, if any is free.
    fn newest_free(&self) -> Option<Token>
        ensures { MatchOption result (self.now.slots.free ≡ [])
            (λ t. self.now.slots.free ≡ t.0 ∷ drop 1 self.now.slots.free) }
    {
        let first = LittleEndian::read_u16(self.array().extra());
        if first < self.len() {
            Some(Token(first))
        } else {
            None
        }
    }
}

/// The first two bytes.
fn first_word(bytes: &[u8]) -> &[u8]
    requires { 2 ≤ length bytes.now }
    ensures { result.now ≡ take 2 bytes.now }
{
    &bytes[..2]
}
