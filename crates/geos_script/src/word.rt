//! The words of a line: a name, and operands behind spaces. Where memory runs out, a part of them may stand behind what
//! was there.
#![tactic(auto, using(crate::proofs::Extending::extending))]

ghost use Rattle.std.specs.Prelude.{◌≡◌, ◌++◌, ◌∷◌, [], Bool, ℕ, List, OnOk, OnErr};
ghost use Rattle.std.specs.List.{flat_map};
ghost use Rattle.std.specs.Fmt.{decimal};
ghost use Rattle.geos_model.specs.Script.{four_digits, hex_text};
ghost use Rattle.geos_script.specs.Printing.{flag_text, word_text};
ghost use Rattle.geos_script.specs.Texts.{Extends};

use crate::text::{push_bytes, push_handle, push_number};
use geos_model::{Bytes, ChunkHandle, ElementCount, Token, VmHandle};
use std::alloc::AllocError;

/// An operand, by how it is spelled.
#[derive(Clone, Copy, Debug)]
pub enum Word<'a> {
    /// Four hexadecimal digits: of a block, a chunk or a token.
    Handle(u16),
    /// Decimal digits.
    Number(u64),
    /// Two hexadecimal digits for each byte, or a dash for none.
    Bytes(&'a [u8]),
    /// `set` or `keep`.
    Flag(bool),
}

/// What is an operand of a command.
pub(crate) trait Spelled {
    ghost spelled: { Self → List ℕ };

    /// The word that spells it.
    fn word(&self) -> Word<'_>
        ensures { word_text result ≡ spelled self.now };
}

impl Spelled for VmHandle {
    ghost spelled = { λ h. four_digits h.0 };

    fn word(&self) -> Word<'_> {
        Word::Handle(self.0)
    }
}

impl Spelled for ChunkHandle {
    ghost spelled = { λ h. four_digits h.0 };

    fn word(&self) -> Word<'_> {
        Word::Handle(self.0)
    }
}

impl Spelled for Token {
    ghost spelled = { λ t. four_digits t.0 };

    fn word(&self) -> Word<'_> {
        Word::Handle(self.0)
    }
}

impl Spelled for u16 {
    ghost spelled = { λ n. decimal n };

    fn word(&self) -> Word<'_> {
        Word::Number(u64::from(*self))
    }
}

impl Spelled for u32 {
    ghost spelled = { λ n. decimal n };

    fn word(&self) -> Word<'_> {
        Word::Number(u64::from(*self))
    }
}

impl Spelled for ElementCount {
    ghost spelled = { λ n. decimal n.0 };

    fn word(&self) -> Word<'_> {
        Word::Number(u64::from(self.0))
    }
}

impl Spelled for Bytes {
    ghost spelled = { λ bytes. hex_text bytes };

    fn word(&self) -> Word<'_> {
        Word::Bytes(self.as_slice())
    }
}

/// Whether a part is set or kept.
impl Spelled for bool {
    ghost spelled = { flag_text };

    fn word(&self) -> Word<'_> {
        Word::Flag(*self)
    }
}

/// Puts a name and its operands behind `out`, each operand behind a space, without a line feed.
pub fn push_words(out: &mut Vec<u8>, name: &str, operands: &[Word]) -> Result<(), AllocError>
    ensures ok { OnOk result
        (out.new.items ≡ out.old.items ++ (name.now ++ flat_map (λ w. 32 ∷ word_text w) operands.now)) }
    ensures err { OnErr result (Extends out.old.items out.new.items) }
{
    out.extend_from_slice(name.as_bytes())?;
    for word in operands {
        push_word(out, *word)?;
    }
    Ok(())
}

// A name and its operands, by a function for each number of these: so a row of a table of commands is one call with few
// steps, and its text is known by the call's clause alone. Inlined, since each is one call.

/// Puts a name and one operand behind `out`.
#[inline(always)]
pub(crate) fn push_one<A: Spelled>(out: &mut Vec<u8>, name: &str, a: &A) -> Result<(), AllocError>
    ensures ok { OnOk result (out.new.items ≡ out.old.items
        ++ (name.now ++ flat_map (λ w. 32 ∷ w) (A.spelled a.now ∷ []))) }
    ensures err { OnErr result (Extends out.old.items out.new.items) }
{
    push_words(out, name, &[a.word()])
}

/// Puts a name and two operands behind `out`.
#[inline(always)]
pub(crate) fn push_two<A: Spelled, B: Spelled>(
    out: &mut Vec<u8>,
    name: &str,
    a: &A,
    b: &B,
) -> Result<(), AllocError>
    ensures ok { OnOk result (out.new.items ≡ out.old.items
        ++ (name.now ++ flat_map (λ w. 32 ∷ w) (A.spelled a.now ∷ B.spelled b.now ∷ []))) }
    ensures err { OnErr result (Extends out.old.items out.new.items) }
{
    push_words(out, name, &[a.word(), b.word()])
}

/// Puts a name and three operands behind `out`.
#[inline(always)]
pub(crate) fn push_three<A: Spelled, B: Spelled, C: Spelled>(
    out: &mut Vec<u8>,
    name: &str,
    a: &A,
    b: &B,
    c: &C,
) -> Result<(), AllocError>
    ensures ok { OnOk result (out.new.items ≡ out.old.items
        ++ (name.now ++ flat_map (λ w. 32 ∷ w) (A.spelled a.now ∷ B.spelled b.now ∷ C.spelled c.now ∷ []))) }
    ensures err { OnErr result (Extends out.old.items out.new.items) }
{
    push_words(out, name, &[a.word(), b.word(), c.word()])
}

/// Puts a name and four operands behind `out`.
#[inline(always)]
pub(crate) fn push_four<A: Spelled, B: Spelled, C: Spelled, D: Spelled>(
    out: &mut Vec<u8>,
    name: &str,
    a: &A,
    b: &B,
    c: &C,
    d: &D,
) -> Result<(), AllocError>
    ensures ok { OnOk result (out.new.items ≡ out.old.items ++ (name.now ++ flat_map (λ w. 32 ∷ w)
        (A.spelled a.now ∷ B.spelled b.now ∷ C.spelled c.now ∷ D.spelled d.now ∷ []))) }
    ensures err { OnErr result (Extends out.old.items out.new.items) }
{
    push_words(out, name, &[a.word(), b.word(), c.word(), d.word()])
}

/// Puts a name and five operands behind `out`.
#[inline(always)]
pub(crate) fn push_five<A: Spelled, B: Spelled, C: Spelled, D: Spelled, E: Spelled>(
    out: &mut Vec<u8>,
    name: &str,
    a: &A,
    b: &B,
    c: &C,
    d: &D,
    e: &E,
) -> Result<(), AllocError>
    ensures ok { OnOk result (out.new.items ≡ out.old.items ++ (name.now ++ flat_map (λ w. 32 ∷ w)
        (A.spelled a.now ∷ B.spelled b.now ∷ C.spelled c.now ∷ D.spelled d.now ∷ E.spelled e.now ∷ []))) }
    ensures err { OnErr result (Extends out.old.items out.new.items) }
{
    push_words(
        out,
        name,
        &[a.word(), b.word(), c.word(), d.word(), e.word()],
    )
}

// An operand, behind a space.
fn push_word(out: &mut Vec<u8>, word: Word) -> Result<(), AllocError>
    ensures ok { OnOk result (out.new.items ≡ out.old.items ++ 32 ∷ word_text word.entry) }
    ensures err { OnErr result (Extends out.old.items out.new.items) }
{
    match word {
        Word::Handle(handle) => push_handle(out, b" ", handle),
        Word::Number(number) => push_number(out, b" ", number),
        Word::Bytes(bytes) => push_bytes(out, b" ", bytes),
        Word::Flag(true) => out.extend_from_slice(b" set"),
        Word::Flag(false) => out.extend_from_slice(b" keep"),
    }
}
