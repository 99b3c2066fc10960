//! What so many words make, where each spells an operand. Each is read off the line where it stands.
ghost use Rattle.std.specs.Prelude.{◌≡◌, false};
ghost use Rattle.geos_model.specs.declared.command.Command.{Command};
ghost use Rattle.geos_model.specs.declared.command.Command.TheVariants as commands;
ghost use Rattle.geos_model.specs.Script as script;
ghost use Rattle.geos_script.specs.Making.{ParsesOperands, last, nothing, operand_then};
ghost use Rattle.geos_script.specs.Reading.{putting};

use crate::line::has_no_word;
use crate::operands::{LastOperand, Operand};
use crate::spare::Spare;
use geos_model::{Command, Edit, Fault};
use std::mem::{forget, replace};

/// What is made of operands: a command, or an edit, which is one.
pub(crate) trait Made {
    ghost as_command: { Self → Command };

    fn into_command(self) -> Command
        ensures { result ≡ as_command self };
}

impl Made for Command {
    ghost as_command = { λ c. c };

    fn into_command(self) -> Command {
        self
    }
}

impl Made for Edit {
    ghost as_command = { commands.Edit };

    fn into_command(self) -> Command {
        Command::Edit(self)
    }
}

/// Puts a command in its place, where nothing stood that is to be dropped: it is a blank line before
/// (`read_command`).
#[inline(always)]
pub(crate) fn put(place: &mut Command, made: Command)
    ensures { place.new ≡ made }
{
    forget(replace(place, made));
}

/// Puts what is made of no word in its place, which the caller lends: each return of a value as long as a command costs
/// a copy of it. Any word is one too many, and so behind the last operand of the others below.
// Inlined, since it costs less than a call.
#[inline(always)]
pub(crate) fn none(place: &mut Command, text: &[u8], made: Command) -> Result<(), Fault>
    ensures { ParsesOperands (λ _. false) (λ _ c. c ≡ made) (nothing (script.words text.now))
        (putting result place.new) }
{
    if !has_no_word(text) {
        return Err(Fault::BadCommand);
    }
    put(place, made);
    Ok(())
}

// Never inlined, and so the others below: else a table sets up the stack of each of its rows for each name.
#[inline(never)]
pub(crate) fn one<A: LastOperand, R: Made, F: FnOnce(A) -> R + Drop>(
    spare: &mut Spare,
    place: &mut Command,
    text: &[u8],
    make: F,
) -> Result<(), Fault>
    requires { F.IsAlwaysCallable make }
    ensures { ParsesOperands (λ t. A.is_kept t) (λ t c. (r : R) × F.post make t r × (c ≡ R.as_command r))
        (last A.spelled_last (script.words text.now)) (putting result place.new) }
{
    let a = A::read_last(spare, text)?;
    put(place, make(a).into_command());
    Ok(())
}

#[inline(never)]
pub(crate) fn two<A: Operand, B: LastOperand, R: Made, F: FnOnce(A, B) -> R + Drop>(
    spare: &mut Spare,
    place: &mut Command,
    text: &[u8],
    make: F,
) -> Result<(), Fault>
    requires { F.IsAlwaysCallable make }
    ensures { ParsesOperands (λ t. B.is_kept t.1) (λ t c. (r : R) × F.post make t.0 t.1 r × (c ≡ R.as_command r))
        (operand_then A.spelled (last B.spelled_last) (script.words text.now))
        (putting result place.new) }
{
    let (a, text) = A::read(text)?;
    let b = B::read_last(spare, text)?;
    put(place, make(a, b).into_command());
    Ok(())
}

#[inline(never)]
pub(crate) fn three<
    A: Operand,
    B: Operand,
    C: LastOperand,
    R: Made,
    F: FnOnce(A, B, C) -> R + Drop,
>(spare: &mut Spare, place: &mut Command, text: &[u8], make: F) -> Result<(), Fault>
    requires { F.IsAlwaysCallable make }
    ensures { ParsesOperands (λ t. C.is_kept t.1.1)
        (λ t c. (r : R) × F.post make t.0 t.1.0 t.1.1 r × (c ≡ R.as_command r))
        (operand_then A.spelled (operand_then B.spelled (last C.spelled_last))
        (script.words text.now)) (putting result place.new) }
{
    let (a, text) = A::read(text)?;
    let (b, text) = B::read(text)?;
    let c = C::read_last(spare, text)?;
    put(place, make(a, b, c).into_command());
    Ok(())
}

#[inline(never)]
pub(crate) fn four<
    A: Operand,
    B: Operand,
    C: Operand,
    D: LastOperand,
    R: Made,
    F: FnOnce(A, B, C, D) -> R + Drop,
>(spare: &mut Spare, place: &mut Command, text: &[u8], make: F) -> Result<(), Fault>
    requires { F.IsAlwaysCallable make }
    ensures { ParsesOperands (λ t. D.is_kept t.1.1.1)
        (λ t c. (r : R) × F.post make t.0 t.1.0 t.1.1.0 t.1.1.1 r × (c ≡ R.as_command r))
        (operand_then A.spelled (operand_then B.spelled (operand_then C.spelled (last D.spelled_last)))
        (script.words text.now)) (putting result place.new) }
{
    let (a, text) = A::read(text)?;
    let (b, text) = B::read(text)?;
    let (c, text) = C::read(text)?;
    let d = D::read_last(spare, text)?;
    put(place, make(a, b, c, d).into_command());
    Ok(())
}

#[inline(never)]
pub(crate) fn five<
    A: Operand,
    B: Operand,
    C: Operand,
    D: Operand,
    E: LastOperand,
    R: Made,
    F: FnOnce(A, B, C, D, E) -> R + Drop,
>(spare: &mut Spare, place: &mut Command, text: &[u8], make: F) -> Result<(), Fault>
    requires { F.IsAlwaysCallable make }
    ensures { ParsesOperands (λ t. E.is_kept t.1.1.1.1)
        (λ t c. (r : R) × F.post make t.0 t.1.0 t.1.1.0 t.1.1.1.0 t.1.1.1.1 r × (c ≡ R.as_command r))
        (operand_then A.spelled
        (operand_then B.spelled
        (operand_then C.spelled (operand_then D.spelled (last E.spelled_last))))
        (script.words text.now)) (putting result place.new) }
{
    let (a, text) = A::read(text)?;
    let (b, text) = B::read(text)?;
    let (c, text) = C::read(text)?;
    let (d, text) = D::read(text)?;
    let e = E::read_last(spare, text)?;
    put(place, make(a, b, c, d, e).into_command());
    Ok(())
}
