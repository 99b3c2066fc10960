//! A line of a script as a command: its words, the first of which is a name.
ghost use Rattle.std.specs.Prelude.{◌≡◌, ◌⊎◌, ◌↔◌, None, Some, IfOk, IfErr, OnOk, IsSomeAnd, IsTrue};
ghost use Rattle.geos_model.specs.Script.{command};
ghost use Rattle.geos_model.specs.Script as script;
ghost use Rattle.geos_script.specs.Reading.{ReadsAs, command_has_bytes, putting};

use crate::commands::command_of;
use crate::line::next_word;
use crate::spare::Spare;
use geos_model::{Command, Fault};
use std::alloc::Global;

/// A line of more bytes is no command.
const LONGEST_LINE: usize = 140_000;

/// The command that a line is, without its line feed. A line that is none, or longer than 140,000 bytes, is a
/// BadCommand. Memory runs out only for the bytes that a command is given.
pub fn parse(alloc: Global, line: &[u8]) -> Result<Command, Fault>
    ensures ok { IfOk result (λ c. command line.now ≡ Some c) }
    ensures bad { (result ≡ Err Fault.BadCommand) ↔ (command line.now ≡ None) }
    ensures memory { IfErr result (λ fault. (fault ≡ Fault.BadCommand)
        ⊎ ((fault ≡ Fault.Memory) × IsSomeAnd (command line.now) (λ c. IsTrue (command_has_bytes c)))) }
{
    let mut command = Command::Blank;
    read_command(&mut Spare::new(alloc), &mut command, line)?;
    Ok(command)
}

/// Puts the command that a line is in its place, as `parse` gives it.
pub fn read_command(spare: &mut Spare, place: &mut Command, line: &[u8]) -> Result<(), Fault>
    requires { place.old ≡ Command.Blank }
    ensures ok { OnOk result (command line.now ≡ Some place.new) }
    ensures bad { (result ≡ Err Fault.BadCommand) ↔ (command line.now ≡ None) }
    ensures memory { IfErr result (λ fault. (fault ≡ Fault.BadCommand)
        ⊎ ((fault ≡ Fault.Memory) × IsSomeAnd (command line.now) (λ c. IsTrue (command_has_bytes c)))) }
{
    if line.len() > LONGEST_LINE {
        return Err(Fault::BadCommand);
    }
    command_of_line(spare, place, line)
}

/// Puts the command that a line of any length is in its place.
// Inlined, since it has one caller.
#[inline(always)]
fn command_of_line(spare: &mut Spare, place: &mut Command, line: &[u8]) -> Result<(), Fault>
    requires { place.old ≡ Command.Blank }
    ensures { ReadsAs command_has_bytes (script.command_of_words (script.words line.now)) (putting result place.new) }
{
    let Some((name, operands)) = next_word(line) else {
        return Ok(());
    };
    if name.starts_with(b"#") {
        return Ok(());
    }
    command_of(spare, place, name, operands)
}
