//! What a line that is typed is: a command, a line that is refused, a question for help, or the end.
ghost use Rattle.std.specs.Prelude.{◌≡◌, IfOk, false};
ghost use Rattle.typed_lines.specs.Typing.{IsTypedLine, is_command as is_one};

use crate::operand::{Operand, is_command};
use crate::reason::{push_reason, push_unknown};
use crate::texts::push_spelled;
use crate::topics::{first_line, topic};
use crate::words::next_word;
use bstr::ByteSlice;
use geos_script::command_list;
use std::alloc::{AllocError, Global};

/// What a line that is typed is. No line has a line feed, and each text for a reader ends in one.
#[derive(Drop)]
pub enum Typed {
    /// It goes to the machine as this line, which is a command, a blank line or a note.
    Command(Vec<u8>),
    /// It goes to the machine as this line, which is refused there, and the text says why.
    Refused(Vec<u8>, Vec<u8>),
    /// It asks for help, which the text is.
    Help(Vec<u8>),
    /// It ends the script.
    Quit,
}

/// What help says before the list of commands.
const ABOUT: &str = concat!(
    "help COMMAND tells what a command does; quit, or Ctrl-D, ends the script.\n",
    "What isn't committed by update or save is given up then. Bytes may be typed\n",
    "as a text in quotes: write 0001 0010 0 \"abc\" is write 0001 0010 0 616263.\n\n",
);

/// Of which kinds of refusals the topics say nothing.
const BESIDES: &str = concat!(
    "    besides: Memory, File, Damaged; while a group is open GroupOpen;\n",
    "    while blocks are locked Locked, CacheFull\n",
);

/// What a typed line is, without its line feed. A command goes to the machine as it stands, also a note with quotes.
pub fn read_typed(alloc: Global, line: &[u8]) -> Result<Typed, AllocError>
    ensures { IfOk result (IsTypedLine line.now) }
{
    if is_command(alloc, line) {
        return Ok(Typed::Command(line.to_vec(alloc)?));
    }
    match asked_for(alloc, line)? {
        Some(Asked::Help(text)) => Ok(Typed::Help(text)),
        Some(Asked::Quit) => Ok(Typed::Quit),
        None => spelled(alloc, line),
    }
}

/// What a line that is no command becomes with bytes for its texts.
fn spelled(alloc: Global, line: &[u8]) -> Result<Typed, AllocError>
    requires { is_one line.now ≡ false }
    ensures { IfOk result (IsTypedLine line.now) }
{
    let mut bytes = Vec::new(alloc);
    if push_spelled(&mut bytes, line)? {
        let reason = b"a text has no quote at its end\n".to_vec(alloc)?;
        return Ok(Typed::Refused(line.to_vec(alloc)?, reason));
    }
    if is_command(alloc, &bytes) {
        return Ok(Typed::Command(bytes));
    }
    let mut reason = Vec::new(alloc);
    push_reason(alloc, &mut reason, &bytes)?;
    Ok(Typed::Refused(bytes, reason))
}

/// What a line asks for that isn't for the machine.
#[derive(Drop)]
enum Asked {
    Help(Vec<u8>),
    Quit,
}

fn asked_for(alloc: Global, line: &[u8]) -> Result<Option<Asked>, AllocError> {
    let Some((name, words)) = next_word(line) else {
        return Ok(None);
    };
    let operand = next_word(words);
    match (name, operand) {
        (b"quit", None) => Ok(Some(Asked::Quit)),
        (b"help", None) => Ok(Some(Asked::Help(general_help(alloc)?))),
        (b"help", Some((command, _))) => Ok(Some(Asked::Help(help_of(alloc, command)?))),
        _ => Ok(None),
    }
}

fn general_help(alloc: Global) -> Result<Vec<u8>, AllocError> {
    let mut text = ABOUT.as_bytes().to_vec(alloc)?;
    text.extend_from_slice(command_list().as_bytes())?;
    Ok(text)
}

/// What a command does, and what its operands are.
fn help_of(alloc: Global, name: &[u8]) -> Result<Vec<u8>, AllocError> {
    let mut text = Vec::new(alloc);
    let Some(topic) = topic(name) else {
        push_unknown(&mut text, name)?;
        return Ok(text);
    };
    text.extend_from_slice(topic)?;
    text.push(b'\n')?;
    // What is for a prompt alone isn't refused.
    if topic.contains_str(b"refusals: ") {
        text.extend_from_slice(BESIDES.as_bytes())?;
    }
    let row = first_line(topic);
    for operand in row.fields().skip(1) {
        text.extend_from_slice(b"    ")?;
        text.extend_from_slice(operand)?;
        text.extend_from_slice(b": ")?;
        text.extend_from_slice(Operand::of(row, operand).text().as_bytes())?;
        text.push(b'\n')?;
    }
    Ok(text)
}
