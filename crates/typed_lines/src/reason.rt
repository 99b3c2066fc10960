//! Why a line is no command: which word, and what it should be.

use crate::operand::Operand;
use crate::topics::{first_line, topic};
use crate::words::next_word;
use bstr::ByteSlice;
use std::alloc::{AllocError, Global};

/// A line of more bytes is no command.
const LONGEST_LINE: usize = 140_000;

/// How much of a word is shown.
const SHOWN: usize = 40;

/// Puts behind `out` why a line is no command, as a line; nothing where it is one.
pub(crate) fn push_reason(alloc: Global, out: &mut Vec<u8>, line: &[u8]) -> Result<(), AllocError> {
    if line.len() > LONGEST_LINE {
        return out.extend_from_slice(b"a line of more than 140000 bytes is no command\n");
    }
    let Some((name, words)) = next_word(line) else {
        return Ok(());
    };
    match topic(name) {
        Some(topic) => push_reason_of(alloc, out, first_line(topic), words),
        None => push_unknown(out, name),
    }
}

/// Why the words behind a name aren't the operands that its row names.
fn push_reason_of(
    alloc: Global,
    out: &mut Vec<u8>,
    row: &[u8],
    words: &[u8],
) -> Result<(), AllocError> {
    let mut words = words;
    for name in row.fields().skip(1) {
        let operand = Operand::of(row, name);
        let Some((word, behind)) = next_word(words) else {
            return push_missing(out, row, name, operand);
        };
        if !operand.is_spelled_by(alloc, word)? {
            return push_wrong(out, row, name, operand, word);
        }
        words = behind;
    }
    match next_word(words) {
        Some((word, _)) => push_behind(out, row, word),
        None => Ok(()),
    }
}

fn push_missing(
    out: &mut Vec<u8>,
    row: &[u8],
    name: &[u8],
    operand: Operand,
) -> Result<(), AllocError> {
    out.extend_from_slice(row)?;
    out.extend_from_slice(b": ")?;
    out.extend_from_slice(name)?;
    out.extend_from_slice(b" is missing, ")?;
    out.extend_from_slice(operand.text().as_bytes())?;
    Ok(out.push(b'\n')?)
}

fn push_wrong(
    out: &mut Vec<u8>,
    row: &[u8],
    name: &[u8],
    operand: Operand,
    word: &[u8],
) -> Result<(), AllocError> {
    out.extend_from_slice(row)?;
    out.extend_from_slice(b": ")?;
    out.extend_from_slice(shown(word))?;
    out.extend_from_slice(b" is no ")?;
    out.extend_from_slice(name)?;
    out.extend_from_slice(b", ")?;
    out.extend_from_slice(operand.text().as_bytes())?;
    Ok(out.push(b'\n')?)
}

fn push_behind(out: &mut Vec<u8>, row: &[u8], word: &[u8]) -> Result<(), AllocError> {
    out.extend_from_slice(row)?;
    out.extend_from_slice(b": ")?;
    out.extend_from_slice(shown(word))?;
    out.extend_from_slice(b" is one word too many\n")
}

/// That no command has a name.
pub(crate) fn push_unknown(out: &mut Vec<u8>, name: &[u8]) -> Result<(), AllocError> {
    out.extend_from_slice(b"no command is called ")?;
    out.extend_from_slice(shown(name))?;
    out.extend_from_slice(b", help lists them\n")
}

/// The front of a word.
fn shown(word: &[u8]) -> &[u8] {
    &word[..word.len().min(SHOWN)]
}
