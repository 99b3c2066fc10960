//! The operands of commands: what each of them is, and which words spell it.
ghost use Rattle.std.specs.Prelude.{◌≡◌, ◌++◌, IfOk, is_some};
ghost use Rattle.geos_model.specs.Script.{command};
ghost use Rattle.typed_lines.specs.Typing.{operand_probe};

use geos_model::Fault;
use geos_script::parse;
use std::alloc::{AllocError, Global};

/// What an operand is.
#[derive(Clone, Copy)]
pub(crate) enum Operand {
    Block,
    Chunk,
    Token,
    UserId,
    HeapType,
    Number,
    ElementNumber,
    Bytes,
    KeepOrSet,
}

impl Operand {
    /// The operand that a row of the list of commands calls so. Of large arrays, whose commands alone begin with an h,
    /// elements have longer numbers.
    pub(crate) fn of(row: &[u8], name: &[u8]) -> Operand {
        match name {
            b"b" | b"b2" | b"start" => Operand::Block,
            b"c" => Operand::Chunk,
            b"t" => Operand::Token,
            b"uid" => Operand::UserId,
            b"type" => Operand::HeapType,
            b"hex" | b"name" | b"part" => Operand::Bytes,
            b"keep|set" => Operand::KeepOrSet,
            b"i" | b"n" if row.starts_with(b"h") => Operand::ElementNumber,
            _ => Operand::Number,
        }
    }

    /// What it is, and how it is spelled.
    pub(crate) fn text(self) -> &'static str {
        match self {
            Operand::Block => "a block, four hexadecimal digits",
            Operand::Chunk => "a chunk, four hexadecimal digits",
            Operand::Token => "a token, four hexadecimal digits",
            Operand::UserId => "a user ID, a number up to 65535",
            Operand::HeapType => "the type of a heap, a number up to 65535",
            Operand::Number => "a number, 1 to 7 decimal digits",
            Operand::ElementNumber => "a number, 1 to 9 decimal digits",
            Operand::Bytes => {
                "bytes, two hexadecimal digits for each, a text in quotes, or - for none"
            }
            Operand::KeepOrSet => "keep or set",
        }
    }

    // What stands before it in a command of which it is the last operand.
    fn probe(self) -> &'static str
        ensures { result.now ≡ operand_probe self }
    {
        match self {
            Operand::Block | Operand::Chunk | Operand::Token => "info ",
            Operand::UserId | Operand::HeapType => "newheap ",
            Operand::Number => "forget ",
            Operand::ElementNumber => "hget 0001 ",
            Operand::Bytes => "name ",
            Operand::KeepOrSet => "nadd 0001 0010 00 00 ",
        }
    }

    /// Whether a word spells it: in a command of which it is the last operand the word may stand there.
    pub(crate) fn is_spelled_by(self, alloc: Global, word: &[u8]) -> Result<bool, AllocError>
        ensures { IfOk result (λ is. is ≡ is_some (command (operand_probe self ++ word.now))) }
    {
        let mut line = self.probe().as_bytes().to_vec(alloc)?;
        line.extend_from_slice(word)?;
        Ok(is_command(alloc, &line))
    }
}

/// Whether a line is a command, a blank one or a note.
pub(crate) fn is_command(alloc: Global, line: &[u8]) -> bool
    ensures { result ≡ is_some (command line.now) }
{
    // A command whose bytes find no memory is one too.
    !matches!(parse(alloc, line), Err(Fault::BadCommand))
}
