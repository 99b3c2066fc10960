//! Numbers in lines of text, each put behind what is there. Where memory runs out, a part of one may stand there.
ghost use Rattle.std.specs.Prelude.{◌≡◌, ◌++◌, ◌-◌, ◌∷◌, [], IfErr, OnOk, length, replicate};
ghost use Rattle.std.specs.Io.KnownBytes.{Appends};
ghost use Rattle.std.specs.Fmt.{decimal};
ghost use Rattle.geos_model.specs.Script.{four_digits};
ghost use Rattle.file_map.specs.Lines.{numbered, padded};

use crate::fault::MapFault;
use std::alloc::AllocError;
use std::io::Write;

/// A number in decimal.
pub fn push_decimal(out: &mut Vec<u8>, number: u64) -> Result<(), AllocError>
    ensures { OnOk result (out.new.items ≡ out.old.items ++ decimal number) }
{
    out.extend_from_slice(itoa::Buffer::new().format(number).as_bytes())
}

/// A word, and a number behind it.
pub fn push_numbered(out: &mut Vec<u8>, word: &[u8], number: u64) -> Result<(), AllocError>
    ensures { OnOk result (out.new.items ≡ out.old.items ++ numbered word.now number) }
{
    out.extend_from_slice(word)?;
    push_decimal(out, number)
}

/// So many times the same byte.
pub fn push_repeated(out: &mut Vec<u8>, byte: u8, times: usize) -> Result<(), AllocError>
    ensures { OnOk result (out.new.items ≡ out.old.items ++ replicate times byte) }
{
    match out.len().checked_add(times) {
        Some(end) => out.resize(end, byte),
        None => Err(AllocError),
    }
}

/// A number in decimal, with blanks before it where it has fewer digits.
pub fn push_padded(out: &mut Vec<u8>, width: usize, number: u64) -> Result<(), AllocError>
    ensures { OnOk result (out.new.items ≡ out.old.items ++ padded width number) }
{
    let mut buffer = itoa::Buffer::new();
    let digits = buffer.format(number).as_bytes();
    push_repeated(out, b' ', width.saturating_sub(digits.len()))?;
    out.extend_from_slice(digits)
}

/// A handle in four digits.
pub fn push_handle(out: &mut Vec<u8>, handle: u16) -> Result<(), AllocError>
    ensures { OnOk result (out.new.items ≡ out.old.items ++ four_digits handle) }
{
    let mut digits = [0; 4];
    hex::encode_to_slice(handle.to_be_bytes(), &mut digits).unwrap();
    out.extend_from_slice(&digits)
}

/// Writes bytes. Write.
pub fn send<W: Write>(bytes: &[u8], writer: &mut W) -> Result<(), MapFault>
    ensures text { OnOk result (Appends (W.contents writer.old) (W.contents writer.new) bytes.now) }
    ensures refusals { IfErr result (λ fault. fault ≡ MapFault.Write) }
{
    match writer.write_all(bytes) {
        Ok(()) => Ok(()),
        Err(_) => Err(MapFault::Write),
    }
}
