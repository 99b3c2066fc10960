//! Numbers in lines of text, each put behind what is there. Where memory runs out, a part of one may stand there.
ghost use Rattle.std.specs.Prelude.{◌≡◌, ◌++◌, OnOk, replicate};
ghost use Rattle.std.specs.Fmt.{decimal};
ghost use Rattle.file_report.specs.Texts.{handle_text};
ghost use Rattle.stat_texts.specs.Columns.{left, right};

use std::alloc::AllocError;
use std::io::Write;

/// A number in decimal.
pub fn push_decimal(out: &mut Vec<u8>, number: u64) -> Result<(), AllocError>
    ensures { OnOk result (out.new.items ≡ out.old.items ++ decimal number) }
{
    out.extend_from_slice(itoa::Buffer::new().format(number).as_bytes())
}

/// A handle in four hexadecimal digits.
pub fn push_handle(out: &mut Vec<u8>, handle: u16) -> Result<(), AllocError>
    ensures { OnOk result (out.new.items ≡ out.old.items ++ handle_text handle) }
{
    write!(out, "{handle:04x}").map_err(|_| AllocError)
}

// So many blanks.
fn push_blanks(out: &mut Vec<u8>, count: usize) -> Result<(), AllocError>
    ensures { OnOk result (out.new.items ≡ out.old.items ++ replicate count 32) }
{
    match out.len().checked_add(count) {
        Some(end) => out.resize(end, b' '),
        None => Err(AllocError),
    }
}

/// A number in decimal, with blanks before it where it has fewer digits.
pub fn push_right(out: &mut Vec<u8>, width: usize, number: u64) -> Result<(), AllocError>
    ensures { OnOk result (out.new.items ≡ out.old.items ++ right width number) }
{
    let mut buffer = itoa::Buffer::new();
    let digits = buffer.format(number).as_bytes();
    push_blanks(out, width.saturating_sub(digits.len()))?;
    out.extend_from_slice(digits)
}

/// A number in decimal, with blanks behind it where it has fewer digits.
pub fn push_left(out: &mut Vec<u8>, width: usize, number: u64) -> Result<(), AllocError>
    ensures { OnOk result (out.new.items ≡ out.old.items ++ left width number) }
{
    let mut buffer = itoa::Buffer::new();
    let digits = buffer.format(number).as_bytes();
    out.extend_from_slice(digits)?;
    push_blanks(out, width.saturating_sub(digits.len()))
}
