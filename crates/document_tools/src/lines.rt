//! Texts, each put behind what is there. Where memory runs out, a part of one may stand there.
ghost use Rattle.std.specs.Prelude.{◌≡◌, ◌++◌, IfSome, OnOk};
ghost use Rattle.std.specs.Fmt.{decimal};
ghost use Rattle.file_report.specs.Texts.{handle_text};

use std::alloc::AllocError;
use std::fmt::Display;
use std::io::Write;

/// A number in decimal.
pub fn push_decimal(out: &mut Vec<u8>, number: u64) -> Result<(), AllocError>
    ensures { OnOk result (out.new.items ≡ out.old.items ++ decimal number) }
{
    out.extend_from_slice(itoa::Buffer::new().format(number).as_bytes())
}

/// What a value prints.
pub fn push_shown<D: Display + Drop>(out: &mut Vec<u8>, shown: D) -> Result<(), AllocError>
    ensures { OnOk result (IfSome (D.output shown) (λ text. out.new.items ≡ out.old.items ++ text)) }
{
    write!(out, "{shown}").map_err(|_| AllocError)
}

/// A handle in four hexadecimal digits.
pub fn push_handle(out: &mut Vec<u8>, handle: u16) -> Result<(), AllocError>
    ensures { OnOk result (out.new.items ≡ out.old.items ++ handle_text handle) }
{
    write!(out, "{handle:04x}").map_err(|_| AllocError)
}
