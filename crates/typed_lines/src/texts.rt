//! Texts in quotes, for which their bytes stand.
ghost use Rattle.std.specs.Prelude.{◌≡◌, ◌++◌, ◌∷◌, [], IfOk, OnOk, false};
ghost use Rattle.hex.specs.Hex.{encode_lower};
ghost use Rattle.typed_lines.specs.Typing.{ends_open, spelled_line};

use std::alloc::AllocError;

const QUOTE: u8 = b'"';

/// Puts a line behind `out`, with two hexadecimal digits for each byte of a text in quotes, and tells whether the last
/// text has no end.
pub(crate) fn push_spelled(out: &mut Vec<u8>, line: &[u8]) -> Result<bool, AllocError>
    ensures text { IfOk result (λ _. out.new.items ≡ out.old.items ++ spelled_line line.now) }
    ensures open { IfOk result (λ is_open. is_open ≡ ends_open false line.now) }
{
    let mut is_open = false;
    for byte in line {
        if *byte == QUOTE {
            is_open = !is_open;
        } else if is_open {
            push_digits(out, *byte)?;
        } else {
            out.push(*byte)?;
        }
    }
    Ok(is_open)
}

/// Two hexadecimal digits.
fn push_digits(out: &mut Vec<u8>, byte: u8) -> Result<(), AllocError>
    ensures { OnOk result (out.new.items ≡ out.old.items ++ encode_lower (byte ∷ [])) }
{
    let mut digits = [0; 2];
    hex::encode_to_slice([byte], &mut digits).unwrap();
    out.extend_from_slice(&digits)
}
