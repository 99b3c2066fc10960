//! Numbers, handles and bytes as text. Where memory runs out, a part of a text may stand behind what was there.
#![tactic(auto, using(crate::proofs::Extending::extending))]

ghost use Rattle.std.specs.Prelude.{◌≡◌, ◌++◌, OnOk, OnErr};
ghost use Rattle.std.specs.Fmt.{decimal};
ghost use Rattle.geos_model.specs.Script.{four_digits, hex_text};
ghost use Rattle.geos_script.specs.Texts.{Extends};

use std::alloc::AllocError;

/// A lead, and the digits of a number.
pub(crate) fn push_number(out: &mut Vec<u8>, lead: &[u8], number: u64) -> Result<(), AllocError>
    ensures ok { OnOk result (out.new.items ≡ out.old.items ++ (lead.now ++ decimal number)) }
    ensures err { OnErr result (Extends out.old.items out.new.items) }
{
    out.extend_from_slice(lead)?;
    out.extend_from_slice(itoa::Buffer::new().format(number).as_bytes())
}

/// A lead, and always four digits.
// Inlined, since the lead is a text of a known length.
#[inline(always)]
pub(crate) fn push_handle(out: &mut Vec<u8>, lead: &[u8], handle: u16) -> Result<(), AllocError>
    ensures ok { OnOk result (out.new.items ≡ out.old.items ++ (lead.now ++ four_digits handle)) }
    ensures err { OnErr result (Extends out.old.items out.new.items) }
{
    let mut digits = [0; 4];
    hex::encode_to_slice(handle.to_be_bytes(), &mut digits).unwrap();
    out.extend_from_slice(lead)?;
    out.extend_from_slice(&digits)
}

/// A lead, and two digits for each byte, or a dash for none.
pub(crate) fn push_bytes(out: &mut Vec<u8>, lead: &[u8], bytes: &[u8]) -> Result<(), AllocError>
    ensures ok { OnOk result (out.new.items ≡ out.old.items ++ (lead.now ++ hex_text bytes.now)) }
    ensures err { OnErr result (Extends out.old.items out.new.items) }
{
    out.extend_from_slice(lead)?;
    if bytes.is_empty() {
        return out.extend_from_slice(b"-");
    }
    // Encoded in place, since the bytes may be many.
    let start = out.len();
    let digits = bytes.len().checked_mul(2).ok_or(AllocError)?;
    let end = start.checked_add(digits).ok_or(AllocError)?;
    out.resize(end, 0)?;
    hex::encode_to_slice(bytes, &mut out[start..]).unwrap();
    Ok(())
}
