//! Bytes that are compared.
ghost use Rattle.std.specs.Prelude.{◌≡◌, nat_eq};
ghost use Rattle.std.specs.List.{common_prefix_len};
ghost use Rattle.geos_model.specs.Bytes.{same_bytes};
ghost use Rattle.document_diff.specs.Differences.{bytes_change};

use crate::difference::BytesChange;

pub fn is_same(old: &[u8], new: &[u8]) -> bool
    ensures { result ≡ same_bytes old.now new.now }
{
    old == new
}

// How many bytes in front are the same.
fn common_front(old: &[u8], new: &[u8]) -> usize
    ensures { result ≡ common_prefix_len nat_eq old.now new.now }
{
    old.iter()
        .zip(new)
        .position(|(before, after)| *before != *after)
        .unwrap_or(old.len().min(new.len()))
}

pub fn bytes_change(old: &[u8], new: &[u8]) -> BytesChange
    ensures { result ≡ bytes_change old.now new.now }
{
    BytesChange {
        old: old.len(),
        new: new.len(),
        at: common_front(old, new),
    }
}
