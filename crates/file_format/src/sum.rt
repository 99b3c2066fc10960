//! Sums of what lies in a file of version 3.
ghost use Rattle.std.specs.Prelude.{◌≡◌};
ghost use Rattle.file_format.specs.File.{has_sum};

use checksum::crc32c;

/// Whether bytes have this CRC-32C, where one is given. It takes some 4 instructions a byte.
pub fn has_sum(sum: Option<u32>, bytes: &[u8]) -> bool
    ensures { result ≡ has_sum sum bytes.now }
{
    match sum {
        None => true,
        Some(sum) => sum == crc32c(bytes),
    }
}
