//! The sum of bytes.
ghost use Rattle.std.specs.Int.{w32, to_le_bytes};
ghost use Rattle.std.specs.Prelude.{◌≡◌, ◌<◌, ◌++◌, ℕ, List, All};
ghost use Rattle.checksum.specs.Crc32c.{AgreeOutsideBurst, crc32c, crc32c_after};

use crate::registers::taken_in;

/// The CRC-32C of the bytes that `sum` is of, followed by `bytes`: a long text is summed piece by piece, the first one
/// behind 0. The sum of no bytes is 0.
///
/// It is the sum of iSCSI (RFC 3720, section 12.1): Castagnoli's polynomial, reflected 0x82F63B78, over a byte's bits
/// from the lowest on, in a register that begins as ones and is turned at the end. It goes by sixteen bytes at a time,
/// for each of which a table has what it leaves in the register ("slicing by sixteen").
///
/// Changes are counted in bits, from the first that differs to the last, wherever in a byte they lie. Up to 32 are told
/// for certain; of changes that reach further about one in 2^32 is missed, if they are made by chance.
pub fn crc32c_after(sum: u32, bytes: &[u8]) -> u32
    ensures sum { result ≡ crc32c_after sum bytes.now }
    ensures joined { (before : List ℕ) → sum ≡ crc32c before → result ≡ crc32c (before ++ bytes.now) }
    ensures told { (other : List ℕ) → All (λ b. b < 256) other → AgreeOutsideBurst bytes.now other →
        result ≡ crc32c_after sum other → bytes.now ≡ other }
{
    taken_in(sum ^ u32::MAX, bytes) ^ u32::MAX
}

/// The CRC-32C of `bytes`, as `crc32c_after` makes it; that of no bytes is 0. Where it is stored behind them, low byte
/// first, a change of up to 32 bits in a row is told even if it reaches into the sum, or lies in it.
pub fn crc32c(bytes: &[u8]) -> u32
    ensures sum { result ≡ crc32c bytes.now }
    ensures told { (other : List ℕ) → All (λ b. b < 256) other → AgreeOutsideBurst bytes.now other →
        result ≡ crc32c other → bytes.now ≡ other }
    ensures seal { (other : List ℕ) (sum : ℕ) → All (λ b. b < 256) other →
        AgreeOutsideBurst (bytes.now ++ to_le_bytes w32 result) (other ++ to_le_bytes w32 sum) →
        sum ≡ crc32c other → bytes.now ≡ other }
{
    crc32c_after(0, bytes)
}
