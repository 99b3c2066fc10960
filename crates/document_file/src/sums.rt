//! Sums of what is written, and the version of a file that has them.
ghost use Rattle.std.specs.Prelude.{◌≡◌, ◌==◌};
ghost use Rattle.document_file.specs.Sums.{has_sums, kept_sum, sum_for, version_for};

use checksum::crc32c;
use file_format::VERSION;

// The version in which directories and images have sums.
const SUMMED: u8 = 3;

/// Whether a file of a version has sums.
pub fn has_sums(version: u8) -> bool
    ensures { result ≡ has_sums version }
{
    version == SUMMED
}

/// The version of files that have sums, or that have none.
pub fn version_for(checksums: bool) -> u8
    ensures { result ≡ version_for checksums }
{
    if checksums { SUMMED } else { VERSION }
}

/// The sum that an image keeps in another file: one where that has sums, 0 in place of none.
pub fn kept_sum(checksums: bool, sum: Option<u32>) -> Option<u32>
    ensures { result ≡ kept_sum checksums sum }
{
    if checksums {
        Some(sum.unwrap_or(0))
    } else {
        None
    }
}

/// The sum of bytes, where there are sums.
pub fn sum_for(summed: bool, bytes: &[u8]) -> Option<u32>
    ensures { result ≡ sum_for summed bytes.now }
{
    if summed { Some(crc32c(bytes)) } else { None }
}
