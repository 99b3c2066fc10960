//! Extents counted in pages.
ghost use Rattle.std.specs.Prelude.{◌≡◌, ◌*◌};
ghost use Rattle.file_format.specs.File as file;
ghost use Rattle.file_format.specs.File.{pages_of, end_page, page_limit_of};

use crate::file::{Extent, PAGE};
use geos_model::{PAGE_LIMIT, PAGE_LIMIT_OF_VERSION_1};

/// The first page behind the slots.
pub const FIRST_PAGE: u32 = 2;

/// Where an extent begins.
pub fn start_of(extent: Extent) -> u64
    ensures { result ≡ 512 * extent.page }
{
    u64::from(PAGE) * u64::from(extent.page)
}

/// How many pages so many bytes take.
pub fn page_count(length: u64) -> u64
    ensures { result ≡ pages_of length }
{
    length.div_ceil(u64::from(PAGE))
}

/// The page behind the last one of an extent.
pub fn page_behind(extent: Extent) -> u64
    ensures { result ≡ end_page extent }
{
    u64::from(extent.page) + page_count(u64::from(extent.length))
}

// The first page that can't be used in a file of this version.
fn page_limit(version: u8) -> u32
    ensures { result ≡ page_limit_of version }
{
    if version == 1 {
        PAGE_LIMIT_OF_VERSION_1
    } else {
        PAGE_LIMIT
    }
}

/// Whether an extent lies behind the slots of a file of `file_length` bytes, within the file, and below the last page
/// of a file of this version.
pub fn is_in_file(extent: Extent, file_length: u64, version: u8) -> bool
    ensures { result ≡ file.is_in_file version file_length extent }
{
    extent.page >= FIRST_PAGE
        && start_of(extent) + u64::from(extent.length) <= file_length
        && page_behind(extent) <= u64::from(page_limit(version))
}
