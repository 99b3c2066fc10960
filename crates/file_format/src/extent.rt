//! The bytes of an extent, in a slot or in an entry of a directory.
ghost use Rattle.std.specs.Prelude.{◌≡◌, ◌≤◌, ◌+◌, ◌++◌, length, drop};
ghost use Rattle.file_format.specs.File.{extent_text, extent_at};

use crate::file::Extent;
use byteorder::{ByteOrder, LittleEndian};

pub(crate) fn write_extent(text: &mut [u8], extent: Extent)
    requires { 8 ≤ length text.old }
    ensures { text.new ≡ extent_text extent ++ drop 8 text.old }
{
    LittleEndian::write_u32(text, extent.page);
    LittleEndian::write_u32(&mut text[4..], extent.length);
}

pub(crate) fn extent_of_text(text: &[u8]) -> Extent
    requires { 8 ≤ length text.now }
    ensures { result ≡ extent_at text.now 0 }
{
    Extent {
        page: LittleEndian::read_u32(text),
        length: LittleEndian::read_u32(&text[4..]),
    }
}
