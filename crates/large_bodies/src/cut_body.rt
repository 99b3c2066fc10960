//! A raw body in three regions.
ghost use Rattle.std.specs.Prelude.{◌≡◌, ◌≤◌, length};
ghost use Rattle.geos_model.specs.Heap.{capacity};

/// The bytes of a raw body in three regions: a header, a table, and the rest.
#[derive(Clone, Copy)]
pub struct CutBody<'a> {
    pub bytes: &'a [u8],
    /// Where the table begins.
    pub table: usize,
    /// Where the rest begins.
    pub rest: usize,
    ghost ordered: { table ≤ rest },
    ghost within: { rest ≤ length bytes.now },
    ghost fits: { length bytes.now ≤ capacity },
}

impl<'a> CutBody<'a> {
    ghost use Rattle.large_bodies.specs.Differences.{header_of, table_of, rest_of};

    pub fn new(bytes: &'a [u8], table: usize, rest: usize) -> CutBody<'a>
        requires ordered { table ≤ rest }
        requires within { rest ≤ length bytes.now }
        requires fits { length bytes.now ≤ capacity }
        ensures bytes { result.bytes.now ≡ bytes.now }
        ensures table { result.table ≡ table }
        ensures rest { result.rest ≡ rest }
    {
        CutBody { bytes, table, rest }
    }

    pub fn header_bytes(&self) -> &'a [u8]
        ensures { result.now ≡ header_of self.now }
    {
        &self.bytes[..self.table]
    }

    pub fn table_bytes(&self) -> &'a [u8]
        ensures { result.now ≡ table_of self.now }
    {
        &self.bytes[self.table..self.rest]
    }

    pub fn rest_bytes(&self) -> &'a [u8]
        ensures { result.now ≡ rest_of self.now }
    {
        &self.bytes[self.rest..]
    }
}
