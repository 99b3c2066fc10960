//! A branch of a large array, read where it lies.
ghost use Rattle.std.specs.Prelude.{◌≡◌, ◌^◌, ◌<◌, ◌↔◌, Some, None, IsTrue, IfOk, MatchResult};
ghost use Rattle.geos_model.specs.LargeLayout.{branch_of};
ghost use Rattle.large_bodies.specs.BranchReading.{BeginsWithZero, IsPlain};

use byteorder::{ByteOrder, LittleEndian};
use chunk_arrays::{View, check};
use geos_model::Fault;
use lmem_heap::KnownBytes;

/// The chunk array that a branch has, where these bytes are a branch of so many elements of this size, 0 where sizes
/// vary. BadChain where they are none. It takes time in proportion to the number of elements, and no memory.
pub fn read_branch<'a>(bytes: &'a [u8], size: usize, count: usize) -> Result<View<'a>, Fault>
    requires { size < 2 ^ 16 }
    ensures value { MatchResult result (λ view. branch_of size count bytes.now ≡ Some view.array.elements)
        (λ fault. (fault ≡ Fault.BadChain) × (branch_of size count bytes.now ≡ None)) }
    ensures plain { IfOk result (λ view. IsPlain view.array size count) }
{
    if !begins_with_zero(bytes) {
        return Err(Fault::BadChain);
    }
    match check(&KnownBytes::new(&bytes[2..])) {
        Err(_) => Err(Fault::BadChain),
        Ok(view) => {
            if is_plain(&view, size, count) {
                Ok(view)
            } else {
                Err(Fault::BadChain)
            }
        }
    }
}

/// Whether a zero word stands before all else.
fn begins_with_zero(bytes: &[u8]) -> bool
    ensures { IsTrue result ↔ BeginsWithZero bytes.now }
{
    2 <= bytes.len() && LittleEndian::read_u16(bytes) == 0
}

/// Whether an array has so many elements of this size, and no extra bytes.
fn is_plain(view: &View<'_>, size: usize, count: usize) -> bool
    ensures { IsTrue result ↔ IsPlain view.now.array size count }
{
    view.element_size() == size && view.count() == count && view.extra().is_empty()
}
