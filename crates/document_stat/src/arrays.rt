//! Chunks that read as arrays.
ghost use Rattle.std.specs.Prelude.{◌≡◌, true, is_some, None, Some, MatchOption};
ghost use Rattle.geos_model.specs.Array.{array_of};
ghost use Rattle.document_stat.specs.Arrays.{element_count, kind_of_array};

use chunk_arrays::check;
use element_arrays::is_element_array;
use lmem_heap::{ArrayKind, KnownBytes};
use name_arrays::is_name_array;

/// What the bytes of an array read as, a chunk array where they read as neither of the others: nothing else in a file
/// marks a chunk as one.
fn kind_of_array(bytes: &KnownBytes<'_>) -> ArrayKind
    ensures { is_some (array_of bytes.now) ≡ true → Some result ≡ kind_of_array bytes.now }
{
    if is_name_array(bytes) {
        ArrayKind::Name
    } else if is_element_array(bytes) {
        ArrayKind::Element
    } else {
        ArrayKind::Chunk
    }
}

/// The kind of the array that these bytes read as, and how many elements it has, free ones too; None where they read as
/// none. It takes time in proportion to the bytes, and no memory.
pub fn read_array(bytes: &[u8]) -> Option<(ArrayKind, u32)>
    ensures { MatchOption result (kind_of_array bytes.now ≡ None)
        (λ a. (kind_of_array bytes.now ≡ Some a.0) × (a.1 ≡ element_count bytes.now)) }
{
    let known = KnownBytes::new(bytes);
    match check(&known) {
        Ok(view) => Some((kind_of_array(&known), view.count() as u32)),
        Err(_) => None,
    }
}
