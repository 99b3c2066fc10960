//! Whether a line begins with the name of a command.
ghost use Rattle.std.specs.Prelude.{◌≡◌, ◌∷◌, [], slice_index};
ghost use Rattle.std.specs.Int.{from_le_bytes, w64};
ghost use Rattle.geos_model.specs.Script.{same_bytes};

/// How many bytes are compared as one number.
const FRONT: usize = 8;

/// Whether a name is this one.
// Inlined, so that the numbers of a table's names are known: a name is looked for among those of its length by halves.
#[inline(always)]
pub(crate) fn is(name: &[u8], text: &str) -> bool
    ensures { result ≡ same_bytes name.now text.now }
{
    let text = text.as_bytes();
    if name.len() != text.len() {
        return false;
    }
    if front(name) != front(text) {
        return false;
    }
    if text.len() <= FRONT {
        return true;
    }
    name[FRONT..] == text[FRONT..]
}

/// The first eight bytes of a text as one number, with zeros behind a shorter one.
#[inline(always)]
fn front(text: &[u8]) -> u64
    ensures { result ≡ from_le_bytes w64 (slice_index text.now 0 ∷ slice_index text.now 1 ∷ slice_index text.now 2
        ∷ slice_index text.now 3 ∷ slice_index text.now 4 ∷ slice_index text.now 5 ∷ slice_index text.now 6
        ∷ slice_index text.now 7 ∷ []) }
{
    u64::from_le_bytes([
        byte_at(text, 0),
        byte_at(text, 1),
        byte_at(text, 2),
        byte_at(text, 3),
        byte_at(text, 4),
        byte_at(text, 5),
        byte_at(text, 6),
        byte_at(text, 7),
    ])
}

/// The byte at a place, or zero behind the end.
#[inline(always)]
fn byte_at(text: &[u8], at: usize) -> u8
    ensures { result ≡ slice_index text.now at }
{
    if at < text.len() { text[at] } else { 0 }
}
