//! How a line falls into words.
ghost use Rattle.std.specs.Prelude.{◌≡◌, ◌∷◌, ◌<◌, ◌≤◌, [], MatchOption, ℕ, length, false, not, slice_index, true};
ghost use Rattle.geos_model.specs.Script as script;
ghost use Rattle.geos_script.specs.Making.{is_behind_word, is_no_word};

use memchr::memchr3;

/// How many bytes of a word are tested one by one, twice: most words have no more.
const FEW: usize = 4;

/// How many bytes at the front are blanks, or how many are none.
#[inline(always)]
fn run_of(blank: bool, text: &[u8]) -> usize
    ensures within { result ≤ length text.now }
    ensures before { (k : ℕ) → k < result → script.is_blank (slice_index text.now k) ≡ blank }
    ensures ends { result < length text.now → script.is_blank (slice_index text.now result) ≡ not blank }
{
    text.iter()
        .position(|byte| is_blank(*byte) != blank)
        .unwrap_or(text.len())
}

/// How many bytes at the front are no blanks. A search by vectors costs more than a few bytes one by one, and less than
/// many. The first four are tested without a loop, where there are so many.
#[inline(always)]
fn word_len(text: &[u8]) -> usize
    ensures within { result ≤ length text.now }
    ensures before { (k : ℕ) → k < result → script.is_blank (slice_index text.now k) ≡ false }
    ensures ends { result < length text.now → script.is_blank (slice_index text.now result) ≡ true }
{
    if text.len() < FEW {
        return run_of(false, text);
    }
    let end = run_of(false, &text[..FEW]);
    if end < FEW {
        return end;
    }
    FEW + rest_len(&text[FEW..])
}

/// The same of what stands behind the first four bytes.
#[inline(always)]
fn rest_len(text: &[u8]) -> usize
    ensures within { result ≤ length text.now }
    ensures before { (k : ℕ) → k < result → script.is_blank (slice_index text.now k) ≡ false }
    ensures ends { result < length text.now → script.is_blank (slice_index text.now result) ≡ true }
{
    let front = text.len().min(FEW);
    let end = run_of(false, &text[..front]);
    if end < FEW {
        return end;
    }
    FEW + long_word_len(&text[FEW..])
}

// Never inlined, since it would set up its vectors for each word.
#[inline(never)]
fn long_word_len(text: &[u8]) -> usize
    ensures within { result ≤ length text.now }
    ensures before { (k : ℕ) → k < result → script.is_blank (slice_index text.now k) ≡ false }
    ensures ends { result < length text.now → script.is_blank (slice_index text.now result) ≡ true }
{
    memchr3(b' ', b'\t', b'\r', text).unwrap_or(text.len())
}

/// Whether a byte parts the words of a line.
#[inline(always)]
pub(crate) fn is_blank(byte: u8) -> bool
    ensures { result ≡ script.is_blank byte }
{
    byte == b' ' || byte == b'\t' || byte == b'\r'
}

/// Whether no word goes on where this text begins, as is usual: at a space, or at the end.
#[inline(always)]
pub(crate) fn ends_word(text: &[u8]) -> bool
    ensures { result ≡ true → true ≡ is_behind_word text.now }
{
    matches!(text, [] | [b' ', ..])
}

/// A text from its first word on. Most begin with it.
#[inline(always)]
pub(crate) fn without_blanks(text: &[u8]) -> &[u8]
    ensures words { script.words result.now ≡ script.words text.now }
    ensures solid { 0 < length result.now → script.is_blank (slice_index result.now 0) ≡ false }
{
    match text {
        [] => text,
        [byte, ..] if !is_blank(*byte) => text,
        _ => behind_blanks(text),
    }
}

#[inline(never)]
fn behind_blanks(text: &[u8]) -> &[u8]
    ensures words { script.words result.now ≡ script.words text.now }
    ensures solid { 0 < length result.now → script.is_blank (slice_index result.now 0) ≡ false }
{
    &text[run_of(true, text)..]
}

/// Whether no word is left.
#[inline(always)]
pub(crate) fn has_no_word(text: &[u8]) -> bool
    ensures { result ≡ is_no_word (script.words text.now) }
{
    text.is_empty() || without_blanks(text).is_empty()
}

/// The next word, and what stands behind it.
#[inline(always)]
pub(crate) fn next_word(text: &[u8]) -> Option<(&[u8], &[u8])>
    ensures { MatchOption result (script.words text.now ≡ [])
        (λ x. script.words text.now ≡ x.0.now ∷ script.words x.1.now) }
{
    let text = without_blanks(text);
    if text.is_empty() {
        return None;
    }
    Some(text.split_at(word_len(text)))
}
