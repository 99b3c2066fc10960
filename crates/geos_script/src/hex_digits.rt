//! Hexadecimal digits, tested and read without a branch for each.
ghost use Rattle.std.specs.Prelude.{◌≡◌, ◌≤◌, ◌∷◌, ◌*◌, [], true, length, ℕ, Ok, unwrap_or};
ghost use Rattle.std.specs.List.{list_all};
ghost use Rattle.hex.specs.Hex.{decode_pairs, hex_digit_value, is_hex_digit, pair_value};
ghost use Rattle.geos_model.specs.Script as script;

/// What a byte counts for that is no digit: more than four digits spell.
const NO: u32 = 65536;

// What each byte counts for as a digit.
#[rattlefmt::skip]
static VALUES: [u32; 256] = [
    NO, NO, NO, NO, NO, NO, NO, NO, NO, NO, NO, NO, NO, NO, NO, NO,
    NO, NO, NO, NO, NO, NO, NO, NO, NO, NO, NO, NO, NO, NO, NO, NO,
    NO, NO, NO, NO, NO, NO, NO, NO, NO, NO, NO, NO, NO, NO, NO, NO,
    0, 1, 2, 3, 4, 5, 6, 7, 8, 9, NO, NO, NO, NO, NO, NO,
    NO, 10, 11, 12, 13, 14, 15, NO, NO, NO, NO, NO, NO, NO, NO, NO,
    NO, NO, NO, NO, NO, NO, NO, NO, NO, NO, NO, NO, NO, NO, NO, NO,
    NO, 10, 11, 12, 13, 14, 15, NO, NO, NO, NO, NO, NO, NO, NO, NO,
    NO, NO, NO, NO, NO, NO, NO, NO, NO, NO, NO, NO, NO, NO, NO, NO,
    NO, NO, NO, NO, NO, NO, NO, NO, NO, NO, NO, NO, NO, NO, NO, NO,
    NO, NO, NO, NO, NO, NO, NO, NO, NO, NO, NO, NO, NO, NO, NO, NO,
    NO, NO, NO, NO, NO, NO, NO, NO, NO, NO, NO, NO, NO, NO, NO, NO,
    NO, NO, NO, NO, NO, NO, NO, NO, NO, NO, NO, NO, NO, NO, NO, NO,
    NO, NO, NO, NO, NO, NO, NO, NO, NO, NO, NO, NO, NO, NO, NO, NO,
    NO, NO, NO, NO, NO, NO, NO, NO, NO, NO, NO, NO, NO, NO, NO, NO,
    NO, NO, NO, NO, NO, NO, NO, NO, NO, NO, NO, NO, NO, NO, NO, NO,
    NO, NO, NO, NO, NO, NO, NO, NO, NO, NO, NO, NO, NO, NO, NO, NO,
];

#[inline(always)]
fn value_of(digit: u8) -> u32
    ensures value { result ≡ unwrap_or (hex_digit_value digit) 65536 }
    ensures few { result ≤ 65536 }
{
    VALUES[usize::from(digit)]
}

/// The handle that four bytes spell. One test shows whether all of them are digits.
#[inline(always)]
pub(crate) fn handle_of(a: u8, b: u8, c: u8, d: u8) -> Option<u16>
    ensures { result ≡ script.handle (a ∷ b ∷ c ∷ d ∷ []) }
{
    let high = 16 * value_of(a) + value_of(b);
    let number = 16 * (16 * high + value_of(c)) + value_of(d);
    u16::try_from(number).ok()
}

/// Whether all are digits, in either case.
pub(crate) fn are_digits(word: &[u8]) -> bool
    ensures { result ≡ list_all is_hex_digit word.now }
{
    let mut all = true;
    for digit in word {
        all &= digit.is_ascii_hexdigit();
    }
    all
}

/// The byte of two digits. They are one word, whose bytes become their values, since of words the compiler takes eight
/// at a time. A letter's low four bits are 1 to 6, and the bit for 64 is set in letters alone.
#[inline(always)]
fn byte_of(high: u8, low: u8) -> u8
    requires { (is_hex_digit high ≡ true) × (is_hex_digit low ≡ true) }
    ensures { (i : ℕ) → pair_value high low i ≡ Ok result }
{
    let digits = u16::from_le_bytes([high, low]);
    let values = (digits & 0x0F0F) + 9 * (digits / 64 & 0x0101);
    ((16 * values + values / 256) % 256) as u8
}

/// Writes the bytes that pairs of digits spell, and tells whether all are digits. Where one is none, the bytes are of
/// no use.
pub(crate) fn decode_into(digits: &[u8], out: &mut [u8]) -> bool
    requires { length digits.now ≡ 2 * length out.old }
    ensures tells { result ≡ list_all is_hex_digit digits.now }
    ensures spelled { result ≡ true → decode_pairs 0 digits.now ≡ Ok out.new }
{
    let many = out.len() / 8 * 8;
    let (front, back) = out.split_at_mut(many);
    let (front_digits, back_digits) = digits.split_at(2 * many);
    if many > 0 && !decode_many(front_digits, front) {
        return false;
    }
    decode_few(back_digits, back)
}

/// As `decode_into`, by vectors.
// Never inlined, since few bytes need none of its vectors.
#[inline(never)]
fn decode_many(digits: &[u8], out: &mut [u8]) -> bool
    requires { length digits.now ≡ 2 * length out.old }
    ensures tells { result ≡ list_all is_hex_digit digits.now }
    ensures spelled { result ≡ true → decode_pairs 0 digits.now ≡ Ok out.new }
{
    if !are_digits(digits) {
        return false;
    }
    'bytes: for i in 0..out.len() {
        out[i] = byte_of(digits[2 * i], digits[2 * i + 1]);
    }
    true
}

/// As `decode_into`, by the table, which costs less where the bytes are few.
#[inline(always)]
fn decode_few(digits: &[u8], out: &mut [u8]) -> bool
    requires { length digits.now ≡ 2 * length out.old }
    ensures tells { result ≡ list_all is_hex_digit digits.now }
    ensures spelled { result ≡ true → decode_pairs 0 digits.now ≡ Ok out.new }
{
    // A byte is less than 256 where both are digits, and so are all together where all are.
    let mut seen = 0;
    'bytes: for i in 0..out.len() {
        let byte = 16 * value_of(digits[2 * i]) + value_of(digits[2 * i + 1]);
        seen |= byte;
        out[i] = (byte % 256) as u8;
    }
    seen < 256
}
