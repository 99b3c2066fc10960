//! The register behind bytes, by two words of eight bytes at a time.
ghost use Rattle.std.specs.Int.{w64, from_le_bytes};
ghost use Rattle.std.specs.Prelude.{◌≡◌, ◌≤◌, ◌∷◌, [], ◌+◌, ◌%◌, length, slice_index};
ghost use Rattle.checksum.specs.Crc32c.{bits, register, steps};

use crate::tables::{
    AFTER_1, AFTER_2, AFTER_3, AFTER_4, AFTER_5, AFTER_6, AFTER_7, AFTER_8, AFTER_9, AFTER_10,
    AFTER_11, AFTER_12, AFTER_13, AFTER_14, AFTER_15, AFTER_16,
};

// What a byte makes of the register, with so many bytes taken in from it on.
#[inline(always)]
fn after_1(byte: u8) -> u32
    ensures { result ≡ steps 8 byte }
{
    AFTER_1[byte as usize]
}

#[inline(always)]
fn after_2(byte: u8) -> u32
    ensures { result ≡ steps 16 byte }
{
    AFTER_2[byte as usize]
}

#[inline(always)]
fn after_3(byte: u8) -> u32
    ensures { result ≡ steps 24 byte }
{
    AFTER_3[byte as usize]
}

#[inline(always)]
fn after_4(byte: u8) -> u32
    ensures { result ≡ steps 32 byte }
{
    AFTER_4[byte as usize]
}

#[inline(always)]
fn after_5(byte: u8) -> u32
    ensures { result ≡ steps 40 byte }
{
    AFTER_5[byte as usize]
}

#[inline(always)]
fn after_6(byte: u8) -> u32
    ensures { result ≡ steps 48 byte }
{
    AFTER_6[byte as usize]
}

#[inline(always)]
fn after_7(byte: u8) -> u32
    ensures { result ≡ steps 56 byte }
{
    AFTER_7[byte as usize]
}

#[inline(always)]
fn after_8(byte: u8) -> u32
    ensures { result ≡ steps 64 byte }
{
    AFTER_8[byte as usize]
}

#[inline(always)]
fn after_9(byte: u8) -> u32
    ensures { result ≡ steps 72 byte }
{
    AFTER_9[byte as usize]
}

#[inline(always)]
fn after_10(byte: u8) -> u32
    ensures { result ≡ steps 80 byte }
{
    AFTER_10[byte as usize]
}

#[inline(always)]
fn after_11(byte: u8) -> u32
    ensures { result ≡ steps 88 byte }
{
    AFTER_11[byte as usize]
}

#[inline(always)]
fn after_12(byte: u8) -> u32
    ensures { result ≡ steps 96 byte }
{
    AFTER_12[byte as usize]
}

#[inline(always)]
fn after_13(byte: u8) -> u32
    ensures { result ≡ steps 104 byte }
{
    AFTER_13[byte as usize]
}

#[inline(always)]
fn after_14(byte: u8) -> u32
    ensures { result ≡ steps 112 byte }
{
    AFTER_14[byte as usize]
}

#[inline(always)]
fn after_15(byte: u8) -> u32
    ensures { result ≡ steps 120 byte }
{
    AFTER_15[byte as usize]
}

#[inline(always)]
fn after_16(byte: u8) -> u32
    ensures { result ≡ steps 128 byte }
{
    AFTER_16[byte as usize]
}

#[inline(always)]
fn after_byte(x: u32) -> u32
    ensures { result ≡ steps 8 x }
{
    let [low, _, _, _] = x.to_le_bytes();
    after_1(low) ^ (x >> 8)
}

#[inline(always)]
fn after_word(x: u64) -> u32
    ensures { result ≡ steps 64 x }
{
    let [a, b, c, d, e, f, g, h] = x.to_le_bytes();
    after_8(a)
        ^ after_7(b)
        ^ after_6(c)
        ^ after_5(d)
        ^ after_4(e)
        ^ after_3(f)
        ^ after_2(g)
        ^ after_1(h)
}

// A word with another one behind it.
#[inline(always)]
fn after_first_word(x: u64) -> u32
    ensures { result ≡ steps 128 x }
{
    let [a, b, c, d, e, f, g, h] = x.to_le_bytes();
    after_16(a)
        ^ after_15(b)
        ^ after_14(c)
        ^ after_13(d)
        ^ after_12(e)
        ^ after_11(f)
        ^ after_10(g)
        ^ after_9(h)
}

#[inline(always)]
fn word_at(bytes: &[u8], at: usize) -> u64
    requires { at + 8 ≤ length bytes.now }
    ensures { result ≡ from_le_bytes w64 (slice_index bytes.now at ∷ slice_index bytes.now (at + 1)
        ∷ slice_index bytes.now (at + 2) ∷ slice_index bytes.now (at + 3) ∷ slice_index bytes.now (at + 4)
        ∷ slice_index bytes.now (at + 5) ∷ slice_index bytes.now (at + 6) ∷ slice_index bytes.now (at + 7) ∷ []) }
{
    u64::from_le_bytes([
        bytes[at],
        bytes[at + 1],
        bytes[at + 2],
        bytes[at + 3],
        bytes[at + 4],
        bytes[at + 5],
        bytes[at + 6],
        bytes[at + 7],
    ])
}

// The register behind pairs of words.
fn pairs_in(start: u32, pairs: &[u8]) -> u32
    requires { length pairs.now % 16 ≡ 0 }
    ensures { result ≡ register start (bits pairs.now) }
{
    let mut state = start;
    let mut at = 0;
    while at < pairs.len() {
        let first = word_at(pairs, at);
        let second = word_at(pairs, at + 8);
        state = after_first_word(u64::from(state) ^ first) ^ after_word(second);
        at += 16;
    }
    state
}

// The register behind other bytes.
fn bytes_in(start: u32, bytes: &[u8]) -> u32
    ensures { result ≡ register start (bits bytes.now) }
{
    let mut state = start;
    for byte in bytes {
        state = after_byte(state ^ u32::from(*byte));
    }
    state
}

/// The register behind `bytes`.
pub fn taken_in(start: u32, bytes: &[u8]) -> u32
    ensures { result ≡ register start (bits bytes.now) }
{
    let (pairs, rest) = bytes.split_at(bytes.len() - bytes.len() % 16);
    bytes_in(pairs_in(start, pairs), rest)
}
