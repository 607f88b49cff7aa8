//! This module converts up to seven leading digits to a number. All digits are stored in one word of 64 bits, and are
//! converted at the same time. The module `core::dec2flt` uses the same steps in a loop for any number of digits. The
//! sources and targets of transitions are short numbers, and for such numbers this module is faster.
ghost use Rattle.std.specs.Prelude.{◌≡◌, ℕ, ◌-◌, ◌*◌, ◌%◌, ◌^◌, ◌<◌, ◌≤◌, List, length, take, nat_le, IfSome};
ghost use Rattle.core.specs.Int.Digits.{number_from_digits};
ghost use Rattle.core.specs.Slice.Scan.{digits_from, flag_word};
ghost use Rattle.core.specs.Dec2flt.Digits.{IsEightDigits};
ghost use Rattle.autfmt.specs.Usual.{AreDigitsInFront};
ghost use lib.Lanes.{number_l};

use std::simd::prelude::*;

/// Returns the number of digits at the beginning of `bytes`, and the number that these digits denote. The result is
/// `None` in three cases: `bytes` does not begin with a digit, begins with more than seven digits, or contains fewer
/// than eight bytes.
#[inline(always)]
pub(crate) fn digits_in_front(bytes: &[u8]) -> Option<(usize, u64)>
    ensures { IfSome result (λ x. AreDigitsInFront bytes.now x.0 x.1) }
{
    if bytes.len() < 8 {
        return None;
    }
    let lanes = word_in_front(bytes) ^ 0x3030_3030_3030_3030;
    let others = flags_from_ten(lanes);
    if others == 0 {
        return None;
    }
    let count = others.trailing_zeros() / 8;
    if count == 0 {
        return None;
    }
    Some((count as usize, value_of_eight(keep_first(lanes, count))))
}

/// Returns the first eight bytes as one word of 64 bits. The first byte is the lowest byte of the word.
#[inline(always)]
pub(crate) fn word_in_front(bytes: &[u8]) -> u64
    requires { 8 ≤ length bytes.now }
    ensures { result ≡ number_l 256 (take 8 bytes.now) }
{
    // The code loads a vector, because the compiler did not always turn eight reads of one byte into one load.
    u64x1::from_le_bytes(u8x8::from_slice(bytes))[0]
}

/// Returns a word that marks each byte of `word` whose value is at least 10. In the result, the highest bit of each
/// such byte is set, and all other bits are 0. The function clears the highest bit of each byte before it adds a
/// constant to the byte. Therefore no addition carries into the next byte.
#[inline(always)]
fn flags_from_ten(word: u64) -> u64
    ensures { (byte : ℕ → ℕ) → ((k : ℕ) → byte k < 256) → word ≡ digits_from byte 0 8
        → result ≡ flag_word (λ k. nat_le 10 (byte k)) }
{
    ((word & 0x7f7f_7f7f_7f7f_7f7f) + 0x7676_7676_7676_7676 | word) & 0x8080_8080_8080_8080
}

/// Shifts the word to the left, so that its lowest `count` bytes become its highest bytes. All other bytes of the word
/// are dropped. The new low bytes are zero.
#[inline(always)]
fn keep_first(word: u64, count: u32) -> u64
    requires { count < 8 }
    ensures { result ≡ word * 256 ^ (8 - count) % 2 ^ 64 }
{
    // The code shifts twice, because a shift by 64 is not defined.
    word << (56 - 8 * count) << 8
}

/// Returns the number that the eight digits in the word denote. The first digit is in the lowest byte.
#[inline(always)]
fn value_of_eight(word: u64) -> u64
    ensures { (ds : List ℕ) → IsEightDigits ds → word ≡ number_l 256 ds →
        result ≡ number_from_digits 10 ds }
{
    let pairs = word.wrapping_mul(10).wrapping_add(word >> 8);
    let first = (pairs & 0x0000_00ff_0000_00ff).wrapping_mul(100 + (1_000_000 << 32));
    let second = ((pairs >> 16) & 0x0000_00ff_0000_00ff).wrapping_mul(1 + (10_000 << 32));
    first.wrapping_add(second) >> 32
}
