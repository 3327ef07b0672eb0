//! The length of encoded strings.

ghost use Rattle.std.specs.Prelude.{◌≡◌, ◌<◌, ◌≤◌, ◌^◌, ℕ, List, length};
ghost use Rattle.base62.specs.declared.count.TheConstants.{MAX_DIGITS};
ghost use Rattle.base62.specs.Alphabet.{IsAlphabet};
ghost use Rattle.base62.specs.Canonical.{IsCanonical, DigitCount};

use crate::powers::{GREATEST, GREATEST_NARROW};

/// The length of the longest encoded string, that of 2^128 - 1.
pub const MAX_DIGITS: usize = 22;

/// Returns the length of the encoded string of `n`, 1 to 22, which all alphabets share.
///
/// It is at most 6 for `n` below 2^32, 9 below 2^53, and 11 below 2^64. Never fails, and does not
/// allocate.
///
/// ```rust
/// assert_eq!(rt; base62::digit_count(61), 1);
/// assert_eq!(rt; base62::digit_count(62), 2);
/// assert_eq!(rt; base62::digit_count(u128::MAX), 22);
/// ```
#[inline(always)]
pub const fn digit_count(n: u128) -> usize
    ensures counted { DigitCount n result }
    ensures exact { (B text : List ℕ) → IsAlphabet B → IsCanonical B text n → length text ≡ result }
    ensures within { (k : ℕ) → 0 < k → n < 62 ^ k → result ≤ k }
    ensures of_32_bits { n < 2 ^ 32 → result ≤ 6 }
    ensures of_53_bits { n < 2 ^ 53 → result ≤ 9 }
    ensures of_64_bits { n < 2 ^ 64 → result ≤ 11 }
    ensures least { 1 ≤ result }
    ensures most { result ≤ MAX_DIGITS }
{
    letter_count(n)
}

// Returns the count of letters of a number of any size.
#[inline(always)]
const fn letter_count(n: u128) -> usize
    ensures { DigitCount n result }
{
    if n <= 0xffffffff_ffffffff {
        narrow_count(n as u64)
    } else {
        wide_count(n)
    }
}

// Returns the count of letters of a number below 2^64. A letter has almost six bits, so the index
// of the highest bit gives the count, or one less.
#[inline(always)]
const fn narrow_count(n: u64) -> usize
    ensures { DigitCount n result }
{
    if n == 0 {
        return 1;
    }
    let highest = n.ilog2();
    let estimate = ((highest * 43) >> 8) as usize + 1;
    estimate + (n > GREATEST_NARROW[estimate]) as usize
}

// Returns the count of letters of a number of more than 64 bits.
#[inline(always)]
const fn wide_count(n: u128) -> usize
    requires { 2 ^ 64 ≤ n }
    ensures { DigitCount n result }
{
    let highest = ((n >> 64) as u64).ilog2() + 64;
    let estimate = ((highest * 43) >> 8) as usize + 1;
    estimate + (n > GREATEST[estimate]) as usize
}
