//! The encoder, over the tables of any alphabet.
//!
//! Each function that writes fills the start of a buffer with a text of a given width. Division by
//! powers of 62 splits a number into parts.
//!
//! Ten letters are computed from a fraction f, in units of 1 / 2^64. They are the letters of the
//! number f * 62^10 / 2^64. The upper half of f * 62 is the first digit, and the lower half is the
//! fraction of the digits after it.

ghost use Rattle.std.specs.Prelude.{◌≡◌, ◌+◌, ◌-◌, ◌*◌, ◌/◌, ◌%◌, ◌<◌, ◌≤◌, ◌^◌, length};
ghost use Rattle.base62.specs.declared.count.TheConstants.{MAX_DIGITS};
ghost use Rattle.base62.specs.Canonical.{DigitCount};
ghost use Rattle.base62.specs.Fixed.{WritesFixed};
ghost use Rattle.base62.specs.Steps.{EncodesCounted, encoding_steps};
ghost use Rattle.base62.specs.Tables.{AreTables};

use crate::alphabet::{Tables, Work};
use crate::count::digit_count;
use crate::fault::EncodeError;
use crate::powers::{POWER_2, POWER_4, POWER_5, POWER_10};

// Encodes over the alphabet of the tables.
#[inline(always)]
pub(crate) fn encode_over(
    tables: &Tables,
    n: u128,
    buf: &mut [u8],
    work: &mut Work,
) -> Result<usize, EncodeError>
    requires { AreTables tables.now }
    ensures { EncodesCounted tables.now.letters n buf.old buf.new work.old work.new result }
{
    let count = digit_count(n);
    if buf.len() < count {
        return Err(EncodeError::BufferTooSmall);
    }
    write_number(tables, n, count, buf, work);
    Ok(count)
}

// Writes the text of a number, whose count of letters is given.
#[inline(always)]
pub(crate) fn write_number(tables: &Tables, n: u128, count: usize, buf: &mut [u8], work: &mut Work)
    requires tables { AreTables tables.now }
    requires count { DigitCount n count }
    requires room { count ≤ length buf.old }
    ensures written { WritesFixed tables.now.letters count n buf.old buf.new }
    ensures steps { work.new ≡ work.old + encoding_steps count }
{
    if n <= 0xffffffff_ffffffff {
        write_narrow(tables, n as u64, count, buf, work);
    } else {
        write_wide(tables, n, count, buf, work);
    }
}

// Writes the text of a number below 2^64.
fn write_narrow(tables: &Tables, n: u64, count: usize, buf: &mut [u8], work: &mut Work)
    requires fits { n < 62 ^ count }
    requires least { 1 ≤ count }
    requires most { count ≤ 11 }
    requires room { count ≤ length buf.old }
    ensures written { WritesFixed tables.now.letters count n buf.old buf.new }
    ensures steps { work.new ≡ work.old + encoding_steps count }
{
    if count < 10 {
        write_up_to_9(tables, n, count, buf, work);
    } else {
        let (first, fraction) = divide_narrow_by_62_10(n);
        // If the text has ten letters, its first overwrites this one, which is a zero.
        buf[0] = tables.letter(first, work);
        write_10(tables, fraction, &mut buf[count - 10..], work);
    }
}

// Writes the text of a number of 2^64 or more.
fn write_wide(tables: &Tables, n: u128, count: usize, buf: &mut [u8], work: &mut Work)
    requires fits { n < 62 ^ count }
    requires least { 11 ≤ count }
    requires most { count ≤ MAX_DIGITS }
    requires room { count ≤ length buf.old }
    ensures written { WritesFixed tables.now.letters count n buf.old buf.new }
    ensures steps { work.new ≡ work.old + encoding_steps count }
{
    if count > 20 {
        let (top, high, low) = divide_by_62_20(n);
        write_1_or_2(tables, top, count - 20, buf, work);
        write_20(tables, high, low, &mut buf[count - 20..], work);
    } else if count == 20 {
        let (_, high, low) = divide_by_62_20(n);
        write_20(tables, high, low, buf, work);
    } else {
        let (high, low) = divide_by_62_10(n);
        write_10(tables, low, &mut buf[count - 10..], work);
        write_up_to_9(tables, high, count - 10, buf, work);
    }
}

// Divides by 62^20. Returns the quotient, and the remainder as the fractions of its first and its
// last ten letters. A fraction is in fixed point with 64 fraction bits. Let g be the fraction of the
// last ten letters. The fraction of all twenty exceeds that of the first ten by at most 22 * g
// units. Subtracting `low >> 60`, which is 16 * g rounded down, leaves at most seven of these. With
// the five of `scaled_by_62_20` that is twelve, fewer than the 21 that `fraction_of` allows.
#[inline(always)]
fn divide_by_62_20(n: u128) -> (u32, u64, u64)
    ensures quotient { result.0 ≡ n / 62 ^ 20 }
    ensures remainder { result.1 * 62 ^ 10 / 2 ^ 64 * 62 ^ 10 + result.2 * 62 ^ 10 / 2 ^ 64
        ≡ n % 62 ^ 20 }
{
    let low = last_10_as_fraction(n);
    let (top, high) = whole_and_fraction(scaled_by_62_20(n) - (low >> 60) as u128);
    (top as u32, high, low)
}

// Returns the fraction of the last ten letters: n / 62^10 in fixed point with 64 fraction bits, at
// most eight units too large. Its integer part is lost, as the sum wraps around. For n = 2^64 the
// result is 2^128 / 62^10 units: 21 * 2^64, plus the first factor, plus the second factor / 2^64,
// rounded up. The 21 * 2^64 drop out, as an integer. The third factor is 2^123 / 62^10, rounded up.
#[inline(always)]
fn last_10_as_fraction(n: u128) -> u64
    ensures { result * 62 ^ 10 / 2 ^ 64 ≡ n % 62 ^ 10 }
{
    let upper = (n >> 64) as u64;
    let lower = (n & 0xffffffff_ffffffff) as u64;
    let product = upper as u128 * 18054599902933494364;
    let first = (product & 0xffffffff_ffffffff) as u64;
    let second = ((upper as u128 * 2913576609842229563) >> 64) as u64;
    let of_lower = (lower as u128 * 12669882045338564947) >> 59;
    let third = (of_lower & 0xffffffff_ffffffff) as u64;
    first
        .wrapping_add(second)
        .wrapping_add(third)
        .wrapping_add(2)
}

// Returns n / 62^20 in fixed point with 64 fraction bits, at most five units too large. For
// n = 2^64 the result is 2^128 / 62^20 units: the second factor, plus the first / 2^64, rounded up.
#[inline(always)]
fn scaled_by_62_20(n: u128) -> u128
    ensures least { n * 2 ^ 64 ≤ result * 62 ^ 20 }
    ensures most { result * 62 ^ 20 ≤ n * 2 ^ 64 + 5 * 62 ^ 20 }
{
    let upper = (n >> 64) as u64;
    let lower = (n & 0xffffffff_ffffffff) as u64;
    let rest = ((upper as u128 * 1200736830183971319) >> 64) as u64;
    upper as u128 * 483 + (rest + (((lower >> 32) * 483) >> 32) + 4) as u128
}

// Divides by 62^10. Returns the quotient, and the remainder as a fraction. The upper bits times
// 2^120 / 62^10, shifted right by 64 bits, are the quotient, or one less: then `fraction_of` returns
// an integer part of 1, which is added.
#[inline(always)]
fn divide_by_62_10(n: u128) -> (u64, u64)
    requires { n < 2 ^ 60 * 62 ^ 10 }
    ensures quotient { result.0 ≡ n / 62 ^ 10 }
    ensures remainder { result.1 * 62 ^ 10 / 2 ^ 64 ≡ n % 62 ^ 10 }
{
    let upper = (n >> 56) as u64;
    let estimate = ((upper as u128 * 1583735255667320618) >> 64) as u64;
    let remainder = (n - estimate as u128 * POWER_10 as u128) as u64;
    let (whole, fraction) = fraction_of(remainder);
    (estimate + whole, fraction)
}

// Returns n / 62^10 in fixed point with 64 fraction bits: the integer part and the fraction. At
// least 21 fractions, from n * 2^64 / 62^10 upwards, stand for the same ten letters. This one is at
// most two above that product. The factor is 2^124 / 62^10 - 2^64, rounded up.
#[inline(always)]
fn fraction_of(n: u64) -> (u64, u64)
    requires { n < 2 ^ 60 }
    ensures number { (result.0 * 2 ^ 64 + result.1) * 62 ^ 10 / 2 ^ 64 ≡ n }
{
    let scaled = n * 16;
    let upper = ((scaled as u128 * 6893020016967578278) >> 64) as u64;
    let fraction = (scaled + 1).wrapping_add(upper);
    // If the sum has wrapped around, it is less than either operand.
    ((fraction < upper) as u64, fraction)
}

// Divides a number below 2^64 by 62^10. Returns the quotient, and the remainder as a fraction, at
// most five above the product in `fraction_of`. The factor is 2^123 / 62^10, rounded up.
#[inline(always)]
fn divide_narrow_by_62_10(n: u64) -> (u64, u64)
    ensures quotient { result.0 ≡ n / 62 ^ 10 }
    ensures remainder { result.1 * 62 ^ 10 / 2 ^ 64 ≡ n % 62 ^ 10 }
{
    whole_and_fraction(((n as u128 * 12669882045338564947) >> 59) + 1)
}

// Writes one to nine letters. If there are more than four, it writes the last four first.
#[inline(always)]
fn write_up_to_9(tables: &Tables, n: u64, count: usize, buf: &mut [u8], work: &mut Work)
    requires fits { n < 62 ^ count }
    requires least { 1 ≤ count }
    requires most { count ≤ 9 }
    requires room { count ≤ length buf.old }
    ensures written { WritesFixed tables.now.letters count n buf.old buf.new }
    ensures steps { work.new ≡ work.old + (count + 1) / 2 }
{
    if count > 4 {
        let quotient = n / POWER_4 as u64;
        let last = (n - quotient * POWER_4 as u64) as u32;
        write_4(tables, last, &mut buf[count - 4..], work);
        write_up_to_5(tables, quotient as u32, count - 4, buf, work);
    } else {
        write_up_to_5(tables, n as u32, count, buf, work);
    }
}

// Writes one to five letters, from the last to the first.
#[inline(always)]
fn write_up_to_5(tables: &Tables, n: u32, count: usize, buf: &mut [u8], work: &mut Work)
    requires fits { n < 62 ^ count }
    requires least { 1 ≤ count }
    requires most { count ≤ 5 }
    requires room { count ≤ length buf.old }
    ensures written { WritesFixed tables.now.letters count n buf.old buf.new }
    ensures steps { work.new ≡ work.old + (count + 1) / 2 }
{
    if count > 4 {
        let quotient = n / POWER_4;
        write_4(tables, n - quotient * POWER_4, &mut buf[count - 4..], work);
        write_1_or_2(tables, quotient, count - 4, buf, work);
    } else if count > 2 {
        let quotient = n / POWER_2;
        write_2(tables, n - quotient * POWER_2, &mut buf[count - 2..], work);
        write_1_or_2(tables, quotient, count - 2, buf, work);
    } else {
        write_1_or_2(tables, n, count, buf, work);
    }
}

// Writes one or two letters, as a pair. If there is one place, the second letter overwrites the
// first, which is a zero.
#[inline(always)]
fn write_1_or_2(tables: &Tables, x: u32, count: usize, buf: &mut [u8], work: &mut Work)
    requires fits { x < 62 ^ count }
    requires least { 1 ≤ count }
    requires most { count ≤ 2 }
    requires room { count ≤ length buf.old }
    ensures written { WritesFixed tables.now.letters count x buf.old buf.new }
    ensures steps { work.new ≡ work.old + 1 }
{
    let (first, second) = tables.pair(x, work);
    buf[0] = first;
    buf[count - 1] = second;
}

// Writes two letters.
#[inline(always)]
fn write_2(tables: &Tables, x: u32, buf: &mut [u8], work: &mut Work)
    requires fits { x < 62 ^ 2 }
    requires room { 2 ≤ length buf.old }
    ensures written { WritesFixed tables.now.letters 2 x buf.old buf.new }
    ensures steps { work.new ≡ work.old + 1 }
{
    write_1_or_2(tables, x, 2, buf, work);
}

// Writes four letters.
#[inline(always)]
fn write_4(tables: &Tables, x: u32, buf: &mut [u8], work: &mut Work)
    requires fits { x < 62 ^ 4 }
    requires room { 4 ≤ length buf.old }
    ensures written { WritesFixed tables.now.letters 4 x buf.old buf.new }
    ensures steps { work.new ≡ work.old + 2 }
{
    let quotient = x / POWER_2;
    write_2(tables, x - quotient * POWER_2, &mut buf[2..], work);
    write_2(tables, quotient, buf, work);
}

// Writes twenty letters of two fractions, the last ten first, since their fraction is computed
// first.
#[inline(always)]
fn write_20(tables: &Tables, high: u64, low: u64, buf: &mut [u8], work: &mut Work)
    requires room { 20 ≤ length buf.old }
    ensures written { let number = high * 62 ^ 10 / 2 ^ 64 * 62 ^ 10 + low * 62 ^ 10 / 2 ^ 64 in
        WritesFixed tables.now.letters 20 number buf.old buf.new }
    ensures steps { work.new ≡ work.old + 12 }
{
    write_10(tables, low, &mut buf[10..], work);
    write_10(tables, high, buf, work);
}

// Writes ten letters of a fraction. The last five are computed independently of the first five.
#[inline(always)]
fn write_10(tables: &Tables, fraction: u64, buf: &mut [u8], work: &mut Work)
    requires room { 10 ≤ length buf.old }
    ensures written { WritesFixed tables.now.letters 10 (fraction * 62 ^ 10 / 2 ^ 64)
        buf.old buf.new }
    ensures steps { work.new ≡ work.old + 6 }
{
    write_5(tables, fraction, buf, work);
    write_5(tables, after_5(fraction), &mut buf[5..], work);
}

// Writes the first five letters of a fraction.
#[inline(always)]
fn write_5(tables: &Tables, fraction: u64, buf: &mut [u8], work: &mut Work)
    requires room { 5 ≤ length buf.old }
    ensures written { WritesFixed tables.now.letters 5 (fraction * 62 ^ 5 / 2 ^ 64)
        buf.old buf.new }
    ensures steps { work.new ≡ work.old + 3 }
{
    let (first, after_1) = next_digit(fraction);
    buf[0] = tables.letter(first, work);
    let (second, after_2) = next_digit(after_1);
    let (third, after_3) = next_digit(after_2);
    write_pair(tables, second, third, &mut buf[1..], work);
    let (fourth, after_4) = next_digit(after_3);
    write_pair(tables, fourth, first_digit(after_4), &mut buf[3..], work);
}

// Writes the letters of two digits.
#[inline(always)]
fn write_pair(tables: &Tables, first: u64, second: u64, buf: &mut [u8], work: &mut Work)
    requires first { first < 62 }
    requires second { second < 62 }
    requires room { 2 ≤ length buf.old }
    ensures written { WritesFixed tables.now.letters 2 (first * 62 + second) buf.old buf.new }
    ensures steps { work.new ≡ work.old + 1 }
{
    let (first_letter, second_letter) = tables.pair_of_digits(first, second, work);
    buf[0] = first_letter;
    buf[1] = second_letter;
}

// Returns the first digit of a fraction, and the fraction of the digits after it.
#[inline(always)]
fn next_digit(fraction: u64) -> (u64, u64)
    ensures digit { result.0 ≡ fraction * 62 / 2 ^ 64 }
    ensures after { result.1 ≡ fraction * 62 % 2 ^ 64 }
{
    whole_and_fraction(fraction as u128 * 62)
}

// Returns only the first digit of a fraction.
#[inline(always)]
fn first_digit(fraction: u64) -> u64
    ensures { result ≡ fraction * 62 / 2 ^ 64 }
{
    ((fraction as u128 * 62) >> 64) as u64
}

// Returns the fraction of the digits after the first five.
#[inline(always)]
fn after_5(fraction: u64) -> u64
    ensures { result ≡ fraction * 62 ^ 5 % 2 ^ 64 }
{
    let product = fraction as u128 * POWER_5 as u128;
    (product & 0xffffffff_ffffffff) as u64
}

// Returns the integer part and the fraction of a number in fixed point with 64 fraction bits.
#[inline(always)]
fn whole_and_fraction(n: u128) -> (u64, u64)
    ensures whole { result.0 ≡ n / 2 ^ 64 }
    ensures fraction { result.1 ≡ n % 2 ^ 64 }
{
    ((n >> 64) as u64, (n & 0xffffffff_ffffffff) as u64)
}
