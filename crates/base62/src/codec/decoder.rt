//! The decoder, over the tables of any alphabet.

ghost use Rattle.std.specs.Prelude.{◌≡◌, ◌+◌, ◌<◌, ◌≤◌, ◌^◌, ◌∷◌, [], ℕ, List, length, drop, slice_index, IfOk};
ghost use Rattle.base62.specs.declared.count.TheConstants.{MAX_DIGITS};
ghost use Rattle.base62.specs.Decoding.{leading_zeros};
ghost use Rattle.base62.specs.Steps.{DecodesCounted};
ghost use Rattle.base62.specs.Parts.{ReadsOn, ReadsPart};
ghost use Rattle.base62.specs.Tables.{AreTables};

use crate::alphabet::{Tables, Work};
use crate::count::MAX_DIGITS;
use crate::fault::DecodeError;
use crate::powers::{POWER_2, POWER_3, POWER_4, POWER_5, POWER_10, power};

// Decodes over the alphabet of the tables.
#[inline(always)]
pub(crate) fn decode_over(
    tables: &Tables,
    input: &[u8],
    work: &mut Work,
) -> Result<u128, DecodeError>
    requires { AreTables tables.now }
    ensures { DecodesCounted tables.now.letters input.now work.old work.new result }
{
    if input.is_empty() {
        return Err(DecodeError::EmptyInput);
    }
    let zeros = count_zeros(tables, input);
    decode_after_zeros(tables, input, zeros, work)
}

// Like `decode_over`, for calls that are inlined at each of their places. Only the code for texts of
// at most ten bytes is.
#[inline(always)]
pub(crate) fn decode_inlined_over(
    tables: &Tables,
    input: &[u8],
    work: &mut Work,
) -> Result<u128, DecodeError>
    requires { AreTables tables.now }
    ensures { DecodesCounted tables.now.letters input.now work.old work.new result }
{
    if input.len() > 10 {
        return decode_outlined_over(tables, input, work);
    }
    if input.is_empty() {
        return Err(DecodeError::EmptyInput);
    }
    let zeros = count_zeros(tables, input);
    decode_few(tables, input, zeros, work)
}

// Like `decode_over`, but never inlined.
#[inline(never)]
fn decode_outlined_over(tables: &Tables, input: &[u8], work: &mut Work) -> Result<u128, DecodeError>
    requires { AreTables tables.now }
    ensures { DecodesCounted tables.now.letters input.now work.old work.new result }
{
    decode_over(tables, input, work)
}

// Decodes a text, whose count of leading zeros is given.
#[inline(always)]
pub(crate) fn decode_after_zeros(
    tables: &Tables,
    input: &[u8],
    zeros: usize,
    work: &mut Work,
) -> Result<u128, DecodeError>
    requires tables { AreTables tables.now }
    requires some { 0 < length input.now }
    requires within { zeros ≤ length input.now }
    requires zeros { zeros ≡ leading_zeros tables.now.letters input.now }
    ensures { DecodesCounted tables.now.letters input.now work.old work.new result }
{
    let (_, after_zeros) = input.split_at(zeros);
    if after_zeros.len() > MAX_DIGITS {
        return Err(DecodeError::ArithmeticOverflow);
    }
    if after_zeros.len() > 10 {
        return read_long(tables, after_zeros, zeros, work);
    }
    decode_few(tables, input, zeros, work)
}

// Like `decode_after_zeros`, for at most ten bytes after the zeros.
#[inline(always)]
fn decode_few(
    tables: &Tables,
    input: &[u8],
    zeros: usize,
    work: &mut Work,
) -> Result<u128, DecodeError>
    requires tables { AreTables tables.now }
    requires some { 0 < length input.now }
    requires few { length input.now ≤ zeros + 10 }
    requires within { zeros ≤ length input.now }
    requires zeros { zeros ≡ leading_zeros tables.now.letters input.now }
    ensures { DecodesCounted tables.now.letters input.now work.old work.new result }
{
    let (_, after_zeros) = input.split_at(zeros);
    Ok(read_up_to_10(tables, after_zeros, zeros, work)? as u128)
}

// Returns how many zero letters a text begins with.
#[inline(always)]
pub(crate) fn count_zeros(tables: &Tables, input: &[u8]) -> usize
    requires { 0 < length input.now }
    ensures within { result ≤ length input.now }
    ensures zeros { result ≡ leading_zeros tables.now.letters input.now }
{
    // Most texts have none. This test avoids the loop for them.
    if !tables.is_zero(input[0]) {
        return 0;
    }
    for (i, byte) in input.iter().enumerate() {
        if !tables.is_zero(*byte) {
            return i;
        }
    }
    input.len()
}

// Decodes the 11 to 22 bytes after the leading zeros. If the first ten show an overflow, it is
// reported before a later byte is read.
#[inline(always)]
fn read_long(
    tables: &Tables,
    after_zeros: &[u8],
    zeros: usize,
    work: &mut Work,
) -> Result<u128, DecodeError>
    requires tables { AreTables tables.now }
    requires long { 10 < length after_zeros.now }
    requires short { length after_zeros.now ≤ MAX_DIGITS }
    requires within { zeros + length after_zeros.now < 2 ^ 64 }
    ensures { (input : List ℕ) → zeros ≡ leading_zeros tables.now.letters input
        → after_zeros.now ≡ drop zeros input
        → DecodesCounted tables.now.letters input work.old work.new result }
{
    let (first, later) = after_zeros.split_at(10);
    let leading = read_10(tables, first, zeros, work)?;
    if later.len() <= 10 {
        let last = read_up_to_10(tables, later, zeros + 10, work)?;
        return Ok(leading as u128 * power(later.len()) as u128 + last as u128);
    }
    let weight = power(later.len() - 10) as u128 * POWER_10 as u128;
    let Some(high) = (leading as u128).checked_mul(weight) else {
        return Err(DecodeError::ArithmeticOverflow);
    };
    let low = read_11_or_12(tables, later, zeros + 10, work)?;
    high.checked_add(low).ok_or(DecodeError::ArithmeticOverflow)
}

// Decodes a part of 11 or 12 bytes: the first ten, and the others.
#[inline(always)]
fn read_11_or_12(
    tables: &Tables,
    part: &[u8],
    start: usize,
    work: &mut Work,
) -> Result<u128, DecodeError>
    requires tables { AreTables tables.now }
    requires long { 10 < length part.now }
    requires short { length part.now ≤ 12 }
    requires within { start + length part.now < 2 ^ 64 }
    ensures { ReadsPart tables.now.letters part.now start work.old work.new result }
{
    let (first, later) = part.split_at(10);
    // Compilers generate slower code for `read_10` here.
    let high = read_up_to_10(tables, first, start, work)?;
    let low = read_up_to_5_more(tables, 0, later, start + 10, work)?;
    Ok(high as u128 * power(later.len()) as u128 + low as u128)
}

// Decodes a part of at most ten bytes.
#[inline(always)]
fn read_up_to_10(
    tables: &Tables,
    part: &[u8],
    start: usize,
    work: &mut Work,
) -> Result<u64, DecodeError>
    requires tables { AreTables tables.now }
    requires short { length part.now ≤ 10 }
    requires within { start + length part.now < 2 ^ 64 }
    ensures { ReadsPart tables.now.letters part.now start work.old work.new result }
{
    let mut number = 0;
    let mut done = 0;
    if part.len() >= 5 {
        let (first, _) = part.split_at(5);
        number = read_5(tables, first, start, work)? as u64;
        done = 5;
    }
    let (_, later) = part.split_at(done);
    read_up_to_5_more(tables, number, later, start + done, work)
}

// Continues after bytes that represent `number`, with at most five bytes more.
#[inline(always)]
fn read_up_to_5_more(
    tables: &Tables,
    number: u64,
    part: &[u8],
    start: usize,
    work: &mut Work,
) -> Result<u64, DecodeError>
    requires tables { AreTables tables.now }
    requires number { number < 62 ^ 5 }
    requires short { length part.now ≤ 5 }
    requires within { start + length part.now < 2 ^ 64 }
    ensures { ReadsOn tables.now.letters number part.now start work.old work.new result }
{
    let mut total = number;
    for i in 0..part.len() {
        let digit = read_digit(tables, part, i, start, work)?;
        total = total * 62 + digit as u64;
    }
    Ok(total)
}

// Decodes a part of ten bytes, as two numbers of five digits.
#[inline(always)]
fn read_10(tables: &Tables, part: &[u8], start: usize, work: &mut Work) -> Result<u64, DecodeError>
    requires tables { AreTables tables.now }
    requires ten { length part.now ≡ 10 }
    requires within { start + 10 < 2 ^ 64 }
    ensures { ReadsPart tables.now.letters part.now start work.old work.new result }
{
    let (first, later) = part.split_at(5);
    let high = read_5(tables, first, start, work)?;
    let low = read_5(tables, later, start + 5, work)?;
    Ok(high as u64 * POWER_5 + low as u64)
}

// Decodes a part of five bytes.
#[inline(always)]
fn read_5(tables: &Tables, part: &[u8], start: usize, work: &mut Work) -> Result<u32, DecodeError>
    requires tables { AreTables tables.now }
    requires five { length part.now ≡ 5 }
    requires within { start + 5 < 2 ^ 64 }
    ensures { ReadsPart tables.now.letters part.now start work.old work.new result }
{
    let a = read_digit(tables, part, 0, start, work)?;
    let b = read_digit(tables, part, 1, start, work)?;
    let c = read_digit(tables, part, 2, start, work)?;
    let d = read_digit(tables, part, 3, start, work)?;
    let e = read_digit(tables, part, 4, start, work)?;
    Ok(a * POWER_4 + b * POWER_3 + c * POWER_2 + d * 62 + e)
}

// Returns the digit of the byte at index `i` of a part.
#[inline(always)]
fn read_digit(
    tables: &Tables,
    part: &[u8],
    i: usize,
    start: usize,
    work: &mut Work,
) -> Result<u32, DecodeError>
    requires tables { AreTables tables.now }
    requires inside { i < length part.now }
    requires within { start + i < 2 ^ 64 }
    ensures read { ReadsPart tables.now.letters (slice_index part.now i ∷ []) (start + i)
        work.old work.new result }
    ensures small { IfOk result (λ digit. digit < 62) }
{
    let digit = tables.digit(part[i], work);
    if digit > 61 {
        return Err(DecodeError::InvalidBase62Byte(part[i], start + i));
    }
    Ok(digit as u32)
}
