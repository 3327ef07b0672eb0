//! The reply to one line.

ghost use Rattle.std.specs.Prelude.{◌≡◌, ◌<◌, ◌≤◌, ◌+◌, ◌*◌, ◌^◌, ℕ, ◌∷◌, [], ◌++◌, List, take, decimal, OnOk, Some, None, if◌then◌else◌};
ghost use Rattle.base62.specs.Canonical.{IsCanonical};
ghost use Rattle.base62.specs.Decoding.{decoding};
ghost use Rattle.base62_cli.specs.BuiltIn.{alphabet_of};
ghost use Rattle.base62_cli.specs.Reply.{IsReply, IsEncodeReply, decode_reply, decimal_value, is_number};

use crate::fault::ToolFault;
use base62::DecodeError;
use std::io::{self, Write};
use std::str;

const TEN_TO_19: u128 = 10_000_000_000_000_000_000;

// 2^127 / 10^19, rounded down.
const INVERSE: u128 = 17_014_118_346_046_923_173;

// The built-in alphabet of a command.
#[derive(Clone, Copy)]
pub(crate) enum BuiltIn {
    Standard,
    Alternative,
}

/// Appends the reply to `line`, and `\n`.
///
/// # Errors
///
/// Returns `Memory` if an allocation fails. A part of the reply may have been appended.
pub fn push_reply(line: &[u8], out: &mut Vec<u8>) -> Result<(), ToolFault>
    ensures { OnOk result ((reply : List ℕ) × IsReply line.now reply
        × (out.new.items ≡ out.old.items ++ (reply ++ 10 ∷ []))) }
{
    if let Some(text) = line.strip_prefix(b"enc ") {
        push_encoded(BuiltIn::Standard, text, out)
    } else if let Some(text) = line.strip_prefix(b"alt ") {
        push_encoded(BuiltIn::Alternative, text, out)
    } else if let Some(text) = line.strip_prefix(b"dec ") {
        push_decoded(BuiltIn::Standard, text, out)
    } else if let Some(text) = line.strip_prefix(b"adc ") {
        push_decoded(BuiltIn::Alternative, text, out)
    } else {
        append(b"fault: unknown command\n", out)
    }
}

// Appends bytes. An `io::Result` is larger than this one, and each call would copy it.
#[inline]
pub(crate) fn append(bytes: &[u8], out: &mut Vec<u8>) -> Result<(), ToolFault>
    ensures { OnOk result (out.new.items ≡ out.old.items ++ bytes.now) }
{
    out.write_all(bytes).map_err(|_| ToolFault::Memory)
}

fn push_encoded(alphabet: BuiltIn, text: &[u8], out: &mut Vec<u8>) -> Result<(), ToolFault>
    ensures { OnOk result ((reply : List ℕ) × IsEncodeReply (alphabet_of alphabet) text.now reply
        × (out.new.items ≡ out.old.items ++ (reply ++ 10 ∷ []))) }
{
    let Some(number) = number_of(text) else {
        return append(b"fault: not a number\n", out);
    };
    // An encoded string has at most 22 characters.
    let mut buf = [0u8; 23];
    let len = encode(alphabet, number, &mut buf);
    buf[len] = b'\n';
    append(&buf[..=len], out)
}

fn encode(alphabet: BuiltIn, number: u128, buf: &mut [u8; 23]) -> usize
    ensures within { result ≤ 22 }
    ensures text { IsCanonical (alphabet_of alphabet) (take result buf.new) number }
{
    match alphabet {
        BuiltIn::Standard => base62::encode_bytes(number, buf).unwrap(),
        BuiltIn::Alternative => base62::encode_alternative_bytes(number, buf).unwrap(),
    }
}

fn push_decoded(alphabet: BuiltIn, text: &[u8], out: &mut Vec<u8>) -> Result<(), ToolFault>
    ensures { OnOk result (out.new.items
        ≡ out.old.items ++ (decode_reply (alphabet_of alphabet) text.now ++ 10 ∷ [])) }
{
    let written = match decode(alphabet, text) {
        Ok(number) => push_number(number, out),
        Err(fault) => writeln!(out, "fault: {fault}"),
    };
    written.map_err(|_| ToolFault::Memory)
}

// Appends the number in decimal, and `\n`. A number above 64 bits goes in two parts, since each of
// its digits would take a division of 128 bits. A digit of a part within 64 bits takes one of 64.
fn push_number(number: u128, out: &mut Vec<u8>) -> io::Result<()>
    ensures { OnOk result (out.new.items ≡ out.old.items ++ (decimal number ++ 10 ∷ [])) }
{
    if number <= u128::from(u64::MAX) {
        return writeln!(out, "{number}");
    }
    let (high, low) = cut_by_19(number);
    writeln!(out, "{high}{low:019}")
}

// The quotient and the remainder by 10^19. The quotient is estimated from the upper half, and a
// quotient of 64 bits adds what is missing, since `/` of 128 bits calls the compiler's runtime.
fn cut_by_19(number: u128) -> (u128, u128)
    ensures whole { result.0 * 10 ^ 19 + result.1 ≡ number }
    ensures low { result.1 < 10 ^ 19 }
{
    let estimate = ((number >> 64) * INVERSE) >> 63;
    let remainder = number - estimate * TEN_TO_19;
    // The remainder is below 5 * 10^19, so a quarter of it fits into 64 bits. 10^19 is a multiple of
    // 4, so the quotient of the quarters, rounded down, is the same.
    let more = u128::from((remainder >> 2) as u64 / (TEN_TO_19 >> 2) as u64);
    (estimate + more, remainder - more * TEN_TO_19)
}

fn decode(alphabet: BuiltIn, text: &[u8]) -> Result<u128, DecodeError>
    ensures { result ≡ decoding (alphabet_of alphabet) text.now }
{
    match alphabet {
        BuiltIn::Standard => base62::decode(text),
        BuiltIn::Alternative => base62::decode_alternative(text),
    }
}

/// Returns the number that decimal digits represent, if it is below 2^128.
pub(crate) fn number_of(text: &[u8]) -> Option<u128>
    ensures { result ≡ (if is_number text.now then Some (decimal_value text.now) else None) }
{
    base62::laws::sums_over_places();
    // `parse` accepts a plus sign.
    if text.starts_with(b"+") {
        return None;
    }
    let Ok(digits) = str::from_utf8(text) else {
        return None;
    };
    // A `u64` has at most twenty digits, and is parsed without products of 128 bits.
    if text.len() <= 20 {
        if let Ok(number) = digits.parse::<u64>() {
            return Some(u128::from(number));
        }
    }
    digits.parse::<u128>().ok()
}
