//! Numbers in padded columns, in strings and in streams.

ghost use Rattle.std.specs.Prelude.{◌≡◌, ◌+◌, ◌≤◌, ◌∷◌, ◌++◌, [], List, ℕ, IfOk, OnOk, OnErr};
ghost use Rattle.std.specs.Io.KnownBytes.{Appends};
ghost use Rattle.std.specs.String.{string_bytes, string_capacity, string_len};
ghost use Rattle.base62.specs.Alphabet.{standard};
ghost use Rattle.base62.specs.Canonical.{IsCanonical};
ghost use Rattle.base62.specs.Key.{IsKey};

use std::alloc::{AllocError, Global};
use std::io::{self, Write};

/// Formats a number in a column of 22 characters, with leading zeros. This is its key.
#[tactic(auto, unfolding(base62::specs::Padding::displayed))]
pub fn key_column(alloc: Global, number: u128) -> Result<String, AllocError>
    ensures { IfOk result (λ column. IsKey standard (string_bytes column) number) }
{
    base62::laws::built_in_alphabets();
    base62::laws::texts_of_ascii();
    base62::laws::fixed_widths();
    base62::laws::one_text();
    format!(in alloc; "{:0>22}", base62::encode_fmt(number))
}

/// Appends the strings of two numbers with a `-` between them, or leaves `pair` unchanged.
pub fn append_pair(pair: &mut String, first: u128, second: u128) -> Result<(), AllocError>
    ensures ok { OnOk result
        ((a b : List ℕ) × IsCanonical standard a first × IsCanonical standard b second
        × (string_bytes pair.new ≡ string_bytes pair.old ++ (a ++ 45 ∷ b))) }
    ensures err { OnErr result (string_bytes pair.new ≡ string_bytes pair.old) }
{
    pair.reserve(45)?;
    // The capacity is enough for both now.
    base62::encode_buf(first, pair).unwrap();
    pair.push_str("-").unwrap();
    base62::encode_buf(second, pair).unwrap();
    Ok(())
}

/// Writes the string of a number and a line feed.
pub fn write_line<W: Write>(number: u128, writer: &mut W) -> io::Result<()>
    ensures { OnOk result ((text : List ℕ) × IsCanonical standard text number
        × Appends (W.contents writer.old) (W.contents writer.new) (text ++ 10 ∷ [])) }
{
    base62::encode_io(number, writer)?;
    writer.write_all(b"\n")
}
