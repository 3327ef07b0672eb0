//! Numbers that display as their encoded strings.

ghost use Rattle.std.specs.Prelude.{ℕ, List, Some};
ghost use Rattle.std.specs.Str.{IsAscii};
ghost use Rattle.std.specs.Fmt.{formatter_spec, spec_width, spec_fill, spec_precision, DisplaysOnOk, DisplaysStyledOnOk};
ghost use Rattle.base62.specs.Alphabet.{standard, alternative};
ghost use Rattle.base62.specs.Canonical.{IsCanonical};
ghost use Rattle.base62.specs.Padding.{displayed};

use crate::alphabet::{Alphabet, alternative_tables, standard_tables};
use crate::number::Number;
use crate::text::Text;
use std::fmt;
use std::marker::Model;

/// The result of [`encode_fmt`]: a value that contains the encoded string, and displays as it.
#[derive(Drop)]
pub struct Fmt {
    text: Text,
}

// In contracts the value is the text that it contains. The other two types are the same but for
// their names, and display as it does.
impl Model for Fmt {
    ghost Value = { List ℕ };

    ghost view = { λ f. f.text };

    ghost invariant = { λ f. IsAscii f.text };
}

/// Writes the encoded string, padded as [`encode_fmt`] says.
impl fmt::Display for Fmt {
    ghost output = { λ text. Some text };

    ghost styled_output = { λ text options. displayed (spec_precision options) (spec_width options)
        (spec_fill options) options.align text };

    fn fmt<W: fmt::Write>(&self, f: &mut fmt::Formatter<W>) -> fmt::Result {
        pad(&self.text, f)
    }
}

/// The result of [`encode_fmt_alt`]: like [`Fmt`], but in the alternative alphabet.
#[derive(Drop)]
pub struct FmtAlternative {
    text: Text,
}

impl Model for FmtAlternative {
    ghost Value = { List ℕ };

    ghost view = { λ f. f.text };

    ghost invariant = { λ f. IsAscii f.text };
}

/// Writes the encoded string, padded as [`encode_fmt`] says.
impl fmt::Display for FmtAlternative {
    ghost output = { ⟦<Fmt as fmt::Display>⟧.output };

    ghost styled_output = { ⟦<Fmt as fmt::Display>⟧.styled_output };

    fn fmt<W: fmt::Write>(&self, f: &mut fmt::Formatter<W>) -> fmt::Result {
        pad(&self.text, f)
    }
}

/// The result of [`encode_fmt_with`]: like [`Fmt`], but in a custom alphabet.
#[derive(Drop)]
pub struct FmtWith {
    text: Text,
}

impl Model for FmtWith {
    ghost Value = { List ℕ };

    ghost view = { λ f. f.text };

    ghost invariant = { λ f. IsAscii f.text };
}

/// Writes the encoded string, padded as [`encode_fmt`] says.
impl fmt::Display for FmtWith {
    ghost output = { ⟦<Fmt as fmt::Display>⟧.output };

    ghost styled_output = { ⟦<Fmt as fmt::Display>⟧.styled_output };

    fn fmt<W: fmt::Write>(&self, f: &mut fmt::Formatter<W>) -> fmt::Result {
        pad(&self.text, f)
    }
}

// Writes a text padded, as `Display` of the three types does.
#[tactic(auto, using(crate::proofs::PaddingLemmas::pad_displays))]
fn pad<W: fmt::Write>(text: &Text, f: &mut fmt::Formatter<W>) -> fmt::Result
    requires { IsAscii text.now }
    ensures writes { DisplaysOnOk W.write_str_gives f.old result
        (⟦<Fmt as fmt::Display>⟧.output text.now) f.new }
    ensures styled { DisplaysStyledOnOk W.write_str_gives f.old result
        (⟦<Fmt as fmt::Display>⟧.styled_output text.now (formatter_spec f.old)) f.new }
{
    f.pad(text.as_str())
}

/// Returns a value that displays as the encoded string of `num`, in the standard alphabet.
///
/// The string has 1 to 22 characters. It is padded like a `str`: to the formatter's width, counted
/// in characters, with the fill, by default a space. It is left-aligned by default. If it is
/// centred, half of the padding, rounded down, precedes it. A precision truncates it as it does a
/// `str`, which is tested, not proved. Displaying returns an error only if the underlying writer
/// does. The call never fails. Neither it nor displaying allocates.
///
/// ```rust
/// println!(rt; "{}", base62::encode_fmt(1337_u64))?;     // LZ
/// println!(rt; "{:0>5}", base62::encode_fmt(1337_u64))?; // 000LZ
/// ```
#[tactic(auto, using(crate::proofs::CanonicalLemmas::ascii_texts))]
pub fn encode_fmt<T: Number>(num: T) -> Fmt
    ensures { IsCanonical standard result (T.meaning num) }
{
    Fmt {
        text: Text::over(standard_tables(), num),
    }
}

/// Like [`encode_fmt`], but uses the alternative alphabet.
///
/// ```rust
/// println!(rt; "{}", base62::encode_fmt_alt(1337_u64))?;     // lz
/// println!(rt; "{:0>5}", base62::encode_fmt_alt(1337_u64))?; // 000lz
/// ```
#[tactic(auto, using(crate::proofs::CanonicalLemmas::ascii_texts))]
pub fn encode_fmt_alt<T: Number>(num: T) -> FmtAlternative
    ensures { IsCanonical alternative result (T.meaning num) }
{
    FmtAlternative {
        text: Text::over(alternative_tables(), num),
    }
}

/// Like [`encode_fmt`], but uses a custom alphabet, which has to be ASCII.
///
/// [`Alphabet::is_ascii`] checks this.
///
/// ```rust
/// let characters = *b"23456789ABCDEFGHJKLMNPQRSTUVWXYZabcdefghijkmnpqrstuvwxyz-_.~!*";
/// let own = base62::Alphabet::from_static(characters);
/// println!(rt; "{:2>5}", base62::encode_fmt_with(&own, 1337_u64))?; // 222Pd
/// ```
#[tactic(auto, using(crate::proofs::CanonicalLemmas::ascii_texts))]
pub fn encode_fmt_with<T: Number>(alphabet: &Alphabet, num: T) -> FmtWith
    requires { IsAscii alphabet.now }
    ensures { IsCanonical alphabet.now result (T.meaning num) }
{
    FmtWith {
        text: Text::over(alphabet.as_tables(), num),
    }
}
