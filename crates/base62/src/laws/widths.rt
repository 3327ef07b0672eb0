//! The laws on texts of one width, and on padding.

ghost use Rattle.std.specs.Prelude.{◌≡◌, ◌+◌, ◌-◌, ◌<◌, ◌≤◌, ◌^◌, ◌↔◌, ◌++◌, ℕ, List, length, replicate, Result, Ok, Some, IsOk};
ghost use Rattle.std.specs.Str.{IsAscii};
ghost use Rattle.std.specs.declared.fmt.Alignment.TheVariants.{Right};
ghost use Rattle.base62.specs.Alphabet.{IsAlphabet, AreLetters, zero_letter, standard, alternative};
ghost use Rattle.base62.specs.Canonical.{Denotes, IsCanonical, DigitCount};
ghost use Rattle.base62.specs.Decoding.{decoding};
ghost use Rattle.base62.specs.Encoding.{FillsPlaces};
ghost use Rattle.base62.specs.Fixed.{IsFixed, DecodesFixed};
ghost use Rattle.base62.specs.Key.{IsKey, DecodesKey};
ghost use Rattle.base62.specs.Padding.{padded_to};
ghost use Rattle.base62.specs.declared.fault.EncodeError.{EncodeError};
ghost use Rattle.base62.specs.declared.fault.FixedError.{FixedError};

use crate::alphabet::Alphabet;
use crate::laws::alphabets::letters_are_distinct;

/// For k from 1 on, a number below 62^k has at most k letters: `digit_count` returns at most k, and
/// the canonical text over any alphabet has at most that length.
pub fn width_of_number(n: u128, k: usize)
    ensures count { 0 < k → n < 62 ^ k → (count : ℕ) → DigitCount n count → count ≤ k }
    ensures length { 0 < k → n < 62 ^ k → (B text : List ℕ) → IsAlphabet B → IsCanonical B text n
        → length text ≤ k }
{}

/// Over any alphabet, for w from 1 on, a number has a text of exactly w letters if and only if it
/// is below 62^w, and it has only one. The text decodes to the number, if that is below 2^128. A
/// shorter text, padded with leading zero letters to w letters, is the number's text of w letters.
/// Keys are these texts for w = 22.
#[tactic(auto, using(crate::proofs::WidthLemmas::one_fixed, crate::proofs::WidthLemmas::fixed_decodes))]
pub fn fixed_widths()
    ensures exists { (B : List ℕ) → IsAlphabet B → (w n : ℕ) → 0 < w
        → (((text : List ℕ) × IsFixed B w text n) ↔ (n < 62 ^ w)) }
    ensures only { (B : List ℕ) → IsAlphabet B → (w n : ℕ) (a b : List ℕ)
        → IsFixed B w a n → IsFixed B w b n → a ≡ b }
    ensures decoded { (B : List ℕ) → IsAlphabet B → (w n : ℕ) → n < 2 ^ 128 → (text : List ℕ)
        → IsFixed B w text n → decoding B text ≡ Ok n }
    ensures filled_up { (B : List ℕ) → IsAlphabet B → (w n : ℕ) (text : List ℕ)
        → Denotes B text n → length text ≤ w
        → IsFixed B w (replicate (w - length text) (zero_letter B) ++ text) n }
{}

/// If a text of at most `width` letters decodes to a number, the number is below 62^width. If it
/// has exactly `width` letters, it is the number's text of this width. The text of this width of a
/// number below 2^128 decodes to the number. A text that denotes a number, padded with leading zero
/// letters to this width, is the number's text of this width.
pub fn width_of_text(alphabet: &Alphabet, width: usize, text: &[u8])
    ensures small { (n : ℕ) → decoding alphabet.now text.now ≡ Ok n → length text.now ≤ width
        → n < 62 ^ width }
    ensures fixed { (n : ℕ) → decoding alphabet.now text.now ≡ Ok n → length text.now ≡ width
        → IsFixed alphabet.now width text.now n }
    ensures number { (n : ℕ) → n < 2 ^ 128 → IsFixed alphabet.now width text.now n
        → decoding alphabet.now text.now ≡ Ok n }
    ensures filled_up { (n : ℕ) → Denotes alphabet.now text.now n → length text.now ≤ width
        → IsFixed alphabet.now width
        (replicate (width - length text.now) (zero_letter alphabet.now) ++ text.now) n }
{
    letters_are_distinct(alphabet);
}

/// Over any alphabet, fixed decoding of a text returns `Ok` of a number exactly if encoding the
/// number into as many bytes succeeds and writes this text. A key decodes to a number exactly if it
/// is the number's key. All of this follows from the contracts of the calls alone.
pub fn fixed_round_trip()
    ensures back { (B : List ℕ) → IsAlphabet B → (n : ℕ) → n < 2 ^ 128 → (old text : List ℕ)
        → (written : Result (Unit {0}) EncodeError) → FillsPlaces B n old text written
        → IsOk written
        → (decoded : Result ℕ FixedError) → DecodesFixed B (length old) text decoded
        → decoded ≡ Ok n }
    ensures written { (B : List ℕ) → IsAlphabet B → (n : ℕ) (old new text : List ℕ)
        → (decoded : Result ℕ FixedError) → DecodesFixed B (length old) text decoded
        → decoded ≡ Ok n
        → (written : Result (Unit {0}) EncodeError) → FillsPlaces B n old new written
        → IsOk written × (new ≡ text) }
    ensures key_back { (B : List ℕ) (n : ℕ) → n < 2 ^ 128 → (key : List ℕ) → IsKey B key n
        → (decoded : Result ℕ FixedError) → DecodesKey B key decoded → decoded ≡ Ok n }
    ensures key_written { (B : List ℕ) → IsAlphabet B → (n : ℕ) (key text : List ℕ)
        → (decoded : Result ℕ FixedError) → DecodesKey B text decoded → decoded ≡ Ok n
        → IsKey B key n → key ≡ text }
{}

/// Two texts of `width` letters are the same exactly if their numbers are.
pub fn fixed_texts_of_two(
    alphabet: &Alphabet,
    width: usize,
    first: &[u8],
    second: &[u8],
    m: u128,
    n: u128,
)
    ensures texts { IsFixed alphabet.now width first.now m → IsFixed alphabet.now width second.now n
        → m ≡ n → first.now ≡ second.now }
    ensures numbers { IsFixed alphabet.now width first.now m
        → IsFixed alphabet.now width second.now n → first.now ≡ second.now → m ≡ n }
{
    letters_are_distinct(alphabet);
}

/// The built-in alphabets are ASCII. Over an alphabet of ASCII letters each text of letters is
/// ASCII. An ASCII text that is right-aligned to a width with an ASCII fill has one fill before it
/// for each byte that it is shorter than the width.
#[tactic(auto, using(crate::proofs::AlphabetLemmas::standard_is_ascii, crate::proofs::AlphabetLemmas::alternative_is_ascii, crate::proofs::PaddingLemmas::padded_right))]
pub fn texts_of_ascii()
    ensures standard { IsAscii standard }
    ensures alternative { IsAscii alternative }
    ensures letters { (B text : List ℕ) → IsAscii B → AreLetters B text → IsAscii text }
    ensures right { (width fill : ℕ) (text : List ℕ) → IsAscii text → fill < 128
        → padded_to (Some width) fill Right text ≡ replicate (width - length text) fill ++ text }
{}
