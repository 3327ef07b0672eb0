//! The laws on texts and their numbers.

ghost use Rattle.std.specs.Prelude.{◌≡◌, ◌+◌, ◌*◌, ◌<◌, ◌≤◌, ◌^◌, [], ◌∷◌, ◌++◌, ℕ, List, length, take, Result, Ok, IsOk};
ghost use Rattle.std.specs.Int.{w128, to_be_bytes};
ghost use Rattle.std.specs.String.{string_bytes};
ghost use Rattle.std.specs.declared.alloc.Global.{Global};
ghost use Rattle.std.specs.declared.string.String.{String};
ghost use Rattle.base62.specs.Alphabet.{IsAlphabet, zero_letter, standard, alternative};
ghost use Rattle.base62.specs.Places.{sum_over_places};
ghost use Rattle.base62.specs.Uuid.{IsUuid, uuid_number};
ghost use Rattle.base62.specs.UuidString.{IsUuidString, digits, hyphenated};
ghost use Rattle.base62.specs.Value.{value};
ghost use Rattle.base62.specs.Canonical.{Denotes, IsCanonical, CanonicalFits};
ghost use Rattle.base62.specs.Decoding.{decoding, DecodesCanonical};
ghost use Rattle.base62.specs.Encoding.{AnswersCanonical, EncodesInto};
ghost use Rattle.base62.specs.Case.{exchange_case};
ghost use Rattle.base62.specs.Laws.{HasNoLeadingZero, AnswerTells, number_or_overflow, one_place_on, without_zeros};
ghost use Rattle.base62.specs.declared.fault.CanonicalError.{CanonicalError};
ghost use Rattle.base62.specs.declared.fault.EncodeError.{EncodeError};

use crate::alphabet::Alphabet;
use crate::laws::alphabets::letters_are_distinct;

/// What digits denote in a base, one digit at a time. No digits denote 0. A digit before k digits
/// adds itself times base^k.
#[tactic(auto, using(crate::proofs::PlacesLemmas::one_at_a_time))]
pub fn sums_over_places()
    ensures none { (base : ℕ) → sum_over_places base [] ≡ 0 }
    ensures front { (base digit : ℕ) (digits : List ℕ)
        → sum_over_places base (digit ∷ digits)
        ≡ digit * base ^ length digits + sum_over_places base digits }
{}

/// Over any alphabet each number below 2^128 has exactly one canonical text, of 1 to 22 letters.
/// For k from 1 on, the canonical text of a number below 62^k has at most k letters. A text of
/// letters is the canonical text of its value exactly if it has one letter, or more and no leading
/// zero letter.
pub fn one_text()
    ensures exists { (B : List ℕ) → IsAlphabet B → (n : ℕ) → n < 2 ^ 128
        → (text : List ℕ) × IsCanonical B text n }
    ensures only { (B : List ℕ) → IsAlphabet B → (n : ℕ) (a b : List ℕ)
        → IsCanonical B a n → IsCanonical B b n → a ≡ b }
    ensures lengths { (B : List ℕ) → IsAlphabet B → (n : ℕ) → n < 2 ^ 128 → (text : List ℕ)
        → IsCanonical B text n → (1 ≤ length text) × (length text ≤ 22) }
    ensures within { (B : List ℕ) → IsAlphabet B → (k n : ℕ) → 0 < k → n < 62 ^ k
        → CanonicalFits B n k }
    ensures plain { (B : List ℕ) → IsAlphabet B → (text : List ℕ) (n : ℕ)
        → Denotes B text n → HasNoLeadingZero B text → IsCanonical B text n }
    ensures leading { (B : List ℕ) → IsAlphabet B → (text : List ℕ) (n : ℕ)
        → IsCanonical B text n → HasNoLeadingZero B text }
{}

/// A text without leading zeros is the only canonical text of the number that it decodes to. For
/// a literal, the prover computes both conditions: no leading zeros, and the number.
pub fn text_of_number(alphabet: &Alphabet, text: &[u8], number: u128)
    ensures { decoding alphabet.now text.now ≡ Ok number
        → without_zeros alphabet.now text.now ≡ text.now
        → (other : List ℕ) → IsCanonical alphabet.now other number → other ≡ text.now }
{
    letters_are_distinct(alphabet);
    accepted_and_refused();
    one_text();
}

/// The string that is written for a UUID is one of its strings, and no string is for two UUIDs.
#[tactic(auto, using(crate::proofs::UuidStringLemmas::written_back))]
pub fn uuid_strings()
    ensures back { (uuid : List ℕ) → IsUuid uuid → IsUuidString (hyphenated (digits uuid)) uuid }
    ensures only { (text a b : List ℕ) → IsUuidString text a → IsUuidString text b → a ≡ b }
{}

/// Over any alphabet, canonical decoding of a text returns `Ok` of a number exactly if encoding the
/// number into a buffer or a string, where it succeeds, writes this text. All of this follows from
/// the contracts of the calls alone.
pub fn canonical_round_trip()
    ensures back { (B : List ℕ) (n : ℕ) → n < 2 ^ 128 → (old new : List ℕ) (len : ℕ)
        → EncodesInto B n old new (Ok len) → (decoded : Result ℕ CanonicalError)
        → DecodesCanonical B (take len new) decoded → decoded ≡ Ok n }
    ensures written { (B : List ℕ) → IsAlphabet B → (n : ℕ) (old new text : List ℕ) (len : ℕ)
        → (decoded : Result ℕ CanonicalError) → DecodesCanonical B text decoded → decoded ≡ Ok n
        → EncodesInto B n old new (Ok len) → take len new ≡ text }
    ensures fits { (B : List ℕ) (n : ℕ) (old new text : List ℕ)
        → (decoded : Result ℕ CanonicalError) → DecodesCanonical B text decoded → decoded ≡ Ok n
        → (written : Result ℕ EncodeError) → EncodesInto B n old new written
        → length text ≤ length old → IsOk written }
    ensures string_back { (B : List ℕ) (n : ℕ) → n < 2 ^ 128 → (string : String Global)
        → AnswersCanonical B n (Ok string) → (decoded : Result ℕ CanonicalError)
        → DecodesCanonical B (string_bytes string) decoded → decoded ≡ Ok n }
    ensures string_written { (B : List ℕ) → IsAlphabet B → (n : ℕ) (text : List ℕ)
        → (decoded : Result ℕ CanonicalError) → DecodesCanonical B text decoded → decoded ≡ Ok n
        → (string : String Global) → AnswersCanonical B n (Ok string)
        → string_bytes string ≡ text }
{}

/// Over any alphabet the canonical text of a number below 2^128 decodes to the number. No text is
/// the canonical text of two numbers.
pub fn round_trip()
    ensures back { (B : List ℕ) → IsAlphabet B → (n : ℕ) → n < 2 ^ 128 → (text : List ℕ)
        → IsCanonical B text n → decoding B text ≡ Ok n }
    ensures unshared { (B text : List ℕ) (m n : ℕ)
        → IsCanonical B text m → IsCanonical B text n → m ≡ n }
{}

/// Over any alphabet a text decodes to n exactly if it denotes n, and n is below 2^128.
pub fn decoded_numbers()
    ensures decoded { (B : List ℕ) → IsAlphabet B → (text : List ℕ) (n : ℕ)
        → Denotes B text n → n < 2 ^ 128 → decoding B text ≡ Ok n }
    ensures denotes { (B : List ℕ) → IsAlphabet B → (text : List ℕ) (n : ℕ)
        → decoding B text ≡ Ok n → Denotes B text n }
    ensures bounded { (B : List ℕ) → IsAlphabet B → (text : List ℕ) (n : ℕ)
        → decoding B text ≡ Ok n → n < 2 ^ 128 }
{}

/// Two canonical texts are the same exactly if their numbers are.
pub fn texts_of_two(alphabet: &Alphabet, first: &[u8], second: &[u8], m: u128, n: u128)
    ensures texts { IsCanonical alphabet.now first.now m → IsCanonical alphabet.now second.now n
        → m ≡ n → first.now ≡ second.now }
    ensures numbers { IsCanonical alphabet.now first.now m → IsCanonical alphabet.now second.now n
        → first.now ≡ second.now → m ≡ n }
{
    letters_are_distinct(alphabet);
}

/// Over any alphabet decoding accepts exactly the nonempty texts of letters whose value is below
/// 2^128. The canonical text of that value is the text without its leading zeros. If an error has
/// a byte, it is the first that is not a letter. If a text overflows, and a letter follows its
/// leading zeros, it denotes 2^128 or more whatever letters replace its bad bytes.
pub fn accepted_and_refused()
    ensures { (B : List ℕ) → IsAlphabet B → (text : List ℕ) → AnswerTells B text }
{}

/// Like [`accepted_and_refused`], but for one text.
pub fn answer_for(alphabet: &Alphabet, text: &[u8])
    ensures { AnswerTells alphabet.now text.now }
{
    letters_are_distinct(alphabet);
}

/// Over any alphabet let a text decode to m, and another, of k letters, to n. Their concatenation
/// decodes to m * 62^k + n, or overflows if that is 2^128 or more.
pub fn concatenation()
    ensures { (B : List ℕ) → IsAlphabet B → (a b : List ℕ) (m n : ℕ)
        → decoding B a ≡ Ok m → decoding B b ≡ Ok n
        → decoding B (a ++ b) ≡ number_or_overflow (m * 62 ^ length b + n) }
{}

/// Like [`concatenation`], but for two texts and their numbers.
pub fn concatenation_of_two(alphabet: &Alphabet, first: &[u8], second: &[u8], m: u128, n: u128)
    ensures { decoding alphabet.now first.now ≡ Ok m → decoding alphabet.now second.now ≡ Ok n
        → decoding alphabet.now (first.now ++ second.now)
        ≡ number_or_overflow (m * 62 ^ length second.now + n) }
{
    letters_are_distinct(alphabet);
    concatenation();
}

/// Over any alphabet a zero letter before a nonempty text changes nothing but the index of a bad
/// byte.
pub fn zero_in_front()
    ensures { (B : List ℕ) → IsAlphabet B → (text : List ℕ) → 0 < length text
        → decoding B (zero_letter B ∷ text) ≡ one_place_on (decoding B text) }
{}

/// The alternative alphabet is the standard one with the case of each letter exchanged. Its
/// canonical texts are those of the standard one with their case exchanged. The result of decoding
/// a text over the alternative alphabet is that of decoding the text with its case exchanged over
/// the standard one, errors included.
#[tactic(auto, unfolding(crate::specs::Alphabet::standard, crate::specs::Alphabet::alternative, crate::specs::Case::other_case))]
pub fn exchange_of_case()
    ensures alphabets { exchange_case standard ≡ alternative }
    ensures to_alternative { (text : List ℕ) (n : ℕ)
        → IsCanonical standard text n → IsCanonical alternative (exchange_case text) n }
    ensures from_alternative { (text : List ℕ) (n : ℕ)
        → IsCanonical alternative (exchange_case text) n → IsCanonical standard text n }
    ensures to_standard { (text : List ℕ) (n : ℕ)
        → IsCanonical alternative text n → IsCanonical standard (exchange_case text) n }
    ensures decoded { (text : List ℕ)
        → decoding alternative text ≡ decoding standard (exchange_case text) }
{}

/// Like [`exchange_of_case`], but for one canonical text and its number.
pub fn exchange_of_text(text: &[u8], n: u128)
    ensures to_alternative { IsCanonical standard text.now n
        → IsCanonical alternative (exchange_case text.now) n }
    ensures from_alternative { IsCanonical alternative (exchange_case text.now) n
        → IsCanonical standard text.now n }
    ensures to_standard { IsCanonical alternative text.now n
        → IsCanonical standard (exchange_case text.now) n }
{
    exchange_of_case();
}

/// The number of a UUID is below 2^128.
pub fn numbers_of_uuids()
    ensures { (uuid : List ℕ) → IsUuid uuid → uuid_number uuid < 2 ^ 128 }
{}

/// Two UUIDs are the same if their numbers are.
pub fn uuids_of_two(a: [u8; 16], b: [u8; 16])
    ensures { uuid_number a ≡ uuid_number b → a ≡ b }
{}

/// The big-endian bytes of a number are the only UUID of the number.
pub fn uuid_of_number(number: u128)
    ensures number { uuid_number (to_be_bytes w128 number) ≡ number }
    ensures only { (uuid : List ℕ) → IsUuid uuid → uuid_number uuid ≡ number
        → to_be_bytes w128 number ≡ uuid }
{}
