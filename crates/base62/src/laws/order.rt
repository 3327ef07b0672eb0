//! The laws on order, and on prefixes of texts of one width.

ghost use Rattle.std.specs.Prelude.{◌≡◌, ◌+◌, ◌*◌, ◌<◌, ◌≤◌, ◌^◌, ◌↔◌, ℕ, List, length, Ok, Some, None};
ghost use Rattle.std.specs.Ordering.{nat_cmp, ordering_then};
ghost use Rattle.base62.specs.Alphabet.{IsAlphabet, AreLetters, standard};
ghost use Rattle.base62.specs.Value.{value};
ghost use Rattle.base62.specs.Canonical.{IsCanonical};
ghost use Rattle.base62.specs.Fixed.{IsFixed};
ghost use Rattle.base62.specs.Range.{BeginsWith, BeginsTextsOf, BeginsTextsBetween, IsInInterval, interval_ends, range_of};
ghost use Rattle.base62.specs.Order.{lexicographic_order, partial_order, IsNotAfter, shortlex_order, Ascends};

use crate::alphabet::Alphabet;
use crate::laws::alphabets::letters_are_distinct;

/// Over an alphabet that ascends, as the standard one does, the lexicographic order of texts of
/// letters of one length is the order of their values. Texts of w letters compare as their numbers.
/// The shortlex order of canonical texts is the order of their numbers.
#[tactic(auto, using(crate::proofs::OrderLemmas::texts_in_order))]
pub fn order_of_texts()
    ensures standard { Ascends standard }
    ensures one_length { (B : List ℕ) → IsAlphabet B → Ascends B → (a b : List ℕ)
        → AreLetters B a → AreLetters B b → length a ≡ length b
        → lexicographic_order a b ≡ nat_cmp (value B a) (value B b) }
    ensures fixed { (B : List ℕ) → IsAlphabet B → Ascends B → (w : ℕ) (a b : List ℕ) (m n : ℕ)
        → IsFixed B w a m → IsFixed B w b n → lexicographic_order a b ≡ nat_cmp m n }
    ensures not_after { (B : List ℕ) → IsAlphabet B → Ascends B → (w : ℕ) (a b : List ℕ) (m n : ℕ)
        → IsFixed B w a m → IsFixed B w b n → m ≤ n → IsNotAfter a b }
    ensures at_most { (B : List ℕ) → IsAlphabet B → Ascends B → (w : ℕ) (a b : List ℕ) (m n : ℕ)
        → IsFixed B w a m → IsFixed B w b n → IsNotAfter a b → m ≤ n }
    ensures canonical { (B : List ℕ) → IsAlphabet B → Ascends B → (a b : List ℕ) (m n : ℕ)
        → IsCanonical B a m → IsCanonical B b n → shortlex_order a b ≡ nat_cmp m n }
{}

/// Over an alphabet that ascends, two texts of `width` letters compare in lexicographic order as
/// their numbers, by `cmp` and by `<`, and two canonical texts compare in shortlex order as theirs.
#[tactic(auto, using(crate::proofs::OrderLemmas::texts_in_order))]
pub fn order_of_two(alphabet: &Alphabet, width: usize, a: &[u8], b: &[u8], m: u128, n: u128)
    ensures order { Ascends alphabet.now → IsFixed alphabet.now width a.now m
        → IsFixed alphabet.now width b.now n → lexicographic_order a.now b.now ≡ nat_cmp m n }
    ensures not_after { Ascends alphabet.now → IsFixed alphabet.now width a.now m
        → IsFixed alphabet.now width b.now n → m ≤ n → IsNotAfter a.now b.now }
    ensures at_most { Ascends alphabet.now → IsFixed alphabet.now width a.now m
        → IsFixed alphabet.now width b.now n → IsNotAfter a.now b.now → m ≤ n }
    ensures partial { Ascends alphabet.now → IsFixed alphabet.now width a.now m
        → IsFixed alphabet.now width b.now n → partial_order a.now b.now ≡ Some (nat_cmp m n) }
    ensures canonical { Ascends alphabet.now → IsCanonical alphabet.now a.now m
        → IsCanonical alphabet.now b.now n → shortlex_order a.now b.now ≡ nat_cmp m n }
{
    letters_are_distinct(alphabet);
    order_of_texts();
}

/// Two numbers `high * base + low`, whose low parts are below the base, compare by their high
/// parts, and then by their low ones. With three parts, the first two are the high one.
#[tactic(auto, using(crate::proofs::OrderLemmas::place_compares))]
pub fn order_of_parts(high: u128, low: u128, other_high: u128, other_low: u128, base: u128)
    ensures { low < base → other_low < base
        → nat_cmp (high * base + low) (other_high * base + other_low)
        ≡ ordering_then (nat_cmp high other_high) (nat_cmp low other_low) }
{}

/// Texts of w letters over any alphabet, and their prefixes, which have at most w letters. The text
/// of a number below 2^128 begins with a prefix exactly if the number is in the prefix's interval.
/// The interval has exactly the numbers from one of its ends to the other. It has no ends exactly
/// if it is empty. If the letters ascend, the texts that begin with the prefix are those from the
/// text of the one end to the text of the other.
pub fn prefixes_of_texts()
    ensures letters { (B : List ℕ) (w : ℕ) (prefix text : List ℕ) (n : ℕ) → IsFixed B w text n
        → BeginsWith prefix text → AreLetters B prefix × (length prefix ≤ w) }
    ensures begins { (B : List ℕ) → IsAlphabet B → (w : ℕ) (prefix text : List ℕ) (n : ℕ)
        → n < 2 ^ 128 → AreLetters B prefix → IsFixed B w text n
        → (BeginsWith prefix text ↔ IsInInterval B w prefix n) }
    ensures none { (B : List ℕ) → IsAlphabet B → (w : ℕ) (prefix : List ℕ) → AreLetters B prefix
        → (interval_ends B w prefix ≡ None ↔ ((n : ℕ) → IsInInterval B w prefix n → ⊥)) }
    ensures ends { (B : List ℕ) → IsAlphabet B → (w : ℕ) (prefix : List ℕ) (least greatest : ℕ)
        → AreLetters B prefix → interval_ends B w prefix ≡ Some (least, greatest)
        → (least ≤ greatest)
        × ((n : ℕ) → (IsInInterval B w prefix n ↔ ((least ≤ n) × (n ≤ greatest)))) }
    ensures between { (B : List ℕ) → IsAlphabet B → Ascends B
        → (w : ℕ) (prefix : List ℕ) (least greatest : ℕ)
        → BeginsTextsOf B w prefix least greatest → BeginsTextsBetween B w prefix least greatest }
{}

/// Over an alphabet that ascends, let `low` and `high` be the texts of `width` letters of the ends
/// of a prefix's range. A text of `width` letters whose value is below 2^128 begins with the prefix
/// exactly if it is, in lexicographic order, from `low` to `high`.
pub fn scan_of_prefix(
    alphabet: &Alphabet,
    width: usize,
    prefix: &[u8],
    ends: (u128, u128),
    low: &[u8],
    high: &[u8],
)
    ensures from { Ascends alphabet.now → range_of alphabet.now width prefix.now ≡ Ok (Some ends)
        → IsFixed alphabet.now width low.now ends.0
        → (text : List ℕ) → length text ≡ width → AreLetters alphabet.now text
        → value alphabet.now text < 2 ^ 128
        → BeginsWith prefix.now text → IsNotAfter low.now text }
    ensures to { Ascends alphabet.now → range_of alphabet.now width prefix.now ≡ Ok (Some ends)
        → IsFixed alphabet.now width high.now ends.1
        → (text : List ℕ) → length text ≡ width → AreLetters alphabet.now text
        → value alphabet.now text < 2 ^ 128
        → BeginsWith prefix.now text → IsNotAfter text high.now }
    ensures taken { Ascends alphabet.now → range_of alphabet.now width prefix.now ≡ Ok (Some ends)
        → IsFixed alphabet.now width low.now ends.0 → IsFixed alphabet.now width high.now ends.1
        → (text : List ℕ) → length text ≡ width → AreLetters alphabet.now text
        → value alphabet.now text < 2 ^ 128
        → IsNotAfter low.now text → IsNotAfter text high.now → BeginsWith prefix.now text }
{
    letters_are_distinct(alphabet);
}
