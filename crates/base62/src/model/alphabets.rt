//! Alphabets, their digits, and repeated bytes.
#![tactic(auto, unfolding(crate::proofs::OnLiterals::base62_on_literals))]

ghost use Rattle.std.specs.Prelude.{◌≡◌, ◌++◌, [], ◌∷◌, replicate, codes, true, false, Ok, Err, Some, None};
ghost use Rattle.std.specs.List.{range_with_len};
ghost use Rattle.base62.specs.Alphabet.{IsAlphabet, IsRepeated, RepeatsFirst, is_alphabet, is_ascii, digit_of, is_letter, standard, alternative};
ghost use Rattle.base62.specs.Decoding.{decoding};
ghost use Rattle.base62.specs.declared.fault.DecodeError.TheVariants.{InvalidBase62Byte};

/// Other alphabets than the built-in ones: one whose zero letter is `a`, with `0` for digit 61; the
/// bytes from 194 to 255, of which none is ASCII; and those from 33 to 94.
pub fn alphabets_by_example()
    ensures small_letters_first { IsAlphabet
        (codes "abcdefghijklmnopqrstuvwxyzABCDEFGHIJKLMNOPQRSTUVWXYZ1234567890") }
    ensures leading_zeros { decoding
        (codes "abcdefghijklmnopqrstuvwxyzABCDEFGHIJKLMNOPQRSTUVWXYZ1234567890") (codes "aa0")
        ≡ Ok 61 }
    ensures above_ascii { IsAlphabet (range_with_len 194 62) }
    ensures above_ascii_decoded { decoding (range_with_len 194 62) (194 ∷ 215 ∷ 229 ∷ [])
        ≡ Ok 1337 }
    ensures above_ascii_refused { decoding (range_with_len 194 62) (codes "0")
        ≡ Err (InvalidBase62Byte 48 0) }
    ensures from_33 { IsAlphabet (range_with_len 33 62) }
    ensures from_33_decoded { decoding (range_with_len 33 62) (codes "!!6D") ≡ Ok 1337 }
{}

/// Lists that are not an alphabet: 61 and 63 distinct bytes; 62 bytes of which two are equal, at
/// several places; and 62 numbers, of which the last is 256 and no byte.
pub fn no_alphabets_by_example()
    ensures one_fewer { IsAlphabet (range_with_len 33 61) → ⊥ }
    ensures one_more { IsAlphabet (range_with_len 33 63) → ⊥ }
    ensures first_two { IsAlphabet (33 ∷ range_with_len 33 61) → ⊥ }
    ensures last_two { IsAlphabet (range_with_len 33 61 ++ 93 ∷ []) → ⊥ }
    ensures first_and_last { IsAlphabet (range_with_len 33 61 ++ 33 ∷ []) → ⊥ }
    ensures no_byte { IsAlphabet (range_with_len 195 62) → ⊥ }
{}

/// The results of the tests of literal letters.
pub fn letters_tested_by_example()
    ensures from_33 { is_alphabet (range_with_len 33 62) ≡ true }
    ensures one_fewer { is_alphabet (range_with_len 33 61) ≡ false }
    ensures one_more { is_alphabet (range_with_len 33 63) ≡ false }
    ensures first_two { is_alphabet (33 ∷ range_with_len 33 61) ≡ false }
    ensures first_and_last { is_alphabet (range_with_len 33 61 ++ 33 ∷ []) ≡ false }
    ensures no_byte { is_alphabet (range_with_len 195 62) ≡ false }
    ensures up_to_127 { is_ascii (range_with_len 66 62) ≡ true }
    ensures up_to_128 { is_ascii (range_with_len 67 62) ≡ false }
    ensures first_above { is_ascii (128 ∷ range_with_len 66 61) ≡ false }
{}

/// The digits of some bytes: `0`, `Z` and `z` are 48, 90 and 122, and 33 is `!`.
pub fn digits_by_example()
    ensures first { digit_of standard 48 ≡ Some 0 }
    ensures last { digit_of standard 122 ≡ Some 61 }
    ensures other_alphabet { digit_of alternative 90 ≡ Some 61 }
    ensures none { digit_of standard 33 ≡ None }
    ensures first_place { digit_of (replicate 62 97) 97 ≡ Some 0 }
    ensures no_letter { is_letter standard 33 ≡ false }
{}

/// Bytes that are also at an earlier index, and the first of them: 97 to 99 are `a` to `c`, and 49
/// is `1`.
pub fn repeats_by_example()
    ensures second_place { IsRepeated (codes "aba") 2 }
    ensures first_place { IsRepeated (codes "aba") 0 → ⊥ }
    ensures one_place { IsRepeated (codes "aba") 1 → ⊥ }
    ensures one_byte { RepeatsFirst (replicate 62 97) 97 1 }
    ensures two_bytes { RepeatsFirst
        (codes "012140678ABCDEFGHIJKLMNOPQRSTUVWXYZabcdefghijklmnopqrstuvwxyz9") 49 3 }
    ensures last { RepeatsFirst (codes "abca") 97 3 }
    ensures none { RepeatsFirst (codes "abc") 99 2 → ⊥ }
    ensures earlier_place { RepeatsFirst (codes "aba") 97 0 → ⊥ }
    ensures other_byte { RepeatsFirst (codes "aba") 98 2 → ⊥ }
    ensures next_repeat { RepeatsFirst (codes "abab") 98 3 → ⊥ }
    ensures later_repeat { RepeatsFirst (codes "aabb") 98 3 → ⊥ }
    ensures same_byte_again { RepeatsFirst (codes "aaa") 97 2 → ⊥ }
    ensures behind { RepeatsFirst (codes "abc") 0 4 → ⊥ }
{}
