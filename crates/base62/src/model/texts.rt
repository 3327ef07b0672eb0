//! What texts denote, and which are canonical.
#![tactic(auto, unfolding(crate::proofs::OnLiterals::base62_on_literals))]

ghost use Rattle.std.specs.Prelude.{◌≡◌, ◌^◌, ◌-◌, [], ◌∷◌, codes};
ghost use Rattle.std.specs.List.{range_with_len};
ghost use Rattle.base62.specs.Alphabet.{AreLetters, standard, alternative};
ghost use Rattle.base62.specs.Places.{sum_over_places};
ghost use Rattle.base62.specs.Value.{value};
ghost use Rattle.base62.specs.Canonical.{Denotes, IsCanonical, CanonicalFits, DigitCount};

/// What digits denote in some bases; a digit may be the base or greater.
pub fn sums_by_example()
    ensures none { sum_over_places 62 [] ≡ 0 }
    ensures base_10 { sum_over_places 10 (1 ∷ 2 ∷ 3 ∷ []) ≡ 123 }
    ensures base_2 { sum_over_places 2 (1 ∷ 0 ∷ 1 ∷ 1 ∷ []) ≡ 11 }
    ensures base_62 { sum_over_places 62 (21 ∷ 35 ∷ []) ≡ 1337 }
    ensures in_front { sum_over_places 62 (1 ∷ 21 ∷ 35 ∷ []) ≡ 5181 }
    ensures great_digit { sum_over_places 10 (12 ∷ 3 ∷ []) ≡ 123 }
{}

/// The values of some texts.
pub fn values_by_example()
    ensures word { value standard (codes "rustlang") ≡ 189876682536016 }
    ensures other_case { value standard (codes "RUSTLANG") ≡ 96813686712946 }
    ensures other_alphabet { value alternative (codes "rustlang") ≡ 96813686712946 }
    ensures leading_zeros { value standard (codes "00LZ") ≡ 1337 }
    ensures greatest { value standard (codes "7n42DGM5Tflk9n8mt7Fhc7") ≡ 2 ^ 128 - 1 }
    ensures greatest_one_more { value standard (codes "7n42DGM5Tflk9n8mt7Fhc8") ≡ 2 ^ 128 }
    ensures own_alphabet { value (range_with_len 33 62) (codes "!6D") ≡ 1337 }
{}

/// Numbers that some texts denote, and numbers that they do not.
pub fn denoted_by_example()
    ensures leading_zero { Denotes standard (codes "0LZ") 1337 }
    ensures zeros_alone { Denotes standard (codes "00") 0 }
    ensures above { Denotes standard (codes "7n42DGM5Tflk9n8mt7Fhc8") (2 ^ 128) }
    ensures empty { Denotes standard [] 0 → ⊥ }
    ensures bad_byte { Denotes standard (codes "!") 0 → ⊥ }
    ensures last_bad { Denotes standard (codes "1!") 62 → ⊥ }
    ensures one_more { Denotes standard (codes "LZ") 1338 → ⊥ }
    ensures other_alphabet { Denotes standard (codes "lz") 1337 → ⊥ }
    ensures bad_first { AreLetters standard (codes "!1") → ⊥ }
    ensures no_bytes { AreLetters standard [] }
{}

/// The canonical texts of some numbers.
pub fn canonical_texts_by_example()
    ensures zero { IsCanonical standard (codes "0") 0 }
    ensures one_letter { IsCanonical standard (codes "z") 61 }
    ensures two_letters { IsCanonical standard (codes "10") 62 }
    ensures other_alphabet { IsCanonical alternative (codes "lz") 1337 }
    ensures greatest { IsCanonical standard (codes "7n42DGM5Tflk9n8mt7Fhc7") (2 ^ 128 - 1) }
{}

/// Texts that are not canonical: one without a letter, two with a leading zero, one with a bad
/// byte, one over the other alphabet, and one of another number.
pub fn no_canonical_texts_by_example()
    ensures empty { IsCanonical standard [] 0 → ⊥ }
    ensures leading_zero { IsCanonical standard (codes "0LZ") 1337 → ⊥ }
    ensures zeros_alone { IsCanonical standard (codes "00") 0 → ⊥ }
    ensures bad_byte { IsCanonical standard (codes "!") 0 → ⊥ }
    ensures other_alphabet { IsCanonical standard (codes "lz") 1337 → ⊥ }
    ensures one_more { IsCanonical standard (codes "LZ") 1338 → ⊥ }
{}

/// The lengths of the texts of some numbers, over the standard alphabet and over any.
pub fn lengths_by_example()
    ensures just_fits { CanonicalFits standard 1337 2 }
    ensures room_to_spare { CanonicalFits standard 1337 22 }
    ensures one_letter_fewer { CanonicalFits standard 1337 1 → ⊥ }
    ensures no_room { CanonicalFits standard 0 0 → ⊥ }
    ensures zero { DigitCount 0 1 }
    ensures one_letter { DigitCount 61 1 }
    ensures two_letters { DigitCount 62 2 }
    ensures greatest { DigitCount (2 ^ 128 - 1) 22 }
    ensures no_letter { DigitCount 0 0 → ⊥ }
    ensures too_few { DigitCount 62 1 → ⊥ }
    ensures too_many { DigitCount 62 3 → ⊥ }
    ensures greatest_too_few { DigitCount (2 ^ 128 - 1) 21 → ⊥ }
{}
