//! The definitions in the laws on texts.
#![tactic(auto, unfolding(crate::proofs::OnLiterals::base62_on_literals))]

ghost use Rattle.std.specs.Prelude.{◌≡◌, ◌^◌, ◌-◌, [], ◌∷◌, codes, Ok, Err};
ghost use Rattle.std.specs.List.{range_with_len};
ghost use Rattle.base62.specs.Alphabet.{standard};
ghost use Rattle.base62.specs.Case.{exchange_case};
ghost use Rattle.base62.specs.Laws.{HasNoLeadingZero, without_zeros, AgreesAtLetters, AnswerTells, number_or_overflow, one_place_on};
ghost use Rattle.base62.specs.declared.fault.DecodeError.TheVariants.{ArithmeticOverflow, EmptyInput, InvalidBase62Byte};

/// Texts with their case exchanged; the numbers are the first and the last letters of each case,
/// and the bytes beside them.
pub fn other_case_by_example()
    ensures word { exchange_case (codes "Rust-62") ≡ codes "rUST-62" }
    ensures empty { exchange_case [] ≡ [] }
    ensures capital_letters { exchange_case (64 ∷ 65 ∷ 90 ∷ 91 ∷ []) ≡ 64 ∷ 97 ∷ 122 ∷ 91 ∷ [] }
    ensures small_letters { exchange_case (96 ∷ 97 ∷ 122 ∷ 123 ∷ []) ≡ 96 ∷ 65 ∷ 90 ∷ 123 ∷ [] }
    ensures above_ascii { exchange_case (193 ∷ 225 ∷ []) ≡ 193 ∷ 225 ∷ [] }
{}

/// Leading zeros; over the bytes from 33 to 94 the zero letter is `!`.
pub fn leading_zeros_by_example()
    ensures zero { HasNoLeadingZero standard (codes "0") }
    ensures none { HasNoLeadingZero standard (codes "LZ") }
    ensures behind { HasNoLeadingZero standard (codes "10") }
    ensures own_alphabet { HasNoLeadingZero (range_with_len 33 62) (codes "01") }
    ensures empty { HasNoLeadingZero standard [] → ⊥ }
    ensures zeros_alone { HasNoLeadingZero standard (codes "00") → ⊥ }
    ensures in_front { HasNoLeadingZero standard (codes "0LZ") → ⊥ }
    ensures own_in_front { HasNoLeadingZero (range_with_len 33 62) (codes "!1") → ⊥ }
    ensures left_out { without_zeros standard (codes "00LZ") ≡ codes "LZ" }
    ensures one_left { without_zeros standard (codes "000") ≡ codes "0" }
    ensures none_left_out { without_zeros standard (codes "10") ≡ codes "10" }
    ensures none_there { without_zeros standard [] ≡ codes "0" }
    ensures own_left_out { without_zeros (range_with_len 33 62) (codes "!!01") ≡ codes "01" }
    ensures own_one_left { without_zeros (range_with_len 33 62) (codes "!!") ≡ codes "!" }
{}

/// Texts that agree at the letters of a text, and texts that do not.
pub fn agreement_by_example()
    ensures bad_replaced { AgreesAtLetters standard (codes "1!") (codes "1z") }
    ensures itself { AgreesAtLetters standard (codes "1z") (codes "1z") }
    ensures other_letter { AgreesAtLetters standard (codes "1!") (codes "2z") → ⊥ }
    ensures other_last { AgreesAtLetters standard (codes "!1") (codes "z2") → ⊥ }
    ensures longer { AgreesAtLetters standard (codes "1!") (codes "1zz") → ⊥ }
    ensures shorter { AgreesAtLetters standard (codes "1!") (codes "1") → ⊥ }
    ensures bad_kept { AgreesAtLetters standard (codes "1!") (codes "1!") → ⊥ }
{}

/// Numbers on both sides of 2^128, and results with the index of a bad byte one greater.
pub fn results_by_example()
    ensures zero { number_or_overflow 0 ≡ Ok 0 }
    ensures greatest { number_or_overflow (2 ^ 128 - 1) ≡ Ok (2 ^ 128 - 1) }
    ensures greatest_one_more { number_or_overflow (2 ^ 128) ≡ Err ArithmeticOverflow }
    ensures index_moved { one_place_on (Err (InvalidBase62Byte 33 7))
        ≡ Err (InvalidBase62Byte 33 8) }
    ensures number_kept { one_place_on (Ok 1337) ≡ Ok 1337 }
    ensures overflow_kept { one_place_on (Err ArithmeticOverflow) ≡ Err ArithmeticOverflow }
    ensures empty_kept { one_place_on (Err EmptyInput) ≡ Err EmptyInput }
{}

/// What a law says of the result for a text. It does not hold for two texts over lists that are no
/// alphabet: over no letters a byte 0 is accepted; over all bytes a shorter text has the number.
pub fn answer_tells_by_example()
    ensures zeros_and_letters { AnswerTells standard (codes "0LZ") }
    ensures no_letters { AnswerTells [] (0 ∷ []) → ⊥ }
    ensures all_bytes { AnswerTells (range_with_len 0 256) (1 ∷ 0 ∷ []) → ⊥ }
{}
