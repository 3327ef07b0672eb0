//! The results and the steps of decoding.
#![tactic(auto, unfolding(crate::proofs::OnLiterals::base62_on_literals))]

ghost use Rattle.std.specs.Prelude.{◌≡◌, ◌^◌, ◌-◌, [], ◌∷◌, replicate, codes, Ok, Err};
ghost use Rattle.std.specs.List.{range_with_len};
ghost use Rattle.base62.specs.Alphabet.{standard, alternative};
ghost use Rattle.base62.specs.Decoding.{decoding, IsFirstInvalid, NamesFirst, RefusesLarge, Decodes, DecodesCanonical};
ghost use Rattle.base62.specs.Fixed.{DecodesFixed};
ghost use Rattle.base62.specs.Steps.{decoding_steps, DecodesCounted};
ghost use Rattle.base62.specs.declared.fault.CanonicalError.TheVariants.{LeadingZero, Decode};
ghost use Rattle.base62.specs.declared.fault.DecodeError.TheVariants.{ArithmeticOverflow, EmptyInput, InvalidBase62Byte};
ghost use Rattle.base62.specs.declared.fault.FixedError.TheVariants.{WrongLength, Decode as FixedDecode};

/// The results of decoding some texts; 33 is `!`, which is not a letter.
pub fn decodings_by_example()
    ensures empty { decoding standard [] ≡ Err EmptyInput }
    ensures zeros_alone { decoding standard (codes "000") ≡ Ok 0 }
    ensures index_counts_zeros { decoding standard (codes "0!") ≡ Err (InvalidBase62Byte 33 1) }
    ensures long_before_bad { decoding standard (33 ∷ replicate 22 48) ≡ Err ArithmeticOverflow }
    ensures bad_where_short { decoding standard (33 ∷ replicate 21 48)
        ≡ Err (InvalidBase62Byte 33 0) }
    ensures bad_in_first_ten { decoding standard (codes "zzzzzzzzz!000000000000")
        ≡ Err (InvalidBase62Byte 33 9) }
    ensures overflow_before_later_bad { decoding standard (codes "zzzzzzzzzz!00000000000")
        ≡ Err ArithmeticOverflow }
    ensures greatest_first_ten { decoding standard (codes "7n42DGM5Tf!00000000000")
        ≡ Err (InvalidBase62Byte 33 10) }
    ensures first_ten_one_more { decoding standard (codes "7n42DGM5Tg!00000000000")
        ≡ Err ArithmeticOverflow }
    ensures overflow_shown_by_eleven { decoding standard (codes "7n42DGM5Tfm!0000000000")
        ≡ Err (InvalidBase62Byte 33 11) }
    ensures zero_bad_in_first_ten { decoding standard (codes "0zzzzzzzzz!000000000000")
        ≡ Err (InvalidBase62Byte 33 10) }
    ensures zero_overflow_first { decoding standard (codes "0zzzzzzzzzz!00000000000")
        ≡ Err ArithmeticOverflow }
    ensures last_bad { decoding standard (codes "7n42DGM5Tflk9n8mt7Fhc!")
        ≡ Err (InvalidBase62Byte 33 21) }
    ensures greatest { decoding standard (codes "7n42DGM5Tflk9n8mt7Fhc7") ≡ Ok (2 ^ 128 - 1) }
    ensures greatest_one_more { decoding standard (codes "7n42DGM5Tflk9n8mt7Fhc8")
        ≡ Err ArithmeticOverflow }
    ensures other_alphabet { decoding alternative (codes "lz") ≡ Ok 1337 }
{}

/// The first byte that is not a letter: 33, 48 and 63 are `!`, `0` and `?`.
pub fn first_bad_bytes_by_example()
    ensures in_front { IsFirstInvalid standard (codes "!?") 33 0 }
    ensures after_letters { IsFirstInvalid standard (codes "0!z?") 33 1 }
    ensures own_alphabet { IsFirstInvalid (range_with_len 33 62) (codes "!a") 97 1 }
    ensures later_bad { IsFirstInvalid standard (codes "0!z?") 63 3 → ⊥ }
    ensures next_bad { IsFirstInvalid standard (codes "!?") 63 1 → ⊥ }
    ensures letter { IsFirstInvalid standard (codes "0!") 48 0 → ⊥ }
    ensures letters_alone { IsFirstInvalid standard (codes "00") 48 1 → ⊥ }
    ensures other_byte { IsFirstInvalid standard (codes "0!") 63 1 → ⊥ }
    ensures behind { IsFirstInvalid standard (codes "00") 0 2 → ⊥ }
    ensures empty { IsFirstInvalid standard [] 0 0 → ⊥ }
{}

/// The steps of decoding some texts, by the cases of the result; 49 is `1`, and 33 is `!`, which is
/// no letter.
pub fn steps_by_example()
    ensures empty { decoding_steps standard [] ≡ 0 }
    ensures zeros_alone { decoding_steps standard (codes "000") ≡ 0 }
    ensures long { decoding_steps standard (replicate 23 49) ≡ 0 }
    ensures long_before_bad { decoding_steps standard (33 ∷ replicate 22 48) ≡ 0 }
    ensures bad_after_zeros { decoding_steps standard (codes "0!") ≡ 1 }
    ensures bad_tenth { decoding_steps standard (codes "zzzzzzzzz!000000000000") ≡ 10 }
    ensures overflow_first { decoding_steps standard (codes "zzzzzzzzzz!00000000000") ≡ 10 }
    ensures greatest_first_ten { decoding_steps standard (codes "7n42DGM5Tf!00000000000") ≡ 11 }
    ensures zero_before_later_bad { decoding_steps standard (codes "07n42DGM5Tf!00000000000") ≡ 11 }
    ensures last_bad { decoding_steps standard (codes "7n42DGM5Tflk9n8mt7Fhc!") ≡ 22 }
    ensures overflow { decoding_steps standard (codes "7n42DGM5Tflk9n8mt7Fhc8") ≡ 22 }
    ensures value { decoding_steps standard (codes "LygHa16AHYG") ≡ 11 }
    ensures value_after_zeros { decoding_steps standard (codes "00LZ") ≡ 2 }
    ensures other_alphabet { decoding_steps alternative (codes "ZZZZZZZZZZ!00000000000") ≡ 10 }
{}

/// The results of a counted call for `LZ`, whose two steps move a counter from 5 to 7.
pub fn counted_by_example()
    ensures moved { DecodesCounted standard (codes "LZ") 5 7 (Ok 1337) }
    ensures refused { DecodesCounted standard (codes "0!") 5 6 (Err (InvalidBase62Byte 33 1)) }
    ensures left { DecodesCounted standard (codes "LZ") 5 5 (Ok 1337) → ⊥ }
    ensures moved_less { DecodesCounted standard (codes "LZ") 5 6 (Ok 1337) → ⊥ }
    ensures moved_more { DecodesCounted standard (codes "LZ") 5 8 (Ok 1337) → ⊥ }
    ensures other_number { DecodesCounted standard (codes "LZ") 5 7 (Ok 1338) → ⊥ }
    ensures other_answer { DecodesCounted standard (codes "LZ") 5 7 (Err EmptyInput) → ⊥ }
{}

/// Results of canonical decoding for some texts, and others; 33 is `!`, which is not a letter.
pub fn decodes_canonical_by_example()
    ensures number { DecodesCanonical standard (codes "LZ") (Ok 1337) }
    ensures one_zero { DecodesCanonical standard (codes "0") (Ok 0) }
    ensures zero_in_front { DecodesCanonical standard (codes "0LZ") (Err LeadingZero) }
    ensures zeros_alone { DecodesCanonical standard (codes "00") (Err LeadingZero) }
    ensures bad_behind_zero { DecodesCanonical standard (codes "0!")
        (Err (Decode (InvalidBase62Byte 33 1))) }
    ensures empty { DecodesCanonical standard [] (Err (Decode EmptyInput)) }
    ensures accepted_zeros { DecodesCanonical standard (codes "0LZ") (Ok 1337) → ⊥ }
    ensures refused_number { DecodesCanonical standard (codes "LZ") (Err LeadingZero) → ⊥ }
    ensures refused_zero { DecodesCanonical standard (codes "0") (Err LeadingZero) → ⊥ }
    ensures other_alphabet { DecodesCanonical alternative (codes "LZ") (Ok 1337) → ⊥ }
    ensures zero_of_bad { DecodesCanonical standard (codes "0!") (Err LeadingZero) → ⊥ }
    ensures other_fault { DecodesCanonical standard [] (Err (Decode ArithmeticOverflow)) → ⊥ }
{}

/// Results of fixed decoding for some widths and texts, and others; 33 is `!`, not a letter.
pub fn decodes_fixed_by_example()
    ensures number { DecodesFixed standard 5 (codes "000LZ") (Ok 1337) }
    ensures shorter { DecodesFixed standard 5 (codes "LZ") (Err WrongLength) }
    ensures longer { DecodesFixed standard 5 (codes "0000LZ") (Err WrongLength) }
    ensures bad_byte { DecodesFixed standard 2 (codes "0!")
        (Err (FixedDecode (InvalidBase62Byte 33 1))) }
    ensures bad_shorter { DecodesFixed standard 3 (codes "0!") (Err WrongLength) }
    ensures no_width { DecodesFixed standard 0 [] (Err (FixedDecode EmptyInput)) }
    ensures accepted_shorter { DecodesFixed standard 5 (codes "LZ") (Ok 1337) → ⊥ }
    ensures accepted_longer { DecodesFixed standard 5 (codes "0000LZ") (Ok 1337) → ⊥ }
    ensures refused_number { DecodesFixed standard 5 (codes "000LZ") (Err WrongLength) → ⊥ }
    ensures other_alphabet { DecodesFixed alternative 5 (codes "000LZ") (Ok 1337) → ⊥ }
    ensures bad_byte_of_shorter { DecodesFixed standard 3 (codes "0!")
        (Err (FixedDecode (InvalidBase62Byte 33 1))) → ⊥ }
    ensures length_of_empty { DecodesFixed standard 0 [] (Err WrongLength) → ⊥ }
{}

/// Results for some texts that `Decodes` allows, and others. Over the numbers below 1000, which are
/// no alphabet, 21 of them overflow.
pub fn decodes_by_example()
    ensures number { Decodes standard (codes "LZ") (Ok 1337) }
    ensures empty { Decodes standard [] (Err EmptyInput) }
    ensures bad_byte { Decodes standard (codes "0!") (Err (InvalidBase62Byte 33 1)) }
    ensures overflow { Decodes standard (codes "7n42DGM5Tflk9n8mt7Fhc8") (Err ArithmeticOverflow) }
    ensures other_number { Decodes standard (codes "LZ") (Ok 1338) → ⊥ }
    ensures other_fault { Decodes standard (codes "0!") (Err EmptyInput) → ⊥ }
    ensures no_alphabet { Decodes (range_with_len 0 1000) (replicate 21 999)
        (Err ArithmeticOverflow) → ⊥ }
{}

/// Errors with the first byte that is not a letter, and others.
pub fn names_by_example()
    ensures first { NamesFirst standard (codes "0!?") (InvalidBase62Byte 33 1) }
    ensures no_byte { NamesFirst standard (codes "0!?") ArithmeticOverflow }
    ensures later { NamesFirst standard (codes "0!?") (InvalidBase62Byte 63 2) → ⊥ }
    ensures letter { NamesFirst standard (codes "0!?") (InvalidBase62Byte 48 0) → ⊥ }
{}

/// For letters that denote 2^128 only one result is allowed. Of a lesser number nothing is said.
pub fn large_by_example()
    ensures large { RefusesLarge standard (codes "7n42DGM5Tflk9n8mt7Fhc8")
        (Err ArithmeticOverflow) }
    ensures greatest { RefusesLarge standard (codes "7n42DGM5Tflk9n8mt7Fhc7") (Ok (2 ^ 128 - 1)) }
    ensures wrapped { RefusesLarge standard (codes "7n42DGM5Tflk9n8mt7Fhc8") (Ok 0) → ⊥ }
    ensures zeros_counted { RefusesLarge standard (codes "07n42DGM5Tflk9n8mt7Fhc8")
        (Err EmptyInput) → ⊥ }
{}
