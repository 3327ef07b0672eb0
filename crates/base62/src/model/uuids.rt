//! UUIDs.
#![tactic(auto, unfolding(crate::proofs::OnLiterals::base62_on_literals))]

ghost use Rattle.std.specs.Prelude.{◌≡◌, ◌-◌, ◌^◌, ◌++◌, ℕ, List, [], ◌∷◌, codes, replicate, Ok, Err};
ghost use Rattle.base62.specs.Alphabet.{standard};
ghost use Rattle.base62.specs.Uuid.{IsUuid, uuid_number, DecodesUuid, DecodesUuidCanonical};
ghost use Rattle.base62.specs.UuidString.{IsUuidString};
ghost use Rattle.base62.specs.declared.fault.CanonicalError.TheVariants.{LeadingZero, Decode};
ghost use Rattle.base62.specs.declared.fault.DecodeError.TheVariants.{ArithmeticOverflow, EmptyInput};

/// Sixteen bytes and their numbers, and lists that are no UUID.
pub fn uuids_by_example()
    ensures nil { uuid_number (replicate 16 0) ≡ 0 }
    ensures last_byte { uuid_number (replicate 15 0 ++ 7 ∷ []) ≡ 7 }
    ensures first_byte { uuid_number (1 ∷ replicate 15 0) ≡ 2 ^ 120 }
    ensures greatest { uuid_number (replicate 16 255) ≡ 2 ^ 128 - 1 }
    ensures bytes { IsUuid (replicate 15 0 ++ 255 ∷ []) }
    ensures one_fewer { IsUuid (replicate 15 0) → ⊥ }
    ensures one_more { IsUuid (replicate 17 0) → ⊥ }
    ensures no_byte { IsUuid (replicate 15 0 ++ 256 ∷ []) → ⊥ }
{}

/// The UUID that `LZ` decodes to, with 5 * 256 + 57 = 1337, and wrong results.
pub fn decoded_uuids_by_example()
    ensures decoded { DecodesUuid standard (codes "LZ") (Ok (replicate 14 0 ++ 5 ∷ 57 ∷ [])) }
    ensures exchanged { DecodesUuid standard (codes "LZ") (Ok (replicate 14 0 ++ 57 ∷ 5 ∷ [])) → ⊥ }
    ensures refused { DecodesUuid standard (codes "LZ") (Err EmptyInput) → ⊥ }
    ensures accepted { DecodesUuid standard [] (Ok (replicate 16 0)) → ⊥ }
{}

/// The results of canonical decoding to a UUID for `LZ`, also after a zero, and wrong results.
pub fn canonical_uuids_by_example()
    ensures decoded { DecodesUuidCanonical standard (codes "LZ")
        (Ok (replicate 14 0 ++ 5 ∷ 57 ∷ [])) }
    ensures zero_in_front { DecodesUuidCanonical standard (codes "0LZ") (Err LeadingZero) }
    ensures empty { DecodesUuidCanonical standard [] (Err (Decode EmptyInput)) }
    ensures exchanged { DecodesUuidCanonical standard (codes "LZ")
        (Ok (replicate 14 0 ++ 57 ∷ 5 ∷ [])) → ⊥ }
    ensures accepted_zeros { DecodesUuidCanonical standard (codes "0LZ")
        (Ok (replicate 14 0 ++ 5 ∷ 57 ∷ [])) → ⊥ }
    ensures refused_uuid { DecodesUuidCanonical standard (codes "LZ") (Err LeadingZero) → ⊥ }
    ensures another_fault { DecodesUuidCanonical standard [] (Err (Decode ArithmeticOverflow)) → ⊥ }
{}

/// Strings for the UUID of 16 times the byte 171, in each form, and strings for none.
pub fn uuid_strings_by_example()
    ensures digits { IsUuidString (codes "abababababababababababababababab") (replicate 16 171) }
    ensures hyphens { IsUuidString (codes "ABABABAB-abab-ABAB-abab-ABABABABABAB")
        (replicate 16 171) }
    ensures braces { IsUuidString (codes "{abababab-abab-abab-abab-abababababab}")
        (replicate 16 171) }
    ensures plain_braces { IsUuidString (codes "{abababababababababababababababab}")
        (replicate 16 171) }
    ensures urn { IsUuidString (codes "urn:uuid:abababab-abab-abab-abab-abababababab")
        (replicate 16 171) }
    ensures plain_urn { IsUuidString (codes "URN:Uuid:abababababababababababababababab")
        (replicate 16 171) }
    ensures other_uuid { IsUuidString (codes "abababababababababababababababab") (replicate 16 172)
        → ⊥ }
    ensures digit_less { (uuid : List ℕ)
        → IsUuidString (codes "abababababababababababababababa") uuid → ⊥ }
    ensures no_digit { (uuid : List ℕ)
        → IsUuidString (codes "abababababababababababababababag") uuid → ⊥ }
    ensures one_hyphen { (uuid : List ℕ)
        → IsUuidString (codes "abababab-abababababababababababab") uuid → ⊥ }
    ensures hyphen_moved { (uuid : List ℕ)
        → IsUuidString (codes "abababa-babab-abab-abab-abababababab") uuid → ⊥ }
    ensures open_brace { (uuid : List ℕ)
        → IsUuidString (codes "{abababab-abab-abab-abab-abababababab") uuid → ⊥ }
    ensures two_braces { (uuid : List ℕ)
        → IsUuidString (codes "{{abababab-abab-abab-abab-abababababab}}") uuid → ⊥ }
    ensures braces_after_urn { (uuid : List ℕ)
        → IsUuidString (codes "urn:uuid:{abababababababababababababababab}") uuid → ⊥ }
    ensures no_urn { (uuid : List ℕ)
        → IsUuidString (codes "urn-uuid:abababababababababababababababab") uuid → ⊥ }
    ensures none { (uuid : List ℕ) → IsUuidString [] uuid → ⊥ }
{}
