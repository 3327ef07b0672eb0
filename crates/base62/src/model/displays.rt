//! What `Display` writes for encoded strings, by width, fill and alignment, and for errors.
#![tactic(auto, unfolding(crate::proofs::OnLiterals::base62_on_literals))]

ghost use Rattle.std.specs.Prelude.{◌≡◌, ◌++◌, [], ◌∷◌, replicate, codes, Some, None};
ghost use Rattle.std.specs.declared.fmt.Alignment.TheVariants.{Left, Right, Center};
ghost use Rattle.base62.specs.Padding.{padded_to, displayed};
ghost use Rattle.base62.specs.declared.fault.AlphabetError.TheVariants.{Repeated};
ghost use Rattle.base62.specs.declared.fault.CanonicalError.TheVariants.{LeadingZero};
ghost use Rattle.base62.specs.declared.fault.DecodeError.TheVariants.{ArithmeticOverflow, EmptyInput, InvalidBase62Byte};
ghost use Rattle.base62.specs.declared.fault.EncodeError.TheVariants.{BufferTooSmall};
ghost use Rattle.base62.specs.declared.fault.FixedError.TheVariants.{WrongLength};
ghost use Rattle.base62.specs.declared.fault.UuidError.TheVariants.{InvalidUuid};

use crate::{fault, show};
use std::fmt;

/// Texts padded to a width; 32 is a space, 48 is `0`, 42 is `*`, and 233 is `é`, whose bytes are
/// 195 and 169.
pub fn paddings_by_example()
    ensures no_width { padded_to None 32 Right (codes "LZ") ≡ codes "LZ" }
    ensures narrow { padded_to (Some 1) 32 Right (codes "LZ") ≡ codes "LZ" }
    ensures no_room { padded_to (Some 0) 32 Center (codes "LZ") ≡ codes "LZ" }
    ensures just_wide { padded_to (Some 2) 32 Right (codes "LZ") ≡ codes "LZ" }
    ensures one_wider { padded_to (Some 3) 32 Right (codes "LZ") ≡ codes " LZ" }
    ensures left { padded_to (Some 5) 32 Left (codes "LZ") ≡ codes "LZ   " }
    ensures right { padded_to (Some 22) 48 Right (codes "LZ") ≡ replicate 20 48 ++ codes "LZ" }
    ensures centred { padded_to (Some 6) 42 Center (codes "LZ") ≡ codes "**LZ**" }
    ensures centred_odd { padded_to (Some 7) 42 Center (codes "LZ") ≡ codes "**LZ***" }
    ensures centred_one { padded_to (Some 3) 42 Center (codes "LZ") ≡ codes "LZ*" }
    ensures wide { padded_to (Some 1000) 32 Right (codes "LZ") ≡ replicate 998 32 ++ codes "LZ" }
    ensures two_bytes { padded_to (Some 4) 233 Right (codes "LZ")
        ≡ 195 ∷ 169 ∷ 195 ∷ 169 ∷ codes "LZ" }
    ensures two_bytes_left { padded_to (Some 3) 233 Left (codes "LZ")
        ≡ codes "LZ" ++ 195 ∷ 169 ∷ [] }
    ensures two_bytes_centred { padded_to (Some 4) 233 Center (codes "LZ")
        ≡ 195 ∷ 169 ∷ codes "LZ" ++ 195 ∷ 169 ∷ [] }
    ensures wide_text { padded_to (Some 3) 32 Left (195 ∷ 169 ∷ []) ≡ 195 ∷ 169 ∷ codes "  " }
    ensures no_text { padded_to (Some 2) 32 Left [] ≡ codes "  " }
{}

/// What `Display` of each type writes for `LZ` without options.
pub fn plain_displays_by_example()
    ensures standard { ⟦<show::Fmt as fmt::Display>⟧.output (codes "LZ") ≡ Some (codes "LZ") }
    ensures alternative { ⟦<show::FmtAlternative as fmt::Display>⟧.output (codes "LZ")
        ≡ Some (codes "LZ") }
    ensures custom { ⟦<show::FmtWith as fmt::Display>⟧.output (codes "LZ") ≡ Some (codes "LZ") }
{}

/// What `Display` writes for errors with any options, such as `{:.3}` and `{:>100}`: the message.
pub fn faults_by_example()
    ensures overflow { (options : _)
        → ⟦<fault::DecodeError as fmt::Display>⟧.styled_output ArithmeticOverflow options
        ≡ Some (codes "Decoded number cannot fit into a `u128`") }
    ensures empty { (options : _)
        → ⟦<fault::DecodeError as fmt::Display>⟧.styled_output EmptyInput options
        ≡ Some (codes "Encoded input is an empty string") }
    ensures bad_byte { (options : _)
        → ⟦<fault::DecodeError as fmt::Display>⟧.styled_output (InvalidBase62Byte 33 7) options
        ≡ Some (codes "Encoded input contains the invalid byte b'!' at index 7") }
    ensures leading_zero { (options : _)
        → ⟦<fault::CanonicalError as fmt::Display>⟧.styled_output LeadingZero options
        ≡ Some (codes "Encoded input has a leading zero") }
    ensures wrong_length { (options : _)
        → ⟦<fault::FixedError as fmt::Display>⟧.styled_output WrongLength options
        ≡ Some (codes "Encoded input does not have the given width") }
    ensures small_buffer { (options : _)
        → ⟦<fault::EncodeError as fmt::Display>⟧.styled_output BufferTooSmall options
        ≡ Some (codes "Buffer too small to encode the number") }
    ensures invalid_uuid { (options : _)
        → ⟦<fault::UuidError as fmt::Display>⟧.styled_output InvalidUuid options
        ≡ Some (codes "Not a UUID") }
    ensures repeated { (options : _)
        → ⟦<fault::AlphabetError as fmt::Display>⟧.styled_output (Repeated 33 7) options
        ≡ Some (codes "Alphabet repeats the byte b'!' at index 7") }
{}

/// What `Display` writes for `LZ`, by the formatter's number for the alignment; 32 is a space.
pub fn displays_by_example()
    ensures plain { displayed None None 32 0 (codes "LZ") ≡ Some (codes "LZ") }
    ensures no_alignment { displayed None (Some 5) 32 0 (codes "LZ") ≡ Some (codes "LZ   ") }
    ensures stands_left { displayed None (Some 5) 32 1 (codes "LZ") ≡ Some (codes "LZ   ") }
    ensures stands_centred { displayed None (Some 5) 32 2 (codes "LZ") ≡ Some (codes " LZ  ") }
    ensures stands_right { displayed None (Some 5) 32 3 (codes "LZ") ≡ Some (codes "   LZ") }
    ensures other_fill { displayed None (Some 4) 42 3 (codes "LZ") ≡ Some (codes "**LZ") }
    ensures wide { displayed None (Some 1000) 32 3 (codes "LZ")
        ≡ Some (replicate 998 32 ++ codes "LZ") }
    ensures two_bytes { displayed None (Some 4) 233 2 (codes "LZ")
        ≡ Some (195 ∷ 169 ∷ codes "LZ" ++ 195 ∷ 169 ∷ []) }
    ensures beyond { displayed None (Some 5) 32 4 (codes "LZ") ≡ None }
    ensures beyond_without_width { displayed None None 32 4 (codes "LZ") ≡ None }
    ensures precision { displayed (Some 1) None 32 0 (codes "LZ") ≡ None }
    ensures precision_of_none { displayed (Some 0) None 32 0 (codes "LZ") ≡ None }
    ensures precision_and_width { displayed (Some 2) (Some 5) 32 3 (codes "LZ") ≡ None }
{}
