//! Encoding to buffers, strings and writers, and its steps.
#![tactic(auto, unfolding(crate::proofs::OnLiterals::base62_on_literals))]

ghost use Rattle.std.specs.Prelude.{◌≡◌, ◌+◌, ◌<◌, ◌≤◌, ◌^◌, replicate, codes, Ok, Err, Some, None};
ghost use Rattle.std.specs.String.{string_bytes, string_len, string_capacity};
ghost use Rattle.std.specs.declared.alloc.AllocError.{AllocError};
ghost use Rattle.std.specs.declared.alloc.Global.{Global};
ghost use Rattle.std.specs.declared.string.String.{String};
ghost use Rattle.base62.specs.Alphabet.{standard};
ghost use Rattle.base62.specs.Encoding.{EncodesInto, AnswersCanonical, AppendsTo, WritesCanonical};
ghost use Rattle.base62.specs.Steps.{encoding_steps, EncodesCounted};
ghost use Rattle.base62.specs.declared.fault.EncodeError.TheVariants.{BufferTooSmall};

/// Buffers before and after 1337 is encoded, whose text is `LZ`; 46 is a full stop. A number of
/// 2^128 or more has a text too, which does not decode to it.
pub fn buffers_by_example()
    ensures longer { EncodesInto standard 1337 (codes "...") (codes "LZ.") (Ok 2) }
    ensures just_fits { EncodesInto standard 1337 (codes "..") (codes "LZ") (Ok 2) }
    ensures refused { EncodesInto standard 1337 (codes ".") (codes ".") (Err BufferTooSmall) }
    ensures refused_with_room { EncodesInto standard 1337 (codes "..") (codes "..")
        (Err BufferTooSmall) → ⊥ }
    ensures answered_without_room { EncodesInto standard 1337 (codes ".") (codes "LZ") (Ok 2) → ⊥ }
    ensures leading_zero { EncodesInto standard 1337 (codes "...") (codes "0LZ") (Ok 3) → ⊥ }
    ensures length_too_great { EncodesInto standard 1337 (codes "...") (codes "LZ.") (Ok 3) → ⊥ }
    ensures length_too_small { EncodesInto standard 1337 (codes "...") (codes "LZ.") (Ok 1) → ⊥ }
    ensures length_of_none { EncodesInto standard 0 (codes "...") (codes "...") (Ok 0) → ⊥ }
    ensures length_beyond { EncodesInto standard 1337 (codes "...") (codes "LZ") (Ok 3) → ⊥ }
    ensures other_text { EncodesInto standard 1337 (codes "...") (codes "lz.") (Ok 2) → ⊥ }
    ensures other_changed { EncodesInto standard 1337 (codes "...") (codes "LZ!") (Ok 2) → ⊥ }
    ensures other_lost { EncodesInto standard 1337 (codes "...") (codes "LZ") (Ok 2) → ⊥ }
    ensures refused_changed { EncodesInto standard 1337 (codes ".") (codes "L")
        (Err BufferTooSmall) → ⊥ }
    ensures not_read_back { EncodesInto standard (2 ^ 128) (replicate 22 46)
        (codes "7n42DGM5Tflk9n8mt7Fhc8") (Ok 22) → ⊥ }
    ensures refused_22_bytes { EncodesInto standard (62 ^ 22) (replicate 22 46) (replicate 22 46)
        (Err BufferTooSmall) → ⊥ }
{}

/// Strings that are allowed as the result for 1337, and others.
pub fn strings_by_example()
    ensures text { (text : String Global) → string_bytes text ≡ codes "LZ"
        → AnswersCanonical standard 1337 (Ok text) }
    ensures no_memory { (e : AllocError) → AnswersCanonical standard 1337 (Err e) }
    ensures leading_zero { (text : String Global) → string_bytes text ≡ codes "0LZ"
        → AnswersCanonical standard 1337 (Ok text) → ⊥ }
    ensures empty { (text : String Global) → string_bytes text ≡ codes ""
        → AnswersCanonical standard 0 (Ok text) → ⊥ }
    ensures other_text { (text : String Global) → string_bytes text ≡ codes "lz"
        → AnswersCanonical standard 1337 (Ok text) → ⊥ }
    ensures not_read_back { (text : String Global)
        → string_bytes text ≡ codes "7n42DGM5Tflk9n8mt7Fhc8"
        → AnswersCanonical standard (2 ^ 128) (Ok text) → ⊥ }
{}

/// The string `> ` before and after 1337 is appended.
pub fn appended_by_example()
    ensures text { (old new : String Global) → string_bytes old ≡ codes "> "
        → string_bytes new ≡ codes "> LZ"
        → string_capacity old ≤ string_capacity new → AppendsTo standard 1337 old new (Ok tt) }
    ensures refused { (old : String Global) (e : AllocError) → string_bytes old ≡ codes "> "
        → string_capacity old ≡ 3 → AppendsTo standard 1337 old old (Err e) }
    ensures earlier_lost { (old new : String Global) → string_bytes old ≡ codes "> "
        → string_bytes new ≡ codes "LZ" → AppendsTo standard 1337 old new (Ok tt) → ⊥ }
    ensures leading_zero { (old new : String Global) → string_bytes old ≡ codes "> "
        → string_bytes new ≡ codes "> 0LZ" → AppendsTo standard 1337 old new (Ok tt) → ⊥ }
    ensures nothing_appended { (old : String Global) → AppendsTo standard 1337 old old (Ok tt) → ⊥ }
    ensures refused_changed { (old new : String Global) (e : AllocError)
        → string_bytes old ≡ codes "> "
        → string_bytes new ≡ codes "> L" → AppendsTo standard 1337 old new (Err e) → ⊥ }
    ensures refused_grown { (old new : String Global) (e : AllocError)
        → string_capacity old < string_capacity new → AppendsTo standard 1337 old new (Err e) → ⊥ }
    ensures refused_with_room { (old new : String Global) (e : AllocError)
        → string_len old + 2 ≤ string_capacity old → AppendsTo standard 1337 old new (Err e) → ⊥ }
    ensures refused_22_bytes { (old new : String Global) (e : AllocError)
        → string_len old + 22 ≤ string_capacity old
        → AppendsTo standard (62 ^ 22) old new (Err e) → ⊥ }
    ensures shrunk { (old new : String Global) → string_capacity new < string_capacity old
        → AppendsTo standard 1337 old new (Ok tt) → ⊥ }
    ensures not_read_back { (old new : String Global) → string_bytes old ≡ codes "> "
        → string_bytes new ≡ codes "> 7n42DGM5Tflk9n8mt7Fhc8"
        → AppendsTo standard (2 ^ 128) old new (Ok tt) → ⊥ }
    ensures no_letter { (old new : String Global) → string_len new ≡ string_len old
        → AppendsTo standard 0 old new (Ok tt) → ⊥ }
    ensures a_letter_more { (old new : String Global) → string_len new ≡ string_len old + 23
        → AppendsTo standard (62 ^ 22) old new (Ok tt) → ⊥ }
{}

/// The contents of a writer before and after, if its contract specifies them.
pub fn written_by_example()
    ensures text { WritesCanonical standard 1337 (Some (codes "> ")) (Some (codes "> LZ")) }
    ensures untold { WritesCanonical standard 1337 None None }
    ensures earlier_lost { WritesCanonical standard 1337 (Some (codes "> ")) (Some (codes "LZ"))
        → ⊥ }
    ensures leading_zero { WritesCanonical standard 1337 (Some (codes "> "))
        (Some (codes "> 0LZ")) → ⊥ }
    ensures other_text { WritesCanonical standard 1337 (Some (codes "> ")) (Some (codes "> lz"))
        → ⊥ }
    ensures nothing_written { WritesCanonical standard 1337 (Some (codes "> ")) (Some (codes "> "))
        → ⊥ }
    ensures no_longer_told { WritesCanonical standard 1337 (Some (codes "> ")) None → ⊥ }
    ensures not_read_back { WritesCanonical standard (2 ^ 128) (Some (codes "> "))
        (Some (codes "> 7n42DGM5Tflk9n8mt7Fhc8")) → ⊥ }
{}

/// The steps of encoding, by the number of letters.
pub fn encoding_steps_by_example()
    ensures of_1 { encoding_steps 1 ≡ 1 }
    ensures of_2 { encoding_steps 2 ≡ 1 }
    ensures of_3 { encoding_steps 3 ≡ 2 }
    ensures of_4 { encoding_steps 4 ≡ 2 }
    ensures of_5 { encoding_steps 5 ≡ 3 }
    ensures of_6 { encoding_steps 6 ≡ 3 }
    ensures of_7 { encoding_steps 7 ≡ 4 }
    ensures of_8 { encoding_steps 8 ≡ 4 }
    ensures of_9 { encoding_steps 9 ≡ 5 }
    ensures of_10 { encoding_steps 10 ≡ 7 }
    ensures of_11 { encoding_steps 11 ≡ 7 }
    ensures of_12 { encoding_steps 12 ≡ 7 }
    ensures of_13 { encoding_steps 13 ≡ 8 }
    ensures of_14 { encoding_steps 14 ≡ 8 }
    ensures of_15 { encoding_steps 15 ≡ 9 }
    ensures of_16 { encoding_steps 16 ≡ 9 }
    ensures of_17 { encoding_steps 17 ≡ 10 }
    ensures of_18 { encoding_steps 18 ≡ 10 }
    ensures of_19 { encoding_steps 19 ≡ 11 }
    ensures of_20 { encoding_steps 20 ≡ 12 }
    ensures of_21 { encoding_steps 21 ≡ 13 }
    ensures of_22 { encoding_steps 22 ≡ 13 }
{}

/// The results of a counted call that encodes 1337, whose text takes one step, with the counter at
/// 5.
pub fn counted_by_example()
    ensures moved { EncodesCounted standard 1337 (codes "...") (codes "LZ.") 5 6 (Ok 2) }
    ensures refused { EncodesCounted standard 1337 (codes ".") (codes ".") 5 5
        (Err BufferTooSmall) }
    ensures left { EncodesCounted standard 1337 (codes "...") (codes "LZ.") 5 5 (Ok 2) → ⊥ }
    ensures moved_more { EncodesCounted standard 1337 (codes "...") (codes "LZ.") 5 7 (Ok 2) → ⊥ }
    ensures refused_moved { EncodesCounted standard 1337 (codes ".") (codes ".") 5 6
        (Err BufferTooSmall) → ⊥ }
    ensures other_text { EncodesCounted standard 1337 (codes "...") (codes "lz.") 5 6 (Ok 2) → ⊥ }
{}
