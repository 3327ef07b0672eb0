//! The laws on errors.

ghost use Rattle.std.specs.Prelude.{◌≡◌, ◌<◌, ◌↔◌, true};
ghost use Rattle.std.specs.declared.cmp.Ordering.TheVariants.{Equal};
ghost use Rattle.base62.specs.Value.{value};
ghost use Rattle.base62.specs.Decoding.{decoding};
ghost use Rattle.base62.specs.Fault.{alphabet_error_order, canonical_error_order, decode_error_order, fixed_error_order};
ghost use Rattle.base62.specs.declared.fault.AlphabetError.{AlphabetError};
ghost use Rattle.base62.specs.declared.fault.CanonicalError.{CanonicalError};
ghost use Rattle.base62.specs.declared.fault.DecodeError.{DecodeError};
ghost use Rattle.base62.specs.declared.fault.EncodeError.{EncodeError};
ghost use Rattle.base62.specs.declared.fault.FixedError.{FixedError};
ghost use Rattle.base62.specs.declared.fault.UuidError.{UuidError};

use crate::fault;
use std::hash::Hash;

/// The order of errors of decoding: an overflow is least, then comes the empty input, and then bad
/// bytes, by byte and then by index. Two errors are equal, and compare as equal, exactly if they
/// are the same value. Equal errors have equal hashes.
pub fn order_of_decode_errors()
    ensures order { (d e : DecodeError)
        → ⟦<fault::DecodeError as Ord>⟧.cmp d e ≡ decode_error_order d e }
    ensures equal { (d e : DecodeError)
        → (⟦<fault::DecodeError as PartialEq>⟧.eq d e ≡ true) ↔ (d ≡ e) }
    ensures compare_equal { (d e : DecodeError)
        → (⟦<fault::DecodeError as Ord>⟧.cmp d e ≡ Equal) ↔ (d ≡ e) }
    ensures hashed_alike { (d e : DecodeError)
        → ⟦<fault::DecodeError as PartialEq>⟧.eq d e ≡ true
        → ⟦<fault::DecodeError as Hash>⟧.hash_input d
        ≡ ⟦<fault::DecodeError as Hash>⟧.hash_input e }
{}

/// The order of errors of canonical decoding: a leading zero is least, then come the errors of
/// decoding in their order. Two errors are equal, and compare as equal, exactly if they are the same
/// value. Equal errors have equal hashes.
pub fn order_of_canonical_errors()
    ensures order { (d e : CanonicalError)
        → ⟦<fault::CanonicalError as Ord>⟧.cmp d e ≡ canonical_error_order d e }
    ensures equal { (d e : CanonicalError)
        → (⟦<fault::CanonicalError as PartialEq>⟧.eq d e ≡ true) ↔ (d ≡ e) }
    ensures compare_equal { (d e : CanonicalError)
        → (⟦<fault::CanonicalError as Ord>⟧.cmp d e ≡ Equal) ↔ (d ≡ e) }
    ensures hashed_alike { (d e : CanonicalError)
        → ⟦<fault::CanonicalError as PartialEq>⟧.eq d e ≡ true
        → ⟦<fault::CanonicalError as Hash>⟧.hash_input d
        ≡ ⟦<fault::CanonicalError as Hash>⟧.hash_input e }
{}

/// The order of errors of fixed decoding: a wrong length is least, then come the errors of decoding
/// in their order. Two errors are equal, and compare as equal, exactly if they are the same value.
/// Equal errors have equal hashes.
pub fn order_of_fixed_errors()
    ensures order { (d e : FixedError)
        → ⟦<fault::FixedError as Ord>⟧.cmp d e ≡ fixed_error_order d e }
    ensures equal { (d e : FixedError)
        → (⟦<fault::FixedError as PartialEq>⟧.eq d e ≡ true) ↔ (d ≡ e) }
    ensures compare_equal { (d e : FixedError)
        → (⟦<fault::FixedError as Ord>⟧.cmp d e ≡ Equal) ↔ (d ≡ e) }
    ensures hashed_alike { (d e : FixedError)
        → ⟦<fault::FixedError as PartialEq>⟧.eq d e ≡ true
        → ⟦<fault::FixedError as Hash>⟧.hash_input d
        ≡ ⟦<fault::FixedError as Hash>⟧.hash_input e }
{}

/// There is one error of encoding. It is equal to itself, compares as equal and has one hash.
pub fn order_of_encode_errors()
    ensures equal { (d e : EncodeError) → ⟦<fault::EncodeError as PartialEq>⟧.eq d e ≡ true }
    ensures compare_equal { (d e : EncodeError) → ⟦<fault::EncodeError as Ord>⟧.cmp d e ≡ Equal }
    ensures hashed_alike { (d e : EncodeError)
        → ⟦<fault::EncodeError as Hash>⟧.hash_input d
        ≡ ⟦<fault::EncodeError as Hash>⟧.hash_input e }
{}

/// There is one error of the strings of UUIDs. It is equal to itself, compares as equal and has one
/// hash.
pub fn order_of_uuid_errors()
    ensures equal { (d e : UuidError) → ⟦<fault::UuidError as PartialEq>⟧.eq d e ≡ true }
    ensures compare_equal { (d e : UuidError) → ⟦<fault::UuidError as Ord>⟧.cmp d e ≡ Equal }
    ensures hashed_alike { (d e : UuidError)
        → ⟦<fault::UuidError as Hash>⟧.hash_input d
        ≡ ⟦<fault::UuidError as Hash>⟧.hash_input e }
{}

/// The order of errors of alphabets: by byte and then by index. Two are equal, and compare as
/// equal, exactly if they are the same value. Equal errors have equal hashes.
pub fn order_of_alphabet_errors()
    ensures order { (d e : AlphabetError)
        → ⟦<fault::AlphabetError as Ord>⟧.cmp d e ≡ alphabet_error_order d e }
    ensures equal { (d e : AlphabetError)
        → (⟦<fault::AlphabetError as PartialEq>⟧.eq d e ≡ true) ↔ (d ≡ e) }
    ensures compare_equal { (d e : AlphabetError)
        → (⟦<fault::AlphabetError as Ord>⟧.cmp d e ≡ Equal) ↔ (d ≡ e) }
    ensures hashed_alike { (d e : AlphabetError)
        → ⟦<fault::AlphabetError as PartialEq>⟧.eq d e ≡ true
        → ⟦<fault::AlphabetError as Hash>⟧.hash_input d
        ≡ ⟦<fault::AlphabetError as Hash>⟧.hash_input e }
{}

/// A clone of an error equals it, and cloning never fails.
pub fn clones_of_errors()
    ensures decode_error { (d e : DecodeError) → ⟦<fault::DecodeError as Clone>⟧.is_clone d e
        → e ≡ d }
    ensures decode_error_always { (d : DecodeError)
        → ⟦<fault::DecodeError as Clone>⟧.is_infallible d }
    ensures canonical_error { (d e : CanonicalError)
        → ⟦<fault::CanonicalError as Clone>⟧.is_clone d e → e ≡ d }
    ensures canonical_error_always { (d : CanonicalError)
        → ⟦<fault::CanonicalError as Clone>⟧.is_infallible d }
    ensures fixed_error { (d e : FixedError) → ⟦<fault::FixedError as Clone>⟧.is_clone d e
        → e ≡ d }
    ensures fixed_error_always { (d : FixedError)
        → ⟦<fault::FixedError as Clone>⟧.is_infallible d }
    ensures encode_error { (d e : EncodeError) → ⟦<fault::EncodeError as Clone>⟧.is_clone d e
        → e ≡ d }
    ensures encode_error_always { (d : EncodeError)
        → ⟦<fault::EncodeError as Clone>⟧.is_infallible d }
    ensures alphabet_error { (d e : AlphabetError) → ⟦<fault::AlphabetError as Clone>⟧.is_clone d e
        → e ≡ d }
    ensures alphabet_error_always { (d : AlphabetError)
        → ⟦<fault::AlphabetError as Clone>⟧.is_infallible d }
    ensures uuid_error { (d e : UuidError) → ⟦<fault::UuidError as Clone>⟧.is_clone d e → e ≡ d }
    ensures uuid_error_always { (d : UuidError) → ⟦<fault::UuidError as Clone>⟧.is_infallible d }
{}
