//! Numbers that can be encoded.

ghost use Rattle.std.specs.Prelude.{◌≡◌, ℕ, if◌then◌else◌};

/// A type whose values can be encoded, since each represents an integer from 0 to 2^128 - 1.
///
/// An `impl` states the number of a value as the ghost `meaning`, and returns it from `number`.
/// Implement it for a type of your own to encode its values. `number` never fails, and does not
/// allocate.
///
/// ```rust
/// use base62::Number;
///
/// assert_eq!(rt; 1337_u64.number(), 1337_u128);
/// assert_eq!(rt; 'é'.number(), 0xe9_u128);
/// ```
pub trait Number {
    // The number that a value represents.
    ghost meaning: { Self → ℕ };

    /// Returns the number that `self` represents.
    fn number(self) -> u128
        ensures { result ≡ meaning self };
}

/// `false` represents 0, and `true` represents 1.
impl Number for bool {
    ghost meaning = { λ b. if b then 1 else 0 };

    #[inline]
    fn number(self) -> u128 {
        u128::from(self)
    }
}

/// A character represents its Unicode scalar value.
impl Number for char {
    ghost meaning = { λ c. c };

    #[inline]
    fn number(self) -> u128 {
        u128::from(self)
    }
}

impl Number for u8 {
    ghost meaning = { λ n. n };

    #[inline]
    fn number(self) -> u128 {
        u128::from(self)
    }
}

impl Number for u16 {
    ghost meaning = { λ n. n };

    #[inline]
    fn number(self) -> u128 {
        u128::from(self)
    }
}

impl Number for u32 {
    ghost meaning = { λ n. n };

    #[inline]
    fn number(self) -> u128 {
        u128::from(self)
    }
}

impl Number for u64 {
    ghost meaning = { λ n. n };

    #[inline]
    fn number(self) -> u128 {
        u128::from(self)
    }
}

impl Number for u128 {
    ghost meaning = { λ n. n };

    #[inline]
    fn number(self) -> u128 {
        self
    }
}

/// Sixteen bytes, such as those of a UUID, represent a big-endian integer.
#[tactic(auto, using(crate::proofs::UuidLemmas::number_from_bytes))]
impl Number for [u8; 16] {
    ghost use Rattle.base62.specs.Uuid.{uuid_number};

    ghost meaning = { λ uuid. uuid_number uuid };

    #[inline]
    fn number(self) -> u128 {
        u128::from_be_bytes(self)
    }
}
