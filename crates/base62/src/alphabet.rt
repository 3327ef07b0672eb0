//! Alphabets: their characters, and the digits of bytes.

ghost use Rattle.std.specs.Prelude.{◌≡◌, ◌↔◌, ℕ, Err, IsTrue, IsOk, IfOk, nat_eq};
ghost use Rattle.std.specs.Cmp.{partial_equiv_from_equiv};
ghost use Rattle.std.specs.Cmp.Lexicographic.{nat_list_eq_equiv, pointwise};
ghost use Rattle.std.specs.Str.{IsAscii};
ghost use Rattle.base62.specs.Alphabet.{IsAlphabet, RepeatsFirst, is_alphabet, is_ascii, standard, alternative};
ghost use Rattle.base62.specs.Order.{Ascends, is_ascending};
ghost use Rattle.base62.specs.Tables.{AreTables};
ghost use Rattle.base62.specs.declared.fault.AlphabetError.TheVariants.{Repeated};

mod tables;
mod work;

use crate::fault::AlphabetError;
use std::fmt;
use std::marker::Model;
pub(crate) use tables::{Tables, alternative_tables, standard_tables};
pub use work::Work;

/// An alphabet of 62 distinct bytes: the characters of the digits 0 to 61, in order.
///
/// The first character represents zero. The calls that use an alphabet have `_with` in their names:
/// [`decode_with`] is like [`decode`], but uses a custom alphabet. An alphabet contains its
/// characters and the digits of all bytes, and does not allocate.
///
/// ```rust
/// // Digits and letters, but none that look alike, and some punctuation.
/// let characters = *b"23456789ABCDEFGHJKLMNPQRSTUVWXYZabcdefghijkmnpqrstuvwxyz-_.~!*";
/// let alphabet = base62::Alphabet::from_static(characters);
/// assert_eq!(rt; base62::decode_with(&alphabet, b"32"), Ok(62));
/// ```
///
/// [`decode`]: crate::decode
/// [`decode_with`]: crate::decode_with
#[derive(Clone, Copy)]
pub struct Alphabet {
    tables: Tables,
}

// In contracts the value of an alphabet is the list of its letters.
impl Model for Alphabet {
    ghost use Rattle.std.specs.Prelude.{ℕ, List};
    ghost use Rattle.base62.specs.Tables.{AreTables, digits_of_bytes};

    ghost Value = { List ℕ };

    ghost view = { λ a. a.tables.letters };

    ghost invariant = { λ a. AreTables a.tables };

    ghost inverse = { λ letters.
        record { tables = record { letters = letters; digits = digits_of_bytes letters } } };
}

impl Alphabet {
    /// Creates an alphabet from 62 bytes, ASCII or not.
    ///
    /// Does not allocate.
    ///
    /// ```rust
    /// let repeated = base62::Alphabet::new([b'a'; 62]);
    /// assert_eq!(rt; repeated.err(), Some(base62::AlphabetError::Repeated(b'a', 1)));
    /// ```
    ///
    /// # Errors
    ///
    /// Returns [`Repeated(byte, index)`](AlphabetError::Repeated) if a byte is repeated. The index
    /// is the least one whose byte is also at an earlier index.
    pub const fn new(characters: [u8; 62]) -> Result<Alphabet, AlphabetError>
        ensures ok { IfOk result (λ alphabet. alphabet ≡ characters) }
        ensures accepted { IsOk result ↔ IsAlphabet characters }
        ensures named { (byte index : ℕ) → result ≡ Err (Repeated byte index)
            → RepeatsFirst characters byte index }
    {
        let mut digits = [255u8; 256];
        let mut index = 0;
        while index < characters.len() {
            let byte = characters[index];
            if digits[byte as usize] != 255 {
                return Err(AlphabetError::Repeated(byte, index));
            }
            digits[byte as usize] = index as u8;
            index += 1;
        }
        Ok(Alphabet {
            tables: Tables {
                letters: characters,
                digits,
            },
        })
    }

    /// Creates an alphabet from a literal, whose 62 bytes have to be distinct.
    ///
    /// Use [`new`](Alphabet::new) for characters that come from input. Does not allocate.
    ///
    /// ```rust
    /// let characters = *b"ABCDEFGHIJKLMNOPQRSTUVWXYZabcdefghijklmnopqrstuvwxyz0123456789";
    /// let alphabet = base62::Alphabet::from_static(characters);
    /// assert_eq!(rt; base62::decode_with(&alphabet, b"BA"), Ok(62));
    /// ```
    #[tactic(auto, using(crate::proofs::OrderLemmas::letters_by_test))]
    pub const fn from_static(characters: [u8; 62]) -> Alphabet
        requires { IsTrue (is_alphabet characters) }
        ensures characters { result ≡ characters }
        ensures ascends { IsTrue (is_ascending characters) → Ascends result }
        ensures ascii { IsTrue (is_ascii characters) → IsAscii result }
    {
        match Alphabet::new(characters) {
            Ok(alphabet) => alphabet,
            Err(_) => unreachable!("the alphabet repeats a character"),
        }
    }

    /// Returns the standard alphabet: `0` to `9`, `A` to `Z`, `a` to `z`.
    ///
    /// ```rust
    /// let alphabet = base62::Alphabet::standard();
    /// assert_eq!(rt; base62::decode_with(&alphabet, b"LZ"), Ok(1337));
    /// ```
    pub const fn standard() -> Alphabet
        ensures { result ≡ standard }
    {
        Alphabet {
            tables: *standard_tables(),
        }
    }

    /// Returns the alternative alphabet: `0` to `9`, `a` to `z`, `A` to `Z`.
    ///
    /// ```rust
    /// let alphabet = base62::Alphabet::alternative();
    /// assert_eq!(rt; base62::decode_with(&alphabet, b"lz"), Ok(1337));
    /// ```
    pub const fn alternative() -> Alphabet
        ensures { result ≡ alternative }
    {
        Alphabet {
            tables: *alternative_tables(),
        }
    }

    /// Returns the 62 characters: the one at index d has the digit d.
    ///
    /// ```rust
    /// assert_eq!(rt; base62::Alphabet::standard().characters()[10], b'A');
    /// ```
    pub const fn characters(&self) -> &[u8; 62]
        ensures characters { result.now ≡ self.now }
        ensures alphabet { IsAlphabet self.now }
    {
        &self.tables.letters
    }

    /// Returns whether each character is ASCII.
    ///
    /// The calls that encode to a `String` or a `&str`, or for a format string, require this.
    ///
    /// ```rust
    /// assert!(rt; base62::Alphabet::standard().is_ascii());
    /// ```
    pub const fn is_ascii(&self) -> bool
        ensures { IsTrue result ↔ IsAscii self.now }
    {
        let characters = self.characters();
        let mut is_ascii = true;
        let mut index = 0;
        while index < characters.len() {
            // Without a branch, the compiler vectorizes the loop.
            is_ascii &= characters[index] < 128;
            index += 1;
        }
        is_ascii
    }

    /// Returns whether each character is a greater byte than the one before it.
    ///
    /// If so, the lexicographic order of strings of one length is the order of their numbers.
    ///
    /// ```rust
    /// assert!(rt; base62::Alphabet::standard().is_ascending());
    /// assert!(rt; !base62::Alphabet::alternative().is_ascending());
    /// ```
    pub const fn is_ascending(&self) -> bool
        ensures { IsTrue result ↔ Ascends self.now }
    {
        let characters = self.characters();
        let mut index = 1;
        while index < characters.len() {
            if characters[index] <= characters[index - 1] {
                return false;
            }
            index += 1;
        }
        true
    }

    // Returns the tables for encoding and decoding.
    #[inline(always)]
    pub(crate) fn as_tables(&self) -> &Tables
        ensures tables { AreTables result.now }
        ensures letters { result.now.letters ≡ self.now }
    {
        &self.tables
    }
}

/// Two alphabets are equal if their characters are.
impl PartialEq for Alphabet {
    ghost eq = { pointwise nat_eq };

    ghost laws = { partial_equiv_from_equiv nat_list_eq_equiv };

    fn eq(&self, other: &Alphabet) -> bool {
        self.tables.letters == other.tables.letters
    }
}

impl Eq for Alphabet {
    ghost laws = { nat_list_eq_equiv };
}

/// Writes the characters, as `Alphabet(b"0123..")`, with non-printable and non-ASCII bytes escaped.
impl fmt::Debug for Alphabet {
    fn fmt<W: fmt::Write>(&self, f: &mut fmt::Formatter<W>) -> fmt::Result {
        let letters = self.tables.letters.escape_ascii();
        f.debug_tuple("Alphabet")
            .field(&format_args!("b\"{letters}\""))
            .finish()
    }
}
