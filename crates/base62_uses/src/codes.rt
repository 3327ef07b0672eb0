//! Codes over a custom alphabet, which is made once.

ghost use Rattle.std.specs.Prelude.{◌≡◌, ◌<◌, ◌^◌, ◌↔◌, ℕ, Some, IsOk, IfOk};
ghost use Rattle.base62.specs.Alphabet.{IsAlphabet};
ghost use Rattle.base62.specs.Canonical.{IsCanonical};

use base62::{Alphabet, AlphabetError};

/// The codes of a service, over its own characters.
#[derive(Clone, Copy)]
pub struct Codes {
    pub alphabet: Alphabet,
}

impl Codes {
    /// Makes the alphabet of the characters in a configuration.
    pub fn new(characters: [u8; 62]) -> Result<Codes, AlphabetError>
        ensures accepted { IsOk result ↔ IsAlphabet characters }
        ensures ok { IfOk result (λ codes. codes.alphabet ≡ characters) }
    {
        Ok(Codes {
            alphabet: Alphabet::new(characters)?,
        })
    }

    /// Writes the code of an id, and returns it. Never fails.
    pub fn code<'a>(&self, id: u64, buf: &'a mut [u8; 22]) -> &'a [u8]
        ensures { IsCanonical self.now.alphabet result.now id }
    {
        let len = base62::encode_bytes_with(&self.alphabet, id, buf).unwrap();
        &buf[..len]
    }

    /// Returns the id of a code, or `None` for every other string.
    pub fn id(&self, code: &[u8]) -> Option<u64>
        ensures own { (id : ℕ) → id < 2 ^ 64 → IsCanonical self.now.alphabet code.now id
            → result ≡ Some id }
        ensures code { (id : ℕ) → result ≡ Some id → IsCanonical self.now.alphabet code.now id }
    {
        let number = base62::decode_canonical_with(&self.alphabet, code).ok()?;
        u64::try_from(number).ok()
    }

    /// Encodes an id as a code, and decodes the code: the result is the id.
    pub fn id_of_own_code(&self, id: u64) -> Option<u64>
        ensures { result ≡ Some id }
    {
        let mut buf = [0u8; 22];
        self.id(self.code(id, &mut buf))
    }
}
