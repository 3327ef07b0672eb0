//! A buffer that contains the text of a number.

ghost use Rattle.std.specs.Prelude.{◌≡◌, ◌≤◌, ℕ, List, length, take, Ok};
ghost use Rattle.std.specs.Str.{IsAscii};
ghost use Rattle.base62.specs.declared.count.TheConstants.{MAX_DIGITS};
ghost use Rattle.base62.specs.Canonical.{IsCanonical};
ghost use Rattle.base62.specs.Decoding.{decoding};
ghost use Rattle.base62.specs.Tables.{AreTables};

use crate::alphabet::{Tables, Work};
use crate::codec::encoder::write_number;
use crate::count::{MAX_DIGITS, digit_count};
use crate::number::Number;
use std::marker::Model;
use std::str;

// A text of at most 22 letters.
#[derive(Drop)]
pub(crate) struct Text {
    bytes: [u8; MAX_DIGITS],
    len: usize,
}

impl Model for Text {
    ghost Value = { List ℕ };

    ghost view = { λ t. take t.len t.bytes };

    ghost invariant = { λ t. t.len ≤ MAX_DIGITS };
}

impl Text {
    // Creates an empty text.
    #[inline]
    pub(crate) fn new() -> Text {
        Text {
            bytes: [0; MAX_DIGITS],
            len: 0,
        }
    }

    // Replaces the text by that of a number over the alphabet of the tables. Unlike `over`, it does
    // not copy a text.
    #[inline]
    pub(crate) fn set<T: Number>(&mut self, tables: &Tables, num: T)
        requires { AreTables tables.now }
        ensures text { IsCanonical tables.now.letters self.new (T.meaning num) }
        ensures back { decoding tables.now.letters self.new ≡ Ok (T.meaning num) }
    {
        let n = num.number();
        let len = digit_count(n);
        write_number(tables, n, len, &mut self.bytes, &mut Work::new());
        self.len = len;
    }

    #[inline]
    pub(crate) fn over<T: Number>(tables: &Tables, num: T) -> Text
        requires { AreTables tables.now }
        ensures { IsCanonical tables.now.letters result (T.meaning num) }
    {
        let mut text = Text::new();
        text.set(tables, num);
        text
    }

    #[inline]
    pub(crate) fn as_bytes(&self) -> &[u8]
        ensures bytes { result.now ≡ self.now }
        ensures short { length result.now ≤ MAX_DIGITS }
    {
        &self.bytes[..self.len]
    }

    #[inline]
    pub(crate) fn as_str(&self) -> &str
        requires { IsAscii self.now }
        ensures bytes { result.now ≡ self.now }
        ensures short { length result.now ≤ MAX_DIGITS }
    {
        // SAFETY: the letters are ASCII.
        unsafe { str::from_utf8_unchecked(self.as_bytes()) }
    }
}
