//! Keys between two bounds, and a bound on the work of a request.

ghost use Rattle.std.specs.Prelude.{◌≡◌, ◌<◌, ◌≤◌, ◌+◌, ◌*◌, ◌^◌, ◌↔◌, ℕ, List, length, Some, None, IsTrue, count_by};
ghost use Rattle.std.specs.Result.{is_ok};
ghost use Rattle.base62.specs.Alphabet.{standard};
ghost use Rattle.base62.specs.Decoding.{decoding};
ghost use Rattle.base62.specs.Key.{IsKey};
ghost use Rattle.base62.specs.Range.{BeginsWith};
ghost use Rattle.base62.specs.Order.{IsNotAfter};

use base62::{Alphabet, Work};

/// Returns the first and the last key of a database scan for the rows whose keys begin with a
/// prefix, or `None` if there are no such rows.
pub fn scan_ends(prefix: &[u8]) -> Option<([u8; 22], [u8; 22])>
    ensures found { (ends : List ℕ × List ℕ) (n : ℕ) (key : List ℕ) → result ≡ Some ends
        → n < 2 ^ 128 → IsKey standard key n → BeginsWith prefix.now key
        → IsNotAfter ends.0 key × IsNotAfter key ends.1 }
    ensures alone { (ends : List ℕ × List ℕ) (n : ℕ) (key : List ℕ) → result ≡ Some ends
        → n < 2 ^ 128 → IsKey standard key n → IsNotAfter ends.0 key → IsNotAfter key ends.1
        → BeginsWith prefix.now key }
    ensures none { (n : ℕ) (key : List ℕ) → result ≡ None → n < 2 ^ 128 → IsKey standard key n
        → BeginsWith prefix.now key → ⊥ }
{
    base62::laws::built_in_alphabets();
    let Ok(Some(ends)) = base62::prefix_range(prefix, 22) else {
        return None;
    };
    let low = base62::encode_key(ends.0);
    let high = base62::encode_key(ends.1);
    base62::laws::scan_of_prefix(&Alphabet::standard(), 22, prefix, ends, &low, &high);
    Some((low, high))
}

/// Returns whether a key is on the page of the keys from that of one id to that of another, by their
/// bytes, as a database compares them.
pub fn is_on_page(first: u128, last: u128, key: &[u8; 22]) -> bool
    ensures { (n : ℕ) → n < 2 ^ 128 → IsKey standard key.now n
        → (IsTrue result ↔ ((first ≤ n) × (n ≤ last))) }
{
    base62::laws::built_in_alphabets();
    base62::laws::order_of_texts();
    let low = base62::encode_key(first);
    let high = base62::encode_key(last);
    low.cmp(key).is_le() && key.cmp(&high).is_le()
}

/// Returns how many texts of a request denote an id, for a server that has to bound its work. Each
/// text takes at most 22 steps, whatever a client sent.
pub fn count_ids(texts: &[&[u8]], work: &mut Work) -> usize
    ensures ids { result ≡ count_by (λ text. is_ok (decoding standard text.now)) texts.now }
    ensures bounded { work.new ≤ work.old + 22 * length texts.now }
{
    let mut count = 0;
    for text in texts {
        if base62::decode_counted(text, work).is_ok() {
            count += 1;
        }
    }
    count
}
