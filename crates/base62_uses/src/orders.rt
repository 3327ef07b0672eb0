//! A number type of a caller, whose keys sort by its parts.

ghost use Rattle.std.specs.Prelude.{◌≡◌, ◌+◌, ◌*◌, ◌^◌};
ghost use Rattle.std.specs.Ordering.{nat_cmp, ordering_then};
ghost use Rattle.base62.specs.Alphabet.{standard};
ghost use Rattle.base62.specs.Key.{IsKey};

use base62::{Alphabet, Number};
use std::cmp::Ordering;

/// An id that sorts by the time at which it was created, and then by a sequence number.
#[derive(Clone, Copy)]
pub struct TimedId {
    pub milliseconds: u64,
    pub sequence: u32,
}

/// The time is in the high bits.
impl Number for TimedId {
    ghost meaning = { λ id. id.milliseconds * 2 ^ 32 + id.sequence };

    fn number(self) -> u128 {
        u128::from(self.milliseconds) * (1 << 32) + u128::from(self.sequence)
    }
}

/// Returns the key of an id.
pub fn timed_key(id: TimedId) -> [u8; 22]
    ensures { IsKey standard result (id.milliseconds * 2 ^ 32 + id.sequence) }
{
    base62::encode_key(id)
}

/// Compares two ids by the bytes of their keys. The later one is greater, and ids of one time
/// compare by their sequence numbers.
pub fn compare_timed(a: TimedId, b: TimedId) -> Ordering
    ensures { result ≡ ordering_then (nat_cmp a.milliseconds b.milliseconds)
        (nat_cmp a.sequence b.sequence) }
{
    base62::laws::built_in_alphabets();
    let (first, second) = (timed_key(a), timed_key(b));
    base62::laws::order_of_two(
        &Alphabet::standard(),
        22,
        &first,
        &second,
        a.number(),
        b.number(),
    );
    base62::laws::order_of_parts(
        u128::from(a.milliseconds),
        u128::from(a.sequence),
        u128::from(b.milliseconds),
        u128::from(b.sequence),
        1 << 32,
    );
    first.cmp(&second)
}
