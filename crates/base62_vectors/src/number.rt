//! Tests of values of each type.

ghost use Rattle.std.specs.Prelude.{◌+◌, ◌*◌, ◌^◌};

use crate::support::alphabets::Letters;
use crate::support::checks::assert_encodes;
use base62::Number;
use std::process::Abort;

// A type of the caller's, of two halves, which represents high * 2^64 + low.
#[derive(Clone, Copy)]
struct Pair {
    high: u64,
    low: u64,
}

impl Number for Pair {
    ghost meaning = { λ p. p.high * 2 ^ 64 + p.low };

    fn number(self) -> u128 {
        u128::from(self.high) * 18446744073709551616 + u128::from(self.low)
    }
}

fn assert_standard<T: Number + Copy>(rt: &impl Abort, number: T, text: &str) {
    assert_encodes(rt, Letters::Standard, number, text.as_bytes());
}

#[test]
fn values_of_each_type(rt: HostRuntime) {
    for (value, text) in [(true, "1"), (false, "0")] {
        assert_standard(&rt, value, text);
    }
    for (value, text) in [('z', "1y"), ('\0', "0"), ('A', "13"), (char::MAX, "4fpX")] {
        assert_standard(&rt, value, text);
    }
    for (value, text) in [(u8::MAX, "47"), (0, "0")] {
        assert_standard(&rt, value, text);
    }
    assert_standard(&rt, u16::MAX, "H31");
    assert_standard(&rt, u32::MAX, "4gfFC3");
}

#[test]
fn values_of_a_callers_own_type(rt: HostRuntime) {
    for (high, low, text) in [
        (0, 0, "0"),
        (1, 0, "LygHa16AHYG"),
        (u64::MAX, u64::MAX, "7n42DGM5Tflk9n8mt7Fhc7"),
    ] {
        assert_standard(&rt, Pair { high, low }, text);
    }
}
