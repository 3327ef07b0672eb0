//! Tests of the length of texts.

use base62::digit_count;
use std::process::Abort;

fn assert_counts(rt: &impl Abort, number: u128, count: usize) {
    assert!(rt; digit_count(number) == count, "the digits of {number}");
}

// The length increases by one at each power of 62.
#[test]
fn test_digit_count(rt: HostRuntime) {
    let mut power: u128 = 1;
    for exponent in 1..=21_usize {
        power = power.wrapping_mul(62);
        assert_counts(&rt, power.wrapping_sub(1), exponent);
        assert_counts(&rt, power, exponent + 1);
        assert_counts(&rt, power.wrapping_add(1), exponent + 1);
    }
    let cases = [
        (0, 1),
        (1, 1),
        (64, 2),
        // The largest of u64, and the number after it.
        (18446744073709551615, 11),
        (18446744073709551616, 11),
        // 2^126, and the number before it.
        (85070591730234615865843651857942052863, 22),
        (85070591730234615865843651857942052864, 22),
        // The two largest numbers.
        (340282366920938463463374607431768211454, 22),
        (340282366920938463463374607431768211455, 22),
    ];
    for (number, count) in cases {
        assert_counts(&rt, number, count);
    }
}
