//! Where a line ends.

ghost use Rattle.std.specs.Prelude.{◌≡◌, ◌≢◌, ◌<◌, length, MatchOption};
ghost use Rattle.std.specs.List.{All, AllWithin, HoldsAt};

use std::simd::prelude::*;

// Returns the index of the first byte 10. Of 64 bytes it is the lowest bit of a mask.
pub(crate) fn line_end(bytes: &[u8]) -> Option<usize>
    ensures { MatchOption result (All (λ b. b ≢ 10) bytes.now)
        (λ end. (end < length bytes.now) × HoldsAt (λ b. b ≡ 10) bytes.now end
        × AllWithin (λ b. b ≢ 10) bytes.now 0 end) }
{
    if bytes.len() >= 64 {
        let ends = u8x64::from_slice(bytes)
            .simd_eq(u8x64::splat(b'\n'))
            .to_bitmask();
        if ends != 0 {
            return Some(ends.trailing_zeros() as usize);
        }
    }
    bytes.iter().position(|byte| *byte == b'\n')
}
