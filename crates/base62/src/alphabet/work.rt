//! The counter of steps.

ghost use Rattle.std.specs.Prelude.{◌≡◌, ◌+◌};

use std::marker::Model;
use std::mem;
use std::snapshot::Snapshot;

/// A counter of steps. A step looks up the digit of a byte, the character of a digit, or the
/// characters of two digits at once.
///
/// It is for a caller that has to bound its work, such as a server that decodes its input. Counted
/// calls, such as [`decode_counted`](crate::decode_counted), document how many steps they add. Only
/// contracts can read it: its value in a contract is the number of steps, which cannot overflow. At
/// run time it has size 0, and nothing can be read from it. So a program gets a proved bound on its
/// steps, not their number.
///
/// ```rust
/// let mut work = base62::Work::new();
/// assert_eq!(rt; base62::decode_counted(b"LZ", &mut work), Ok(1337));
/// ```
#[derive(Drop)]
pub struct Work {
    // `None` at the start, and after a step the counter before the step.
    before: Snapshot<Option<Work>>,
}

impl Model for Work {
    ghost use Rattle.std.specs.Prelude.{ℕ, ◌+◌};
    ghost use Rattle.std.specs.Option.{option_map_or};

    ghost Value = { ℕ };

    ghost view = { λ w. option_map_or (λ steps. steps + 1) w.before.value 0 };

    ghost size = { λ steps. steps };
}

const _: () = prove!(size_of::<Work>() == 0);

impl Work {
    /// Creates a counter of no steps.
    #[inline(always)]
    pub fn new() -> Work
        ensures { result ≡ 0 }
    {
        Work {
            before: Snapshot::of(&None),
        }
    }

    // Adds one step.
    #[inline(always)]
    pub(super) fn tick(&mut self)
        ensures { self.new ≡ self.old + 1 }
    {
        let before = mem::replace(self, Work::new());
        *self = Work {
            before: Snapshot::of(&Some(before)),
        };
    }
}

/// Like [`Work::new`].
impl Default for Work {
    ghost is_default = { λ work. work ≡ 0 };

    #[inline(always)]
    fn default() -> Work {
        Work::new()
    }
}
