// What was answered and written, compared with the words that are recorded of it.
ghost use Rattle.std.specs.Prelude.{◌≡◌, ℕ};
ghost use Rattle.replay.specs.Same.{no_index, no_number, number_word, same};

use std::num::f64_to_bits_with_nan;

// What an entry writes to a buffer: an index or a number.
pub trait Recorded: Copy {
    ghost word: { Self → ℕ };

    ghost NONE: { ℕ };

    // What stands in a lent buffer before an entry is called.
    const BLANK: Self;

    // Its word.
    const NONE: u64;

    // The word that is recorded of a value.
    fn word(self) -> u64
        ensures { result ≡ word self };
}

// Both zeros are alike, and so is every NaN.
impl Recorded for f64 {
    ghost word = { number_word };

    ghost NONE = { no_number };

    const BLANK: f64 = -12345678.0;

    const NONE: u64 = f64::to_bits(-12345678.0);

    fn word(self) -> u64 {
        f64_to_bits_with_nan(self + 0.0)
    }
}

impl Recorded for u32 {
    ghost word = { λ n. n };

    ghost NONE = { no_index };

    const BLANK: u32 = 0xdead_beef;

    const NONE: u64 = 0xdead_beef;

    fn word(self) -> u64 {
        u64::from(self)
    }
}

// Whether out begins with what is recorded and is as before beyond it.
pub fn same<T: Recorded>(recorded: &[u64], out: &[T]) -> bool
    ensures { result ≡ same T.word T.NONE recorded.now 0 out.now }
{
    for (i, x) in out.iter().enumerate() {
        if x.word() != recorded.get(i).copied().unwrap_or(T::NONE) {
            return false;
        }
    }
    recorded.len() <= out.len()
}
