// The places of the keep marks of columns.
ghost use Rattle.std.specs.Prelude.{◌≡◌, ◌+◌, ◌≤◌};
ghost use Rattle.conflicts.specs.Choice.{marked};
ghost use Rattle.places.specs.Algorithm.Words.{word_of};
ghost use Rattle.places.specs.Algorithm.Places.{places_where};

use fields::byte;
use places::{Places, with_bit};

// The marks of the 64 places from one on.
fn mark_word(marks: &[u8], start: usize) -> u64
    requires { start ≤ 64 }
    ensures { result ≡ word_of 64 (λ b. marked marks.now (start + b)) }
{
    let mut word = 0;
    for b in 0..64 {
        word = with_bit(word, b, 0 < byte(marks, start + b));
    }
    word
}

// The places below 128 that have a keep mark.
pub fn kept(marks: &[u8]) -> Places
    ensures { result ≡ places_where (marked marks.now) }
{
    Places {
        low: mark_word(marks, 0),
        high: mark_word(marks, 64),
    }
}
