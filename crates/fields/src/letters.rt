// The letters of a record's cells, as words of bits. A code has a bit for A, the low one, and one for B: code 3 has both, and a hole neither.
ghost use Rattle.std.specs.Prelude.{◌≡◌, ◌+◌, ◌*◌, ◌≤◌, ◌<◌};
ghost use Rattle.places.specs.Algorithm.Words.{word_of};
ghost use Rattle.fields.specs.Record.{cell_of};
ghost use Rattle.fields.specs.Algorithm.Letters.{has_a, has_b, fours_of, letters_in};

use crate::fields::{HEADER_BYTES, byte};
use places::{Line, Places, with_digits};

// By the half of a byte, two cells: the bits for A, and 16 times those for B.
const TWOS: [u8; 16] = [0, 1, 16, 17, 2, 3, 18, 19, 32, 33, 48, 49, 34, 35, 50, 51];

// The letters of the four cells of a byte: the bits for A, and 16 times those for B.
fn fours(codes: u8) -> u8
    ensures { result ≡ fours_of codes }
{
    let codes = usize::from(codes);
    TWOS[codes % 16] + 4 * TWOS[codes / 16]
}

// The letters of the cells of some bytes: a word of the bits for A, and one of those for B.
fn letter_words(part: &[u8], from: usize, count: usize) -> (u64, u64)
    requires { (count ≤ 16) × (from + count ≤ 24) }
    ensures a { result.0 ≡ word_of (4 * count) (λ k. has_a (cell_of part.now (4 * from + k))) }
    ensures b { result.1 ≡ word_of (4 * count) (λ k. has_b (cell_of part.now (4 * from + k))) }
{
    let mut a = 0;
    let mut b = 0;
    for j in 0..count {
        let four = u64::from(fours(byte(part, HEADER_BYTES + from + j)));
        a = with_digits(a, 4 * j, four % 16);
        b = with_digits(b, 4 * j, four / 16);
    }
    (a, b)
}

// The cells of a record with the bit for A, and those with the bit for B.
pub fn letters_of(part: &[u8]) -> Line
    ensures { result ≡ letters_in part.now }
{
    let (a_low, b_low) = letter_words(part, 0, 16);
    let (a_high, b_high) = letter_words(part, 16, 8);
    Line {
        a: Places {
            low: a_low,
            high: a_high,
        },
        b: Places {
            low: b_low,
            high: b_high,
        },
    }
}
