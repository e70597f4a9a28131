// Words put together from others, and every other digit of a word.
ghost use Rattle.std.specs.Prelude.{◌≡◌, Bool, ℕ, ◌+◌, ◌*◌, ◌-◌, ◌/◌, ◌^◌, ◌<◌};
ghost use Rattle.std.specs.Int.Bits.{bit_and, bit_or};
ghost use Rattle.places.specs.Algorithm.Words.{word_of};

// The word with more digits, above all its digits.
pub fn with_digits(word: u64, b: usize, more: u64) -> u64
    requires { (b < 64) × (word < 2 ^ b) × (more < 2 ^ (64 - b)) }
    ensures { result ≡ more * 2 ^ b + word }
{
    (more << b) + word
}

// Of groups of digits with as many zeros after each, every two moved together: `keep` has the digits of both.
fn gathered(word: u64, size: usize, keep: u64) -> u64
    requires { size < 64 }
    ensures { result ≡ bit_and keep (bit_or word (word / 2 ^ size)) }
{
    keep & (word | (word >> size))
}

// The digits of a word at its even places, moved together: in five steps, by groups of 1, 2, 4, 8 and 16.
pub fn evens(word: u64) -> u64
    ensures { (p : ℕ → Bool) → word ≡ word_of 64 p → result ≡ word_of 32 (λ k. p (2 * k)) }
{
    let ones = 0x5555_5555_5555_5555 & word;
    let twos = gathered(ones, 1, 0x3333_3333_3333_3333);
    let fours = gathered(twos, 2, 0x0f0f_0f0f_0f0f_0f0f);
    let eights = gathered(fours, 4, 0x00ff_00ff_00ff_00ff);
    let sixteens = gathered(eights, 8, 0x0000_ffff_0000_ffff);
    gathered(sixteens, 16, 0x0000_0000_ffff_ffff)
}
